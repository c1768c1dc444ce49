// Polynomials in x and y, and an evaluation of them that is the tests' own.
// Each sum and product is proved not to wrap, and each divisor not to be 0. A test has no bound to prove it from, so they
// saturate, and a divisor is at least 1.
use code::Code;
use decoding::find_roots;
use field::Field;
use std::process::Abort;
use std::test::Fail;

// The coefficients of the terms x^g·y^j with g + a·j below the bound, in their order; what is missing at the end is 0.
#[derive(Drop)]
pub(crate) struct Polynomial<'a, F: Field> {
    pub(crate) field: &'a F,
    pub(crate) a: usize,
    pub(crate) bound: usize,
    pub(crate) terms: &'a [u8],
}

impl<F: Field> Polynomial<'_, F> {
    // The value at x and y, one term after another.
    pub(crate) fn value(&self, x: u8, y: u8) -> Option<u8> {
        let mut value = 0u8;
        let mut rest = self.terms;
        let mut y_power = 1u8;
        for below in (0..self.bound).step_by(self.a.max(1)) {
            let width = self.bound.saturating_sub(below).min(rest.len());
            let (row, after) = rest.split_at(width);
            let mut power = y_power;
            for c in row {
                value = self.field.sum(value, self.field.product(*c, power)?)?;
                power = self.field.product(power, x)?;
            }
            y_power = self.field.product(y_power, y)?;
            rest = after;
        }
        Some(value)
    }

    pub(crate) fn is_zero(&self) -> bool {
        self.terms.iter().all(|c| *c == 0)
    }

    // Whether it is 0 at every point of the word.
    pub(crate) fn passes(&self, word: &[u8]) -> bool {
        (0..=u8::MAX)
            .zip(word)
            .all(|(x, y)| self.value(x, *y) == Some(0))
    }

    // Whether it is 0 at every element x with the value there of the user's polynomial in the place of y.
    pub(crate) fn vanishes<C: Code>(&self, code: &C, user: u64) -> bool {
        (0..self.field.size()).all(|x| {
            code.symbol(user, x as usize)
                .and_then(|y| self.value((x & 0xff) as u8, y))
                == Some(0)
        })
    }

    // The roots that are found, one behind the other, given no byte more than they want: worked out here, and not by the call that
    // tells it.
    pub(crate) fn roots(&self, rt: &(impl Abort + AllocGlobal)) -> Result<Vec<u8>, Fail> {
        let most = self.bound.saturating_sub(1) / self.a.max(1);
        let k = self.a.saturating_add(1);
        let grids = k.saturating_mul(self.bound.saturating_mul(most.saturating_add(1)));
        let mut found = vec![in rt.alloc(); 0u8; most.saturating_mul(k)]?;
        let mut memory = vec![in rt.alloc(); 0u8; k.saturating_add(grids)]?;
        let count = find_roots(
            self.field,
            self.a,
            self.bound,
            self.terms,
            &mut found,
            &mut memory,
        )?;
        assert!(rt; count <= most);
        found.truncate(count.saturating_mul(k));
        Ok(found)
    }
}
