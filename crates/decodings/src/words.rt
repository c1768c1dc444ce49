// What the tests share: words, their decoding, and the users of polynomials.
// Each sum and product is proved not to wrap, and each divisor not to be 0. A test has no bound to prove it from, so they
// saturate, and a divisor is at least 1.
use crate::Random;
use crate::polynomials::Polynomial;
use decoding::interpolate;
use field::Field;
use std::alloc::{AllocError, Global};
use std::process::Abort;
use std::test::Fail;

// A word of random elements.
pub(crate) fn random_word(
    heap: Global,
    size: u16,
    random: &mut Random,
    length: usize,
) -> Result<Vec<u8>, AllocError> {
    let mut word = vec![in heap; 0u8; length]?;
    word.fill_with(|| (random.next() % u64::from(size.max(1)) & 0xff) as u8);
    Ok(word)
}

// What came of a word: the bound, the coefficients of Q, and the found polynomials, one behind the other.
#[derive(Drop)]
pub(crate) struct Decoded {
    pub(crate) a: usize,
    pub(crate) bound: usize,
    pub(crate) terms: Vec<u8>,
    pub(crate) found: Vec<u8>,
}

impl Decoded {
    pub(crate) fn polynomial<'a, F: Field>(&'a self, field: &'a F) -> Polynomial<'a, F> {
        Polynomial {
            field,
            a: self.a,
            bound: self.bound,
            terms: &self.terms,
        }
    }
}

// Decodes a word, given no byte more than the calls want.
pub(crate) fn decode<F: Field>(
    rt: &(impl Abort + AllocGlobal),
    field: &F,
    a: usize,
    word: &[u8],
) -> Result<Decoded, Fail> {
    // n + 1 numbers and (n + 1)² bytes, as the call asks
    let w = word.len().saturating_add(1);
    let mut terms = vec![in rt.alloc(); 0u8; w]?;
    let mut memory = vec![in rt.alloc(); 0u8; w.saturating_mul(w)]?;
    let bound = interpolate(field, a, word, &mut terms, &mut memory)?;
    let polynomial = Polynomial {
        field,
        a,
        bound,
        terms: &terms,
    };
    let found = polynomial.roots(rt)?;
    Ok(Decoded {
        a,
        bound,
        terms,
        found,
    })
}

// The number of the user with this polynomial: a fold that is the tests' own, as the program that prints tables has another.
pub(crate) fn number_of(size: u16, f: &[u8]) -> u64 {
    f.iter().rev().fold(0u64, |user, c| {
        user.saturating_mul(u64::from(size))
            .saturating_add(u64::from(*c))
    })
}

// The numbers of the users with these polynomials of k coefficients, from the least up.
pub(crate) fn numbers_of(
    heap: Global,
    size: u16,
    k: usize,
    found: &[u8],
) -> Result<Vec<u64>, AllocError> {
    let mut users = found
        .chunks(k.max(1))
        .map(|f| number_of(size, f))
        .collect::<Vec<u64>>(heap)?;
    users.sort()?;
    Ok(users)
}
