// A polynomial in x and y whose roots are to be found, in bytes that are handed in.
ghost use Rattle.std.specs.Prelude.{◌≡◌, ℕ, suc, ◌+◌, ◌*◌, ◌<◌, ◌≤◌, length, drop};
ghost use Rattle.bivariate.specs.Bivariate.{Elements, Elements-prop, Zeros, coefficient};
ghost use Rattle.bivariate.specs.Grid.{cell};
ghost use Rattle.bivariate.specs.Terms.{term_count, most_y, polynomial, degree_bound};
ghost use Rattle.decoding.specs.Decoding.{pieces, found_bytes, memory_bytes, RootsFound};

use crate::stage::{Shape, Stage};
use bivariate::Terms;
use field::Field;

// The terms that the polynomial may have, so few that the bytes for finding its roots can be counted.
#[derive(Clone, Copy)]
pub(crate) struct Limits {
    pub(crate) terms: Terms,
    ghost light: { terms.a ≤ 255 },
    ghost small: { terms.d ≤ 257 },
}

impl Limits {
    // Those for polynomials of degree at most a in a word of n numbers.
    pub(crate) fn for_word(a: usize, n: usize) -> Limits
        requires weight { 1 ≤ a }
        requires light { a ≤ 255 }
        requires few { n ≤ 256 }
        ensures weight { result.terms.a ≡ a }
        ensures bound { result.terms.d ≡ degree_bound a n }
    {
        Limits {
            terms: Terms::exceeding(a, n as u32).unwrap(),
        }
    }

    // How many terms there are: d - a·j of them have y^j.
    pub(crate) fn term_count(self) -> usize
        ensures { result ≡ term_count self.terms.a self.terms.d }
    {
        let Terms { a, d } = self.terms;
        (0..d).map(|j| d.saturating_sub(a * j)).sum()
    }

    // How many bytes the polynomials that are found can take: they are at most as many as the greatest power of y.
    pub(crate) fn found_bytes(self) -> usize
        ensures { result ≡ found_bytes self.terms.a self.terms.d }
    {
        self.terms.most_y() * (self.terms.a + 1)
    }

    // How many bytes of memory finding the roots wants.
    pub(crate) fn memory_bytes(self) -> usize
        ensures { result ≡ memory_bytes self.terms.a self.terms.d }
    {
        let k = self.terms.a + 1;
        k + k * (self.terms.d * self.width())
    }

    // How many powers of y the polynomial can have.
    fn width(self) -> usize
        ensures { result ≡ suc (most_y self.terms.a self.terms.d) }
    {
        self.terms.most_y() + 1
    }

    // Lays the polynomial with these coefficients out in a grid.
    fn lay_out(self, coefficients: &[u8], cells: &mut [u8])
        requires sized { length cells.old ≡ self.terms.d * suc (most_y self.terms.a self.terms.d) }
        ensures same_length { length cells.new ≡ length cells.old }
        ensures cells { (g j : ℕ) → g < self.terms.d → j < suc (most_y self.terms.a self.terms.d) → cell (suc (most_y self.terms.a self.terms.d)) cells.new g j ≡ coefficient (polynomial self.terms.a self.terms.d coefficients.now) g j }
    {
        let w = self.width();
        for (k, cell) in cells.iter_mut().enumerate() {
            *cell = self.terms.coefficient(coefficients, k / w, k % w);
        }
    }
}

// A polynomial that can be searched: its coefficients are elements, are no more than its terms, and are not all 0.
#[derive(Drop)]
pub(crate) struct Subject<'a, F: Field> {
    pub(crate) field: &'a F,
    pub(crate) limits: Limits,
    pub(crate) coefficients: &'a [u8],
    ghost terms: { length coefficients.now ≤ term_count limits.terms.a limits.terms.d },
    ghost elements: { Elements (F.Field.meaning field.now) coefficients.now } by { Elements-prop (F.Field.meaning field.now) coefficients.now },
    ghost nonzero: { ¬ (Zeros coefficients.now) },
}

impl<'a, F: Field> Subject<'a, F> {
    // Finds the roots, where there is room for as many as there can be. The room is asked for here: it is in slices that are
    // written, and no type holds those.
    pub(crate) fn run(&self, found: &mut [u8], memory: &mut [u8]) -> usize
        requires room { found_bytes self.now.limits.terms.a self.now.limits.terms.d ≤ length found.old }
        requires memory { memory_bytes self.now.limits.terms.a self.now.limits.terms.d ≤ length memory.old }
        ensures same_length { length found.new ≡ length found.old }
        ensures roots { RootsFound (F.Field.meaning self.now.field.now) (polynomial self.now.limits.terms.a self.now.limits.terms.d self.now.coefficients.now) (suc self.now.limits.terms.a) (most_y self.now.limits.terms.a self.now.limits.terms.d) (pieces (suc self.now.limits.terms.a) result found.new) }
        ensures beyond { drop (result * suc self.now.limits.terms.a) found.new ≡ drop (result * suc self.now.limits.terms.a) found.old }
    {
        let limits = self.limits;
        let k = limits.terms.a + 1;
        let shape = Shape {
            w: limits.width(),
            d: limits.terms.d,
        };
        let (path, stages) = memory.split_at_mut(k);
        let (cells, deeper) = stages.split_at_mut(shape.d * shape.w);
        limits.lay_out(self.coefficients, cells);
        shape.divide(cells);
        let stage = Stage {
            field: self.field,
            shape,
            cells,
        };
        stage.explore(k, deeper, path, found).unwrap()
    }
}
