// Points through which polynomials go, one after another.
ghost use Rattle.std.specs.Prelude.{◌≡◌, ℕ, ◌<◌, ◌≤◌, List, [], ◌∷◌, ◌++◌, length, take};
ghost use Rattle.bivariate.specs.Bivariate.{PointsOf};
ghost use Rattle.bivariate.specs.Terms.{term_count, monomials};
ghost use Rattle.interpolation.specs.Staircase.{Staircase};
ghost use Rattle.interpolation.specs.Through.{Through};

use crate::elements::product;
use crate::equations::Equation;
use bivariate::Terms;
use field::Field;

// A point (x, y).
#[derive(Drop)]
pub(crate) struct Point<'a, F: Field> {
    pub(crate) field: &'a F,
    pub(crate) x: u8,
    pub(crate) y: u8,
    ghost place: { x < (F.Field.meaning field.now).size },
    ghost value: { y < (F.Field.meaning field.now).size },
}

impl<'a, F: Field> Point<'a, F> {
    // Writes the values at the point of the terms, in their order, as many as there is room for.
    fn write_equation(&self, terms: Terms, out: &mut [u8])
        requires { length out.old ≤ term_count terms.a terms.d }
        ensures { out.new ≡ take (length out.old) (monomials (F.Field.meaning self.now.field.now) terms.a terms.d self.now.x self.now.y) }
    {
        let mut value = 1u8;
        let mut first = 1u8;
        let mut width = terms.d;
        let mut left = terms.d;
        // no plainer row by row: each power of y has a terms fewer than the one before, so that no size of chunks names the rows
        for place in out.iter_mut() {
            *place = value;
            left -= 1;
            if left == 0 {
                // the next power of y, with a powers of x fewer
                first = product(self.field, self.y, first);
                value = first;
                width = width.saturating_sub(terms.a);
                left = width;
            } else {
                value = product(self.field, self.x, value);
            }
        }
    }

    // Makes the polynomial of each vector that is alive 0 at the point too. What `equation` holds before does not matter. It is
    // written, so that its length stands in each contract: a type round the `&mut` would owe that it lends the same slice.
    pub(crate) fn impose(&self, terms: Terms, equation: &mut [u8], vectors: &mut [u8])
        requires wide { 0 < length equation.old }
        requires room { length equation.old ≤ term_count terms.a terms.d }
        requires staircase { Staircase (F.Field.meaning self.now.field.now) (length equation.old) vectors.old }
        ensures { (points : List (ℕ × ℕ)) → PointsOf (F.Field.meaning self.now.field.now) points → Through (F.Field.meaning self.now.field.now) terms.a terms.d (length equation.old) points vectors.old → Through (F.Field.meaning self.now.field.now) terms.a terms.d (length equation.old) (points ++ (self.now.x, self.now.y) ∷ []) vectors.new }
    {
        self.write_equation(terms, equation);
        let equation = Equation {
            field: self.field,
            coefficients: equation,
        };
        equation.impose(vectors);
    }
}
