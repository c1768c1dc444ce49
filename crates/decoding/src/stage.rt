// A polynomial in x and y, laid out with w powers of y for each of d powers of x, and the steps from one to the next.
ghost use Rattle.std.specs.Prelude.{◌≡◌, ℕ, suc, ◌+◌, ◌-◌, ◌*◌, ◌<◌, ◌≤◌, ◌↔◌, List, ◌∷◌, length};
ghost use Rattle.bivariate.specs.Bivariate.{Elements, Elements-prop, Root};
ghost use Rattle.bivariate.specs.Grid.{cell, grid, Weighted, Nonzero};
ghost use Rattle.bivariate.specs.Steps.{Divided};
ghost use Rattle.decoding.specs.Stages.{Shifted, Spread, Indivisible};

use crate::shift::Shift;
use field::Field;

// How many powers of y and of x there is room for. The numbers are handed to its methods beside it: a type that held a `&mut` to
// them would save each method the clause on their length, and cost it two, that it lends the same slice and has the same shape. That
// not all are 0, and that they are elements, is so before some of these steps alone.
#[derive(Clone, Copy)]
pub(crate) struct Shape {
    pub(crate) w: usize,
    pub(crate) d: usize,
    ghost wide: { 1 ≤ w },
    ghost deep: { 1 ≤ d },
}

// One stage on the way to the roots. Its methods are handed c, a candidate for the next coefficient: a type of stage and
// candidate would be made for each candidate, and be taken apart in each method.
#[derive(Drop)]
pub(crate) struct Stage<'a, F: Field> {
    pub(crate) field: &'a F,
    pub(crate) shape: Shape,
    pub(crate) cells: &'a [u8],
    ghost sized: { length cells.now ≡ shape.d * shape.w },
    ghost elements: { Elements (F.Field.meaning field.now) cells.now } by { Elements-prop (F.Field.meaning field.now) cells.now },
}

impl Shape {
    // Each group, the polynomial in y before a power of x, with y + c in the place of y.
    fn shift_groups<F: Field>(self, shift: &Shift<F>, cells: &mut [u8])
        requires sized { length cells.old ≡ self.d * self.w }
        requires elements { Elements (F.Field.meaning shift.now.field.now) cells.old }
        ensures elements { Elements (F.Field.meaning shift.now.field.now) cells.new }
        ensures after { Shifted (F.Field.meaning shift.now.field.now) shift.now.c self.w self.d cells.old cells.new }
    {
        // by index: tried `chunks_exact_mut`, in whose loop no invariant can name the slice as it is written so far
        for g in 0..self.d {
            shift.apply(&mut cells[g * self.w..g * self.w + self.w]);
        }
    }

    // The coefficient of x^g·y^j goes to x^(g + j)·y^j, from the top down so that none is lost before it has moved, and by
    // index since each place reads another.
    fn spread(self, cells: &mut [u8])
        requires sized { length cells.old ≡ self.d * self.w }
        ensures after { Spread self.w self.d cells.old cells.new }
    {
        for k in (0..cells.len()).rev() {
            let g = k / self.w;
            let j = k % self.w;
            cells[k] = if g >= j {
                cells[(g - j) * self.w + j]
            } else {
                0
            };
        }
    }

    // The highest power of x that divides the polynomial.
    fn highest_power(self, cells: &[u8]) -> usize
        requires sized { length cells.now ≡ self.d * self.w }
        requires nonzero { Nonzero self.w self.d cells.now }
        ensures low { result < self.d }
        ensures divides { (g j : ℕ) → g < result → j < self.w → cell self.w cells.now g j ≡ 0 }
        ensures highest { (j : ℕ) × (j < self.w) × ¬ (cell self.w cells.now result j ≡ 0) }
    {
        cells.iter().position(|number| *number != 0).unwrap() / self.w
    }

    // The polynomial divided by x^r.
    fn divide_by(self, r: usize, cells: &mut [u8])
        requires sized { length cells.old ≡ self.d * self.w }
        requires low { r < self.d }
        requires divides { (g j : ℕ) → g < r → j < self.w → cell self.w cells.old g j ≡ 0 }
        ensures same_length { length cells.new ≡ length cells.old }
        ensures divided { Divided self.w self.d r cells.old cells.new }
        ensures lowest { (j : ℕ) × (j < self.w) × ¬ (cell self.w cells.old r j ≡ 0) → Indivisible self.w cells.new }
    {
        cells.rotate_left(r * self.w);
    }

    // The polynomial without the highest power of x that divides it.
    pub(crate) fn divide(self, cells: &mut [u8])
        requires sized { length cells.old ≡ self.d * self.w }
        requires nonzero { Nonzero self.w self.d cells.old }
        ensures same_length { length cells.new ≡ length cells.old }
        ensures divided { (r : ℕ) × (r < self.d) × Divided self.w self.d r cells.old cells.new }
        ensures highest { Indivisible self.w cells.new }
    {
        let r = self.highest_power(cells);
        self.divide_by(r, cells);
    }
}

impl<'a, F: Field> Stage<'a, F> {
    // The polynomial for the coefficients after the element c: with c + x·y in the place of y, divided by the highest power of x.
    pub(crate) fn advance(&self, c: u8, next: &mut [u8])
        requires room { length next.old ≡ length self.now.cells.now }
        requires element { c < (F.Field.meaning self.now.field.now).size }
        requires weighted { Weighted 1 self.now.shape.w self.now.shape.d self.now.cells.now }
        requires nonzero { Nonzero self.now.shape.w self.now.shape.d self.now.cells.now }
        ensures same_length { length next.new ≡ length next.old }
        ensures elements { Elements (F.Field.meaning self.now.field.now) next.new }
        ensures weights { (v : ℕ) → Weighted (suc v) self.now.shape.w self.now.shape.d self.now.cells.now → Weighted v self.now.shape.w self.now.shape.d next.new }
        ensures highest { Indivisible self.now.shape.w next.new }
        ensures roots { (f : List ℕ) → Elements (F.Field.meaning self.now.field.now) f → Root (F.Field.meaning self.now.field.now) (grid self.now.shape.w self.now.shape.d self.now.cells.now) (c ∷ f) ↔ Root (F.Field.meaning self.now.field.now) (grid self.now.shape.w self.now.shape.d next.new) f }
    {
        next.copy_from_slice(self.cells);
        let shift = Shift {
            field: self.field,
            c,
        };
        self.shape.shift_groups(&shift, next);
        self.shape.spread(next);
        self.shape.divide(next);
    }
}
