// y + c in the place of y, in a polynomial in y.
ghost use Rattle.std.specs.Prelude.{◌≡◌, ◌<◌, length, drop, slice_index};
ghost use Rattle.bivariate.specs.Bivariate.{Elements};
ghost use Rattle.bivariate.specs.Grid.{times_linear, shifted};

use bivariate::multiply_add;
use field::Field;

// A shift of y by an element c.
#[derive(Drop)]
pub(crate) struct Shift<'a, F: Field> {
    pub(crate) field: &'a F,
    pub(crate) c: u8,
    ghost element: { c < (F.Field.meaning field.now).size },
}

impl<'a, F: Field> Shift<'a, F> {
    // With p before and T after it, p + (y + c)·T. Its step, which takes elements alone, is private to interpolation too: a
    // function for both crates would be public and have a requires.
    fn times_linear(&self, p: &mut [u8])
        requires some { 0 < length p.old }
        requires elements { Elements (F.Field.meaning self.now.field.now) p.old }
        ensures after { p.new ≡ times_linear (F.Field.meaning self.now.field.now) self.now.c (slice_index p.old 0) (drop 1 p.old) }
    {
        // read once: behind the reference it would be read anew after each place that is written
        let c = self.c;
        // by index, since each place reads its neighbour
        for i in 0..p.len() - 1 {
            p[i] = multiply_add(self.field, p[i], c, p[i + 1]).unwrap();
        }
    }

    // P(y + c), for P a polynomial in y.
    pub(crate) fn apply(&self, p: &mut [u8])
        requires elements { Elements (F.Field.meaning self.now.field.now) p.old }
        ensures after { p.new ≡ shifted (F.Field.meaning self.now.field.now) self.now.c p.old }
    {
        for i in (0..p.len()).rev() {
            self.times_linear(&mut p[i..]);
        }
    }
}
