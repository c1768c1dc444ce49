// Finding roots, one coefficient at a time.
ghost use Rattle.std.specs.Prelude.{◌≡◌, ℕ, suc, ◌+◌, ◌-◌, ◌*◌, ◌<◌, ◌≤◌, true, false, List, ◌∷◌, length, take};
ghost use Rattle.field.specs.Polynomial.{value_at};
ghost use Rattle.bivariate.specs.Bivariate.{Elements, Root};
ghost use Rattle.bivariate.specs.Grid.{group, grid, Weighted};
ghost use Rattle.decoding.specs.Stages.{Indivisible};
ghost use Rattle.decoding.specs.Roots.{Told};

use crate::stage::Stage;
use bivariate::value_at;
use field::Field;

impl<'a, F: Field> Stage<'a, F> {
    // The greatest element of the field.
    pub(crate) fn greatest(&self) -> u8
        ensures { suc result ≡ (F.Field.meaning self.now.field.now).size }
    {
        (self.field.size() - 1) as u8
    }

    // Whether a root can begin with the element c: whether the polynomial in y that stands without x is 0 at c.
    fn begins(&self, c: u8) -> bool
        requires element { c < (F.Field.meaning self.now.field.now).size }
        ensures yes { result ≡ true → value_at (F.Field.meaning self.now.field.now) (group self.now.shape.w self.now.cells.now 0) c ≡ 0 }
        ensures no { result ≡ false → (g : List ℕ) → Elements (F.Field.meaning self.now.field.now) g → ¬ (Root (F.Field.meaning self.now.field.now) (grid self.now.shape.w self.now.shape.d self.now.cells.now) (c ∷ g)) }
    {
        value_at(self.field, &self.cells[..self.shape.w], c) == Some(0)
    }

    // Finds the roots of the polynomial of this stage with `left` coefficients, each behind what was chosen: how many they
    // are, or None where there is no room for all. x does not divide the polynomial, so that what stands without x, which
    // decides how a root can begin, is not 0. The memory is for the stages below. As no heap is used, what was chosen stands at
    // the front of `path`, before the last `left` places, and the roots at the front of `found`.
    pub(crate) fn explore(
        &self,
        left: usize,
        memory: &mut [u8],
        path: &mut [u8],
        found: &mut [u8],
    ) -> Option<usize>
        requires some { 1 ≤ left }
        requires fits { left ≤ length path.old }
        requires room { (left - 1) * length self.now.cells.now ≤ length memory.old }
        requires weighted { Weighted (left - 1) self.now.shape.w self.now.shape.d self.now.cells.now }
        requires indivisible { Indivisible self.now.shape.w self.now.cells.now }
        ensures same_length { length found.new ≡ length found.old }
        ensures same_path { (length path.new ≡ length path.old) × (take (length path.old - left) path.new ≡ take (length path.old - left) path.old) }
        ensures told { Told (F.Field.meaning self.now.field.now) (grid self.now.shape.w self.now.shape.d self.now.cells.now) left (length path.old) (take (length path.old - left) path.old) found.old found.new result }
    {
        if left == 1 {
            return self.last(path, found);
        }
        let (next, deeper) = memory.split_at_mut(self.cells.len());
        let k = path.len();
        let mut count = 0;
        for c in 0..=self.greatest() {
            if self.begins(c) {
                path[k - left] = c;
                self.advance(c, next);
                let below = Stage {
                    field: self.field,
                    shape: self.shape,
                    cells: next,
                };
                count += below.explore(left - 1, deeper, path, &mut found[count * k..])?;
            }
        }
        Some(count)
    }
}
