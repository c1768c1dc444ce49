// The last coefficient of a root.
ghost use Rattle.std.specs.Prelude.{◌≡◌, ◌-◌, ◌<◌, ◌≤◌, true, false, [], ◌∷◌, length, take, drop, MatchOption};
ghost use Rattle.bivariate.specs.Bivariate.{Root};
ghost use Rattle.bivariate.specs.Grid.{grid};
ghost use Rattle.decoding.specs.Roots.{Told};

use crate::stage::Stage;
use bivariate::value_at;
use field::Field;

// Enters a polynomial where there is room, and answers None where there is not: an Option, so that the caller can use `?`.
// Tried: after a write through `room.get_mut(..k)?` it is not known what the room holds.
fn enter(room: &mut [u8], f: &[u8]) -> Option<()>
    ensures same_length { length room.new ≡ length room.old }
    ensures entered { MatchOption result (length room.old < length f.now) (λ _. (length f.now ≤ length room.old) × (take (length f.now) room.new ≡ f.now) × (drop (length f.now) room.new ≡ drop (length f.now) room.old)) }
{
    let k = f.len();
    if room.len() < k {
        return None;
    }
    room[..k].copy_from_slice(f);
    Some(())
}

impl<'a, F: Field> Stage<'a, F> {
    // Whether the polynomial is 0 with the element c in the place of y: whether each group is 0 at c.
    fn vanishes(&self, c: u8) -> bool
        requires element { c < (F.Field.meaning self.now.field.now).size }
        ensures yes { result ≡ true → Root (F.Field.meaning self.now.field.now) (grid self.now.shape.w self.now.shape.d self.now.cells.now) (c ∷ []) }
        ensures no { result ≡ false → ¬ (Root (F.Field.meaning self.now.field.now) (grid self.now.shape.w self.now.shape.d self.now.cells.now) (c ∷ [])) }
    {
        self.cells
            .chunks_exact(self.shape.w)
            .all(|group| value_at(self.field, group, c) == Some(0))
    }

    // Finds the roots with one coefficient more than was chosen, which is the last one: how many they are, or None where there
    // is no room for all.
    pub(crate) fn last(&self, path: &mut [u8], found: &mut [u8]) -> Option<usize>
        requires some { 1 ≤ length path.old }
        ensures same_length { length found.new ≡ length found.old }
        ensures same_path { (length path.new ≡ length path.old) × (take (length path.old - 1) path.new ≡ take (length path.old - 1) path.old) }
        ensures told { Told (F.Field.meaning self.now.field.now) (grid self.now.shape.w self.now.shape.d self.now.cells.now) 1 (length path.old) (take (length path.old - 1) path.old) found.old found.new result }
    {
        let k = path.len();
        let mut count = 0;
        for c in 0..=self.greatest() {
            if self.vanishes(c) {
                path[k - 1] = c;
                enter(&mut found[count * k..], path)?;
                count += 1;
            }
        }
        Some(count)
    }
}
