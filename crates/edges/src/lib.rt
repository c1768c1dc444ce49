// Tests at the edges of every range, with a field of two elements that reaches those which the three fields cannot.
#![tactic(auto)]

ghost use Rattle.edges.specs.Two.{two};
ghost use Rattle.std.specs.Prelude.{refl};
ghost use Rattle.std.proofs.Common.{lit<, lit≤};
ghost use Rattle.field.specs.BinaryLaws.{binary_laws};

use field::Field;

#[cfg(test)]
mod codes;
#[cfg(test)]
mod fields;

// The least field there is, of two elements: a smaller alphabet than that of any other, so that an inner code can have too few
// users.
// It is written out here since its product and inverse need no table and no loop, as those of the larger fields do.
#[derive(Clone, Copy)]
pub struct Two;

impl Field for Two {
    ghost meaning = { λ _. two };

    ghost lawful = { λ f. binary_laws 0 1 (lit< tt) (refl, refl, refl, refl) (lit< tt) (lit≤ tt) };

    fn size(&self) -> u16 {
        2
    }

    fn sum(&self, a: u8, b: u8) -> Option<u8> {
        (a < 2 && b < 2).then_some(a ^ b)
    }

    fn product(&self, a: u8, b: u8) -> Option<u8> {
        (a < 2 && b < 2).then_some(if b == 1 { a } else { 0 })
    }

    fn negative(&self, a: u8) -> Option<u8> {
        (a < 2).then_some(a)
    }

    fn inverse(&self, a: u8) -> Option<u8> {
        (a == 1).then_some(1)
    }
}
