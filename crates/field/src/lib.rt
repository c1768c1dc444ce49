// Finite fields of at most 256 elements: an interface with a meaning and laws, and three fields that have them.
#![tactic(auto)]

ghost use Rattle.std.specs.Prelude.{◌≡◌};
ghost use Rattle.field.specs.Meaning.{FieldMeaning, FieldLaws, answer, pair_answer, inverse_answer};

mod binary;
mod inverses;
mod logarithms;
mod modular;
mod powers;

pub use binary::{Gf16, Gf256};
pub use modular::Mod251;

// A field whose elements are the numbers below its size. What an implementation means is a size and four operations,
// and it owes the laws of a field. A question about a number that is no element has no answer.
pub trait Field {
    ghost meaning: { Self → FieldMeaning };

    // How many elements there are: 2 to 256.
    fn size(&self) -> u16
        ensures { result ≡ (meaning self.now).size };

    fn sum(&self, a: u8, b: u8) -> Option<u8>
        ensures { result ≡ pair_answer (meaning self.now) (meaning self.now).sum a b };

    fn product(&self, a: u8, b: u8) -> Option<u8>
        ensures { result ≡ pair_answer (meaning self.now) (meaning self.now).product a b };

    fn negative(&self, a: u8) -> Option<u8>
        ensures { result ≡ answer (meaning self.now) (meaning self.now).negative a };

    // None at 0 too.
    fn inverse(&self, a: u8) -> Option<u8>
        ensures { result ≡ inverse_answer (meaning self.now) a };

    ghost lawful: { (f : Self) → FieldLaws (meaning f) };
}
