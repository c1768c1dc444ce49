// The plain code over any field.
ghost use Rattle.std.specs.Prelude.{◌≡◌, ℕ, ◌^◌, ◌≤◌};
ghost use Rattle.std.proofs.Common.{subst};
ghost use Rattle.refusal.specs.Tables.{Answers};
ghost use Rattle.reed_solomon.specs.Plain.{plain, plain_rows};
ghost use Rattle.reed_solomon.specs.ReedSolomonLaws.{plain_laws};

use crate::polynomials::Polynomials;
use code::Code;
use field::Field;
use refusal::Refusal;

// Position i holds the value of the user's polynomial at the element i.
#[derive(Drop)]
pub struct Plain<F: Field> {
    polynomials: Polynomials<F>,
    length: usize,
    ghost enough: { polynomials.coefficients ≤ length },
    ghost elements: { length ≤ (F.Field.meaning polynomials.field).size },
}

impl<F: Field + Drop> Plain<F> {
    pub fn new(field: F, length: usize, coefficients: usize) -> Result<Plain<F>, Refusal>
        ensures { Answers result (plain_rows (F.Field.meaning field).size length coefficients) (λ c. ⟦<Plain<F> as Code>⟧.meaning c ≡ plain (F.Field.meaning field) length coefficients) }
    {
        if !(2..=field.size() as usize).contains(&length) {
            return Err(Refusal::LengthOutOfRange(length));
        }
        let polynomials = Polynomials::new(field, coefficients, length)?;
        Ok(Plain {
            polynomials,
            length,
        })
    }
}

// Users, alphabet and overlap are the polynomials' own, here as in `DoublyExtended`: an impl writes all methods of its trait.
impl<F: Field> Code for Plain<F> {
    ghost meaning = { λ c. plain (F.Field.meaning c.polynomials.field) c.length c.polynomials.coefficients };

    ghost lawful = { λ c.
        let p = c.polynomials in
        plain_laws _ (F.Field.lawful p.field) c.length p.coefficients p.coefficients_low c.enough c.elements
        (subst (λ (n : ℕ). n ≤ 2 ^ 32) p.counted p.count_high) };

    fn users(&self) -> u64 {
        self.polynomials.users()
    }

    fn length(&self) -> usize {
        self.length
    }

    fn alphabet(&self) -> u16 {
        self.polynomials.alphabet()
    }

    fn overlap(&self) -> usize {
        self.polynomials.overlap()
    }

    fn symbol(&self, user: u64, position: usize) -> Option<u8> {
        let p = &self.polynomials;
        if user >= p.count || position >= self.length {
            return None;
        }
        Some(p.value(user, position as u8))
    }
}
