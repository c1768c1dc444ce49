// The doubly extended code over any field.
ghost use Rattle.std.specs.Prelude.{◌≡◌, ℕ, ◌^◌, ◌≤◌};
ghost use Rattle.std.proofs.Common.{subst};
ghost use Rattle.refusal.specs.Tables.{Answers};
ghost use Rattle.reed_solomon.specs.DoublyExtended.{doubly_extended, extended_rows};
ghost use Rattle.reed_solomon.specs.ReedSolomonLaws.{extended_laws};

use crate::polynomials::Polynomials;
use code::Code;
use field::Field;
use refusal::Refusal;

// A position for each element, and one more that holds the top coefficient.
#[derive(Drop)]
pub struct DoublyExtended<F: Field> {
    polynomials: Polynomials<F>,
    ghost elements: { polynomials.coefficients ≤ (F.Field.meaning polynomials.field).size },
}

impl<F: Field + Drop> DoublyExtended<F> {
    pub fn new(field: F, coefficients: usize) -> Result<DoublyExtended<F>, Refusal>
        ensures { Answers result (extended_rows (F.Field.meaning field).size coefficients) (λ c. ⟦<DoublyExtended<F> as Code>⟧.meaning c ≡ doubly_extended (F.Field.meaning field) coefficients) }
    {
        let size = field.size() as usize;
        let polynomials = Polynomials::new(field, coefficients, size)?;
        Ok(DoublyExtended { polynomials })
    }
}

impl<F: Field> Code for DoublyExtended<F> {
    ghost meaning = { λ c. doubly_extended (F.Field.meaning c.polynomials.field) c.polynomials.coefficients };

    ghost lawful = { λ c.
        let p = c.polynomials in
        extended_laws _ (F.Field.lawful p.field) p.coefficients p.coefficients_low c.elements
        (subst (λ (n : ℕ). n ≤ 2 ^ 32) p.counted p.count_high) };

    fn users(&self) -> u64 {
        self.polynomials.users()
    }

    fn length(&self) -> usize {
        1 + self.polynomials.field.size() as usize
    }

    fn alphabet(&self) -> u16 {
        self.polynomials.alphabet()
    }

    fn overlap(&self) -> usize {
        self.polynomials.overlap()
    }

    fn symbol(&self, user: u64, position: usize) -> Option<u8> {
        let p = &self.polynomials;
        let size = p.field.size() as usize;
        if user >= p.count || position > size {
            return None;
        }
        if position == size {
            return Some(p.top(user));
        }
        Some(p.value(user, position as u8))
    }
}
