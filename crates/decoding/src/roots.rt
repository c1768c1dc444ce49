// Finding all roots of a polynomial in x and y.
ghost use Rattle.std.specs.Prelude.{◌≡◌, suc, ◌*◌, true, false, ◌&&◌, length, drop, is_err, MatchOption};
ghost use Rattle.refusal.specs.Tables.{Answers, within};
ghost use Rattle.bivariate.specs.Terms.{most_y, polynomial};
ghost use Rattle.decoding.specs.Decoding.{pieces, only_zeros, found_bytes, memory_bytes, RootsFound, root_rows};

use crate::subject::{Limits, Subject};
use bivariate::{Terms, first_stranger};
use field::Field;
use interpolation::Fault;

// Whether each number is 0.
fn only_zeros(numbers: &[u8]) -> bool
    ensures { result ≡ only_zeros numbers.now }
{
    numbers.iter().all(|number| *number == 0)
}

// How many bytes finding roots wants: those for what is found, and those of its memory.
#[derive(Clone, Copy)]
pub struct Room {
    pub found: usize,
    pub memory: usize,
}

// How many bytes `find_roots` wants for these a and d. None where a is not 1 to 255 or d is not 1 to 257.
pub fn search_room(a: usize, d: usize) -> Option<Room>
    ensures { MatchOption result ((within 1 a 255 && within 1 d 257) ≡ false) (λ r. ((within 1 a 255 && within 1 d 257) ≡ true) × (r.found ≡ found_bytes a d) × (r.memory ≡ memory_bytes a d)) }
{
    // the ranges that `check` refuses one by one
    if !(1..=255).contains(&a) || !(1..=257).contains(&d) {
        return None;
    }
    let limits = Limits {
        terms: Terms { a, d },
    };
    Some(Room {
        found: limits.found_bytes(),
        memory: limits.memory_bytes(),
    })
}

// Refuses what cannot be searched. `decode` has a table of its own, which names the sizes of a word.
fn check<'a, F: Field>(
    field: &'a F,
    a: usize,
    d: usize,
    coefficients: &'a [u8],
    room: usize,
    memory: usize,
) -> Result<Subject<'a, F>, Fault>
    ensures { Answers result (root_rows (F.Field.meaning field.now) a d coefficients.now room memory) (λ s. (s.field.now ≡ field.now) × (s.coefficients.now ≡ coefficients.now) × (s.limits.terms.a ≡ a) × (s.limits.terms.d ≡ d)) }
{
    if !(1..=255).contains(&a) {
        return Err(Fault::DegreeOutOfRange(a));
    }
    if !(1..=257).contains(&d) {
        return Err(Fault::BoundOutOfRange(d));
    }
    let limits = Limits {
        terms: Terms { a, d },
    };
    if coefficients.len() > limits.term_count() {
        return Err(Fault::TooManyCoefficients(coefficients.len()));
    }
    if room < limits.found_bytes() {
        return Err(Fault::RoomTooShort(limits.found_bytes()));
    }
    if memory < limits.memory_bytes() {
        return Err(Fault::MemoryTooShort(limits.memory_bytes()));
    }
    if let Some(i) = first_stranger(field, coefficients) {
        return Err(Fault::NotAnElement(i));
    }
    if only_zeros(coefficients) {
        return Err(Fault::AllZero);
    }
    Ok(Subject {
        field,
        limits,
        coefficients,
    })
}

// Finds every polynomial f of degree at most a with Q(x, f(x)) = 0, where Q has these coefficients in the order of its
// terms x^g·y^j with g + a·j < d. As no heap is used, they stand one behind the other in `found`, each with a + 1
// coefficients, and are as many as the call returns.
pub fn find_roots<F: Field>(
    field: &F,
    a: usize,
    d: usize,
    coefficients: &[u8],
    found: &mut [u8],
    memory: &mut [u8],
) -> Result<usize, Fault>
    ensures answer { Answers result (root_rows (F.Field.meaning field.now) a d coefficients.now (length found.old) (length memory.old)) (λ n. RootsFound (F.Field.meaning field.now) (polynomial a d coefficients.now) (suc a) (most_y a d) (pieces (suc a) n found.new) × (drop (n * suc a) found.new ≡ drop (n * suc a) found.old)) }
    ensures refused { is_err result ≡ true → (found.new ≡ found.old) × (memory.new ≡ memory.old) }
    ensures lengths { (length found.new ≡ length found.old) × (length memory.new ≡ length memory.old) }
{
    let subject = check(field, a, d, coefficients, found.len(), memory.len())?;
    Ok(subject.run(found, memory))
}
