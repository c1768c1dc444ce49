// List decoding of a word.
ghost use Rattle.std.specs.Prelude.{◌≡◌, suc, ◌*◌, ◌≤◌, true, length, drop, IfSome, is_err};
ghost use Rattle.refusal.specs.Tables.{Answers};
ghost use Rattle.bivariate.specs.Bivariate.{points_from};
ghost use Rattle.bivariate.specs.Terms.{degree_bound};
ghost use Rattle.decoding.specs.Decoding.{pieces, decoding_rows, Decoded, bytes_answer};

use crate::roots::find_roots;
use crate::subject::Limits;
use bivariate::first_stranger;
use field::Field;
use interpolation::{Fault, interpolate};

// What decoding a word gives: how many positions are enough to be found, and how many polynomials were found. As no heap is
// used, these stand in bytes that are handed in, and their number is handed out.
#[derive(Clone, Copy)]
pub struct Listing {
    pub enough: usize,
    pub count: usize,
}

// How many bytes finding the roots wants for polynomials of degree at most a and words of n numbers: those for what is found and
// those of its memory together. None where a is not 1 to 255 or n is above 256. For a up to 7 they are at most 8,192.
pub fn root_bytes(a: usize, n: usize) -> Option<usize>
    ensures answer { result ≡ bytes_answer a n }
    ensures few { a ≤ 7 → IfSome result (λ bytes. bytes ≤ 8192) }
{
    if !(1..=255).contains(&a) || n > 256 {
        return None;
    }
    let limits = Limits::for_word(a, n);
    Some(limits.found_bytes() + limits.memory_bytes())
}

// Refuses what cannot be decoded. `decode` checks before its calls, so that a refusal names its own sizes; they have other
// tables of refusals and, being public, check again.
fn check<F: Field>(
    field: &F,
    a: usize,
    word: &[u8],
    room: usize,
    memory: usize,
) -> Result<(), Fault>
    ensures { Answers result (decoding_rows (F.Field.meaning field.now) a word.now room memory) (λ _. Unit {0}) }
{
    if !(1..=255).contains(&a) {
        return Err(Fault::DegreeOutOfRange(a));
    }
    let n = word.len();
    if n > field.size() as usize {
        return Err(Fault::WordTooLong(n));
    }
    let wanted = Limits::for_word(a, n);
    if room < wanted.found_bytes() {
        return Err(Fault::RoomTooShort(wanted.found_bytes()));
    }
    let needed = (n + 1) * (n + 2) + wanted.memory_bytes();
    if memory < needed {
        return Err(Fault::MemoryTooShort(needed));
    }
    match first_stranger(field, word) {
        Some(i) => Err(Fault::NotAnElement(i)),
        None => Ok(()),
    }
}

// Finds every polynomial of degree at most a that agrees with the word in enough positions: they stand one behind the other
// in `found`, each with a + 1 coefficients. There may be others among them, which agree with it less often.
pub fn decode<F: Field>(
    field: &F,
    a: usize,
    word: &[u8],
    found: &mut [u8],
    memory: &mut [u8],
) -> Result<Listing, Fault>
    ensures answer { Answers result (decoding_rows (F.Field.meaning field.now) a word.now (length found.old) (length memory.old)) (λ l. (l.enough ≡ degree_bound a (length word.now)) × Decoded (F.Field.meaning field.now) a l.enough (points_from 0 word.now) (pieces (suc a) l.count found.new) × (drop (l.count * suc a) found.new ≡ drop (l.count * suc a) found.old)) }
    ensures refused { is_err result ≡ true → (found.new ≡ found.old) × (memory.new ≡ memory.old) }
    ensures lengths { (length found.new ≡ length found.old) × (length memory.new ≡ length memory.old) }
{
    check(field, a, word, found.len(), memory.len())?;
    let w = word.len() + 1;
    let (coefficients, rest) = memory.split_at_mut(w);
    let (vectors, stages) = rest.split_at_mut(w * w);
    let enough = interpolate(field, a, word, coefficients, vectors)?;
    let count = find_roots(field, a, enough, coefficients, found, stages)?;
    Ok(Listing { enough, count })
}
