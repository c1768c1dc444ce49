// A polynomial that is 0 at the points of a word.
ghost use Rattle.std.specs.Prelude.{◌≡◌, ◌+◌, ◌*◌, ◌<◌, ◌≤◌, true, [], length, take, drop, is_err};
ghost use Rattle.bivariate.specs.Bivariate.{Elements, Elements-prop, points_from, Interpolates};
ghost use Rattle.bivariate.specs.Terms.{term_count, degree_bound, polynomial};
ghost use Rattle.refusal.specs.Tables.{Answers};
ghost use Rattle.interpolation.specs.Interpolation.{interpolation_rows};
ghost use Rattle.interpolation.specs.Through.{Through};

use crate::fault::Fault;
use crate::points::Point;
use crate::staircase::{first_alive, start};
use bivariate::{Terms, first_stranger};
use field::Field;

// Refuses what cannot be interpolated. Finding roots and decoding have tables of their own, with other rows.
fn check<F: Field>(
    field: &F,
    a: usize,
    word: &[u8],
    room: usize,
    memory: usize,
) -> Result<(), Fault>
    ensures { Answers result (interpolation_rows (F.Field.meaning field.now) a word.now room memory) (λ _. Unit {0}) }
{
    if !(1..=255).contains(&a) {
        return Err(Fault::DegreeOutOfRange(a));
    }
    if word.len() > field.size() as usize {
        return Err(Fault::WordTooLong(word.len()));
    }
    let w = word.len() + 1;
    if room < w {
        return Err(Fault::RoomTooShort(w));
    }
    if memory < w * w {
        return Err(Fault::MemoryTooShort(w * w));
    }
    match first_stranger(field, word) {
        Some(i) => Err(Fault::NotAnElement(i)),
        None => Ok(()),
    }
}

// A word of elements, with an element for each of its positions.
#[derive(Drop)]
struct Word<'a, F: Field> {
    field: &'a F,
    numbers: &'a [u8],
    ghost elements: { Elements (F.Field.meaning field.now) numbers.now } by { Elements-prop (F.Field.meaning field.now) numbers.now },
    ghost places: { length numbers.now ≤ (F.Field.meaning field.now).size },
}

impl<'a, F: Field> Word<'a, F> {
    // Imposes the points of the word, one position after another. The length of `equation`, which is written, stands in the
    // contract as in that of a point.
    fn impose(&self, terms: Terms, equation: &mut [u8], vectors: &mut [u8])
        requires wide { 0 < length equation.old }
        requires room { length equation.old ≤ term_count terms.a terms.d }
        requires begun { Through (F.Field.meaning self.now.field.now) terms.a terms.d (length equation.old) [] vectors.old }
        ensures { Through (F.Field.meaning self.now.field.now) terms.a terms.d (length equation.old) (points_from 0 self.now.numbers.now) vectors.new }
    {
        for (x, y) in self.numbers.iter().enumerate() {
            let point = Point {
                field: self.field,
                x: x as u8,
                y: *y,
            };
            point.impose(terms, equation, vectors);
        }
    }

    // Writes a polynomial, not 0 itself, that is 0 at the points of the word, given memory for as many vectors as it has coefficients.
    fn interpolate(&self, terms: Terms, out: &mut [u8], vectors: &mut [u8])
        requires terms { length self.now.numbers.now < term_count terms.a terms.d }
        requires room { length out.old ≡ length self.now.numbers.now + 1 }
        requires memory { length vectors.old ≡ length out.old * length out.old }
        ensures { Interpolates (F.Field.meaning self.now.field.now) terms.a terms.d (points_from 0 self.now.numbers.now) (polynomial terms.a terms.d out.new) }
    {
        let w = out.len();
        start(w, vectors);
        self.impose(terms, out, vectors);
        // more vectors than points, of which each makes at most one die
        let solution = first_alive(w, vectors).unwrap();
        out.copy_from_slice(solution);
    }
}

// Writes to the first n + 1 places of `coefficients` a polynomial with terms x^g·y^j of g + a·j < d that is 0 at the
// n points of the word, and returns d, the least that has more terms than points.
pub fn interpolate<F: Field>(
    field: &F,
    a: usize,
    word: &[u8],
    coefficients: &mut [u8],
    memory: &mut [u8],
) -> Result<usize, Fault>
    ensures answer { Answers result (interpolation_rows (F.Field.meaning field.now) a word.now (length coefficients.old) (length memory.old)) (λ d. (d ≡ degree_bound a (length word.now)) × Interpolates (F.Field.meaning field.now) a d (points_from 0 word.now) (polynomial a d (take (length word.now + 1) coefficients.new))) }
    ensures refused { is_err result ≡ true → (coefficients.new ≡ coefficients.old) × (memory.new ≡ memory.old) }
    ensures lengths { (length coefficients.new ≡ length coefficients.old) × (length memory.new ≡ length memory.old) }
    ensures beyond { drop (length word.now + 1) coefficients.new ≡ drop (length word.now + 1) coefficients.old }
{
    check(field, a, word, coefficients.len(), memory.len())?;
    let w = word.len() + 1;
    let terms = Terms::exceeding(a, word.len() as u32).unwrap();
    let word = Word {
        field,
        numbers: word,
    };
    word.interpolate(terms, &mut coefficients[..w], &mut memory[..w * w]);
    Ok(terms.d)
}
