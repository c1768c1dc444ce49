// Linear equations over any field, and the vectors that solve them.
ghost use Rattle.std.specs.Prelude.{◌≡◌, ℕ, suc, ◌*◌, ◌<◌, ◌≤◌, List, length, IfSome, IfNone};
ghost use Rattle.bivariate.specs.Bivariate.{Elements, Elements-prop};
ghost use Rattle.interpolation.specs.Staircase.{dot, plus, vector, Alive, alive_count, Staircase, Solves, FirstFailing};
ghost use Rattle.interpolation.specs.Clearing.{cleared};

use crate::elements::{negative_product, plus_product, reciprocal};
use crate::staircase::vector;
use field::Field;

// Adds c times `other` to `vector`, place by place.
fn add_multiple<F: Field>(field: &F, vector: &mut [u8], c: u8, other: &[u8])
    requires vector { Elements (F.Field.meaning field.now) vector.old }
    requires factor { c < (F.Field.meaning field.now).size }
    requires other { Elements (F.Field.meaning field.now) other.now }
    requires sized { length vector.old ≡ length other.now }
    ensures { vector.new ≡ plus (F.Field.meaning field.now) vector.old c other.now }
{
    // tried `iter_mut().zip(other)`: in that loop no invariant can name the vector as it is written so far
    for (i, number) in vector.iter_mut().enumerate() {
        *number = plus_product(field, *number, c, other[i]);
    }
}

// An equation says that the sum of the products of its coefficients with the numbers of a vector is 0.
#[derive(Drop)]
pub(crate) struct Equation<'a, F: Field> {
    pub(crate) field: &'a F,
    pub(crate) coefficients: &'a [u8],
    ghost elements: { Elements (F.Field.meaning field.now) coefficients.now } by { Elements-prop (F.Field.meaning field.now) coefficients.now },
    ghost wide: { 0 < length coefficients.now },
}

impl<'a, F: Field> Equation<'a, F> {
    // The sum of the products, place by place.
    fn value(&self, vector: &[u8]) -> u8
        requires { Elements (F.Field.meaning self.now.field.now) vector.now }
        ensures { result ≡ dot (F.Field.meaning self.now.field.now) self.now.coefficients.now vector.now }
    {
        let mut sum = 0;
        for (coefficient, number) in self.coefficients.iter().zip(vector) {
            sum = plus_product(self.field, sum, *coefficient, *number);
        }
        sum
    }

    // The first vector that is alive and fails the equation, or None where none does.
    fn first_failing(&self, vectors: &[u8]) -> Option<usize>
        requires sized { length vectors.now ≡ length self.now.coefficients.now * length self.now.coefficients.now }
        requires elements { Elements (F.Field.meaning self.now.field.now) vectors.now }
        ensures some { IfSome result (λ p. FirstFailing (F.Field.meaning self.now.field.now) (length self.now.coefficients.now) vectors.now self.now.coefficients.now p) }
        ensures none { IfNone result (Solves (F.Field.meaning self.now.field.now) (length self.now.coefficients.now) vectors.now self.now.coefficients.now) }
    {
        // a loop: to a closure for `position` no lemma tells that the chunks it is given hold elements
        for (t, vector) in vectors.chunks(self.coefficients.len()).enumerate() {
            if vector[t] != 0 && self.value(vector) != 0 {
                return Some(t);
            }
        }
        None
    }

    // Makes a vector solve the equation by a multiple of another, given the inverse of what the equation says of that.
    fn clear(&self, vector: &mut [u8], other: &[u8], inverse: u8)
        requires vector { Elements (F.Field.meaning self.now.field.now) vector.old }
        requires other { Elements (F.Field.meaning self.now.field.now) other.now }
        requires sized { length vector.old ≡ length other.now }
        requires inverse { inverse < (F.Field.meaning self.now.field.now).size }
        ensures { vector.new ≡ plus (F.Field.meaning self.now.field.now) vector.old ((F.Field.meaning self.now.field.now).negative ((F.Field.meaning self.now.field.now).product (dot (F.Field.meaning self.now.field.now) self.now.coefficients.now vector.old) inverse)) other.now }
    {
        let factor = negative_product(self.field, self.value(vector), inverse);
        add_multiple(self.field, vector, factor, other);
    }

    // Makes the vectors behind vector p that are alive solve the equation, which p fails.
    fn clear_after(&self, vectors: &mut [u8], p: usize)
        requires sized { length vectors.old ≡ length self.now.coefficients.now * length self.now.coefficients.now }
        requires elements { Elements (F.Field.meaning self.now.field.now) vectors.old }
        requires within { p < length self.now.coefficients.now }
        requires fails { ¬ (dot (F.Field.meaning self.now.field.now) self.now.coefficients.now (vector (length self.now.coefficients.now) vectors.old p) ≡ 0) }
        ensures kept { (s : ℕ) → s < length self.now.coefficients.now → s ≤ p → vector (length self.now.coefficients.now) vectors.new s ≡ vector (length self.now.coefficients.now) vectors.old s }
        ensures cleared { (s : ℕ) → s < length self.now.coefficients.now → p < s → vector (length self.now.coefficients.now) vectors.new s ≡ cleared (F.Field.meaning self.now.field.now) self.now.coefficients.now (vector (length self.now.coefficients.now) vectors.old p) s (vector (length self.now.coefficients.now) vectors.old s) }
    {
        let w = self.coefficients.len();
        let inverse = reciprocal(self.field, self.value(vector(w, vectors, p)));
        // by index: tried `chunks_mut`, in whose loop no invariant can name the slice as it is written so far
        for t in p + 1..w {
            if vectors[t * w + t] != 0 {
                let (front, back) = vectors.split_at_mut(t * w);
                self.clear(&mut back[..w], &front[p * w..p * w + w], inverse);
            }
        }
    }

    // Makes each vector that is alive solve the equation too, at the cost of at most one of them.
    pub(crate) fn impose(&self, vectors: &mut [u8])
        requires { Staircase (F.Field.meaning self.now.field.now) (length self.now.coefficients.now) vectors.old }
        ensures staircase { Staircase (F.Field.meaning self.now.field.now) (length self.now.coefficients.now) vectors.new }
        ensures solves { Solves (F.Field.meaning self.now.field.now) (length self.now.coefficients.now) vectors.new self.now.coefficients.now }
        ensures keeps { (e : List ℕ) → Elements (F.Field.meaning self.now.field.now) e → length e ≡ length self.now.coefficients.now → Solves (F.Field.meaning self.now.field.now) (length self.now.coefficients.now) vectors.old e → Solves (F.Field.meaning self.now.field.now) (length self.now.coefficients.now) vectors.new e }
        ensures alive { alive_count (length self.now.coefficients.now) vectors.old (length self.now.coefficients.now) ≤ suc (alive_count (length self.now.coefficients.now) vectors.new (length self.now.coefficients.now)) }
        ensures long { length vectors.new ≡ length vectors.old }
    {
        let w = self.coefficients.len();
        if let Some(p) = self.first_failing(vectors) {
            self.clear_after(vectors, p);
            vectors[p * w + p] = 0;
        }
    }
}
