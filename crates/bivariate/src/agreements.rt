// At how many positions a word has the values of a polynomial.
ghost use Rattle.std.specs.Prelude.{◌≡◌, OnSome};
ghost use Rattle.bivariate.specs.Bivariate.{points_from, AgreementForcesRoot};
ghost use Rattle.bivariate.specs.Values.{agreement_answer};

use crate::strangers::elements_only;
use crate::values::value_at;
use field::Field;

// How many positions i of the word have the value at element i of the polynomial with these coefficients.
// None where the word is longer than the field's size, or a number of the word or a coefficient is no element.
pub fn agreement<F: Field>(field: &F, word: &[u8], coefficients: &[u8]) -> Option<usize>
    ensures answer { result ≡ agreement_answer (F.Field.meaning field.now) word.now coefficients.now }
    ensures forces_root { OnSome result (AgreementForcesRoot (F.Field.meaning field.now) (points_from 0 word.now) coefficients.now) }
{
    if word.len() > field.size() as usize {
        return None;
    }
    if !elements_only(field, word) || !elements_only(field, coefficients) {
        return None;
    }
    let count = word
        .iter()
        .enumerate()
        .filter(|&(i, number)| value_at(field, coefficients, i as u8) == Some(*number))
        .count();
    Some(count)
}
