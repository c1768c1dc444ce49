// Values of polynomials.
ghost use Rattle.std.specs.Prelude.{◌≡◌};
ghost use Rattle.bivariate.specs.Values.{multiply_add_answer, value_answer};

use field::Field;

// a + b·c, or None where one of them is no element.
pub fn multiply_add<F: Field>(field: &F, a: u8, b: u8, c: u8) -> Option<u8>
    ensures { result ≡ multiply_add_answer (F.Field.meaning field.now) a b c }
{
    let product = field.product(b, c)?;
    field.sum(a, product)
}

// The value at x of the polynomial with these coefficients, lowest first, from the top down.
// None where x or a coefficient is no element.
pub fn value_at<F: Field>(field: &F, coefficients: &[u8], x: u8) -> Option<u8>
    ensures { result ≡ value_answer (F.Field.meaning field.now) coefficients.now x }
{
    if x as u16 >= field.size() {
        return None;
    }
    let mut value = 0;
    for coefficient in coefficients.iter().rev() {
        value = multiply_add(field, *coefficient, x, value)?;
    }
    Some(value)
}
