// Numbers that are no elements of a field.
ghost use Rattle.std.specs.Prelude.{◌≡◌};
ghost use Rattle.bivariate.specs.Values.{elements_only, stranger_answer};

use field::Field;

// The position of the first number that is no element, or None where all are.
pub fn first_stranger<F: Field>(field: &F, numbers: &[u8]) -> Option<usize>
    ensures { result ≡ stranger_answer (F.Field.meaning field.now) numbers.now }
{
    let size = field.size();
    numbers.iter().position(|number| *number as u16 >= size)
}

// Whether each number is an element.
pub(crate) fn elements_only<F: Field>(field: &F, numbers: &[u8]) -> bool
    ensures { result ≡ elements_only (F.Field.meaning field.now) numbers.now }
{
    first_stranger(field, numbers).is_none()
}
