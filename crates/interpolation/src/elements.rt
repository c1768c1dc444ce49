// Operations on the elements of a field, which have an answer there. An element has no type of its own: it is a byte of a slice,
// and a slice of bytes cannot carry a type for each, so that each number is required to be one.
ghost use Rattle.std.specs.Prelude.{◌≡◌, ◌<◌};

use bivariate::multiply_add;
use field::Field;

// a·b
pub(crate) fn product<F: Field>(field: &F, a: u8, b: u8) -> u8
    requires left { a < (F.Field.meaning field.now).size }
    requires right { b < (F.Field.meaning field.now).size }
    ensures { result ≡ (F.Field.meaning field.now).product a b }
{
    field.product(a, b).unwrap()
}

// a + b·c
pub(crate) fn plus_product<F: Field>(field: &F, a: u8, b: u8, c: u8) -> u8
    requires first { a < (F.Field.meaning field.now).size }
    requires second { b < (F.Field.meaning field.now).size }
    requires third { c < (F.Field.meaning field.now).size }
    ensures { result ≡ (F.Field.meaning field.now).sum a ((F.Field.meaning field.now).product b c) }
{
    // The 0 is never taken. The test that `unwrap` leaves in the program would be a way out of the loop, and over `Mod251` and
    // `Gf16` keep the elimination from being compiled to steps that take many numbers at a time.
    multiply_add(field, a, b, c).unwrap_or(0)
}

// -(a·b)
pub(crate) fn negative_product<F: Field>(field: &F, a: u8, b: u8) -> u8
    requires first { a < (F.Field.meaning field.now).size }
    requires second { b < (F.Field.meaning field.now).size }
    ensures { result ≡ (F.Field.meaning field.now).negative ((F.Field.meaning field.now).product a b) }
{
    field.negative(product(field, a, b)).unwrap()
}

// 1/a
pub(crate) fn reciprocal<F: Field>(field: &F, a: u8) -> u8
    requires element { a < (F.Field.meaning field.now).size }
    requires nonzero { ¬ (a ≡ 0) }
    ensures { result ≡ (F.Field.meaning field.now).inverse a }
{
    field.inverse(a).unwrap()
}
