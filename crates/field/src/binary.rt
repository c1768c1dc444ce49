// The fields of 256 and of 16 elements: polynomials over two elements, a number's bits being the coefficients.
ghost use Rattle.std.specs.Prelude.{◌≡◌, ◌<◌};
ghost use Rattle.field.specs.Meaning.{reciprocal};
ghost use Rattle.field.specs.Binary.{gf256, gf16, shifted, product256, product16};
ghost use Rattle.field.specs.BinaryLaws.{gf256_laws, gf16_laws};

use crate::Field;
use crate::inverses::inverses;
use crate::logarithms::logarithms;
use crate::powers::powers;

// The polynomials modulo 0x11D.
#[derive(Clone, Copy)]
pub struct Gf256;

// The product by the sum of logarithms, which comes round at 255.
fn times_256(a: u8, b: u8) -> u8
    ensures { result ≡ product256 a b }
{
    if a == 0 || b == 0 {
        return 0;
    }
    let logarithms = logarithms();
    let sum = logarithms[a as usize] as usize + logarithms[b as usize] as usize;
    powers()[sum % 255]
}

// The inverse of an element other than 0, by the table.
fn inverse_256(a: u8) -> u8
    requires { 0 < a }
    ensures { result ≡ reciprocal 256 product256 a }
{
    inverses()[a as usize]
}

impl Field for Gf256 {
    ghost meaning = { λ _. gf256 };

    ghost lawful = { λ f. gf256_laws };

    fn size(&self) -> u16 {
        256
    }

    fn sum(&self, a: u8, b: u8) -> Option<u8> {
        Some(a ^ b)
    }

    fn product(&self, a: u8, b: u8) -> Option<u8> {
        Some(times_256(a, b))
    }

    fn negative(&self, a: u8) -> Option<u8> {
        Some(a)
    }

    fn inverse(&self, a: u8) -> Option<u8> {
        (a != 0).then(|| inverse_256(a))
    }
}

// The polynomials modulo 0x13. Gf256 multiplies and inverts by tables and asks for no range, so that one generic type for both
// would share two lines, and `Gf16` and `Gf256` would be no values.
#[derive(Clone, Copy)]
pub struct Gf16;

// a·x modulo 0x13.
fn shift_16(a: u8) -> u8
    requires { a < 16 }
    ensures closed { result < 16 }
    ensures value { result ≡ shifted 3 0x13 a }
{
    if a < 8 { a * 2 } else { (a * 2) ^ 0x13 }
}

// The product by the sum of the a·x^i.
fn times_16(a: u8, b: u8) -> u8
    requires { (a < 16) × (b < 16) }
    ensures closed { result < 16 }
    ensures value { result ≡ product16 a b }
{
    let mut term = a;
    let mut rest = b;
    let mut sum = 0;
    for _step in 0..4u8 {
        if rest % 2 == 1 {
            sum ^= term;
        }
        term = shift_16(term);
        rest /= 2;
    }
    sum
}

// The inverse of an element other than 0: its 14th power, since the 15th is 1. A function for this power and for the 249th of
// `Mod251` would take the product as a closure and have a loop and a proof of its own, for two chains of 5 and 11 products.
fn inverse_16(a: u8) -> u8
    requires { (0 < a) × (a < 16) }
    ensures { result ≡ reciprocal 16 product16 a }
{
    let a2 = times_16(a, a);
    let a4 = times_16(a2, a2);
    let a8 = times_16(a4, a4);
    let a12 = times_16(a8, a4);
    times_16(a12, a2)
}

impl Field for Gf16 {
    ghost meaning = { λ _. gf16 };

    ghost lawful = { λ f. gf16_laws };

    fn size(&self) -> u16 {
        16
    }

    fn sum(&self, a: u8, b: u8) -> Option<u8> {
        (a < 16 && b < 16).then(|| a ^ b)
    }

    fn product(&self, a: u8, b: u8) -> Option<u8> {
        (a < 16 && b < 16).then(|| times_16(a, b))
    }

    fn negative(&self, a: u8) -> Option<u8> {
        (a < 16).then_some(a)
    }

    fn inverse(&self, a: u8) -> Option<u8> {
        (0 < a && a < 16).then(|| inverse_16(a))
    }
}
