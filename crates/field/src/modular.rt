// The integers modulo 251.
ghost use Rattle.std.specs.Prelude.{◌≡◌, ◌*◌, ◌%◌, ◌^◌, ◌<◌};
ghost use Rattle.field.specs.Meaning.{reciprocal};
ghost use Rattle.field.specs.Modular.{modulo251, times_modulo};
ghost use Rattle.field.specs.ModularLaws.{modulo251_laws};

use crate::Field;

#[derive(Clone, Copy)]
pub struct Mod251;

// The product modulo 251.
fn times(a: u8, b: u8) -> u8
    ensures { result ≡ a * b % 251 }
{
    ((a as u16 * b as u16) % 251) as u8
}

// The 249th power.
fn power_249(a: u8) -> u8
    requires { a < 251 }
    ensures { result ≡ a ^ 249 % 251 }
{
    let a2 = times(a, a);
    let a3 = times(a2, a);
    let a6 = times(a3, a3);
    let a12 = times(a6, a6);
    let a15 = times(a12, a3);
    let a30 = times(a15, a15);
    let a31 = times(a30, a);
    let a62 = times(a31, a31);
    let a124 = times(a62, a62);
    let a248 = times(a124, a124);
    times(a248, a)
}

// The inverse of an element other than 0: its 249th power, since the 250th is 1.
fn inverse_251(a: u8) -> u8
    requires { (0 < a) × (a < 251) }
    ensures { result ≡ reciprocal 251 times_modulo a }
{
    power_249(a)
}

impl Field for Mod251 {
    ghost meaning = { λ _. modulo251 };

    ghost lawful = { λ f. modulo251_laws };

    fn size(&self) -> u16 {
        251
    }

    fn sum(&self, a: u8, b: u8) -> Option<u8> {
        (a < 251 && b < 251).then(|| ((a as u16 + b as u16) % 251) as u8)
    }

    fn product(&self, a: u8, b: u8) -> Option<u8> {
        (a < 251 && b < 251).then(|| times(a, b))
    }

    fn negative(&self, a: u8) -> Option<u8> {
        (a < 251).then(|| (251 - a) % 251)
    }

    fn inverse(&self, a: u8) -> Option<u8> {
        (0 < a && a < 251).then(|| inverse_251(a))
    }
}
