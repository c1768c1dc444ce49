// The three fields by their names.
ghost use Rattle.tables.specs.Naming.{named_meaning};
ghost use Rattle.field.specs.ModularLaws.{modulo251_laws};
ghost use Rattle.field.specs.BinaryLaws.{gf16_laws, gf256_laws};
ghost use Rattle.tables.specs.declared.naming.NamedField.TheVariants.{Mod251, Gf256, Gf16};

use field::{Field, Gf16, Gf256, Mod251};
use refusal::Refusal;
use std::str::FromStr;

#[derive(Clone, Copy)]
pub enum NamedField {
    Mod251,
    Gf256,
    Gf16,
}

impl FromStr for NamedField {
    type Err = Refusal;

    fn from_str(name: &str) -> Result<NamedField, Refusal> {
        match name {
            "mod251" => Ok(NamedField::Mod251),
            "gf256" => Ok(NamedField::Gf256),
            "gf16" => Ok(NamedField::Gf16),
            _ => Err(Refusal::LineNotUnderstood),
        }
    }
}

// Each method asks the field of that name by a match: no function may make a trait object of `Field` and hand it out.
impl Field for NamedField {
    ghost meaning = { named_meaning };

    ghost lawful = { elim [ Mod251 ↦ modulo251_laws | Gf256 ↦ gf256_laws | Gf16 ↦ gf16_laws ] };

    fn size(&self) -> u16 {
        match self {
            NamedField::Mod251 => Mod251.size(),
            NamedField::Gf256 => Gf256.size(),
            NamedField::Gf16 => Gf16.size(),
        }
    }

    fn sum(&self, a: u8, b: u8) -> Option<u8> {
        match self {
            NamedField::Mod251 => Mod251.sum(a, b),
            NamedField::Gf256 => Gf256.sum(a, b),
            NamedField::Gf16 => Gf16.sum(a, b),
        }
    }

    fn product(&self, a: u8, b: u8) -> Option<u8> {
        match self {
            NamedField::Mod251 => Mod251.product(a, b),
            NamedField::Gf256 => Gf256.product(a, b),
            NamedField::Gf16 => Gf16.product(a, b),
        }
    }

    fn negative(&self, a: u8) -> Option<u8> {
        match self {
            NamedField::Mod251 => Mod251.negative(a),
            NamedField::Gf256 => Gf256.negative(a),
            NamedField::Gf16 => Gf16.negative(a),
        }
    }

    fn inverse(&self, a: u8) -> Option<u8> {
        match self {
            NamedField::Mod251 => Mod251.inverse(a),
            NamedField::Gf256 => Gf256.inverse(a),
            NamedField::Gf16 => Gf16.inverse(a),
        }
    }
}
