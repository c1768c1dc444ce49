// Why a call refused.
ghost use Rattle.std.specs.Prelude.{Some};
ghost use Rattle.interpolation.specs.Faults.{fault_sentence};

use std::fmt;

// What is wrong with what a call was given, with the number that is at fault.
#[derive(Clone, Copy, PartialEq, Eq, Debug)]
pub enum Fault {
    // the degree is not 1 to 255
    DegreeOutOfRange(usize),
    // the bound on weighted degrees is not 1 to 257
    BoundOutOfRange(usize),
    // the word has more numbers than the field has elements
    WordTooLong(usize),
    // there are more coefficients than terms
    TooManyCoefficients(usize),
    // the slice for the result is shorter than so many bytes
    RoomTooShort(usize),
    // the work memory is shorter than so many bytes
    MemoryTooShort(usize),
    // the first position whose number is not below the field's size
    NotAnElement(usize),
    // all coefficients are 0
    AllZero,
}

// written out, for the derive of `thiserror` promises nothing of the text
impl fmt::Display for Fault {
    ghost output = { λ fault. Some (fault_sentence fault) };

    fn fmt<W: fmt::Write>(&self, f: &mut fmt::Formatter<W>) -> fmt::Result {
        match self {
            Fault::DegreeOutOfRange(a) => write!(f, "the degree must be 1 to 255, but is {a}"),
            Fault::BoundOutOfRange(d) => write!(
                f,
                "the bound on degrees must be 1 to 257, but is {d}"
            ),
            Fault::WordTooLong(n) => write!(
                f,
                "the word has more numbers than the field has elements: {n}"
            ),
            Fault::TooManyCoefficients(n) => write!(
                f,
                "there are more coefficients than terms: {n}"
            ),
            Fault::RoomTooShort(n) => write!(
                f,
                "the room for the result must have {n} bytes or more"
            ),
            Fault::MemoryTooShort(n) => write!(f, "the work memory must have {n} bytes or more"),
            Fault::NotAnElement(i) => write!(
                f,
                "the number at position {i} is no element of the field"
            ),
            Fault::AllZero => write!(f, "all coefficients are 0"),
        }
    }
}

impl std::error::Error for Fault {}
