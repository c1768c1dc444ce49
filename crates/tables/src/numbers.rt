// Key numbers in hexadecimal: one digit for each where they are below 16, else two.
use crate::stop::Stop;
use std::alloc::Global;
use std::fmt;
use thiserror::Error;

// What is wrong with the digits of a word.
#[derive(Clone, Copy, Debug, Error)]
pub enum DigitFault {
    #[error("place {0} of the word is none of the digits 0 to 9 and a to f")]
    NotADigit(usize),
    #[error("a number has two digits here, but the word has {0} digits")]
    HalfANumber(usize),
    #[error("the word must have {wanted} numbers, but has {came}")]
    WrongLength { wanted: usize, came: usize },
}

// How many digits a key number has.
#[derive(Clone, Copy)]
pub enum Digits {
    One,
    Two,
}

// A key number as it is printed.
#[derive(Clone, Copy)]
pub struct KeyNumber {
    digits: Digits,
    value: u8,
}

impl Digits {
    // The digits of a number of a field or alphabet of this size.
    pub(crate) fn of_size(size: u16) -> Digits {
        if size > 16 { Digits::Two } else { Digits::One }
    }

    pub(crate) fn number(self, value: u8) -> KeyNumber {
        KeyNumber {
            digits: self,
            value,
        }
    }
}

impl fmt::Display for KeyNumber {
    fn fmt<W: fmt::Write>(&self, f: &mut fmt::Formatter<W>) -> fmt::Result {
        match self.digits {
            Digits::One => write!(f, "{:x}", self.value),
            Digits::Two => write!(f, "{:02x}", self.value),
        }
    }
}

// A digit's value. `char::to_digit` takes the letters A to F too, which are none here.
fn digit(byte: u8) -> Option<u8> {
    match byte {
        b'0'..=b'9' => Some(byte - b'0'),
        b'a'..=b'f' => Some(byte - b'a' + 10),
        _ => None,
    }
}

fn read_digits(heap: Global, text: &str) -> Result<Vec<u8>, Stop> {
    text.bytes()
        .enumerate()
        .map(|(place, byte)| digit(byte).ok_or(DigitFault::NotADigit(place).into()))
        .try_collect(heap)
}

// The numbers that stand in a text without gaps.
pub(crate) fn read_numbers(heap: Global, digits: Digits, text: &str) -> Result<Vec<u8>, Stop> {
    let values = read_digits(heap, text)?;
    match digits {
        Digits::One => Ok(values),
        Digits::Two => values
            .chunks(2)
            .map(|pair| match pair {
                [high, low] => Ok((*high << 4) | *low),
                _ => Err(DigitFault::HalfANumber(values.len()).into()),
            })
            .try_collect(heap),
    }
}
