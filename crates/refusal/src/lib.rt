// Refusals of the office, each with its number, place, layer and sentence.
#![tactic(auto)]

ghost use Rattle.std.specs.Prelude.{◌≡◌, Some};
ghost use Rattle.refusal.specs.Refusals.{number_of, place_of, layer_of, layer_name, reason_of, sentence};

use std::fmt;

// Which part of the office refused.
#[derive(Clone, Copy, PartialEq, Eq, Debug)]
pub enum Layer {
    Code,
    Book,
    Console,
}

// Written out, as that of a refusal is: its contract promises the text, and that of a derive does not.
impl fmt::Display for Layer {
    ghost output = { λ layer. Some (layer_name layer) };

    fn fmt<W: fmt::Write>(&self, f: &mut fmt::Formatter<W>) -> fmt::Result {
        match self {
            Layer::Code => write!(f, "code"),
            Layer::Book => write!(f, "book"),
            Layer::Console => write!(f, "console"),
        }
    }
}

// Why a call refused, with the number that is at fault.
#[derive(Clone, Copy, PartialEq, Eq, Debug)]
pub enum Refusal {
    // the length of a plain code is not 2 to q
    LengthOutOfRange(usize),
    // the number of coefficients is not 2 to 8, or above what the length allows
    CoefficientsOutOfRange(usize),
    // with so many coefficients there are more than 2^32 users
    TooManyUsers(usize),
    // the inner code has fewer users than the outer code has symbols
    InnerUsersTooFew(u64),
    // a concatenation is longer than 8,192
    LengthTooLong(usize),
    // the user is not below N
    UserOutOfRange(u64),
    // a line of input has no meaning
    LineNotUnderstood,
}

impl Refusal {
    pub fn number(&self) -> u8
        ensures { result ≡ number_of self.now }
    {
        match self {
            Refusal::LengthOutOfRange(_) => 1,
            Refusal::CoefficientsOutOfRange(_) => 2,
            Refusal::TooManyUsers(_) => 3,
            Refusal::InnerUsersTooFew(_) => 7,
            Refusal::LengthTooLong(_) => 8,
            Refusal::UserOutOfRange(_) => 12,
            Refusal::LineNotUnderstood => 60,
        }
    }

    pub fn place(&self) -> u64
        ensures { result ≡ place_of self.now }
    {
        match self {
            Refusal::LengthOutOfRange(n) | Refusal::LengthTooLong(n) => *n as u64,
            Refusal::CoefficientsOutOfRange(k) | Refusal::TooManyUsers(k) => *k as u64,
            Refusal::InnerUsersTooFew(users) => *users,
            Refusal::UserOutOfRange(user) => *user,
            Refusal::LineNotUnderstood => 0,
        }
    }

    pub fn layer(&self) -> Layer
        ensures { result ≡ layer_of self.now }
    {
        match self {
            Refusal::LengthOutOfRange(_)
            | Refusal::CoefficientsOutOfRange(_)
            | Refusal::TooManyUsers(_)
            | Refusal::InnerUsersTooFew(_)
            | Refusal::LengthTooLong(_) => Layer::Code,
            Refusal::UserOutOfRange(_) => Layer::Book,
            Refusal::LineNotUnderstood => Layer::Console,
        }
    }

    // What is wrong, in words.
    fn reason(&self) -> &'static str
        ensures { result.now ≡ reason_of self.now }
    {
        match self {
            Refusal::LengthOutOfRange(_) =>
                "a plain code's length must be 2 to the size of its field",
            Refusal::CoefficientsOutOfRange(_) =>
                "the coefficients must number 2 to 8, and no more than the positions that hold values",
            Refusal::TooManyUsers(_) =>
                "with so many coefficients the code would have more than 2^32 users",
            Refusal::InnerUsersTooFew(_) =>
                "the inner code must have a user for each symbol of the outer code",
            Refusal::LengthTooLong(_) => "a table must have at most 8192 positions",
            Refusal::UserOutOfRange(_) => "the code has no user of that number",
            Refusal::LineNotUnderstood => "the line is not understood",
        }
    }
}

// Written out, as that of a layer is.
impl fmt::Display for Refusal {
    ghost output = { λ refusal. Some (sentence refusal) };

    fn fmt<W: fmt::Write>(&self, f: &mut fmt::Formatter<W>) -> fmt::Result {
        let number = self.number();
        let place = self.place();
        let layer = self.layer();
        let reason = self.reason();
        write!(
            f,
            "refused ({number}, place {place}, layer {layer}): {reason}"
        )
    }
}

impl std::error::Error for Refusal {}
