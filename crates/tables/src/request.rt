// A line of input: the name of a code, and then users whose tables are to be printed or a word that is to be decoded.
use crate::naming::NamedField;
use crate::stop::Stop;
use refusal::Refusal::LineNotUnderstood;
use std::alloc::Global;
use std::str::{FromStr, SplitWhitespace};

// A plain Reed-Solomon code by its name.
#[derive(Clone, Copy)]
pub struct PlainName {
    pub field: NamedField,
    pub length: usize,
    pub coefficients: usize,
}

// A Reed-Solomon code by its name.
#[derive(Clone, Copy)]
pub enum NamedCode {
    Plain(PlainName),
    Extended {
        field: NamedField,
        coefficients: usize,
    },
}

#[derive(Clone, Copy)]
pub enum CodeName {
    Alone(NamedCode),
    Concatenated { outer: NamedCode, inner: NamedCode },
}

// A word by its digits, or by the users from whose tables it is taken in turn.
#[derive(Drop)]
pub enum NamedWord<'a> {
    Spelled(&'a str),
    Mixed(Vec<u64>),
}

#[derive(Drop)]
pub enum Request<'a> {
    Tables {
        code: CodeName,
        users: Vec<u64>,
    },
    Decoding {
        code: PlainName,
        degree: usize,
        word: NamedWord<'a>,
    },
}

// The value that the next word stands for; None where the line ends or the word stands for none.
fn parsed<T: FromStr>(words: &mut SplitWhitespace) -> Option<T>
where
    T::Err: Drop,
{
    words.next()?.parse().ok()
}

// The rest of "plain FIELD LENGTH COEFFICIENTS" or "extended FIELD COEFFICIENTS" after its first word.
fn named_code(kind: &str, words: &mut SplitWhitespace) -> Option<NamedCode> {
    match kind {
        "plain" => Some(NamedCode::Plain(PlainName {
            field: parsed(words)?,
            length: parsed(words)?,
            coefficients: parsed(words)?,
        })),
        "extended" => Some(NamedCode::Extended {
            field: parsed(words)?,
            coefficients: parsed(words)?,
        }),
        _ => None,
    }
}

// A code by its name, up to the word that says what is asked of it.
fn code_name(words: &mut SplitWhitespace) -> Option<CodeName> {
    match words.next()? {
        "concatenated" => Some(CodeName::Concatenated {
            outer: named_code(words.next()?, words)?,
            inner: named_code(words.next()?, words)?,
        }),
        kind => Some(CodeName::Alone(named_code(kind, words)?)),
    }
}

// The users that end a line, each word the number of one.
fn users_listed(heap: Global, words: SplitWhitespace) -> Result<Vec<u64>, Stop> {
    words
        .map(|word| {
            word.parse::<u64>()
                .map_err(|_error| LineNotUnderstood.into())
        })
        .try_collect(heap)
}

// The one word of digits that ends a line.
fn lone_word(mut words: SplitWhitespace<'_>) -> Option<&str> {
    let word = words.next()?;
    words.next().is_none().then_some(word)
}

// What "word DIGITS" or "mixed USER USER .." names, with at least one user.
fn word_name<'a>(heap: Global, mut words: SplitWhitespace<'a>) -> Result<NamedWord<'a>, Stop> {
    match words.next() {
        Some("word") => Ok(NamedWord::Spelled(lone_word(words).ok_or(LineNotUnderstood)?)),
        Some("mixed") => {
            let users = users_listed(heap, words)?;
            if users.is_empty() {
                return Err(LineNotUnderstood.into());
            }
            Ok(NamedWord::Mixed(users))
        }
        _ => Err(LineNotUnderstood.into()),
    }
}

// What a line asks for after "degree".
fn decoding_request<'a>(
    heap: Global,
    code: CodeName,
    mut words: SplitWhitespace<'a>,
) -> Result<Request<'a>, Stop> {
    let CodeName::Alone(NamedCode::Plain(code)) = code else {
        return Err(LineNotUnderstood.into());
    };
    let degree = parsed(&mut words).ok_or(LineNotUnderstood)?;
    let word = word_name(heap, words)?;
    Ok(Request::Decoding { code, degree, word })
}

// What a line asks for, or that it was not understood.
pub(crate) fn read_request(heap: Global, line: &str) -> Result<Request<'_>, Stop> {
    let mut words = line.split_whitespace();
    let code = code_name(&mut words).ok_or(LineNotUnderstood)?;
    match words.next() {
        Some("users") => {
            let users = users_listed(heap, words)?;
            Ok(Request::Tables { code, users })
        }
        Some("degree") => decoding_request(heap, code, words),
        _ => Err(LineNotUnderstood.into()),
    }
}
