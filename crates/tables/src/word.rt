// The word that a line asks to decode.
use crate::numbers::{DigitFault, Digits, read_numbers};
use crate::report::check_user;
use crate::request::NamedWord;
use crate::stop::Stop;
use code::Code;
use std::alloc::Global;

// The word of these digits, which must have a number for each position.
fn spelled<C: Code>(heap: Global, code: &C, digits: &str) -> Result<Vec<u8>, Stop> {
    let word = read_numbers(heap, Digits::of_size(code.alphabet()), digits)?;
    let wanted = code.length();
    let came = word.len();
    if came == wanted {
        Ok(word)
    } else {
        Err(DigitFault::WrongLength { wanted, came }.into())
    }
}

// The word that takes its numbers in turn from the tables of users.
// The program `speed` and the tests make theirs themselves: library crates have no heap, and the tests rest on no program.
fn mixed<C: Code>(heap: Global, code: &C, users: &[u64]) -> Result<Vec<u8>, Stop> {
    for user in users {
        check_user(code, *user)?;
    }
    let word = (0..code.length())
        .zip(users.iter().cycle())
        .filter_map(|(position, user)| code.symbol(*user, position))
        .collect(heap)?;
    Ok(word)
}

pub(crate) fn word_named<C: Code>(
    heap: Global,
    code: &C,
    name: &NamedWord,
) -> Result<Vec<u8>, Stop> {
    match name {
        NamedWord::Spelled(digits) => spelled(heap, code, digits),
        NamedWord::Mixed(users) => mixed(heap, code, users),
    }
}
