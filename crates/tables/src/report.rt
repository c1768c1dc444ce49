// What is printed of a code, of tables and of a word.
use crate::numbers::Digits;
use crate::stop::Stop;
use code::{Code, shared_positions};
use itertools::Itertools;
use refusal::Refusal;

// How many key numbers stand in a row.
const NUMBERS_IN_ROW: usize = 64;

// Key numbers in rows.
fn print_rows(rt: &HostRuntime, digits: Digits, numbers: &[u8]) -> Result<(), Stop> {
    for row in numbers.chunks(NUMBERS_IN_ROW) {
        let text = row
            .iter()
            .map(|number| digits.number(*number))
            .format(rt.alloc(), "")?;
        println!(rt; "  {text}")?;
    }
    Ok(())
}

pub(crate) fn print_word(rt: &HostRuntime, digits: Digits, word: &[u8]) -> Result<(), Stop> {
    println!(rt; "word")?;
    print_rows(rt, digits, word)
}

// The refusal of a user that the code has not.
pub(crate) fn check_user<C: Code>(code: &C, user: u64) -> Result<(), Refusal> {
    if user < code.users() {
        Ok(())
    } else {
        Err(Refusal::UserOutOfRange(user))
    }
}

fn print_table<C: Code>(rt: &HostRuntime, code: &C, user: u64) -> Result<(), Stop> {
    check_user(code, user)?;
    println!(rt; "user {user}")?;
    let digits = Digits::of_size(code.alphabet());
    let n = code.length();
    // so that no more than a row of the table is kept
    for from in (0..n).step_by(NUMBERS_IN_ROW) {
        let row = (from..n)
            .take(NUMBERS_IN_ROW)
            .filter_map(|position| code.symbol(user, position))
            .collect::<Vec<u8>>(rt.alloc())?;
        print_rows(rt, digits, &row)?;
    }
    Ok(())
}

// In how many positions each two of the users agree.
fn print_agreements<C: Code>(rt: &HostRuntime, code: &C, users: &[u64]) -> Result<(), Stop> {
    let overlap = code.overlap();
    // two loops, for `tuple_combinations` would keep a list of the users beside that of the line
    for (i, u) in users.iter().enumerate() {
        for v in users.iter().skip(i + 1) {
            if let Some(shared) = shared_positions(code, *u, *v) {
                println!(rt;
                    "users {u} and {v} agree in {shared} positions, and different users in at most {overlap}"
                )?;
            }
        }
    }
    Ok(())
}

pub(crate) fn print_code<C: Code>(rt: &HostRuntime, code: &C) -> Result<(), Stop> {
    let n = code.length();
    let q = code.alphabet();
    let a = code.overlap();
    let count = code.users();
    println!(rt; "N = {count}, n = {n}, q = {q}, a = {a}")?;
    Ok(())
}

// Prints the code, the tables of users, and in how many positions they agree.
pub(crate) fn report<C: Code>(rt: &HostRuntime, code: &C, users: &[u64]) -> Result<(), Stop> {
    print_code(rt, code)?;
    for user in users {
        print_table(rt, code, *user)?;
    }
    print_agreements(rt, code, users)
}
