// Measures whole tables, and the decoding of words: what it worked out goes to standard output, and how long it took to
// standard error.
#![tactic(auto)]

use code::{Code, Concatenation};
use decoding::{Fault, Listing, agreement, decode, root_bytes};
use field::{Gf16, Gf256};
use reed_solomon::{DoublyExtended, Plain};
use std::alloc::{AllocError, Global};
use std::io;
use std::time::Instant;

// Each sum and product is proved not to wrap. Times and sizes have no bound here to prove it from, so they saturate.

// How many users' tables are worked out.
const USERS: u64 = 200;

// The sum of the key numbers of a user's table.
fn table_sum<C: Code>(code: &C, user: u64) -> u64 {
    (0..code.length())
        .filter_map(|position| code.symbol(user, position))
        .fold(0u64, |sum, symbol| sum.saturating_add(u64::from(symbol)))
}

// Works out the tables of the first users, and tells the sum and the time for one table.
fn measure<C: Code>(rt: &HostRuntime, name: &str, code: &C) -> io::Result<()> {
    let n = code.length();
    let start = Instant::now(rt)?;
    let sum = (0..USERS).fold(0u64, |sum, user| sum.saturating_add(table_sum(code, user)));
    let nanoseconds = start.elapsed(rt)?.as_nanos() / u128::from(USERS);
    println!(rt; "{name}: {USERS} tables of {n} positions, the sum of their key numbers is {sum}")?;
    eprintln!(rt; "{name}: {nanoseconds} ns for a table of {n} positions")
}

// How often a word is decoded.
const RUNS: u32 = 10;

// How many coefficients the polynomials have whose values are decoded.
const K: usize = 4;

// The users from whose tables a word is mixed.
const MIXED: [u64; 5] = [3141592653, 589793238, 462643383, 2795028841, 971693993];

// A word that takes its positions from the tables of the users in turn.
// The program `tables` and the tests make theirs themselves: library crates have no heap, and the tests rest on no program.
fn mixed_word<C: Code>(heap: Global, code: &C) -> Result<Vec<u8>, AllocError> {
    (0..code.length())
        .zip(MIXED.iter().cycle())
        .filter_map(|(position, user)| code.symbol(*user, position))
        .collect(heap)
}

// The bytes that a decoding is handed: room for what it finds, and memory.
#[derive(Drop)]
struct Handed {
    found: Vec<u8>,
    memory: Vec<u8>,
}

impl Handed {
    // As many as words of n positions want.
    fn new(heap: Global, n: usize) -> anyhow::Result<Handed> {
        let roots = root_bytes(K - 1, n).ok_or(Fault::WordTooLong(n))?;
        // (n + 1)·(n + 2) for the making of Q, as the calls ask
        let w = n.saturating_add(1);
        let equations = w.saturating_mul(w.saturating_add(1));
        Ok(Handed {
            found: vec![in heap; 0u8; roots]?,
            memory: vec![in heap; 0u8; equations.saturating_add(roots)]?,
        })
    }

    // Finds polynomials of K coefficients.
    fn decode(&mut self, word: &[u8]) -> Result<Listing, Fault> {
        decode(&Gf256, K - 1, word, &mut self.found, &mut self.memory)
    }
}

// Tells in how many positions the word has the values of each found polynomial.
fn tell_found(rt: &HostRuntime, word: &[u8], found: &[u8]) -> io::Result<()> {
    let n = word.len();
    let count = found.len() / K;
    print!(rt; "decoding, n = {n}, k = {K}: {count} found, agreements:")?;
    for f in found.chunks(K) {
        if let Some(positions) = agreement(&Gf256, word, f) {
            print!(rt; " {positions}")?;
        }
    }
    println!(rt; "")
}

// Tells the least time and the mean, in microseconds.
fn tell_times(rt: &HostRuntime, n: usize, times: &[u128]) -> io::Result<()> {
    let Some(best) = times.iter().copied().min() else {
        return Ok(());
    };
    let sum = times
        .iter()
        .fold(0u128, |sum, time| sum.saturating_add(*time));
    let mean = sum / u128::from(RUNS);
    eprintln!(rt; "decoding, n = {n}, k = {K}: best {best} µs, mean {mean} µs")
}

// Decodes a word of n positions again and again, and tells the times and what the last run found.
fn measure_decoding(rt: &HostRuntime, n: usize) -> anyhow::Result<()> {
    let word = mixed_word(rt.alloc(), &Plain::new(Gf256, n, K)?)?;
    let mut handed = Handed::new(rt.alloc(), n)?;
    let mut times = Vec::new(rt.alloc());
    let mut count = 0;
    for _run in 0..RUNS {
        let start = Instant::now(rt)?;
        count = handed.decode(&word)?.count;
        times.push(start.elapsed(rt)?.as_micros())?;
    }
    handed.found.truncate(count.saturating_mul(K));
    tell_found(rt, &word, &handed.found)?;
    tell_times(rt, n, &times)?;
    Ok(())
}

fn run(rt: &HostRuntime) -> anyhow::Result<()> {
    let large = Concatenation::new(
        DoublyExtended::new(Gf256, 2)?,
        DoublyExtended::new(Gf16, 2)?,
    )?;
    measure(rt, "65,536 users, concatenated", &large)?;
    measure(rt, "GF(256), n = 256, k = 4", &Plain::new(Gf256, 256, 4)?)?;
    for n in [64, 128, 256] {
        measure_decoding(rt, n)?;
    }
    Ok(())
}

fn main(rt: HostRuntime) -> anyhow::Result<()> {
    run(&rt)
}
