// Codes whose words the tests decode.
// Each difference is proved not to wrap. A test has no bound to prove it from, so it saturates.
use crate::words::{Decoded, decode, numbers_of};
use code::Code;
use field::Field;
use reed_solomon::Plain;
use refusal::Refusal;
use std::alloc::{AllocError, Global};
use std::process::Abort;
use std::test::Fail;

// A plain code over a field, of users whose polynomials have k coefficients.
#[derive(Drop)]
pub(crate) struct Subject<F: Field> {
    pub(crate) field: F,
    pub(crate) code: Plain<F>,
    pub(crate) k: usize,
}

impl<F: Field + Copy + Drop> Subject<F> {
    pub(crate) fn new(field: F, length: usize, k: usize) -> Result<Subject<F>, Refusal> {
        let code = Plain::new(field, length, k)?;
        Ok(Subject { field, code, k })
    }
}

impl<F: Field> Subject<F> {
    // A word that takes its positions from the tables of these users in turn.
    // The programs make theirs themselves: library crates have no heap, and the tests rest on no program.
    pub(crate) fn mixed_word(&self, heap: Global, users: &[u64]) -> Result<Vec<u8>, AllocError> {
        (0..self.code.length())
            .zip(users.iter().cycle())
            .filter_map(|(i, user)| self.code.symbol(*user, i))
            .collect(heap)
    }

    // In how many positions the word is the user's table.
    pub(crate) fn common(&self, word: &[u8], user: u64) -> usize {
        word.iter()
            .enumerate()
            .filter(|(i, number)| self.code.symbol(user, *i) == Some(**number))
            .count()
    }

    // Whether each of these users whose table has at least so many positions of the word is among the found ones.
    pub(crate) fn complete(&self, bound: usize, found: &[u64], word: &[u8], users: &[u64]) -> bool {
        users.iter().all(|user| self.common(word, *user) < bound || found.contains(user))
    }

    pub(crate) fn decode(
        &self,
        rt: &(impl Abort + AllocGlobal),
        word: &[u8],
    ) -> Result<Decoded, Fail> {
        decode(rt, &self.field, self.k.saturating_sub(1), word)
    }

    // The users whose polynomials were found, from the least up.
    pub(crate) fn found_users(
        &self,
        heap: Global,
        decoded: &Decoded,
    ) -> Result<Vec<u64>, AllocError> {
        numbers_of(heap, self.field.size(), self.k, &decoded.found)
    }
}
