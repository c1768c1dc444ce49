// Tests of list decoding: words mixed from users and words of random numbers, full lists, and the edges of every range.
#![tactic(auto)]

#[cfg(test)]
mod bounds;
#[cfg(test)]
mod lists;
#[cfg(test)]
mod mixtures;
#[cfg(test)]
mod polynomials;
#[cfg(test)]
mod refusals;
#[cfg(test)]
mod short;
#[cfg(test)]
mod subjects;
#[cfg(test)]
mod words;

// Numbers that look random, from a linear congruence modulo 2^64, which is meant to wrap: the words of the tests are
// the same in every run.
#[derive(Drop)]
pub(crate) struct Random(pub(crate) u64);

impl Random {
    pub(crate) fn next(&mut self) -> u64 {
        self.0 = self
            .0
            .wrapping_mul(6364136223846793005)
            .wrapping_add(1442695040888963407);
        self.0 >> 33
    }
}
