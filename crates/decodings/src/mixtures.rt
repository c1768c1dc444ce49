// Words of random numbers, and words mixed in turn from the tables of 1 to 6 users.
// Each divisor is proved not to be 0. A test has no bound to prove it from, so it is at least 1.
use crate::Random;
use crate::subjects::Subject;
use crate::words::{Decoded, number_of, random_word};
use code::Code;
use decoding::agreement;
use field::{Field, Gf16, Gf256, Mod251};
use std::process::Abort;
use std::test::Fail;

// The users from whose tables the words are mixed, modulo the number of users.
const SEEDS: [u64; 6] = [
    3141592653, 589793238, 462643383, 2795028841, 971693993, 751058209,
];

// Whether what is found are roots, with as many positions of the word as their tables have.
fn sound<F: Field>(subject: &Subject<F>, decoded: &Decoded, word: &[u8]) -> bool {
    let Subject { field, code, k } = subject;
    let q = decoded.polynomial(field);
    decoded.found.chunks((*k).max(1)).all(|f| {
        let user = number_of(field.size(), f);
        q.vanishes(code, user) && agreement(field, word, f) == Some(subject.common(word, user))
    })
}

// Decodes a word, and gives the found users.
fn found_users<F: Field>(
    rt: &(impl Abort + AllocGlobal),
    subject: &Subject<F>,
    word: &[u8],
    users: &[u64],
) -> Result<Vec<u64>, Fail> {
    let decoded = subject.decode(rt, word)?;
    let found = subject.found_users(rt.alloc(), &decoded)?;
    let q = decoded.polynomial(&subject.field);
    assert!(rt; q.bound <= subject.field.size() as usize && !q.is_zero() && q.passes(word));
    assert!(rt;
        sound(subject, &decoded, word)
            && found.is_sorted_by(|user, next| user < next)
            && subject.complete(q.bound, &found, word, users)
    );
    Ok(found)
}

// Words mixed from the tables of one user and more. Up to so many, the share of each is at least the bound, and all are found.
fn mixtures<F: Field>(
    rt: &(impl Abort + AllocGlobal),
    subject: &Subject<F>,
    most: usize,
) -> Result<(), Fail> {
    let users = SEEDS.map(|seed| seed % subject.code.users().max(1));
    for count in 1..=users.len() {
        let mixed = &users[..count];
        let word = subject.mixed_word(rt.alloc(), mixed)?;
        let found = found_users(rt, subject, &word, mixed)?;
        // each user has 0 positions and more
        assert!(rt; count > most || subject.complete(0, &found, &word, mixed));
    }
    Ok(())
}

// Words of random numbers, each half as long as the one before.
fn randoms<F: Field>(rt: &(impl Abort + AllocGlobal), subject: &Subject<F>) -> Result<(), Fail> {
    let mut random = Random(subject.k as u64);
    let word = random_word(
        rt.alloc(),
        subject.field.size(),
        &mut random,
        subject.code.length(),
    )?;
    for halvings in 0..4u32 {
        found_users(rt, subject, &word[..word.len() >> halvings], &[])?;
    }
    Ok(())
}

// Decodes words with as many numbers as the field has elements.
fn words<F: Field + Copy + Drop>(
    rt: &(impl Abort + AllocGlobal),
    field: F,
    k: usize,
    most: usize,
) -> Result<(), Fail> {
    let subject = Subject::new(field, field.size() as usize, k)?;
    mixtures(rt, &subject, most)?;
    randoms(rt, &subject)
}

// The words of a large field, of users with 2 to 4 coefficients.
fn large_words<F: Field + Copy + Drop>(
    rt: &(impl Abort + AllocGlobal),
    field: F,
) -> Result<(), Fail> {
    for k in 2..5usize {
        words(rt, field, k, 6)?;
    }
    Ok(())
}

#[test]
fn words_256(rt: HostRuntime) -> Result<(), Fail> {
    large_words(&rt, Gf256)
}

#[test]
fn words_251(rt: HostRuntime) -> Result<(), Fail> {
    large_words(&rt, Mod251)
}

#[test]
fn words_16(rt: HostRuntime) -> Result<(), Fail> {
    for (k, most) in [(2, 2), (3, 2), (4, 1)] {
        words(&rt, Gf16, k, most)?;
    }
    Ok(())
}
