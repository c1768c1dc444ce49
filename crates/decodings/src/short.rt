// The shortest words, words that are tables of the greatest degree, and questions about values.
// Each sum and product is proved not to wrap. A test has no bound to prove it from, so they saturate.
use crate::Random;
use crate::words::{decode, random_word};
use decoding::{agreement, coefficient_at, value_at};
use field::{Field, Gf16, Gf256, Mod251};
use std::process::Abort;
use std::test::Fail;

// The polynomial of an empty word is a constant, and that of a word of one number has no y; neither has roots.
fn none_found<F: Field>(
    rt: &(impl Abort + AllocGlobal),
    field: &F,
    word: &[u8],
) -> Result<(), Fail> {
    for a in 1..6usize {
        let decoded = decode(rt, field, a, word)?;
        assert_eq!(rt; decoded.bound, word.len().saturating_add(1));
        assert_eq!(rt; decoded.found.len(), 0);
        assert_ne!(rt; decoded.terms.last(), Some(&0));
    }
    Ok(())
}

#[test]
fn shortest_words(rt: HostRuntime) -> Result<(), Fail> {
    none_found(&rt, &Gf256, &[])?;
    none_found(&rt, &Mod251, &[])?;
    none_found(&rt, &Gf16, &[])?;
    none_found(&rt, &Gf256, &[255])?;
    none_found(&rt, &Mod251, &[250])?;
    none_found(&rt, &Gf16, &[0])
}

// The line through two points is found, and nothing else.
#[test]
fn two_numbers(rt: HostRuntime) -> Result<(), Fail> {
    for p in 0..16u8 {
        for q in 0..16u8 {
            let decoded = decode(&rt, &Gf16, 1, &[p, q])?;
            assert_eq!(rt; decoded.bound, 2);
            assert_eq!(rt; decoded.found.as_slice(), [p, p ^ q].as_slice());
        }
    }
    Ok(())
}

// Any word with as many numbers as there are elements is the table of one polynomial of the greatest degree, which is found.
fn whole_table<F: Field>(rt: &(impl Abort + AllocGlobal), field: &F) -> Result<(), Fail> {
    let length = field.size() as usize;
    let word = random_word(rt.alloc(), field.size(), &mut Random(1), length)?;
    let decoded = decode(rt, field, length.saturating_sub(1), &word)?;
    assert_eq!(rt; decoded.found.len(), length);
    assert_eq!(rt; agreement(field, &word, &decoded.found), Some(length));
    Ok(())
}

#[test]
fn whole_tables(rt: HostRuntime) -> Result<(), Fail> {
    whole_table(&rt, &Gf256)?;
    whole_table(&rt, &Mod251)?;
    whole_table(&rt, &Gf16)
}

#[test]
fn values(rt: HostRuntime) {
    // coefficients, x, and the value
    let cases: [(&'static [u8], u8, Option<u8>); 5] = [
        (&[], 250, Some(0)),
        (&[], 251, None),
        (&[3, 0, 250], 250, Some(2)),
        (&[3, 0, 250], 251, None),
        (&[3, 0, 251], 250, None),
    ];
    for (coefficients, x, expected) in cases {
        assert_eq!(rt; value_at(&Mod251, coefficients, x), expected);
    }
}

#[test]
fn agreements(rt: HostRuntime) {
    // a word, coefficients, and in how many positions they agree
    let cases: [(&'static [u8], &'static [u8], Option<usize>); 7] = [
        (&[], &[15], Some(0)),
        (&[], &[16], None),
        (&[16], &[15], None),
        (&[0; 16], &[], Some(16)),
        (&[0; 17], &[], None),
        (&[3, 2, 1, 0], &[3, 1], Some(4)),
        (&[3, 2, 0, 0], &[3, 1], Some(3)),
    ];
    for (word, coefficients, expected) in cases {
        assert_eq!(rt; agreement(&Gf16, word, coefficients), expected);
    }
}

#[test]
fn coefficients(rt: HostRuntime) {
    let most = 18446744073709551615;
    // a, d, g, j, and the coefficient
    let cases = [
        (2, 5, 0, 0, Some(1)),
        (2, 5, 4, 0, Some(5)),
        (2, 5, 5, 0, Some(0)),
        (2, 5, 0, 1, Some(6)),
        (2, 5, 2, 1, Some(8)),
        (2, 5, 3, 1, Some(0)),
        (2, 5, 0, 2, Some(9)),
        (2, 5, 1, 2, Some(0)),
        (2, 5, 0, 3, Some(0)),
        // there are fewer coefficients than terms
        (2, 6, 1, 2, Some(0)),
        (2, 20, 8, 0, Some(9)),
        (2, 20, 9, 0, Some(0)),
        (2, 20, 0, 1, Some(0)),
        (most, most, most, most, Some(0)),
        (0, 5, 0, 0, None),
        (2, 0, 0, 0, None),
    ];
    for (a, d, g, j, expected) in cases {
        assert_eq!(rt;
            coefficient_at(a, d, &[1, 2, 3, 4, 5, 6, 7, 8, 9], g, j),
            expected
        );
    }
}
