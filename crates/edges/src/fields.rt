// Questions to the fields at the edges of their elements.
use crate::Two;
use field::{Field, Gf16, Gf256, Mod251};
use std::process::Abort;

// Two numbers, their sum and their product. A tuple, so that each case is a row of a table: with names it would take six lines.
#[derive(Clone, Copy)]
struct Pair(u8, u8, Option<u8>, Option<u8>);

fn pairs<F: Field>(rt: &impl Abort, field: &F, cases: &[Pair]) {
    for &Pair(a, b, sum, product) in cases {
        assert_eq!(rt; field.sum(a, b), sum);
        assert_eq!(rt; field.product(a, b), product);
    }
}

// A number, its negative and its inverse, a row of a table too.
#[derive(Clone, Copy)]
struct One(u8, Option<u8>, Option<u8>);

fn ones<F: Field>(rt: &impl Abort, field: &F, cases: &[One]) {
    for &One(a, negative, inverse) in cases {
        assert_eq!(rt; field.negative(a), negative);
        assert_eq!(rt; field.inverse(a), inverse);
    }
}

#[test]
fn modulo_251(rt: HostRuntime) {
    assert_eq!(rt; Mod251.size(), 251);
    let pair_cases = [
        Pair(0, 0, Some(0), Some(0)),
        Pair(250, 250, Some(249), Some(1)),
        Pair(125, 126, Some(0), Some(188)),
        Pair(251, 0, None, None),
        Pair(0, 251, None, None),
        Pair(255, 255, None, None),
    ];
    pairs(&rt, &Mod251, &pair_cases);
    let one_cases = [
        One(0, Some(0), None),
        One(1, Some(250), Some(1)),
        One(2, Some(249), Some(126)),
        One(250, Some(1), Some(250)),
        One(251, None, None),
    ];
    ones(&rt, &Mod251, &one_cases);
}

#[test]
fn gf_256(rt: HostRuntime) {
    assert_eq!(rt; Gf256.size(), 256);
    let pair_cases = [
        Pair(0, 255, Some(255), Some(0)),
        Pair(255, 0, Some(255), Some(0)),
        Pair(1, 255, Some(254), Some(255)),
        Pair(2, 128, Some(130), Some(29)),
        Pair(255, 255, Some(0), Some(226)),
    ];
    pairs(&rt, &Gf256, &pair_cases);
    let one_cases = [
        One(0, Some(0), None),
        One(1, Some(1), Some(1)),
        One(2, Some(2), Some(142)),
        One(255, Some(255), Some(253)),
    ];
    ones(&rt, &Gf256, &one_cases);
}

#[test]
fn gf_16(rt: HostRuntime) {
    assert_eq!(rt; Gf16.size(), 16);
    let pair_cases = [
        Pair(2, 8, Some(10), Some(3)),
        Pair(15, 15, Some(0), Some(10)),
        Pair(15, 16, None, None),
        Pair(16, 15, None, None),
        Pair(255, 0, None, None),
    ];
    pairs(&rt, &Gf16, &pair_cases);
    let one_cases = [
        One(0, Some(0), None),
        One(2, Some(2), Some(9)),
        One(15, Some(15), Some(8)),
        One(16, None, None),
    ];
    ones(&rt, &Gf16, &one_cases);
}

#[test]
fn two_elements(rt: HostRuntime) {
    assert_eq!(rt; Two.size(), 2);
    pairs(
        &rt,
        &Two,
        &[Pair(1, 1, Some(0), Some(1)), Pair(1, 2, None, None)],
    );
    ones(
        &rt,
        &Two,
        &[
            One(0, Some(0), None),
            One(1, Some(1), Some(1)),
            One(2, None, None),
        ],
    );
}
