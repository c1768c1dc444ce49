// Making codes, and asking them, at the edges of their ranges.
use crate::Two;
use code::{Code, Concatenation, Lone, shared_positions};
use field::{Field, Gf16, Gf256, Mod251};
use reed_solomon::{DoublyExtended, Plain};
use refusal::{Layer, Refusal};
use std::process::Abort;
use std::test::Fail;

// The numbers of a code: users, length, alphabet, overlap.
// A tuple, as the cases below are, so that each case is a row of a table: with names it would take six lines and more.
#[derive(Clone, Copy, PartialEq, Debug)]
struct Numbers(u64, usize, u16, usize);

fn numbers_of<C: Code + Drop>(made: Result<C, Refusal>) -> Result<Numbers, Refusal> {
    let code = made?;
    Ok(Numbers(code.users(), code.length(), code.alphabet(), code.overlap()))
}

// A length and a number of coefficients, and what comes of them.
#[derive(Clone, Copy)]
struct Made(usize, usize, Result<Numbers, Refusal>);

fn plain_codes<F: Field + Copy + Drop>(rt: &impl Abort, field: F, cases: &[Made]) {
    for &Made(length, coefficients, expected) in cases {
        assert_eq!(rt;
            numbers_of(Plain::new(field, length, coefficients)),
            expected
        );
    }
}

#[test]
fn plain_256(rt: HostRuntime) {
    let cases = [
        Made(0, 2, Err(Refusal::LengthOutOfRange(0))),
        Made(1, 2, Err(Refusal::LengthOutOfRange(1))),
        Made(2, 2, Ok(Numbers(65536, 2, 256, 1))),
        Made(256, 4, Ok(Numbers(4294967296, 256, 256, 3))),
        Made(257, 2, Err(Refusal::LengthOutOfRange(257))),
        Made(256, 5, Err(Refusal::TooManyUsers(5))),
        Made(256, 8, Err(Refusal::TooManyUsers(8))),
        Made(256, 9, Err(Refusal::CoefficientsOutOfRange(9))),
    ];
    plain_codes(&rt, Gf256, &cases);
}

#[test]
fn plain_16(rt: HostRuntime) {
    let most = 18446744073709551615;
    let cases = [
        Made(16, 0, Err(Refusal::CoefficientsOutOfRange(0))),
        Made(16, 1, Err(Refusal::CoefficientsOutOfRange(1))),
        Made(16, 8, Ok(Numbers(4294967296, 16, 16, 7))),
        Made(16, 9, Err(Refusal::CoefficientsOutOfRange(9))),
        Made(7, 8, Err(Refusal::CoefficientsOutOfRange(8))),
        Made(8, 8, Ok(Numbers(4294967296, 8, 16, 7))),
        Made(17, 9, Err(Refusal::LengthOutOfRange(17))),
        Made(most, most, Err(Refusal::LengthOutOfRange(most))),
        Made(16, most, Err(Refusal::CoefficientsOutOfRange(most))),
    ];
    plain_codes(&rt, Gf16, &cases);
}

#[test]
fn plain_251(rt: HostRuntime) {
    let cases = [
        Made(2, 2, Ok(Numbers(63001, 2, 251, 1))),
        Made(251, 4, Ok(Numbers(3969126001, 251, 251, 3))),
        Made(251, 5, Err(Refusal::TooManyUsers(5))),
        Made(252, 2, Err(Refusal::LengthOutOfRange(252))),
        Made(3, 4, Err(Refusal::CoefficientsOutOfRange(4))),
    ];
    plain_codes(&rt, Mod251, &cases);
}

fn extended_codes<F: Field + Copy + Drop>(
    rt: &impl Abort,
    field: F,
    cases: &[(usize, Result<Numbers, Refusal>)],
) {
    for &(coefficients, expected) in cases {
        assert_eq!(rt;
            numbers_of(DoublyExtended::new(field, coefficients)),
            expected
        );
    }
}

#[test]
fn doubly_extended(rt: HostRuntime) {
    extended_codes(
        &rt,
        Gf256,
        &[
            (4, Ok(Numbers(4294967296, 257, 256, 3))),
            (5, Err(Refusal::TooManyUsers(5))),
        ],
    );
    extended_codes(
        &rt,
        Gf16,
        &[
            (1, Err(Refusal::CoefficientsOutOfRange(1))),
            (8, Ok(Numbers(4294967296, 17, 16, 7))),
        ],
    );
    extended_codes(&rt, Gf16, &[(9, Err(Refusal::CoefficientsOutOfRange(9)))]);
    // no more coefficients than elements
    extended_codes(
        &rt,
        Two,
        &[
            (2, Ok(Numbers(4, 3, 2, 1))),
            (3, Err(Refusal::CoefficientsOutOfRange(3))),
        ],
    );
}

fn joined<O: Code + Drop, I: Code + Drop>(
    outer: Result<O, Refusal>,
    inner: Result<I, Refusal>,
) -> Result<Numbers, Refusal> {
    numbers_of(Concatenation::new(outer?, inner?))
}

#[test]
fn concatenations(rt: HostRuntime) {
    let large = joined(DoublyExtended::new(Gf256, 2), DoublyExtended::new(Gf16, 2));
    assert_eq!(rt; large, Ok(Numbers(65536, 4369, 16, 274)));
    // an inner user for each outer symbol: 256 suffice, 4 do not
    assert_eq!(rt;
        joined(Plain::new(Gf256, 256, 2), Plain::new(Gf16, 16, 2)),
        Ok(Numbers(65536, 4096, 16, 272))
    );
    assert_eq!(rt;
        joined(Plain::new(Gf256, 256, 2), Plain::new(Two, 2, 2)),
        Err(Refusal::InnerUsersTooFew(4))
    );
    // the longest table, and one that is too long
    assert_eq!(rt;
        joined(Plain::new(Gf256, 32, 2), Plain::new(Gf256, 256, 2)),
        Ok(Numbers(65536, 8192, 256, 288))
    );
    assert_eq!(rt;
        joined(Plain::new(Gf256, 32, 2), DoublyExtended::new(Gf256, 2)),
        Err(Refusal::LengthTooLong(8224))
    );
    // the overlap is at most the length
    assert_eq!(rt;
        joined(Plain::new(Gf16, 2, 2), Plain::new(Gf16, 2, 2)),
        Ok(Numbers(256, 4, 16, 4))
    );
}

// A user, a position, and the key number there.
#[derive(Clone, Copy)]
struct At(u64, usize, Option<u8>);

fn symbols<C: Code + Drop>(rt: &impl Abort, code: C, cases: &[At]) {
    for &At(user, position, expected) in cases {
        assert_eq!(rt; code.symbol(user, position), expected);
    }
}

#[test]
fn plain_symbols(rt: HostRuntime) -> Result<(), Fail> {
    let most = 18446744073709551615;
    let cases = [
        At(252, 250, Some(0)),
        At(252, 251, None),
        At(63000, 250, Some(0)),
        At(63001, 0, None),
        At(most, 0, None),
        At(0, most as usize, None),
    ];
    symbols(&rt, Plain::new(Mod251, 251, 2)?, &cases);
    Ok(())
}

#[test]
fn extended_symbols(rt: HostRuntime) -> Result<(), Fail> {
    let cases = [
        At(0x53, 0, Some(3)),
        At(0x53, 1, Some(6)),
        At(0x53, 15, Some(5)),
        At(0x53, 16, Some(5)),
        At(0x53, 17, None),
        At(255, 16, Some(15)),
        At(256, 16, None),
    ];
    symbols(&rt, DoublyExtended::new(Gf16, 2)?, &cases);
    Ok(())
}

#[test]
fn concatenated_symbols(rt: HostRuntime) -> Result<(), Fail> {
    let code = Concatenation::new(
        DoublyExtended::new(Gf256, 2)?,
        DoublyExtended::new(Gf16, 2)?,
    )?;
    assert_eq!(rt; shared_positions(&code, 256, 257), Some(273));
    assert_eq!(rt; shared_positions(&code, 256, 256), Some(4369));
    assert_eq!(rt; shared_positions(&code, 65535, 65536), None);
    assert_eq!(rt; shared_positions(&code, 65536, 65535), None);
    let cases = [
        At(256, 50, Some(0)),
        At(256, 51, Some(3)),
        At(256, 66, Some(3)),
        At(256, 67, Some(0)),
        At(65535, 4368, Some(15)),
        At(65535, 4369, None),
        At(65536, 0, None),
    ];
    symbols(&rt, code, &cases);
    Ok(())
}

// The least code has one user and one position, so that as an inner code it has too few users for any outer code.
#[test]
fn lone(rt: HostRuntime) {
    assert_eq!(rt; numbers_of(Ok(Lone)), Ok(Numbers(1, 1, 2, 0)));
    let cases = [At(0, 0, Some(0)), At(1, 0, None), At(0, 1, None)];
    symbols(&rt, Lone, &cases);
    assert_eq!(rt;
        joined(Plain::new(Two, 2, 2), Ok(Lone)),
        Err(Refusal::InnerUsersTooFew(1))
    );
}

// What a refusal tells: number, place, layer.
#[derive(Clone, Copy)]
struct Told(Refusal, u8, u64, Layer);

#[test]
fn refusals(rt: HostRuntime) {
    let cases = [
        Told(Refusal::LengthOutOfRange(257), 1, 257, Layer::Code),
        Told(Refusal::CoefficientsOutOfRange(9), 2, 9, Layer::Code),
        Told(Refusal::TooManyUsers(5), 3, 5, Layer::Code),
        Told(Refusal::InnerUsersTooFew(4), 7, 4, Layer::Code),
        Told(Refusal::LengthTooLong(8193), 8, 8193, Layer::Code),
        Told(Refusal::UserOutOfRange(65536), 12, 65536, Layer::Book),
        Told(Refusal::LineNotUnderstood, 60, 0, Layer::Console),
    ];
    for Told(refusal, number, place, layer) in cases {
        assert_eq!(rt; refusal.number(), number);
        assert_eq!(rt; refusal.place(), place);
        assert_eq!(rt; refusal.layer(), layer);
    }
}

#[test]
fn sentence(rt: HostRuntime) -> Result<(), Fail> {
    let said = Refusal::LengthTooLong(8193).to_string(rt.alloc())?;
    assert_eq!(rt;
        said.as_str(),
        "refused (8, place 8193, layer code): a table must have at most 8192 positions"
    );
    Ok(())
}
