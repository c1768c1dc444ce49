// What the calls refuse, and that a call which refuses changes nothing.
use decoding::{Fault, find_roots, interpolate};
use field::{Field, Gf16, Gf256, Mod251};
use std::alloc::{AllocError, Global};
use std::process::Abort;
use std::test::Fail;

// What stands in each byte before a call.
const BEFORE: u8 = 165;

// The bytes that a call is handed: room for its result, and memory.
#[derive(Drop)]
struct Handed {
    room: Vec<u8>,
    memory: Vec<u8>,
}

impl Handed {
    fn new(heap: Global, room: usize, memory: usize) -> Result<Handed, AllocError> {
        Ok(Handed {
            room: vec![in heap; BEFORE; room]?,
            memory: vec![in heap; BEFORE; memory]?,
        })
    }

    // Whether each byte is as before.
    fn untouched(&self) -> bool {
        self.room
            .iter()
            .chain(&self.memory)
            .all(|byte| *byte == BEFORE)
    }

    // What came of the call is expected, and a refusal changed nothing.
    fn check(&self, rt: &impl Abort, came: Result<usize, Fault>, expected: Result<usize, Fault>) {
        assert_eq!(rt; came, expected);
        assert!(rt; came.is_ok() || self.untouched());
    }
}

// The degree, the word, how many bytes there are for the coefficients and of memory, and what comes of them.
// A tuple, so that each case is a row of a table: with names it would take seven lines.
type Asked = (usize, &'static [u8], usize, usize, Result<usize, Fault>);

fn interpolations<F: Field>(
    rt: &(impl Abort + AllocGlobal),
    field: &F,
    cases: &[Asked],
) -> Result<(), Fail> {
    for (a, word, room, memory, expected) in cases {
        let mut handed = Handed::new(rt.alloc(), *room, *memory)?;
        let came = interpolate(field, *a, word, &mut handed.room, &mut handed.memory);
        handed.check(rt, came, *expected);
    }
    Ok(())
}

#[test]
fn interpolations_256(rt: HostRuntime) -> Result<(), Fail> {
    let three = &[1, 1, 255];
    let full = &[1; 256];
    let long = &[1; 257];
    let cases: [Asked; 12] = [
        (0, three, 4, 16, Err(Fault::DegreeOutOfRange(0))),
        (256, three, 4, 16, Err(Fault::DegreeOutOfRange(256))),
        (255, three, 4, 16, Ok(4)),
        (1, three, 4, 16, Ok(3)),
        (1, three, 3, 16, Err(Fault::RoomTooShort(4))),
        (1, three, 4, 15, Err(Fault::MemoryTooShort(16))),
        (1, three, 0, 0, Err(Fault::RoomTooShort(4))),
        (3, full, 257, 66049, Ok(38)),
        (3, full, 256, 66049, Err(Fault::RoomTooShort(257))),
        (3, full, 257, 66048, Err(Fault::MemoryTooShort(66049))),
        (3, long, 258, 66564, Err(Fault::WordTooLong(257))),
        (0, long, 0, 0, Err(Fault::DegreeOutOfRange(0))),
    ];
    interpolations(&rt, &Gf256, &cases)
}

#[test]
fn interpolations_251(rt: HostRuntime) -> Result<(), Fail> {
    let cases: [Asked; 6] = [
        (1, &[250, 250, 250], 4, 16, Ok(3)),
        (1, &[250, 250, 251], 4, 16, Err(Fault::NotAnElement(2))),
        (1, &[251, 251, 255], 4, 16, Err(Fault::NotAnElement(0))),
        (1, &[251, 251, 0], 4, 15, Err(Fault::MemoryTooShort(16))),
        (3, &[0; 252], 300, 66049, Err(Fault::WordTooLong(252))),
        (3, &[251; 251], 252, 63504, Err(Fault::NotAnElement(0))),
    ];
    interpolations(&rt, &Mod251, &cases)?;
    let small: [Asked; 3] = [
        (1, &[15; 16], 17, 289, Ok(6)),
        (
            1,
            &[0, 1, 2, 3, 4, 5, 6, 7, 8, 9, 10, 11, 12, 13, 14, 16],
            17,
            289,
            Err(Fault::NotAnElement(15)),
        ),
        (1, &[0; 17], 18, 324, Err(Fault::WordTooLong(17))),
    ];
    interpolations(&rt, &Gf16, &small)
}

// The degree, the bound, the coefficients, how many bytes there are for what is found and of memory, and what comes of them.
// A tuple, so that each case is a row of a table: with names it would take eight lines.
type Sought = (
    usize,
    usize,
    &'static [u8],
    usize,
    usize,
    Result<usize, Fault>,
);

fn findings<F: Field>(
    rt: &(impl Abort + AllocGlobal),
    field: &F,
    cases: &[Sought],
) -> Result<(), Fail> {
    for (a, bound, terms, room, memory, expected) in cases {
        let mut handed = Handed::new(rt.alloc(), *room, *memory)?;
        let came = find_roots(
            field,
            *a,
            *bound,
            terms,
            &mut handed.room,
            &mut handed.memory,
        );
        handed.check(rt, came, *expected);
    }
    Ok(())
}

#[test]
fn findings_256(rt: HostRuntime) -> Result<(), Fail> {
    let square = &[0, 0, 0, 0, 0, 1];
    let one = &[1];
    let cases: [Sought; 16] = [
        (1, 3, square, 4, 20, Ok(1)),
        (0, 3, square, 4, 20, Err(Fault::DegreeOutOfRange(0))),
        (256, 3, square, 4, 20, Err(Fault::DegreeOutOfRange(256))),
        (1, 0, square, 4, 20, Err(Fault::BoundOutOfRange(0))),
        (1, 258, square, 4, 20, Err(Fault::BoundOutOfRange(258))),
        (
            1,
            3,
            &[0, 0, 0, 0, 0, 0, 1],
            4,
            20,
            Err(Fault::TooManyCoefficients(7)),
        ),
        (1, 3, square, 3, 20, Err(Fault::RoomTooShort(4))),
        (1, 3, square, 4, 19, Err(Fault::MemoryTooShort(20))),
        (1, 3, &[0, 0, 0, 0, 0, 0], 4, 20, Err(Fault::AllZero)),
        (1, 3, &[], 4, 20, Err(Fault::AllZero)),
        // the greatest bound
        (255, 257, one, 256, 131840, Ok(0)),
        (255, 257, one, 255, 131840, Err(Fault::RoomTooShort(256))),
        (
            255,
            257,
            one,
            256,
            131839,
            Err(Fault::MemoryTooShort(131840)),
        ),
        (1, 257, one, 512, 132100, Ok(0)),
        (255, 257, &[1; 259], 256, 131840, Ok(0)),
        (
            255,
            257,
            &[1; 260],
            256,
            131840,
            Err(Fault::TooManyCoefficients(260)),
        ),
    ];
    findings(&rt, &Gf256, &cases)
}

#[test]
fn findings_251(rt: HostRuntime) -> Result<(), Fail> {
    let cases: [Sought; 4] = [
        (1, 3, &[0, 0, 0, 0, 0, 250], 4, 20, Ok(1)),
        (
            1,
            3,
            &[0, 0, 0, 0, 0, 251],
            4,
            20,
            Err(Fault::NotAnElement(5)),
        ),
        (
            1,
            3,
            &[255, 255, 255, 255, 255, 251],
            4,
            20,
            Err(Fault::NotAnElement(0)),
        ),
        (
            1,
            3,
            &[0, 0, 0, 0, 0, 251],
            4,
            19,
            Err(Fault::MemoryTooShort(20)),
        ),
    ];
    findings(&rt, &Mod251, &cases)?;
    let small: [Sought; 2] = [
        (1, 3, &[0, 0, 0, 0, 0, 15], 4, 20, Ok(1)),
        (
            1,
            3,
            &[0, 0, 0, 0, 0, 16],
            4,
            20,
            Err(Fault::NotAnElement(5)),
        ),
    ];
    findings(&rt, &Gf16, &small)
}
