// What is found over GF(16), against the list of all polynomials, and the roots of polynomials that the tests write down.
// Each sum and product is proved not to wrap. A test has no bound to prove it from, so they saturate.
use crate::Random;
use crate::polynomials::Polynomial;
use crate::subjects::Subject;
use crate::words::{numbers_of, random_word};
use code::Code;
use field::Gf16;
use std::process::Abort;
use std::test::Fail;

// What is found are all roots, at least so many. The degree of Q(x, f(x)) is below 16, so that the 16 elements decide.
fn full_list(
    rt: &(impl Abort + AllocGlobal),
    subject: &Subject<Gf16>,
    word: &[u8],
    least: usize,
) -> Result<(), Fail> {
    let decoded = subject.decode(rt, word)?;
    assert!(rt; decoded.bound <= 16);
    let q = decoded.polynomial(&Gf16);
    let users = (0..subject.code.users()).collect::<Vec<u64>>(rt.alloc())?;
    let expected = users
        .iter()
        .copied()
        .filter(|user| q.vanishes(&subject.code, *user))
        .collect::<Vec<u64>>(rt.alloc())?;
    assert!(rt; subject.complete(q.bound, &expected, word, &users) && expected.len() >= least);
    assert_eq!(rt; subject.found_users(rt.alloc(), &decoded)?, expected);
    Ok(())
}

// Words mixed from the first users of a list, and as many of random numbers. One user or two are found.
fn full_lists(
    rt: &(impl Abort + AllocGlobal),
    subject: &Subject<Gf16>,
    users: &[u64],
) -> Result<(), Fail> {
    let mut random = Random(16);
    for count in 1..=users.len() {
        let word = subject.mixed_word(rt.alloc(), &users[..count])?;
        full_list(rt, subject, &word, if count <= 2 { count } else { 0 })?;
        let word = random_word(rt.alloc(), 16, &mut random, 16)?;
        full_list(rt, subject, &word, 0)?;
    }
    Ok(())
}

#[test]
fn full_lists_2(rt: HostRuntime) -> Result<(), Fail> {
    let users = [0x53, 0xa7, 0x00, 0x0f, 0xf0, 0x11];
    full_lists(&rt, &Subject::new(Gf16, 16, 2)?, &users)
}

#[test]
fn full_lists_3(rt: HostRuntime) -> Result<(), Fail> {
    let users = [0x753, 0x0a7, 0x000, 0xf0f];
    full_lists(&rt, &Subject::new(Gf16, 16, 3)?, &users)
}

// A bound, the coefficients, and the numbers of the roots. A tuple, so that each case is a row of a table.
type Written = (usize, &'static [u8], &'static [u64]);

// The numbers of the users whose polynomials are found as roots.
fn found_numbers(
    rt: &(impl Abort + AllocGlobal),
    polynomial: &Polynomial<Gf16>,
) -> Result<Vec<u64>, Fail> {
    let found = polynomial.roots(rt)?;
    let k = polynomial.a.saturating_add(1);
    Ok(numbers_of(rt.alloc(), 16, k, &found)?)
}

fn written_roots(rt: &(impl Abort + AllocGlobal), a: usize, cases: &[Written]) -> Result<(), Fail> {
    for (bound, terms, expected) in cases {
        let polynomial = Polynomial {
            field: &Gf16,
            a,
            bound: *bound,
            terms,
        };
        let numbers = found_numbers(rt, &polynomial)?;
        assert!(rt; numbers.as_slice() == *expected, "bound {bound}");
    }
    Ok(())
}

#[test]
fn given_roots(rt: HostRuntime) -> Result<(), Fail> {
    let lines: [Written; 8] = [
        // x and 1, without y
        (2, &[0, 1], &[]),
        (1, &[1], &[]),
        // y + x, its square, and x times it
        (2, &[0, 1, 1], &[16]),
        (3, &[0, 0, 1, 0, 0, 1], &[16]),
        (4, &[0, 0, 1, 0, 0, 1], &[16]),
        // y, and y·(y + x)
        (2, &[0, 0, 1], &[0]),
        (3, &[0, 0, 0, 0, 1, 1], &[0, 16]),
        // x·y + 1
        (3, &[1, 0, 0, 0, 1], &[]),
    ];
    written_roots(&rt, 1, &lines)?;
    let parabolas: [Written; 3] = [
        // y + x^2, y + x^2 + x + 1, y + x^3
        (3, &[0, 0, 1, 1], &[256]),
        (3, &[1, 1, 1, 1], &[273]),
        (4, &[0, 0, 0, 1, 1], &[]),
    ];
    written_roots(&rt, 2, &parabolas)
}

// As many roots as powers of y.
#[test]
fn most_roots(rt: HostRuntime) -> Result<(), Fail> {
    // y^15 + 1
    let mut terms = [0; 136];
    terms[0] = 1;
    terms[135] = 1;
    let all_but_0 = Polynomial {
        field: &Gf16,
        a: 1,
        bound: 16,
        terms: &terms,
    };
    assert_eq!(rt;
        found_numbers(&rt, &all_but_0)?.as_slice(),
        [1, 2, 3, 4, 5, 6, 7, 8, 9, 10, 11, 12, 13, 14, 15].as_slice()
    );
    // y^16 + y, which is 0 at every element with the values of any polynomial
    let mut terms = [0; 153];
    terms[17] = 1;
    terms[152] = 1;
    let all = Polynomial {
        field: &Gf16,
        a: 1,
        bound: 17,
        terms: &terms,
    };
    assert_eq!(rt;
        found_numbers(&rt, &all)?.as_slice(),
        [0, 1, 2, 3, 4, 5, 6, 7, 8, 9, 10, 11, 12, 13, 14, 15].as_slice()
    );
    Ok(())
}
