// The bound on weighted degrees.
// Each sum and product is proved not to wrap. A test has no bound to prove it from, so they saturate.
use decoding::degree_bound;
use std::test::Fail;

// How many terms x^g·y^j have g + a·j < d, counted j by j.
fn terms_below(a: usize, d: usize) -> usize {
    (0..d).fold(0usize, |count, j| {
        count.saturating_add(d.saturating_sub(a.saturating_mul(j)))
    })
}

#[test]
fn least_bounds(rt: HostRuntime) -> Result<(), Fail> {
    for a in 1..9usize {
        for n in 0..301u32 {
            let d = degree_bound(a, n).ok_or("no bound")?;
            assert!(rt; 0 < d);
            assert!(rt; terms_below(a, d) > n as usize, "a = {a}, n = {n}");
            assert!(rt; terms_below(a, d - 1) <= n as usize, "a = {a}, n = {n}");
        }
    }
    Ok(())
}

#[test]
fn known_bounds(rt: HostRuntime) {
    let cases = [
        (3, 256, Some(38)),
        (1, 256, Some(23)),
        (2, 256, Some(32)),
        (255, 256, Some(256)),
        (256, 256, Some(257)),
        (1, 0, Some(1)),
        (1, 1, Some(2)),
        (1, 2, Some(2)),
        (1, 3, Some(3)),
        (18446744073709551615, 300, Some(301)),
        (0, 0, None),
        (0, 256, None),
    ];
    for (a, n, expected) in cases {
        assert_eq!(rt; degree_bound(a, n), expected);
    }
}
