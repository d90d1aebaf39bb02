//! Numbers and bounds at their edges.

use crate::rows::{given, judge, number, word};
use mx_base::{Bounds, IntKind, extend, full, meet, outside, wrap};
use std::test::Fail;

const KINDS: [IntKind; 8] = [
    IntKind::I8,
    IntKind::U8,
    IntKind::I16,
    IntKind::U16,
    IntKind::I32,
    IntKind::U32,
    IntKind::I64,
    IntKind::U64,
];

/// A kind and a word; the number that it wraps to and the word that it extends to, in decimal digits.
const WORDS: &str = "\
i8 80|-128 18446744073709551488
u8 1ff|255 255
i16 7fff|32767 32767
u16 10001|1 1
i32 ffffffff|-1 18446744073709551615
u32 1ffffffff|4294967295 4294967295
i64 8000000000000000|-9223372036854775808 9223372036854775808
u64 ffffffffffffffff|18446744073709551615 18446744073709551615";

#[test]
fn wraps_and_extends(rt: HostRuntime) -> Result<(), Fail> {
    for (row, kind) in WORDS.lines().zip(KINDS) {
        let mut words = given(row);
        let _name = word(&mut words);
        let n = number(&mut words);
        let (wrapped, extended) = (wrap(kind, i128::from(n)), extend(kind, n));
        let found = format!(in rt.alloc(); "{wrapped} {extended}")?;
        judge(&rt, row, found.as_str());
    }
    let far = (wrap(IntKind::U8, -1), wrap(IntKind::U64, i128::MIN));
    assert_eq!(rt; far, (0xff, 0));
    Ok(())
}

/// An address, a size and bounds; whether the access is outside.
const ACCESSES: &str = "\
64 4 64 67|false
65 4 64 67|true
63 1 64 67|true
67 1 64 67|false
68 1 64 67|true
ffffffffffffffff 1 0 ffffffffffffffff|false
ffffffffffffffff 2 0 ffffffffffffffff|false
ffffffffffffffff 2 1 ffffffffffffffff|false";

#[test]
fn leaves_bounds_at_their_ends(rt: HostRuntime) -> Result<(), Fail> {
    for row in ACCESSES.lines() {
        let mut words = given(row);
        let (at, size) = (number(&mut words), number(&mut words).max(1));
        let (lb, ub) = (number(&mut words), number(&mut words));
        let found = outside(at, size, Bounds { lb, ub });
        judge(&rt, row, if found { "true" } else { "false" });
    }
    let four = Bounds { lb: 100, ub: 103 };
    let far = Bounds { lb: 102, ub: 200 };
    let all = Bounds {
        lb: 0,
        ub: u64::MAX,
    };
    let found = (full(), meet(four, far));
    assert_eq!(rt; found, (all, Bounds { lb: 102, ub: 103 }));
    Ok(())
}
