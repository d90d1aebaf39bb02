//! Results, flags, quotients and conditions of the manual.
ghost use Rattle.std.specs.Prelude.{IsTrue};
ghost use Rattle.x86_forms.specs.Validity.{word_ok};

use x86_alu::{AluOp, Four, arith, divide, holds};

const LEAST: u64 = 0x8000_0000_0000_0000;

/// A width of a table, as the one of two that it is.
fn width(w: u8) -> u8
    ensures { IsTrue (word_ok result) }
{
    if w == 32 { 32 } else { 64 }
}

/// Carry, zero, sign and overflow, from the highest of four bits to the lowest.
fn four(bits: u8) -> Four {
    Four {
        cf: bits & 8 != 0,
        zf: bits & 4 != 0,
        sf: bits & 2 != 0,
        of: bits & 1 != 0,
    }
}

// Before each operation zero and overflow are set: 0b0101.
#[test]
fn operations_give_the_manuals_results_and_flags(rt: HostRuntime) {
    let table = [
        (AluOp::Add, 64, u64::MAX, 1, 0, 0b1100),
        (AluOp::Add, 64, LEAST - 1, 1, LEAST, 0b0011),
        (AluOp::Add, 32, 0x8000_0000, 0x8000_0000, 0, 0b1101),
        (AluOp::Add, 32, 0xffff_ffff_0000_0001, 1, 2, 0b0000),
        (AluOp::Sub, 64, 0, 1, u64::MAX, 0b1010),
        (AluOp::Sub, 32, 0x8000_0000, 1, 0x7fff_ffff, 0b0001),
        (AluOp::Cmp, 64, 5, 5, 0, 0b0100),
        (
            AluOp::Cmp,
            32,
            0x7fff_ffff,
            0xffff_ffff,
            0x8000_0000,
            0b1011,
        ),
        (AluOp::Neg, 64, 0, 9, 0, 0b0100),
        (AluOp::Neg, 64, 1, 9, u64::MAX, 0b1010),
        (AluOp::Neg, 32, 0x8000_0000, 9, 0x8000_0000, 0b1011),
        (AluOp::Not, 32, 0, 9, 0xffff_ffff, 0b0101),
        (AluOp::Or, 32, 0x8000_0000, 1, 0x8000_0001, 0b0010),
        (AluOp::And, 64, 0xf0, 0x0f, 0, 0b0100),
        (AluOp::Xor, 64, LEAST, 1, LEAST + 1, 0b0010),
        (AluOp::Test, 32, 0x1_0000_0006, 0x1_0000_0003, 2, 0b0000),
        (AluOp::Imul, 64, u64::MAX, u64::MAX, 1, 0b0000),
        (AluOp::Imul, 64, LEAST, u64::MAX, LEAST, 0b1001),
        (AluOp::Imul, 32, 0x1_0000, 0x1_0000, 0, 0b1001),
        (AluOp::Imul, 32, 0xffff_ffff, 5, 0xffff_fffb, 0b0000),
        (AluOp::Shl, 64, 5, 0, 5, 0b0101),
        (AluOp::Shl, 64, LEAST, 1, 0, 0b1101),
        (AluOp::Shl, 64, 0x1_0000_0001, 32, 0x1_0000_0000, 0b1000),
        (AluOp::Shl, 64, 3, 63, LEAST, 0b1010),
        (AluOp::Shl, 64, 3, 64, 3, 0b0101),
        (AluOp::Shl, 32, 1, 31, 0x8000_0000, 0b0010),
        (AluOp::Shl, 32, 3, 32, 3, 0b0101),
        (AluOp::Shl, 32, 0x4000_0000, 33, 0x8000_0000, 0b0011),
        (AluOp::Shr, 64, LEAST + 1, 1, 0x4000_0000_0000_0000, 0b1001),
        (AluOp::Shr, 64, u64::MAX, 63, 1, 0b1000),
        (AluOp::Shr, 32, 0xffff_ffff, 31, 1, 0b1000),
        (AluOp::Shr, 32, 7, 64, 7, 0b0101),
        (AluOp::Sar, 64, u64::MAX, 1, u64::MAX, 0b1010),
        (AluOp::Sar, 64, LEAST, 63, u64::MAX, 0b0010),
        (AluOp::Sar, 32, 0x7fff_ffff, 31, 0, 0b1100),
        (AluOp::Sar, 32, 0x8000_0001, 33, 0xc000_0000, 0b1010),
    ];
    for (op, w, a, b, result, flags) in table {
        let (found, after) = arith(op, width(w), a, b, four(0b0101));
        assert_eq!(rt;
            (op, w, a, b, found, after),
            (op, w, a, b, result, four(flags))
        );
    }
}

#[test]
fn divisions_are_refused_for_0_and_for_large_quotients(rt: HostRuntime) {
    let minus = |n: u64| u64::MAX - n + 1;
    let table = [
        (false, 64, 0, 7, 2, Some((3, 1))),
        (false, 64, 1, 0, 2, Some((LEAST, 0))),
        (false, 64, 1, 0, 1, None),
        (false, 64, 0, 7, 0, None),
        (
            false,
            32,
            0xffff_fffe,
            0xffff_ffff,
            0xffff_ffff,
            Some((0xffff_ffff, 0xffff_fffe)),
        ),
        (false, 32, 2, 0, 2, None),
        (true, 64, u64::MAX, minus(7), 2, Some((minus(3), minus(1)))),
        (true, 64, 0, 7, minus(2), Some((minus(3), 1))),
        (true, 64, u64::MAX, LEAST, 1, Some((LEAST, 0))),
        (true, 64, u64::MAX, LEAST, minus(1), None),
        (true, 64, LEAST, 0, minus(1), None),
        (true, 64, 0, 1, 0, None),
        (
            true,
            32,
            0xffff_ffff,
            0xffff_fff9,
            2,
            Some((0xffff_fffd, 0xffff_ffff)),
        ),
        (true, 32, 0xffff_ffff, 0x8000_0000, 0xffff_ffff, None),
        (true, 32, 0, 0x8000_0000, 1, None),
    ];
    for (signed, w, hi, lo, by, answer) in table {
        let found = divide(signed, width(w), hi, lo, by);
        assert_eq!(rt;
            (signed, w, hi, lo, by, found),
            (signed, w, hi, lo, by, answer)
        );
    }
}

#[test]
fn conditions_read_the_flags(rt: HostRuntime) {
    // the codes that hold, by the flags
    let table = [
        (0b0000, [1, 3, 5, 7, 9, 13, 15]),
        (0b1000, [1, 2, 5, 6, 9, 13, 15]),
        (0b0100, [1, 3, 4, 6, 9, 13, 14]),
        (0b0010, [1, 3, 5, 7, 8, 12, 14]),
        (0b0001, [0, 3, 5, 7, 9, 12, 14]),
        (0b0011, [0, 3, 5, 7, 8, 13, 15]),
    ];
    for (flags, codes) in table {
        for cc in [0, 1, 2, 3, 4, 5, 6, 7, 8, 9, 12, 13, 14, 15] {
            let found = holds(cc, four(flags));
            assert_eq!(rt; (flags, cc, found), (flags, cc, codes.contains(&cc)));
        }
    }
}
