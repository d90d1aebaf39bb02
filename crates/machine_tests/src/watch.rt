//! The verdicts of the watch over sealed bytes, at their edges.

use seal_watch::{Verdict, judge, judge_jump};
use x86_forms::{Base, Instr, Mem, Reg, Span};

#[test]
fn legacy_code_enters_by_the_landing_and_by_calls_of_outer_entries(rt: HostRuntime) {
    let legacy = 0x1200_0000;
    let table = [
        (legacy, 0x0100_0400, false, false, true),
        (legacy, 0x0100_0401, false, true, false),
        (legacy, 0x0101_0080, true, false, true),
        (legacy, 0x0101_0080, false, false, false),
        (legacy, 0x0101_0100, true, false, false),
        (legacy, 0x1100_0000, false, false, true),
        (0x0101_00ff, 0x0100_0000, false, true, false),
        (0x0101_00ff, 0x0100_0000, false, false, true),
        (0x0101_0100, 0x0100_0000, false, true, true),
    ];
    for (from, to, call, ret, fine) in table {
        let verdict = if fine {
            Verdict::Fine
        } else {
            Verdict::Strayed(to)
        };
        let found = judge_jump(from, to, call, ret, 2);
        assert_eq!(rt; (from, to, found), (from, to, verdict));
    }
}

fn load_by(base: Base) -> Instr {
    Instr::MovFrom {
        w: 64,
        r: Reg(0),
        m: Mem {
            base,
            index: None,
            disp: 0,
        },
    }
}

#[test]
fn an_access_strays_at_its_first_sealed_byte(rt: HostRuntime) {
    let legacy = 0x1200_0000;
    let table = [
        (legacy, 0x7100_0000, 8, Verdict::Strayed(0x7100_0000)),
        (legacy, 0x6fff_fff9, 8, Verdict::Strayed(0x7000_0000)),
        (legacy, 0x6fff_fff8, 8, Verdict::Fine),
        (legacy, 0x7000_1000, 8, Verdict::Fine),
        (legacy, 0x1100_0000, 0x5f00_0000, Verdict::Fine),
        (
            legacy,
            0x5001_0000_0000,
            u64::MAX,
            Verdict::Strayed(0x0100_0000),
        ),
        (legacy, u64::MAX, 0x0100_0001, Verdict::Fine),
        (legacy, u64::MAX, 0x0100_0002, Verdict::Strayed(0x0100_0000)),
        (
            0x0100_0000,
            0x5000_ffff_ffff,
            1,
            Verdict::Strayed(0x5000_ffff_ffff),
        ),
        (0x10ff_ffff, 0x2000_0000, 8, Verdict::Fine),
    ];
    for (from, at, size, verdict) in table {
        let s = Span {
            at,
            size,
            write: false,
            implicit: false,
        };
        let found = judge(&load_by(Base::Reg(Reg(1))), from, s);
        assert_eq!(rt; (from, at, size, found), (from, at, size, verdict));
    }
}

#[test]
fn instrumented_code_strays_by_accesses_for_c_alone(rt: HostRuntime) {
    let table = [
        (Base::Reg(Reg(5)), false, Verdict::Strayed(0x7000_0008)),
        (Base::Reg(Reg(4)), false, Verdict::Fine),
        (Base::None, false, Verdict::Fine),
        (Base::Rip, false, Verdict::Fine),
        (Base::Reg(Reg(5)), true, Verdict::Fine),
    ];
    for (base, implicit, verdict) in table {
        let s = Span {
            at: 0x7000_0008,
            size: 8,
            write: true,
            implicit,
        };
        let found = judge(&load_by(base), 0x0100_0000, s);
        assert_eq!(rt; (base, implicit, found), (base, implicit, verdict));
    }
}
