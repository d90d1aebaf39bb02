//! Single MPX instructions: checks at the edges, and bounds that go to a table and come back.

use mpx_core::{BndRegs, BndStop, bounds, branch, step};
use paged_memory::Memory;
use std::test::Fail;
use x86_forms::{Base, Instr, Mem, Reg, Rm, valid};

const CFG: u64 = 0x4000_0000_0001;

fn with_bnd1(lb: u64, held: u64) -> BndRegs {
    BndRegs {
        lb: [0, lb, 0, 0],
        held: [0, held, 0, 0],
        cfg: CFG,
        status: 0,
    }
}

fn operand(base: u8, index: Option<(Reg, u8)>, disp: i32) -> Mem {
    Mem {
        base: Base::Reg(Reg(base)),
        index,
        disp,
    }
}

/// A step of a valid MPX instruction.
fn does(
    b: &mut BndRegs,
    regs: &[u64; 16],
    m: &mut Memory,
    i: &Instr,
) -> Option<Result<(), BndStop>> {
    if valid(i) && bounds(i) && b.cfg == CFG {
        Some(step(b, regs, 0x0100_0000, m, i))
    } else {
        None
    }
}

#[test]
fn checks_fail_just_outside_the_bounds(rt: HostRuntime) -> Result<(), Fail> {
    let mut m = Memory::make(rt.alloc(), 0)?;
    let rax = Rm::Reg(Reg(0));
    let next_to_rax = Rm::Mem(operand(0, None, 1));
    let table = [
        (Instr::Bndcl { b: 1, rm: rax }, 0x1000, true),
        (Instr::Bndcl { b: 1, rm: rax }, 0xfff, false),
        (Instr::Bndcu { b: 1, rm: rax }, 0x1fff, true),
        (Instr::Bndcu { b: 1, rm: rax }, 0x2000, false),
        (
            Instr::Bndcu {
                b: 1,
                rm: next_to_rax,
            },
            0x1ffe,
            true,
        ),
        (
            Instr::Bndcu {
                b: 1,
                rm: next_to_rax,
            },
            0x1fff,
            false,
        ),
        (Instr::Bndcn { b: 1, rm: rax }, 0xffff_ffff_ffff_e000, true),
        (Instr::Bndcn { b: 1, rm: rax }, 0xffff_ffff_ffff_e001, false),
    ];
    for (i, value, holds) in table {
        let mut b = with_bnd1(0x1000, 0xffff_ffff_ffff_e000);
        let mut regs = [0; 16];
        regs[0] = value;
        let found = match does(&mut b, &regs, &mut m, &i) {
            Some(Err(BndStop::Violation { lb, ub, .. })) => Some((lb, ub, b.status)),
            Some(Ok(())) if b.status == 0 => None,
            _ => Some((0, 0, 0)),
        };
        let want = if holds {
            None
        } else {
            Some((0x1000, 0x1fff, 1))
        };
        assert_eq!(rt; (i, value, found), (i, value, want));
    }
    Ok(())
}

#[test]
fn bounds_go_to_a_table_and_come_back(rt: HostRuntime) -> Result<(), Fail> {
    let mut m = Memory::make(rt.alloc(), 4)?;
    let mut b = with_bnd1(0, 0);
    let pointer = operand(3, Some((Reg(2), 1)), 0);
    let make = Instr::Bndmk {
        b: 1,
        m: operand(2, None, 3),
    };
    let store = Instr::Bndstx { b: 1, m: pointer };
    let load = Instr::Bndldx { b: 0, m: pointer };
    let none = BndStop::Invalid {
        entry: 0x4000_0000_1800,
    };
    let made = (0x2000_0000, 0xffff_ffff_dfff_fffc);
    // The pointer's value and the instruction; how it is done, BNDSTATUS, bnd0 and bnd1. What isn't done is done again after the
    // directory entry names a table.
    let steps = [
        (0x2000_0000, make, Ok(()), 0, (0, 0), made),
        (
            0x2000_0000,
            store,
            Err(none),
            0x4000_0000_1802,
            (0, 0),
            made,
        ),
        (0x2000_0000, store, Ok(()), 0x4000_0000_1802, (0, 0), made),
        (0x2000_0000, load, Ok(()), 0x4000_0000_1802, made, made),
        (0x2000_0001, load, Ok(()), 0x4000_0000_1802, (0, 0), made),
    ];
    for (value, i, want, status, bnd0, bnd1) in steps {
        let mut regs = [0; 16];
        regs[3] = 0x3000_0008;
        regs[2] = value;
        let done = does(&mut b, &regs, &mut m, &i);
        if done == Some(Err(none)) {
            m.store(0x4000_0000_1800, 8, 0x5000_0000_0001)?;
        }
        let found = (b.status, (b.lb[0], b.held[0]), (b.lb[1], b.held[1]));
        assert_eq!(rt; (i, done, found), (i, Some(want), (status, bnd0, bnd1)));
    }
    assert_eq!(rt; m.load(0x5000_0000_0028, 8), Ok(0xffff_ffff_dfff_fffc));
    branch(&mut b, true);
    let after_a_prefix = (b.lb[1], b.held[1]);
    branch(&mut b, false);
    let after_none = (b.lb[1], b.held[1]);
    assert_eq!(rt; (after_a_prefix, after_none), (made, (0, 0)));
    Ok(())
}
