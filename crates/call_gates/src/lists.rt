//! The gates and their parts as lists of instructions.

ghost use Rattle.std.specs.Prelude.{◌≡◌, ◌<◌, ◌++◌, ◌∷◌, []};
ghost use Rattle.call_gates.specs.Gates as spec;

use crate::instr::{
    CONTROL_CELL, DATA_CELL, DEPTH_CELL, LANDING, LEGACY_CELL, R8, R9, R10, R11, RAX, RCX, RDI,
    RDX, RSI, RSP, START, behind, call, clear, copy, in_reg, init_first, load_cell, pop, push, set,
    store_cell, widen, zero_cell,
};
use x86_forms::{Instr, Reg, Rm};

/// How many bytes of the start stand before its call of `main`.
const START_HEAD: u64 = 50;

/// The start, which sets the four cells, calls `main` by its inner entry and exits with what it gives.
pub fn start_list(main: u64) -> [Instr; 10]
    requires { spec.InCode main }
    ensures { result ≡ spec.instructions (spec.start_gate main) }
{
    [
        zero_cell(CONTROL_CELL),
        set(RAX, 0x6080_0000),
        store_cell(LEGACY_CELL, RAX),
        set(RAX, 0x5400_0000),
        store_cell(DATA_CELL, RAX),
        zero_cell(DEPTH_CELL),
        call(main, START + START_HEAD + 6),
        copy(RDI, RAX),
        set(RAX, 60),
        Instr::Syscall,
    ]
}

/// The landing: rsp comes from its cell, both cells are as they were before the stub, and it goes on at the stub's tail.
pub fn landing_list() -> [Instr; 7]
    ensures { result ≡ spec.instructions spec.landing_gate }
{
    [
        load_cell(RSP, CONTROL_CELL),
        pop(R11),
        pop(RCX),
        store_cell(LEGACY_CELL, RCX),
        pop(RCX),
        store_cell(CONTROL_CELL, RCX),
        Instr::JmpRm {
            prefixed: true,
            rm: in_reg(R11),
        },
    ]
}

/// Both cells and the address of the stub's tail go to the control stack, and its pointer to its cell; rax becomes the address of
/// the return address.
pub fn stub_keeps(tail: u32) -> [Instr; 8]
    requires { tail < 0x8000_0000 }
    ensures { result ≡ spec.instructions (spec.stub_keeps tail) }
{
    [
        load_cell(RAX, CONTROL_CELL),
        push(RAX),
        load_cell(RAX, LEGACY_CELL),
        push(RAX),
        set(R10, tail),
        push(R10),
        store_cell(CONTROL_CELL, RSP),
        Instr::Lea {
            r: Reg(RAX),
            m: behind(RAX, -8),
        },
    ]
}

/// The return address is written, and rsp becomes the legacy stack pointer.
pub fn stub_writes() -> [Instr; 3]
    ensures { result ≡ spec.instructions (spec.stub_writes ++ spec.copies spec.rsp spec.rax ∷ []) }
{
    [
        set(R10, LANDING),
        Instr::MovTo {
            w: 64,
            r: Reg(R10),
            rm: Rm::Mem(behind(RAX, 0)),
        },
        copy(RSP, RAX),
    ]
}

/// Both cells go to the control stack, whose pointer comes from its cell, and rsp to the cell of the legacy stack pointer.
pub fn outer_keeps() -> [Instr; 8]
    ensures { result ≡ spec.instructions spec.outer_keeps }
{
    [
        copy(R10, RSP),
        set(RSP, CONTROL_CELL),
        pop(RAX),
        pop(R11),
        copy(RSP, RAX),
        push(RAX),
        push(R11),
        store_cell(LEGACY_CELL, R10),
    ]
}

/// Both cells and rsp are as they were at the entry.
pub fn outer_restores() -> [Instr; 6]
    ensures { result ≡ spec.instructions spec.outer_restores }
{
    [
        pop(RCX),
        pop(RDX),
        load_cell(R10, LEGACY_CELL),
        store_cell(LEGACY_CELL, RCX),
        store_cell(CONTROL_CELL, RDX),
        copy(RSP, R10),
    ]
}

/// What the stub used, cleared.
pub fn clear_scratch() -> [Instr; 3]
    ensures { result ≡ spec.instructions (spec.clear_all (spec.rax ∷ spec.r10 ∷ spec.r11 ∷ [])) }
{
    [clear(RAX), clear(R10), clear(R11)]
}

/// The registers of parameters, cleared.
pub fn clear_carriers() -> [Instr; 6]
    ensures { result ≡ spec.instructions (spec.clear_all (spec.not_carrying 0)) }
{
    [
        clear(RDI),
        clear(RSI),
        clear(RDX),
        clear(RCX),
        clear(R8),
        clear(R9),
    ]
}

/// All registers that C may touch but rax, cleared.
pub fn clear_others() -> [Instr; 8]
    ensures { result ≡ spec.instructions (spec.clear_all spec.others) }
{
    [
        clear(RCX),
        clear(RDX),
        clear(RSI),
        clear(RDI),
        clear(R8),
        clear(R9),
        clear(R10),
        clear(R11),
    ]
}

/// All bounds registers made INIT, by a register that is 0.
pub fn init_all(none: u8) -> [Instr; 4]
    ensures { result ≡ spec.instructions (spec.init_from none 0) }
{
    [init_first(none, 0), widen(1, 0), widen(2, 0), widen(3, 0)]
}

/// All but the first.
pub fn init_three(none: u8) -> [Instr; 3]
    ensures { result ≡ spec.instructions (spec.init_from none 1) }
{
    [init_first(none, 1), widen(2, 1), widen(3, 1)]
}

/// The last two.
pub fn init_two(none: u8) -> [Instr; 2]
    ensures { result ≡ spec.instructions (spec.init_from none 2) }
{
    [init_first(none, 2), widen(3, 2)]
}

/// The last one.
pub fn init_one(none: u8) -> [Instr; 1]
    ensures { result ≡ spec.instructions (spec.init_from none 3) }
{
    [init_first(none, 3)]
}
