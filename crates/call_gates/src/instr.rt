//! The instructions of the gates.

ghost use Rattle.std.specs.Prelude.{◌≡◌, ◌≤◌, ◌<◌};
ghost use Rattle.call_gates.specs.Gates as spec;

use x86_forms::{Base, Instr, Mem, Reg, Rm};

pub const RAX: u8 = 0;

pub const RCX: u8 = 1;

pub const RDX: u8 = 2;

pub const RSP: u8 = 4;

pub const RSI: u8 = 6;

pub const RDI: u8 = 7;

pub const R8: u8 = 8;

pub const R9: u8 = 9;

pub const R10: u8 = 10;

pub const R11: u8 = 11;

/// The address of the start.
pub const START: u64 = 0x0100_0000;
/// The address of the landing, which is the return address of legacy functions.
pub const LANDING: u32 = 0x0100_0400;

/// The cell of the control stack pointer while legacy code runs.
pub const CONTROL_CELL: u32 = 0x7000_0000;
/// The cell of the legacy stack pointer.
pub const LEGACY_CELL: u32 = 0x7000_0008;
/// The cell of the data stack pointer.
pub const DATA_CELL: u32 = 0x7000_0010;
/// The cell of the depth.
pub const DEPTH_CELL: u32 = 0x7000_0018;

pub fn in_reg(r: u8) -> Rm
    ensures { result ≡ spec.in_reg r }
{
    Rm::Reg(Reg(r))
}

/// The place of a cell, which has no base register.
pub fn at_cell(cell: u32) -> Mem
    requires { cell < 0x8000_0000 }
    ensures { result ≡ spec.at_cell cell }
{
    Mem {
        base: Base::None,
        index: None,
        disp: cell as i32,
    }
}

/// The place so many bytes behind a register.
pub fn behind(r: u8, disp: i32) -> Mem
    ensures { result ≡ spec.behind r disp }
{
    Mem {
        base: Base::Reg(Reg(r)),
        index: None,
        disp,
    }
}

/// `mov r, [cell]`
pub fn load_cell(r: u8, cell: u32) -> Instr
    requires { cell < 0x8000_0000 }
    ensures { result ≡ (spec.load_cell r cell).0 }
{
    Instr::MovFrom {
        w: 64,
        r: Reg(r),
        m: at_cell(cell),
    }
}

/// `mov [cell], r`
pub fn store_cell(cell: u32, r: u8) -> Instr
    requires { cell < 0x8000_0000 }
    ensures { result ≡ (spec.store_cell cell r).0 }
{
    Instr::MovTo {
        w: 64,
        r: Reg(r),
        rm: Rm::Mem(at_cell(cell)),
    }
}

/// `mov qword [cell], 0`
pub fn zero_cell(cell: u32) -> Instr
    requires { cell < 0x8000_0000 }
    ensures { result ≡ (spec.zero_cell cell).0 }
{
    Instr::MovMemImm {
        w: 64,
        m: at_cell(cell),
        imm: 0,
    }
}

pub fn push(r: u8) -> Instr
    ensures { result ≡ (spec.pushes r).0 }
{
    Instr::Push { r: Reg(r) }
}

pub fn pop(r: u8) -> Instr
    ensures { result ≡ (spec.pops r).0 }
{
    Instr::Pop { r: Reg(r) }
}

/// `mov to, from`
pub fn copy(to: u8, from: u8) -> Instr
    ensures { result ≡ (spec.copies to from).0 }
{
    Instr::MovTo {
        w: 64,
        r: Reg(from),
        rm: in_reg(to),
    }
}

/// `mov r, n`, where n is below 2^31.
pub fn set(r: u8, n: u32) -> Instr
    ensures { result ≡ (spec.sets r n).0 }
{
    Instr::MovImm {
        w: 32,
        r: Reg(r),
        imm: i64::from(n),
    }
}

/// `xor r, r`
pub fn clear(r: u8) -> Instr
    ensures { result ≡ (spec.clears r).0 }
{
    Instr::AluTo {
        op: 4,
        w: 32,
        r: Reg(r),
        rm: in_reg(r),
    }
}

/// `bndmk b, [none-1]`: INIT, where the register is 0.
pub fn init_first(none: u8, b: u8) -> Instr
    ensures { result ≡ (spec.init_first none b).0 }
{
    Instr::Bndmk {
        b,
        m: behind(none, -1),
    }
}

/// `bndmov b, from`
pub fn widen(b: u8, from: u8) -> Instr
    ensures { result ≡ (spec.widens b from).0 }
{
    Instr::BndmovFrom {
        b,
        rm: in_reg(from),
    }
}

/// From the end of an instruction to its target.
fn way(target: u64, next: u64) -> i32
    requires { (target ≤ 0x1300_0000) × (next ≤ 0x1300_0000) }
    ensures { result ≡ spec.way target next }
{
    target as i32 - next as i32
}

/// `bnd call` of an address, by an instruction that ends at `next`.
pub fn call(target: u64, next: u64) -> Instr
    requires { (target ≤ 0x1300_0000) × (next ≤ 0x1300_0000) }
    ensures { result ≡ (spec.calls target next).0 }
{
    Instr::CallRel {
        prefixed: true,
        rel: way(target, next),
    }
}

/// `bnd jmp` to an address, by an instruction that ends at `next`.
pub fn jump(target: u64, next: u64) -> Instr
    requires { (target ≤ 0x1300_0000) × (next ≤ 0x1300_0000) }
    ensures { result ≡ (spec.jumps target next).0 }
{
    Instr::JmpRel {
        prefixed: true,
        rel: way(target, next),
    }
}

/// `bnd ret`
pub fn give_back() -> Instr
    ensures { result ≡ spec.returns.0 }
{
    Instr::Ret { prefixed: true }
}
