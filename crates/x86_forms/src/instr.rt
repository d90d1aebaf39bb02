/// A register of the processor, 0 to 15: rax, rcx, rdx, rbx, rsp, rbp, rsi, rdi, r8 to r15.
#[derive(Clone, Copy, Debug, PartialEq, Eq)]
pub struct Reg(pub u8);

/// What the address of a memory operand begins with.
#[derive(Clone, Copy, Debug, PartialEq, Eq)]
pub enum Base {
    None,
    Reg(Reg),
    /// The address of the next instruction.
    Rip,
}

/// A memory operand. Its address is the sum of the base, the index register times its scale (1, 2, 4 or 8) and the
/// displacement, modulo 2^64.
#[derive(Clone, Copy, Debug, PartialEq, Eq)]
pub struct Mem {
    pub base: Base,
    pub index: Option<(Reg, u8)>,
    pub disp: i32,
}

/// A register or memory operand. In `BndmovFrom` the register is a bounds register's number.
#[derive(Clone, Copy, Debug, PartialEq, Eq)]
pub enum Rm {
    Reg(Reg),
    Mem(Mem),
}

/// An instruction.
///
/// `w` is a width in bits, and `from` the width that is read. `op` is the place in the list that the variant names, from
/// 0. `b` is a bounds register, 0 to 3. `prefixed` says that the BND prefix stands. `imm` is the signed value of its
/// field, and for a shift the unsigned count. `rel` counts from the end of the instruction.
#[derive(Clone, Copy, Debug, PartialEq, Eq)]
pub enum Instr {
    /// `mov rm, r`, of 8, 16, 32 or 64 bits.
    MovTo { w: u8, r: Reg, rm: Rm },
    /// `mov r, m`, of 8, 16, 32 or 64 bits.
    MovFrom { w: u8, r: Reg, m: Mem },
    /// `mov m, imm`, of 8, 16, 32 or 64 bits; the immediate has at most 32.
    MovMemImm { w: u8, m: Mem, imm: i64 },
    /// `mov r, imm`, of 32 or 64 bits.
    MovImm { w: u8, r: Reg, imm: i64 },
    /// `movsxd r, rm`: 64 bits from 32.
    Movsxd { r: Reg, rm: Rm },
    /// `movzx r, rm`: 32 bits from 8 or 16.
    Movzx { from: u8, r: Reg, rm: Rm },
    /// `movsx r, rm`: 32 or 64 bits from 8 or 16.
    Movsx { w: u8, from: u8, r: Reg, rm: Rm },
    /// `lea r, m`, of 64 bits.
    Lea { r: Reg, m: Mem },
    /// `add or and sub xor cmp rm, r`, of 32 or 64 bits.
    AluTo { op: u8, w: u8, r: Reg, rm: Rm },
    /// `add or and sub xor cmp r, m`, of 32 or 64 bits.
    AluFrom { op: u8, w: u8, r: Reg, m: Mem },
    /// `add or and sub xor cmp rm, imm`, of 32 or 64 bits.
    AluImm { op: u8, w: u8, rm: Rm, imm: i64 },
    /// `test rm, r`, of 32 or 64 bits.
    Test { w: u8, r: Reg, rm: Rm },
    /// `imul r, rm`, of 32 or 64 bits.
    Imul { w: u8, r: Reg, rm: Rm },
    /// `not neg div idiv rm`, of 32 or 64 bits.
    One { op: u8, w: u8, rm: Rm },
    /// `cdq` of 32 bits, `cqo` of 64.
    Wide { w: u8 },
    /// `shl shr sar rm, cl`, of 32 or 64 bits.
    ShiftCl { op: u8, w: u8, rm: Rm },
    /// `shl shr sar rm, imm`, of 32 or 64 bits.
    ShiftImm { op: u8, w: u8, rm: Rm, imm: i64 },
    /// `setCC rm`, of 8 bits; `op` is the condition's code.
    Set { op: u8, rm: Rm },
    Push { r: Reg },
    Pop { r: Reg },
    /// `[bnd] call rel`.
    CallRel { prefixed: bool, rel: i32 },
    /// `[bnd] jmp rel`.
    JmpRel { prefixed: bool, rel: i32 },
    /// `[bnd] call rm`.
    CallRm { prefixed: bool, rm: Rm },
    /// `[bnd] jmp rm`.
    JmpRm { prefixed: bool, rm: Rm },
    /// `[bnd] jCC rel`; `op` is the condition's code: o 0, no 1, b 2, ae 3, e 4, ne 5, be 6, a 7, s 8, ns 9, l 12, ge 13,
    /// le 14, g 15.
    Jcc { prefixed: bool, op: u8, rel: i32 },
    /// `[bnd] ret`.
    Ret { prefixed: bool },
    Syscall,
    Ud2,
    Nop,
    /// `bndmk b, m`: makes bounds from the base register to the address.
    Bndmk { b: u8, m: Mem },
    /// `bndcl b, rm`: checks against the lower bound.
    Bndcl { b: u8, rm: Rm },
    /// `bndcu b, rm`: checks against the upper bound, which is held in one's complement.
    Bndcu { b: u8, rm: Rm },
    /// `bndcn b, rm`: checks against the held word of the upper bound.
    Bndcn { b: u8, rm: Rm },
    /// `bndmov m, b`.
    BndmovTo { b: u8, m: Mem },
    /// `bndmov b, rm`.
    BndmovFrom { b: u8, rm: Rm },
    /// `bndldx b, m`: loads bounds by the walk.
    Bndldx { b: u8, m: Mem },
    /// `bndstx m, b`: stores bounds by the walk.
    Bndstx { b: u8, m: Mem },
}
