//! What an opcode begins.

ghost use Rattle.std.specs.Prelude.{◌≡◌, if◌then◌else◌};
ghost use Rattle.x86_forms.specs.Validity.{condition_ok};
ghost use Rattle.x86_decode.specs.Rows.{one_plain, two_plain, one_66, two_66, one_f2, two_f2, two_f3, row_of};

/// What an opcode begins, under its prefix and REX.W: an instruction but for the operands and the immediate. The numbers
/// are the fields of the instruction that the opcode decides, in their order.
#[derive(Clone, Copy)]
pub enum Row {
    MovTo(u8),
    MovFrom(u8),
    /// `mov` of an immediate to memory, or of one of 32 bits to a register of 64.
    MovMem(u8),
    /// `mov` of an immediate to the register in the opcode.
    MovImm(u8),
    Movsxd,
    Movzx(u8),
    Movsx(u8, u8),
    Lea,
    AluTo(u8, u8),
    AluFrom(u8, u8),
    /// True for an immediate of 32 bits, false for one of 8. The operation is in ModRM.
    AluImm(u8, bool),
    Test(u8),
    Imul(u8),
    One(u8),
    Wide(u8),
    ShiftCl(u8),
    ShiftImm(u8),
    Set(u8),
    Push,
    Pop,
    CallRel(bool),
    JmpRel(bool),
    /// `call` or `jmp`, as ModRM says.
    Ff(bool),
    Jcc(bool, u8),
    Ret(bool),
    Syscall,
    Ud2,
    Nop,
    Bndmk,
    Bndcl,
    Bndcu,
    Bndcn,
    BndmovTo,
    BndmovFrom,
    Bndldx,
    Bndstx,
}

fn width(w: bool) -> u8
    ensures { result ≡ (if w then 64 else 32) }
{
    if w { 64 } else { 32 }
}

fn unless(w: bool, row: Row) -> Option<Row>
    ensures { result ≡ (if w then None else Some row) }
{
    if w { None } else { Some(row) }
}

fn only(w: bool, row: Row) -> Option<Row>
    ensures { result ≡ (if w then Some row else None) }
{
    if w { Some(row) } else { None }
}

#[tactic(auto, unfolding(crate::specs::Rows::one_plain))]
fn row_one_plain(w: bool, op: u8) -> Option<Row>
    ensures { result ≡ one_plain w op }
{
    match op {
        0x89 => Some(Row::MovTo(width(w))),
        0x88 => unless(w, Row::MovTo(8)),
        0x8B => Some(Row::MovFrom(width(w))),
        0x8A => unless(w, Row::MovFrom(8)),
        0xC7 => Some(Row::MovMem(width(w))),
        0xC6 => unless(w, Row::MovMem(8)),
        0xB8 => Some(Row::MovImm(width(w))),
        0x63 => only(w, Row::Movsxd),
        0x8D => only(w, Row::Lea),
        0x81 => Some(Row::AluImm(width(w), true)),
        0x83 => Some(Row::AluImm(width(w), false)),
        0x85 => Some(Row::Test(width(w))),
        0xF7 => Some(Row::One(width(w))),
        0x99 => Some(Row::Wide(width(w))),
        0xD3 => Some(Row::ShiftCl(width(w))),
        0xC1 => Some(Row::ShiftImm(width(w))),
        0x50 => unless(w, Row::Push),
        0x58 => unless(w, Row::Pop),
        0xE8 => unless(w, Row::CallRel(false)),
        0xE9 => unless(w, Row::JmpRel(false)),
        0xFF => unless(w, Row::Ff(false)),
        0xC3 => unless(w, Row::Ret(false)),
        0x90 => unless(w, Row::Nop),
        1 => Some(Row::AluTo(0, width(w))),
        9 => Some(Row::AluTo(1, width(w))),
        33 => Some(Row::AluTo(2, width(w))),
        41 => Some(Row::AluTo(3, width(w))),
        49 => Some(Row::AluTo(4, width(w))),
        57 => Some(Row::AluTo(5, width(w))),
        3 => Some(Row::AluFrom(0, width(w))),
        11 => Some(Row::AluFrom(1, width(w))),
        35 => Some(Row::AluFrom(2, width(w))),
        43 => Some(Row::AluFrom(3, width(w))),
        51 => Some(Row::AluFrom(4, width(w))),
        59 => Some(Row::AluFrom(5, width(w))),
        _ => None,
    }
}

fn is_cc(n: u8) -> bool
    ensures { result ≡ condition_ok n }
{
    n < 16 && n != 10 && n != 11
}

#[tactic(auto, unfolding(crate::specs::Rows::two_plain))]
fn row_two_plain(w: bool, op: u8) -> Option<Row>
    ensures { result ≡ two_plain w op }
{
    match op {
        0xB6 => unless(w, Row::Movzx(8)),
        0xB7 => unless(w, Row::Movzx(16)),
        0xBE => Some(Row::Movsx(width(w), 8)),
        0xBF => Some(Row::Movsx(width(w), 16)),
        0xAF => Some(Row::Imul(width(w))),
        0x05 => unless(w, Row::Syscall),
        0x0B => unless(w, Row::Ud2),
        0x1A => unless(w, Row::Bndldx),
        0x1B => unless(w, Row::Bndstx),
        _ => {
            if op >= 0x90 && is_cc(op - 0x90) {
                unless(w, Row::Set(op - 0x90))
            } else if op >= 0x80 && is_cc(op - 0x80) {
                unless(w, Row::Jcc(false, op - 0x80))
            } else {
                None
            }
        }
    }
}

#[tactic(auto, unfolding(crate::specs::Rows::one_66))]
fn row_one_66(op: u8) -> Option<Row>
    ensures { result ≡ one_66 op }
{
    match op {
        0x89 => Some(Row::MovTo(16)),
        0x8B => Some(Row::MovFrom(16)),
        0xC7 => Some(Row::MovMem(16)),
        _ => None,
    }
}

#[tactic(auto, unfolding(crate::specs::Rows::two_66))]
fn row_two_66(op: u8) -> Option<Row>
    ensures { result ≡ two_66 op }
{
    match op {
        0x1A => Some(Row::BndmovFrom),
        0x1B => Some(Row::BndmovTo),
        _ => None,
    }
}

#[tactic(auto, unfolding(crate::specs::Rows::one_f2))]
fn row_one_f2(op: u8) -> Option<Row>
    ensures { result ≡ one_f2 op }
{
    match op {
        0xE8 => Some(Row::CallRel(true)),
        0xE9 => Some(Row::JmpRel(true)),
        0xFF => Some(Row::Ff(true)),
        0xC3 => Some(Row::Ret(true)),
        _ => None,
    }
}

#[tactic(auto, unfolding(crate::specs::Rows::two_f2))]
fn row_two_f2(op: u8) -> Option<Row>
    ensures { result ≡ two_f2 op }
{
    match op {
        0x1A => Some(Row::Bndcu),
        0x1B => Some(Row::Bndcn),
        _ => {
            if op >= 0x80 && is_cc(op - 0x80) {
                Some(Row::Jcc(true, op - 0x80))
            } else {
                None
            }
        }
    }
}

#[tactic(auto, unfolding(crate::specs::Rows::two_f3))]
fn row_two_f3(op: u8) -> Option<Row>
    ensures { result ≡ two_f3 op }
{
    match op {
        0x1A => Some(Row::Bndcl),
        0x1B => Some(Row::Bndmk),
        _ => None,
    }
}

/// The row of an opcode under a prefix (0: none) and REX.W, behind 0F where `escape`.
#[tactic(auto, unfolding(crate::specs::Rows::row_of))]
pub fn row_at(prefix: u8, w: bool, escape: bool, op: u8) -> Option<Row>
    ensures { result ≡ row_of prefix w escape op }
{
    if prefix == 0 {
        if escape {
            row_two_plain(w, op)
        } else {
            row_one_plain(w, op)
        }
    } else if w {
        None
    } else if prefix == 0x66 {
        if escape {
            row_two_66(op)
        } else {
            row_one_66(op)
        }
    } else if prefix == 0xF2 {
        if escape {
            row_two_f2(op)
        } else {
            row_one_f2(op)
        }
    } else if escape {
        row_two_f3(op)
    } else {
        None
    }
}
