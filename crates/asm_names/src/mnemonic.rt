//! Mnemonics.

ghost use Rattle.std.specs.Prelude.{◌≡◌};
ghost use Rattle.asm_names.specs.Mnemonics as spec;

/// The name of an operation. A number is the place in the list that the variant names, from 0, or a condition's code.
#[derive(Clone, Copy, Debug, PartialEq, Eq)]
pub enum Mnemonic {
    Mov,
    Movsxd,
    Movzx,
    Movsx,
    Lea,
    /// `add or and sub xor cmp`.
    Alu(u8),
    Test,
    Imul,
    /// `not neg div idiv`.
    One(u8),
    Cdq,
    Cqo,
    /// `shl shr sar`.
    Shift(u8),
    /// `setCC`.
    Set(u8),
    Push,
    Pop,
    Call,
    Jmp,
    /// `jCC`.
    JumpIf(u8),
    Ret,
    Syscall,
    Ud2,
    Nop,
    Bndmk,
    Bndcl,
    Bndcu,
    Bndcn,
    Bndmov,
    Bndldx,
    Bndstx,
}

#[tactic(auto, unfolding(crate::specs::Mnemonics::alu_text))]
fn alu_text(op: u8) -> &'static str
    ensures { result.now ≡ spec.alu_text op }
{
    match op {
        0 => "add",
        1 => "or",
        2 => "and",
        3 => "sub",
        4 => "xor",
        _ => "cmp",
    }
}

#[tactic(auto, unfolding(crate::specs::Mnemonics::one_text))]
fn one_text(op: u8) -> &'static str
    ensures { result.now ≡ spec.one_text op }
{
    match op {
        0 => "not",
        1 => "neg",
        2 => "div",
        _ => "idiv",
    }
}

#[tactic(auto, unfolding(crate::specs::Mnemonics::shift_text))]
fn shift_text(op: u8) -> &'static str
    ensures { result.now ≡ spec.shift_text op }
{
    match op {
        0 => "shl",
        1 => "shr",
        _ => "sar",
    }
}

#[tactic(auto, unfolding(crate::specs::Mnemonics::set_text))]
fn set_text(op: u8) -> &'static str
    ensures { result.now ≡ spec.set_text op }
{
    match op {
        0 => "seto",
        1 => "setno",
        2 => "setb",
        3 => "setae",
        4 => "sete",
        5 => "setne",
        6 => "setbe",
        7 => "seta",
        8 => "sets",
        9 => "setns",
        12 => "setl",
        13 => "setge",
        14 => "setle",
        _ => "setg",
    }
}

#[tactic(auto, unfolding(crate::specs::Mnemonics::jump_text))]
fn jump_text(op: u8) -> &'static str
    ensures { result.now ≡ spec.jump_text op }
{
    match op {
        0 => "jo",
        1 => "jno",
        2 => "jb",
        3 => "jae",
        4 => "je",
        5 => "jne",
        6 => "jbe",
        7 => "ja",
        8 => "js",
        9 => "jns",
        12 => "jl",
        13 => "jge",
        14 => "jle",
        _ => "jg",
    }
}

/// The text of a mnemonic.
#[tactic(auto, unfolding(crate::specs::Mnemonics::mnemonic_text))]
pub fn mnemonic_text(m: Mnemonic) -> &'static str
    ensures { result.now ≡ spec.mnemonic_text m }
{
    match m {
        Mnemonic::Mov => "mov",
        Mnemonic::Movsxd => "movsxd",
        Mnemonic::Movzx => "movzx",
        Mnemonic::Movsx => "movsx",
        Mnemonic::Lea => "lea",
        Mnemonic::Alu(op) => alu_text(op),
        Mnemonic::Test => "test",
        Mnemonic::Imul => "imul",
        Mnemonic::One(op) => one_text(op),
        Mnemonic::Cdq => "cdq",
        Mnemonic::Cqo => "cqo",
        Mnemonic::Shift(op) => shift_text(op),
        Mnemonic::Set(op) => set_text(op),
        Mnemonic::Push => "push",
        Mnemonic::Pop => "pop",
        Mnemonic::Call => "call",
        Mnemonic::Jmp => "jmp",
        Mnemonic::JumpIf(op) => jump_text(op),
        Mnemonic::Ret => "ret",
        Mnemonic::Syscall => "syscall",
        Mnemonic::Ud2 => "ud2",
        Mnemonic::Nop => "nop",
        Mnemonic::Bndmk => "bndmk",
        Mnemonic::Bndcl => "bndcl",
        Mnemonic::Bndcu => "bndcu",
        Mnemonic::Bndcn => "bndcn",
        Mnemonic::Bndmov => "bndmov",
        Mnemonic::Bndldx => "bndldx",
        Mnemonic::Bndstx => "bndstx",
    }
}

/// The mnemonic of so many places in the list of all.
#[tactic(auto, unfolding(crate::specs::Mnemonics::mnemonic_at))]
fn mnemonic_at(k: u8) -> Mnemonic
    ensures { result ≡ spec.mnemonic_at k }
{
    match k {
        0 => Mnemonic::Mov,
        1 => Mnemonic::Movsxd,
        2 => Mnemonic::Movzx,
        3 => Mnemonic::Movsx,
        4 => Mnemonic::Lea,
        5 => Mnemonic::Test,
        6 => Mnemonic::Imul,
        7 => Mnemonic::Cdq,
        8 => Mnemonic::Cqo,
        9 => Mnemonic::Push,
        10 => Mnemonic::Pop,
        11 => Mnemonic::Call,
        12 => Mnemonic::Jmp,
        13 => Mnemonic::Ret,
        14 => Mnemonic::Syscall,
        15 => Mnemonic::Ud2,
        16 => Mnemonic::Nop,
        17 => Mnemonic::Bndmk,
        18 => Mnemonic::Bndcl,
        19 => Mnemonic::Bndcu,
        20 => Mnemonic::Bndcn,
        21 => Mnemonic::Bndmov,
        22 => Mnemonic::Bndldx,
        23 => Mnemonic::Bndstx,
        24..=29 => Mnemonic::Alu(k - 24),
        30..=33 => Mnemonic::One(k - 30),
        34..=36 => Mnemonic::Shift(k - 34),
        37..=46 => Mnemonic::Set(k - 37),
        47..=50 => Mnemonic::Set(k - 35),
        51..=60 => Mnemonic::JumpIf(k - 51),
        _ => Mnemonic::JumpIf(k.saturating_sub(49)),
    }
}

/// The mnemonic that this text is.
#[tactic(auto, unfolding(crate::specs::Mnemonics::mnemonic_of), using(crate::proofs::First::first_here, crate::proofs::First::first_on, crate::proofs::First::first_none))]
pub fn mnemonic_of(text: &[u8]) -> Option<Mnemonic>
    ensures { result ≡ spec.mnemonic_of text.now }
{
    for k in 0..65 {
        let m = mnemonic_at(k);
        if mnemonic_text(m).as_bytes() == text {
            return Some(m);
        }
    }
    None
}
