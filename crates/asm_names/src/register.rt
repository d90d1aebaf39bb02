//! Registers and sizes.

ghost use Rattle.std.specs.Prelude.{◌≡◌};
ghost use Rattle.asm_names.specs.Registers as spec;

#[tactic(auto, unfolding(crate::specs::Registers::text_8))]
fn text_8(r: u8) -> &'static str
    ensures { result.now ≡ spec.text_8 r }
{
    match r {
        0 => "al",
        1 => "cl",
        2 => "dl",
        3 => "bl",
        4 => "spl",
        5 => "bpl",
        6 => "sil",
        7 => "dil",
        8 => "r8b",
        9 => "r9b",
        10 => "r10b",
        11 => "r11b",
        12 => "r12b",
        13 => "r13b",
        14 => "r14b",
        _ => "r15b",
    }
}

#[tactic(auto, unfolding(crate::specs::Registers::text_16))]
fn text_16(r: u8) -> &'static str
    ensures { result.now ≡ spec.text_16 r }
{
    match r {
        0 => "ax",
        1 => "cx",
        2 => "dx",
        3 => "bx",
        4 => "sp",
        5 => "bp",
        6 => "si",
        7 => "di",
        8 => "r8w",
        9 => "r9w",
        10 => "r10w",
        11 => "r11w",
        12 => "r12w",
        13 => "r13w",
        14 => "r14w",
        _ => "r15w",
    }
}

#[tactic(auto, unfolding(crate::specs::Registers::text_32))]
fn text_32(r: u8) -> &'static str
    ensures { result.now ≡ spec.text_32 r }
{
    match r {
        0 => "eax",
        1 => "ecx",
        2 => "edx",
        3 => "ebx",
        4 => "esp",
        5 => "ebp",
        6 => "esi",
        7 => "edi",
        8 => "r8d",
        9 => "r9d",
        10 => "r10d",
        11 => "r11d",
        12 => "r12d",
        13 => "r13d",
        14 => "r14d",
        _ => "r15d",
    }
}

#[tactic(auto, unfolding(crate::specs::Registers::text_64))]
fn text_64(r: u8) -> &'static str
    ensures { result.now ≡ spec.text_64 r }
{
    match r {
        0 => "rax",
        1 => "rcx",
        2 => "rdx",
        3 => "rbx",
        4 => "rsp",
        5 => "rbp",
        6 => "rsi",
        7 => "rdi",
        8 => "r8",
        9 => "r9",
        10 => "r10",
        11 => "r11",
        12 => "r12",
        13 => "r13",
        14 => "r14",
        _ => "r15",
    }
}

/// The name of the low bits of a register, 0 to 15: `w` is 8, 16, 32 or 64.
#[tactic(auto, unfolding(crate::specs::Registers::register_text))]
pub fn register_text(w: u8, r: u8) -> &'static str
    ensures { result.now ≡ spec.register_text w r }
{
    match w {
        8 => text_8(r),
        16 => text_16(r),
        32 => text_32(r),
        _ => text_64(r),
    }
}

/// The register, 0 to 15, whose low bits have this name: `w` is 8, 16, 32 or 64.
#[tactic(auto, unfolding(crate::specs::Registers::register_of), using(crate::proofs::First::first_here, crate::proofs::First::first_on, crate::proofs::First::first_none))]
pub fn register_of(w: u8, text: &[u8]) -> Option<u8>
    ensures { result ≡ spec.register_of w text.now }
{
    for r in 0..16 {
        if register_text(w, r).as_bytes() == text {
            return Some(r);
        }
    }
    None
}

/// The name of a bounds register, 0 to 3.
#[tactic(auto, unfolding(crate::specs::Registers::bounds_text))]
pub fn bounds_text(b: u8) -> &'static str
    ensures { result.now ≡ spec.bounds_text b }
{
    match b {
        0 => "bnd0",
        1 => "bnd1",
        2 => "bnd2",
        _ => "bnd3",
    }
}

/// The word for a width of 8, 16, 32 or 64 bits.
#[tactic(auto, unfolding(crate::specs::Registers::size_text))]
pub fn size_text(w: u8) -> &'static str
    ensures { result.now ≡ spec.size_text w }
{
    match w {
        8 => "byte",
        16 => "word",
        32 => "dword",
        _ => "qword",
    }
}

/// The bounds register of this name.
#[tactic(auto, unfolding(crate::specs::Registers::bounds_of), using(crate::proofs::First::first_here, crate::proofs::First::first_on, crate::proofs::First::first_none))]
pub fn bounds_of(text: &[u8]) -> Option<u8>
    ensures { result ≡ spec.bounds_of text.now }
{
    for b in 0..4 {
        if bounds_text(b).as_bytes() == text {
            return Some(b);
        }
    }
    None
}

fn width_at(k: u8) -> u8
    ensures { result ≡ spec.width_at k }
{
    match k {
        0 => 8,
        1 => 16,
        2 => 32,
        _ => 64,
    }
}

/// The width in bits of which this is the word.
#[tactic(auto, unfolding(crate::specs::Registers::size_of), using(crate::proofs::First::first_here, crate::proofs::First::first_on, crate::proofs::First::first_none))]
pub fn size_of(text: &[u8]) -> Option<u8>
    ensures { result ≡ spec.size_of text.now }
{
    for k in 0..4 {
        let w = width_at(k);
        if size_text(w).as_bytes() == text {
            return Some(w);
        }
    }
    None
}
