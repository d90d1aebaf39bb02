//! Signatures of functions, as the border between C and legacy code knows them: what a function takes and gives, and the registers in
//! which parameters stand.
#![tactic(auto)]

ghost use Rattle.std.specs.Prelude.{◌≡◌};
ghost use Rattle.call_sigs.specs.Signatures as spec;

use arrayvec::ArrayVec;
use mx_base::IntKind;

/// What a function takes and gives, in letters: `c C h H i I l L` for integers of 8, 16, 32 and 64 bits, signed and unsigned, and
/// `p` for a pointer.
#[derive(Drop)]
pub struct Sig {
    /// A letter, or `v` where there is no result.
    pub result: u8,
    /// A letter for each parameter, in order; at most four are `p`.
    pub params: ArrayVec<u8, 6>,
}

/// The kind of a number by its letter; a pointer has none.
pub fn kind_of_letter(letter: u8) -> Option<IntKind>
    ensures { result ≡ spec.kind_of_letter letter }
{
    match letter {
        b'c' => Some(IntKind::I8),
        b'C' => Some(IntKind::U8),
        b'h' => Some(IntKind::I16),
        b'H' => Some(IntKind::U16),
        b'i' => Some(IntKind::I32),
        b'I' => Some(IntKind::U32),
        b'l' => Some(IntKind::I64),
        b'L' => Some(IntKind::U64),
        _ => None,
    }
}
