//! Bytes that are written over others.

ghost use Rattle.std.specs.Prelude.{◌≡◌, ◌+◌, ◌≤◌, length, drop};
ghost use Rattle.c_types.specs.Layouts.{width};
ghost use Rattle.place_plan.specs.Initialisers.{first, rest, written, low_bytes};

use mx_base::IntKind;

/// Writes these bytes over those from a byte on.
pub fn write_bytes(bytes: &mut [u8], at: usize, new: &[u8])
    requires { at + length new.now ≤ length bytes.old }
    ensures bytes { bytes.new ≡ written at new.now bytes.old }
    ensures length { length bytes.new ≡ length bytes.old }
{
    let end = at + new.len();
    bytes[at..end].copy_from_slice(new);
}

/// The bytes of an integer.
fn width_of(kind: IntKind) -> usize
    ensures value { result ≡ width kind }
    ensures few { result ≤ 8 }
{
    match kind {
        IntKind::I8 | IntKind::U8 => 1,
        IntKind::I16 | IntKind::U16 => 2,
        IntKind::I32 | IntKind::U32 => 4,
        IntKind::I64 | IntKind::U64 => 8,
    }
}

/// Writes the low bytes of a word, the lowest first.
#[tactic(auto, unfolding(crate::specs::Initialisers::low_bytes))]
pub fn write_word(bytes: &mut [u8], at: usize, kind: IntKind, word: u64)
    requires { at + width kind ≤ length bytes.old }
    ensures bytes { bytes.new ≡ written at (low_bytes kind word) bytes.old }
    ensures length { length bytes.new ≡ length bytes.old }
{
    let all = word.to_le_bytes();
    let count = width_of(kind);
    write_bytes(bytes, at, &all[..count]);
}

/// The next of the words, and the place of the one after it; 0 where none is left.
pub fn next_word(words: &[u64], next: usize) -> (u64, usize)
    ensures word { result.0 ≡ first (drop next words.now) }
    ensures left { drop result.1 words.now ≡ rest (drop next words.now) }
{
    if next < words.len() {
        let word = words[next];
        (word, next + 1)
    } else {
        (0, next)
    }
}

/// The next of the numbers, and the place of the one after it; 0 where none is left.
pub fn next_number(numbers: &[u32], next: usize) -> (u32, usize)
    ensures number { result.0 ≡ first (drop next numbers.now) }
    ensures left { drop result.1 numbers.now ≡ rest (drop next numbers.now) }
{
    if next < numbers.len() {
        let number = numbers[next];
        (number, next + 1)
    } else {
        (0, next)
    }
}
