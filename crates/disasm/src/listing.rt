//! The line at the front of bytes, and the lines of code.

ghost use Rattle.std.specs.Prelude.{◌≡◌, ◌<◌, ◌≤◌, false, length, IfOk};
ghost use Rattle.std.specs.Fmt.{digit_glyph};
ghost use Rattle.disasm.specs.Listing.{byte_text, LineOf, Lists};

use crate::text::{Text, push, text_of};
use crate::written::written_of;
use arrayvec::ArrayVec;
use mx_base::OutOfMemory;
use std::alloc::Global;
use x86_decode::decode;

/// A line of text, without its end, and how many bytes it stands for.
#[derive(Drop)]
pub struct Line {
    pub text: ArrayVec<u8, 96>,
    pub len: u8,
}

fn hex_digit(d: u8) -> u8
    requires { d < 16 }
    ensures { result ≡ digit_glyph false d }
{
    if d < 10 { 48 + d } else { 87 + d }
}

/// The line of a byte that begins no instruction.
fn text_of_byte(b: u8) -> Text
    ensures { result.items ≡ byte_text b }
{
    let mut text = Text::new();
    push(&mut text, b".byte 0x");
    push(&mut text, &[hex_digit(b / 16), hex_digit(b % 16)]);
    text
}

/// The line of the instruction at the front of the bytes, or of the first byte if they begin with none. `_at` is the address of
/// the bytes, which no text tells: a target is counted from the end of its instruction.
#[tactic(auto, using(crate::proofs::Lines::line_has_bytes))]
pub fn one(bytes: &[u8], _at: u64) -> Line
    requires { 0 < length bytes.now }
    ensures line { LineOf bytes.now result.text.items result.len }
    ensures len { (1 ≤ result.len) × (result.len ≤ length bytes.now) }
{
    match decode(bytes) {
        Ok((instr, len)) => Line {
            text: text_of(written_of(instr)),
            len,
        },
        Err(_) => Line {
            text: text_of_byte(bytes[0]),
            len: 1,
        },
    }
}

/// The lines of code, each ended by a line feed.
pub fn all(alloc: Global, code: &[u8]) -> Result<Vec<u8>, OutOfMemory>
    ensures { IfOk result (λ text. Lists code.now text.items) }
{
    let mut out = Vec::new(alloc);
    let mut rest = code;
    while !rest.is_empty() {
        let line = one(rest, 0);
        out.extend_from_slice(line.text.as_slice())?;
        out.extend_from_slice(b"\n")?;
        let (_, after) = rest.split_at(line.len as usize);
        rest = after;
    }
    Ok(out)
}
