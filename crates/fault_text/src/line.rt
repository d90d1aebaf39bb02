//! A line of fixed room, and what is put at its end.

ghost use Rattle.std.specs.Prelude.{◌≡◌, ◌+◌, ◌<◌, ◌≤◌, ◌++◌, false, length, drop};
ghost use Rattle.std.specs.Fmt.{decimal, digit_glyph};
ghost use Rattle.arrayvec.specs.ArrayVec.{array_vec_len};
ghost use Rattle.fault_text.specs.Explain.{hex};

use arrayvec::ArrayVec;
use itoa::Buffer;

/// Room for the longest line, which has 378 bytes: a name has at most 255.
pub type Line = ArrayVec<u8, 512>;

/// Text.
pub fn push(line: &mut Line, text: &[u8])
    requires { array_vec_len line.old + length text.now ≤ 512 }
    ensures items { line.new.items ≡ line.old.items ++ text.now }
    ensures len { array_vec_len line.new ≡ array_vec_len line.old + length text.now }
{
    match line.try_extend_from_slice(text) {
        Ok(()) => {}
        Err(_) => unreachable!(),
    }
}

/// A number in decimal digits.
pub fn push_decimal(line: &mut Line, n: u32)
    requires { array_vec_len line.old + 10 ≤ 512 }
    ensures items { line.new.items ≡ line.old.items ++ decimal n }
    ensures len { array_vec_len line.new ≤ array_vec_len line.old + 10 }
{
    let mut buffer = Buffer::new();
    push(line, buffer.format(n).as_bytes());
}

/// A number in lower-case hexadecimal digits without leading zeros.
#[tactic(auto, using(crate::proofs::Hex::length_hex))]
pub fn push_hex(line: &mut Line, n: u64)
    requires { array_vec_len line.old + 16 ≤ 512 }
    ensures items { line.new.items ≡ line.old.items ++ hex n }
    ensures len { array_vec_len line.new ≤ array_vec_len line.old + 16 }
{
    let mut text = [0u8; 64];
    let start = encode_hex(n, &mut text);
    let (_, written) = text.split_at(start);
    push(line, written);
}

/// Writes the digits at the end of `out`, and answers where they begin.
fn encode_hex(n: u64, out: &mut [u8; 64]) -> usize
    ensures bound { result ≤ 64 }
    ensures value { drop result out.new ≡ hex n }
{
    let mut i = 64;
    let mut rest = n;
    while i > 0 {
        i -= 1;
        out[i] = hex_digit(rest % 16);
        rest /= 16;
        if rest == 0 {
            break;
        }
    }
    i
}

fn hex_digit(d: u64) -> u8
    requires { d < 16 }
    ensures { result ≡ digit_glyph false d }
{
    if d < 10 { 48 + d as u8 } else { 87 + d as u8 }
}
