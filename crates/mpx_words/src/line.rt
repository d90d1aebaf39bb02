//! The lines on standard error, each built in a fixed buffer.
ghost use Rattle.std.specs.Prelude.{◌≡◌, ◌+◌, ◌<◌, ◌≤◌, ◌++◌, [], false, length, drop, codes};
ghost use Rattle.std.specs.Fmt.{decimal, digits, digit_glyph};
ghost use Rattle.arrayvec.specs.ArrayVec.{array_vec_len};
ghost use Rattle.fault_text.specs.Explain.{hex};
ghost use Rattle.mpx_words.specs.Ends.{line_of, word_of_kind};

use crate::end::End;
use arrayvec::ArrayVec;
use asm_text::AsmKind;
use itoa::Buffer;

/// Room for the longest line: a name has at most 255 bytes.
pub type Line = ArrayVec<u8, 640>;

/// The line for an end; `file` is the name of the command's file as it was given.
pub fn make_line(file: &str, end: &End) -> Line
    requires { length file.now ≤ 255 }
    ensures { result.items ≡ line_of file.now end.now }
{
    let mut line = Line::new();
    match end {
        End::Exit(code) => {
            push(&mut line, b"exit ");
            push_decimal(&mut line, u64::from(*code));
        }
        End::Bounds { value, lb, ub } => push_bounds(&mut line, *value, *lb, *ub),
        End::Missing => {
            push(&mut line, file.as_bytes());
            push(&mut line, b": Missing");
        }
        End::Unbuilt => {
            push(&mut line, file.as_bytes());
            push(&mut line, b": Unbuilt");
        }
        End::FileLarge => {
            push(&mut line, file.as_bytes());
            push(&mut line, b": FileLarge");
        }
        End::BadForm { at } => {
            push(&mut line, file.as_bytes());
            push(&mut line, b": BadForm at ");
            push_decimal(&mut line, *at);
        }
        End::BadLine { line: at, kind } => {
            push(&mut line, file.as_bytes());
            push(&mut line, b":");
            push_decimal(&mut line, u64::from(*at));
            push(&mut line, b": ");
            push_kind(&mut line, *kind);
        }
        End::WordsRefused => push(&mut line, b"words refused"),
        End::ReadFault => push(&mut line, b"read fault"),
        End::WriteFault => push(&mut line, b"write fault"),
        End::NoMemory => push(&mut line, b"no memory"),
    }
    push(&mut line, b"\n");
    line
}

/// What was left, and by what.
fn push_bounds(line: &mut Line, value: u64, lb: u64, ub: u64)
    requires { array_vec_len line.old ≡ 0 }
    ensures items { line.new.items ≡ line.old.items ++ (codes "bounds: 0x" ++ hex value ++ codes " outside [0x" ++ hex lb ++ codes ", 0x" ++ hex ub ++ codes "]") }
    ensures len { array_vec_len line.new ≤ 230 }
{
    push(line, b"bounds: 0x");
    push_hex(line, value);
    push(line, b" outside [0x");
    push_hex(line, lb);
    push(line, b", 0x");
    push_hex(line, ub);
    push(line, b"]");
}

/// Why a line of assembly is refused.
fn push_kind(line: &mut Line, kind: AsmKind)
    requires { array_vec_len line.old + 20 ≤ 640 }
    ensures items { line.new.items ≡ line.old.items ++ word_of_kind kind }
    ensures len { array_vec_len line.new ≤ array_vec_len line.old + 20 }
{
    match kind {
        AsmKind::Shape => push(line, b"Shape"),
        AsmKind::Range => push(line, b"Range"),
        AsmKind::Twice => push(line, b"Twice"),
        AsmKind::NoLocal => push(line, b"NoLocal"),
    }
}

/// Text.
fn push(line: &mut Line, text: &[u8])
    requires { array_vec_len line.old + length text.now ≤ 640 }
    ensures items { line.new.items ≡ line.old.items ++ text.now }
    ensures len { array_vec_len line.new ≡ array_vec_len line.old + length text.now }
{
    match line.try_extend_from_slice(text) {
        Ok(()) => {}
        Err(_) => unreachable!(),
    }
}

/// A number in decimal digits.
fn push_decimal(line: &mut Line, n: u64)
    requires { array_vec_len line.old + 40 ≤ 640 }
    ensures items { line.new.items ≡ line.old.items ++ decimal n }
    ensures len { array_vec_len line.new ≤ array_vec_len line.old + 40 }
{
    let mut buffer = Buffer::new();
    push(line, buffer.format(n).as_bytes());
}

/// A number in lower-case hexadecimal digits without leading zeros.
fn push_hex(line: &mut Line, n: u64)
    requires { array_vec_len line.old + 64 ≤ 640 }
    ensures items { line.new.items ≡ line.old.items ++ hex n }
    ensures len { array_vec_len line.new ≤ array_vec_len line.old + 64 }
{
    let mut text = [0u8; 64];
    let start = encode_hex(n, &mut text);
    let (_, written) = text.split_at(start);
    push(line, written);
}

/// Writes the digits at the end of `out`, and answers where they begin.
fn encode_hex(n: u64, out: &mut [u8; 64]) -> usize
    ensures bound { result ≤ 64 }
    ensures value { drop result out.new ≡ hex n }
{
    let mut i = 64;
    let mut rest = n;
    while i > 0 {
        i -= 1;
        out[i] = hex_digit(rest % 16);
        rest /= 16;
        if rest == 0 {
            break;
        }
    }
    i
}

fn hex_digit(d: u64) -> u8
    requires { d < 16 }
    ensures { result ≡ digit_glyph false d }
{
    if d < 10 { 48 + d as u8 } else { 87 + d as u8 }
}
