//! Where lines stand.

ghost use Rattle.std.specs.Prelude.{◌≡◌, ◌≤◌, ◌<◌, ◌+◌, length};
ghost use Rattle.asm_text.specs.Assembly as spec;
ghost use Rattle.asm_text.specs.Lines.{line_of};
ghost use Rattle.asm_text.specs.Seen.{seen_line};
ghost use Rattle.assembler.specs.Held as held;
ghost use Rattle.assembler.specs.Sound.{IsSound, most_text};

use asm_text::{Cursor, Kind, Line, line_of};
use x86_encode::encode;

/// Before the first line.
pub fn start() -> Cursor
    ensures { result ≡ spec.start }
{
    Cursor {
        in_data: false,
        code: 0,
        stored: 0,
        line: 1,
    }
}

/// What a line of a text is.
#[tactic(auto, using(crate::proofs::SoundLines::line_of_sound))]
pub fn sound_line(in_data: bool, bytes: &[u8]) -> Line<'_>
    requires { length bytes.now ≤ most_text }
    ensures line { seen_line result ≡ line_of in_data bytes.now }
    ensures sound { IsSound in_data (seen_line result) }
{
    line_of(in_data, bytes)
}

/// The zero bytes up to the next multiple of `n`.
fn padding(n: u64, at: u64) -> u64
    requires { (1 ≤ n) × (n ≤ 16) }
    ensures value { result ≡ spec.padding n at }
    ensures small { result < 16 }
{
    (n - at % n) % n
}

/// How many bytes a line adds to its part.
#[tactic(auto, unfolding(asm_text::specs::Assembly::size_of, crate::specs::Sound::IsSound))]
pub fn size_of(at: Cursor, l: &Line) -> u64
    requires { IsSound at.in_data (seen_line l.now) }
    ensures value { result ≡ spec.size_of at l.now.kind }
    ensures small { result ≤ 1_073_741_824 }
{
    match l.kind {
        Kind::Code(i) => encode(&i).len() as u64,
        Kind::Bytes(n) => n,
        Kind::Quad(_) | Kind::Address => 8,
        Kind::Zero(n) => n,
        Kind::Align(n) => padding(n, at.stored),
        _ => 0,
    }
}

fn section_after(in_data: bool, l: &Line) -> bool
    ensures { result ≡ spec.section_after in_data l.now.kind }
{
    match l.kind {
        Kind::Text => false,
        Kind::Data => true,
        _ => in_data,
    }
}

/// Where the next line stands.
#[tactic(auto, unfolding(asm_text::specs::Assembly::after))]
pub fn after(at: Cursor, l: &Line) -> Cursor
    requires sound { IsSound at.in_data (seen_line l.now) }
    requires small { held.IsSmall at }
    requires few { at.line < held.most_lines }
    ensures next { result ≡ spec.after at l.now.kind }
    ensures small { held.IsSmall result }
{
    let size = size_of(at, l);
    let (code, stored) = if at.in_data { (0, size) } else { (size, 0) };
    Cursor {
        in_data: section_after(at.in_data, l),
        code: at.code + code,
        stored: at.stored + stored,
        line: at.line + 1,
    }
}

/// The offset in the line's part.
pub fn offset_of(at: Cursor) -> u64
    ensures { result ≡ spec.offset_of at }
{
    if at.in_data { at.stored } else { at.code }
}
