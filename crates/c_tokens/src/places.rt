//! Places.

ghost use Rattle.std.specs.Prelude.{◌≡◌, ◌+◌, ◌^◌, ◌<◌, ◌≤◌, length, fold};
ghost use Rattle.c_tokens.specs.Places as spec;

use mx_base::Place;

fn step(at: Place, b: u8) -> Place
    requires line { at.line + 1 < 2 ^ 32 }
    requires col { at.col + 1 < 2 ^ 32 }
    ensures value { result ≡ spec.step at b }
    ensures line { result.line ≤ at.line + 1 }
    ensures col { result.col ≤ at.col + 1 }
{
    if b == b'\n' {
        Place {
            file: at.file,
            line: at.line + 1,
            col: 1,
        }
    } else {
        Place {
            file: at.file,
            line: at.line,
            col: at.col + 1,
        }
    }
}

/// The place after these bytes, of which the first stands at `from`.
pub fn moved(from: Place, bytes: &[u8]) -> Place
    requires line { from.line + length bytes.now < 2 ^ 32 }
    requires col { from.col + length bytes.now < 2 ^ 32 }
    ensures value { result ≡ fold spec.step from bytes.now }
    ensures line { result.line ≤ from.line + length bytes.now }
    ensures col { result.col ≤ from.col + length bytes.now }
{
    let mut at = from;
    for b in bytes {
        at = step(at, *b);
    }
    at
}
