//! What is put into the output.
ghost use Rattle.std.specs.Prelude.{◌≡◌, ℕ, ◌+◌, ◌^◌, ◌<◌, ◌≤◌, None, List, [], ◌∷◌, ◌++◌};
ghost use Rattle.std.specs.Fmt.{signed_decimal};
ghost use Rattle.mx_base.specs.declared.numbers.IntKind.TheVariants.{I64};
ghost use Rattle.mx_base.specs.Numbers.{value_of};
ghost use Rattle.mx_base.specs.Regions.{is_readable};
ghost use Rattle.mx_base.specs.Memory.{first_refused, list_at};
ghost use Rattle.paged_memory.specs.Paged.{bytes_of};
ghost use Rattle.guest_services.specs.Streams.{PutsAll};

use itoa::Buffer;
use mx_base::{Failed, IntKind, Sink, wrap};
use paged_memory::Memory;

/// Puts all the bytes, in as many pieces as the sink takes.
pub fn put_all<O: Sink>(out: &mut O, bytes: &[u8]) -> Result<(), Failed>
    ensures { PutsAll (O.held out.old) (O.held out.new) (O.faults out.old) (O.faults out.new) bytes.now result }
{
    let mut at = 0;
    while at < bytes.len() {
        match out.put(&bytes[at..]) {
            Ok(n) => at += n,
            Err(Failed) => return Err(Failed),
        }
    }
    Ok(())
}

/// Puts `n` bytes of the memory from an address on.
pub fn put_bytes<O: Sink>(m: &Memory, from: u64, n: u64, out: &mut O) -> Result<(), Failed>
    requires mapped { first_refused is_readable n from ≡ None }
    requires fits { from + n < 2 ^ 64 }
    ensures { PutsAll (O.held out.old) (O.held out.new) (O.faults out.old) (O.faults out.new) (list_at n (bytes_of m.now) from) result }
{
    let mut at = 0;
    while at < n {
        let count = (n - at).min(64);
        let mut buf = [0u8; 64];
        let piece = &mut buf[..count as usize];
        match m.read(from + at, piece) {
            Ok(()) => {}
            Err(_) => unreachable!(),
        }
        match put_all(out, piece) {
            Ok(()) => at += count,
            Err(Failed) => return Err(Failed),
        }
    }
    Ok(())
}

/// Puts the signed decimal of a word, and a newline.
pub fn print<O: Sink>(word: u64, out: &mut O) -> Result<(), Failed>
    ensures { PutsAll (O.held out.old) (O.held out.new) (O.faults out.old) (O.faults out.new) (signed_decimal (value_of I64 word) ++ 10 ∷ []) result }
{
    let mut buffer = Buffer::new();
    let text = buffer.format(wrap(IntKind::I64, word as i128));
    match put_all(out, text.as_bytes()) {
        Ok(()) => put_all(out, b"\n"),
        Err(Failed) => Err(Failed),
    }
}
