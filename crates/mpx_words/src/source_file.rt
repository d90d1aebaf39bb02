//! The bytes of a file.
ghost use Rattle.std.specs.Prelude.{◌≡◌, ◌<◌, ◌≤◌, ℕ, List, IfOk, IfSome, vec_len};
ghost use Rattle.mpx_words.specs.Sources.{ReadsFront, ReadCounts};

use mx_base::{Failed, Files, OutOfMemory};
use std::alloc::{AllocError, Global};

/// One byte more than a file of the early form has at most.
pub const ENOUGH: usize = 65537;

/// Why a file was not read.
#[derive(Clone, Copy, Debug, PartialEq, Eq)]
pub enum SourceFault {
    Failed,
    OutOfMemory,
}

/// The first `most` bytes of the file, or all of them if it has fewer; `None` if there is no such file. Bytes behind them aren't asked for.
pub fn read_front<F: Files>(
    alloc: Global,
    files: &mut F,
    name: &str,
    most: usize,
) -> Result<Option<Vec<u8>>, SourceFault>
    requires some { 0 < most }
    requires few { most ≤ 0x4000_0000 }
    ensures bytes { ReadsFront most (F.contents files.old name.now) result }
    ensures short { IfOk result (λ read. IfSome read (λ bytes. vec_len bytes ≤ most)) }
    ensures contents { (n : List ℕ) → F.contents files.new n ≡ F.contents files.old n }
    ensures read_faults { ReadCounts result (F.read_faults files.old) (F.read_faults files.new) }
    ensures write_faults { F.write_faults files.new ≡ F.write_faults files.old }
{
    let mut chunk = [0u8; 4096];
    let mut bytes = Vec::new(alloc);
    while bytes.len() < most {
        let room = &mut chunk[..(most - bytes.len()).min(4096)];
        match files.read_at(name, bytes.len() as u64, room) {
            Err(Failed) => return Err(SourceFault::Failed),
            Ok(None) => return Ok(None),
            Ok(Some(0)) => return Ok(Some(bytes)),
            Ok(Some(n)) => {
                if bytes.extend_from_slice(&room[..n]).is_err() {
                    return Err(SourceFault::OutOfMemory);
                }
            }
        }
    }
    Ok(Some(bytes))
}
