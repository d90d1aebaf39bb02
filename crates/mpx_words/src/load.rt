//! The bytes of a file, all of them.
ghost use Rattle.std.specs.Prelude.{◌≡◌, ℕ, List};
ghost use Rattle.mpx_words.specs.Files as spec;
ghost use Rattle.mpx_words.specs.Files.{LoadsBytes, LoadCounts};

use crate::end::End;
use crate::source_file::{SourceFault, read_front};
use mx_base::Files;
use obj_file::FormFault;
use std::alloc::Global;

/// One byte more than a file may have.
const ENOUGH: usize = 536_870_913;

/// All bytes of a file, or why they are not read: there is no file, it is too large, a read failed, or memory is wanting.
pub fn load_bytes<F: Files>(alloc: Global, files: &mut F, name: &str) -> Result<Vec<u8>, End>
    ensures loads { LoadsBytes (F.contents files.old name.now) result }
    ensures contents { (n : List ℕ) → F.contents files.new n ≡ F.contents files.old n }
    ensures counts { LoadCounts result (F.read_faults files.old) (F.read_faults files.new) }
    ensures write_faults { F.write_faults files.new ≡ F.write_faults files.old }
{
    match read_front(alloc, files, name, ENOUGH) {
        Err(SourceFault::Failed) => Err(End::ReadFault),
        Err(SourceFault::OutOfMemory) => Err(End::NoMemory),
        Ok(None) => Err(End::Missing),
        Ok(Some(bytes)) if bytes.len() < ENOUGH => Ok(bytes),
        Ok(Some(_)) => Err(End::FileLarge),
    }
}

/// How a command ends whose file has not the form that is asked for.
pub fn refusal_of_form(fault: FormFault) -> End
    ensures { result ≡ spec.refusal_of_form fault }
{
    match fault {
        FormFault::BadForm { at } => End::BadForm { at },
        FormFault::OutOfMemory => End::NoMemory,
    }
}

/// Whether the bytes begin as an object, of either version.
#[tactic(auto, unfolding(crate::specs::Files::begins_object))]
pub fn begins_object(bytes: &[u8]) -> bool
    ensures { result ≡ spec.begins_object bytes.now }
{
    bytes.starts_with(b"MXO1") || bytes.starts_with(b"MXO2")
}
