//! Programs of the early form, and their code.

use c_reader::{Early, EarlyFault, read_early};
use hex::encode;
use mx_base::{MemSink, OutOfMemory};
use std::alloc::{AllocError, Global};
use x86_core::run_early;
use x86_lower::lower_early;

/// The size of the array, the acts and the value that is returned.
pub fn early_line(alloc: Global, text: &[u8]) -> Result<String, AllocError> {
    match read_early(alloc, text) {
        Ok(Early { size, acts, code }) => {
            let acts = acts.as_slice();
            format!(in alloc; "{size} {acts:?} {code}")
        }
        Err(EarlyFault::Unbuilt) => String::from_str(alloc, "Unbuilt"),
        Err(EarlyFault::OutOfMemory) => String::from_str(alloc, "no memory"),
    }
}

/// The code of a program.
fn code_of(alloc: Global, text: &[u8]) -> Result<(Vec<u8>, u16), OutOfMemory> {
    match read_early(alloc, text) {
        Ok(early) => Ok((lower_early(alloc, &early)?, early.size)),
        Err(EarlyFault::Unbuilt) => Ok((Vec::new(alloc), 0)),
        Err(EarlyFault::OutOfMemory) => Err(OutOfMemory),
    }
}

/// The bytes of the program's code.
pub fn code_line(alloc: Global, text: &[u8]) -> Result<String, AllocError> {
    match code_of(alloc, text) {
        Ok((code, _)) => encode(alloc, code.as_slice()),
        Err(OutOfMemory) => String::from_str(alloc, "no memory"),
    }
}

/// How the run of the program's code stops, and the bytes that it puts.
pub fn code_run_line(alloc: Global, text: &[u8]) -> Result<String, AllocError> {
    match code_run(alloc, text) {
        Ok(line) => Ok(line),
        Err(OutOfMemory) => String::from_str(alloc, "no memory"),
    }
}

fn code_run(alloc: Global, text: &[u8]) -> Result<String, OutOfMemory> {
    let (code, size) = code_of(alloc, text)?;
    let mut out = MemSink::make(alloc, 100, &[])?;
    let stop = run_early(alloc, code.as_slice(), size, &mut out)?;
    let held = out.held();
    Ok(format!(in alloc; "{stop:?} {held:?}")?)
}
