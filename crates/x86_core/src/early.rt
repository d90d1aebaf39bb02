//! The machine of the first path: it executes code bytes over a plain vector.
mod machine;

ghost use Rattle.std.specs.Prelude.{◌≡◌};
ghost use Rattle.x86_forms.specs.EarlyCode.{CodeRun, CodeRuns};
ghost use Rattle.x86_core.specs.EarlyRuns.{RunsCode, CountsFaults, PutsByte};

use machine::{Machine, Step};
use mx_base::{Failed, OutOfMemory, Sink};
use std::alloc::Global;
use x86_decode::decode;

/// How the run of code ended.
#[derive(Clone, Copy, Debug, PartialEq, Eq)]
pub enum EarlyStop {
    /// The service exit, with its status.
    Exit(u8),
    /// #BR: the value is outside the bounds from `lb` to `ub`.
    Bounds { value: u64, lb: u64, ub: u64 },
    /// An access to a byte outside the vector.
    Unmapped,
    /// The bytes left begin with no instruction or with one of another form, or the service is neither put nor exit.
    Undefined,
    /// A byte could not be put.
    WriteFault,
}

fn put_byte<O: Sink>(out: &mut O, byte: u8) -> Result<(), Failed>
    ensures { PutsByte (O.held out.old) (O.held out.new) (O.faults out.old) (O.faults out.new) byte result }
{
    out.put(&[byte])?;
    Ok(())
}

/// Executes the code over `size` bytes of 0 that stand from 0x20000000. The registers are 0 and the bounds registers
/// allow every address at first. The service put adds its byte to `out`.
pub fn run_early<O: Sink>(
    alloc: Global,
    code: &[u8],
    size: u16,
    out: &mut O,
) -> Result<EarlyStop, OutOfMemory>
    ensures runs { (run : CodeRun) → CodeRuns code.now size run → RunsCode run (O.held out.old) (O.held out.new) result }
    ensures faults { CountsFaults result (O.faults out.old) (O.faults out.new) }
{
    let mut machine = Machine::new(alloc, size)?;
    let mut rest = code;
    while let Ok((instr, length)) = decode(rest) {
        rest = &rest[length as usize..];
        let next = machine.address_after(length);
        match machine.step(instr, next) {
            Step::On => {}
            Step::Put(byte) => {
                if let Err(Failed) = put_byte(out, byte) {
                    return Ok(EarlyStop::WriteFault);
                }
            }
            Step::End(stop) => return Ok(stop),
        }
    }
    Ok(EarlyStop::Undefined)
}
