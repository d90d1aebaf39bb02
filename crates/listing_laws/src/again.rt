//! Code that goes through its text.

ghost use Rattle.std.specs.Prelude.{◌≡◌, ◌≤◌, true, length, IfOk};
ghost use Rattle.obj_file.specs.Object.{most_code};
ghost use Rattle.listing_laws.specs.Read.{code_object};

use asm_text::AsmFault;
use assembler::assemble;
use disasm::all;
use mx_base::OutOfMemory;
use obj_file::Object;
use std::alloc::Global;

/// The object of the text of code, which is the code alone.
pub fn reassembled(alloc: Global, code: &[u8]) -> Result<Object, OutOfMemory>
    requires { length code.now ≤ most_code true }
    ensures { IfOk result (λ o. o ≡ code_object code.now) }
{
    let text = all(alloc, code)?;
    match assemble(alloc, text.as_slice()) {
        Ok(object) => Ok(object),
        Err(AsmFault::OutOfMemory) => Err(OutOfMemory),
        Err(AsmFault::Line { .. }) => unreachable!(),
    }
}
