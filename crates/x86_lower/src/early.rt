//! Programs of the early form as code: each act that has an index checks it against the array's bounds first.
ghost use Rattle.std.specs.Prelude.{◌≡◌, ◌≤◌, ◌<◌, ◌+◌, ◌++◌, IsTrue, IfOk, OnOk};
ghost use Rattle.std.specs.Int.{w8, cast_signed};
ghost use Rattle.std.specs.List.{flat_map};
ghost use Rattle.c_reader.specs.EarlyForm.{InRange};
ghost use Rattle.c_reader.specs.EarlyMeaning.{early_run};
ghost use Rattle.x86_forms.specs.EarlyCode.{CodeRuns};
ghost use Rattle.x86_forms.specs.Spelling.{spelling};
ghost use Rattle.x86_forms.specs.Validity.{valid_of};
ghost use Rattle.x86_forms.specs.declared.instr.Instr.TheVariants.{MovMemImm};
ghost use Rattle.x86_lower.specs.EarlyProgram.{load_number, element, bounds_code, pointer_code, service_code, act_code, end_code, bytes_of, as_code_run};
ghost use Rattle.x86_lower.specs.EarlyChecks.{IsGuardedCode};

use c_reader::{Act, Early};
use mx_base::OutOfMemory;
use std::alloc::Global;
use x86_encode::encode;
use x86_forms::{Base, Instr, Mem, Reg, Rm};

/// Where the array begins.
const ARRAY: u32 = 0x2000_0000;

const RAX: Reg = Reg(0);

const RCX: Reg = Reg(1);

const RBX: Reg = Reg(3);

const RDI: Reg = Reg(7);

/// The bounds register that holds the array's bounds throughout.
const BND0: u8 = 0;

/// The byte at the address in rcx.
const ELEMENT: Mem = Mem {
    base: Base::Reg(RCX),
    index: None,
    disp: 0,
};

const EXIT: u32 = 60;

const PUT: u32 = 0x1003;

fn push_instr(out: &mut Vec<u8>, instr: &Instr) -> Result<(), OutOfMemory>
    requires { IsTrue (valid_of instr.now) }
    ensures { OnOk result (out.new.items ≡ out.old.items ++ spelling instr.now) }
{
    let bytes = encode(instr);
    out.extend_from_slice(bytes.as_slice())?;
    Ok(())
}

fn push_number(out: &mut Vec<u8>, r: Reg, n: u32) -> Result<(), OutOfMemory>
    requires reg { r.0 < 16 }
    requires small { n < 0x8000_0000 }
    ensures { OnOk result (out.new.items ≡ out.old.items ++ spelling (load_number r n)) }
{
    push_instr(
        out,
        &Instr::MovImm {
            w: 32,
            r,
            imm: i64::from(n),
        },
    )
}

fn push_bounds(out: &mut Vec<u8>, size: u16) -> Result<(), OutOfMemory>
    requires some { 1 ≤ size }
    requires most { size ≤ 4096 }
    ensures { OnOk result (out.new.items ≡ out.old.items ++ flat_map spelling (bounds_code size)) }
{
    let array = Mem {
        base: Base::Reg(RBX),
        index: None,
        disp: i32::from(size) - 1,
    };
    push_number(out, RBX, ARRAY)?;
    push_instr(out, &Instr::Bndmk { b: BND0, m: array })
}

fn push_pointer(out: &mut Vec<u8>, index: u16) -> Result<(), OutOfMemory>
    ensures { OnOk result (out.new.items ≡ out.old.items ++ flat_map spelling (pointer_code index)) }
{
    let rm = Rm::Reg(RCX);
    push_number(out, RCX, ARRAY + u32::from(index))?;
    push_instr(out, &Instr::Bndcl { b: BND0, rm })?;
    push_instr(out, &Instr::Bndcu { b: BND0, rm })
}

fn push_write(out: &mut Vec<u8>, value: u8) -> Result<(), OutOfMemory>
    ensures { OnOk result (out.new.items ≡ out.old.items ++ spelling (MovMemImm 8 element (cast_signed w8 value))) }
{
    push_instr(
        out,
        &Instr::MovMemImm {
            w: 8,
            m: ELEMENT,
            imm: i64::from(value.cast_signed()),
        },
    )
}

fn push_service(out: &mut Vec<u8>, number: u32) -> Result<(), OutOfMemory>
    requires { number < 0x8000_0000 }
    ensures { OnOk result (out.new.items ≡ out.old.items ++ flat_map spelling (service_code number)) }
{
    push_number(out, RAX, number)?;
    push_instr(out, &Instr::Syscall)
}

fn push_act(out: &mut Vec<u8>, act: Act) -> Result<(), OutOfMemory>
    ensures code { OnOk result (out.new.items ≡ out.old.items ++ flat_map spelling (act_code act)) }
    ensures in_range { InRange act }
{
    match act {
        Act::Write { index, value } => {
            push_pointer(out, index)?;
            push_write(out, value)
        }
        Act::PutAt(index) => {
            push_pointer(out, index)?;
            push_instr(
                out,
                &Instr::Movzx {
                    from: 8,
                    r: RDI,
                    rm: Rm::Mem(ELEMENT),
                },
            )?;
            push_service(out, PUT)
        }
        Act::Put(value) => {
            push_number(out, RDI, u32::from(value))?;
            push_service(out, PUT)
        }
    }
}

fn push_end(out: &mut Vec<u8>, code: u8) -> Result<(), OutOfMemory>
    ensures { OnOk result (out.new.items ≡ out.old.items ++ flat_map spelling (end_code code)) }
{
    push_number(out, RDI, u32::from(code))?;
    push_service(out, EXIT)
}

/// The code of a program of the early form, which runs over `size` bytes of memory from 0x20000000.
pub fn lower_early(alloc: Global, e: &Early) -> Result<Vec<u8>, OutOfMemory>
    requires some { 1 ≤ e.now.size }
    requires most { e.now.size ≤ 4096 }

    ensures code { IfOk result (λ code. code.items ≡ bytes_of e.now.size e.now.acts.items e.now.code) }

    // Each access to memory is checked against the array's bounds.
    ensures checked { IfOk result (λ code. IsGuardedCode e.now.size e.now.acts.items code.items) }

    // The bytes do what the program means.
    ensures effect { IfOk result (λ code. CodeRuns code.items e.now.size (as_code_run (early_run e.now.size e.now.acts.items e.now.code))) }
{
    let mut code = Vec::new(alloc);
    push_bounds(&mut code, e.size)?;
    for act in &e.acts {
        push_act(&mut code, *act)?;
    }
    push_end(&mut code, e.code)?;
    Ok(code)
}
