//! One instruction of the processor, by the line.
ghost use Rattle.std.specs.Prelude.{◌≤◌};

use byteorder::{ByteOrder, LittleEndian};
use hex::{decode as from_hex, decode_to_slice, encode as to_hex};
use mx_base::OutOfMemory;
use paged_memory::Memory;
use std::alloc::{AllocError, Global};
use x86_alu::Four;
use x86_core::{Cpu, plain, step};
use x86_decode::decode;

/// Where the flags stand in a state: behind rip, the sixteen registers and an address, with eight bytes each.
const FLAGS: usize = 18 * 8;

/// Where the bytes of memory stand that begin at the address.
const WINDOW: usize = FLAGS + 1;

/// How many bytes a state has.
const STATE: usize = WINDOW + 64;

/// A state, and what the instruction at the front of the line's code led to from there: `STATE RESULT`, or why nothing was
/// done. The line is `CODE STATE` in hexadecimal digits. A state is rip, the registers by number, an address, a byte of
/// flags (CF is 1, ZF 2, SF 4, OF 8), and 64 bytes of memory from the address on; numbers have their lowest byte first.
pub fn step_line(alloc: Global, line: &str) -> Result<String, AllocError> {
    let mut fields = line.split_whitespace();
    let mut state = [0u8; STATE];
    let code = fields.next().unwrap_or("");
    if decode_to_slice(fields.next().unwrap_or(""), &mut state).is_err() {
        return String::from_str(alloc, "no state");
    }
    match from_hex(alloc, code) {
        Ok(code) => stepped(alloc, code.as_slice(), &mut state),
        Err(_) => String::from_str(alloc, "no hexadecimal bytes"),
    }
}

/// Does the instruction at the front of the code from the state on.
fn stepped(alloc: Global, code: &[u8], state: &mut [u8; STATE]) -> Result<String, AllocError> {
    let (instr, len) = match decode(code) {
        Ok(found) => found,
        Err(refusal) => return format!(in alloc; "{refusal:?}"),
    };
    if !plain(&instr) {
        return String::from_str(alloc, "of MPX");
    }
    let mut m = match Memory::make(alloc, 4) {
        Ok(m) => m,
        Err(OutOfMemory) => return String::from_str(alloc, "no memory"),
    };
    let at = number_at(state, 17);
    if m.write(at, &state[WINDOW..]).is_err() {
        return String::from_str(alloc, "no memory there");
    }
    let mut cpu = cpu_of(state);
    let done = step(&mut cpu, &mut m, &instr, len);
    put_cpu(state, &cpu);
    if m.read(at, &mut state[WINDOW..]).is_err() {
        return String::from_str(alloc, "no memory there");
    }
    let after = to_hex(alloc, state.as_slice())?;
    match done {
        Ok(done) => format!(in alloc; "{after} {done:?}"),
        Err(stop) => format!(in alloc; "{after} {stop:?}"),
    }
}

/// The k-th number of a state.
fn number_at(state: &[u8; STATE], k: usize) -> u64
    requires { k ≤ 17 }
{
    LittleEndian::read_u64(&state[8 * k..])
}

/// The processor of a state.
fn cpu_of(state: &[u8; STATE]) -> Cpu {
    let mut regs = [0u64; 16];
    for k in 0..16 {
        regs[k] = number_at(state, k + 1);
    }
    let flags = state[FLAGS];
    Cpu {
        rip: number_at(state, 0),
        regs,
        flags: Four {
            cf: flags % 2 == 1,
            zf: flags / 2 % 2 == 1,
            sf: flags / 4 % 2 == 1,
            of: flags / 8 % 2 == 1,
        },
    }
}

/// Puts a processor into a state.
fn put_cpu(state: &mut [u8; STATE], cpu: &Cpu) {
    LittleEndian::write_u64(&mut state[..], cpu.rip);
    for k in 0..16 {
        LittleEndian::write_u64(&mut state[8 * (k + 1)..], cpu.regs[k]);
    }
    let Four { cf, zf, sf, of } = cpu.flags;
    state[FLAGS] = u8::from(cf) + 2 * u8::from(zf) + 4 * u8::from(sf) + 8 * u8::from(of);
}
