//! One MPX instruction, or what a near branch makes of the bounds registers, by the line.
ghost use Rattle.std.specs.Prelude.{◌≤◌, IsTrue};
ghost use Rattle.x86_forms.specs.Validity.{valid_of};

use byteorder::{ByteOrder, LittleEndian};
use hex::{decode as from_hex, decode_to_slice, encode as to_hex};
use mpx_core::{BndRegs, BndStop, bounds, branch, step};
use mx_base::OutOfMemory;
use paged_memory::Memory;
use std::alloc::{AllocError, Global};
use x86_decode::decode;
use x86_forms::Instr;

/// How many numbers a state begins with: rip, the sixteen registers, BND0 to BND3 with two words each, BNDCFGU and BNDSTATUS.
const NUMBERS: usize = 27;

/// The bytes of an address and of the 64 bytes of memory from there on.
const WINDOW: usize = 72;

/// How many bytes a state has: the numbers and three windows.
const STATE: usize = NUMBERS * 8 + 3 * WINDOW;

/// Two configurations: bounds are on, and a near branch without the prefix keeps them or not.
const RESETS: u64 = 0x4000_0000_0001;

const PRESERVES: u64 = 0x4000_0000_0003;

/// A state, and what the instruction at the front of the line's code led to from there: `STATE RESULT`, or why nothing was
/// done. The line is `CODE STATE` in hexadecimal digits. A state is rip, the registers by number, the lower bound and the
/// held upper bound of each bounds register, BNDCFGU, BNDSTATUS, and three times an address with 64 bytes of memory from
/// there on; numbers have their lowest byte first. After an instruction that is done rip is the next address.
pub fn mpx_line(alloc: Global, line: &str) -> Result<String, AllocError> {
    let mut fields = line.split_whitespace();
    let mut state = [0u8; STATE];
    let code = fields.next().unwrap_or("");
    if decode_to_slice(fields.next().unwrap_or(""), &mut state).is_err() {
        return String::from_str(alloc, "no state");
    }
    match from_hex(alloc, code) {
        Ok(code) => stepped(alloc, code.as_slice(), &mut state),
        Err(_) => String::from_str(alloc, "no hexadecimal bytes"),
    }
}

/// Does the instruction at the front of the code from the state on.
fn stepped(alloc: Global, code: &[u8], state: &mut [u8; STATE]) -> Result<String, AllocError> {
    let (instr, len) = match decode(code) {
        Ok(found) => found,
        Err(refusal) => return format!(in alloc; "{refusal:?}"),
    };
    let mut m = match Memory::make(alloc, 8) {
        Ok(m) => m,
        Err(OutOfMemory) => return String::from_str(alloc, "no memory"),
    };
    if !put_windows(&mut m, state) {
        return String::from_str(alloc, "no memory there");
    }
    let next = number_at(state, 0).wrapping_add(len as u64);
    let mut b = bounds_at(state);
    let result = match prefix_of(&instr) {
        Some(prefixed) => {
            branch(&mut b, prefixed);
            String::from_str(alloc, "Branch")?
        }
        None => match done(&mut b, &registers_at(state), next, &mut m, &instr) {
            Some(Ok(())) => {
                LittleEndian::write_u64(&mut state[..], next);
                String::from_str(alloc, "Next")?
            }
            Some(Err(stop)) => format!(in alloc; "{stop:?}")?,
            None => return String::from_str(alloc, "not of MPX"),
        },
    };
    put_bounds(state, &b);
    take_windows(&m, state);
    let after = to_hex(alloc, state.as_slice())?;
    format!(in alloc; "{after} {result}")
}

/// Does the instruction, if it is one of MPX and the configuration is one of the two.
fn done(
    b: &mut BndRegs,
    regs: &[u64; 16],
    next: u64,
    m: &mut Memory,
    instr: &Instr,
) -> Option<Result<(), BndStop>>
    requires { IsTrue (valid_of instr.now) }
{
    if bounds(instr) && (b.cfg == RESETS || b.cfg == PRESERVES) {
        Some(step(b, regs, next, m, instr))
    } else {
        None
    }
}

/// Whether a near branch has the BND prefix; none for another instruction.
fn prefix_of(instr: &Instr) -> Option<bool> {
    match *instr {
        Instr::CallRel { prefixed, .. }
        | Instr::JmpRel { prefixed, .. }
        | Instr::CallRm { prefixed, .. }
        | Instr::JmpRm { prefixed, .. }
        | Instr::Jcc { prefixed, .. }
        | Instr::Ret { prefixed } => Some(prefixed),
        _ => None,
    }
}

/// The k-th number of a state.
fn number_at(state: &[u8; STATE], k: usize) -> u64
    requires { k ≤ 26 }
{
    LittleEndian::read_u64(&state[8 * k..])
}

/// The general registers of a state.
fn registers_at(state: &[u8; STATE]) -> [u64; 16] {
    let mut regs = [0u64; 16];
    for k in 0..16 {
        regs[k] = number_at(state, k + 1);
    }
    regs
}

/// The bounds registers of a state.
fn bounds_at(state: &[u8; STATE]) -> BndRegs {
    let mut b = BndRegs {
        lb: [0; 4],
        held: [0; 4],
        cfg: number_at(state, 25),
        status: number_at(state, 26),
    };
    for k in 0..4 {
        b.lb[k] = number_at(state, 2 * k + 17);
        b.held[k] = number_at(state, 2 * k + 18);
    }
    b
}

/// Puts bounds registers into a state.
fn put_bounds(state: &mut [u8; STATE], b: &BndRegs) {
    for k in 0..4 {
        LittleEndian::write_u64(&mut state[8 * (2 * k + 17)..], b.lb[k]);
        LittleEndian::write_u64(&mut state[8 * (2 * k + 18)..], b.held[k]);
    }
    LittleEndian::write_u64(&mut state[8 * 25..], b.cfg);
    LittleEndian::write_u64(&mut state[8 * 26..], b.status);
}

/// Writes the windows of a state into the memory, and says whether there is memory.
fn put_windows(m: &mut Memory, state: &[u8; STATE]) -> bool {
    for k in 0..3usize {
        let from = NUMBERS * 8 + k * WINDOW;
        let at = LittleEndian::read_u64(&state[from..]);
        if m.write(at, &state[from + 8..from + WINDOW]).is_err() {
            return false;
        }
    }
    true
}

/// Reads the windows of a state from the memory.
fn take_windows(m: &Memory, state: &mut [u8; STATE]) {
    for k in 0..3usize {
        let from = NUMBERS * 8 + k * WINDOW;
        let at = LittleEndian::read_u64(&state[from..]);
        let _read = m.read(at, &mut state[from + 8..from + WINDOW]);
    }
}
