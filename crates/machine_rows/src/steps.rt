//! Single instructions that are not of MPX. rax is 0x80000000, rsp 0x20000800, and each other register has its number in all its digits;
//! zero and overflow are set, and the instruction stands at 0x12000000 and has three bytes.

use crate::digits::number;
use crate::instructions::instr_of;
use paged_memory::{MemStop, Memory};
use std::alloc::{AllocError, Global};
use x86_alu::Four;
use x86_core::{CoreStop, Cpu, Done, plain, step};
use x86_forms::{Instr, valid};

const CODE: u64 = 0x1200_0000;

const STACK: u64 = 0x2000_0800;

fn started() -> Cpu {
    let ones = 0x1111_1111_1111_1111u64;
    let mut regs = [0; 16];
    for (k, reg) in regs.iter_mut().enumerate() {
        *reg = ones.wrapping_mul(k as u64);
    }
    regs[0] = 0x8000_0000;
    regs[4] = STACK;
    Cpu {
        rip: CODE,
        regs,
        flags: Four {
            cf: false,
            zf: true,
            sf: false,
            of: true,
        },
    }
}

/// Carry, zero, sign and overflow, from the highest of four bits to the lowest.
fn bits(flags: Four) -> u8 {
    u8::from(flags.cf) * 8 + u8::from(flags.zf) * 4 + u8::from(flags.sf) * 2 + u8::from(flags.of)
}

/// A step of three bytes, of an instruction that is not of MPX.
fn does(cpu: &mut Cpu, m: &mut Memory, i: &Instr) -> Result<Done, CoreStop> {
    if valid(i) && plain(i) {
        step(cpu, m, i, 3)
    } else {
        Err(CoreStop::Undefined)
    }
}

/// A memory of so many frames with a word on the stack.
fn memory(alloc: Global, frames: u32, word: u64) -> Option<Memory> {
    let mut m = Memory::make(alloc, frames).ok()?;
    m.store(STACK, 8, word).ok()?;
    Some(m)
}

/// An instruction and the number of a register: how it is done, rip after it, the register after it, the flags, and the instruction.
pub fn step_line(alloc: Global, given: &str) -> Result<String, AllocError> {
    let (digits, register) = given.split_once(' ').unwrap_or((given, ""));
    match (
        instr_of(alloc, digits)?,
        memory(alloc, 2, 0x8877_6655_4433_2211),
    ) {
        (Some(i), Some(mut m)) => {
            let mut cpu = started();
            let how = does(&mut cpu, &mut m, &i);
            let value = cpu.regs.get(number(register) as usize).copied();
            let (rip, flags, value) = (cpu.rip, bits(cpu.flags), value.unwrap_or(0));
            format!(in alloc; "{how:?} {rip:x} {value:x} {flags:x} {i:?}")
        }
        _ => String::from_str(alloc, "no instruction"),
    }
}

/// Instructions, each of which begins in the same state but for memory: the word below the stack pointer after the last one.
pub fn push_line(alloc: Global, given: &str) -> Result<String, AllocError> {
    let mut m = match memory(alloc, 2, 0) {
        Some(m) => m,
        None => return String::from_str(alloc, "no memory"),
    };
    for digits in given.split_whitespace() {
        if let Some(i) = instr_of(alloc, digits)? {
            let _done = does(&mut started(), &mut m, &i);
        }
    }
    let word = m.load(STACK - 8, 8).unwrap_or(0);
    format!(in alloc; "{word:x}")
}

/// An instruction: why it is not done over a memory of one frame, whether all stays as it was, and the instruction.
pub fn stop_line(alloc: Global, given: &str) -> Result<String, AllocError> {
    match (instr_of(alloc, given)?, memory(alloc, 1, 7)) {
        (Some(i), Some(mut m)) => {
            let mut cpu = started();
            let how = does(&mut cpu, &mut m, &i);
            let stays = cpu == started() && is_left(&m);
            format!(in alloc; "{how:?} {stays} {i:?}")
        }
        _ => String::from_str(alloc, "no instruction"),
    }
}

/// Whether a memory holds one page with the word 7 on the stack.
fn is_left(m: &Memory) -> bool {
    let word: Result<u64, MemStop> = m.load(STACK, 8);
    word == Ok(7) && m.touched() == 1
}
