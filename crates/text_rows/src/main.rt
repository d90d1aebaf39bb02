//! Prints what the generator, the disassembler, the reports of stops and the assembler write, to be compared with the text that is wanted.
#![tactic(auto)]

mod code;
mod stops;
mod texts;

use code::CODE;
use disasm::all;
use mx_base::OutOfMemory;
use mx_gen::{legacy, program};
use std::io;
use stops::print_stops;
use texts::{print_again, print_texts};

fn main(rt: HostRuntime) -> io::Result<()> {
    print_text(&rt, program(rt.alloc(), 1))?;
    print_text(&rt, legacy(rt.alloc()))?;
    print_stops(&rt)?;
    print_text(&rt, all(rt.alloc(), CODE))?;
    print_again(&rt, CODE)?;
    print_texts(&rt)
}

fn print_text(rt: &impl Print, text: Result<Vec<u8>, OutOfMemory>) -> io::Result<()> {
    match text {
        Ok(bytes) => print_bytes(rt, bytes.as_slice()),
        Err(OutOfMemory) => println!(rt; "no memory"),
    }
}

pub fn print_bytes(rt: &impl Print, bytes: &[u8]) -> io::Result<()> {
    match str::from_utf8(bytes) {
        Ok(text) => print!(rt; "{text}"),
        Err(_) => println!(rt; "no text"),
    }
}
