//! Texts of assembly: those with an object, and those with a refused line, each cause of refusal in three texts or more.

use assembler::assemble;
use hex::encode as to_hex;
use listing_laws::reassembled;
use mx_base::OutOfMemory;
use obj_file::Object;
use std::alloc::Global;
use std::io;

const TEXTS: &[&str] = &[
    // Objects.
    "",
    "mov rax, rbx ; a move\n",
    "jmp .L1\nnop\n.L1:\nret\n",
    ".L1:\njmp .L1+1",
    ".data\n.byte 1, -1\n.align 8\n.quad 258",
    "f:\ncall g\nmov rax, [v+8]\nlea rdx, [rip+v]\n.sig f fi(ip)\n.data\nv:\n.quad f-1\n.sig v d8\n",
    // Outside the grammar.
    "nop\nfoo\n",
    "mov [rax], 5",
    "x: nop",
    "mov rax, [8+rax]",
    ".data\nnop",
    ".quad 5",
    "f:\n.sig f fx()",
    ".data\nv:\n.sig v fi()",
    // Numbers and limits.
    ".byte 1, 256",
    "mov rax, 18446744073709551616",
    "lea rax, [rbx*3]",
    "shl eax, -1",
    ".data\n.align 3",
    ".data\n.zero 16777217",
    ".data\n.zero 16777216\n.byte 1",
    "jmp .L1+2147483648\n.L1:",
    // Labels and signatures again.
    "a:\nnop\na:",
    ".L1:\n.data\n.L1:",
    "f:\n.sig f fi()\n.sig f fi()",
    // What no line defines, or no earlier one.
    "jmp .L1",
    ".data\n.L1:\n.text\njmp .L1",
    ".sig f fi()\nf:",
    "bnd call .Lf\nfoo",
];

/// What each text is, a line each: its code and data and how many symbols and fix-ups it has, or its first refused line.
pub fn print_texts<R: Print + Alloc<A = Global>>(rt: &R) -> io::Result<()> {
    for text in TEXTS {
        print_text_object(rt, text)?;
    }
    Ok(())
}

/// The object of the text of code.
pub fn print_again<R: Print + Alloc<A = Global>>(rt: &R, code: &[u8]) -> io::Result<()> {
    if code.len() > 16_777_216 {
        return Ok(());
    }
    match reassembled(rt.alloc(), code) {
        Ok(o) => print_object(rt, &o),
        Err(OutOfMemory) => println!(rt; "no memory"),
    }
}

fn print_text_object<R: Print + Alloc<A = Global>>(rt: &R, text: &str) -> io::Result<()> {
    if text.len() > 536_870_912 {
        return Ok(());
    }
    match assemble(rt.alloc(), text.as_bytes()) {
        Ok(o) => print_object(rt, &o),
        Err(fault) => println!(rt; "{fault}"),
    }
}

fn print_object<R: Print + Alloc<A = Global>>(rt: &R, o: &Object) -> io::Result<()> {
    let code = to_hex(rt.alloc(), o.code.as_slice())?;
    let stored = to_hex(rt.alloc(), o.stored.as_slice())?;
    let symbols = o.symbols.as_slice().len();
    let fixes = o.fixes.as_slice().len();
    println!(rt; "[{code}] [{stored}] symbols {symbols} fix-ups {fixes}")
}
