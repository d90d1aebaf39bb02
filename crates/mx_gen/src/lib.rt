//! A C program of any size, and the legacy file that it is linked with.
#![tactic(auto)]

ghost use Rattle.std.specs.Prelude.{◌≡◌, ◌≤◌, ◌++◌, OnOk, IfOk};
ghost use Rattle.mx_gen.specs.Program.{shared_part, line_with, work_part, total_line, main_front, main_rest, for_each_below, program_of, legacy_text};

use itoa::Buffer;
use mx_base::OutOfMemory;
use std::alloc::{AllocError, Global};

const SHARED: &[u8] = b"struct Rec {
    long key;
    char name[8];
    struct Rec *next;
};
long made;
long each(void *f, struct Rec *r);
long tally(struct Rec *r) {
    return r->key % 7;
}
struct Rec *reverse(struct Rec *p) {
    struct Rec *q = 0;
    struct Rec *n;
    while (p != 0) {
        n = p->next;
        p->next = q;
        q = p;
        p = n;
    }
    return q;
}
";

const LOCALS: &[u8] = b"    struct Rec *head = 0;
    struct Rec *r;
    long sum = 0;
    int i;
";

const MAKING: &[u8] = b"        r = alloc(sizeof(struct Rec));
        made++;
";

const SUMMING: &[u8] = b"        r->name[i] = 65 + i;
        r->next = head;
        head = r;
    }
    head = reverse(head);
    for (r = head; r != 0; r = r->next) {
        sum = sum + r->key + each(tally, r);
    }
    return sum;
}
";

const MAIN_FRONT: &[u8] = b"int main(void) {
    long total = 0;
";

const MAIN_REST: &[u8] = b"    print(total);
    print(made);
    return 0;
}
";

const LEGACY: &[u8] = b"each:
mov rax, rdi
mov rdi, rsi
bndmov bnd0, bnd1
bnd call rax
bnd ret
";

#[tactic(auto, unfolding(crate::specs::Program::shared_part))]
fn put_shared(out: &mut Vec<u8>) -> Result<(), AllocError>
    ensures { OnOk result (out.new.items ≡ out.old.items ++ shared_part) }
{
    out.extend_from_slice(SHARED)
}

/// A line with a number in it.
#[tactic(auto, unfolding(crate::specs::Program::line_with))]
fn put_line(out: &mut Vec<u8>, before: &[u8], n: u32, after: &[u8]) -> Result<(), AllocError>
    ensures { OnOk result (out.new.items ≡ out.old.items ++ line_with before.now n after.now) }
{
    let mut buffer = Buffer::new();
    out.extend_from_slice(before)?;
    out.extend_from_slice(buffer.format(n).as_bytes())?;
    out.extend_from_slice(after)?;
    out.extend_from_slice(b"\n")
}

/// The function of number `k`.
#[tactic(auto, unfolding(crate::specs::Program::work_part))]
fn put_work(out: &mut Vec<u8>, k: u32) -> Result<(), AllocError>
    requires { k ≤ 200 }
    ensures { OnOk result (out.new.items ≡ out.old.items ++ work_part k) }
{
    put_line(out, b"long work", k, b"(void) {")?;
    out.extend_from_slice(LOCALS)?;
    put_line(out, b"    for (i = 0; i < ", 5 + k % 4, b"; i++) {")?;
    out.extend_from_slice(MAKING)?;
    put_line(out, b"        r->key = ", 37 * k + 11, b" + i;")?;
    out.extend_from_slice(SUMMING)
}

#[tactic(auto, unfolding(crate::specs::Program::main_front))]
fn put_main_front(out: &mut Vec<u8>) -> Result<(), AllocError>
    ensures { OnOk result (out.new.items ≡ out.old.items ++ main_front) }
{
    out.extend_from_slice(MAIN_FRONT)
}

#[tactic(auto, unfolding(crate::specs::Program::main_rest))]
fn put_main_rest(out: &mut Vec<u8>) -> Result<(), AllocError>
    ensures { OnOk result (out.new.items ≡ out.old.items ++ main_rest) }
{
    out.extend_from_slice(MAIN_REST)
}

fn put_works(out: &mut Vec<u8>, n: u32) -> Result<(), AllocError>
    requires { n ≤ 200 }
    ensures { OnOk result (out.new.items ≡ out.old.items ++ for_each_below n work_part) }
{
    for k in 0..n {
        put_work(out, k)?;
    }
    Ok(())
}

#[tactic(auto, unfolding(crate::specs::Program::total_line))]
fn put_total(out: &mut Vec<u8>, k: u32) -> Result<(), AllocError>
    ensures { OnOk result (out.new.items ≡ out.old.items ++ total_line k) }
{
    put_line(out, b"    total = total + work", k, b"();")
}

fn put_totals(out: &mut Vec<u8>, n: u32) -> Result<(), AllocError>
    ensures { OnOk result (out.new.items ≡ out.old.items ++ for_each_below n total_line) }
{
    for k in 0..n {
        put_total(out, k)?;
    }
    Ok(())
}

/// A C program with `n` functions that each make a list of records, reverse it and sum what its records give, with a call of
/// legacy code for each record. `n` is from 1 to 200. The text has 27 lines, and 20 more for each function.
pub fn program(alloc: Global, n: u32) -> Result<Vec<u8>, OutOfMemory>
    requires { n ≤ 200 }
    ensures { IfOk result (λ bytes. bytes.items ≡ program_of n) }
{
    let mut out = Vec::new(alloc);
    put_shared(&mut out)?;
    put_works(&mut out, n)?;
    put_main_front(&mut out)?;
    put_totals(&mut out, n)?;
    put_main_rest(&mut out)?;
    Ok(out)
}

/// The legacy file in assembly that the program is linked with: `each` calls the function that is its first argument with its
/// second one and the bounds of that.
#[tactic(auto, unfolding(crate::specs::Program::legacy_text))]
pub fn legacy(alloc: Global) -> Result<Vec<u8>, OutOfMemory>
    ensures { IfOk result (λ bytes. bytes.items ≡ legacy_text) }
{
    Ok(Vec::from_slice(alloc, LEGACY)?)
}
