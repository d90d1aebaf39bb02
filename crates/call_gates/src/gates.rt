//! The bytes of the gates.

ghost use Rattle.std.specs.Prelude.{◌≡◌, ◌≤◌, ◌+◌, ◌++◌};
ghost use Rattle.arrayvec.specs.ArrayVec.{array_vec_len};
ghost use Rattle.call_sigs.specs.Signatures.{signature_of, HasRegisters};
ghost use Rattle.call_gates.specs.Gates as spec;

use crate::code::{Bytes, append, put};
use crate::instr::{RAX, RCX, call, give_back, jump};
use crate::lists::{
    clear_others, clear_scratch, landing_list, outer_keeps, outer_restores, start_list, stub_keeps,
    stub_writes,
};
use crate::parts::{
    clear_rest, count_pointers, count_result_pointers, extend_parameters, extend_result, init_from,
};
use arrayvec::ArrayVec;
use call_sigs::Sig;

/// How many bytes a stub has before it writes.
const STUB_KEEPS: u64 = 38;

/// The start at 0x01000000, which sets the four cells, calls `main` by its inner entry and exits with what it gives.
pub fn start(main: u64) -> ArrayVec<u8, 256>
    requires { spec.InCode main }
    ensures { result.items ≡ spec.bytes_of_code (spec.start_gate main) }
{
    let mut code = Bytes::new();
    put(&mut code, &start_list(main));
    let mut out = ArrayVec::new();
    match out.try_extend_from_slice(code.as_slice()) {
        Ok(()) => out,
        Err(_) => unreachable!(),
    }
}

/// The landing at 0x01000400, to which legacy functions return: it takes rsp from its cell, leaves both cells as they were before
/// the stub, and goes on at the stub's tail.
pub fn landing() -> ArrayVec<u8, 128>
    ensures { result.items ≡ spec.bytes_of_code spec.landing_gate }
{
    let mut out = Bytes::new();
    put(&mut out, &landing_list());
    out
}

/// What stands in a stub between the cells that it keeps and its jump: the return address is written, rsp becomes the legacy stack
/// pointer, and all that carries nothing is cleared.
fn stub_body(sig: &Sig) -> Bytes
    requires { HasRegisters (signature_of sig.now.result sig.now.params.items) }
    ensures items { result.items ≡ spec.bytes_of_code (spec.stub_writes ++ spec.stub_clears (signature_of sig.now.result sig.now.params.items)) }
    ensures bound { array_vec_len result ≤ 65 }
{
    let params = sig.params.as_slice();
    let mut out = Bytes::new();
    put(&mut out, &stub_writes());
    extend_parameters(&mut out, params);
    put(&mut out, &clear_scratch());
    clear_rest(&mut out, params.len());
    init_from(&mut out, RAX, count_pointers(params));
    out
}

/// The stub at `at` of the legacy function at `target`: C calls it as it calls its own functions. It keeps both cells and the address
/// of its tail on the control stack, writes the return address, clears what carries nothing and jumps; its tail, to which the landing
/// comes, makes the result a word of 64 bits and returns.
pub fn stub(sig: &Sig, target: u64, at: u64) -> ArrayVec<u8, 128>
    requires sig { HasRegisters (signature_of sig.now.result sig.now.params.items) }
    requires target { spec.InLegacyCode target }
    requires at { spec.InCode at }
    ensures { result.items ≡ spec.bytes_of_code (spec.stub_gate (signature_of sig.now.result sig.now.params.items) target at) }
{
    let body = stub_body(sig);
    let tail = at + STUB_KEEPS + body.len() as u64 + 6;
    let mut out = Bytes::new();
    put(&mut out, &stub_keeps(tail as u32));
    append(&mut out, body.as_slice());
    put(&mut out, &[jump(target, tail)]);
    extend_result(&mut out, sig.result);
    put(&mut out, &[give_back()]);
    out
}

/// The result is made a word of 64 bits, and all else that carries nothing is cleared.
fn outer_clears(out: &mut Bytes, sig: &Sig)
    requires { array_vec_len out.old + 41 ≤ 128 }
    ensures items { out.new.items ≡ out.old.items ++ spec.bytes_of_code (spec.outer_clears (signature_of sig.now.result sig.now.params.items)) }
    ensures bound { array_vec_len out.new ≤ array_vec_len out.old + 41 }
{
    extend_result(out, sig.result);
    put(out, &clear_others());
    init_from(out, RCX, count_result_pointers(sig.result));
}

/// The outer entry at `at` of the C function whose inner entry is `inner`: legacy code calls it.
pub fn outer(sig: &Sig, inner: u64, at: u64) -> ArrayVec<u8, 128>
    requires sig { HasRegisters (signature_of sig.now.result sig.now.params.items) }
    requires inner { spec.InCode inner }
    requires at { spec.InCode at }
    ensures { result.items ≡ spec.bytes_of_code (spec.outer_gate (signature_of sig.now.result sig.now.params.items) inner at) }
{
    let mut out = Bytes::new();
    put(&mut out, &outer_keeps());
    extend_parameters(&mut out, sig.params.as_slice());
    let next = at + out.len() as u64 + 6;
    put(&mut out, &[call(inner, next)]);
    put(&mut out, &outer_restores());
    outer_clears(&mut out, sig);
    put(&mut out, &[give_back()]);
    out
}
