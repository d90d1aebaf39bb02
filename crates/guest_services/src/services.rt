//! The services.
ghost use Rattle.std.specs.Prelude.{◌≡◌, ◌≢◌, ◌⊎◌, ℕ, Option, List, slice_index};
ghost use Rattle.mx_base.specs.Heap.{Heap as HeapLists};
ghost use Rattle.guest_services.specs.Streams.{MayTell};
ghost use Rattle.paged_memory.specs.Paged.{bytes_of};
ghost use Rattle.guest_services.specs.Calls.{Calls, CountsReads, CountsWrites, Ends, meant, put_served};

use crate::heap::Heap;
use crate::input::get;
use crate::output::{print, put_all, put_bytes};
use mx_base::{Failed, Sink, Source};
use paged_memory::{Memory, first_unmapped};

/// How a call of a service ends.
#[derive(Clone, Copy, Debug, PartialEq, Eq)]
pub enum Served {
    /// The answer.
    Value(u64),
    /// The guest ended itself with this code.
    Exit(u8),
    /// The guest says that its stack is used up.
    StackOver,
    /// No region has this address, the first such one of the bytes to be written.
    Unmapped(u64),
    /// The input failed in a read.
    ReadFault,
    /// The output failed in a write.
    WriteFault,
}

/// Writes bytes of the memory to the output.
fn write<O: Sink>(m: &Memory, descriptor: u64, from: u64, n: u64, out: &mut O) -> Served
    ensures answer { (heap : HeapLists) (left : Option (List ℕ)) (input : List ℕ) → MayTell left input → Ends (meant (bytes_of m.now) 1 descriptor from n heap input) record { heap = heap; left = left; held = O.held out.old } record { heap = heap; left = left; held = O.held out.new } result }
    ensures writes { CountsWrites result (O.faults out.old) (O.faults out.new) }
    ensures reads { (faults : ℕ) → CountsReads result faults faults }
    ensures takes_nothing { result ≢ Served.ReadFault }
{
    if descriptor != 1 {
        return Served::Value(u64::MAX - 8);
    }
    if n == 0 {
        return Served::Value(0);
    }
    if let Some(a) = first_unmapped(from, n) {
        return Served::Unmapped(a);
    }
    match put_bytes(m, from, n, out) {
        Ok(()) => Served::Value(n),
        Err(Failed) => Served::WriteFault,
    }
}

/// What a call that only puts something answers.
fn put_answer(put: Result<(), Failed>) -> Served
    ensures answer { result ≡ put_served put }
    ensures takes_nothing { result ≢ Served.ReadFault }
{
    match put {
        Ok(()) => Served::Value(0),
        Err(Failed) => Served::WriteFault,
    }
}

/// Calls the service of a number with three words. The bytes of a write are judged before any is written; the caller has
/// judged by its own rules before. `ReadFault` comes only of a get, and only where the input's count of faults rose in this
/// call; it changes nothing. `WriteFault` comes only of a write, a print or a put, and only where the output's count rose; it
/// leaves heap and input, and a front of the bytes was put. No other answer changes a count.
pub fn call<I: Source, O: Sink>(
    heap: &mut Heap,
    m: &Memory,
    number: u64,
    args: [u64; 3],
    input: &mut I,
    out: &mut O,
) -> Served
    ensures answer { Calls (meant (bytes_of m.now) number (slice_index args 0) (slice_index args 1) (slice_index args 2) heap.old) record { heap = heap.old; left = I.left input.old; held = O.held out.old } record { heap = heap.new; left = I.left input.new; held = O.held out.new } result }
    ensures reads { CountsReads result (I.faults input.old) (I.faults input.new) }
    ensures writes { CountsWrites result (O.faults out.old) (O.faults out.new) }
    ensures read_fault { result ≡ Served.ReadFault → number ≡ 0x1004 }
    ensures write_fault { result ≡ Served.WriteFault → (number ≡ 1) ⊎ (number ≡ 0x1002) ⊎ (number ≡ 0x1003) }
{
    match number {
        1 => write(m, args[0], args[1], args[2], out),
        60 => Served::Exit((args[0] % 256) as u8),
        0x1000 => Served::Value(heap.alloc(args[0])),
        0x1001 => {
            if heap.free(args[0]) {
                Served::Value(0)
            } else {
                Served::Value(u64::MAX)
            }
        }
        0x1002 => put_answer(print(args[0], out)),
        0x1003 => put_answer(put_all(out, &[(args[0] % 256) as u8])),
        0x1004 => match get(input) {
            Ok(None) => Served::Value(u64::MAX),
            Ok(Some(byte)) => Served::Value(byte as u64),
            Err(Failed) => Served::ReadFault,
        },
        0x1005 => Served::StackOver,
        _ => Served::Value(u64::MAX - 37),
    }
}
