//! The heap and the services, also over streams that fail and that take few bytes a call.
ghost use Rattle.std.specs.Prelude.{◌<◌, Some};

use crate::rows::{given, judge, number, word};
use guest_services::{Heap, Served, call};
use mx_base::{Failed, MemSink, MemSource, Sink};
use paged_memory::Memory;
use std::alloc::{AllocError, Global};
use std::process::Abort;
use std::str::SplitWhitespace;
use std::test::Fail;

/// A sink that takes no more than some bytes a put.
#[derive(Drop)]
struct Slow {
    inner: MemSink,
    most: usize,
    ghost takes_some: { 0 < most },
}

impl Sink for Slow {
    ghost held = { λ s. Some s.inner.held };

    ghost faults = { λ s. s.inner.faults };

    fn put(&mut self, bytes: &[u8]) -> Result<usize, Failed> {
        let n = bytes.len().min(self.most);
        self.inner.put(&bytes[..n])
    }

    fn faults(&self) -> u64 {
        self.inner.faults()
    }
}

/// An answer as words: `value:N`, `exit:N`, `unmapped:A`, or its name alone.
fn served_line(alloc: Global, served: Served) -> Result<String, AllocError> {
    let (name, number) = match served {
        Served::Value(n) => ("value", n),
        Served::Exit(code) => ("exit", u64::from(code)),
        Served::Unmapped(a) => ("unmapped", a),
        Served::StackOver => return String::from_str(alloc, "stack_over"),
        Served::ReadFault => return String::from_str(alloc, "read_fault"),
        Served::WriteFault => return String::from_str(alloc, "write_fault"),
    };
    format!(in alloc; "{name}:{number:x}")
}

/// The answer of a service to the three arguments of a row.
fn call_line<O: Sink>(
    alloc: Global,
    heap: &mut Heap,
    m: &Memory,
    service: u64,
    words: &mut SplitWhitespace<'_>,
    input: &mut MemSource,
    out: &mut O,
) -> Result<String, AllocError> {
    let args = [number(words), number(words), number(words)];
    served_line(alloc, call(heap, m, service, args, input, out))
}

/// Of a service how many bytes a put takes, which put fails, its number and its arguments; the answer and how many bytes were put. What
/// is due are 130 times `a`, a line and a byte.
const FAULTS: &str = "\
40 9 1 1 20000fc0 82|value:82 130
40 0 1 1 20000fc0 82|write_fault 0
40 1 1 1 20000fc0 82|write_fault 64
3 15 1 1 20000fc0 82|write_fault 63
3 2b 1 1 20000fc0 82|write_fault 127
3 2d 1 1 20000fc0 82|value:82 130
1 64 1 1 20000fc0 82|write_fault 100
3 1 1002 -7b 0 0|write_fault 3
1 4 1002 -7b 0 0|write_fault 4
1 5 1002 -7b 0 0|value:0 5
1 0 1003 141 0 0|write_fault 0
3 1 1003 141 0 0|value:0 1";

/// What a service that a test asks for puts, if nothing fails.
fn due(service: u64) -> &'static [u8] {
    match service {
        1 => &[97; 130],
        0x1002 => b"-123\n",
        _ => b"A",
    }
}

/// The answer of the service of a row and how many bytes were put, if they are a front of what was due.
fn fault_line(alloc: Global, heap: &mut Heap, m: &Memory, row: &str) -> Result<String, Fail> {
    let mut words = given(row);
    let most = number(&mut words).clamp(1, 64) as usize;
    let inner = MemSink::make(alloc, 200, &[number(&mut words)])?;
    let mut out = Slow { inner, most };
    let mut input = MemSource::make(alloc, b"", &[])?;
    let service = number(&mut words);
    let got = call_line(alloc, heap, m, service, &mut words, &mut input, &mut out)?;
    let held = out.inner.held();
    if !due(service).starts_with(held) {
        return Ok(String::from_str(alloc, "other bytes")?);
    }
    let count = held.len();
    Ok(format!(in alloc; "{got} {count}")?)
}

#[test]
fn a_fault_leaves_a_front_of_what_was_due(rt: HostRuntime) -> Result<(), Fail> {
    let mut heap = Heap::make(rt.alloc())?;
    let mut m = Memory::make(rt.alloc(), 2)?;
    assert_eq!(rt; m.place(0x2000_0fc0, &[97; 130]), Ok(()));
    for row in FAULTS.lines() {
        let found = fault_line(rt.alloc(), &mut heap, &m, row)?;
        judge(&rt, row, found.as_str());
    }
    Ok(())
}

/// A service and its arguments, and its answer.
const CALLS: &str = "\
1 1 20000ffe 3|value:3
1 2 20000ffe 3|value:fffffffffffffff7
1 1 0 0|value:0
1 1 20ffffff 2|unmapped:21000000
1 1 10000000 ffffffffffffffff|unmapped:11000000
1 1 0 1|unmapped:0
1 1 0 ffffffffffffffff|unmapped:0
1 1 ffffffffffffffff 2|unmapped:ffffffffffffffff
1 1 70000fff 2|unmapped:70001000
1 1 6fffffff 2|unmapped:6fffffff
1 1 70000ffe 2|value:2
3c 141 0 0|exit:41
1000 5 0 0|value:30000000
1001 30000000 0 0|value:0
1001 30000000 0 0|value:ffffffffffffffff
1002 -c 0 0|value:0
1003 17a 0 0|value:0
1004 0 0 0|value:78
1004 0 0 0|read_fault
1004 0 0 0|value:79
1004 0 0 0|value:ffffffffffffffff
1004 0 0 0|read_fault
1005 0 0 0|stack_over
7 0 0 0|value:ffffffffffffffda
1002 7 0 0|write_fault";

/// Judges the answer of each call, over one input and one output.
fn judge_calls(
    rt: &(impl Abort + AllocGlobal),
    m: &Memory,
    input: &mut MemSource,
    out: &mut MemSink,
) -> Result<(), Fail> {
    let mut heap = Heap::make(rt.alloc())?;
    for row in CALLS.lines() {
        let mut words = given(row);
        let service = number(&mut words);
        let got = call_line(rt.alloc(), &mut heap, m, service, &mut words, input, out)?;
        judge(rt, row, got.as_str());
    }
    Ok(())
}

#[test]
fn each_service_answers(rt: HostRuntime) -> Result<(), Fail> {
    let mut m = Memory::make(rt.alloc(), 2)?;
    let _placed = m.write(0x2000_0ffe, b"abc");
    let mut input = MemSource::make(rt.alloc(), b"xy", &[1, 4])?;
    let mut out = MemSink::make(rt.alloc(), 11, &[])?;
    judge_calls(&rt, &m, &mut input, &mut out)?;
    assert_eq!(rt; out.held(), b"abc\0\0-12\nz7".as_slice());
    Ok(())
}

/// Judges rows that ask a heap for a block of some bytes, `alloc SIZE`, or to take back the block at an address, `free ADDRESS`. The
/// answers are the address of the block, 0 for none, and 1 for a block that was taken back, 0 for none.
fn judge_heap(rt: &(impl Abort + AllocGlobal), heap: &mut Heap, rows: &str) -> Result<(), Fail> {
    for row in rows.lines() {
        let mut words = given(row);
        let is_free = word(&mut words) == "free";
        let n = number(&mut words);
        let answer = if is_free {
            u64::from(heap.free(n))
        } else {
            heap.alloc(n)
        };
        let found = format!(in rt.alloc(); "{answer:x}")?;
        judge(rt, row, found.as_str());
    }
    Ok(())
}

/// Every second block is free. The last one touches the bytes behind it, the others touch none, and blocks that touch are one range
/// again.
const GAPS: &str = "\
alloc 11|300ffff0
alloc 10|30000010
alloc ff00000|0
alloc feffff0|30100010
alloc 11|0
alloc 1|30000030
free 30000040|1
free 30000080|1
alloc 31|0
free 30000060|1
alloc 60|30000040";

#[test]
fn as_many_blocks_live_as_may(rt: HostRuntime) -> Result<(), Fail> {
    let mut heap = Heap::make(rt.alloc())?;
    let mut wrong = None;
    for k in 0..65_536u64 {
        let at = 0x3000_0000 + 16 * k;
        if heap.alloc(1) != at {
            wrong = Some(at);
        }
    }
    if heap.alloc(1) != 0 {
        wrong = Some(0);
    }
    for k in 0..32_768u64 {
        let at = 0x3000_0010 + 32 * k;
        if !heap.free(at) {
            wrong = Some(at);
        }
    }
    assert_eq!(rt; wrong, None);
    judge_heap(&rt, &mut heap, GAPS)
}

const BLOCKS: &str = "\
alloc 0|0
alloc 1|30000000
alloc 11|30000010
alloc 10|30000030
alloc ffffffffffffffff|0
alloc fffffc1|0
free 30000010|1
free 30000010|0
free 30000018|0
free 30000008|0
free 0|0
alloc 21|30000040
alloc 20|30000010
free 30000000|1
free 30000030|1
free 30000010|1
alloc 41|30000070
alloc 40|30000000";

#[test]
fn blocks_come_from_the_front_and_join_again(rt: HostRuntime) -> Result<(), Fail> {
    let mut heap = Heap::make(rt.alloc())?;
    judge_heap(&rt, &mut heap, BLOCKS)
}
