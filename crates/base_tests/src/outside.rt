//! Files, sources and sinks over memory: what fits, what is left, and the calls that fail by their numbers.

use crate::rows::{given, judge, number, word};
use mx_base::{
    Failed, Files, MemFiles, MemSink, MemSource, Sink, Source, SureFiles, SureSink, SureSource,
};
use std::alloc::{AllocError, Global};
use std::test::Fail;

/// An answer, and the read faults and the write faults through the bound.
fn write_line<F: Files>(
    alloc: Global,
    files: &mut F,
    name: &str,
    bytes: &str,
) -> Result<String, AllocError> {
    let got = files.write_all(name, bytes.as_bytes());
    let (read, write) = (files.read_faults(), files.write_faults());
    format!(in alloc; "{got:?} {read} {write}")
}

/// An answer, what the buffer holds, and the read faults and the write faults through the bound.
fn read_line<F: Files>(
    alloc: Global,
    files: &mut F,
    name: &str,
    at: u64,
    buf: &mut [u8],
) -> Result<String, AllocError> {
    let got = files.read_at(name, at, buf);
    let (read, write) = (files.read_faults(), files.write_faults());
    let left = str::from_utf8(buf).unwrap_or("no text");
    format!(in alloc; "{got:?} {left} {read} {write}")
}

/// What is held after an answer, and the faults through the bound.
fn put_line<O: Sink>(
    alloc: Global,
    sink: &O,
    got: Result<usize, Failed>,
    held: &[u8],
) -> Result<String, AllocError> {
    let faults = sink.faults();
    let held = str::from_utf8(held).unwrap_or("no text");
    format!(in alloc; "{got:?} {held} {faults}")
}

/// The answer to a buffer of a size, the whole buffer, and the faults through the bound.
fn take_line<I: Source>(
    alloc: Global,
    source: &mut I,
    size: u64,
    buf: &mut [u8],
) -> Result<String, AllocError> {
    let size = buf.len().min(size.to_le_bytes()[0] as usize);
    let got = source.take(&mut buf[..size]);
    let faults = source.faults();
    format!(in alloc; "{got:?} {buf:?} {faults}")
}

/// A name, where `long` stands for one of 256 bytes, and bytes; the answer, the read faults and the write faults.
const WRITES: &str = "\
a xyz|Ok(()) 0 0
b abcd|Err(Failed) 0 1
b ab|Err(Failed) 0 2
b ab|Ok(()) 0 2
long|Err(Failed) 0 3
c|Err(Failed) 0 4
a w|Ok(()) 0 4
a wxyz|Err(Failed) 0 5";

/// A name, or the long one.
fn named<'a>(name: &'a str, long: &'a str) -> &'a str {
    if name == "long" { long } else { name }
}

#[test]
fn writes_within_the_room_and_fails_where_told(rt: HostRuntime) -> Result<(), Fail> {
    let mut files = MemFiles::make(rt.alloc(), 2, 3, &[2])?;
    let long = [b'n'; 256];
    let long = str::from_utf8(&long)?;
    for row in WRITES.lines() {
        let mut words = given(row);
        let name = named(word(&mut words), long);
        let found = write_line(rt.alloc(), &mut files, name, word(&mut words))?;
        judge(&rt, row, found.as_str());
    }
    Ok(())
}

/// A name and an offset; the answer, what the buffer holds, and the faults.
const READS: &str = "\
a 0|Ok(Some(3)) vwx 0 0
a 3|Ok(Some(2)) yzx 0 0
a 0|Err(Failed) yzx 1 0
a 5|Ok(Some(0)) yzx 1 0
a -1|Ok(Some(0)) yzx 1 0
b 0|Ok(None) yzx 1 0";

#[test]
fn reads_from_the_offset_and_fails_where_told(rt: HostRuntime) -> Result<(), Fail> {
    let mut files = MemFiles::make(rt.alloc(), 1, 5, &[3])?;
    files.write_all("a", b"vwxyz")?;
    let mut buf = [0u8; 3];
    for row in READS.lines() {
        let mut words = given(row);
        let name = word(&mut words);
        let at = number(&mut words);
        let found = read_line(rt.alloc(), &mut files, name, at, &mut buf)?;
        judge(&rt, row, found.as_str());
    }
    Ok(())
}

/// A name and bytes that are written; the answer to a read from 0, what the buffer holds, and the faults.
const SURE_READS: &str = "\
a xyz|Ok(Some(3)) xyz 0 0
b v|Ok(None) xyz 0 0
a vwxy|Ok(Some(3)) xyz 0 0
a v|Ok(Some(1)) vyz 0 0";

#[test]
fn reads_what_had_room(rt: HostRuntime) -> Result<(), Fail> {
    let mut files = SureFiles::make(rt.alloc(), 1, 3)?;
    let mut buf = [0u8; 3];
    for row in SURE_READS.lines() {
        let mut words = given(row);
        let name = word(&mut words);
        files.write_all(name, word(&mut words).as_bytes())?;
        let found = read_line(rt.alloc(), &mut files, name, 0, &mut buf)?;
        judge(&rt, row, found.as_str());
    }
    Ok(())
}

/// A piece; the answer, what is held then, and the faults.
const PUTS: &str = "\
ab|Ok(2) ab 0
c|Err(Failed) ab 1
|Ok(0) ab 1
cde|Ok(2) abcd 1
e|Err(Failed) abcd 2
|Ok(0) abcd 2";

#[test]
fn takes_what_fits_and_fails_where_told(rt: HostRuntime) -> Result<(), Fail> {
    let mut sink = MemSink::make(rt.alloc(), 4, &[1])?;
    for row in PUTS.lines() {
        let got = sink.put(word(&mut given(row)).as_bytes());
        let found = put_line(rt.alloc(), &sink, got, sink.held())?;
        judge(&rt, row, found.as_str());
    }
    Ok(())
}

/// The same of a sink that keeps what fits.
const SURE_PUTS: &str = "\
abc|Ok(3) abc 0
|Ok(0) abc 0
def|Ok(3) abcd 0
g|Ok(1) abcd 0";

#[test]
fn keeps_what_fits(rt: HostRuntime) -> Result<(), Fail> {
    let mut sink = SureSink::make(rt.alloc(), 4)?;
    for row in SURE_PUTS.lines() {
        let got = sink.put(word(&mut given(row)).as_bytes());
        let found = put_line(rt.alloc(), &sink, got, sink.held())?;
        judge(&rt, row, found.as_str());
    }
    Ok(())
}

/// The size of a buffer; the answer, the bytes of a larger buffer, and the faults.
const TAKES: &str = "\
2|Ok(2) [1, 2, 0] 0
3|Err(Failed) [1, 2, 0] 1
0|Ok(0) [1, 2, 0] 1
1|Ok(1) [3, 2, 0] 1
3|Err(Failed) [3, 2, 0] 2
3|Ok(2) [4, 5, 0] 2
3|Ok(0) [4, 5, 0] 2";

#[test]
fn takes_in_order_and_fails_where_told(rt: HostRuntime) -> Result<(), Fail> {
    let mut source = MemSource::make(rt.alloc(), &[1, 2, 3, 4, 5], &[1, 4, 9])?;
    let mut buf = [0u8; 3];
    for row in TAKES.lines() {
        let size = number(&mut given(row));
        let found = take_line(rt.alloc(), &mut source, size, &mut buf)?;
        judge(&rt, row, found.as_str());
    }
    Ok(())
}

/// The same of a source that doesn't fail.
const SURE_TAKES: &str = "\
0|Ok(0) [0, 0] 0
2|Ok(2) [1, 2] 0
2|Ok(1) [3, 2] 0
2|Ok(0) [3, 2] 0";

#[test]
fn takes_in_order(rt: HostRuntime) -> Result<(), Fail> {
    let mut source = SureSource::make(rt.alloc(), &[1, 2, 3])?;
    let mut buf = [0u8; 2];
    for row in SURE_TAKES.lines() {
        let size = number(&mut given(row));
        let found = take_line(rt.alloc(), &mut source, size, &mut buf)?;
        judge(&rt, row, found.as_str());
    }
    Ok(())
}
