//! Pages, their frames, and what no region allows.
ghost use Rattle.std.specs.Prelude.{IsTrue};
ghost use Rattle.paged_memory.specs.Answers.{is_width};

use crate::rows::{given, judge, number};
use paged_memory::{MemStop, Memory};
use std::alloc::{AllocError, Global};
use std::process::Abort;
use std::test::Fail;

/// Where eight bytes are stored, of which two are stored again; the number, its first byte and four bytes from the second on before
/// that, and the number after it.
const PLACES: &str = "\
20000000|8877665544332211 11 55443322 887766bbaa332211
20000ff8|8877665544332211 11 55443322 887766bbaa332211
20000ff9|8877665544332211 11 55443322 887766bbaa332211
20000ffc|8877665544332211 11 55443322 887766bbaa332211
20000fff|8877665544332211 11 55443322 887766bbaa332211
20fffff8|8877665544332211 11 55443322 887766bbaa332211
70000ff8|8877665544332211 11 55443322 887766bbaa332211";

#[test]
fn numbers_stand_lowest_byte_first_over_page_edges(rt: HostRuntime) -> Result<(), Fail> {
    let mut m = Memory::make(rt.alloc(), 4)?;
    for row in PLACES.lines() {
        let a = number(&mut given(row));
        m.store(a, 8, 0x8877_6655_4433_2211)?;
        let (eight, one) = (m.load(a, 8)?, m.load(a, 1)?);
        let four = m.load(a.wrapping_add(1), 4)?;
        m.store(a.wrapping_add(3), 2, 0xbbaa)?;
        let after = m.load(a, 8)?;
        let found = format!(in rt.alloc(); "{eight:x} {one:x} {four:x} {after:x}")?;
        judge(&rt, row, found.as_str());
    }
    assert_eq!(rt; m.touched(), 4);
    Ok(())
}

/// Stores `n` bytes and loads them again, or neither.
fn judge_width(rt: &impl Abort, m: &mut Memory, a: u64, n: u8, want: Result<u64, MemStop>)
    requires { IsTrue (is_width n) }
{
    let stored = m.store(a, n, 0x8877_6655_4433_2211);
    let found = (n, a, stored.err(), m.load(a, n));
    assert_eq!(rt; found, (n, a, want.err(), want));
}

/// Judges each place round a page's edge, and round the end and the start of a region.
fn judge_edges(rt: &impl Abort, m: &mut Memory, n: u8, low: u64)
    requires { IsTrue (is_width n) }
{
    let size = n as u64;
    for back in 0..10u64 {
        let a = 0x2000_1000 + size * 0x10_0000 + back * 0x2000 - back;
        let pages = if back == 0 || size <= back { 1 } else { 2 };
        let before = m.touched() as u64;
        judge_width(rt, m, a, n, Ok(low));
        let around = (m.touched() as u64, m.load(a - 1, 1), m.load(a + size, 1));
        assert_eq!(rt; (n, a, around), (n, a, (before + pages, Ok(0), Ok(0))));
        let past = Err(MemStop::Unmapped(0x2100_0000));
        judge_width(
            rt,
            m,
            0x2100_0000 - back,
            n,
            if size <= back { Ok(low) } else { past },
        );
        let first = 0x3000_0000 - back;
        let low = if back == 0 {
            Ok(low)
        } else {
            Err(MemStop::Unmapped(first))
        };
        judge_width(rt, m, first, n, low);
    }
}

#[test]
fn every_width_stands_at_every_place_round_an_edge(rt: HostRuntime) -> Result<(), Fail> {
    let mut m = Memory::make(rt.alloc(), 100)?;
    judge_edges(&rt, &mut m, 1, 0x11);
    judge_edges(&rt, &mut m, 2, 0x2211);
    judge_edges(&rt, &mut m, 4, 0x4433_2211);
    judge_edges(&rt, &mut m, 8, 0x8877_6655_4433_2211);
    Ok(())
}

/// Appends `ok`, or why memory refused, and a blank.
fn push_answer(
    alloc: Global,
    line: &mut String,
    refused: Option<MemStop>,
) -> Result<(), AllocError> {
    match refused {
        None => line.push_str("ok "),
        Some(MemStop::Unmapped(a)) => push_number(alloc, line, a),
        Some(MemStop::NoFrames { .. }) => line.push_str("no frames "),
    }
}

/// Appends a number in hexadecimal digits and a blank.
fn push_number(alloc: Global, line: &mut String, n: u64) -> Result<(), AllocError> {
    let text = format!(in alloc; "{n:x} ")?;
    line.push_str(text.as_str())
}

/// The answers to a load, a read and a store of eight bytes, and what each byte of the buffer is then; or `8 bytes`, where they differ.
fn refusal_line(alloc: Global, m: &mut Memory, a: u64) -> Result<String, AllocError> {
    let mut line = String::new(alloc);
    let mut buf = [7; 8];
    push_answer(alloc, &mut line, m.load(a, 8).err())?;
    push_answer(alloc, &mut line, m.read(a, &mut buf).err())?;
    push_answer(alloc, &mut line, m.store(a, 8, 1).err())?;
    let left = if buf == [7; 8] {
        "7"
    } else if buf == [0; 8] && m.load(a, 8) == Ok(0) {
        "0"
    } else {
        "8 bytes"
    };
    line.push_str(left)?;
    Ok(line)
}

/// Where eight bytes are loaded, read and stored; the first bytes that can't be, and what each byte of the buffer is then.
const REFUSALS: &str = "\
0|0 0 0 7
ffffff|ffffff ffffff ffffff 7
10fffffc|11000000 11000000 10fffffc 7
12000000|ok ok 12000000 0
20fffff9|21000000 21000000 21000000 7
500100000000|500100000000 500100000000 500100000000 7
ffffffffffffffff|ffffffffffffffff ffffffffffffffff ffffffffffffffff 7";

#[test]
fn the_first_byte_that_no_region_allows_is_told(rt: HostRuntime) -> Result<(), Fail> {
    let mut m = Memory::make(rt.alloc(), 4)?;
    for row in REFUSALS.lines() {
        let found = refusal_line(rt.alloc(), &mut m, number(&mut given(row)))?;
        judge(&rt, row, found.as_str());
    }
    assert_eq!(rt; m.touched(), 0);
    Ok(())
}

#[test]
fn a_write_takes_all_its_frames_or_none(rt: HostRuntime) -> Result<(), Fail> {
    let mut m = Memory::make(rt.alloc(), 1)?;
    let few = |in_use, capacity| Err(MemStop::NoFrames { in_use, capacity });
    let refused = m.store(0x2000_0ffc, 8, u64::MAX);
    let found = (refused, m.load(0x2000_0ffc, 8), m.touched());
    assert_eq!(rt; found, (few(0, 1), Ok(0), 0));
    m.store(0x2000_0ff8, 8, 5)?;
    let refused = (m.store(0x2000_0ff9, 8, 6), m.write(0x3000_0000, b"a"));
    let found = (refused, m.load(0x2000_0ff8, 8), m.in_use(), m.capacity());
    assert_eq!(rt; found, ((few(1, 1), few(1, 1)), Ok(5), 1, 1));
    let mut m = Memory::make(rt.alloc(), 3)?;
    m.write(0x3000_0fff, b"ab")?;
    let refused = m.write(0x5000_0fff, b"ab");
    m.write(0x3000_1fff, b"ab")?;
    assert_eq!(rt; (refused, m.in_use()), (few(2, 3), 3));
    Ok(())
}

/// How many bytes are fetched, or the answer, and what the buffer holds then.
fn fetch_line(alloc: Global, m: &Memory, a: u64) -> Result<String, AllocError> {
    let mut buf = [9; 15];
    let mut line = String::new(alloc);
    match m.fetch(a, &mut buf) {
        Ok(count) => push_number(alloc, &mut line, count as u64)?,
        Err(stop) => push_answer(alloc, &mut line, Some(stop))?,
    }
    line.push_str(format!(in alloc; "{buf:?}")?.as_str())?;
    Ok(line)
}

/// Where is fetched; the number of bytes, or the first byte that can't be, and what the buffer holds then.
const FETCHES: &str = "\
10fffffd|3 [97, 98, 99, 9, 9, 9, 9, 9, 9, 9, 9, 9, 9, 9, 9]
10ffffee|f [0, 0, 0, 0, 0, 0, 0, 0, 0, 0, 0, 0, 0, 0, 0]
11000000|11000000 [9, 9, 9, 9, 9, 9, 9, 9, 9, 9, 9, 9, 9, 9, 9]
20000000|20000000 [9, 9, 9, 9, 9, 9, 9, 9, 9, 9, 9, 9, 9, 9, 9]";

#[test]
fn code_is_placed_and_fetched_to_the_end_of_its_region(rt: HostRuntime) -> Result<(), Fail> {
    let mut m = Memory::make(rt.alloc(), 3)?;
    m.place(0x10ff_fffd, b"abc")?;
    let refused = (m.place(0x10ff_fffd, b"abcd"), m.write(0x1200_0000, b"a"));
    let (end, legacy) = (
        MemStop::Unmapped(0x1100_0000),
        MemStop::Unmapped(0x1200_0000),
    );
    assert_eq!(rt; refused, (Err(end), Err(legacy)));
    for row in FETCHES.lines() {
        let found = fetch_line(rt.alloc(), &m, number(&mut given(row)))?;
        judge(&rt, row, found.as_str());
    }
    Ok(())
}
