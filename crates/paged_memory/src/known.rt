//! Pages that were written, each in the place of its number, so that their bytes are found with one look.
ghost use Rattle.std.specs.Prelude.{◌≡◌, ℕ, ◌+◌, ◌-◌, ◌≤◌, ◌<◌, ◌++◌, List, take, drop, length, replicate, true, IsTrue, IfOk, IfSome};
ghost use Rattle.std.specs.Int.{w64, from_le_bytes, to_le_bytes};
ghost use Rattle.mx_base.specs.Regions.{is_writable};
ghost use Rattle.paged_memory.specs.declared.slots.Slot.{Slot as PageSlot};
ghost use Rattle.paged_memory.specs.Answers.{is_width};
ghost use Rattle.paged_memory.specs.Frames.{AreByPage, put_at};
ghost use Rattle.paged_memory.specs.Known.{AreKnown, StandAt, known_count};

use crate::frames::put_part;
use crate::slots::{Slot, frame_of};
use mx_base::OutOfMemory;
use std::alloc::Global;

const NO_PAGE: Slot = Slot {
    page: u64::MAX,
    frame: 0,
};

/// Places in which no page is kept.
pub fn no_pages(alloc: Global) -> Result<Vec<Slot>, OutOfMemory>
    ensures { IfOk result (λ v. (slots : List PageSlot) → AreKnown slots v.items) }
{
    Ok(vec![in alloc; NO_PAGE; 256]?)
}

/// The place of a page. The first pages of regions have places of their own.
#[inline(always)]
fn place_in(page: u64) -> usize
    ensures { result < known_count }
{
    ((page ^ (page >> 16)) % 256) as usize
}

/// Where `n` bytes at `a` stand among the frames, if they lie in one page that is kept.
#[inline(always)]
pub fn known_place(known: &[Slot], a: u64, n: usize) -> Option<usize>
    requires count { length known.now ≡ known_count }
    requires few { n ≤ 64 }
    ensures { IfSome result (λ at. (slots : List PageSlot) → AreKnown slots known.now → StandAt slots a n at) }
{
    let page = a / 4096;
    let slot = known[place_in(page)];
    if slot.page == page && (a % 4096) as usize + n <= 4096 {
        return Some(slot.frame as usize * 4096 + (a % 4096) as usize);
    }
    None
}

/// Keeps the page of an address that can be written, if it has a frame.
pub fn keep_page(slots: &[Slot], known: &mut Vec<Slot>, a: u64)
    requires sorted { AreByPage slots.now }
    requires open { is_writable a ≡ true }
    requires known { AreKnown slots.now known.old.items }
    ensures { AreKnown slots.now known.new.items }
{
    let page = a / 4096;
    if let Some(frame) = frame_of(slots, page) {
        known[place_in(page)] = Slot { page, frame };
    }
}

#[inline(always)]
fn gathered(frames: &[u8], at: usize, n: usize) -> u64
    requires few { n ≤ 8 }
    requires within { at + n ≤ length frames.now }
    ensures { result ≡ from_le_bytes w64 (take n (drop at frames.now) ++ replicate (8 - n) 0) }
{
    let mut bytes = [0u8; 8];
    bytes[..n].copy_from_slice(&frames[at..at + n]);
    u64::from_le_bytes(bytes)
}

/// The number of `n` bytes at a place of the frames. Each width is a case, since a copy of so many bytes is one load.
#[inline(always)]
pub fn number_in(frames: &[u8], at: usize, n: u8) -> u64
    requires width { IsTrue (is_width n) }
    requires within { at + n ≤ length frames.now }
    ensures { result ≡ from_le_bytes w64 (take n (drop at frames.now) ++ replicate (8 - n) 0) }
{
    match n {
        8 => gathered(frames, at, 8),
        4 => gathered(frames, at, 4),
        2 => gathered(frames, at, 2),
        _ => gathered(frames, at, 1),
    }
}

/// Writes the low `n` bytes of a number at a place of the frames.
#[inline(always)]
pub fn put_number(frames: &mut [u8], at: usize, n: u8, v: u64)
    requires width { IsTrue (is_width n) }
    requires within { at + n ≤ length frames.old }
    ensures { frames.new ≡ put_at frames.old at (take n (to_le_bytes w64 v)) }
{
    let bytes = v.to_le_bytes();
    match n {
        8 => put_part(frames, at, &bytes[..8]),
        4 => put_part(frames, at, &bytes[..4]),
        2 => put_part(frames, at, &bytes[..2]),
        _ => put_part(frames, at, &bytes[..1]),
    }
}
