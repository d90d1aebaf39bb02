//! The pages that have a frame.
ghost use Rattle.std.specs.Prelude.{◌≡◌, ℕ, ◌+◌, ◌*◌, ◌%◌, ◌^◌, ◌<◌, ◌≤◌, length, slice_index_or, nat_lt, true, false, None, vec_len, vec_capacity};
ghost use Rattle.paged_memory.specs.declared.slots.Slot.{Slot as PageSlot};
ghost use Rattle.paged_memory.specs.Touched.{touched_with, touched_by};
ghost use Rattle.paged_memory.specs.Frames.{frame_in, pages_in, slot_placed, AreByPage, HasFrame};

/// A page, and the number of its frame.
#[derive(Clone, Copy)]
pub struct Slot {
    pub page: u64,
    pub frame: u32,
}

/// The frame of a page, if it has one.
pub fn frame_of(slots: &[Slot], page: u64) -> Option<u32>
    requires { AreByPage slots.now }
    ensures { result ≡ frame_in slots.now page }
{
    let at = slots.partition_point(|s| s.page < page);
    if at < slots.len() && slots[at].page == page {
        return Some(slots[at].frame);
    }
    None
}

/// How many slots stand before the first one with a higher page.
fn place_of(slots: &[Slot], page: u64) -> usize
    requires { AreByPage slots.now }
    ensures within { result ≤ length slots.now }
    ensures before { (k : ℕ) (d : PageSlot) → k < result → nat_lt page (slice_index_or slots.now k d).page ≡ false }
    ensures here { (d : PageSlot) → result < length slots.now → nat_lt page (slice_index_or slots.now result d).page ≡ true }
{
    slots.partition_point(|s| s.page <= page)
}

/// Gives a page the next frame.
fn touch(slots: &mut Vec<Slot>, page: u64)
    requires room { length slots.old.items < vec_capacity slots.old }
    requires few { length slots.old.items < 2 ^ 32 }
    requires sorted { AreByPage slots.old.items }
    ensures items { slots.new.items ≡ slot_placed record { page = page; frame = length slots.old.items } slots.old.items }
    ensures reserved { vec_capacity slots.new ≡ vec_capacity slots.old }
{
    let frame = slots.as_slice().len() as u32;
    let at = place_of(slots, page);
    match slots.insert(at, Slot { page, frame }) {
        Ok(()) => {}
        Err(_) => unreachable!(),
    }
}

/// The frame of a page, which gets the next one if it has none.
pub fn frame_for(slots: &mut Vec<Slot>, page: u64) -> u32
    requires room { length (touched_with page (pages_in slots.old.items)) ≤ vec_capacity slots.old }
    requires few { length (touched_with page (pages_in slots.old.items)) ≤ 2 ^ 32 }
    requires sorted { AreByPage slots.old.items }
    ensures frame { HasFrame slots.old.items slots.new.items page result }
    ensures reserved { vec_capacity slots.new ≡ vec_capacity slots.old }
{
    match frame_of(slots, page) {
        Some(frame) => frame,
        None => {
            let frame = slots.as_slice().len() as u32;
            touch(slots, page);
            frame
        }
    }
}

/// How many of n bytes from a on lie in the first page.
pub fn piece(a: u64, n: usize) -> usize
    requires some { 0 < n }
    ensures some { 0 < result }
    ensures most { result ≤ n }
    ensures inside { a % 4096 + result ≤ 4096 }
    ensures whole { result < n → a % 4096 + result ≡ 4096 }
{
    (4096 - (a % 4096) as usize).min(n)
}

/// How many frames more the pages of n bytes from a on need.
pub fn missing(slots: &[Slot], a: u64, n: usize) -> usize
    requires fits { a + n < 2 ^ 64 }
    requires sorted { AreByPage slots.now }
    ensures { length (pages_in slots.now) + result ≡ length (touched_by n a (pages_in slots.now)) }
{
    let mut need = 0;
    let mut at = 0;
    while at < n {
        let here = a + at as u64;
        if frame_of(slots, here / 4096).is_none() {
            need += 1;
        }
        at += piece(here, n - at);
    }
    need
}
