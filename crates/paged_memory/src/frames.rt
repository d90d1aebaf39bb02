//! The bytes of pages and their frames.
ghost use Rattle.std.specs.Prelude.{◌≡◌, ℕ, ◌+◌, ◌*◌, ◌/◌, ◌%◌, ◌^◌, ◌<◌, ◌≤◌, length, replicate, take, drop, Some, vec_capacity};
ghost use Rattle.mx_base.specs.Memory.{list_at, with_list};
ghost use Rattle.paged_memory.specs.Touched.{touched_with, touched_by};
ghost use Rattle.paged_memory.specs.Frames.{byte_under, frame_in, pages_in, AreByPage, LieWithin, IsSound, KeepsFrames, put_at};

use crate::slots::{Slot, frame_for, frame_of, piece};

fn clear(buf: &mut [u8])
    ensures { buf.new ≡ replicate (length buf.old) 0 }
{
    for b in buf.iter_mut() {
        *b = 0;
    }
}

/// Copies bytes that lie in one page.
fn copy_page(slots: &[Slot], frames: &[u8], a: u64, buf: &mut [u8])
    requires sorted { AreByPage slots.now }
    requires within { LieWithin (frame_in slots.now) frames.now }
    requires inside { a % 4096 + length buf.old ≤ 4096 }
    ensures { buf.new ≡ list_at (length buf.old) (byte_under (frame_in slots.now) frames.now) a }
{
    match frame_of(slots, a / 4096) {
        None => clear(buf),
        Some(frame) => {
            let at = frame as usize * 4096 + (a % 4096) as usize;
            buf.copy_from_slice(&frames[at..at + buf.len()]);
        }
    }
}

/// Copies the bytes from a on, which lie in no more than two pages.
pub fn copy_out(slots: &[Slot], frames: &[u8], a: u64, buf: &mut [u8])
    requires sorted { AreByPage slots.now }
    requires within { LieWithin (frame_in slots.now) frames.now }
    requires few { length buf.old ≤ 4096 }
    requires fits { a + length buf.old < 2 ^ 64 }
    ensures { buf.new ≡ list_at (length buf.old) (byte_under (frame_in slots.now) frames.now) a }
{
    let first = 4096 - (a % 4096) as usize;
    if buf.len() <= first {
        copy_page(slots, frames, a, buf);
    } else {
        let (front, back) = buf.split_at_mut(first);
        copy_page(slots, frames, a, front);
        copy_page(slots, frames, a + first as u64, back);
    }
}

/// Copies bytes that stand at a place of the frames.
#[inline(always)]
pub fn get_part(frames: &[u8], at: usize, buf: &mut [u8])
    requires { at + length buf.old ≤ length frames.now }
    ensures { buf.new ≡ take (length buf.old) (drop at frames.now) }
{
    buf.copy_from_slice(&frames[at..at + buf.len()]);
}

/// Writes bytes at a place of the frames.
#[inline(always)]
pub fn put_part(frames: &mut [u8], at: usize, bytes: &[u8])
    requires { at + length bytes.now ≤ length frames.old }
    ensures { frames.new ≡ put_at frames.old at bytes.now }
{
    frames[at..at + bytes.len()].copy_from_slice(bytes);
}

/// Writes bytes into one page, which gets a frame if it has none.
fn put_page(slots: &mut Vec<Slot>, frames: &mut [u8], capacity: u32, a: u64, bytes: &[u8])
    requires sound { IsSound slots.old.items frames.old capacity }
    requires reserved { vec_capacity slots.old ≡ capacity }
    requires inside { a % 4096 + length bytes.now ≤ 4096 }
    requires room { length (touched_with (a / 4096) (pages_in slots.old.items)) ≤ capacity }
    ensures sound { IsSound slots.new.items frames.new capacity }
    ensures reserved { vec_capacity slots.new ≡ capacity }
    ensures bytes { byte_under (frame_in slots.new.items) frames.new ≡ with_list (byte_under (frame_in slots.old.items) frames.old) a bytes.now }
    ensures pages { pages_in slots.new.items ≡ touched_with (a / 4096) (pages_in slots.old.items) }
    ensures kept { KeepsFrames slots.old.items slots.new.items }
{
    let frame = frame_for(slots, a / 4096);
    put_part(frames, frame as usize * 4096 + (a % 4096) as usize, bytes);
}

/// Writes bytes from a on, whose pages get frames where they have none.
pub fn put(slots: &mut Vec<Slot>, frames: &mut [u8], capacity: u32, a: u64, bytes: &[u8])
    requires sound { IsSound slots.old.items frames.old capacity }
    requires reserved { vec_capacity slots.old ≡ capacity }
    requires fits { a + length bytes.now < 2 ^ 64 }
    requires room { length (touched_by (length bytes.now) a (pages_in slots.old.items)) ≤ capacity }
    ensures sound { IsSound slots.new.items frames.new capacity }
    ensures reserved { vec_capacity slots.new ≡ capacity }
    ensures bytes { byte_under (frame_in slots.new.items) frames.new ≡ with_list (byte_under (frame_in slots.old.items) frames.old) a bytes.now }
    ensures pages { pages_in slots.new.items ≡ touched_by (length bytes.now) a (pages_in slots.old.items) }
    ensures kept { KeepsFrames slots.old.items slots.new.items }
{
    let mut at = 0;
    while at < bytes.len() {
        let here = a + at as u64;
        let n = piece(here, bytes.len() - at);
        put_page(slots, frames, capacity, here, &bytes[at..at + n]);
        at += n;
    }
}
