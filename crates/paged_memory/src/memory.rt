ghost use Rattle.std.specs.Prelude.{◌≡◌, ℕ, ◌+◌, ◌≤◌, ◌++◌, [], length, drop, min, true, IsTrue, IfOk, OnOk, OnErr, IsOk, Ok, ◌^◌};
ghost use Rattle.std.specs.Prelude.{Some, None, ◌<◌};
ghost use Rattle.mx_base.specs.Regions.{is_executable};
ghost use Rattle.mx_base.specs.Memory.{list_at, with_list, first_refused};
ghost use Rattle.paged_memory.specs.Paged.{bytes_of, touched_of, in_use_of};
ghost use Rattle.paged_memory.specs.Answers.{is_width, load_answer, read_answer, fetch_answer, store_answer, write_answer, place_answer, Writes};

use crate::ends::{any_end, code_end, data_end};
use crate::frames::{copy_out, get_part, put, put_part};
use crate::known::{keep_page, known_place, no_pages, number_in, put_number};
use crate::slots::{Slot, missing};
use crate::stops::MemStop;
use mx_base::OutOfMemory;
use std::alloc::Global;
use std::marker::Model;

/// Bytes at the addresses of the machine's regions, 0 where nothing was written. It is seen as its touched pages, each with
/// its bytes, and the number of its frames. A touched page holds a frame; no page is given up.
#[derive(Drop)]
pub struct Memory {
    slots: Vec<Slot>,
    frames: Vec<u8>,
    capacity: u32,
    known: Vec<Slot>,
}

impl Model for Memory {
    ghost use Rattle.std.specs.Prelude.{◌≡◌, vec_capacity};
    ghost use Rattle.paged_memory.specs.Paged.{Paged, paged_code};
    ghost use Rattle.paged_memory.specs.Frames.{IsSound, paged_of};
    ghost use Rattle.paged_memory.specs.Known.{AreKnown};

    ghost Value = { Paged };

    ghost coded = { paged_code };

    ghost view = { λ m. paged_of m.slots.items m.frames.items m.capacity };

    ghost invariant = { λ m. IsSound m.slots.items m.frames.items m.capacity × (vec_capacity m.slots ≡ m.capacity) × AreKnown m.slots.items m.known.items };
}

impl Memory {
    /// A memory of zeros, in which no page is touched, with this many frames. It takes all its memory at once.
    pub fn make(alloc: Global, frames: u32) -> Result<Memory, OutOfMemory>
        ensures { IfOk result (λ m. m ≡ record { pages = []; capacity = frames }) }
    {
        let slots = Vec::with_capacity(alloc, frames as usize)?;
        let bytes = vec![in alloc; 0u8; frames as usize * 4096]?;
        let known = no_pages(alloc)?;
        Ok(Memory {
            slots,
            frames: bytes,
            capacity: frames,
            known,
        })
    }

    /// How many pages hold a frame.
    pub fn touched(&self) -> u32
        ensures { result ≡ length (touched_of self.now) }
    {
        self.slots.as_slice().len() as u32
    }

    /// How many frames are in use: one for each touched page.
    pub fn in_use(&self) -> u32
        ensures { result ≡ in_use_of self.now }
    {
        self.slots.as_slice().len() as u32
    }

    /// How many frames there are.
    pub fn capacity(&self) -> u32
        ensures { result ≡ self.now.capacity }
    {
        self.capacity
    }

    /// The bytes from `a` on.
    #[inline(always)]
    pub fn read(&self, a: u64, buf: &mut [u8]) -> Result<(), MemStop>
        requires some { 0 < length buf.old }
        requires few { length buf.old ≤ 64 }
        ensures answer { result ≡ read_answer (length buf.old) a }
        ensures done { OnOk result (buf.new ≡ list_at (length buf.old) (bytes_of self.now) a) }
        ensures refused { OnErr result (buf.new ≡ buf.old) }
    {
        match known_place(&self.known, a, buf.len()) {
            Some(at) => {
                get_part(&self.frames, at, buf);
                Ok(())
            }
            None => self.read_far(a, buf),
        }
    }

    /// The same, wherever the bytes lie.
    #[inline(never)]
    fn read_far(&self, a: u64, buf: &mut [u8]) -> Result<(), MemStop>
        requires few { length buf.old ≤ 64 }
        ensures answer { result ≡ read_answer (length buf.old) a }
        ensures done { OnOk result (buf.new ≡ list_at (length buf.old) (bytes_of self.now) a) }
        ensures refused { OnErr result (buf.new ≡ buf.old) }
    {
        let end = any_end(a);
        if buf.len() as u64 > end - a {
            return Err(MemStop::Unmapped(end));
        }
        copy_out(&self.slots, &self.frames, a, buf);
        Ok(())
    }

    /// The number of `n` bytes at `a`, the lowest byte first.
    #[inline(always)]
    pub fn load(&self, a: u64, n: u8) -> Result<u64, MemStop>
        requires { IsTrue (is_width n) }
        ensures { result ≡ load_answer n (bytes_of self.now) a }
    {
        match known_place(&self.known, a, n as usize) {
            Some(at) => Ok(number_in(&self.frames, at, n)),
            None => self.load_far(a, n),
        }
    }

    /// The same, wherever the bytes lie.
    #[inline(never)]
    fn load_far(&self, a: u64, n: u8) -> Result<u64, MemStop>
        requires { IsTrue (is_width n) }
        ensures { result ≡ load_answer n (bytes_of self.now) a }
    {
        let mut bytes = [0u8; 8];
        match self.read_far(a, &mut bytes[..n as usize]) {
            Ok(()) => Ok(u64::from_le_bytes(bytes)),
            Err(stop) => Err(stop),
        }
    }

    /// The bytes from `a` on to the end of its code region, at most 15, into the front of the buffer. It answers how many.
    pub fn fetch(&self, a: u64, buf: &mut [u8; 15]) -> Result<u8, MemStop>
        ensures answer { result ≡ fetch_answer a }
        ensures done { IfOk result (λ n. buf.new ≡ list_at n (bytes_of self.now) a ++ drop n buf.old) }
        ensures refused { OnErr result (buf.new ≡ buf.old) }
    {
        let end = code_end(a);
        if end == a {
            return Err(MemStop::Unmapped(a));
        }
        let n = (end - a).min(15) as usize;
        copy_out(&self.slots, &self.frames, a, &mut buf[..n]);
        Ok(n as u8)
    }

    /// Writes bytes that may be written, if there are frames enough for their pages.
    fn put_in(&mut self, a: u64, bytes: &[u8]) -> Result<(), MemStop>
        requires { a + length bytes.now < 2 ^ 64 }
        ensures answer { Writes (length bytes.now) a (Ok (with_list (bytes_of self.old) a bytes.now)) self.old self.new result }
        ensures refused { OnErr result (self.new ≡ self.old) }
    {
        let need = missing(&self.slots, a, bytes.len());
        if need > self.capacity as usize - self.slots.as_slice().len() {
            return Err(MemStop::NoFrames {
                in_use: self.slots.as_slice().len() as u32,
                capacity: self.capacity,
            });
        }
        put(&mut self.slots, &mut self.frames, self.capacity, a, bytes);
        Ok(())
    }

    /// Writes the low `n` bytes of `v` from `a` on, the lowest first.
    #[inline(always)]
    pub fn store(&mut self, a: u64, n: u8, v: u64) -> Result<(), MemStop>
        requires { IsTrue (is_width n) }
        ensures answer { Writes n a (store_answer n (bytes_of self.old) a v) self.old self.new result }
        ensures refused { OnErr result (self.new ≡ self.old) }
    {
        match known_place(&self.known, a, n as usize) {
            Some(at) => {
                put_number(&mut self.frames, at, n, v);
                Ok(())
            }
            None => self.store_far(a, n, v),
        }
    }

    /// The same, wherever the bytes lie.
    #[inline(never)]
    fn store_far(&mut self, a: u64, n: u8, v: u64) -> Result<(), MemStop>
        requires { IsTrue (is_width n) }
        ensures answer { Writes n a (store_answer n (bytes_of self.old) a v) self.old self.new result }
        ensures refused { OnErr result (self.new ≡ self.old) }
    {
        let bytes = v.to_le_bytes();
        self.write_far(a, &bytes[..n as usize])
    }

    /// Writes the bytes from `a` on.
    #[inline(always)]
    pub fn write(&mut self, a: u64, bytes: &[u8]) -> Result<(), MemStop>
        requires some { 0 < length bytes.now }
        requires few { length bytes.now ≤ 64 }
        ensures answer { Writes (length bytes.now) a (write_answer bytes.now (bytes_of self.old) a) self.old self.new result }
        ensures refused { OnErr result (self.new ≡ self.old) }
    {
        match known_place(&self.known, a, bytes.len()) {
            Some(at) => {
                put_part(&mut self.frames, at, bytes);
                Ok(())
            }
            None => self.write_far(a, bytes),
        }
    }

    /// The same, wherever the bytes lie.
    #[inline(never)]
    fn write_far(&mut self, a: u64, bytes: &[u8]) -> Result<(), MemStop>
        requires some { 0 < length bytes.now }
        requires few { length bytes.now ≤ 64 }
        ensures answer { Writes (length bytes.now) a (write_answer bytes.now (bytes_of self.old) a) self.old self.new result }
        ensures refused { OnErr result (self.new ≡ self.old) }
    {
        let end = data_end(a);
        if bytes.len() as u64 > end - a {
            return Err(MemStop::Unmapped(end));
        }
        match self.put_in(a, bytes) {
            Ok(()) => {
                keep_page(&self.slots, &mut self.known, a);
                Ok(())
            }
            Err(stop) => Err(stop),
        }
    }

    /// Writes the bytes from `a` on, code regions included.
    pub fn place(&mut self, a: u64, bytes: &[u8]) -> Result<(), MemStop>
        requires { 0 < length bytes.now }
        ensures answer { Writes (length bytes.now) a (place_answer bytes.now (bytes_of self.old) a) self.old self.new result }
        ensures refused { OnErr result (self.new ≡ self.old) }
    {
        let end = any_end(a);
        if bytes.len() as u64 > end - a {
            return Err(MemStop::Unmapped(end));
        }
        self.put_in(a, bytes)
    }
}
