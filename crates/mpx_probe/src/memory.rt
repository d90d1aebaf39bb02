//! The machine's memory and its heap, many times, for scripts that time them.
ghost use Rattle.std.specs.Prelude.{◌<◌, ◌≤◌};

use guest_services::Heap;
use mx_base::OutOfMemory;
use paged_memory::Memory;
use std::alloc::Global;

const HEAP_START: u64 = 0x3000_0000;

const MOST_BLOCKS: u32 = 65_536;

/// A memory with a frame for each of the first pages of the heap, which begin with the number 1.
fn touched_pages(alloc: Global, pages: u32) -> Result<Memory, OutOfMemory>
    requires { pages ≤ 65536 }
{
    let mut m = Memory::make(alloc, pages)?;
    for page in 0..pages {
        let _done = m.store(HEAP_START + page as u64 * 4096, 8, 1);
    }
    Ok(m)
}

/// The address of the k-th access: each page in turn, and a place of eight bytes in it.
fn access_at(k: u32, pages: u32) -> u64
    requires some { 0 < pages }
    requires few { pages ≤ 65536 }
    ensures { result < 0x4000_0000 }
{
    HEAP_START + (k as u64 * 7919 % pages as u64) * 4096 + (k % 512 * 8) as u64
}

/// Loads eight bytes so many times, page after page, and answers how many loads gave 0 or 1.
pub fn load_often(alloc: Global, pages: u32, times: u32) -> Result<u32, OutOfMemory>
    requires some { 0 < pages }
    requires few { pages ≤ 65536 }
{
    let m = touched_pages(alloc, pages)?;
    let mut done = 0u32;
    for k in 0..times {
        if let Ok(0 | 1) = m.load(access_at(k, pages), 8) {
            done = done.saturating_add(1);
        }
    }
    Ok(done)
}

/// Stores eight bytes so many times, page after page, and answers how many stores were done.
pub fn store_often(alloc: Global, pages: u32, times: u32) -> Result<u32, OutOfMemory>
    requires some { 0 < pages }
    requires few { pages ≤ 65536 }
{
    let mut m = touched_pages(alloc, pages)?;
    let mut done = 0u32;
    for k in 0..times {
        if m.store(access_at(k, pages), 8, k as u64).is_ok() {
            done = done.saturating_add(1);
        }
    }
    Ok(done)
}

/// Touches so many pages, at most those of the heap, and answers how many frames are in use.
pub fn touch_pages(alloc: Global, pages: u32) -> Result<u32, OutOfMemory> {
    let m = touched_pages(alloc, pages.min(65_536))?;
    Ok(m.in_use())
}

/// A heap in which as many blocks of 16 bytes live as may.
fn full_heap(alloc: Global) -> Result<Heap, OutOfMemory> {
    let mut heap = Heap::make(alloc)?;
    for _ in 0..MOST_BLOCKS {
        let _at = heap.alloc(16);
    }
    Ok(heap)
}

/// Frees one of the 65,536 live blocks and gives it again so many times, here and there, and answers how often both were done.
pub fn heap_often(alloc: Global, times: u32) -> Result<u32, OutOfMemory> {
    let mut heap = full_heap(alloc)?;
    let mut done = 0u32;
    for k in 0..times {
        let at = HEAP_START + k as u64 * 40_503 % 65_536 * 16;
        if heap.free(at) && heap.alloc(16) == at {
            done = done.saturating_add(1);
        }
    }
    Ok(done)
}

/// Gives and frees a block behind 32,767 free ranges that are too small for it so many times, and answers how often both were done.
pub fn gaps_often(alloc: Global, times: u32) -> Result<u32, OutOfMemory> {
    let mut heap = full_heap(alloc)?;
    for k in 0..MOST_BLOCKS / 2 {
        let _freed = heap.free(HEAP_START + 16 + k as u64 * 32);
    }
    let mut done = 0u32;
    for _ in 0..times {
        let at = heap.alloc(32);
        if heap.free(at) {
            done = done.saturating_add(1);
        }
    }
    Ok(done)
}
