ghost use Rattle.std.specs.Prelude.{◌≡◌, ℕ, true, false, Some, None, IfOk};
ghost use Rattle.mx_base.specs.Heap.{whole_heap, allocated, freed};
ghost use Rattle.guest_services.specs.Blocks.{FreedTo};

use crate::blocks::{Block, first_fit, first_free, give, give_up, live_at};
use mx_base::OutOfMemory;
use std::alloc::Global;
use std::marker::Model;

const HEAP_START: u64 = 0x3000_0000;

const HEAP_SIZE: u64 = 0x1000_0000;

const MOST_BLOCKS: u32 = 65536;

/// The heap of a guest, of which up to 65,536 blocks may live. It is seen as its free ranges and its live blocks, by address.
#[derive(Drop)]
pub struct Heap {
    blocks: Vec<Block>,
    live: u32,
    front: usize,
}

impl Model for Heap {
    ghost use Rattle.std.specs.Prelude.{◌≡◌, vec_capacity};
    ghost use Rattle.mx_base.specs.Heap.{Heap as HeapLists};
    ghost use Rattle.guest_services.specs.Blocks.{AreBlocks, IsFront, heap_of, heap_code};

    ghost Value = { HeapLists };

    ghost coded = { heap_code };

    ghost view = { λ h. heap_of h.blocks.items };

    ghost invariant = { λ h. AreBlocks h.blocks.items h.live × (vec_capacity h.blocks ≡ 131073) × IsFront h.front h.blocks.items };
}

impl Heap {
    /// A heap of which all is free. It takes all its memory at once.
    pub fn make(alloc: Global) -> Result<Heap, OutOfMemory>
        ensures { IfOk result (λ h. h ≡ whole_heap) }
    {
        let mut blocks = Vec::with_capacity(alloc, 131073)?;
        let whole = Block {
            live: false,
            at: HEAP_START,
            size: HEAP_SIZE,
        };
        blocks.push_reserved(whole);
        Ok(Heap {
            blocks,
            live: 0,
            front: 0,
        })
    }

    /// The address of a new block of `n` bytes, rounded up to a multiple of 16, from the front of the first free range that
    /// holds them; 0 where `n` is 0, no free range holds them, or as many blocks live as may.
    pub fn alloc(&mut self, n: u64) -> u64
        ensures { (result, self.new) ≡ allocated self.old n }
    {
        if n == 0 || self.live >= MOST_BLOCKS || n > HEAP_SIZE {
            return 0;
        }
        let size = (n + 15) / 16 * 16;
        let front = first_free(&self.blocks, self.front);
        let i = first_fit(&self.blocks, front, size);
        if i >= self.blocks.as_slice().len() {
            return 0;
        }
        let at = self.blocks[i].at;
        give(&mut self.blocks, i, size);
        self.front = front;
        self.live += 1;
        at
    }

    /// Frees the live block that starts at an address. False where none does, and then nothing changes.
    pub fn free(&mut self, a: u64) -> bool
        ensures { FreedTo (freed self.old a) self.old self.new result }
    {
        let i = live_at(&self.blocks, a);
        if i >= self.blocks.as_slice().len() {
            return false;
        }
        give_up(&mut self.blocks, i, a);
        self.front = self.front.min(i.saturating_sub(1));
        self.live -= 1;
        true
    }
}
