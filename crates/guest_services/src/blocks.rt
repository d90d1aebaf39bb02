//! The blocks of the heap by address.
ghost use Rattle.std.specs.Prelude.{◌≡◌, ℕ, ◌+◌, ◌<◌, ◌≤◌, length, slice_index_or, slice_set, true, false, vec_len, vec_capacity};
ghost use Rattle.guest_services.specs.declared.blocks.Block.{Block as HeapBlock};
ghost use Rattle.guest_services.specs.Blocks.{is_fit, is_live_at, given, given_up, joined_at, total_size, IsFront, IsTiled};

/// Some bytes of the heap, which are in use or free.
#[derive(Clone, Copy)]
pub struct Block {
    pub live: bool,
    pub at: u64,
    pub size: u64,
}

/// The place of the first free block, or the number of blocks if there is none, where those before `from` are live.
pub fn first_free(blocks: &[Block], from: usize) -> usize
    requires { IsFront from blocks.now }
    ensures before { IsFront result blocks.now }
    ensures here { (d : HeapBlock) → result < length blocks.now → (slice_index_or blocks.now result d).live ≡ false }
{
    for i in from..blocks.len() {
        if !blocks[i].live {
            return i;
        }
    }
    blocks.len()
}

/// The place of the first free block of `n` bytes or more, or the number of blocks if there is none, where those before
/// `from` are live.
pub fn first_fit(blocks: &[Block], from: usize, n: u64) -> usize
    requires { IsFront from blocks.now }
    ensures within { result ≤ length blocks.now }
    ensures before { (k : ℕ) (d : HeapBlock) → k < result → is_fit n (slice_index_or blocks.now k d) ≡ false }
    ensures here { (d : HeapBlock) → result < length blocks.now → is_fit n (slice_index_or blocks.now result d) ≡ true }
{
    for i in from..blocks.len() {
        let b = &blocks[i];
        if !b.live && n <= b.size {
            return i;
        }
    }
    blocks.len()
}

/// The place of the live block at an address; the number of blocks if there is none.
pub fn live_at(blocks: &[Block], a: u64) -> usize
    requires { IsTiled 0x3000_0000 blocks.now }
    ensures within { result ≤ length blocks.now }
    ensures before { (k : ℕ) (d : HeapBlock) → k < result → is_live_at a (slice_index_or blocks.now k d) ≡ false }
    ensures here { (d : HeapBlock) → result < length blocks.now → is_live_at a (slice_index_or blocks.now result d) ≡ true }
{
    let at = blocks.partition_point(|b| b.at < a);
    if at < blocks.len() && blocks[at].live && blocks[at].at == a {
        return at;
    }
    blocks.len()
}

/// Makes the first `n` bytes of the free block at a place a live block.
pub fn give(blocks: &mut Vec<Block>, i: usize, n: u64)
    requires within { i < length blocks.old.items }
    requires before { (k : ℕ) (d : HeapBlock) → k < i → is_fit n (slice_index_or blocks.old.items k d) ≡ false }
    requires here { (d : HeapBlock) → is_fit n (slice_index_or blocks.old.items i d) ≡ true }
    requires small { total_size blocks.old.items ≤ 0x1000_0000 }
    requires low { (d : HeapBlock) → (slice_index_or blocks.old.items i d).at ≤ 0x4000_0000 }
    requires room { length blocks.old.items < vec_capacity blocks.old }
    ensures items { blocks.new.items ≡ given n blocks.old.items }
    ensures reserved { vec_capacity blocks.new ≡ vec_capacity blocks.old }
{
    let b = blocks[i];
    blocks[i] = Block {
        live: true,
        at: b.at,
        size: n,
    };
    if b.size != n {
        let rest = Block {
            live: false,
            at: b.at + n,
            size: b.size - n,
        };
        match blocks.insert(i + 1, rest) {
            Ok(()) => {}
            Err(_) => unreachable!(),
        }
    }
}

/// Makes one block of the one at a place and the next one, if both are free.
fn join(blocks: &mut Vec<Block>, i: usize)
    requires within { i < length blocks.old.items }
    requires small { total_size blocks.old.items ≤ 0x1000_0000 }
    ensures items { blocks.new.items ≡ joined_at i blocks.old.items }
    ensures reserved { vec_capacity blocks.new ≡ vec_capacity blocks.old }
{
    if i + 1 >= blocks.as_slice().len() {
        return;
    }
    let b = blocks[i];
    let next = blocks[i + 1];
    if b.live || next.live {
        return;
    }
    blocks.remove(i + 1);
    blocks[i] = Block {
        live: false,
        at: b.at,
        size: b.size + next.size,
    };
}

/// Makes the live block at a place free, and one with its free neighbours.
pub fn give_up(blocks: &mut Vec<Block>, i: usize, a: u64)
    requires within { i < length blocks.old.items }
    requires before { (k : ℕ) (d : HeapBlock) → k < i → is_live_at a (slice_index_or blocks.old.items k d) ≡ false }
    requires here { (d : HeapBlock) → is_live_at a (slice_index_or blocks.old.items i d) ≡ true }
    requires tiled { IsTiled 0x3000_0000 blocks.old.items }
    ensures items { blocks.new.items ≡ given_up a blocks.old.items }
    ensures reserved { vec_capacity blocks.new ≡ vec_capacity blocks.old }
{
    let b = blocks[i];
    blocks[i] = Block {
        live: false,
        at: b.at,
        size: b.size,
    };
    join(blocks, i);
    if i > 0 {
        join(blocks, i - 1);
    }
}
