//! Laws of the definitions in `specs/`. Each function does nothing, and its contract is the law.
ghost use Rattle.std.specs.Prelude.{◌≡◌, ℕ, ◌+◌, ◌%◌, ◌^◌, ◌<◌, ◌≤◌, true, false, not, ◌&&◌, Option, Some, List, length};
ghost use Rattle.mx_base.specs.declared.limits.Bounds.{Bounds as BoundsPair};
ghost use Rattle.mx_base.specs.Regions.{is_executable, is_readable, is_writable, is_sealed, is_open_to_read, is_open_to_write};
ghost use Rattle.mx_base.specs.Memory.{Bytes, number_at, with_number, list_at, with_list};
ghost use Rattle.mx_base.specs.BoundsStore.{BoundsStore, StoreCall, store_after, load_bounds, bounds_for, last_kept, granule};
ghost use Rattle.mx_base.specs.Bounds.{addresses};
ghost use Rattle.mx_base.specs.Services.{Service, Guest, guest_with, served};
ghost use Rattle.mx_base.specs.Guests.{InputFits, GuestFits, AnswerFits};
ghost use Rattle.mx_base.specs.Heap.{HeapCall, heap_after, InOrder, NeverOverlap, LieInHeap, OwnsEachByteOnce};

/// No address can be both executed and written: code stays as it was placed.
pub fn code_is_never_writable()
    ensures { (a : ℕ) → is_executable a ≡ true → is_writable a ≡ false }
{}

/// No sealed address is open to C or to legacy code.
pub fn sealed_bytes_are_not_open()
    ensures read { (a : ℕ) → is_sealed a ≡ true → is_open_to_read a ≡ false }
    ensures write { (a : ℕ) → is_sealed a ≡ true → is_open_to_write a ≡ false }
{}

/// An address is open exactly where it is accessible and not sealed.
pub fn open_addresses_are_accessible_and_not_sealed()
    ensures read { (a : ℕ) → is_open_to_read a ≡ (is_readable a && not (is_sealed a)) }
    ensures write { (a : ℕ) → is_open_to_write a ≡ (is_writable a && not (is_sealed a)) }
{}

/// A number that was written is read back as far as its bytes hold it, and every other byte is as before.
pub fn numbers_are_read_back()
    ensures back { (n a v : ℕ) (m : Bytes) → number_at n (with_number n m a v) a ≡ v % 256 ^ n }
    ensures below { (n a v x : ℕ) (m : Bytes) → x < a → with_number n m a v x ≡ m x }
    ensures above { (n a v x : ℕ) (m : Bytes) → a + n ≤ x → with_number n m a v x ≡ m x }
{}

/// Bytes that were written are read back, and every other byte is as before.
pub fn bytes_are_read_back()
    ensures back { (bytes : List ℕ) (a : ℕ) (m : Bytes) → list_at (length bytes) (with_list m a bytes) a ≡ bytes }
    ensures below { (bytes : List ℕ) (a x : ℕ) (m : Bytes) → x < a → with_list m a bytes x ≡ m x }
    ensures above { (bytes : List ℕ) (a x : ℕ) (m : Bytes) → a + length bytes ≤ x → with_list m a bytes x ≡ m x }
{}

/// A load of bounds answers by what was kept last for its granule: these bounds if they were kept for the value loaded,
/// and else full bounds.
pub fn loads_answer_the_last_keep()
    ensures { (calls : List StoreCall) (s t : BoundsStore) (a value : ℕ) (b : BoundsPair) → store_after calls ≡ Some s → load_bounds s a value ≡ Some (b, t) → b ≡ bounds_for value (last_kept (granule a) calls) }
{}

/// Whatever was asked of the heap, two live blocks share no byte, and all lie in the heap; each byte of the heap is in
/// exactly one live block or free range.
pub fn live_blocks_never_overlap()
    ensures apart { (calls : List HeapCall) → NeverOverlap (heap_after calls).live }
    ensures within { (calls : List HeapCall) → LieInHeap (heap_after calls).live }
    ensures once { (calls : List HeapCall) → OwnsEachByteOnce (heap_after calls) }
{}

/// Whatever was asked of the heap, its free ranges and its live blocks are sorted by address, no two free ranges touch, and
/// there is at most one free range more than live blocks.
pub fn heap_lists_stay_in_order()
    ensures free { (calls : List HeapCall) → InOrder 1 0 (heap_after calls).free }
    ensures live { (calls : List HeapCall) → InOrder 0 0 (heap_after calls).live }
    ensures few { (calls : List HeapCall) → length (heap_after calls).free ≤ length (heap_after calls).live + 1 }
{}

/// Where the input left is bytes and the ranges of the heap lie in its region, a service that is asked with words answers a
/// word and leaves the guest so; and a guest begins so with an input of bytes.
pub fn services_keep_the_guest_fit<R>()
    ensures begins { (input : List ℕ) → InputFits input → GuestFits (guest_with input) }
    ensures stays { (service : Service) (m : Bytes) (refused : ℕ → ℕ → Option R) (rdi rsi rdx : ℕ) (g : Guest) → GuestFits g → rdx < addresses → AnswerFits (served m refused service rdi rsi rdx g) }
{}
