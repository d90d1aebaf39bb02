//! Laws of table entries.
ghost use Rattle.std.specs.Prelude.{◌≡◌, ℕ, ◌+◌, ◌<◌, ◌≤◌, ◌^◌};
ghost use Rattle.mx_base.specs.Memory.{Bytes};
ghost use Rattle.mx_base.specs.Walk.{TableEntry, entry_in, with_entry, entry_size};

/// The law that a store of a table entry leaves every byte but its 24, so the 8 reserved bytes behind them too.
pub fn stores_leave_other_bytes()
    ensures before { (m : Bytes) (at x : ℕ) (e : TableEntry) → x < at → with_entry m at e x ≡ m x }
    ensures behind { (m : Bytes) (at x : ℕ) (e : TableEntry) → at + entry_size ≤ x → with_entry m at e x ≡ m x }
{}

/// The law that the table entry that was stored last is read back.
pub fn stored_entries_are_read_back()
    ensures { (m : Bytes) (at : ℕ) (e : TableEntry) → e.lb < 2 ^ 64 → e.held < 2 ^ 64 → e.value < 2 ^ 64
        → entry_in (with_entry m at e) at ≡ e }
{}
