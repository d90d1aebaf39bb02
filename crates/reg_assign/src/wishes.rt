//! Values that are to have certain registers as their homes, or slots.

ghost use Rattle.std.specs.Prelude.{◌≡◌, ℕ, ◌<◌, slice_index};
ghost use Rattle.reg_assign.specs.Wishing.{IsWish, WishesFor};

use sqlite_items::Items;

/// Values that are to have certain registers as their homes, or slots. An argument that comes from the register in which it
/// arrives to such a home meets no argument there that is still to come.
#[derive(Drop)]
pub struct Wishes {
    /// The numbers that are to have rdi, rsi, r10, r11, r8 and r9, in this order.
    pub numbers: Items<usize>,
    /// The bounds that are to have BND2 and BND3.
    pub bounds: Items<usize>,
}

/// The place that a value wishes for, or the first one if it wishes for none.
pub(crate) fn wish_of(wishes: &[usize], value: usize) -> usize
    ensures { IsWish wishes.now value result }
{
    for (place, wished) in wishes.iter().enumerate() {
        if *wished == value {
            return place;
        }
    }
    0
}
