//! One step.

use mx_base::{Arithmetic, CService, Comparison, IntKind, Place};
use sqlite_items::Items;

/// A step of a C function. A field of type `u32` names a value of the function, unless it is said otherwise; the values
/// are numbers and pairs of bounds, as `FatFun` numbers them. A symbol is a place, from 0, in the unit's list of symbols.
#[derive(Drop)]
pub enum FatStep {
    /// `to` becomes the number `n`.
    Const {
        to: u32,
        n: u64,
    },
    /// `to` becomes what `from` is, a number or bounds.
    Copy {
        to: u32,
        from: u32,
    },
    /// `to` becomes the result of an operator on the numbers `a` and `b` of type `kind`, or the run stops by `Divide`.
    Arith {
        to: u32,
        op: Arithmetic,
        kind: IntKind,
        a: u32,
        b: u32,
    },
    /// `to` becomes 1 if the numbers `a` and `b` of type `kind` compare so, and else 0.
    Compare {
        to: u32,
        op: Comparison,
        kind: IntKind,
        a: u32,
        b: u32,
    },
    /// `to` becomes the 64-bit word of the number that the low bits of `from` stand for in the type `kind`.
    Extend {
        to: u32,
        from: u32,
        kind: IntKind,
    },
    /// `to` becomes an address: that of the symbol, or that of the function's data frame where there is none, plus
    /// `offset` bytes. `bounds` becomes the bounds of `size` bytes there; for a function they are full.
    Place {
        to: u32,
        bounds: u32,
        symbol: Option<u32>,
        offset: u32,
        size: u64,
    },
    /// `to` becomes the bounds of `n` bytes at `p`, modulo 2^64: full for no bytes at 0.
    Make {
        to: u32,
        p: u32,
        n: u32,
    },
    /// `to` becomes the bounds with the addresses of both `a` and `b`.
    Meet {
        to: u32,
        a: u32,
        b: u32,
    },
    /// `to` becomes the upper or the lower bound of `from`.
    Bound {
        to: u32,
        from: u32,
        upper: bool,
    },
    /// The run stops if an access of `size` bytes at `value` leaves `bounds`. `size` is a number of bytes; `write` says
    /// whether the access writes, and `place` where it stands in the sources.
    Judge {
        value: u32,
        size: u32,
        bounds: u32,
        write: bool,
        place: Place,
    },
    /// `to` becomes the number of type `kind` that stands at the address `p`.
    Load {
        p: u32,
        to: u32,
        kind: IntKind,
    },
    /// The number `from` is written to the address `p` in the type `kind`.
    Store {
        p: u32,
        from: u32,
        kind: IntKind,
    },
    /// `to` and `bounds` become the pointer that stands at the address `p`, with the bounds that are kept for it.
    LoadPtr {
        p: u32,
        to: u32,
        bounds: u32,
    },
    /// The pointer `from` is written to the address `p`, and its bounds are kept.
    StorePtr {
        p: u32,
        from: u32,
        bounds: u32,
    },
    /// The label `n`, which names no value.
    Label {
        n: u32,
    },
    /// A jump to the label `n`. A jump to a label that stands before it takes a turn.
    Jump {
        n: u32,
    },
    /// The same if the number `from` is not 0.
    JumpIf {
        from: u32,
        n: u32,
    },
    /// A call of the function of a symbol. An argument is a number, with bounds where it is a pointer. The result goes to
    /// `to`, and a pointer's bounds to `bounds`.
    Call {
        symbol: u32,
        args: Items<(u32, Option<u32>)>,
        to: Option<u32>,
        bounds: Option<u32>,
    },
    /// A service with its word. The answer goes to `to`.
    Service {
        service: CService,
        arg: Option<u32>,
        to: Option<u32>,
    },
    /// The function returns, with the number `from`, or 0 where there is none, and with these bounds, or full ones.
    Give {
        from: Option<u32>,
        bounds: Option<u32>,
    },
}
