//! Bounds of pointers.
ghost use Rattle.std.specs.Prelude.{◌≡◌, ◌≤◌};
ghost use Rattle.mx_base.specs.Bounds.{full_bounds, met, is_outside};

/// The lowest and the highest address that a pointer may access.
#[derive(Clone, Copy, Debug, PartialEq, Eq)]
pub struct Bounds {
    pub lb: u64,
    pub ub: u64,
}

/// Bounds with every address.
pub fn full() -> Bounds
    ensures { result ≡ full_bounds }
{
    Bounds {
        lb: 0,
        ub: u64::MAX,
    }
}

/// Bounds with the addresses inside both.
pub fn meet(a: Bounds, b: Bounds) -> Bounds
    ensures { result ≡ met a b }
{
    Bounds {
        lb: a.lb.max(b.lb),
        ub: a.ub.min(b.ub),
    }
}

/// Whether an access of `s` bytes at `p` leaves the bounds, by its first byte below them or its last byte above them.
#[tactic(auto, unfolding(crate::specs::Bounds::is_outside, crate::specs::Bounds::last_byte))]
pub fn outside(p: u64, s: u64, b: Bounds) -> bool
    requires { 1 ≤ s }
    ensures { result ≡ is_outside p s b }
{
    p < b.lb || p.wrapping_add(s - 1) > b.ub
}
