//! The first sealed byte of some, found by the ends of the sealed regions.
ghost use Rattle.std.specs.Prelude.{◌≡◌};
ghost use Rattle.x86_forms.specs.Watch.{first_sealed};
ghost use Rattle.seal_watch.specs.Sealed.{IsNextSealed, sealed_low, sealed_high};

use x86_forms::Span;

/// The first sealed address from `a` on.
#[tactic(auto, unfolding(mx_base::specs::Regions::is_sealed))]
#[inline(always)]
fn next_sealed(a: u64) -> Option<u64>
    ensures { IsNextSealed a result }
{
    if a < 0x1100_0000 {
        return Some(a.max(0x0100_0000));
    }
    if a < 0x7000_1000 {
        return Some(a.max(0x7000_0000));
    }
    if a < 0x7200_0000 {
        return Some(a.max(0x7100_0000));
    }
    if a < 0x4000_8000_0000 {
        return Some(a.max(0x4000_0000_0000));
    }
    if a < 0x5001_0000_0000 {
        return Some(a.max(0x5000_0000_0000));
    }
    None
}

/// The first sealed one of the first bytes of an access: those up to the last address.
#[inline(always)]
fn sealed_below_the_end(s: Span) -> Option<u64>
    ensures { result ≡ sealed_low s }
{
    match next_sealed(s.at) {
        None => None,
        Some(x) => { if x - s.at < s.size { Some(x) } else { None } }
    }
}

/// The first sealed one of the bytes of an access that stand past the last address, from address 0 on.
#[inline(always)]
fn sealed_from_zero(s: Span) -> Option<u64>
    ensures { result ≡ sealed_high s }
{
    let left = s.size.saturating_sub(u64::MAX - s.at);
    if left > 0x0100_0001 {
        Some(0x0100_0000)
    } else {
        None
    }
}

/// The first sealed byte of an access.
#[inline(always)]
pub fn first_sealed_byte(s: Span) -> Option<u64>
    ensures { result ≡ first_sealed s }
{
    match sealed_below_the_end(s) {
        None => sealed_from_zero(s),
        Some(x) => Some(x),
    }
}
