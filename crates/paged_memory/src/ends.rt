//! How far the region of an address reaches.
ghost use Rattle.std.specs.Prelude.{◌≡◌, ℕ, ◌+◌, ◌≤◌, ◌<◌, ◌^◌, None, true};
ghost use Rattle.mx_base.specs.Regions.{Region, is_in, is_readable};
ghost use Rattle.mx_base.specs.Memory.{first_refused, first_refused_around};
ghost use Rattle.paged_memory.specs.Ends.{run_end, is_between};

#[inline(always)]
fn within(from: u64, end: u64, a: u64) -> bool
    ensures { result ≡ is_between from end a }
{
    from <= a && a < end
}

/// The address after the code region that an address lies in; the address itself if it lies in none.
#[tactic(auto, unfolding(crate::specs::Ends::run_end))]
pub fn code_end(a: u64) -> u64
    ensures end { result ≡ run_end (λ r. r.execute) a }
{
    if within(0x0100_0000, 0x1100_0000, a) {
        return 0x1100_0000;
    }
    if within(0x1200_0000, 0x1300_0000, a) {
        return 0x1300_0000;
    }
    a
}

/// The address after the region that an address lies in if that can be written; else the address itself.
#[tactic(auto, unfolding(crate::specs::Ends::run_end))]
pub fn data_end(a: u64) -> u64
    ensures end { result ≡ run_end (λ r. r.write) a }
{
    if within(0x2000_0000, 0x2100_0000, a) {
        return 0x2100_0000;
    }
    if within(0x3000_0000, 0x4000_0000, a) {
        return 0x4000_0000;
    }
    if within(0x5000_0000, 0x5400_0000, a) {
        return 0x5400_0000;
    }
    if within(0x6000_0000, 0x6080_0000, a) {
        return 0x6080_0000;
    }
    if within(0x7000_0000, 0x7000_1000, a) {
        return 0x7000_1000;
    }
    if within(0x7100_0000, 0x7200_0000, a) {
        return 0x7200_0000;
    }
    if within(0x4000_0000_0000, 0x4000_8000_0000, a) {
        return 0x4000_8000_0000;
    }
    if within(0x5000_0000_0000, 0x5001_0000_0000, a) {
        return 0x5001_0000_0000;
    }
    a
}

/// The address after the region that an address lies in; the address itself if it lies in none.
#[tactic(auto, unfolding(crate::specs::Ends::run_end))]
pub fn any_end(a: u64) -> u64
    ensures end { result ≡ run_end (λ r. true) a }
{
    if within(0x0100_0000, 0x1100_0000, a) {
        return 0x1100_0000;
    }
    if within(0x1200_0000, 0x1300_0000, a) {
        return 0x1300_0000;
    }
    data_end(a)
}

/// The first of `n` bytes from `a` on that no region has, where bytes go on from address 0 behind the last one.
pub fn first_unmapped(a: u64, n: u64) -> Option<u64>
    ensures first { result ≡ first_refused_around is_readable n a }
    ensures all { result ≡ None → (first_refused is_readable n a ≡ None) × (a + n < 2 ^ 64) }
{
    let end = any_end(a);
    if n > end - a { Some(end) } else { None }
}
