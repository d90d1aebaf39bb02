//! The integer types of C, and the words of their numbers.
ghost use Rattle.std.specs.Prelude.{◌≡◌, ℕ, ◌<◌, ◌≤◌, ◌*◌, ◌%◌, pos};
ghost use Rattle.mx_base.specs.Numbers.{modulus, is_signed, IsNumberOf, residue, as_signed, wrapped, word_of, extended};

/// The eight integer types of C: signed and unsigned, of 8, 16, 32 and 64 bits.
#[derive(Clone, Copy, Debug, PartialEq, Eq)]
pub enum IntKind {
    I8,
    U8,
    I16,
    U16,
    I32,
    U32,
    I64,
    U64,
}

/// The number of the type that differs from `n` by a multiple of the type's modulus, as C's conversions give it.
pub fn wrap(kind: IntKind, n: i128) -> i128
    ensures value { result ≡ wrapped kind n }
    ensures in_range { IsNumberOf kind result }
    ensures same { residue (modulus kind) result ≡ residue (modulus kind) n }
{
    let half = half_of(kind);
    let low = residue_of(2 * half, n);
    if has_sign(kind) {
        signed_of(half, low)
    } else {
        low as i128
    }
}

/// Half as many as the type has numbers.
fn half_of(kind: IntKind) -> u128
    ensures half { 2 * result ≡ modulus kind }
    ensures some { 0 < result }
    ensures fits { result ≤ 0x8000_0000_0000_0000 }
{
    match kind {
        IntKind::I8 | IntKind::U8 => 0x80,
        IntKind::I16 | IntKind::U16 => 0x8000,
        IntKind::I32 | IntKind::U32 => 0x8000_0000,
        IntKind::I64 | IntKind::U64 => 0x8000_0000_0000_0000,
    }
}

/// Whether the type has numbers below 0.
fn has_sign(kind: IntKind) -> bool
    ensures { result ≡ is_signed kind }
{
    match kind {
        IntKind::I8 | IntKind::I16 | IntKind::I32 | IntKind::I64 => true,
        IntKind::U8 | IntKind::U16 | IntKind::U32 | IntKind::U64 => false,
    }
}

/// The number below `modulus` that differs from `n` by a multiple of it.
#[tactic(auto, unfolding(crate::specs::Numbers::residue))]
fn residue_of(modulus: u128, n: i128) -> u128
    requires some { 0 < modulus }
    requires fits { modulus ≤ 0x1_0000_0000_0000_0000 }
    ensures value { result ≡ residue modulus n }
    ensures below { result < modulus }
{
    n.rem_euclid(modulus as i128) as u128
}

/// The number that `low` stands for in two's complement, of as many bits as `2 * half` has numbers.
#[tactic(auto, unfolding(crate::specs::Numbers::as_signed))]
fn signed_of(half: u128, low: u128) -> i128
    requires below { low < 2 * half }
    requires fits { half ≤ 0x8000_0000_0000_0000 }
    ensures { result ≡ as_signed (2 * half) low }
{
    if low < half {
        low as i128
    } else {
        low as i128 - (2 * half) as i128
    }
}

/// The 64-bit word of the number that the low bits of `v` stand for in the type.
#[tactic(auto, unfolding(crate::specs::Numbers::extended, crate::specs::Numbers::value_of, crate::specs::Numbers::number_of, crate::specs::Numbers::word_of, crate::specs::Numbers::residue, crate::specs::Numbers::as_signed))]
pub fn extend(kind: IntKind, v: u64) -> u64
    ensures { result ≡ extended kind v }
{
    match kind {
        IntKind::I8 => spread(0x80, v),
        IntKind::U8 => v % 0x100,
        IntKind::I16 => spread(0x8000, v),
        IntKind::U16 => v % 0x1_0000,
        IntKind::I32 => spread(0x8000_0000, v),
        IntKind::U32 => v % 0x1_0000_0000,
        IntKind::I64 => v,
        IntKind::U64 => v,
    }
}

#[tactic(auto, unfolding(crate::specs::Numbers::word_of, crate::specs::Numbers::as_signed, crate::specs::Numbers::residue))]
/// The low bits of `v`, with the bit of `half` copied into all above it.
fn spread(half: u64, v: u64) -> u64
    requires some { 0 < half }
    requires fits { half ≤ 0x8000_0000 }
    ensures { result ≡ word_of (as_signed (2 * half) (v % (2 * half))) }
{
    let low = v % (2 * half);
    if low < half {
        low
    } else {
        low + (u64::MAX - (2 * half - 1))
    }
}
