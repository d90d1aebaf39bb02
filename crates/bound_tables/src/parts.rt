//! The 24 bytes of a table entry that are read and written.
ghost use Rattle.std.specs.Prelude.{◌≡◌, ◌+◌, ◌≤◌, ◌++◌, slice_range};
ghost use Rattle.std.specs.Int.{w64, from_le_bytes, to_le_bytes};

/// The number in the 8 bytes from a place on.
#[inline(always)]
pub fn word_at(bytes: &[u8; 24], from: usize) -> u64
    requires { from + 8 ≤ 24 }
    ensures { result ≡ from_le_bytes w64 (slice_range bytes.now from (from + 8)) }
{
    let mut word = [0u8; 8];
    word.copy_from_slice(&bytes[from..from + 8]);
    u64::from_le_bytes(word)
}

/// The bytes of three numbers, one behind the other.
#[inline(always)]
pub fn three_words(first: u64, second: u64, third: u64) -> [u8; 24]
    ensures { result ≡ to_le_bytes w64 first ++ (to_le_bytes w64 second ++ to_le_bytes w64 third) }
{
    let mut bytes = [0u8; 24];
    bytes[..8].copy_from_slice(&first.to_le_bytes());
    bytes[8..16].copy_from_slice(&second.to_le_bytes());
    bytes[16..].copy_from_slice(&third.to_le_bytes());
    bytes
}
