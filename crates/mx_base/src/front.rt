//! Bytes put over the front of a buffer.
ghost use Rattle.std.specs.Prelude.{◌≡◌, ℕ, length, min};
ghost use Rattle.mx_base.specs.Front.{laid_over};

/// Copies as many bytes as fit, and answers how many.
pub fn copy_front(from: &[u8], to: &mut [u8]) -> usize
    ensures most { result ≡ min (length from.now) (length to.old) }
    ensures copied { to.new ≡ laid_over from.now to.old }
{
    let count = from.len().min(to.len());
    to[..count].copy_from_slice(&from[..count]);
    count
}
