//! Sizes and offsets in bytes, which are below 2^64.

ghost use Rattle.std.specs.Prelude.{◌≡◌, ◌+◌, ◌*◌, IfOk};
ghost use Rattle.c_types.specs.Layouts.{next_multiple};

use mx_base::OutOfMemory;

/// So many bytes more.
pub fn behind(offset: u64, size: u64) -> Result<u64, OutOfMemory>
    ensures { IfOk result (λ end. end ≡ offset + size) }
{
    match offset.checked_add(size) {
        Some(end) => Ok(end),
        None => Err(OutOfMemory),
    }
}

/// The bytes of so many elements.
pub fn times(size: u64, count: u64) -> Result<u64, OutOfMemory>
    ensures { IfOk result (λ all. all ≡ size * count) }
{
    match size.checked_mul(count) {
        Some(all) => Ok(all),
        None => Err(OutOfMemory),
    }
}

/// The first multiple of an alignment that is not below a number of bytes.
pub fn round_up(n: u64, align: u64) -> Result<u64, OutOfMemory>
    ensures { IfOk result (λ m. m ≡ next_multiple n align) }
{
    if align == 0 {
        Ok(0)
    } else {
        let last = behind(n, align - 1)?;
        Ok(last / align * align)
    }
}
