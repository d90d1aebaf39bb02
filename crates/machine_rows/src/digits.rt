//! Numbers and bytes in hexadecimal digits.

use std::alloc::{AllocError, Global};

/// A number of hexadecimal digits, with `-` before it in two's complement; 0 where it is none.
pub fn number(text: &str) -> u64 {
    match text.strip_prefix('-') {
        Some(digits) => u64::from_str_radix(digits, 16).unwrap_or(0).wrapping_neg(),
        None => u64::from_str_radix(text, 16).unwrap_or(0),
    }
}

/// Appends the bytes of pairs of digits.
pub fn append_digits(bytes: &mut Vec<u8>, digits: &str) -> Result<(), AllocError> {
    let mut high = None;
    for c in digits.chars() {
        let digit = u64::from(c.to_digit(16).unwrap_or(0));
        high = match high {
            None => Some(digit.wrapping_mul(16)),
            Some(first) => {
                bytes.push(digit.wrapping_add(first).to_le_bytes()[0])?;
                None
            }
        };
    }
    Ok(())
}

/// The bytes of pairs of digits.
pub fn bytes_of(alloc: Global, digits: &str) -> Result<Vec<u8>, AllocError> {
    let mut bytes = Vec::new(alloc);
    append_digits(&mut bytes, digits)?;
    Ok(bytes)
}
