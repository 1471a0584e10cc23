//! Bytes of patterns: `⟨HH⟩` is one by its two hexadecimal digits, since patterns are full of backslashes.

use std::alloc::{AllocError, Global};

// The byte of two hexadecimal digits and `⟩`, and the text after them.
fn byte_of(text: &str) -> Option<(u8, &str)> {
    let (digits, rest) = text.split_once('⟩')?;
    if digits.len() != 2 || !digits.bytes().all(|b| b.is_ascii_hexdigit()) {
        return None;
    }
    Some((u8::from_str_radix(digits, 16).ok()?, rest))
}

/// The pattern that a text stands for. None where `⟨` begins no byte.
///
/// # Errors
///
/// Memory lacked.
pub fn pattern_of(alloc: Global, text: &str) -> Result<Option<Vec<u8>>, AllocError> {
    let mut pattern = Vec::new(alloc);
    for (i, piece) in text.split('⟨').enumerate() {
        if i == 0 {
            pattern.extend_from_slice(piece.as_bytes())?;
        } else {
            let Some((byte, rest)) = byte_of(piece) else {
                return Ok(None);
            };
            pattern.push(byte)?;
            pattern.extend_from_slice(rest.as_bytes())?;
        }
    }
    Ok(Some(pattern))
}
