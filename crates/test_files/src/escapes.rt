//! Bytes as texts: `\n`, `\r`, `\t`, `\\` and `\xHH` stand for a byte.

use std::alloc::{AllocError, Global};

// The byte of two hexadecimal digits that a text begins with.
fn byte_of(text: &str) -> Option<u8> {
    let digits = text.get(..2)?;
    if digits.bytes().all(|b| b.is_ascii_hexdigit()) {
        u8::from_str_radix(digits, 16).ok()
    } else {
        None
    }
}

// The byte that is meant after a backslash, and the text after it.
fn escape_of(piece: &str) -> Option<(u8, &str)> {
    let rest = piece.get(1..)?;
    match piece.as_bytes().first() {
        Some(b'n') => Some((b'\n', rest)),
        Some(b'r') => Some((b'\r', rest)),
        Some(b't') => Some((b'\t', rest)),
        Some(b'x') => Some((byte_of(rest)?, rest.get(2..)?)),
        _ => None,
    }
}

/// The bytes that a text with escapes stands for. None where a backslash begins no escape.
///
/// # Errors
///
/// Memory lacked.
pub fn unescaped(alloc: Global, text: &str) -> Result<Option<Vec<u8>>, AllocError> {
    let mut bytes = Vec::new(alloc);
    let mut plain = true;
    for piece in text.split('\\') {
        if plain {
            bytes.extend_from_slice(piece.as_bytes())?;
            plain = false;
        } else if piece.is_empty() {
            bytes.push(b'\\')?;
            plain = true;
        } else {
            let Some((byte, rest)) = escape_of(piece) else {
                return Ok(None);
            };
            bytes.push(byte)?;
            bytes.extend_from_slice(rest.as_bytes())?;
        }
    }
    Ok(if plain { None } else { Some(bytes) })
}

/// Bytes as a text with escapes, in which all that isn't printable ASCII is escaped.
///
/// # Errors
///
/// Memory lacked.
pub fn escaped(alloc: Global, bytes: &[u8]) -> Result<String, AllocError> {
    let mut text = String::new(alloc);
    for byte in bytes {
        match *byte {
            b'\n' => text.push_str("\\n")?,
            b'\r' => text.push_str("\\r")?,
            b'\t' => text.push_str("\\t")?,
            b'\\' => text.push_str("\\\\")?,
            b' '..=b'~' => text.push(char::from(*byte))?,
            _ => text.push_str(format!(in alloc; "\\x{byte:02x}")?.as_str())?,
        }
    }
    Ok(text)
}

#[cfg(test)]
mod tests {
    use super::{escaped, unescaped};
    use std::test::Fail;

    const ROWS: [(&'static str, Option<&'static [u8]>); 8] = [
        ("", Some(b"")),
        ("a b", Some(b"a b")),
        ("\\n\\r\\t\\\\\\x00\\xfF!", Some(b"\n\r\t\\\0\xff!")),
        ("\\\\n", Some(b"\\n")),
        ("a\\", None),
        ("\\q", None),
        ("\\x4", None),
        ("\\x+4", None),
    ];

    #[test]
    fn escapes_stand_for_bytes(rt: HostRuntime) -> Result<(), Fail> {
        for (text, bytes) in ROWS {
            let found = unescaped(rt.alloc(), text)?;
            assert_eq!(rt; found.as_deref(), bytes, "{text}");
        }
        Ok(())
    }

    #[test]
    fn bytes_are_told_by_escapes(rt: HostRuntime) -> Result<(), Fail> {
        let text = escaped(rt.alloc(), b"a ~\n\r\t\\\0\x7f\xff")?;
        assert_eq!(rt; text.as_str(), "a ~\\n\\r\\t\\\\\\x00\\x7f\\xff");
        Ok(())
    }
}
