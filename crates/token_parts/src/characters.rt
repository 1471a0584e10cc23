//! Characters that stand for themselves.
ghost use Rattle.std.specs.Prelude.{◌≡◌, ◌<◌, ◌≤◌, length};
ghost use Rattle.token_parts.specs.Characters.{bits, character, wide};

/// The character that begins with this byte at the place, and the place after it: without UTF the byte, and in UTF a
/// code point in the bytes of RFC 3629, section 3. There a byte that isn't followed by all that it says is taken alone.
pub fn character(text: &[u8], utf: bool, c: u8, at: usize) -> (u32, usize)
    requires { at < length text.now }
    ensures value { result ≡ character text.now utf c at }
    ensures later { at < result.1 }
    ensures within { result.1 ≤ length text.now }
{
    if utf {
        wide(text, c, at)
    } else {
        (u32::from(c), at + 1)
    }
}

/// The character whose bytes begin with this one in UTF. A byte that isn't followed by all that it says is taken alone.
#[tactic(auto, unfolding(crate::specs::Characters::wide))]
fn wide(text: &[u8], c: u8, at: usize) -> (u32, usize)
    requires { at < length text.now }
    ensures value { result ≡ wide text.now c at }
    ensures later { at < result.1 }
    ensures within { result.1 ≤ length text.now }
{
    let first = u32::from(c);
    let left = text.len() - at;
    if first < 0x80 {
        return (first, at + 1);
    }
    if first < 0xE0 {
        if left < 2 {
            return (first, at + 1);
        }
        return (first % 32 * 64 + bits(text, at + 1), at + 2);
    }
    if first < 0xF0 {
        if left < 3 {
            return (first, at + 1);
        }
        return (
            first % 16 * 4096 + bits(text, at + 1) * 64 + bits(text, at + 2),
            at + 3,
        );
    }
    if left < 4 {
        return (first, at + 1);
    }
    (
        first % 8 * 262_144
            + bits(text, at + 1) * 4096
            + bits(text, at + 2) * 64
            + bits(text, at + 3),
        at + 4,
    )
}

/// The six bits of a byte that goes on.
fn bits(text: &[u8], i: usize) -> u32
    requires { i < length text.now }
    ensures value { result ≡ bits text.now i }
    ensures few { result < 64 }
{
    u32::from(text[i]) % 64
}
