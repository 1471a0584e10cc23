// The character at a place and the character before it.
ghost use Rattle.std.specs.Prelude.{◌≡◌, ◌-◌, ◌<◌, length, IsUtf8};
ghost use Rattle.std.specs.Str.Pattern.{StartsWithChar, EndsWithCharOfLen};
ghost use Rattle.std.specs.Char.{IsScalar};
ghost use Rattle.uni_text.specs.Characters as text;

/// The character that begins at `at`, a place in bytes, and the place after it.
///
/// Without UTF it is the byte there. In UTF it is a code point, in the bytes of RFC 3629, section 3; the bytes must
/// then be UTF-8, and a character must begin at `at` (pcre2unicode).
#[inline]
pub fn char_at(bytes: &[u8], at: usize, utf: bool) -> (u32, usize)
    requires below { at < length bytes.now }
    requires checked { text.IsChecked utf bytes.now }
    requires place { text.IsPlace utf bytes.now at }
    ensures value { result ≡ text.char_at utf bytes.now at }
    ensures span { text.IsCharSpan utf bytes.now result.0 at result.1 }
    ensures next { text.IsPlace utf bytes.now result.1 }
{
    if !utf {
        return (bytes[at] as u32, at + 1);
    }
    let (c, len) = first_char(&bytes[at..]);
    (c, at + len)
}

/// The character that ends at `at`, a place in bytes above 0, and the place where it begins: the mirror of [`char_at`].
#[inline]
pub fn char_before(bytes: &[u8], at: usize, utf: bool) -> (u32, usize)
    requires above { 0 < at }
    requires checked { text.IsChecked utf bytes.now }
    requires place { text.IsPlace utf bytes.now at }
    ensures value { result ≡ text.char_before utf bytes.now at }
    ensures span { text.IsCharSpan utf bytes.now result.0 result.1 at }
    ensures previous { text.IsPlace utf bytes.now result.1 }
{
    if !utf {
        return (bytes[at - 1] as u32, at - 1);
    }
    let start = at - last_len(&bytes[..at]);
    let (c, _) = first_char(&bytes[start..at]);
    (c, start)
}

/// The first character of a text, and how many bytes it takes.
#[inline]
fn first_char(text: &[u8]) -> (u32, usize)
    requires checked { IsUtf8 text.now }
    requires some { 0 < length text.now }
    ensures stands { StartsWithChar text.now result.0 result.1 }
    ensures scalar { IsScalar result.0 }
{
    let lead = text[0] as u32;
    if lead < 0x80 {
        return (lead, 1);
    }
    let second = text[1] as u32 % 64;
    if lead < 0xE0 {
        return (lead % 32 * 64 + second, 2);
    }
    let third = text[2] as u32 % 64;
    if lead < 0xF0 {
        return (lead % 16 * 4096 + second * 64 + third, 3);
    }
    let fourth = text[3] as u32 % 64;
    (lead % 8 * 262_144 + second * 4096 + third * 64 + fourth, 4)
}

/// How many bytes the last character of a text takes.
#[inline]
fn last_len(text: &[u8]) -> usize
    requires checked { IsUtf8 text.now }
    requires some { 0 < length text.now }
    ensures { EndsWithCharOfLen text.now result }
{
    let end = text.len();
    if text[end - 1] < 0x80 {
        return 1;
    }
    if text[end - 2] >= 0xC0 {
        return 2;
    }
    if text[end - 3] >= 0xC0 { 3 } else { 4 }
}
