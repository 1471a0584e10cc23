// Word characters.
ghost use Rattle.std.specs.Prelude.{◌≡◌};
ghost use Rattle.uni_text.specs.Sets.{word};

use crate::properties::{Prop, has_prop};

/// Whether `c` is a word character, as `\w` and `\b` take it: an ASCII letter, a digit or the underscore, and with UCP
/// a letter, a number, a nonspacing mark or a connector of Unicode (pcre2pattern, "Generic character types").
#[inline]
pub fn is_word(c: u32, ucp: bool) -> bool
    ensures { result ≡ word ucp c }
{
    if ucp {
        has_prop(Prop::Xwd, c)
    } else {
        matches!(c, 0x30..=0x39 | 0x41..=0x5A | 0x5F | 0x61..=0x7A)
    }
}
