// The simple folding of Unicode.
ghost use Rattle.std.specs.Prelude.{◌≡◌};
ghost use Rattle.uni_text.specs.Folding as spec;

/// The simple case folding of the character `c`, which is the folding in UTF (pcre2pattern, "Unicode character
/// properties"). A number that is no character folds to itself.
#[inline]
pub fn fold(c: u32) -> u32
    ensures { result ≡ spec.fold c }
{
    match char::from_u32(c) {
        Some(c) => ucd_case::simple_fold(c) as u32,
        None => c,
    }
}
