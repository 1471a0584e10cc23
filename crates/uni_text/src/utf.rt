// Whether bytes are UTF-8.
ghost use Rattle.std.specs.Prelude.{◌≡◌, MatchResult, IfErr, IsUtf8};
ghost use Rattle.std.specs.Str.{IsValidUpTo};
ghost use Rattle.std.specs.Str.Lossy.{utf8_valid_len};

/// Bytes that are not UTF-8: the longest part from their start on that is has `at` bytes.
#[derive(Clone, Copy, Debug, PartialEq, Eq)]
pub struct BadUtf {
    pub at: usize,
}

/// Refuses bytes that aren't UTF-8 (RFC 3629; pcre2unicode, "Validity of UTF strings"). Takes no memory.
pub fn check(bytes: &[u8]) -> Result<(), BadUtf>
    ensures exact { MatchResult result (λ _. IsUtf8 bytes.now) (λ _. ¬ (IsUtf8 bytes.now)) }
    ensures prefix { IfErr result (λ e. IsValidUpTo bytes.now e.at) }
    ensures place { IfErr result (λ e. e.at ≡ utf8_valid_len bytes.now) }
{
    match simdutf8::compat::from_utf8(bytes) {
        Ok(_) => Ok(()),
        Err(bad) => Err(BadUtf {
            at: bad.valid_up_to(),
        }),
    }
}
