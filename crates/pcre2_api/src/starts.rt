//! Where a search can begin (pcre2api, "Matching a pattern: the traditional function").
ghost use Rattle.std.specs.Prelude.{◌≡◌, ◌≤◌, length, slice_index, None, Some, OnOk, IfErr};
ghost use Rattle.std.specs.Str.{is_utf8};
ghost use Rattle.match_drive.specs.frame_board.Standing as standing;
ghost use Rattle.uni_text.specs.Characters.{IsChecked};
ghost use Rattle.pcre2_api.specs.Starts.{start_fault};

use pcre2_errors::MatchError;
use uni_text::check;

/// Whether bytes are UTF-8 (RFC 3629).
pub fn is_text(bytes: &[u8]) -> bool
    ensures { result ≡ is_utf8 bytes.now }
{
    match check(bytes) {
        Ok(()) => true,
        Err(_) => false,
    }
}

/// Whether a byte stands inside a character of UTF-8 (RFC 3629, section 3).
fn is_inside(byte: u8) -> bool
    ensures { result ≡ standing.is_inside byte }
{
    byte >= 128 && byte < 192
}

/// Whether a place of a text stands inside a character.
fn stands_inside(text: &[u8], at: usize) -> bool
    requires { at ≤ length text.now }
    ensures { result ≡ standing.is_inside (slice_index text.now at) }
{
    at < text.len() && is_inside(text[at])
}

/// Refuses a start inside a character, in a subject that is checked.
fn test_character(utf: bool, subject: &[u8], start: usize) -> Result<(), MatchError>
    requires within { start ≤ length subject.now }
    requires checked { IsChecked utf subject.now }
    ensures ok { OnOk result (start_fault utf subject.now start ≡ None) }
    ensures refused { IfErr result (λ e. start_fault utf subject.now start ≡ Some e) }
{
    if utf && stands_inside(subject, start) {
        return Err(MatchError::BadUtfOffset);
    }
    Ok(())
}

/// Refuses a start that isn't a place of a subject that is checked.
pub(crate) fn test_place(utf: bool, subject: &[u8], start: usize) -> Result<(), MatchError>
    requires { IsChecked utf subject.now }
    ensures ok { OnOk result (start_fault utf subject.now start ≡ None) }
    ensures refused { IfErr result (λ e. start_fault utf subject.now start ≡ Some e) }
{
    if start > subject.len() {
        return Err(MatchError::BadOffset);
    }
    test_character(utf, subject, start)
}

/// Refuses a subject or a start where a search can't begin.
pub(crate) fn test_start(utf: bool, subject: &[u8], start: usize) -> Result<(), MatchError>
    ensures ok { OnOk result (start_fault utf subject.now start ≡ None) }
    ensures checked { OnOk result (IsChecked utf subject.now) }
    ensures refused { IfErr result (λ e. start_fault utf subject.now start ≡ Some e) }
{
    if subject.len() < start {
        return Err(MatchError::BadOffset);
    }
    if !utf {
        return Ok(());
    }
    match check(subject) {
        Ok(()) => test_character(utf, subject, start),
        Err(bad) => Err(MatchError::BadUtf { at: bad.at }),
    }
}
