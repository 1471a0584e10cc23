//! From one match of a subject to the next (pcre2api, "Creating a new string with substitutions").
ghost use Rattle.std.specs.Prelude.{◌≡◌, ◌<◌, length};
ghost use Rattle.uni_text.specs.Characters.{IsChecked, IsPlace};
ghost use Rattle.pat_tree.specs.Pattern.{pattern_of};
ghost use Rattle.pcre2_api.specs.Walks.{matching_at, is_crlf, place_behind};

use crate::code::Code;
use byte_lanes::{EndKind, newline_at};
use pat_tree::MatchOptions;
use uni_text::char_at;

/// The options of a search. Where an empty match was found, the same place is tried again for
/// another one.
pub fn matching_at(matching: &MatchOptions, again: bool) -> MatchOptions
    ensures { result ≡ matching_at matching.now again }
{
    if again {
        MatchOptions {
            anchored: true,
            notempty_atstart: true,
            ..*matching
        }
    } else {
        *matching
    }
}

/// Whether a CRLF that is a newline stands at a place.
fn is_crlf(code: &Code, subject: &[u8], at: usize) -> bool
    requires { at < length subject.now }
    ensures { result ≡ is_crlf (pattern_of code.now.tree) subject.now at }
{
    let options = code.options();
    let kind = options.newline.end_kind(options.utf);
    kind.has_crlf() && newline_at(subject, at, EndKind::CrLf) > 0
}

/// The place behind one before the subject's end: a character further, and behind a CRLF that is a newline.
pub fn place_behind(code: &Code, subject: &[u8], at: usize) -> usize
    requires inside { at < length subject.now }
    requires checked { IsChecked code.now.tree.options.utf subject.now }
    requires place { IsPlace code.now.tree.options.utf subject.now at }
    ensures { result ≡ place_behind (pattern_of code.now.tree) subject.now at }
{
    if is_crlf(code, subject, at) {
        at + 2
    } else {
        char_at(subject, at, code.options().utf).1
    }
}
