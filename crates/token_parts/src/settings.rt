//! Option settings inside a pattern (pcre2pattern, "Internal option setting").
ghost use Rattle.std.specs.Prelude.{◌≡◌, ◌+◌, ◌<◌, ◌≤◌, ◌==◌, length};
ghost use Rattle.std.specs.List.{list_any};
ghost use Rattle.token_parts.specs.Tell.{IsSound};
ghost use Rattle.token_parts.specs.Settings.{has_xx, set_by, unset_by, setting_closed, setting};

use crate::bytes::{Run, run_end, stands};
use crate::fault::{Fault, UNCLOSED_GROUP, UNKNOWN_GROUP};
use crate::token::{Lexed, OptionMask, Token};

/// Whether a letter stands among these.
fn has(letters: &[u8], letter: u8) -> bool
    ensures { result ≡ list_any (λ c. c == letter) letters.now }
{
    letters.contains(&letter)
}

/// Whether two `x` stand side by side.
#[tactic(auto, using(crate::proofs::Letters::xx_more, crate::proofs::Letters::xx_all))]
fn has_xx(letters: &[u8]) -> bool
    ensures { result ≡ has_xx letters.now }
{
    let mut i = 0;
    while i + 1 < letters.len() {
        if letters[i] == b'x' && letters[i + 1] == b'x' {
            return true;
        }
        i += 1;
    }
    false
}

/// The options that letters set.
#[tactic(auto, unfolding(crate::specs::Settings::set_by))]
fn set_by(letters: &[u8]) -> OptionMask
    ensures { result ≡ set_by letters.now }
{
    OptionMask {
        i: has(letters, b'i'),
        m: has(letters, b'm'),
        s: has(letters, b's'),
        x: has(letters, b'x'),
        xx: has_xx(letters),
        n: has(letters, b'n'),
        j: has(letters, b'J'),
        u: has(letters, b'U'),
    }
}

/// The options that letters unset, after those that are set.
#[tactic(auto, unfolding(crate::specs::Settings::set_by, crate::specs::Settings::unset_by))]
fn unset_by(on: OptionMask, letters: &[u8]) -> OptionMask
    ensures { result ≡ unset_by on letters.now }
{
    let set = set_by(letters);
    OptionMask {
        xx: set.x || (on.x && !on.xx),
        ..set
    }
}

/// The letters that are set and those that are unset, with what closes them at a place.
#[tactic(auto, unfolding(crate::specs::Settings::setting_closed))]
fn setting_closed(text: &[u8], at: usize, reset: bool, set: &[u8], unset: &[u8], i: usize) -> Lexed
    requires order { at ≤ i }
    requires within { i ≤ length text.now }
    ensures value { result ≡ setting_closed text.now at reset set.now unset.now i }
    ensures sound { IsSound text.now at result }
{
    let on = set_by(set);
    let off = unset_by(on, unset);
    let closes = stands(text, b')', i);
    if closes || stands(text, b':', i) {
        let opens = !closes;
        let token = Token::OptionSet {
            reset,
            on,
            off,
            opens,
        };
        Ok((token, i + 1))
    } else if i == text.len() {
        Err(Fault::new(UNCLOSED_GROUP, text.len()))
    } else {
        Err(Fault::new(UNKNOWN_GROUP, at))
    }
}

/// `(?`: an option setting, also with a caret, after which no hyphen may follow. Faults: 114 at the pattern's end, 111
/// where neither `)` nor `:` closes it.
#[tactic(auto, unfolding(crate::specs::Settings::setting))]
pub fn setting(text: &[u8], at: usize) -> Lexed
    requires { at + 2 ≤ length text.now }
    ensures value { result ≡ setting text.now at }
    ensures sound { IsSound text.now at result }
{
    if stands(text, b'^', at + 2) {
        let to = run_end(text, Run::Options, at + 3);
        return setting_closed(text, at, true, &text[at + 3..to], &[], to);
    }
    let to = run_end(text, Run::Options, at + 2);
    let set = &text[at + 2..to];
    if stands(text, b'-', to) {
        let end = run_end(text, Run::Options, to + 1);
        setting_closed(text, at, false, set, &text[to + 1..end], end)
    } else {
        setting_closed(text, at, false, set, &[], to)
    }
}
