//! Quantifiers (pcre2pattern, "Repetition").
ghost use Rattle.std.specs.Prelude.{◌≡◌, ◌+◌, ◌<◌, ◌≤◌, length, IfSome, ℕ};
ghost use Rattle.token_parts.specs.Bytes.{run_end};
ghost use Rattle.token_parts.specs.Tell.{IsSound};
ghost use Rattle.pat_lex.specs.Quantifiers.{is_blank, count, braces, with_mode, counted};

use crate::faults::{COUNT_TOO_BIG, COUNTS_OUT_OF_ORDER};
use token_parts::{
    Fault, LexFlags, Lexed, QuantMode, Run, Token, blanks_end, is_extended, numeral, run_end,
    stands,
};

/// The greatest number of turns that can be written.
const GREATEST_COUNT: u64 = 65_535;

/// What a quantifier's braces count. A number may be too large, and the two out of order.
#[derive(Clone, Copy)]
pub(crate) struct Counts {
    /// The least number of turns.
    min: u64,
    /// The greatest number of turns, if there is one.
    max: Option<u64>,
    /// The place after the closing brace.
    after: usize,
}

/// Whether the byte may stand beside a number in braces.
fn is_blank(c: u8) -> bool
    ensures { result ≡ is_blank c }
{
    c == b' ' || c == b'\t'
}

/// Past the spaces and tabs from a place on.
#[tactic(auto, using(token_parts::proofs::Runs::run_end_yes, token_parts::proofs::Runs::run_end_no, token_parts::proofs::Runs::run_end_all))]
fn past_blanks(text: &[u8], from: usize) -> usize
    requires { from ≤ length text.now }
    ensures value { result ≡ run_end text.now is_blank from }
    ensures past { from ≤ result }
    ensures within { result ≤ length text.now }
{
    for i in from..text.len() {
        if !is_blank(text[i]) {
            return i;
        }
    }
    text.len()
}

/// The number that is written from a place on, or none, with spaces and tabs on both sides, and the
/// place after these.
#[tactic(auto, unfolding(crate::specs::Quantifiers::count))]
fn count(text: &[u8], i: usize) -> (Option<u64>, usize)
    requires { i ≤ length text.now }
    ensures value { result ≡ count text.now i }
    ensures past { i ≤ result.1 }
    ensures within { result.1 ≤ length text.now }
{
    let from = past_blanks(text, i);
    let to = run_end(text, Run::Digits(10), from);
    let number = if from < to {
        Some(numeral(text, 10, from, to))
    } else {
        None
    };
    (number, past_blanks(text, to))
}

/// What the braces that begin at the place count: `{n}`, `{n,}`, `{,m}` or `{n,m}`, with spaces and
/// tabs around the numbers. Any other brace is a character.
#[tactic(auto, unfolding(crate::specs::Quantifiers::braces))]
pub(crate) fn braces(text: &[u8], brace: usize) -> Option<Counts>
    requires { brace < length text.now }
    ensures value { result ≡ braces text.now brace }
    ensures past { IfSome result (λ counts. brace < counts.after) }
    ensures within { IfSome result (λ counts. counts.after ≤ length text.now) }
{
    let (low, comma) = count(text, brace + 1);
    if stands(text, b'}', comma) {
        let min = low?;
        return Some(Counts {
            min,
            max: low,
            after: comma + 1,
        });
    }
    if !stands(text, b',', comma) {
        return None;
    }
    let (high, end) = count(text, comma + 1);
    if stands(text, b'}', end) && (low.is_some() || high.is_some()) {
        Some(Counts {
            min: low.unwrap_or(0),
            max: high,
            after: end + 1,
        })
    } else {
        None
    }
}

/// A quantifier whose counts end at the place, with the `?` or `+` after it. EXTENDED ignores white space and `#`
/// comments before the `+`, not before the `?`.
#[tactic(auto, unfolding(crate::specs::Quantifiers::with_mode))]
pub(crate) fn with_mode(text: &[u8], flags: LexFlags, min: u16, max: Option<u16>, i: usize) -> Lexed
    requires within { i ≤ length text.now }
    requires order { IfSome max (λ most. min ≤ most) }
    ensures value { result ≡ with_mode text.now flags min max i }
    ensures sound { (at : ℕ) → at < i → IsSound text.now at result }
{
    let plus = if is_extended(flags) {
        blanks_end(text, flags, i)
    } else {
        i
    };
    let (mode, after) = if stands(text, b'?', i) {
        (QuantMode::Lazy, i + 1)
    } else if stands(text, b'+', plus) {
        (QuantMode::Possessive, plus + 1)
    } else {
        (QuantMode::Greedy, i)
    };
    Ok((Token::Quantifier { min, max, mode }, after))
}

/// A quantifier in braces that begin at the place and have these counts. Faults, both there: 105 a
/// count past 65,535, the least first; 104 a least count past the greatest.
#[tactic(auto, unfolding(crate::specs::Quantifiers::counted))]
pub(crate) fn counted(text: &[u8], flags: LexFlags, counts: Counts, at: usize) -> Lexed
    requires past { at < counts.after }
    requires within { counts.after ≤ length text.now }
    ensures value { result ≡ counted text.now flags counts at }
    ensures sound { IsSound text.now at result }
{
    if counts.min > GREATEST_COUNT {
        return Err(Fault::new(COUNT_TOO_BIG, at));
    }
    let min = counts.min as u16;
    let Some(most) = counts.max else {
        return with_mode(text, flags, min, None, counts.after);
    };
    if most > GREATEST_COUNT {
        Err(Fault::new(COUNT_TOO_BIG, at))
    } else if most < counts.min {
        Err(Fault::new(COUNTS_OUT_OF_ORDER, at))
    } else {
        with_mode(text, flags, min, Some(most as u16), counts.after)
    }
}
