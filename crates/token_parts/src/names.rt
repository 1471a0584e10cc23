//! Names of groups (pcre2pattern, "Named capture groups").
ghost use Rattle.std.specs.Prelude.{◌≡◌, ◌+◌, ◌<◌, ◌≤◌, true, length, IfOk, IfErr};
ghost use Rattle.uni_text.specs.Sets.{digit};
ghost use Rattle.token_parts.specs.Tell.{longest_name, IsTold};
ghost use Rattle.token_parts.specs.Names.{begins_digit, is_of_names, letter_end, name_end, word_end};

use crate::bytes::{Run, byte, is_digit, run_end, stands};
use crate::characters::character;
use crate::fault::{EMPTY_NAME, Fault, NAME_TOO_LONG, UNCLOSED_NAME};
use uni_text::{GeneralCategory, GeneralCategoryGroup, Prop, has_prop};

/// The greatest length of a group's name in bytes.
pub const LONGEST_NAME: usize = 128;

/// Whether it is a decimal digit of Unicode.
fn is_number(c: u32) -> bool
    ensures { result ≡ digit true c }
{
    has_prop(Prop::Category(GeneralCategory::DecimalNumber), c)
}

/// Whether names have the character in UTF: letters, decimal digits and the underscore.
fn is_of_names(c: u32) -> bool
    ensures { result ≡ is_of_names c }
{
    has_prop(Prop::Group(GeneralCategoryGroup::Letter), c) || is_number(c) || c == u32::from(b'_')
}

/// In UTF past the character that begins at the place if names have it; else the place itself.
#[tactic(auto, unfolding(crate::specs::Names::letter_end))]
fn letter_end(text: &[u8], i: usize) -> usize
    requires { i ≤ length text.now }
    ensures value { result ≡ letter_end text.now i }
    ensures past { i ≤ result }
    ensures within { result ≤ length text.now }
{
    let Some(first) = byte(text, i) else {
        return i;
    };
    let (c, after) = character(text, true, first, i);
    if is_of_names(c) { after } else { i }
}

/// In UTF where the letters, digits and underscores end that begin at the place.
#[tactic(auto, using(crate::proofs::Places::skip_here, crate::proofs::Places::skip_later, crate::proofs::Places::skip_all))]
fn letters_end(text: &[u8], from: usize) -> usize
    requires { from ≤ length text.now }
    ensures value { result ≡ word_end text.now true from }
    ensures past { from ≤ result }
    ensures within { result ≤ length text.now }
{
    let mut i = from;
    for _turn in from..text.len() {
        let next = letter_end(text, i);
        if next == i {
            return i;
        }
        i = next;
    }
    i
}

/// Where the letters, digits and underscores end that begin at the place: those of ASCII, in UTF those of Unicode's
/// categories L and Nd, and the underscore.
pub fn word_end(text: &[u8], utf: bool, from: usize) -> usize
    requires { from ≤ length text.now }
    ensures value { result ≡ word_end text.now utf from }
    ensures past { from ≤ result }
    ensures within { result ≤ length text.now }
{
    if utf {
        letters_end(text, from)
    } else {
        run_end(text, Run::Word, from)
    }
}

/// Whether a decimal digit begins at the place.
fn begins_digit(text: &[u8], utf: bool, i: usize) -> bool
    ensures { result ≡ begins_digit text.now utf i }
{
    if !utf {
        return is_digit(text, i);
    }
    match byte(text, i) {
        Some(first) => is_number(character(text, true, first, i).0),
        None => false,
    }
}

/// Where the name that begins at `from` ends: 1 to 128 bytes of letters, digits and underscores, in UTF those of
/// Unicode's categories L and Nd, with a character after it that closes it. Faults, told at `at`: 144 empty or a digit
/// first, 148 too long, 142 not closed.
#[tactic(auto, unfolding(crate::specs::Names::name_end))]
pub fn name_end(text: &[u8], utf: bool, at: usize, from: usize, close: u8) -> Result<usize, Fault>
    requires at { at ≤ length text.now }
    requires from { from ≤ length text.now }
    ensures value { result ≡ name_end text.now utf at from close }
    ensures found { IfOk result (λ to. (from < to) × (to ≤ from + longest_name) × (to < length text.now)) }
    ensures told { IfErr result (IsTold text.now) }
{
    let to = word_end(text, utf, from);
    if to == from || begins_digit(text, utf, from) {
        Err(Fault::new(EMPTY_NAME, at))
    } else if to - from > LONGEST_NAME {
        Err(Fault::new(NAME_TOO_LONG, at))
    } else if stands(text, close, to) {
        Ok(to)
    } else {
        Err(Fault::new(UNCLOSED_NAME, at))
    }
}
