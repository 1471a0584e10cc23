//! What a dollar begins (pcre2api, "Creating a new string with substitutions").
ghost use Rattle.std.specs.Prelude.{◌≡◌, ◌+◌, ◌<◌, ◌≤◌, length, IsTrue, IfOk};
ghost use Rattle.token_parts.specs.Bytes.{begins};
ghost use Rattle.subst_plan.specs.Reading.{key_of, key_at, is_mark, bare, closed, after_key, braced, reference};
ghost use Rattle.subst_plan.specs.Plans.{IsKeyIn, IsIn, IsAfter};

use crate::faults::PlanError;
use crate::pieces::{Key, Piece};
use token_parts::{LONGEST_NAME, Run, numeral, run_end, stands, word_end};

/// The greatest number of a group.
const GREATEST_GROUP: u64 = 65_535;

fn key_of(number: u64) -> Key
    ensures { result ≡ key_of number }
{
    if number <= GREATEST_GROUP {
        Key::Number(number as u16)
    } else {
        Key::NoGroup
    }
}

/// A number, with all its digits, or a name, and the place after it.
#[tactic(auto, unfolding(crate::specs::Reading::key_at))]
fn key_at(text: &[u8], utf: bool, at: usize) -> Result<(Key, usize), PlanError>
    requires { at ≤ length text.now }
    ensures value { result ≡ key_at text.now utf at }
    ensures within { IfOk result (λ key. IsKeyIn text.now key.0) }
    ensures place { IfOk result (λ key. (at < key.1) × (key.1 ≤ length text.now)) }
{
    let digits = run_end(text, Run::Digits(10), at);
    let word = word_end(text, utf, at);
    if at < digits {
        Ok((key_of(numeral(text, 10, at, digits)), digits))
    } else if at < word && word - at <= LONGEST_NAME {
        Ok((Key::Name { from: at, to: word }, word))
    } else {
        Err(PlanError::BadReplacement)
    }
}

/// Whether `*MARK` begins at a place.
fn begins_mark(text: &[u8], at: usize) -> bool
    requires { at ≤ length text.now }
    ensures value { result ≡ begins text.now "*MARK" at }
    ensures within { IsTrue result → at + 5 ≤ length text.now }
{
    text[at..].starts_with(b"*MARK".as_slice())
}

/// Whether `*MARK` stands at a place, as a whole word.
#[tactic(auto, unfolding(crate::specs::Reading::is_mark))]
fn is_mark(text: &[u8], utf: bool, at: usize) -> bool
    requires { at ≤ length text.now }
    ensures value { result ≡ is_mark text.now utf at }
    ensures within { IsTrue result → at + 5 ≤ length text.now }
{
    begins_mark(text, at) && word_end(text, utf, at + 1) == at + 5
}

/// `$x`, from the place after the dollar.
#[tactic(auto, unfolding(crate::specs::Reading::bare))]
fn bare(text: &[u8], utf: bool, at: usize) -> Result<(Piece, usize), PlanError>
    requires { at ≤ length text.now }
    ensures value { result ≡ bare text.now utf at }
    ensures place { IfOk result (IsAfter text.now at) }
{
    if is_mark(text, utf, at) {
        return Ok((Piece::Mark, at + 5));
    }
    match key_at(text, utf, at) {
        Ok((key, to)) => Ok((Piece::Group(key), to)),
        Err(e) => Err(e),
    }
}

/// A piece whose `}` stands at a place.
fn closed(text: &[u8], piece: Piece, to: usize) -> Result<(Piece, usize), PlanError>
    requires { IsIn text.now piece }
    ensures value { result ≡ closed text.now piece to }
    ensures place { IfOk result (IsAfter text.now to) }
{
    if stands(text, b'}', to) {
        Ok((piece, to + 1))
    } else {
        Err(PlanError::MissingBrace)
    }
}

/// What follows the name or number in `${x`.
#[tactic(auto, unfolding(crate::specs::Reading::after_key))]
fn after_key(text: &[u8], extended: bool, key: Key, to: usize) -> Result<(Piece, usize), PlanError>
    requires key { IsKeyIn text.now key }
    requires within { to ≤ length text.now }
    ensures value { result ≡ after_key text.now extended key to }
    ensures place { IfOk result (IsAfter text.now to) }
{
    if !(extended && stands(text, b':', to)) {
        closed(text, Piece::Group(key), to)
    } else if stands(text, b'-', to + 1) {
        Ok((Piece::Default(key), to + 2))
    } else if stands(text, b'+', to + 1) {
        Ok((Piece::Choice(key), to + 2))
    } else {
        Err(PlanError::BadSyntax)
    }
}

/// `${x`, from the place after the brace.
#[tactic(auto, using(crate::proofs::After::later), unfolding(crate::specs::Reading::braced))]
fn braced(text: &[u8], extended: bool, utf: bool, at: usize) -> Result<(Piece, usize), PlanError>
    requires { at ≤ length text.now }
    ensures value { result ≡ braced text.now extended utf at }
    ensures place { IfOk result (IsAfter text.now at) }
{
    if is_mark(text, utf, at) {
        return closed(text, Piece::Mark, at + 5);
    }
    match key_at(text, utf, at) {
        Ok((key, to)) => after_key(text, extended, key, to),
        Err(e) => Err(e),
    }
}

/// A dollar at a place: what it begins, and the place after that.
#[tactic(auto, using(crate::proofs::After::later), unfolding(crate::specs::Reading::reference))]
pub fn reference(
    text: &[u8],
    extended: bool,
    utf: bool,
    at: usize,
) -> Result<(Piece, usize), PlanError>
    requires { at < length text.now }
    ensures value { result ≡ reference text.now extended utf at }
    ensures place { IfOk result (IsAfter text.now at) }
{
    if stands(text, b'$', at + 1) {
        let piece = Piece::Text {
            from: at + 1,
            to: at + 2,
        };
        Ok((piece, at + 2))
    } else if stands(text, b'{', at + 1) {
        braced(text, extended, utf, at + 2)
    } else {
        bare(text, utf, at + 1)
    }
}
