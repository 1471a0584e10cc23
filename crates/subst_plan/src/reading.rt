//! The pieces of a replacement, one at a time.
ghost use Rattle.std.specs.Prelude.{◌≡◌, ◌+◌, ◌<◌, ◌≤◌, length, slice_index, OnOk, IfOk, IfErr};
ghost use Rattle.std.specs.List.{All};
ghost use Rattle.subst_plan.specs.Reading.{parts, closes, is_special, plain_end, piece_at};
ghost use Rattle.subst_plan.specs.Plans.{innermost, opened, nest_after, pieces_of, IsIn, IsAfter, Refuses};

use crate::escapes::escape;
use crate::faults::PlanError;
use crate::pieces::{Inner, Piece};
use crate::references::reference;
use std::alloc::Global;

/// The greatest number of inner texts one in the other.
const DEEPEST: usize = 20;

/// Whether a byte parts the open text from a second one.
fn parts(inner: Option<Inner>, c: u8) -> bool
    ensures { result ≡ parts inner c }
{
    matches!(inner, Some(Inner::First)) && c == b':'
}

/// Whether a byte closes the open text.
fn closes(inner: Option<Inner>, c: u8) -> bool
    ensures { result ≡ closes inner c }
{
    inner.is_some() && c == b'}'
}

/// Whether a byte doesn't stand for itself.
fn is_special(extended: bool, inner: Option<Inner>, c: u8) -> bool
    ensures { result ≡ is_special extended inner c }
{
    c == b'$' || (extended && c == b'\\') || parts(inner, c) || closes(inner, c)
}

/// The place of the next byte that doesn't stand for itself, or the end.
#[tactic(auto, using(crate::proofs::Runs::plain_yes, crate::proofs::Runs::plain_no, crate::proofs::Runs::plain_all))]
fn plain_end(text: &[u8], extended: bool, inner: Option<Inner>, from: usize) -> usize
    requires { from ≤ length text.now }
    ensures value { result ≡ plain_end text.now extended inner from }
    ensures order { from ≤ result }
    ensures within { result ≤ length text.now }
{
    for i in from..text.len() {
        if is_special(extended, inner, text[i]) {
            return i;
        }
    }
    text.len()
}

/// The piece at a place, in the inner text that is open, and the place after it.
#[tactic(auto, unfolding(crate::specs::Reading::piece_at))]
fn piece_at(
    text: &[u8],
    extended: bool,
    utf: bool,
    inner: Option<Inner>,
    at: usize,
) -> Result<(Piece, usize), PlanError>
    requires { at < length text.now }
    ensures value { result ≡ piece_at text.now extended utf inner (slice_index text.now at) at }
    ensures place { IfOk result (IsAfter text.now at) }
{
    let c = text[at];
    if c == b'$' {
        reference(text, extended, utf, at)
    } else if extended && c == b'\\' {
        escape(text, utf, at)
    } else if parts(inner, c) {
        Ok((Piece::Else, at + 1))
    } else if closes(inner, c) {
        Ok((Piece::Close, at + 1))
    } else {
        let to = plain_end(text, extended, inner, at + 1);
        Ok((Piece::Text { from: at, to }, to))
    }
}

/// Opens one more inner text.
fn open_text(nest: &mut Vec<Inner>, text: Inner) -> Result<(), PlanError>
    ensures opened { OnOk result (opened text nest.old.items ≡ Ok nest.new.items) }
    ensures refused { IfErr result (Refuses (opened text nest.old.items)) }
{
    if nest.len() >= DEEPEST {
        return Err(PlanError::BadSyntax);
    }
    nest.push(text)?;
    Ok(())
}

/// Opens and closes the inner texts that a piece opens and closes.
fn nest_piece(nest: &mut Vec<Inner>, piece: Piece) -> Result<(), PlanError>
    ensures nested { OnOk result (nest_after piece nest.old.items ≡ Ok nest.new.items) }
    ensures refused { IfErr result (Refuses (nest_after piece nest.old.items)) }
{
    match piece {
        Piece::Default(_) => open_text(nest, Inner::Last),
        Piece::Choice(_) => open_text(nest, Inner::First),
        Piece::Else => {
            let _first = nest.pop();
            nest.push(Inner::Last)?;
            Ok(())
        }
        Piece::Close => {
            let _last = nest.pop();
            Ok(())
        }
        _ => Ok(()),
    }
}

/// The inner text that is open.
fn innermost(nest: &[Inner]) -> Option<Inner>
    ensures { result ≡ innermost nest.now }
{
    nest.last().copied()
}

/// The pieces of a replacement, or the first fault.
#[tactic(auto, unfolding(crate::specs::Plans::pieces_of))]
pub fn pieces_of(
    alloc: Global,
    text: &[u8],
    extended: bool,
    utf: bool,
) -> Result<Vec<Piece>, PlanError>
    ensures pieces { IfOk result (λ pieces. pieces_of extended utf text.now ≡ Ok pieces.items) }
    ensures within { IfOk result (λ pieces. All (IsIn text.now) pieces.items) }
    ensures refused { IfErr result (Refuses (pieces_of extended utf text.now)) }
{
    let mut pieces = Vec::new(alloc);
    let mut nest = Vec::new(alloc);
    let mut at = 0;
    while at < text.len() {
        let inner = innermost(nest.as_slice());
        let (piece, to) = piece_at(text, extended, utf, inner, at)?;
        nest_piece(&mut nest, piece)?;
        pieces.push(piece)?;
        at = to;
    }
    if nest.is_empty() {
        Ok(pieces)
    } else {
        Err(PlanError::MissingBrace)
    }
}
