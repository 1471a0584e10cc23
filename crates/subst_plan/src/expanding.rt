//! What a replacement writes for a match.
ghost use Rattle.std.specs.Prelude.{◌≡◌, [], ◌+◌, ◌<◌, ◌≤◌, ◌^◌, encode_utf8, IfOk, IfErr, OnOk, Ok, Err};
ghost use Rattle.std.specs.List.{All};
ghost use Rattle.std.specs.Option.{option_copied};
ghost use Rattle.subst_plan.specs.Lookups.{seen};
ghost use Rattle.subst_plan.specs.Plans.{IsIn, IsKeyIn};
ghost use Rattle.subst_plan.specs.Expansion.{after, set_text, group_text, group_written, default_of, choice_of};
ghost use Rattle.subst_plan.specs.Expansion.{left_out_after, writing, piece_written, piece_expanded, beginning};
ghost use Rattle.subst_plan.specs.Expansion.{expanded_from, rules_of, expansion, Expands, Refuses};

use crate::faults::ExpandError;
use crate::forcing::push_forced;
use crate::groups::{Groups, Lookup};
use crate::pieces::{Forcing, Key, Piece};
use crate::plan::Plan;
use std::alloc::Global;

/// How groups that took no part in the match count.
#[derive(Clone, Copy)]
pub struct UnsetRules {
    /// They are written as nothing.
    unset_empty: bool,
    /// Groups that there aren't count as unset.
    unknown_unset: bool,
}

/// How far an expansion has come.
#[derive(Clone, Copy)]
pub struct State {
    /// The case that is forced.
    forcing: Forcing,
    /// How many inner texts are open from the outermost one that is left out; 0 where none is.
    left_out: usize,
}

/// A group's text if it is set.
fn set_text(rules: UnsetRules, lookup: Lookup<'_>) -> Result<Option<&[u8]>, ExpandError>
    ensures found { IfOk result (λ found.
        set_text rules (seen lookup.entry) ≡ Ok (option_copied found)) }
    ensures refused { IfErr result (λ e. set_text rules (seen lookup.entry) ≡ Err e) }
{
    match lookup {
        Lookup::Text(text) => Ok(Some(text)),
        Lookup::Unset => Ok(None),
        Lookup::Unknown if rules.unknown_unset => Ok(None),
        Lookup::Unknown => Err(ExpandError::NoGroup),
    }
}

/// The text of a piece's group if it is set.
fn group_text<'a, G: Groups>(
    groups: &'a G,
    rules: UnsetRules,
    text: &[u8],
    key: Key,
) -> Result<Option<&'a [u8]>, ExpandError>
    requires { IsKeyIn text.now key }
    ensures found { IfOk result (λ found.
        group_text rules (G.means groups.now) text.now key ≡ Ok (option_copied found)) }
    ensures refused { IfErr result (λ e.
        group_text rules (G.means groups.now) text.now key ≡ Err e) }
{
    let lookup = match key {
        Key::Number(n) => groups.by_number(u32::from(n)),
        Key::Name { from, to } => groups.by_name(&text[from..to]),
        Key::NoGroup => Lookup::Unknown,
    };
    set_text(rules, lookup)
}

/// Adds bytes in the case that is forced.
fn push_text(out: &mut Vec<u8>, state: State, bytes: &[u8]) -> Result<State, ExpandError>
    ensures value { Expands out.old.items out.new.items (Ok (writing state bytes.now)) result }
    ensures open { IfOk result (λ after. after.left_out ≡ state.left_out) }
{
    let forcing = push_forced(out, state.forcing, bytes)?;
    Ok(State { forcing, ..state })
}

/// Adds a character in UTF-8.
fn push_char(out: &mut Vec<u8>, state: State, c: char) -> Result<State, ExpandError>
    ensures value { Expands out.old.items out.new.items
        (Ok (writing state (encode_utf8 c))) result }
    ensures open { IfOk result (λ after. after.left_out ≡ state.left_out) }
{
    let mut room = [0; 4];
    push_text(out, state, c.encode_utf8(&mut room).as_bytes())
}

/// Adds a group's text. An unset group has none.
fn push_group(
    out: &mut Vec<u8>,
    rules: UnsetRules,
    state: State,
    found: Option<&[u8]>,
) -> Result<State, ExpandError>
    ensures value { Expands out.old.items out.new.items
        (group_written rules state (option_copied found.entry)) result }
    ensures open { IfOk result (λ after. after.left_out ≡ state.left_out) }
{
    match found {
        Some(bytes) => push_text(out, state, bytes),
        None if rules.unset_empty => Ok(state),
        None => Err(ExpandError::Unset),
    }
}

/// Adds a group's text and leaves out its default, or comes to the default of an unset group.
fn push_default(out: &mut Vec<u8>, state: State, found: Option<&[u8]>) -> Result<State, ExpandError>
    ensures value { Expands out.old.items out.new.items
        (Ok (default_of state (option_copied found.entry))) result }
    ensures open { IfOk result (λ after. after.left_out ≤ state.left_out + 1) }
{
    let Some(bytes) = found else {
        return Ok(state);
    };
    let written = push_text(out, state, bytes)?;
    Ok(State {
        left_out: 1,
        ..written
    })
}

/// Comes to the first of two texts where the group is set, else leaves it out.
fn choose(state: State, found: Option<&[u8]>) -> State
    ensures value { choice_of state (option_copied found.entry) ≡ ([], result) }
    ensures open { result.left_out ≤ state.left_out + 1 }
{
    match found {
        Some(_) => state,
        None => State {
            left_out: 1,
            ..state
        },
    }
}

/// Adds what a piece writes that isn't left out.
fn push_piece<G: Groups>(
    out: &mut Vec<u8>,
    groups: &G,
    rules: UnsetRules,
    text: &[u8],
    state: State,
    piece: Piece,
) -> Result<State, ExpandError>
    requires { IsIn text.now piece }
    ensures value { Expands out.old.items out.new.items
        (piece_written rules (G.means groups.now) text.now state piece) result }
    ensures open { IfOk result (λ after. after.left_out ≤ state.left_out + 1) }
{
    match piece {
        Piece::Text { from, to } => push_text(out, state, &text[from..to]),
        Piece::Byte(b) => push_text(out, state, [b].as_slice()),
        Piece::Char(c) => push_char(out, state, c),
        Piece::Mark => push_text(out, state, groups.mark()),
        Piece::Group(key) => {
            let found = group_text(groups, rules, text, key)?;
            push_group(out, rules, state, found)
        }
        Piece::Default(key) => {
            let found = group_text(groups, rules, text, key)?;
            push_default(out, state, found)
        }
        Piece::Choice(key) => {
            let found = group_text(groups, rules, text, key)?;
            Ok(choose(state, found))
        }
        Piece::Force(forcing) => Ok(State { forcing, ..state }),
        Piece::Else => Ok(State {
            left_out: 1,
            ..state
        }),
        Piece::Close => Ok(state),
    }
}

/// Where a text is left out, how many are open after a piece of it.
fn left_out_after(piece: Piece, left_out: usize) -> usize
    requires { left_out + 1 < 2 ^ 64 }
    ensures value { result ≡ left_out_after piece left_out }
    ensures open { result ≤ left_out + 1 }
{
    match piece {
        Piece::Default(_) | Piece::Choice(_) => left_out + 1,
        Piece::Else if left_out == 1 => 0,
        Piece::Close => left_out.saturating_sub(1),
        _ => left_out,
    }
}

/// Adds what a piece writes, unless it is left out.
fn push_unless_left_out<G: Groups>(
    out: &mut Vec<u8>,
    groups: &G,
    rules: UnsetRules,
    text: &[u8],
    state: State,
    piece: Piece,
) -> Result<State, ExpandError>
    requires piece { IsIn text.now piece }
    requires room { state.left_out + 1 < 2 ^ 64 }
    ensures value { Expands out.old.items out.new.items
        (piece_expanded rules (G.means groups.now) text.now state piece) result }
    ensures open { IfOk result (λ after. after.left_out ≤ state.left_out + 1) }
{
    if state.left_out == 0 {
        push_piece(out, groups, rules, text, state, piece)
    } else {
        let left_out = left_out_after(piece, state.left_out);
        Ok(State { left_out, ..state })
    }
}

/// Adds what pieces write.
fn push_pieces<G: Groups>(
    out: &mut Vec<u8>,
    groups: &G,
    rules: UnsetRules,
    text: &[u8],
    pieces: &[Piece],
) -> Result<(), ExpandError>
    requires { All (IsIn text.now) pieces.now }
    ensures written { OnOk result (after out.old.items
        (expanded_from rules (G.means groups.now) text.now beginning pieces.now)
        ≡ Ok out.new.items) }
    ensures refused { IfErr result (Refuses
        (expanded_from rules (G.means groups.now) text.now beginning pieces.now)) }
{
    let mut state = State {
        forcing: Forcing::Off,
        left_out: 0,
    };
    for piece in pieces {
        state = push_unless_left_out(out, groups, rules, text, state, *piece)?;
    }
    Ok(())
}

/// Adds what a replacement writes for a match (pcre2api, "Creating a new string with
/// substitutions"). Refused is the first group in the replacement's order that there isn't, or that
/// is unset; `out` is then longer by what was written before it.
pub fn expand_into<G: Groups>(
    plan: &Plan,
    groups: &G,
    unset_empty: bool,
    unknown_unset: bool,
    out: &mut Vec<u8>,
) -> Result<(), ExpandError>
    ensures written { OnOk result (after out.old.items
        (expansion (rules_of unset_empty unknown_unset) (G.means groups.now) plan.now)
        ≡ Ok out.new.items) }
    ensures refused { IfErr result (Refuses
        (expansion (rules_of unset_empty unknown_unset) (G.means groups.now) plan.now)) }
{
    let rules = UnsetRules {
        unset_empty,
        unknown_unset,
    };
    push_pieces(out, groups, rules, plan.text(), plan.pieces())
}

/// What a replacement writes for a match.
pub fn expand<G: Groups>(
    alloc: Global,
    plan: &Plan,
    groups: &G,
    unset_empty: bool,
    unknown_unset: bool,
) -> Result<Vec<u8>, ExpandError>
    ensures written { IfOk result (λ out.
        expansion (rules_of unset_empty unknown_unset) (G.means groups.now) plan.now
        ≡ Ok out.items) }
    ensures refused { IfErr result (Refuses
        (expansion (rules_of unset_empty unknown_unset) (G.means groups.now) plan.now)) }
{
    let mut out = Vec::new(alloc);
    expand_into(plan, groups, unset_empty, unknown_unset, &mut out)?;
    Ok(out)
}
