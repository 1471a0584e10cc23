//! What an image has of a pattern besides its nodes, taken from the front of its bytes.
ghost use Rattle.std.specs.Prelude.{◌≡◌, ◌<◌, [], length, IfOk, OnOk};
ghost use Rattle.pat_tree.specs.Names.{AreInOrder, name_cmp};
ghost use Rattle.pat_save.specs.Reading.{Gives, counted_at, comes_after};
ghost use Rattle.pat_save.specs.ReadTables.{bit_of, options_of, newline_of, bsr_of, options_at, set_of, property_at};
ghost use Rattle.pat_save.specs.ReadTables.{set_at, two_bools_at, is_character, range_at, set_part_at, part_at};
ghost use Rattle.pat_save.specs.ReadTables.{class_at, is_checked, verb_name_at, name_after, text_at};

use crate::errors::LoadError;
use crate::taking::{
    take_bool, take_byte, take_bytes, take_number, take_optional_number, take_short,
    take_short_text,
};
use pat_tree::{Bsr, ClassSpec, Draft, NameEntry, Newline, Options, Part, PartList, SetName};
use std::alloc::Global;
use std::cmp::Ordering;
use uni_text::Prop;

/// The most that the bools of options make as a number.
const ALL_FLAGS: u32 = 0x1F_FFFF;

/// The bit of a place, the least having place 0.
fn bit_of(number: u32, place: u32) -> bool
    requires { place < 32 }
    ensures { result ≡ bit_of number place }
{
    (number >> place) % 2 == 1
}

fn newline_of(place: u8) -> Result<Newline, LoadError>
    ensures { Gives (λ x. x) result (newline_of place) }
{
    match place {
        0 => Ok(Newline::Cr),
        1 => Ok(Newline::Lf),
        2 => Ok(Newline::CrLf),
        3 => Ok(Newline::AnyCrLf),
        4 => Ok(Newline::Any),
        5 => Ok(Newline::Nul),
        _ => Err(LoadError::Bad),
    }
}

fn bsr_of(place: u8) -> Result<Bsr, LoadError>
    ensures { Gives (λ x. x) result (bsr_of place) }
{
    match place {
        0 => Ok(Bsr::Unicode),
        1 => Ok(Bsr::AnyCrLf),
        _ => Err(LoadError::Bad),
    }
}

/// The options whose bools are these bits.
fn options_of(number: u32, newline: Newline, bsr: Bsr, match_limit: Option<u32>) -> Options
    ensures { result ≡ options_of number newline bsr match_limit }
{
    Options {
        anchored: bit_of(number, 0),
        endanchored: bit_of(number, 1),
        caseless: bit_of(number, 2),
        multiline: bit_of(number, 3),
        dotall: bit_of(number, 4),
        extended: bit_of(number, 5),
        extended_more: bit_of(number, 6),
        dollar_endonly: bit_of(number, 7),
        dupnames: bit_of(number, 8),
        firstline: bit_of(number, 9),
        literal: bit_of(number, 10),
        no_auto_capture: bit_of(number, 11),
        ungreedy: bit_of(number, 12),
        utf: bit_of(number, 13),
        ucp: bit_of(number, 14),
        allow_empty_class: bit_of(number, 15),
        match_unset_backref: bit_of(number, 16),
        no_start_optimize: bit_of(number, 17),
        auto_callout: bit_of(number, 18),
        notempty: bit_of(number, 19),
        notempty_atstart: bit_of(number, 20),
        newline,
        bsr,
        match_limit,
    }
}

/// The options of a pattern.
#[tactic(auto, unfolding(crate::specs::ReadTables::options_at))]
pub(crate) fn take_options(bytes: &[u8]) -> Result<(Options, &[u8]), LoadError>
    ensures { Gives (λ x. (x.0, x.1.now)) result (options_at bytes.now) }
{
    let (number, rest) = take_number(bytes)?;
    if number > ALL_FLAGS {
        return Err(LoadError::Bad);
    }
    let (newline, rest) = take_byte(rest)?;
    let newline = newline_of(newline)?;
    let (bsr, rest) = take_byte(rest)?;
    let bsr = bsr_of(bsr)?;
    let (match_limit, rest) = take_optional_number(rest)?;
    Ok((options_of(number, newline, bsr, match_limit), rest))
}

/// The set of a place in the list of sets, but for properties.
fn set_of(place: u8) -> Option<SetName>
    ensures { result ≡ set_of place }
{
    match place {
        0 => Some(SetName::Digit),
        1 => Some(SetName::Space),
        2 => Some(SetName::Word),
        3 => Some(SetName::Alpha),
        4 => Some(SetName::Alnum),
        5 => Some(SetName::Lower),
        6 => Some(SetName::Upper),
        7 => Some(SetName::Blank),
        8 => Some(SetName::Cntrl),
        9 => Some(SetName::Graph),
        10 => Some(SetName::Print),
        11 => Some(SetName::Punct),
        12 => Some(SetName::Ascii),
        13 => Some(SetName::Xdigit),
        14 => Some(SetName::H),
        15 => Some(SetName::V),
        _ => None,
    }
}

#[tactic(auto, unfolding(crate::specs::ReadTables::property_at))]
fn take_property(bytes: &[u8]) -> Result<(SetName, &[u8]), LoadError>
    ensures { Gives (λ x. (x.0, x.1.now)) result (property_at bytes.now) }
{
    let (number, rest) = take_short(bytes)?;
    if Prop::by_number(number).is_none() {
        return Err(LoadError::Bad);
    }
    Ok((SetName::Property(number), rest))
}

#[tactic(auto, unfolding(crate::specs::ReadTables::set_at))]
fn take_set(bytes: &[u8]) -> Result<(SetName, &[u8]), LoadError>
    ensures { Gives (λ x. (x.0, x.1.now)) result (set_at bytes.now) }
{
    let (place, rest) = take_byte(bytes)?;
    if place == 16 {
        return take_property(rest);
    }
    match set_of(place) {
        Some(set) => Ok((set, rest)),
        None => Err(LoadError::Bad),
    }
}

/// Two bools as bits of a byte.
#[tactic(auto, unfolding(crate::specs::ReadTables::two_bools_at))]
fn take_two_bools(bytes: &[u8]) -> Result<((bool, bool), &[u8]), LoadError>
    ensures { Gives (λ x. (x.0, x.1.now)) result (two_bools_at bytes.now) }
{
    let (number, rest) = take_byte(bytes)?;
    match number {
        0 => Ok(((false, false), rest)),
        1 => Ok(((true, false), rest)),
        2 => Ok(((false, true), rest)),
        3 => Ok(((true, true), rest)),
        _ => Err(LoadError::Bad),
    }
}

/// Whether a number is a byte, or in UTF a code point that is no surrogate.
pub(crate) fn is_character(c: u32, utf: bool) -> bool
    ensures { result ≡ is_character utf c }
{
    if utf {
        c < 0xD800 || (0xE000 <= c && c <= 0x10_FFFF)
    } else {
        c <= 255
    }
}

#[tactic(auto, unfolding(crate::specs::ReadTables::range_at))]
fn take_range(bytes: &[u8], utf: bool) -> Result<(Part, &[u8]), LoadError>
    ensures { Gives (λ x. (x.0, x.1.now)) result (range_at utf bytes.now) }
{
    let (from, rest) = take_number(bytes)?;
    let (to, rest) = take_number(rest)?;
    if is_character(from, utf) && is_character(to, utf) && from <= to {
        return Ok((Part::Range { from, to }, rest));
    }
    Err(LoadError::Bad)
}

#[tactic(auto, unfolding(crate::specs::ReadTables::set_part_at))]
fn take_set_part(bytes: &[u8]) -> Result<(Part, &[u8]), LoadError>
    ensures { Gives (λ x. (x.0, x.1.now)) result (set_part_at bytes.now) }
{
    let ((not, ucp), rest) = take_two_bools(bytes)?;
    let (set, rest) = take_set(rest)?;
    Ok((Part::Set { set, not, ucp }, rest))
}

#[tactic(auto, unfolding(crate::specs::ReadTables::part_at))]
fn take_part(bytes: &[u8], utf: bool) -> Result<(Part, &[u8]), LoadError>
    ensures { Gives (λ x. (x.0, x.1.now)) result (part_at utf bytes.now) }
{
    let (is_set, rest) = take_bool(bytes)?;
    if is_set {
        take_set_part(rest)
    } else {
        take_range(rest, utf)
    }
}

fn take_parts(alloc: Global, bytes: &[u8], utf: bool) -> Result<(PartList, &[u8]), LoadError>
    ensures { Gives (λ x. (x.0, x.1.now)) result (counted_at (λ _. part_at utf) bytes.now) }
{
    let (count, mut rest) = take_number(bytes)?;
    let mut parts = Vec::new(alloc);
    for _ in 0..count {
        let (part, after) = take_part(rest, utf)?;
        parts.push(part)?;
        rest = after;
    }
    Ok((PartList::from_vec(parts), rest))
}

#[tactic(auto, unfolding(crate::specs::ReadTables::class_at))]
fn take_class(alloc: Global, bytes: &[u8], utf: bool) -> Result<(ClassSpec, &[u8]), LoadError>
    ensures { Gives (λ x. (x.0, x.1.now)) result (class_at utf bytes.now) }
{
    let ((negated, caseless), rest) = take_two_bools(bytes)?;
    let (parts, rest) = take_parts(alloc, rest, utf)?;
    Ok((
        ClassSpec {
            negated,
            caseless,
            parts,
        },
        rest,
    ))
}

/// Adds the classes at the front of the bytes to a draft without any; answers
/// how many there are, and what follows.
pub(crate) fn take_classes<'a>(
    alloc: Global,
    draft: &mut Draft,
    bytes: &'a [u8],
    utf: bool,
) -> Result<(u32, &'a [u8]), LoadError>
    requires { draft.old.classes ≡ [] }
    ensures gives { Gives (λ x. (draft.new.classes, x.1.now)) result
        (counted_at (λ _. class_at utf) bytes.now) }
    ensures count { IfOk result (λ x. x.0 ≡ length draft.new.classes) }
    ensures others { OnOk result
        (draft.new ≡ record draft.old { classes = draft.new.classes }) }
{
    let (count, mut rest) = take_number(bytes)?;
    for _ in 0..count {
        let (class, after) = take_class(alloc, rest, utf)?;
        draft.add_class(class)?;
        rest = after;
    }
    Ok((count, rest))
}

/// Whether a text is UTF-8, where it must be.
pub(crate) fn is_checked(text: &[u8], utf: bool) -> bool
    ensures { result ≡ is_checked utf text.now }
{
    !utf || uni_text::check(text).is_ok()
}

#[tactic(auto, unfolding(crate::specs::ReadTables::verb_name_at))]
fn take_verb_name(bytes: &[u8], utf: bool) -> Result<(&[u8], &[u8]), LoadError>
    ensures { Gives (λ x. (x.0.now, x.1.now)) result (verb_name_at utf bytes.now) }
{
    let (name, rest) = take_short_text(bytes, 255)?;
    if !is_checked(name, utf) {
        return Err(LoadError::Bad);
    }
    Ok((name, rest))
}

/// Adds the names of verbs at the front of the bytes to a draft without any; answers
/// how many there are, and what follows.
pub(crate) fn take_verb_names<'a>(
    draft: &mut Draft,
    bytes: &'a [u8],
    utf: bool,
) -> Result<(u32, &'a [u8]), LoadError>
    requires { draft.old.verb_names ≡ [] }
    ensures gives { Gives (λ x. (draft.new.verb_names, x.1.now)) result
        (counted_at (λ _. verb_name_at utf) bytes.now) }
    ensures count { IfOk result (λ x. x.0 ≡ length draft.new.verb_names) }
    ensures others { OnOk result
        (draft.new ≡ record draft.old { verb_names = draft.new.verb_names }) }
{
    let (count, mut rest) = take_number(bytes)?;
    for _ in 0..count {
        let (name, after) = take_verb_name(rest, utf)?;
        draft.add_verb_name(name)?;
        rest = after;
    }
    Ok((count, rest))
}

/// Whether a pair stands behind all of these, which are in order.
fn is_after(entries: &[NameEntry], name: &[u8], group: u16) -> bool
    requires { AreInOrder entries.now }
    ensures { result
        ≡ comes_after name_cmp entries.now (record { name = name.now; group = group }) }
{
    match entries.last() {
        Some(last) => last.name.bytes().cmp(name).then(last.group.cmp(&group)) == Ordering::Less,
        None => true,
    }
}

/// A name and its group.
type Name<'a> = (&'a [u8], u16);

/// A name behind these, which are in order.
#[tactic(auto, unfolding(crate::specs::ReadTables::name_after, crate::specs::ReadTables::name_at))]
fn take_name<'a>(entries: &[NameEntry], bytes: &'a [u8]) -> Result<(Name<'a>, &'a [u8]), LoadError>
    requires { AreInOrder entries.now }
    ensures { Gives (λ x. (record { name = x.0.0.now; group = x.0.1 }, x.1.now)) result
        (name_after entries.now bytes.now) }
{
    let (group, rest) = take_number(bytes)?;
    if group > 65535 {
        return Err(LoadError::Bad);
    }
    let group = group as u16;
    let (name, rest) = take_short_text(rest, 128)?;
    if !is_after(entries, name, group) {
        return Err(LoadError::Bad);
    }
    Ok(((name, group), rest))
}

/// Adds the names of groups at the front of the bytes to a draft without any; answers what follows.
pub(crate) fn take_names<'a>(draft: &mut Draft, bytes: &'a [u8]) -> Result<&'a [u8], LoadError>
    requires { draft.old.names ≡ [] }
    ensures gives { Gives (λ x. (draft.new.names, x.now)) result (counted_at name_after bytes.now) }
    ensures others { OnOk result (draft.new ≡ record draft.old { names = draft.new.names }) }
{
    let (count, mut rest) = take_number(bytes)?;
    for _ in 0..count {
        let ((name, group), after) = take_name(draft.names(), rest)?;
        draft.add_name(name, group)?;
        rest = after;
    }
    Ok(rest)
}

/// A text of at most 65,536 bytes behind its length, in UTF a text of UTF-8.
#[tactic(auto, unfolding(crate::specs::ReadTables::text_at))]
pub(crate) fn take_text(bytes: &[u8], utf: bool) -> Result<(&[u8], &[u8]), LoadError>
    ensures { Gives (λ x. (x.0.now, x.1.now)) result (text_at utf bytes.now) }
{
    let (length, rest) = take_number(bytes)?;
    if length > 65536 {
        return Err(LoadError::Bad);
    }
    let (text, rest) = take_bytes(rest, length as usize)?;
    if !is_checked(text, utf) {
        return Err(LoadError::Bad);
    }
    Ok((text, rest))
}
