//! Lists of modifiers.
ghost use Rattle.std.specs.Prelude.{◌≡◌, ◌==◌, ◌&&◌, ◌<◌, ◌≤◌, ◌∷◌, [], ◌+◌, true, false, drop, length, position};
ghost use Rattle.std.specs.Prelude.{IfOk, IfErr, OnOk, IfSome, Ok, Some, None};
ghost use Rattle.std.specs.List.{slice_split};
ghost use Rattle.std.specs.Option.{option_copied};
ghost use Rattle.test_modifiers.specs.Lists.{is_off, without_hyphen, name_of, value_of, begins_xx, letters_given};
ghost use Rattle.test_modifiers.specs.Lists.{modifier_given, item_given, is_comma, list_of};
ghost use Rattle.test_modifiers.specs.Refusals.{Refuses};
ghost use Rattle.test_modifiers.specs.Stopping.{Stops};

use crate::effects::{Stop, give_flag, give_plain, give_value};
use crate::kinds::{Flag, Modifier};
use crate::modifiers::Modifiers;
use crate::refusal::{ListError, Refusal};
use crate::spaces::Space;
use crate::table::{by_letter, by_name};
use pat_tree::Word;
use std::alloc::{AllocError, Global};

/// A text without its first n bytes.
pub fn after(text: &[u8], n: usize) -> &[u8]
    requires { n ≤ length text.now }
    ensures { result.now ≡ drop n text.now }
{
    &text[n..]
}

/// What is written in an item: whether `-` stands before the name, and what stands after `=`.
struct Item<'a> {
    off: bool,
    name: &'a [u8],
    value: Option<&'a [u8]>,
}

fn item_of(text: &[u8]) -> Item<'_>
    ensures off { result.off ≡ is_off text.now }
    ensures name { result.name.now ≡ name_of (without_hyphen text.now) }
    ensures value { option_copied result.value ≡ value_of (without_hyphen text.now) }
{
    let (off, body) = match text {
        [b'-', body @ ..] => (true, body),
        _ => (false, text),
    };
    let (name, value) = name_and_value(body);
    Item { off, name, value }
}

/// The first place where this byte stands.
fn first_place(text: &[u8], b: u8) -> Option<usize>
    ensures value { result ≡ position (λ c. c == b) text.now }
    ensures within { IfSome result (λ i. i < length text.now) }
{
    text.iter().position(|c| *c == b)
}

/// What stands before the first `=`, and what stands after it.
fn name_and_value(text: &[u8]) -> (&[u8], Option<&[u8]>)
    ensures name { result.0.now ≡ name_of text.now }
    ensures value { option_copied result.1 ≡ value_of text.now }
{
    match first_place(text, b'=') {
        Some(i) => (&text[..i], Some(after(text, i + 1))),
        None => (text, None),
    }
}

/// Whether letters begin with `xx` where that is one.
fn begins_pair(letters: &[u8], pattern: bool) -> bool
    ensures { result ≡ (pattern && begins_xx letters.now) }
{
    pattern && letters.starts_with(b"xx".as_slice())
}

/// Gives the modifiers of letters. Whether all of them are letters of modifiers.
fn give_letters(modifiers: &mut Modifiers, letters: &[u8], pattern: bool) -> bool
    ensures yes { result ≡ true
        → letters_given pattern letters.now modifiers.old ≡ Some modifiers.new }
    ensures no { result ≡ false → letters_given pattern letters.now modifiers.old ≡ None }
{
    let mut rest = letters;
    while !rest.is_empty() {
        if begins_pair(rest, pattern) {
            give_flag(modifiers, Flag::ExtendedMore, true);
            rest = after(rest, 2);
        } else {
            let Some(flag) = by_letter(rest[0], pattern) else {
                return false;
            };
            give_flag(modifiers, flag, true);
            rest = after(rest, 1);
        }
    }
    true
}

/// Gives a modifier what an item says of it.
fn give_modifier(
    alloc: Global,
    modifiers: &mut Modifiers,
    modifier: Modifier,
    off: bool,
    value: Option<&[u8]>,
) -> Result<(), Stop>
    ensures ok { OnOk result
        (modifier_given modifier off (option_copied value.entry) modifiers.old
        ≡ Some modifiers.new) }
    ensures stop { IfErr result
        (Stops (modifier_given modifier off (option_copied value.entry) modifiers.old)) }
{
    match value {
        None => give_plain(modifiers, modifier, !off),
        Some(_) if off => Err(Stop::BadValue),
        Some(value) => give_value(alloc, modifiers, modifier, value),
    }
}

fn word_of(alloc: Global, name: &[u8]) -> Result<Word, AllocError>
    ensures { IfOk result (λ word. word ≡ name.now) }
{
    Ok(Word::from_vec(Vec::from_slice(alloc, name)?))
}

/// Gives what an item says.
fn give_item(
    alloc: Global,
    modifiers: &mut Modifiers,
    text: &[u8],
    pattern: bool,
) -> Result<(), ListError>
    ensures ok { OnOk result (item_given pattern text.now modifiers.old ≡ Ok modifiers.new) }
    ensures fault { IfErr result (Refuses (item_given pattern text.now modifiers.old)) }
{
    let Item { off, name, value } = item_of(text);
    match by_name(name, pattern) {
        Some(modifier) => match give_modifier(alloc, modifiers, modifier, off, value) {
            Ok(()) => Ok(()),
            Err(Stop::BadValue) => Err(ListError::Refused(Refusal::BadModifierValue(word_of(
                alloc, name,
            )?))),
            Err(Stop::Memory) => Err(ListError::Memory),
        },
        None => {
            if !off && value.is_none() && give_letters(modifiers, name, pattern) {
                Ok(())
            } else {
                Err(ListError::Refused(Refusal::UnknownModifier(word_of(alloc, name)?)))
            }
        }
    }
}

/// What stands before the first comma, and what stands after it.
fn first_item(list: &[u8]) -> (&[u8], Option<&[u8]>)
    ensures last { result.1 ≡ None → slice_split is_comma list.now ≡ result.0.now ∷ [] }
    ensures more { IfSome result.1 (λ rest.
        slice_split is_comma list.now ≡ result.0.now ∷ slice_split is_comma rest.now) }
    ensures shorter { IfSome result.1 (λ rest. length rest.now < length list.now) }
{
    match first_place(list, b',') {
        Some(i) => (&list[..i], Some(after(list, i + 1))),
        None => (list, None),
    }
}

/// The modifiers of a list, as in `#pattern`, or in `#subject` where `pattern` is false (pcre2test, "PATTERN
/// MODIFIERS" and "SUBJECT MODIFIERS").
///
/// They are separated by commas; blanks at the begin, after a comma and at the end are passed over. A modifier that is
/// given again takes its last value.
///
/// # Errors
///
/// Where modifiers are at fault the first of them is told: a name that there isn't in such a list, or a value that the
/// modifier doesn't take. Memory may be wanting.
#[tactic(auto, unfolding(crate::specs::Lists::list_of))]
pub fn read_list(alloc: Global, list: &[u8], pattern: bool) -> Result<Modifiers, ListError>
    ensures modifiers { IfOk result (λ modifiers. list_of pattern list.now ≡ Ok modifiers) }
    ensures refused { IfErr result (Refuses (list_of pattern list.now)) }
{
    let mut modifiers = Modifiers::none();
    let mut rest = Space::Blank.without_end(list);
    loop {
        let (text, others) = first_item(rest);
        let item = Space::Blank.without_begin(text);
        give_item(alloc, &mut modifiers, item, pattern)?;
        match others {
            Some(others) => rest = others,
            None => return Ok(modifiers),
        }
    }
}
