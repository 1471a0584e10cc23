//! What each modifier does, with its value.
ghost use Rattle.std.specs.Prelude.{◌≡◌, IfErr, OnOk, Some, None};
ghost use Rattle.std.specs.List.{list_all};
ghost use Rattle.std.specs.Char.{is_ascii_digit};
ghost use Rattle.test_modifiers.specs.Modifiers.{flag_given, number_given};
ghost use Rattle.test_modifiers.specs.Values.{decimal, bsr_of, plain_given, value_given};
ghost use Rattle.test_modifiers.specs.Stopping.{Stops};

use crate::kinds::{Flag, Modifier, NumberModifier};
use crate::modifiers::Modifiers;
use byte_lanes::number;
use pat_tree::{Bsr, ByteList, Newline};
use std::alloc::{AllocError, Global};

/// Why a modifier can't do what it does.
#[derive(Clone, Copy, Debug, PartialEq, Eq)]
pub enum Stop {
    /// It doesn't take that value, or no value, or no `-`.
    BadValue,
    /// Want of memory.
    Memory,
}

impl From<AllocError> for Stop {
    ghost use Rattle.test_modifiers.specs.declared.effects.Stop.TheVariants as stop;

    ghost from_gives = { λ _ stopped. stopped ≡ stop.Memory };

    fn from(_e: AllocError) -> Stop {
        Stop::Memory
    }
}

/// Turns a modifier on or off.
pub fn give_flag(modifiers: &mut Modifiers, flag: Flag, on: bool)
    ensures { modifiers.new ≡ flag_given flag on modifiers.old }
{
    match flag {
        Flag::Anchored => modifiers.anchored = Some(on),
        Flag::EndAnchored => modifiers.endanchored = Some(on),
        Flag::Caseless => modifiers.caseless = Some(on),
        Flag::Multiline => modifiers.multiline = Some(on),
        Flag::DotAll => modifiers.dotall = Some(on),
        Flag::Extended => modifiers.extended = Some(on),
        Flag::ExtendedMore => modifiers.extended_more = Some(on),
        Flag::DollarEndOnly => modifiers.dollar_endonly = Some(on),
        Flag::DupNames => modifiers.dupnames = Some(on),
        Flag::FirstLine => modifiers.firstline = Some(on),
        Flag::Literal => modifiers.literal = Some(on),
        Flag::NoAutoCapture => modifiers.no_auto_capture = Some(on),
        Flag::Ungreedy => modifiers.ungreedy = Some(on),
        Flag::Utf => modifiers.utf = Some(on),
        Flag::Ucp => modifiers.ucp = Some(on),
        Flag::AllowEmptyClass => modifiers.allow_empty_class = Some(on),
        Flag::MatchUnsetBackref => modifiers.match_unset_backref = Some(on),
        Flag::NoStartOptimize => modifiers.no_start_optimize = Some(on),
        Flag::AutoCallout => modifiers.auto_callout = Some(on),
        Flag::Info => modifiers.info = Some(on),
        Flag::Mark => modifiers.mark = Some(on),
        Flag::Global => modifiers.global = Some(on),
        Flag::SubstituteExtended => modifiers.substitute_extended = Some(on),
        Flag::SubstituteLiteral => modifiers.substitute_literal = Some(on),
        Flag::SubstituteUnsetEmpty => modifiers.substitute_unset_empty = Some(on),
        Flag::SubstituteUnknownUnset => modifiers.substitute_unknown_unset = Some(on),
        Flag::SubstituteReplacementOnly => modifiers.substitute_replacement_only = Some(on),
        Flag::Dfa => modifiers.dfa = Some(on),
        Flag::DfaShortest => modifiers.dfa_shortest = Some(on),
        Flag::PartialSoft => modifiers.partial_soft = Some(on),
        Flag::PartialHard => modifiers.partial_hard = Some(on),
        Flag::NotBol => modifiers.notbol = Some(on),
        Flag::NotEol => modifiers.noteol = Some(on),
        Flag::NotEmpty => modifiers.notempty = Some(on),
        Flag::NotEmptyAtStart => modifiers.notempty_atstart = Some(on),
        Flag::CalloutNone => modifiers.callout_none = Some(on),
    }
}

/// Gives a modifier its number.
pub fn give_number(modifiers: &mut Modifiers, number: NumberModifier, n: u32)
    ensures { modifiers.new ≡ number_given number n modifiers.old }
{
    match number {
        NumberModifier::Offset => modifiers.offset = Some(n),
        NumberModifier::MatchLimit => modifiers.match_limit = Some(n),
        NumberModifier::FrameLimit => modifiers.frame_limit = Some(n),
        NumberModifier::CalloutFail => modifiers.callout_fail = Some(n),
        NumberModifier::CalloutError => modifiers.callout_error = Some(n),
    }
}

/// Whether all bytes are decimal digits.
fn are_digits(text: &[u8]) -> bool
    ensures { result ≡ list_all is_ascii_digit text.now }
{
    text.iter().all(|b| b.is_ascii_digit())
}

/// The number that decimal digits write, at most 4,294,967,295.
pub fn decimal(text: &[u8]) -> Option<u32>
    ensures { result ≡ decimal text.now }
{
    if text.is_empty() {
        return None;
    }
    if are_digits(text) {
        number(text, 10)
    } else {
        None
    }
}

/// What `\R` matches, by its word.
fn bsr_of(word: &[u8]) -> Option<Bsr>
    ensures { result ≡ bsr_of word.now }
{
    if word == b"unicode".as_slice() {
        Some(Bsr::Unicode)
    } else if word == b"anycrlf".as_slice() {
        Some(Bsr::AnyCrLf)
    } else {
        None
    }
}

/// Gives a modifier without a value, on or off.
pub fn give_plain(modifiers: &mut Modifiers, modifier: Modifier, on: bool) -> Result<(), Stop>
    ensures ok { OnOk result (plain_given modifier on modifiers.old ≡ Some modifiers.new) }
    ensures stop { IfErr result (Stops (plain_given modifier on modifiers.old)) }
{
    match modifier {
        Modifier::Flag(flag) => {
            give_flag(modifiers, flag, on);
            Ok(())
        }
        _ => Err(Stop::BadValue),
    }
}

/// Gives a modifier its value.
pub fn give_value(
    alloc: Global,
    modifiers: &mut Modifiers,
    modifier: Modifier,
    value: &[u8],
) -> Result<(), Stop>
    ensures ok { OnOk result (value_given modifier value.now modifiers.old ≡ Some modifiers.new) }
    ensures stop { IfErr result (Stops (value_given modifier value.now modifiers.old)) }
{
    match modifier {
        Modifier::Flag(_) => return Err(Stop::BadValue),
        Modifier::Number(number) => {
            let n = decimal(value).ok_or(Stop::BadValue)?;
            give_number(modifiers, number, n);
        }
        Modifier::Newline => {
            modifiers.newline = Some(Newline::by_name_in_any_case(value).ok_or(Stop::BadValue)?);
        }
        Modifier::Bsr => modifiers.bsr = Some(bsr_of(value).ok_or(Stop::BadValue)?),
        Modifier::Replace => {
            let text = ByteList::from_vec(Vec::from_slice(alloc, value)?);
            modifiers.replace = Some(text);
        }
    }
    Ok(())
}
