//! The letters that are joined in a word.
ghost use Rattle.std.specs.Prelude.{◌≡◌, ◌<◌, length, drop, slice_index, IfOk, IfErr, Ok, Err, Some};
ghost use Rattle.grep_args.specs.declared.plan.GrepPlan.{GrepPlan};
ghost use Rattle.grep_args.specs.Words.{Taken, letter, letters, starts_with_digit, Refuses};
ghost use Rattle.grep_args.specs.Steps.{followed};

use crate::effects::{show_group, take_group, take_plain, take_value};
use crate::options::{GrepOption, ValuedOption};
use crate::plan::GrepPlan;
use crate::table::by_letter;
use crate::usage::{ArgError, UsageKind};
use std::alloc::Global;

/// What the rest of a word is, after an option's letter.
pub enum Rest {
    /// It begins with the letter of the next option.
    Letters,
    /// It is used up. An option that has no value yet takes the next word.
    Used(Option<ValuedOption>),
}

/// A text after its first character, which is ASCII.
pub fn tail(text: &str) -> &str
    requires some { 0 < length text.now }
    requires ascii { slice_index text.now 0 < 128 }
    ensures { result.now ≡ drop 1 text.now }
{
    &text[1..]
}

fn starts_with_digit(text: &str) -> bool
    ensures { result ≡ starts_with_digit text.now }
{
    match text.as_bytes() {
        [] => false,
        [b, ..] => b.is_ascii_digit(),
    }
}

/// An option by its letter, with the rest of the word.
fn letter(
    alloc: Global,
    plan: &mut GrepPlan,
    word: usize,
    option: GrepOption,
    rest: &str,
) -> Result<Rest, ArgError>
    ensures ok { IfOk result (λ step. (others : GrepPlan → Taken)
        → letter word rest.now others (Some option) plan.old ≡ followed step others plan.new) }
    ensures fault { IfErr result (λ error. (others : GrepPlan → Taken)
        → Refuses (letter word rest.now others (Some option) plan.old) error) }
{
    match option {
        GrepOption::Plain(option) => {
            take_plain(plan, option).map_err(|kind| kind.at(word))?;
            Ok(Rest::Letters)
        }
        GrepOption::OnlyMatching if starts_with_digit(rest) => {
            take_group(plan, rest.as_bytes()).map_err(|stop| stop.at(word))?;
            Ok(Rest::Used(None))
        }
        GrepOption::OnlyMatching => {
            show_group(plan, 0).map_err(|stop| stop.at(word))?;
            Ok(Rest::Letters)
        }
        GrepOption::Valued(option) if rest.is_empty() => Ok(Rest::Used(Some(option))),
        GrepOption::Valued(option) => {
            take_value(alloc, plan, option, rest).map_err(|stop| stop.at(word))?;
            Ok(Rest::Used(None))
        }
    }
}

/// The options whose letters are joined after `-`. Answers the last where its value is the next word.
pub fn letters(
    alloc: Global,
    plan: &mut GrepPlan,
    word: usize,
    text: &str,
) -> Result<Option<ValuedOption>, ArgError>
    ensures ok { IfOk result (λ awaited. letters word text.now plan.old ≡ Ok (plan.new, awaited)) }
    ensures fault { IfErr result (Refuses (letters word text.now plan.old)) }
{
    let mut rest = text;
    while let Some(first) = rest.as_bytes().first() {
        let Some(option) = by_letter(*first) else {
            return Err(UsageKind::UnknownOption.at(word));
        };
        rest = tail(rest);
        match letter(alloc, plan, word, option, rest) {
            Ok(Rest::Letters) => {}
            Ok(Rest::Used(awaited)) => return Ok(awaited),
            Err(error) => return Err(error),
        }
    }
    Ok(None)
}
