//! The words one after the other, up to the first that is no option.
ghost use Rattle.std.specs.Prelude.{◌≡◌, ◌≢◌, Option, MatchOption, ◌+◌, ◌<◌, [], ◌∷◌, List, ℕ, map, string_bytes};
ghost use Rattle.std.specs.Prelude.{IfOk, IfErr, Ok, Some, None};
ghost use Rattle.std.specs.List.{before_first};
ghost use Rattle.std.specs.Option.{option_copied};
ghost use Rattle.grep_args.specs.declared.options.ValuedOption.{ValuedOption};
ghost use Rattle.grep_args.specs.declared.plan.GrepPlan.{GrepPlan};
ghost use Rattle.grep_args.specs.Words.{Opted, is_equals, joined_value, long, long_option, option_in, options};
ghost use Rattle.grep_args.specs.Words.{word_of, Refuses};
ghost use Rattle.grep_args.specs.Steps.{word_seen, followed_by};

use crate::effects::{show_group, take_group, take_plain, take_value};
use crate::letters::letters;
use crate::options::{GrepOption, ValuedOption};
use crate::plan::GrepPlan;
use crate::table::by_name;
use crate::usage::{ArgError, UsageKind};
use std::alloc::Global;

/// A word in whose place an option may stand.
pub enum Word<'a> {
    /// It is `-` or doesn't begin with `-`.
    Operand,
    /// `--`, after which no option comes.
    Terminator,
    /// A long option, without `--`.
    Name(&'a str),
    /// One or more letters, without `-`.
    Joined(&'a str),
}

/// What stands after a hyphen at the front, if there is one.
fn without_hyphen(text: &str) -> Option<&str>
    ensures { MatchOption result ((rest : List ℕ) → text.now ≢ 45 ∷ rest)
        (λ rest. text.now ≡ 45 ∷ rest.now) }
{
    text.strip_prefix('-')
}

fn word_of(text: &str) -> Word<'_>
    ensures { word_seen result ≡ word_of text.now }
{
    let Some(joined) = without_hyphen(text) else {
        return Word::Operand;
    };
    if joined.is_empty() {
        return Word::Operand;
    }
    match without_hyphen(joined) {
        Some(name) if name.is_empty() => Word::Terminator,
        Some(name) => Word::Name(name),
        None => Word::Joined(joined),
    }
}

/// The name of a long option, and the value after `=` if there is one.
fn name_and_value(text: &str) -> (&str, Option<&str>)
    ensures name { result.0.now ≡ before_first is_equals text.now }
    ensures value { option_copied result.1 ≡ joined_value text.now }
{
    match text.split_once('=') {
        Some((name, value)) => (name, Some(value)),
        None => (text, None),
    }
}

/// A long option without a value after `=`.
fn long_alone(
    plan: &mut GrepPlan,
    word: usize,
    option: Option<GrepOption>,
) -> Result<Option<ValuedOption>, ArgError>
    ensures ok { IfOk result (λ awaited. long word option None plan.old ≡ Ok (plan.new, awaited)) }
    ensures fault { IfErr result (Refuses (long word option None plan.old)) }
{
    match option {
        None => Err(UsageKind::UnknownOption.at(word)),
        Some(GrepOption::Plain(option)) => {
            take_plain(plan, option).map_err(|kind| kind.at(word))?;
            Ok(None)
        }
        Some(GrepOption::OnlyMatching) => {
            show_group(plan, 0).map_err(|stop| stop.at(word))?;
            Ok(None)
        }
        Some(GrepOption::Valued(option)) => Ok(Some(option)),
    }
}

/// A long option with the value after `=`.
fn long_with(
    alloc: Global,
    plan: &mut GrepPlan,
    word: usize,
    option: Option<GrepOption>,
    value: &str,
) -> Result<Option<ValuedOption>, ArgError>
    ensures ok { IfOk result
        (λ awaited. long word option (Some value.now) plan.old ≡ Ok (plan.new, awaited)) }
    ensures fault { IfErr result (Refuses (long word option (Some value.now) plan.old)) }
{
    match option {
        None | Some(GrepOption::Plain(_)) => Err(UsageKind::UnknownOption.at(word)),
        Some(GrepOption::OnlyMatching) => {
            take_group(plan, value.as_bytes()).map_err(|stop| stop.at(word))?;
            Ok(None)
        }
        Some(GrepOption::Valued(option)) => {
            take_value(alloc, plan, option, value).map_err(|stop| stop.at(word))?;
            Ok(None)
        }
    }
}

/// A long option, without `--`. Answers it where its value is the next word.
fn long_option(
    alloc: Global,
    plan: &mut GrepPlan,
    word: usize,
    text: &str,
) -> Result<Option<ValuedOption>, ArgError>
    ensures ok { IfOk result
        (λ awaited. long_option word text.now plan.old ≡ Ok (plan.new, awaited)) }
    ensures fault { IfErr result (Refuses (long_option word text.now plan.old)) }
{
    let (name, value) = name_and_value(text);
    let option = by_name(name);
    match value {
        Some(value) => long_with(alloc, plan, word, option, value),
        None => long_alone(plan, word, option),
    }
}

/// What comes after a word.
enum Outcome {
    /// Perhaps another option. An option that has no value yet takes the next word.
    Goes(Option<ValuedOption>),
    /// No option. So many words stand before the others.
    Ends(usize),
}

/// A word in whose place an option may stand, after n words.
fn option_in(alloc: Global, plan: &mut GrepPlan, n: usize, text: &str) -> Result<Outcome, ArgError>
    requires { n < usize.MAX }
    ensures ok { IfOk result (λ outcome. (others : ℕ → Option ValuedOption → GrepPlan → Opted)
        → option_in n (word_of text.now) others plan.old ≡ followed_by n outcome others plan.new) }
    ensures fault { IfErr result (λ error. (others : ℕ → Option ValuedOption → GrepPlan → Opted)
        → Refuses (option_in n (word_of text.now) others plan.old) error) }
{
    match word_of(text) {
        Word::Operand => Ok(Outcome::Ends(n)),
        Word::Terminator => Ok(Outcome::Ends(n + 1)),
        Word::Name(name) => match long_option(alloc, plan, n, name) {
            Ok(awaited) => Ok(Outcome::Goes(awaited)),
            Err(error) => Err(error),
        },
        Word::Joined(joined) => match letters(alloc, plan, n, joined) {
            Ok(awaited) => Ok(Outcome::Goes(awaited)),
            Err(error) => Err(error),
        },
    }
}

/// A word after n words, the value of an option where one awaits it.
fn next_word(
    alloc: Global,
    plan: &mut GrepPlan,
    n: usize,
    awaited: Option<ValuedOption>,
    text: &str,
) -> Result<Outcome, ArgError>
    requires { n < usize.MAX }
    ensures ok { IfOk result (λ outcome. (words : List (List ℕ))
        → options (text.now ∷ words) n awaited plan.old
        ≡ followed_by n outcome (options words) plan.new) }
    ensures fault { IfErr result (λ error. (words : List (List ℕ))
        → Refuses (options (text.now ∷ words) n awaited plan.old) error) }
{
    match awaited {
        Some(option) => {
            take_value(alloc, plan, option, text).map_err(|stop| stop.at(n))?;
            Ok(Outcome::Goes(None))
        }
        None => option_in(alloc, plan, n, text),
    }
}

/// The options at the front of the words. Answers how many words they take.
pub fn options(alloc: Global, plan: &mut GrepPlan, words: &[String]) -> Result<usize, ArgError>
    ensures ok { IfOk result
        (λ n. options (map string_bytes words.now) 0 None plan.old ≡ Ok (plan.new, n)) }
    ensures fault { IfErr result (Refuses (options (map string_bytes words.now) 0 None plan.old)) }
{
    let mut awaited = None;
    for (n, word) in words.iter().enumerate() {
        match next_word(alloc, plan, n, awaited, word.as_str()) {
            Ok(Outcome::Goes(next)) => awaited = next,
            Ok(Outcome::Ends(count)) => return Ok(count),
            Err(error) => return Err(error),
        }
    }
    match awaited {
        None => Ok(words.len()),
        Some(_) => Err(UsageKind::MissingValue.at(words.len().saturating_sub(1))),
    }
}
