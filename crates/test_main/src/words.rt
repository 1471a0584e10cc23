//! The words of pcre2test.
ghost use Rattle.std.specs.Prelude.{◌≡◌, map, string_bytes, Some, IfOk, IfErr};
ghost use Rattle.std.specs.List.{list_all};
ghost use Rattle.std.specs.Char.{is_ascii_digit};
ghost use Rattle.test_modifiers.specs.Values.{decimal};
ghost use Rattle.test_main.specs.Words.{Refuses, is_option, is_name, kind_of, listed, option_taken, taken, words_of};
ghost use Rattle.test_main.specs.Words.{name_alone, named_script, is_generator, line_count, count_alone, ended_words};

use byte_lanes::number;
use pcre_io::Name;
use std::alloc::{AllocError, Global};
use test_modifiers::{ListError, Modifiers, read_list};
use test_script::TestPlan;

// So many lines are made at most.
const MOST_LINES: u32 = 100_000;

/// What a list of modifiers is for.
#[derive(Clone, Copy)]
pub enum Lists {
    /// Patterns: `-pattern`.
    Patterns,
    /// Subject lines: `-subject`.
    Subjects,
}

/// What a word is.
#[derive(Clone, Copy)]
pub enum Word {
    /// `-q`
    Quiet,
    /// `-dfa`
    Dfa,
    /// The next word is such a list.
    List(Lists),
    /// An option that there isn't.
    Unknown,
    /// The script.
    Script,
}

/// How far the words were read: what they ask for so far, and the list that the next one must be.
#[derive(Drop)]
pub struct Turn {
    pub plan: TestPlan,
    pub wanted: Option<Lists>,
}

/// What is run: a script, by where it comes from, or so many lines that are made.
#[derive(Drop)]
pub enum Script {
    Standard,
    File(Name),
    Generated(u32),
}

/// What the words ask for.
#[derive(Drop)]
pub struct TestWords {
    pub plan: TestPlan,
    pub script: Script,
}

/// Why there is nothing that they ask for.
#[derive(Clone, Copy)]
pub enum WordsError {
    /// They are refused.
    Refused,
    /// Want of memory.
    Memory,
}

impl From<AllocError> for WordsError {
    ghost use Rattle.std.specs.Prelude.{◌≡◌};
    ghost use Rattle.test_main.specs.declared.words.WordsError.TheVariants as why;

    ghost from_gives = { λ _ e. e ≡ why.Memory };

    fn from(_e: AllocError) -> WordsError {
        WordsError::Memory
    }
}

fn is_option(word: &[u8]) -> bool
    ensures { result ≡ is_option word.now }
{
    matches!(word, [b'-', _, ..])
}

fn word_kind(word: &str) -> Word
    ensures { result ≡ kind_of word.now }
{
    if word == "-q" {
        Word::Quiet
    } else if word == "-dfa" {
        Word::Dfa
    } else if word == "-pattern" {
        Word::List(Lists::Patterns)
    } else if word == "-subject" {
        Word::List(Lists::Subjects)
    } else if is_option(word.as_bytes()) {
        Word::Unknown
    } else {
        Word::Script
    }
}

// A list over the earlier ones.
fn take_list(alloc: Global, plan: TestPlan, lists: Lists, list: &[u8]) -> Result<Turn, WordsError>
    ensures read { IfOk result (λ next. listed plan lists list.now ≡ Some next) }
    ensures refused { IfErr result (Refuses (listed plan lists list.now)) }
{
    match read_list(alloc, list, matches!(lists, Lists::Patterns)) {
        Ok(modifiers) => Ok(Turn {
            plan: TestPlan {
                quiet: plan.quiet,
                defaults: modifiers.over(plan.defaults),
            },
            wanted: None,
        }),
        Err(ListError::Refused(_)) => Err(WordsError::Refused),
        Err(ListError::Memory) => Err(WordsError::Memory),
    }
}

fn take_option(alloc: Global, plan: TestPlan, word: Word) -> Result<Turn, WordsError>
    ensures read { IfOk result (λ next. option_taken plan word ≡ Some next) }
    ensures refused { IfErr result (Refuses (option_taken plan word)) }
{
    match word {
        Word::Quiet => Ok(Turn {
            plan: TestPlan {
                quiet: true,
                defaults: plan.defaults,
            },
            wanted: None,
        }),
        Word::Dfa => take_list(alloc, plan, Lists::Subjects, b"dfa"),
        Word::List(lists) => Ok(Turn {
            plan,
            wanted: Some(lists),
        }),
        Word::Unknown | Word::Script => Err(WordsError::Refused),
    }
}

// An option, or the list that is wanted.
fn take_word(alloc: Global, turn: Turn, word: &str) -> Result<Turn, WordsError>
    ensures read { IfOk result (λ next. taken turn word.now ≡ Some next) }
    ensures refused { IfErr result (Refuses (taken turn word.now)) }
{
    match turn.wanted {
        Some(lists) => take_list(alloc, turn.plan, lists, word.as_bytes()),
        None => take_option(alloc, turn.plan, word_kind(word)),
    }
}

// Whether a word is the script's name.
fn is_name(wanted: Option<Lists>, word: &str) -> bool
    ensures { result ≡ is_name wanted word.now }
{
    match wanted {
        Some(_) => false,
        None => matches!(word_kind(word), Word::Script),
    }
}

// The script of this name; `-` is standard input.
fn script_named(alloc: Global, word: &str) -> Result<Script, AllocError>
    ensures { IfOk result (λ script. script ≡ named_script word.now) }
{
    if word == "-" {
        return Ok(Script::Standard);
    }
    Ok(Script::File(Name::of(String::from_str(alloc, word)?)))
}

// A script's name, which is the last word.
fn read_name(
    alloc: Global,
    plan: TestPlan,
    word: &str,
    more: &[String],
) -> Result<TestWords, WordsError>
    ensures read { IfOk result (λ asked.
        name_alone plan word.now (map string_bytes more.now) ≡ Some asked) }
    ensures refused { IfErr result (Refuses (name_alone plan word.now
        (map string_bytes more.now))) }
{
    if !more.is_empty() {
        return Err(WordsError::Refused);
    }
    Ok(TestWords {
        plan,
        script: script_named(alloc, word)?,
    })
}

// Whether a word asks for lines that are made.
fn is_generator(wanted: Option<Lists>, word: &str) -> bool
    ensures { result ≡ is_generator wanted word.now }
{
    match wanted {
        Some(_) => false,
        None => word == "-gen",
    }
}

fn are_digits(word: &[u8]) -> bool
    ensures { result ≡ list_all is_ascii_digit word.now }
{
    word.iter().all(|b| b.is_ascii_digit())
}

// The number that decimal digits write.
fn decimal(word: &[u8]) -> Option<u32>
    ensures { result ≡ decimal word.now }
{
    if word.is_empty() {
        return None;
    }
    if are_digits(word) {
        number(word, 10)
    } else {
        None
    }
}

// How many lines a word asks for.
fn line_count(word: &[u8]) -> Option<u32>
    ensures { result ≡ line_count word.now }
{
    let count = decimal(word)?;
    if count <= MOST_LINES {
        Some(count)
    } else {
        None
    }
}

// The number of lines, which is the last word.
fn read_count(plan: TestPlan, words: &[String]) -> Result<TestWords, WordsError>
    ensures read { IfOk result (λ asked.
        count_alone plan (map string_bytes words.now) ≡ Some asked) }
    ensures refused { IfErr result (Refuses (count_alone plan (map string_bytes words.now))) }
{
    let [word, rest @ ..] = words else {
        return Err(WordsError::Refused);
    };
    if !rest.is_empty() {
        return Err(WordsError::Refused);
    }
    match line_count(word.as_bytes()) {
        Some(count) => Ok(TestWords {
            plan,
            script: Script::Generated(count),
        }),
        None => Err(WordsError::Refused),
    }
}

// What the words come to where they end.
fn ended(turn: Turn) -> Result<TestWords, WordsError>
    ensures read { IfOk result (λ asked. ended_words turn ≡ Some asked) }
    ensures refused { IfErr result (Refuses (ended_words turn)) }
{
    match turn.wanted {
        Some(_) => Err(WordsError::Refused),
        None => Ok(TestWords {
            plan: turn.plan,
            script: Script::Standard,
        }),
    }
}

/// What the words after the tool's name ask for (pcre2test, "COMMAND LINE OPTIONS").
///
/// # Errors
///
/// Refused where an option isn't one of `-q`, `-dfa`, `-pattern`, `-subject` and `-gen`, a list lacks
/// or is refused, a number lacks or is too great, or a word follows it or the script's name. Memory may
/// be wanting.
pub fn read_words(alloc: Global, words: &[String]) -> Result<TestWords, WordsError>
    ensures read { IfOk result (λ asked. words_of (map string_bytes words.now) ≡ Some asked) }
    ensures refused { IfErr result (Refuses (words_of (map string_bytes words.now))) }
{
    let mut turn = Turn {
        plan: TestPlan {
            quiet: false,
            defaults: Modifiers::none(),
        },
        wanted: None,
    };
    let mut rest = words;
    'word: loop {
        let [word, more @ ..] = rest else {
            return ended(turn);
        };
        if is_name(turn.wanted, word.as_str()) {
            return read_name(alloc, turn.plan, word.as_str(), more);
        }
        if is_generator(turn.wanted, word.as_str()) {
            return read_count(turn.plan, more);
        }
        turn = take_word(alloc, turn, word.as_str())?;
        rest = more;
    }
}
