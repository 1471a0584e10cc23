//! The plan of the words.
ghost use Rattle.std.specs.Prelude.{◌≡◌, [], ◌∷◌, map, slice_get, string_bytes, IfOk, IfErr, Ok};
ghost use Rattle.grep_args.specs.Effects.{unset};
ghost use Rattle.grep_args.specs.Limits.{IsWithinLimits};
ghost use Rattle.grep_args.specs.Words.{plan_of, completed, has_patterns, pattern_word, Refuses};
ghost use Rattle.grep_args.specs.declared.usage.ArgError.TheVariants as answer;

use crate::effects::{bytes_of, name_of};
use crate::plan::{BinaryMode, GrepPlan, NameMode, OffsetMode};
use crate::usage::{ArgError, UsageKind};
use crate::words::options;
use pat_tree::{ByteList, Newline, NumberList, TextList};
use pcre_io::NameList;
use std::alloc::{AllocError, Global};

/// The plan of no options.
fn unset(alloc: Global) -> Result<GrepPlan, AllocError>
    ensures { IfOk result (λ plan. plan ≡ unset) }
{
    Ok(GrepPlan {
        patterns: TextList::new(alloc),
        pattern_files: NameList::new(alloc),
        files_from: 0,
        after_context: 0,
        before_context: 0,
        binary: BinaryMode::Binary,
        names: NameMode::Auto,
        label: name_of(alloc, "(standard input)")?,
        only_matching: NumberList::new(alloc),
        om_separator: ByteList::new(alloc),
        offsets: OffsetMode::NoOffsets,
        count: false,
        total_count: false,
        fixed_strings: false,
        ignore_case: false,
        utf: false,
        line_number: false,
        quiet: false,
        no_messages: false,
        invert_match: false,
        word_regex: false,
        line_regex: false,
        match_limit: 10_000_000,
        frame_limit: 10_000_000,
        max_buffer_size: 1_048_576,
        max_count: None,
        newline: Newline::Lf,
        help: None,
        recursive: false,
        include: TextList::new(alloc),
        exclude: TextList::new(alloc),
        include_dir: TextList::new(alloc),
        exclude_dir: TextList::new(alloc),
    })
}

/// Whether an option gave a pattern or a file of patterns.
fn has_patterns(plan: &GrepPlan) -> bool
    ensures { result ≡ has_patterns plan.now }
{
    plan.patterns.len() > 0 || plan.pattern_files.len() > 0
}

/// A list of one pattern.
fn only(alloc: Global, pattern: &str) -> Result<TextList, ArgError>
    ensures ok { IfOk result (λ patterns. patterns ≡ pattern.now ∷ []) }
    ensures memory { IfErr result (λ error. error ≡ answer.Memory) }
{
    let mut patterns = TextList::new(alloc);
    patterns.push(bytes_of(alloc, pattern)?)?;
    Ok(patterns)
}

/// The pattern that is the word after n words.
fn take_pattern(
    alloc: Global,
    plan: &mut GrepPlan,
    words: &[String],
    n: usize,
) -> Result<(), ArgError>
    ensures ok { IfOk result (λ _. pattern_word n (slice_get (map string_bytes words.now) n)
        plan.old.help plan.old ≡ Ok plan.new) }
    ensures fault { IfErr result (Refuses (pattern_word n (slice_get (map string_bytes words.now) n)
        plan.old.help plan.old)) }
{
    match words.get(n) {
        Some(pattern) => {
            plan.patterns = only(alloc, pattern.as_str())?;
            plan.files_from = n + 1;
        }
        None if plan.help.is_none() => return Err(UsageKind::NoPattern.at(n)),
        None => plan.files_from = n,
    }
    Ok(())
}

/// Takes the pattern, where no option gives one, and where the files begin, after n words that are the options.
fn complete(alloc: Global, plan: &mut GrepPlan, words: &[String], n: usize) -> Result<(), ArgError>
    ensures ok { IfOk result (λ _. completed (map string_bytes words.now) n plan.old ≡ Ok plan.new) }
    ensures fault { IfErr result (Refuses (completed (map string_bytes words.now) n plan.old)) }
{
    if has_patterns(plan) {
        plan.files_from = n;
        return Ok(());
    }
    take_pattern(alloc, plan, words, n)
}

/// The plan of the words after the tool's name (pcre2grep, "OPTIONS" and "OPTIONS WITH DATA").
///
/// Where words are at fault, the first of them is told, with what is at fault in it. Memory may be wanting.
#[tactic(auto, unfolding(crate::specs::Words::plan_of))]
pub fn read(alloc: Global, words: &[String]) -> Result<GrepPlan, ArgError>
    ensures plan { IfOk result (λ plan. plan_of (map string_bytes words.now) ≡ Ok plan) }
    ensures fault { IfErr result (Refuses (plan_of (map string_bytes words.now))) }
    ensures limits { IfOk result IsWithinLimits }
{
    let mut plan = unset(alloc)?;
    let n = options(alloc, &mut plan, words)?;
    complete(alloc, &mut plan, words, n)?;
    Ok(plan)
}
