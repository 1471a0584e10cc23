//! A run of pcre2grep.
ghost use Rattle.std.specs.Prelude.{◌≡◌, ◌≤◌, [], map, string_bytes, bytes_eq, Ok, List};
ghost use Rattle.std.specs.List.{list_any};
ghost use Rattle.grep_args.specs.Limits.{IsWithinLimits};
ghost use Rattle.grep_targets.specs.Filters.{filter_in, filter_of};
ghost use Rattle.grep_targets.specs.Paths.{word_path};
ghost use Rattle.tool_io.specs.Asked.{Asked};
ghost use Rattle.pcre_io.specs.Told.{Kept};
ghost use Rattle.grep_core.specs.grep_match.Compiled.{patterns_in, patterns_of};
ghost use Rattle.grep_output.specs.InputText.{first_state};
ghost use Rattle.grep_main.specs.Leaves.{LeavesAll, LeavesUnasked, Ties, Unless};
ghost use Rattle.grep_main.specs.Refusals.{refusal, usage_message, help_text};
ghost use Rattle.grep_main.specs.Reports.{reports};
ghost use Rattle.grep_main.specs.ToolText.{outcome_of, is_below, names_for, shows_names};
ghost use Rattle.tool_io.specs.Takes.{TakesAll};
ghost use Rattle.grep_main.specs.Stages.{AreSame, RunsOn, SearchesBy, SearchesFor, sought, streams};
ghost use Rattle.grep_main.specs.Sums.{SumsTo};
ghost use Rattle.grep_main.specs.RunsBy.{RunsBy};
ghost use Rattle.tool_io.specs.Printed.{printed};

use crate::inputs::grep_target;
use crate::messages::{write_bad_filter, write_bad_pattern, write_help, write_usage};
use crate::pattern_files::{add_files, own_texts};
use crate::streams::Streams;
use crate::sum::{Sum, added, status_of, write_last};
use grep_args::{ArgError, GrepPlan, HelpKind, NameMode, UsageKind, read};
use grep_core::{GrepState, PatternError, Patterns, Stop, filter_by, sieve_for};
use grep_targets::{FilterError, NameFilter, targets, word_path};
use pat_tree::TextList;
use pcre_io::{FileSet, Sink, Source};
use std::alloc::Global;
use tool_io::Target;

// Searches these targets, in order.
fn sum_listed<F: FileSet, S: Source, O: Sink, E: Sink>(
    alloc: Global,
    patterns: &Patterns,
    plan: &GrepPlan,
    list: &[Target],
    io: &mut Streams<F, S, O, E>,
) -> Result<Sum, Stop>
    requires { IsWithinLimits plan.now }
    ensures sums { let before = F.tells io.old.files.now in let after = F.tells io.new.files.now in
        (given : List Asked) × TakesAll io.old.is_used (S.tells io.old.input.now)
        (S.tells io.new.input.now) before.contents list.now given
        × SumsTo plan.now (reports plan.now (patterns_in patterns.now) given first_state)
        (printed (O.tells io.old.out.now) (E.tells io.old.err.now))
        (printed (O.tells io.new.out.now) (E.tells io.new.err.now)) result
        × Ties before after given result (Unless io.old.is_used (LeavesAll
        (S.tells io.old.input.now) (S.tells io.new.input.now) plan.now (patterns_in patterns.now)
        given first_state)) }
    ensures unused { LeavesUnasked list.now (S.tells io.old.input.now)
        (S.tells io.new.input.now) }
    ensures streams { AreSame io.old io.new }
    ensures files { (F.tells io.new.files.now).contents ≡ (F.tells io.old.files.now).contents }
    ensures later { (F.tells io.old.files.now).faults ≤ (F.tells io.new.files.now).faults }
{
    let sieve = sieve_for(alloc, plan, patterns, list.len());
    let mut filter = filter_by(alloc, &sieve);
    let mut state = GrepState::new(alloc);
    let mut sum = Sum {
        has_failed: false,
        counts: 0,
        total: 0,
    };
    for target in list {
        let end = grep_target(alloc, patterns, plan, target, io, &mut state, &mut filter)?;
        sum = added(plan, sum, end);
    }
    Ok(sum)
}

// Searches these targets, and writes the total.
fn grep_listed<F: FileSet, S: Source, O: Sink, E: Sink>(
    alloc: Global,
    patterns: &Patterns,
    plan: &GrepPlan,
    list: &[Target],
    io: &mut Streams<F, S, O, E>,
) -> Result<u8, Stop>
    requires { IsWithinLimits plan.now }
    ensures runs { let before = F.tells io.old.files.now in let after = F.tells io.new.files.now in
        (given : List Asked) × TakesAll io.old.is_used (S.tells io.old.input.now)
        (S.tells io.new.input.now) before.contents list.now given
        × RunsBy (outcome_of plan.now (reports plan.now (patterns_in patterns.now)
        given first_state))
        (printed (O.tells io.old.out.now) (E.tells io.old.err.now))
        (printed (O.tells io.new.out.now) (E.tells io.new.err.now)) result
        × Ties before after given result (Unless io.old.is_used (LeavesAll
        (S.tells io.old.input.now) (S.tells io.new.input.now) plan.now (patterns_in patterns.now)
        given first_state)) }
    ensures unused { LeavesUnasked list.now (S.tells io.old.input.now)
        (S.tells io.new.input.now) }
    ensures streams { AreSame io.old io.new }
    ensures files { (F.tells io.new.files.now).contents ≡ (F.tells io.old.files.now).contents }
    ensures later { (F.tells io.old.files.now).faults ≤ (F.tells io.new.files.now).faults }
{
    let sum = sum_listed(alloc, patterns, plan, list, io)?;
    write_last(io.out, plan, sum)?;
    Ok(status_of(sum))
}

// Whether a word names this path.
fn is_named(words: &[String], path: &str) -> bool
    ensures { result ≡ list_any (λ word. bytes_eq path.now (word_path word))
        (map string_bytes words.now) }
{
    let mut rest = words;
    'word: loop {
        let [word, more @ ..] = rest else {
            return false;
        };
        if path == word_path(word.as_str()) {
            return true;
        }
        rest = more;
    }
}

// Whether a target is a file that no word names, so that one of them names a directory.
fn is_below(words: &[String], target: &Target) -> bool
    ensures { result ≡ is_below (map string_bytes words.now) target.now }
{
    match target {
        Target::File(path) => !is_named(words, path.as_str()),
        _ => false,
    }
}

// Whether one of these targets is a file that no word names.
fn has_below(words: &[String], list: &[Target]) -> bool
    ensures { result ≡ list_any (is_below (map string_bytes words.now)) list.now }
{
    let mut rest = list;
    'target: loop {
        let [target, more @ ..] = rest else {
            return false;
        };
        if is_below(words, target) {
            return true;
        }
        rest = more;
    }
}

// By default names are shown where there are two or more words for files, or one names a directory.
fn names_for(words: &[String], list: &[Target], names: NameMode) -> NameMode
    ensures { result ≡ names_for (shows_names (map string_bytes words.now) list.now) names }
{
    if names == NameMode::Auto && (words.len() >= 2 || has_below(words, list)) {
        NameMode::With
    } else {
        names
    }
}

// Searches what these words stand for, where their names are allowed.
fn grep_by_filter<F: FileSet, S: Source, O: Sink, E: Sink>(
    alloc: Global,
    patterns: &Patterns,
    filter: &NameFilter,
    mut plan: GrepPlan,
    words: &[String],
    io: &mut Streams<F, S, O, E>,
) -> Result<u8, Stop>
    requires limits { IsWithinLimits plan }
    requires filter { filter_of plan ≡ Ok (filter_in filter.now) }
    ensures runs { SearchesFor (sought plan (Ok (patterns_in patterns.now))
        (map string_bytes words.now)) io.old.is_used
        (streams (F.tells io.old.files.now) (S.tells io.old.input.now)
        (printed (O.tells io.old.out.now) (E.tells io.old.err.now)))
        (streams (F.tells io.new.files.now) (S.tells io.new.input.now)
        (printed (O.tells io.new.out.now) (E.tells io.new.err.now))) result }
    ensures streams { AreSame io.old io.new }
    ensures files { (F.tells io.new.files.now).contents ≡ (F.tells io.old.files.now).contents }
    ensures later { (F.tells io.old.files.now).faults ≤ (F.tells io.new.files.now).faults }
{
    let list = targets(alloc, filter, words, plan.recursive, io.files)?;
    plan.names = names_for(words, list.as_slice(), plan.names);
    grep_listed(alloc, patterns, &plan, list.as_slice(), io)
}

// Compiles the patterns for names, and searches what these words stand for.
fn grep_by_patterns<F: FileSet, S: Source, O: Sink, E: Sink>(
    alloc: Global,
    patterns: &Patterns,
    plan: GrepPlan,
    words: &[String],
    io: &mut Streams<F, S, O, E>,
) -> Result<u8, Stop>
    requires { IsWithinLimits plan }
    ensures runs { SearchesFor (sought plan (Ok (patterns_in patterns.now))
        (map string_bytes words.now)) io.old.is_used
        (streams (F.tells io.old.files.now) (S.tells io.old.input.now)
        (printed (O.tells io.old.out.now) (E.tells io.old.err.now)))
        (streams (F.tells io.new.files.now) (S.tells io.new.input.now)
        (printed (O.tells io.new.out.now) (E.tells io.new.err.now))) result }
    ensures streams { AreSame io.old io.new }
    ensures files { (F.tells io.new.files.now).contents ≡ (F.tells io.old.files.now).contents }
    ensures later { (F.tells io.old.files.now).faults ≤ (F.tells io.new.files.now).faults }
{
    let filter = match NameFilter::build(alloc, &plan) {
        Ok(filter) => filter,
        Err(
            FilterError::Bad {
                option,
                index,
                number,
                at,
            },
        ) => {
            write_bad_filter(io.err, option, index, number, at)?;
            return Ok(2);
        }
        Err(FilterError::Memory) => return Err(Stop::Memory),
    };
    grep_by_filter(alloc, patterns, &filter, plan, words, io)
}

// Compiles the patterns, and searches what these words stand for.
fn grep_by_texts<F: FileSet, S: Source, O: Sink, E: Sink>(
    alloc: Global,
    plan: GrepPlan,
    texts: &TextList,
    words: &[String],
    io: &mut Streams<F, S, O, E>,
) -> Result<u8, Stop>
    requires { IsWithinLimits plan }
    ensures runs { SearchesFor (sought plan (patterns_of plan texts.now)
        (map string_bytes words.now)) io.old.is_used
        (streams (F.tells io.old.files.now) (S.tells io.old.input.now)
        (printed (O.tells io.old.out.now) (E.tells io.old.err.now)))
        (streams (F.tells io.new.files.now) (S.tells io.new.input.now)
        (printed (O.tells io.new.out.now) (E.tells io.new.err.now))) result }
    ensures streams { AreSame io.old io.new }
    ensures files { (F.tells io.new.files.now).contents ≡ (F.tells io.old.files.now).contents }
    ensures later { (F.tells io.old.files.now).faults ≤ (F.tells io.new.files.now).faults }
{
    let patterns = match Patterns::build(alloc, &plan, texts) {
        Ok(patterns) => patterns,
        Err(
            PatternError::Bad {
                pattern,
                number,
                at,
            },
        ) => {
            write_bad_pattern(io.err, pattern, number, at)?;
            return Ok(2);
        }
        Err(PatternError::Memory) => return Err(Stop::Memory),
    };
    grep_by_patterns(alloc, &patterns, plan, words, io)
}

// Searches by a plan what these words stand for.
fn grep_by_plan<F: FileSet, S: Source, O: Sink, E: Sink>(
    alloc: Global,
    plan: GrepPlan,
    words: &[String],
    files: &mut F,
    input: &mut S,
    out: &mut O,
    err: &mut E,
) -> Result<u8, Stop>
    requires { IsWithinLimits plan }
    ensures runs { SearchesBy plan (map string_bytes words.now)
        (streams (F.tells files.old) (S.tells input.old)
        (printed (O.tells out.old) (E.tells err.old)))
        (streams (F.tells files.new) (S.tells input.new)
        (printed (O.tells out.new) (E.tells err.new))) result }
    ensures files { (F.tells files.new).contents ≡ (F.tells files.old).contents }
{
    let mut is_used = false;
    let mut texts = own_texts(alloc, &plan)?;
    if !add_files(alloc, &plan, files, input, &mut is_used, err, &mut texts)? {
        return Ok(2);
    }
    let mut io = Streams {
        files,
        input,
        is_used,
        out,
        err,
    };
    grep_by_texts(alloc, plan, &texts, words, &mut io)
}

// Writes the text that is asked for in place of a search.
fn help<O: Sink>(out: &mut O, kind: HelpKind) -> Result<u8, Stop>
    ensures { (err : Kept) → RunsBy (record { out = help_text kind; err = []; status = 0 })
        (printed (O.tells out.old) err) (printed (O.tells out.new) err) result }
{
    write_help(out, kind)?;
    Ok(0)
}

// Refuses the words.
fn refuse<E: Sink>(err: &mut E, words: &[String], kind: UsageKind, word: usize) -> Result<u8, Stop>
    ensures { (out : Kept) → RunsBy (refusal (usage_message (map string_bytes words.now)
        (record { kind = kind; word = word }))) (printed out (E.tells err.old))
        (printed out (E.tells err.new)) result }
{
    write_usage(err, words, kind, word)?;
    Ok(2)
}

/// Runs pcre2grep on the words after its name, and answers its status. It stops where memory lacks,
/// where a write is refused, and at the 21st match error, at which all of its text was written.
pub fn grep<F: FileSet, S: Source, O: Sink, E: Sink>(
    alloc: Global,
    words: &[String],
    files: &mut F,
    input: &mut S,
    out: &mut O,
    err: &mut E,
) -> Result<u8, Stop>
    ensures runs { RunsOn (map string_bytes words.now)
        (streams (F.tells files.old) (S.tells input.old)
        (printed (O.tells out.old) (E.tells err.old)))
        (streams (F.tells files.new) (S.tells input.new)
        (printed (O.tells out.new) (E.tells err.new))) result }
    ensures files { (F.tells files.new).contents ≡ (F.tells files.old).contents }
{
    let plan = match read(alloc, words) {
        Ok(plan) => plan,
        Err(ArgError::Usage { kind, word }) => return refuse(err, words, kind, word),
        Err(ArgError::Memory) => return Err(Stop::Memory),
    };
    if let Some(kind) = plan.help {
        return help(out, kind);
    }
    let from = plan.files_from.min(words.len());
    grep_by_plan(alloc, plan, &words[from..], files, input, out, err)
}
