//! Files of patterns (pcre2grep, "OPTIONS", `-f`).
ghost use Rattle.std.specs.Prelude.{◌≡◌, ◌≤◌, ◌∷◌, [], ◌++◌, filter, map, OnOk, OnErr, IfOk, Some, Option, Err};
ghost use Rattle.line_feed.specs.Rows.{Input};
ghost use Rattle.line_feed.specs.Hears.{Hears};
ghost use Rattle.tool_io.specs.declared.target.Target.TheVariants as targets;
ghost use Rattle.tool_io.specs.Absent.{AbsentBy};
ghost use Rattle.tool_io.specs.Asked.{asked, named_target, Opened};
ghost use Rattle.grep_main.specs.PatternFiles.{is_white, trimmed, is_given, texts_of};
ghost use Rattle.tool_io.specs.Takes.{IsLeft, inputs};
ghost use Rattle.grep_main.specs.Adds.{AddsLines, AddsTo, AddsWord, AddsAll, reading};
ghost use Rattle.grep_main.specs.Leaves.{LeavesUnasked};

use crate::messages::write_missing;
use byte_lanes::EndKind;
use grep_args::GrepPlan;
use grep_core::{Ended, Stop, write_ended};
use line_feed::{FeedError, LineFeed};
use pat_tree::{ByteList, TextList};
use pcre_io::{FileSet, IoError, MemSource, Sink, Source};
use std::alloc::Global;

// HT, LF, VT, FF, CR and space.
fn is_white(byte: u8) -> bool
    ensures { result ≡ is_white byte }
{
    matches!(byte, 9..=13 | b' ')
}

// A line without the white space at its end.
fn trimmed(line: &[u8]) -> &[u8]
    ensures { result.now ≡ trimmed line.now }
{
    let mut rest = line;
    'byte: while let [first @ .., last] = rest {
        if !is_white(*last) {
            return rest;
        }
        rest = first;
    }
    rest
}

// Adds a text to the patterns.
fn add_text(alloc: Global, text: &[u8], texts: &mut TextList) -> Result<(), Stop>
    ensures ok { OnOk result (texts.new ≡ texts.old ++ text.now ∷ []) }
    ensures memory { OnErr result (result ≡ Err Stop.Memory) }
{
    match text.to_vec(alloc) {
        Ok(bytes) => match texts.push(ByteList::from_vec(bytes)) {
            Ok(()) => Ok(()),
            Err(_) => Err(Stop::Memory),
        },
        Err(_) => Err(Stop::Memory),
    }
}

// Adds the pattern of a line, unless the line is blank.
fn add_line(alloc: Global, line: &[u8], texts: &mut TextList) -> Result<(), Stop>
    ensures ok { OnOk result (texts.new ≡ texts.old ++ filter is_given (trimmed line.now ∷ [])) }
    ensures memory { OnErr result (result ≡ Err Stop.Memory) }
{
    let text = trimmed(line);
    if text.is_empty() {
        return Ok(());
    }
    add_text(alloc, text, texts)
}

// Adds the patterns of a source's lines, one a line; blank lines are ignored. Says how the lines
// end.
fn add_lines<S: Source>(
    alloc: Global,
    max: u32,
    source: &mut S,
    texts: &mut TextList,
) -> Result<Ended, Stop>
    requires { 1 ≤ max }
    ensures { AddsLines max (S.tells source.old) (S.tells source.new) texts.old texts.new result }
{
    let mut feed = LineFeed::new(alloc, EndKind::Lf, max as usize);
    'line: loop {
        match feed.next(source) {
            Ok(Some(line)) => add_line(alloc, line.bytes, texts)?,
            Ok(None) => return Ok(Ended::End),
            Err(FeedError::ReadFault) => return Ok(Ended::ReadFault),
            Err(FeedError::TooMuch) => return Ok(Ended::TooMuch),
            Err(FeedError::TooLong { line }) => return Ok(Ended::TooLong { line }),
            Err(FeedError::Memory) => return Err(Stop::Memory),
        }
    }
}

// Adds the patterns of a source. False where it can't be read to its end, which a message tells.
fn add_source<S: Source, E: Sink>(
    alloc: Global,
    plan: &GrepPlan,
    name: &str,
    source: &mut S,
    err: &mut E,
    texts: &mut TextList,
) -> Result<bool, Stop>
    requires { 1 ≤ plan.now.max_buffer_size }
    ensures { (heard : Input) × Hears (S.tells source.old) (S.tells source.new) heard
        × AddsTo (texts_of plan.now name.now (Some heard)) texts.old texts.new (E.tells err.old)
        (E.tells err.new) result }
{
    let ended = add_lines(alloc, plan.max_buffer_size, source, texts)?;
    if ended == Ended::End {
        return Ok(true);
    }
    write_ended(err, false, name, ended)?;
    Ok(false)
}

// Adds the patterns of standard input, which is empty after its first use.
fn add_standard<S: Source, E: Sink>(
    alloc: Global,
    plan: &GrepPlan,
    input: &mut S,
    is_used: &mut bool,
    err: &mut E,
    texts: &mut TextList,
) -> Result<bool, Stop>
    requires { 1 ≤ plan.now.max_buffer_size }
    ensures { (left : Input) × IsLeft is_used.old is_used.new (S.tells input.old)
        (S.tells input.new) left
        × AddsTo (texts_of plan.now plan.now.label (Some left)) texts.old texts.new
        (E.tells err.old) (E.tells err.new) result }
{
    let name = plan.label.as_str();
    if *is_used {
        let mut empty = MemSource::new(Vec::new(alloc), None, 1);
        return add_source(alloc, plan, name, &mut empty, err, texts);
    }
    *is_used = true;
    add_source(alloc, plan, name, input, err, texts)
}

// Adds the patterns of a file.
fn add_named<F: FileSet, E: Sink>(
    alloc: Global,
    plan: &GrepPlan,
    name: &str,
    files: &mut F,
    err: &mut E,
    texts: &mut TextList,
) -> Result<bool, Stop>
    requires { 1 ≤ plan.now.max_buffer_size }
    ensures adds { let before = F.tells files.old in let after = F.tells files.new in
        (given : Option Input) × Opened before.contents name.now given
        × AddsTo (texts_of plan.now name.now given) texts.old texts.new (E.tells err.old)
        (E.tells err.new) result
        × AbsentBy before.contents before.faults after.faults
        (asked (targets.File name.now) given ∷ []) }
    ensures files { (F.tells files.new).contents ≡ (F.tells files.old).contents }
    ensures later { (F.tells files.old).faults ≤ (F.tells files.new).faults }
{
    match files.open_file(alloc, name) {
        Ok(mut source) => add_source(alloc, plan, name, &mut source, err, texts),
        Err(IoError::Failed) => {
            write_missing(err, name)?;
            Ok(false)
        }
        Err(IoError::Memory) => Err(Stop::Memory),
    }
}

// Adds the patterns of the file that a word names.
fn add_file<F: FileSet, S: Source, E: Sink>(
    alloc: Global,
    plan: &GrepPlan,
    word: &str,
    files: &mut F,
    input: &mut S,
    is_used: &mut bool,
    err: &mut E,
    texts: &mut TextList,
) -> Result<bool, Stop>
    requires { 1 ≤ plan.now.max_buffer_size }
    ensures adds { AddsWord plan.now word.now
        (reading (inputs (F.tells files.old) (S.tells input.old) is_used.old) texts.old
        (E.tells err.old))
        (reading (inputs (F.tells files.new) (S.tells input.new) is_used.new) texts.new
        (E.tells err.new)) result }
    ensures unused { LeavesUnasked (named_target word.now ∷ []) (S.tells input.old)
        (S.tells input.new) }
    ensures files { (F.tells files.new).contents ≡ (F.tells files.old).contents }
    ensures later { (F.tells files.old).faults ≤ (F.tells files.new).faults }
{
    if word == "-" {
        add_standard(alloc, plan, input, is_used, err, texts)
    } else {
        add_named(alloc, plan, word, files, err, texts)
    }
}

/// Adds the patterns of the plan's files, in order. False where a file can't be read to its end,
/// which a message tells.
pub fn add_files<F: FileSet, S: Source, E: Sink>(
    alloc: Global,
    plan: &GrepPlan,
    files: &mut F,
    input: &mut S,
    is_used: &mut bool,
    err: &mut E,
    texts: &mut TextList,
) -> Result<bool, Stop>
    requires { 1 ≤ plan.now.max_buffer_size }
    ensures adds { AddsAll plan.now
        (reading (inputs (F.tells files.old) (S.tells input.old) is_used.old) texts.old
        (E.tells err.old))
        (reading (inputs (F.tells files.new) (S.tells input.new) is_used.new) texts.new
        (E.tells err.new)) result }
    ensures unused { LeavesUnasked (map named_target plan.now.pattern_files) (S.tells input.old)
        (S.tells input.new) }
    ensures files { (F.tells files.new).contents ≡ (F.tells files.old).contents }
    ensures later { (F.tells files.old).faults ≤ (F.tells files.new).faults }
{
    for i in 0..plan.pattern_files.len() {
        let word = plan.pattern_files.get(i).as_str();
        if !add_file(alloc, plan, word, files, input, is_used, err, texts)? {
            return Ok(false);
        }
    }
    Ok(true)
}

/// The patterns of the plan itself.
pub fn own_texts(alloc: Global, plan: &GrepPlan) -> Result<TextList, Stop>
    ensures ok { IfOk result (λ texts. texts ≡ plan.now.patterns) }
    ensures memory { OnErr result (result ≡ Err Stop.Memory) }
{
    let mut texts = TextList::new(alloc);
    for text in plan.patterns.as_slice() {
        add_text(alloc, text.bytes(), &mut texts)?;
    }
    Ok(texts)
}
