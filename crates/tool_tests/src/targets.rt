//! What words stand for, over files in memory.
use grep_args::{GrepPlan, read};
use grep_targets::{FilterError, NameFilter, TargetList, targets};
use pat_tree::ByteList;
use pcre_io::{MemFiles, Name};
use std::alloc::{AllocError, Global};
use std::process::Abort;
use std::test::Fail;
use tool_io::Target;

const FILES: &str = "d/a.c d/b.h d/sub/c.c d/sub-x.c d/.hidden/.c top.c e/f/g h/i p q/r s";

/// The filter's options and the words of a row, then what the words stand for. Directory `h` is refused, `p` is of kind
/// Other, and `q` and `s` are closed.
const RECURSIVE: &str = "\
d | File:d/.hidden/.c File:d/a.c File:d/b.h File:d/sub/c.c File:d/sub-x.c
d/// | File:d/.hidden/.c File:d/a.c File:d/b.h File:d/sub/c.c File:d/sub-x.c
include=\\.c$ d | File:d/.hidden/.c File:d/a.c File:d/sub/c.c File:d/sub-x.c
include=\\.h$ include=^a d | File:d/a.c File:d/b.h
include=sub d | File:d/sub-x.c
include=^d d |
exclude=\\.c$ d | File:d/b.h
exclude=^a include=^[ab] d | File:d/b.h
exclude-dir=^sub$ d | File:d/.hidden/.c File:d/a.c File:d/b.h File:d/sub-x.c
exclude-dir=^d$ d |
exclude-dir=a d | File:d/.hidden/.c File:d/a.c File:d/b.h File:d/sub/c.c File:d/sub-x.c
include-dir=^d$ d | File:d/a.c File:d/b.h File:d/sub-x.c
include-dir=^(d|sub)$ d d/sub | File:d/a.c File:d/b.h File:d/sub/c.c File:d/sub-x.c File:d/sub/c.c
include-dir=. exclude-dir=^\\. d/sub d/.hidden | File:d/sub/c.c
include-dir=x top.c | File:top.c
exclude=c top.c d/b.h | File:d/b.h
top.c nope | File:top.c NoOpen:nope
- top.c - | Input File:top.c Input
e e/ | File:e/f/g File:e/f/g
h | NoOpen:h
p | File:p
exclude=p p s | File:p File:s
q exclude=r | NoList:q
";

const PLAIN: &str = "\
d top.c | File:d File:top.c
d/ nope | File:d File:nope
/ // | File:/ File:/
- | Input
include=c top.c d/b.h h | File:top.c
exclude=c - top.c d/b.h | Input File:d/b.h
";

fn text(alloc: Global, text: &str) -> Result<ByteList, AllocError> {
    Ok(ByteList::from_vec(Vec::from_slice(alloc, text.as_bytes())?))
}

// Gives the plan a pattern for names, where the word is one.
fn add_filter(alloc: Global, plan: &mut GrepPlan, word: &str) -> Result<bool, Fail> {
    let Some((option, pattern)) = word.split_once('=') else {
        return Ok(false);
    };
    let pattern = text(alloc, pattern)?;
    match option {
        "include" => plan.include.push(pattern)?,
        "exclude" => plan.exclude.push(pattern)?,
        "include-dir" => plan.include_dir.push(pattern)?,
        "exclude-dir" => plan.exclude_dir.push(pattern)?,
        _ => return Ok(false),
    }
    Ok(true)
}

fn words_of(alloc: Global, word: &str) -> Result<Vec<String>, AllocError> {
    let mut words = Vec::new(alloc);
    words.push(String::from_str(alloc, word)?)?;
    Ok(words)
}

fn plan_of(alloc: Global) -> Result<GrepPlan, Fail> {
    let words = words_of(alloc, "x")?;
    match read(alloc, words.as_slice()) {
        Ok(plan) => Ok(plan),
        Err(_) => Err(Fail::from(AllocError)),
    }
}

fn files_of(alloc: Global) -> Result<MemFiles, Fail> {
    let mut files = MemFiles::new(alloc);
    for name in FILES.split(' ') {
        files.add(String::from_str(alloc, name)?, Vec::new(alloc), None)?;
    }
    files.refuse(String::from_str(alloc, "h")?)?;
    files.make_other(String::from_str(alloc, "p")?)?;
    files.close(String::from_str(alloc, "q")?)?;
    files.close(String::from_str(alloc, "s")?)?;
    Ok(files)
}

fn push_target(shown: &mut String, kind: &str, name: &Name) -> Result<(), AllocError> {
    shown.push_str(kind)?;
    shown.push(':')?;
    shown.push_str(name.as_str())
}

fn show_target(shown: &mut String, target: &Target) -> Result<(), AllocError> {
    match target {
        Target::Input => shown.push_str("Input"),
        Target::File(name) => push_target(shown, "File", name),
        Target::NoOpen(name) => push_target(shown, "NoOpen", name),
        Target::NoList(name) => push_target(shown, "NoList", name),
        Target::TooDeep(name) => push_target(shown, "TooDeep", name),
        Target::Unnamed(name) => push_target(shown, "Unnamed", name),
    }
}

fn shown(alloc: Global, list: &TargetList) -> Result<String, AllocError> {
    let mut shown = String::new(alloc);
    for target in list.as_slice() {
        if !shown.is_empty() {
            shown.push(' ')?;
        }
        show_target(&mut shown, target)?;
    }
    Ok(shown)
}

fn filter_of(alloc: Global, plan: &GrepPlan) -> Result<NameFilter, Fail> {
    match NameFilter::build(alloc, plan) {
        Ok(filter) => Ok(filter),
        Err(_) => Err(Fail::from(AllocError)),
    }
}

// Gives the plan the filters of a row. The other words are given back.
fn take_filters(alloc: Global, plan: &mut GrepPlan, row: &str) -> Result<Vec<String>, Fail> {
    let mut words = Vec::new(alloc);
    for word in row.split(' ') {
        if !add_filter(alloc, plan, word)? {
            words.push(String::from_str(alloc, word)?)?;
        }
    }
    Ok(words)
}

fn listed(
    alloc: Global,
    filter: &NameFilter,
    words: &[String],
    recursive: bool,
    files: &mut MemFiles,
) -> Result<String, Fail> {
    let list = targets(alloc, filter, words, recursive, files)?;
    Ok(shown(alloc, &list)?)
}

// What the words stand for among the files of the rows.
fn listed_in_files(
    alloc: Global,
    filter: &NameFilter,
    words: &[String],
    recursive: bool,
) -> Result<String, Fail> {
    let mut files = files_of(alloc)?;
    listed(alloc, filter, words, recursive, &mut files)
}

// What the words of a row stand for.
fn answer(alloc: Global, row: &str, recursive: bool) -> Result<String, Fail> {
    let mut plan = plan_of(alloc)?;
    let words = take_filters(alloc, &mut plan, row)?;
    let filter = filter_of(alloc, &plan)?;
    listed_in_files(alloc, &filter, words.as_slice(), recursive)
}

fn check(rt: &impl Abort, alloc: Global, rows: &str, recursive: bool) -> Result<(), Fail> {
    for row in rows.lines() {
        let (words, wanted) = row.split_once(" |").unwrap_or((row, "none"));
        let shown = answer(alloc, words, recursive)?;
        assert!(rt; shown.as_str() == wanted.trim_start());
    }
    Ok(())
}

#[test]
fn words_stand_for_files(rt: HostRuntime) -> Result<(), Fail> {
    check(&rt, rt.alloc(), PLAIN, false)
}

#[test]
fn directories_are_gone_through(rt: HostRuntime) -> Result<(), Fail> {
    check(&rt, rt.alloc(), RECURSIVE, true)
}

// A directory `d` under so many others of this name.
fn nested(alloc: Global, levels: u32, last: &str) -> Result<String, AllocError> {
    let mut path = String::from_str(alloc, "d")?;
    for _ in 0..levels {
        path.push_str("/d")?;
    }
    path.push_str(last)?;
    Ok(path)
}

// A file so many levels below `d`, and a directory that is refused.
fn nested_file(alloc: Global, levels: u32, refused: &str) -> Result<MemFiles, Fail> {
    let mut files = MemFiles::new(alloc);
    files.add(nested(alloc, levels, "/f")?, Vec::new(alloc), None)?;
    files.refuse(String::from_str(alloc, refused)?)?;
    Ok(files)
}

fn plain_filter(alloc: Global) -> Result<NameFilter, Fail> {
    let plan = plan_of(alloc)?;
    filter_of(alloc, &plan)
}

// What the word `d` stands for among these files.
fn below(alloc: Global, files: &mut MemFiles) -> Result<String, Fail> {
    let filter = plain_filter(alloc)?;
    let words = words_of(alloc, "d")?;
    listed(alloc, &filter, words.as_slice(), true, files)
}

fn is_below(alloc: Global, row: &(u32, &str, &str, u32, &str)) -> Result<bool, Fail> {
    let (levels, refused, kind, depth, last) = *row;
    let mut files = nested_file(alloc, levels, refused)?;
    let below = below(alloc, &mut files)?;
    let path = nested(alloc, depth, last)?;
    Ok(below.as_str().strip_prefix(kind) == Some(path.as_str()))
}

#[test]
fn directories_that_cannot_be_listed_are_told(rt: HostRuntime) -> Result<(), Fail> {
    let alloc = rt.alloc();
    let rows: [(u32, &str, &str, u32, &str); 4] = [
        (64, "", "File:", 64, "/f"),
        (65, "", "TooDeep:", 65, ""),
        (70, "", "TooDeep:", 65, ""),
        (70, "d/d/d", "NoList:", 2, ""),
    ];
    for row in &rows {
        let is_below = is_below(alloc, row)?;
        assert!(&rt; is_below);
    }
    Ok(())
}

fn without_words(alloc: Global, recursive: bool) -> Result<String, Fail> {
    let filter = plain_filter(alloc)?;
    listed(alloc, &filter, &[], recursive, &mut MemFiles::new(alloc))
}

#[test]
fn the_input_is_scanned_without_words(rt: HostRuntime) -> Result<(), Fail> {
    for recursive in [false, true] {
        let shown = without_words(rt.alloc(), recursive)?;
        assert!(&rt; shown.as_str() == "Input");
    }
    Ok(())
}

fn plan_with(alloc: Global, row: &str) -> Result<GrepPlan, Fail> {
    let mut plan = plan_of(alloc)?;
    for word in row.split(' ') {
        add_filter(alloc, &mut plan, word)?;
    }
    Ok(plan)
}

// The refusal of a filter with these patterns.
fn refusal(alloc: Global, row: &str) -> Result<Option<FilterError>, Fail> {
    let plan = plan_with(alloc, row)?;
    Ok(NameFilter::build(alloc, &plan).err())
}

#[test]
fn the_first_bad_pattern_is_told(rt: HostRuntime) -> Result<(), Fail> {
    static ROWS: [(&str, &str); 4] = [
        ("include=a exclude=b", "None"),
        (
            "exclude-dir=( exclude=a exclude=x( include=y",
            "Some(Bad { option: Exclude, index: 2, number: 114, at: 2 })",
        ),
        (
            "include-dir=a include-dir=[ exclude-dir=(",
            "Some(Bad { option: IncludeDir, index: 2, number: 106, at: 1 })",
        ),
        (
            "include=( include=)",
            "Some(Bad { option: Include, index: 1, number: 114, at: 1 })",
        ),
    ];
    let alloc = rt.alloc();
    for (row, wanted) in &ROWS {
        let refusal = refusal(alloc, row)?;
        let told = format!(in alloc; "{refusal:?}")?;
        assert!(&rt; told.as_str() == *wanted);
    }
    Ok(())
}
