//! The ends of a subject, by the matcher that finds them all.
ghost use Rattle.std.specs.Prelude.{◌≡◌, ◌<◌, ◌≤◌, length, true, IfOk, IfErr};
ghost use Rattle.pat_tree.specs.Pattern.{pattern_of};
ghost use Rattle.pcre2_api.specs.match_starts.Asked.{passed_over};
ghost use Rattle.pcre2_api.specs.dfa_drive.Answer.{AreWithin};
ghost use Rattle.pcre2_api.specs.Matched.{search_of};
ghost use Rattle.pcre2_api.specs.DfaMatched.{IsDfaFound, IsDfaError};
ghost use Rattle.test_run.specs.Dfa.{end_line, ends_text, failed_text, fault_place, unmatched_text, none_text};
ghost use Rattle.test_run.specs.Dfa.{told_at, told_text, first_text, dfa_text, replace_with_dfa_line};
ghost use Rattle.test_run.specs.declared.dfa.Search.TheVariants.{Failed};
ghost use Rattle.test_run.specs.DfaSearches.{error_text, IsSearch, LiesIn, TellsEnds, TellsError};
ghost use Rattle.tool_io.specs.Writes.{Writes};

use crate::lines::write_error;
use crate::options::How;
use pcre_io::{IoError, Sink};
use pcre2_api::{Code, DfaError, DfaFound, Lists, MatchOptions, Steps, matching_at, place_behind};
use std::alloc::Global;
use std::marker::Brand;
use std::sync::ledger::{Blank, Ledger};
use test_lines::marks::write_name;
use test_lines::shown::{write_count, write_shown};
use tool_io::write_texts;

/// What a search for all ends comes to.
#[derive(Clone, Copy)]
enum Search {
    /// A match whose longest end this is.
    Ends { longest: usize, is_empty: bool },
    Nothing,
    /// A partial match, or a failure: no further match is searched for.
    Failed,
}

// Writes an end: the text up to it, by its number.
fn write_one<O: Sink>(
    out: &mut O,
    subject: &[u8],
    start: usize,
    end: usize,
    n: u64,
    utf: bool,
) -> Result<(), IoError>
    requires ordered { start ≤ end }
    requires within { end ≤ length subject.now }
    ensures { Writes (end_line utf subject.now start n end) (O.tells out.old) (O.tells out.new)
        result }
{
    write_count(out, n)?;
    write_shown(out, &subject[start..end], utf)?;
    write_texts(out, &[b"\n"])
}

// Writes the ends of a match.
fn write_ends<O: Sink>(
    out: &mut O,
    subject: &[u8],
    found: &DfaFound,
    utf: bool,
) -> Result<(), IoError>
    requires { AreWithin found.now.start (length subject.now) found.now.ends }
    ensures { Writes (ends_text utf subject.now found.now.start 0 found.now.ends)
        (O.tells out.old) (O.tells out.new) result }
{
    for n in 0..found.ends.len() {
        let end = *found.ends.get(n) as usize;
        write_one(out, subject, found.start, end, n as u64, utf)?;
    }
    Ok(())
}

// The place of a fault of UTF-8 in the subject.
fn fault_place(e: DfaError) -> Option<usize>
    ensures { result ≡ fault_place e }
{
    match e {
        DfaError::BadUtf { at } => Some(at),
        _ => None,
    }
}

// Writes why a search failed.
fn write_failed<O: Sink>(out: &mut O, e: DfaError) -> Result<(), IoError>
    ensures { Writes (failed_text e) (O.tells out.old) (O.tells out.new) result }
{
    write_error(out, e.number(), e.text(), fault_place(e))
}

// Looks for all ends of a match from a place on.
fn counted<L: Ledger>(
    alloc: Global,
    code: &Code,
    subject: &[u8],
    at: usize,
    options: &MatchOptions,
    lists: &mut Lists,
    blank: Blank,
) -> Result<DfaFound, DfaError>
    requires name { blank.name ≡ L.name }
    requires parts { blank.parts ≡ L.parts }
    requires one { blank.parts ≡ 1 }
    requires short { length subject.now < 4294967295 }
    ensures found { IfOk result (IsDfaFound
        (search_of code.now options.now subject.now at passed_over)) }
    ensures refused { IfErr result (IsDfaError
        (search_of code.now options.now subject.now at passed_over)) }
{
    let mut steps = Steps::<L>::new(blank);
    code.dfa_match(alloc, subject, at, options, lists, &mut steps)
}

// A search with a counter of its own for the tests of classes.
fn find_ends(
    alloc: Global,
    code: &Code,
    subject: &[u8],
    at: usize,
    options: &MatchOptions,
    lists: &mut Lists,
) -> Result<DfaFound, DfaError>
    requires short { length subject.now < 4294967295 }
    ensures found { IfOk result (IsDfaFound
        (search_of code.now options.now subject.now at passed_over)) }
    ensures refused { IfErr result (IsDfaError
        (search_of code.now options.now subject.now at passed_over)) }
{
    counted::<Brand>(alloc, code, subject, at, options, lists, Blank::new(1))
}

// What a match comes to.
fn told_of(found: &DfaFound) -> Search
    ensures { TellsEnds result found.now }
{
    let longest = if found.ends.len() == 0 {
        found.start
    } else {
        *found.ends.get(0) as usize
    };
    Search::Ends {
        longest,
        is_empty: found.start == longest,
    }
}

// Writes a partial match, or why a search failed.
fn write_unmatched<O: Sink>(
    out: &mut O,
    subject: &[u8],
    e: DfaError,
    utf: bool,
) -> Result<(), IoError>
    requires lies { LiesIn (length subject.now) e }
    ensures { Writes (unmatched_text utf subject.now e) (O.tells out.old) (O.tells out.new) result }
{
    match e {
        DfaError::Partial { start, end } => {
            write_name(out, b"Partial match: ", &subject[start..end], utf)
        }
        _ => write_failed(out, e),
    }
}

// The same; no further search follows.
fn fail<O: Sink>(out: &mut O, subject: &[u8], e: DfaError, utf: bool) -> Result<Search, IoError>
    requires lies { LiesIn (length subject.now) e }
    ensures wrote { Writes (unmatched_text utf subject.now e) (O.tells out.old) (O.tells out.new)
        result }
    ensures comes { IfOk result (λ s. s ≡ Failed) }
{
    write_unmatched(out, subject, e, utf)?;
    Ok(Search::Failed)
}

// Tells what an error of a search comes to, and writes a partial match, or why the search failed.
fn tell_error<O: Sink>(
    out: &mut O,
    subject: &[u8],
    e: DfaError,
    utf: bool,
) -> Result<Search, IoError>
    requires lies { LiesIn (length subject.now) e }
    ensures wrote { Writes (error_text utf subject.now e) (O.tells out.old) (O.tells out.new)
        result }
    ensures comes { IfOk result (TellsError e) }
{
    match e {
        DfaError::NoMatch => Ok(Search::Nothing),
        DfaError::Memory => Err(IoError::Memory),
        _ => fail(out, subject, e, utf),
    }
}

// Searches a subject from a place on, and writes the ends, or a partial match, or why the search
// failed.
fn search_at<O: Sink>(
    alloc: Global,
    out: &mut O,
    code: &Code,
    subject: &[u8],
    at: usize,
    options: &MatchOptions,
    lists: &mut Lists,
) -> Result<Search, IoError>
    requires short { length subject.now < 4294967295 }
    ensures wrote { Writes (told_text code.now.tree.options.utf subject.now
        (told_at (pattern_of code.now.tree) options.now subject.now at))
        (O.tells out.old) (O.tells out.new) result }
    ensures comes { IfOk result (λ s. IsSearch s
        (told_at (pattern_of code.now.tree) options.now subject.now at)) }
{
    let utf = code.options().utf;
    match find_ends(alloc, code, subject, at, options, lists) {
        Ok(found) => {
            write_ends(out, subject, &found, utf)?;
            Ok(told_of(&found))
        }
        Err(e) => tell_error(out, subject, e, utf),
    }
}

// Writes that there is no match, unless one was shown.
fn write_end<O: Sink>(out: &mut O, is_shown: bool) -> Result<(), IoError>
    ensures { Writes (none_text is_shown) (O.tells out.old) (O.tells out.new) result }
{
    if is_shown {
        return Ok(());
    }
    write_texts(out, &[b"No match\n"])
}

// Writes the ends of the first match.
fn write_first<O: Sink>(
    alloc: Global,
    out: &mut O,
    code: &Code,
    subject: &[u8],
    how: &How,
    lists: &mut Lists,
) -> Result<(), IoError>
    requires short { length subject.now < 4294967295 }
    ensures { Writes (first_text (pattern_of code.now.tree) how.now.matching subject.now
        how.now.start) (O.tells out.old) (O.tells out.new) result }
{
    let start = how.start as usize;
    match search_at(alloc, out, code, subject, start, &how.matching, lists)? {
        Search::Nothing => write_end(out, false),
        Search::Ends { .. } | Search::Failed => Ok(()),
    }
}

// Writes the ends of all matches.
fn write_all<O: Sink>(
    alloc: Global,
    out: &mut O,
    code: &Code,
    subject: &[u8],
    how: &How,
    lists: &mut Lists,
) -> Result<(), IoError>
    requires short { length subject.now < 4294967295 }
    ensures { Writes (dfa_text (pattern_of code.now.tree) how.now.matching subject.now true
        how.now.start) (O.tells out.old) (O.tells out.new) result }
{
    let mut at = how.start as usize;
    let mut again = false;
    let mut is_shown = false;
    for _turn in 0..2 * subject.len() + 2 {
        let options = matching_at(&how.matching, again);
        match search_at(alloc, out, code, subject, at, &options, lists)? {
            Search::Ends { longest, is_empty } => {
                is_shown = true;
                at = longest;
                again = is_empty;
            }
            Search::Nothing if again && at < subject.len() => {
                at = place_behind(code, subject, at);
                again = false;
            }
            Search::Nothing => return write_end(out, is_shown),
            Search::Failed => return Ok(()),
        }
    }
    write_end(out, is_shown)
}

/// Writes that a subject's matches can't be replaced where all ends are looked for.
pub fn write_replace_with_dfa<O: Sink>(out: &mut O) -> Result<(), IoError>
    ensures { Writes replace_with_dfa_line (O.tells out.old) (O.tells out.new) result }
{
    write_texts(out, &[b"** replace with dfa\n"])
}

/// Writes all ends of the first match of a subject, the longest first, or those of all matches.
/// Each match is searched for at the longest end of the one before (pcre2test, "DEFAULT OUTPUT FROM
/// THE ALTERNATIVE MATCHING FUNCTION").
pub fn write_all_ends<O: Sink>(
    alloc: Global,
    out: &mut O,
    code: &Code,
    subject: &[u8],
    how: &How,
) -> Result<(), IoError>
    requires short { length subject.now < 4294967295 }
    ensures { Writes (dfa_text (pattern_of code.now.tree) how.now.matching subject.now
        how.now.global how.now.start) (O.tells out.old) (O.tells out.new) result }
{
    // all searches of a subject share them
    let mut lists = Lists::new(alloc);
    if how.global {
        write_all(alloc, out, code, subject, how, &mut lists)
    } else {
        write_first(alloc, out, code, subject, how, &mut lists)
    }
}
