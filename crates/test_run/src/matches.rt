//! The matches of a subject.
ghost use Rattle.std.specs.Prelude.{◌≡◌, ◌<◌, ◌+◌, ◌*◌, ◌++◌, length, false, IfOk};
ghost use Rattle.std.specs.Option.{option_copied};
ghost use Rattle.pat_tree.specs.Pattern.{pattern_of};
ghost use Rattle.test_run.specs.declared.matches.Search.TheVariants.{Failed};
ghost use Rattle.test_lines.specs.Callouts.{calls_text};
ghost use Rattle.test_lines.specs.Lines.{failed_line};
ghost use Rattle.test_lines.specs.Marks.{showing, match_text, partial_text};
ghost use Rattle.uni_text.specs.Characters.{IsChecked};
ghost use Rattle.test_run.specs.Matches.{answered, last_met, search_text, all_text, first_text, searched};
ghost use Rattle.test_run.specs.Searches.{error_text, refused_text, IsSearch, LiesIn, TellsError, TellsMatch};
ghost use Rattle.test_run.specs.Searches.{TellsMissed};
ghost use Rattle.test_lines.specs.Shown.{shown_or_unset, group_line, groups_text};
ghost use Rattle.tool_io.specs.Writes.{Writes};

use crate::course::Tested;
use crate::lines::write_failed;
use crate::options::How;
use pcre_io::{IoError, Sink};
use pcre2_api::{Code, Found, MatchError, MatchOptions, Scratch, matching_at, place_behind};
use std::alloc::Global;
use test_lines::callouts::{Calling, write_calls};
use test_lines::gathered::Gathered;
use test_lines::marks::{write_end, write_mark, write_partial};
use test_lines::shown::{write_number, write_shown};
use tool_io::write_texts;

/// What a search comes to.
#[derive(Clone, Copy)]
enum Search {
    /// A match that ends here.
    Found { to: usize, is_empty: bool },
    /// No match, with the last name that was met.
    Nothing { mark: Option<u32> },
    Failed,
}

// Writes the text of a group, or that it is unset.
fn write_text<O: Sink>(out: &mut O, text: Option<&[u8]>, utf: bool) -> Result<(), IoError>
    ensures { Writes (shown_or_unset utf (option_copied text.entry)) (O.tells out.old)
        (O.tells out.new) result }
{
    match text {
        Some(text) => write_shown(out, text, utf),
        None => write_texts(out, &[b"<unset>"]),
    }
}

// Writes a group of a match.
fn write_group<O: Sink>(out: &mut O, found: &Found<'_>, n: u32) -> Result<(), IoError>
    ensures { Writes (group_line found.now.code.tree.options.utf found.now.subject
        found.now.outcome n) (O.tells out.old) (O.tells out.new) result }
{
    write_number(out, n)?;
    write_text(out, found.group(n), found.is_utf())?;
    write_texts(out, &[b"\n"])
}

// Writes the text of a match, and its groups up to the greatest that is set.
fn write_groups<O: Sink>(out: &mut O, found: &Found<'_>) -> Result<(), IoError>
    ensures { Writes (groups_text found.now.code.tree.options.utf found.now.subject
        found.now.outcome) (O.tells out.old) (O.tells out.new) result }
{
    let top = found.top();
    for n in 0..top {
        write_group(out, found, n)?;
    }
    write_group(out, found, top)
}

// Writes a match: its texts, and its mark.
fn write_match<O: Sink>(out: &mut O, found: &Found<'_>, marks: bool) -> Result<(), IoError>
    ensures { Writes (match_text (showing (pattern_of found.now.code.tree) marks) found.now.subject
        found.now.outcome) (O.tells out.old) (O.tells out.new) result }
{
    write_groups(out, found)?;
    write_mark(out, found, marks)
}

// What a match comes to.
fn found_at(matched: &Found<'_>) -> Search
    ensures { TellsMatch result matched.now.outcome }
{
    Search::Found {
        to: matched.end(),
        is_empty: matched.start() == matched.end(),
    }
}

// Writes a match, and tells what it comes to.
fn tell_match<O: Sink>(out: &mut O, found: &Found<'_>, marks: bool) -> Result<Search, IoError>
    ensures wrote { Writes (match_text (showing (pattern_of found.now.code.tree) marks)
        found.now.subject found.now.outcome) (O.tells out.old) (O.tells out.new) result }
    ensures comes { IfOk result (λ s. TellsMatch s found.now.outcome) }
{
    write_match(out, found, marks)?;
    Ok(found_at(found))
}

// Writes why a search failed.
fn fail<O: Sink>(out: &mut O, e: MatchError) -> Result<Search, IoError>
    ensures wrote { Writes (failed_line e) (O.tells out.old) (O.tells out.new) result }
    ensures comes { IfOk result (λ s. s ≡ Failed) }
{
    write_failed(out, e)?;
    Ok(Search::Failed)
}

// Writes a partial match.
fn tell_partial<O: Sink>(
    out: &mut O,
    code: &Code,
    text: &[u8],
    mark: Option<u32>,
    marks: bool,
) -> Result<Search, IoError>
    ensures wrote { let s = showing (pattern_of code.now.tree) marks in
        Writes (partial_text s text.now mark) (O.tells out.old) (O.tells out.new) result }
    ensures comes { IfOk result (λ s. s ≡ Failed) }
{
    write_partial(out, code, text, mark, marks)?;
    Ok(Search::Failed)
}

// Tells what an error of a search comes to, and writes a partial match, or why the search failed.
fn tell_error<O: Sink>(
    out: &mut O,
    code: &Code,
    subject: &[u8],
    e: MatchError,
    marks: bool,
) -> Result<Search, IoError>
    requires lies { LiesIn (length subject.now) e }
    ensures wrote { Writes (error_text (showing (pattern_of code.now.tree) marks) subject.now e)
        (O.tells out.old) (O.tells out.new) result }
    ensures comes { IfOk result (TellsError e) }
{
    match e {
        MatchError::NoMatch { mark } => Ok(Search::Nothing { mark }),
        MatchError::Partial { start, end, mark } => {
            tell_partial(out, code, &subject[start..end], mark, marks)
        }
        MatchError::Memory => Err(IoError::Memory),
        _ => fail(out, e),
    }
}

// Writes what the callouts of a match call show.
fn show_calls<O: Sink>(
    alloc: Global,
    out: &mut O,
    tested: &Tested,
    subject: &[u8],
    calls: &Gathered,
) -> Result<(), IoError>
    requires { length subject.now < 4294967295 }
    ensures { let p = pattern_of tested.now.code.tree in Writes (calls_text p.options.utf
        p.verb_names tested.now.pattern subject.now calls.now.replies calls.now.blocks.items)
        (O.tells out.old) (O.tells out.new) result }
{
    let calling = Calling {
        utf: tested.code.options().utf,
        pattern: tested.pattern.bytes(),
        subject,
    };
    write_calls(alloc, out, &tested.code, calling, calls)
}

// Writes what callouts showed, and then a match, and tells what it comes to.
fn tell_found<O: Sink>(
    alloc: Global,
    out: &mut O,
    tested: &Tested,
    subject: &[u8],
    calls: &Gathered,
    found: &Found<'_>,
    marks: bool,
) -> Result<Search, IoError>
    requires { length subject.now < 4294967295 }
    ensures wrote { let p = pattern_of tested.now.code.tree in Writes (calls_text p.options.utf
        p.verb_names tested.now.pattern subject.now calls.now.replies calls.now.blocks.items
        ++ match_text (showing (pattern_of found.now.code.tree) marks) found.now.subject
        found.now.outcome) (O.tells out.old) (O.tells out.new) result }
    ensures comes { IfOk result (λ s. TellsMatch s found.now.outcome) }
{
    show_calls(alloc, out, tested, subject, calls)?;
    tell_match(out, found, marks)
}

// Writes what callouts showed, and then what an error of a search comes to, and tells that.
fn tell_shown<O: Sink>(
    alloc: Global,
    out: &mut O,
    tested: &Tested,
    subject: &[u8],
    calls: &Gathered,
    e: MatchError,
    marks: bool,
) -> Result<Search, IoError>
    requires short { length subject.now < 4294967295 }
    requires lies { LiesIn (length subject.now) e }
    ensures wrote { let p = pattern_of tested.now.code.tree in Writes (calls_text p.options.utf
        p.verb_names tested.now.pattern subject.now calls.now.replies calls.now.blocks.items
        ++ error_text (showing p marks) subject.now e) (O.tells out.old) (O.tells out.new) result }
    ensures comes { IfOk result (TellsError e) }
{
    show_calls(alloc, out, tested, subject, calls)?;
    tell_error(out, &tested.code, subject, e, marks)
}

// The same, but of want of memory nothing is written: what callouts were shown isn't told then.
fn tell_refused<O: Sink>(
    alloc: Global,
    out: &mut O,
    tested: &Tested,
    subject: &[u8],
    calls: &Gathered,
    e: MatchError,
    marks: bool,
) -> Result<Search, IoError>
    requires short { length subject.now < 4294967295 }
    requires lies { LiesIn (length subject.now) e }
    ensures wrote { let p = pattern_of tested.now.code.tree in Writes (refused_text
        (calls_text p.options.utf p.verb_names tested.now.pattern subject.now calls.now.replies
        calls.now.blocks.items) (showing p marks) subject.now e) (O.tells out.old)
        (O.tells out.new) result }
    ensures comes { IfOk result (TellsError e) }
{
    match e {
        MatchError::Memory => Err(IoError::Memory),
        _ => tell_shown(alloc, out, tested, subject, calls, e, marks),
    }
}

// Searches a subject that was tested from a place on, and writes what callouts show, and then the
// match, or why the search failed.
fn search_from<O: Sink>(
    alloc: Global,
    out: &mut O,
    tested: &Tested,
    subject: &[u8],
    start: usize,
    options: &MatchOptions,
    how: &How,
    scratch: &mut Scratch,
) -> Result<Search, IoError>
    requires checked { IsChecked tested.now.code.tree.options.utf subject.now }
    requires short { length subject.now < 4294967295 }
    ensures wrote { Writes (search_text tested.now.pattern (pattern_of tested.now.code.tree)
        how.now subject.now options.now start) (O.tells out.old) (O.tells out.new) result }
    ensures comes { IfOk result (λ s. IsSearch (length subject.now) s
        (answered (pattern_of tested.now.code.tree) how.now.replies options.now subject.now
        start)) }
    ensures missed { IfOk result (TellsMissed (last_met (pattern_of tested.now.code.tree)
        how.now.replies options.now subject.now start)) }
{
    let code = &tested.code;
    let mut calls = Gathered {
        blocks: Vec::new(alloc),
        replies: how.replies,
    };
    match code.match_again(subject, start, options, scratch, &mut calls) {
        Ok(found) => tell_found(alloc, out, tested, subject, &calls, &found, how.marks),
        Err(e) => tell_refused(alloc, out, tested, subject, &calls, e, how.marks),
    }
}

// Writes the first match of a subject.
fn write_first<O: Sink>(
    alloc: Global,
    out: &mut O,
    tested: &Tested,
    subject: &[u8],
    how: &How,
    scratch: &mut Scratch,
) -> Result<(), IoError>
    requires checked { IsChecked tested.now.code.tree.options.utf subject.now }
    requires short { length subject.now < 4294967295 }
    ensures { Writes (first_text tested.now.pattern (pattern_of tested.now.code.tree) how.now
        subject.now how.now.start) (O.tells out.old) (O.tells out.new) result }
{
    let start = how.start as usize;
    match search_from(
        alloc,
        out,
        tested,
        subject,
        start,
        &how.matching,
        how,
        scratch,
    )? {
        Search::Nothing { mark } => write_end(out, &tested.code, false, mark, how.marks),
        _ => Ok(()),
    }
}

// Writes all matches of a subject.
fn write_all_matches<O: Sink>(
    alloc: Global,
    out: &mut O,
    tested: &Tested,
    subject: &[u8],
    how: &How,
    scratch: &mut Scratch,
) -> Result<(), IoError>
    requires checked { IsChecked tested.now.code.tree.options.utf subject.now }
    requires short { length subject.now < 4294967295 }
    ensures { Writes (all_text tested.now.pattern (pattern_of tested.now.code.tree) how.now
        subject.now (2 * length subject.now + 2) false false how.now.start)
        (O.tells out.old) (O.tells out.new) result }
{
    let code = &tested.code;
    let mut at = how.start as usize;
    let mut again = false;
    let mut is_shown = false;
    for _turn in 0..2 * subject.len() + 2 {
        let options = matching_at(&how.matching, again);
        match search_from(alloc, out, tested, subject, at, &options, how, scratch)? {
            Search::Found { to, is_empty } => {
                is_shown = true;
                at = to;
                again = is_empty;
            }
            Search::Nothing { .. } if again && at < subject.len() => {
                at = place_behind(code, subject, at);
                again = false;
            }
            Search::Nothing { mark } => {
                return write_end(out, code, is_shown, mark, how.marks);
            }
            Search::Failed => return Ok(()),
        }
    }
    write_end(out, code, is_shown, None, how.marks)
}

/// Searches a subject, and writes its first match or all of them (pcre2test, "Finding all matches
/// in a string"), or why the first search can't begin. What callouts show stands before the match
/// of their search.
pub fn write_matches<O: Sink>(
    alloc: Global,
    out: &mut O,
    tested: &Tested,
    subject: &[u8],
    how: &How,
    scratch: &mut Scratch,
) -> Result<(), IoError>
    requires short { length subject.now < 4294967295 }
    ensures { Writes (searched tested.now.pattern (pattern_of tested.now.code.tree) how.now
        subject.now) (O.tells out.old) (O.tells out.new) result }
{
    if let Err(e) = tested.code.test_start(subject, how.start as usize) {
        return write_failed(out, e);
    }
    if how.global {
        write_all_matches(alloc, out, tested, subject, how, scratch)
    } else {
        write_first(alloc, out, tested, subject, how, scratch)
    }
}
