//! The names of verbs, where they are shown (pcre2test, "Showing MARK names").
ghost use Rattle.std.specs.Prelude.{◌≡◌, None, slice_get};
ghost use Rattle.std.specs.Option.{option_and_then, option_copied};
ghost use Rattle.pat_tree.specs.Pattern.{pattern_of};
ghost use Rattle.test_lines.specs.Lines.{nothing_text};
ghost use Rattle.test_lines.specs.Marks.{showing, name_of, name_line, mark_line, missed_line, partial_head};
ghost use Rattle.test_lines.specs.Marks.{partial_text};
ghost use Rattle.tool_io.specs.Writes.{Writes};

use crate::shown::write_shown;
use pcre_io::{IoError, Sink};
use pcre2_api::{Code, Found};
use tool_io::write_texts;

/// Writes a name after other text.
pub fn write_name<O: Sink>(
    out: &mut O,
    before: &[u8],
    name: &[u8],
    utf: bool,
) -> Result<(), IoError>
    ensures { Writes (name_line utf before.now name.now) (O.tells out.old)
        (O.tells out.new) result }
{
    write_texts(out, &[before])?;
    write_shown(out, name, utf)?;
    write_texts(out, &[b"\n"])
}

/// The name of this number.
pub fn named(code: &Code, mark: Option<u32>) -> Option<&[u8]>
    ensures { option_copied result
        ≡ option_and_then (slice_get code.now.tree.verb_names) mark }
{
    match mark {
        Some(id) => code.mark_name(id),
        None => None,
    }
}

// The name of this number, if names are shown.
fn name_of(code: &Code, mark: Option<u32>, marks: bool) -> Option<&[u8]>
    ensures { option_copied result
        ≡ name_of (showing (pattern_of code.now.tree) marks) mark }
{
    if marks { named(code, mark) } else { None }
}

// The name on a match's path, if names are shown.
fn mark_of<'a>(found: &Found<'a>, marks: bool) -> Option<&'a [u8]>
    ensures { option_copied result
        ≡ name_of (showing (pattern_of found.now.code.tree) marks) found.now.outcome.mark }
{
    if marks { found.mark() } else { None }
}

/// Writes the mark of a match.
pub fn write_mark<O: Sink>(out: &mut O, found: &Found<'_>, marks: bool) -> Result<(), IoError>
    ensures { Writes (let s = showing (pattern_of found.now.code.tree) marks in
        mark_line s (name_of s found.now.outcome.mark)) (O.tells out.old) (O.tells out.new) result }
{
    match mark_of(found, marks) {
        Some(name) => write_name(out, b"MK: ", name, found.is_utf()),
        None => Ok(()),
    }
}

// Writes how a line about a partial match begins.
fn write_partial_head<O: Sink>(out: &mut O, name: Option<&[u8]>, utf: bool) -> Result<(), IoError>
    ensures { Writes (partial_head utf (option_copied name.entry)) (O.tells out.old)
        (O.tells out.new) result }
{
    match name {
        Some(name) => {
            write_texts(out, &[b"Partial match, mark="])?;
            write_shown(out, name, utf)
        }
        None => write_texts(out, &[b"Partial match"]),
    }
}

/// Writes a partial match of a text, with the last name that was met (pcre2test, "DEFAULT OUTPUT
/// FROM pcre2test").
pub fn write_partial<O: Sink>(
    out: &mut O,
    code: &Code,
    text: &[u8],
    mark: Option<u32>,
    marks: bool,
) -> Result<(), IoError>
    ensures { Writes (partial_text (showing (pattern_of code.now.tree) marks) text.now mark)
        (O.tells out.old) (O.tells out.new) result }
{
    let utf = code.options().utf;
    write_partial_head(out, name_of(code, mark, marks), utf)?;
    write_name(out, b": ", text, utf)
}

// Writes that there is no match.
fn write_missed<O: Sink>(
    out: &mut O,
    code: &Code,
    mark: Option<u32>,
    marks: bool,
) -> Result<(), IoError>
    ensures { Writes (let s = showing (pattern_of code.now.tree) marks in
        missed_line s (name_of s mark)) (O.tells out.old) (O.tells out.new) result }
{
    match name_of(code, mark, marks) {
        Some(name) => write_name(out, b"No match, mark = ", name, code.options().utf),
        None => write_texts(out, &[b"No match\n"]),
    }
}

/// Writes that there is no match, unless one was shown.
pub fn write_end<O: Sink>(
    out: &mut O,
    code: &Code,
    is_shown: bool,
    mark: Option<u32>,
    marks: bool,
) -> Result<(), IoError>
    ensures { Writes (nothing_text (showing (pattern_of code.now.tree) marks) mark is_shown)
        (O.tells out.old) (O.tells out.new) result }
{
    if is_shown {
        return Ok(());
    }
    write_missed(out, code, mark, marks)
}
