//! Lines that are shown.
ghost use Rattle.std.specs.Prelude.{◌≡◌, ◌++◌};
ghost use Rattle.line_feed.specs.Lines.{row_of};
ghost use Rattle.grep_output.specs.Context.{Shown};
ghost use Rattle.grep_output.specs.Texts.{line_text, mark_of, name_before, newline_of, number_before};
ghost use Rattle.tool_io.specs.Writes.{Writes};

use grep_args::GrepPlan;
use grep_match::is_named;
use itoa::Buffer;
use line_feed::Line;
use pcre_io::{IoError, Sink};
use tool_io::{text_if, write_texts};

// The newline of a line as it is shown: a last line without one gets LF.
fn newline_of<'a>(line: &Line<'a>) -> &'a [u8]
    ensures { result.now ≡ newline_of (row_of line.now) }
{
    if line.end.is_empty() { b"\n" } else { line.end }
}

// What stands behind name and number.
fn mark_of(is_selected: bool) -> &'static [u8]
    ensures { result.now ≡ mark_of is_selected }
{
    if is_selected { b":" } else { b"-" }
}

// Writes the name of a line's input and its number, each with a mark behind it, where the plan asks for them.
fn write_before<O: Sink>(
    out: &mut O,
    plan: &GrepPlan,
    name: &str,
    number: u64,
    mark: &[u8],
) -> Result<(), IoError>
    ensures { Writes (name_before plan.now name.now mark.now
        ++ number_before plan.now name.now number mark.now)
        (O.tells out.old) (O.tells out.new) result }
{
    let is_named = is_named(plan.names);
    // Most lines are shown without either.
    if !is_named && !plan.line_number {
        return Ok(());
    }
    let mut buffer = Buffer::new();
    let number = buffer.format(number).as_bytes();
    write_texts(
        out,
        &[
            text_if(is_named, name.as_bytes()),
            text_if(is_named, mark),
            text_if(plan.line_number, number),
            text_if(plan.line_number, mark),
        ],
    )
}

/// Writes a line, with the name of its input and its number before it where the plan asks for them.
/// A colon stands after them where the line is selected, else a hyphen (pcre2grep, "OPTIONS", `-A`,
/// `-B`, `-H` and `-n`).
pub fn write_line<O: Sink>(
    out: &mut O,
    plan: &GrepPlan,
    name: &str,
    line: &Line<'_>,
    is_selected: bool,
) -> Result<(), IoError>
    ensures { (s : Shown) → s.row ≡ row_of line.now → s.is_selected ≡ is_selected
        → Writes (line_text plan.now name.now s) (O.tells out.old) (O.tells out.new) result }
{
    write_before(out, plan, name, line.number, mark_of(is_selected))?;
    write_texts(out, &[line.bytes, newline_of(line)])
}
