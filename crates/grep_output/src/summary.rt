//! What is told of a whole input, once it was scanned.
ghost use Rattle.grep_output.specs.InputText.{count_text, end_out};
ghost use Rattle.tool_io.specs.Texts.{line};
ghost use Rattle.tool_io.specs.Writes.{Writes};

use grep_args::GrepPlan;
use grep_match::{Mode, is_matching, is_named};
use itoa::Buffer;
use pcre_io::{IoError, Sink};
use tool_io::{text_if, write_texts};

// Writes the number of selected lines. With `-l` the name is always shown, and only a count above 0.
fn write_count<O: Sink>(
    out: &mut O,
    plan: &GrepPlan,
    name: &str,
    selected: u64,
) -> Result<(), IoError>
    ensures { Writes (count_text plan.now name.now selected) (O.tells out.old) (O.tells out.new)
        result }
{
    let is_matching = is_matching(plan.names);
    if is_matching && selected == 0 {
        return Ok(());
    }
    let is_named = is_matching || is_named(plan.names);
    let mut buffer = Buffer::new();
    write_texts(
        out,
        &[
            text_if(is_named, name.as_bytes()),
            text_if(is_named, b":"),
            buffer.format(selected).as_bytes(),
            b"\n",
        ],
    )
}

// Writes the name of an input.
fn write_name<O: Sink>(out: &mut O, name: &str) -> Result<(), IoError>
    ensures { Writes (line name.now) (O.tells out.old) (O.tells out.new) result }
{
    write_texts(out, &[name.as_bytes(), b"\n"])
}

/// Writes what is told of an input of which so many lines are selected: its count or its name, as
/// the mode asks (pcre2grep, "OPTIONS", `-c`, `-l` and `-L`). Of a binary input, in a mode that
/// shows lines, only that it matches is told ("BINARY FILES").
pub fn write_summary<O: Sink>(
    out: &mut O,
    plan: &GrepPlan,
    name: &str,
    mode: Mode,
    is_told: bool,
    selected: u64,
) -> Result<(), IoError>
    ensures { Writes (end_out plan.now name.now mode is_told selected) (O.tells out.old)
        (O.tells out.new) result }
{
    if is_told {
        if selected == 0 {
            return Ok(());
        }
        return write_texts(out, &[b"Binary file ", name.as_bytes(), b" matches\n"]);
    }
    match mode {
        Mode::Counts => write_count(out, plan, name, selected),
        Mode::NamesWithout if selected == 0 => write_name(out, name),
        Mode::NamesWith if selected > 0 => write_name(out, name),
        _ => Ok(()),
    }
}
