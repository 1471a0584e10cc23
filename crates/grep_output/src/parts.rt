//! Matches that are shown in place of their lines.
ghost use Rattle.std.specs.Prelude.{◌≡◌, ◌-◌, ◌^◌, ◌≤◌, ◌||◌, List, All, Option, flat_map, length, map};
ghost use Rattle.line_feed.specs.Lines.{row_of};
ghost use Rattle.ordered_search.specs.Forward.{IsWithin};
ghost use Rattle.ordered_search.specs.PlaceAnswer.{Outcome};
ghost use Rattle.grep_args.specs.declared.plan.OffsetMode.TheVariants.{Lines, File};
ghost use Rattle.grep_match.specs.Modes.{is_with};
ghost use Rattle.grep_output.specs.Texts.{match_text, part_text, joined, given_texts, is_any, span_text};
ghost use Rattle.grep_match.specs.Found.{Lists, groups_of, place_of};
ghost use Rattle.tool_io.specs.Writes.{Writes};

use frame_store::Span;
use grep_args::{GrepPlan, OffsetMode};
use grep_match::{MatchList, Place, is_named};
use itoa::Buffer;
use line_feed::Line;
use pcre_io::{IoError, Sink};
use tool_io::{text_if, write_texts};

// The text of a group, empty where it is unset.
fn text_of<'a>(bytes: &'a [u8], group: Option<Span>) -> &'a [u8]
    requires { IsWithin (length bytes.now) group }
    ensures { result.now ≡ span_text bytes.now group }
{
    match group {
        Some(span) => &bytes[span.from as usize..span.to as usize],
        None => b"",
    }
}

// Whether a group is set and not empty.
fn is_any(bytes: &[u8], groups: &[Option<Span>]) -> bool
    requires { All (IsWithin (length bytes.now)) groups.now }
    ensures { result ≡ is_any (given_texts (map (span_text bytes.now) groups.now)) }
{
    for group in groups {
        if !text_of(bytes, *group).is_empty() {
            return true;
        }
    }
    false
}

// Writes the groups that are set and not empty, with the separator between them.
fn write_groups<O: Sink>(
    out: &mut O,
    separator: &[u8],
    bytes: &[u8],
    groups: &[Option<Span>],
) -> Result<(), IoError>
    requires { All (IsWithin (length bytes.now)) groups.now }
    ensures { Writes (joined separator.now (given_texts (map (span_text bytes.now) groups.now)))
        (O.tells out.old) (O.tells out.new) result }
{
    let mut is_later = false;
    for group in groups {
        let text = text_of(bytes, *group);
        if !text.is_empty() {
            write_texts(out, &[text_if(is_later, separator), text])?;
            is_later = true;
        }
    }
    Ok(())
}

// Whether a match makes a line: where none of its groups is left, only a name or a number does.
fn makes_line(plan: &GrepPlan, bytes: &[u8], groups: &[Option<Span>]) -> bool
    requires { All (IsWithin (length bytes.now)) groups.now }
    ensures { result ≡ (is_any (given_texts (map (span_text bytes.now) groups.now))
        || (is_with plan.now.names || plan.now.line_number)) }
{
    is_any(bytes, groups) || is_named(plan.names) || plan.line_number
}

// Writes the groups of a match on a line of their own.
fn write_part<O: Sink>(
    out: &mut O,
    plan: &GrepPlan,
    name: &str,
    line: &Line<'_>,
    groups: &[Option<Span>],
) -> Result<(), IoError>
    requires { All (IsWithin (length line.now.bytes.now)) groups.now }
    ensures { (o : Outcome) → groups.now ≡ groups_of plan.now.only_matching o
        → Writes (part_text plan.now name.now (row_of line.now) o) (O.tells out.old)
        (O.tells out.new) result }
{
    if !makes_line(plan, line.bytes, groups) {
        return Ok(());
    }
    let is_named = is_named(plan.names);
    let mut buffer = Buffer::new();
    let number = buffer.format(line.number).as_bytes();
    write_texts(
        out,
        &[
            text_if(is_named, name.as_bytes()),
            text_if(is_named, b":"),
            text_if(plan.line_number, number),
            text_if(plan.line_number, b":"),
        ],
    )?;
    write_groups(out, plan.om_separator.bytes(), line.bytes, groups)?;
    write_texts(out, &[b"\n"])
}

// How many bytes a match has.
fn length_of(place: Place) -> usize
    requires { place.keep ≤ place.to }
    ensures { result ≡ place.to - place.keep }
{
    place.to - place.keep
}

/// Writes where a match stands from the beginning of its line, and its length.
pub fn write_in_line<O: Sink>(
    out: &mut O,
    plan: &GrepPlan,
    name: &str,
    line: &Line<'_>,
    place: Place,
) -> Result<(), IoError>
    requires { place.keep ≤ place.to }
    ensures { (o : Outcome) → place ≡ place_of o
        → Writes (match_text plan.now name.now Lines (row_of line.now) o) (O.tells out.old)
        (O.tells out.new) result }
{
    let is_named = is_named(plan.names);
    let mut number = Buffer::new();
    let mut from = Buffer::new();
    let mut len = Buffer::new();
    write_texts(
        out,
        &[
            text_if(is_named, name.as_bytes()),
            text_if(is_named, b":"),
            number.format(line.number).as_bytes(),
            b":",
            from.format(place.keep).as_bytes(),
            b",",
            len.format(length_of(place)).as_bytes(),
            b"\n",
        ],
    )
}

// Writes where a match stands from the beginning of its input, and its length.
fn write_in_file<O: Sink>(
    out: &mut O,
    plan: &GrepPlan,
    name: &str,
    line: &Line<'_>,
    place: Place,
) -> Result<(), IoError>
    requires short { line.now.offset ≤ 2 ^ 40 }
    requires ordered { place.keep ≤ place.to }
    requires within { place.to ≤ length line.now.bytes.now }
    ensures { (o : Outcome) → place ≡ place_of o
        → Writes (match_text plan.now name.now File (row_of line.now) o) (O.tells out.old)
        (O.tells out.new) result }
{
    let is_named = is_named(plan.names);
    let mut from = Buffer::new();
    let mut len = Buffer::new();
    write_texts(
        out,
        &[
            text_if(is_named, name.as_bytes()),
            text_if(is_named, b":"),
            from.format(line.offset + place.keep as u64).as_bytes(),
            b",",
            len.format(length_of(place)).as_bytes(),
            b"\n",
        ],
    )
}

/// Writes a match, of which these are the groups.
pub fn write_match<O: Sink>(
    out: &mut O,
    plan: &GrepPlan,
    name: &str,
    line: &Line<'_>,
    place: Place,
    groups: &[Option<Span>],
) -> Result<(), IoError>
    requires short { line.now.offset ≤ 2 ^ 40 }
    requires ordered { place.keep ≤ place.to }
    requires within { place.to ≤ length line.now.bytes.now }
    requires groups { All (IsWithin (length line.now.bytes.now)) groups.now }
    ensures { (o : Outcome) → place ≡ place_of o → groups.now ≡ groups_of plan.now.only_matching o
        → Writes (match_text plan.now name.now plan.now.offsets (row_of line.now) o)
        (O.tells out.old) (O.tells out.new) result }
{
    match plan.offsets {
        OffsetMode::NoOffsets => write_part(out, plan, name, line, groups),
        OffsetMode::Lines => write_in_line(out, plan, name, line, place),
        OffsetMode::File => write_in_file(out, plan, name, line, place),
    }
}

/// Writes the matches of a line, each on a line of its own: the groups that the plan shows, or where it stands
/// (pcre2grep, "OPTIONS", `-o`, `--line-offsets` and `--file-offsets`).
pub fn write_matches<O: Sink>(
    out: &mut O,
    plan: &GrepPlan,
    name: &str,
    line: &Line<'_>,
    found: &MatchList,
) -> Result<(), IoError>
    requires short { line.now.offset ≤ 2 ^ 40 }
    requires listed { (os : List Outcome) × Lists plan.now.only_matching (length line.now.bytes.now)
        found.now os }
    ensures { (os : List Outcome) → Lists plan.now.only_matching (length line.now.bytes.now)
        found.now os
        → Writes (flat_map (match_text plan.now name.now plan.now.offsets (row_of line.now)) os)
        (O.tells out.old) (O.tells out.new) result }
{
    let width = plan.only_matching.len();
    let mut groups = found.groups();
    for i in 0..found.len() {
        let (shown, more) = groups.split_at(width);
        write_match(out, plan, name, line, found.place(i), shown)?;
        groups = more;
    }
    Ok(())
}
