//! What is shown of callouts (pcre2test, "CALLOUTS").
ghost use Rattle.std.specs.Prelude.{◌≡◌, ◌<◌, ◌∷◌, ◌++◌, ℕ, List, length, codes, false, None, slice_index};
ghost use Rattle.std.specs.Prelude.{slice_range, IfOk, OnOk};
ghost use Rattle.std.specs.Option.{option_copied};
ghost use Rattle.tool_io.specs.Texts.{line};
ghost use Rattle.tool_io.specs.Writes.{Writes};
ghost use Rattle.test_lines.specs.Marks.{name_line};
ghost use Rattle.test_lines.specs.Callouts.{low, high, low_width, rest_width, gap, item_of, second_part};
ghost use Rattle.test_lines.specs.Callouts.{string_place, closer, string_in, blanks, begin_part, caret_part};
ghost use Rattle.test_lines.specs.Callouts.{marks_part, item_part, end_part, block_line, subject_line, string_line};
ghost use Rattle.test_lines.specs.Callouts.{head_part, is_same, latest_line, name_before, number_part, place_part};
ghost use Rattle.test_lines.specs.Callouts.{latest_part, callout_text, called_text, calls_text, undoubled};

use crate::columns::columns;
use crate::gathered::Gathered;
use crate::marks::{named, write_name};
use itoa::Buffer;
use pcre_io::{IoError, Memory, Sink};
use pcre2_api::{Block, Code};
use std::alloc::Global;
use tool_io::{text_if, write_texts};

/// What a match call is about: in UTF or outside it, the pattern, and the subject.
#[derive(Clone, Copy)]
pub struct Calling<'a> {
    pub utf: bool,
    pub pattern: &'a [u8],
    pub subject: &'a [u8],
}

// The bytes between two places, which a callout tells; past the text's end there are none.
fn part_of(text: &[u8], from: usize, to: usize) -> &[u8]
    ensures { result.now ≡ slice_range text.now from to }
{
    let to = to.min(text.len());
    let from = from.min(to);
    &text[from..to]
}

// The byte at a place; past the text's end a zero.
fn byte_at(text: &[u8], at: usize) -> u8
    ensures { result ≡ slice_index text.now at }
{
    if at < text.len() { text[at] } else { 0 }
}

// What closes a string that this opens.
fn closer(opener: u8) -> u8
    ensures { result ≡ closer opener }
{
    if opener == b'{' { b'}' } else { opener }
}

// Adds a byte of a string, unless it is a closing delimiter just behind another, and says whether a
// second one would be passed over now.
fn add_byte(string: &mut Vec<u8>, byte: u8, close: u8, again: bool) -> Result<bool, Memory>
    ensures { (rest : List ℕ) → IfOk result (λ now. string.new.items ++ undoubled close now rest
        ≡ string.old.items ++ undoubled close again (byte ∷ rest)) }
{
    if again && byte == close {
        return Ok(false);
    }
    string.push(byte)?;
    Ok(byte == close)
}

// Adds the bytes of a string, those that were doubled once.
fn add_string(string: &mut Vec<u8>, text: &[u8], close: u8) -> Result<(), Memory>
    ensures { OnOk result (string.new.items
        ≡ string.old.items ++ undoubled close false text.now) }
{
    let mut again = false;
    for byte in text {
        again = add_byte(string, *byte, close, again)?;
    }
    Ok(())
}

// The string of a callout with its delimiters.
fn string_in(alloc: Global, pattern: &[u8], block: &Block) -> Result<Vec<u8>, Memory>
    ensures { IfOk result (λ string. string.items ≡ string_in pattern.now block.now) }
{
    let from = block.text_from as usize;
    let opener = byte_at(pattern, from.saturating_sub(1));
    let close = closer(opener);
    let mut string = Vec::new(alloc);
    string.push(opener)?;
    let text = part_of(pattern, from, block.text_to as usize);
    add_string(&mut string, text, close)?;
    string.push(close)?;
    Ok(string)
}

fn write_blanks<O: Sink>(out: &mut O, n: usize) -> Result<(), IoError>
    ensures { Writes (blanks n) (O.tells out.old) (O.tells out.new) result }
{
    for _i in 0..n {
        write_texts(out, &[b" "])?;
    }
    Ok(())
}

// Writes a mark after so many blanks.
fn write_caret<O: Sink>(out: &mut O, n: usize) -> Result<(), IoError>
    ensures { Writes (caret_part n) (O.tells out.old) (O.tells out.new) result }
{
    write_blanks(out, n)?;
    write_texts(out, &[b"^"])
}

// Writes the number of a callout, right in three places.
fn write_number<O: Sink>(out: &mut O, n: u8) -> Result<(), IoError>
    ensures { Writes (number_part n ++ codes " ") (O.tells out.old) (O.tells out.new) result }
{
    let mut number = Buffer::new();
    write_texts(
        out,
        &[
            text_if(n < 100, b" "),
            text_if(n < 10, b" "),
            number.format(n).as_bytes(),
            b" ",
        ],
    )
}

// Writes the place of an automatic callout.
fn write_place<O: Sink>(out: &mut O, at: u32) -> Result<(), IoError>
    ensures { Writes (place_part at ++ codes " ") (O.tells out.old) (O.tells out.new) result }
{
    let mut place = Buffer::new();
    write_texts(
        out,
        &[
            text_if(at < 10, b" "),
            b"+",
            place.format(at).as_bytes(),
            b" ",
        ],
    )
}

// Writes how the line of a block begins.
fn write_begin<O: Sink>(out: &mut O, block: &Block) -> Result<(), IoError>
    ensures { Writes (begin_part block.now) (O.tells out.old) (O.tells out.new) result }
{
    if 0 < block.text_to {
        write_texts(out, &[b"    "])
    } else if block.number == 255 {
        write_place(out, block.pattern_at)
    } else {
        write_number(out, block.number)
    }
}

// The lower of a block's two places.
fn low(block: &Block) -> usize
    ensures { result ≡ low block.now }
{
    block.start.min(block.current) as usize
}

// The other one.
fn high(block: &Block) -> usize
    ensures { result ≡ high block.now }
{
    block.start.max(block.current) as usize
}

// The columns before the first mark.
fn low_width(calling: Calling, block: &Block) -> usize
    requires { length calling.subject.now < 4294967295 }
    ensures { result ≡ low_width calling.entry.utf calling.entry.pattern.now
        calling.entry.subject.now block.now }
{
    columns(part_of(calling.subject, 0, low(block)), calling.utf)
}

// The columns between the two marks.
fn rest_width(calling: Calling, block: &Block) -> usize
    requires { length calling.subject.now < 4294967295 }
    ensures { result ≡ rest_width calling.entry.utf calling.entry.pattern.now
        calling.entry.subject.now block.now }
{
    let part = part_of(calling.subject, low(block), high(block));
    columns(part, calling.utf).saturating_sub(1)
}

// The columns between the last mark and the next item, which stands five columns past the subject's
// end.
fn gap(calling: Calling, block: &Block) -> usize
    requires { length calling.subject.now < 4294967295 }
    ensures { result ≡ gap calling.entry.utf calling.entry.pattern.now calling.entry.subject.now
        block.now }
{
    let part = part_of(calling.subject, high(block), calling.subject.len());
    columns(part, calling.utf) + 4
}

// The next item.
fn item_of<'a>(calling: Calling<'a>, block: &Block) -> &'a [u8]
    ensures { result.now ≡ item_of calling.entry.utf calling.entry.pattern.now
        calling.entry.subject.now block.now }
{
    let at = block.pattern_at as usize;
    part_of(calling.pattern, at, at + block.item_len as usize)
}

// Writes a second mark, where its place is another.
fn write_second<O: Sink>(out: &mut O, calling: Calling, block: &Block) -> Result<(), IoError>
    requires { length calling.subject.now < 4294967295 }
    ensures { Writes (second_part calling.entry.utf calling.entry.pattern.now
        calling.entry.subject.now block.now) (O.tells out.old) (O.tells out.new) result }
{
    if low(block) < high(block) {
        write_caret(out, rest_width(calling, block))
    } else {
        Ok(())
    }
}

// Writes a mark under the lower place, and one under the other where they differ.
fn write_marks<O: Sink>(out: &mut O, calling: Calling, block: &Block) -> Result<(), IoError>
    requires { length calling.subject.now < 4294967295 }
    ensures { Writes (marks_part calling.entry.utf calling.entry.pattern.now
        calling.entry.subject.now block.now) (O.tells out.old) (O.tells out.new) result }
{
    write_caret(out, low_width(calling, block))?;
    write_second(out, calling, block)
}

// Writes the next item, and ends the line.
fn write_item<O: Sink>(out: &mut O, calling: Calling, block: &Block) -> Result<(), IoError>
    requires { length calling.subject.now < 4294967295 }
    ensures { Writes (line (item_part calling.entry.utf calling.entry.pattern.now
        calling.entry.subject.now block.now)) (O.tells out.old) (O.tells out.new) result }
{
    write_blanks(out, gap(calling, block))?;
    write_name(out, b"", item_of(calling, block), calling.utf)
}

// Writes how the line of a block ends.
fn write_end<O: Sink>(out: &mut O, calling: Calling, block: &Block) -> Result<(), IoError>
    requires { length calling.subject.now < 4294967295 }
    ensures { Writes (end_part calling.entry.utf calling.entry.pattern.now
        calling.entry.subject.now block.now) (O.tells out.old) (O.tells out.new) result }
{
    if 0 < block.item_len {
        write_item(out, calling, block)
    } else {
        write_texts(out, &[b"\n"])
    }
}

// Writes the line of a block up to its marks.
fn write_places<O: Sink>(out: &mut O, calling: Calling, block: &Block) -> Result<(), IoError>
    requires { length calling.subject.now < 4294967295 }
    ensures { Writes (begin_part block.now ++ marks_part calling.entry.utf
        calling.entry.pattern.now calling.entry.subject.now block.now) (O.tells out.old)
        (O.tells out.new) result }
{
    write_begin(out, block)?;
    write_marks(out, calling, block)
}

// Writes the line of a block.
fn write_line<O: Sink>(out: &mut O, calling: Calling, block: &Block) -> Result<(), IoError>
    requires { length calling.subject.now < 4294967295 }
    ensures { Writes (block_line calling.entry.utf calling.entry.pattern.now
        calling.entry.subject.now block.now) (O.tells out.old) (O.tells out.new) result }
{
    write_places(out, calling, block)?;
    write_end(out, calling, block)
}

// Writes the subject.
fn write_subject<O: Sink>(out: &mut O, calling: Calling) -> Result<(), IoError>
    ensures { Writes (subject_line calling.entry.utf calling.entry.pattern.now
        calling.entry.subject.now) (O.tells out.old) (O.tells out.new) result }
{
    write_name(out, b"--->", calling.subject, calling.utf)
}

// Writes the place of a string in the pattern.
fn write_string_place<O: Sink>(out: &mut O, at: u32) -> Result<(), IoError>
    ensures { Writes (string_place at) (O.tells out.old) (O.tells out.new) result }
{
    let mut place = Buffer::new();
    write_texts(out, &[b"Callout (", place.format(at).as_bytes(), b"): "])
}

// Writes a string with its delimiters, after its place in the pattern.
fn write_string_at<O: Sink>(out: &mut O, at: u32, string: &[u8], utf: bool) -> Result<(), IoError>
    ensures { Writes (name_line utf (string_place at) string.now) (O.tells out.old)
        (O.tells out.new) result }
{
    write_string_place(out, at)?;
    write_name(out, b"", string, utf)
}

// Writes the string of a callout.
fn write_string<O: Sink>(
    alloc: Global,
    out: &mut O,
    calling: Calling,
    block: &Block,
) -> Result<(), IoError>
    ensures { Writes (string_line calling.entry.utf calling.entry.pattern.now
        calling.entry.subject.now block.now) (O.tells out.old) (O.tells out.new) result }
{
    match string_in(alloc, calling.pattern, block) {
        Ok(string) => write_string_at(out, block.text_from, &string, calling.utf),
        Err(_) => Err(IoError::Memory),
    }
}

// Writes the string of a callout, and the subject again.
fn write_strings<O: Sink>(
    alloc: Global,
    out: &mut O,
    calling: Calling,
    block: &Block,
) -> Result<(), IoError>
    ensures { Writes (string_line calling.entry.utf calling.entry.pattern.now
        calling.entry.subject.now block.now ++ subject_line calling.entry.utf
        calling.entry.pattern.now calling.entry.subject.now) (O.tells out.old) (O.tells out.new)
        result }
{
    write_string(alloc, out, calling, block)?;
    write_subject(out, calling)
}

// Writes what stands before the line of a block.
fn write_head<O: Sink>(
    alloc: Global,
    out: &mut O,
    calling: Calling,
    before: Option<Block>,
    block: &Block,
) -> Result<(), IoError>
    ensures { Writes (head_part calling.entry.utf calling.entry.pattern.now
        calling.entry.subject.now before block.now) (O.tells out.old) (O.tells out.new) result }
{
    if 0 < block.text_to {
        write_strings(alloc, out, calling, block)
    } else if before.is_none() {
        write_subject(out, calling)
    } else {
        Ok(())
    }
}

// Whether two names are the same, or both are missing.
fn is_same(a: Option<&[u8]>, b: Option<&[u8]>) -> bool
    ensures { result ≡ is_same (option_copied a.entry) (option_copied b.entry) }
{
    match (a, b) {
        (Some(a), Some(b)) => a == b,
        (None, None) => true,
        (Some(_), None) | (None, Some(_)) => false,
    }
}

// The last name before a callout that follows this one.
fn name_of(code: &Code, block: Option<Block>) -> Option<&[u8]>
    ensures { option_copied result ≡ name_before code.now.tree.verb_names block }
{
    match block {
        Some(block) => named(code, block.mark),
        None => None,
    }
}

// Writes the last name.
fn write_latest_line<O: Sink>(out: &mut O, name: Option<&[u8]>, utf: bool) -> Result<(), IoError>
    ensures { Writes (latest_line utf (option_copied name.entry)) (O.tells out.old)
        (O.tells out.new) result }
{
    match name {
        Some(name) => write_name(out, b"Latest Mark: ", name, utf),
        None => write_texts(out, &[b"Latest Mark: <unset>\n"]),
    }
}

// Writes the last name after the line of a block, where it isn't that of the callout before.
fn write_latest<O: Sink>(
    out: &mut O,
    code: &Code,
    utf: bool,
    before: Option<Block>,
    block: &Block,
) -> Result<(), IoError>
    ensures { Writes (latest_part code.now.tree.verb_names utf before block.now) (O.tells out.old)
        (O.tells out.new) result }
{
    let name = named(code, block.mark);
    if is_same(name_of(code, before), name) {
        return Ok(());
    }
    write_latest_line(out, name, utf)
}

// Writes the line of a block, and what stands before it.
fn write_shown_block<O: Sink>(
    alloc: Global,
    out: &mut O,
    calling: Calling,
    before: Option<Block>,
    block: &Block,
) -> Result<(), IoError>
    requires { length calling.subject.now < 4294967295 }
    ensures { Writes (head_part calling.entry.utf calling.entry.pattern.now
        calling.entry.subject.now before block.now ++ block_line calling.entry.utf
        calling.entry.pattern.now calling.entry.subject.now block.now) (O.tells out.old)
        (O.tells out.new) result }
{
    write_head(alloc, out, calling, before, block)?;
    write_line(out, calling, block)
}

// Writes what a callout shows, after that before it.
fn write_callout<O: Sink>(
    alloc: Global,
    out: &mut O,
    code: &Code,
    calling: Calling,
    before: Option<Block>,
    block: &Block,
) -> Result<(), IoError>
    requires { length calling.subject.now < 4294967295 }
    ensures { Writes (callout_text calling.entry.utf code.now.tree.verb_names
        calling.entry.pattern.now calling.entry.subject.now before block.now)
        (O.tells out.old) (O.tells out.new) result }
{
    write_shown_block(alloc, out, calling, before, block)?;
    write_latest(out, code, calling.utf, before, block)
}

// Writes what callouts show, one after another.
fn write_called<O: Sink>(
    alloc: Global,
    out: &mut O,
    code: &Code,
    calling: Calling,
    blocks: &[Block],
) -> Result<(), IoError>
    requires { length calling.subject.now < 4294967295 }
    ensures { Writes (called_text calling.entry.utf code.now.tree.verb_names
        calling.entry.pattern.now calling.entry.subject.now None blocks.now)
        (O.tells out.old) (O.tells out.new) result }
{
    let mut before = None;
    for block in blocks {
        write_callout(alloc, out, code, calling, before, block)?;
        before = Some(*block);
    }
    Ok(())
}

/// Writes the callouts of a match call, unless they are passed over.
pub fn write_calls<O: Sink>(
    alloc: Global,
    out: &mut O,
    code: &Code,
    calling: Calling,
    calls: &Gathered,
) -> Result<(), IoError>
    requires { length calling.subject.now < 4294967295 }
    ensures { Writes (calls_text calling.entry.utf code.now.tree.verb_names
        calling.entry.pattern.now calling.entry.subject.now calls.now.replies
        calls.now.blocks.items) (O.tells out.old) (O.tells out.new) result }
{
    if calls.replies.none {
        return Ok(());
    }
    write_called(alloc, out, code, calling, &calls.blocks)
}
