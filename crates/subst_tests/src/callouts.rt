//! What callouts are shown (pcre2callout, "The callout interface"). The answers of the C library,
//! 10.42, without its start optimisations.
ghost use Rattle.std.specs.Prelude.{◌<◌, length};

use crate::substitutions::cut;
use pcre_io::Memory;
use pcre2_api::{Block, Callouts, Code, MatchOptions, Options, Scratch};
use std::alloc::{AllocError, Global};
use std::test::Fail;

/// It keeps what it is shown, and lets the match go on.
#[derive(Drop)]
struct Recorder {
    shown: Vec<Block>,
}

impl Callouts for Recorder {
    ghost use Rattle.std.specs.Prelude.{true, pos, Some};

    ghost answers = { λ _ _. pos 0 };

    ghost seen = { λ r. Some r.shown.items };

    ghost refuses = { true };

    fn call(&mut self, block: &Block) -> Result<i32, Memory> {
        if self.shown.push(*block).is_err() {
            return Err(Memory);
        }
        Ok(0)
    }
}

/// A pattern with automatic callouts, a subject, and what the callouts of its match are shown: the number of each, the
/// place and the length of its item, and the present place.
type Row = &'static str;

const ROWS: [Row; 4] = [
    r"\d?[A-E]\* :: E* :: 255,0,3,0 255,3,5,0 255,8,2,1 255,10,0,2 ",
    "a(?(?=b)b|c) :: ab :: 255,0,1,0 255,1,2,1 255,3,3,1 255,6,1,1 255,7,1,2 255,8,1,1 255,9,1,2 255,12,0,2 ",
    "a(?(?=b)b|c) :: ac :: 255,0,1,0 255,1,2,1 255,3,3,1 255,6,1,1 255,10,1,1 255,11,1,2 255,12,0,2 ",
    "(?(?C9)(?!a)b|(?C1)a) :: ab :: 255,0,2,0 9,7,3,0 255,10,1,0 255,11,1,1 1,19,1,0 255,20,1,1 255,21,0,1 ",
];

const LITERAL: Row = "ab :: ab :: 255,0,1,0 255,1,1,1 255,2,0,2 ";

const AUTOMATIC: Options = Options {
    auto_callout: true,
    no_start_optimize: true,
    ..Options::PLAIN
};

// Whether the rest of what is shown is as at a match's start, which is the subject's, without a text or a mark.
fn is_plain(block: &Block) -> bool {
    block.text_from == 0 && block.text_to == 0 && block.start == 0 && block.mark.is_none()
}

fn push_block(text: &mut String, block: &Block) -> Result<(), AllocError> {
    if !is_plain(block) {
        return text.push_str("another ");
    }
    let (number, place, len) = (block.number, block.pattern_at, block.item_len);
    write!(text, "{number},{place},{len},{} ", block.current)
}

fn text_of(alloc: Global, blocks: &[Block]) -> Result<String, Fail> {
    let mut text = String::new(alloc);
    for block in blocks {
        push_block(&mut text, block)?;
    }
    Ok(text)
}

// What the callouts of a match are shown, as in a row.
fn shown(alloc: Global, code: &Code, subject: &[u8]) -> Result<String, Fail>
    requires short { length subject.now < 1000 }
{
    let mut calls = Recorder {
        shown: Vec::new(alloc),
    };
    let mut scratch = Scratch::new(alloc);
    match code.match_at(subject, 0, &MatchOptions::PLAIN, &mut scratch, &mut calls) {
        Ok(_) => text_of(alloc, calls.shown.as_slice()),
        Err(e) => Err(Fail::from(e)),
    }
}

fn is_shown_by(alloc: Global, code: &Code, subject: &[u8], wanted: &str) -> Result<bool, Fail> {
    if subject.len() >= 1000 {
        return Ok(false);
    }
    let shown = shown(alloc, code, subject)?;
    Ok(shown.as_str() == wanted)
}

fn is_shown(alloc: Global, options: Options, row: &str) -> Result<bool, Fail> {
    let (pattern, rest) = cut(row);
    let (subject, wanted) = cut(rest);
    let code = Code::compile(alloc, pattern.as_bytes(), options)?;
    is_shown_by(alloc, &code, subject.as_bytes(), wanted)
}

#[test]
fn automatic_callouts_are_shown(rt: HostRuntime) -> Result<(), Fail> {
    for row in &ROWS {
        let is_shown = is_shown(rt.alloc(), AUTOMATIC, row)?;
        assert!(&rt; is_shown);
    }
    Ok(())
}

#[test]
fn automatic_callouts_of_a_literal_are_shown(rt: HostRuntime) -> Result<(), Fail> {
    let literal = Options {
        literal: true,
        ..AUTOMATIC
    };
    let is_shown = is_shown(rt.alloc(), literal, LITERAL)?;
    assert!(&rt; is_shown);
    Ok(())
}
