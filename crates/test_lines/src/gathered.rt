//! The callouts of a match call: what they answer, and what they are shown.
ghost use Rattle.std.specs.Prelude.{◌≡◌};
ghost use Rattle.test_lines.specs.Callouts.{is_number, answer_to};

use pcre_io::Memory;
use pcre2_api::{Block, Callouts};

/// What callouts answer (pcre2test, "SUBJECT MODIFIERS").
#[derive(Clone, Copy)]
pub struct Replies {
    /// Whether all are passed over, and none is shown.
    pub none: bool,
    /// Those of this number fail.
    pub fails: Option<u32>,
    /// Those of this number end the match with an error, also where they would fail.
    pub errs: Option<u32>,
}

// Whether a number is meant.
fn is_number(meant: Option<u32>, number: u32) -> bool
    ensures { result ≡ is_number meant number }
{
    match meant {
        Some(meant) => meant == number,
        None => false,
    }
}

impl Replies {
    /// What a callout of a number answers: 0 to go on, 1 to fail, -37 to end the match.
    fn answer(&self, number: u8) -> i32
        ensures { result ≡ answer_to self.now number }
    {
        let number = u32::from(number);
        if self.none {
            0
        } else if is_number(self.errs, number) {
            -37
        } else if is_number(self.fails, number) {
            1
        } else {
            0
        }
    }
}

/// The callouts of a match call, in order, unless they are passed over.
#[derive(Drop)]
pub struct Gathered {
    pub blocks: Vec<Block>,
    pub replies: Replies,
}

impl Callouts for Gathered {
    ghost use Rattle.std.specs.Prelude.{if◌then◌else◌, true, Some, None};

    ghost answers = { λ g block. answer_to g.replies block.number };

    ghost seen = { λ g. if g.replies.none then None else Some g.blocks.items };

    ghost refuses = { true };

    fn call(&mut self, block: &Block) -> Result<i32, Memory> {
        if self.replies.none {
            return Ok(0);
        }
        if self.blocks.push(*block).is_err() {
            return Err(Memory);
        }
        Ok(self.replies.answer(block.number))
    }
}
