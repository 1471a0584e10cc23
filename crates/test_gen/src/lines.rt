//! The lines that are made.
ghost use Rattle.std.specs.Prelude.{◌≡◌, ◌<◌, IfOk, OnOk, length};
ghost use Rattle.test_gen.specs.Generated.{next, behind, letter, letters};

use pcre_io::Memory;
use std::alloc::Global;

// How many letters a line has.
const LETTERS: u32 = 12;

/// Makes lines, each behind the one before it.
#[derive(Drop)]
pub struct Generator {
    /// The number of the last letter, and 1 before the first.
    pub x: u32,
    ghost below: { x < 65537 },
}

fn letter(x: u32) -> u8
    ensures { result ≡ letter x }
{
    match x % 4 {
        0 => b'a',
        1 => b'b',
        2 => b'c',
        _ => b'-',
    }
}

impl Generator {
    pub fn new() -> Generator
        ensures { result.x ≡ 1 }
    {
        Generator { x: 1 }
    }

    fn next_letter(&mut self) -> u8
        ensures letter { result ≡ letter (next self.old.x) }
        ensures x { self.new.x ≡ next self.old.x }
    {
        self.x = (75 * self.x + 74) % 65_537;
        letter(self.x)
    }

    /// The next line, of twelve letters.
    pub fn next_line(&mut self, alloc: Global) -> Result<Vec<u8>, Memory>
        ensures line { IfOk result (λ line. line.items ≡ letters self.old.x 12) }
        ensures len { IfOk result (λ line. length line.items ≡ 12) }
        ensures x { OnOk result (self.new.x ≡ behind self.old.x 12) }
    {
        let mut line = Vec::new(alloc);
        for _letter in 0..LETTERS {
            line.push(self.next_letter())?;
        }
        Ok(line)
    }
}
