//! A text with all matches of a pattern replaced.
use frame_machine::Scratch;
use pat_tree::{MatchOptions, Options};
use pcre2_api::{Code, SubstOptions, Substituted};
use std::alloc::Global;
use std::io::Read;

/// Longer texts aren't rewritten.
const LONGEST: usize = 2_147_483_647;

fn text_of<R: Read + Drop>(alloc: Global, mut reader: R) -> Option<Vec<u8>> {
    let mut text = Vec::new(alloc);
    reader.read_to_end(&mut text).ok()?;
    Some(text)
}

fn rewritten_by(alloc: Global, code: &Code, text: &[u8], replacement: &str) -> Option<Substituted> {
    if text.len() > LONGEST {
        return None;
    }
    let how = SubstOptions {
        global: true,
        ..SubstOptions::PLAIN
    };
    let mut scratch = Scratch::new(alloc);
    let plain = MatchOptions::PLAIN;
    let replacement = replacement.as_bytes();
    code.substitute(alloc, text, 0, &plain, &how, replacement, &mut scratch)
        .ok()
}

/// What the reader holds, as one subject, with all matches replaced. None where the pattern or the replacement is
/// refused, or the text can't be had.
pub fn rewritten<R: Read + Drop>(
    alloc: Global,
    pattern: &str,
    replacement: &str,
    reader: R,
) -> Option<Substituted> {
    let text = text_of(alloc, reader)?;
    let code = Code::compile(alloc, pattern.as_bytes(), Options::PLAIN).ok()?;
    rewritten_by(alloc, &code, &text, replacement)
}
