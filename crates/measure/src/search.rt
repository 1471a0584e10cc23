//! How many lines a pattern matches.
ghost use Rattle.std.specs.Prelude.{◌≡◌};
ghost use Rattle.pat_tree.specs.declared.options.PartialMode.TheVariants.{Off};

use byte_lanes::EndKind;
use frame_machine::Scratch;
use line_feed::LineFeed;
use pat_tree::{MatchOptions, Options};
use pcre_io::{NoCallouts, StdSource};
use pcre2_api::Code;
use std::alloc::Global;
use std::io::Read;

/// Longer lines aren't counted.
const LONGEST: usize = 1_048_576;

fn is_matched(code: &Code, line: &[u8], options: &MatchOptions, scratch: &mut Scratch) -> bool
    requires { options.now.«partial» ≡ Off }
{
    line.len() <= LONGEST
        && code
            .match_at(line, 0, options, scratch, &mut NoCallouts)
            .is_ok()
}

/// The number of lines that the pattern matches, up to the end or up to a fault. None where the pattern isn't compiled.
pub fn count_matches<R: Read + Drop>(alloc: Global, pattern: &str, reader: R) -> Option<u64> {
    let code = Code::compile(alloc, pattern.as_bytes(), Options::PLAIN).ok()?;
    let options = MatchOptions::PLAIN;
    let mut scratch = Scratch::new(alloc);
    let mut source = StdSource::new(reader);
    let mut feed = LineFeed::new(alloc, EndKind::Lf, LONGEST);
    let mut count = 0u64;
    for _ in 0..u64::MAX {
        if !feed.is_live() {
            break;
        }
        let Ok(Some(line)) = feed.next(&mut source) else {
            break;
        };
        if is_matched(&code, line.bytes, &options, &mut scratch) {
            count = count.wrapping_add(1);
        }
    }
    Some(count)
}
