//! How many lines a reader has.
use byte_lanes::EndKind;
use line_feed::LineFeed;
use pcre_io::StdSource;
use std::alloc::Global;
use std::io::Read;

/// The number of lines up to the end, or up to a fault.
pub fn count_lines<R: Read + Drop>(alloc: Global, kind: EndKind, reader: R) -> u64 {
    let mut source = StdSource::new(reader);
    let mut feed = LineFeed::new(alloc, kind, 1_048_576);
    let mut count = 0;
    for _ in 0..u64::MAX {
        if !feed.is_live() {
            break;
        }
        match feed.next(&mut source) {
            Ok(Some(line)) => count = line.number,
            _ => break,
        }
    }
    count
}
