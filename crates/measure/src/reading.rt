//! How many nodes a pattern is read as, again and again.
use pat_build::read;
use pat_tree::Options;
use std::alloc::Global;
use std::io::Read;

/// Reads the pattern that the reader holds so many times. The sum of the numbers of its nodes, each time counted; None
/// where the pattern is refused or can't be had.
pub fn count_nodes<R: Read + Drop>(alloc: Global, times: u32, mut reader: R) -> Option<u64> {
    let mut pattern = Vec::new(alloc);
    reader.read_to_end(&mut pattern).ok()?;
    let mut nodes = 0u64;
    for _ in 0..times {
        let tree = read(alloc, &pattern, Options::PLAIN).ok()?;
        nodes = nodes.wrapping_add(u64::from(tree.root()) + 1);
    }
    Some(nodes)
}
