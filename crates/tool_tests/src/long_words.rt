//! A run of pcre2grep with a word that is too long for a data file of `grep_tests`.
use grep_main::run_grep;
use pcre_io::{MemFiles, MemSink, MemSource};
use std::test::Fail;

#[test]
fn a_pattern_has_at_most_65536_bytes(rt: HostRuntime) -> Result<(), Fail> {
    let alloc = rt.alloc();
    let mut words = vec![in alloc; String::from_str(alloc, "--")?]?;
    words.push("a".repeat(alloc, 65_537)?)?;
    let mut files = MemFiles::new(alloc);
    let mut input = MemSource::new(b"a\n".to_vec(alloc)?, None, 3);
    let mut out = MemSink::new(alloc, None, 3);
    let mut err = MemSink::new(alloc, None, 3);
    let words = words.as_slice();
    let status = run_grep(alloc, words, &mut files, &mut input, &mut out, &mut err);
    let message = b"pcre2grep: pattern 1: error 120 at offset 0: pattern too large\n";
    assert!(rt; out.bytes() == b"".as_slice());
    assert!(rt; err.bytes() == message.as_slice());
    assert!(rt; status == 2);
    Ok(())
}
