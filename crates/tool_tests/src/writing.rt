//! Texts in memory.
use pcre_io::{IoError, MemSink};
use std::test::Fail;
use tool_io::{say, write_texts};

#[test]
fn texts_stand_one_after_another(rt: HostRuntime) -> Result<(), Fail> {
    let mut out = MemSink::new(rt.alloc(), None, 2);
    let written = write_texts(&mut out, &[b"one", b"", b"two"]);
    assert!(rt; written.is_ok() && out.bytes() == b"onetwo".as_slice());
    let mut narrow = MemSink::new(rt.alloc(), Some(4), 3);
    let failed = write_texts(&mut narrow, &[b"one", b"two"]) == Err(IoError::Failed);
    assert!(rt; failed && narrow.bytes() == b"onet".as_slice());
    Ok(())
}

#[test]
fn a_line_is_said_with_a_status(rt: HostRuntime) -> Result<(), Fail> {
    let mut err = MemSink::new(rt.alloc(), None, 100);
    let mut full = MemSink::new(rt.alloc(), Some(2), 100);
    let (said, cut) = (say(&mut err, b"no", 2), say(&mut full, b"no", 1));
    assert!(rt; said == 2 && err.bytes() == b"no\n".as_slice());
    assert!(rt; cut == 4 && full.bytes() == b"no".as_slice());
    Ok(())
}
