//! Inputs that are held whole.
ghost use Rattle.std.specs.Prelude.{◌≤◌};

use byte_lanes::EndKind;
use grep_multi::{HoldError, hold};
use pcre_io::MemSource;
use std::alloc::Global;
use std::test::Fail;

// Whether this text is held of an input, and whether a read of it failed.
fn is_held(
    alloc: Global,
    kind: EndKind,
    bytes: &[u8],
    fail_at: Option<u64>,
    piece: u32,
    text: &[u8],
) -> Result<bool, Fail>
    requires some { 1 ≤ piece }
{
    let mut source = MemSource::new(bytes.to_vec(alloc)?, fail_at, piece);
    match hold(alloc, kind, &mut source) {
        Ok(held) => Ok(held.text.as_slice() == text && held.faulted == fail_at.is_some()),
        Err(_) => Ok(false),
    }
}

// The same whatever the pieces that a read gives.
fn is_held_so(
    alloc: Global,
    kind: EndKind,
    bytes: &[u8],
    fail_at: Option<u64>,
    text: &[u8],
) -> Result<bool, Fail> {
    let by_bytes = is_held(alloc, kind, bytes, fail_at, 1, text)?;
    let by_threes = is_held(alloc, kind, bytes, fail_at, 3, text)?;
    let at_once = is_held(alloc, kind, bytes, fail_at, 100, text)?;
    Ok(by_bytes && by_threes && at_once)
}

#[test]
fn inputs_are_held_to_their_end(rt: HostRuntime) -> Result<(), Fail> {
    let alloc = rt.alloc();
    let none = is_held_so(alloc, EndKind::Lf, b"", None, b"")?;
    let lines = is_held_so(alloc, EndKind::Lf, b"foo\nbar", None, b"foo\nbar")?;
    assert!(rt; none && lines);
    Ok(())
}

#[test]
fn whole_lines_before_a_fault_are_held(rt: HostRuntime) -> Result<(), Fail> {
    let alloc = rt.alloc();
    let part = is_held_so(alloc, EndKind::Lf, b"foo\nbar\n", Some(6), b"foo\n")?;
    let whole = is_held_so(alloc, EndKind::Lf, b"foo\nbar\n", Some(8), b"foo\nbar\n")?;
    let open = is_held_so(alloc, EndKind::AnyCrLf, b"a\nb\r\n", Some(4), b"a\n")?;
    let shut = is_held_so(alloc, EndKind::Cr, b"a\rb\r\n", Some(4), b"a\rb\r")?;
    assert!(rt; part && whole && open && shut);
    Ok(())
}

// How an input of so many zero bytes is held: its length, or why it isn't.
fn held_length(alloc: Global, size: usize) -> Result<Result<usize, HoldError>, Fail> {
    let mut bytes = Vec::new(alloc);
    bytes.resize(size, 0)?;
    let mut source = MemSource::new(bytes, None, 1_000_000);
    match hold(alloc, EndKind::Lf, &mut source) {
        Ok(held) => Ok(Ok(held.text.as_slice().len())),
        Err(e) => Ok(Err(e)),
    }
}

#[test]
fn a_larger_input_is_refused(rt: HostRuntime) -> Result<(), Fail> {
    let alloc = rt.alloc();
    let greatest = held_length(alloc, 16_777_216)?;
    assert!(rt; greatest == Ok(16_777_216));
    let larger = held_length(alloc, 16_777_217)?;
    assert!(rt; larger == Err(HoldError::TooLarge));
    Ok(())
}
