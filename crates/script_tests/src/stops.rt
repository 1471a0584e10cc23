//! What is written of scripts by a plan, and where a run stops.
use pcre_io::{MemSink, MemSource};
use std::test::Fail;
use test_modifiers::Modifiers;
use test_run::{ScriptStop, run_script};
use test_script::TestPlan;

// The plan without words.
fn plain() -> TestPlan {
    TestPlan {
        quiet: true,
        defaults: Modifiers::none(),
    }
}

#[test]
fn defaults_of_the_plan_come_first(rt: HostRuntime) -> Result<(), Fail> {
    let mut defaults = Modifiers::none();
    defaults.caseless = Some(true);
    let plan = TestPlan {
        quiet: false,
        defaults,
    };
    let mut source = MemSource::new(Vec::from_slice(rt.alloc(), b"/A/\na\n\n")?, None, 7);
    let mut out = MemSink::new(rt.alloc(), None, 100);
    assert_eq!(rt;
        run_script(rt.alloc(), &plan, &mut source, &mut out),
        Ok(())
    );
    assert_eq!(rt; out.bytes(), b"/A/\na\n 0: a\n\n".as_slice());
    Ok(())
}

// Inputs, the place at which every read fails, the room of the output, what is written, and how the
// run ends.
const STOPS: [(
    &'static [u8],
    Option<u64>,
    Option<u64>,
    &'static [u8],
    Result<(), ScriptStop>,
); 7] = [
    (b"", None, None, b"", Ok(())),
    (b"/a/\na", None, None, b"/a/\na\n 0: a\n", Ok(())),
    (
        b"/a/\na\nb\n",
        Some(7),
        None,
        b"/a/\na\n 0: a\n",
        Err(ScriptStop::ReadFault),
    ),
    (
        b"/a/\na\nb\n",
        Some(0),
        None,
        b"",
        Err(ScriptStop::ReadFault),
    ),
    (
        b"/a/\na\nb\n",
        Some(9),
        None,
        b"/a/\na\n 0: a\nb\nNo match\n",
        Ok(()),
    ),
    (
        b"/a/\na\nb\n",
        None,
        Some(8),
        b"/a/\na\n 0",
        Err(ScriptStop::SinkFault),
    ),
    (b"/a/\na\n", None, Some(0), b"", Err(ScriptStop::SinkFault)),
];

#[test]
fn runs_stop_at_faults(rt: HostRuntime) -> Result<(), Fail> {
    let alloc = rt.alloc();
    for (input, fail_at, room, want, ended) in STOPS {
        let mut source = MemSource::new(Vec::from_slice(alloc, input)?, fail_at, 3);
        let mut out = MemSink::new(alloc, room, 3);
        assert_eq!(rt; run_script(alloc, &plain(), &mut source, &mut out), ended);
        assert_eq!(rt; out.bytes(), want);
    }
    Ok(())
}

#[test]
fn a_replacement_in_utf_is_utf8(rt: HostRuntime) -> Result<(), Fail> {
    let script = b"/a/utf,replace=b\xff\na\n";
    let mut source = MemSource::new(Vec::from_slice(rt.alloc(), script)?, None, 7);
    let mut out = MemSink::new(rt.alloc(), None, 100);
    assert_eq!(rt;
        run_script(rt.alloc(), &plain(), &mut source, &mut out),
        Ok(())
    );
    assert_eq!(rt;
        out.bytes(),
        b"/a/utf,replace=b\xff\na\nFailed: error -3: invalid UTF-8 at offset 1\n".as_slice()
    );
    Ok(())
}

#[test]
fn a_line_has_2_to_the_20_bytes_at_most(rt: HostRuntime) -> Result<(), Fail> {
    let mut input = Vec::from_slice(rt.alloc(), b"# ")?;
    for _ in 2..1_048_576 {
        input.push(b'a')?;
    }
    input.extend_from_slice(b"\n/a/\na\n")?;
    let mut source = MemSource::new(input, None, 65_536);
    let mut out = MemSink::new(rt.alloc(), None, 65_536);
    assert_eq!(rt;
        run_script(rt.alloc(), &plain(), &mut source, &mut out),
        Ok(())
    );
    assert!(rt; out.bytes().len() == 1_048_577 + 12);
    assert!(rt; out.bytes().ends_with(b"a\n/a/\na\n 0: a\n"));
    Ok(())
}

#[test]
fn a_line_may_be_too_long(rt: HostRuntime) -> Result<(), Fail> {
    let mut input = Vec::from_slice(rt.alloc(), b"# a\n")?;
    for _ in 0..1_048_577 {
        input.push(b'#')?;
    }
    let mut source = MemSource::new(input, None, 65_536);
    let mut out = MemSink::new(rt.alloc(), None, 100);
    assert_eq!(rt;
        run_script(rt.alloc(), &plain(), &mut source, &mut out),
        Err(ScriptStop::TooLong { line: 2 })
    );
    assert_eq!(rt; out.bytes(), b"# a\n".as_slice());
    Ok(())
}
