//! Runs of scripts in memory.

use crate::compared::compare;
use crate::lines::{is_transcript, script_of};
use pcre_io::{MemSink, MemSource};
use std::alloc::{AllocError, Global};
use test_files::{Check, Report, Section};
use test_modifiers::Modifiers;
use test_run::{ScriptStop, run_script};
use test_script::TestPlan;

// The greatest pieces of a read and of a write.
const READ: u32 = 7;

const WRITTEN: u32 = 100;

/// Each section is the transcript of a script, which is run without defaults.
pub struct Scripts;

// Writes what a script comes to.
fn write_run(alloc: Global, script: Vec<u8>, out: &mut MemSink) -> Result<(), ScriptStop> {
    let plan = TestPlan {
        quiet: true,
        defaults: Modifiers::none(),
    };
    let mut source = MemSource::new(script, None, READ);
    run_script(alloc, &plan, &mut source, out)
}

impl Check for Scripts {
    fn check(
        &self,
        alloc: Global,
        section: &Section<'_>,
        report: &mut Report,
    ) -> Result<(), AllocError> {
        if !is_transcript(section, report)? {
            return Ok(());
        }
        let script = script_of(alloc, section.body)?;
        let mut out = MemSink::new(alloc, None, WRITTEN);
        if let Err(stop) = write_run(alloc, script, &mut out) {
            return report.tell(section.place(0), format_args!("the run stopped: {stop:?}"));
        }
        match str::from_utf8(out.bytes()) {
            Ok(written) => compare(section, written, report),
            Err(_) => report.tell(section.place(0), "what is written isn't UTF-8"),
        }
    }
}
