//! Subjects whose matches are replaced.
ghost use Rattle.std.specs.Prelude.{◌<◌, Bool, length, Result};
ghost use Rattle.pat_tree.specs.Pattern.{pattern_of};
ghost use Rattle.pcre2_api.specs.Substituted.{Refuses};
ghost use Rattle.pcre2_errors.specs.declared.subst_error.SubstError.{SubstError};
ghost use Rattle.pcre2_api.specs.declared.substitute.Substituted.{Substituted};
ghost use Rattle.test_run.specs.Courses.{rewritten};
ghost use Rattle.test_lines.specs.Lines.{done_line, replaced_text};
ghost use Rattle.tool_io.specs.Writes.{Writes};

use crate::lines::write_unreplaced;
use crate::options::How;
use pcre_io::{IoError, Sink};
use pcre2_api::{Code, Scratch, SubstError, SubstOptions, Substituted};
use std::alloc::Global;
use test_lines::shown::{write_count, write_shown};
use tool_io::write_texts;

// Writes a subject that was rewritten.
fn write_done<O: Sink>(out: &mut O, done: &Substituted, utf: bool) -> Result<(), IoError>
    ensures { Writes (done_line utf done.now) (O.tells out.old) (O.tells out.new) result }
{
    write_count(out, done.count)?;
    write_shown(out, done.text.bytes(), utf)?;
    write_texts(out, &[b"\n"])
}

// Writes why a subject isn't rewritten. Of want of memory nothing is written.
fn write_refused<O: Sink>(out: &mut O, e: SubstError) -> Result<(), IoError>
    ensures { (utf : Bool) (given : Result Substituted SubstError) → Refuses given e
        → Writes (replaced_text utf given) (O.tells out.old) (O.tells out.new) result }
{
    match e {
        SubstError::Memory => Err(IoError::Memory),
        _ => write_unreplaced(out, e),
    }
}

/// Replaces the matches of a subject, and writes their number and the text (pcre2test, "Testing the
/// substitution function").
pub fn write_replaced<O: Sink>(
    alloc: Global,
    out: &mut O,
    code: &Code,
    subject: &[u8],
    how: &How,
    subst: &SubstOptions,
    replacement: &[u8],
    scratch: &mut Scratch,
) -> Result<(), IoError>
    requires { length subject.now < 4294967295 }
    ensures { Writes (rewritten (pattern_of code.now.tree) code.now.tree.names subject.now how.now
        subst.now replacement.now) (O.tells out.old) (O.tells out.new) result }
{
    match code.substitute(
        alloc,
        subject,
        how.start as usize,
        &how.matching,
        subst,
        replacement,
        scratch,
    ) {
        Ok(done) => write_done(out, &done, code.options().utf),
        Err(e) => write_refused(out, e),
    }
}
