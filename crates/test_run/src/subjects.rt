//! The subjects of a script.
ghost use Rattle.std.specs.Prelude.{◌<◌, length};
ghost use Rattle.std.specs.Option.{option_copied};
ghost use Rattle.pat_tree.specs.Pattern.{pattern_of};
ghost use Rattle.test_run.specs.Courses.{found_by_dfa, tested_text, subject_text};
ghost use Rattle.test_run.specs.Searches.{course_of};
ghost use Rattle.tool_io.specs.Writes.{Writes};

use crate::course::{Course, Tested};
use crate::dfa::{write_all_ends, write_replace_with_dfa};
use crate::matches::write_matches;
use crate::options::{How, how_of, is_dfa, replacement_of, subst_of};
use crate::replacing::write_replaced;
use pcre_io::{IoError, Sink};
use pcre2_api::{Code, Scratch};
use std::alloc::Global;
use test_script::SubjectEntry;

// Writes all ends of a match, by which nothing is replaced.
fn write_found<O: Sink>(
    alloc: Global,
    out: &mut O,
    code: &Code,
    subject: &[u8],
    how: &How,
    replacement: Option<&[u8]>,
) -> Result<(), IoError>
    requires short { length subject.now < 4294967295 }
    ensures { Writes (found_by_dfa (pattern_of code.now.tree) subject.now how.now
        (option_copied replacement.entry)) (O.tells out.old) (O.tells out.new) result }
{
    match replacement {
        Some(_) => write_replace_with_dfa(out),
        None => write_all_ends(alloc, out, code, subject, how),
    }
}

// Writes what a pattern finds in a subject, or what its matches are replaced by.
fn write_tested<O: Sink>(
    alloc: Global,
    out: &mut O,
    tested: &Tested,
    entry: &SubjectEntry,
    scratch: &mut Scratch,
) -> Result<(), IoError>
    requires { length entry.now.subject < 4294967295 }
    ensures { Writes (tested_text tested.now.pattern (pattern_of tested.now.code.tree)
        tested.now.code.tree.names tested.now.modifiers entry.now) (O.tells out.old) (O.tells out.new) result }
{
    let how = how_of(&entry.modifiers, &tested.modifiers);
    let subject = entry.subject.bytes();
    let replacement = replacement_of(&entry.modifiers, &tested.modifiers);
    if is_dfa(&entry.modifiers, &tested.modifiers) {
        return write_found(alloc, out, &tested.code, subject, &how, replacement);
    }
    match replacement {
        Some(text) => {
            let subst = subst_of(&entry.modifiers, &tested.modifiers);
            write_replaced(
                alloc,
                out,
                &tested.code,
                subject,
                &how,
                &subst,
                text,
                scratch,
            )
        }
        None => write_matches(alloc, out, tested, subject, &how, scratch),
    }
}

/// Writes what the pattern before a subject finds in it.
pub fn write_subject<O: Sink>(
    alloc: Global,
    out: &mut O,
    course: &Course,
    entry: &SubjectEntry,
    scratch: &mut Scratch,
) -> Result<(), IoError>
    requires { length entry.now.subject < 4294967295 }
    ensures { Writes (subject_text (course_of course.now) entry.now) (O.tells out.old)
        (O.tells out.new) result }
{
    match course {
        Course::Tests(tested) => write_tested(alloc, out, tested, entry, scratch),
        Course::Between | Course::Passed => Ok(()),
    }
}
