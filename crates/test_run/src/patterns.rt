//! The patterns of a script.
ghost use Rattle.std.specs.Prelude.{◌≡◌, IfOk};
ghost use Rattle.pat_tree.specs.Pattern.{pattern_of};
ghost use Rattle.pcre2_api.specs.Informs.{info_in};
ghost use Rattle.test_run.specs.Courses.{pattern_course, pattern_text};
ghost use Rattle.test_lines.specs.Lines.{info_text};
ghost use Rattle.test_run.specs.Searches.{course_of};
ghost use Rattle.tool_io.specs.Texts.{text_if};
ghost use Rattle.tool_io.specs.Writes.{Writes};

use crate::course::{Course, Tested};
use crate::lines::{write_fault, write_info};
use crate::options::{is_info, options_of};
use pcre_io::{IoError, Sink};
use pcre2_api::{Code, CompileError};
use std::alloc::Global;
use test_script::PatternEntry;

// Writes what is told of a pattern, where that is asked for.
fn write_told<O: Sink>(out: &mut O, code: &Code, is_asked: bool) -> Result<(), IoError>
    ensures { Writes (text_if is_asked (info_text (info_in (pattern_of code.now.tree))))
        (O.tells out.old) (O.tells out.new) result }
{
    if !is_asked {
        return Ok(());
    }
    // so what is told of the code is what the definition tells of the pattern
    code.info_is_of_its_pattern();
    write_info(out, code.info())
}

/// Compiles a pattern, and writes what is told of it, or why it is refused.
pub fn begin<O: Sink>(alloc: Global, entry: PatternEntry, out: &mut O) -> Result<Course, IoError>
    ensures wrote { Writes (pattern_text entry) (O.tells out.old) (O.tells out.new) result }
    ensures course { IfOk result (λ course. course_of course ≡ pattern_course entry) }
{
    let PatternEntry { pattern, modifiers } = entry;
    match Code::compile(alloc, pattern.bytes(), options_of(&modifiers)) {
        Ok(code) => {
            write_told(out, &code, is_info(&modifiers))?;
            Ok(Course::Tests(Tested {
                pattern,
                code,
                modifiers,
            }))
        }
        Err(CompileError::Bad { number, at }) => {
            write_fault(out, number, at)?;
            Ok(Course::Passed)
        }
        Err(CompileError::Memory) => Err(IoError::Memory),
    }
}
