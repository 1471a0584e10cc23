//! The targets of a search, one by one.
ghost use Rattle.std.specs.Prelude.{◌≡◌, ◌≤◌, ◌<◌, ◌∷◌, [], false, not, Option, IfSome};
ghost use Rattle.grep_core.specs.grep_watch.Filtered.{Filters};
ghost use Rattle.pcre_io.specs.Told.{Kept};
ghost use Rattle.line_feed.specs.Rows.{Input};
ghost use Rattle.tool_io.specs.Absent.{AbsentBy};
ghost use Rattle.tool_io.specs.Asked.{asked, Opened};
ghost use Rattle.grep_core.specs.grep_match.Compiled.{patterns_in};
ghost use Rattle.tool_io.specs.declared.target.Target.TheVariants as targets;
ghost use Rattle.grep_output.specs.declared.state.State.{State};
ghost use Rattle.grep_output.specs.InputText.{input_text};
ghost use Rattle.grep_output.specs.Messages.{message_on};
ghost use Rattle.grep_core.specs.OneInput.{GrepsTo};
ghost use Rattle.grep_main.specs.Leaves.{LeavesScan};
ghost use Rattle.grep_main.specs.Reports.{missing, report_on};
ghost use Rattle.tool_io.specs.Takes.{IsLeft, inputs};
ghost use Rattle.grep_main.specs.Searches.{IsReady, ReportsTo, ReportsTarget, searching};
ghost use Rattle.grep_main.specs.Stages.{AreSame};
ghost use Rattle.tool_io.specs.Printed.{printed};
ghost use Rattle.tool_io.specs.Texts.{text_if};

use crate::streams::Streams;
use grep_args::GrepPlan;
use grep_core::{FileEnd, Filter, GrepState, Patterns, Stop, grep_file_by, write_message};
use pcre_io::{FileSet, IoError, MemSource, Sink, Source};
use std::alloc::Global;
use tool_io::Target;

// Searches standard input, which is empty after its first use.
fn grep_standard<S: Source, O: Sink, E: Sink>(
    alloc: Global,
    patterns: &Patterns,
    plan: &GrepPlan,
    input: &mut S,
    is_used: &mut bool,
    out: &mut O,
    err: &mut E,
    state: &mut GrepState,
    filter: &mut Option<Filter<'_>>,
) -> Result<FileEnd, Stop>
    requires ready { IsReady plan.now state.old }
    requires filter { IfSome filter.old (Filters plan.now (patterns_in patterns.now)) }
    ensures filter { IfSome filter.new (Filters plan.now (patterns_in patterns.now)) }
    ensures greps { (left : Input) × IsLeft is_used.old is_used.new (S.tells input.old)
        (S.tells input.new) left
        × GrepsTo (input_text plan.now (patterns_in patterns.now) plan.now.label state.old left)
        state.new
        (printed (O.tells out.old) (E.tells err.old))
        (printed (O.tells out.new) (E.tells err.new)) result
        × (is_used.old ≡ false → LeavesScan
        (input_text plan.now (patterns_in patterns.now) plan.now.label state.old left)
        (S.tells input.old) (S.tells input.new) result) }
{
    let name = plan.label.as_str();
    if *is_used {
        let mut empty = MemSource::new(Vec::new(alloc), None, 1);
        return grep_file_by(patterns, plan, name, &mut empty, out, err, state, filter);
    }
    *is_used = true;
    grep_file_by(patterns, plan, name, input, out, err, state, filter)
}

// Says why a target isn't searched.
fn pass_over<E: Sink>(
    plan: &GrepPlan,
    name: &str,
    why: &[u8],
    err: &mut E,
) -> Result<Option<FileEnd>, Stop>
    ensures { (state : State) (out : Kept)
        → ReportsTo (missing (text_if (not plan.now.no_messages) (message_on name.now why.now)))
        state state (printed out (E.tells err.old)) (printed out (E.tells err.new)) result }
{
    if !plan.no_messages {
        write_message(err, name, why)?;
    }
    Ok(None)
}

// Searches a file. None where it can't be opened.
fn grep_named<F: FileSet, O: Sink, E: Sink>(
    alloc: Global,
    patterns: &Patterns,
    plan: &GrepPlan,
    name: &str,
    files: &mut F,
    out: &mut O,
    err: &mut E,
    state: &mut GrepState,
    filter: &mut Option<Filter<'_>>,
) -> Result<Option<FileEnd>, Stop>
    requires ready { IsReady plan.now state.old }
    requires filter { IfSome filter.old (Filters plan.now (patterns_in patterns.now)) }
    ensures filter { IfSome filter.new (Filters plan.now (patterns_in patterns.now)) }
    ensures reports { let before = F.tells files.old in let after = F.tells files.new in
        (given : Option Input) × Opened before.contents name.now given
        × ReportsTo (report_on plan.now (patterns_in patterns.now) state.old
        (targets.File name.now) given)
        state.old state.new
        (printed (O.tells out.old) (E.tells err.old))
        (printed (O.tells out.new) (E.tells err.new)) result
        × AbsentBy before.contents before.faults after.faults
        (asked (targets.File name.now) given ∷ []) }
    ensures files { (F.tells files.new).contents ≡ (F.tells files.old).contents }
    ensures later { (F.tells files.old).faults ≤ (F.tells files.new).faults }
{
    match files.open_file(alloc, name) {
        Ok(mut source) => {
            let end = grep_file_by(patterns, plan, name, &mut source, out, err, state, filter)?;
            Ok(Some(end))
        }
        Err(IoError::Failed) => pass_over(plan, name, b"cannot be opened", err),
        Err(IoError::Memory) => Err(Stop::Memory),
    }
}

/// Searches what a target stands for. None where it isn't there or isn't gone through whole.
pub fn grep_target<F: FileSet, S: Source, O: Sink, E: Sink>(
    alloc: Global,
    patterns: &Patterns,
    plan: &GrepPlan,
    target: &Target,
    io: &mut Streams<F, S, O, E>,
    state: &mut GrepState,
    filter: &mut Option<Filter<'_>>,
) -> Result<Option<FileEnd>, Stop>
    requires ready { IsReady plan.now state.old }
    requires filter { IfSome filter.old (Filters plan.now (patterns_in patterns.now)) }
    ensures filter { IfSome filter.new (Filters plan.now (patterns_in patterns.now)) }
    ensures reports { ReportsTarget plan.now (patterns_in patterns.now) target.now
        (searching (inputs (F.tells io.old.files.now) (S.tells io.old.input.now) io.old.is_used)
        state.old (printed (O.tells io.old.out.now) (E.tells io.old.err.now)))
        (searching (inputs (F.tells io.new.files.now) (S.tells io.new.input.now) io.new.is_used)
        state.new (printed (O.tells io.new.out.now) (E.tells io.new.err.now)))
        result }
    ensures streams { AreSame io.old io.new }
    ensures files { (F.tells io.new.files.now).contents ≡ (F.tells io.old.files.now).contents }
    ensures later { (F.tells io.old.files.now).faults ≤ (F.tells io.new.files.now).faults }
{
    match target {
        Target::Input => {
            let end = grep_standard(
                alloc,
                patterns,
                plan,
                io.input,
                &mut io.is_used,
                io.out,
                io.err,
                state,
                filter,
            )?;
            Ok(Some(end))
        }
        Target::File(name) => {
            grep_named(
                alloc,
                patterns,
                plan,
                name.as_str(),
                io.files,
                io.out,
                io.err,
                state,
                filter,
            )
        }
        Target::NoOpen(name) => pass_over(plan, name.as_str(), b"cannot be opened", io.err),
        Target::NoList(name) => pass_over(plan, name.as_str(), b"cannot be listed", io.err),
        Target::TooDeep(name) => pass_over(plan, name.as_str(), b"too deep", io.err),
        Target::Unnamed(name) => pass_over(
            plan,
            name.as_str(),
            b"an entry has no readable name",
            io.err,
        ),
    }
}
