//! The calls of C. A slice is passed as a pointer, which is never null, and a length; a `Global` as
//! nothing. What C owes beside the clauses stands in the crate's README.md.
ghost use Rattle.std.specs.Prelude.{◌≡◌, ◌<◌, ◌≤◌, true, is_some, length, pos, slice_get, None};
ghost use Rattle.uni_text.specs.Characters.{IsChecked};
ghost use Rattle.pat_tree.specs.Pattern.{pattern_of};
ghost use Rattle.pcre2_errors.specs.FaultTexts.{fault_text};
ghost use Rattle.pcre2_api.specs.match_starts.Asked.{passed_over};
ghost use Rattle.pcre2_api.specs.Matched.{search_of};
ghost use Rattle.pcre2_api.specs.Substituted.{substituted};
ghost use Rattle.c_door.specs.Asking.{options_of, match_options_of, subst_options_of};
ghost use Rattle.c_door.specs.Telling.{IsHeld, IsCompiled, IsAnswer, IsEnds, IsReplaced, IsShared, IsText, IsName};
ghost use Rattle.c_door.specs.Telling.{IsPut, told_of, IsFirst};
ghost use Rattle.c_door.specs.Runs.{IsRunsAnswer};

use crate::asked::{Asked, MatchAsked, SubstAsked, match_options_of, options_of, subst_options_of};
use crate::engine::Engine;
use crate::handle::Handle;
use crate::limits::limited;
use crate::runs::Run;
use crate::texts::put;
use crate::told::{Answer, EndsAnswer, Fault, Named, Pair, SubstAnswer, Told, answer_of, fault_of};
use pcre2_api::{CompileError, fault_text};
use std::alloc::Global;

/// Compiles a pattern into a handle that holds nothing yet (pcre2api, "Compiling a pattern").
/// Answers 0, 1 where the pattern is refused with the fault, or 2 for want of memory.
#[unsafe(no_mangle)]
pub extern "C" fn door_compile(
    alloc: Global,
    pattern: &[u8],
    asked: &Asked,
    handle: &mut Handle,
    fault: &mut Fault,
) -> i32
    requires { handle.old.engine ≡ None }
    ensures { IsCompiled (options_of asked.now) pattern.now result handle.new.engine fault.new }
{
    match Engine::compile(alloc, pattern, options_of(asked)) {
        Ok(engine) => {
            *handle = Handle::of(engine);
            0
        }
        Err(CompileError::Bad { number, at }) => {
            *fault = fault_of(number, at);
            1
        }
        Err(CompileError::Memory) => 2,
    }
}

/// Looks for a match from a start on (pcre2api, "Matching a pattern"), in a subject of fewer than
/// 4,294,967,295 bytes, which in UTF is looked at first. Writes the places of as many groups as
/// there is room for, in bytes, and as much of the mark; a refusal writes nothing.
#[unsafe(no_mangle)]
pub extern "C" fn door_match(
    alloc: Global,
    handle: &mut Handle,
    subject: &[u8],
    start: usize,
    asked: &MatchAsked,
    places: &mut [Pair],
    mark: &mut [u8],
) -> Answer
    requires held { is_some handle.old.engine ≡ true }
    requires short { length subject.now < 4294967295 }
    requires few { length places.old ≤ 65536 }
    ensures answer { IsHeld handle.old.engine (λ e. IsAnswer e.code.value
        (search_of e.code.value (match_options_of asked.now) subject.now start (λ _. pos 0))
        asked.now.offset_limit result places.new mark.new) }
    ensures kept { IsHeld handle.old.engine (λ e. IsHeld handle.new.engine
        (λ n. n.code.value ≡ e.code.value)) }
{
    let options = match_options_of(asked);
    let mut engine = handle.take(alloc);
    let told = engine.find(subject, start, &options, places, mark);
    handle.put(engine);
    answer_of(limited(asked.offset_limit, 0, told, places))
}

/// Does the same where the subject is known to be UTF-8, or the pattern isn't one in UTF
/// (PCRE2_NO_UTF_CHECK).
#[unsafe(no_mangle)]
pub extern "C" fn door_match_checked(
    alloc: Global,
    handle: &mut Handle,
    subject: &[u8],
    start: usize,
    asked: &MatchAsked,
    places: &mut [Pair],
    mark: &mut [u8],
) -> Answer
    requires held { IsHeld handle.old.engine
        (λ e. IsChecked e.code.value.tree.options.utf subject.now) }
    requires short { length subject.now < 4294967295 }
    requires few { length places.old ≤ 65536 }
    ensures answer { IsHeld handle.old.engine (λ e. IsAnswer e.code.value
        (search_of e.code.value (match_options_of asked.now) subject.now start (λ _. pos 0))
        asked.now.offset_limit result places.new mark.new) }
    ensures kept { IsHeld handle.old.engine (λ e. IsHeld handle.new.engine
        (λ n. n.code.value ≡ e.code.value)) }
{
    let options = match_options_of(asked);
    let mut engine = handle.take(alloc);
    let told = engine.find_again(subject, start, &options, places, mark);
    handle.put(engine);
    answer_of(limited(asked.offset_limit, 0, told, places))
}

/// Looks for a match in a subject that may hold bad UTF-8 (PCRE2_MATCH_INVALID_UTF), run by run of
/// UTF-8. Tells the run in which it found the answer, from whose begin all places are counted.
#[unsafe(no_mangle)]
pub extern "C" fn door_match_runs(
    alloc: Global,
    handle: &mut Handle,
    subject: &[u8],
    start: usize,
    asked: &MatchAsked,
    places: &mut [Pair],
    mark: &mut [u8],
    run: &mut Run,
) -> Answer
    requires held { is_some handle.old.engine ≡ true }
    requires begun { start ≤ length subject.now }
    requires short { length subject.now < 4294967295 }
    requires few { length places.old ≤ 65536 }
    ensures answer { IsHeld handle.old.engine (λ e. IsRunsAnswer e.code.value
        (match_options_of asked.now) subject.now start asked.now.offset_limit result run.new
        places.new mark.new) }
    ensures kept { IsHeld handle.old.engine (λ e. IsHeld handle.new.engine
        (λ n. n.code.value ≡ e.code.value)) }
{
    let options = match_options_of(asked);
    let mut engine = handle.take(alloc);
    let found = engine.find_in_runs(subject, start, &options, places, mark);
    handle.put(engine);
    *run = found.run;
    answer_of(limited(asked.offset_limit, found.run.from, found.told, places))
}

/// Looks for all ends of a match (pcre2api, "Matching a pattern: the alternative function"), and
/// writes as many as there is room for, the longest first, and 0 behind them.
#[unsafe(no_mangle)]
pub extern "C" fn door_ends(
    alloc: Global,
    handle: &mut Handle,
    subject: &[u8],
    start: usize,
    asked: &MatchAsked,
    ends: &mut [u64],
) -> EndsAnswer
    requires held { is_some handle.old.engine ≡ true }
    requires short { length subject.now < 4294967295 }
    ensures answer { IsHeld handle.old.engine (λ e. IsEnds
        (search_of e.code.value (match_options_of asked.now) subject.now start passed_over)
        asked.now.offset_limit result ends.new) }
    ensures kept { handle.new.engine ≡ handle.old.engine }
{
    let options = match_options_of(asked);
    let engine = handle.take(alloc);
    let limit = asked.offset_limit;
    let told = engine.find_ends(alloc, subject, start, &options, limit, ends);
    handle.put(engine);
    told
}

/// Replaces matches (pcre2api, "Creating a new string with substitutions"), and writes as much of
/// the text as there is room for.
#[unsafe(no_mangle)]
pub extern "C" fn door_replace(
    alloc: Global,
    handle: &mut Handle,
    subject: &[u8],
    start: usize,
    asked: &MatchAsked,
    how: &SubstAsked,
    replacement: &[u8],
    out: &mut [u8],
) -> SubstAnswer
    requires held { is_some handle.old.engine ≡ true }
    requires short { length subject.now < 4294967295 }
    ensures replaced { IsHeld handle.old.engine (λ e. IsReplaced
        (substituted (pattern_of e.code.value.tree) e.code.value.tree.names
        (match_options_of asked.now) (subst_options_of how.now) subject.now start
        replacement.now) result out.new) }
    ensures kept { IsHeld handle.old.engine (λ e. IsHeld handle.new.engine
        (λ n. n.code.value ≡ e.code.value)) }
{
    let options = match_options_of(asked);
    let how = subst_options_of(how);
    let mut engine = handle.take(alloc);
    let told = engine.replace(alloc, subject, start, &options, &how, replacement, out);
    handle.put(engine);
    told
}

/// Makes another handle of the same code, with a workspace of its own, as another thread needs it.
/// Answers 0, or 2 for want of memory.
#[unsafe(no_mangle)]
pub extern "C" fn door_share(alloc: Global, handle: &mut Handle, other: &mut Handle) -> i32
    requires held { is_some handle.old.engine ≡ true }
    requires empty { other.old.engine ≡ None }
    ensures kept { handle.new.engine ≡ handle.old.engine }
    ensures shared { IsShared result handle.old.engine other.new.engine }
{
    let engine = handle.take(alloc);
    let twin = engine.twin(alloc);
    handle.put(engine);
    match twin {
        Ok(twin) => {
            *other = Handle::of(twin);
            0
        }
        Err(_) => 2,
    }
}

/// Tells of the pattern (pcre2api, "Information about a compiled pattern").
#[unsafe(no_mangle)]
pub extern "C" fn door_info(alloc: Global, handle: &mut Handle) -> Told
    requires held { is_some handle.old.engine ≡ true }
    ensures told { IsHeld handle.old.engine (λ e. result ≡ told_of e.code.value) }
    ensures kept { handle.new.engine ≡ handle.old.engine }
{
    let engine = handle.take(alloc);
    let told = engine.told();
    handle.put(engine);
    told
}

/// Tells the byte that every match begins with (PCRE2_INFO_FIRSTCODEUNIT), or -1 where it isn't
/// known that there is one.
#[unsafe(no_mangle)]
pub extern "C" fn door_first_byte(alloc: Global, handle: &mut Handle) -> i32
    requires held { is_some handle.old.engine ≡ true }
    ensures first { IsHeld handle.old.engine (λ e. IsFirst e.code.value result) }
    ensures kept { handle.new.engine ≡ handle.old.engine }
{
    let engine = handle.take(alloc);
    let first = engine.first_byte();
    handle.put(engine);
    first
}

/// Writes as much of a name of the name table as there is room for (PCRE2_INFO_NAMETABLE). Entries
/// are counted from 0.
#[unsafe(no_mangle)]
pub extern "C" fn door_name(alloc: Global, handle: &mut Handle, i: usize, out: &mut [u8]) -> Named
    requires held { is_some handle.old.engine ≡ true }
    ensures name { IsHeld handle.old.engine (λ e. IsName e.code.value.tree.names i result
        out.new) }
    ensures kept { handle.new.engine ≡ handle.old.engine }
{
    let engine = handle.take(alloc);
    let named = engine.name(i, out);
    handle.put(engine);
    named
}

/// Writes as much of the mark of a number as there is room for (pcre2_get_mark). Answers its length
/// in bytes, 0 where there is no such mark.
#[unsafe(no_mangle)]
pub extern "C" fn door_mark(alloc: Global, handle: &mut Handle, id: u32, out: &mut [u8]) -> usize
    requires held { is_some handle.old.engine ≡ true }
    ensures mark { IsHeld handle.old.engine (λ e. IsText
        (slice_get e.code.value.tree.verb_names id) result out.new) }
    ensures kept { handle.new.engine ≡ handle.old.engine }
{
    let engine = handle.take(alloc);
    let len = engine.mark(id, out);
    handle.put(engine);
    len
}

/// Writes as much of what a fault of a pattern means as there is room for (pcre2api, "Obtaining a
/// textual error message"). Answers its length in bytes, 0 where there is no such fault.
#[unsafe(no_mangle)]
pub extern "C" fn door_fault_text(number: i32, out: &mut [u8]) -> usize
    ensures len { result ≡ length (fault_text number) }
    ensures text { IsPut (fault_text number) out.new }
{
    put(fault_text(number), out)
}

/// Gives back what the handle holds.
#[unsafe(no_mangle)]
pub extern "C" fn door_free(alloc: Global, handle: &mut Handle)
    requires { is_some handle.old.engine ≡ true }
    ensures { handle.new.engine ≡ None }
{
    drop(handle.take(alloc));
}
