//! SKIP of a name (pcre2pattern, "Verbs that act after backtracking").
ghost use Rattle.std.specs.Prelude.{◌≡◌, ◌≤◌, length, Some};
ghost use Rattle.pat_tree.specs.declared.nodes.Node.TheVariants as node;
ghost use Rattle.pat_tree.specs.declared.nodes.Verb.TheVariants as verb;
ghost use Rattle.frame_store.specs.Stack.{room};
ghost use Rattle.frame_store.specs.Entry.{entries};
ghost use Rattle.ordered_search.specs.Parts.{skip_to};
ghost use Rattle.frame_state.specs.Steps.{over, StepsOn, StopsThere, KeepsPeak, IsShortAt};
ghost use Rattle.frame_state.specs.Ground.{IsNode};
ghost use Rattle.frame_state.specs.Machine.{heard};
ghost use Rattle.frame_verbs.specs.Names.{AreHeard, skip_by, skip_record};
ghost use Rattle.frame_state.specs.Validity.{IsValid};

use frame_state::framing::go_on;
use frame_state::machine::{Next, Spot, Stop, hold};
use frame_state::searchable::Searchable;
use frame_store::kinds::{KIND_MARK_PASSED, KIND_SKIP_PASSED};
use frame_store::{Record, Span, Store};

/// The place where a name was last passed, among those that were passed up to a record, if it was.
fn last_passed<S: Searchable>(on: &S, name: u32, passed: u32, store: &Store) -> Option<u64>
    requires heard { AreHeard (entries store.now.records) }
    requires within { passed ≤ length store.now.records }
    ensures { skip_by result
        ≡ skip_to (S.searched on.now).setting name (heard (entries store.now.records) passed) }
{
    let mut height = passed;
    'names: while height > 0 {
        let event = *store.get(height as usize - 1);
        if event.kind != KIND_MARK_PASSED {
            return None;
        }
        if on.same_name(name, event.mark.saturating_sub(1)) {
            return Some(event.place);
        }
        height = event.passed;
    }
    None
}

/// The record of SKIP of a name at a part, which has the search go on where the name was passed, if it was.
fn skip_record(found: Option<u64>, at: u32, spot: &Spot) -> Record
    ensures { result ≡ skip_record spot.now at found }
{
    match found {
        None => spot.record(KIND_SKIP_PASSED, at, 0, 1, spot.place),
        Some(to) => spot.record(KIND_SKIP_PASSED, at, 0, 0, to),
    }
}

/// Goes on past SKIP of a name.
pub(crate) fn pass_skip_to<S: Searchable>(
    on: &S,
    at: u32,
    name: u32,
    spot: &mut Spot,
    store: &mut Store,
    registers: &[Option<Span>],
) -> Result<Next, Stop>
    requires valid { IsValid (S.searched on.now)
        (over (Next.Enter at) spot.old store.old registers.now) }
    requires node { IsNode (S.searched on.now) at (node.VerbNode (verb.Skip (Some name))) }
    ensures on { StepsOn (S.searched on.now) (over (Next.Enter at) spot.old store.old registers.now)
        spot.new store.new registers.now result }
    ensures stop { StopsThere (S.searched on.now)
        (over (Next.Enter at) spot.old store.old registers.now) spot.new registers.now result }
    ensures peak { KeepsPeak (S.searched on.now) store.old store.new }
    ensures no_less { room store.old ≤ room store.new }
    ensures short { IsShortAt (S.searched on.now) store.new result }
{
    let found = last_passed(on, name, spot.passed, store);
    let event = skip_record(found, at, spot);
    if let Err(stop) = hold(on.unit_limit(), event, spot, store) {
        return Err(stop);
    }
    Ok(go_on(on, at))
}
