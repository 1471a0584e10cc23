//! Which of some parts in turn has the rarest text, by weights alone, and that text.
ghost use Rattle.std.specs.Prelude.{◌≡◌, ◌⊎◌, ℕ, ◌<◌, ◌≤◌, Bool, false, All, List, map, IfSome, length, drop};
ghost use Rattle.pat_tree.specs.declared.nodes.Item.{Item};
ghost use Rattle.pat_tree.specs.Nested.{Nested, row};
ghost use Rattle.pat_needs.specs.NeedTables.{AreNeeds, IsRun, IsSomeNeed};

use crate::needs::{Wanted, copy_of, run_from};
use crate::weights::{ANY, rate};
use pat_tree::NodeId;

/// A part of which the text is taken, or the items from it on.
#[derive(Clone, Copy)]
pub(crate) struct Choice {
    pub at: usize,
    pub is_run: bool,
    pub weight: u64,
}

/// The rarest text of these parts and of the items among them; where a match begins, of the first part and of the
/// items from it on.
// The run of the first three parts is all that counts there.
pub(crate) fn rarest_of(
    parts: &[NodeId],
    needs: &[Option<Wanted>],
    anywhere: bool,
) -> Option<Choice>
    requires { All (λ k. k < length needs.now) parts.now }
    ensures { IfSome result (λ choice. (choice.at < length parts.now)
        × (anywhere ≡ false → choice.at ≡ 0)) }
{
    let mut run = None;
    let mut best = None;
    let mut i = if anywhere {
        parts.len()
    } else {
        parts.len().min(3)
    };
    while i > 0 {
        i -= 1;
        let need = &needs[parts[i] as usize];
        run = run_weights(need, run);
        if anywhere || i == 0 {
            best = rarer(best, i, weighed(need), rate_of(run));
        }
    }
    best
}

/// The rarest of what was chosen, of a part and of the run from it on.
fn rarer(best: Option<Choice>, at: usize, part: u64, run: u64) -> Option<Choice>
    ensures { (result ≡ best) ⊎ IfSome result (λ choice. choice.at ≡ at) }
{
    match rarer_than(least_of(&best), at, part, run) {
        Some(choice) => Some(choice),
        None => best,
    }
}

/// The rarest of a part and of the run from it on, where it is rarer than so.
pub(crate) fn rarer_than(least: u64, at: usize, part: u64, run: u64) -> Option<Choice>
    ensures { IfSome result (λ choice. choice.at ≡ at) }
{
    if part < least && part <= run {
        Some(Choice {
            at,
            is_run: false,
            weight: part,
        })
    } else if run < least {
        Some(Choice {
            at,
            is_run: true,
            weight: run,
        })
    } else {
        None
    }
}

fn least_of(best: &Option<Choice>) -> u64 {
    match best {
        Some(choice) => choice.weight,
        None => u64::MAX,
    }
}

/// How common a text is, where there is one.
pub(crate) fn weighed(need: &Option<Wanted>) -> u64 {
    match need {
        Some(wanted) => rate(&wanted.weights),
        None => u64::MAX,
    }
}

pub(crate) fn rate_of(run: Option<[u32; 3]>) -> u64 {
    match run {
        Some(weights) => rate(&weights),
        None => u64::MAX,
    }
}

/// The weights of the text of `run_from`.
pub(crate) fn run_weights(need: &Option<Wanted>, run: Option<[u32; 3]>) -> Option<[u32; 3]> {
    match (need, run) {
        (Some(item), Some(behind)) if item.is_item && item.is_short => {
            Some([item.weights[0], behind[0], behind[1]])
        }
        (Some(item), _) if item.is_item => Some([item.weights[0], ANY, ANY]),
        _ => None,
    }
}

/// The text that was chosen.
pub(crate) fn text_of(parts: &[NodeId], needs: &[Option<Wanted>], choice: Choice) -> Option<Wanted>
    requires below { All (λ k. k < length needs.now) parts.now }
    requires at { choice.at < length parts.now }
    ensures { (may : Item → ℕ → Bool) (utf anywhere : Bool) → (of : ℕ → Nested)
        → AreNeeds may utf anywhere of needs.now parts.now
        → IsSomeNeed may utf anywhere (row (map of (drop choice.at parts.now))) result }
{
    if choice.is_run {
        let run = run_at(parts, needs, choice.at);
        return copy_of(&run);
    }
    copy_of(&needs[parts[choice.at] as usize])
}

/// The text that the items from a part on take.
pub(crate) fn run_at(parts: &[NodeId], needs: &[Option<Wanted>], at: usize) -> Option<Wanted>
    requires below { All (λ k. k < length needs.now) parts.now }
    requires at { at < length parts.now }
    ensures { (may : Item → ℕ → Bool) (utf anywhere : Bool) → (of : ℕ → Nested)
        → AreNeeds may utf anywhere of needs.now parts.now
        → IsRun may utf (row (map of (drop at parts.now))) result }
{
    let mut run = None;
    let mut i = if parts.len() - at > 3 {
        at + 3
    } else {
        parts.len()
    };
    while i > at {
        i -= 1;
        run = run_from(&needs[parts[i] as usize], &run);
    }
    run
}
