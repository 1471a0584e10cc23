// The bytes that a part of a pattern may begin with, part by part.
ghost use Rattle.std.specs.Prelude.{◌≡◌, ℕ, ◌<◌, ◌∷◌, ◌||◌, All, length};
ghost use Rattle.byte_lanes.specs.Sets.{has_byte};
ghost use Rattle.pat_check.specs.Lead.{SomeLead, passes, begins, then_lead, either_lead, repeated_lead};
ghost use Rattle.pat_tree.specs.Rules.{number_in};
ghost use Rattle.pat_check.specs.Starts.{IsSomeLead, AreKept, lead_of_parts, lead_of_branches, lead_of_condition};

use byte_lanes::ByteSet;
use pat_tree::{Cond, NodeId};

/// The bytes that a part may begin with, and whether it may be passed without one.
#[derive(Drop)]
pub(crate) struct Start {
    pub bytes: ByteSet,
    pub passing: bool,
}

/// A part that takes nothing.
pub(crate) fn passed() -> Option<Start>
    ensures { IsSomeLead result passes }
{
    Some(Start {
        bytes: ByteSet::empty(),
        passing: true,
    })
}

/// A part that begins with one of these bytes.
pub(crate) fn begin(bytes: ByteSet) -> Option<Start>
    ensures { (has : _) → ((b : ℕ) → b < 256 → has_byte bytes b ≡ has b)
        → IsSomeLead result (begins has) }
{
    Some(Start {
        bytes,
        passing: false,
    })
}

/// A part, and what follows it.
fn followed(first: &Option<Start>, rest: Option<Start>) -> Option<Start>
    ensures { (x y : SomeLead) → IsSomeLead first.now x → IsSomeLead rest y
        → IsSomeLead result (then_lead x y) }
{
    let Some(first) = first else {
        return None;
    };
    if !first.passing {
        return begin(first.bytes.copied());
    }
    let mut rest = rest?;
    rest.bytes.add(&first.bytes);
    Some(rest)
}

/// A part or another.
fn either(one: &Option<Start>, other: Option<Start>) -> Option<Start>
    ensures { (x y : SomeLead) → IsSomeLead one.now x → IsSomeLead other y
        → IsSomeLead result (either_lead x y) }
{
    let Some(one) = one else {
        return None;
    };
    let mut other = other?;
    other.bytes.add(&one.bytes);
    other.passing = one.passing || other.passing;
    Some(other)
}

/// Parts one after the other.
pub(crate) fn in_turn(parts: &[NodeId], starts: &[Option<Start>]) -> Option<Start>
    requires { All (λ k. k < length starts.now) parts.now }
    ensures { (of : ℕ → SomeLead) → AreKept starts.now of parts.now
        → IsSomeLead result (lead_of_parts of parts.now) }
{
    let mut whole = passed();
    let mut i = parts.len();
    while i > 0 {
        i -= 1;
        whole = followed(&starts[parts[i] as usize], whole);
    }
    whole
}

/// One of these branches.
pub(crate) fn one_of(branches: &[NodeId], starts: &[Option<Start>]) -> Option<Start>
    requires { All (λ k. k < length starts.now) branches.now }
    ensures { (of : ℕ → SomeLead) → AreKept starts.now of branches.now
        → IsSomeLead result (lead_of_branches of branches.now) }
{
    let mut whole = begin(ByteSet::empty());
    let mut i = branches.len();
    while i > 0 {
        i -= 1;
        whole = either(&starts[branches[i] as usize], whole);
    }
    whole
}

/// Turns of a part, between a minimum and a maximum.
pub(crate) fn repeated(part: &Option<Start>, min: u16, max: Option<u16>) -> Option<Start>
    ensures { (x : SomeLead) → IsSomeLead part.now x → IsSomeLead result (repeated_lead min max x) }
{
    if let Some(0) = max {
        return passed();
    }
    match part {
        Some(start) => Some(Start {
            bytes: start.bytes.copied(),
            passing: start.passing || min == 0,
        }),
        None => None,
    }
}

/// One of both branches of a condition, the second of which is passed where it is missing. A definition is passed.
pub(crate) fn one_of_condition(
    test: &Cond,
    yes: NodeId,
    no: Option<NodeId>,
    starts: &[Option<Start>],
) -> Option<Start>
    requires { All (λ k. k < length starts.now) (yes ∷ number_in no) }
    ensures { (of : ℕ → SomeLead) → AreKept starts.now of (yes ∷ number_in no)
        → IsSomeLead result (lead_of_condition of test.now yes no) }
{
    if let Cond::Never = test {
        return passed();
    }
    match no {
        Some(no) => either(&starts[yes as usize], copy_of(&starts[no as usize])),
        None => either(&starts[yes as usize], passed()),
    }
}

fn copy_of(start: &Option<Start>) -> Option<Start>
    ensures { (x : SomeLead) → IsSomeLead start.now x → IsSomeLead result x }
{
    match start {
        Some(start) => Some(Start {
            bytes: start.bytes.copied(),
            passing: start.passing,
        }),
        None => None,
    }
}
