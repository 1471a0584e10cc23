//! The laws.
ghost use Rattle.search_costs.specs.CostLaw.{CostLaw};
ghost use Rattle.search_costs.specs.CostRows.{CostRows};
ghost use Rattle.search_costs.specs.CountLaw.{CountLaw};
ghost use Rattle.search_costs.specs.RecallLaw.{RecallLaw};
ghost use Rattle.search_costs.specs.RunLaw.{RunLaw};
ghost use Rattle.search_costs.specs.SeenLaw.{SeenLaw};

/// Two searches that have the same left to do at one place, by the same keys, fail after the same
/// Steps and hold as many units at most, whatever they have captured and however they came there.
pub fn failures_cost_the_same()
    ensures { CostLaw }
{}

/// So a failure that is known needs no search: where the limits have room for its cost, its Steps
/// are counted and what is left behind it follows, and else the limit that it passes is the answer.
pub fn failures_are_counted()
    ensures { CountLaw }
{}

/// The same of a machine that goes through each part before what follows it, and remembers a
/// failure: it counts the Steps and goes back at once, or answers the limit that is passed.
pub fn failures_are_recalled()
    ensures { RecallLaw }
{}

/// A machine that went through what was left to do, and came back to what it had left behind that,
/// has seen a failure: it knows its Steps, and that there is room where no more units are held.
pub fn failures_are_seen()
    ensures { SeenLaw }
{}

/// A greedy repeat of one item without a maximum hands on the places that it hands on from a later
/// place, and further ones. Where it is known to fail from there, the further ones alone are left.
pub fn runs_share_failures()
    ensures { RunLaw }
{}

/// What failures cost, computed: with the last unit for which there is room, and with one more; of
/// a turn that is over where it has taken nothing, and of one that goes on.
pub fn worked_rows()
    ensures { CostRows }
{}
