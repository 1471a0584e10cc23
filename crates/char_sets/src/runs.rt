// Runs of characters: sorted, joined and looked up.
ghost use Rattle.std.specs.Prelude.{◌≡◌, ℕ, ◌≤◌, ◌||◌, All, IfOk, OnOk};
ghost use Rattle.std.specs.Int.{is_in_range};
ghost use Rattle.char_sets.specs.Runs.{runs_have, IsRising};

use pat_tree::Memory;
use std::alloc::Global;

/// The characters from one to another, both included.
#[derive(Clone, Copy, Debug)]
pub(crate) struct Run {
    pub from: u32,
    pub to: u32,
}

/// Whether one of the runs holds `c`.
pub(crate) fn runs_have(runs: &[Run], c: u32) -> bool
    requires { IsRising runs.now }
    ensures { result ≡ runs_have runs.now c }
{
    let first = runs.partition_point(|run| run.to < c);
    first < runs.len() && runs[first].from <= c
}

/// Runs of the same characters that rise, with a gap between any two.
pub(crate) fn joined(alloc: Global, mut runs: Vec<Run>) -> Result<Vec<Run>, Memory>
    ensures same { IfOk result (λ joined. (c : ℕ) → runs_have joined.items c ≡ runs_have runs.items c) }
    ensures rising { IfOk result (λ joined. IsRising joined.items) }
{
    runs.sort_unstable_by_key(|run| run.from);
    let mut joined = Vec::new(alloc);
    for &run in runs.iter() {
        add_run(&mut joined, run)?;
    }
    Ok(joined)
}

/// Adds a run that begins at or after the last one's beginning, and joins the two where they touch.
fn add_run(runs: &mut Vec<Run>, next: Run) -> Result<(), Memory>
    requires rising { IsRising runs.old.items }
    requires last { All (λ (run : Run). run.from ≤ next.from) runs.old.items }
    ensures members { OnOk result ((c : ℕ) → runs_have runs.new.items c
        ≡ (runs_have runs.old.items c || is_in_range next.from next.to c)) }
    ensures rising { OnOk result (IsRising runs.new.items) }
    ensures last { OnOk result (All (λ (run : Run). run.from ≤ next.from) runs.new.items) }
{
    if next.to < next.from {
        return Ok(());
    }
    let Some(last) = runs.pop() else {
        runs.push(next)?;
        return Ok(());
    };
    if next.from as u64 <= last.to as u64 + 1 {
        runs.push(Run {
            from: last.from,
            to: last.to.max(next.to),
        })?;
    } else {
        runs.push(last)?;
        runs.push(next)?;
    }
    Ok(())
}
