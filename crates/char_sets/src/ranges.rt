// The characters that the ranges of a class take.
ghost use Rattle.std.specs.Prelude.{◌≡◌, ℕ, true, false, nat_lt, ◌||◌, IfOk, OnOk};
ghost use Rattle.std.specs.Int.{is_in_range};
ghost use Rattle.std.specs.List.{list_any};
ghost use Rattle.std.specs.List.Sorted.{IsNonDecreasingBy, IsPartitionPoint};
ghost use Rattle.char_sets.specs.Sets as spec;
ghost use Rattle.char_sets.specs.Runs.{runs_have, IsRising, range_part_has, partner_has, letters_have};

use crate::runs::{Run, joined};
use crate::sets::is_within;
use pat_tree::{Memory, Part};
use std::alloc::Global;

/// The runs of the characters that some range of a class takes, which takes any case or does not.
pub(crate) fn runs_of(
    alloc: Global,
    parts: &[Part],
    caseless: bool,
    utf: bool,
) -> Result<Vec<Run>, Memory>
    ensures same { IfOk result (λ runs. (c : ℕ) → runs_have runs.items c
        ≡ list_any (λ part. range_part_has utf caseless c part) parts.now) }
    ensures rising { IfOk result (λ runs. IsRising runs.items) }
{
    let mut runs = Vec::new(alloc);
    for part in parts {
        if let Part::Range { from, to } = *part {
            add_range_runs(&mut runs, from, to, caseless, utf)?;
        }
    }
    let joined = joined(alloc, runs)?;
    Ok(joined)
}

/// Adds the runs of a range, in any case or not.
fn add_range_runs(
    runs: &mut Vec<Run>,
    from: u32,
    to: u32,
    caseless: bool,
    utf: bool,
) -> Result<(), Memory>
    ensures { OnOk result ((c : ℕ) → runs_have runs.new.items c
        ≡ (runs_have runs.old.items c || spec.range_has utf caseless from to c)) }
{
    runs.push(Run { from, to })?;
    if !caseless {
        return Ok(());
    }
    if utf {
        add_partners(runs, ucd_case::fold_pairs(), from, to)?;
    } else {
        add_letters(runs, from, to)?;
    }
    Ok(())
}

/// Adds the second character of each pair whose first lies in the range. Those in the range itself are left out.
fn add_partners(runs: &mut Vec<Run>, pairs: &[(u32, u32)], from: u32, to: u32) -> Result<(), Memory>
    requires { IsNonDecreasingBy (λ (pair : ℕ × ℕ). pair.0) pairs.now }
    ensures more { OnOk result ((c : ℕ) → is_in_range from to c ≡ false → runs_have runs.new.items c
        ≡ (runs_have runs.old.items c || partner_has pairs.now from to c)) }
    ensures kept { OnOk result ((c : ℕ) → runs_have runs.old.items c ≡ true
        → runs_have runs.new.items c ≡ true) }
{
    let first = first_pair(pairs, from as u64);
    for i in first..pairs.len() {
        let (c, other) = pairs[i];
        if c > to {
            return Ok(());
        }
        if !is_within(from, to, other as u64) {
            runs.push(Run {
                from: other,
                to: other,
            })?;
        }
    }
    Ok(())
}

/// The place of the first pair whose first character isn't below `c`.
fn first_pair(pairs: &[(u32, u32)], c: u64) -> usize
    requires { IsNonDecreasingBy (λ (pair : ℕ × ℕ). pair.0) pairs.now }
    ensures { IsPartitionPoint (λ (pair : ℕ × ℕ). nat_lt pair.0 c ≡ true)
        (λ pair. nat_lt pair.0 c ≡ false) pairs.now result }
{
    pairs.partition_point(|pair| (pair.0 as u64) < c)
}

/// Adds the other cases of ASCII's letters in the range.
fn add_letters(runs: &mut Vec<Run>, from: u32, to: u32) -> Result<(), Memory>
    ensures { OnOk result ((c : ℕ) → runs_have runs.new.items c
        ≡ (runs_have runs.old.items c || letters_have from to c)) }
{
    if from <= 90 && to >= 65 {
        runs.push(Run {
            from: from.max(65) + 32,
            to: to.min(90) + 32,
        })?;
    }
    if from <= 122 && to >= 97 {
        runs.push(Run {
            from: from.max(97) - 32,
            to: to.min(122) - 32,
        })?;
    }
    Ok(())
}
