//! What is written of an input.
ghost use Rattle.std.specs.Prelude.{◌≡◌};
ghost use Rattle.grep_match.specs.Modes.{mode, asks_parts, is_with, is_matching, is_not_matching};

use grep_args::{GrepPlan, NameMode, OffsetMode};

/// What is written of an input: the first of these that the plan asks for (pcre2grep, "OPTIONS").
#[derive(Clone, Copy, Debug, PartialEq, Eq)]
pub enum Mode {
    /// `-q`: nothing.
    Nothing,
    /// `-L`: its name, where no line is selected.
    NamesWithout,
    /// `-c`: the number of its selected lines.
    Counts,
    /// `-l`: its name, where a line is selected.
    NamesWith,
    /// `-t` alone: nothing, the total comes at the end.
    Total,
    /// `-o` or offsets: what matched, or where.
    Parts,
    /// The selected lines.
    WholeLines,
}

/// Whether names are shown before what is written of an input.
pub fn is_named(names: NameMode) -> bool
    ensures { result ≡ is_with names }
{
    names == NameMode::With
}

/// Whether names alone are shown, of inputs in which a line is selected.
pub fn is_matching(names: NameMode) -> bool
    ensures { result ≡ is_matching names }
{
    names == NameMode::Matching
}

// Whether names alone are shown, of inputs in which no line is selected.
fn is_not_matching(names: NameMode) -> bool
    ensures { result ≡ is_not_matching names }
{
    names == NameMode::NotMatching
}

// `-o`, `--line-offsets` or `--file-offsets` is given.
fn asks_parts(plan: &GrepPlan) -> bool
    ensures { result ≡ asks_parts plan.now }
{
    plan.only_matching.len() > 0 || plan.offsets != OffsetMode::NoOffsets
}

/// The mode of a plan.
pub fn mode_of(plan: &GrepPlan) -> Mode
    ensures { result ≡ mode plan.now }
{
    if plan.quiet {
        Mode::Nothing
    } else if is_not_matching(plan.names) {
        Mode::NamesWithout
    } else if plan.count {
        Mode::Counts
    } else if is_matching(plan.names) {
        Mode::NamesWith
    } else if plan.total_count {
        Mode::Total
    } else if asks_parts(plan) {
        Mode::Parts
    } else {
        Mode::WholeLines
    }
}
