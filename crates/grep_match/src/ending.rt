//! What ends a line.
ghost use Rattle.std.specs.Prelude.{◌≡◌};
ghost use Rattle.grep_match.specs.PatternTexts.{line_end};

use byte_lanes::EndKind;
use grep_args::GrepPlan;

/// What ends a line, in an input and in a pattern under `-F`.
pub fn line_end(plan: &GrepPlan) -> EndKind
    ensures { result ≡ line_end plan.now }
{
    plan.newline.end_kind(plan.utf)
}
