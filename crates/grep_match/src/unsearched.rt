//! Lines on which no search need be made.
ghost use Rattle.std.specs.Prelude.{◌≡◌, IfSome};
ghost use Rattle.pat_tree.specs.declared.options.PartialMode.TheVariants.{Off};
ghost use Rattle.grep_match.specs.Compiled.{patterns_in};
ghost use Rattle.grep_match.specs.Needed.{NoneAnswers, AreNeeded};

use crate::patterns::{Kept, Patterns};
use crate::search::limits;
use grep_args::GrepPlan;
use pcre2_api::{ByteText, MatchOptions};

// Longer lines than the first of these that serves are searched: some patterns pass no limit on short lines alone.
const LENGTHS: [u32; 5] = [65_535, 2_047, 511, 127, 63];

// Of more patterns some text stands in nearly every line.
const MANY: usize = 16;

/// A text that every match takes.
#[derive(Drop)]
pub struct Needed {
    pub text: ByteText,
    /// So many bytes a line may have on which no search is made.
    pub most: u32,
    /// Whether it must be UTF-8 too: a search of another line gives an error.
    pub utf: bool,
}

// The text for lines of at most so many bytes.
fn needed_within(patterns: &Patterns, matching: &MatchOptions, most: u32) -> Option<Needed>
    requires { matching.now.«partial» ≡ Off }
    ensures { IfSome result (NoneAnswers matching.now (patterns_in patterns.now)) }
{
    let mut text = ByteText::nowhere();
    let mut utf = false;
    for kept in patterns.kept() {
        let Kept::Code(code) = kept else {
            return None;
        };
        let Some(more) = code.needed(most, matching) else {
            return None;
        };
        text = text.either(&more);
        utf |= patterns.is_utf(kept);
    }
    Some(Needed { text, most, utf })
}

/// A text that every match of the patterns takes, under the limits of the plan: a line in which it stands nowhere isn't
/// searched. None where no such text is known.
pub fn needed_text(plan: &GrepPlan, patterns: &Patterns) -> Option<Needed>
    ensures { IfSome result (AreNeeded plan.now (patterns_in patterns.now)) }
{
    if patterns.len() > MANY {
        return None;
    }
    let matching = limits(plan);
    for most in LENGTHS {
        if let Some(needed) = needed_within(patterns, &matching, most) {
            return Some(needed);
        }
    }
    None
}
