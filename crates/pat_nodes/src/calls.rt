//! What a call or a test of one asks for (pcre2pattern, "Recursive patterns", "Groups as
//! subroutines").
ghost use Rattle.std.specs.Prelude.{◌≡◌, ◌<◌, length};
ghost use Rattle.pat_grammar.specs.Parts.{is_number, number_called};
ghost use Rattle.pat_grammar.specs.Groups.{called_by};
ghost use Rattle.pat_nodes.specs.Nodes.{test_of};

use crate::frames::Test;
use pat_lex::Target;
use pat_tree::GroupList;

/// Whether a target is a number.
pub fn is_number(target: Target) -> bool
    ensures { result ≡ is_number target }
{
    matches!(target, Target::Number(_))
}

/// The group that is called, the first of those that are named. The whole pattern is called by its
/// number 0 alone: else 0 stands for no group.
pub fn number_called(groups: &GroupList, by_number: bool) -> Option<u16>
    requires { 0 < length groups.now }
    ensures { result ≡ number_called by_number groups.now }
{
    let first = *groups.get(0);
    if first == 0 && !by_number {
        None
    } else {
        Some(first)
    }
}

/// What a test of a call by a name asks, where 0 stands for a name that no group has.
pub fn named_call(groups: GroupList) -> Test
    requires { 0 < length groups }
    ensures { test_of result ≡ called_by groups }
{
    if *groups.get(0) == 0 {
        Test::AnySet(groups)
    } else {
        Test::InCallOf(groups)
    }
}
