// Whether a pattern can match an empty text.
ghost use Rattle.std.specs.Prelude.{◌≡◌, ◌≤◌, ◌||◌, ℕ, suc, true, false, [], All, IfOk};
ghost use Rattle.pat_tree.specs.Nested.{trees};
ghost use Rattle.pat_tree.specs.Parts.{tree_of};
ghost use Rattle.pat_lengths.specs.Nodes.{has_shared_number, named_in};
ghost use Rattle.pat_lengths.specs.Passing.{IsGroupTable, flagged, has_zero, whole_lengths};
ghost use Rattle.pat_lengths.specs.Rounds.{AreRounds};

use crate::behind::leads_back;
use crate::groups::{Groups, number_of};
use crate::kids::{has_flag, set_flag};
use crate::rings::rings_of;
use crate::rounds::{Question, answers_of, names_groups, next_round, node_answer, node_answers};
use pat_tree::{Memory, NodeId, Tree};
use std::alloc::Global;

/// Whether a pattern can match an empty text, apart from ACCEPT.
pub fn passes_whole(alloc: Global, tree: &Tree, groups: &Groups) -> Result<bool, Memory>
    requires { IsGroupTable (trees tree.now.nodes) tree.now.root (tree_of tree.now) groups.now }
    ensures { IfOk result (λ empty.
        empty ≡ has_zero (whole_lengths tree.now.options.match_unset_backref (tree_of tree.now))) }
{
    let any = has_any_length(tree, groups);
    if !names_groups(tree) {
        return passes_plain(alloc, tree, any);
    }
    let question = Question::Passes { any };
    let can = groups_passing(alloc, tree, groups, any)?;
    let passing = node_answers(alloc, tree, question, &can)?;
    Ok(passing[tree.root() as usize])
}

/// The same of a pattern in which no group is named.
fn passes_plain(alloc: Global, tree: &Tree, any: bool) -> Result<bool, Memory>
    requires any { any
        ≡ (tree.now.options.match_unset_backref || has_shared_number (tree_of tree.now)) }
    requires plain { named_in (tree_of tree.now) ≡ [] }
    ensures { IfOk result (λ empty.
        empty ≡ has_zero (whole_lengths tree.now.options.match_unset_backref (tree_of tree.now))) }
{
    let passing = node_answers(alloc, tree, Question::Passes { any }, &[])?;
    Ok(passing[tree.root() as usize])
}

/// Which groups can match an empty text.
// Where none leads back to itself, answers that a round doesn't change are right. They are found in one pass over the
// nodes, each after all that it leads to.
fn groups_passing(
    alloc: Global,
    tree: &Tree,
    groups: &Groups,
    any: bool,
) -> Result<Vec<bool>, Memory>
    requires { IsGroupTable (trees tree.now.nodes) tree.now.root (tree_of tree.now) groups.now }
    ensures { IfOk result (λ of.
        AreRounds (Question.Passes any) (tree_of tree.now) (suc groups.now.count) of.items) }
{
    let question = Question::Passes { any };
    let told = rings_of(alloc, tree, groups)?;
    let back = leads_back(alloc, tree, groups, &told.rings)?;
    if has_none(&back) {
        let found = in_order(alloc, tree, groups, question, &told.order)?;
        let after = next_round(alloc, tree, &groups.places, question, &found)?;
        if after.as_slice() == found.as_slice() {
            return Ok(found);
        }
    }
    answers_of(alloc, tree, groups, question)
}

fn has_none(flags: &[bool]) -> bool
    ensures { result ≡ true → (n : ℕ) → flagged flags.now n ≡ false }
{
    for n in 0..flags.len() {
        if has_flag(flags, n) {
            return false;
        }
    }
    true
}

/// What one pass over the nodes in an order finds as the answers of groups.
fn in_order(
    alloc: Global,
    tree: &Tree,
    groups: &Groups,
    question: Question,
    order: &[NodeId],
) -> Result<Vec<bool>, Memory>
    requires { All (λ k. k ≤ tree.now.root) order.now }
{
    let mut of = vec![in alloc; false; groups.places.len()]?;
    let mut answers = vec![in alloc; false; tree.root() as usize + 1]?;
    for id in order {
        let node = tree.node(*id);
        let answer = node_answer(node, question, &of, &answers);
        set_flag(&mut answers, *id as usize, answer);
        if let Some(number) = number_of(node) {
            if groups.place(number) == Some(*id) {
                set_flag(&mut of, number as usize, answer);
            }
        }
    }
    set_flag(&mut of, 0, has_flag(&answers, tree.root() as usize));
    Ok(of)
}

/// Whether a reference to a group may have any length.
pub(crate) fn has_any_length(tree: &Tree, groups: &Groups) -> bool
    ensures { result ≡ (tree.now.options.match_unset_backref || groups.now.shared) }
{
    tree.options().match_unset_backref || groups.shared
}
