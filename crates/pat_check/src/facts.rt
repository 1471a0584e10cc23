//! What is known of a pattern.
ghost use Rattle.std.specs.Prelude.{◌≡◌, ◌<◌, ◌≤◌, ℕ, true, false, All, List, None, IfOk, IfErr, IfSome, length, map};
ghost use Rattle.std.specs.Prelude.{slice_index};
ghost use Rattle.pat_tree.specs.declared.nodes.Placed.{Placed};
ghost use Rattle.pat_tree.specs.Nested.{trees, tree_at};
ghost use Rattle.pat_tree.specs.Parts.{TreeParts, tree_of};
ghost use Rattle.pat_tree.specs.Sound.{TreeRules};
ghost use Rattle.uni_text.specs.Folding.{fold};
ghost use Rattle.node_flow.specs.Branches.{AreBranchesOf, branch_of};
ghost use Rattle.node_flow.specs.Followers.{IsFlowOf, next_of};
ghost use Rattle.node_flow.specs.LookBranches.{AreLookBranchesOf, look_branch_of};
ghost use Rattle.node_flow.specs.Order.{AreRanks, order};
ghost use Rattle.char_sets.specs.Table.{IsTableOf};
ghost use Rattle.pat_lengths.specs.Backs.{AreBacks, first_fault, greatest_back, lengths_at, lengths_back};
ghost use Rattle.pat_lengths.specs.Lengths as lengths;
ghost use Rattle.pat_lengths.specs.Lengths.{branch_fault};
ghost use Rattle.pat_lengths.specs.Nodes as nodes;
ghost use Rattle.pat_lengths.specs.Nodes.{all_nodes};
ghost use Rattle.pat_lengths.specs.Passing.{IsGroupTable, place_of};
ghost use Rattle.pat_lengths.specs.Places.{ArePlaces};
ghost use Rattle.pat_needs.specs.NeedTables.{IsNeedOf};
ghost use Rattle.pat_check.specs.Known.{IsByteSet, IsCheckError, lead_set_of};
ghost use Rattle.pat_check.specs.Size as sizes;
ghost use Rattle.pat_check.specs.Starts.{FoldsIn};
ghost use Rattle.pat_check.specs.Support as support;

use crate::leads::lead_set;
use crate::size::size_of;
use crate::support::DfaSupport;
use crate::survey::survey_of;
use byte_lanes::ByteSet;
use char_sets::ClassTable;
use node_flow::{Branches, Flow, LookBranches, Ranks, preorder};
use pat_lengths::{
    Back, Backs, Groups, branch_spans, fault_in, greatest_in, group_table, passes_whole,
};
use pat_needs::{Need, need_of};
use pat_tree::{Memory, NodeId, Tree};
use std::alloc::Global;

/// What is known of a pattern before any search.
#[derive(Drop)]
pub struct Facts {
    /// The bytes that every match begins with, where they are known and each match takes one (pcre2api, "Option bits
    /// for pcre2_compile()", PCRE2_NO_START_OPTIMIZE).
    pub lead: Option<ByteSet>,
    /// The pattern can match an empty text (pcre2api, "Information about a compiled pattern", PCRE2_INFO_MATCHEMPTY).
    pub can_be_empty: bool,
    /// CR or LF stands in the pattern, as a character or as an end of a range.
    pub names_crlf: bool,
    /// The pattern holds a lookbehind.
    pub has_lookbehind: bool,
    /// The pattern holds `\b`, `\B` or `\A`, which look at the character before.
    pub tests_before: bool,
    /// How many nodes the pattern has with its repeats written out, at most 4,294,967,295.
    pub size: u32,
    /// Whether the search for all ends at a place serves the pattern (pcre2matching, "The alternative matching
    /// algorithm").
    pub dfa: DfaSupport,
    /// How far each branch of a lookbehind begins before its place.
    pub backs: Backs,
    /// Where the groups of the pattern stand, by their numbers. Group 0 is the whole pattern.
    pub groups: Groups,
    /// The greatest length of a branch of a lookbehind in the pattern, in characters; 0 where it has none (pcre2api,
    /// "Information about a compiled pattern", PCRE2_INFO_MAXLOOKBEHIND).
    pub greatest_back: u32,
    /// What runs when a part of the pattern is done.
    pub flow: Flow,
    /// The branches around the parts of the pattern.
    pub branches: Branches,
    /// The branches of lookbehinds around the parts of the pattern.
    pub look_branches: LookBranches,
    /// The places of its parts in the pattern.
    pub ranks: Ranks,
    /// Bytes of which every match takes one, where such a set is known and worth a look.
    pub need: Option<Need>,
}

impl Facts {
    /// The part that runs when this one is done, if there is one before the end of the innermost frame around it.
    pub fn next(&self, id: NodeId) -> Option<NodeId>
        requires { id < length self.now.flow }
        ensures { (nodes : List Placed) (root : ℕ) → IsFlowOf nodes root self.now.flow
            → result ≡ next_of nodes root id }
    {
        self.flow.next(id)
    }

    /// The innermost branch around this part, if there is one in the innermost frame around it.
    pub fn branch(&self, id: NodeId) -> Option<NodeId>
        requires { id < length self.now.branches }
        ensures { (nodes : List Placed) (root : ℕ) → AreBranchesOf nodes root self.now.branches
            → result ≡ branch_of nodes root id }
    {
        self.branches.of(id)
    }

    /// The branch of a lookbehind around this part, if there is one in the innermost frame around it.
    pub fn look_branch(&self, id: NodeId) -> Option<NodeId>
        requires { id < length self.now.look_branches }
        ensures { (nodes : List Placed) (root : ℕ) → AreLookBranchesOf nodes root self.now.look_branches
            → result ≡ look_branch_of nodes root id }
    {
        self.look_branches.of(id)
    }

    /// The place of this part in the pattern, counted from 0.
    pub fn rank(&self, id: NodeId) -> u32
        requires { id < length self.now.ranks }
        ensures { (nodes : List Placed) (root i : ℕ) → AreRanks nodes root self.now.ranks
            → i < length (order nodes root) → slice_index (order nodes root) i ≡ id → result ≡ i }
    {
        self.ranks.of(id)
    }

    /// Where the group of a number stands, if there is one (pcre2pattern, "Groups as subroutines").
    pub fn group(&self, number: u16) -> Option<NodeId>
        ensures { result ≡ place_of self.now.groups.places.items number }
    {
        self.groups.place(number)
    }

    /// The least and the greatest length of a branch of a lookbehind, in characters: so far before its place it begins.
    /// Needs such a branch of the tree that these facts are of (pcre2pattern, "Lookbehind assertions").
    pub fn back(&self, branch: NodeId) -> Back
        requires { branch < length self.now.backs }
        ensures { (tree : TreeParts) → AreBacks tree self.now.backs
            → branch_fault (lengths_at tree branch) ≡ None → lengths_at tree branch ≡ lengths_back result }
    {
        self.backs.of(branch)
    }
}

/// Why nothing is told of a pattern.
#[derive(Clone, Copy, Debug, PartialEq, Eq)]
pub enum CheckError {
    /// A lookbehind is refused: 125, a branch has no greatest length, or 187, it is too long. The place is that of the
    /// lookbehind's parenthesis (pcre2pattern, "Lookbehind assertions").
    Bad { number: i32, at: u32 },
    /// Want of memory.
    Memory,
}

impl From<Memory> for CheckError {
    ghost use Rattle.std.specs.Prelude.{◌≡◌};
    ghost use Rattle.pat_check.specs.declared.facts.CheckError.TheVariants as told;

    ghost from_gives = { λ _ e. e ≡ told.Memory };

    fn from(_e: Memory) -> CheckError {
        CheckError::Memory
    }
}

/// What is known of a pattern, by its tree and the table of its classes. Refuses the first branch of a lookbehind in
/// the pattern's order that has no greatest length, that is longer than 255 characters where its lengths differ, or than
/// 65,535 where there is one; a pattern without lookbehinds is
/// refused for want of memory alone. Nodes that aren't under the root don't count.
pub fn check(alloc: Global, tree: &Tree, classes: &ClassTable) -> Result<Facts, CheckError>
    requires table { IsTableOf tree.now classes.now }
    ensures lead { tree.now.options.utf ≡ false → (folding : ℕ → ℕ)
        → IfOk result (λ facts. IsByteSet facts.lead (lead_set_of tree.now folding)) }
    ensures lead_in_utf { tree.now.options.utf ≡ true
        → IfOk result (λ facts. IsByteSet facts.lead (lead_set_of tree.now fold)) }
    ensures empty { IfOk result (λ facts.
        facts.can_be_empty
        ≡ lengths.can_be_empty tree.now.options.match_unset_backref (tree_of tree.now)) }
    ensures names { IfOk result (λ facts.
        facts.names_crlf ≡ nodes.names_cr_or_lf tree.now.classes (tree_of tree.now)) }
    ensures lookbehind { IfOk result (λ facts.
        facts.has_lookbehind ≡ nodes.has_lookbehind (tree_of tree.now)) }
    ensures before { IfOk result (λ facts.
        facts.tests_before ≡ nodes.tests_before (tree_of tree.now)) }
    ensures size { IfOk result (λ facts. facts.size ≡ sizes.size (tree_of tree.now)) }
    ensures dfa { IfOk result (λ facts. facts.dfa ≡ support.dfa_support (tree_of tree.now)) }
    ensures backs { IfOk result (λ facts. AreBacks tree.now facts.backs) }
    ensures places { IfOk result (λ facts. ArePlaces tree.now facts.groups) }
    ensures greatest { IfOk result (λ facts. facts.greatest_back ≡ greatest_back tree.now) }
    ensures flow { IfOk result (λ facts. IsFlowOf tree.now.nodes tree.now.root facts.flow) }
    ensures branches { IfOk result (λ facts.
        AreBranchesOf tree.now.nodes tree.now.root facts.branches) }
    ensures look_branches { IfOk result (λ facts.
        AreLookBranchesOf tree.now.nodes tree.now.root facts.look_branches) }
    ensures ranks { IfOk result (λ facts. AreRanks tree.now.nodes tree.now.root facts.ranks) }
    ensures need { IfOk result (λ facts. IfSome facts.need (IsNeedOf tree.now)) }
    ensures fixed { IfOk result (λ facts. first_fault tree.now ≡ None) }
    ensures refused { IfErr result (IsCheckError (first_fault tree.now)) }
    ensures without { nodes.has_lookbehind (tree_of tree.now) ≡ false
        → IfErr result (λ e. e ≡ CheckError.Memory) }
{
    let order = nodes_in_order(alloc, tree)?;
    let survey = survey_of(tree, &order);
    let groups = group_table(alloc, tree, &order)?;
    let spans = branch_spans(alloc, tree, &groups)?;
    if let Some(fault) = fault_in(tree, &order, &spans) {
        return Err(CheckError::Bad {
            number: fault.number,
            at: fault.at,
        });
    }
    Ok(Facts {
        lead: lead_unless(alloc, tree, classes, survey.has_accept)?,
        can_be_empty: empty_or(alloc, tree, &groups, survey.has_accept)?,
        names_crlf: survey.names_crlf,
        has_lookbehind: survey.has_lookbehind,
        tests_before: survey.tests_before,
        size: size_of(alloc, tree)?,
        dfa: survey.dfa,
        backs: Backs::of_spans(alloc, &spans)?,
        groups,
        greatest_back: greatest_in(tree, &order, &spans),
        flow: Flow::build(alloc, tree)?,
        branches: Branches::build(alloc, tree)?,
        look_branches: LookBranches::build(alloc, tree)?,
        ranks: Ranks::build(alloc, tree)?,
        need: need_of(alloc, tree, classes)?,
    })
}

/// The nodes of a pattern, each before its children.
fn nodes_in_order(alloc: Global, tree: &Tree) -> Result<Vec<NodeId>, Memory>
    ensures order { IfOk result (λ ids. ids.items ≡ order tree.now.nodes tree.now.root) }
    ensures nodes { IfOk result (λ ids.
        map (tree_at (trees tree.now.nodes)) ids.items ≡ all_nodes (tree_of tree.now)) }
    ensures below { IfOk result (λ ids. All (λ k. k ≤ tree.now.root) ids.items) }
    ensures rules { TreeRules tree.now }
{
    tree.is_sound();
    let order = preorder(alloc, tree)?;
    Ok(order)
}

/// Whether a pattern can match an empty text, which it can where it holds ACCEPT.
fn empty_or(alloc: Global, tree: &Tree, groups: &Groups, has_accept: bool) -> Result<bool, Memory>
    requires table { IsGroupTable (trees tree.now.nodes) tree.now.root (tree_of tree.now)
        groups.now }
    requires accept { has_accept ≡ nodes.has_accept (tree_of tree.now) }
    ensures { IfOk result (λ empty.
        empty ≡ lengths.can_be_empty tree.now.options.match_unset_backref (tree_of tree.now)) }
{
    if has_accept {
        return Ok(true);
    }
    passes_whole(alloc, tree, groups)
}

/// The bytes that every match begins with, which aren't known of a pattern that holds ACCEPT.
fn lead_unless(
    alloc: Global,
    tree: &Tree,
    classes: &ClassTable,
    has_accept: bool,
) -> Result<Option<ByteSet>, Memory>
    requires table { IsTableOf tree.now classes.now }
    requires accept { has_accept ≡ nodes.has_accept (tree_of tree.now) }
    ensures { (fold : ℕ → ℕ) → FoldsIn tree.now.options.utf fold
        → IfOk result (λ set. IsByteSet set (lead_set_of tree.now fold)) }
{
    if has_accept {
        return Ok(None);
    }
    lead_set(alloc, tree, classes)
}
