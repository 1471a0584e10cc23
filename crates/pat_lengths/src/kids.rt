// What holds of a node's children, where it is kept for each node by its number.
ghost use Rattle.std.specs.Prelude.{◌≡◌, ℕ, ◌<◌, ◌∷◌, ◌++◌, length};
ghost use Rattle.std.specs.List.{list_all, list_any};
ghost use Rattle.pat_tree.specs.Rules.{kids_of, number_in, tests_of};
ghost use Rattle.pat_lengths.specs.Passing.{flagged};

use pat_tree::{Cond, Node, NodeId};

pub(crate) fn has_flag(flags: &[bool], n: usize) -> bool
    ensures { result ≡ flagged flags.now n }
{
    match flags.get(n) {
        Some(flag) => *flag,
        None => false,
    }
}

pub(crate) fn set_flag(flags: &mut Vec<bool>, n: usize, flag: bool)
    ensures size { length flags.new.items ≡ length flags.old.items }
    ensures here { n < length flags.old.items → flagged flags.new.items n ≡ flag }
    ensures others { (k : ℕ) → (k ≡ n → ⊥)
        → flagged flags.new.items k ≡ flagged flags.old.items k }
{
    if n < flags.len() {
        flags[n] = flag;
    }
}

pub(crate) fn some_flag(ids: &[NodeId], flags: &[bool]) -> bool
    ensures { result ≡ list_any (flagged flags.now) ids.now }
{
    ids.iter().any(|id| has_flag(flags, *id as usize))
}

/// Whether some child has a flag.
pub(crate) fn some_kid(node: &Node, flags: &[bool]) -> bool
    ensures { result ≡ list_any (flagged flags.now) (kids_of node.now) }
{
    match node {
        Node::Seq(kids) => some_flag(kids.as_slice(), flags),
        Node::Group { branches, .. } => some_flag(branches.as_slice(), flags),
        Node::Repeat { body, .. } => has_flag(flags, *body as usize),
        Node::Atomic(branches) => some_flag(branches.as_slice(), flags),
        Node::Look { branches, .. } => some_flag(branches.as_slice(), flags),
        Node::Cond { test, yes, no } => some_of_condition(test, *yes, *no, flags),
        _ => false,
    }
}

fn some_of_condition(test: &Cond, yes: NodeId, no: Option<NodeId>, flags: &[bool]) -> bool
    ensures { result ≡ list_any (flagged flags.now) (tests_of test.now ++ yes ∷ number_in no) }
{
    if let Cond::Assert(test) = test {
        if has_flag(flags, *test as usize) {
            return true;
        }
    }
    if has_flag(flags, yes as usize) {
        return true;
    }
    match no {
        Some(no) => has_flag(flags, no as usize),
        None => false,
    }
}

pub(crate) fn every_flag(ids: &[NodeId], flags: &[bool]) -> bool
    ensures { result ≡ list_all (flagged flags.now) ids.now }
{
    ids.iter().all(|id| has_flag(flags, *id as usize))
}
