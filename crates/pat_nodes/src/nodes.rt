//! Nodes of a draft, as the reader makes them.
ghost use Rattle.std.specs.Prelude.{◌≡◌, ◌+◌, ◌<◌, ◌≤◌, [], ◌∷◌, ◌++◌, length, map, IfOk, OnOk, All, None};
ghost use Rattle.pat_tree.specs.Nested.{tree_at, trees, row, atomic};
ghost use Rattle.pat_tree.specs.Growing.{EndsIn, Replaces, Makes};
ghost use Rattle.pat_tree.specs.Rules.{number_in, AtMost};
ghost use Rattle.pat_nodes.specs.declared.frames.Form.TheVariants as kept;
ghost use Rattle.pat_grammar.specs.Groups.{number_of, built, conditional, asserting, defines};
ghost use Rattle.pat_grammar.specs.Parts.{alternative, once_more, repeat_of, is_lazy, repeated};
ghost use Rattle.pat_nodes.specs.Nodes.{Adds, Closes, CanHave, HasTest, TestsIn, IsAtom, atom_tree, ids_of, form_of};
ghost use Rattle.pat_nodes.specs.Nodes.{test_of, cond_in};

use crate::frames::{Atom, Form, Level, Test};
use pat_lex::QuantMode;
use pat_tree::{Cond, Draft, Kids, Memory, Node, NodeId};
use std::alloc::Global;
use std::mem;

/// The node of an alternative with these parts.
pub fn alternative(draft: &mut Draft, parts: Kids, at: u32) -> Result<NodeId, Memory>
    requires room { length draft.old.nodes < 4294967295 }
    requires below { All (λ k. k < length draft.old.nodes) parts }
    requires loose { EndsIn draft.old.nodes parts }
    ensures made { IfOk result
        (λ id. Makes draft.old.nodes draft.new.nodes id
        (alternative (map (tree_at (trees draft.old.nodes)) parts))) }
    ensures loose { IfOk result (λ id. Replaces draft.old.nodes parts draft.new.nodes id) }
    ensures count { OnOk result (length draft.new.nodes ≤ length draft.old.nodes + 1) }
    ensures adds { OnOk result (Adds draft.old draft.new) }
{
    match parts.len() {
        0 => {
            let id = draft.add(Node::Empty, at)?;
            Ok(id)
        }
        1 => Ok(*parts.get(0)),
        _ => {
            let id = draft.add(Node::Seq(parts), at)?;
            Ok(id)
        }
    }
}

/// The node of an atom that no quantifier follows.
pub fn place(draft: &mut Draft, atom: Atom) -> Result<NodeId, Memory>
    requires room { length draft.old.nodes < 4294967295 }
    requires atom { IsAtom draft.old atom }
    requires loose { EndsIn draft.old.nodes (ids_of atom) }
    ensures made { IfOk result
        (λ id. Makes draft.old.nodes draft.new.nodes id (atom_tree draft.old.nodes atom)) }
    ensures loose { IfOk result (λ id. Replaces draft.old.nodes (ids_of atom) draft.new.nodes id) }
    ensures count { OnOk result (length draft.new.nodes ≤ length draft.old.nodes + 1) }
    ensures adds { OnOk result (Adds draft.old draft.new) }
{
    match atom {
        Atom::Single { item, at } => {
            let id = draft.add(Node::One(item), at)?;
            Ok(id)
        }
        Atom::Whole { id, .. } | Atom::Look { id, .. } => Ok(id),
    }
}

/// A group that doesn't capture.
pub fn plain() -> Form
    ensures { result ≡ kept.Group None }
{
    Form::Group { number: None }
}

/// The test of a condition's node.
fn cond_of(test: Test) -> Cond
    ensures { result ≡ cond_in test }
{
    match test {
        Test::AnySet(groups) => Cond::AnySet(groups),
        Test::InCall => Cond::InCall,
        Test::InCallOf(groups) => Cond::InCallOf(groups),
    }
}

/// The node of a conditional group with one branch.
fn single_condition(
    draft: &mut Draft,
    test: Test,
    branches: Kids,
    at: u32,
) -> Result<NodeId, Memory>
    requires room { length draft.old.nodes < 4294967295 }
    requires branches { All (λ k. k < length draft.old.nodes) branches }
    requires loose { EndsIn draft.old.nodes branches }
    requires few { length branches ≡ 1 }
    ensures made { IfOk result
        (λ id. Makes draft.old.nodes draft.new.nodes id
        (built (conditional (test_of test)) (map (tree_at (trees draft.old.nodes)) branches))) }
    ensures loose { IfOk result (λ id. Replaces draft.old.nodes branches draft.new.nodes id) }
    ensures count { OnOk result (length draft.new.nodes ≡ length draft.old.nodes + 1) }
    ensures closes { OnOk result (Closes draft.old draft.new (conditional (test_of test)) at) }
{
    let node = Node::Cond {
        test: cond_of(test),
        yes: *branches.get(0),
        no: None,
    };
    let id = draft.add(node, at)?;
    Ok(id)
}

/// The node of a conditional group with two branches.
fn double_condition(
    draft: &mut Draft,
    test: Test,
    branches: Kids,
    at: u32,
) -> Result<NodeId, Memory>
    requires room { length draft.old.nodes < 4294967295 }
    requires branches { All (λ k. k < length draft.old.nodes) branches }
    requires loose { EndsIn draft.old.nodes branches }
    requires few { length branches ≡ 2 }
    ensures made { IfOk result
        (λ id. Makes draft.old.nodes draft.new.nodes id
        (built (conditional (test_of test)) (map (tree_at (trees draft.old.nodes)) branches))) }
    ensures loose { IfOk result (λ id. Replaces draft.old.nodes branches draft.new.nodes id) }
    ensures count { OnOk result (length draft.new.nodes ≡ length draft.old.nodes + 1) }
    ensures closes { OnOk result (Closes draft.old draft.new (conditional (test_of test)) at) }
{
    let no = *branches.get(1);
    let node = Node::Cond {
        test: cond_of(test),
        yes: *branches.get(0),
        no: Some(no),
    };
    let id = draft.add(node, at)?;
    Ok(id)
}

/// The node of a conditional group with these branches.
fn condition_node(draft: &mut Draft, test: Test, branches: Kids, at: u32) -> Result<NodeId, Memory>
    requires room { length draft.old.nodes < 4294967295 }
    requires branches { All (λ k. k < length draft.old.nodes) branches }
    requires loose { EndsIn draft.old.nodes branches }
    requires few { CanHave (conditional (test_of test)) (length branches) }
    ensures made { IfOk result
        (λ id. Makes draft.old.nodes draft.new.nodes id
        (built (conditional (test_of test)) (map (tree_at (trees draft.old.nodes)) branches))) }
    ensures loose { IfOk result (λ id. Replaces draft.old.nodes branches draft.new.nodes id) }
    ensures count { OnOk result (length draft.new.nodes ≡ length draft.old.nodes + 1) }
    ensures closes { OnOk result (Closes draft.old draft.new (conditional (test_of test)) at) }
{
    if branches.len() == 1 {
        single_condition(draft, test, branches, at)
    } else {
        double_condition(draft, test, branches, at)
    }
}

/// The node of a conditional group with a test and one branch.
fn single_assertion(draft: &mut Draft, branches: Kids, at: u32) -> Result<NodeId, Memory>
    requires room { length draft.old.nodes < 4294967295 }
    requires branches { All (λ k. k < length draft.old.nodes) branches }
    requires loose { EndsIn draft.old.nodes branches }
    requires few { length branches ≡ 2 }
    requires test { HasTest asserting (map (tree_at (trees draft.old.nodes)) branches) }
    ensures made { IfOk result
        (λ id. Makes draft.old.nodes draft.new.nodes id
        (built asserting (map (tree_at (trees draft.old.nodes)) branches))) }
    ensures loose { IfOk result (λ id. Replaces draft.old.nodes branches draft.new.nodes id) }
    ensures count { OnOk result (length draft.new.nodes ≡ length draft.old.nodes + 1) }
    ensures closes { OnOk result (Closes draft.old draft.new asserting at) }
{
    let yes = *branches.get(1);
    let node = Node::Cond {
        test: Cond::Assert(*branches.get(0)),
        yes,
        no: None,
    };
    let id = draft.add(node, at)?;
    Ok(id)
}

/// The node of a conditional group with a test and two branches.
fn double_assertion(draft: &mut Draft, branches: Kids, at: u32) -> Result<NodeId, Memory>
    requires room { length draft.old.nodes < 4294967295 }
    requires branches { All (λ k. k < length draft.old.nodes) branches }
    requires loose { EndsIn draft.old.nodes branches }
    requires few { length branches ≡ 3 }
    requires test { HasTest asserting (map (tree_at (trees draft.old.nodes)) branches) }
    ensures made { IfOk result
        (λ id. Makes draft.old.nodes draft.new.nodes id
        (built asserting (map (tree_at (trees draft.old.nodes)) branches))) }
    ensures loose { IfOk result (λ id. Replaces draft.old.nodes branches draft.new.nodes id) }
    ensures count { OnOk result (length draft.new.nodes ≡ length draft.old.nodes + 1) }
    ensures closes { OnOk result (Closes draft.old draft.new asserting at) }
{
    let no = *branches.get(2);
    let yes = *branches.get(1);
    let node = Node::Cond {
        test: Cond::Assert(*branches.get(0)),
        yes,
        no: Some(no),
    };
    let id = draft.add(node, at)?;
    Ok(id)
}

/// The node of a conditional group with these branches, the first of which is its test.
fn assertion_node(draft: &mut Draft, branches: Kids, at: u32) -> Result<NodeId, Memory>
    requires room { length draft.old.nodes < 4294967295 }
    requires branches { All (λ k. k < length draft.old.nodes) branches }
    requires loose { EndsIn draft.old.nodes branches }
    requires few { CanHave asserting (length branches) }
    requires test { HasTest asserting (map (tree_at (trees draft.old.nodes)) branches) }
    ensures made { IfOk result
        (λ id. Makes draft.old.nodes draft.new.nodes id
        (built asserting (map (tree_at (trees draft.old.nodes)) branches))) }
    ensures loose { IfOk result (λ id. Replaces draft.old.nodes branches draft.new.nodes id) }
    ensures count { OnOk result (length draft.new.nodes ≡ length draft.old.nodes + 1) }
    ensures closes { OnOk result (Closes draft.old draft.new asserting at) }
{
    if branches.len() == 2 {
        single_assertion(draft, branches, at)
    } else {
        double_assertion(draft, branches, at)
    }
}

/// The node of a group of definitions, which is never run where it stands.
fn define_node(draft: &mut Draft, branches: Kids, at: u32) -> Result<NodeId, Memory>
    requires room { length draft.old.nodes < 4294967295 }
    requires branches { All (λ k. k < length draft.old.nodes) branches }
    requires loose { EndsIn draft.old.nodes branches }
    requires few { CanHave defines (length branches) }
    ensures made { IfOk result
        (λ id. Makes draft.old.nodes draft.new.nodes id
        (built defines (map (tree_at (trees draft.old.nodes)) branches))) }
    ensures loose { IfOk result (λ id. Replaces draft.old.nodes branches draft.new.nodes id) }
    ensures count { OnOk result (length draft.new.nodes ≡ length draft.old.nodes + 1) }
    ensures closes { OnOk result (Closes draft.old draft.new defines at) }
{
    let node = Node::Cond {
        test: Cond::Never,
        yes: *branches.get(0),
        no: None,
    };
    let id = draft.add(node, at)?;
    Ok(id)
}

/// The node of a group with these branches.
fn form_node(draft: &mut Draft, form: Form, branches: Kids, at: u32) -> Result<NodeId, Memory>
    requires room { length draft.old.nodes < 4294967295 }
    requires branches { All (λ k. k < length draft.old.nodes) branches }
    requires loose { EndsIn draft.old.nodes branches }
    requires numbered { All (λ n. 1 ≤ n) (number_in (number_of (form_of form))) }
    requires few { CanHave (form_of form) (length branches) }
    requires test { HasTest (form_of form) (map (tree_at (trees draft.old.nodes)) branches) }
    ensures made { IfOk result
        (λ id. Makes draft.old.nodes draft.new.nodes id
        (built (form_of form) (map (tree_at (trees draft.old.nodes)) branches))) }
    ensures loose { IfOk result (λ id. Replaces draft.old.nodes branches draft.new.nodes id) }
    ensures count { OnOk result (length draft.new.nodes ≡ length draft.old.nodes + 1) }
    ensures closes { OnOk result (Closes draft.old draft.new (form_of form) at) }
{
    match form {
        Form::Group { number } => {
            let id = draft.add(Node::Group { number, branches }, at)?;
            Ok(id)
        }
        Form::Atomic => {
            let id = draft.add(Node::Atomic(branches), at)?;
            Ok(id)
        }
        Form::Look {
            ahead,
            positive,
            atomic,
        } => {
            let node = Node::Look {
                ahead,
                positive,
                atomic,
                branches,
            };
            let id = draft.add(node, at)?;
            Ok(id)
        }
        Form::Asserted { ahead, positive } => {
            let node = Node::Look {
                ahead,
                positive,
                atomic: true,
                branches,
            };
            let id = draft.add(node, at)?;
            Ok(id)
        }
        Form::Condition(test) => condition_node(draft, test, branches, at),
        Form::Asserting => assertion_node(draft, branches, at),
        Form::Define => define_node(draft, branches, at),
    }
}

/// The node of a group, whose last alternative has the parts in progress.
pub fn group(draft: &mut Draft, form: Form, level: Level, at: u32) -> Result<NodeId, Memory>
    requires room { length draft.old.nodes + 1 < 4294967295 }
    requires branches { All (λ k. k < length draft.old.nodes) level.branches }
    requires parts { All (λ k. k < length draft.old.nodes) level.parts }
    requires loose { EndsIn draft.old.nodes (level.branches ++ level.parts) }
    requires numbered { All (λ n. 1 ≤ n) (number_in (number_of (form_of form))) }
    requires few { CanHave (form_of form) (length level.branches + 1) }
    requires test { HasTest (form_of form) (map (tree_at (trees draft.old.nodes)) level.branches) }
    ensures made { IfOk result
        (λ id. Makes draft.old.nodes draft.new.nodes id
        (built (form_of form)
        (map (tree_at (trees draft.old.nodes)) level.branches
        ++ alternative (map (tree_at (trees draft.old.nodes)) level.parts) ∷ []))) }
    ensures loose { IfOk result
        (λ id. Replaces draft.old.nodes (level.branches ++ level.parts) draft.new.nodes id) }
    ensures count { OnOk result (length draft.new.nodes ≤ length draft.old.nodes + 2) }
    ensures closes { OnOk result (Closes draft.old draft.new (form_of form) at) }
{
    let Level {
        mut branches,
        parts,
    } = level;
    let last = alternative(draft, parts, at)?;
    branches.push(last)?;
    let id = form_node(draft, form, branches, at)?;
    Ok(id)
}

/// A level with a lookaround that is tested as one alternative more, together with the callout that
/// is its only part.
pub fn with_test(
    alloc: Global,
    draft: &mut Draft,
    level: &mut Level,
    id: NodeId,
    at: u32,
) -> Result<(), Memory>
    requires room { length draft.old.nodes < 4294967295 }
    requires below { All (λ k. k < length draft.old.nodes) (level.old.parts ++ id ∷ []) }
    requires loose { EndsIn draft.old.nodes (level.old.parts ++ id ∷ []) }
    ensures made { OnOk result (TestsIn draft.old.nodes draft.new.nodes level.old level.new id) }
    ensures count { OnOk result (length draft.new.nodes ≤ length draft.old.nodes + 1) }
    ensures adds { OnOk result (Adds draft.old draft.new) }
{
    let mut parts = mem::replace(&mut level.parts, Kids::new(alloc));
    parts.push(id)?;
    let test = alternative(draft, parts, at)?;
    level.branches.push(test)?;
    Ok(())
}

/// How often a lookaround is repeated at most.
fn once_more(min: u16, max: Option<u16>) -> Option<u16>
    ensures is { result ≡ once_more min max }
    ensures ordered { AtMost min max → AtMost min result }
{
    match max {
        None => Some(min.saturating_add(1)),
        some => some,
    }
}

/// The node of the repeat of an atom.
fn repeat(
    draft: &mut Draft,
    min: u16,
    max: Option<u16>,
    lazy: bool,
    atom: Atom,
) -> Result<NodeId, Memory>
    requires room { length draft.old.nodes < 4294967295 }
    requires atom { IsAtom draft.old atom }
    requires loose { EndsIn draft.old.nodes (ids_of atom) }
    requires ordered { AtMost min max }
    ensures made { IfOk result
        (λ id. Makes draft.old.nodes draft.new.nodes id
        (repeat_of min max lazy (atom_tree draft.old.nodes atom))) }
    ensures loose { IfOk result (λ id. Replaces draft.old.nodes (ids_of atom) draft.new.nodes id) }
    ensures count { OnOk result (length draft.new.nodes ≤ length draft.old.nodes + 1) }
    ensures adds { OnOk result (Adds draft.old draft.new) }
{
    match atom {
        Atom::Single { item, at } => {
            let node = Node::OneRepeat {
                item,
                min,
                max,
                lazy,
            };
            let id = draft.add(node, at)?;
            Ok(id)
        }
        Atom::Whole { id: body, at } => {
            let node = Node::Repeat {
                body,
                min,
                max,
                lazy,
            };
            let id = draft.add(node, at)?;
            Ok(id)
        }
        Atom::Look { id: body, at } => {
            let node = Node::Repeat {
                body,
                min,
                max: once_more(min, max),
                lazy,
            };
            let id = draft.add(node, at)?;
            Ok(id)
        }
    }
}

/// The node of an atomic group of this node alone.
fn hold(alloc: Global, draft: &mut Draft, body: NodeId, at: u32) -> Result<NodeId, Memory>
    requires room { length draft.old.nodes < 4294967295 }
    requires below { body < length draft.old.nodes }
    requires loose { EndsIn draft.old.nodes (body ∷ []) }
    ensures made { IfOk result
        (λ id. Makes draft.old.nodes draft.new.nodes id
        (atomic (row (tree_at (trees draft.old.nodes) body ∷ [])))) }
    ensures loose { IfOk result (λ id. Replaces draft.old.nodes (body ∷ []) draft.new.nodes id) }
    ensures count { OnOk result (length draft.new.nodes ≡ length draft.old.nodes + 1) }
    ensures adds { OnOk result (Adds draft.old draft.new) }
{
    let mut branches = Kids::new(alloc);
    branches.push(body)?;
    let id = draft.add(Node::Atomic(branches), at)?;
    Ok(id)
}

/// Whether a repeat is lazy.
fn is_lazy(mode: QuantMode, ungreedy: bool) -> bool
    ensures { result ≡ is_lazy mode ungreedy }
{
    match mode {
        QuantMode::Greedy => ungreedy,
        QuantMode::Lazy => !ungreedy,
        QuantMode::Possessive => false,
    }
}

/// The node of an atom under a quantifier.
pub fn repeated(
    alloc: Global,
    draft: &mut Draft,
    min: u16,
    max: Option<u16>,
    mode: QuantMode,
    ungreedy: bool,
    atom: Atom,
) -> Result<NodeId, Memory>
    requires room { length draft.old.nodes + 1 < 4294967295 }
    requires atom { IsAtom draft.old atom }
    requires loose { EndsIn draft.old.nodes (ids_of atom) }
    requires ordered { AtMost min max }
    ensures made { IfOk result
        (λ id. Makes draft.old.nodes draft.new.nodes id
        (repeated min max mode ungreedy (atom_tree draft.old.nodes atom))) }
    ensures loose { IfOk result (λ id. Replaces draft.old.nodes (ids_of atom) draft.new.nodes id) }
    ensures count { OnOk result (length draft.new.nodes ≤ length draft.old.nodes + 2) }
    ensures adds { OnOk result (Adds draft.old draft.new) }
{
    let repeat = repeat(draft, min, max, is_lazy(mode, ungreedy), atom)?;
    match mode {
        QuantMode::Greedy | QuantMode::Lazy => Ok(repeat),
        QuantMode::Possessive => hold(alloc, draft, repeat, atom.at()),
    }
}
