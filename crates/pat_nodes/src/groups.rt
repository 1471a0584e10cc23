//! Groups as they begin, go on and end.
ghost use Rattle.std.specs.Prelude.{◌≡◌, ◌||◌, ◌<◌, ◌≤◌, [], ◌∷◌, ◌++◌, length, OnOk, Some};
ghost use Rattle.pat_nodes.specs.Names.{with_given};
ghost use Rattle.pat_grammar.specs.Groups.{is_look, is_tested, bars_in, next_numbering, groups_before, groups_after};
ghost use Rattle.pat_nodes.specs.Nodes.{form_of, atom_where};

use crate::frames::{Atom, Form, Frame};
use crate::names::Name;
use pat_grammar::alternatives::{Bars, Numbering};
use pat_tree::{Draft, Memory, NodeId};

/// Whether a group is a lookaround.
pub fn is_look(form: &Form) -> bool
    ensures { result ≡ is_look (form_of form.now) }
{
    is_looking(form, false)
}

/// Whether a group is a lookaround that a conditional group tests.
pub fn is_tested(form: &Form) -> bool
    ensures { result ≡ is_tested (form_of form.now) }
{
    matches!(form, Form::Asserted { .. })
}

/// Which alternatives a group may have where it begins.
pub fn bars_in(form: &Form) -> Bars
    ensures { result ≡ bars_in (form_of form.now) }
{
    match form {
        Form::Condition(_) => Bars::First,
        Form::Define => Bars::Define,
        Form::Asserting => Bars::First,
        Form::Group { .. } | Form::Atomic | Form::Look { .. } | Form::Asserted { .. } => Bars::Free,
    }
}

/// Whether the inside of a group is inside a lookaround.
pub fn is_looking(form: &Form, around: bool) -> bool
    ensures { result ≡ (is_look (form_of form.now) || around) }
{
    match form {
        Form::Look { .. } | Form::Asserted { .. } => true,
        Form::Group { .. } | Form::Atomic | Form::Condition(_) | Form::Define | Form::Asserting =>
            around,
    }
}

/// The group of this node, before a quantifier.
pub fn atom_of(looks: bool, id: NodeId, at: u32) -> Atom
    ensures { result ≡ atom_where looks id at }
{
    if looks {
        Atom::Look { id, at }
    } else {
        Atom::Whole { id, at }
    }
}

/// One open group more.
pub fn push_frame(stack: &mut Vec<Frame>, frame: Frame) -> Result<(), Memory>
    ensures { OnOk result (stack.new.items ≡ stack.old.items ++ frame ∷ []) }
{
    stack.push(frame)?;
    Ok(())
}

/// Gives a group its name, if it gets one.
pub fn give(text: &[u8], draft: &mut Draft, given: Option<Name>) -> Result<(), Memory>
    requires room { length draft.old.names < 4294967295 }
    requires stands { (name : Name) → given ≡ Some name → (name.from ≤ name.to)
        × (name.to ≤ length text.now) }
    ensures { OnOk result
        (draft.new ≡ record draft.old { names = with_given text.now given draft.old.names }) }
{
    if let Some(name) = given {
        draft.add_name(&text[name.from..name.to], name.group)?;
    }
    Ok(())
}

/// How the next alternative numbers its groups, where so many are opened.
pub fn next_numbering(numbering: Numbering, groups: u16) -> Numbering
    ensures { result ≡ next_numbering numbering groups }
{
    match numbering {
        Numbering::Onward => Numbering::Onward,
        Numbering::Reset { base, greatest } => Numbering::Reset {
            base,
            greatest: greatest.max(groups),
        },
    }
}

/// How many groups stand before the next alternative.
pub fn groups_before(numbering: Numbering, groups: u16) -> u16
    ensures { result ≡ groups_before numbering groups }
{
    match numbering {
        Numbering::Onward => groups,
        Numbering::Reset { base, .. } => base,
    }
}

/// How many groups stand before what follows the last alternative.
pub fn groups_after(numbering: Numbering, groups: u16) -> u16
    ensures { result ≡ groups_after numbering groups }
{
    match numbering {
        Numbering::Onward => groups,
        Numbering::Reset { greatest, .. } => greatest.max(groups),
    }
}
