//! The nodes of an image, taken from the front of its bytes. A node's children stand before it.
ghost use Rattle.std.specs.Prelude.{◌≡◌, IfOk};
ghost use Rattle.pat_tree.specs.declared.nodes.Node.TheVariants as node;
ghost use Rattle.pat_tree.specs.Rules.{number_in, tests_of};
ghost use Rattle.pat_save.specs.declared.pile.Role.TheVariants as role;
ghost use Rattle.pat_save.specs.Pile.{AreLast, IsLeaf, Takes, free_of};
ghost use Rattle.pat_save.specs.Reading.{Gives, made, chosen};
ghost use Rattle.pat_save.specs.ReadNodes.{anchor_at, asserted, callout_at, char_at, class_number_at};
ghost use Rattle.pat_save.specs.ReadNodes.{cond_at, cond_of};
ghost use Rattle.pat_save.specs.ReadNodes.{group_at, is_below, is_boundary, is_numbered, is_ordered, is_piece};
ghost use Rattle.pat_save.specs.ReadNodes.{is_place, is_string, item_at, kids_at, leaf_at, limits_at, look_at};
ghost use Rattle.pat_save.specs.ReadNodes.{may_have, node_at, one_repeat_at, ref_at, repeat_of, second_of, test_at};
ghost use Rattle.pat_save.specs.ReadNodes.{IsMarker, verb_at, verb_of};

use crate::errors::LoadError;
use crate::pile::{Loose, Role, serves, take_kids, take_top};
use crate::taken_tables::is_character;
use crate::taking::{
    take_bool, take_byte, take_groups, take_number, take_optional_number, take_optional_short,
    take_short,
};
use pat_tree::{AnchorKind, Cond, GroupList, Item, Node, NodeId, Verb};
use std::alloc::Global;

/// What the nodes of a pattern name.
#[derive(Clone, Copy, Debug)]
pub(crate) struct Around {
    pub(crate) utf: bool,
    pub(crate) classes: u32,
    pub(crate) verb_names: u32,
}

/// A node, what it serves as, and the bytes after it.
type Taken<'a> = Result<(Node, Role, &'a [u8]), LoadError>;

/// A node without children, and the bytes after it.
type Leaf<'a> = Result<(Node, &'a [u8]), LoadError>;

#[tactic(auto, unfolding(crate::specs::ReadNodes::char_at))]
fn take_char(around: Around, bytes: &[u8]) -> Result<(Item, &[u8]), LoadError>
    ensures { Gives (λ x. (x.0, x.1.now)) result (char_at around bytes.now) }
{
    let (c, rest) = take_number(bytes)?;
    if !is_character(c, around.utf) {
        return Err(LoadError::Bad);
    }
    let (caseless, rest) = take_bool(rest)?;
    Ok((Item::Char { c, caseless }, rest))
}

#[tactic(auto, unfolding(crate::specs::ReadNodes::class_number_at))]
fn take_class_number(around: Around, bytes: &[u8]) -> Result<(Item, &[u8]), LoadError>
    ensures { Gives (λ x. (x.0, x.1.now)) result (class_number_at around bytes.now) }
{
    let (number, rest) = take_number(bytes)?;
    if number >= around.classes {
        return Err(LoadError::Bad);
    }
    Ok((Item::Class(number), rest))
}

#[tactic(auto, unfolding(crate::specs::ReadNodes::item_at))]
fn take_item(around: Around, bytes: &[u8]) -> Result<(Item, &[u8]), LoadError>
    ensures { Gives (λ x. (x.0, x.1.now)) result (item_at around bytes.now) }
{
    let (place, rest) = take_byte(bytes)?;
    match place {
        0 => take_char(around, rest),
        1 => Ok((Item::AnyAll, rest)),
        2 => Ok((Item::NotNewline, rest)),
        3 => take_class_number(around, rest),
        _ => Err(LoadError::Bad),
    }
}

#[tactic(auto, unfolding(crate::specs::ReadNodes::anchor_at))]
fn take_anchor(bytes: &[u8]) -> Result<(AnchorKind, &[u8]), LoadError>
    ensures { Gives (λ x. (x.0, x.1.now)) result (anchor_at bytes.now) }
{
    let (place, rest) = take_byte(bytes)?;
    match place {
        0 => {
            let (multi, rest) = take_bool(rest)?;
            Ok((AnchorKind::Caret { multi }, rest))
        }
        1 => {
            let (multi, rest) = take_bool(rest)?;
            let (end_only, rest) = take_bool(rest)?;
            Ok((AnchorKind::Dollar { multi, end_only }, rest))
        }
        2 => Ok((AnchorKind::SubjectStart, rest)),
        3 => Ok((AnchorKind::SubjectEnd, rest)),
        4 => Ok((AnchorKind::EndOrNewline, rest)),
        5 => Ok((AnchorKind::StartGiven, rest)),
        6 => {
            let (ucp, rest) = take_bool(rest)?;
            Ok((AnchorKind::Word { ucp }, rest))
        }
        7 => {
            let (ucp, rest) = take_bool(rest)?;
            Ok((AnchorKind::NotWord { ucp }, rest))
        }
        _ => Err(LoadError::Bad),
    }
}

fn verb_of(place: u8, name: Option<u32>) -> Result<Verb, LoadError>
    ensures { Gives (λ x. x) result (verb_of place name) }
{
    match place {
        0 => Ok(Verb::Accept { name }),
        1 => Ok(Verb::Fail { name }),
        2 => Ok(Verb::Commit { name }),
        3 => Ok(Verb::Prune { name }),
        4 => Ok(Verb::Skip { name }),
        5 => Ok(Verb::Then { name }),
        6 => Ok(Verb::Mark { name }),
        _ => Err(LoadError::Bad),
    }
}

fn is_below(limit: u32, name: Option<u32>) -> bool
    ensures { result ≡ is_below limit name }
{
    match name {
        Some(number) => number < limit,
        None => true,
    }
}

#[tactic(auto, unfolding(crate::specs::ReadNodes::verb_at))]
fn take_verb(around: Around, bytes: &[u8]) -> Result<(Verb, &[u8]), LoadError>
    ensures { Gives (λ x. (x.0, x.1.now)) result (verb_at around.verb_names bytes.now) }
{
    let (place, rest) = take_byte(bytes)?;
    let (name, rest) = take_optional_number(rest)?;
    if !is_below(around.verb_names, name) {
        return Err(LoadError::Bad);
    }
    Ok((verb_of(place, name)?, rest))
}

fn is_ordered(min: u16, max: Option<u16>) -> bool
    ensures { result ≡ is_ordered min max }
{
    match max {
        Some(max) => min <= max,
        None => true,
    }
}

/// The least and the greatest number of times, and whether the fewest are tried first.
type Limits = (u16, (Option<u16>, bool));

#[tactic(auto, unfolding(crate::specs::ReadNodes::limits_at))]
fn take_limits(bytes: &[u8]) -> Result<(Limits, &[u8]), LoadError>
    ensures { Gives (λ x. (x.0, x.1.now)) result (limits_at bytes.now) }
{
    let (min, rest) = take_short(bytes)?;
    let (max, rest) = take_optional_short(rest)?;
    let (lazy, rest) = take_bool(rest)?;
    if !is_ordered(min, max) {
        return Err(LoadError::Bad);
    }
    Ok(((min, (max, lazy)), rest))
}

fn is_numbered(number: Option<u16>) -> bool
    ensures { result ≡ is_numbered number }
{
    match number {
        Some(number) => number >= 1,
        None => true,
    }
}

#[tactic(auto, unfolding(crate::specs::ReadNodes::group_at, crate::specs::ReadNodes::kids_at))]
fn take_group<'a>(alloc: Global, pile: &mut Vec<Loose>, bytes: &'a [u8]) -> Taken<'a>
    ensures gives { Gives (λ x. (x.0, x.2.now)) result
        (group_at (free_of pile.old.items) bytes.now) }
    ensures taken { IfOk result (λ x. Takes pile.old.items pile.new.items x.0 x.1) }
{
    let (number, rest) = take_optional_short(bytes)?;
    if !is_numbered(number) {
        return Err(LoadError::Bad);
    }
    let (count, rest) = take_number(rest)?;
    let (branches, _) = take_kids(alloc, pile, count)?;
    Ok((Node::Group { number, branches }, Role::Other, rest))
}

#[tactic(auto, unfolding(crate::specs::ReadNodes::look_at, crate::specs::ReadNodes::kids_at))]
fn take_look<'a>(alloc: Global, pile: &mut Vec<Loose>, bytes: &'a [u8]) -> Taken<'a>
    ensures gives { Gives (λ x. (x.0, x.2.now)) result
        (look_at (free_of pile.old.items) bytes.now) }
    ensures taken { IfOk result (λ x. Takes pile.old.items pile.new.items x.0 x.1) }
{
    let (ahead, rest) = take_bool(bytes)?;
    let (positive, rest) = take_bool(rest)?;
    let (atomic, rest) = take_bool(rest)?;
    let (count, rest) = take_number(rest)?;
    let (branches, _) = take_kids(alloc, pile, count)?;
    let node = Node::Look {
        ahead,
        positive,
        atomic,
        branches,
    };
    Ok((node, Role::Look, rest))
}

#[tactic(auto, unfolding(crate::specs::ReadNodes::kids_at))]
fn take_row<'a>(alloc: Global, pile: &mut Vec<Loose>, bytes: &'a [u8]) -> Taken<'a>
    ensures gives { Gives (λ x. (x.0, x.2.now)) result
        (made node.Seq (kids_at (free_of pile.old.items)) bytes.now) }
    ensures taken { IfOk result (λ x. Takes pile.old.items pile.new.items x.0 x.1) }
{
    let (count, rest) = take_number(bytes)?;
    let (kids, role) = take_kids(alloc, pile, count)?;
    Ok((Node::Seq(kids), role, rest))
}

#[tactic(auto, unfolding(crate::specs::ReadNodes::kids_at))]
fn take_atomic<'a>(alloc: Global, pile: &mut Vec<Loose>, bytes: &'a [u8]) -> Taken<'a>
    ensures gives { Gives (λ x. (x.0, x.2.now)) result
        (made node.Atomic (kids_at (free_of pile.old.items)) bytes.now) }
    ensures taken { IfOk result (λ x. Takes pile.old.items pile.new.items x.0 x.1) }
{
    let (count, rest) = take_number(bytes)?;
    let (branches, _) = take_kids(alloc, pile, count)?;
    Ok((Node::Atomic(branches), Role::Other, rest))
}

fn take_repeat<'a>(pile: &mut Vec<Loose>, bytes: &'a [u8]) -> Taken<'a>
    ensures gives { Gives (λ x. (x.0, x.2.now)) result
        (chosen (repeat_of (free_of pile.old.items)) limits_at bytes.now) }
    ensures taken { IfOk result (λ x. Takes pile.old.items pile.new.items x.0 x.1) }
{
    let ((min, (max, lazy)), rest) = take_limits(bytes)?;
    let body = take_top(pile)?;
    let node = Node::Repeat {
        body: body.id,
        min,
        max,
        lazy,
    };
    Ok((node, Role::Other, rest))
}

/// The test of a condition; none stands for a lookaround, which is a child.
#[tactic(auto, unfolding(crate::specs::ReadNodes::test_at))]
fn take_test(alloc: Global, bytes: &[u8]) -> Result<(Option<Cond>, &[u8]), LoadError>
    ensures gives { Gives (λ x. (x.0, x.1.now)) result (test_at bytes.now) }
    ensures marker { IfOk result (λ x. IsMarker x.0) }
{
    let (place, rest) = take_byte(bytes)?;
    match place {
        0 => {
            let (groups, rest) = take_groups(alloc, rest)?;
            Ok((Some(Cond::AnySet(groups)), rest))
        }
        1 => Ok((Some(Cond::InCall), rest)),
        2 => {
            let (groups, rest) = take_groups(alloc, rest)?;
            Ok((Some(Cond::InCallOf(groups)), rest))
        }
        3 => Ok((Some(Cond::Never), rest)),
        4 => Ok((None, rest)),
        _ => Err(LoadError::Bad),
    }
}

/// The second branch of a condition, where it has one.
fn take_second(pile: &mut Vec<Loose>, has_no: bool) -> Result<Option<NodeId>, LoadError>
    ensures gives { Gives (λ x. (x, free_of pile.new.items)) result
        (second_of (free_of pile.old.items) has_no) }
    ensures taken { IfOk result (λ x. AreLast pile.old.items pile.new.items (number_in x)) }
{
    if !has_no {
        return Ok(None);
    }
    let loose = take_top(pile)?;
    Ok(Some(loose.id))
}

/// The test of a condition, with its lookaround from the pile.
fn take_asserted(pile: &mut Vec<Loose>, test: Option<Cond>) -> Result<Cond, LoadError>
    requires { IsMarker test }
    ensures gives { Gives (λ x. x) result (asserted (free_of pile.old.items) test) }
    ensures taken { IfOk result (λ x. AreLast pile.old.items pile.new.items (tests_of x)) }
{
    if let Some(test) = test {
        return Ok(test);
    }
    let loose = take_top(pile)?;
    if !serves(loose.role) {
        return Err(LoadError::Bad);
    }
    Ok(Cond::Assert(loose.id))
}

/// Whether a condition may have a second branch, where it has one: DEFINE may not.
fn may_have(test: &Cond, has_no: bool) -> bool
    ensures { result ≡ may_have test.now has_no }
{
    match test {
        Cond::Never => !has_no,
        _ => true,
    }
}

/// A condition with its parts from the pile.
#[tactic(auto, unfolding(crate::specs::ReadNodes::cond_of))]
fn take_cond_parts(
    pile: &mut Vec<Loose>,
    test: Option<Cond>,
    has_no: bool,
) -> Result<Node, LoadError>
    requires { IsMarker test }
    ensures gives { Gives (λ x. x) result (cond_of (free_of pile.old.items) test has_no) }
    ensures taken { IfOk result (λ x. Takes pile.old.items pile.new.items x role.Other) }
{
    let no = take_second(pile, has_no)?;
    let yes = take_top(pile)?;
    let test = take_asserted(pile, test)?;
    if !may_have(&test, has_no) {
        return Err(LoadError::Bad);
    }
    Ok(Node::Cond {
        test,
        yes: yes.id,
        no,
    })
}

#[tactic(auto, unfolding(crate::specs::ReadNodes::cond_at))]
fn take_cond<'a>(alloc: Global, pile: &mut Vec<Loose>, bytes: &'a [u8]) -> Taken<'a>
    ensures gives { Gives (λ x. (x.0, x.2.now)) result
        (cond_at (free_of pile.old.items) bytes.now) }
    ensures taken { IfOk result (λ x. Takes pile.old.items pile.new.items x.0 x.1) }
{
    let (test, rest) = take_test(alloc, bytes)?;
    let (has_no, rest) = take_bool(rest)?;
    let node = take_cond_parts(pile, test, has_no)?;
    Ok((node, Role::Other, rest))
}

#[tactic(auto, unfolding(crate::specs::ReadNodes::ref_at))]
fn take_ref(alloc: Global, bytes: &[u8]) -> Leaf<'_>
    ensures gives { Gives (λ x. (x.0, x.1.now)) result (ref_at bytes.now) }
    ensures alone { IfOk result (λ x. IsLeaf x.0 role.Other) }
{
    let (groups, rest): (GroupList, &[u8]) = take_groups(alloc, bytes)?;
    if groups.len() == 0 {
        return Err(LoadError::Bad);
    }
    let (caseless, rest) = take_bool(rest)?;
    Ok((Node::Ref { groups, caseless }, rest))
}

#[tactic(auto, unfolding(crate::specs::ReadNodes::one_repeat_at))]
fn take_one_repeat(around: Around, bytes: &[u8]) -> Leaf<'_>
    ensures gives { Gives (λ x. (x.0, x.1.now)) result (one_repeat_at around bytes.now) }
    ensures alone { IfOk result (λ x. IsLeaf x.0 role.Other) }
{
    let (item, rest) = take_item(around, bytes)?;
    let ((min, (max, lazy)), rest) = take_limits(rest)?;
    let node = Node::OneRepeat {
        item,
        min,
        max,
        lazy,
    };
    Ok((node, rest))
}

/// Whether no byte in the middle of a character of UTF-8 stands at a place.
fn is_boundary(text: &[u8], at: usize) -> bool
    ensures { result ≡ is_boundary text.now at }
{
    at >= text.len() || text[at] < 0x80 || text[at] >= 0xC0
}

/// Whether a character begins at a place of the text, or the text ends there.
fn is_place(utf: bool, text: &[u8], at: usize) -> bool
    ensures { result ≡ is_place utf text.now at }
{
    at <= text.len() && (!utf || is_boundary(text, at))
}

fn is_string(utf: bool, text: &[u8], from: usize, to: usize) -> bool
    ensures { result ≡ is_string utf text.now from to }
{
    if from == 0 {
        return to == 0;
    }
    from <= to && to < text.len() && is_place(utf, text, from - 1) && is_place(utf, text, to + 1)
}

fn is_piece(utf: bool, text: &[u8], at: u32, len: u32) -> bool
    ensures { result ≡ is_piece utf text.now at len }
{
    let at = at as usize;
    is_place(utf, text, at) && is_place(utf, text, at + len as usize)
}

#[tactic(auto, unfolding(crate::specs::ReadNodes::callout_at))]
fn take_callout<'a>(utf: bool, text: &[u8], bytes: &'a [u8]) -> Leaf<'a>
    ensures gives { Gives (λ x. (x.0, x.1.now)) result (callout_at utf text.now bytes.now) }
    ensures alone { IfOk result (λ x. IsLeaf x.0 role.Callout) }
{
    let (number, rest) = take_byte(bytes)?;
    let (text_from, rest) = take_number(rest)?;
    let (text_to, rest) = take_number(rest)?;
    let (item_at, rest) = take_number(rest)?;
    let (item_len, rest) = take_number(rest)?;
    if is_string(utf, text, text_from as usize, text_to as usize)
        && is_piece(utf, text, item_at, item_len)
    {
        let node = Node::Callout {
            number,
            text_from,
            text_to,
            item_at,
            item_len,
        };
        return Ok((node, rest));
    }
    Err(LoadError::Bad)
}

/// A node without children, but for callouts.
#[tactic(auto, unfolding(crate::specs::ReadNodes::leaf_at))]
fn take_leaf<'a>(alloc: Global, around: Around, kind: u8, bytes: &'a [u8]) -> Leaf<'a>
    ensures gives { Gives (λ x. (x.0, x.1.now)) result (leaf_at around kind bytes.now) }
    ensures alone { IfOk result (λ x. IsLeaf x.0 role.Other) }
{
    match kind {
        0 => Ok((Node::Empty, bytes)),
        1 => {
            let (item, rest) = take_item(around, bytes)?;
            Ok((Node::One(item), rest))
        }
        2 => Ok((Node::Break, bytes)),
        6 => take_one_repeat(around, bytes),
        10 => {
            let (group, rest) = take_short(bytes)?;
            Ok((Node::Call { group }, rest))
        }
        11 => take_ref(alloc, bytes),
        12 => {
            let (kind, rest) = take_anchor(bytes)?;
            Ok((Node::Anchor(kind), rest))
        }
        13 => Ok((Node::KeepOut, bytes)),
        14 => {
            let (verb, rest) = take_verb(around, bytes)?;
            Ok((Node::VerbNode(verb), rest))
        }
        _ => Err(LoadError::Bad),
    }
}

/// The node at the front of the bytes, with its children from the top of the pile.
#[tactic(auto, unfolding(crate::specs::ReadNodes::node_at, crate::specs::ReadNodes::behind))]
pub(crate) fn take_node<'a>(
    alloc: Global,
    around: Around,
    text: &[u8],
    pile: &mut Vec<Loose>,
    bytes: &'a [u8],
) -> Taken<'a>
    ensures gives { Gives (λ x. (x.0, x.2.now)) result
        (node_at around text.now (free_of pile.old.items) bytes.now) }
    ensures taken { IfOk result (λ x. Takes pile.old.items pile.new.items x.0 x.1) }
{
    let (kind, rest) = take_byte(bytes)?;
    match kind {
        3 => take_row(alloc, pile, rest),
        4 => take_group(alloc, pile, rest),
        5 => take_repeat(pile, rest),
        7 => take_atomic(alloc, pile, rest),
        8 => take_look(alloc, pile, rest),
        9 => take_cond(alloc, pile, rest),
        15 => {
            let (node, rest) = take_callout(around.utf, text, rest)?;
            Ok((node, Role::Callout, rest))
        }
        _ => {
            let (node, rest) = take_leaf(alloc, around, kind, rest)?;
            Ok((node, Role::Other, rest))
        }
    }
}
