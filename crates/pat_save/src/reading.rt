//! Patterns from their image.
ghost use Rattle.std.specs.Prelude.{◌≡◌, ◌<◌, ◌+◌, ◌++◌, ◌∷◌, ℕ, List, [], length, Err, IfErr, IfOk, OnOk};
ghost use Rattle.pat_tree.specs.Refs.{has_group, marked};
ghost use Rattle.pat_save.specs.Checked.{AreChecked};
ghost use Rattle.pat_save.specs.Grown.{IsGrown};
ghost use Rattle.pat_save.specs.Image.{image_of};
ghost use Rattle.pat_save.specs.Sized.{AreSized, IsLoaded, plain};
ghost use Rattle.pat_save.specs.declared.errors.LoadError.TheVariants as load;
ghost use Rattle.pat_save.specs.declared.saved.Saved.{Saved};
ghost use Rattle.pat_save.specs.Pile.{ids_of};
ghost use Rattle.pat_save.specs.Reading.{Gives, made};
ghost use Rattle.pat_save.specs.ReadNodes.{placed_after};
ghost use Rattle.pat_save.specs.ReadImage.{around_of, finished, list_of, only_of, record_at};
ghost use Rattle.pat_save.specs.ReadImage.{records_at, rooted_at, tables_at};
ghost use Rattle.pat_save.specs.ReadImage.{tree_at};

use crate::errors::LoadError;
use crate::marks::Groups;
use crate::pile::Loose;
use crate::saved::{Saved, SavedList, Text};
use crate::taken_nodes::{Around, take_node};
use crate::taken_tables::{take_classes, take_names, take_options, take_text, take_verb_names};
use crate::taking::take_number;
use crate::writing::LARGEST;
use pat_tree::{Draft, NodeId, Options, Tree};
use std::alloc::Global;

/// A tree in the making, the groups on its nodes, and the nodes that no other has taken.
#[derive(Drop)]
struct Growing {
    draft: Draft,
    groups: Groups,
    pile: Vec<Loose>,
}

/// Adds the node at the front of the bytes, and answers what follows.
#[tactic(auto, unfolding(crate::specs::ReadNodes::placed_after))]
fn take_placed<'a>(
    alloc: Global,
    growing: &mut Growing,
    around: Around,
    text: &[u8],
    bytes: &'a [u8],
) -> Result<&'a [u8], LoadError>
    requires grown { IsGrown around growing.old }
    requires room { length growing.old.draft.nodes < 4294967295 }
    ensures gives { Gives (λ x. (growing.new.draft.nodes, x.now)) result
        (made (λ p. growing.old.draft.nodes ++ p ∷ [])
        (placed_after around text.now growing.old.draft.nodes) bytes.now) }
    ensures grown { OnOk result (IsGrown around growing.new) }
    ensures others { OnOk result
        (growing.new.draft ≡ record growing.old.draft { nodes = growing.new.draft.nodes }) }
    ensures more { OnOk result
        (length growing.new.draft.nodes ≡ length growing.old.draft.nodes + 1) }
{
    let (node, role, rest) = take_node(alloc, around, text, &mut growing.pile, bytes)?;
    growing.groups.insert(&node)?;
    let id = growing.draft.add(node, 0)?;
    growing.pile.push(Loose { id, role })?;
    Ok(rest)
}

/// The one node of the pile.
fn only_of(pile: &[Loose]) -> Result<NodeId, LoadError>
    ensures { Gives (λ x. x) result (only_of (ids_of pile.now)) }
{
    match pile {
        [root] => Ok(root.id),
        _ => Err(LoadError::Bad),
    }
}

/// Adds the nodes at the front of the bytes to a tree without any; answers the root and what
/// follows.
#[tactic(auto, unfolding(crate::specs::ReadImage::rooted_at, crate::specs::ReadImage::nodes_at))]
fn take_nodes<'a>(
    alloc: Global,
    growing: &mut Growing,
    around: Around,
    text: &[u8],
    bytes: &'a [u8],
) -> Result<(NodeId, &'a [u8]), LoadError>
    requires grown { IsGrown around growing.old }
    requires none { growing.old.draft.nodes ≡ [] }
    ensures gives { Gives (λ x. ((x.0, growing.new.draft.nodes), x.1.now)) result
        (rooted_at around text.now bytes.now) }
    ensures grown { OnOk result (IsGrown around growing.new) }
    ensures others { OnOk result
        (growing.new.draft ≡ record growing.old.draft { nodes = growing.new.draft.nodes }) }
{
    let (count, mut rest) = take_number(bytes)?;
    for _ in 0..count {
        rest = take_placed(alloc, growing, around, text, rest)?;
    }
    let root = only_of(&growing.pile)?;
    Ok((root, rest))
}

/// The tree of a root, where each group that is named stands on a node, and this is the greatest.
#[tactic(auto, unfolding(crate::specs::ReadImage::finished))]
fn finish(growing: Growing, root: NodeId, greatest: u32) -> Result<Tree, LoadError>
    requires marks { (n : ℕ) → marked growing.groups n ≡ has_group growing.draft.nodes n }
    requires root { root < length growing.draft.nodes }
    ensures { Gives (λ x. x) result (finished growing.draft.options greatest
        (growing.draft.names, (growing.draft.verb_names, growing.draft.classes)) root
        growing.draft.nodes) }
{
    let Growing {
        draft,
        groups,
        pile: _,
    } = growing;
    if !groups.have_all(draft.names()) {
        return Err(LoadError::Bad);
    }
    match draft.finish(root) {
        Ok(tree) if tree.groups() == greatest => Ok(tree),
        _ => Err(LoadError::Bad),
    }
}

/// A draft with the names and the classes at the front of the bytes, what its nodes may name, and
/// the bytes after it.
type Tables<'a> = (Draft, Around, &'a [u8]);

#[tactic(auto, unfolding(crate::specs::ReadImage::tables_at))]
fn take_tables(alloc: Global, options: Options, bytes: &[u8]) -> Result<Tables<'_>, LoadError>
    ensures gives { Gives
        (λ x. ((x.0.names, (x.0.verb_names, x.0.classes)), x.2.now)) result
        (tables_at options.utf bytes.now) }
    ensures around { IfOk result (λ x. x.1 ≡ around_of options.utf
        (x.0.names, (x.0.verb_names, x.0.classes))) }
    ensures none { IfOk result (λ x. (x.0.nodes ≡ []) × (x.0.options ≡ options)) }
{
    let utf = options.utf;
    let mut draft = Draft::new(alloc, options);
    let rest = take_names(&mut draft, bytes)?;
    let (verb_names, rest) = take_verb_names(&mut draft, rest, utf)?;
    let (classes, rest) = take_classes(alloc, &mut draft, rest, utf)?;
    let around = Around {
        utf,
        classes,
        verb_names,
    };
    Ok((draft, around, rest))
}

/// A tree behind its options and its text, with the greatest group first.
#[tactic(auto, unfolding(crate::specs::ReadImage::tree_at))]
fn take_tree<'a>(
    alloc: Global,
    options: Options,
    text: &[u8],
    bytes: &'a [u8],
) -> Result<(Tree, &'a [u8]), LoadError>
    ensures { Gives (λ x. (x.0, x.1.now)) result (tree_at options text.now bytes.now) }
{
    let (greatest, rest) = take_number(bytes)?;
    let (draft, around, rest) = take_tables(alloc, options, rest)?;
    let mut growing = Growing {
        draft,
        groups: Groups::new(alloc),
        pile: Vec::new(alloc),
    };
    let (root, rest) = take_nodes(alloc, &mut growing, around, text, rest)?;
    Ok((finish(growing, root, greatest)?, rest))
}

/// A pattern at the front of the bytes.
#[tactic(auto, unfolding(crate::specs::ReadImage::record_at))]
fn take_record(alloc: Global, bytes: &[u8]) -> Result<(Saved, &[u8]), LoadError>
    ensures { Gives (λ x. (x.0, x.1.now)) result (record_at bytes.now) }
{
    let (options, rest) = take_options(bytes)?;
    let (text, rest) = take_text(rest, options.utf)?;
    let (tree, rest) = take_tree(alloc, options, text, rest)?;
    let text = Text::from_vec(text.to_vec(alloc)?);
    Ok((Saved { tree, text }, rest))
}

/// The patterns behind the four letters.
#[tactic(auto, unfolding(crate::specs::ReadImage::records_at))]
fn take_records(alloc: Global, bytes: &[u8]) -> Result<(SavedList, &[u8]), LoadError>
    ensures { Gives (λ x. (x.0, x.1.now)) result (records_at bytes.now) }
{
    let (count, mut rest) = take_number(bytes)?;
    if count > 20 {
        return Err(LoadError::Bad);
    }
    let mut list = SavedList::new(alloc);
    for _ in 0..count {
        let (saved, after) = take_record(alloc, rest)?;
        list.push(saved)?;
        rest = after;
    }
    Ok((list, rest))
}

/// The patterns that all of the bytes are the image of.
#[tactic(auto, unfolding(crate::specs::ReadImage::list_of))]
fn take_list(alloc: Global, bytes: &[u8]) -> Result<SavedList, LoadError>
    ensures { Gives (λ x. x) result (list_of bytes.now) }
{
    match bytes.strip_prefix(b"PCP1") {
        Some(rest) => {
            let (list, rest) = take_records(alloc, rest)?;
            if !rest.is_empty() {
                return Err(LoadError::Bad);
            }
            Ok(list)
        }
        None => Err(LoadError::Bad),
    }
}

/// The patterns that the bytes are the image of, each a checked tree with its text; a node's place
/// in its pattern isn't saved, and is 0. What [`write`](crate::write) gives is read as the same
/// patterns but for these places. `TooLarge` comes exactly where there are more than
/// 16,777,216 bytes, and is tested first; `Bad` exactly where these are the image of no such list.
/// Want of memory may come at any bytes.
pub fn read(alloc: Global, bytes: &[u8]) -> Result<SavedList, LoadError>
    ensures found { IfOk result (λ list. AreChecked list × AreSized list × (plain list ≡ list)
        × (image_of list ≡ bytes.now)) }
    ensures only { (list : List Saved) → AreChecked list → AreSized list
        → image_of list ≡ bytes.now → IsLoaded result (plain list) }
    ensures large { 16777216 < length bytes.now → result ≡ Err load.TooLarge }
    ensures small { IfErr result (λ e. e ≡ load.TooLarge → 16777216 < length bytes.now) }
{
    if bytes.len() > LARGEST {
        return Err(LoadError::TooLarge);
    }
    take_list(alloc, bytes)
}
