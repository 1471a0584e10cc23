//! A pattern under LITERAL (pcre2api, "Compiling a pattern").
ghost use Rattle.std.specs.Prelude.{◌≡◌, ◌+◌, ◌*◌, ◌<◌, ◌≤◌, [], ◌∷◌, length, OnOk, IfOk};
ghost use Rattle.uni_text.specs.Characters.{IsChecked};
ghost use Rattle.pat_tree.specs.declared.nodes.Item.TheVariants.{Char};
ghost use Rattle.pat_tree.specs.Nested.{one};
ghost use Rattle.pat_tree.specs.Growing.{AllUnder, Makes, Replaces, Stand, loose};
ghost use Rattle.pat_tree.specs.Closing.{StandInTurn};
ghost use Rattle.pat_grammar.specs.Reading.{before_item, spelt, literal_parts, literally};
ghost use Rattle.pat_nodes.specs.Nodes.{Adds, Follow, parsed_of};

use crate::frames::Level;
use crate::nodes::{group, plain};
use pat_grammar::callouts::{AUTOMATIC, NextItem};
use pat_tree::{Draft, Item, Kids, Memory, Node, NodeId, Options, Tree};
use std::alloc::Global;
use uni_text::char_at;

/// Adds the node of a character.
fn add_character(draft: &mut Draft, c: u32, caseless: bool, at: u32) -> Result<NodeId, Memory>
    requires { length draft.old.nodes < 4294967295 }
    ensures made { IfOk result
        (λ id. Makes draft.old.nodes draft.new.nodes id (one (Char c caseless))) }
    ensures loose { IfOk result (λ id. Replaces draft.old.nodes [] draft.new.nodes id) }
    ensures count { OnOk result (length draft.new.nodes ≡ length draft.old.nodes + 1) }
    ensures adds { OnOk result (Adds draft.old draft.new) }
{
    let id = draft.add(Node::One(Item::Char { c, caseless }), at)?;
    Ok(id)
}

/// Adds a character as a part.
fn push_character(
    draft: &mut Draft,
    kids: &mut Kids,
    options: Options,
    c: u32,
    at: u32,
) -> Result<(), Memory>
    requires { length draft.old.nodes < 4294967295 }
    ensures { OnOk result (Follow draft.old draft.new kids.old kids.new (spelt options c ∷ [])) }
{
    let id = add_character(draft, c, options.caseless, at)?;
    kids.push(id)?;
    Ok(())
}

/// Adds the callout that AUTO_CALLOUT has before an item, where it is on.
fn push_callout(
    draft: &mut Draft,
    kids: &mut Kids,
    options: Options,
    item: NextItem,
) -> Result<(), Memory>
    requires room { length draft.old.nodes < 4294967295 }
    requires small { item.at + item.len ≤ 65536 }
    ensures { OnOk result
        (Follow draft.old draft.new kids.old kids.new (before_item options item)) }
{
    if !options.auto_callout {
        return Ok(());
    }
    let node = Node::Callout {
        number: AUTOMATIC,
        text_from: 0,
        text_to: 0,
        item_at: item.at as u32,
        item_len: item.len as u32,
    };
    let id = draft.add(node, item.at as u32)?;
    kids.push(id)?;
    Ok(())
}

/// A node for each character, a byte or in UTF a code point, after its callout; and the callout at
/// the end.
fn characters(
    alloc: Global,
    draft: &mut Draft,
    text: &[u8],
    options: Options,
) -> Result<Kids, Memory>
    requires empty { draft.old.nodes ≡ [] }
    requires short { length text.now ≤ 65536 }
    requires checked { IsChecked options.utf text.now }
    ensures stand { IfOk result
        (λ ids. Stand draft.new.nodes ids (literal_parts options text.now)) }
    ensures loose { IfOk result (λ kids. loose draft.new.nodes ≡ kids) }
    ensures adds { OnOk result (Adds draft.old draft.new) }
    ensures count { OnOk result (length draft.new.nodes ≤ 2 * length text.now + 1) }
{
    let mut kids = Kids::new(alloc);
    let mut at = 0;
    'texts: while at < text.len() {
        let (code, after) = char_at(text, at, options.utf);
        let len = after - at;
        push_callout(draft, &mut kids, options, NextItem { at, len })?;
        push_character(draft, &mut kids, options, code, at as u32)?;
        at = after;
    }
    push_callout(draft, &mut kids, options, NextItem { at, len: 0 })?;
    Ok(kids)
}

/// The tree of a pattern of which each character stands for itself.
pub fn literally(alloc: Global, text: &[u8], options: Options) -> Result<Tree, Memory>
    requires short { length text.now ≤ 65536 }
    requires checked { IsChecked options.utf text.now }
    ensures parsed { IfOk result (λ tree. parsed_of tree ≡ literally options text.now) }
    ensures under { IfOk result (λ tree. AllUnder tree.nodes tree.root) }
    ensures turns { IfOk result (λ tree. StandInTurn tree.nodes) }
{
    let mut draft = Draft::new(alloc, options);
    let parts = characters(alloc, &mut draft, text, options)?;
    let branches = Kids::new(alloc);
    let root = group(&mut draft, plain(), Level { branches, parts }, 0)?;
    match draft.finish(root) {
        Ok(tree) => Ok(tree),
        Err(_) => unreachable!(),
    }
}
