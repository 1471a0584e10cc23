//! Images byte by byte.
ghost use Rattle.std.specs.Prelude.{[], IfOk};
ghost use Rattle.pat_save.specs.Checked.{AreChecked, IsChecked};

use pat_save::{LoadError, Saved, SavedList, Text, read, write};
use pat_tree::{Draft, Memory, Node, Options, Tree};
use std::alloc::Global;
use std::test::Fail;

/// The tree of the pattern without an item.
fn empty_tree(alloc: Global) -> Result<Tree, Fail>
    ensures { IfOk result (λ tree. IsChecked tree []) }
{
    let mut draft = Draft::new(alloc, Options::PLAIN);
    let root = draft.add(Node::Empty, 0)?;
    let tree = draft.finish(root)?;
    tree.is_sound();
    Ok(tree)
}

/// A tree of a pattern without a text, alone in a list.
fn alone(alloc: Global, tree: Tree) -> Result<SavedList, Memory>
    requires { IsChecked tree [] }
    ensures { IfOk result AreChecked }
{
    let mut list = SavedList::new(alloc);
    let text = Text::new(alloc);
    list.push(Saved { tree, text })?;
    Ok(list)
}

const NONE: [u8; 8] = [80, 67, 80, 49, 0, 0, 0, 0];

const EMPTY: [u8; 40] = [
    80, 67, 80, 49, 1, 0, 0, 0, 0, 0, 0, 0, 1, 0, 0, 0, 0, 0, 0, 0, 0, 0, 0, 0, 0, 0, 0, 0, 0, 0,
    0, 0, 0, 0, 0, 1, 0, 0, 0, 0,
];

#[test]
fn no_pattern_has_four_letters_and_a_count(rt: HostRuntime) -> Result<(), Fail> {
    let image = write(rt.alloc(), &SavedList::new(rt.alloc()))?;
    assert_eq!(rt; image.bytes(), NONE.as_slice());
    Ok(())
}

#[test]
fn the_pattern_without_an_item_has_one_node(rt: HostRuntime) -> Result<(), Fail> {
    let tree = empty_tree(rt.alloc())?;
    let list = alone(rt.alloc(), tree)?;
    let image = write(rt.alloc(), &list)?;
    assert_eq!(rt; image.bytes(), EMPTY.as_slice());
    Ok(())
}

#[test]
fn four_letters_and_a_count_of_none_are_no_pattern(rt: HostRuntime) -> Result<(), Fail> {
    let alloc = rt.alloc();
    let list = read(alloc, NONE.as_slice())?;
    assert!(rt; list.len() == 0);
    let mut more = NONE.as_slice().to_vec(alloc)?;
    more.push(0)?;
    assert!(rt; matches!(read(alloc, &more), Err(LoadError::Bad)));
    Ok(())
}

#[test]
fn more_than_16_megabytes_are_too_large(rt: HostRuntime) -> Result<(), Fail> {
    let mut bytes = NONE.as_slice().to_vec(rt.alloc())?;
    bytes.resize(16_777_216, 0)?;
    assert!(rt; matches!(read(rt.alloc(), &bytes), Err(LoadError::Bad)));
    bytes.push(0)?;
    assert!(rt; matches!(read(rt.alloc(), &bytes), Err(LoadError::TooLarge)));
    Ok(())
}
