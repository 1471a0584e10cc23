//! The groups that stand on nodes.
ghost use Rattle.std.specs.Prelude.{◌≡◌, ◌<◌, ◌||◌, ℕ, [], length, All, OnOk};
ghost use Rattle.pat_tree.specs.Rules.{number_in, numbers_of};
ghost use Rattle.std.specs.List.{list_all};
ghost use Rattle.pat_tree.specs.Refs.{is_group, is_in, marked};

use pat_tree::{Memory, NameEntry, Node};
use std::alloc::Global;
use std::marker::Model;

/// A mark for each group up to the greatest that stands on a node.
#[derive(Drop)]
pub(crate) struct Groups {
    marks: Vec<bool>,
}

impl Model for Groups {
    ghost use Rattle.std.specs.Prelude.{List, Bool};

    ghost Value = { List Bool };

    ghost view = { λ groups. groups.marks.items };
}

impl Groups {
    pub(crate) fn new(alloc: Global) -> Groups
        ensures { result ≡ [] }
    {
        Groups {
            marks: Vec::new(alloc),
        }
    }

    /// Marks the group of a node, where it is one with a number.
    pub(crate) fn insert(&mut self, node: &Node) -> Result<(), Memory>
        ensures { OnOk result
            ((n : ℕ) → marked self.new n ≡ (marked self.old n || is_group n node.now)) }
    {
        let number = group_number(node);
        self.reserve(number)?;
        self.insert_reserved(number);
        Ok(())
    }

    /// Makes room for a number.
    fn reserve(&mut self, number: Option<u16>) -> Result<(), Memory>
        ensures room { OnOk result (All (λ n. n < length self.new) (number_in number)) }
        ensures same { (n : ℕ) → marked self.new n ≡ marked self.old n }
    {
        let Some(number) = number else {
            return Ok(());
        };
        while self.marks.len() <= number as usize {
            self.marks.push(false)?;
        }
        Ok(())
    }

    fn insert_reserved(&mut self, number: Option<u16>)
        requires { All (λ n. n < length self.old) (number_in number) }
        ensures { (n : ℕ) → marked self.new n ≡ (marked self.old n || is_in n (number_in number)) }
    {
        if let Some(number) = number {
            self.marks[number as usize] = true;
        }
    }

    fn has(&self, number: u16) -> bool
        ensures { result ≡ marked self.now number }
    {
        match self.marks.get(number as usize) {
            Some(mark) => *mark,
            None => false,
        }
    }

    /// Whether the group of each name has a mark.
    pub(crate) fn have_all(&self, names: &[NameEntry]) -> bool
        ensures { result ≡ list_all (λ entry. marked self.now entry.group) names.now }
    {
        names.iter().all(|entry| self.has(entry.group))
    }
}

/// The number of a capturing group.
fn group_number(node: &Node) -> Option<u16>
    ensures { number_in result ≡ numbers_of node.now }
{
    match node {
        Node::Group { number, .. } => *number,
        _ => None,
    }
}
