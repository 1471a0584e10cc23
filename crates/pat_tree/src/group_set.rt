//! Which capturing groups there are.
ghost use Rattle.std.specs.Prelude.{◌≡◌, ℕ, ◌<◌, ◌||◌, [], length, All, OnOk};
ghost use Rattle.pat_tree.specs.Rules.{number_in};
ghost use Rattle.pat_tree.specs.Refs.{is_in, marked};

use crate::memory::Memory;
use std::alloc::Global;
use std::marker::Model;

/// A set of group numbers, as a mark for each number up to the greatest.
#[derive(Debug, Drop)]
pub(crate) struct GroupSet {
    marks: Vec<bool>,
}

impl Model for GroupSet {
    ghost use Rattle.std.specs.Prelude.{List, Bool};

    ghost Value = { List Bool };

    ghost view = { λ set. set.marks.items };
}

impl GroupSet {
    /// The empty set. Takes no memory.
    pub(crate) fn new(alloc: Global) -> GroupSet
        ensures { result ≡ [] }
    {
        GroupSet {
            marks: Vec::new(alloc),
        }
    }

    /// Makes room for a number. The set stays as it is, also after a refusal.
    pub(crate) fn reserve(&mut self, number: Option<u16>) -> Result<(), Memory>
        ensures room { OnOk result (All (λ n. n < length self.new) (number_in number)) }
        ensures same { (n : ℕ) → marked self.new n ≡ marked self.old n }
    {
        let Some(number) = number else {
            return Ok(());
        };
        while self.marks.len() <= number as usize {
            self.marks.push(false)?;
        }
        Ok(())
    }

    /// Puts a number into the set that there is room for.
    pub(crate) fn insert_reserved(&mut self, number: Option<u16>)
        requires { All (λ n. n < length self.old) (number_in number) }
        ensures { (n : ℕ) → marked self.new n ≡ (marked self.old n || is_in n (number_in number)) }
    {
        if let Some(number) = number {
            self.marks[number as usize] = true;
        }
    }

    /// Whether a number is in the set.
    pub(crate) fn has(&self, number: u16) -> bool
        ensures { result ≡ marked self.now number }
    {
        match self.marks.get(number as usize) {
            Some(mark) => *mark,
            None => false,
        }
    }
}
