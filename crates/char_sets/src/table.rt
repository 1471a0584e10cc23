//! The classes of a tree as tables.
ghost use Rattle.std.specs.Prelude.{◌≡◌, ℕ, ◌+◌, ◌<◌, true, IfOk, length};
ghost use Rattle.byte_lanes.specs.Sets.{has_byte};
ghost use Rattle.pat_tree.specs.Parts.{TreeParts};
ghost use Rattle.char_sets.specs.Sets.{class_has};
ghost use Rattle.char_sets.specs.Table.{char_in, table_has, IsTableOf};

use crate::entry::Entry;
use byte_lanes::ByteSet;
use pat_tree::{ClassSpec, Memory, Part, Steps, Tree};
use std::alloc::Global;
use std::marker::Model;
use std::sync::ledger::Ledger;

/// The classes of a tree, made for testing characters. A contract sees what each class keeps, and reads it by
/// `table_has` alone.
#[derive(Drop)]
pub struct ClassTable {
    entries: Vec<Entry>,
}

impl Model for ClassTable {
    ghost use Rattle.std.specs.Prelude.{List, length, ◌<◌, ◌^◌};
    ghost use Rattle.char_sets.specs.Table.{CharSet};

    ghost Value = { List CharSet };

    ghost view = { λ t. t.entries.items };

    ghost invariant = { λ t. length t.entries.items < 2 ^ 32 };
}

impl ClassTable {
    /// The table of a tree's classes (pcre2pattern, "Square brackets and character classes", "Generic character types",
    /// "POSIX character classes" and "Unicode character properties"). Fails for want of memory alone.
    pub fn build(alloc: Global, tree: &Tree) -> Result<ClassTable, Memory>
        ensures { IfOk result (IsTableOf tree.now) }
    {
        let mut entries = Vec::new(alloc);
        for id in 0..tree.classes() {
            let entry = entry_of(alloc, tree, id, &entries)?;
            entries.push(entry)?;
        }
        Ok(ClassTable { entries })
    }

    /// How many classes there are. They are numbered from 0, as in the tree.
    pub fn count(&self) -> u32
        ensures { result ≡ length self.now }
    {
        self.entries.len() as u32
    }

    /// The bytes that the class takes, as characters.
    #[inline]
    #[tactic(auto, unfolding(crate::specs::Table::table_has))]
    pub fn bytes(&self, class: u32) -> &ByteSet
        requires { class < length self.now }
        ensures { (tree : TreeParts) → IsTableOf tree self.now
            → (b : ℕ) → b < 256 → has_byte result.now b ≡ class_has tree class b }
    {
        self.entries[class as usize].bytes()
    }

    /// Whether the class takes the character of number `c`. It is one look-up where `c` is below 256. Counts one test.
    #[inline]
    #[tactic(auto, unfolding(crate::specs::Table::table_has))]
    pub fn has<L: Ledger>(&self, class: u32, c: u32, steps: &mut Steps<L>) -> bool
        requires { class < length self.now }
        ensures value { result ≡ table_has self.now class c }
        ensures holds { (tree : TreeParts) → IsTableOf tree self.now → result
            ≡ class_has tree class c }
        ensures tick { steps.new ≡ steps.old + 1 }
    {
        steps.tick();
        self.entries[class as usize].has(c)
    }
}

/// The table of a class by those of the classes before it. Where the last of these is alike, it is copied.
fn entry_of(alloc: Global, tree: &Tree, id: u32, before: &[Entry]) -> Result<Entry, Memory>
    requires class { id < length tree.now.classes }
    requires before { length before.now ≡ id }
    ensures { ((class : ℕ) → class < id → (c : ℕ)
        → table_has before.now class c ≡ class_has tree.now class c)
        → IfOk result (λ entry. (c : ℕ) → char_in entry c ≡ class_has tree.now id c) }
{
    let class = tree.class(id);
    if id > 0 && are_alike(class, tree.class(id - 1)) {
        let same = before[id as usize - 1].copied(alloc)?;
        return Ok(same);
    }
    let entry = Entry::of(alloc, class, tree.options().utf)?;
    Ok(entry)
}

/// Whether two classes are the same.
fn are_alike(one: &ClassSpec, other: &ClassSpec) -> bool
    ensures { result ≡ true → one.now ≡ other.now }
{
    one.negated == other.negated
        && one.caseless == other.caseless
        && have_same_parts(one.parts.as_slice(), other.parts.as_slice())
}

fn have_same_parts(one: &[Part], other: &[Part]) -> bool
    ensures { result ≡ true → one.now ≡ other.now }
{
    if one.len() != other.len() {
        return false;
    }
    for i in 0..one.len() {
        let (here, there) = (one[i], other[i]);
        if !is_same_part(here, there) {
            return false;
        }
    }
    true
}

fn is_same_part(one: Part, other: Part) -> bool
    ensures { result ≡ true → one ≡ other }
{
    match (one, other) {
        (
            Part::Range { from, to },
            Part::Range {
                from: first,
                to: last,
            },
        ) => { from == first && to == last }
        (
            Part::Set { set, not, ucp },
            Part::Set {
                set: other,
                not: turned,
                ucp: wide,
            },
        ) => set == other && not == turned && ucp == wide,
        _ => false,
    }
}
