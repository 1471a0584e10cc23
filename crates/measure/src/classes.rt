//! How many bytes of a text a class has, by its table and by a plain array.
ghost use Rattle.std.specs.Prelude.{◌≡◌, ◌<◌, ◌∷◌, [], length, IfOk};

use char_sets::ClassTable;
use pat_tree::{BadRef, ClassSpec, Draft, Item, ListOf, Memory, Node, Options, Part, Steps, Tree};
use std::alloc::{AllocError, Global};
use std::marker::Brand;
use std::sync::ledger::{Blank, Ledger};

/// How often the text is gone through.
const TURNS: u32 = 100;

/// `[a-z0-9_]`
const WORD: [Part; 3] = [
    Part::Range { from: 97, to: 122 },
    Part::Range { from: 48, to: 57 },
    Part::Range { from: 95, to: 95 },
];

/// The class whose complement is `[^\n]`.
const LINE_FEED: [Part; 1] = [Part::Range { from: 10, to: 10 }];

/// A class of twenty ranges.
const TWENTY: [Part; 20] = [
    Part::Range { from: 1, to: 3 },
    Part::Range { from: 7, to: 8 },
    Part::Range { from: 11, to: 12 },
    Part::Range { from: 14, to: 31 },
    Part::Range { from: 33, to: 35 },
    Part::Range { from: 38, to: 38 },
    Part::Range { from: 40, to: 41 },
    Part::Range { from: 43, to: 44 },
    Part::Range { from: 48, to: 52 },
    Part::Range { from: 55, to: 57 },
    Part::Range { from: 65, to: 70 },
    Part::Range { from: 73, to: 77 },
    Part::Range { from: 80, to: 85 },
    Part::Range { from: 88, to: 88 },
    Part::Range { from: 95, to: 99 },
    Part::Range { from: 101, to: 105 },
    Part::Range { from: 107, to: 112 },
    Part::Range { from: 114, to: 120 },
    Part::Range { from: 130, to: 150 },
    Part::Range { from: 200, to: 250 },
];

/// What is measured: the class, and how its bytes are found.
#[derive(Clone, Copy)]
pub struct Sample {
    pub class: Class,
    pub by_array: bool,
}

#[derive(Clone, Copy)]
pub enum Class {
    Word,
    NoLineFeed,
    Twenty,
}

/// Why there is no table: want of memory alone, since the tree has no reference.
#[derive(Clone, Copy)]
pub struct NoTable;

impl From<Memory> for NoTable {
    ghost from_gives = { λ _ _. Unit {0} };

    fn from(_e: Memory) -> NoTable {
        NoTable
    }
}

impl From<AllocError> for NoTable {
    ghost from_gives = { λ _ _. Unit {0} };

    fn from(_e: AllocError) -> NoTable {
        NoTable
    }
}

impl From<BadRef> for NoTable {
    ghost from_gives = { λ _ _. Unit {0} };

    fn from(_e: BadRef) -> NoTable {
        NoTable
    }
}

fn class_of(alloc: Global, negated: bool, parts: &[Part]) -> Result<ClassSpec, AllocError> {
    let parts = ListOf::from_vec(Vec::from_slice(alloc, parts)?);
    Ok(ClassSpec {
        negated,
        caseless: false,
        parts,
    })
}

fn tree_of(alloc: Global, class: ClassSpec) -> Result<Tree, NoTable>
    ensures { IfOk result (λ t. t.classes ≡ class ∷ []) }
{
    let mut draft = Draft::new(alloc, Options::PLAIN);
    let id = draft.add_class(class)?;
    let root = draft.add(Node::One(Item::Class(id)), 0)?;
    let tree = draft.finish(root)?;
    Ok(tree)
}

fn table_of(alloc: Global, negated: bool, parts: &[Part]) -> Result<ClassTable, NoTable>
    ensures { IfOk result (λ t. length t ≡ 1) }
{
    let class = class_of(alloc, negated, parts)?;
    let tree = tree_of(alloc, class)?;
    let table = ClassTable::build(alloc, &tree)?;
    Ok(table)
}

fn table_for(alloc: Global, class: Class) -> Result<ClassTable, NoTable>
    ensures { IfOk result (λ t. length t ≡ 1) }
{
    match class {
        Class::Word => table_of(alloc, false, &WORD),
        Class::NoLineFeed => table_of(alloc, true, &LINE_FEED),
        Class::Twenty => table_of(alloc, false, &TWENTY),
    }
}

/// A text of a million bytes of all values.
fn text(alloc: Global) -> Result<Vec<u8>, AllocError> {
    let mut bytes = Vec::new(alloc);
    let mut x = 1u32;
    for _ in 0..1_000_000u32 {
        x = x.wrapping_mul(1_664_525).wrapping_add(1_013_904_223);
        bytes.push((x >> 24) as u8)?;
    }
    Ok(bytes)
}

/// Which bytes the class has.
fn listed<L: Ledger>(table: &ClassTable, steps: &mut Steps<L>) -> [bool; 256]
    requires { length table.now ≡ 1 }
{
    let mut all = [false; 256];
    for b in 0..256usize {
        all[b] = table.has(0, b as u32, steps);
    }
    all
}

fn count_by_table<L: Ledger>(table: &ClassTable, text: &[u8], steps: &mut Steps<L>) -> u64
    requires { length table.now ≡ 1 }
{
    let mut count = 0u64;
    for b in text {
        count = count.wrapping_add(u64::from(table.has(0, u32::from(*b), steps)));
    }
    count
}

fn count_by_array(listed: &[bool; 256], text: &[u8]) -> u64 {
    let mut count = 0u64;
    for b in text {
        count = count.wrapping_add(u64::from(listed[*b as usize]));
    }
    count
}

fn count<L: Ledger>(table: &ClassTable, by_array: bool, text: &[u8], blank: Blank) -> u64
    requires name { blank.name ≡ L.name }
    requires parts { blank.parts ≡ L.parts }
    requires one { blank.parts ≡ 1 }
    requires table { length table.now ≡ 1 }
{
    let mut steps = Steps::<L>::new(blank);
    let listed = listed(table, &mut steps);
    let mut count = 0u64;
    for _ in 0..TURNS {
        let more = if by_array {
            count_by_array(&listed, text)
        } else {
            count_by_table(table, text, &mut steps)
        };
        count = count.wrapping_add(more);
    }
    count
}

/// How many of 100 million bytes the class has.
pub fn count_in(alloc: Global, sample: Sample) -> Result<u64, NoTable> {
    let table = table_for(alloc, sample.class)?;
    let text = text(alloc)?;
    Ok(count::<Brand>(&table, sample.by_array, &text, Blank::new(1)))
}
