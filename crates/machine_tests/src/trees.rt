//! Trees that are made by hand, beside what patterns are read as.
ghost use Rattle.std.specs.Prelude.{◌+◌, ◌∷◌, ◌≡◌, ◌<◌, ◌≤◌, ◌++◌, [], All, IfOk, OnOk, false, length};
ghost use Rattle.pat_tree.specs.declared.nodes.Node.TheVariants as node;
ghost use Rattle.pat_tree.specs.Rules.{kids_of, classes_of, verb_names_of, numbers_of, asserted_by, IsNamed};
ghost use Rattle.pat_tree.specs.Rules.{IsOrdered, IsDefine};
ghost use Rattle.machine_tests.specs.Made.{IsMade};

use char_sets::ClassTable;
use frame_machine::{PlaceAnswer, Ready, Scratch, Signal, run_at};
use match_items::View;
use pat_check::check;
use pat_tree::{Draft, Item, Kids, MatchOptions, Node, NodeId, Options, Tree, Verb};
use pcre_io::{Block, Callouts, Memory, NoCallouts};
use std::alloc::Global;
use std::process::Abort;
use std::test::Fail;

/// One step in the making of a pattern: a node that takes the last ones that are not taken yet.
#[derive(Clone, Copy)]
enum Step {
    Letter(u8),
    Keep,
    /// The last two, one after the other.
    Join,
    /// A lookahead of the last one.
    Ahead,
    /// A negative lookahead of the last one.
    Deny,
    /// An atomic group of the last one.
    Cut,
    /// The last one again and again.
    Again,
    /// A lookbehind of the last two as its branches.
    BehindEither,
    /// A group of the last two as its branches.
    Either,
    Accept,
    GoBack,
    Commit,
    Prune,
    Skip,
    /// A callout of a number.
    Show(u8),
}

fn item(letter: u8) -> Item
    ensures { result ≡ Item.Char letter false }
{
    Item::Char {
        c: u32::from(letter),
        caseless: false,
    }
}

/// A callout whose string is from 1 to 3, before an item of 4 bytes at 5.
fn callout(number: u8) -> Node
    ensures { result ≡ node.Callout number 1 3 5 4 }
{
    Node::Callout {
        number,
        text_from: 1,
        text_to: 3,
        item_at: 5,
        item_len: 4,
    }
}

/// Adds a node that takes the last ones.
fn add(draft: &mut Draft, waiting: &mut Vec<NodeId>, node: Node) -> Result<(), Fail>
    requires room { length draft.old.nodes < 1000 }
    requires made { IsMade draft.old (waiting.old.items ++ kids_of node) }
    requires classes { classes_of node ≡ [] }
    requires verb_names { verb_names_of node ≡ [] }
    requires numbered { All (λ n. 1 ≤ n) (numbers_of node) }
    requires named { IsNamed node }
    requires ordered { IsOrdered node }
    requires define { IsDefine node }
    requires tests { asserted_by node ≡ [] }
    ensures made { OnOk result (IsMade draft.new waiting.new.items) }
    ensures count { OnOk result (length draft.new.nodes ≡ length draft.old.nodes + 1) }
{
    let id = draft.add(node, 0)?;
    waiting.push(id)?;
    Ok(())
}

/// A node over two others.
fn pair(alloc: Global, first: NodeId, second: NodeId) -> Result<Kids, Fail>
    ensures { IfOk result (λ kids. kids ≡ first ∷ second ∷ []) }
{
    Ok(Kids::from_vec(Vec::from_slice(alloc, &[first, second])?))
}

fn single(alloc: Global, only: NodeId) -> Result<Kids, Fail>
    ensures { IfOk result (λ kids. kids ≡ only ∷ []) }
{
    Ok(Kids::from_vec(Vec::from_slice(alloc, &[only])?))
}

/// Adds what takes the last one.
fn add_over_one(
    alloc: Global,
    draft: &mut Draft,
    waiting: &mut Vec<NodeId>,
    step: Step,
) -> Result<(), Fail>
    requires room { length draft.old.nodes < 1000 }
    requires made { IsMade draft.old waiting.old.items }
    ensures made { OnOk result (IsMade draft.new waiting.new.items) }
    ensures count { OnOk result (length draft.new.nodes ≤ length draft.old.nodes + 1) }
{
    let Some(only) = waiting.pop() else {
        return Ok(());
    };
    let node = match step {
        Step::Cut => Node::Atomic(single(alloc, only)?),
        Step::Again => Node::Repeat {
            body: only,
            min: 0,
            max: None,
            lazy: false,
        },
        _ => Node::Look {
            ahead: true,
            positive: matches!(step, Step::Ahead),
            atomic: true,
            branches: single(alloc, only)?,
        },
    };
    add(draft, waiting, node)
}

/// Adds what takes the last two.
fn add_over_two(
    alloc: Global,
    draft: &mut Draft,
    waiting: &mut Vec<NodeId>,
    step: Step,
) -> Result<(), Fail>
    requires room { length draft.old.nodes < 1000 }
    requires made { IsMade draft.old waiting.old.items }
    ensures made { OnOk result (IsMade draft.new waiting.new.items) }
    ensures count { OnOk result (length draft.new.nodes ≤ length draft.old.nodes + 1) }
{
    if waiting.len() < 2 {
        return Ok(());
    }
    let (Some(second), Some(first)) = (waiting.pop(), waiting.pop()) else {
        unreachable!();
    };
    let kids = pair(alloc, first, second)?;
    let node = match step {
        Step::BehindEither => Node::Look {
            ahead: false,
            positive: true,
            atomic: true,
            branches: kids,
        },
        Step::Either => Node::Group {
            number: None,
            branches: kids,
        },
        _ => Node::Seq(kids),
    };
    add(draft, waiting, node)
}

/// Takes one step.
fn take_step(
    alloc: Global,
    draft: &mut Draft,
    waiting: &mut Vec<NodeId>,
    step: Step,
) -> Result<(), Fail>
    requires room { length draft.old.nodes < 1000 }
    requires made { IsMade draft.old waiting.old.items }
    ensures made { OnOk result (IsMade draft.new waiting.new.items) }
    ensures count { OnOk result (length draft.new.nodes ≤ length draft.old.nodes + 1) }
{
    match step {
        Step::Letter(letter) => add(draft, waiting, Node::One(item(letter))),
        Step::Keep => add(draft, waiting, Node::KeepOut),
        Step::Ahead | Step::Deny | Step::Cut | Step::Again => {
            add_over_one(alloc, draft, waiting, step)
        }
        Step::Join | Step::BehindEither | Step::Either => {
            add_over_two(alloc, draft, waiting, step)
        }
        Step::Accept => add(draft, waiting, Node::VerbNode(Verb::Accept { name: None })),
        Step::GoBack => add(draft, waiting, Node::VerbNode(Verb::Fail { name: None })),
        Step::Commit => add(draft, waiting, Node::VerbNode(Verb::Commit { name: None })),
        Step::Prune => add(draft, waiting, Node::VerbNode(Verb::Prune { name: None })),
        Step::Skip => add(draft, waiting, Node::VerbNode(Verb::Skip { name: None })),
        Step::Show(number) => add(draft, waiting, callout(number)),
    }
}

/// The tree that these steps make, whose root is the last node.
fn tree_of(alloc: Global, steps: &[Step]) -> Result<Tree, Fail>
    requires { length steps.now < 100 }
    ensures bytes { IfOk result (λ tree. tree.options.utf ≡ false) }
    ensures classes { IfOk result (λ tree. tree.classes ≡ []) }
{
    let mut draft = Draft::new(alloc, Options::PLAIN);
    let mut waiting = Vec::new(alloc);
    for step in steps {
        take_step(alloc, &mut draft, &mut waiting, *step)?;
    }
    let root = match waiting.pop() {
        Some(root) => root,
        None => draft.add(Node::Empty, 0)?,
    };
    let tree = draft.finish(root)?;
    Ok(tree)
}

/// What a search answers at the first place.
fn found<C: Callouts>(
    alloc: Global,
    tree: &Tree,
    subject: &[u8],
    scratch: &mut Scratch,
    calls: &mut C,
) -> Result<PlaceAnswer, Fail>
    requires bytes { tree.now.options.utf ≡ false }
    requires classes { tree.now.classes ≡ [] }
    requires short { length subject.now < 4294967295 }
{
    let classes = ClassTable::build(alloc, tree)?;
    let facts = check(alloc, tree, &classes)?;
    let ready = Ready {
        tree,
        classes: &classes,
        facts: &facts,
    };
    let view = View {
        subject,
        start: 0,
        options: tree.options(),
        matching: &MatchOptions::PLAIN,
    };
    Ok(run_at(&ready, &view, 0, scratch, calls))
}

/// A pattern, a subject, and the text of the match at its first place.
type Row = (&'static [Step], &'static [u8], usize, usize);

/// A row is answered by a workspace.
fn case(rt: &impl Abort, alloc: Global, row: &Row, scratch: &mut Scratch) -> Result<(), Fail> {
    let (steps, subject, keep, to) = *row;
    assert!(rt; steps.len() < 100 && subject.len() < 100);
    let tree = tree_of(alloc, steps)?;
    let answer = PlaceAnswer::Matched {
        keep,
        to,
        mark: None,
    };
    assert!(rt; found(alloc, &tree, subject, scratch, &mut NoCallouts)? == answer);
    Ok(())
}

// What `\K` in a lookaround keeps is undone where that is left. No pattern as text has it there.
#[test]
fn a_lookaround_goes_back_to_the_start_of_the_match(rt: HostRuntime) -> Result<(), Fail> {
    use Step::*;
    static ROWS: [Row; 2] = [
        // `(?=a\K)a`
        (
            &[Letter(b'a'), Keep, Join, Ahead, Letter(b'a'), Join],
            b"a",
            0,
            1,
        ),
        // `ab(?<=x|a\Kb)c`
        (
            &[
                Letter(b'a'),
                Letter(b'b'),
                Join,
                Letter(b'x'),
                Letter(b'a'),
                Keep,
                Join,
                Letter(b'b'),
                Join,
                BehindEither,
                Join,
                Letter(b'c'),
                Join,
            ],
            b"abc",
            0,
            3,
        ),
    ];
    let alloc = rt.alloc();
    let mut used = Scratch::new(alloc);
    for row in &ROWS {
        case(&rt, alloc, row, &mut Scratch::new(alloc))?;
        case(&rt, alloc, row, &mut used)?;
    }
    Ok(())
}

// pcre2pattern, "Verbs that act immediately".
#[test]
fn accept_ends_what_is_around_it_and_fail_goes_back(rt: HostRuntime) -> Result<(), Fail> {
    use Step::*;
    static ROWS: [Row; 3] = [
        // `a(?:b(*ACCEPT)|c)d`
        (
            &[
                Letter(b'a'),
                Letter(b'b'),
                Accept,
                Join,
                Letter(b'c'),
                Either,
                Join,
                Letter(b'd'),
                Join,
            ],
            b"ab",
            0,
            2,
        ),
        // `(?=ab(*ACCEPT)c)a`
        (
            &[
                Letter(b'a'),
                Letter(b'b'),
                Join,
                Accept,
                Join,
                Letter(b'c'),
                Join,
                Ahead,
                Letter(b'a'),
                Join,
            ],
            b"abx",
            0,
            1,
        ),
        // `(?:a(*FAIL)|ab)`
        (
            &[
                Letter(b'a'),
                GoBack,
                Join,
                Letter(b'a'),
                Letter(b'b'),
                Join,
                Either,
            ],
            b"ab",
            0,
            2,
        ),
    ];
    let alloc = rt.alloc();
    let mut used = Scratch::new(alloc);
    for row in &ROWS {
        case(&rt, alloc, row, &mut Scratch::new(alloc))?;
        case(&rt, alloc, row, &mut used)?;
    }
    Ok(())
}

/// A pattern, a subject, and how its first place fails.
type Failing = (&'static [Step], &'static [u8], Signal);

/// A row is answered by a workspace.
fn failing(
    rt: &impl Abort,
    alloc: Global,
    row: &Failing,
    scratch: &mut Scratch,
) -> Result<(), Fail> {
    let (steps, subject, signal) = *row;
    assert!(rt; steps.len() < 100 && subject.len() < 100);
    let tree = tree_of(alloc, steps)?;
    let answer = PlaceAnswer::Failed {
        signal,
        hit_end: false,
    };
    assert!(rt; found(alloc, &tree, subject, scratch, &mut NoCallouts)? == answer);
    Ok(())
}

// pcre2pattern, "Verbs that act after backtracking".
#[test]
fn a_verb_says_how_its_place_fails(rt: HostRuntime) -> Result<(), Fail> {
    use Step::*;
    static ROWS: [Failing; 10] = [
        // `a(*COMMIT)b`
        (
            &[Letter(b'a'), Commit, Join, Letter(b'b'), Join],
            b"ac",
            Signal::Commit,
        ),
        // `a(*PRUNE)b`
        (
            &[Letter(b'a'), Prune, Join, Letter(b'b'), Join],
            b"ac",
            Signal::Prune,
        ),
        // `a(*SKIP)b`
        (
            &[Letter(b'a'), Skip, Join, Letter(b'b'), Join],
            b"ac",
            Signal::Skip(1),
        ),
        // `(?:a(*COMMIT)b|ac)`
        (
            &[
                Letter(b'a'),
                Commit,
                Join,
                Letter(b'b'),
                Join,
                Letter(b'a'),
                Letter(b'c'),
                Join,
                Either,
            ],
            b"ac",
            Signal::Commit,
        ),
        // `(?=a(*PRUNE)b)a`
        (
            &[
                Letter(b'a'),
                Prune,
                Join,
                Letter(b'b'),
                Join,
                Ahead,
                Letter(b'a'),
                Join,
            ],
            b"ac",
            Signal::Prune,
        ),
        // `(?>a(*SKIP)c|ab)`
        (
            &[
                Letter(b'a'),
                Skip,
                Join,
                Letter(b'c'),
                Join,
                Letter(b'a'),
                Letter(b'b'),
                Join,
                Either,
                Cut,
            ],
            b"ab",
            Signal::Skip(1),
        ),
        // `(?>a(*COMMIT))c`
        (
            &[Letter(b'a'), Commit, Join, Cut, Letter(b'c'), Join],
            b"ab",
            Signal::Exhausted,
        ),
        // `(?:a(*SKIP))*b`
        (
            &[Letter(b'a'), Skip, Join, Again, Letter(b'b'), Join],
            b"aaac",
            Signal::Skip(3),
        ),
        // `a(*PRUNE)b(*SKIP)c`
        (
            &[
                Letter(b'a'),
                Prune,
                Join,
                Letter(b'b'),
                Join,
                Skip,
                Join,
                Letter(b'c'),
                Join,
            ],
            b"abd",
            Signal::Skip(2),
        ),
        // `a(*COMMIT)(*FAIL)`
        (
            &[Letter(b'a'), Commit, Join, GoBack, Join],
            b"a",
            Signal::Commit,
        ),
    ];
    let alloc = rt.alloc();
    let mut used = Scratch::new(alloc);
    for row in &ROWS {
        failing(&rt, alloc, row, &mut Scratch::new(alloc))?;
        failing(&rt, alloc, row, &mut used)?;
    }
    Ok(())
}

// pcre2pattern, "Backtracking verbs in assertions".
#[test]
fn a_negative_lookaround_catches_a_verb(rt: HostRuntime) -> Result<(), Fail> {
    use Step::*;
    static ROWS: [Row; 3] = [
        // `(?!a(*COMMIT)b)a`
        (
            &[
                Letter(b'a'),
                Commit,
                Join,
                Letter(b'b'),
                Join,
                Deny,
                Letter(b'a'),
                Join,
            ],
            b"ac",
            0,
            1,
        ),
        // `(?!(?>a(*SKIP)b|a))a`
        (
            &[
                Letter(b'a'),
                Skip,
                Join,
                Letter(b'b'),
                Join,
                Letter(b'a'),
                Either,
                Cut,
                Deny,
                Letter(b'a'),
                Join,
            ],
            b"ac",
            0,
            1,
        ),
        // `(?:(?!a(*PRUNE)b)a)*c`
        (
            &[
                Letter(b'a'),
                Prune,
                Join,
                Letter(b'b'),
                Join,
                Deny,
                Letter(b'a'),
                Join,
                Again,
                Letter(b'c'),
                Join,
            ],
            b"aac",
            0,
            3,
        ),
    ];
    let alloc = rt.alloc();
    let mut used = Scratch::new(alloc);
    for row in &ROWS {
        case(&rt, alloc, row, &mut Scratch::new(alloc))?;
        case(&rt, alloc, row, &mut used)?;
    }
    Ok(())
}

/// It keeps what it is shown, and gives each callout one answer.
#[derive(Drop)]
struct Recorder {
    shown: Vec<Block>,
    answer: i32,
}

impl Callouts for Recorder {
    ghost use Rattle.std.specs.Prelude.{Some, true};

    ghost answers = { λ r _. r.answer };

    ghost seen = { λ r. Some r.shown.items };

    ghost refuses = { true };

    fn call(&mut self, block: &Block) -> Result<i32, Memory> {
        if self.shown.push(*block).is_err() {
            return Err(Memory);
        }
        Ok(self.answer)
    }
}

/// The number of a callout that is shown, the start of the match and the place.
type Shown = (u8, u64, u64);

/// A pattern, a subject, what callouts answer, the answer at the first place, and what is shown.
type Calling = (
    &'static [Step],
    &'static [u8],
    i32,
    PlaceAnswer,
    &'static [Shown],
);

fn block_of(shown: &Shown) -> Block {
    let (number, start, current) = *shown;
    Block {
        number,
        text_from: 1,
        text_to: 3,
        pattern_at: 5,
        item_len: 4,
        start,
        current,
        mark: None,
    }
}

fn are_shown(blocks: &[Block], shown: &[Shown]) -> bool {
    if blocks.len() != shown.len() {
        return false;
    }
    for i in 0..shown.len() {
        if blocks[i] != block_of(&shown[i]) {
            return false;
        }
    }
    true
}

/// A row is answered by a workspace.
fn calling(
    rt: &impl Abort,
    alloc: Global,
    row: &Calling,
    scratch: &mut Scratch,
) -> Result<(), Fail> {
    let (steps, subject, reply, answer, shown) = *row;
    assert!(rt; steps.len() < 100 && subject.len() < 100);
    let tree = tree_of(alloc, steps)?;
    let mut calls = Recorder {
        shown: Vec::new(alloc),
        answer: reply,
    };
    let found = found(alloc, &tree, subject, scratch, &mut calls)?;
    assert!(rt; found == answer && are_shown(calls.shown.as_slice(), shown));
    Ok(())
}

const EXHAUSTED: PlaceAnswer = PlaceAnswer::Failed {
    signal: Signal::Exhausted,
    hit_end: false,
};

// pcre2callout, "The callout interface".
#[test]
fn a_callout_is_shown_where_the_path_stands(rt: HostRuntime) -> Result<(), Fail> {
    use Step::*;
    static ROWS: [Calling; 8] = [
        // `a(?C1)b`
        (
            &[Letter(b'a'), Show(1), Join, Letter(b'b'), Join],
            b"ab",
            0,
            PlaceAnswer::Matched {
                keep: 0,
                to: 2,
                mark: None,
            },
            &[(1, 0, 1)],
        ),
        (
            &[Letter(b'a'), Show(1), Join, Letter(b'b'), Join],
            b"ab",
            1,
            EXHAUSTED,
            &[(1, 0, 1)],
        ),
        (
            &[Letter(b'a'), Show(1), Join, Letter(b'b'), Join],
            b"ab",
            -37,
            PlaceAnswer::Abort(-37),
            &[(1, 0, 1)],
        ),
        // `(?:a(?C1)b|a(?C2)c)`
        (
            &[
                Letter(b'a'),
                Show(1),
                Join,
                Letter(b'b'),
                Join,
                Letter(b'a'),
                Show(2),
                Join,
                Letter(b'c'),
                Join,
                Either,
            ],
            b"ac",
            0,
            PlaceAnswer::Matched {
                keep: 0,
                to: 2,
                mark: None,
            },
            &[(1, 0, 1), (2, 0, 1)],
        ),
        // `(?:a(?C3))*ac`
        (
            &[
                Letter(b'a'),
                Show(3),
                Join,
                Again,
                Letter(b'a'),
                Join,
                Letter(b'c'),
                Join,
            ],
            b"aac",
            0,
            PlaceAnswer::Matched {
                keep: 0,
                to: 3,
                mark: None,
            },
            &[(3, 0, 1), (3, 0, 2)],
        ),
        // `a\K(?C255)b`
        (
            &[
                Letter(b'a'),
                Keep,
                Join,
                Show(255),
                Join,
                Letter(b'b'),
                Join,
            ],
            b"ab",
            0,
            PlaceAnswer::Matched {
                keep: 1,
                to: 2,
                mark: None,
            },
            &[(255, 1, 1)],
        ),
        // `(?!a(?C4))a`
        (
            &[Letter(b'a'), Show(4), Join, Deny, Letter(b'a'), Join],
            b"a",
            2,
            PlaceAnswer::Matched {
                keep: 0,
                to: 1,
                mark: None,
            },
            &[(4, 0, 1)],
        ),
        // `(?>a(?C5)|ab)c`
        (
            &[
                Letter(b'a'),
                Show(5),
                Join,
                Letter(b'a'),
                Letter(b'b'),
                Join,
                Either,
                Cut,
                Letter(b'c'),
                Join,
            ],
            b"abc",
            0,
            EXHAUSTED,
            &[(5, 0, 1)],
        ),
    ];
    let alloc = rt.alloc();
    let mut used = Scratch::new(alloc);
    for row in &ROWS {
        calling(&rt, alloc, row, &mut Scratch::new(alloc))?;
        calling(&rt, alloc, row, &mut used)?;
    }
    Ok(())
}
