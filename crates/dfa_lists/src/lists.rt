//! All ends of a graph at one place, by lists of states, one character at a time (pcre2matching, "The
//! alternative matching algorithm").
ghost use Rattle.std.specs.Prelude.{◌≡◌, ℕ, suc, ◌+◌, ◌*◌, ◌<◌, ◌≤◌, ◌++◌, ◌∷◌, ◌||◌, List, [], Some, IfOk, length};
ghost use Rattle.std.specs.Prelude.{replicate, true, false};
ghost use Rattle.match_items.specs.Subjects.{IsText, IsTextPlace};
ghost use Rattle.match_items.specs.Views.{bare_text, text_scene};
ghost use Rattle.dfa_ends.specs.Ends.{Among};
ghost use Rattle.dfa_paths.specs.Graph.{takes, is_match, nests, moves, lands, target, takers, AllBelow, IsNodeIn};
ghost use Rattle.dfa_paths.specs.Graph.{IsFlat, IsFurthest, IsEndBehind};
ghost use Rattle.dfa_paths.specs.Meets.{tells, Probes, MeetsBehind, IsTold};
ghost use Rattle.dfa_paths.specs.Fragment.{Rising};
ghost use Rattle.dfa_lists.specs.Searches.{scene_of, PathsOf, MeetsOf, AsksOf, TellsOf, SomeTellsOf, IsClosedOf};
ghost use Rattle.dfa_lists.specs.Searches.{IsTakenOf, IsSearch, IsPlaceOf};
ghost use Rattle.dfa_lists.specs.Lists.{IsVisited, closure, progress, waiting, way_of, gone_here, gone_later, kept};
ghost use Rattle.dfa_lists.specs.Tries.{IsTryEnd};
ghost use Rattle.dfa_lists.specs.Lists.{waiting_at, elsewhere, landed, stops_from, branch_in};

use crate::reaching::{break_reaches, item_reaches, looks_back, tell};
use crate::tries::{first_try, has_end, later_try};
use char_sets::ClassTable;
use dfa_paths::{Back, Node};
use match_items::{Taken, View, anchor, break_step, places_stand, step};
use pat_tree::{ListOf, Memory, Steps};
use std::alloc::Global;
use std::mem::swap;
use std::sync::ledger::Ledger;

/// Places, rising.
pub type EndList = ListOf<u64>;

/// What a search for all ends from one place found.
#[derive(Debug, Drop)]
pub struct EndSet {
    /// The ends, rising.
    pub ends: EndList,
    /// Whether some test on the way reached the subject's end, and counts (pcre2partial).
    pub hit_end: bool,
}

/// A state that waits at a place.
#[derive(Clone, Copy, Debug, PartialEq, Eq)]
pub(crate) struct Seed {
    pub(crate) at: usize,
    pub(crate) state: u32,
}

/// What a search for all ends goes over.
#[derive(Clone, Copy)]
pub(crate) struct Search<'a> {
    pub alloc: Global,
    /// The states of the graph.
    pub nodes: &'a [Node],
    /// The classes of the graph's tree.
    pub classes: &'a ClassTable,
    pub view: &'a View<'a>,
    /// Whether each test that reaches the subject's end counts.
    pub counts: bool,
}

/// The furthest place where nested paths from a state and a place end, if they do.
#[cycle(ends)]
fn furthest<L: Ledger>(
    search: &Search<'_>,
    depth: u32,
    entry: u32,
    place: usize,
    told: &mut bool,
    pool: &mut Lists,
    steps: &mut Steps<L>,
) -> Result<Option<usize>, Memory>
    requires search { IsSearch search.now }
    requires place { IsPlaceOf search.now place }
    requires entry { entry < length search.now.nodes.now }
    ensures furthest { IfOk result (IsFurthest (PathsOf search.now depth) entry place) }
    ensures told { IfOk result (λ _. IsTold (MeetsOf search.now depth entry place)
        told.old told.new) }
{
    if depth == 0 {
        return Ok(None);
    }
    let set = ends_of(search, depth - 1, entry, place, pool, steps)?;
    tell(told, set.hit_end);
    match set.ends.len() {
        0 => Ok(None),
        count => Ok(Some(*set.ends.get(count - 1) as usize)),
    }
}

/// Whether nested paths from a state and a place end at another place.
#[cycle(ends)]
fn ends_at<L: Ledger>(
    search: &Search<'_>,
    depth: u32,
    entry: u32,
    from: usize,
    at: usize,
    told: &mut bool,
    pool: &mut Lists,
    steps: &mut Steps<L>,
) -> Result<Option<usize>, Memory>
    requires search { IsSearch search.now }
    requires place { IsPlaceOf search.now from }
    requires entry { entry < length search.now.nodes.now }
    ensures end { IfOk result (IsTryEnd (PathsOf search.now depth) entry from false at) }
    ensures told { IfOk result (λ _. IsTold (MeetsOf search.now depth entry from)
        told.old told.new) }
{
    if depth == 0 {
        return Ok(None);
    }
    let found = ends_of(search, depth - 1, entry, from, pool, steps)?;
    tell(told, found.hit_end);
    if has_end(&found.ends, at) {
        return Ok(Some(at));
    }
    Ok(None)
}

/// An end of a try of a branch of a lookbehind: each counts, or only the one at the lookbehind's place.
#[cycle(ends)]
fn end_of_try<L: Ledger>(
    search: &Search<'_>,
    depth: u32,
    entry: u32,
    from: usize,
    each: bool,
    at: usize,
    told: &mut bool,
    pool: &mut Lists,
    steps: &mut Steps<L>,
) -> Result<Option<usize>, Memory>
    requires search { IsSearch search.now }
    requires place { IsPlaceOf search.now from }
    requires entry { entry < length search.now.nodes.now }
    ensures end { IfOk result (IsTryEnd (PathsOf search.now depth) entry from each at) }
    ensures told { IfOk result (λ _. IsTold (MeetsOf search.now depth entry from)
        told.old told.new) }
{
    if each {
        return furthest(search, depth, entry, from, told, pool, steps);
    }
    ends_at(search, depth, entry, from, at, told, pool, steps)
}

/// An end of nested paths that begin so many characters before a place, if they have one that counts. All tries are
/// made, since each may reach the subject's end.
#[cycle(ends)]
fn end_behind<L: Ledger>(
    search: &Search<'_>,
    depth: u32,
    back: Back,
    entry: u32,
    at: usize,
    told: &mut bool,
    pool: &mut Lists,
    steps: &mut Steps<L>,
) -> Result<Option<usize>, Memory>
    requires search { IsSearch search.now }
    requires place { IsPlaceOf search.now at }
    requires entry { entry < length search.now.nodes.now }
    ensures behind { IfOk result (IsEndBehind (scene_of search.now)
        (PathsOf search.now depth) (Some back) entry at) }
    ensures told { IfOk result (λ _. IsTold (MeetsBehind (scene_of search.now)
        (MeetsOf search.now depth) back entry at) told.old told.new) }
{
    let each = back.least == back.most;
    let mut some = None;
    let mut next = first_try(search.view, back, at);
    'tries: while let Some(tried) = next {
        let end = end_of_try(
            search,
            depth,
            entry,
            tried.place,
            each,
            at,
            told,
            pool,
            steps,
        )?;
        some = some.or(end);
        next = later_try(search.view, tried);
    }
    Ok(some)
}

/// A branch of a lookbehind.
#[derive(Clone, Copy, Debug, PartialEq, Eq)]
struct Branch {
    back: Back,
    entry: u32,
    miss: u32,
}

/// The branch of a lookbehind that a state stands for, if it does.
fn branch_of(node: Node) -> Option<Branch>
    ensures { result ≡ branch_in node }
{
    match node {
        Node::Look {
            back: Some(back),
            entry,
            miss,
            ..
        } => Some(Branch { back, entry, miss }),
        _ => None,
    }
}

/// Tries the branches of a lookbehind from the one on whose state this is, as far as the states of
/// branches rise: whether one reaches the subject's end.
#[cycle(ends)]
fn probe<L: Ledger>(
    search: &Search<'_>,
    depth: u32,
    branch: u32,
    at: usize,
    told: &mut bool,
    pool: &mut Lists,
    steps: &mut Steps<L>,
) -> Result<(), Memory>
    requires search { IsSearch search.now }
    requires place { IsPlaceOf search.now at }
    requires branch { branch < length search.now.nodes.now }
    ensures { IfOk result (λ _. IsTold (Probes (scene_of search.now) search.now.nodes.now
        search.now.counts (MeetsOf search.now depth) at branch) told.old told.new) }
{
    let mut state = branch;
    'branches: while let Some(tried) = branch_of(search.nodes[state as usize]) {
        end_behind(
            search,
            depth,
            tried.back,
            tried.entry,
            at,
            told,
            pool,
            steps,
        )?;
        if tried.miss <= state {
            return Ok(());
        }
        state = tried.miss;
    }
    Ok(())
}

/// What a lookaround asks: whether nested paths from `entry` have an end, which begin so far back where it is a branch
/// of a lookbehind. Without an end it goes on at `miss`.
#[derive(Clone, Copy, Debug, PartialEq, Eq)]
struct Question {
    back: Option<Back>,
    entry: u32,
    miss: u32,
}

/// An end of the nested paths that a lookaround asks for, if they have one. Where a branch of a
/// lookbehind has one, the later branches are tried all the same, since each may reach the subject's
/// end.
#[cycle(ends)]
fn ask<L: Ledger>(
    search: &Search<'_>,
    depth: u32,
    question: Question,
    at: usize,
    told: &mut bool,
    pool: &mut Lists,
    steps: &mut Steps<L>,
) -> Result<Option<usize>, Memory>
    requires search { IsSearch search.now }
    requires place { IsPlaceOf search.now at }
    requires entry { question.entry < length search.now.nodes.now }
    requires miss { question.miss < length search.now.nodes.now }
    ensures behind { IfOk result (IsEndBehind (scene_of search.now)
        (PathsOf search.now depth) question.back question.entry at) }
    ensures told { IfOk result (λ _. IsTold
        (AsksOf search.now depth question.back question.entry question.miss at)
        told.old told.new) }
{
    let Some(back) = question.back else {
        return furthest(search, depth, question.entry, at, told, pool, steps);
    };
    let some = end_behind(search, depth, back, question.entry, at, told, pool, steps)?;
    if let Some(_) = some {
        probe(search, depth, question.miss, at, told, pool, steps)?;
    }
    Ok(some)
}

/// The way of a lookaround, by whether nested paths have an end.
fn way(some: Option<usize>, hit: u32, miss: u32) -> u32
    ensures { result ≡ way_of some hit miss }
{
    match some {
        Some(_) => hit,
        None => miss,
    }
}

/// Goes on with a state where nested paths have their furthest end: here, or later.
fn go_on(
    seeds: &mut Vec<u32>,
    later: &mut Vec<Seed>,
    at: usize,
    some: Option<usize>,
    state: u32,
) -> Result<(), Memory>
    ensures seeds { IfOk result
        (λ _. seeds.new.items ≡ seeds.old.items ++ gone_here at some state) }
    ensures later { IfOk result
        (λ _. later.new.items ≡ later.old.items ++ gone_later at some state) }
{
    match some {
        Some(end) if end == at => seeds.push(state)?,
        Some(end) => later.push(Seed { at: end, state })?,
        None => {}
    }
    Ok(())
}

/// Follows a state at a place. One that takes something becomes a leaf; else the states that follow
/// it are seeds, or wait where an atomic group has its furthest end. Answers whether it is the end of
/// a path.
#[cycle(ends)]
fn visit<L: Ledger>(
    search: &Search<'_>,
    depth: u32,
    node: Node,
    state: u32,
    at: usize,
    lists: &mut StateLists,
    pool: &mut Lists,
    steps: &mut Steps<L>,
) -> Result<bool, Memory>
    requires search { IsSearch search.now }
    requires place { IsPlaceOf search.now at }
    requires node { IsNodeIn (length search.now.nodes.now) (length search.now.classes.now) node }
    ensures visited { IfOk result (λ _. IsVisited (scene_of search.now)
        (PathsOf search.now depth) node at
        (waiting lists.old.seeds.items lists.old.later.items)
        (waiting lists.new.seeds.items lists.new.later.items)) }
    ensures leaves { IfOk result (λ _. lists.new.leaves.items
        ≡ kept (takes node) state lists.old.leaves.items) }
    ensures marks { IfOk result (λ _. lists.new.marks.items ≡ lists.old.marks.items) }
    ensures hit { IfOk result (λ hit. hit ≡ is_match node) }
    ensures told { IfOk result (λ _. IsTold (TellsOf search.now depth node at)
        lists.old.told lists.new.told) }
    ensures tests { IfOk result (λ _. nests node ≡ false → steps.new ≡ steps.old) }
{
    match node {
        Node::Look {
            back,
            entry,
            hit,
            miss,
        } => {
            let told = &mut lists.told;
            let question = Question { back, entry, miss };
            let some = ask(search, depth, question, at, told, pool, steps)?;
            lists.seeds.push(way(some, hit, miss))?;
            Ok(false)
        }
        Node::Atomic { entry, next } => {
            // so nested paths end at a place
            places_stand();
            let told = &mut lists.told;
            let far = furthest(search, depth, entry, at, told, pool, steps)?;
            go_on(&mut lists.seeds, &mut lists.later, at, far, next)?;
            Ok(false)
        }
        _ => visit_plain(search.view, search.counts, node, state, at, lists),
    }
}

/// Follows a state that nests nothing.
fn visit_plain(
    view: &View<'_>,
    counts: bool,
    node: Node,
    state: u32,
    at: usize,
    lists: &mut StateLists,
) -> Result<bool, Memory>
    requires subject { IsText view.now.options.now view.now.subject.now }
    requires place { IsTextPlace view.now.options.now view.now.subject.now at }
    ensures seeds { IfOk result (λ hit. lists.new.seeds.items ≡ lists.old.seeds.items
        ++ moves (bare_text view.now) node at) }
    ensures leaves { IfOk result (λ hit. lists.new.leaves.items
        ≡ kept (takes node) state lists.old.leaves.items) }
    ensures later { IfOk result (λ hit. lists.new.later.items ≡ lists.old.later.items) }
    ensures marks { IfOk result (λ hit. lists.new.marks.items ≡ lists.old.marks.items) }
    ensures hit { IfOk result (λ hit. hit ≡ is_match node) }
    ensures told { IfOk result (λ hit. lists.new.told
        ≡ (lists.old.told || tells (bare_text view.now) counts node at)) }
{
    match node {
        Node::One { item, .. } => {
            tell(&mut lists.told, item_reaches(view, &item, at) && counts);
            lists.leaves.push(state)?;
        }
        Node::Break { .. } => {
            tell(&mut lists.told, break_reaches(view, at) && counts);
            lists.leaves.push(state)?;
        }
        Node::Anchor { kind, next } => {
            let held = anchor(view, kind, at);
            let tells = counts || looks_back(kind) && !view.subject.is_empty();
            tell(&mut lists.told, held.at_end && tells);
            if held.holds {
                lists.seeds.push(next)?;
            }
        }
        Node::Split { first, second } => {
            lists.seeds.push(first)?;
            lists.seeds.push(second)?;
        }
        Node::Goto { next } => lists.seeds.push(next)?,
        Node::Look { .. } | Node::Atomic { .. } | Node::Dead => {}
        Node::Match => return Ok(true),
    }
    Ok(false)
}

/// Follows what takes nothing from the seeds on, at one place. The leaves are the states met that
/// take something. Answers whether the end of a path was met.
#[cycle(ends)]
fn close<L: Ledger>(
    search: &Search<'_>,
    depth: u32,
    at: usize,
    lists: &mut StateLists,
    pool: &mut Lists,
    steps: &mut Steps<L>,
) -> Result<bool, Memory>
    requires search { IsSearch search.now }
    requires place { IsPlaceOf search.now at }
    requires seeds { AllBelow (length search.now.nodes.now) lists.old.seeds.items }
    requires marks { lists.old.marks.items ≡ replicate (length search.now.nodes.now) false }
    requires leaves { lists.old.leaves.items ≡ [] }
    ensures closed { IfOk result (λ hit. (leaps : List Seed)
        × (lists.new.later.items ≡ lists.old.later.items ++ leaps)
        × IsClosedOf search.now depth at lists.old.seeds.items
        (closure lists.new.leaves.items leaps hit)) }
    ensures told { IfOk result (λ _. IsTold (SomeTellsOf search.now depth at
        lists.old.seeds.items) lists.old.told lists.new.told) }
    ensures tests { IfOk result (λ _. IsFlat search.now.nodes.now → steps.new ≡ steps.old) }
{
    let mut hit = false;
    'seeds: while let Some(state) = lists.seeds.pop() {
        let q = state as usize;
        if !lists.marks[q] {
            lists.marks[q] = true;
            let node = search.nodes[q];
            let is_end = visit(search, depth, node, state, at, lists, pool, steps)?;
            tell(&mut hit, is_end);
        }
    }
    Ok(hit)
}

/// Parts what waits at a place from what waits elsewhere.
fn part(
    pending: &[Seed],
    at: usize,
    seeds: &mut Vec<u32>,
    later: &mut Vec<Seed>,
) -> Result<(), Memory>
    requires seeds { seeds.old.items ≡ [] }
    requires later { later.old.items ≡ [] }
    ensures seeds { IfOk result (λ _. seeds.new.items ≡ waiting_at at pending.now) }
    ensures later { IfOk result (λ _. later.new.items ≡ elsewhere at pending.now) }
{
    let mut k = 0;
    'pending: while k < pending.len() {
        let seed = pending[k];
        if seed.at == at {
            seeds.push(seed.state)?;
        } else {
            later.push(seed)?;
        }
        k += 1;
    }
    Ok(())
}

/// What a state takes at a place: the place after it.
fn land<L: Ledger>(
    view: &View<'_>,
    classes: &ClassTable,
    node: Node,
    at: usize,
    steps: &mut Steps<L>,
) -> Option<usize>
    requires subject { IsText view.now.options.now view.now.subject.now }
    requires place { IsTextPlace view.now.options.now view.now.subject.now at }
    requires node { (states : ℕ) × IsNodeIn states (length classes.now) node }
    ensures value { result ≡ lands (text_scene view.now classes.now) node at }
    ensures tests { steps.new ≤ steps.old + 1 }
{
    let taken = match node {
        Node::One { item, .. } => step(view, classes, &item, at, steps),
        Node::Break { .. } => break_step(view, at),
        _ => Taken::No,
    };
    match taken {
        Taken::Took(to) => Some(to),
        _ => None,
    }
}

/// The state that follows what a state takes.
fn target_of(node: Node) -> u32
    ensures { result ≡ target node }
{
    match node {
        Node::One { next, .. } | Node::Break { next } => next,
        _ => 0,
    }
}

/// Takes what stands at a place from each leaf on. Each leaf makes one test at most.
fn advance<L: Ledger>(
    search: &Search<'_>,
    leaves: &[u32],
    at: usize,
    later: &mut Vec<Seed>,
    steps: &mut Steps<L>,
) -> Result<(), Memory>
    requires search { IsSearch search.now }
    requires place { IsPlaceOf search.now at }
    requires leaves { AllBelow (length search.now.nodes.now) leaves.now }
    ensures later { IfOk result (λ _. later.new.items ≡ landed (scene_of search.now)
        search.now.nodes.now at leaves.now later.old.items) }
    ensures tests { steps.new ≤ steps.old + length leaves.now }
{
    let mut k = 0;
    'leaves: while k < leaves.len() {
        let node = search.nodes[leaves[k] as usize];
        if let Some(to) = land(search.view, search.classes, node, at, steps) {
            later.push(Seed {
                at: to,
                state: target_of(node),
            })?;
        }
        k += 1;
    }
    Ok(())
}

/// Keeps a place where the end of a path was met.
fn note(found: &mut EndList, at: usize, hit: bool) -> Result<(), Memory>
    ensures { IfOk result (λ _. found.new ≡ kept hit at found.old) }
{
    if hit {
        found.push(at as u64)?;
    }
    Ok(())
}

/// The lists of states of one search from one place.
#[derive(Debug, Drop)]
pub(crate) struct StateLists {
    /// The states that wait, each at its place.
    pending: Vec<Seed>,
    /// Those that wait past the present place.
    later: Vec<Seed>,
    /// The states at the present place that are still to be followed.
    seeds: Vec<u32>,
    /// Which states were followed there.
    marks: Vec<bool>,
    /// Those among them that take something.
    leaves: Vec<u32>,
    /// Whether some test reached the subject's end so far, and counts.
    told: bool,
}

impl StateLists {
    /// Lists that hold nothing, and take no memory yet.
    fn new(alloc: Global) -> StateLists {
        StateLists {
            pending: Vec::new(alloc),
            later: Vec::new(alloc),
            seeds: Vec::new(alloc),
            marks: Vec::new(alloc),
            leaves: Vec::new(alloc),
            told: false,
        }
    }
}

/// The lists of states of searches for all ends: those that no search uses now. A search in another,
/// for an atomic group or a lookaround, has lists of its own. They are kept from one search to the
/// next, which so takes no memory anew; what a search left in them doesn't count (pcre2api, "Matching
/// a pattern: the alternative function", on the workspace).
#[derive(Debug, Drop)]
pub struct Lists {
    free: Vec<StateLists>,
}

impl Lists {
    /// Lists that hold nothing, and take no memory yet.
    pub fn new(alloc: Global) -> Lists {
        Lists {
            free: Vec::new(alloc),
        }
    }

    /// Takes lists that no search uses.
    fn take(&mut self, alloc: Global) -> StateLists {
        match self.free.pop() {
            Some(lists) => lists,
            None => StateLists::new(alloc),
        }
    }

    /// Gives lists back.
    fn give(&mut self, lists: StateLists) -> Result<(), Memory> {
        self.free.push(lists)?;
        Ok(())
    }
}

/// Marks none of so many states.
fn mark_none(marks: &mut Vec<bool>, states: usize) -> Result<(), Memory>
    ensures { IfOk result (λ _. marks.new.items ≡ replicate states false) }
{
    marks.clear();
    marks.resize(states, false)?;
    Ok(())
}

/// Takes the states that wait at a place: what follows them there, what these take, and whether the
/// end of a path is among them.
#[cycle(ends)]
fn take_place<L: Ledger>(
    search: &Search<'_>,
    depth: u32,
    at: usize,
    lists: &mut StateLists,
    found: &mut EndList,
    pool: &mut Lists,
    steps: &mut Steps<L>,
) -> Result<(), Memory>
    requires search { IsSearch search.now }
    requires place { IsPlaceOf search.now at }
    requires seeds { AllBelow (length search.now.nodes.now) lists.old.seeds.items }
    ensures taken { IfOk result (λ _. IsTakenOf search.now depth at lists.old.seeds.items
        (progress lists.old.later.items found.old steps.old)
        (progress lists.new.later.items found.new steps.new)) }
    ensures told { IfOk result (λ _. IsTold (SomeTellsOf search.now depth at
        lists.old.seeds.items) lists.old.told lists.new.told) }
{
    mark_none(&mut lists.marks, search.nodes.len())?;
    lists.leaves.clear();
    let hit = close(search, depth, at, lists, pool, steps)?;
    note(found, at, hit)?;
    advance(search, &lists.leaves, at, &mut lists.later, steps)?;
    Ok(())
}

/// Begins with one state that waits.
fn begin(lists: &mut StateLists, at: usize, state: u32) -> Result<(), Memory>
    ensures pending { IfOk result (λ _. lists.new.pending.items
        ≡ record { at = at; state = state } ∷ []) }
    ensures told { IfOk result (λ _. lists.new.told ≡ false) }
{
    lists.told = false;
    lists.pending.clear();
    lists.pending.push(Seed { at, state })?;
    Ok(())
}

/// Parts what waits at a place from what waits elsewhere.
fn part_lists(lists: &mut StateLists, at: usize) -> Result<(), Memory>
    ensures seeds { IfOk result
        (λ _. lists.new.seeds.items ≡ waiting_at at lists.old.pending.items) }
    ensures later { IfOk result
        (λ _. lists.new.later.items ≡ elsewhere at lists.old.pending.items) }
    ensures told { IfOk result (λ _. lists.new.told ≡ lists.old.told) }
{
    lists.seeds.clear();
    lists.later.clear();
    part(&lists.pending, at, &mut lists.seeds, &mut lists.later)
}

/// The places where a path from a state and a place can end, rising; nested paths are so deep at most.
/// Without these each character from the place on costs at most one test of each state that takes
/// something, and so does the subject's end.
#[cycle(ends)]
pub(crate) fn ends_of<L: Ledger>(
    search: &Search<'_>,
    depth: u32,
    entry: u32,
    place: usize,
    pool: &mut Lists,
    steps: &mut Steps<L>,
) -> Result<EndSet, Memory>
    requires search { IsSearch search.now }
    requires place { IsPlaceOf search.now place }
    requires entry { entry < length search.now.nodes.now }
    ensures sound { IfOk result (λ set. (end : ℕ) → Among end set.ends
        → PathsOf search.now (suc depth) entry place end) }
    ensures full { IfOk result (λ set. (end : ℕ)
        → PathsOf search.now (suc depth) entry place end → Among end set.ends) }
    ensures rising { IfOk result (λ set. Rising set.ends) }
    ensures hit { IfOk result (λ set. set.hit_end ≡ true
        → MeetsOf search.now (suc depth) entry place) }
    ensures all_hit { IfOk result (λ set. MeetsOf search.now (suc depth) entry place
        → set.hit_end ≡ true) }
    ensures tests { IfOk result (λ _. IsFlat search.now.nodes.now
        → steps.new ≤ steps.old + takers search.now.nodes.now
        * stops_from search.now.view.now.options.now.utf search.now.view.now.subject.now place) }
{
    // so what a state takes ends at a place
    places_stand();
    let mut lists = pool.take(search.alloc);
    let mut found: EndList = ListOf::new(search.alloc);
    begin(&mut lists, place, entry)?;
    let mut at = place;
    'places: while !lists.pending.is_empty() {
        part_lists(&mut lists, at)?;
        if !lists.seeds.is_empty() {
            take_place(search, depth, at, &mut lists, &mut found, pool, steps)?;
        }
        swap(&mut lists.pending, &mut lists.later);
        at += 1;
    }
    let hit_end = lists.told;
    pool.give(lists)?;
    Ok(EndSet {
        ends: found,
        hit_end,
    })
}
