//! The reader of a pattern.
ghost use Rattle.std.specs.Prelude.{◌≡◌, ◌&&◌, not, ℕ, pos, negsuc, ◌<◌, ◌≤◌, false, true, List, [], All, length};
ghost use Rattle.std.specs.Prelude.{Some, None, Ok, OnOk, IfOk, IfErr};
ghost use Rattle.std.specs.Str.{is_utf8};
ghost use Rattle.std.specs.Str.Lossy.{utf8_valid_len};
ghost use Rattle.pat_tree.specs.declared.options.Options.{Options};
ghost use Rattle.pat_tree.specs.Nested.{tree_at, trees};
ghost use Rattle.pat_tree.specs.Refs.{refs, has_group};
ghost use Rattle.pat_tree.specs.Growing.{AllUnder};
ghost use Rattle.pat_tree.specs.Closing.{StandInTurn};
ghost use Rattle.token_parts.specs.declared.token.Token.TheVariants.{End};
ghost use Rattle.token_parts.specs.Tell.{IsWell, Moves};
ghost use Rattle.pat_lex.specs.Tokens.{token_at};
ghost use Rattle.pat_grammar.specs.State.{State, Known, flags_of};
ghost use Rattle.pat_grammar.specs.Groups.{is_opened, places_named};
ghost use Rattle.uni_text.specs.Characters.{IsChecked};
ghost use Rattle.pat_grammar.specs.Reading.{read, read_from, read_with, reading, state_from};
ghost use Rattle.pat_build.specs.Machine.{Means, HasRoom, Ends, IsGiven, Same, state_of, whole_of, tree_with};
ghost use Rattle.pat_grammar.specs.Places.{Refuses, IsListed, IsInText};
ghost use Rattle.pat_nodes.specs.Nodes.{parsed_of, references_of};

use crate::faults::{NO_SUCH_GROUP, NOT_UTF8};
use crate::machine::Machine;
use pat_grammar::alternatives::{Bars, Numbering};
use pat_grammar::error::ReadError;
use pat_grammar::start::started;
use pat_lex::Token;
use pat_nodes::frames::Level;
use pat_nodes::literal::literally;
use pat_nodes::nodes::{group, plain};
use pat_tree::{Draft, Kids, NameEntry, NodeId, Options, Tree};
use std::alloc::Global;
use std::mem;
use token_parts::{GROUP_NUMBER_TOO_BIG, PATTERN_TOO_LARGE, UNCLOSED_GROUP};
use uni_text::check;

impl<'a> Machine<'a> {
    /// A reading that begins at a place with these options.
    fn new(
        alloc: Global,
        known: &'a [NameEntry],
        text: &'a [u8],
        start: usize,
        options: Options,
        calling: bool,
    ) -> Machine<'a>
        requires within { start ≤ length text.now }
        requires short { length text.now ≤ 65536 }
        ensures means { Means result }
        ensures room { HasRoom 0 result }
        ensures text { result.text.now ≡ text.now }
        ensures whole { whole_of result ≡ reading (record { names = known.now; calling = calling })
            text.now (state_from start options) }
        ensures options { result.draft.options ≡ options }
    {
        let level = Level {
            branches: Kids::new(alloc),
            parts: Kids::new(alloc),
        };
        Machine {
            alloc,
            text,
            known,
            draft: Draft::new(alloc, options),
            stack: Vec::new(alloc),
            level,
            waiting: None,
            start,
            at: start,
            quoting: false,
            options,
            groups: 0,
            looking: false,
            bars: Bars::Free,
            numbering: Numbering::Onward,
            beyond: None,
            calling,
            called: None,
        }
    }

    /// The next token, outside classes.
    fn token(&self) -> Result<(Token, usize), ReadError>
        requires { Means self.now }
        ensures token { IfOk result
            (λ r. token_at self.now.text.now (flags_of false (state_of self.now))
            self.now.at ≡ Ok r) }
        ensures moves { IfOk result (λ r. Moves self.now.text.now self.now.at r.0 r.1) }
        ensures well { IfOk result (λ r. IsWell self.now.text.now r.0) }
        ensures bad { IfErr result (Refuses (whole_of self.now)) }
        ensures number { IfErr result IsListed }
        ensures place { IfErr result (IsInText self.now.text.now) }
    {
        let cursor = self.cursor(self.at);
        match cursor.next(cursor.place, false) {
            Ok(found) => Ok(found),
            Err(fault) => Err(ReadError::from(fault)),
        }
    }

    /// Takes in the tokens up to the end of the text.
    fn run(&mut self) -> Result<(), ReadError>
        requires means { Means self.old }
        requires room { HasRoom 0 self.old }
        ensures means { OnOk result (Means self.new) }
        ensures room { OnOk result (HasRoom 0 self.new) }
        ensures same { OnOk result (Same self.old self.new) }
        ensures end { OnOk result
            (token_at self.new.text.now (flags_of false (state_of self.new)) self.new.at
            ≡ Ok (End, self.new.at)) }
        ensures bad { IfErr result (Refuses (whole_of self.old)) }
        ensures number { IfErr result IsListed }
        ensures place { IfErr result (IsInText self.old.text.now) }
    {
        loop {
            let (token, after) = self.token()?;
            if let Token::End = token {
                return Ok(());
            }
            self.take(token, after)?;
        }
    }

    /// At the end of the text: the number of the whole tree.
    fn end(&mut self) -> Result<NodeId, ReadError>
        requires means { Means self.old }
        requires room { HasRoom 0 self.old }
        requires token { token_at self.old.text.now (flags_of false (state_of self.old)) self.old.at
            ≡ Ok (End, self.old.at) }
        ensures below { IfOk result (λ id. id < length self.new.draft.nodes) }
        ensures ok { IfOk result (λ id. Ends self.old self.new id) }
        ensures under { IfOk result (λ id. AllUnder self.new.draft.nodes id) }
        ensures bad { IfErr result (Refuses (whole_of self.old)) }
        ensures number { IfErr result IsListed }
        ensures place { IfErr result (IsInText self.old.text.now) }
    {
        self.settle(Token::End)?;
        if !self.stack.is_empty() {
            return Err(ReadError::Bad {
                number: UNCLOSED_GROUP,
                at: self.text.len(),
            });
        }
        let inner = Level {
            branches: Kids::new(self.alloc),
            parts: Kids::new(self.alloc),
        };
        let level = mem::replace(&mut self.level, inner);
        let id = group(&mut self.draft, plain(), level, 0)?;
        Ok(id)
    }

    /// The tree of a text that was read to its end, with this root.
    fn finish(&mut self, root: NodeId) -> Result<Tree, ReadError>
        requires root { root < length self.old.draft.nodes }
        requires groups { (n : ℕ)
            → has_group self.old.draft.nodes n ≡ is_opened self.old.groups n }
        requires references { refs self.old.draft.nodes
            ≡ places_named (references_of self.old.draft.nodes) }
        requires named { All (IsGiven self.old.groups) self.old.draft.names }
        requires under { AllUnder self.old.draft.nodes root }
        requires turns { StandInTurn self.old.draft.nodes }
        ensures ok { (known : Known) (text : List ℕ) (st : State)
            → st.options ≡ self.old.draft.options
            → reading known text st
            ≡ Ok (tree_at (trees self.old.draft.nodes) root, state_of self.old)
            → IfOk result (λ tree. tree_with known text st ≡ Ok (parsed_of tree)) }
        ensures under { IfOk result (λ tree. AllUnder tree.nodes tree.root) }
        ensures turns { IfOk result (λ tree. StandInTurn tree.nodes) }
        ensures bad { (known : Known) (text : List ℕ) (st : State)
            → reading known text st
            ≡ Ok (tree_at (trees self.old.draft.nodes) root, state_of self.old)
            → IfErr result (Refuses (tree_with known text st)) }
        ensures number { IfErr result IsListed }
        ensures place { (known : Known) (text : List ℕ) (start : ℕ) (options : Options)
            → reading known text (state_from start options)
            ≡ Ok (tree_at (trees self.old.draft.nodes) root, state_of self.old)
            → IfErr result (IsInText text) }
    {
        none_beyond(self.beyond)?;
        let draft = mem::replace(&mut self.draft, Draft::new(self.alloc, self.options));
        match draft.finish(root) {
            Ok(tree) => Ok(tree),
            Err(bad) => Err(ReadError::Bad {
                number: NO_SUCH_GROUP,
                at: bad.at as usize,
            }),
        }
    }
}

/// No test may ask for a call of a group whose number is too big.
fn none_beyond(beyond: Option<usize>) -> Result<(), ReadError>
    ensures ok { OnOk result (beyond ≡ None) }
    ensures bad { IfErr result
        (λ e. (at : ℕ) × (beyond ≡ Some at) × (e ≡ ReadError.Bad (pos 161) at)) }
{
    match beyond {
        None => Ok(()),
        Some(at) => Err(ReadError::Bad {
            number: GROUP_NUMBER_TOO_BIG,
            at,
        }),
    }
}

/// The tree of the pattern, whose names are known.
fn tree_of(
    alloc: Global,
    known: &[NameEntry],
    text: &[u8],
    start: usize,
    options: Options,
    calling: bool,
) -> Result<Tree, ReadError>
    requires within { start ≤ length text.now }
    requires short { length text.now ≤ 65536 }
    ensures ok { IfOk result
        (λ tree. tree_with (record { names = known.now; calling = calling }) text.now
        (state_from start options) ≡ Ok (parsed_of tree)) }
    ensures under { IfOk result (λ tree. AllUnder tree.nodes tree.root) }
    ensures turns { IfOk result (λ tree. StandInTurn tree.nodes) }
    ensures bad { IfErr result
        (Refuses (tree_with (record { names = known.now; calling = calling }) text.now
        (state_from start options))) }
    ensures number { IfErr result IsListed }
    ensures place { IfErr result (IsInText text.now) }
{
    let mut machine = Machine::new(alloc, known, text, start, options, calling);
    machine.run()?;
    let root = machine.end()?;
    machine.finish(root)
}

/// The tree of the pattern. The text is read again where a group has a name, since a reference may
/// stand before the group: the first reading finds the names.
fn tree_from(
    alloc: Global,
    text: &[u8],
    start: usize,
    options: Options,
    calling: bool,
) -> Result<Tree, ReadError>
    requires within { start ≤ length text.now }
    requires short { length text.now ≤ 65536 }
    ensures ok { IfOk result
        (λ tree. read_from calling text.now (state_from start options) ≡ Ok (parsed_of tree)) }
    ensures under { IfOk result (λ tree. AllUnder tree.nodes tree.root) }
    ensures turns { IfOk result (λ tree. StandInTurn tree.nodes) }
    ensures bad { IfErr result (Refuses (read_from calling text.now (state_from start options))) }
    ensures number { IfErr result IsListed }
    ensures place { IfErr result (IsInText text.now) }
{
    let none: [NameEntry; 0] = [];
    let mut machine = Machine::new(alloc, &none, text, start, options, calling);
    machine.run()?;
    let root = machine.end()?;
    if is_nameless(&machine.draft) {
        return machine.finish(root);
    }
    let first = mem::replace(&mut machine.draft, Draft::new(alloc, options));
    tree_of(alloc, first.names(), text, start, options, calling)
}

fn is_nameless(draft: &Draft) -> bool
    ensures { result ≡ true → draft.now.names ≡ [] }
{
    draft.names().is_empty()
}

/// In UTF the text must be UTF-8 (pcre2unicode, "Validity of UTF strings"): fault -3 where the
/// longest part of it that is ends.
fn in_utf8(text: &[u8], utf: bool) -> Result<(), ReadError>
    ensures ok { OnOk result ((utf && not (is_utf8 text.now)) ≡ false) }
    ensures checked { OnOk result (IsChecked utf text.now) }
    ensures why { IfErr result (λ e. (utf && not (is_utf8 text.now)) ≡ true) }
    ensures bad { IfErr result (λ e. e ≡ ReadError.Bad (negsuc 2) (utf8_valid_len text.now)) }
{
    if !utf {
        return Ok(());
    }
    match check(text) {
        Ok(()) => Ok(()),
        Err(bad) => Err(ReadError::Bad {
            number: NOT_UTF8,
            at: bad.at,
        }),
    }
}

/// Reads a pattern of at most 65,536 bytes (pcre2pattern): the tree has its nested value, its
/// classes in the order of reading, its names in the order of the table, and the options with those
/// that the start items set. Under LITERAL each character stands for itself. Each node lies under
/// the root, and stands behind those under it. No call is nested deeper for a pattern that is: open
/// groups stand in a vector, 250 at most.
///
/// `Bad` has the number and the place of the fault that the definition tells: first 120 for a
/// pattern that is longer, at 0; then 160 at a start item that isn't well written; then under UTF
/// -3 where the longest part that is UTF-8 ends; then the first fault from the left; then 161 at
/// the first test of a call of a group past 65,535; last 115 at the leftmost reference, call or
/// test that names no group. Want of memory may come at any pattern.
#[tactic(auto, unfolding(pat_grammar::specs::Reading::read))]
pub fn read(alloc: Global, text: &[u8], options: Options) -> Result<Tree, ReadError>
    ensures ok { IfOk result (λ tree. read options text.now ≡ Ok (parsed_of tree)) }
    ensures under { IfOk result (λ tree. AllUnder tree.nodes tree.root) }
    ensures turns { IfOk result (λ tree. StandInTurn tree.nodes) }
    ensures bad { IfErr result (Refuses (read options text.now)) }
    ensures number { IfErr result IsListed }
    ensures place { IfErr result (IsInText text.now) }
{
    read_with(alloc, text, options, true)
}

/// Reads a pattern, whose callouts are read or refused.
fn read_with(alloc: Global, text: &[u8], options: Options, calling: bool) -> Result<Tree, ReadError>
    ensures ok { IfOk result (λ tree. read_with calling options text.now ≡ Ok (parsed_of tree)) }
    ensures under { IfOk result (λ tree. AllUnder tree.nodes tree.root) }
    ensures turns { IfOk result (λ tree. StandInTurn tree.nodes) }
    ensures bad { IfErr result (Refuses (read_with calling options text.now)) }
    ensures number { IfErr result IsListed }
    ensures place { IfErr result (IsInText text.now) }
{
    if text.len() > 65536 {
        return Err(ReadError::Bad {
            number: PATTERN_TOO_LARGE,
            at: 0,
        });
    }
    if options.literal {
        in_utf8(text, options.utf)?;
        let tree = literally(alloc, text, options)?;
        return Ok(tree);
    }
    let (start, begun) = started(text, options)?;
    in_utf8(text, begun.utf)?;
    let tree = tree_from(alloc, text, start, begun, calling)?;
    Ok(tree)
}
