//! A compiled pattern.
ghost use Rattle.std.specs.Prelude.{◌≡◌, ◌≤◌, ◌<◌, IfOk, IfErr, IfSome, OnOk, Some, None, length, max, slice_get, true};
ghost use Rattle.std.specs.Option.{option_copied};
ghost use Rattle.std.specs.Borrow.{sem};
ghost use Rattle.pat_tree.specs.declared.options.PartialMode.TheVariants.{Off};
ghost use Rattle.pcre_io.specs.declared.callouts.Block.{Block};
ghost use Rattle.pat_tree.specs.Parts.{tree_of};
ghost use Rattle.pat_tree.specs.Pattern.{pattern_of};
ghost use Rattle.pat_build.specs.pat_grammar.Nesting.{nesting};
ghost use Rattle.char_sets.specs.Table.{IsTableOf};
ghost use Rattle.match_drive.specs.frame_board.Ready.{AreFactsOf};
ghost use Rattle.pcre2_api.specs.Compiled.{Compiles, IsCompileError, HasNumber, IsInPattern, info_of};
ghost use Rattle.pcre2_api.specs.Patterns.{compiled};
ghost use Rattle.pcre2_api.specs.Informs.{info_in};
ghost use Rattle.match_drive.specs.frame_state.Room.{IsQuiet};
ghost use Rattle.pcre2_api.specs.Reserved.{Fits, IsOfMatch};
ghost use Rattle.pcre2_api.specs.Holding.{HasAnswer, Leaves, found_in};
ghost use Rattle.match_drive.specs.Answer.{IsMatchAnswer, IsLastMark, IsOfMatching, IsShown};
ghost use Rattle.ordered_search.specs.Forward.{IsPlain};
ghost use Rattle.ordered_search.specs.PlaceAnswer.{last_name};
ghost use Rattle.ordered_search.specs.MatchAnswer.{match_answer};
ghost use Rattle.uni_text.specs.Characters.{IsChecked};
ghost use Rattle.pcre2_api.specs.Matched.{search_of, shown_by, AreParts, IsFound, IsMatchError, HasShown};
ghost use Rattle.pat_needs.specs.Texts.{sets_of};
ghost use Rattle.pcre2_api.specs.Needed.{FindsNone};
ghost use Rattle.regex_hir.specs.Meaning.{meaning};
ghost use Rattle.pcre2_api.specs.Shapes.{MissesLines, FindsLines};
ghost use Rattle.pcre2_api.specs.Starts.{start_fault};
ghost use Rattle.match_drive.specs.Starts.{AreAlike};

use crate::found::{Found, Text, found_of};
use crate::need::{is_length, is_within};
use crate::seek::{seek, seek_again};
use crate::starts::test_start;
use char_sets::ClassTable;
use match_drive::{MatchAnswer, Outline, Ready, Scratch, search_by};
use match_items::View;
use pat_build::{read, readings_are_bounded};
use pat_check::{Facts, check};
use pat_lengths::first_refused_is_leftmost;
use pat_needs::ByteText;
use pat_shape::{LineShape, line_shape};
use pat_tree::{MatchOptions, Memory, NameTable, Options, Tree};
use pcre_io::Callouts;
use pcre2_errors::{CompileError, MatchError};
use std::alloc::Global;
use std::marker::Model;

/// A compiled pattern (pcre2api, "Compiling a pattern"). It serves any number of matches, and no match changes it.
#[derive(Drop)]
pub struct Code {
    text: Vec<u8>,
    tree: Tree,
    classes: ClassTable,
    facts: Facts,
    outline: Outline,
}

/// What is told of a compiled pattern (pcre2api, "Information about a compiled pattern").
#[derive(Clone, Copy, Debug, PartialEq, Eq)]
pub struct Info {
    /// The greatest number of a capturing group (PCRE2_INFO_CAPTURECOUNT).
    pub groups: u32,
    /// How many characters before a place a match may look at (PCRE2_INFO_MAXLOOKBEHIND).
    pub max_lookbehind: u32,
    /// Whether an empty text can match (PCRE2_INFO_MATCHEMPTY).
    pub can_be_empty: bool,
}

impl Model for Code {
    ghost use Rattle.pcre2_api.specs.Compiled.{CodeParts, IsCode};

    ghost Value = { CodeParts };

    ghost view = { λ code.
        record {
          text = code.text.items;
          tree = code.tree;
          classes = code.classes;
          facts = code.facts;
        } };

    ghost invariant = { λ code.
        IsCode (record {
          text = code.text.items;
          tree = code.tree;
          classes = code.classes;
          facts = code.facts;
        }) code.outline };
}

impl Code {
    /// Compiles a pattern (pcre2_compile). Refuses it with the first fault of pcre2pattern's rules, counted in bytes
    /// from the pattern's start, or for want of memory. The faults of lookbehinds, 125 and 187, come after all others.
    pub fn compile(alloc: Global, pattern: &[u8], options: Options) -> Result<Code, CompileError>
        ensures compiled { IfOk result (Compiles options pattern.now) }
        ensures refused { IfErr result (IsCompileError (compiled options pattern.now)) }
        ensures number { IfErr result HasNumber }
        ensures place { IfErr result (IsInPattern pattern.now) }
    {
        let tree = read(alloc, pattern, options)?;
        // so a table and facts can be made of the tree, and its leftmost fault is that of the definition
        // and stands in the pattern
        first_refused_is_leftmost();
        readings_are_bounded();
        tree.is_sound();
        let classes = ClassTable::build(alloc, &tree)?;
        let facts = check(alloc, &tree, &classes)?;
        let outline = Outline::of(&tree);
        let text = pattern.to_vec(alloc)?;
        Ok(Code {
            text,
            tree,
            classes,
            facts,
            outline,
        })
    }

    /// Looks for a match from a start on (pcre2_match). Places are in bytes. Any workspace serves, new or used; the
    /// captures of the match are read there as long as it is borrowed. In UTF the whole subject is looked at first
    /// (pcre2unicode, "Validity of UTF strings"), also that before the start. Under partial matching a partial match is
    /// told as an error (pcre2partial). At each callout it calls `calls`, and follows the answer (pcre2callout). The
    /// workspace keeps its room, and the last name that the search met. Needs a subject of fewer than 4,294,967,295
    /// bytes.
    pub fn match_at<'a, C: Callouts>(
        &'a self,
        subject: &'a [u8],
        start: usize,
        options: &MatchOptions,
        scratch: &'a mut Scratch,
        calls: &mut C,
    ) -> Result<Found<'a>, MatchError>
        requires short { length subject.now < 4294967295 }
        ensures* leaves { sem 𝓛 (Leaves scratch.entry
            (search_of self.now options.now subject.now start (C.answers calls.old))
            (HasAnswer result)) }
        ensures found { IfOk result
            (IsFound (search_of self.now options.now subject.now start (C.answers calls.old))) }
        ensures code { IfOk result (λ f. (f.code ≡ self.now) × (f.subject ≡ subject.now)) }
        ensures refused { IfErr result
            (IsMatchError
            (search_of self.now options.now subject.now start (C.answers calls.old))) }
        ensures starts { start_fault self.now.tree.options.utf subject.now start ≡ None
            → AreAlike (search_of self.now options.now subject.now start (C.answers calls.old)) }
        ensures rule { (block : Block) → C.answers calls.new block ≡ C.answers calls.old block }
        ensures seen { OnOk result
            (C.seen calls.new
            ≡ shown_by (search_of self.now options.now subject.now start (C.answers calls.old))
            (C.seen calls.old)) }
        ensures shown { IfErr result
            (λ e. HasShown e (C.seen calls.new)
            (shown_by (search_of self.now options.now subject.now start (C.answers calls.old))
            (C.seen calls.old))) }
        ensures reserved { Fits self.now options.now scratch.old
            → IsQuiet C.refuses (C.answers calls.old) → IfErr result IsOfMatch }
    {
        found_of(seek(scratch, self, subject, start, options, calls))
    }

    /// Looks for a further match as [`Code::match_at`] does, in a subject that was looked at before: in UTF it must be
    /// UTF-8, as it is once a search of this code began in it (pcre2api, PCRE2_NO_UTF_CHECK).
    pub fn match_again<'a, C: Callouts>(
        &'a self,
        subject: &'a [u8],
        start: usize,
        options: &MatchOptions,
        scratch: &'a mut Scratch,
        calls: &mut C,
    ) -> Result<Found<'a>, MatchError>
        requires checked { IsChecked self.now.tree.options.utf subject.now }
        requires short { length subject.now < 4294967295 }
        ensures* leaves { sem 𝓛 (Leaves scratch.entry
            (search_of self.now options.now subject.now start (C.answers calls.old))
            (HasAnswer result)) }
        ensures found { IfOk result
            (IsFound (search_of self.now options.now subject.now start (C.answers calls.old))) }
        ensures code { IfOk result (λ f. (f.code ≡ self.now) × (f.subject ≡ subject.now)) }
        ensures refused { IfErr result
            (IsMatchError
            (search_of self.now options.now subject.now start (C.answers calls.old))) }
        ensures starts { start_fault self.now.tree.options.utf subject.now start ≡ None
            → AreAlike (search_of self.now options.now subject.now start (C.answers calls.old)) }
        ensures rule { (block : Block) → C.answers calls.new block ≡ C.answers calls.old block }
        ensures seen { OnOk result
            (C.seen calls.new
            ≡ shown_by (search_of self.now options.now subject.now start (C.answers calls.old))
            (C.seen calls.old)) }
        ensures shown { IfErr result
            (λ e. HasShown e (C.seen calls.new)
            (shown_by (search_of self.now options.now subject.now start (C.answers calls.old))
            (C.seen calls.old))) }
        ensures reserved { Fits self.now options.now scratch.old
            → IsQuiet C.refuses (C.answers calls.old) → IfErr result IsOfMatch }
    {
        found_of(seek_again(scratch, self, subject, start, options, calls))
    }

    /// Tests whether a search can begin: the start lies in the subject, and in UTF the subject is UTF-8 and a character
    /// begins at the start. The first of these that fails is told, as [`Code::match_at`] tells it.
    pub fn test_start(&self, subject: &[u8], start: usize) -> Result<(), MatchError>
        ensures ok { OnOk result (start_fault self.now.tree.options.utf subject.now start ≡ None) }
        ensures checked { OnOk result (IsChecked self.now.tree.options.utf subject.now) }
        ensures refused { IfErr result
            (λ e. start_fault self.now.tree.options.utf subject.now start ≡ Some e) }
    {
        test_start(self.options().utf, subject, start)
    }

    /// The text of a match, whose captures are in the workspace. The search can begin at the start.
    pub(crate) fn find<C: Callouts>(
        &self,
        subject: &[u8],
        start: usize,
        options: &MatchOptions,
        scratch: &mut Scratch,
        calls: &mut C,
    ) -> Result<Text, MatchError>
        requires begun { start_fault self.now.tree.options.utf subject.now start ≡ None }
        requires short { length subject.now < 4294967295 }
        ensures parts { IfOk result (λ t. AreParts (found_in self.now subject.now t scratch.new)) }
        ensures found { IfOk result (λ t. IsFound
            (search_of self.now options.now subject.now start (C.answers calls.old))
            (found_in self.now subject.now t scratch.new)) }
        ensures refused { IfErr result (IsMatchError
            (search_of self.now options.now subject.now start (C.answers calls.old))) }
        ensures peak { scratch.new.peak ≤ max scratch.old.peak options.now.frame_limit }
        ensures groups { scratch.new.groups ≡ scratch.old.groups }
        ensures frames { scratch.new.frames ≡ scratch.old.frames }
        ensures last_mark { HasAnswer result → scratch.new.last_mark ≡ last_name (match_answer
            (search_of self.now options.now subject.now start (C.answers calls.old))).notes }
        ensures rule { (block : Block) → C.answers calls.new block ≡ C.answers calls.old block }
        ensures seen { OnOk result (C.seen calls.new
            ≡ shown_by
            (search_of self.now options.now subject.now start (C.answers calls.old))
            (C.seen calls.old)) }
        ensures shown { IfErr result (λ e. HasShown e (C.seen calls.new)
            (shown_by
            (search_of self.now options.now subject.now start (C.answers calls.old))
            (C.seen calls.old))) }
        ensures reserved { Fits self.now options.now scratch.old
            → IsQuiet C.refuses (C.answers calls.old) → IfErr result IsOfMatch }
    {
        match self.search(subject, start, options, scratch, calls) {
            MatchAnswer::Match { keep, to, mark } => Ok(Text { keep, to, mark }),
            MatchAnswer::NoMatch { mark } => Err(MatchError::NoMatch { mark }),
            MatchAnswer::Partial { start, mark } => Err(MatchError::Partial {
                start,
                end: subject.len(),
                mark,
            }),
            MatchAnswer::MatchLimit => Err(MatchError::MatchLimit),
            MatchAnswer::FrameLimit => Err(MatchError::FrameLimit),
            MatchAnswer::RecurseLoop => Err(MatchError::RecurseLoop),
            MatchAnswer::Callout(n) => Err(MatchError::Callout(n)),
            MatchAnswer::Memory => Err(MatchError::Memory),
        }
    }

    /// The search of a match whose start is a place of the subject.
    fn search<C: Callouts>(
        &self,
        subject: &[u8],
        start: usize,
        options: &MatchOptions,
        scratch: &mut Scratch,
        calls: &mut C,
    ) -> MatchAnswer
        requires begun { start_fault self.now.tree.options.utf subject.now start ≡ None }
        requires short { length subject.now < 4294967295 }
        ensures answer { IsMatchAnswer result scratch.new.spans
            (match_answer
            (search_of self.now options.now subject.now start (C.answers calls.old))) }
        ensures plain { IsPlain
            (search_of self.now options.now subject.now start (C.answers calls.old))
            (match_answer
            (search_of self.now options.now subject.now start (C.answers calls.old))).answer }
        ensures last_mark { IsLastMark result scratch.new.last_mark
            (match_answer
            (search_of self.now options.now subject.now start (C.answers calls.old))) }
        ensures peak { scratch.new.peak ≤ max scratch.old.peak options.now.frame_limit }
        ensures groups { scratch.new.groups ≡ scratch.old.groups }
        ensures frames { scratch.new.frames ≡ scratch.old.frames }
        ensures rule { (block : Block) → C.answers calls.new block ≡ C.answers calls.old block }
        ensures seen { IsShown result (C.seen calls.old) (C.seen calls.new)
            (match_answer
            (search_of self.now options.now subject.now start (C.answers calls.old))) }
        ensures reserved { Fits self.now options.now scratch.old
            → IsQuiet C.refuses (C.answers calls.old) → IsOfMatching result }
    {
        let ready = Ready {
            tree: &self.tree,
            classes: &self.classes,
            facts: &self.facts,
        };
        let view = View {
            subject,
            start,
            options: self.tree.options(),
            matching: options,
        };
        search_by(&ready, &self.outline, &view, scratch, calls)
    }

    /// A text that every match takes: a subject of at most `most` bytes in which it stands nowhere has no match, and a
    /// search of it from its begin passes no limit of `options`. Who has many subjects need not search such ones; in
    /// UTF they must be UTF-8. None where no such text is known.
    pub fn needed(&self, most: u32, options: &MatchOptions) -> Option<ByteText>
        requires { options.now.«partial» ≡ Off }
        ensures { IfSome result (λ text. FindsNone self.now options.now most (sets_of text)) }
    {
        let Some(need) = &self.facts.need else {
            return None;
        };
        if !is_within(need, most, self.tree.options(), options) {
            return None;
        }
        Some(need.text.copied())
    }

    /// An expression of the kit's for lines of at most `most` bytes without LF: such a line in which no match of it
    /// begins, searched for in the line or in a text that holds the line, has no match, and a search of it from its
    /// begin passes no limit of `options`. Who has many lines need not search such ones; in UTF they must be UTF-8.
    /// Where it is exact a line in which a match of it begins has a match. None where no such expression is known.
    pub fn shape(
        &self,
        alloc: Global,
        most: u32,
        options: &MatchOptions,
    ) -> Result<Option<LineShape>, Memory>
        requires { options.now.«partial» ≡ Off }
        ensures misses { IfOk result (λ o. IfSome o (λ shape.
            MissesLines self.now options.now most (meaning shape.hir))) }
        ensures finds { IfOk result (λ o. IfSome o (λ shape. shape.is_exact ≡ true
            → FindsLines self.now options.now most (meaning shape.hir))) }
    {
        if !is_length(most) {
            return Ok(None);
        }
        line_shape(alloc, &self.tree, &self.classes, most, options)
    }

    /// A law: what is told of the code is told of what its pattern is read as.
    pub fn info_is_of_its_pattern(&self)
        ensures { info_of self.now ≡ info_in (pattern_of self.now.tree) }
    {
        self.tree.is_sound();
    }

    /// The pattern, made ready for searches.
    pub(crate) fn ready(&self) -> Ready<'_>
        ensures tree { result.tree.now ≡ self.now.tree }
        ensures table { IsTableOf result.tree.now result.classes.now }
        ensures facts { AreFactsOf result.tree.now result.facts.now }
        ensures nested { nesting (tree_of result.tree.now) ≤ 501 }
    {
        Ready {
            tree: &self.tree,
            classes: &self.classes,
            facts: &self.facts,
        }
    }

    /// The names of groups (PCRE2_INFO_NAMETABLE).
    pub fn names(&self) -> &NameTable
        ensures { result.now ≡ self.now.tree.names }
    {
        self.tree.names()
    }

    /// What is told of the pattern (pcre2_pattern_info). Takes no memory.
    pub fn info(&self) -> Info
        ensures { result ≡ info_of self.now }
    {
        Info {
            groups: self.tree.groups(),
            max_lookbehind: self
                .facts
                .greatest_back
                .max(u32::from(self.facts.tests_before)),
            can_be_empty: self.facts.can_be_empty,
        }
    }

    /// The options of the pattern, those that it sets at its start included.
    pub fn options(&self) -> &Options
        ensures { result.now ≡ self.now.tree.options }
    {
        self.tree.options()
    }

    /// The name of this number that a mark was given, where there is one (pcre2_get_mark).
    pub fn mark_name(&self, id: u32) -> Option<&[u8]>
        ensures { option_copied result ≡ slice_get self.now.tree.verb_names id }
    {
        if id < self.tree.verb_names() {
            Some(self.tree.verb_name(id))
        } else {
            None
        }
    }
}
