//! Replacing what is found (pcre2api, "Creating a new string with substitutions").
ghost use Rattle.std.specs.Prelude.{◌≡◌, ◌≤◌, ◌<◌, ◌++◌, ◌&&◌, not, true, false, Ok, IfOk, IfErr, OnOk, drop, length};
ghost use Rattle.std.specs.Prelude.{max, pos};
ghost use Rattle.std.specs.Str.{is_utf8};
ghost use Rattle.std.specs.Str.Lossy.{utf8_valid_len};
ghost use Rattle.uni_text.specs.Characters.{IsChecked};
ghost use Rattle.pat_tree.specs.Pattern.{pattern_of};
ghost use Rattle.pcre2_errors.specs.declared.subst_error.SubstError.TheVariants as refusal;
ghost use Rattle.pcre2_api.specs.Matched.{search_of, AreParts, IsFound, IsMatchError};
ghost use Rattle.pcre2_api.specs.Holding.{found_in};
ghost use Rattle.pcre2_api.specs.Walks.{answer};
ghost use Rattle.pcre2_api.specs.Substituted.{kept, reading, written_for, all_replaced, searches, substituted};
ghost use Rattle.pcre2_api.specs.Substituted.{work_of, added_by, search_refusal, IsAdded, IsSearch, Tells};
ghost use Rattle.pcre2_api.specs.Substituted.{TellsMatch, Refuses};

use crate::code::Code;
use crate::found::{Found, Text};
use crate::starts::test_place;
use crate::walk::{matching_at, place_behind};
use match_drive::Scratch;
use pat_tree::{ByteList, MatchOptions, PartialMode};
use pcre_io::NoCallouts;
use pcre2_errors::{MatchError, SubstError};
use std::alloc::{AllocError, Global};
use subst_plan::{Plan, expand_into};
use uni_text::check;

/// How matches are replaced (pcre2api, "Creating a new string with substitutions").
#[derive(Clone, Copy, Debug, PartialEq, Eq)]
pub struct SubstOptions {
    /// All matches are replaced, not the first alone (PCRE2_SUBSTITUTE_GLOBAL).
    pub global: bool,
    /// The replacement has the extended syntax (PCRE2_SUBSTITUTE_EXTENDED).
    pub extended: bool,
    /// The replacement stands for itself (PCRE2_SUBSTITUTE_LITERAL).
    pub literal: bool,
    /// Unset groups are written as nothing (PCRE2_SUBSTITUTE_UNSET_EMPTY).
    pub unset_empty: bool,
    /// Groups that there aren't count as unset (PCRE2_SUBSTITUTE_UNKNOWN_UNSET).
    pub unknown_unset: bool,
    /// The text has the replacements alone (PCRE2_SUBSTITUTE_REPLACEMENT_ONLY).
    pub replacement_only: bool,
}

impl SubstOptions {
    /// No option set.
    pub const PLAIN: SubstOptions = SubstOptions {
        global: false,
        extended: false,
        literal: false,
        unset_empty: false,
        unknown_unset: false,
        replacement_only: false,
    };
}

/// A subject whose matches are replaced.
#[derive(Debug, Drop)]
pub struct Substituted {
    pub text: ByteList,
    /// How many matches were replaced.
    pub count: u64,
}

/// What a search comes to.
#[derive(Clone, Copy)]
enum Search {
    /// A match that ends here was replaced.
    Replaced { to: usize, is_empty: bool },
    Nothing,
}

/// What is replaced, and by what.
#[derive(Clone, Copy)]
struct Rewriting<'a> {
    code: &'a Code,
    subject: &'a [u8],
    plan: &'a Plan,
    options: MatchOptions,
    how: SubstOptions,
}

impl Code {
    /// Replaces the first match of a subject from a start on, or all of them (pcre2_substitute).
    /// Text that isn't matched is kept, and so is that before the start. Partial matching is taken
    /// as off. The workspace keeps its room, and has never more records than the frame limit, or than
    /// it had. Needs a subject of fewer than 4,294,967,295 bytes.
    pub fn substitute(
        &self,
        alloc: Global,
        subject: &[u8],
        start: usize,
        options: &MatchOptions,
        how: &SubstOptions,
        replacement: &[u8],
        scratch: &mut Scratch,
    ) -> Result<Substituted, SubstError>
        requires { length subject.now < 4294967295 }
        ensures substituted { IfOk result (λ s. substituted (pattern_of self.now.tree)
            self.now.tree.names options.now how.now subject.now start replacement.now ≡ Ok s) }
        ensures refused { IfErr result (Refuses (substituted (pattern_of self.now.tree)
            self.now.tree.names options.now how.now subject.now start replacement.now)) }
        ensures peak { scratch.new.peak ≤ max scratch.old.peak options.now.frame_limit }
        ensures groups { scratch.new.groups ≡ scratch.old.groups }
        ensures frames { scratch.new.frames ≡ scratch.old.frames }
    {
        if let Err(e) = self.test_start(subject, start) {
            return Err(refusal_of(e));
        }
        let plan = self.plan(alloc, how, replacement)?;
        let rewriting = Rewriting {
            code: self,
            subject,
            plan: &plan,
            options: MatchOptions {
                partial: PartialMode::Off,
                ..*options
            },
            how: *how,
        };
        rewriting.replace(alloc, start, scratch)
    }

    /// Reads a replacement.
    fn plan(&self, alloc: Global, how: &SubstOptions, text: &[u8]) -> Result<Plan, SubstError>
        ensures plan { IfOk result (λ plan.
            reading self.now.tree.options.utf how.now text.now ≡ Ok plan) }
        ensures refused { IfErr result
            (Refuses (reading self.now.tree.options.utf how.now text.now)) }
    {
        let utf = self.options().utf;
        test_replacement(utf, text)?;
        if how.literal {
            return Ok(Plan::literal(alloc, text)?);
        }
        Ok(Plan::read(alloc, text, how.extended, utf)?)
    }
}

/// Refuses a replacement in UTF that isn't UTF-8.
fn test_replacement(utf: bool, text: &[u8]) -> Result<(), SubstError>
    ensures ok { OnOk result ((utf && not (is_utf8 text.now)) ≡ false) }
    ensures why { IfErr result (λ e. (utf && not (is_utf8 text.now)) ≡ true) }
    ensures refused { IfErr result (λ e.
        e ≡ refusal.ReplacementUtf (utf8_valid_len text.now)) }
{
    if !utf {
        return Ok(());
    }
    match check(text) {
        Ok(()) => Ok(()),
        Err(bad) => Err(SubstError::ReplacementUtf { at: bad.at }),
    }
}

impl Rewriting<'_> {
    /// Adds text that isn't matched.
    fn keep(&self, out: &mut Vec<u8>, text: &[u8]) -> Result<(), AllocError>
        ensures { OnOk result (out.new.items ≡ out.old.items ++ kept self.now.how text.now) }
    {
        if !self.how.replacement_only {
            out.extend_from_slice(text)?;
        }
        Ok(())
    }

    /// Adds the text from a place to a match, and what replaces the match.
    fn add(&self, out: &mut Vec<u8>, from: usize, found: &Found<'_>) -> Result<(), SubstError>
        requires code { found.now.code ≡ self.now.code.now }
        requires subject { found.now.subject ≡ self.now.subject.now }
        requires from { from ≤ found.now.outcome.keep }
        requires within { found.now.outcome.keep ≤ length self.now.subject.now }
        ensures added { OnOk result (IsAdded out.old.items out.new.items
            (written_for (work_of self.now) from found.now.outcome)) }
        ensures refused { IfErr result (Refuses
            (written_for (work_of self.now) from found.now.outcome)) }
    {
        self.keep(out, &self.subject[from..found.start()])?;
        expand_into(
            self.plan,
            found,
            self.how.unset_empty,
            self.how.unknown_unset,
            out,
        )?;
        Ok(())
    }

    /// The text of the next match from a place on, whose captures are in the workspace. Callouts are passed over.
    fn find(
        &self,
        at: usize,
        options: &MatchOptions,
        scratch: &mut Scratch,
    ) -> Result<Text, MatchError>
        requires checked { IsChecked self.now.code.now.tree.options.utf self.now.subject.now }
        requires short { length self.now.subject.now < 4294967295 }
        ensures parts { IfOk result (λ t.
            AreParts (found_in self.now.code.now self.now.subject.now t scratch.new)) }
        ensures found { IfOk result (λ t. IsFound
            (search_of self.now.code.now options.now self.now.subject.now at (λ block. pos 0))
            (found_in self.now.code.now self.now.subject.now t scratch.new)) }
        ensures refused { IfErr result (IsMatchError
            (search_of self.now.code.now options.now self.now.subject.now at (λ block. pos 0))) }
        ensures peak { scratch.new.peak ≤ max scratch.old.peak options.now.frame_limit }
        ensures groups { scratch.new.groups ≡ scratch.old.groups }
        ensures frames { scratch.new.frames ≡ scratch.old.frames }
    {
        test_place(self.code.options().utf, self.subject, at)?;
        self.code
            .find(self.subject, at, options, scratch, &mut NoCallouts)
    }

    /// Searches from a place on, and adds the text before the match and what replaces it.
    fn replace_next(
        &self,
        out: &mut Vec<u8>,
        from: usize,
        at: usize,
        again: bool,
        scratch: &mut Scratch,
    ) -> Result<Search, SubstError>
        requires checked { IsChecked self.now.code.now.tree.options.utf self.now.subject.now }
        requires short { length self.now.subject.now < 4294967295 }
        requires from { from ≤ at }
        ensures comes { IfOk result (λ s. IsSearch (length self.now.subject.now) s
            (answer (pattern_of self.now.code.now.tree) self.now.options self.now.subject.now again
            at)) }
        ensures added { OnOk result (IsAdded out.old.items out.new.items (added_by
            (work_of self.now) from (answer (pattern_of self.now.code.now.tree) self.now.options
            self.now.subject.now again at))) }
        ensures refused { IfErr result (Refuses (added_by (work_of self.now) from (answer
            (pattern_of self.now.code.now.tree) self.now.options self.now.subject.now again at))) }
        ensures peak { scratch.new.peak ≤ max scratch.old.peak self.now.options.frame_limit }
        ensures groups { scratch.new.groups ≡ scratch.old.groups }
        ensures frames { scratch.new.frames ≡ scratch.old.frames }
    {
        let options = matching_at(&self.options, again);
        match self.find(at, &options, scratch) {
            Ok(text) => {
                let found = Found::new(self.code, self.subject, scratch, text);
                self.add(out, from, &found)?;
                Ok(found_at(&found))
            }
            Err(e) => tell(e),
        }
    }

    /// Adds the text after the last match.
    fn finish(&self, mut text: Vec<u8>, from: usize, count: u64) -> Result<Substituted, SubstError>
        requires { from ≤ length self.now.subject.now }
        ensures finished { IfOk result (λ s. s ≡ record {
          text = text.items ++ kept self.now.how (drop from self.now.subject.now);
          count = count;
        }) }
        ensures refused { IfErr result (λ e. e ≡ refusal.Memory) }
    {
        self.keep(&mut text, &self.subject[from..])?;
        Ok(Substituted {
            text: ByteList::from_vec(text),
            count,
        })
    }

    /// How many searches there are at most: two a place find all matches.
    fn searches(&self) -> usize
        requires { length self.now.subject.now < 4294967295 }
        ensures { result ≡ searches self.now.how.global (length self.now.subject.now) }
    {
        if self.how.global {
            2 * self.subject.len() + 2
        } else {
            1
        }
    }

    /// Replaces the matches from a place on.
    fn replace(
        &self,
        alloc: Global,
        start: usize,
        scratch: &mut Scratch,
    ) -> Result<Substituted, SubstError>
        requires checked { IsChecked self.now.code.now.tree.options.utf self.now.subject.now }
        requires short { length self.now.subject.now < 4294967295 }
        ensures replaced { IfOk result (λ s.
            all_replaced (work_of self.now) self.now.options start ≡ Ok s) }
        ensures refused { IfErr result (Refuses
            (all_replaced (work_of self.now) self.now.options start)) }
        ensures peak { scratch.new.peak ≤ max scratch.old.peak self.now.options.frame_limit }
        ensures groups { scratch.new.groups ≡ scratch.old.groups }
        ensures frames { scratch.new.frames ≡ scratch.old.frames }
    {
        let searches = self.searches();
        let mut text = Vec::new(alloc);
        let mut from = 0;
        let mut at = start;
        let mut again = false;
        let mut count = 0;
        for _turn in 0..searches {
            match self.replace_next(&mut text, from, at, again, scratch)? {
                Search::Replaced { to, is_empty } => {
                    count += 1;
                    from = to;
                    at = to;
                    again = is_empty;
                }
                Search::Nothing if again && at < self.subject.len() => {
                    at = place_behind(self.code, self.subject, at);
                    again = false;
                }
                Search::Nothing => return self.finish(text, from, count),
            }
        }
        self.finish(text, from, count)
    }
}

/// What a match comes to.
fn found_at(found: &Found<'_>) -> Search
    ensures { TellsMatch result found.now.outcome }
{
    Search::Replaced {
        to: found.end(),
        is_empty: found.start() == found.end(),
    }
}

/// What an error of a search comes to.
fn tell(e: MatchError) -> Result<Search, SubstError>
    ensures { Tells e result }
{
    match e {
        MatchError::NoMatch { .. } => Ok(Search::Nothing),
        _ => Err(refusal_of(e)),
    }
}

/// The refusal for an error of a search that isn't that there is no match.
fn refusal_of(e: MatchError) -> SubstError
    ensures { result ≡ search_refusal e }
{
    match e {
        MatchError::BadOffset => SubstError::BadOffset,
        MatchError::BadUtf { at } => SubstError::BadUtf { at },
        MatchError::BadUtfOffset => SubstError::BadUtfOffset,
        MatchError::MatchLimit => SubstError::MatchLimit,
        MatchError::FrameLimit => SubstError::FrameLimit,
        MatchError::RecurseLoop => SubstError::RecurseLoop,
        MatchError::NoMatch { .. }
        | MatchError::Partial { .. }
        | MatchError::Callout(_)
        | MatchError::Memory => SubstError::Memory,
    }
}
