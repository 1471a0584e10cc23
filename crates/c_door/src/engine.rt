//! What a handle holds.
ghost use Rattle.std.specs.Prelude.{◌≡◌, ◌<◌, ◌≤◌, ℕ, IfOk, IfErr, length, pos, slice_get, slice_index_or};
ghost use Rattle.uni_text.specs.Characters.{IsChecked};
ghost use Rattle.pat_tree.specs.Pattern.{pattern_of};
ghost use Rattle.pcre2_api.specs.match_starts.Asked.{passed_over};
ghost use Rattle.pcre2_api.specs.Patterns.{compiled};
ghost use Rattle.pcre2_api.specs.Compiled.{Compiles, IsCompileError};
ghost use Rattle.pcre2_api.specs.Matched.{search_of, IsMatchError};
ghost use Rattle.pcre2_api.specs.Captured.{top_of, mark_of};
ghost use Rattle.pcre2_api.specs.DfaMatched.{IsDfaFound, IsDfaError};
ghost use Rattle.pcre2_api.specs.Substituted.{substituted};
ghost use Rattle.c_door.specs.Telling.{IsTold, IsMark, ArePlaces, IsText, IsName, told_of, IsEnds, AreEnds, end_at};
ghost use Rattle.c_door.specs.Telling.{IsReplaced, IsFirst};

use crate::limits::limited_ends;
use crate::texts::{put, put_mark, put_text};
use crate::told::{
    EndsAnswer, Hit, Named, Pair, SubstAnswer, Told, byte_or_minus_one, ends_answer, pair_of,
    subst_answer, told_of,
};
use pcre2_api::{
    Code, CompileError, DfaError, DfaFound, EndList, Found, Lists, MatchError, MatchOptions,
    NoCallouts, Options, Scratch, Steps, SubstOptions,
};
use std::alloc::{AllocError, Global};
use std::marker::{Brand, Send, Sync};
use std::sync::Arc;
use std::sync::ledger::{Blank, Ledger};

/// A compiled pattern, which other engines may share, and a workspace of its own.
#[derive(Drop)]
pub struct Engine {
    pub code: Arc<Code, Global>,
    pub scratch: Scratch,
}

impl Engine {
    /// Compiles a pattern.
    pub(crate) fn compile(
        alloc: Global,
        pattern: &[u8],
        options: Options,
    ) -> Result<Box<Engine>, CompileError>
        ensures compiled { IfOk result (λ e. Compiles options pattern.now e.value.code.value) }
        ensures refused { IfErr result (IsCompileError (compiled options pattern.now)) }
    {
        let code = Code::compile(alloc, pattern, options)?;
        match Arc::new(alloc, code) {
            Ok(code) => Ok(Engine::with(alloc, code)?),
            Err(_) => Err(CompileError::Memory),
        }
    }

    /// An engine of this code.
    fn with(alloc: Global, code: Arc<Code, Global>) -> Result<Box<Engine>, AllocError>
        ensures { IfOk result (λ e. e.value.code.value ≡ code.value) }
    {
        let scratch = Scratch::new(alloc);
        match Box::new(alloc, Engine { code, scratch }) {
            Ok(engine) => Ok(engine),
            Err(_) => Err(AllocError),
        }
    }

    /// Another engine of the same code.
    pub(crate) fn twin(&self, alloc: Global) -> Result<Box<Engine>, AllocError>
        ensures { IfOk result (λ e. e.value.code.value ≡ self.now.code.value) }
    {
        Engine::with(alloc, Arc::try_clone(&self.code)?)
    }

    /// Looks for a match, and writes the places of its groups and its mark.
    pub(crate) fn find(
        &mut self,
        subject: &[u8],
        start: usize,
        options: &MatchOptions,
        places: &mut [Pair],
        mark: &mut [u8],
    ) -> Result<Hit, MatchError>
        requires short { length subject.now < 4294967295 }
        requires few { length places.old ≤ 65536 }
        ensures found { IfOk result (λ hit. IsTold self.old.code.value
            (search_of self.old.code.value options.now subject.now start (λ _. pos 0))
            hit places.new mark.new) }
        ensures refused { IfErr result (IsMatchError
            (search_of self.old.code.value options.now subject.now start (λ _. pos 0))) }
        ensures kept { self.new.code.value ≡ self.old.code.value }
    {
        let found = self.code.match_at(
            subject,
            start,
            options,
            &mut self.scratch,
            &mut NoCallouts,
        )?;
        write_places(&found, places);
        Ok(hit_of(&found, mark))
    }

    /// The same in a subject that was looked at before.
    pub(crate) fn find_again(
        &mut self,
        subject: &[u8],
        start: usize,
        options: &MatchOptions,
        places: &mut [Pair],
        mark: &mut [u8],
    ) -> Result<Hit, MatchError>
        requires checked { IsChecked self.old.code.value.tree.options.utf subject.now }
        requires short { length subject.now < 4294967295 }
        requires few { length places.old ≤ 65536 }
        ensures found { IfOk result (λ hit. IsTold self.old.code.value
            (search_of self.old.code.value options.now subject.now start (λ _. pos 0))
            hit places.new mark.new) }
        ensures refused { IfErr result (IsMatchError
            (search_of self.old.code.value options.now subject.now start (λ _. pos 0))) }
        ensures kept { self.new.code.value ≡ self.old.code.value }
    {
        let found = self.code.match_again(
            subject,
            start,
            options,
            &mut self.scratch,
            &mut NoCallouts,
        )?;
        write_places(&found, places);
        Ok(hit_of(&found, mark))
    }

    /// Looks for all ends of a match that begins before the limit or there, and writes as many as
    /// there is room for.
    pub(crate) fn find_ends(
        &self,
        alloc: Global,
        subject: &[u8],
        start: usize,
        options: &MatchOptions,
        limit: u64,
        ends: &mut [u64],
    ) -> EndsAnswer
        requires short { length subject.now < 4294967295 }
        ensures { IsEnds
            (search_of self.now.code.value options.now subject.now start passed_over)
            limit result ends.new }
    {
        let mut lists = Lists::new(alloc);
        let told = all_ends(alloc, &self.code, subject, start, options, &mut lists);
        write_ends(&told, ends);
        ends_answer(&limited_ends(limit, told))
    }

    /// Replaces matches, and writes as much of the text as there is room for.
    pub(crate) fn replace(
        &mut self,
        alloc: Global,
        subject: &[u8],
        start: usize,
        options: &MatchOptions,
        how: &SubstOptions,
        replacement: &[u8],
        out: &mut [u8],
    ) -> SubstAnswer
        requires short { length subject.now < 4294967295 }
        ensures replaced { IsReplaced
            (substituted (pattern_of self.old.code.value.tree) self.old.code.value.tree.names
            options.now how.now subject.now start replacement.now) result out.new }
        ensures kept { self.new.code.value ≡ self.old.code.value }
    {
        let told = self.code.substitute(
            alloc,
            subject,
            start,
            options,
            how,
            replacement,
            &mut self.scratch,
        );
        if let Ok(s) = &told {
            put(s.text.bytes(), out);
        }
        subst_answer(&told)
    }

    /// What is told of the pattern.
    pub(crate) fn told(&self) -> Told
        ensures { result ≡ told_of self.now.code.value }
    {
        told_of(self.code.info(), self.code.options(), self.code.names())
    }

    /// The byte that every match begins with, or -1.
    pub(crate) fn first_byte(&self) -> i32
        ensures { IsFirst self.now.code.value result }
    {
        byte_or_minus_one(self.code.first_byte())
    }

    /// Writes the name of an entry of the name table, counted from 0.
    pub(crate) fn name(&self, i: usize, out: &mut [u8]) -> Named
        ensures { IsName self.now.code.value.tree.names i result out.new }
    {
        let names = self.code.names();
        if i >= names.len() {
            return Named { group: 0, len: 0 };
        }
        Named {
            group: u32::from(names.group(i)),
            len: put(names.name(i), out),
        }
    }

    /// Writes the mark of a number.
    pub(crate) fn mark(&self, id: u32, out: &mut [u8]) -> usize
        ensures { IsText (slice_get self.now.code.value.tree.verb_names id) result out.new }
    {
        put_text(self.code.mark_name(id), out)
    }
}

/// What is told of a match, whose mark is written.
fn hit_of(found: &Found<'_>, mark: &mut [u8]) -> Hit
    ensures top { result.top ≡ top_of found.now.outcome }
    ensures mark { IsMark (mark_of found.now) result.mark mark.new }
{
    Hit {
        top: found.top(),
        mark: put_mark(found.mark(), mark),
    }
}

/// Writes the places of as many groups as there is room for.
fn write_places(found: &Found<'_>, places: &mut [Pair])
    requires few { length places.old ≤ 65536 }
    ensures { ArePlaces found.now.outcome places.new }
{
    for i in 0..places.len() {
        places[i] = pair_of(found.span(i as u32));
    }
}

/// Looks for all ends with a counter of its own.
fn counted<L: Ledger>(
    alloc: Global,
    code: &Code,
    subject: &[u8],
    at: usize,
    options: &MatchOptions,
    lists: &mut Lists,
    blank: Blank,
) -> Result<DfaFound, DfaError>
    requires name { blank.name ≡ L.name }
    requires parts { blank.parts ≡ L.parts }
    requires one { blank.parts ≡ 1 }
    requires short { length subject.now < 4294967295 }
    ensures found { IfOk result (IsDfaFound
        (search_of code.now options.now subject.now at passed_over)) }
    ensures refused { IfErr result (IsDfaError
        (search_of code.now options.now subject.now at passed_over)) }
{
    let mut steps = Steps::<L>::new(blank);
    code.dfa_match(alloc, subject, at, options, lists, &mut steps)
}

/// Looks for all ends.
fn all_ends(
    alloc: Global,
    code: &Code,
    subject: &[u8],
    at: usize,
    options: &MatchOptions,
    lists: &mut Lists,
) -> Result<DfaFound, DfaError>
    requires short { length subject.now < 4294967295 }
    ensures found { IfOk result (IsDfaFound
        (search_of code.now options.now subject.now at passed_over)) }
    ensures refused { IfErr result (IsDfaError
        (search_of code.now options.now subject.now at passed_over)) }
{
    counted::<Brand>(alloc, code, subject, at, options, lists, Blank::new(1))
}

/// The end at a place of a list, 0 behind it.
fn end_at(ends: &EndList, i: usize) -> u64
    ensures { result ≡ end_at ends.now i }
{
    if i < ends.len() { *ends.get(i) } else { 0 }
}

/// Writes as many ends as there is room for, and 0 behind them.
fn write_ends(told: &Result<DfaFound, DfaError>, ends: &mut [u64])
    ensures { AreEnds told.now ends.new }
{
    if let Ok(found) = told {
        write_list(&found.ends, ends);
    }
}

fn write_list(list: &EndList, ends: &mut [u64])
    ensures { (j : ℕ) → j < length ends.new
        → slice_index_or ends.new j 0 ≡ end_at list.now j }
{
    for i in 0..ends.len() {
        ends[i] = end_at(list, i);
    }
}

/// What may be handed to another thread.
fn crosses<T: Send + Sync>() {}

/// A law: a code that is shared may be handed to another thread.
pub fn codes_cross() {
    crosses::<Arc<Code, Global>>()
}
