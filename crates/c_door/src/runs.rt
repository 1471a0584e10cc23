//! Searches in a subject that may hold bad UTF-8 (pcre2unicode, "Matching in invalid UTF strings").
ghost use Rattle.std.specs.Prelude.{◌≡◌, ◌≤◌, ◌<◌, length, slice_range, true, None, ℕ};
ghost use Rattle.uni_text.specs.Characters.{IsChecked};
ghost use Rattle.c_door.specs.Runs.{run_from, goes_on, IsBegin, options_in, is_passed, IsToldIn, missed, or_else};
ghost use Rattle.c_door.specs.Runs.{AreTold};

use crate::engine::Engine;
use crate::told::{Hit, Pair};
use pcre2_api::{MatchError, MatchOptions, PartialMode};
use uni_text::check;

/// A part of a subject that is UTF-8, from a place in bytes to another one.
#[repr(C)]
#[derive(Clone, Copy)]
pub struct Run {
    pub from: usize,
    pub to: usize,
}

/// What a search of all runs answers, and the run that tells it.
#[derive(Clone, Copy)]
pub(crate) struct Runs {
    pub run: Run,
    pub told: Result<Hit, MatchError>,
}

/// The run that begins at a place.
fn run_from(text: &[u8], from: usize) -> Run
    requires { from ≤ length text.now }
    ensures run { result ≡ run_from text.now from }
    ensures within { result.to ≤ length text.now }
    ensures checked { IsChecked true (slice_range text.now from result.to) }
{
    match check(&text[from..]) {
        Ok(()) => Run {
            from,
            to: text.len(),
        },
        Err(bad) => Run {
            from,
            to: from + bad.at,
        },
    }
}

/// Whether a character goes on with this byte.
fn goes_on(byte: u8) -> bool
    ensures { result ≡ goes_on byte }
{
    byte >= 128 && byte < 192
}

/// Where a search from a start on begins.
fn begin_of(text: &[u8], start: usize) -> usize
    requires { start ≤ length text.now }
    ensures { IsBegin text.now start result }
{
    let mut at = start;
    while at < text.len() && goes_on(text[at]) {
        at += 1;
    }
    at
}

/// The options of a search in a run from a place on.
fn options_in(
    options: &MatchOptions,
    text: &[u8],
    start: usize,
    run: Run,
    at: usize,
) -> MatchOptions
    ensures { result ≡ options_in options.now text.now start run at }
{
    let is_inner = run.to < text.len();
    MatchOptions {
        notbol: options.notbol || run.from > 0,
        noteol: options.noteol || is_inner,
        notempty_atstart: options.notempty_atstart && at == start,
        partial: if is_inner {
            PartialMode::Off
        } else {
            options.partial
        },
        ..*options
    }
}

/// Whether a run isn't searched.
fn is_passed(begin: usize, run: Run) -> bool
    ensures { result ≡ is_passed begin run }
{
    run.to < begin || begin < run.from && run.to == run.from
}

/// The last name that was met where there is no match.
fn missed(told: &Result<Hit, MatchError>) -> Option<Option<u32>>
    ensures { result ≡ missed told.now }
{
    match told {
        Err(MatchError::NoMatch { mark }) => Some(*mark),
        _ => None,
    }
}

/// A number, or another one where there is none.
fn or_else(number: Option<u32>, other: Option<u32>) -> Option<u32>
    ensures { result ≡ or_else number other }
{
    match number {
        Some(n) => Some(n),
        None => other,
    }
}

impl Engine {
    /// Looks for a match in a run.
    fn find_in(
        &mut self,
        subject: &[u8],
        start: usize,
        begin: usize,
        run: Run,
        options: &MatchOptions,
        places: &mut [Pair],
        mark: &mut [u8],
    ) -> Result<Hit, MatchError>
        requires run { run.from ≤ run.to }
        requires within { run.to ≤ length subject.now }
        requires checked { IsChecked true (slice_range subject.now run.from run.to) }
        requires short { length subject.now < 4294967295 }
        requires few { length places.old ≤ 65536 }
        ensures told { IsToldIn self.old.code.value options.now subject.now start begin
            places.new mark.new run result }
        ensures kept { self.new.code.value ≡ self.old.code.value }
    {
        if is_passed(begin, run) {
            return Err(MatchError::NoMatch { mark: None });
        }
        let at = begin.max(run.from);
        let options = options_in(options, subject, start, run, at);
        self.find_again(
            &subject[run.from..run.to],
            at - run.from,
            &options,
            places,
            mark,
        )
    }

    /// Looks for a match in one run after another.
    pub(crate) fn find_in_runs(
        &mut self,
        subject: &[u8],
        start: usize,
        options: &MatchOptions,
        places: &mut [Pair],
        mark: &mut [u8],
    ) -> Runs
        requires begun { start ≤ length subject.now }
        requires short { length subject.now < 4294967295 }
        requires few { length places.old ≤ 65536 }
        ensures told { (begin : ℕ) × IsBegin subject.now start begin
            × AreTold subject.now (IsToldIn self.old.code.value options.now subject.now start begin
            places.new mark.new) 0 None result.run result.told }
        ensures kept { self.new.code.value ≡ self.old.code.value }
    {
        let begin = begin_of(subject, start);
        let mut from = 0;
        let mut seen = None;
        'run: loop {
            let run = run_from(subject, from);
            let told = self.find_in(subject, start, begin, run, options, places, mark);
            let Some(last) = missed(&told) else {
                return Runs { run, told };
            };
            seen = or_else(last, seen);
            if run.to >= subject.len() {
                let told = Err(MatchError::NoMatch { mark: seen });
                return Runs { run, told };
            }
            from = run.to + 1;
        }
    }
}
