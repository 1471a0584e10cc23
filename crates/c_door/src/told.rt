//! What C is told.
ghost use Rattle.std.specs.Prelude.{◌≡◌};
ghost use Rattle.c_door.specs.Telling.{error_code, answer_of, pair_of, newline_number, bsr_number, or_zero, told_by};
ghost use Rattle.c_door.specs.Telling.{place_told, mark_told, ends_place, ends_answer, subst_answer, byte_told};

use pcre2_api::{
    Bsr, DfaError, DfaFound, Info, MatchError, NameTable, Newline, Options, Span, SubstError,
    Substituted,
};

/// Why a pattern isn't compiled: the fault's number and its place in bytes (pcre2api, "Error codes
/// from pcre2_compile()").
#[repr(C)]
#[derive(Clone, Copy)]
pub struct Fault {
    pub number: i32,
    pub at: usize,
}

/// What a match is answered by: 0, or PCRE2's number of the refusal (pcre2api, "Error return values
/// from pcre2_match()").
#[repr(C)]
#[derive(Clone, Copy)]
pub struct Answer {
    pub code: i32,
    /// The greatest number of a set group.
    pub top: u32,
    /// Whether there is a mark.
    pub marked: bool,
    /// Of a match the length of its mark, of a refusal the number of the mark.
    pub mark: u64,
    /// Where bad UTF stands, or a partial match begins.
    pub at: usize,
}

/// What is told of a match beside the places of its groups.
#[derive(Clone, Copy)]
pub struct Hit {
    pub top: u32,
    /// The length of its mark.
    pub mark: Option<u64>,
}

/// Where a group's text begins and ends; the greatest numbers where it is unset.
#[repr(C)]
#[derive(Clone, Copy)]
pub struct Pair {
    pub from: u64,
    pub to: u64,
}

/// What a match by all ends is answered by: 0, or PCRE2's number of the refusal (pcre2api, "Error
/// returns from pcre2_dfa_match()").
#[repr(C)]
#[derive(Clone, Copy)]
pub struct EndsAnswer {
    pub code: i32,
    /// Where the match begins, or the partial match, or bad UTF stands.
    pub at: usize,
    /// How many ends there are.
    pub count: usize,
}

/// What a substitution is answered by: 0, or PCRE2's number of the refusal (pcre2api, "Substitution
/// errors").
#[repr(C)]
#[derive(Clone, Copy)]
pub struct SubstAnswer {
    pub code: i32,
    /// How many matches were replaced.
    pub count: u64,
    /// The length of the text in bytes.
    pub len: usize,
}

/// An entry of the name table: its group, 0 where there is no such entry, and the length of its name
/// in bytes.
#[repr(C)]
#[derive(Clone, Copy)]
pub struct Named {
    pub group: u32,
    pub len: usize,
}

/// What is told of a pattern (pcre2api, "Information about a compiled pattern").
#[repr(C)]
#[derive(Clone, Copy)]
pub struct Told {
    pub groups: u32,
    pub max_lookbehind: u32,
    /// The match limit that the pattern sets.
    pub match_limit: u32,
    /// Whether it sets one.
    pub limits: bool,
    pub can_be_empty: bool,
    pub utf: bool,
    pub ucp: bool,
    pub anchored: bool,
    pub no_start_optimize: bool,
    pub newline: u8,
    pub bsr: u8,
    /// How many entries the name table has.
    pub names: usize,
}

fn newline_number(newline: Newline) -> u8
    ensures { result ≡ newline_number newline }
{
    match newline {
        Newline::Cr => 1,
        Newline::Lf => 2,
        Newline::CrLf => 3,
        Newline::Any => 4,
        Newline::AnyCrLf => 5,
        Newline::Nul => 6,
    }
}

fn bsr_number(bsr: Bsr) -> u8
    ensures { result ≡ bsr_number bsr }
{
    match bsr {
        Bsr::Unicode => 1,
        Bsr::AnyCrLf => 2,
    }
}

fn or_zero(n: Option<u32>) -> u32
    ensures { result ≡ or_zero n }
{
    match n {
        Some(n) => n,
        None => 0,
    }
}

fn len_or_zero(len: Option<u64>) -> u64
    ensures { result ≡ or_zero len }
{
    match len {
        Some(len) => len,
        None => 0,
    }
}

pub(crate) fn told_of(info: Info, options: &Options, names: &NameTable) -> Told
    ensures { result ≡ told_by info options.now names.now }
{
    Told {
        groups: info.groups,
        max_lookbehind: info.max_lookbehind,
        match_limit: or_zero(options.match_limit),
        limits: options.match_limit.is_some(),
        can_be_empty: info.can_be_empty,
        utf: options.utf,
        ucp: options.ucp,
        anchored: options.anchored,
        no_start_optimize: options.no_start_optimize,
        newline: newline_number(options.newline),
        bsr: bsr_number(options.bsr),
        names: names.len(),
    }
}

pub(crate) fn fault_of(number: i32, at: usize) -> Fault
    ensures { result ≡ record { number = number; at = at } }
{
    Fault { number, at }
}

/// A byte, or -1.
pub(crate) fn byte_or_minus_one(byte: Option<u8>) -> i32
    ensures { result ≡ byte_told byte }
{
    match byte {
        Some(byte) => i32::from(byte),
        None => -1,
    }
}

fn error_code(e: MatchError) -> i32
    ensures { result ≡ error_code e }
{
    match e {
        MatchError::NoMatch { .. } => -1,
        MatchError::Partial { .. } => -2,
        MatchError::BadUtf { .. } => -3,
        MatchError::BadOffset => -33,
        MatchError::BadUtfOffset => -36,
        MatchError::MatchLimit => -47,
        MatchError::Memory => -48,
        MatchError::RecurseLoop => -52,
        MatchError::FrameLimit => -63,
        MatchError::Callout(n) => n,
    }
}

/// The number of the mark that a refusal tells.
fn mark_told(e: MatchError) -> Option<u32>
    ensures { result ≡ mark_told e }
{
    match e {
        MatchError::NoMatch { mark } | MatchError::Partial { mark, .. } => mark,
        _ => None,
    }
}

fn place_told(e: MatchError) -> usize
    ensures { result ≡ place_told e }
{
    match e {
        MatchError::BadUtf { at } => at,
        MatchError::Partial { start, .. } => start,
        _ => 0,
    }
}

pub(crate) fn answer_of(told: Result<Hit, MatchError>) -> Answer
    ensures { result ≡ answer_of told }
{
    match told {
        Ok(hit) => Answer {
            code: 0,
            top: hit.top,
            marked: hit.mark.is_some(),
            mark: len_or_zero(hit.mark),
            at: 0,
        },
        Err(e) => {
            let mark = mark_told(e);
            Answer {
                code: error_code(e),
                top: 0,
                marked: mark.is_some(),
                mark: u64::from(or_zero(mark)),
                at: place_told(e),
            }
        }
    }
}

pub(crate) fn pair_of(span: Option<Span>) -> Pair
    ensures { result ≡ pair_of span }
{
    match span {
        Some(span) => Pair {
            from: span.from,
            to: span.to,
        },
        None => Pair {
            from: u64::MAX,
            to: u64::MAX,
        },
    }
}

fn ends_place(e: DfaError) -> usize
    ensures { result ≡ ends_place e }
{
    match e {
        DfaError::BadUtf { at } => at,
        DfaError::Partial { start, .. } => start,
        _ => 0,
    }
}

pub(crate) fn ends_answer(told: &Result<DfaFound, DfaError>) -> EndsAnswer
    ensures { result ≡ ends_answer told.now }
{
    match told {
        Ok(found) => EndsAnswer {
            code: 0,
            at: found.start,
            count: found.ends.len(),
        },
        Err(e) => EndsAnswer {
            code: e.number(),
            at: ends_place(*e),
            count: 0,
        },
    }
}

pub(crate) fn subst_answer(told: &Result<Substituted, SubstError>) -> SubstAnswer
    ensures { result ≡ subst_answer told.now }
{
    match told {
        Ok(s) => SubstAnswer {
            code: 0,
            count: s.count,
            len: s.text.len(),
        },
        Err(e) => SubstAnswer {
            code: e.number(),
            count: 0,
            len: 0,
        },
    }
}
