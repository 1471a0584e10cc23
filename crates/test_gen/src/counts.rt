//! What patterns come to over all lines. Each count makes the lines anew, so one line is held at a time.
ghost use Rattle.std.specs.Prelude.{◌≡◌, ◌<◌, List, None, IfOk, OnOk, length};
ghost use Rattle.pat_tree.specs.declared.names.NameEntry.{NameEntry};
ghost use Rattle.pcre2_errors.specs.declared.dfa_error.DfaError.TheVariants as dfa_error;
ghost use Rattle.pcre2_errors.specs.declared.error.MatchError.TheVariants as match_error;
ghost use Rattle.pcre2_errors.specs.declared.subst_error.SubstError.TheVariants as subst_error;
ghost use Rattle.test_gen.specs.Counts.{pattern, names, pattern_in, IsNamed, first_length, lines_matched, characters};
ghost use Rattle.test_gen.specs.Counts.{ends_in, all_ends, replacements_in, replacements};

use crate::lines::Generator;
use pcre_io::{Memory, NoCallouts};
use pcre2_api::{
    Code, CompileError, DfaError, Lists, MatchError, MatchOptions, Options, Scratch, Steps,
    SubstError, SubstOptions,
};
use std::alloc::Global;
use std::marker::Brand;
use std::sync::ledger::{Blank, Ledger};

/// What a pattern finds in the lines.
#[derive(Clone, Copy)]
pub struct Finds {
    /// How many lines it matches.
    pub lines: u64,
    /// How many characters their first matches have.
    pub characters: u128,
}

// All matches are replaced.
const EVERYWHERE: SubstOptions = SubstOptions {
    global: true,
    ..SubstOptions::PLAIN
};

// A pattern without options. One that is refused finds nothing.
fn compile(alloc: Global, text: &[u8]) -> Result<Option<Code>, Memory>
    ensures pattern { IfOk result (λ code. pattern_in code ≡ pattern text.now) }
    ensures names { IfOk result (λ code. IsNamed code (names text.now)) }
{
    match Code::compile(alloc, text, Options::PLAIN) {
        Ok(code) => Ok(Some(code)),
        Err(CompileError::Bad { .. }) => Ok(None),
        Err(CompileError::Memory) => Err(Memory),
    }
}

// There is no match, unless memory lacked.
fn no_match(e: MatchError) -> Result<Option<usize>, Memory>
    ensures none { IfOk result (λ found. found ≡ None) }
    ensures told { OnOk result (e ≡ match_error.Memory → ⊥) }
{
    match e {
        MatchError::Memory => Err(Memory),
        _ => Ok(None),
    }
}

// The length of the first match of a line, if there is one.
fn first_length(
    code: &Option<Code>,
    line: &[u8],
    scratch: &mut Scratch,
) -> Result<Option<usize>, Memory>
    requires { length line.now ≡ 12 }
    ensures { IfOk result (λ found. found ≡ first_length (pattern_in code.now) line.now) }
{
    let Some(code) = code else {
        return Ok(None);
    };
    match code.match_at(line, 0, &MatchOptions::PLAIN, scratch, &mut NoCallouts) {
        Ok(found) => Ok(Some(found.end() - found.start())),
        Err(e) => no_match(e),
    }
}

// Counts what a pattern finds in so many lines.
fn finds_of(alloc: Global, code: &Option<Code>, lines: u32) -> Result<Finds, Memory>
    ensures lines { IfOk result (λ found.
        found.lines ≡ lines_matched (pattern_in code.now) lines) }
    ensures characters { IfOk result (λ found.
        found.characters ≡ characters (pattern_in code.now) lines) }
{
    let mut scratch = Scratch::new(alloc);
    let mut generator = Generator::new();
    let mut matched: u64 = 0;
    // so wide that no sum of that many lengths is past its end
    let mut characters: u128 = 0;
    for _line in 0..lines {
        let line = generator.next_line(alloc)?;
        let found = first_length(code, line.as_slice(), &mut scratch)?;
        matched += u64::from(found.is_some());
        characters += found.unwrap_or(0) as u128;
    }
    Ok(Finds {
        lines: matched,
        characters,
    })
}

/// Counts what a pattern finds in so many lines.
pub fn count_matches(alloc: Global, text: &[u8], lines: u32) -> Result<Finds, Memory>
    ensures lines { IfOk result (λ found. found.lines ≡ lines_matched (pattern text.now) lines) }
    ensures characters { IfOk result (λ found.
        found.characters ≡ characters (pattern text.now) lines) }
{
    let code = compile(alloc, text)?;
    finds_of(alloc, &code, lines)
}

// There are no ends, unless memory lacked.
fn no_ends(e: DfaError) -> Result<usize, Memory>
    ensures none { IfOk result (λ count. count ≡ 0) }
    ensures told { OnOk result (e ≡ dfa_error.Memory → ⊥) }
{
    match e {
        DfaError::Memory => Err(Memory),
        _ => Ok(0),
    }
}

// How many ends a line has at its first place that has any.
fn ends_in<L: Ledger>(
    alloc: Global,
    code: &Option<Code>,
    line: &[u8],
    lists: &mut Lists,
    steps: &mut Steps<L>,
) -> Result<usize, Memory>
    requires { length line.now ≡ 12 }
    ensures { IfOk result (λ count. count ≡ ends_in (pattern_in code.now) line.now) }
{
    let Some(code) = code else {
        return Ok(0);
    };
    match code.dfa_match(alloc, line, 0, &MatchOptions::PLAIN, lists, steps) {
        Ok(found) => Ok(found.ends.as_slice().len()),
        Err(e) => no_ends(e),
    }
}

// Counts the ends in so many lines. Steps are counted in a ledger.
fn ends_of<L: Ledger>(
    alloc: Global,
    code: &Option<Code>,
    lines: u32,
    blank: Blank,
) -> Result<u128, Memory>
    requires name { blank.name ≡ L.name }
    requires parts { blank.parts ≡ L.parts }
    requires some { 0 < blank.parts }
    ensures { IfOk result (λ count. count ≡ all_ends (pattern_in code.now) lines) }
{
    let mut lists = Lists::new(alloc);
    let mut steps: Steps<L> = Steps::new(blank);
    let mut generator = Generator::new();
    // so wide that no sum of that many counts is past its end
    let mut count: u128 = 0;
    for _line in 0..lines {
        let line = generator.next_line(alloc)?;
        count += ends_in(alloc, code, line.as_slice(), &mut lists, &mut steps)? as u128;
    }
    Ok(count)
}

/// Counts the ends that the DFA matcher finds in so many lines.
pub fn count_ends(alloc: Global, text: &[u8], lines: u32) -> Result<u128, Memory>
    ensures { IfOk result (λ count. count ≡ all_ends (pattern text.now) lines) }
{
    let code = compile(alloc, text)?;
    ends_of::<Brand>(alloc, &code, lines, Blank::new(1))
}

// Nothing is replaced, unless memory lacked.
fn no_replacement(e: SubstError) -> Result<u64, Memory>
    ensures none { IfOk result (λ count. count ≡ 0) }
    ensures told { OnOk result (e ≡ subst_error.Memory → ⊥) }
{
    match e {
        SubstError::Memory => Err(Memory),
        _ => Ok(0),
    }
}

// How many matches of a line are replaced.
fn replacements_in(
    alloc: Global,
    code: &Option<Code>,
    replacement: &[u8],
    line: &[u8],
    scratch: &mut Scratch,
) -> Result<u64, Memory>
    requires { length line.now ≡ 12 }
    ensures { (names : List NameEntry) → IsNamed code.now names → IfOk result (λ count.
        count ≡ replacements_in (pattern_in code.now) names replacement.now line.now) }
{
    let Some(code) = code else {
        return Ok(0);
    };
    let plain = MatchOptions::PLAIN;
    match code.substitute(alloc, line, 0, &plain, &EVERYWHERE, replacement, scratch) {
        Ok(done) => Ok(done.count),
        Err(e) => no_replacement(e),
    }
}

// Counts the matches that are replaced in so many lines.
fn replacements_of(
    alloc: Global,
    code: &Option<Code>,
    replacement: &[u8],
    lines: u32,
) -> Result<u128, Memory>
    ensures { (names : List NameEntry) → IsNamed code.now names → IfOk result (λ count. count
        ≡ replacements (pattern_in code.now) names replacement.now lines) }
{
    let mut scratch = Scratch::new(alloc);
    let mut generator = Generator::new();
    // so wide that no sum of that many counts is past its end
    let mut count: u128 = 0;
    for _line in 0..lines {
        let line = generator.next_line(alloc)?;
        let line = line.as_slice();
        count += replacements_in(alloc, code, replacement, line, &mut scratch)? as u128;
    }
    Ok(count)
}

/// Counts the matches that are replaced in so many lines.
pub fn count_replacements(
    alloc: Global,
    text: &[u8],
    replacement: &[u8],
    lines: u32,
) -> Result<u128, Memory>
    ensures { IfOk result (λ count. count
        ≡ replacements (pattern text.now) (names text.now) replacement.now lines) }
{
    let code = compile(alloc, text)?;
    replacements_of(alloc, &code, replacement, lines)
}
