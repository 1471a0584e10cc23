//! The patterns that are searched for.
ghost use Rattle.std.specs.Prelude.{◌≡◌, ◌<◌, [], ◌∷◌, ◌++◌, length, map, flat_map, IfOk, IfErr, OnOk, Ok, IsTrue};
ghost use Rattle.grep_match.specs.PatternTexts.{escaped, wrapped, fixed_strings, pattern_texts, options_of, line_end};
ghost use Rattle.pat_tree.specs.declared.options.Options.{Options};
ghost use Rattle.pat_tree.specs.Pattern.{pattern_of};
ghost use Rattle.grep_match.specs.Spelt.{spelling, IsSpelling, IsSpelt};
ghost use Rattle.grep_match.specs.Compiled.{patterns_of, patterns_in, pattern_in, meant, AreKept, IsPatternError, Adds};

use crate::ending::line_end;
use byte_lanes::find_line_end;
use grep_args::GrepPlan;
use pat_tree::TextList;
use pcre_io::Memory;
use pcre2_api::{Code, CompileError, Options};
use std::alloc::Global;
use std::marker::Model;

/// A pattern as it is kept.
#[derive(Drop)]
pub enum Kept {
    /// Compiled.
    Code(Box<Code>),
    /// A fixed string, which is compiled where it is found in a line: of many nearly none are.
    Text(Vec<u8>),
}

/// The patterns of a plan, compiled or kept as fixed strings.
#[derive(Drop)]
pub struct Patterns {
    kept: Vec<Kept>,
    options: Options,
    alloc: Global,
}

// Of more texts than these nearly none is found in a line.
const MANY: usize = 1_024;

// A longer fixed string isn't kept as its text: with its backslashes it may be too long for a pattern.
const LONGEST: usize = 32_768;

/// Why patterns aren't compiled.
#[derive(Clone, Copy, Debug, PartialEq, Eq)]
pub enum PatternError {
    /// The first pattern that is refused, counted from 1, with the number of its fault and its place in bytes.
    Bad {
        pattern: u64,
        number: i32,
        at: usize,
    },
    /// Want of memory.
    Memory,
}

impl From<Memory> for PatternError {
    ghost from_gives = { λ _ e. e ≡ told.Memory };

    ghost use Rattle.std.specs.Prelude.{◌≡◌};
    ghost use Rattle.grep_match.specs.declared.patterns.PatternError.TheVariants as told;

    fn from(_e: Memory) -> PatternError {
        PatternError::Memory
    }
}

// a byte below 128 that is neither a letter nor a digit gets a backslash
fn push_escaped(text: &mut Vec<u8>, byte: u8) -> Result<(), Memory>
    ensures { OnOk result (text.new.items ≡ text.old.items ++ escaped byte) }
{
    if byte < 128 && !byte.is_ascii_alphanumeric() {
        text.push(b'\\')?;
    }
    text.push(byte)?;
    Ok(())
}

// A fixed string as a pattern.
fn escape(alloc: Global, line: &[u8]) -> Result<Vec<u8>, Memory>
    ensures { IfOk result (λ text. text.items ≡ flat_map escaped line.now) }
{
    let mut text = Vec::new(alloc);
    for byte in line {
        push_escaped(&mut text, *byte)?;
    }
    Ok(text)
}

// A pattern with what stands before it and after it.
fn enclose(alloc: Global, before: &[u8], text: &[u8], after: &[u8]) -> Result<Vec<u8>, Memory>
    ensures { IfOk result (λ whole. whole.items ≡ before.now ++ text.now ++ after.now) }
{
    let mut whole = Vec::from_slice(alloc, before)?;
    whole.extend_from_slice(text)?;
    whole.extend_from_slice(after)?;
    Ok(whole)
}

// The pattern for whole lines under `-x`, or for whole words under `-w`.
fn wrap(alloc: Global, plan: &GrepPlan, text: &[u8]) -> Result<Vec<u8>, Memory>
    ensures { IfOk result (λ whole. whole.items ≡ wrapped plan.now text.now) }
{
    if plan.line_regex {
        enclose(alloc, b"^(?:", text, b")$")
    } else if plan.word_regex {
        enclose(alloc, b"\\b(?:", text, b")\\b")
    } else {
        enclose(alloc, b"", text, b"")
    }
}

// Compiles a fixed string of which each byte stands for itself.
fn spell(alloc: Global, options: Options, text: &[u8]) -> Result<Code, Memory>
    requires { IsSpelling options text.now }
    ensures { IfOk result (λ code. pattern_of code.tree ≡ spelling options text.now) }
{
    let string = escape(alloc, text)?;
    match Code::compile(alloc, string.as_slice(), options) {
        Ok(code) => Ok(code),
        Err(_) => Err(Memory),
    }
}

// The options of all patterns.
fn options_of(plan: &GrepPlan) -> Options
    ensures { result ≡ options_of plan.now }
{
    Options {
        caseless: plan.ignore_case,
        utf: plan.utf,
        newline: plan.newline,
        ..Options::PLAIN
    }
}

// Whether a fixed string may be kept as its text: each of its bytes stands for itself.
fn is_spelt(plan: &GrepPlan, line: &[u8]) -> bool
    ensures { IsTrue result → IsSpelt plan.now line.now }
{
    !plan.ignore_case && !plan.utf && !plan.line_regex && !plan.word_regex && line.len() <= LONGEST
}

// Adds a pattern to the others.
fn push(patterns: &mut Vec<Kept>, pattern: Kept) -> Result<(), Memory>
    ensures { OnOk result (patterns.new.items ≡ patterns.old.items ++ pattern ∷ []) }
{
    patterns.push(pattern)?;
    Ok(())
}

// Adds a pattern that is compiled.
fn push_code(alloc: Global, patterns: &mut Vec<Kept>, code: Code) -> Result<(), Memory>
    ensures adds { OnOk result ((options : Options) → meant options patterns.new.items
        ≡ meant options patterns.old.items ++ pattern_of code.tree ∷ []) }
    ensures kept { (options : Options) → AreKept options patterns.old.items
        → OnOk result (AreKept options patterns.new.items) }
{
    let code = Box::new(alloc, code)?;
    push(patterns, Kept::Code(code))?;
    Ok(())
}

// Adds a fixed string that is kept as its text.
fn push_text(alloc: Global, patterns: &mut Vec<Kept>, text: &[u8]) -> Result<(), Memory>
    ensures adds { OnOk result ((options : Options) → meant options patterns.new.items
        ≡ meant options patterns.old.items ++ spelling options text.now ∷ []) }
    ensures kept { (options : Options) → IsSpelling options text.now
        → AreKept options patterns.old.items → OnOk result (AreKept options patterns.new.items) }
{
    let text = text.to_vec(alloc)?;
    push(patterns, Kept::Text(text))?;
    Ok(())
}

// Compiles one more pattern.
fn add(
    alloc: Global,
    plan: &GrepPlan,
    text: &[u8],
    patterns: &mut Vec<Kept>,
) -> Result<(), PatternError>
    ensures adds { Adds (options_of plan.now) (wrapped plan.now text.now ∷ [])
        (meant (options_of plan.now) patterns.old.items)
        (meant (options_of plan.now) patterns.new.items) result }
    ensures kept { AreKept (options_of plan.now) patterns.old.items
        → OnOk result (AreKept (options_of plan.now) patterns.new.items) }
{
    let whole = wrap(alloc, plan, text)?;
    match Code::compile(alloc, whole.as_slice(), options_of(plan)) {
        Ok(code) => {
            push_code(alloc, patterns, code)?;
            Ok(())
        }
        Err(CompileError::Bad { number, at }) => Err(PatternError::Bad {
            pattern: patterns.len() as u64 + 1,
            number,
            at,
        }),
        Err(CompileError::Memory) => Err(PatternError::Memory),
    }
}

// Adds one more fixed string, as its text where many are given.
fn add_string(
    alloc: Global,
    plan: &GrepPlan,
    is_one_of_many: bool,
    line: &[u8],
    patterns: &mut Vec<Kept>,
) -> Result<(), PatternError>
    ensures adds { Adds (options_of plan.now) (wrapped plan.now (flat_map escaped line.now) ∷ [])
        (meant (options_of plan.now) patterns.old.items)
        (meant (options_of plan.now) patterns.new.items) result }
    ensures kept { AreKept (options_of plan.now) patterns.old.items
        → OnOk result (AreKept (options_of plan.now) patterns.new.items) }
{
    if is_one_of_many && is_spelt(plan, line) {
        push_text(alloc, patterns, line)?;
        return Ok(());
    }
    let string = escape(alloc, line)?;
    add(alloc, plan, string.as_slice(), patterns)
}

// Adds each line of a text as a fixed string.
fn add_lines(
    alloc: Global,
    plan: &GrepPlan,
    is_one_of_many: bool,
    text: &[u8],
    patterns: &mut Vec<Kept>,
) -> Result<(), PatternError>
    requires { 0 < length text.now }
    ensures adds { Adds (options_of plan.now) (map (wrapped plan.now)
        (fixed_strings (line_end plan.now) text.now)) (meant (options_of plan.now) patterns.old.items)
        (meant (options_of plan.now) patterns.new.items) result }
    ensures kept { AreKept (options_of plan.now) patterns.old.items
        → OnOk result (AreKept (options_of plan.now) patterns.new.items) }
{
    let kind = line_end(plan);
    let mut rest = text;
    'line: while !rest.is_empty() {
        let end = find_line_end(rest, 0, kind);
        match add_string(alloc, plan, is_one_of_many, &rest[..end.at], patterns) {
            Ok(()) => {}
            Err(e) => return Err(e),
        }
        rest = &rest[end.at + end.len..];
    }
    Ok(())
}

// Adds the patterns that a text stands for.
fn add_text(
    alloc: Global,
    plan: &GrepPlan,
    is_one_of_many: bool,
    text: &[u8],
    patterns: &mut Vec<Kept>,
) -> Result<(), PatternError>
    ensures adds { Adds (options_of plan.now) (pattern_texts plan.now (text.now ∷ []))
        (meant (options_of plan.now) patterns.old.items)
        (meant (options_of plan.now) patterns.new.items) result }
    ensures kept { AreKept (options_of plan.now) patterns.old.items
        → OnOk result (AreKept (options_of plan.now) patterns.new.items) }
{
    if plan.fixed_strings && !text.is_empty() {
        add_lines(alloc, plan, is_one_of_many, text, patterns)
    } else {
        add(alloc, plan, text, patterns)
    }
}

impl Model for Patterns {
    ghost use Rattle.grep_match.specs.Compiled.{Keeping, AreKept};

    ghost Value = { Keeping };

    ghost view = { λ p. record { options = p.options; kept = p.kept.items } };

    ghost invariant = { λ p. AreKept p.options p.kept.items };
}

impl Patterns {
    /// Compiles the patterns of a plan: `texts` are those of the plan, and then those of its pattern files (pcre2grep,
    /// "OPTIONS", `-e`, `-f`, `-F`, `-w` and `-x`). Refuses the first one that isn't a pattern.
    pub fn build(alloc: Global, plan: &GrepPlan, texts: &TextList) -> Result<Patterns, PatternError>
        ensures built { IfOk result (λ patterns. patterns_of plan.now texts.now ≡ Ok
            (patterns_in patterns)) }
        ensures refused { IfErr result (IsPatternError (patterns_of plan.now texts.now)) }
    {
        let mut kept = Vec::new(alloc);
        let are_many = texts.len() > MANY;
        for text in texts.as_slice() {
            match add_text(alloc, plan, are_many, text.bytes(), &mut kept) {
                Ok(()) => {}
                Err(e) => return Err(e),
            }
        }
        Ok(Patterns {
            kept,
            options: options_of(plan),
            alloc,
        })
    }

    /// How many there are.
    pub fn len(&self) -> usize
        ensures { result ≡ length self.now.kept }
    {
        self.kept.len()
    }

    // The patterns in order.
    pub(crate) fn kept(&self) -> &[Kept]
        ensures value { result.now ≡ self.now.kept }
        ensures kept { AreKept self.now.options self.now.kept }
    {
        self.kept.as_slice()
    }

    // Whether a pattern is in UTF, also by its first item.
    pub(crate) fn is_utf(&self, kept: &Kept) -> bool
        ensures { result ≡ (pattern_in self.now.options kept.now).options.utf }
    {
        match kept {
            Kept::Code(code) => code.options().utf,
            Kept::Text(_) => self.options.utf,
        }
    }

    // Compiles a fixed string that is kept as its text.
    pub(crate) fn spell(&self, text: &[u8]) -> Result<Code, Memory>
        requires { IsSpelling self.now.options text.now }
        ensures { IfOk result (λ code. pattern_of code.tree ≡ spelling self.now.options text.now) }
    {
        spell(self.alloc, self.options, text)
    }
}
