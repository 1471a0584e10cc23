//! Which names are allowed.
ghost use Rattle.std.specs.Prelude.{◌≡◌, ◌<◌, ◌∷◌, ◌++◌, [], length, IfOk, IfErr, OnOk, Ok};
ghost use Rattle.pat_tree.specs.declared.options.TheConstants.MatchOptions as plain_match;
ghost use Rattle.pat_tree.specs.Pattern.{pattern_of};
ghost use Rattle.pcre2_api.specs.Answers.{pattern_answer};
ghost use Rattle.grep_targets.specs.Filters.{allows, choice_of, compiled_from, filter_in, filter_of, is_found};
ghost use Rattle.grep_targets.specs.Filters.{is_match, matches_one, patterns_in, IsFilterError};
ghost use Rattle.grep_targets.specs.Paths.{name_of};
ghost use Rattle.grep_targets.specs.Targets.{allows_file, allows_directory};

use crate::paths::name_of;
use grep_args::{FilterOption, GrepPlan};
use pat_tree::TextList;
use pcre_io::Memory;
use pcre2_api::{Code, CompileError, MatchError, MatchOptions, NoCallouts, Options, Scratch};
use std::alloc::Global;
use std::marker::Model;

/// A name must be shorter than this to be searched.
const LONGEST: usize = 4_294_967_295;

/// The patterns for the names of files and of directories, compiled.
#[derive(Drop)]
pub struct NameFilter {
    include: Vec<Code>,
    exclude: Vec<Code>,
    include_dir: Vec<Code>,
    exclude_dir: Vec<Code>,
}

/// Why a filter isn't made.
#[derive(Clone, Copy, Debug, PartialEq, Eq)]
pub enum FilterError {
    /// The first pattern that is refused: its option, its number there, counted from 1, the number of its fault and its
    /// place in bytes.
    Bad {
        option: FilterOption,
        index: u64,
        number: i32,
        at: usize,
    },
    /// Want of memory.
    Memory,
}

impl From<Memory> for FilterError {
    ghost from_gives = { λ _ e. e ≡ told.Memory };

    ghost use Rattle.std.specs.Prelude.{◌≡◌};
    ghost use Rattle.grep_targets.specs.declared.filters.FilterError.TheVariants as told;

    fn from(_e: Memory) -> FilterError {
        FilterError::Memory
    }
}

impl Model for NameFilter {
    ghost use Rattle.grep_targets.specs.Filters.{FilterCodes};

    ghost Value = { FilterCodes };

    ghost view = { λ filter. record {
      include = filter.include.items;
      exclude = filter.exclude.items;
      include_dir = filter.include_dir.items;
      exclude_dir = filter.exclude_dir.items;
    } };
}

// Compiles a pattern with default options.
fn compile(
    alloc: Global,
    option: FilterOption,
    index: u64,
    text: &[u8],
) -> Result<Code, FilterError>
    ensures compiled { IfOk result (λ code. compiled_from option index (text.now ∷ [])
        ≡ Ok (patterns_in (code ∷ []))) }
    ensures refused { IfErr result (IsFilterError (compiled_from option index (text.now ∷ []))) }
{
    match Code::compile(alloc, text, Options::PLAIN) {
        Ok(code) => Ok(code),
        Err(CompileError::Bad { number, at }) => Err(FilterError::Bad {
            option,
            index,
            number,
            at,
        }),
        Err(CompileError::Memory) => Err(FilterError::Memory),
    }
}

// Adds a pattern to the others.
fn push(codes: &mut Vec<Code>, code: Code) -> Result<(), Memory>
    ensures { OnOk result (codes.new.items ≡ codes.old.items ++ code ∷ []) }
{
    codes.push(code)?;
    Ok(())
}

// Compiles the patterns of an option, up to the first that is refused.
fn compile_all(
    alloc: Global,
    option: FilterOption,
    texts: &TextList,
) -> Result<Vec<Code>, FilterError>
    ensures compiled { IfOk result (λ codes. compiled_from option 1 texts.now
        ≡ Ok (patterns_in codes.items)) }
    ensures refused { IfErr result (IsFilterError (compiled_from option 1 texts.now)) }
{
    let mut codes = Vec::new(alloc);
    for text in texts.as_slice() {
        let index = codes.len() as u64 + 1;
        match compile(alloc, option, index, text.bytes()) {
            Ok(code) => push(&mut codes, code)?,
            Err(e) => return Err(e),
        }
    }
    Ok(codes)
}

// Whether a match is found in a name.
fn finds(code: &Code, name: &[u8], scratch: &mut Scratch) -> Result<bool, Memory>
    requires { length name.now < 4294967295 }
    ensures { IfOk result (λ b. b ≡ is_found (pattern_answer plain_match.PLAIN name.now 0
        (pattern_of code.now.tree))) }
{
    match code.match_at(name, 0, &MatchOptions::PLAIN, scratch, &mut NoCallouts) {
        Ok(_) => Ok(true),
        Err(MatchError::Memory) => Err(Memory),
        Err(_) => Ok(false),
    }
}

// Whether a name matches a pattern.
fn is_match(code: &Code, name: &[u8], scratch: &mut Scratch) -> Result<bool, Memory>
    ensures { IfOk result (λ b. b ≡ is_match name.now (pattern_of code.now.tree)) }
{
    if name.len() < LONGEST {
        finds(code, name, scratch)
    } else {
        Ok(false)
    }
}

// Whether a name matches one of the patterns.
fn matches_one(codes: &[Code], name: &[u8], scratch: &mut Scratch) -> Result<bool, Memory>
    ensures { IfOk result (λ b. b ≡ matches_one name.now (patterns_in codes.now)) }
{
    let mut rest = codes;
    'code: loop {
        let [code, more @ ..] = rest else {
            return Ok(false);
        };
        if is_match(code, name, scratch)? {
            return Ok(true);
        }
        rest = more;
    }
}

// Whether the patterns allow a path, by its last component.
fn allows(alloc: Global, include: &[Code], exclude: &[Code], path: &str) -> Result<bool, Memory>
    ensures { IfOk result (λ b. b ≡ allows
        (choice_of (patterns_in include.now) (patterns_in exclude.now)) (name_of path.now)) }
{
    let name = name_of(path.as_bytes());
    let mut scratch = Scratch::new(alloc);
    if matches_one(exclude, name, &mut scratch)? {
        Ok(false)
    } else if include.is_empty() {
        Ok(true)
    } else {
        matches_one(include, name, &mut scratch)
    }
}

impl NameFilter {
    /// Compiles the patterns of a plan (pcre2grep, "OPTIONS", `--include`, `--exclude`, `--include-dir` and
    /// `--exclude-dir`), in this order of the options. Refuses the first one that isn't a pattern.
    pub fn build(alloc: Global, plan: &GrepPlan) -> Result<NameFilter, FilterError>
        ensures built { IfOk result (λ filter. filter_of plan.now ≡ Ok (filter_in filter)) }
        ensures refused { IfErr result (IsFilterError (filter_of plan.now)) }
    {
        let include = compile_all(alloc, FilterOption::Include, &plan.include)?;
        let exclude = compile_all(alloc, FilterOption::Exclude, &plan.exclude)?;
        let include_dir = compile_all(alloc, FilterOption::IncludeDir, &plan.include_dir)?;
        let exclude_dir = compile_all(alloc, FilterOption::ExcludeDir, &plan.exclude_dir)?;
        Ok(NameFilter {
            include,
            exclude,
            include_dir,
            exclude_dir,
        })
    }

    /// Whether a file is allowed by the last component of its path. Want of memory is answered where a search wants it.
    pub fn allows_file(&self, alloc: Global, path: &str) -> Result<bool, Memory>
        ensures { IfOk result (λ b. b ≡ allows_file (filter_in self.now) path.now) }
    {
        allows(
            alloc,
            self.include.as_slice(),
            self.exclude.as_slice(),
            path,
        )
    }

    /// Whether a directory is allowed by the last component of its path.
    pub fn allows_directory(&self, alloc: Global, path: &str) -> Result<bool, Memory>
        ensures { IfOk result (λ b. b ≡ allows_directory (filter_in self.now) path.now) }
    {
        allows(
            alloc,
            self.include_dir.as_slice(),
            self.exclude_dir.as_slice(),
            path,
        )
    }
}
