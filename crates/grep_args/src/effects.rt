//! What each option does to the plan.
ghost use Rattle.std.specs.Prelude.{◌≡◌, OnOk, IfOk, IfErr, Ok, Err};
ghost use Rattle.grep_args.specs.Effects.{switched, plain_effect, offsets_shown, group_shown, group_effect, ranged};
ghost use Rattle.grep_args.specs.Effects.{binary_of, number_effect, filter_effect, value_effect};
ghost use Rattle.grep_args.specs.Stopping.{Stops};

use crate::numbers::number;
use crate::options::{FilterOption, Flag, NumberOption, PlainOption, ValuedOption};
use crate::plan::{BinaryMode, GrepPlan, OffsetMode};
use crate::usage::{Stop, UsageKind};
use pat_tree::{ByteList, Memory, Newline};
use pcre_io::Name;
use std::alloc::{AllocError, Global};

/// The greatest value of `--max-buffer-size`.
const GREATEST_BUFFER: u32 = 1_073_741_824;

/// Turns something on.
fn switch(plan: &mut GrepPlan, flag: Flag)
    ensures { plan.new ≡ switched flag plan.old }
{
    match flag {
        Flag::Count => plan.count = true,
        Flag::TotalCount => plan.total_count = true,
        Flag::FixedStrings => plan.fixed_strings = true,
        Flag::IgnoreCase => plan.ignore_case = true,
        Flag::Utf => plan.utf = true,
        Flag::LineNumber => plan.line_number = true,
        Flag::Quiet => plan.quiet = true,
        Flag::NoMessages => plan.no_messages = true,
        Flag::InvertMatch => plan.invert_match = true,
        Flag::WordRegex => plan.word_regex = true,
        Flag::LineRegex => plan.line_regex = true,
        Flag::Recursive => plan.recursive = true,
    }
}

/// Shows places, where neither groups nor other places are shown.
fn show_offsets(plan: &mut GrepPlan, mode: OffsetMode) -> Result<(), UsageKind>
    ensures ok { OnOk result (offsets_shown mode plan.old ≡ Ok plan.new) }
    ensures fault { IfErr result (λ kind. offsets_shown mode plan.old ≡ Err kind) }
{
    if plan.only_matching.len() == 0
        && (plan.offsets == OffsetMode::NoOffsets || plan.offsets == mode)
    {
        plan.offsets = mode;
        Ok(())
    } else {
        Err(UsageKind::Exclude)
    }
}

/// Does what an option without a value asks for.
pub fn take_plain(plan: &mut GrepPlan, option: PlainOption) -> Result<(), UsageKind>
    ensures ok { OnOk result (plain_effect option plan.old ≡ Ok plan.new) }
    ensures fault { IfErr result (λ kind. plain_effect option plan.old ≡ Err kind) }
{
    match option {
        PlainOption::Switch(flag) => switch(plan, flag),
        PlainOption::Names(mode) => plan.names = mode,
        PlainOption::Binary(mode) => plan.binary = mode,
        PlainOption::Offsets(mode) => return show_offsets(plan, mode),
        PlainOption::Help(kind) => plan.help = plan.help.or(Some(kind)),
        PlainOption::NoEffect => {}
    }
    Ok(())
}

/// The number in a text, from `low` to `high`.
fn ranged(text: &[u8], low: u32, high: u32) -> Result<u32, UsageKind>
    ensures { result ≡ ranged low high text.now }
{
    match number(text) {
        Some(n) if low <= n && n <= high => Ok(n),
        Some(_) => Err(UsageKind::BadValue),
        None => Err(UsageKind::BadNumber),
    }
}

/// Does what an option whose value is a number asks for.
fn take_number(plan: &mut GrepPlan, option: NumberOption, text: &[u8]) -> Result<(), UsageKind>
    ensures ok { OnOk result (number_effect option text.now plan.old ≡ Ok plan.new) }
    ensures fault { IfErr result (λ kind. number_effect option text.now plan.old ≡ Err kind) }
{
    match option {
        NumberOption::AfterContext => plan.after_context = ranged(text, 0, u32::MAX)?,
        NumberOption::BeforeContext => plan.before_context = ranged(text, 0, u32::MAX)?,
        NumberOption::Context => {
            let n = ranged(text, 0, u32::MAX)?;
            plan.after_context = n;
            plan.before_context = n;
        }
        NumberOption::MatchLimit => plan.match_limit = ranged(text, 0, u32::MAX)?,
        NumberOption::FrameLimit => plan.frame_limit = ranged(text, 0, u32::MAX)?,
        NumberOption::BufferSize => {
            let _ = ranged(text, 0, u32::MAX)?;
        }
        NumberOption::MaxBufferSize => plan.max_buffer_size = ranged(text, 1, GREATEST_BUFFER)?,
        NumberOption::MaxCount => plan.max_count = Some(ranged(text, 1, u32::MAX)?),
    }
    Ok(())
}

/// How a binary file is treated, by its word.
fn binary_mode(word: &str) -> Option<BinaryMode>
    ensures { result ≡ binary_of word.now }
{
    match word {
        "binary" => Some(BinaryMode::Binary),
        "text" => Some(BinaryMode::Text),
        "without-match" => Some(BinaryMode::WithoutMatch),
        _ => None,
    }
}

/// Shows a group of each match, where no places are shown.
pub fn show_group(plan: &mut GrepPlan, n: u32) -> Result<(), Stop>
    ensures ok { OnOk result (group_shown n plan.old ≡ Ok plan.new) }
    ensures fault { IfErr result (Stops (group_shown n plan.old)) }
{
    if plan.offsets != OffsetMode::NoOffsets {
        return Err(Stop::Usage(UsageKind::Exclude));
    }
    plan.only_matching.push(n)?;
    Ok(())
}

/// Shows the group of each match whose number the text is.
pub fn take_group(plan: &mut GrepPlan, text: &[u8]) -> Result<(), Stop>
    ensures ok { OnOk result (group_effect text.now plan.old ≡ Ok plan.new) }
    ensures fault { IfErr result (Stops (group_effect text.now plan.old)) }
{
    let n = ranged(text, 0, u32::MAX)?;
    show_group(plan, n)
}

/// Adds a pattern for names.
fn take_filter(plan: &mut GrepPlan, option: FilterOption, text: ByteList) -> Result<(), Memory>
    ensures { OnOk result (plan.new ≡ filter_effect option text plan.old) }
{
    match option {
        FilterOption::Include => plan.include.push(text)?,
        FilterOption::Exclude => plan.exclude.push(text)?,
        FilterOption::IncludeDir => plan.include_dir.push(text)?,
        FilterOption::ExcludeDir => plan.exclude_dir.push(text)?,
    }
    Ok(())
}

/// Does what an option with its value asks for.
pub fn take_value(
    alloc: Global,
    plan: &mut GrepPlan,
    option: ValuedOption,
    text: &str,
) -> Result<(), Stop>
    ensures ok { OnOk result (value_effect option text.now plan.old ≡ Ok plan.new) }
    ensures fault { IfErr result (Stops (value_effect option text.now plan.old)) }
{
    match option {
        ValuedOption::Number(option) => take_number(plan, option, text.as_bytes())?,
        ValuedOption::Filter(option) => take_filter(plan, option, bytes_of(alloc, text)?)?,
        ValuedOption::Regex => plan.patterns.push(bytes_of(alloc, text)?)?,
        ValuedOption::File => plan.pattern_files.push(name_of(alloc, text)?)?,
        ValuedOption::Label => plan.label = name_of(alloc, text)?,
        ValuedOption::OmSeparator => plan.om_separator = bytes_of(alloc, text)?,
        ValuedOption::BinaryFiles => plan.binary = binary_mode(text).ok_or(UsageKind::BadValue)?,
        ValuedOption::Newline => {
            let newline = Newline::by_name_in_any_case(text.as_bytes());
            plan.newline = newline.ok_or(UsageKind::BadValue)?;
        }
    }
    Ok(())
}

/// A text as a list of bytes.
pub fn bytes_of(alloc: Global, text: &str) -> Result<ByteList, AllocError>
    ensures { IfOk result (λ bytes. bytes ≡ text.now) }
{
    Ok(ByteList::from_vec(Vec::from_slice(alloc, text.as_bytes())?))
}

/// A text as a name.
pub fn name_of(alloc: Global, text: &str) -> Result<Name, AllocError>
    ensures { IfOk result (λ name. name ≡ text.now) }
{
    Ok(Name::of(String::from_str(alloc, text)?))
}
