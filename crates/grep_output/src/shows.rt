//! What is written of the lines of an input, by its mode and as it is treated.
ghost use Rattle.std.specs.Prelude.{◌≡◌};
ghost use Rattle.grep_output.specs.Shows.{show_in, tells_binary, most_selected};
ghost use Rattle.grep_output.specs.Lines.{treatment_by};

use grep_args::BinaryMode;
use grep_match::Mode;

/// How an input is treated (pcre2grep, "BINARY FILES").
#[derive(Clone, Copy, Debug, PartialEq, Eq)]
pub enum Treatment {
    AsText,
    AsBinary,
    /// As without any selected line.
    Skipped,
}

/// What is written of a selected line.
#[derive(Clone, Copy, Debug, PartialEq, Eq)]
pub enum Show {
    /// The line, with its context.
    Lines,
    /// Its matches.
    Parts,
    Nothing,
}

/// How an input is treated, where it is binary or not.
pub fn treatment_by(is_binary: bool, binary: BinaryMode) -> Treatment
    ensures { result ≡ treatment_by is_binary binary }
{
    if !is_binary {
        return Treatment::AsText;
    }
    match binary {
        BinaryMode::Binary => Treatment::AsBinary,
        BinaryMode::Text => Treatment::AsText,
        BinaryMode::WithoutMatch => Treatment::Skipped,
    }
}

/// Whether only a text tells that an input, which is binary, matches.
pub fn tells_binary(treatment: Treatment, mode: Mode) -> bool
    ensures { result ≡ tells_binary treatment mode }
{
    treatment == Treatment::AsBinary
        && matches!(mode, Mode::NamesWith | Mode::Parts | Mode::WholeLines)
}

/// What is written of a selected line.
pub fn show_in(is_told: bool, mode: Mode) -> Show
    ensures { result ≡ show_in is_told mode }
{
    match mode {
        Mode::WholeLines if !is_told => Show::Lines,
        Mode::Parts if !is_told => Show::Parts,
        _ => Show::Nothing,
    }
}

/// How many lines are selected at most.
pub fn most_selected(is_told: bool, mode: Mode, most: Option<u32>) -> Option<u32>
    ensures { result ≡ most_selected is_told mode most }
{
    if is_told {
        return Some(1);
    }
    match mode {
        Mode::Nothing | Mode::NamesWithout | Mode::NamesWith => Some(1),
        _ => most,
    }
}
