//! The modifiers by their names and letters.
ghost use Rattle.std.specs.Prelude.{◌≡◌, map};
ghost use Rattle.test_modifiers.specs.Table.{row_seen, on_both, on_patterns, named, by_name, by_letter};

use crate::kinds::{Flag, Modifier, NumberModifier};

/// A modifier by its name.
struct Row {
    name: &'static str,
    modifier: Modifier,
}

/// The modifiers of patterns and of subjects.
const ON_BOTH: [Row; 27] = [
    Row {
        name: "mark",
        modifier: Modifier::Flag(Flag::Mark),
    },
    Row {
        name: "global",
        modifier: Modifier::Flag(Flag::Global),
    },
    Row {
        name: "g",
        modifier: Modifier::Flag(Flag::Global),
    },
    Row {
        name: "replace",
        modifier: Modifier::Replace,
    },
    Row {
        name: "substitute_extended",
        modifier: Modifier::Flag(Flag::SubstituteExtended),
    },
    Row {
        name: "substitute_literal",
        modifier: Modifier::Flag(Flag::SubstituteLiteral),
    },
    Row {
        name: "substitute_unset_empty",
        modifier: Modifier::Flag(Flag::SubstituteUnsetEmpty),
    },
    Row {
        name: "substitute_unknown_unset",
        modifier: Modifier::Flag(Flag::SubstituteUnknownUnset),
    },
    Row {
        name: "substitute_replacement_only",
        modifier: Modifier::Flag(Flag::SubstituteReplacementOnly),
    },
    Row {
        name: "dfa",
        modifier: Modifier::Flag(Flag::Dfa),
    },
    Row {
        name: "dfa_shortest",
        modifier: Modifier::Flag(Flag::DfaShortest),
    },
    Row {
        name: "partial_soft",
        modifier: Modifier::Flag(Flag::PartialSoft),
    },
    Row {
        name: "ps",
        modifier: Modifier::Flag(Flag::PartialSoft),
    },
    Row {
        name: "partial_hard",
        modifier: Modifier::Flag(Flag::PartialHard),
    },
    Row {
        name: "ph",
        modifier: Modifier::Flag(Flag::PartialHard),
    },
    Row {
        name: "notbol",
        modifier: Modifier::Flag(Flag::NotBol),
    },
    Row {
        name: "noteol",
        modifier: Modifier::Flag(Flag::NotEol),
    },
    Row {
        name: "notempty",
        modifier: Modifier::Flag(Flag::NotEmpty),
    },
    Row {
        name: "notempty_atstart",
        modifier: Modifier::Flag(Flag::NotEmptyAtStart),
    },
    Row {
        name: "anchored",
        modifier: Modifier::Flag(Flag::Anchored),
    },
    Row {
        name: "endanchored",
        modifier: Modifier::Flag(Flag::EndAnchored),
    },
    Row {
        name: "offset",
        modifier: Modifier::Number(NumberModifier::Offset),
    },
    Row {
        name: "match_limit",
        modifier: Modifier::Number(NumberModifier::MatchLimit),
    },
    Row {
        name: "frame_limit",
        modifier: Modifier::Number(NumberModifier::FrameLimit),
    },
    Row {
        name: "callout_fail",
        modifier: Modifier::Number(NumberModifier::CalloutFail),
    },
    Row {
        name: "callout_error",
        modifier: Modifier::Number(NumberModifier::CalloutError),
    },
    Row {
        name: "callout_none",
        modifier: Modifier::Flag(Flag::CalloutNone),
    },
];

/// The modifiers of patterns alone.
const ON_PATTERNS: [Row; 20] = [
    Row {
        name: "caseless",
        modifier: Modifier::Flag(Flag::Caseless),
    },
    Row {
        name: "multiline",
        modifier: Modifier::Flag(Flag::Multiline),
    },
    Row {
        name: "dotall",
        modifier: Modifier::Flag(Flag::DotAll),
    },
    Row {
        name: "extended",
        modifier: Modifier::Flag(Flag::Extended),
    },
    Row {
        name: "extended_more",
        modifier: Modifier::Flag(Flag::ExtendedMore),
    },
    Row {
        name: "dollar_endonly",
        modifier: Modifier::Flag(Flag::DollarEndOnly),
    },
    Row {
        name: "dupnames",
        modifier: Modifier::Flag(Flag::DupNames),
    },
    Row {
        name: "firstline",
        modifier: Modifier::Flag(Flag::FirstLine),
    },
    Row {
        name: "literal",
        modifier: Modifier::Flag(Flag::Literal),
    },
    Row {
        name: "no_auto_capture",
        modifier: Modifier::Flag(Flag::NoAutoCapture),
    },
    Row {
        name: "ungreedy",
        modifier: Modifier::Flag(Flag::Ungreedy),
    },
    Row {
        name: "utf",
        modifier: Modifier::Flag(Flag::Utf),
    },
    Row {
        name: "ucp",
        modifier: Modifier::Flag(Flag::Ucp),
    },
    Row {
        name: "allow_empty_class",
        modifier: Modifier::Flag(Flag::AllowEmptyClass),
    },
    Row {
        name: "match_unset_backref",
        modifier: Modifier::Flag(Flag::MatchUnsetBackref),
    },
    Row {
        name: "no_start_optimize",
        modifier: Modifier::Flag(Flag::NoStartOptimize),
    },
    Row {
        name: "auto_callout",
        modifier: Modifier::Flag(Flag::AutoCallout),
    },
    Row {
        name: "newline",
        modifier: Modifier::Newline,
    },
    Row {
        name: "bsr",
        modifier: Modifier::Bsr,
    },
    Row {
        name: "info",
        modifier: Modifier::Flag(Flag::Info),
    },
];

fn named(rows: &[Row], name: &[u8]) -> Option<Modifier>
    ensures { result ≡ named (map row_seen rows.now) name.now }
{
    for row in rows {
        if row.name.as_bytes() == name {
            return Some(row.modifier);
        }
    }
    None
}

/// The modifier of a name, of patterns and of subjects.
fn on_both(name: &[u8]) -> Option<Modifier>
    ensures { result ≡ named on_both name.now }
{
    named(&ON_BOTH, name)
}

/// The modifier of a name, of patterns alone.
fn on_patterns(name: &[u8]) -> Option<Modifier>
    ensures { result ≡ named on_patterns name.now }
{
    named(&ON_PATTERNS, name)
}

/// The modifier of a name, in a list of a pattern or of a subject.
pub fn by_name(name: &[u8], pattern: bool) -> Option<Modifier>
    ensures { result ≡ by_name pattern name.now }
{
    match on_both(name) {
        Some(modifier) => Some(modifier),
        None if pattern => on_patterns(name),
        None => None,
    }
}

/// The modifier of a letter, in a list of a pattern or of a subject.
pub fn by_letter(letter: u8, pattern: bool) -> Option<Flag>
    ensures { result ≡ by_letter pattern letter }
{
    match letter {
        b'g' => Some(Flag::Global),
        b'i' if pattern => Some(Flag::Caseless),
        b'm' if pattern => Some(Flag::Multiline),
        b's' if pattern => Some(Flag::DotAll),
        b'x' if pattern => Some(Flag::Extended),
        b'n' if pattern => Some(Flag::NoAutoCapture),
        b'I' if pattern => Some(Flag::Info),
        _ => None,
    }
}
