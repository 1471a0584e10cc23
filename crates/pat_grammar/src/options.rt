//! Options that are set inside a pattern.
ghost use Rattle.std.specs.Prelude.{◌≡◌};
ghost use Rattle.pat_grammar.specs.Options.{turned, with_setting, lowered, with_item};

use pat_lex::{OptionMask, StartItem};
use pat_tree::Options;

/// An option that was on or off before: under `reset` it is first unset, then it may be set, then unset.
fn turned(reset: bool, on: bool, off: bool, before: bool) -> bool
    ensures { result ≡ turned reset on off before }
{
    !off && (on || (!reset && before))
}

/// The options under a setting (pcre2pattern, "Internal option setting").
#[tactic(auto, unfolding(crate::specs::Options::with_setting))]
pub fn with_setting(reset: bool, on: OptionMask, off: OptionMask, options: Options) -> Options
    ensures { result ≡ with_setting reset on off options }
{
    Options {
        caseless: turned(reset, on.i, off.i, options.caseless),
        multiline: turned(reset, on.m, off.m, options.multiline),
        dotall: turned(reset, on.s, off.s, options.dotall),
        extended: turned(reset, on.x, off.x, options.extended),
        extended_more: turned(reset, on.xx, off.xx, options.extended_more),
        no_auto_capture: turned(reset, on.n, off.n, options.no_auto_capture),
        dupnames: turned(false, on.j, off.j, options.dupnames),
        ungreedy: turned(false, on.u, off.u, options.ungreedy),
        ..options
    }
}

/// A limit can only be lowered.
fn lowered(before: Option<u32>, limit: u32) -> u32
    ensures { result ≡ lowered before limit }
{
    match before {
        None => limit,
        Some(before) => before.min(limit),
    }
}

/// The options under a start item (pcre2pattern, "Special start-of-pattern items").
#[tactic(auto, unfolding(crate::specs::Options::with_item))]
pub(crate) fn with_item(item: StartItem, options: Options) -> Options
    ensures { result ≡ with_item item options }
{
    match item {
        StartItem::NewlineIs(newline) => Options { newline, ..options },
        StartItem::BsrIs(bsr) => Options { bsr, ..options },
        StartItem::Utf => Options {
            utf: true,
            ..options
        },
        StartItem::Ucp => Options {
            ucp: true,
            ..options
        },
        StartItem::NotEmpty => Options {
            notempty: true,
            ..options
        },
        StartItem::NotEmptyAtStart => Options {
            notempty_atstart: true,
            ..options
        },
        StartItem::NoStartOpt => Options {
            no_start_optimize: true,
            ..options
        },
        StartItem::NoEffect => options,
        StartItem::LimitMatch(limit) => Options {
            match_limit: Some(lowered(options.match_limit, limit)),
            ..options
        },
    }
}
