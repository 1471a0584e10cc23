//! What modifiers ask for.
ghost use Rattle.std.specs.Prelude.{◌≡◌};
ghost use Rattle.std.specs.Option.{option_copied};
ghost use Rattle.test_modifiers.specs.Modifiers.{over};
ghost use Rattle.test_run.specs.Asked.{is_on, options_of, matching_of, partial_of, replies_of, is_dfa, how_of};
ghost use Rattle.test_run.specs.Asked.{replacement_of, subst_of};

use pcre2_api::{Bsr, MatchOptions, Newline, Options, PartialMode, SubstOptions};
use test_lines::gathered::Replies;
use test_modifiers::Modifiers;

/// How a subject is searched.
#[derive(Clone, Copy)]
pub struct How {
    pub matching: MatchOptions,
    /// Where the first search begins, in bytes.
    pub start: u32,
    /// Whether all matches are shown.
    pub global: bool,
    /// Whether marks are shown.
    pub marks: bool,
    /// What callouts answer.
    pub replies: Replies,
}

fn is_on(flag: Option<bool>) -> bool
    ensures { result ≡ is_on flag }
{
    flag.unwrap_or(false)
}

/// Whether a pattern's modifiers ask for what is told of it.
pub fn is_info(modifiers: &Modifiers) -> bool
    ensures { result ≡ is_on modifiers.now.info }
{
    is_on(modifiers.info)
}

/// How partial matches are looked for (pcre2partial).
fn partial_of(own: &Modifiers, earlier: &Modifiers) -> PartialMode
    ensures { result ≡ partial_of (over own.now earlier.now) }
{
    if is_on(own.partial_hard.or(earlier.partial_hard)) {
        PartialMode::Hard
    } else if is_on(own.partial_soft.or(earlier.partial_soft)) {
        PartialMode::Soft
    } else {
        PartialMode::Off
    }
}

/// Whether all ends of a subject's match are looked for (pcre2test, "SUBJECT MODIFIERS").
pub fn is_dfa(own: &Modifiers, earlier: &Modifiers) -> bool
    ensures { result ≡ is_dfa own.now earlier.now }
{
    is_on(own.dfa.or(earlier.dfa))
}

/// The options of a pattern with these modifiers (pcre2test, "PATTERN MODIFIERS").
pub fn options_of(modifiers: &Modifiers) -> Options
    ensures { result ≡ options_of modifiers.now }
{
    Options {
        anchored: is_on(modifiers.anchored),
        endanchored: is_on(modifiers.endanchored),
        caseless: is_on(modifiers.caseless),
        multiline: is_on(modifiers.multiline),
        dotall: is_on(modifiers.dotall),
        extended: is_on(modifiers.extended),
        extended_more: is_on(modifiers.extended_more),
        dollar_endonly: is_on(modifiers.dollar_endonly),
        dupnames: is_on(modifiers.dupnames),
        firstline: is_on(modifiers.firstline),
        literal: is_on(modifiers.literal),
        no_auto_capture: is_on(modifiers.no_auto_capture),
        ungreedy: is_on(modifiers.ungreedy),
        utf: is_on(modifiers.utf),
        ucp: is_on(modifiers.ucp),
        allow_empty_class: is_on(modifiers.allow_empty_class),
        match_unset_backref: is_on(modifiers.match_unset_backref),
        no_start_optimize: is_on(modifiers.no_start_optimize),
        auto_callout: is_on(modifiers.auto_callout),
        notempty: false,
        notempty_atstart: false,
        newline: modifiers.newline.unwrap_or(Newline::Lf),
        bsr: modifiers.bsr.unwrap_or(Bsr::Unicode),
        match_limit: None,
    }
}

fn matching_of(own: &Modifiers, earlier: &Modifiers) -> MatchOptions
    ensures { result ≡ matching_of own.now earlier.now }
{
    MatchOptions {
        anchored: is_on(own.anchored),
        endanchored: is_on(own.endanchored),
        notbol: is_on(own.notbol.or(earlier.notbol)),
        noteol: is_on(own.noteol.or(earlier.noteol)),
        notempty: is_on(own.notempty.or(earlier.notempty)),
        notempty_atstart: is_on(own.notempty_atstart.or(earlier.notempty_atstart)),
        dfa_shortest: is_on(own.dfa_shortest.or(earlier.dfa_shortest)),
        partial: partial_of(own, earlier),
        match_limit: own
            .match_limit
            .or(earlier.match_limit)
            .unwrap_or(MatchOptions::PLAIN.match_limit),
        frame_limit: own
            .frame_limit
            .or(earlier.frame_limit)
            .unwrap_or(MatchOptions::PLAIN.frame_limit),
        ..MatchOptions::PLAIN
    }
}

fn replies_of(own: &Modifiers, earlier: &Modifiers) -> Replies
    ensures { result ≡ replies_of (over own.now earlier.now) }
{
    Replies {
        none: is_on(own.callout_none.or(earlier.callout_none)),
        fails: own.callout_fail.or(earlier.callout_fail),
        errs: own.callout_error.or(earlier.callout_error),
    }
}

/// How a subject with its own modifiers is searched for a pattern with these (pcre2test, "SUBJECT
/// MODIFIERS").
pub fn how_of(own: &Modifiers, earlier: &Modifiers) -> How
    ensures { result ≡ how_of own.now earlier.now }
{
    How {
        matching: matching_of(own, earlier),
        start: own.offset.or(earlier.offset).unwrap_or(0),
        global: is_on(own.global.or(earlier.global)),
        marks: is_on(own.mark.or(earlier.mark)),
        replies: replies_of(own, earlier),
    }
}

/// The text by which the matches of a subject are replaced, if any is given (pcre2test, "Testing the
/// substitution function").
pub fn replacement_of<'a>(own: &'a Modifiers, earlier: &'a Modifiers) -> Option<&'a [u8]>
    ensures { option_copied result ≡ replacement_of own.now earlier.now }
{
    match (&own.replace, &earlier.replace) {
        (Some(text), _) | (None, Some(text)) => Some(text.bytes()),
        (None, None) => None,
    }
}

/// How they are replaced.
pub fn subst_of(own: &Modifiers, earlier: &Modifiers) -> SubstOptions
    ensures { result ≡ subst_of own.now earlier.now }
{
    SubstOptions {
        global: is_on(own.global.or(earlier.global)),
        extended: is_on(own.substitute_extended.or(earlier.substitute_extended)),
        literal: is_on(own.substitute_literal.or(earlier.substitute_literal)),
        unset_empty: is_on(
            own.substitute_unset_empty
                .or(earlier.substitute_unset_empty),
        ),
        unknown_unset: is_on(
            own.substitute_unknown_unset
                .or(earlier.substitute_unknown_unset),
        ),
        replacement_only: is_on(
            own.substitute_replacement_only
                .or(earlier.substitute_replacement_only),
        ),
    }
}
