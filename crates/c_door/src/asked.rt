//! What C asks with.
ghost use Rattle.std.specs.Prelude.{◌≡◌};
ghost use Rattle.c_door.specs.Asking.{newline_of, bsr_of, partial_of, options_of, match_options_of, subst_options_of};

use pcre2_api::{Bsr, MatchOptions, Newline, Options, PartialMode, SubstOptions};

/// The options of a pattern (pcre2api, "Compiling a pattern"). C gives no other values for a `bool`
/// than 0 and 1.
#[repr(C)]
#[derive(Clone, Copy)]
pub struct Asked {
    pub anchored: bool,
    pub endanchored: bool,
    pub caseless: bool,
    pub multiline: bool,
    pub dotall: bool,
    pub extended: bool,
    pub extended_more: bool,
    pub dollar_endonly: bool,
    pub dupnames: bool,
    pub firstline: bool,
    pub literal: bool,
    pub no_auto_capture: bool,
    pub ungreedy: bool,
    pub utf: bool,
    pub ucp: bool,
    pub allow_empty_class: bool,
    pub match_unset_backref: bool,
    pub no_start_optimize: bool,
    pub auto_callout: bool,
    /// The number that PCRE2 gives the newline (PCRE2_NEWLINE_CR is 1); another stands for LF.
    pub newline: u8,
    /// The number that PCRE2 gives the convention of `\R` (PCRE2_BSR_UNICODE is 1); another than 2
    /// stands for this.
    pub bsr: u8,
}

/// The options of a match and its limits (pcre2api, "Matching a pattern").
#[repr(C)]
#[derive(Clone, Copy)]
pub struct MatchAsked {
    pub anchored: bool,
    pub endanchored: bool,
    pub notbol: bool,
    pub noteol: bool,
    pub notempty: bool,
    pub notempty_atstart: bool,
    pub dfa_shortest: bool,
    /// 1 for soft partial matching, 2 for hard, another for none.
    pub partial: u8,
    /// The most steps of the search at one start place.
    pub match_limit: u32,
    /// The most units that a path may hold.
    pub frame_limit: u32,
    /// The last place in bytes at which a match may begin (pcre2_set_offset_limit); the greatest
    /// number where it may begin anywhere.
    pub offset_limit: u64,
}

/// How matches are replaced (pcre2api, "Creating a new string with substitutions").
#[repr(C)]
#[derive(Clone, Copy)]
pub struct SubstAsked {
    pub global: bool,
    pub extended: bool,
    pub literal: bool,
    pub unset_empty: bool,
    pub unknown_unset: bool,
    pub replacement_only: bool,
}

fn newline_of(n: u8) -> Newline
    ensures { result ≡ newline_of n }
{
    if n == 1 {
        Newline::Cr
    } else if n == 3 {
        Newline::CrLf
    } else if n == 4 {
        Newline::Any
    } else if n == 5 {
        Newline::AnyCrLf
    } else if n == 6 {
        Newline::Nul
    } else {
        Newline::Lf
    }
}

fn bsr_of(n: u8) -> Bsr
    ensures { result ≡ bsr_of n }
{
    if n == 2 { Bsr::AnyCrLf } else { Bsr::Unicode }
}

fn partial_of(n: u8) -> PartialMode
    ensures { result ≡ partial_of n }
{
    if n == 1 {
        PartialMode::Soft
    } else if n == 2 {
        PartialMode::Hard
    } else {
        PartialMode::Off
    }
}

pub(crate) fn options_of(asked: &Asked) -> Options
    ensures { result ≡ options_of asked.now }
{
    Options {
        anchored: asked.anchored,
        endanchored: asked.endanchored,
        caseless: asked.caseless,
        multiline: asked.multiline,
        dotall: asked.dotall,
        extended: asked.extended,
        extended_more: asked.extended_more,
        dollar_endonly: asked.dollar_endonly,
        dupnames: asked.dupnames,
        firstline: asked.firstline,
        literal: asked.literal,
        no_auto_capture: asked.no_auto_capture,
        ungreedy: asked.ungreedy,
        utf: asked.utf,
        ucp: asked.ucp,
        allow_empty_class: asked.allow_empty_class,
        match_unset_backref: asked.match_unset_backref,
        no_start_optimize: asked.no_start_optimize,
        auto_callout: asked.auto_callout,
        notempty: false,
        notempty_atstart: false,
        newline: newline_of(asked.newline),
        bsr: bsr_of(asked.bsr),
        match_limit: None,
    }
}

pub(crate) fn match_options_of(asked: &MatchAsked) -> MatchOptions
    ensures { result ≡ match_options_of asked.now }
{
    MatchOptions {
        anchored: asked.anchored,
        endanchored: asked.endanchored,
        notbol: asked.notbol,
        noteol: asked.noteol,
        notempty: asked.notempty,
        notempty_atstart: asked.notempty_atstart,
        dfa_shortest: asked.dfa_shortest,
        partial: partial_of(asked.partial),
        match_limit: asked.match_limit,
        frame_limit: asked.frame_limit,
    }
}

pub(crate) fn subst_options_of(asked: &SubstAsked) -> SubstOptions
    ensures { result ≡ subst_options_of asked.now }
{
    SubstOptions {
        global: asked.global,
        extended: asked.extended,
        literal: asked.literal,
        unset_empty: asked.unset_empty,
        unknown_unset: asked.unknown_unset,
        replacement_only: asked.replacement_only,
    }
}
