//! The options of a pattern and of a match.

/// What ends a line (pcre2pattern, "Newline conventions").
#[derive(Clone, Copy, Debug, PartialEq, Eq)]
pub enum Newline {
    /// A carriage return.
    Cr,
    /// A line feed.
    Lf,
    /// A carriage return and a line feed after it.
    CrLf,
    /// CR, LF or CRLF.
    AnyCrLf,
    /// CRLF, LF, VT, FF, CR, U+0085, U+2028 or U+2029.
    Any,
    /// A zero byte.
    Nul,
}

/// What `\R` matches (pcre2pattern, "Newline sequences").
#[derive(Clone, Copy, Debug, PartialEq, Eq)]
pub enum Bsr {
    /// CRLF, or one vertical white space character of Unicode.
    Unicode,
    /// CRLF, CR or LF.
    AnyCrLf,
}

/// The options of a pattern (pcre2api, "Compiling a pattern"; start items are in pcre2pattern, "Special
/// start-of-pattern items").
#[derive(Clone, Copy, Debug, PartialEq, Eq)]
pub struct Options {
    pub anchored: bool,
    pub endanchored: bool,
    pub caseless: bool,
    pub multiline: bool,
    pub dotall: bool,
    pub extended: bool,
    pub extended_more: bool,
    pub dollar_endonly: bool,
    pub dupnames: bool,
    pub firstline: bool,
    pub literal: bool,
    pub no_auto_capture: bool,
    pub ungreedy: bool,
    pub utf: bool,
    pub ucp: bool,
    pub allow_empty_class: bool,
    pub match_unset_backref: bool,
    pub no_start_optimize: bool,
    pub auto_callout: bool,
    pub notempty: bool,
    pub notempty_atstart: bool,
    pub newline: Newline,
    pub bsr: Bsr,
    /// The greatest number of steps at one start place, where the pattern lowers it.
    pub match_limit: Option<u32>,
}

impl Options {
    /// No option set, lines end at LF, and `\R` matches every newline of Unicode.
    pub const PLAIN: Options = Options {
        anchored: false,
        endanchored: false,
        caseless: false,
        multiline: false,
        dotall: false,
        extended: false,
        extended_more: false,
        dollar_endonly: false,
        dupnames: false,
        firstline: false,
        literal: false,
        no_auto_capture: false,
        ungreedy: false,
        utf: false,
        ucp: false,
        allow_empty_class: false,
        match_unset_backref: false,
        no_start_optimize: false,
        auto_callout: false,
        notempty: false,
        notempty_atstart: false,
        newline: Newline::Lf,
        bsr: Bsr::Unicode,
        match_limit: None,
    };
}

/// Whether partial matches are looked for (pcre2partial, "Partial matching in PCRE2").
#[derive(Clone, Copy, Debug, PartialEq, Eq)]
pub enum PartialMode {
    Off,
    Soft,
    Hard,
}

/// The options of one match (pcre2api, "Option bits for pcre2_match()").
#[derive(Clone, Copy, Debug, PartialEq, Eq)]
pub struct MatchOptions {
    pub anchored: bool,
    pub endanchored: bool,
    pub notbol: bool,
    pub noteol: bool,
    pub notempty: bool,
    pub notempty_atstart: bool,
    pub dfa_shortest: bool,
    pub partial: PartialMode,
    /// The greatest number of steps at one start place.
    pub match_limit: u32,
    /// The greatest number of units that a path may hold.
    pub frame_limit: u32,
}

impl MatchOptions {
    /// No option set, and 10,000,000 steps and units.
    pub const PLAIN: MatchOptions = MatchOptions {
        anchored: false,
        endanchored: false,
        notbol: false,
        noteol: false,
        notempty: false,
        notempty_atstart: false,
        dfa_shortest: false,
        partial: PartialMode::Off,
        match_limit: 10_000_000,
        frame_limit: 10_000_000,
    };
}
