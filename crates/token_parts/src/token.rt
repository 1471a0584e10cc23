//! The tokens of a pattern.
use crate::fault::Fault;
use pat_tree::{Bsr, Newline, SetName};

/// A token and the place after it, or its fault.
pub type Lexed = Result<(Token, usize), Fault>;

/// What the reader knows at a place, as far as the tokens depend on it.
#[derive(Clone, Copy, Debug, PartialEq, Eq)]
pub struct LexFlags {
    /// Character codes go up to U+10FFFF instead of 255.
    pub utf: bool,
    /// White space and comments from `#` to the next newline are ignored outside classes.
    pub extended: bool,
    /// As `extended`, and spaces and tabs are also ignored in classes.
    pub extended_more: bool,
    /// The place is between `\Q` and `\E`.
    pub quoting: bool,
    /// The place is inside a class.
    pub in_class: bool,
    /// What ends a comment that begins with `#`.
    pub newline: Newline,
    /// How many capturing groups were opened before.
    pub groups: u32,
}

/// Which group a reference, a call or a condition is of (pcre2pattern, "Backreferences").
#[derive(Clone, Copy, Debug, PartialEq, Eq)]
pub enum Target {
    /// The group of this number.
    Number(u32),
    /// This many groups on, from 1.
    Plus(u32),
    /// This many groups back, from 1.
    Minus(u32),
    /// The groups of the name between these places.
    Named { from: usize, to: usize },
}

/// An item that stands at the very start of a pattern (pcre2pattern, "Special start-of-pattern items").
#[derive(Clone, Copy, Debug, PartialEq, Eq)]
pub enum StartItem {
    NewlineIs(Newline),
    BsrIs(Bsr),
    Utf,
    Ucp,
    NotEmpty,
    NotEmptyAtStart,
    NoStartOpt,
    /// An item that changes nothing here, such as `(*NO_JIT)`.
    NoEffect,
    LimitMatch(u32),
}

/// What an opening parenthesis begins (pcre2pattern, "Groups", "Assertions", "Atomic grouping and possessive
/// quantifiers").
#[derive(Clone, Copy, Debug, PartialEq, Eq)]
pub enum OpenKind {
    /// `(`
    Capture,
    /// `(?:`
    Plain,
    /// `(?>`
    Atomic,
    /// `(?|`
    BranchReset,
    /// `(?<name>`, the name between these places.
    Named {
        from: usize,
        to: usize,
    },
    /// A lookahead or a lookbehind.
    Look {
        ahead: bool,
        positive: bool,
        atomic: bool,
    },
}

/// Options that a setting inside a pattern names, each by its letter (pcre2pattern, "Internal option setting").
#[derive(Clone, Copy, Debug, PartialEq, Eq)]
pub struct OptionMask {
    /// Matching in any case.
    pub i: bool,
    /// `^` and `$` at every line.
    pub m: bool,
    /// `.` takes every character.
    pub s: bool,
    /// White space and `#` comments are ignored.
    pub x: bool,
    /// Spaces and tabs are ignored in classes too.
    pub xx: bool,
    /// `(` opens a plain group.
    pub n: bool,
    /// Several groups may have one name: the letter `J`.
    pub j: bool,
    /// Greedy and lazy change places: the letter `U`.
    pub u: bool,
}

/// The test of a conditional group (pcre2pattern, "Conditional groups").
#[derive(Clone, Copy, Debug, PartialEq, Eq)]
pub enum CondText {
    /// Whether a group is set.
    Group(Target),
    /// Whether some call is active: `R`.
    InCall,
    /// Whether the latest active call is of a group: `R1`, `R&name`.
    InCallOf(Target),
    /// `DEFINE`
    Define,
    /// A lookaround, which is the next token, or stands after a callout or a comment.
    Lookaround,
}

/// A backtracking verb (pcre2pattern, "Backtracking control").
#[derive(Clone, Copy, Debug, PartialEq, Eq)]
pub enum VerbKind {
    Accept,
    Fail,
    Commit,
    Prune,
    Skip,
    Then,
    Mark,
}

/// How a quantifier tries its turns (pcre2pattern, "Repetition").
#[derive(Clone, Copy, Debug, PartialEq, Eq)]
pub enum QuantMode {
    /// No mark follows.
    Greedy,
    /// `?` follows.
    Lazy,
    /// `+` follows.
    Possessive,
}

/// A token of a pattern (pcre2pattern). Places are bytes from the pattern's begin.
#[derive(Clone, Copy, Debug, PartialEq, Eq)]
pub enum Token {
    /// The end of the pattern.
    End,
    /// An item for the very start. The reader refuses it elsewhere.
    Start(StartItem),
    /// A character, or an escape that writes one, by its code.
    Literal(u32),
    /// `.`
    Dot,
    /// `\N`
    NotNewline,
    /// `\R`
    LineBreak,
    /// `\K`
    KeepOut,
    /// `^`
    Caret,
    /// `$`
    Dollar,
    /// `\A`
    SubjectStart,
    /// `\z`
    SubjectEnd,
    /// `\Z`
    EndOrNewline,
    /// `\G`
    StartGiven,
    /// `\b`, or `\B` where `not`.
    Boundary {
        not: bool,
    },
    /// `\d`, `\s`, `\w`, `\h`, `\v`, or a POSIX name in a class; its complement where `not`.
    Set {
        set: SetName,
        not: bool,
    },
    /// `\p`, or its complement: the property's name, without `^`, is between these places.
    Property {
        from: usize,
        to: usize,
        not: bool,
    },
    /// A backreference.
    Reference(Target),
    /// A call of a group as a subroutine; 0 is the whole pattern.
    CallTo(Target),
    /// `\Q`
    QuoteOn,
    /// `\E`
    QuoteOff,
    /// `[`, or `[^` where `negated`.
    ClassStart {
        negated: bool,
    },
    /// `]` inside a class. Of one that stands first the reader makes a character.
    ClassEnd,
    /// `-` inside a class.
    Hyphen,
    /// The start of a group.
    Open(OpenKind),
    /// `|`
    Bar,
    /// `)`
    Close,
    /// An option setting: under `reset` i, m, n, s, x and xx are first unset, then `on` is set, then `off` is unset.
    /// With a colon it `opens` a group.
    OptionSet {
        reset: bool,
        on: OptionMask,
        off: OptionMask,
        opens: bool,
    },
    /// The start of a conditional group, and the places of its test. A lookaround is a token of its own: the two places
    /// are then where it begins.
    CondStart {
        cond: CondText,
        from: usize,
        to: usize,
    },
    /// A callout, and the places of its string without the delimiters; both are 0 where there is none.
    CalloutItem {
        number: u8,
        text_from: u32,
        text_to: u32,
    },
    /// A verb, and the places of its name, which are equal where it has none.
    VerbItem {
        verb: VerbKind,
        from: usize,
        to: usize,
    },
    /// A quantifier.
    Quantifier {
        min: u16,
        max: Option<u16>,
        mode: QuantMode,
    },
    /// One comment, or one white space character that is ignored.
    Passed,
}
