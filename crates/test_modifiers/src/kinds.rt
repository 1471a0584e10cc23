//! The modifiers by what they take.

/// A modifier that is on or off.
#[derive(Clone, Copy, Debug, PartialEq, Eq)]
pub enum Flag {
    Anchored,
    EndAnchored,
    Caseless,
    Multiline,
    DotAll,
    Extended,
    ExtendedMore,
    DollarEndOnly,
    DupNames,
    FirstLine,
    Literal,
    NoAutoCapture,
    Ungreedy,
    Utf,
    Ucp,
    AllowEmptyClass,
    MatchUnsetBackref,
    NoStartOptimize,
    AutoCallout,
    Info,
    Mark,
    Global,
    SubstituteExtended,
    SubstituteLiteral,
    SubstituteUnsetEmpty,
    SubstituteUnknownUnset,
    SubstituteReplacementOnly,
    Dfa,
    DfaShortest,
    PartialSoft,
    PartialHard,
    NotBol,
    NotEol,
    NotEmpty,
    NotEmptyAtStart,
    CalloutNone,
}

/// A modifier whose value is a number.
#[derive(Clone, Copy, Debug, PartialEq, Eq)]
pub enum NumberModifier {
    Offset,
    MatchLimit,
    FrameLimit,
    CalloutFail,
    CalloutError,
}

/// A modifier of pcre2test (pcre2test, "PATTERN MODIFIERS" and "SUBJECT MODIFIERS").
#[derive(Clone, Copy, Debug, PartialEq, Eq)]
pub enum Modifier {
    Flag(Flag),
    Number(NumberModifier),
    Newline,
    Bsr,
    Replace,
}
