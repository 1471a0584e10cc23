//! Tables of tokens and faults, from pcre2pattern.
use pat_lex::OpenKind::{self, Atomic, BranchReset, Capture, Look, Plain};
use pat_lex::QuantMode::{self, Greedy, Lazy, Possessive};
use pat_lex::Token::{
    self, CallTo, ClassStart, Literal, Open, Passed, Quantifier, Reference, Start, VerbItem,
};
use pat_lex::{CondText, Fault, LexFlags, StartItem, Target, VerbKind, next_token};
use pat_tree::{Bsr, Newline, SetName};
use std::process::Abort;

pub(crate) const PLAIN: LexFlags = LexFlags {
    utf: false,
    extended: false,
    extended_more: false,
    quoting: false,
    in_class: false,
    newline: Newline::Lf,
    groups: 0,
};

pub(crate) const EXTENDED: LexFlags = LexFlags {
    extended: true,
    ..PLAIN
};

pub(crate) const QUOTING: LexFlags = LexFlags {
    quoting: true,
    ..PLAIN
};

pub(crate) const IN_CLASS: LexFlags = LexFlags {
    in_class: true,
    ..PLAIN
};

const UTF: LexFlags = LexFlags { utf: true, ..PLAIN };

/// A text, the token that it begins with, and where that ends.
type Row = (&'static str, Token, usize);

/// Whether the text begins with this token, which ends at a place.
fn begins(flags: LexFlags, text: &str, token: Token, after: usize) -> bool {
    next_token(text.as_bytes(), 0, flags) == Ok((token, after))
}

/// Each text begins with its token.
fn all_begin(rt: &impl Abort, flags: LexFlags, rows: &[Row]) {
    for (text, token, after) in rows {
        assert!(rt; begins(flags, text, *token, *after), "{text}");
    }
}

/// Whether the text's first token is refused.
fn is_refused(flags: LexFlags, text: &str, number: i32, at: usize) -> bool {
    next_token(text.as_bytes(), 0, flags) == Err(Fault { number, at })
}

/// The text's first token is refused.
pub(crate) fn refused(rt: &impl Abort, flags: LexFlags, text: &str, number: i32, at: usize) {
    assert!(rt; is_refused(flags, text, number, at), "{text}");
}

/// The first token of each of the texts, which stand between blanks, is refused at its begin.
fn texts_refused(rt: &impl Abort, flags: LexFlags, number: i32, texts: &str) {
    for text in texts.split(' ') {
        refused(rt, flags, text, number, 0);
    }
}

/// Each row has the number of the fault of its texts.
pub(crate) fn all_refused(rt: &impl Abort, flags: LexFlags, rows: &[(i32, &str)]) {
    for (number, texts) in rows {
        texts_refused(rt, flags, *number, texts);
    }
}

const CHARACTERS: &[Row] = &[
    ("a", Literal(97), 1),
    ("]", Literal(93), 1),
    ("}", Literal(125), 1),
    ("-", Literal(45), 1),
    ("#", Literal(35), 1),
    (" ", Literal(32), 1),
    ("\\a", Literal(7), 2),
    ("\\e", Literal(27), 2),
    ("\\f", Literal(12), 2),
    ("\\n", Literal(10), 2),
    ("\\r", Literal(13), 2),
    ("\\t", Literal(9), 2),
    ("\\0", Literal(0), 2),
    ("\\0128", Literal(10), 4),
    ("\\x{4A}", Literal(74), 6),
    ("\\12", Literal(10), 3),
    ("\\377", Literal(255), 4),
    ("\\1000000000000", Literal(64), 4),
    ("\\.", Literal(46), 2),
    ("\\\\", Literal(92), 2),
    ("\\_", Literal(95), 2),
];

#[test]
fn characters(rt: HostRuntime) {
    all_begin(&rt, PLAIN, CHARACTERS);
}

/// A text, the set that it begins with, whether as its complement, and where it ends.
type SetRow = (&'static str, SetName, bool, usize);

/// Each text begins with its set.
fn all_sets(rt: &impl Abort, flags: LexFlags, rows: &[SetRow]) {
    for (text, set, not, after) in rows {
        let (set, not) = (*set, *not);
        assert!(rt;
            begins(flags, text, Token::Set { set, not }, *after),
            "{text}"
        );
    }
}

const SETS: &[SetRow] = &[
    ("\\d", SetName::Digit, false, 2),
    ("\\D", SetName::Digit, true, 2),
    ("\\s", SetName::Space, false, 2),
    ("\\S", SetName::Space, true, 2),
    ("\\w", SetName::Word, false, 2),
    ("\\W", SetName::Word, true, 2),
    ("\\h", SetName::H, false, 2),
    ("\\H", SetName::H, true, 2),
    ("\\v", SetName::V, false, 2),
    ("\\V", SetName::V, true, 2),
];

/// A text, the places of the property's name in it, whether it is a complement, and where it ends.
type PropertyRow = (&'static str, usize, usize, bool, usize);

const PROPERTIES: &[PropertyRow] = &[
    ("\\pL", 2, 3, false, 3),
    ("\\PL", 2, 3, true, 3),
    ("\\p{Lu}", 3, 5, false, 6),
    ("\\P{Lu}", 3, 5, true, 6),
    ("\\p{^Lu}", 4, 6, true, 7),
    ("\\P{^Lu}", 4, 6, false, 7),
    ("\\p{}", 3, 3, false, 4),
];

/// Each text begins with its property.
fn all_properties(rt: &impl Abort, flags: LexFlags) {
    for (text, from, to, not, after) in PROPERTIES {
        let (from, to, not) = (*from, *to, *not);
        assert!(rt;
            begins(flags, text, Token::Property { from, to, not }, *after),
            "{text}"
        );
    }
}

const ESCAPES: &[Row] = &[
    ("\\N", Token::NotNewline, 2),
    ("\\N{3}", Token::NotNewline, 2),
    ("\\N{3,}", Token::NotNewline, 2),
    ("\\R", Token::LineBreak, 2),
    ("\\K", Token::KeepOut, 2),
    ("\\b", Token::Boundary { not: false }, 2),
    ("\\B", Token::Boundary { not: true }, 2),
    ("\\A", Token::SubjectStart, 2),
    ("\\Z", Token::EndOrNewline, 2),
    ("\\z", Token::SubjectEnd, 2),
    ("\\G", Token::StartGiven, 2),
    ("\\Q", Token::QuoteOn, 2),
    ("\\E", Token::QuoteOff, 2),
];

#[test]
fn escapes_that_are_no_characters(rt: HostRuntime) {
    all_sets(&rt, PLAIN, SETS);
    all_sets(&rt, IN_CLASS, SETS);
    all_begin(&rt, PLAIN, ESCAPES);
    all_properties(&rt, PLAIN);
    all_properties(&rt, IN_CLASS);
}

const REFERENCES: &[Row] = &[
    ("\\1", Reference(Target::Number(1)), 2),
    ("\\9", Reference(Target::Number(9)), 2),
    ("\\8a", Reference(Target::Number(8)), 2),
    ("\\81", Reference(Target::Number(81)), 3),
    ("\\g{-2}", Reference(Target::Minus(2)), 6),
    ("\\g<3>", CallTo(Target::Number(3)), 5),
    ("(?R)", CallTo(Target::Number(0)), 4),
    ("(?0)", CallTo(Target::Number(0)), 4),
    ("(?-1)", CallTo(Target::Minus(1)), 5),
];

const AFTER_TEN_GROUPS: LexFlags = LexFlags {
    groups: 10,
    ..PLAIN
};

/// Ten groups stand before.
const NUMBERS: &[Row] = &[
    ("\\10", Reference(Target::Number(10)), 3),
    ("\\11", Literal(9), 3),
];

#[test]
fn references_and_calls(rt: HostRuntime) {
    all_begin(&rt, PLAIN, REFERENCES);
    all_begin(&rt, AFTER_TEN_GROUPS, NUMBERS);
}

/// What stands with a name.
#[derive(Clone, Copy)]
enum Naming {
    OfGroup,
    Referring,
    Calling,
}

use Naming::{Calling, OfGroup, Referring};

/// A text that begins with a name in its brackets, what stands with the name, and its places.
type NameRow = (&'static str, Naming, usize, usize);

/// Each text begins with its name, and ends with the bracket after it.
fn all_named(rt: &impl Abort, flags: LexFlags, rows: &[NameRow]) {
    for (text, naming, from, to) in rows {
        let (from, to) = (*from, *to);
        let token = match naming {
            OfGroup => Open(OpenKind::Named { from, to }),
            Referring => Reference(Target::Named { from, to }),
            Calling => CallTo(Target::Named { from, to }),
        };
        assert!(rt; begins(flags, text, token, to.saturating_add(1)), "{text}");
    }
}

const BY_NAME: &[NameRow] = &[
    ("\\k<_a1>", Referring, 3, 6),
    ("(?P=_a1)", Referring, 4, 7),
    ("(?&_a1)", Calling, 3, 6),
    ("(?P>_a1)", Calling, 4, 7),
];

#[test]
fn references_and_calls_by_name(rt: HostRuntime) {
    all_named(&rt, PLAIN, BY_NAME);
}

const GROUPS: &[Row] = &[
    ("(a", Open(Capture), 1),
    ("(", Open(Capture), 1),
    ("(*", Open(Capture), 1),
    ("(*1)", Open(Capture), 1),
    ("(*)", Open(Capture), 1),
    ("(?:", Open(Plain), 3),
    ("(?>", Open(Atomic), 3),
    ("(*atomic:", Open(Atomic), 9),
    ("(?|", Open(BranchReset), 3),
];

const NAMED_GROUPS: &[NameRow] = &[
    ("(?<ab>", OfGroup, 3, 5),
    ("(?'ab'", OfGroup, 3, 5),
    ("(?P<ab>", OfGroup, 4, 6),
    (
        "(?<a23456789012345678901234567890123456789012345678901234567890123456789012345678901\
         23456789012345678901234567890123456789012345678>",
        OfGroup,
        3,
        131,
    ),
];

#[test]
fn groups(rt: HostRuntime) {
    all_begin(&rt, PLAIN, GROUPS);
    all_named(&rt, PLAIN, NAMED_GROUPS);
}

/// Texts between blanks, and whether the lookaround that each of them opens is ahead, positive and atomic.
type LookRow = (&'static str, bool, bool, bool);

const LOOKAROUNDS: &[LookRow] = &[
    ("(?= (*pla: (*positive_lookahead:", true, true, true),
    ("(?! (*nla: (*negative_lookahead:", true, false, true),
    ("(?<= (*plb: (*positive_lookbehind:", false, true, true),
    ("(?<! (*nlb: (*negative_lookbehind:", false, false, true),
    ("(?* (*napla:", true, true, false),
    ("(*non_atomic_positive_lookahead:", true, true, false),
    ("(?<* (*naplb:", false, true, false),
    ("(*non_atomic_positive_lookbehind:", false, true, false),
];

#[test]
fn lookarounds(rt: HostRuntime) {
    for (texts, ahead, positive, atomic) in LOOKAROUNDS {
        let kind = Look {
            ahead: *ahead,
            positive: *positive,
            atomic: *atomic,
        };
        for text in texts.split(' ') {
            assert!(rt; begins(PLAIN, text, Open(kind), text.len()), "{text}");
        }
    }
}

/// A text, the verb that it begins with, the places of its name, and where it ends.
type VerbRow = (&'static str, VerbKind, usize, usize, usize);

const VERBS: &[VerbRow] = &[
    ("(*ACCEPT)", VerbKind::Accept, 8, 8, 9),
    ("(*FAIL)", VerbKind::Fail, 6, 6, 7),
    ("(*F)", VerbKind::Fail, 3, 3, 4),
    ("(*COMMIT)", VerbKind::Commit, 8, 8, 9),
    ("(*PRUNE)", VerbKind::Prune, 7, 7, 8),
    ("(*SKIP)", VerbKind::Skip, 6, 6, 7),
    ("(*THEN)", VerbKind::Then, 6, 6, 7),
    ("(*MARK:ab)", VerbKind::Mark, 7, 9, 10),
    ("(*:a(b)c)", VerbKind::Mark, 3, 6, 7),
    ("(*F:\\E)", VerbKind::Fail, 4, 6, 7),
    ("(*SKIP:)", VerbKind::Skip, 7, 7, 8),
];

const START_ITEMS: &[Row] = &[
    ("(*CR)", Start(StartItem::NewlineIs(Newline::Cr)), 5),
    ("(*LF)", Start(StartItem::NewlineIs(Newline::Lf)), 5),
    ("(*CRLF)", Start(StartItem::NewlineIs(Newline::CrLf)), 7),
    (
        "(*ANYCRLF)",
        Start(StartItem::NewlineIs(Newline::AnyCrLf)),
        10,
    ),
    ("(*ANY)", Start(StartItem::NewlineIs(Newline::Any)), 6),
    ("(*NUL)", Start(StartItem::NewlineIs(Newline::Nul)), 6),
    ("(*UTF)", Start(StartItem::Utf), 6),
    ("(*UCP)", Start(StartItem::Ucp), 6),
    ("(*NOTEMPTY)", Start(StartItem::NotEmpty), 11),
    ("(*NOTEMPTY_ATSTART)", Start(StartItem::NotEmptyAtStart), 19),
    ("(*NO_START_OPT)", Start(StartItem::NoStartOpt), 15),
    ("(*NO_AUTO_POSSESS)", Start(StartItem::NoEffect), 18),
    ("(*NO_DOTSTAR_ANCHOR)", Start(StartItem::NoEffect), 20),
    ("(*NO_JIT)", Start(StartItem::NoEffect), 9),
    ("(*BSR_ANYCRLF)", Start(StartItem::BsrIs(Bsr::AnyCrLf)), 14),
    ("(*BSR_UNICODE)", Start(StartItem::BsrIs(Bsr::Unicode)), 14),
    ("(*LIMIT_MATCH=007)", Start(StartItem::LimitMatch(7)), 18),
    (
        "(*LIMIT_MATCH=4294967295)",
        Start(StartItem::LimitMatch(4_294_967_295)),
        25,
    ),
];

#[test]
fn verbs_and_start_items(rt: HostRuntime) {
    for (text, verb, from, to, after) in VERBS {
        let (verb, from, to) = (*verb, *from, *to);
        assert!(rt;
            begins(PLAIN, text, VerbItem { verb, from, to }, *after),
            "{text}"
        );
    }
    all_begin(&rt, PLAIN, START_ITEMS);
}

/// A text, the quantifier that it begins with, and where that ends.
type QuantifierRow = (&'static str, u16, Option<u16>, QuantMode, usize);

/// Each text begins with its quantifier.
fn all_quantifiers(rt: &impl Abort, flags: LexFlags, rows: &[QuantifierRow]) {
    for (text, min, max, mode, after) in rows {
        let (min, max, mode) = (*min, *max, *mode);
        assert!(rt;
            begins(flags, text, Quantifier { min, max, mode }, *after),
            "{text}"
        );
    }
}

const QUANTIFIERS: &[QuantifierRow] = &[
    ("*", 0, None, Greedy, 1),
    ("+", 1, None, Greedy, 1),
    ("?", 0, Some(1), Greedy, 1),
    ("*?", 0, None, Lazy, 2),
    ("++", 1, None, Possessive, 2),
    ("??", 0, Some(1), Lazy, 2),
    ("{3}", 3, Some(3), Greedy, 3),
    ("{3}+", 3, Some(3), Possessive, 4),
    ("{3,}", 3, None, Greedy, 4),
    ("{3,}?", 3, None, Lazy, 5),
    ("{3,5}", 3, Some(5), Greedy, 5),
    ("{0,65535}*", 0, Some(65_535), Greedy, 9),
    ("{007}", 7, Some(7), Greedy, 5),
    ("{,5}", 0, Some(5), Greedy, 4),
    ("{,0}?", 0, Some(0), Lazy, 5),
    ("{ 3}", 3, Some(3), Greedy, 4),
    ("{3\t}+", 3, Some(3), Possessive, 5),
    ("{ \t 3 \t , \t 5 \t }", 3, Some(5), Greedy, 17),
    ("{ 3 , } +", 3, None, Greedy, 7),
    ("{\t,\t5\t}?", 0, Some(5), Lazy, 8),
    ("* +", 0, None, Greedy, 1),
];

/// Braces that stand for themselves.
const BRACES: &[&str] = &[
    "{",
    "{}",
    "{,}",
    "{a}",
    "{1",
    "{1,",
    "{1,2",
    "{1,2,3}",
    "{-1}",
    "{ }",
    "{ , }",
    "{,,2}",
    "{1 2}",
    "{1,2 3}",
    "{,2,}",
    "{ 1",
    "{ 1 , 2 ",
    "{\n1}",
    "{1\x0b}",
    "{1,\x0c2}",
    "{\u{a0}1}",
    "{(?#a)1}",
    "{#\n1}",
    "{+1}",
    "{,-1}",
];

const AFTER_BLANKS: &[QuantifierRow] = &[
    ("* +", 0, None, Possessive, 3),
    ("* #?\n\t+", 0, None, Possessive, 7),
    ("* ?", 0, None, Greedy, 1),
    ("*(?#a)+", 0, None, Greedy, 1),
    ("*#+", 0, None, Greedy, 1),
    ("{ , 5 } +", 0, Some(5), Possessive, 9),
];

#[test]
fn quantifiers(rt: HostRuntime) {
    all_quantifiers(&rt, PLAIN, QUANTIFIERS);
    for text in BRACES {
        all_begin(&rt, PLAIN, &[(*text, Literal(0x7B), 1)]);
        all_begin(&rt, EXTENDED, &[(*text, Literal(0x7B), 1)]);
    }
    all_quantifiers(&rt, EXTENDED, AFTER_BLANKS);
}

const CLASS: Token = ClassStart { negated: false };

const NEGATED_CLASS: Token = ClassStart { negated: true };

const METACHARACTERS: &[Row] = &[
    ("", Token::End, 0),
    (".", Token::Dot, 1),
    ("^", Token::Caret, 1),
    ("$", Token::Dollar, 1),
    ("|", Token::Bar, 1),
    (")", Token::Close, 1),
    ("[", CLASS, 1),
    ("[^]", NEGATED_CLASS, 2),
    ("[:alpha]", CLASS, 1),
    ("[:a]:]", CLASS, 1),
    ("[^:alpha:]", NEGATED_CLASS, 2),
    ("[\\E^a]", NEGATED_CLASS, 4),
    ("[\\Q\\E\\E^^]", NEGATED_CLASS, 8),
    ("[\\Q^]", CLASS, 1),
    ("[ ^a]", CLASS, 1),
    ("[\\E]a]", CLASS, 1),
    ("(?#a\\)b)", Passed, 6),
];

const SPACED: LexFlags = LexFlags {
    extended_more: true,
    ..EXTENDED
};

const QUOTING_IN_CLASS: LexFlags = LexFlags {
    in_class: true,
    ..QUOTING
};

const QUOTED: &[Row] = &[
    ("\\E", Token::QuoteOff, 2),
    ("", Token::End, 0),
    ("\\d", Literal(92), 1),
    ("[", Literal(91), 1),
    ("(", Literal(40), 1),
    ("*", Literal(42), 1),
    ("\\", Literal(92), 1),
];

const IN_SPACES: Row = ("[ \t\\E ^ ]a]", NEGATED_CLASS, 7);

#[test]
fn other_metacharacters(rt: HostRuntime) {
    all_begin(&rt, PLAIN, METACHARACTERS);
    all_begin(&rt, SPACED, &[IN_SPACES]);
    all_begin(&rt, QUOTING, QUOTED);
    all_begin(&rt, QUOTING_IN_CLASS, &[("]", Literal(93), 1)]);
}

const EXTENDED_MORE: LexFlags = LexFlags {
    extended_more: true,
    ..PLAIN
};

const EXTENDED_UTF: LexFlags = LexFlags {
    utf: true,
    ..EXTENDED
};

const BLANKS: &[Row] = &[
    ("\t", Passed, 1),
    ("\n", Passed, 1),
    ("\x0b", Passed, 1),
    ("\x0c", Passed, 1),
    ("\r", Passed, 1),
    (" ", Passed, 1),
];

const BLANKS_OF_UNICODE: &[Row] = &[
    ("\u{85}", Passed, 2),
    ("\u{200e}", Passed, 3),
    ("\u{200f}", Passed, 3),
    ("\u{2028}", Passed, 3),
    ("\u{2029}", Passed, 3),
    (" \u{85}", Passed, 1),
    ("\u{a0}", Literal(0xA0), 2),
    ("\u{180e}", Literal(0x180E), 3),
    ("\u{200d}", Literal(0x200D), 3),
    ("\u{202f}", Literal(0x202F), 3),
    ("\u{3000}", Literal(0x3000), 3),
];

const COMMENTS: &[Row] = &[
    ("\u{2028}", Literal(0xE2), 1),
    ("#a", Passed, 2),
    ("\\#", Literal(35), 2),
];

/// What ends a comment, a text that begins with one, and where it ends.
type Comment = (Newline, &'static str, usize);

const LINES: &[Comment] = &[
    (Newline::Cr, "#\x0c\rb\n\0\r\n", 3),
    (Newline::Lf, "#\x0c\rb\n\0\r\n", 5),
    (Newline::CrLf, "#\x0c\rb\n\0\r\n", 8),
    (Newline::AnyCrLf, "#\x0c\rb\n\0\r\n", 3),
    (Newline::Any, "#\x0c\rb\n\0\r\n", 2),
    (Newline::Nul, "#\x0c\rb\n\0\r\n", 6),
    (Newline::Cr, "#\n\n", 3),
];

#[test]
fn white_space_and_comments(rt: HostRuntime) {
    all_begin(&rt, EXTENDED, BLANKS);
    all_begin(&rt, EXTENDED_MORE, BLANKS);
    all_begin(&rt, EXTENDED_UTF, BLANKS_OF_UNICODE);
    all_begin(&rt, EXTENDED, COMMENTS);
    assert!(rt; next_token(b"\x85", 0, EXTENDED) == Ok((Passed, 1)));
    assert!(rt; next_token(b"\x85", 0, PLAIN) == Ok((Literal(133), 1)));
}

#[test]
fn newlines_end_comments(rt: HostRuntime) {
    for (newline, text, after) in LINES {
        let flags = LexFlags {
            newline: *newline,
            ..EXTENDED
        };
        all_begin(&rt, flags, &[(*text, Passed, *after)]);
    }
}

const MEMBERS: &[Row] = &[
    ("]", Token::ClassEnd, 1),
    ("-", Token::Hyphen, 1),
    ("^", Literal(94), 1),
    ("[", Literal(91), 1),
    ("[a", Literal(91), 1),
    ("[:a]:]", Literal(91), 1),
    ("(", Literal(40), 1),
    (" ", Literal(32), 1),
    ("\\b", Literal(8), 2),
    ("\\n", Literal(10), 2),
    ("\\ca", Literal(1), 3),
    ("\\12", Literal(10), 3),
    ("\\7", Literal(7), 2),
    ("\\0101", Literal(8), 4),
    ("\\8", Literal(56), 2),
    ("\\91", Literal(57), 2),
    ("\\x{41}", Literal(65), 6),
    ("\\]", Literal(93), 2),
    ("\\Q", Token::QuoteOn, 2),
    ("\\E", Token::QuoteOff, 2),
];

const POSIX_NAMES: &[SetRow] = &[
    ("[:alpha:]", SetName::Alpha, false, 9),
    ("[:lower:]", SetName::Lower, false, 9),
    ("[:upper:]", SetName::Upper, false, 9),
    ("[:alnum:]", SetName::Alnum, false, 9),
    ("[:ascii:]", SetName::Ascii, false, 9),
    ("[:blank:]", SetName::Blank, false, 9),
    ("[:cntrl:]", SetName::Cntrl, false, 9),
    ("[:digit:]", SetName::Digit, false, 9),
    ("[:graph:]", SetName::Graph, false, 9),
    ("[:print:]", SetName::Print, false, 9),
    ("[:punct:]", SetName::Punct, false, 9),
    ("[:space:]", SetName::Space, false, 9),
    ("[:word:]", SetName::Word, false, 8),
    ("[:xdigit:]", SetName::Xdigit, false, 10),
    ("[:^word:]", SetName::Word, true, 9),
];

const SPACED_IN_CLASS: LexFlags = LexFlags {
    extended_more: true,
    ..IN_CLASS
};

const BLANKS_IN_CLASS: &[Row] = &[
    (" ", Passed, 1),
    ("\t", Passed, 1),
    ("\n", Literal(10), 1),
    ("#", Literal(35), 1),
];

#[test]
fn tokens_in_classes(rt: HostRuntime) {
    all_begin(&rt, IN_CLASS, MEMBERS);
    all_sets(&rt, IN_CLASS, POSIX_NAMES);
    all_begin(&rt, SPACED_IN_CLASS, BLANKS_IN_CLASS);
}

const CHARACTERS_OF_UTF: &[Row] = &[
    ("a", Literal(0x61), 1),
    ("\u{E9}a", Literal(0xE9), 2),
    ("\u{20AC}a", Literal(0x20AC), 3),
    ("\u{1F600}a", Literal(0x1F600), 4),
];

const ESCAPES_OF_UTF: &[Row] = &[
    ("\\\u{E9}", Literal(0xE9), 3),
    ("\\x{10ffff}", Literal(0x10_FFFF), 10),
];

const UTF_QUOTING: LexFlags = LexFlags {
    quoting: true,
    ..UTF
};

const UTF_IN_CLASS: LexFlags = LexFlags {
    in_class: true,
    ..UTF
};

#[test]
fn characters_of_utf_8_are_whole(rt: HostRuntime) {
    all_begin(&rt, UTF, CHARACTERS_OF_UTF);
    all_begin(&rt, UTF_QUOTING, CHARACTERS_OF_UTF);
    all_begin(&rt, UTF_IN_CLASS, CHARACTERS_OF_UTF);
    all_begin(&rt, UTF, ESCAPES_OF_UTF);
    all_begin(&rt, PLAIN, &[("\u{E9}", Literal(0xC3), 1)]);
    assert!(rt; next_token(b"\xE2\x82", 0, UTF) == Ok((Literal(0xE2), 1)));
    refused(&rt, UTF, "\\x{110000}", 134, 0);
    refused(&rt, UTF, "\\x{d800}", 173, 0);
}

const NAMES_IN_UTF: &[NameRow] = &[
    ("(?<stra\u{DF}e>", OfGroup, 3, 10),
    ("(?'\u{3C3}\u{663}_'", OfGroup, 3, 8),
    ("(?P<\u{10400}_\u{1D7D9}>", OfGroup, 4, 13),
    (
        "(?<\u{1D3}\u{1C5}\u{2B0}\u{5D0}\u{61}\u{30}>",
        OfGroup,
        3,
        13,
    ),
    (
        "(?<\u{E9}a23456789012345678901234567890123456789012345678901234567890123456789012345\
         678901234567890123456789012345678901234567890123456>",
        OfGroup,
        3,
        131,
    ),
    ("\\k<\u{E9}>", Referring, 3, 5),
    ("\\g{\u{E9}}", Referring, 3, 5),
    ("(?P=\u{E9})", Referring, 4, 6),
    ("(?&\u{E9})", Calling, 3, 5),
    ("(?P>\u{E9})", Calling, 4, 6),
    ("\\g<\u{E9}>", Calling, 3, 5),
];

/// A text that begins with a condition, its test, and where that ends.
type Condition = (&'static str, CondText, usize);

const CONDITIONS_IN_UTF: &[Condition] = &[
    (
        "(?(<\u{E9}>)",
        CondText::Group(Target::Named { from: 4, to: 6 }),
        7,
    ),
    (
        "(?('\u{E9}')",
        CondText::Group(Target::Named { from: 4, to: 6 }),
        7,
    ),
    (
        "(?(\u{E9})",
        CondText::Group(Target::Named { from: 3, to: 5 }),
        5,
    ),
    (
        "(?(R&\u{E9})",
        CondText::InCallOf(Target::Named { from: 5, to: 7 }),
        7,
    ),
];

/// In UTF names have letters, decimal digits and underscores of Unicode, at most 128 bytes of them.
#[test]
fn names_in_utf(rt: HostRuntime) {
    all_named(&rt, UTF, NAMES_IN_UTF);
    for (text, cond, to) in CONDITIONS_IN_UTF {
        let (cond, from, to) = (*cond, 3, *to);
        let token = Token::CondStart { cond, from, to };
        all_begin(&rt, UTF, &[(*text, token, to.saturating_add(1))]);
    }
}

const FAULTS_IN_UTF: &[(i32, &str)] = &[
    // A digit first, a combining mark, a letter number, another number, a connector that is no underscore.
    (
        144,
        "(?<\u{663}a> (?<\u{1D7D9}> \\k<\u{FF11}> (?<\u{301}> (?<\u{2160}> (?<\u{B2}> (?<\u{203F}>",
    ),
    (
        142,
        "(?<a\u{301}> (?<a\u{2160}> (?<a\u{B2}> (?<a\u{203F}> (?<\u{E9}",
    ),
    (
        148,
        "(?<\u{E9}a23456789012345678901234567890123456789012345678901234567890123456789012345\
         6789012345678901234567890123456789012345678901234567>",
    ),
];

#[test]
fn faults_of_names_in_utf(rt: HostRuntime) {
    all_refused(&rt, UTF, FAULTS_IN_UTF);
    refused(&rt, PLAIN, "(?<\u{E9}>", 144, 0);
    refused(&rt, PLAIN, "(?<a\u{E9}>", 142, 0);
}
