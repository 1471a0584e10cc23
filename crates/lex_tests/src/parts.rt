//! Tables of what the parts of tokens are read as, from pcre2pattern.
use pat_tree::Newline;
use std::process::Abort;
use token_parts::CondText::{Group, InCall, InCallOf};
use token_parts::Target::{Minus, Named, Number, Plus};
use token_parts::Token::{self, CallTo, CalloutItem, Literal, Reference};
use token_parts::{
    CondText, Fault, LexFlags, OptionMask, Target, begins_number, byte, callout, coded, comment,
    condition, group_escape, name_escape, numbered_call, octal, setting,
};

const PLAIN: LexFlags = LexFlags {
    utf: false,
    extended: false,
    extended_more: false,
    quoting: false,
    in_class: false,
    newline: Newline::Lf,
    groups: 0,
};

const UTF: LexFlags = LexFlags { utf: true, ..PLAIN };

/// The token of a text that begins with `(?`.
fn group_token(rt: &impl Abort, utf: bool, text: &[u8]) -> Result<(Token, usize), Fault> {
    assert!(rt; text.len() >= 2);
    if begins_number(text, 2) {
        return numbered_call(text, 0);
    }
    match byte(text, 2) {
        Some(b'#') => comment(text, 0),
        Some(b'C') => callout(text, 0),
        Some(b'(') => condition(text, utf, 0),
        _ => setting(text, 0),
    }
}

/// The token of a text that begins with a group, a reference, a call or a character by its code.
fn token_of(rt: &impl Abort, flags: LexFlags, text: &[u8]) -> Result<(Token, usize), Fault> {
    assert!(rt; text.len() >= 2);
    match text[1] {
        b'?' => group_token(rt, flags.utf, text),
        b'g' => group_escape(text, flags.utf, 0),
        b'k' => name_escape(text, flags.utf, 0),
        b'0'..=b'7' => octal(text, flags, 0, 1),
        c => coded(text, flags, c, 0),
    }
}

/// A text, the token that it begins with, and where that ends.
type Row = (&'static str, Token, usize);

/// The text begins with this token, which ends at a place.
fn begins(rt: &impl Abort, flags: LexFlags, text: &str, token: Token, after: usize) {
    let read = token_of(rt, flags, text.as_bytes());
    assert!(rt; read == Ok((token, after)), "{text}");
}

/// Each text begins with its token.
fn all_begin(rt: &impl Abort, flags: LexFlags, rows: &[Row]) {
    for (text, token, after) in rows {
        begins(rt, flags, text, *token, *after);
    }
}

/// The text's first token is refused.
fn refused(rt: &impl Abort, flags: LexFlags, text: &str, number: i32, at: usize) {
    let read = token_of(rt, flags, text.as_bytes());
    assert!(rt; read == Err(Fault { number, at }), "{text}");
}

/// The first token of each of the texts, which stand between blanks, is refused at its begin.
fn texts_refused(rt: &impl Abort, flags: LexFlags, number: i32, texts: &str) {
    for text in texts.split(' ') {
        refused(rt, flags, text, number, 0);
    }
}

const CHARACTERS: &[Row] = &[
    ("\\cz", Literal(26), 3),
    ("\\c[", Literal(27), 3),
    ("\\c{", Literal(59), 3),
    ("\\c ", Literal(96), 3),
    ("\\0", Literal(0), 2),
    ("\\0128", Literal(10), 4),
    ("\\00123", Literal(1), 4),
    ("\\377", Literal(255), 4),
    ("\\o{101}", Literal(65), 7),
    ("\\x", Literal(0), 2),
    ("\\xg", Literal(0), 2),
    ("\\x4g", Literal(4), 3),
    ("\\x4a1", Literal(74), 4),
    ("\\x{4A}", Literal(74), 6),
    ("\\x{0000fF}", Literal(255), 10),
];

const CHARACTERS_OF_UTF: &[Row] = &[
    ("\\x{10ffff}", Literal(0x10_FFFF), 10),
    ("\\777", Literal(511), 4),
    ("\\x{e000}", Literal(0xE000), 8),
];

#[test]
fn characters_by_their_codes(rt: HostRuntime) {
    all_begin(&rt, PLAIN, CHARACTERS);
    all_begin(&rt, UTF, CHARACTERS_OF_UTF);
    texts_refused(&rt, PLAIN, 134, "\\x{100} \\x{100g} \\o{400} \\400");
    texts_refused(&rt, UTF, 134, "\\x{110000}");
    texts_refused(&rt, UTF, 173, "\\x{d800} \\o{157777}");
}

const BY_NUMBER: &[Row] = &[
    ("\\g1", Reference(Number(1)), 3),
    ("\\g0", Reference(Number(0)), 3),
    ("\\g-12", Reference(Minus(12)), 5),
    ("\\g+2a", Reference(Plus(2)), 4),
    ("\\g{65535}", Reference(Number(65_535)), 9),
    ("\\g{-2}", Reference(Minus(2)), 6),
    ("\\g{+2}", Reference(Plus(2)), 6),
    ("\\g<3>", CallTo(Number(3)), 5),
    ("\\g'3'", CallTo(Number(3)), 5),
    ("\\g<+3>", CallTo(Plus(3)), 6),
    ("\\g'-3'", CallTo(Minus(3)), 6),
    ("(?0)", CallTo(Number(0)), 4),
    ("(?12)", CallTo(Number(12)), 5),
    ("(?+1)", CallTo(Plus(1)), 5),
    ("(?-1)", CallTo(Minus(1)), 5),
];

#[test]
fn references_and_calls_by_number(rt: HostRuntime) {
    all_begin(&rt, PLAIN, BY_NUMBER);
}

const NAME: Target = Named { from: 3, to: 6 };

const BY_NAME: &[Row] = &[
    ("\\g{_a1}", Reference(NAME), 7),
    ("\\k{_a1}", Reference(NAME), 7),
    ("\\k<_a1>", Reference(NAME), 7),
    ("\\k'_a1'", Reference(NAME), 7),
    ("\\g<_a1>", CallTo(NAME), 7),
    ("\\g'_a1'", CallTo(NAME), 7),
];

#[test]
fn references_and_calls_by_name(rt: HostRuntime) {
    all_begin(&rt, PLAIN, BY_NAME);
}

/// A text, the callout that it begins with: its number and the places of its text, and where it ends.
type Callout = (&'static str, u8, u32, u32, usize);

const CALLOUTS: &[Callout] = &[
    ("(?C)", 0, 0, 0, 4),
    ("(?C007)", 7, 0, 0, 7),
    ("(?C255)", 255, 0, 0, 7),
    ("(?C'')", 0, 4, 4, 6),
    ("(?C`a`)", 0, 4, 5, 7),
    ("(?C'it''s')", 0, 4, 9, 11),
    ("(?C\"a\")", 0, 4, 5, 7),
    ("(?C^a^)", 0, 4, 5, 7),
    ("(?C%a%)", 0, 4, 5, 7),
    ("(?C#a#)", 0, 4, 5, 7),
    ("(?C$a$)", 0, 4, 5, 7),
    ("(?C{a}}b{})", 0, 4, 9, 11),
];

#[test]
fn callouts(rt: HostRuntime) {
    for (text, number, from, to, after) in CALLOUTS {
        let token = CalloutItem {
            number: *number,
            text_from: *from,
            text_to: *to,
        };
        begins(&rt, PLAIN, text, token, *after);
    }
}

/// A text that begins with a condition, its test, and where that ends, with `)` after it.
type Condition = (&'static str, CondText, u8);

const CONDITIONS: &[Condition] = &[
    ("(?(12)", Group(Number(12)), 5),
    ("(?(+1)", Group(Plus(1)), 5),
    ("(?(-1)", Group(Minus(1)), 5),
    ("(?(<ab>)", Group(Named { from: 4, to: 6 }), 7),
    ("(?('ab')", Group(Named { from: 4, to: 6 }), 7),
    ("(?(ab)", Group(Named { from: 3, to: 5 }), 5),
    ("(?(Rx)", Group(Named { from: 3, to: 5 }), 5),
    ("(?(R1x)", Group(Named { from: 3, to: 6 }), 6),
    ("(?(<DEFINE>)", Group(Named { from: 4, to: 10 }), 11),
    ("(?(VERSION)", Group(Named { from: 3, to: 10 }), 10),
    ("(?(R12)", InCallOf(Number(12)), 6),
    ("(?(R9999999999)", InCallOf(Number(u32::MAX)), 14),
    ("(?(R&ab)", InCallOf(Named { from: 5, to: 7 }), 7),
    ("(?(R)", InCall, 4),
    ("(?(DEFINE)", CondText::Define, 9),
];

const LOOKAROUND: Token = Token::CondStart {
    cond: CondText::Lookaround,
    from: 2,
    to: 2,
};

const ON_LOOKAROUNDS: &[Row] = &[
    ("(?(?=a)", LOOKAROUND, 2),
    ("(?(*pla:a)", LOOKAROUND, 2),
    ("(?(?C1)(?=a)", LOOKAROUND, 2),
];

#[test]
fn conditions(rt: HostRuntime) {
    for (text, cond, to) in CONDITIONS {
        let (cond, from, to) = (*cond, 3, usize::from(*to));
        begins(
            &rt,
            PLAIN,
            text,
            Token::CondStart { cond, from, to },
            to + 1,
        );
    }
    all_begin(&rt, PLAIN, ON_LOOKAROUNDS);
}

/// The options of these letters, where a capital `X` stands for xx.
fn options(letters: &str) -> OptionMask {
    let letters = letters.as_bytes();
    OptionMask {
        i: letters.contains(&b'i'),
        m: letters.contains(&b'm'),
        s: letters.contains(&b's'),
        x: letters.contains(&b'x'),
        xx: letters.contains(&b'X'),
        n: letters.contains(&b'n'),
        j: letters.contains(&b'J'),
        u: letters.contains(&b'U'),
    }
}

/// A text that begins with a setting: whether it resets, the letters of what it sets and unsets, whether it opens a
/// group, and where it ends.
type Setting = (&'static str, bool, &'static str, &'static str, bool, usize);

const SETTINGS: &[Setting] = &[
    ("(?i)", false, "i", "", false, 4),
    ("(?)", false, "", "", false, 3),
    ("(?-)", false, "", "", false, 4),
    ("(?i-s:", false, "i", "s", true, 6),
    ("(?-J)", false, "", "J", false, 5),
    ("(?U)", false, "U", "", false, 4),
    ("(?imsxxnJU)", false, "imsxXnJU", "", false, 11),
    ("(?-imsxnJU)", false, "", "imsxXnJU", false, 11),
    ("(?x)", false, "x", "X", false, 4),
    ("(?xix)", false, "ix", "X", false, 6),
    ("(?xx)", false, "xX", "", false, 5),
    ("(?-x)", false, "", "xX", false, 5),
    ("(?-xx)", false, "", "xX", false, 6),
    ("(?^)", true, "", "", false, 4),
    ("(?^:", true, "", "", true, 4),
    ("(?^im:", true, "im", "", true, 6),
];

#[test]
fn option_settings(rt: HostRuntime) {
    for (text, reset, on, off, opens, after) in SETTINGS {
        let token = Token::OptionSet {
            reset: *reset,
            on: options(on),
            off: options(off),
            opens: *opens,
        };
        begins(&rt, PLAIN, text, token, *after);
    }
}

const FAULTS: &[(i32, &str)] = &[
    (102, "\\c \\c\n \\c\x7f"),
    (111, "(?a) (?^-i) (?i--s) (?+-a) (?+"),
    (126, "\\g{+0} \\g-0 (?-0) (?(+0)"),
    (128, "(?(1 (?(1x) (?(+) (?(<ab>"),
    (135, "\\o \\o7 \\o{} \\o{8} \\x{} \\x{g} \\x{1"),
    (138, "(?C256) (?C256"),
    (139, "(?C1 (?C1x) (?Ca) (?C'a) (?C'a'b) (?C'a''"),
    (142, "\\k{a (?(ab"),
    (144, "\\k<> \\g{} \\g< (?() (?(R&)"),
    (161, "\\g{65536} (?-65536 (?(99999999999999999999)"),
    (169, "\\g \\ga \\g{-} \\g<+ \\g{1 \\k \\ka"),
    (195, "(?(VERSION=1) (?(VERSION>=1)"),
];

#[test]
fn faults(rt: HostRuntime) {
    for (number, texts) in FAULTS {
        texts_refused(&rt, PLAIN, *number, texts);
    }
    for text in "(?i (?i- (?- (?^ (?C (?( (?1 (?1x)".split(' ') {
        refused(&rt, PLAIN, text, 114, text.len());
    }
    assert!(rt; comment(b"(?#a", 0) == Err(Fault::new(118, 4)));
    assert!(rt; comment(b"(?#a\\)b)", 0) == Ok((Token::Passed, 6)));
}
