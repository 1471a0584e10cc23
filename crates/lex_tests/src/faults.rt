//! Tables of faults, and texts of any bytes.
use crate::tokens::{EXTENDED, IN_CLASS, PLAIN, QUOTING, all_refused, refused};
use pat_lex::{LexFlags, Token, next_token};
use pat_tree::Newline;
use std::process::Abort;

const FAULTS: &[(i32, &str)] = &[
    (101, "\\"),
    (102, "\\c \\c\n \\c\x7f"),
    (103, "\\y \\F"),
    (104, "{3,1} {3,\t1}"),
    (
        105,
        "{65536} {1,65536} {99999999999999999999,1} {,65536} {\t70000,1}",
    ),
    (111, "(?a) (?Px (?P'n' (?^-i) (?i--s) (?+-a) (?+"),
    (112, "[:alpha:] [:^a:] [:a\\]b:]"),
    (113, "[.x.] [=x=]"),
    (126, "\\g{+0} \\g-0 (?-0) (?(+0)"),
    (128, "(?(1 (?(1x) (?(+) (?(<ab>"),
    (134, "\\x{100} \\x{100g} \\o{400} \\400"),
    (135, "\\o \\o7 \\o{} \\o{8} \\x{} \\x{g} \\x{1"),
    (138, "(?C256) (?C256"),
    (139, "(?C1 (?C1x) (?Ca) (?C'a) (?C'a'b) (?C'a''"),
    (142, "(?<a- (?<a (?'a> (?(ab \\k{a (?&a"),
    (144, "(?< (?<> (?<1a> (?&) (?P= (?() (?(R&)"),
    (144, "\\k<> \\g{} \\g<"),
    (146, "\\p \\p1 \\P{L"),
    (
        148,
        "(?<a23456789012345678901234567890123456789012345678901234567890123456789012345678901\
         234567890123456789012345678901234567890123456789>",
    ),
    (160, "(*FOO) (*pla (*pla) (*foo: (*accept) (*ACCEPT"),
    (160, "(*MARK:a (*CR: (*LIMIT_MATCH) (*LIMIT_MATCH=)"),
    (160, "(*LIMIT_MATCH=x) (*LIMIT_MATCH=4294967296)"),
    (160, "(*LIMIT_HEAP=1)"),
    (161, "\\99999 \\g{65536} (?-65536 (?(99999999999999999999)"),
    (166, "(*MARK) (*MARK:) (*:)"),
    (169, "\\g \\ga \\g{-} \\g<+ \\g{1 \\k \\ka"),
    (195, "\\C \\X \\L \\l \\U \\u \\N{U+41} \\N{,} \\N{\t}"),
    (195, "(*sr: (*asr: (*script_run: (*atomic_script_run:"),
    (195, "(?(VERSION=1) (?(VERSION>=1)"),
];

#[test]
fn faults(rt: HostRuntime) {
    all_refused(&rt, PLAIN, FAULTS);
}

#[test]
fn faults_of_what_the_end_cuts_off(rt: HostRuntime) {
    for text in "(? (?P (?i (?i- (?- (?^ (?C (?( (?R (?Rx) (?1 (?1x)".split(' ') {
        refused(&rt, PLAIN, text, 114, text.len());
    }
    refused(&rt, PLAIN, "(?#a", 118, 4);
}

const FAULTS_IN_CLASSES: &[(i32, &str)] = &[
    (101, "\\"),
    (102, "\\c"),
    (103, "\\y"),
    (107, "\\B \\R \\N \\N{3} \\X \\A \\Z \\z"),
    (107, "\\G \\K \\g \\g{1} \\k"),
    (113, "[.x.] [=x=]"),
    (130, "[:foo:] [:<:] [:>:] [::]"),
    (134, "\\400"),
    (135, "\\o{8}"),
    (146, "\\p"),
    (195, "\\C \\u"),
];

#[test]
fn faults_in_classes(rt: HostRuntime) {
    all_refused(&rt, IN_CLASS, FAULTS_IN_CLASSES);
}

/// At each place the text has a token that moves on within it, or a fault with a place in it.
fn moves_everywhere(rt: &impl Abort, flags: LexFlags, text: &[u8]) {
    for at in 0..=text.len() {
        let moves = match next_token(text, at, flags) {
            Ok((Token::End, after)) => at == text.len() && after == at,
            Ok((_, after)) => at < after && after <= text.len(),
            Err(fault) => fault.at == at || fault.at == text.len(),
        };
        assert!(rt; moves);
    }
}

const MANY_FLAGS: &[LexFlags] = &[
    PLAIN,
    EXTENDED,
    QUOTING,
    IN_CLASS,
    LexFlags {
        extended_more: true,
        newline: Newline::Any,
        groups: 99,
        ..IN_CLASS
    },
];

#[test]
fn every_text_of_two_bytes_moves_on(rt: HostRuntime) {
    for flags in MANY_FLAGS {
        for pair in 0..=u16::MAX {
            moves_everywhere(&rt, *flags, &pair.to_be_bytes());
        }
    }
}

const TEXTS: &[&str] = &[
    "\\x{10ffff}\\o{177}\\cA\\0123\\777\\89\\1234567890123456789012",
    "\\p{^Greek}\\P{L&}\\pL\\N{3,}\\N{U+41}\\R\\K\\C\\X\\Q[(*\\E\\E",
    "\\g{12}\\g{-1}\\g{+1}\\g{name}\\g1\\g-1\\g+1\\g<1>\\g'-1'\\g<+1>\\g'name'",
    "\\k<name>\\k'name'\\k{name}(?P=name)(?P>name)(?&name)(?R)(?0)(?12)(?+1)(?-1)",
    "a*+b+?c?d{2}e{3,}+f{4,5}?g{,6}h{}i{7,8,9}j{70000}k{9,8}l{ 1\t, 2 }m{ }",
    "(?:a)(?>b)(?|c|d)(?<e>f)(?'g'h)(?P<i>j)(?=k)(?!l)(?<=m)(?<!n)(?*o)(?<*p)",
    "(*pla:a)(*positive_lookahead:b)(*napla:c)(*non_atomic_positive_lookbehind:d)(*sr:e)",
    "(?imsxnJU-imsxnJU)(?^i:a)(?xx-xx)(?^-i)(?i--s)(?)(?-)(?^)(?",
    "(?(1)a|b)(?(+1)a)(?(-1)a)(?(<n>)a)(?('n')a)(?(n)a)(?(R)a)(?(R1)a)(?(R&n)a)",
    "(?(DEFINE)a)(?(?=a)b)(?(?C1)(?!a)b)(?(VERSION>=10.4)a)(?(*pla:a)b)",
    "(?#comment)(?C)(?C255)(?C'a''b')(?C{a}}b})(?C`a`)(?C#a##b#)(?C999)(?C$a",
    "(*ACCEPT)(*F)(*FAIL:a)(*COMMIT)(*PRUNE:b)(*SKIP:c)(*THEN)(*MARK:d)(*:e)(*MARK)(*FOO)",
    "(*UTF)(*UCP)(*CRLF)(*BSR_ANYCRLF)(*LIMIT_MATCH=4294967295)(*LIMIT_MATCH=4294967296)",
    "[:alpha:][.a.][=b=][[:alpha:][:^digit:][.c.][=d=][:foo:][:<:]\\]-\\-a-z\\b\\8\\777]",
    " \t\n\x0b\x0c\r#a\r\n#b\n* #c\n+?#",
    "\\\\\\\\((((((((??++**{{{{}}}}[[[[]]]]^^$$||..",
];

/// The text moves on, cut off anywhere.
fn cut_off_anywhere(rt: &impl Abort, flags: LexFlags, text: &[u8]) {
    for end in 0..=text.len() {
        moves_everywhere(rt, flags, &text[..end]);
    }
}

#[test]
fn texts_cut_off_anywhere_move_on(rt: HostRuntime) {
    for flags in MANY_FLAGS {
        for text in TEXTS {
            cut_off_anywhere(&rt, *flags, text.as_bytes());
        }
    }
}
