//! Replacements, with what they write or why they are refused. The rows are those of
//! pcre2_substitute of 10.42, but for names, of which it has none of more than 32 bytes,
//! and in UTF none with characters past ASCII.
ghost use Rattle.std.specs.Prelude.{◌∷◌, [], Some, None, codes};

use std::alloc::Global;
use std::process::Abort;
use std::test::Fail;
use subst_plan::{Groups, Lookup, Plan, PlanError, expand, expand_into};

/// The match of `(*MARK:Tag)(?J)(?<one>wO)(?<two>x)?(?<both>y)?(?<both>Rd)` on `wORd`.
struct Sample;

impl Groups for Sample {
    ghost means = { λ _. record {
      texts = Some (codes "wORd") ∷ Some (codes "wO") ∷ None ∷ None ∷ Some (codes "Rd") ∷ [];
      names = (codes "both", 3) ∷ (codes "both", 4) ∷ (codes "one", 1) ∷ (codes "two", 2) ∷ [];
      mark = codes "Tag";
    } };

    fn by_number(&self, n: u32) -> Lookup<'_> {
        match n {
            0 => Lookup::Text(b"wORd"),
            1 => Lookup::Text(b"wO"),
            2 | 3 => Lookup::Unset,
            4 => Lookup::Text(b"Rd"),
            _ => Lookup::Unknown,
        }
    }

    fn by_name(&self, name: &[u8]) -> Lookup<'_> {
        if b"both".as_slice() == name {
            Lookup::Text(b"Rd")
        } else if b"one".as_slice() == name {
            Lookup::Text(b"wO")
        } else if b"two".as_slice() == name {
            Lookup::Unset
        } else {
            Lookup::Unknown
        }
    }

    fn mark(&self) -> &[u8] {
        b"Tag"
    }
}

// A row has its options (x extended, u UTF, e unset groups are empty, n unknown groups are unset; `-` for none), a
// replacement, ` => ` and what it writes, or `!` and why it is refused. Each of its characters is the byte of its code.

/// Groups and marks.
const REFERENCES: &[&str] = &[
    "-  => ",
    "- plain => plain",
    "- $$ => $",
    "- $ => !BadReplacement",
    "- a$ => !BadReplacement",
    "- $  => !BadReplacement",
    "- $-1 => !BadReplacement",
    "- $0 => wORd",
    "- [$1] => [wO]",
    "- $1a => wOa",
    "- ${1}0 => wO0",
    "- $10 => !NoGroup",
    "- $00001 => wO",
    "- $5 => !NoGroup",
    "- $65535 => !NoGroup",
    "n $65536 => !Unset",
    "- $4294967297 => !NoGroup",
    "ne $18446744073709551617 => ",
    "- $2 => !Unset",
    "e $2 => ",
    "e $3a => a",
    "n $5 => !Unset",
    "ne $5 => ",
    "- $one => wO",
    "- $one- => wO-",
    "- $onea => !NoGroup",
    "- ${one}a => wOa",
    "- $two => !Unset",
    "- $both => Rd",
    "- ${both} => Rd",
    "- $none => !NoGroup",
    "ne $none => ",
    "- $_ => !NoGroup",
    "- $1_ => wO_",
    "- $*MARK => Tag",
    "- ${*MARK} => Tag",
    "- $*MARKS => !BadReplacement",
    "- $*MAR => !BadReplacement",
    "- $*mark => !BadReplacement",
    "- $*MARK! => Tag!",
    "- ${*MARK => !MissingBrace",
    "x ${*MARK:-x} => !MissingBrace",
    "- ${*} => !BadReplacement",
    "- $* => !BadReplacement",
    "- $\u{c3}\u{a9} => !BadReplacement",
    "u $\u{c3}\u{a9} => !NoGroup",
    "u ${\u{c3}\u{a9}} => !NoGroup",
    "u $one\u{c3}\u{a9} => !NoGroup",
    "- $one\u{c3}\u{a9} => wO\u{c3}\u{a9}",
    "u ${one}\u{c3}\u{a9} => wO\u{c3}\u{a9}",
    "u $1\u{c3}\u{a9} => wO\u{c3}\u{a9}",
    "u $\u{d9}\u{a3} => !NoGroup",
    "u $\u{cc}\u{81} => !BadReplacement",
    "u $one\u{cc}\u{81} => wO\u{cc}\u{81}",
    "- $*MARK\u{c3}\u{a9} => Tag\u{c3}\u{a9}",
    "u $*MARK\u{c3}\u{a9} => !BadReplacement",
    "- ${ => !BadReplacement",
    "- ${} => !BadReplacement",
    "- ${1 => !MissingBrace",
    "- ${1a} => !MissingBrace",
    "- ${one => !MissingBrace",
    "- ${one } => !MissingBrace",
    "- ${ one} => !BadReplacement",
    "- ${$} => !BadReplacement",
    "- ${-1} => !BadReplacement",
    "- $a23456789012345678901234567890123456789012345678901234567890123456789012345678901\
     23456789012345678901234567890123456789012345678 => !NoGroup",
    "- $a23456789012345678901234567890123456789012345678901234567890123456789012345678901\
     234567890123456789012345678901234567890123456789 => !BadReplacement",
    "- ${a2345678901234567890123456789012345678901234567890123456789012345678901234567890\
     123456789012345678901234567890123456789012345678} => !NoGroup",
    "- ${a2345678901234567890123456789012345678901234567890123456789012345678901234567890\
     1234567890123456789012345678901234567890123456789} => !BadReplacement",
];

/// Inner texts.
const TEXTS: &[&str] = &[
    r"- \n => \n",
    "- a:b}c => a:b}c",
    "x a:b}c => a:b}c",
    "- ${1:-x} => !MissingBrace",
    "- ${1: => !MissingBrace",
    "x ${1:xyz => !BadSyntax",
    "x ${1:=xyz => !BadSyntax",
    "x ${2:-none} => none",
    "x ${1:-none} => wO",
    "x ${1:+yes} => yes",
    "x ${2:+yes} => ",
    "x ${1:+yes:no} => yes",
    "x ${2:+yes:no} => no",
    "x ${2:+:no} => no",
    "x ${1:+:no} => ",
    "x ${2:+yes:} => ",
    "x ${2:-} => ",
    "x ${2:-a:b} => a:b",
    "x ${2:+a:b:c} => b:c",
    r"x ${1:+a\:b:c} => a:b",
    r"x ${2:-a\}b} => a}b",
    "x ${2:-a{b}c => a{bc",
    "x ${5:-x} => !NoGroup",
    "xn ${5:-x} => x",
    "xn ${5:+a:b} => b",
    "xe ${5:+a:b} => !NoGroup",
    "x ${none:-x} => !NoGroup",
    "x ${two:-$1} => wO",
    "x ${two:-$two} => !Unset",
    "xe ${two:-$two} => ",
    "x ${two:+$two} => ",
    "x ${one:-$two} => wO",
    "x ${two:-${2:-${3:-deep}}} => deep",
    "x ${one:+${two:+a:b}:c} => b",
    "x ${two:+${one:+a:b}:c} => c",
    "x ${2:-x => !MissingBrace",
    "x ${2:- => !MissingBrace",
    "x ${1:+x => !MissingBrace",
    "x ${1:+x:y => !MissingBrace",
    "x ${two:+${one:+a:b => !MissingBrace",
];

/// Escapes.
const ESCAPES: &[&str] = &[
    r"x \ => !BadEscape",
    r"x a\ => !BadEscape",
    "x \\a\\e\\f\\n\\r\\t => \x07\x1b\x0c\n\r\t",
    r"x \b => !BadEscape",
    r"x \v => !BadEscape",
    r"x \i => !BadEscape",
    r"x \N => !BadEscape",
    r"x \Z => !BadEscape",
    r"x \g1 => !BadEscape",
    r"x \d => !BadEscape",
    r"x \.\$\\\{\_ => .$\{_",
    "x \\\u{ff} => \u{ff}",
    r"x \  =>  ",
    "x \\x => \x00",
    "x \\x4 => \x04",
    r"x \x414 => A4",
    "x \\xg => \x00g",
    r"x \x{41} => A",
    "x \\x{ff} => \u{ff}",
    "xu \\x{ff} => \u{c3}\u{bf}",
    "xu \\xe9 => \u{c3}\u{a9}",
    r"x \x{100} => !BadEscape",
    "xu \\x{100} => \u{c4}\u{80}",
    "xu \\x{10ffff} => \u{f4}\u{8f}\u{bf}\u{bf}",
    r"xu \x{110000} => !BadEscape",
    r"xu \x{d800} => !BadEscape",
    r"x \x{} => !BadEscape",
    r"x \x{4z} => !BadEscape",
    r"x \x{41 => !BadEscape",
    r"x \o{101} => A",
    r"x \o{400} => !BadEscape",
    r"x \o{8} => !BadEscape",
    r"x \o101 => !BadEscape",
    r"x \o => !BadEscape",
    r"x \o{} => !BadEscape",
    r"x \Q$1\n\E$1 => $1\nwO",
    r"x \Q$1 => $1",
    r"x \Q\E => ",
    r"x \Q\Q\E => \Q",
    r"x \Qa\ => a\",
    r"x ${2:-\Q}:\E} => }:",
    r"x ${1:+\Q:} => !MissingBrace",
    r"x ${2:-\Qa} => !MissingBrace",
];

/// Case forcing.
const CASES: &[&str] = &[
    r"x \Uab$1\Ecd => ABWOcd",
    r"x \LAB$1\ECD => abwoCD",
    r"x \Uab\LCD\Eef\E => ABcdef",
    r"x \Uaa\LBB\Ecc\E => AAbbcc",
    r"x \uabc => Abc",
    r"x \lABC => aBC",
    r"x \u$1x => WOx",
    r"x \l$0 => wORd",
    r"x \u-ab => -ab",
    r"x \u\uab => Ab",
    r"x \u\lab => ab",
    r"x \l\uab => Ab",
    r"x \u\Uab => AB",
    r"x \U\uab => Ab",
    r"x \L\uAB => AB",
    r"x \u\LaB => ab",
    r"x \u\Eab => ab",
    r"x \U\Qab\Ecd => ABCD",
    r"x \u\Qab\E => Ab",
    r"x \u\Q\Eab => Ab",
    r"x \u${2:+z}ab => Ab",
    r"xe \u$2ab => Ab",
    r"x \u${2:-ab} => Ab",
    r"x ${1:+\u}ab => Ab",
    r"x ${1:+\U:\L}aB => AB",
    r"x ${2:+\U:\L}aB => ab",
    r"x \U${2:-ab}c => ABC",
    r"x ${2:-\U}ab => AB",
    r"x ${1:-\U}ab => wOab",
    r"x \u$*MARK => Tag",
    "x \\U\\x{61}\\n => A\n",
    r"x \u\x{61}b => Ab",
    "x \\U\\x{e9}a => \u{e9}A",
    r"x \u$1${2:-none} => WOnone",
    r"- \uab => \uab",
];

/// The bytes of these codes.
fn bytes_of(alloc: Global, text: &str) -> Result<Vec<u8>, Fail> {
    let mut bytes = Vec::new(alloc);
    for c in text.chars() {
        bytes.push(u8::try_from(u32::from(c))?)?;
    }
    Ok(bytes)
}

/// What a replacement writes, or why it is refused.
fn outcome(alloc: Global, options: &str, text: &[u8]) -> Result<Vec<u8>, Fail> {
    let has = |c: char| options.contains(c);
    let refused = match Plan::read(alloc, text, has('x'), has('u')) {
        Ok(plan) => match expand(alloc, &plan, &Sample, has('e'), has('n')) {
            Ok(bytes) => return Ok(bytes),
            Err(e) => format!(in alloc; "!{e:?}")?,
        },
        Err(e) => format!(in alloc; "!{e:?}")?,
    };
    Ok(refused.into_bytes())
}

/// Whether a replacement has this outcome.
fn comes_out(alloc: Global, row: &str) -> Result<bool, Fail> {
    let (head, told) = row.split_once(" => ").unwrap_or((row, "?"));
    let (options, text) = head.split_once(' ').unwrap_or((head, "?"));
    let text = bytes_of(alloc, text)?;
    Ok(outcome(alloc, options, &text)? == bytes_of(alloc, told)?)
}

/// Whether each row has its outcome.
fn check_rows(rt: &impl Abort, alloc: Global, rows: &[&str]) -> Result<(), Fail> {
    for row in rows {
        assert!(rt; comes_out(alloc, row)?, "{row}");
    }
    Ok(())
}

#[test]
fn writes_groups_and_marks(rt: HostRuntime) -> Result<(), Fail> {
    check_rows(&rt, rt.alloc(), REFERENCES)
}

#[test]
fn chooses_inner_texts(rt: HostRuntime) -> Result<(), Fail> {
    check_rows(&rt, rt.alloc(), TEXTS)
}

#[test]
fn writes_what_escapes_say(rt: HostRuntime) -> Result<(), Fail> {
    check_rows(&rt, rt.alloc(), ESCAPES)
}

#[test]
fn forces_the_case(rt: HostRuntime) -> Result<(), Fail> {
    check_rows(&rt, rt.alloc(), CASES)
}

/// The fault of a replacement of two bytes, by their kinds.
fn fault_of(first: u8, second: u8, extended: bool) -> Option<PlanError> {
    let is_word = second == b'_' || second.is_ascii_alphanumeric();
    if first == b'$' {
        (second != b'$' && !is_word).then_some(PlanError::BadReplacement)
    } else if extended && first == b'\\' {
        let is_escape = matches!(
            second,
            b'a' | b'e' | b'f' | b'n' | b'r' | b't' | b'U' | b'L' | b'E' | b'u' | b'l' | b'Q' | b'x'
        );
        (second.is_ascii_alphanumeric() && !is_escape).then_some(PlanError::BadEscape)
    } else if second == b'$' {
        Some(PlanError::BadReplacement)
    } else {
        (extended && second == b'\\').then_some(PlanError::BadEscape)
    }
}

/// Whether a replacement is read, or is refused with this fault.
fn has_fault(alloc: Global, text: &[u8], extended: bool, fault: Option<PlanError>) -> bool {
    Plan::read(alloc, text, extended, false).err() == fault
}

#[test]
fn reads_or_refuses_each_replacement_of_one_byte(rt: HostRuntime) {
    for byte in 0..=255u8 {
        let dollar = (byte == b'$').then_some(PlanError::BadReplacement);
        let escape = (byte == b'\\').then_some(PlanError::BadEscape);
        assert!(rt; has_fault(rt.alloc(), &[byte], false, dollar), "{byte}");
        assert!(rt;
            has_fault(rt.alloc(), &[byte], true, dollar.or(escape)),
            "{byte} extended"
        );
    }
}

/// Whether a replacement of two bytes is read or refused as it is to be.
fn has_fault_of(alloc: Global, text: [u8; 2], extended: bool) -> bool {
    let fault = fault_of(text[0], text[1], extended);
    has_fault(alloc, &text, extended, fault)
}

#[test]
fn reads_or_refuses_each_replacement_of_two_bytes(rt: HostRuntime) {
    for pair in 0..=u16::MAX {
        let text = pair.to_be_bytes();
        assert!(rt; has_fault_of(rt.alloc(), text, false), "{text:?}");
        assert!(rt; has_fault_of(rt.alloc(), text, true), "{text:?} extended");
    }
}

/// Bytes of each kind.
const KINDS: &[u8] = b"$$$$\\\\\\\\{{{}}}}::--++*_ .aAbBcdeEfklLnNoQrtuUxzZ019\x00\x7f\x80\xff";

/// The number after another in a row that looks random.
fn after(x: u32) -> u32 {
    x.wrapping_mul(1_664_525).wrapping_add(1_013_904_223)
}

/// The next text of up to 31 bytes.
fn random_text(alloc: Global, x: &mut u32) -> Result<Vec<u8>, Fail> {
    let mut text = Vec::new(alloc);
    *x = after(*x);
    for _ in 0..*x / 134_217_728 {
        *x = after(*x);
        let place = (*x / 67_108_864) as usize;
        text.push(KINDS.get(place).copied().unwrap_or(b'1'))?;
    }
    Ok(text)
}

/// Whether a text is refused for what it is, or is read and written.
fn is_judged(alloc: Global, text: &[u8]) -> bool {
    match Plan::read(alloc, text, true, false) {
        Ok(plan) => expand(alloc, &plan, &Sample, true, true).is_ok(),
        Err(e) => e != PlanError::Memory,
    }
}

#[test]
fn reads_or_refuses_random_replacements(rt: HostRuntime) -> Result<(), Fail> {
    let mut x = 1;
    for _ in 0..10_000 {
        let text = random_text(rt.alloc(), &mut x)?;
        assert!(rt; is_judged(rt.alloc(), &text), "{text:?}");
    }
    Ok(())
}

/// So many inner texts one in the other.
fn nested(alloc: Global, depth: usize) -> Result<Vec<u8>, Fail> {
    let mut text = Vec::new(alloc);
    for _ in 0..depth {
        text.extend_from_slice(b"${2:-")?;
    }
    text.push(b'x')?;
    for _ in 0..depth {
        text.push(b'}')?;
    }
    Ok(text)
}

/// So many inner texts, and what they write or why they are refused.
const NESTED: &[(usize, &[u8])] = &[(20, b"x"), (21, b"!BadSyntax")];

#[test]
fn nests_twenty_texts_and_no_more(rt: HostRuntime) -> Result<(), Fail> {
    for (depth, told) in NESTED {
        let text = nested(rt.alloc(), *depth)?;
        assert!(rt; outcome(rt.alloc(), "x", &text)?.as_slice() == *told);
    }
    Ok(())
}

#[test]
fn adds_a_literal_text_as_it_is(rt: HostRuntime) -> Result<(), Fail> {
    let plan = Plan::literal(rt.alloc(), b"$1\\U${")?;
    let mut out = b"a".to_vec(rt.alloc())?;
    let added = expand_into(&plan, &Sample, false, false, &mut out);
    assert!(rt; added.is_ok() && out.as_slice() == b"a$1\\U${".as_slice());
    Ok(())
}
