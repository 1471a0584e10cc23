//! Lists of modifiers and scripts, with what is read in them or what is refused.
use std::alloc::{AllocError, Global};
use std::process::Abort;
use std::test::Fail;
use test_script::{Command, Entry, ListError, Modifiers, Refusal, ScriptReader, read_list};

/// Each modifier in a list of a pattern, and in one of a subject.
const NAMES: &str = "\
caseless | +caseless | unknown [caseless]
-caseless | -caseless | unknown [caseless]
multiline | +multiline | unknown [multiline]
dotall | +dotall | unknown [dotall]
extended | +extended | unknown [extended]
extended_more | +extended_more | unknown [extended_more]
dollar_endonly | +dollar_endonly | unknown [dollar_endonly]
dupnames | +dupnames | unknown [dupnames]
firstline | +firstline | unknown [firstline]
literal | +literal | unknown [literal]
no_auto_capture | +no_auto_capture | unknown [no_auto_capture]
ungreedy | +ungreedy | unknown [ungreedy]
utf | +utf | unknown [utf]
ucp | +ucp | unknown [ucp]
allow_empty_class | +allow_empty_class | unknown [allow_empty_class]
match_unset_backref | +match_unset_backref | unknown [match_unset_backref]
no_start_optimize | +no_start_optimize | unknown [no_start_optimize]
auto_callout | +auto_callout | unknown [auto_callout]
info | +info | unknown [info]
-info | -info | unknown [info]
newline=crlf | newline:CrLf | unknown [newline]
bsr=anycrlf | bsr:AnyCrLf | unknown [bsr]
anchored | +anchored | +anchored
endanchored | +endanchored | +endanchored
-endanchored | -endanchored | -endanchored
mark | +mark | +mark
global | +global | +global
g | +global | +global
-g | -global | -global
replace=a b | replace:a b | replace:a b
replace= | replace: | replace:
substitute_extended | +substitute_extended | +substitute_extended
substitute_literal | +substitute_literal | +substitute_literal
substitute_unset_empty | +substitute_unset_empty | +substitute_unset_empty
substitute_unknown_unset | +substitute_unknown_unset | +substitute_unknown_unset
substitute_replacement_only | +substitute_replacement_only | +substitute_replacement_only
dfa | +dfa | +dfa
dfa_shortest | +dfa_shortest | +dfa_shortest
partial_soft | +partial_soft | +partial_soft
ps | +partial_soft | +partial_soft
-ps | -partial_soft | -partial_soft
partial_hard | +partial_hard | +partial_hard
ph | +partial_hard | +partial_hard
notbol | +notbol | +notbol
noteol | +noteol | +noteol
notempty | +notempty | +notempty
notempty_atstart | +notempty_atstart | +notempty_atstart
callout_none | +callout_none | +callout_none
offset=0 | offset:0 | offset:0
offset=4294967295 | offset:4294967295 | offset:4294967295
match_limit=12 | match_limit:12 | match_limit:12
frame_limit=007 | frame_limit:7 | frame_limit:7
callout_fail=1 | callout_fail:1 | callout_fail:1
callout_error=255 | callout_error:255 | callout_error:255
push | unknown [push] | unknown [push]
segments=1 | unknown [segments] | unknown [segments]
";

/// Lists of several, blanks, letters, and the first fault.
const LISTS: &str = "\
nothing | nothing | nothing
i | +caseless | unknown [i]
m | +multiline | unknown [m]
s | +dotall | unknown [s]
x | +extended | unknown [x]
n | +no_auto_capture | unknown [n]
I | +info | unknown [I]
xx | +extended_more | unknown [xx]
xxx | +extended +extended_more | unknown [xxx]
ixx | +caseless +extended_more | unknown [ixx]
imsxnIg | +caseless +multiline +dotall +extended +no_auto_capture +info +global | unknown [imsxnIg]
gi | +caseless +global | unknown [gi]
gg | +global | +global
mark,gi | +caseless +mark +global | unknown [gi]
ig,mark,m | +caseless +multiline +mark +global | unknown [ig]
-i | unknown [i] | unknown [i]
i=1 | unknown [i] | unknown [i]
iq | unknown [iq] | unknown [iq]
I,i | +caseless +info | unknown [I]
caseless,-caseless | -caseless | unknown [caseless]
-mark,mark | +mark | +mark
g,ps,ph | +global +partial_soft +partial_hard | +global +partial_soft +partial_hard
<g> | +global | +global
g,>mark | +mark +global | +mark +global
g< | +global | +global
g<,mark | unknown [g ] | unknown [g ]
m<ark | unknown [m ark] | unknown [m ark]
,g,,mark, | +mark +global | +mark +global
g, <,mark | +mark +global | +mark +global
, | nothing | nothing
offset=1,offset=2 | offset:2 | offset:2
replace=a,replace=b=c | replace:b=c | replace:b=c
replace=<a,g | +global replace: a | +global replace: a
replace=a< | replace:a | replace:a
newline=CR | newline:Cr | unknown [newline]
newline=lf | newline:Lf | unknown [newline]
newline=AnyCrLf | newline:AnyCrLf | unknown [newline]
newline=any | newline:Any | unknown [newline]
newline=nul | newline:Nul | unknown [newline]
bsr=unicode | bsr:Unicode | unknown [bsr]
nosuch | unknown [nosuch] | unknown [nosuch]
nosuch=3 | unknown [nosuch] | unknown [nosuch]
-nosuch=3 | unknown [nosuch] | unknown [nosuch]
--mark | unknown [-mark] | unknown [-mark]
- | unknown [] | unknown []
=5 | unknown [] | unknown []
Mark | unknown [Mark] | unknown [Mark]
marks | unknown [marks] | unknown [marks]
mark=1 | bad [mark] | bad [mark]
mark= | bad [mark] | bad [mark]
-mark=1 | bad [mark] | bad [mark]
g=1 | bad [g] | bad [g]
ps=1 | bad [ps] | bad [ps]
offset | bad [offset] | bad [offset]
offset= | bad [offset] | bad [offset]
offset=x | bad [offset] | bad [offset]
offset=1x | bad [offset] | bad [offset]
offset=+1 | bad [offset] | bad [offset]
offset=< | bad [offset] | bad [offset]
offset=4294967296 | bad [offset] | bad [offset]
offset=18446744073709551617 | bad [offset] | bad [offset]
-offset | bad [offset] | bad [offset]
-offset=1 | bad [offset] | bad [offset]
replace | bad [replace] | bad [replace]
-replace=a | bad [replace] | bad [replace]
newline=crcr | bad [newline] | unknown [newline]
newline | bad [newline] | unknown [newline]
-newline=cr | bad [newline] | unknown [newline]
bsr=any | bad [bsr] | unknown [bsr]
mark,offset=x,nosuch | bad [offset] | bad [offset]
nosuch,offset=x | unknown [nosuch] | unknown [nosuch]
";

/// Lines of a script, each with what it is; `␊` stands for the end of a line of a pattern.
const SCRIPT: &str = " => note
 \t => note
# => note
# a comment => note
#\ta comment => note
#!/bin/sh => note
#perltest => bad line
#patterns i => bad line
#pattern,i => bad line
abc => bad line
 /a/ => bad line
(a) => bad line
\\=ps => bad line
/abc/ => pattern abc |
# => subject # |
/b/ => subject /b/ |
  ab c \t => subject ab c |
\\= a note => note
\\= => note
\\=ps => subject  | +partial_soft
a\\=ps, offset=3 => subject a | +partial_soft offset:3
a\\= ps => subject a | +partial_soft
a\\= => subject a |
a\\=i => unknown [i]
a\\=offset => bad [offset]
\\q\\=offset => bad subject
\\ => subject  |
 \x0b\r => end
!a!g => pattern a | +global
 => end
\"a\" => pattern a |
 => end
'a' => pattern a |
 => end
`a` => pattern a |
 => end
-a-i => pattern a | +caseless
 => end
=a= => pattern a |
 => end
_a_ => pattern a |
 => end
:a: => pattern a |
 => end
;a; => pattern a |
 => end
,a, => pattern a |
 => end
%a% => pattern a |
 => end
&a& => pattern a |
 => end
@a@ => pattern a |
 => end
~a~ => pattern a |
 => end
// => pattern  |
 => end
/a\\/b/ => pattern a\\/b |
 => end
/a\\\\/i => pattern a\\\\ | +caseless
 => end
/abc/\\ => pattern abc\\ |
 => end
/abc/\\i => pattern abc\\ | +caseless
 => end
/a => more
 => more
# b/ m, g  => pattern a␊␊# b | +multiline +global
 => end
/a\\ => more
/i => pattern a\\␊ | +caseless
 => end
/a/nosuch=3 => unknown [nosuch]
/b/ => note
\\q => note
#pattern i => note
   => end
/b/ => pattern b |
 => end
#pattern i, mark => pattern defaults +caseless +mark
#subject\tps => subject defaults +partial_soft
#pattern -mark => pattern defaults -mark
#pattern => pattern defaults
#subject i => unknown [i]
#pattern replace => bad [replace]
/a/-caseless,g => pattern a | -caseless -mark +global +partial_soft
b\\=-global => subject b | -global
 => end
/a/ => pattern a | +caseless -mark +partial_soft
";

/// Lines of a script after defaults with UTF and marks.
const WITH_DEFAULTS: &str = r"/a/ => pattern a | +utf +mark
\x{e9} => subject é |
 => end
/a/-utf => pattern a | -utf +mark
\x{e9} => subject not text |";

/// Subject lines, and what they write without UTF and with it.
const SUBJECTS: &str =
    r"\a\b\e\f\n\r\t\v\\ => \x07\x08\x1b\x0c\n\r\t\x0b\\ => \x07\x08\x1b\x0c\n\r\t\x0b\\
\0\12\1234 => \x00\nS4 => \x00\nS4
\18\09 => \x018\x009 => \x018\x009
\377 => \xff => \xc3\xbf
\777 => ! => \xc7\xbf
\o{}\o{101} => \x00A => \x00A
\o{0000000101} => A => A
\o{400} => ! => \xc4\x80
\x41\x4a4\xG\x => AJ4\x00G\x00 => AJ4\x00G\x00
\xe9 => \xe9 => \xe9
\x{}\x{41}\x{0000004A} => \x00AJ => \x00AJ
\x{e9} => \xe9 => \xc3\xa9
\x{3b1} => ! => \xce\xb1
\x{d800} => ! => !
\x{10ffff} => ! => \xf4\x8f\xbf\xbf
\x{110000} => ! => !
\x{100000041} => ! => !
\x{41 => \x00{41 => \x00{41
\x{4g} => \x00{4g} => \x00{4g}
\o => ! => !
\o{8} => ! => !
\o{7 => ! => !
\ \.\-\]\{a\}\/ =>  .-]{a}/ =>  .-]{a}/
a\ => a => a
a\  => a => a
\8 => ! => !
\q => ! => !
\N => ! => !
a]b{3} => a]b{3} => a]b{3}
\[ab]{3}c => abababc => abababc
\[ab]{0}c => c => c
\[]{9}c => c => c
\[\]\x41[]{02} => ]A[]A[ => ]A[]A[
\[\x{e9}]{2} => \xe9\xe9 => \xc3\xa9\xc3\xa9
\[a]{1}\[b]{2} => abb => abb
\[a => ! => !
\[a] => ! => !
\[a]x => ! => !
\[a]{ => ! => !
\[a]{} => ! => !
\[a]{2 => ! => !
\[a]{ 2} => ! => !
\[a]{-1} => ! => !
\[a\[b]{2}]{2} => ! => !
\[a\=ps => ! => !
\[a]{16777217} => ! => !
b\[a]{16777216} => ! => !
\[aaaaaaaaaaaaaaaaaaaaaaaaaaaaaaaaaaaaaaaaaaaaaaaaaaaaaaaaaaaaaaaa]{262144}b => ! => !
\[a]{4294967296} => ! => !";

fn show_flags(out: &mut String, m: &Modifiers) -> Result<(), AllocError> {
    let flags = [
        (m.anchored, "anchored"),
        (m.endanchored, "endanchored"),
        (m.caseless, "caseless"),
        (m.multiline, "multiline"),
        (m.dotall, "dotall"),
        (m.extended, "extended"),
        (m.extended_more, "extended_more"),
        (m.dollar_endonly, "dollar_endonly"),
        (m.dupnames, "dupnames"),
        (m.firstline, "firstline"),
        (m.literal, "literal"),
        (m.no_auto_capture, "no_auto_capture"),
        (m.ungreedy, "ungreedy"),
        (m.utf, "utf"),
        (m.ucp, "ucp"),
        (m.allow_empty_class, "allow_empty_class"),
        (m.match_unset_backref, "match_unset_backref"),
        (m.no_start_optimize, "no_start_optimize"),
        (m.auto_callout, "auto_callout"),
        (m.info, "info"),
        (m.mark, "mark"),
        (m.global, "global"),
        (m.substitute_extended, "substitute_extended"),
        (m.substitute_literal, "substitute_literal"),
        (m.substitute_unset_empty, "substitute_unset_empty"),
        (m.substitute_unknown_unset, "substitute_unknown_unset"),
        (m.substitute_replacement_only, "substitute_replacement_only"),
        (m.dfa, "dfa"),
        (m.dfa_shortest, "dfa_shortest"),
        (m.partial_soft, "partial_soft"),
        (m.partial_hard, "partial_hard"),
        (m.notbol, "notbol"),
        (m.noteol, "noteol"),
        (m.notempty, "notempty"),
        (m.notempty_atstart, "notempty_atstart"),
        (m.callout_none, "callout_none"),
    ];
    for (flag, name) in flags {
        if let Some(on) = flag {
            write!(out, " {}{name}", if on { "+" } else { "-" })?;
        }
    }
    Ok(())
}

fn show_numbers(out: &mut String, m: &Modifiers) -> Result<(), AllocError> {
    let numbers = [
        (m.offset, "offset"),
        (m.match_limit, "match_limit"),
        (m.frame_limit, "frame_limit"),
        (m.callout_fail, "callout_fail"),
        (m.callout_error, "callout_error"),
    ];
    for (number, name) in numbers {
        if let Some(n) = number {
            write!(out, " {name}:{n}")?;
        }
    }
    Ok(())
}

fn show_values(out: &mut String, m: &Modifiers) -> Result<(), AllocError> {
    if let Some(newline) = m.newline {
        write!(out, " newline:{newline:?}")?;
    }
    if let Some(bsr) = m.bsr {
        write!(out, " bsr:{bsr:?}")?;
    }
    if let Some(text) = &m.replace {
        write!(out, " replace:{}", text_of(text.bytes()))?;
    }
    Ok(())
}

fn show(out: &mut String, m: &Modifiers) -> Result<(), AllocError> {
    let before = out.len();
    show_flags(out, m)?;
    show_numbers(out, m)?;
    show_values(out, m)?;
    if before == 0 && out.is_empty() {
        out.push_str(" nothing")?;
    }
    Ok(())
}

fn text_of(bytes: &[u8]) -> &str {
    std::str::from_utf8(bytes).unwrap_or("not text")
}

fn show_refusal(out: &mut String, refusal: &Refusal) -> Result<(), AllocError> {
    match refusal {
        Refusal::BadLine => out.push_str("bad line"),
        Refusal::BadSubject => out.push_str("bad subject"),
        Refusal::UnknownModifier(name) => write!(out, "unknown [{}]", text_of(name.bytes())),
        Refusal::BadModifierValue(name) => write!(out, "bad [{}]", text_of(name.bytes())),
    }
}

/// What a list gives, or why it is refused.
fn list_shown(alloc: Global, list: &str, pattern: bool) -> Result<String, AllocError> {
    let mut out = String::new(alloc);
    match read_list(alloc, list.as_bytes(), pattern) {
        Ok(modifiers) => show(&mut out, &modifiers)?,
        Err(ListError::Refused(refusal)) => {
            out.push_str(" ")?;
            show_refusal(&mut out, &refusal)?;
        }
        Err(ListError::Memory) => out.push_str("want of memory")?,
    }
    Ok(out)
}

/// A list in which `<` stands for a space, `>` for a tab.
fn list_of(alloc: Global, text: &str) -> Result<String, AllocError> {
    let mut out = String::new(alloc);
    if text == "nothing" {
        return Ok(out);
    }
    for c in text.chars() {
        out.push(match c {
            '<' => ' ',
            '>' => '\t',
            c => c,
        })?;
    }
    Ok(out)
}

// What a list is for a pattern, and for a subject.
fn both_shown(alloc: Global, list: &str) -> Result<String, AllocError> {
    let list = list_of(alloc, list)?;
    let pattern = list_shown(alloc, list.as_str(), true)?;
    let subject = list_shown(alloc, list.as_str(), false)?;
    let (pattern, subject) = (pattern.as_str().trim_start(), subject.as_str().trim_start());
    format!(in alloc; "{pattern} | {subject}")
}

fn check_lists(rt: &impl Abort, alloc: Global, table: &str) -> Result<(), AllocError> {
    for line in table.lines() {
        let (list, wanted) = line.split_once(" | ").unwrap_or((line, ""));
        let found = both_shown(alloc, list)?;
        assert!(rt; found.as_str() == wanted);
    }
    Ok(())
}

/// A reader before the first line, without defaults.
fn fresh(alloc: Global) -> ScriptReader {
    ScriptReader::new(alloc, Modifiers::none())
}

fn show_command(out: &mut String, command: &Command) -> Result<(), AllocError> {
    match command {
        Command::PatternDefaults(list) => {
            out.push_str("pattern defaults")?;
            show(out, list)
        }
        Command::SubjectDefaults(list) => {
            out.push_str("subject defaults")?;
            show(out, list)
        }
    }
}

fn show_entry(out: &mut String, entry: &Entry) -> Result<(), AllocError> {
    match entry {
        Entry::More => out.push_str("more"),
        Entry::Note => out.push_str("note"),
        Entry::Pattern(entry) => {
            write!(out, "pattern {} |", text_of(entry.pattern.bytes()))?;
            show(out, &entry.modifiers)
        }
        Entry::Subject(entry) => {
            write!(out, "subject {} |", text_of(entry.subject.bytes()))?;
            show(out, &entry.modifiers)
        }
        Entry::Command(command) => show_command(out, command),
        Entry::Refused(refusal) => show_refusal(out, refusal),
        Entry::EndOfSubjects => out.push_str("end"),
    }
}

/// What a line is after those before it.
fn shown(alloc: Global, reader: &mut ScriptReader, line: &[u8]) -> Result<String, Fail> {
    let entry = reader.feed(line)?;
    let mut out = String::new(alloc);
    show_entry(&mut out, &entry)?;
    Ok(out)
}

// Each line of the table is what the table says of it after those before it.
fn check_script(
    rt: &impl Abort,
    alloc: Global,
    mut reader: ScriptReader,
    table: &str,
) -> Result<(), Fail> {
    for row in table.lines() {
        let (line, wanted) = row.split_once(" => ").unwrap_or((row, ""));
        let shown = shown(alloc, &mut reader, line.as_bytes())?;
        let shown = shown.as_str().replace(alloc, "\n", "␊")?;
        assert!(rt; shown.as_str() == wanted);
    }
    Ok(())
}

fn entry_after(alloc: Global, pattern: &[u8], line: &[u8]) -> Result<Entry, Fail> {
    let mut reader = fresh(alloc);
    let _ = reader.feed(pattern)?;
    Ok(reader.feed(line)?)
}

/// What a subject line writes after this pattern, or `!` where it is refused.
fn subject_of(alloc: Global, pattern: &[u8], line: &[u8]) -> Result<Vec<u8>, Fail> {
    match entry_after(alloc, pattern, line)? {
        Entry::Subject(entry) => Ok(entry.subject.into_vec()),
        Entry::Refused(Refusal::BadSubject) => Ok(b"!".to_vec(alloc)?),
        _ => Ok(b"another entry".to_vec(alloc)?),
    }
}

// What a subject line writes without UTF and with it, in letters and escapes.
fn subjects_of(alloc: Global, line: &[u8]) -> Result<String, Fail> {
    let bytes = subject_of(alloc, b"/a/", line)?;
    let utf = subject_of(alloc, b"/a/utf", line)?;
    let (bytes, utf) = (
        bytes.as_slice().escape_ascii(),
        utf.as_slice().escape_ascii(),
    );
    Ok(format!(in alloc; "{bytes} => {utf}")?)
}

#[test]
fn reads_each_modifier_in_its_lists(rt: HostRuntime) -> Result<(), Fail> {
    Ok(check_lists(&rt, rt.alloc(), NAMES)?)
}

#[test]
fn reads_lists_or_tells_the_first_fault(rt: HostRuntime) -> Result<(), Fail> {
    Ok(check_lists(&rt, rt.alloc(), LISTS)?)
}

#[test]
fn reads_a_script_line_by_line(rt: HostRuntime) -> Result<(), Fail> {
    check_script(&rt, rt.alloc(), fresh(rt.alloc()), SCRIPT)
}

#[test]
fn writes_what_escapes_say(rt: HostRuntime) -> Result<(), Fail> {
    for row in SUBJECTS.lines() {
        let (line, wanted) = row.split_once(" => ").unwrap_or((row, ""));
        let written = subjects_of(rt.alloc(), line.as_bytes())?;
        assert!(rt; written.as_str() == wanted);
    }
    let written = subjects_of(rt.alloc(), b"\\\xc3\xa9\xff")?;
    assert!(rt; written.as_str() == r"\xc3\xa9\xff => \xc3\xa9\xff");
    Ok(())
}

#[test]
fn keeps_subjects_of_the_greatest_length(rt: HostRuntime) -> Result<(), Fail> {
    let line = b"\\[abcdefghijklmnopabcdefghijklmnopabcdefghijklmnopabcdefghijklmnop]{262144}";
    let greatest = subject_of(rt.alloc(), b"/a/", line)?;
    assert!(rt; greatest.len() == 16_777_216);
    Ok(())
}

#[test]
fn takes_utf_from_defaults(rt: HostRuntime) -> Result<(), Fail> {
    let alloc = rt.alloc();
    let defaults = read_list(alloc, b"utf,mark", true).ok();
    let reader = ScriptReader::new(alloc, defaults.unwrap_or(Modifiers::none()));
    check_script(&rt, alloc, reader, WITH_DEFAULTS)
}
