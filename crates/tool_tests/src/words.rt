//! Lists of words, with what they ask for or the word at fault.
use grep_args::{ArgError, BinaryMode, GrepPlan, NameMode, OffsetMode, read};
use pat_tree::{Newline, TextList};
use std::alloc::{AllocError, Global};
use std::process::Abort;
use std::test::Fail;

/// Each option by its letter and by its names.
const OPTIONS: &str = "\
-A 2 x | A:2 e:x at:3
-A2 x | A:2 e:x at:2
--after-context=2 x | A:2 e:x at:2
--after-context 2 x | A:2 e:x at:3
-B 3 x | B:3 e:x at:3
--before-context=3 x | B:3 e:x at:2
-C 4 x | A:4 B:4 e:x at:3
-C4 x | A:4 B:4 e:x at:2
--context=4 x | A:4 B:4 e:x at:2
--context 4 x | A:4 B:4 e:x at:3
-a x | Text e:x at:2
--text x | Text e:x at:2
-I x | WithoutMatch e:x at:2
--binary-files=binary x | e:x at:2
--binary-files=text x | Text e:x at:2
--binary-files without-match x | WithoutMatch e:x at:3
-c x | c e:x at:2
--count x | c e:x at:2
-t x | t e:x at:2
--total-count x | t e:x at:2
-e p | e:p at:2
-ep | e:p at:1
--regex=p | e:p at:1
--regex p f | e:p at:2
--regexp=p=q f | e:p=q at:1
--regexp p | e:p at:2
--regex= f | e: at:1
-f p | f:p at:2
-fp q | f:p at:1
--file=p | f:p at:1
--file p | f:p at:2
-F x | F e:x at:2
--fixed-strings x | F e:x at:2
-H x | With e:x at:2
--with-filename x | With e:x at:2
-h x | Without e:x at:2
--no-filename x | Without e:x at:2
-i x | i e:x at:2
--ignore-case x | i e:x at:2
-u x | u e:x at:2
--utf x | u e:x at:2
-l x | Matching e:x at:2
--files-with-matches x | Matching e:x at:2
-L x | NotMatching e:x at:2
--files-without-match x | NotMatching e:x at:2
--label=in x | label:in e:x at:2
--label in x | label:in e:x at:3
--label= x | label: e:x at:2
--line-offsets x | Lines e:x at:2
--file-offsets x | File e:x at:2
--match-limit=5 x | match:5 e:x at:2
--match-limit 0 x | match:0 e:x at:3
--frame-limit=6 x | frame:6 e:x at:2
--max-buffer-size=1 x | buffer:1 e:x at:2
--max-buffer-size 1024M x | buffer:1073741824 e:x at:3
-m 1 x | m:1 e:x at:3
-m2 x | m:2 e:x at:2
--max-count=3 x | m:3 e:x at:2
-N CR x | Cr e:x at:3
-Nlf x | e:x at:2
-NCrLf x | CrLf e:x at:2
--newline=anycrlf x | AnyCrLf e:x at:2
--newline ANY x | Any e:x at:3
--newline=nul x | Nul e:x at:2
-n x | n e:x at:2
--line-number x | n e:x at:2
-o x | o:0 e:x at:2
-o7 x | o:7 e:x at:2
--only-matching x | o:0 e:x at:2
--only-matching=1K x | o:1024 e:x at:2
--om-separator=, x | sep:, e:x at:2
--om-separator , x | sep:, e:x at:3
-q x | q e:x at:2
--quiet x | q e:x at:2
-r x | r e:x at:2
--recursive x | r e:x at:2
--include=i x | include:i e:x at:2
--include i x | include:i e:x at:3
--exclude=i x | exclude:i e:x at:2
--exclude= x | exclude: e:x at:2
--include-dir=i x | include-dir:i e:x at:2
--include-dir -r x | include-dir:-r e:x at:3
--exclude-dir=i=j x | exclude-dir:i=j e:x at:2
-s x | s e:x at:2
--no-messages x | s e:x at:2
-v x | v e:x at:2
--invert-match x | v e:x at:2
-w x | w e:x at:2
--word-regex x | w e:x at:2
--word-regexp x | w e:x at:2
-x x | x e:x at:2
--line-regex x | x e:x at:2
--line-regexp x | x e:x at:2
--buffer-size=0 x | e:x at:2
--buffer-size 20K x | e:x at:3
--line-buffered x | e:x at:2
--no-jit x | e:x at:2
--help | Help at:1
-V | Version at:1
--version | Version at:1
";

/// Where the options end, and options that are given together.
const LISTS: &str = "\
x | e:x at:1
x f g | e:x at:1
x -n | e:x at:1
- -n | e:- at:1
'' f | e: at:1
-- -n f | e:-n at:2
-n -- - | n e:- at:3
-- -- -- | e:-- at:2
-e -- f | e:-- at:2
-e -n f | e:-n at:2
-e x -- -f | e:x at:3
-e x - | e:x at:2
-e p -e q -f r --regex=s | f:r e:p e:q e:s at:7
-e '' | e: at:2
-niv x | i n v e:x at:2
-nA2 x | A:2 n e:x at:2
-nA 2 x | A:2 n e:x at:3
-cep f | c e:p at:1
-no x | o:0 n e:x at:2
-on x | o:0 n e:x at:2
-o12 x | o:12 e:x at:2
-oo3 -o1 x | o:0 o:3 o:1 e:x at:3
-oA1 x | A:1 o:0 e:x at:2
-o 5 f | o:0 e:5 at:2
--only-matching 5 f | o:0 e:5 at:2
-A1 -A2 x | A:2 e:x at:3
-C1 -A2 x | A:2 B:1 e:x at:3
-A2 -C1 x | A:1 B:1 e:x at:3
-m1 --max-count=2 x | m:2 e:x at:3
-NCR -NANY x | Any e:x at:3
-aI x | WithoutMatch e:x at:2
-I --binary-files=binary x | e:x at:3
--label=a --label=b x | label:b e:x at:3
--om-separator=a --om-separator= x | e:x at:3
-Hl x | Matching e:x at:2
-lh x | Without e:x at:2
-LH x | With e:x at:2
-hL x | NotMatching e:x at:2
--line-offsets --line-offsets x | Lines e:x at:3
-rnr x d | n r e:x at:2
--exclude=b --include=a --exclude=c x | include:a exclude:b exclude:c e:x at:4
--exclude-dir=a --include-dir=b --exclude-dir=a -rex | include-dir:b exclude-dir:a exclude-dir:a r e:x at:4
--help -V | Help at:2
-V --help x f | Version e:x at:3
-Vq -- | q Version at:2
--help -e x f | Help e:x at:3
-A 007 x | A:7 e:x at:3
-A 1M x | A:1048576 e:x at:3
-A 4294967295 x | A:4294967295 e:x at:3
-A 00000000004194303K x | A:4294966272 e:x at:3
-e é f | e:é at:2
-fé | f:é at:1
--label=ü -oeß | label:ü o:0 e:ß at:2
";

/// Faults of each kind, and the first of several.
const FAULTS: &str = "\
-n | NoPattern 1
 | NoPattern 0
-n -- | NoPattern 2
--label x | NoPattern 2
-Z x | UnknownOption 0
-n -nZ x | UnknownOption 1
-é x | UnknownOption 0
-= x | UnknownOption 0
-E x | UnknownOption 0
--nosuch x | UnknownOption 0
--nosuch=1 x | UnknownOption 0
--regexps=x | UnknownOption 0
--= x | UnknownOption 0
--count=1 x | UnknownOption 0
--quiet= x | UnknownOption 0
--help=1 | UnknownOption 0
--no-jit=1 x | UnknownOption 0
-M x | UnknownOption 0
--multiline x | UnknownOption 0
-R x | UnknownOption 0
--recursive=1 x | UnknownOption 0
--includes=x x | UnknownOption 0
--include-from=x x | UnknownOption 0
--exclude-from=x x | UnknownOption 0
--null x | UnknownOption 0
--om-capture=1 x | UnknownOption 0
--allow-lookaround-bsk x | UnknownOption 0
-A | MissingValue 0
-nA | MissingValue 0
-n --regex | MissingValue 1
-qe | MissingValue 0
-f | MissingValue 0
-N | MissingValue 0
--label | MissingValue 0
--om-separator | MissingValue 0
--binary-files | MissingValue 0
--max-buffer-size | MissingValue 0
--include | MissingValue 0
-r --exclude-dir | MissingValue 1
-A x p | BadNumber 1
-Ax p | BadNumber 0
-nAx p | BadNumber 0
-A '' p | BadNumber 1
-A -- p | BadNumber 1
-B K p | BadNumber 1
-C 1k p | BadNumber 1
-A 1KK p | BadNumber 1
-A 1K0 p | BadNumber 1
-A -1 p | BadNumber 1
-A +1 p | BadNumber 1
-A 1.5 p | BadNumber 1
-A 4294967296 p | BadNumber 1
-A 4096M p | BadNumber 1
-A 4194304K p | BadNumber 1
-A 18446744073709551617 p | BadNumber 1
--context= p | BadNumber 0
--match-limit=x p | BadNumber 0
--frame-limit -5 p | BadNumber 1
--buffer-size=x p | BadNumber 0
--max-buffer-size=4096M p | BadNumber 0
-m x p | BadNumber 1
-o5n p | BadNumber 0
-o4294967296 p | BadNumber 0
--only-matching=x p | BadNumber 0
--only-matching= p | BadNumber 0
-m 0 p | BadValue 1
-qm0 p | BadValue 0
--max-count=0 p | BadValue 0
--max-count 0K p | BadValue 1
--max-buffer-size=0 p | BadValue 0
--max-buffer-size 1073741825 p | BadValue 1
-N LFCR p | BadValue 1
-NX p | BadValue 0
--newline= p | BadValue 0
--binary-files=Text p | BadValue 0
--binary-files '' p | BadValue 1
-o --line-offsets p | Exclude 1
--line-offsets -o p | Exclude 1
--file-offsets -no5 p | Exclude 1
--line-offsets --file-offsets p | Exclude 1
--file-offsets --line-offsets p | Exclude 1
--line-offsets --only-matching=2 p | Exclude 1
-Z -A | UnknownOption 0
-A x -Z | BadNumber 1
-oZ --line-offsets | UnknownOption 0
-o --line-offsets -Z | Exclude 1
-Zm0 p | UnknownOption 0
-qm0 -Z | BadValue 0
-A 1 -B | MissingValue 2
--line-offsets -o5x p | BadNumber 1
--help -Z | UnknownOption 1
-V -A | MissingValue 1
-VZ | UnknownOption 0
";

/// The words of a line, in which `''` stands for the empty one.
fn words_of(alloc: Global, line: &str) -> Result<Vec<String>, AllocError> {
    let mut words = Vec::new(alloc);
    for word in line.split(' ') {
        if word == "''" {
            words.push(String::new(alloc))?;
        } else if !word.is_empty() {
            words.push(String::from_str(alloc, word)?)?;
        }
    }
    Ok(words)
}

fn show_number(out: &mut String, name: &str, number: u32) -> Result<(), AllocError> {
    write!(out, "{name}:{number} ")
}

// A number that isn't what it is without options.
fn show_changed(out: &mut String, name: &str, number: u32, usual: u32) -> Result<(), AllocError> {
    if number == usual {
        return Ok(());
    }
    show_number(out, name, number)
}

fn show_text(out: &mut String, name: &str, text: &str) -> Result<(), AllocError> {
    write!(out, "{name}:{text} ")
}

fn show_context(out: &mut String, plan: &GrepPlan) -> Result<(), AllocError> {
    show_changed(out, "A", plan.after_context, 0)?;
    show_changed(out, "B", plan.before_context, 0)
}

fn show_names(out: &mut String, plan: &GrepPlan) -> Result<(), AllocError> {
    if plan.binary != BinaryMode::Binary {
        write!(out, "{:?} ", plan.binary)?;
    }
    if plan.names != NameMode::Auto {
        write!(out, "{:?} ", plan.names)?;
    }
    if plan.label.as_str() != "(standard input)" {
        show_text(out, "label", plan.label.as_str())?;
    }
    Ok(())
}

fn show_parts(out: &mut String, plan: &GrepPlan) -> Result<(), AllocError> {
    for i in 0..plan.only_matching.len() {
        show_number(out, "o", *plan.only_matching.get(i))?;
    }
    if plan.offsets != OffsetMode::NoOffsets {
        write!(out, "{:?} ", plan.offsets)?;
    }
    Ok(())
}

fn show_flags(out: &mut String, plan: &GrepPlan) -> Result<(), AllocError> {
    let flags = [
        (plan.count, "c "),
        (plan.total_count, "t "),
        (plan.fixed_strings, "F "),
        (plan.ignore_case, "i "),
        (plan.utf, "u "),
        (plan.line_number, "n "),
        (plan.quiet, "q "),
        (plan.recursive, "r "),
        (plan.no_messages, "s "),
        (plan.invert_match, "v "),
        (plan.word_regex, "w "),
        (plan.line_regex, "x "),
    ];
    for (is_on, letter) in flags {
        if is_on {
            out.push_str(letter)?;
        }
    }
    Ok(())
}

fn show_limits(out: &mut String, plan: &GrepPlan) -> Result<(), AllocError> {
    show_changed(out, "match", plan.match_limit, 10_000_000)?;
    show_changed(out, "frame", plan.frame_limit, 10_000_000)?;
    show_changed(out, "buffer", plan.max_buffer_size, 1_048_576)?;
    match plan.max_count {
        Some(count) => show_number(out, "m", count),
        None => Ok(()),
    }
}

fn show_forms(out: &mut String, plan: &GrepPlan) -> Result<(), AllocError> {
    if plan.newline != Newline::Lf {
        write!(out, "{:?} ", plan.newline)?;
    }
    if let Some(kind) = plan.help {
        write!(out, "{kind:?} ")?;
    }
    Ok(())
}

fn show_list(out: &mut String, name: &str, texts: &TextList) -> Result<(), AllocError> {
    for text in texts.as_slice() {
        show_text(out, name, text_of(text.bytes()))?;
    }
    Ok(())
}

fn show_filters(out: &mut String, plan: &GrepPlan) -> Result<(), AllocError> {
    show_list(out, "include", &plan.include)?;
    show_list(out, "exclude", &plan.exclude)?;
    show_list(out, "include-dir", &plan.include_dir)?;
    show_list(out, "exclude-dir", &plan.exclude_dir)
}

fn show_texts(out: &mut String, plan: &GrepPlan) -> Result<(), AllocError> {
    if plan.om_separator.len() > 0 {
        show_text(out, "sep", text_of(plan.om_separator.bytes()))?;
    }
    for i in 0..plan.pattern_files.len() {
        show_text(out, "f", plan.pattern_files.get(i).as_str())?;
    }
    show_list(out, "e", &plan.patterns)?;
    write!(out, "at:{}", plan.files_from)
}

fn text_of(bytes: &[u8]) -> &str {
    std::str::from_utf8(bytes).unwrap_or("not text")
}

fn show_options(out: &mut String, plan: &GrepPlan) -> Result<(), AllocError> {
    show_context(out, plan)?;
    show_names(out, plan)?;
    show_parts(out, plan)?;
    show_flags(out, plan)?;
    show_limits(out, plan)?;
    show_forms(out, plan)
}

fn fault_shown(alloc: Global, fault: &ArgError) -> Result<String, AllocError> {
    match fault {
        ArgError::Usage { kind, word } => format!(in alloc; "{kind:?} {word}"),
        ArgError::Memory => String::from_str(alloc, "want of memory"),
    }
}

fn plan_shown(alloc: Global, plan: &GrepPlan) -> Result<String, AllocError> {
    let mut out = String::new(alloc);
    show_filters(&mut out, plan)?;
    show_options(&mut out, plan)?;
    show_texts(&mut out, plan)?;
    Ok(out)
}

/// What differs from the plan of no options, or the fault.
fn told(alloc: Global, line: &str) -> Result<String, AllocError> {
    let words = words_of(alloc, line)?;
    match read(alloc, words.as_slice()) {
        Ok(plan) => plan_shown(alloc, &plan),
        Err(fault) => fault_shown(alloc, &fault),
    }
}

fn check(rt: &impl Abort, alloc: Global, table: &str) -> Result<(), AllocError> {
    for line in table.lines() {
        let (words, wanted) = line.split_once(" | ").unwrap_or((line, ""));
        let found = told(alloc, words)?;
        assert!(rt; found.as_str() == wanted);
    }
    Ok(())
}

#[test]
fn reads_each_option(rt: HostRuntime) -> Result<(), Fail> {
    Ok(check(&rt, rt.alloc(), OPTIONS)?)
}

#[test]
fn reads_options_together(rt: HostRuntime) -> Result<(), Fail> {
    Ok(check(&rt, rt.alloc(), LISTS)?)
}

#[test]
fn tells_the_first_fault(rt: HostRuntime) -> Result<(), Fail> {
    Ok(check(&rt, rt.alloc(), FAULTS)?)
}
