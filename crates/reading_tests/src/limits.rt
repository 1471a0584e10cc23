//! The greatest patterns (pcre2limits, and the limit of 65,536 bytes and of 250 nested parentheses).
use crate::faults::fault_of;
use pat_build::read;
use pat_tree::{Options, Tree};
use std::alloc::Global;
use std::test::Fail;

const PLAIN: Options = Options::PLAIN;

// A text so many times.
fn repeated(alloc: Global, text: &str, times: usize) -> Result<String, Fail> {
    let mut whole = String::new(alloc);
    for _ in 0..times {
        whole.push_str(text)?;
    }
    Ok(whole)
}

// So many parentheses that open as `open`, with an `a` inside.
fn nested(alloc: Global, open: &str, depth: usize) -> Result<String, Fail> {
    let mut whole = repeated(alloc, open, depth)?;
    whole.push('a')?;
    whole.push_str(&repeated(alloc, ")", depth)?)?;
    Ok(whole)
}

// A text so many times, with a text after it, has this fault.
fn has_fault(
    alloc: Global,
    text: &str,
    times: usize,
    after: &str,
    fault: Option<(i32, usize)>,
) -> Result<bool, Fail> {
    let mut pattern = repeated(alloc, text, times)?;
    pattern.push_str(after)?;
    Ok(fault_of(alloc, pattern.as_bytes(), PLAIN) == fault)
}

// Whether so many parentheses, one in the other, have this fault.
fn is_nested(
    alloc: Global,
    open: &str,
    depth: usize,
    fault: Option<(i32, usize)>,
) -> Result<bool, Fail> {
    let pattern = nested(alloc, open, depth)?;
    Ok(fault_of(alloc, pattern.as_bytes(), PLAIN) == fault)
}

const OPENS: &[(&str, usize)] = &[("(", 250), ("(?:", 750), ("(?i:", 1000), ("(?#a)(", 1505)];

#[test]
fn parentheses_are_nested_250_deep(rt: HostRuntime) -> Result<(), Fail> {
    let alloc = rt.alloc();
    for (open, place) in OPENS {
        assert!(rt; is_nested(alloc, open, 250, None)?);
        assert!(rt; is_nested(alloc, open, 251, Some((119, *place)))?);
    }
    let tree = read(alloc, nested(alloc, "(", 250)?.as_bytes(), PLAIN)?;
    assert!(rt; tree.groups() == 250);
    // Groups one after the other aren't nested, and the fault of the token comes first.
    assert!(rt; has_fault(alloc, "(a)", 300, "", None)?);
    assert!(rt; has_fault(alloc, "(", 250, "", Some((114, 250)))?);
    Ok(())
}

// A pattern of so many bytes that is made of a text so many times.
fn tree_of(alloc: Global, text: &str, times: usize) -> Result<Tree, Fail> {
    let pattern = repeated(alloc, text, times)?;
    Ok(read(alloc, pattern.as_bytes(), PLAIN)?)
}

// A text so many times, with the root of its tree, the number of its groups and that of its classes.
type Whole = (&'static str, usize, u32, u32, u32);

const WHOLE: &[Whole] = &[
    // a node for each character, one for the sequence and one for the whole pattern
    ("a", 65536, 65537, 0, 0),
    // an empty alternative more than there are bars
    ("|", 65536, 65537, 0, 0),
    ("a*", 32768, 32769, 0, 0),
    // the most groups that stand in 65,536 bytes
    ("()", 32768, 65537, 32768, 0),
    ("[a]", 21845, 21846, 0, 21845),
    ("\\d", 32768, 32769, 0, 32768),
];

#[test]
fn a_pattern_has_65536_bytes(rt: HostRuntime) -> Result<(), Fail> {
    for (text, times, root, groups, classes) in WHOLE {
        let tree = tree_of(rt.alloc(), text, *times)?;
        assert!(rt; tree.root() == *root);
        assert!(rt; u32::from(tree.groups()) == *groups && tree.classes() == *classes);
    }
    Ok(())
}

const TOO_LONG: &[&str] = &["a", "|", "(", "\\", "[", "\0"];

#[test]
fn a_pattern_of_a_byte_more_is_refused(rt: HostRuntime) -> Result<(), Fail> {
    for text in TOO_LONG {
        assert!(rt; has_fault(rt.alloc(), text, 65537, "", Some((120, 0)))?);
    }
    let literal = Options {
        literal: true,
        utf: true,
        ..PLAIN
    };
    let pattern = repeated(rt.alloc(), "a", 65537)?;
    let fault = fault_of(rt.alloc(), pattern.as_bytes(), literal);
    assert!(rt; fault == Some((120, 0)));
    Ok(())
}

#[test]
fn groups_and_classes_fill_a_pattern(rt: HostRuntime) -> Result<(), Fail> {
    let alloc = rt.alloc();
    let mut class = repeated(alloc, "a", 65534)?;
    class.insert(0, '[')?;
    class.push(']')?;
    let tree = read(alloc, class.as_bytes(), PLAIN)?;
    assert!(rt; tree.classes() == 1);
    // groups are counted on from the last opened one up to 65,535
    assert!(rt; has_fault(alloc, "()", 32760, "\\g{+32775}", Some((115, 65520)))?);
    assert!(rt; has_fault(alloc, "()", 32760, "\\g{+32776}", Some((161, 65520)))?);
    Ok(())
}
