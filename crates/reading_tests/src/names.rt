//! Names of verbs: their table, and the longest (pcre2pattern, "Backtracking control").
use crate::faults::fault_of;
use pat_build::read;
use pat_tree::Options;
use std::alloc::Global;
use std::test::Fail;

const NAMES: &[(u32, &str)] = &[(0, "a"), (1, "bc"), (2, "a"), (3, "d")];

// Names are told apart by their numbers, in the order of reading.
#[test]
fn names_are_a_table(rt: HostRuntime) -> Result<(), Fail> {
    let alloc = rt.alloc();
    let tree = read(
        alloc,
        b"(*:a)(*F:)(*ACCEPT:bc)|(*:a)(*FAIL:d)".as_slice(),
        Options::PLAIN,
    )?;
    assert!(rt; tree.verb_names() == 4);
    for (id, name) in NAMES {
        assert!(rt; *id < tree.verb_names() && tree.verb_name(*id) == name.as_bytes());
    }
    Ok(())
}

// What begins a verb with a name.
const BEGINS: &[&str] = &[
    "a(*MARK:",
    "a(*:",
    "a(*ACCEPT:",
    "a(*F:",
    "a(*COMMIT:",
    "a(*PRUNE:",
    "a(*SKIP:",
];

// The fault of a pattern that ends in a name of so many bytes.
fn fault_of_name(alloc: Global, begin: &str, bytes: usize) -> Result<Option<(i32, usize)>, Fail> {
    let mut pattern = String::new(alloc);
    pattern.push_str(begin)?;
    for _ in 0..bytes {
        pattern.push('n')?;
    }
    pattern.push(')')?;
    Ok(fault_of(alloc, pattern.as_bytes(), Options::PLAIN))
}

#[test]
fn the_longest_name_has_255_bytes(rt: HostRuntime) -> Result<(), Fail> {
    let alloc = rt.alloc();
    for begin in BEGINS {
        assert!(rt; fault_of_name(alloc, begin, 255)?.is_none());
        assert!(rt; fault_of_name(alloc, begin, 256)? == Some((176, 1)));
    }
    Ok(())
}

const LONGER: &[(&str, usize, usize)] = &[
    ("(*THEN:", 256, 0),
    ("(*THEN:", 300, 0),
    ("ab(*THEN:", 256, 2),
    ("ab(*THEN:", 300, 2),
];

#[test]
fn a_longer_name_is_refused(rt: HostRuntime) -> Result<(), Fail> {
    for (begin, bytes, place) in LONGER {
        let fault = fault_of_name(rt.alloc(), begin, *bytes)?;
        assert!(rt; fault == Some((176, *place)));
    }
    Ok(())
}
