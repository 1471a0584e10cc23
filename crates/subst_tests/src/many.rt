//! Patterns with many of everything. A body that says that memory lacks past a few is proved, so a test shows that it
//! doesn't.
use pcre2_api::{Code, Found, MatchOptions, NoCallouts, Options, Scratch};
use std::alloc::Global;
use std::test::Fail;

/// As many alternatives, each a group of its own with a name, a class and a number.
fn alternatives(alloc: Global, count: u32) -> Result<String, Fail> {
    let mut text = String::new(alloc);
    for i in 0..count {
        let bar = if i > 0 { "|" } else { "" };
        let one = format!(in alloc; "{bar}(?<g{i}>[a-c{i}]{i};)")?;
        text.push_str(one.as_str())?;
    }
    Ok(text)
}

// Whether the last alternative is found, with its group by number and by name.
fn is_last(found: &Found<'_>) -> bool {
    let last = Some(&b"b299;"[..]);
    (found.start(), found.end(), found.top()) == (5, 10, 300)
        && found.group(300) == last
        && found.group_named(b"g299") == last
        && found.group_named(b"g29").is_none()
}

fn finds_the_last(alloc: Global, code: &Code) -> Result<bool, Fail> {
    let mut scratch = Scratch::new(alloc);
    let plain = MatchOptions::PLAIN;
    match code.match_at(b"b29; b299;", 5, &plain, &mut scratch, &mut NoCallouts) {
        Ok(found) => Ok(is_last(&found)),
        Err(e) => Err(Fail::from(e)),
    }
}

fn many(alloc: Global) -> Result<Code, Fail> {
    let pattern = alternatives(alloc, 300)?;
    Ok(Code::compile(alloc, pattern.as_str().as_bytes(), Options::PLAIN)?)
}

fn the_last_is_found(alloc: Global) -> Result<bool, Fail> {
    let code = many(alloc)?;
    finds_the_last(alloc, &code)
}

#[test]
fn three_hundred_classes_groups_names_and_alternatives(rt: HostRuntime) -> Result<(), Fail> {
    let is_found = the_last_is_found(rt.alloc())?;
    assert!(&rt; is_found);
    Ok(())
}
