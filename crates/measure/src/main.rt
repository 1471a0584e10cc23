//! Measurements of single crates, for the scripts in bench/. Without words it does nothing.
#![tactic(auto)]

mod classes;
mod lines;
mod reading;
mod rewrite;
mod search;

use byte_lanes::EndKind;
use classes::{Class, Sample};
use std::io::Write;
use std::{env, io};

// What the words ask for.
enum Asked<'a> {
    Nothing,
    Search(&'a str),
    Rewrite(&'a str, &'a str),
    Reading(u32),
    Lines(EndKind),
    Classes(Sample),
}

fn make_asked(words: &[String]) -> Asked<'_> {
    match words {
        [_, what, word] => make_one(what.as_str(), word.as_str()),
        [_, what, first, second] => make_two(what.as_str(), first.as_str(), second.as_str()),
        _ => Asked::Nothing,
    }
}

fn make_one<'a>(what: &str, word: &'a str) -> Asked<'a> {
    match what {
        "search" => Asked::Search(word),
        "reading" => make_reading(word),
        "lines" => make_lines(word),
        _ => Asked::Nothing,
    }
}

fn make_two<'a>(what: &str, first: &'a str, second: &'a str) -> Asked<'a> {
    match what {
        "rewrite" => Asked::Rewrite(first, second),
        "classes" => make_sample(first, second),
        _ => Asked::Nothing,
    }
}

fn make_lines<'a>(kind: &str) -> Asked<'a> {
    match kind {
        "lf" => Asked::Lines(EndKind::Lf),
        "anycrlf" => Asked::Lines(EndKind::AnyCrLf),
        _ => Asked::Nothing,
    }
}

fn make_reading<'a>(times: &str) -> Asked<'a> {
    match times.parse() {
        Ok(times) => Asked::Reading(times),
        Err(_) => Asked::Nothing,
    }
}

fn make_sample<'a>(class: &str, way: &str) -> Asked<'a> {
    let by_array = way == "array";
    let class = match class {
        "word" => Class::Word,
        "noline" => Class::NoLineFeed,
        "twenty" => Class::Twenty,
        _ => return Asked::Nothing,
    };
    Asked::Classes(Sample { class, by_array })
}

fn say(rt: &HostRuntime, number: Option<u64>, otherwise: &str) -> io::Result<()> {
    match number {
        Some(number) => println!(rt; "{number}"),
        None => println!(rt; "{otherwise}"),
    }
}

fn rewrite_input(rt: &HostRuntime, pattern: &str, replacement: &str) -> io::Result<()> {
    match rewrite::rewritten(rt.alloc(), pattern, replacement, rt.stdin()) {
        Some(done) => rt.stdout().write_all(done.text.bytes()),
        None => println!(rt; "the text is not rewritten"),
    }
}

fn measure(rt: &HostRuntime, asked: Asked<'_>) -> io::Result<()> {
    match asked {
        Asked::Nothing => Ok(()),
        Asked::Search(pattern) => {
            let count = search::count_matches(rt.alloc(), pattern, rt.stdin());
            say(rt, count, "the pattern is not compiled")
        }
        Asked::Rewrite(pattern, replacement) => rewrite_input(rt, pattern, replacement),
        Asked::Reading(times) => {
            let nodes = reading::count_nodes(rt.alloc(), times, rt.stdin());
            say(rt, nodes, "the pattern is not read")
        }
        Asked::Lines(kind) => {
            let count = lines::count_lines(rt.alloc(), kind, rt.stdin());
            say(rt, Some(count), "")
        }
        Asked::Classes(sample) => {
            let count = classes::count_in(rt.alloc(), sample);
            say(rt, count.ok(), "no memory")
        }
    }
}

fn main(rt: HostRuntime) -> io::Result<()> {
    let mut words = Vec::new(rt.alloc());
    for word in env::args(&rt)? {
        words.push(word)?;
    }
    measure(&rt, make_asked(words.as_slice()))
}
