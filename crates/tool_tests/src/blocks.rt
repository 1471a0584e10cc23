//! Blocks of lines in a text that is held.
use grep_args::{GrepPlan, read};
use grep_core::Patterns;
use grep_multi::{Block, LineStart, Reach, Search, Verdict, Workspace};
use std::alloc::Global;
use std::test::Fail;

const START: LineStart = LineStart { at: 0, lines: 0 };

fn plan_of(alloc: Global, pattern: &str) -> Result<GrepPlan, Fail> {
    let mut words = Vec::new(alloc);
    words.push(String::from_str(alloc, pattern)?)?;
    Ok(read(alloc, words.as_slice()).ok().ok_or("words")?)
}

// Whether these lines reach so far.
fn is_block(block: Block, verdict: Verdict, at: usize, lines: u64) -> bool {
    let behind = LineStart { at, lines };
    let reach = Reach {
        behind,
        has_newline: true,
    };
    block == Block { reach, verdict }
}

#[test]
fn a_match_takes_the_lines_that_it_goes_over(rt: HostRuntime) -> Result<(), Fail> {
    let alloc = rt.alloc();
    let plan = plan_of(alloc, "o\nb")?;
    let patterns = Patterns::build(alloc, &plan, &plan.patterns)
        .ok()
        .ok_or("pattern")?;
    let text = b"foo\nbar\nbaz\n";
    let search = Search::new(&plan, &patterns, text);
    let mut work = Workspace::new(alloc);
    work.utf8 = None;
    let first = search.next(START, &mut work).ok().ok_or("memory")?;
    assert!(rt; is_block(first, Verdict::Match, 8, 2));
    assert!(rt; first.reach.behind.at < text.len());
    let second = search
        .next(first.reach.behind, &mut work)
        .ok()
        .ok_or("memory")?;
    assert!(rt; is_block(second, Verdict::NoMatch, 12, 3));
    Ok(())
}
