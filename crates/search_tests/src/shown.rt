//! What a search finds, as a short text: the places of the match and of the groups that are set, as
//! `0-3 1:0-2`, or `no`.
use super::searching::searched;
use frame_machine::Scratch;
use match_drive::MatchAnswer;
use pat_tree::{MatchOptions, Options};
use std::alloc::Global;
use std::fmt::Write;
use std::process::Abort;
use std::test::Fail;

// Without memory for it a part is left out, and the text is none that a row has.
fn shown(alloc: Global, answer: MatchAnswer, scratch: &Scratch) -> String {
    let mut text = String::new(alloc);
    let _ = match answer {
        MatchAnswer::Match { keep, to, .. } => write!(text, "{keep}-{to}"),
        _ => write!(text, "no"),
    };
    if matches!(answer, MatchAnswer::Match { .. }) {
        for group in 1..9 {
            if let Some(span) = scratch.span(group) {
                let _ = write!(text, " {group}:{}-{}", span.from, span.to);
            }
        }
    }
    text
}

/// What a search finds for a pattern in a subject.
fn found(
    rt: &impl Abort,
    alloc: Global,
    pattern: &str,
    subject: &str,
    scratch: &mut Scratch,
) -> Result<String, Fail> {
    let (pattern, subject) = (pattern.as_bytes(), subject.as_bytes());
    assert!(rt; subject.len() < 100);
    let plain = Options::PLAIN;
    let matching = MatchOptions::PLAIN;
    let found = searched(alloc, pattern, plain, subject, 0, &matching, scratch)?;
    Ok(shown(alloc, found.0, scratch))
}

/// Each row has a pattern, ` on `, a subject, ` => ` and what the pattern finds in it.
pub(crate) fn are_found(rt: &impl Abort, alloc: Global, rows: &[&str]) -> Result<(), Fail> {
    let mut scratch = Scratch::new(alloc);
    for row in rows {
        let (head, expected) = row.split_once(" => ").unwrap_or((*row, ""));
        let (pattern, subject) = head.split_once(" on ").unwrap_or((head, ""));
        let text = found(rt, alloc, pattern, subject, &mut scratch)?;
        assert!(rt; text.as_str() == expected, "{row}: {text}");
    }
    Ok(())
}
