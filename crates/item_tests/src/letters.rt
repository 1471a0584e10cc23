//! Answers at one place, each as a letter.
use match_items::{Held, Taken};

/// How many bytes were taken from a place on, `.` for none, `E` at the end.
pub(crate) fn taken(taken: Taken, at: usize) -> u8 {
    match taken {
        Taken::Took(to) if at < to && to - at < 5 => b"01234"[to - at],
        Taken::Took(_) => b'?',
        Taken::No => b'.',
        Taken::AtEnd => b'E',
    }
}

/// What an assertion answers: `+` where it holds, `*` where it also reaches the end, `E` where it reaches the end
/// alone, `.` for neither.
pub(crate) fn held(held: Held) -> u8 {
    match (held.holds, held.at_end) {
        (true, true) => b'*',
        (true, false) => b'+',
        (false, true) => b'E',
        (false, false) => b'.',
    }
}
