//! Rows of tables: texts with ` :: ` between them.

/// The pattern, the subject and the answer of a row.
pub(crate) fn parts(row: &str) -> (&str, &str, &str) {
    let (pattern, rest) = row.split_once(" :: ").unwrap_or((row, ""));
    let (subject, answer) = rest.split_once(" :: ").unwrap_or((rest, ""));
    (pattern, subject, answer)
}
