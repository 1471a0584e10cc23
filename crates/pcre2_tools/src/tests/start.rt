//! The words that the program was started with.
use super::*;
use crate::start::words_of;

// What the program was started with, and the words for the tool, with a space between them.
type Started = (&'static str, &'static str);

#[test]
fn the_program_may_be_named_as_a_tool(rt: HostRuntime) -> Result<(), Fail> {
    static ROWS: [Started; 9] = [
        ("pcre2grep x", "pcre2grep x"),
        ("/usr/bin/pcre2test", "pcre2test"),
        ("./tools pcre2grep x", "pcre2grep x"),
        ("tools pcre2grep pcre2grep", "pcre2grep pcre2grep"),
        ("pcre2grep/tools x", "x"),
        ("bin/pcre2grep.old x", "x"),
        ("pcre2grep/", ""),
        ("''", ""),
        ("", ""),
    ];
    let alloc = rt.alloc();
    for (started, wanted) in &ROWS {
        let words = words_of(alloc, split_words(alloc, started)?)?;
        let wanted = split_words(alloc, wanted)?;
        assert!(rt; words.as_slice() == wanted.as_slice());
    }
    Ok(())
}
