//! pcre2test over streams and files in memory. Each row says what is written for a command line,
//! and the status, by the manual page pcre2test and the rules of `docs/DEFINITIONS.md`.
use super::*;

#[test]
fn words_set_defaults_and_name_a_script(rt: HostRuntime) -> Result<(), Fail> {
    static FILES: [File; 3] = [
        ("s: /b/\nb\n", None),
        ("cut: /b/\nb\nc\n", Some(7)),
        ("none: /b/\n", Some(0)),
    ];
    static ROWS: [Row; 17] = [
        ("pcre2test -q < /a(b)?/\nac\n\n > /a(b)?/\nac\n 0: a\n\n", 0),
        (
            "pcre2test < /a/\nb\n > PCRE2 8-bit profile\n\n/a/\nb\nNo match\n",
            0,
        ),
        ("pcre2test -q - < /a/\na\n > /a/\na\n 0: a\n", 0),
        (
            "pcre2test -q -pattern i < /A/\na\n\n > /A/\na\n 0: a\n\n",
            0,
        ),
        (
            "pcre2test -pattern i -subject offset=1 -q < /A/\naba\n > /A/\naba\n 0: a\n",
            0,
        ),
        (
            "pcre2test -q -pattern i -pattern -caseless < /A/\na\n > /A/\na\nNo match\n",
            0,
        ),
        ("pcre2test -q -dfa < /a/\na\n > /a/\na\n 0: a\n", 0),
        ("pcre2test -q s < /a/\na\n > /b/\nb\n 0: b\n", 0),
        ("pcre2test s > PCRE2 8-bit profile\n\n/b/\nb\n 0: b\n", 0),
        (
            "pcre2test nofile < /a/\na\n ! pcre2test: nofile: cannot be opened\n",
            1,
        ),
        (
            "pcre2test -q cut > /b/\nb\n 0: b\n ! pcre2test: cut: read error\n",
            2,
        ),
        (
            "pcre2test none > PCRE2 8-bit profile\n\n ! pcre2test: none: read error\n",
            2,
        ),
        ("pcre2test -x < /a/\n ! pcre2test: bad arguments\n", 1),
        ("pcre2test -q -pattern ! pcre2test: bad arguments\n", 1),
        ("pcre2test -pattern nosuch ! pcre2test: bad arguments\n", 1),
        (
            "pcre2test -subject offset=x s ! pcre2test: bad arguments\n",
            1,
        ),
        ("pcre2test s s ! pcre2test: bad arguments\n", 1),
    ];
    check_all(&rt, rt.alloc(), &FILES, &ROWS)
}

#[test]
fn lines_are_made(rt: HostRuntime) -> Result<(), Fail> {
    static ROWS: [Row; 11] = [
        (
            "pcre2test -gen 1 < /a/\na\n > lines: 1\npattern 1: 1 lines, 4 characters\n\
            pattern 2: 1 lines, 1 characters\npattern 3: 1 lines, 3 characters\n\
            pattern 4: 1 lines, 5 characters\ndfa: 4 ends\nsubstitute: 3\n",
            0,
        ),
        (
            "pcre2test -gen 0 > lines: 0\npattern 1: 0 lines, 0 characters\npattern 2: 0 \
            lines, 0 characters\npattern 3: 0 lines, 0 characters\npattern 4: 0 \
            lines, 0 characters\ndfa: 0 ends\nsubstitute: 0\n",
            0,
        ),
        (
            "pcre2test -q -dfa -gen 1 > lines: 1\npattern 1: 1 lines, 4 characters\n\
            pattern 2: 1 lines, 1 characters\npattern 3: 1 lines, 3 characters\n\
            pattern 4: 1 lines, 5 characters\ndfa: 4 ends\nsubstitute: 3\n",
            0,
        ),
        ("pcre2test -gen ! pcre2test: bad arguments\n", 1),
        ("pcre2test -gen 100001 ! pcre2test: bad arguments\n", 1),
        (
            "pcre2test -gen 99999999999999999999 ! pcre2test: bad arguments\n",
            1,
        ),
        ("pcre2test -gen '' ! pcre2test: bad arguments\n", 1),
        ("pcre2test -gen -1 ! pcre2test: bad arguments\n", 1),
        ("pcre2test -gen 1 s ! pcre2test: bad arguments\n", 1),
        ("pcre2test -gen 1 -q ! pcre2test: bad arguments\n", 1),
        ("pcre2test -pattern -gen ! pcre2test: bad arguments\n", 1),
    ];
    check_all(&rt, rt.alloc(), &[], &ROWS)
}

#[test]
fn a_script_may_end_early(rt: HostRuntime) -> Result<(), Fail> {
    // a run, after how many bytes every read of its input fails, and the status
    static ROWS: [(&str, Option<u64>, u8); 4] = [
        (
            "pcre2test -q < /a/\na\nb\n > /a/\na\n 0: a\n ! pcre2test: (standard input): \
            read error\n",
            Some(7),
            2,
        ),
        (
            "pcre2test -q < /a/\na\nb\n > /a/\na\n 0: a\nb\nNo match\n ! pcre2test: \
            (standard input): read error\n",
            Some(8),
            2,
        ),
        (
            "pcre2test -q < /a/\na\nb\n > /a/\na\n 0: a\nb\nNo match\n",
            Some(9),
            0,
        ),
        ("pcre2test -q < /a\nb > /a\nb\n", None, 0),
    ];
    for (row, fail_at, status) in &ROWS {
        let streams = Streams {
            fail_at: *fail_at,
            ..unfailing(b"")
        };
        check(&rt, rt.alloc(), &[], &streams, row, *status)?;
    }
    Ok(())
}

#[test]
fn a_line_of_a_script_may_be_too_long(rt: HostRuntime) -> Result<(), Fail> {
    let alloc = rt.alloc();
    let note = "a".repeat(alloc, 1_048_575)?;
    let input = format!(in alloc; "/a/\na\n# {}\n", note.as_str())?;
    let streams = Streams {
        piece: 65_536,
        ..unfailing(input.as_str().as_bytes())
    };
    let row = "pcre2test -q > /a/\na\n 0: a\n \
        ! pcre2test: (standard input): line 3 is too long\n";
    check(&rt, alloc, &[], &streams, row, 2)
}

#[test]
fn sinks_may_refuse_what_a_script_writes(rt: HostRuntime) -> Result<(), Fail> {
    // a run, the room of the output, and that of the messages
    static ROWS: [(&str, Option<u64>, Option<u64>); 4] = [
        ("pcre2test < /a/\na\n > PCRE2 8-bi", Some(10), None),
        (
            "pcre2test < /a/\na\n > PCRE2 8-bit profile\n\n/a/",
            Some(24),
            None,
        ),
        ("pcre2test nofile < /a/\na\n ! pcre2", None, Some(5)),
        ("pcre2test -x < /a/\na\n", None, Some(0)),
    ];
    for (row, room, message_room) in &ROWS {
        let streams = Streams {
            room: *room,
            message_room: *message_room,
            ..unfailing(b"")
        };
        check(&rt, rt.alloc(), &[], &streams, row, 4)?;
    }
    Ok(())
}
