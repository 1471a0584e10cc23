//! The tool on the program's words, the real files and the standard streams.
use crate::start::{tool_of, words_of};
use crate::top::run;
use pcre_io::{StdFiles, StdSink, StdSource};
use std::env::{self, Env, FillError};
use std::io::{self, BufWriter, Write};
use std::process::ExitCode;
use std::str;

// So many bytes of results are gathered before they are written.
const BUFFER: usize = 65_536;

// Memory lacked.
const NO_MEMORY: u8 = 3;

// A write failed.
const NO_WRITE: u8 = 4;

// A word of pcre2grep isn't UTF-8.
const BAD_WORDS: u8 = 2;

// A word of pcre2test isn't, so that its arguments are bad.
const BAD_ARGUMENTS: u8 = 1;

// Linux starts no program by a path of more bytes.
const LONGEST_PATH: usize = 4096;

// Linux hands on no word of more bytes.
const LONGEST_WORD: usize = 131_072;

// The program's path and the words after it.
fn arguments(rt: &HostRuntime) -> io::Result<Vec<String>> {
    let mut args = Vec::new(rt.alloc());
    for arg in env::args(rt)? {
        args.push(arg)?;
    }
    Ok(args)
}

// The first word after the program's name that isn't UTF-8, counted from 1.
fn first_bad_word(rt: &HostRuntime) -> Option<usize> {
    let Ok(mut word) = vec![in rt.alloc(); 0u8; LONGEST_WORD] else {
        return None;
    };
    for i in 1..usize::MAX {
        match rt.arg(i, &mut word) {
            Ok(len) if str::from_utf8(&word[..len]).is_err() => return Some(i),
            Ok(_) | Err(FillError::TooLong) => {}
            Err(FillError::NotPresent) => break,
        }
    }
    None
}

// The tool that the program's path names, or else the word after it.
fn asked_tool(rt: &HostRuntime) -> &'static str {
    for i in 0..2 {
        let mut word = [0u8; LONGEST_PATH];
        if let Ok(len) = rt.arg(i, &mut word) {
            let tool = tool_of(str::from_utf8(&word[..len]).unwrap_or(""));
            if !tool.is_empty() {
                return tool;
            }
        }
    }
    "pcre2grep"
}

// Says which word of pcre2grep isn't UTF-8.
fn say_bad_word(rt: &HostRuntime) {
    let number = first_bad_word(rt).unwrap_or(0);
    if let Ok(line) = format!(in rt.alloc(); "pcre2grep: word {number} is not UTF-8\n") {
        let _ = rt.stderr().write_all(line.as_bytes());
    }
}

// Refuses words of which one isn't UTF-8, and answers the status.
fn refuse_words(rt: &HostRuntime) -> u8 {
    if asked_tool(rt) == "pcre2test" {
        let _ = rt.stderr().write_all(b"pcre2test: bad arguments\n");
        BAD_ARGUMENTS
    } else {
        say_bad_word(rt);
        BAD_WORDS
    }
}

// Runs the tool on the words that it was started with, and writes what is still gathered.
fn run_started(rt: &HostRuntime, args: Vec<String>) -> u8 {
    let Ok(words) = words_of(rt.alloc(), args) else {
        return NO_MEMORY;
    };
    let Ok(mut writer) = BufWriter::with_capacity(rt.alloc(), BUFFER, rt.stdout()) else {
        return NO_MEMORY;
    };
    let mut files = StdFiles::new(rt);
    let mut input = StdSource::new(rt.stdin());
    let mut out = StdSink::new(&mut writer);
    let mut err = StdSink::new(rt.stderr());
    let status = run(
        rt.alloc(),
        words.as_slice(),
        &mut files,
        &mut input,
        &mut out,
        &mut err,
    );
    if writer.flush().is_err() {
        NO_WRITE
    } else {
        status
    }
}

/// Runs the tool on the program's words, and answers the program's exit code.
pub fn run_real(rt: &HostRuntime) -> ExitCode {
    match arguments(rt) {
        Ok(args) => ExitCode::from(run_started(rt, args)),
        Err(e) if e.kind() == io::ErrorKind::OutOfMemory => ExitCode::from(NO_MEMORY),
        Err(_) => ExitCode::from(refuse_words(rt)),
    }
}
