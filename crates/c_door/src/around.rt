//! Patterns of which a match is whole words or whole lines (pcre2api, "Setting up a compile
//! context", PCRE2_EXTRA_MATCH_WORD and PCRE2_EXTRA_MATCH_LINE).
ghost use Rattle.std.specs.Prelude.{◌≡◌, ◌≤◌, ◌++◌, IfOk, IfErr, OnOk, None, false, length, flat_map};
ghost use Rattle.pat_tree.specs.Pattern.{pattern_of};
ghost use Rattle.pcre2_api.specs.Compiled.{IsCompileError};
ghost use Rattle.pcre2_api.specs.Patterns.{compiled};
ghost use Rattle.c_door.specs.Asking.{options_of};
ghost use Rattle.c_door.specs.Telling.{IsCompiledAround};
ghost use Rattle.c_door.specs.Around.{escaped, enclosed, items_end, around, compiled_around};

use crate::asked::{Asked, options_of};
use crate::engine::Engine;
use crate::handle::Handle;
use crate::told::{Fault, fault_of};
use pat_grammar::ReadError;
use pat_grammar::start::started;
use pcre2_api::{Code, CompileError, Options};
use std::alloc::{AllocError, Global};

const UNCLOSED_GROUP: i32 = 114;

/// A byte below 128 that is neither a letter nor a digit gets a backslash.
fn push_escaped(text: &mut Vec<u8>, byte: u8) -> Result<(), AllocError>
    ensures { OnOk result (text.new.items ≡ text.old.items ++ escaped byte) }
{
    if byte < 128 && !byte.is_ascii_alphanumeric() {
        text.push(b'\\')?;
    }
    text.push(byte)?;
    Ok(())
}

/// A literal pattern as another one.
fn escape(alloc: Global, pattern: &[u8]) -> Result<Vec<u8>, AllocError>
    ensures { IfOk result (λ text. text.items ≡ flat_map escaped pattern.now) }
{
    let mut text = Vec::new(alloc);
    for byte in pattern {
        push_escaped(&mut text, *byte)?;
    }
    Ok(text)
}

/// A pattern with what stands around it.
fn enclosed(
    alloc: Global,
    line: bool,
    front: &[u8],
    pattern: &[u8],
    end: &[u8],
) -> Result<Vec<u8>, AllocError>
    ensures { IfOk result (λ text. text.items ≡ enclosed line front.now pattern.now end.now) }
{
    let mut text = Vec::from_slice(alloc, front)?;
    text.extend_from_slice(if line {
        b"^(?:".as_slice()
    } else {
        b"\\b(?:".as_slice()
    })?;
    text.extend_from_slice(pattern)?;
    text.extend_from_slice(end)?;
    text.extend_from_slice(if line {
        b")$".as_slice()
    } else {
        b")\\b".as_slice()
    })?;
    Ok(text)
}

/// Where the start items of a pattern end.
fn items_end(pattern: &[u8], options: Options) -> Result<usize, AllocError>
    ensures end { IfOk result (λ at. at ≡ items_end options pattern.now) }
    ensures within { IfOk result (λ at. at ≤ length pattern.now) }
{
    match started(pattern, options) {
        Ok((at, _)) => Ok(at),
        Err(ReadError::Bad { .. }) => Ok(0),
        Err(ReadError::Memory) => Err(AllocError),
    }
}

/// The text that stands for a pattern whose end may be in a comment.
fn around(
    alloc: Global,
    pattern: &[u8],
    options: Options,
    line: bool,
    commented: bool,
) -> Result<Vec<u8>, AllocError>
    ensures { IfOk result (λ text. text.items ≡ around options line commented pattern.now) }
{
    if options.literal {
        let pattern = escape(alloc, pattern)?;
        return enclosed(
            alloc,
            line,
            b"".as_slice(),
            pattern.as_slice(),
            b"".as_slice(),
        );
    }
    let at = items_end(pattern, options)?;
    let end = if commented {
        b"\\E\n".as_slice()
    } else {
        b"\\E".as_slice()
    };
    enclosed(alloc, line, &pattern[..at], &pattern[at..], end)
}

impl Engine {
    /// Compiles the text that stands for a pattern.
    fn compile_text(
        alloc: Global,
        pattern: &[u8],
        options: Options,
        line: bool,
        commented: bool,
    ) -> Result<Box<Engine>, CompileError>
        ensures compiled { IfOk result (λ e. compiled (record options { literal = false })
            (around options line commented pattern.now)
            ≡ Ok (pattern_of e.value.code.value.tree)) }
        ensures refused { IfErr result (IsCompileError
            (compiled (record options { literal = false })
            (around options line commented pattern.now))) }
    {
        let text = around(alloc, pattern, options, line, commented)?;
        let plain = Options {
            literal: false,
            ..options
        };
        Engine::compile(alloc, text.as_slice(), plain)
    }

    /// Compiles a pattern of which a match is a whole line, or else a whole word.
    pub(crate) fn compile_around(
        alloc: Global,
        pattern: &[u8],
        options: Options,
        line: bool,
    ) -> Result<Box<Engine>, CompileError>
        ensures compiled { IfOk result (λ e. compiled_around options line pattern.now
            ≡ Ok (pattern_of e.value.code.value.tree)) }
        ensures refused { IfErr result (IsCompileError
            (compiled_around options line pattern.now)) }
    {
        drop(Code::compile(alloc, pattern, options)?);
        match Engine::compile_text(alloc, pattern, options, line, false) {
            Err(CompileError::Bad { number, at }) => {
                if number == UNCLOSED_GROUP {
                    return Engine::compile_text(alloc, pattern, options, line, true);
                }
                Err(CompileError::Bad { number, at })
            }
            told => told,
        }
    }
}

/// Compiles a pattern of which a match is a whole line, or else a whole word (pcre2api, "Setting up
/// a compile context", PCRE2_EXTRA_MATCH_LINE and PCRE2_EXTRA_MATCH_WORD), as `door_compile` does.
#[unsafe(no_mangle)]
pub extern "C" fn door_compile_around(
    alloc: Global,
    pattern: &[u8],
    asked: &Asked,
    line: bool,
    handle: &mut Handle,
    fault: &mut Fault,
) -> i32
    requires { handle.old.engine ≡ None }
    ensures { IsCompiledAround (options_of asked.now) line pattern.now result handle.new.engine
        fault.new }
{
    match Engine::compile_around(alloc, pattern, options_of(asked), line) {
        Ok(engine) => {
            *handle = Handle::of(engine);
            0
        }
        Err(CompileError::Bad { number, at }) => {
            *fault = fault_of(number, at);
            1
        }
        Err(CompileError::Memory) => 2,
    }
}
