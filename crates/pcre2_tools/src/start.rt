//! The words that the program was started with.
ghost use Rattle.std.specs.Prelude.{◌≡◌, map, string_bytes, IfOk};
ghost use Rattle.pcre2_tools.specs.Start.{last_component, tool_named, words_of};

use pcre_io::Memory;
use std::alloc::Global;

// The last component of a path.
fn last_component(path: &str) -> &str
    ensures { result.now ≡ last_component path.now }
{
    let mut rest = path;
    'slash: loop {
        let Some((_, behind)) = rest.split_once('/') else {
            return rest;
        };
        rest = behind;
    }
}

// The tool of this name, and the empty text where there is none.
fn tool_named(name: &str) -> &'static str
    ensures { result.now ≡ tool_named name.now }
{
    if name == "pcre2grep" {
        "pcre2grep"
    } else if name == "pcre2test" {
        "pcre2test"
    } else {
        ""
    }
}

/// The tool that a path names by its last component, and the empty text where that names none.
pub fn tool_of(path: &str) -> &'static str
    ensures { result.now ≡ tool_named (last_component path.now) }
{
    tool_named(last_component(path))
}

/// The words for the tool. Where the program was started by a path whose last component is a tool's name, that name is
/// the first of them. Otherwise the path is left out, and the next word names the tool.
pub fn words_of(alloc: Global, mut args: Vec<String>) -> Result<Vec<String>, Memory>
    ensures { IfOk result (λ words. map string_bytes words.items
        ≡ words_of (map string_bytes args.items)) }
{
    if args.is_empty() {
        return Ok(args);
    }
    let tool = tool_of(args[0].as_str());
    if tool.is_empty() {
        args.remove(0);
        return Ok(args);
    }
    args[0] = String::from_str(alloc, tool)?;
    Ok(args)
}
