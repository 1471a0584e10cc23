//! The paths of files and of directories.
ghost use Rattle.std.specs.Prelude.{◌≡◌, string_bytes, IfOk};
ghost use Rattle.pcre_io.specs.MemTree.{joined};
ghost use Rattle.grep_targets.specs.Paths.{name_of, without_slashes, word_path};

use pcre_io::{Memory, Name};
use std::alloc::Global;

/// A copy of a text.
pub fn text_from(alloc: Global, text: &str) -> Result<String, Memory>
    ensures { IfOk result (λ s. string_bytes s ≡ text.now) }
{
    Ok(String::from_str(alloc, text)?)
}

/// A copy of a text as a name.
pub fn name_from(alloc: Global, text: &str) -> Result<Name, Memory>
    ensures { IfOk result (λ name. name ≡ text.now) }
{
    Ok(Name::of(text_from(alloc, text)?))
}

/// The path of an entry of a directory, in no more room than it needs.
pub fn joined(alloc: Global, directory: &str, name: &str) -> Result<String, Memory>
    ensures { IfOk result (λ s. string_bytes s ≡ joined directory.now name.now) }
{
    let mut path = String::with_capacity(alloc, directory.len() + 1 + name.len())?;
    path.push_str(directory)?;
    path.push_str("/")?;
    path.push_str(name)?;
    Ok(path)
}

// A word without the slashes at its end.
fn without_slashes(word: &str) -> &str
    ensures { result.now ≡ without_slashes word.now }
{
    let mut rest = word;
    'slash: loop {
        let Some(shorter) = rest.strip_suffix('/') else {
            return rest;
        };
        rest = shorter;
    }
}

/// The path of a word.
pub fn word_path(word: &str) -> &str
    ensures { result.now ≡ word_path word.now }
{
    let path = without_slashes(word);
    if path.is_empty() && !word.is_empty() {
        "/"
    } else {
        path
    }
}

/// The name of a path, its last component.
pub fn name_of(path: &[u8]) -> &[u8]
    ensures { result.now ≡ name_of path.now }
{
    let mut begin = path.len();
    'byte: while begin > 0 && path[begin - 1] != b'/' {
        begin -= 1;
    }
    &path[begin..]
}
