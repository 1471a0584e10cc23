//! The directories of files in memory, which come from the names of the files.
ghost use Rattle.std.specs.Prelude.{◌≡◌, ◌∷◌, ◌++◌, bytes_eq, map, string_bytes, option_copied, is_some, Some, Err};
ghost use Rattle.std.specs.Prelude.{IfOk, OnErr, OnOk};
ghost use Rattle.std.specs.List.{before_first, list_any};
ghost use Rattle.pcre_io.specs.Files.{File};
ghost use Rattle.pcre_io.specs.declared.entries.DirEntry.{DirEntry};
ghost use Rattle.pcre_io.specs.declared.traits.IoError.TheVariants.{Memory};
ghost use Rattle.pcre_io.specs.MemTree.{below, entries_below, entry_at, file_view, is_slash, joined, with_entry};

use crate::entries::{DirEntry, Kind, Listing};
use crate::mem_files::{MemFile, has_file};
use crate::names::Name;
use crate::traits::IoError;
use std::alloc::Global;

// What follows a directory's name and a slash, where a name begins with them.
fn below<'a>(directory: &str, name: &'a str) -> Option<&'a str>
    ensures { option_copied result ≡ below directory.now name.now }
{
    match name.strip_prefix(directory) {
        Some(rest) => rest.strip_prefix('/'),
        None => None,
    }
}

// A path up to its first slash.
fn first_component(path: &str) -> &str
    ensures { result.now ≡ before_first is_slash path.now }
{
    match path.split_once('/') {
        Some((first, _)) => first,
        None => path,
    }
}

/// Whether the name of one of the files begins with this one and a slash.
pub fn has_below(files: &[MemFile], name: &str) -> bool
    ensures { result ≡ list_any (λ (f : File). is_some (below name.now f.name))
        (map file_view files.now) }
{
    let mut rest = files;
    'file: loop {
        let [file, more @ ..] = rest else {
            return false;
        };
        if below(name, file.name.as_str()).is_some() {
            return true;
        }
        rest = more;
    }
}

// A copy of a text.
fn text_from(alloc: Global, text: &str) -> Result<String, IoError>
    ensures ok { IfOk result (λ s. string_bytes s ≡ text.now) }
    ensures err { OnErr result (result ≡ Err Memory) }
{
    match String::from_str(alloc, text) {
        Ok(text) => Ok(text),
        Err(_) => Err(IoError::Memory),
    }
}

// Adds to a text.
fn push_text(text: &mut String, more: &str) -> Result<(), IoError>
    ensures ok { OnOk result (string_bytes text.new ≡ string_bytes text.old ++ more.now) }
    ensures err { OnErr result (result ≡ Err Memory) }
{
    match text.push_str(more) {
        Ok(()) => Ok(()),
        Err(_) => Err(IoError::Memory),
    }
}

// A directory's name and an entry's, joined by a slash.
fn joined(alloc: Global, directory: &str, name: &str) -> Result<String, IoError>
    ensures ok { IfOk result (λ s. string_bytes s ≡ joined directory.now name.now) }
    ensures err { OnErr result (result ≡ Err Memory) }
{
    let mut text = text_from(alloc, directory)?;
    push_text(&mut text, "/")?;
    push_text(&mut text, name)?;
    Ok(text)
}

// An entry of a directory, by its name.
fn entry_at(
    alloc: Global,
    directory: &str,
    files: &[MemFile],
    name: &str,
) -> Result<DirEntry, IoError>
    ensures ok { IfOk result (λ e. e ≡ entry_at directory.now (map file_view files.now) name.now) }
    ensures err { OnErr result (result ≡ Err Memory) }
{
    let path = joined(alloc, directory, name)?;
    let kind = if has_file(files, path.as_str()) {
        Kind::File
    } else {
        Kind::Dir
    };
    let name = Name::of(text_from(alloc, name)?);
    Ok(DirEntry { name, kind })
}

// Whether an entry has this name.
fn has_name(entries: &[DirEntry], name: &str) -> bool
    ensures { result ≡ list_any (λ (e : DirEntry). bytes_eq e.name name.now) entries.now }
{
    let mut rest = entries;
    'entry: loop {
        let [entry, more @ ..] = rest else {
            return false;
        };
        if entry.name.as_str() == name {
            return true;
        }
        rest = more;
    }
}

// Adds an entry, unless there is one of its name.
fn add_entry(entries: &mut Listing, entry: DirEntry) -> Result<(), IoError>
    ensures ok { OnOk result (entries.new ≡ with_entry entries.old entry) }
    ensures err { OnErr result (result ≡ Err Memory) }
{
    if has_name(entries.as_slice(), entry.name.as_str()) {
        return Ok(());
    }
    match entries.push(entry) {
        Ok(()) => Ok(()),
        Err(_) => Err(IoError::Memory),
    }
}

/// The entries of a directory.
pub fn entries_below(alloc: Global, directory: &str, files: &[MemFile]) -> Result<Listing, IoError>
    ensures ok { IfOk result (λ l. l ≡ entries_below directory.now (map file_view files.now)) }
    ensures err { OnErr result (result ≡ Err Memory) }
{
    let mut entries = Listing::new(alloc);
    let mut rest = files;
    'file: loop {
        let [file, more @ ..] = rest else {
            return Ok(entries);
        };
        if let Some(path) = below(directory, file.name.as_str()) {
            let entry = entry_at(alloc, directory, files, first_component(path))?;
            add_entry(&mut entries, entry)?;
        }
        rest = more;
    }
}
