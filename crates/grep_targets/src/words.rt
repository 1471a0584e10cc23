//! What words stand for.
ghost use Rattle.std.specs.Prelude.{◌≡◌, ◌≤◌, IsTrue, Some, true, flat_map, map, string_bytes, IfOk, IfSome, OnOk};
ghost use Rattle.pcre_io.specs.Causes.{Rose};
ghost use Rattle.grep_targets.specs.Filters.{filter_in};
ghost use Rattle.grep_targets.specs.Targets.{kind_targets, path_targets, targets, word_targets};
ghost use Rattle.grep_targets.specs.Stands.{AreOfEach, AreOfKind, AreOfName, AreOfWord, AreOfWords};
ghost use Rattle.grep_targets.specs.Walks.{has_failed, Grows, GrowsBy, HasCauses};

use crate::filters::NameFilter;
use crate::lists::TargetList;
use crate::paths::{name_from, text_from, word_path};
use crate::walk::{take_file, walk};
use pcre_io::{FileSet, IoError, Kind, Memory};
use std::alloc::Global;
use tool_io::Target;

/// The directory of a word is listed, and those that are at most 64 below it.
const LEVELS: u32 = 65;

// Tells of a path by its kind.
fn take_kind<F: FileSet>(
    alloc: Global,
    filter: &NameFilter,
    path: &str,
    kind: Kind,
    files: &mut F,
    told: &mut TargetList,
) -> Result<(), Memory>
    ensures grows { OnOk result (Grows (F.tells files.old).contents
        (λ set. kind_targets (filter_in filter.now) set path.now (Some kind)) told.old told.new) }
    ensures stands { OnOk result (GrowsBy (AreOfKind (filter_in filter.now) path.now (Some kind))
        told.old told.new) }
    ensures causes { OnOk result (HasCauses told.old told.new
        (F.tells files.old).faults (F.tells files.new).faults) }
    ensures same { (F.tells files.new).contents ≡ (F.tells files.old).contents }
    ensures later { (F.tells files.old).faults ≤ (F.tells files.new).faults }
{
    match kind {
        Kind::File => take_file(alloc, filter, text_from(alloc, path)?, told),
        Kind::Dir => walk(alloc, filter, text_from(alloc, path)?, LEVELS, files, told),
        Kind::Other | Kind::Unnamed => told.push(Target::File(name_from(alloc, path)?)),
    }
}

// Tells of a path under `-r`.
fn take_path<F: FileSet>(
    alloc: Global,
    filter: &NameFilter,
    path: &str,
    files: &mut F,
    told: &mut TargetList,
) -> Result<(), Memory>
    ensures grows { OnOk result (Grows (F.tells files.old).contents
        (λ set. path_targets (filter_in filter.now) set true path.now) told.old told.new) }
    ensures stands { OnOk result (GrowsBy (AreOfName true (filter_in filter.now) path.now)
        told.old told.new) }
    ensures causes { OnOk result (HasCauses told.old told.new
        (F.tells files.old).faults (F.tells files.new).faults) }
    ensures same { (F.tells files.new).contents ≡ (F.tells files.old).contents }
    ensures later { (F.tells files.old).faults ≤ (F.tells files.new).faults }
{
    match files.kind(alloc, path) {
        Ok(kind) => take_kind(alloc, filter, path, kind, files, told),
        Err(IoError::Failed) => told.push(Target::NoOpen(name_from(alloc, path)?)),
        Err(IoError::Memory) => Err(Memory),
    }
}

// Tells of a word.
fn take_word<F: FileSet>(
    alloc: Global,
    filter: &NameFilter,
    word: &str,
    recursive: bool,
    files: &mut F,
    told: &mut TargetList,
) -> Result<(), Memory>
    ensures grows { OnOk result (Grows (F.tells files.old).contents
        (λ set. word_targets (filter_in filter.now) set recursive word.now) told.old told.new) }
    ensures stands { OnOk result (GrowsBy (AreOfWord recursive (filter_in filter.now) word.now)
        told.old told.new) }
    ensures causes { OnOk result (HasCauses told.old told.new
        (F.tells files.old).faults (F.tells files.new).faults) }
    ensures same { (F.tells files.new).contents ≡ (F.tells files.old).contents }
    ensures later { (F.tells files.old).faults ≤ (F.tells files.new).faults }
{
    if word == "-" {
        told.push(Target::Input)
    } else if recursive {
        take_path(alloc, filter, word_path(word), files, told)
    } else {
        take_file(alloc, filter, text_from(alloc, word_path(word))?, told)
    }
}

// Tells of words.
fn take_words<F: FileSet>(
    alloc: Global,
    filter: &NameFilter,
    words: &[String],
    recursive: bool,
    files: &mut F,
) -> Result<TargetList, Memory>
    ensures told { IfOk result (λ list. IfSome (F.tells files.old).contents (λ set.
        list ≡ flat_map (word_targets (filter_in filter.now) set recursive)
        (map string_bytes words.now))) }
    ensures stands { IfOk result (AreOfEach (AreOfWord recursive (filter_in filter.now))
        (map string_bytes words.now)) }
    ensures causes { IfOk result (λ list. IsTrue (has_failed list)
        → Rose (F.tells files.old).faults (F.tells files.new).faults) }
    ensures same { (F.tells files.new).contents ≡ (F.tells files.old).contents }
    ensures later { (F.tells files.old).faults ≤ (F.tells files.new).faults }
{
    let mut told = TargetList::new(alloc);
    let mut rest = words;
    'word: loop {
        let [word, more @ ..] = rest else {
            return Ok(told);
        };
        take_word(alloc, filter, word.as_str(), recursive, files, &mut told)?;
        rest = more;
    }
}

/// What words stand for (pcre2grep, "DESCRIPTION" and "OPTIONS", `-r`): `-` is standard input, which is also scanned
/// without words; another word is a file where its name is allowed; under `-r` a directory is gone through.
///
/// Over a set of files that tells what it holds the list is known. Over any set the words stand for their targets in
/// order: without `-r` these are known, and with it they are those that some answers of a set give. A name that can't
/// be opened, or a directory that can't be listed, is in the list only where a fault was counted. Memory may be
/// wanting.
pub fn targets<F: FileSet>(
    alloc: Global,
    filter: &NameFilter,
    words: &[String],
    recursive: bool,
    files: &mut F,
) -> Result<TargetList, Memory>
    ensures told { IfOk result (λ list. IfSome (F.tells files.old).contents (λ set.
        list ≡ targets (filter_in filter.now) set (map string_bytes words.now) recursive)) }
    ensures stands { IfOk result (AreOfWords recursive (filter_in filter.now)
        (map string_bytes words.now)) }
    ensures causes { IfOk result (λ list. IsTrue (has_failed list)
        → Rose (F.tells files.old).faults (F.tells files.new).faults) }
    ensures same { (F.tells files.new).contents ≡ (F.tells files.old).contents }
    ensures later { (F.tells files.old).faults ≤ (F.tells files.new).faults }
{
    if words.is_empty() {
        let mut told = TargetList::new(alloc);
        told.push(Target::Input)?;
        return Ok(told);
    }
    take_words(alloc, filter, words, recursive, files)
}
