//! Files in memory.
ghost use Rattle.std.specs.Prelude.{◌≡◌, ◌≤◌, [], map, MatchOption, None, Some, OnErr, OnOk, IfOk, Err, is_some};
ghost use Rattle.std.specs.Prelude.{string_bytes, option_map};
ghost use Rattle.pcre_io.specs.Files.{file_of, is_file, opened_file, is_among, kind_of, listed_entries};
ghost use Rattle.pcre_io.specs.Causes.{Rose};
ghost use Rattle.pcre_io.specs.MemTree.{Adds, Closes, MakesOther, Refuses, file_view, held_by, held_files, place_of};

use crate::entries::{Kind, Listing};
use crate::file_set::FileSet;
use crate::mem_source::MemSource;
use crate::mem_tree::{entries_below, has_below};
use crate::memory::Memory;
use crate::names::{Name, NameList};
use crate::traits::IoError;
use std::alloc::Global;

// A file: its name, its bytes, and where every read of it fails.
#[derive(Drop)]
pub struct MemFile {
    pub name: String,
    pub bytes: Vec<u8>,
    pub fail_at: Option<u64>,
}

/// Files in memory, at most one of a name. A name that is no file's is a directory where a file's name begins with it
/// and a slash.
#[derive(Drop)]
pub struct MemFiles {
    files: Vec<MemFile>,
    refused: NameList,
    others: NameList,
    closed: NameList,
    faults: u64,
}

impl MemFiles {
    /// A set without files. Takes no memory.
    pub fn new(alloc: Global) -> MemFiles
        ensures { ⟦<MemFiles as FileSet>⟧.tells result
            ≡ record { contents = Some (held_files [] []); faults = 0 } }
    {
        MemFiles {
            files: Vec::new(alloc),
            refused: NameList::new(alloc),
            others: NameList::new(alloc),
            closed: NameList::new(alloc),
            faults: 0,
        }
    }

    /// Adds a file, in the place of the one that has its name, if there is one. After `fail_at` of its bytes, where it
    /// is given, every read of it fails. The set is unchanged after a refusal, which is for want of memory alone.
    pub fn add(&mut self, name: String, bytes: Vec<u8>, fail_at: Option<u64>) -> Result<(), Memory>
        ensures ok { OnOk result
            (Adds (record { name = string_bytes name; bytes = bytes.items; fault = fail_at })
            (⟦<MemFiles as FileSet>⟧.tells self.old) (⟦<MemFiles as FileSet>⟧.tells self.new)) }
        ensures refused { OnErr result
            (⟦<MemFiles as FileSet>⟧.tells self.new ≡ ⟦<MemFiles as FileSet>⟧.tells self.old) }
    {
        let file = MemFile {
            name,
            bytes,
            fail_at,
        };
        let at = place_of(self.files.as_slice(), file.name.as_str());
        if at < self.files.len() {
            self.files[at] = file;
        } else {
            self.files.push(file)?;
        }
        Ok(())
    }

    /// Opening, listing and asking the kind of this name fail from now on. The set is unchanged after a refusal, which
    /// is for want of memory alone.
    pub fn refuse(&mut self, name: String) -> Result<(), Memory>
        ensures ok { OnOk result
            (Refuses (string_bytes name) (⟦<MemFiles as FileSet>⟧.tells self.old)
            (⟦<MemFiles as FileSet>⟧.tells self.new)) }
        ensures refused { OnErr result
            (⟦<MemFiles as FileSet>⟧.tells self.new ≡ ⟦<MemFiles as FileSet>⟧.tells self.old) }
    {
        self.refused.push(Name::of(name))
    }

    /// This name is of kind Other from now on: it is opened where it is a file's, and never listed. The set is
    /// unchanged after a refusal, which is for want of memory alone.
    pub fn make_other(&mut self, name: String) -> Result<(), Memory>
        ensures ok { OnOk result
            (MakesOther (string_bytes name) (⟦<MemFiles as FileSet>⟧.tells self.old)
            (⟦<MemFiles as FileSet>⟧.tells self.new)) }
        ensures refused { OnErr result
            (⟦<MemFiles as FileSet>⟧.tells self.new ≡ ⟦<MemFiles as FileSet>⟧.tells self.old) }
    {
        self.others.push(Name::of(name))
    }

    /// Opening and listing this name fail from now on, and its kind is still told. The set is unchanged after a
    /// refusal, which is for want of memory alone.
    pub fn close(&mut self, name: String) -> Result<(), Memory>
        ensures ok { OnOk result
            (Closes (string_bytes name) (⟦<MemFiles as FileSet>⟧.tells self.old)
            (⟦<MemFiles as FileSet>⟧.tells self.new)) }
        ensures refused { OnErr result
            (⟦<MemFiles as FileSet>⟧.tells self.new ≡ ⟦<MemFiles as FileSet>⟧.tells self.old) }
    {
        self.closed.push(Name::of(name))
    }

    // The kind of a name, if it is known.
    fn kind_of(&self, name: &str) -> Option<Kind>
        ensures { result ≡ kind_of name.now (held_by (map file_view self.now.files.items)
            self.now.refused self.now.others self.now.closed) }
    {
        if is_among(name, self.refused.as_slice()) {
            None
        } else if is_among(name, self.others.as_slice()) {
            Some(Kind::Other)
        } else if has_file(self.files.as_slice(), name) {
            Some(Kind::File)
        } else if has_below(self.files.as_slice(), name) {
            Some(Kind::Dir)
        } else {
            None
        }
    }

    // The file that a name opens, if there is one.
    fn opened(&self, name: &str) -> Option<&MemFile>
        ensures { option_map (λ f. file_view f.now) result
            ≡ opened_file name.now (held_by (map file_view self.now.files.items)
            self.now.refused self.now.others self.now.closed) }
    {
        if is_among(name, self.refused.as_slice()) || is_among(name, self.closed.as_slice()) {
            None
        } else {
            find(self.files.as_slice(), name)
        }
    }

    // Whether a name is listed.
    fn is_listed(&self, name: &str) -> bool
        ensures { result
            ≡ is_some (listed_entries name.now (held_by (map file_view self.now.files.items)
            self.now.refused self.now.others self.now.closed)) }
    {
        match self.kind_of(name) {
            Some(Kind::Dir) => !is_among(name, self.closed.as_slice()),
            _ => false,
        }
    }

    // Counts a fault.
    fn fail(&mut self) -> IoError
        ensures later { self.old.faults ≤ self.new.faults }
        ensures counts { Rose self.old.faults self.new.faults }
        ensures failed { result ≡ IoError.Failed }
        ensures same { (self.new.files ≡ self.old.files) × (self.new.refused ≡ self.old.refused)
            × (self.new.others ≡ self.old.others) × (self.new.closed ≡ self.old.closed) }
    {
        self.faults = self.faults.saturating_add(1);
        IoError::Failed
    }
}

// Whether a name is among these.
fn is_among(name: &str, names: &[Name]) -> bool
    ensures { result ≡ is_among name.now names.now }
{
    let mut rest = names;
    'name: loop {
        let [first, more @ ..] = rest else {
            return false;
        };
        if first.as_str() == name {
            return true;
        }
        rest = more;
    }
}

// How many files stand before the first of this name.
fn place_of(files: &[MemFile], name: &str) -> usize
    ensures { result ≡ place_of name.now (map file_view files.now) }
{
    let mut rest = files;
    let mut at = 0;
    'file: loop {
        let [file, more @ ..] = rest else {
            return at;
        };
        if file.name.as_str() == name {
            return at;
        }
        rest = more;
        at += 1;
    }
}

/// The first file of this name.
pub fn find<'a>(files: &'a [MemFile], name: &str) -> Option<&'a MemFile>
    ensures { MatchOption result (file_of name.now (map file_view files.now) ≡ None)
        (λ f. file_of name.now (map file_view files.now) ≡ Some (file_view f.now)) }
{
    let mut rest = files;
    'file: loop {
        let [file, more @ ..] = rest else {
            return None;
        };
        if file.name.as_str() == name {
            return Some(file);
        }
        rest = more;
    }
}

/// Whether a file has this name.
pub fn has_file(files: &[MemFile], name: &str) -> bool
    ensures { result ≡ is_file name.now (map file_view files.now) }
{
    find(files, name).is_some()
}

// A source of a file's bytes.
fn source_of(alloc: Global, file: &MemFile) -> Result<MemSource, IoError>
    ensures ok { IfOk result
        (λ s. ⟦<MemSource as crate::Source>⟧.tells s
        ≡ record { left = Some file.now.bytes.items; stop = Some file.now.fail_at; faults = 0 }) }
    ensures err { OnErr result (result ≡ Err IoError.Memory) }
{
    match file.bytes.as_slice().to_vec(alloc) {
        Ok(bytes) => Ok(MemSource::new(bytes, file.fail_at, 65_536)),
        Err(_) => Err(IoError::Memory),
    }
}

impl FileSet for MemFiles {
    type Src = MemSource;

    ghost tells = { λ s. record {
      contents = Some (held_by (map file_view s.files.items) s.refused s.others s.closed);
      faults = s.faults;
    } };

    fn open_file(&mut self, alloc: Global, name: &str) -> Result<MemSource, IoError> {
        match self.opened(name) {
            Some(file) => source_of(alloc, file),
            None => Err(self.fail()),
        }
    }

    fn kind(&mut self, _alloc: Global, name: &str) -> Result<Kind, IoError> {
        match self.kind_of(name) {
            Some(kind) => Ok(kind),
            None => Err(self.fail()),
        }
    }

    fn list(&mut self, alloc: Global, name: &str) -> Result<Listing, IoError> {
        if self.is_listed(name) {
            entries_below(alloc, name, self.files.as_slice())
        } else {
            Err(self.fail())
        }
    }
}
