//! The files of the system as a set of files.
ghost use Rattle.std.specs.Prelude.{◌≡◌, ◌≤◌, None, Some, IfOk};
ghost use Rattle.pcre_io.specs.Causes.{Rose};
ghost use Rattle.pcre_io.specs.Files.{IsOfName};

use crate::entries::{DirEntry, Kind, Listing};
use crate::file_set::FileSet;
use crate::names::Name;
use crate::std_source::StdSource;
use crate::traits::IoError;
use std::alloc::Global;
use std::fs::{self, FileType, OpenFile};
use std::io::{self, ErrorKind};
use std::rt::Files;

/// The files of the system, which tells nothing of what they hold. A directory can't be opened.
#[derive(Drop)]
pub struct StdFiles<'a, R: Files> {
    files: &'a R,
    faults: u64,
}

impl<'a, R: Files + AllocGlobal + Clone + Drop> StdFiles<'a, R> {
    /// The files that a runtime opens. Takes no memory.
    pub fn new(files: &'a R) -> StdFiles<'a, R>
        ensures { ⟦<StdFiles<'a, R> as FileSet>⟧.tells result
            ≡ record { contents = None; faults = 0 } }
    {
        StdFiles { files, faults: 0 }
    }
}

// Opens a file that isn't a directory. A read waits where it is a pipe or a device.
fn open<R: Files>(files: &R, name: &str) -> Option<StdSource<R::File>> {
    match fs::open(files, name) {
        Ok(file) => match file.metadata() {
            Ok(metadata) if metadata.is_dir() => None,
            Ok(metadata) if metadata.is_file() => Some(StdSource::of_file(file)),
            Ok(_) => Some(StdSource::new(file)),
            Err(_) => None,
        },
        Err(_) => None,
    }
}

// What the system's refusal is here.
fn cause_of(error: &io::Error) -> IoError {
    if error.kind() == ErrorKind::OutOfMemory {
        IoError::Memory
    } else {
        IoError::Failed
    }
}

fn kind_by(file_type: FileType) -> Kind
    ensures { IsOfName (Some result) }
{
    if file_type.is_file() {
        Kind::File
    } else if file_type.is_dir() {
        Kind::Dir
    } else {
        Kind::Other
    }
}

// The kind of a name's file. A link is followed.
fn kind_at<R: Files>(files: &R, name: &str) -> Result<Kind, IoError>
    ensures { IfOk result (λ kind. IsOfName (Some kind)) }
{
    match fs::metadata(files, name) {
        Ok(metadata) => Ok(kind_by(metadata.file_type())),
        Err(e) => Err(cause_of(&e)),
    }
}

fn name_from(alloc: Global, text: &str) -> Result<Name, IoError> {
    match String::from_str(alloc, text) {
        Ok(text) => Ok(Name::of(text)),
        Err(_) => Err(IoError::Memory),
    }
}

// The kind of an entry, where it is still there. One that the system won't look at is neither a file nor a directory.
fn kind_seen(seen: io::Result<FileType>) -> Result<Option<Kind>, IoError> {
    match seen {
        Ok(file_type) => Ok(Some(kind_by(file_type))),
        Err(e) if e.kind() == ErrorKind::NotFound => Ok(None),
        Err(e) => match cause_of(&e) {
            IoError::Memory => Err(IoError::Memory),
            IoError::Failed => Ok(Some(Kind::Other)),
        },
    }
}

// An entry of this name. A link in a directory isn't followed.
fn entry_named<R: Files + Drop>(
    alloc: Global,
    entry: &fs::DirEntry<R, Global>,
) -> Result<Option<DirEntry>, IoError> {
    let Some(kind) = kind_seen(entry.file_type())? else {
        return Ok(None);
    };
    let name = name_from(alloc, entry.file_name())?;
    Ok(Some(DirEntry { name, kind }))
}

// An entry as it was read, unless it is gone since. One whose name isn't UTF-8 is told under the empty name.
fn entry_from<R: Files + Drop>(
    alloc: Global,
    entry: io::Result<fs::DirEntry<R, Global>>,
) -> Result<Option<DirEntry>, IoError> {
    match entry {
        Ok(entry) => entry_named(alloc, &entry),
        Err(e) if e.kind() == ErrorKind::InvalidFilename => Ok(Some(DirEntry {
            name: name_from(alloc, "")?,
            kind: Kind::Unnamed,
        })),
        Err(e) => Err(cause_of(&e)),
    }
}

// The entries of a directory, which is closed again before they are answered.
fn entries_at<R: Files + AllocGlobal + Clone + Drop>(
    files: &R,
    alloc: Global,
    name: &str,
) -> Result<Listing, IoError> {
    let mut listing = Listing::new(alloc);
    match fs::read_dir(files, name) {
        Ok(entries) => {
            for entry in entries {
                if let Some(entry) = entry_from(alloc, entry)? {
                    push_entry(&mut listing, entry)?;
                }
            }
            Ok(listing)
        }
        Err(e) => Err(cause_of(&e)),
    }
}

fn push_entry(listing: &mut Listing, entry: DirEntry) -> Result<(), IoError> {
    match listing.push(entry) {
        Ok(()) => Ok(()),
        Err(_) => Err(IoError::Memory),
    }
}

impl<'a, R: Files> StdFiles<'a, R> {
    // Counts a fault, unless memory lacked.
    fn count(&mut self, error: IoError) -> IoError
        ensures same { result ≡ error }
        ensures later { self.old.faults ≤ self.new.faults }
        ensures failed { result ≡ IoError.Failed → Rose self.old.faults self.new.faults }
    {
        if error == IoError::Failed {
            self.faults = self.faults.saturating_add(1);
        }
        error
    }
}

impl<'a, R: Files + AllocGlobal + Clone + Drop> FileSet for StdFiles<'a, R> {
    type Src = StdSource<R::File>;

    ghost tells = { λ s. record { contents = None; faults = s.faults } };

    fn open_file(&mut self, _alloc: Global, name: &str) -> Result<StdSource<R::File>, IoError> {
        match open(self.files, name) {
            Some(source) => Ok(source),
            None => Err(self.count(IoError::Failed)),
        }
    }

    fn kind(&mut self, _alloc: Global, name: &str) -> Result<Kind, IoError> {
        match kind_at(self.files, name) {
            Ok(kind) => Ok(kind),
            Err(error) => Err(self.count(error)),
        }
    }

    fn list(&mut self, alloc: Global, name: &str) -> Result<Listing, IoError> {
        match entries_at(self.files, alloc, name) {
            Ok(listing) => Ok(listing),
            Err(error) => Err(self.count(error)),
        }
    }
}
