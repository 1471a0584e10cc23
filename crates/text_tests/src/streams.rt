//! Files and directories, in memory and of the system.
use pcre_io::{
    FileSet, IoError, Kind, Listing, MemFiles, MemSink, Sink, Source, StdFiles, StdSink,
};
use std::alloc::Global;
use std::fs;
use std::process::Abort;
use std::rt::Files;
use std::test::Fail;

// The bytes of a file of the set, read whole; none where it can't be opened or a read fails.
fn read_file<F: FileSet>(
    alloc: Global,
    files: &mut F,
    name: &str,
) -> Result<Option<Vec<u8>>, Fail> {
    let Ok(mut source) = files.open_file(alloc, name) else {
        return Ok(None);
    };
    let mut bytes = Vec::new(alloc);
    let mut buf = [0u8; 4];
    for _ in 0..100u32 {
        let Ok(count) = source.read(&mut buf) else {
            return Ok(None);
        };
        if count == 0 {
            break;
        }
        bytes.extend_from_slice(&buf[..count])?;
    }
    Ok(Some(bytes))
}

fn reads<F: FileSet>(
    rt: &impl Abort,
    alloc: Global,
    files: &mut F,
    name: &str,
    wanted: Option<&'static [u8]>,
) -> Result<(), Fail> {
    let bytes = read_file(alloc, files, name)?;
    assert!(rt; bytes.as_deref() == wanted, "of {name}");
    Ok(())
}

// A letter for each kind.
fn letter(kind: Kind) -> char {
    match kind {
        Kind::File => 'f',
        Kind::Dir => 'd',
        Kind::Other => 'o',
        Kind::Unnamed => 'u',
    }
}

// The entries of a directory, each its name and its kind, in order of the names.
fn entries(alloc: Global, listing: &Listing) -> Result<Vec<String>, Fail> {
    let mut entries = Vec::new(alloc);
    for i in 0..listing.len() {
        let entry = listing.get(i);
        let letter = letter(entry.kind);
        entries.push(format!(in alloc; " {}:{letter}", entry.name.as_str())?)?;
    }
    entries.sort()?;
    Ok(entries)
}

// The kind of a name and then its entries; `!` where asking failed.
fn shown<F: FileSet>(alloc: Global, files: &mut F, name: &str) -> Result<String, Fail> {
    let kind = files.kind(alloc, name).map_or('!', letter);
    let mut text = format!(in alloc; "{kind}")?;
    match files.list(alloc, name) {
        Ok(listing) => {
            for entry in &entries(alloc, &listing)? {
                text.push_str(entry.as_str())?;
            }
        }
        Err(_) => text.push_str(" !")?,
    }
    Ok(text)
}

fn shows<F: FileSet>(
    rt: &impl Abort,
    alloc: Global,
    files: &mut F,
    name: &str,
    wanted: &str,
) -> Result<(), Fail> {
    let text = shown(alloc, files, name)?;
    assert!(rt; text.as_str() == wanted, "of {name}: {text}");
    Ok(())
}

fn show_all<F: FileSet>(
    rt: &impl Abort,
    alloc: Global,
    files: &mut F,
    rows: &[(&str, &str)],
) -> Result<(), Fail> {
    for (name, wanted) in rows {
        shows(rt, alloc, files, name, wanted)?;
    }
    Ok(())
}

/// Names of files, their bytes, and where reading them fails.
const FILES: &[(&str, &[u8], Option<u64>)] = &[
    ("a", b"first", None),
    ("b", b"second file", None),
    ("a", b"third", None),
    ("c", b"fails", Some(2)),
];

#[test]
fn files_in_memory_are_found_by_name(rt: HostRuntime) -> Result<(), Fail> {
    let alloc = rt.alloc();
    let mut files = MemFiles::new(alloc);
    for (name, bytes, fail_at) in FILES {
        let name = String::from_str(alloc, name)?;
        files.add(name, bytes.to_vec(alloc)?, *fail_at)?;
    }
    reads(&rt, alloc, &mut files, "a", Some(b"third"))?;
    reads(&rt, alloc, &mut files, "b", Some(b"second file"))?;
    reads(&rt, alloc, &mut files, "c", None)?;
    reads(&rt, alloc, &mut files, "d", None)?;
    files.refuse(String::from_str(alloc, "b")?)?;
    reads(&rt, alloc, &mut files, "b", None)?;
    reads(&rt, alloc, &mut files, "a", Some(b"third"))
}

fn add_empty(alloc: Global, files: &mut MemFiles, names: &[&str]) -> Result<(), Fail> {
    for name in names {
        files.add(String::from_str(alloc, name)?, Vec::new(alloc), None)?;
    }
    Ok(())
}

const DIRECTORIES: &[(&str, &str)] = &[
    ("d", "d a:f b:f sub:d"),
    ("d/sub", "d x:f y:f"),
    ("d/sub/x", "f !"),
    ("dd", "f !"),
    ("d/", "! !"),
    ("", "! !"),
    ("s", "! !"),
];

// A file's name is no directory's.
const HIDDEN: &[(&str, &str)] = &[
    ("d", "f !"),
    ("d/sub", "d x:f y:f"),
    ("e", "d f:d"),
    ("e/f", "! !"),
    ("e/f/g", "f !"),
    ("", "d top:f"),
    ("h", "d :d"),
    ("h/", "d i:f"),
];

// A file and a directory that are closed, and two of kind Other.
const CLOSED: &[(&str, &str)] = &[
    ("dd", "f !"),
    ("d/sub", "d !"),
    ("d", "o !"),
    ("e", "o !"),
    ("h", "d :d"),
];

#[test]
fn directories_in_memory_come_from_names(rt: HostRuntime) -> Result<(), Fail> {
    let alloc = rt.alloc();
    let mut files = MemFiles::new(alloc);
    add_empty(
        alloc,
        &mut files,
        &["d/b", "d/sub/x", "d/a", "d/sub/y", "dd"],
    )?;
    show_all(&rt, alloc, &mut files, DIRECTORIES)?;
    add_empty(alloc, &mut files, &["d", "e/f/g", "/top", "h//i"])?;
    files.refuse(String::from_str(alloc, "e/f")?)?;
    show_all(&rt, alloc, &mut files, HIDDEN)?;
    for name in ["dd", "d/sub"] {
        files.close(String::from_str(alloc, name)?)?;
    }
    for name in ["d", "e"] {
        files.make_other(String::from_str(alloc, name)?)?;
    }
    reads(&rt, alloc, &mut files, "dd", None)?;
    reads(&rt, alloc, &mut files, "d", Some(b""))?;
    show_all(&rt, alloc, &mut files, CLOSED)
}

#[test]
fn files_of_the_system_are_opened(rt: HostRuntime) -> Result<(), Fail> {
    let alloc = rt.alloc();
    fs::write(&rt, "one.txt", "one\ntwo\n")?;
    fs::create_dir(&rt, "folder")?;
    let mut files = StdFiles::new(&rt);
    reads(&rt, alloc, &mut files, "one.txt", Some(b"one\ntwo\n"))?;
    reads(&rt, alloc, &mut files, "folder", None)?;
    reads(&rt, alloc, &mut files, "missing", None)
}

const SYSTEM: &[(&str, &str)] = &[
    ("top", "d .hidden:f file:f inner:d link:o lost:o way:o"),
    ("top/inner", "d"),
    ("top/file", "f !"),
    ("top/link", "f !"),
    ("top/way", "d"),
    ("top/lost", "! !"),
    ("missing", "! !"),
    ("/dev/null", "o !"),
];

#[test]
fn directories_of_the_system_are_listed(rt: HostRuntime) -> Result<(), Fail> {
    let alloc = rt.alloc();
    fs::create_dir(&rt, "top")?;
    fs::create_dir(&rt, "top/inner")?;
    fs::write(&rt, "top/.hidden", "")?;
    fs::write(&rt, "top/file", "")?;
    rt.symlink("file", "top/link")?;
    rt.symlink("inner", "top/way")?;
    rt.symlink("nowhere", "top/lost")?;
    let mut files = StdFiles::new(&rt);
    show_all(&rt, alloc, &mut files, SYSTEM)
}

// Writes pieces until one is refused, and says what was taken.
fn fill<O: Sink>(out: &mut O, bytes: &[u8]) -> Result<usize, IoError> {
    let mut at = 0usize;
    for _ in 0..100u32 {
        let Some(rest) = bytes.get(at..) else {
            return Ok(at);
        };
        if rest.is_empty() {
            return Ok(at);
        }
        at = at.saturating_add(out.write(rest)?);
    }
    Ok(at)
}

#[test]
fn a_sink_is_flushed(rt: HostRuntime) -> Result<(), Fail> {
    let alloc = rt.alloc();
    let mut sink = MemSink::new(alloc, Some(3), 2);
    assert!(rt; fill(&mut sink, b"abcd") == Err(IoError::Failed));
    assert!(rt; sink.flush().is_ok() && sink.bytes() == b"abc".as_slice());
    let mut buffer = Vec::new(alloc);
    let mut sink = StdSink::new(&mut buffer);
    assert!(rt; fill(&mut sink, b"abcd") == Ok(4) && sink.flush().is_ok());
    Ok(())
}
