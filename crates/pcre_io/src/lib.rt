//! The outside of a search: sources, sinks and sets of files, which count their faults and may tell what
//! they hold, and what is called at callouts.
#![tactic(auto)]

mod callouts;
mod entries;
mod file_set;
mod mem_files;
mod mem_sink;
mod mem_source;
mod mem_tree;
mod memory;
mod names;
mod std_files;
mod std_sink;
mod std_source;
mod traits;
mod whole;

pub use callouts::{Block, Callouts, NoCallouts};
pub use entries::{DirEntry, Kind, Listing};
pub use file_set::FileSet;
pub use mem_files::MemFiles;
pub use mem_sink::MemSink;
pub use mem_source::MemSource;
pub use memory::Memory;
pub use names::{Name, NameList};
pub use std_files::StdFiles;
pub use std_sink::StdSink;
pub use std_source::StdSource;
pub use traits::{Failed, IoError, Sink, Source};
pub use whole::write_all;
