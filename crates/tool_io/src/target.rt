//! What a word stands for.
use pcre_io::Name;

/// What a word stands for, or one of the things that it stands for.
#[derive(Debug, Drop)]
pub enum Target {
    /// Standard input.
    Input,
    /// A file that is to be searched.
    File(Name),
    /// A name of a word that is neither a file's nor a directory's, or can't be asked.
    NoOpen(Name),
    /// A directory that can't be listed.
    NoList(Name),
    /// A directory more than 64 levels below a word's, which isn't listed.
    TooDeep(Name),
    /// A directory with an entry whose name isn't text.
    Unnamed(Name),
}
