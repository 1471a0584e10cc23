//! Sets of files.
ghost use Rattle.std.specs.Prelude.{◌≡◌, IfOk, IsErrOf, None, Some};
ghost use Rattle.pcre_io.specs.Causes.{HasCause};
ghost use Rattle.pcre_io.specs.Files.{Filed, Opens, IsMissing, HasKind, HasEntries};

use crate::entries::{Kind, Listing};
use crate::traits::{IoError, Source};
use std::alloc::Global;

/// Files by their names.
pub trait FileSet {
    /// What an opened file is read by. It can be let go of before its end.
    type Src: Source + Drop;

    /// What it holds, where it tells it, and how many faults it has counted.
    ghost tells: { Self → Filed };

    /// Opens a file. `Failed` is answered where there is no such file or it is refused, and a fault was counted.
    fn open_file(&mut self, alloc: Global, name: &str) -> Result<Self::Src, IoError>
        ensures opened { IfOk result
            (λ s. Opens (tells self.old).contents name.now (Self.Src.tells s)) }
        ensures missing { IsErrOf result IoError.Failed
            → IsMissing (tells self.old).contents name.now }
        ensures same { (tells self.new).contents ≡ (tells self.old).contents }
        ensures cause { HasCause (tells self.old).faults (tells self.new).faults result };

    /// The kind of what a name stands for. `Failed` is answered where that is neither a file nor a directory, or is
    /// refused, and a fault was counted.
    fn kind(&mut self, alloc: Global, name: &str) -> Result<Kind, IoError>
        ensures found { IfOk result
            (λ kind. HasKind (tells self.old).contents name.now (Some kind)) }
        ensures missing { IsErrOf result IoError.Failed
            → HasKind (tells self.old).contents name.now None }
        ensures same { (tells self.new).contents ≡ (tells self.old).contents }
        ensures cause { HasCause (tells self.old).faults (tells self.new).faults result };

    /// The entries of a directory. `Failed` is answered where the name is no directory's or is refused, and a fault was
    /// counted.
    fn list(&mut self, alloc: Global, name: &str) -> Result<Listing, IoError>
        ensures found { IfOk result
            (λ entries. HasEntries (tells self.old).contents name.now (Some entries)) }
        ensures missing { IsErrOf result IoError.Failed
            → HasEntries (tells self.old).contents name.now None }
        ensures same { (tells self.new).contents ≡ (tells self.old).contents }
        ensures cause { HasCause (tells self.old).faults (tells self.new).faults result };
}
