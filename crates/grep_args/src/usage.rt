//! Faults in the words.
ghost use Rattle.std.specs.Prelude.{◌≡◌};
ghost use Rattle.grep_args.specs.Stopping.{stopped_at};
ghost use Rattle.grep_args.specs.declared.usage.ArgError.TheVariants as answer;
ghost use Rattle.grep_args.specs.declared.usage.Stop.TheVariants as stop;

use std::alloc::AllocError;

/// What is at fault in a word (pcre2grep, "OPTIONS" and "OPTIONS WITH DATA").
#[derive(Clone, Copy, Debug, PartialEq, Eq)]
pub enum UsageKind {
    /// There is no such letter or name, or a name that takes no value is followed by `=`.
    UnknownOption,
    /// The option takes a value, and no word is left.
    MissingValue,
    /// The value isn't a number.
    BadNumber,
    /// The number is outside the option's range, or the word isn't one of the option's list.
    BadValue,
    /// More than one of `-o`, `--line-offsets` and `--file-offsets` is given.
    Exclude,
    /// No pattern is given.
    NoPattern,
}

/// Why there is no plan.
#[derive(Clone, Copy, Debug, PartialEq, Eq)]
pub enum ArgError {
    /// A word is at fault. It is counted from 0; for `NoPattern` it is the number of words.
    Usage { kind: UsageKind, word: usize },
    /// Want of memory.
    Memory,
}

/// Why an option couldn't do what it does.
#[derive(Clone, Copy, Debug, PartialEq, Eq)]
pub enum Stop {
    Usage(UsageKind),
    Memory,
}

impl UsageKind {
    /// The fault of this kind in a word.
    pub(crate) fn at(self, word: usize) -> ArgError
        ensures { result ≡ ArgError.Usage self word }
    {
        ArgError::Usage { kind: self, word }
    }
}

impl Stop {
    /// The same with the word that is at fault.
    pub(crate) fn at(self, word: usize) -> ArgError
        ensures { result ≡ stopped_at self word }
    {
        match self {
            Stop::Usage(kind) => kind.at(word),
            Stop::Memory => ArgError::Memory,
        }
    }
}

impl From<UsageKind> for Stop {
    ghost from_gives = { λ kind stopped. stopped ≡ stop.Usage kind };

    fn from(kind: UsageKind) -> Stop {
        Stop::Usage(kind)
    }
}

impl From<AllocError> for Stop {
    ghost from_gives = { λ _ stopped. stopped ≡ stop.Memory };

    fn from(_e: AllocError) -> Stop {
        Stop::Memory
    }
}

impl From<pat_tree::Memory> for Stop {
    ghost from_gives = { λ _ stopped. stopped ≡ stop.Memory };

    fn from(_e: pat_tree::Memory) -> Stop {
        Stop::Memory
    }
}

impl From<pcre_io::Memory> for Stop {
    ghost from_gives = { λ _ stopped. stopped ≡ stop.Memory };

    fn from(_e: pcre_io::Memory) -> Stop {
        Stop::Memory
    }
}

impl From<AllocError> for ArgError {
    ghost from_gives = { λ _ error. error ≡ answer.Memory };

    fn from(_e: AllocError) -> ArgError {
        ArgError::Memory
    }
}

impl From<pat_tree::Memory> for ArgError {
    ghost from_gives = { λ _ error. error ≡ answer.Memory };

    fn from(_e: pat_tree::Memory) -> ArgError {
        ArgError::Memory
    }
}
