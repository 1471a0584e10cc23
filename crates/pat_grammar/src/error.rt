//! Why a pattern is refused.
use pat_lex::Fault;
use pat_tree::Memory;

/// Why a pattern is refused.
#[derive(Clone, Copy, Debug, PartialEq, Eq)]
pub enum ReadError {
    /// The number of the fault, and its place in the pattern.
    Bad { number: i32, at: usize },
    /// Want of memory.
    Memory,
}

impl From<Memory> for ReadError {
    ghost use Rattle.std.specs.Prelude.{◌≡◌};
    ghost use Rattle.pat_grammar.specs.declared.error.ReadError.TheVariants.{Memory};

    ghost from_gives = { λ _ e. e ≡ Memory };

    fn from(_e: Memory) -> ReadError {
        ReadError::Memory
    }
}

impl From<Fault> for ReadError {
    ghost use Rattle.std.specs.Prelude.{◌≡◌};
    ghost use Rattle.pat_grammar.specs.declared.error.ReadError.TheVariants.{Bad};

    ghost from_gives = { λ fault e. e ≡ Bad fault.number fault.at };

    fn from(fault: Fault) -> ReadError {
        ReadError::Bad {
            number: fault.number,
            at: fault.at,
        }
    }
}
