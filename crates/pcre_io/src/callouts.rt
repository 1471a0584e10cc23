//! What a search calls at callouts.
ghost use Rattle.std.specs.Prelude.{◌≡◌, ℤ, Bool, true, List, Option, IfOk, OnOk, OnErr};
ghost use Rattle.pcre_io.specs.declared.callouts.Block.{Block};
ghost use Rattle.pcre_io.specs.Called.{SeenGrows};

use crate::memory::Memory;

/// What a callout is shown (pcre2callout, "The callout interface"). Places are in bytes.
#[derive(Clone, Copy, Debug, PartialEq, Eq)]
pub struct Block {
    /// The callout's number.
    pub number: u8,
    /// Where the callout's string begins and ends in the pattern, without its delimiters. Both are 0 where it has none.
    pub text_from: u32,
    pub text_to: u32,
    /// The place of the next item in the pattern, and its length.
    pub pattern_at: u32,
    pub item_len: u32,
    /// Where the match starts, and the present place.
    pub start: u64,
    pub current: u64,
    /// The number of the last name on the path.
    pub mark: Option<u32>,
}

/// What a search calls at callouts.
pub trait Callouts {
    /// What it answers to a block. No call changes it.
    ghost answers: { Self → Block → ℤ };

    /// The blocks that it was shown, in order, where it tells them.
    ghost seen: { Self → Option (List Block) };

    /// Whether want of memory may refuse a call.
    ghost refuses: { Bool };

    /// Shows a block. The search goes on after 0, fails here after a positive answer, and ends with a negative one
    /// (pcre2callout, "Return value from callouts"). Want of memory alone refuses it.
    fn call(&mut self, block: &Block) -> Result<i32, Memory>
        ensures answer { IfOk result (λ n. n ≡ answers self.old block.now) }
        ensures rule { (other : Block) → answers self.new other ≡ answers self.old other }
        ensures seen { OnOk result (SeenGrows (seen self.old) (seen self.new) block.now) }
        ensures refused { OnErr result (seen self.new ≡ seen self.old) }
        ensures memory { OnErr result (refuses ≡ true) };
}

/// Callouts that are passed over: each is answered by 0, and none is kept.
#[derive(Clone, Copy, Debug, PartialEq, Eq)]
pub struct NoCallouts;

impl Callouts for NoCallouts {
    ghost use Rattle.std.specs.Prelude.{false, pos, None};

    ghost answers = { λ _ _. pos 0 };

    ghost seen = { λ _. None };

    ghost refuses = { false };

    fn call(&mut self, _block: &Block) -> Result<i32, Memory> {
        Ok(0)
    }
}
