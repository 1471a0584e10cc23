use pat_tree::{AnchorKind, Item};

/// What a search does at a site, and the sites where it goes on.
#[derive(Clone, Copy, Debug, PartialEq, Eq)]
pub enum Op {
    /// The end of the pattern.
    End,
    /// Nothing.
    Skip(u32),
    /// It asks whether a failure is known here.
    Ask(u32),
    /// It takes a character.
    Take(Item, u32),
    /// A simple assertion.
    Test(AnchorKind, u32),
    /// It holds one unit more.
    Hold(u32),
    /// It counts a Step.
    Step(u32),
    /// It counts a Step and holds one unit more.
    Turn(u32),
    /// It counts a Step, and tries the first site with one unit more, then the second.
    Branch(u32, u32),
    /// It tries the first site with one unit more, then the second.
    Leave(u32, u32),
    /// It repeats an item, as often as it can, and goes on behind each place from the last to the
    /// first: where no character was taken, and where one was.
    Many {
        item: Item,
        low: u32,
        high: Option<u32>,
        next: u32,
        moved: u32,
    },
    /// What is not followed.
    Other,
}
