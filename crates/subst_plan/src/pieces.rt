//! What a replacement is made of.

/// Which group a piece is of. Places are bytes from the replacement's begin.
#[derive(Clone, Copy, Debug, PartialEq, Eq)]
pub enum Key {
    /// The group of this number.
    Number(u16),
    /// The groups of the name between these places.
    Name { from: usize, to: usize },
    /// No group: a number past 65,535.
    NoGroup,
}

/// A case of letters.
#[derive(Clone, Copy, Debug, PartialEq, Eq)]
pub enum Case {
    Upper,
    Lower,
}

/// Which letters are forced into a case.
#[derive(Clone, Copy, Debug, PartialEq, Eq)]
pub enum Forcing {
    /// None.
    Off,
    /// All that follow.
    All(Case),
    /// The next character, if it is one.
    Next(Case),
}

/// A text inside `${x:..}` that is open.
#[derive(Clone, Copy, Debug, PartialEq, Eq)]
pub enum Inner {
    /// The first of two: `:` or `}` ends it.
    First,
    /// The last: `}` ends it.
    Last,
}

/// A piece of a replacement. The pieces of an inner text stand between the piece that opens it and
/// its `Close`.
#[derive(Clone, Copy, Debug, PartialEq, Eq)]
pub enum Piece {
    /// The bytes of the replacement between two places.
    Text { from: usize, to: usize },
    /// A byte by its code.
    Byte(u8),
    /// A character by its code, in UTF-8.
    Char(char),
    /// `$x`: the text of a group.
    Group(Key),
    /// `$*MARK`: the match's mark.
    Mark,
    /// `\U`, `\L`, `\E`, `\u`, `\l`: the case of what follows.
    Force(Forcing),
    /// `${x:-`: the text of the group where it is set, else the inner text that follows.
    Default(Key),
    /// `${x:+`: the first inner text where the group is set, else the second.
    Choice(Key),
    /// The `:` between two inner texts.
    Else,
    /// The `}` after an inner text.
    Close,
}
