//! What the reader holds.
ghost use Rattle.std.specs.Prelude.{◌≡◌};
ghost use Rattle.pat_grammar.specs.declared.alternatives.Numbering.TheVariants.{Onward};

use pat_grammar::alternatives::{Bars, Numbering};
use pat_grammar::cursor::{Cursor, Place};
use pat_grammar::error::ReadError;
use pat_nodes::frames::{Atom, Frame, Inside, Level};
use pat_tree::{Draft, NameEntry, Options};
use std::alloc::Global;

/// A reading in progress.
#[derive(Drop)]
pub(crate) struct Machine<'a> {
    pub alloc: Global,
    pub text: &'a [u8],
    /// The names of the whole pattern, or none while they are looked for. The draft has those that
    /// were given so far.
    pub known: &'a [NameEntry],
    pub draft: Draft,
    pub stack: Vec<Frame>,
    pub level: Level,
    pub waiting: Option<Atom>,
    /// Where the reading began, after the start items: what it stands for is told from there.
    pub start: usize,
    pub at: usize,
    /// The place is between `\Q` and `\E`.
    pub quoting: bool,
    /// The options in force.
    pub options: Options,
    /// The number of the last capturing group that was opened, which goes back in a branch reset.
    pub groups: u16,
    /// The place is inside a lookaround.
    pub looking: bool,
    /// Which alternatives the innermost group may still have.
    pub bars: Bars,
    /// How the alternatives of the innermost group number the groups in them.
    pub numbering: Numbering,
    /// The first test of a call whose number no group can have.
    pub beyond: Option<usize>,
    /// Callouts are read.
    pub calling: bool,
    /// The place of the last item before which a callout stands.
    pub called: Option<usize>,
}

impl<'a> Machine<'a> {
    /// Where the reader stands, at another place of the text.
    pub(crate) fn cursor(&self, at: usize) -> Cursor<'a>
        ensures text { result.text.now ≡ self.now.text.now }
        ensures place { result.place ≡ record { at = at; quoting = self.now.quoting } }
        ensures options { result.options ≡ self.now.options }
        ensures groups { result.groups ≡ self.now.groups }
    {
        Cursor {
            text: self.text,
            place: Place {
                at,
                quoting: self.quoting,
            },
            options: self.options,
            groups: self.groups,
        }
    }

    /// What holds where a group begins, unless it changes something.
    pub(crate) fn inside(&self, at: usize) -> Inside
        ensures { result
            ≡ record {
              options = self.now.options;
              groups = self.now.groups;
              numbering = Onward;
              beyond = self.now.beyond;
              at = at;
            } }
    {
        Inside {
            options: self.options,
            groups: self.groups,
            numbering: Numbering::Onward,
            beyond: self.beyond,
            at,
        }
    }

    /// A fault at the place.
    pub(crate) fn fault(&self, number: i32) -> ReadError
        ensures { result ≡ ReadError.Bad number self.now.at }
    {
        ReadError::Bad {
            number,
            at: self.at,
        }
    }
}
