//! What the inputs before leave.
ghost use Rattle.std.specs.Prelude.{◌≡◌};
ghost use Rattle.grep_output.specs.InputText.{first_state};

use byte_lanes::EndKind;
use grep_match::Workspace;
use grep_output::State;
use line_feed::LineFeed;
use std::alloc::Global;
use std::marker::Model;

/// What scans one input after another: the feed of their lines and the workspace of the searches, which keep their room,
/// and what the inputs so far leave.
#[derive(Drop)]
pub struct Scanner {
    pub feed: LineFeed,
    pub work: Workspace,
    pub state: State,
}

/// What one input leaves to the next.
#[derive(Drop)]
pub struct GrepState {
    pub(crate) alloc: Global,
    pub(crate) scanner: Scanner,
}

impl Model for GrepState {
    ghost use Rattle.grep_output.specs.declared.state.State.{State};

    ghost Value = { State };

    ghost view = { λ s. s.scanner.state };
}

impl GrepState {
    /// The state before the first input. Takes no memory.
    pub fn new(alloc: Global) -> GrepState
        ensures { result ≡ first_state }
    {
        GrepState {
            alloc,
            scanner: Scanner {
                feed: LineFeed::new(alloc, EndKind::Lf, 1),
                work: Workspace::new(alloc),
                state: State {
                    errors: 0,
                    total: 0,
                    has_shown: false,
                },
            },
        }
    }

    /// How many match errors there were.
    pub fn errors(&self) -> u32
        ensures { result ≡ self.now.errors }
    {
        self.scanner.state.errors
    }

    /// How many lines were selected.
    pub fn total(&self) -> u128
        ensures { result ≡ self.now.total }
    {
        self.scanner.state.total
    }
}
