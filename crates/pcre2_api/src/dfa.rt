//! A match by all ends at one place.
ghost use Rattle.std.specs.Prelude.{◌≡◌, ◌<◌, None, Err, IfOk, IfErr, length};
ghost use Rattle.pat_tree.specs.Parts.{tree_of};
ghost use Rattle.pat_check.specs.Size.{size};
ghost use Rattle.match_drive.specs.match_starts.Asked.{passed_over};
ghost use Rattle.dfa_drive.specs.Agreement.{AgreeFrom};
ghost use Rattle.pcre2_api.specs.Matched.{search_of};
ghost use Rattle.pcre2_api.specs.Starts.{start_fault};
ghost use Rattle.pcre2_api.specs.DfaMatched.{start_error_of, IsDfaFound, IsDfaError};

use crate::code::Code;
use dfa_drive::{DfaAnswer, EndList, Graph, Lists, dfa_search};
use match_items::View;
use pat_tree::{MatchOptions, Steps};
use pcre2_errors::{DfaError, MatchError};
use std::alloc::Global;
use std::sync::ledger::Ledger;

/// Where a match begins, and its ends, the longest first; under DFA_SHORTEST the shortest alone.
/// Places are in bytes from 0.
#[derive(Debug, Drop)]
pub struct DfaFound {
    pub start: usize,
    pub ends: EndList,
}

/// Why a match can't begin at a start, told as a match by all ends tells it.
fn start_error(e: MatchError) -> DfaError
    ensures { result ≡ start_error_of e }
{
    match e {
        MatchError::BadUtf { at } => DfaError::BadUtf { at },
        MatchError::BadUtfOffset => DfaError::BadUtfOffset,
        _ => DfaError::BadOffset,
    }
}

impl Code {
    /// Looks for all ends of a match from a start on: at the first place with an end that the options
    /// admit, whatever the greed (pcre2_dfa_match). Under hard partial matching a place is a partial
    /// match before its ends count, where a test on the way from it reaches the subject's end; under
    /// soft partial matching, where it has no end (pcre2partial). A start where no match can begin is
    /// refused first, as [`Code::match_at`] refuses it; then what isn't supported, the leftmost item
    /// deciding. Captures are ignored. Without partial matching, for a pattern without verbs but FAIL,
    /// calls, callouts and atomic groups, the ends are where the other matcher could end at that place,
    /// if its search there ends by itself. It is TooLarge by the number of its nodes alone. Needs a subject of fewer
    /// than 4,294,967,295 bytes.
    pub fn dfa_match<L: Ledger>(
        &self,
        alloc: Global,
        subject: &[u8],
        start: usize,
        options: &MatchOptions,
        lists: &mut Lists,
        steps: &mut Steps<L>,
    ) -> Result<DfaFound, DfaError>
        requires short { length subject.now < 4294967295 }
        ensures found { IfOk result (IsDfaFound
            (search_of self.now options.now subject.now start passed_over)) }
        ensures refused { IfErr result (IsDfaError
            (search_of self.now options.now subject.now start passed_over)) }
        ensures agrees { IfOk result (λ f. AgreeFrom
            (search_of self.now options.now subject.now start passed_over) f.start f.ends) }
        ensures large { result ≡ Err DfaError.TooLarge → 65536 < size (tree_of self.now.tree) }
    {
        match self.test_start(subject, start) {
            Ok(()) => self.ends_from(alloc, subject, start, options, lists, steps),
            Err(e) => Err(start_error(e)),
        }
    }

    /// All ends from a start at which a search can begin.
    fn ends_from<L: Ledger>(
        &self,
        alloc: Global,
        subject: &[u8],
        start: usize,
        options: &MatchOptions,
        lists: &mut Lists,
        steps: &mut Steps<L>,
    ) -> Result<DfaFound, DfaError>
        requires begun { start_fault self.now.tree.options.utf subject.now start ≡ None }
        requires short { length subject.now < 4294967295 }
        ensures found { IfOk result (IsDfaFound
            (search_of self.now options.now subject.now start passed_over)) }
        ensures refused { IfErr result (IsDfaError
            (search_of self.now options.now subject.now start passed_over)) }
        ensures agrees { IfOk result (λ f. AgreeFrom
            (search_of self.now options.now subject.now start passed_over) f.start f.ends) }
        ensures large { result ≡ Err DfaError.TooLarge → 65536 < size (tree_of self.now.tree) }
    {
        let ready = self.ready();
        let graph = Graph::build(alloc, ready.tree, ready.facts)?;
        let compiled = ready.tree.options();
        let view = View {
            subject,
            start,
            options: compiled,
            matching: options,
        };
        let answer = dfa_search(alloc, &ready, &graph, &view, lists, steps)?;
        match answer {
            DfaAnswer::Ends { start, ends } => Ok(DfaFound { start, ends }),
            DfaAnswer::NoMatch => Err(DfaError::NoMatch),
            DfaAnswer::Partial { start } => Err(DfaError::Partial {
                start,
                end: subject.len(),
            }),
        }
    }
}
