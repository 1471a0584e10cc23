//! Replacements that have been read.
ghost use Rattle.std.specs.Prelude.{◌≡◌, IfOk, IfErr, Ok};
ghost use Rattle.std.specs.List.{All};
ghost use Rattle.subst_plan.specs.declared.faults.PlanError.TheVariants as fault;
ghost use Rattle.subst_plan.specs.Plans.{plan_of, literal, IsIn, Refuses};

use crate::faults::PlanError;
use crate::pieces::Piece;
use crate::reading::pieces_of;
use std::alloc::Global;
use std::marker::Model;

/// A replacement that has been read: its text, of which it keeps a copy, and its pieces in order.
#[derive(Debug, Drop)]
pub struct Plan {
    text: Vec<u8>,
    pieces: Vec<Piece>,
}

impl Model for Plan {
    ghost use Rattle.std.specs.List.{All};
    ghost use Rattle.subst_plan.specs.Plans.{Replacement, IsIn};

    ghost Value = { Replacement };

    ghost view = { λ plan. record { text = plan.text.items; pieces = plan.pieces.items } };

    ghost invariant = { λ plan. All (IsIn plan.text.items) plan.pieces.items };
}

impl Plan {
    /// Reads a replacement (pcre2api, "Creating a new string with substitutions"), of any bytes:
    /// with `extended` by the extended syntax, and with `utf` codes above 127 are written in UTF-8 and names have
    /// letters and digits of Unicode.
    /// Refused is the first fault.
    pub fn read(alloc: Global, bytes: &[u8], extended: bool, utf: bool) -> Result<Plan, PlanError>
        ensures plan { IfOk result (λ plan. plan_of extended utf bytes.now ≡ Ok plan) }
        ensures refused { IfErr result (Refuses (plan_of extended utf bytes.now)) }
    {
        let pieces = pieces_of(alloc, bytes, extended, utf)?;
        let text = Vec::from_slice(alloc, bytes)?;
        Ok(Plan { text, pieces })
    }

    /// A replacement whose bytes all stand for themselves (pcre2api, "PCRE2_SUBSTITUTE_LITERAL").
    pub fn literal(alloc: Global, bytes: &[u8]) -> Result<Plan, PlanError>
        ensures plan { IfOk result (λ plan. plan ≡ literal bytes.now) }
        ensures refused { IfErr result (λ e. e ≡ fault.Memory) }
    {
        let whole = Piece::Text {
            from: 0,
            to: bytes.len(),
        };
        let text = Vec::from_slice(alloc, bytes)?;
        let mut pieces = Vec::new(alloc);
        pieces.push(whole)?;
        Ok(Plan { text, pieces })
    }

    /// The replacement's text.
    pub(crate) fn text(&self) -> &[u8]
        ensures { result.now ≡ self.now.text }
    {
        self.text.as_slice()
    }

    /// The replacement's pieces, in order.
    pub(crate) fn pieces(&self) -> &[Piece]
        ensures pieces { result.now ≡ self.now.pieces }
        ensures within { All (IsIn self.now.text) result.now }
    {
        self.pieces.as_slice()
    }
}
