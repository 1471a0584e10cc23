//! Where the reader stands in the text.
ghost use Rattle.std.specs.Prelude.{◌≡◌, ◌<◌, ◌≤◌, pos, length, Ok, Err, IfOk, IfErr, IfSome, IsTrue};
ghost use Rattle.std.specs.Option.{option_map};
ghost use Rattle.token_parts.specs.Tell.{IsWell, Moves, is_own};
ghost use Rattle.pat_lex.specs.Tokens.{token_at};
ghost use Rattle.pat_grammar.specs.State.{State, item, passed_over};
ghost use Rattle.pat_grammar.specs.Parts.{kept_look};
ghost use Rattle.pat_grammar.specs.Places.{Always, moved_to, flags_at};
ghost use Rattle.pat_grammar.specs.Leads.{LookIs, LookFails};

use crate::callouts::Lead;
use pat_lex::{Fault, LexFlags, OpenKind, Token, next_token};
use pat_tree::Options;
use token_parts::MALFORMED_CONDITION;

/// A place in the text, and whether it is between `\Q` and `\E`.
#[derive(Clone, Copy, Debug, PartialEq, Eq)]
pub struct Place {
    /// How many bytes are before it.
    pub at: usize,
    pub quoting: bool,
}

/// A token that isn't passed over, and the places before it and after it.
#[derive(Clone, Copy, Debug)]
pub struct Spot {
    pub token: Token,
    pub here: Place,
    pub after: Place,
}

/// A lookaround that a conditional group tests, the places before and after its parenthesis, and
/// the callout before it.
#[derive(Clone, Copy, Debug)]
pub struct Assertion {
    pub ahead: bool,
    pub positive: bool,
    pub here: Place,
    pub after: Place,
    pub lead: Option<Lead>,
}

/// A place in a text, with what the tokens there depend on.
#[derive(Clone, Copy, Debug)]
pub struct Cursor<'a> {
    pub text: &'a [u8],
    pub place: Place,
    /// The options in force.
    pub options: Options,
    /// How many capturing groups were opened.
    pub groups: u16,
}

impl Place {
    /// Where reading goes on after a token that stands for nothing itself, which ended here: a comment, ignored white
    /// space, `\Q` or `\E`.
    pub(crate) fn passed_over(self, token: Token) -> Option<Place>
        ensures value { (st : State) → passed_over token (moved_to st self)
            ≡ option_map (moved_to st) result }
        ensures stays { IfSome result (λ beyond. beyond.at ≡ self.at) }
    {
        let quoting = match token {
            Token::Passed => self.quoting,
            Token::QuoteOn => true,
            Token::QuoteOff => false,
            _ => return None,
        };
        Some(Place { quoting, ..self })
    }
}

/// What begins a lookaround that keeps its first way: whether it looks ahead, and whether it is positive.
fn kept_look(kind: OpenKind) -> Option<(bool, bool)>
    ensures { result ≡ kept_look kind }
{
    match kind {
        OpenKind::Look {
            ahead,
            positive,
            atomic: true,
        } => Some((ahead, positive)),
        OpenKind::Look { .. }
        | OpenKind::Capture
        | OpenKind::Plain
        | OpenKind::Atomic
        | OpenKind::BranchReset
        | OpenKind::Named { .. } => None,
    }
}

impl<'a> Cursor<'a> {
    /// What the token at a place depends on, in a class or outside.
    fn flags(&self, place: Place, in_class: bool) -> LexFlags
        ensures { result ≡ flags_at self.now in_class place }
    {
        LexFlags {
            utf: self.options.utf,
            extended: self.options.extended,
            extended_more: self.options.extended_more,
            quoting: place.quoting,
            in_class,
            newline: self.options.newline,
            groups: u32::from(self.groups),
        }
    }

    /// The token at a place, in a class or outside, and where the text goes on after it; or the fault of that token
    /// alone. Takes no memory.
    pub fn next(&self, place: Place, in_class: bool) -> Result<(Token, usize), Fault>
        requires { place.at ≤ length self.now.text.now }

        // The token depends on the place, the options in force and the groups that were opened.
        ensures value { result ≡ token_at self.now.text.now
            (flags_at self.now in_class place) place.at }

        // The end is a token exactly at the text's length. Every other token is followed by a later place within the
        // text.
        ensures moves { IfOk result (λ r. Moves self.now.text.now place.at r.0 r.1) }
        ensures well { IfOk result (λ r. IsWell self.now.text.now r.0) }
        ensures number { IfErr result (λ f. IsTrue (is_own f.number)) }
        ensures place { IfErr result (λ f. f.at ≤ length self.now.text.now) }
    {
        next_token(self.text, place.at, self.flags(place, in_class))
    }

    /// The next token that isn't passed over, in a class or outside.
    pub(crate) fn item(&self, place: Place, in_class: bool) -> Result<Spot, Fault>
        requires { place.at ≤ length self.now.text.now }
        ensures found { IfOk result
            (λ i. Always self.now place
            (λ text n state. item text in_class n (state place)
            ≡ Ok (i.token, state i.here, state i.after))) }
        ensures bad { IfErr result
            (λ f. Always self.now place
            (λ text n state. item text in_class n (state place) ≡ Err f)) }
        ensures past { IfOk result (λ i. place.at ≤ i.here.at) }
        ensures onward { IfOk result (λ i. i.here.at ≤ i.after.at) }
        ensures within { IfOk result (λ i. i.after.at ≤ length self.now.text.now) }
        ensures moves { IfOk result (λ i. Moves self.now.text.now i.here.at i.token i.after.at) }
        ensures well { IfOk result (λ i. IsWell self.now.text.now i.token) }
        ensures number { IfErr result (λ f. IsTrue (is_own f.number)) }
        ensures place { IfErr result (λ f. f.at ≤ length self.now.text.now) }
    {
        let mut here = place;
        'passing: loop {
            let (token, at) = self.next(here, in_class)?;
            let after = Place { at, ..here };
            match after.passed_over(token) {
                Some(beyond) => here = beyond,
                None => return Ok(Spot { token, here, after }),
            }
        }
    }

    /// The lookaround that begins here, which a conditional group at the place `at` tests, after
    /// this callout.
    pub(crate) fn look_by(
        &self,
        at: usize,
        lead: Option<Lead>,
        spot: Spot,
    ) -> Result<Assertion, Fault>
        requires moves { Moves self.now.text.now spot.here.at spot.token spot.after.at }
        ensures found { IfOk result (LookIs self.now at lead spot) }
        ensures bad { IfErr result (LookFails self.now at lead spot) }
        ensures number { IfErr result (λ f. f.number ≡ pos 128) }
        ensures place { IfErr result (λ f. f.at ≡ at) }
        ensures onward { IfOk result (λ a. a.here.at < a.after.at) }
        ensures here { IfOk result (λ a. a.here ≡ spot.here) }
        ensures after { IfOk result (λ a. a.after ≡ spot.after) }
        ensures lead { IfOk result (λ a. a.lead ≡ lead) }
    {
        match spot.token {
            Token::Open(kind) => match kept_look(kind) {
                Some((ahead, positive)) => Ok(Assertion {
                    ahead,
                    positive,
                    here: spot.here,
                    after: spot.after,
                    lead,
                }),
                None => Err(Fault {
                    number: MALFORMED_CONDITION,
                    at,
                }),
            },
            _ => Err(Fault {
                number: MALFORMED_CONDITION,
                at,
            }),
        }
    }
}
