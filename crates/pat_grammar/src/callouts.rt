//! Callouts, and the items before which they stand (pcre2pattern, "Callouts"; pcre2callout).
ghost use Rattle.std.specs.Prelude.{◌≡◌, ◌≤◌, ◌+◌, ◌<◌, length, IfErr, IfOk, IfSome, Some};
ghost use Rattle.std.specs.Option.{option_map};
ghost use Rattle.pat_grammar.specs.State.{State};
ghost use Rattle.pat_grammar.specs.Places.{state_at, IsListed, IsInText};
ghost use Rattle.pat_grammar.specs.Callouts.{set_over, is_item, item_end, next_item, quantified_end};
ghost use Rattle.pat_grammar.specs.Parts.{automatic_lead, fault_of_look, fault_of_test};
ghost use Rattle.pat_grammar.specs.Leads.{IsWithin, LeadIs, Finds, Fails, written, called_look, assertion_from};

use crate::brackets::read_class;
use crate::cursor::{Assertion, Cursor, Place};
use crate::error::ReadError;
use crate::options::with_setting;
use pat_lex::{Fault, Token};
use pat_tree::Memory;
use std::alloc::Global;
use token_parts::{LEFT_OUT, MALFORMED_CONDITION};

/// A comment isn't closed: a fault of its token, as is the next.
const UNCLOSED_COMMENT: i32 = 118;

const CALLOUT_NUMBER_TOO_BIG: i32 = 138;

/// The number of an automatic callout.
pub const AUTOMATIC: u8 = 255;

/// Where an item stands, and how long it is with its quantifier.
#[derive(Clone, Copy, Debug)]
pub struct NextItem {
    pub at: usize,
    pub len: usize,
}

/// A callout, and the places of its string.
#[derive(Clone, Copy, Debug)]
pub struct Called {
    pub number: u8,
    pub text_from: u32,
    pub text_to: u32,
}

/// Whether an automatic callout may stand before a token: it begins an item, which is no callout, or ends an
/// alternative.
pub fn is_item(token: Token) -> bool
    ensures { result ≡ is_item token }
{
    !matches!(
        token,
        Token::Passed
            | Token::QuoteOn
            | Token::QuoteOff
            | Token::OptionSet { opens: false, .. }
            | Token::CalloutItem { .. }
            | Token::Quantifier { .. }
    )
}

/// A callout before the lookaround that a conditional group tests, and what follows it.
#[derive(Clone, Copy, Debug)]
pub struct Lead {
    pub called: Called,
    pub item: NextItem,
}

/// What is told at a conditional group's place, for the fault of a token where its lookaround has to
/// be: that of a comment, and no other.
fn fault_of_look(at: usize, fault: Fault) -> Fault
    ensures { result ≡ fault_of_look at fault }
{
    if fault.number == UNCLOSED_COMMENT {
        return fault;
    }
    Fault {
        number: MALFORMED_CONDITION,
        at,
    }
}

/// The same where a callout may stand, of whose number it is told too.
fn fault_of_test(at: usize, fault: Fault) -> Fault
    ensures { result ≡ fault_of_test at fault }
{
    if fault.number == CALLOUT_NUMBER_TOO_BIG {
        return fault;
    }
    fault_of_look(at, fault)
}

impl<'a> Cursor<'a> {
    /// The same between `\Q` and `\E`, or outside.
    fn quoted(&self, place: Place, quoting: bool) -> Cursor<'a>
        ensures { result ≡ record self.now { place = record place { quoting = quoting } } }
    {
        Cursor {
            place: Place { quoting, ..place },
            ..*self
        }
    }

    /// Where reading goes on after what is no item: what is passed over, and an option setting.
    fn set_over(&self, token: Token, after: Place) -> Option<Cursor<'a>>
        ensures value { (st : State) → set_over token (state_at self.now st after)
            ≡ option_map (λ c. state_at c st c.place) result }
        ensures text { IfSome result (λ c. c.text.now ≡ self.now.text.now) }
        ensures stays { IfSome result (λ c. c.place.at ≡ after.at) }
    {
        match token {
            Token::OptionSet {
                reset,
                on,
                off,
                opens,
            } => {
                if opens {
                    return None;
                }
                Some(Cursor {
                    place: after,
                    options: with_setting(reset, on, off, self.options),
                    ..*self
                })
            }
            Token::Passed => Some(Cursor {
                place: after,
                ..*self
            }),
            Token::QuoteOn => Some(self.quoted(after, true)),
            Token::QuoteOff => Some(self.quoted(after, false)),
            _ => None,
        }
    }

    /// Where an item that ends at a place, but for its quantifier, ends with it.
    fn quantified_end(&self, place: Place) -> usize
        requires { place.at ≤ length self.now.text.now }
        ensures value { (st : State) → quantified_end self.now.text.now
            (state_at self.now st place) ≡ result }
        ensures past { place.at ≤ result }
        ensures within { result ≤ length self.now.text.now }
    {
        let Ok(item) = self.item(place, false) else {
            return place.at;
        };
        match item.token {
            Token::Quantifier { .. } => item.after.at,
            _ => place.at,
        }
    }

    /// Where an item ends that begins with a token, after which the text goes on at a place.
    fn item_end(&self, alloc: Global, token: Token, after: Place) -> Result<usize, Memory>
        requires { after.at ≤ length self.now.text.now }
        ensures value { IfOk result
            (λ end. (st : State) → item_end self.now.text.now token
            (state_at self.now st after) ≡ end) }
        ensures past { IfOk result (λ end. after.at ≤ end) }
        ensures within { IfOk result (λ end. end ≤ length self.now.text.now) }
    {
        let Token::ClassStart { negated } = token else {
            return Ok(self.quantified_end(after));
        };
        let cursor = Cursor {
            place: after,
            ..*self
        };
        match read_class(alloc, &cursor, negated) {
            Ok((_spec, end)) => Ok(self.quantified_end(end)),
            Err(ReadError::Bad { .. }) => Ok(self.quantified_end(after)),
            Err(ReadError::Memory) => Err(Memory),
        }
    }

    /// The next item from the cursor's place on.
    pub fn next_item(&self, alloc: Global) -> Result<NextItem, Memory>
        requires { self.now.place.at ≤ length self.now.text.now }
        ensures value { IfOk result
            (λ item. (st : State) → next_item self.now.text.now
            (state_at self.now st self.now.place) ≡ (item.at, item.len)) }
        ensures within { IfOk result (λ item. item.at + item.len ≤ length self.now.text.now) }
    {
        let mut cursor = *self;
        'items: loop {
            let here = cursor.place;
            let Ok((token, at)) = cursor.next(here, false) else {
                return Ok(NextItem {
                    at: here.at,
                    len: 0,
                });
            };
            let after = Place { at, ..here };
            let Some(beyond) = cursor.set_over(token, after) else {
                let end = cursor.item_end(alloc, token, after)?;
                return Ok(NextItem {
                    at: here.at,
                    len: end - here.at,
                });
            };
            cursor = beyond;
        }
    }

    /// The automatic callout before a lookaround that is tested, and that stands at a place.
    fn automatic_lead(
        &self,
        alloc: Global,
        calling: bool,
        here: Place,
    ) -> Result<Option<Lead>, Memory>
        requires { here.at ≤ length self.now.text.now }
        ensures value { IfOk result (LeadIs self.now here (automatic_lead calling)) }
        ensures within { IfOk result (λ lead. IfSome lead (IsWithin (length self.now.text.now))) }
    {
        if calling && self.options.auto_callout {
            let cursor = Cursor {
                place: here,
                ..*self
            };
            let item = cursor.next_item(alloc)?;
            let called = Called {
                number: AUTOMATIC,
                text_from: 0,
                text_to: 0,
            };
            return Ok(Some(Lead { called, item }));
        }
        Ok(None)
    }

    /// The callout before a lookaround that is tested, which is written and ends at a place.
    fn written_lead(&self, alloc: Global, called: Called, after: Place) -> Result<Lead, Memory>
        requires { after.at ≤ length self.now.text.now }
        ensures value { IfOk result (λ lead. LeadIs self.now after (written called) (Some lead)) }
        ensures within { IfOk result (IsWithin (length self.now.text.now)) }
    {
        let cursor = Cursor {
            place: after,
            ..*self
        };
        let item = cursor.next_item(alloc)?;
        Ok(Lead { called, item })
    }

    /// The lookaround that a conditional group at the place `at` tests, after a callout that is
    /// written and ends at the place `after`.
    fn called_look(
        &self,
        alloc: Global,
        at: usize,
        called: Called,
        after: Place,
    ) -> Result<Assertion, ReadError>
        requires { after.at ≤ length self.now.text.now }
        ensures found { IfOk result (Finds self.now after (called_look at called)) }
        ensures bad { IfErr result (Fails self.now after (called_look at called)) }
        ensures number { IfErr result IsListed }
        ensures place { at ≤ length self.now.text.now
            → IfErr result (IsInText self.now.text.now) }
        ensures past { IfOk result (λ a. after.at ≤ a.here.at) }
        ensures onward { IfOk result (λ a. a.here.at < a.after.at) }
        ensures within { IfOk result (λ a. a.after.at ≤ length self.now.text.now) }
        ensures small { IfOk result (λ a. IfSome a.lead (IsWithin (length self.now.text.now))) }
    {
        let lead = self.written_lead(alloc, called, after)?;
        let spot = match self.item(after, false) {
            Ok(spot) => spot,
            Err(fault) => return Err(ReadError::from(fault_of_look(at, fault))),
        };
        let look = self.look_by(at, Some(lead), spot)?;
        Ok(look)
    }

    /// The lookaround that a conditional group at the place `at` tests, with the callout before it.
    /// Comments may stand before both.
    pub fn assertion(&self, alloc: Global, at: usize, calling: bool) -> Result<Assertion, ReadError>
        requires { self.now.place.at ≤ length self.now.text.now }
        ensures found { IfOk result (Finds self.now self.now.place (assertion_from calling at)) }
        ensures bad { IfErr result (Fails self.now self.now.place (assertion_from calling at)) }
        ensures number { IfErr result IsListed }
        ensures place { at ≤ length self.now.text.now
            → IfErr result (IsInText self.now.text.now) }
        ensures past { IfOk result (λ a. self.now.place.at ≤ a.here.at) }
        ensures onward { IfOk result (λ a. a.here.at < a.after.at) }
        ensures within { IfOk result (λ a. a.after.at ≤ length self.now.text.now) }
        ensures small { IfOk result (λ a. IfSome a.lead (IsWithin (length self.now.text.now))) }
    {
        let spot = match self.item(self.place, false) {
            Ok(spot) => spot,
            Err(fault) => return Err(ReadError::from(fault_of_test(at, fault))),
        };
        if let Token::CalloutItem {
            number,
            text_from,
            text_to,
        } = spot.token
        {
            if !calling {
                return Err(ReadError::Bad {
                    number: LEFT_OUT,
                    at: spot.here.at,
                });
            }
            let called = Called {
                number,
                text_from,
                text_to,
            };
            return self.called_look(alloc, at, called, spot.after);
        }
        let lead = self.automatic_lead(alloc, calling, spot.here)?;
        let look = self.look_by(at, lead, spot)?;
        Ok(look)
    }
}
