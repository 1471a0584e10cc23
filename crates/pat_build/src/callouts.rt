//! Callouts, as the reader takes them (pcre2pattern, "Callouts"; pcre2callout).
ghost use Rattle.std.specs.Prelude.{◌≡◌, ◌≤◌, ◌+◌, ℕ, length, IfErr, IfOk, OnOk, None, Ok, false, true};
ghost use Rattle.token_parts.specs.declared.token.Token.{Token};
ghost use Rattle.token_parts.specs.declared.token.Token.TheVariants.{CalloutItem};
ghost use Rattle.pat_lex.specs.Tokens.{token_at};
ghost use Rattle.pat_grammar.specs.State.{flags_of};
ghost use Rattle.pat_grammar.specs.Callouts.{is_due, is_called, next_item};
ghost use Rattle.pat_grammar.specs.Parts.{with_callout};
ghost use Rattle.pat_build.specs.Stack.{IsPlain};
ghost use Rattle.pat_build.specs.Machine.{Means, Ready, Begins, Took, Same, HasRoom, IsNext, IsQuiet, state_of};
ghost use Rattle.pat_build.specs.Machine.{whole_of};
ghost use Rattle.pat_grammar.specs.Places.{Refuses, IsListed, IsInText};

use crate::machine::Machine;
use pat_grammar::callouts::{AUTOMATIC, Called, NextItem, is_item};
use pat_grammar::error::ReadError;
use pat_lex::Token;
use pat_tree::{Memory, Node};
use token_parts::LEFT_OUT;

/// Whether a callout stands before this place.
fn is_called(called: Option<usize>, at: usize) -> bool
    ensures { result ≡ is_called called at }
{
    match called {
        Some(place) => place == at,
        None => false,
    }
}

impl<'a> Machine<'a> {
    /// The next item from a place on.
    fn item_after(&self, at: usize) -> Result<NextItem, Memory>
        requires { at ≤ length self.now.text.now }
        ensures value { IfOk result
            (λ item. next_item self.now.text.now (record (state_of self.now) { at = at })
            ≡ (item.at, item.len)) }
        ensures within { IfOk result (λ item. item.at + item.len ≤ length self.now.text.now) }
    {
        let cursor = self.cursor(at);
        let item = cursor.next_item(self.alloc)?;
        Ok(item)
    }

    /// A callout before an item.
    fn begin_callout(&mut self, called: Called, item: NextItem, after: usize) -> Result<(), Memory>
        requires ready { Ready (CalloutItem called.number called.text_from called.text_to) after
            self.old
            × Begins self.old (CalloutItem called.number called.text_from called.text_to) after
            (Ok (with_callout called.number called.text_from called.text_to (item.at, item.len)
            (record (state_of self.old) { at = after }))) }
        requires small { item.at + item.len ≤ length self.old.text.now }
        ensures { OnOk result (Took self.old self.new) }
    {
        let at = self.at as u32;
        let node = Node::Callout {
            number: called.number,
            text_from: called.text_from,
            text_to: called.text_to,
            item_at: item.at as u32,
            item_len: item.len as u32,
        };
        let id = self.draft.add(node, at)?;
        self.level.parts.push(id)?;
        self.called = Some(item.at);
        self.at = after;
        Ok(())
    }

    /// A callout that is written, which is refused where callouts aren't read.
    pub(crate) fn callout(
        &mut self,
        number: u8,
        text_from: u32,
        text_to: u32,
        after: usize,
    ) -> Result<(), ReadError>
        requires { Ready (CalloutItem number text_from text_to) after self.old }
        ensures ok { OnOk result (Took self.old self.new) }
        ensures bad { IfErr result (Refuses (whole_of self.old)) }
        ensures number { IfErr result IsListed }
        ensures place { IfErr result (IsInText self.old.text.now) }
    {
        if self.calling {
            let called = Called {
                number,
                text_from,
                text_to,
            };
            let item = self.item_after(after)?;
            self.begin_callout(called, item, after)?;
            return Ok(());
        }
        Err(self.fault(LEFT_OUT))
    }

    /// Whether AUTO_CALLOUT has a callout before a token at the place.
    fn is_due(&self, token: Token) -> bool
        ensures { result ≡ is_due self.now.calling (state_of self.now) token }
    {
        if !is_item(token) || is_called(self.called, self.at) {
            return false;
        }
        self.calling && self.options.auto_callout
    }

    /// Adds the automatic callout that is due at the place.
    fn add_automatic(&mut self) -> Result<(), Memory>
        requires means { Means self.old }
        requires room { HasRoom 1 self.old }
        requires idle { self.old.waiting ≡ None }
        requires due { (token : Token) × (after : ℕ)
            × (token_at self.old.text.now (flags_of false (state_of self.old)) self.old.at
            ≡ Ok (token, after)) × (is_due self.old.calling (state_of self.old) token ≡ true) }
        ensures means { OnOk result (Means self.new) }
        ensures room { OnOk result (HasRoom 2 self.new) }
        ensures idle { OnOk result (self.new.waiting ≡ None) }
        ensures quiet { OnOk result (IsQuiet self.new) }
        ensures same { OnOk result (Same self.old self.new) }
        ensures next { OnOk result ((token : Token) (after : ℕ) → IsNext token after self.old
            → IsNext token after self.new) }
        ensures there { OnOk result
            (token_at self.new.text.now (flags_of false (state_of self.new)) self.new.at
            ≡ token_at self.old.text.now (flags_of false (state_of self.old)) self.old.at) }
        ensures at { OnOk result (self.new.at ≡ self.old.at) }
    {
        let place = self.at;
        let item = self.item_after(place)?;
        let node = Node::Callout {
            number: AUTOMATIC,
            text_from: 0,
            text_to: 0,
            item_at: item.at as u32,
            item_len: item.len as u32,
        };
        let id = self.draft.add(node, place as u32)?;
        self.level.parts.push(id)?;
        self.called = Some(place);
        Ok(())
    }

    /// Makes what waits for a quantifier a part, before a token that is none, and adds the
    /// automatic callout that is due there.
    pub(crate) fn settle(&mut self, token: Token) -> Result<(), Memory>
        requires means { Means self.old }
        requires room { HasRoom 0 self.old }
        requires plain { (after : ℕ)
            × (token_at self.old.text.now (flags_of false (state_of self.old)) self.old.at
            ≡ Ok (token, after)) × IsPlain token }
        ensures means { OnOk result (Means self.new) }
        ensures room { OnOk result (HasRoom 2 self.new) }
        ensures idle { OnOk result (self.new.waiting ≡ None) }
        ensures quiet { OnOk result (IsQuiet self.new) }
        ensures same { OnOk result (Same self.old self.new) }
        ensures next { OnOk result ((token : Token) (after : ℕ) → IsNext token after self.old
            → IsNext token after self.new) }
        ensures there { OnOk result
            (token_at self.new.text.now (flags_of false (state_of self.new)) self.new.at
            ≡ token_at self.old.text.now (flags_of false (state_of self.old)) self.old.at) }
        ensures at { OnOk result (self.new.at ≡ self.old.at) }
    {
        self.flush()?;
        if self.is_due(token) {
            return self.add_automatic();
        }
        Ok(())
    }
}
