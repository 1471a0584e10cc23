//! What each token does.
ghost use Rattle.std.specs.Prelude.{◌≡◌, ℕ, ◌+◌, ◌<◌, ◌≤◌, [], length, IfOk, IfSome, OnOk, IfErr, None, Some, Ok};
ghost use Rattle.std.specs.Prelude.{false};
ghost use Rattle.pat_tree.specs.Nested.{one, line_break, anchor};
ghost use Rattle.pat_tree.specs.Rules.{class_in};
ghost use Rattle.token_parts.specs.declared.token.Token.{Token};
ghost use Rattle.token_parts.specs.declared.token.Token.TheVariants.{Bar, Close, KeepOut, Quantifier};
ghost use Rattle.pat_lex.specs.Tokens.{token_at};
ghost use Rattle.pat_grammar.specs.State.{passed_over, flags_of};
ghost use Rattle.pat_grammar.specs.Groups.{number_of, barred};
ghost use Rattle.pat_grammar.specs.Parts.{atom, bare, nothing, of_class, with_reference};
ghost use Rattle.pat_grammar.specs.Leads.{IsWithin};
ghost use Rattle.pat_build.specs.Stack.{IsPlain};
ghost use Rattle.pat_build.specs.Machine.{Means, Ready, IsNext, Begins, Took, Same, HasRoom, TestsNone, Numbered};
ghost use Rattle.pat_build.specs.Machine.{Gives, inside_from, asserting_from, tested_frame, state_of, whole_of};
ghost use Rattle.pat_grammar.specs.Places.{Refuses, IsListed, IsInText};
ghost use Rattle.pat_nodes.specs.Nodes.{form_of};

use crate::faults::{
    ALTERNATIVES_OF_DEFINE, KEEP_OUT_IN_LOOKAROUND, NOTHING_TO_REPEAT, TOO_MANY_ALTERNATIVES,
    UNOPENED_GROUP,
};
use crate::machine::Machine;
use pat_grammar::alternatives::{Bars, Numbering};
use pat_grammar::cursor::Assertion;
use pat_grammar::error::ReadError;
use pat_lex::QuantMode;
use pat_nodes::callouts::lead_parts;
use pat_nodes::frames::{Atom, Form, Frame, Inside, Level};
use pat_nodes::groups::{
    atom_of, bars_in, give, groups_after, groups_before, is_look, is_looking, is_tested,
    next_numbering, push_frame,
};
use pat_nodes::names::Name;
use pat_nodes::nodes::{alternative, group, place, repeated, with_test};
use pat_tree::{AnchorKind, ClassSpec, GroupList, Item, Kids, Memory, Node, Options};
use std::mem;

impl<'a> Machine<'a> {
    /// Makes what waits for a quantifier a part, before a token that is none.
    pub(crate) fn flush(&mut self) -> Result<(), Memory>
        requires means { Means self.old }
        requires room { HasRoom 0 self.old }
        requires plain { (token : Token) × (after : ℕ)
            × (token_at self.old.text.now (flags_of false (state_of self.old)) self.old.at
            ≡ Ok (token, after)) × IsPlain token }
        ensures means { OnOk result (Means self.new) }
        ensures room { OnOk result (HasRoom 1 self.new) }
        ensures idle { OnOk result (self.new.waiting ≡ None) }
        ensures same { OnOk result (Same self.old self.new) }
        ensures next { OnOk result ((token : Token) (after : ℕ) → IsNext token after self.old
            → IsNext token after self.new) }
        ensures there { OnOk result
            (token_at self.new.text.now (flags_of false (state_of self.new)) self.new.at
            ≡ token_at self.old.text.now (flags_of false (state_of self.old)) self.old.at) }
        ensures at { OnOk result (self.new.at ≡ self.old.at) }
    {
        if let Some(atom) = self.waiting {
            let id = place(&mut self.draft, atom)?;
            self.level.parts.push(id)?;
            self.waiting = None;
        }
        Ok(())
    }

    /// Which alternatives the group may have after a bar.
    fn barred(&self) -> Result<Bars, ReadError>
        requires { self.now.at ≤ length self.now.text.now }
        ensures ok { IfOk result (λ bars. barred self.now.bars self.now.at ≡ Ok bars) }
        ensures bad { IfErr result (Refuses (barred self.now.bars self.now.at)) }
        ensures number { IfErr result IsListed }
        ensures place { IfErr result (IsInText self.now.text.now) }
    {
        match self.bars {
            Bars::Free => Ok(Bars::Free),
            Bars::First => Ok(Bars::Second),
            Bars::Second => Err(self.fault(TOO_MANY_ALTERNATIVES)),
            Bars::Define => Err(self.fault(ALTERNATIVES_OF_DEFINE)),
        }
    }

    /// At a bar the next alternative begins.
    pub(crate) fn bar(&mut self, after: usize) -> Result<(), ReadError>
        requires { Ready Bar after self.old }
        ensures ok { OnOk result (Took self.old self.new) }
        ensures bad { IfErr result (Refuses (whole_of self.old)) }
        ensures number { IfErr result IsListed }
        ensures place { IfErr result (IsInText self.old.text.now) }
    {
        let bars = self.barred()?;
        let groups = self.groups;
        let parts = mem::replace(&mut self.level.parts, Kids::new(self.alloc));
        let id = alternative(&mut self.draft, parts, self.at as u32)?;
        self.level.branches.push(id)?;
        self.bars = bars;
        self.groups = groups_before(self.numbering, groups);
        self.numbering = next_numbering(self.numbering, groups);
        self.at = after;
        Ok(())
    }

    /// An atom that takes one character, which gets its node when it is known whether a quantifier
    /// follows.
    pub(crate) fn single(&mut self, item: Item, after: usize)
        requires ready { (token : Token) × Ready token after self.old × Begins self.old token after
            (Ok (atom (one item) (record (state_of self.old) { at = after }))) }
        requires classless { class_in item ≡ [] }
        ensures { Took self.old self.new }
    {
        let at = self.at as u32;
        self.waiting = Some(Atom::Single { item, at });
        self.at = after;
    }

    /// A class, which is a new entry of the table. It ends at a place, maybe between `\Q` and `\E`.
    pub(crate) fn class(&mut self, spec: ClassSpec, end: usize, quoting: bool) -> Result<(), Memory>
        requires ready { (token : Token) × (after : ℕ) × Ready token after self.old × (after ≤ end)
            × Begins self.old token after
            (Ok (of_class spec (record (state_of self.old) { at = end; quoting = quoting }))) }
        requires within { end ≤ length self.old.text.now }
        ensures { OnOk result (Took self.old self.new) }
    {
        let at = self.at as u32;
        let class = self.draft.add_class(spec)?;
        self.waiting = Some(Atom::Single {
            item: Item::Class(class),
            at,
        });
        self.at = end;
        self.quoting = quoting;
        Ok(())
    }

    /// `\R`
    pub(crate) fn line_break(&mut self, after: usize) -> Result<(), Memory>
        requires { (token : Token) × Ready token after self.old × Begins self.old token after
            (Ok (atom line_break (record (state_of self.old) { at = after }))) }
        ensures { OnOk result (Took self.old self.new) }
    {
        let at = self.at as u32;
        let id = self.draft.add(Node::Break, at)?;
        self.waiting = Some(Atom::Whole { id, at });
        self.at = after;
        Ok(())
    }

    /// A reference to these groups.
    pub(crate) fn reference(&mut self, groups: GroupList, after: usize) -> Result<(), Memory>
        requires ready { (token : Token) × Ready token after self.old × Begins self.old token after
            (Ok (with_reference (state_of self.old)
            (record (state_of self.old) { at = after }) groups)) }
        requires some { 0 < length groups }
        ensures { OnOk result (Took self.old self.new) }
    {
        let at = self.at as u32;
        let caseless = self.options.caseless;
        let id = self.draft.add(Node::Ref { groups, caseless }, at)?;
        self.waiting = Some(Atom::Whole { id, at });
        self.at = after;
        Ok(())
    }

    /// A simple assertion, which no quantifier may follow.
    pub(crate) fn anchor(&mut self, kind: AnchorKind, after: usize) -> Result<(), Memory>
        requires { (token : Token) × Ready token after self.old × Begins self.old token after
            (Ok (bare (anchor kind) (record (state_of self.old) { at = after }))) }
        ensures { OnOk result (Took self.old self.new) }
    {
        let id = self.draft.add(Node::Anchor(kind), self.at as u32)?;
        self.level.parts.push(id)?;
        self.at = after;
        Ok(())
    }

    /// `\K`, which no lookaround may have.
    pub(crate) fn keep_out(&mut self, after: usize) -> Result<(), ReadError>
        requires { Ready KeepOut after self.old }
        ensures ok { OnOk result (Took self.old self.new) }
        ensures bad { IfErr result (Refuses (whole_of self.old)) }
        ensures number { IfErr result IsListed }
        ensures place { IfErr result (IsInText self.old.text.now) }
    {
        if self.looking {
            return Err(self.fault(KEEP_OUT_IN_LOOKAROUND));
        }
        let id = self.draft.add(Node::KeepOut, self.at as u32)?;
        self.level.parts.push(id)?;
        self.at = after;
        Ok(())
    }

    /// What is no part: an option setting, or what is passed over where no atom waits.
    pub(crate) fn nothing(&mut self, options: Options, quoting: bool, after: usize)
        requires { (token : Token) × Ready token after self.old × Begins self.old token after
            (Ok (nothing
            (record (state_of self.old) { at = after; options = options; quoting = quoting }))) }
        ensures { Took self.old self.new }
    {
        self.options = options;
        self.quoting = quoting;
        self.at = after;
    }

    /// What is passed over leaves the atom waiting.
    pub(crate) fn pass(&mut self, quoting: bool, after: usize)
        requires means { Means self.old }
        requires room { HasRoom 0 self.old }
        requires waits { (a : Atom) × (self.old.waiting ≡ Some a) }
        requires next { (token : Token) × IsNext token after self.old
            × (passed_over token (record (state_of self.old) { at = after })
            ≡ Some (record (state_of self.old) { at = after; quoting = quoting })) }
        ensures { Took self.old self.new }
    {
        self.quoting = quoting;
        self.at = after;
    }

    /// A group begins, of whose inside this is told.
    pub(crate) fn enter(
        &mut self,
        form: Form,
        given: Option<Name>,
        inside: Inside,
    ) -> Result<(), Memory>
        requires shallow { length self.old.stack.items < 250 }
        requires tests_none { TestsNone (form_of form) }
        requires numbered { Numbered self.old.groups (number_of (form_of form)) inside.numbering
            inside.groups }
        requires gives { Gives self.old.text.now self.old.groups given inside.groups }
        requires ready { (token : Token) × Ready token inside.at self.old
            × Begins self.old token inside.at
            (Ok (inside_from self.old (form_of form) given inside)) }
        ensures { OnOk result (Took self.old self.new) }
    {
        let looking = is_looking(&form, self.looking);
        let bars = bars_in(&form);
        let inner = Level {
            branches: Kids::new(self.alloc),
            parts: Kids::new(self.alloc),
        };
        let outer = mem::replace(&mut self.level, inner);
        let frame = Frame {
            form,
            around: self.options,
            looking: self.looking,
            bars: self.bars,
            numbering: self.numbering,
            at: self.at as u32,
            outer,
        };
        give(self.text, &mut self.draft, given)?;
        push_frame(&mut self.stack, frame)?;
        self.options = inside.options;
        self.groups = inside.groups;
        self.looking = looking;
        self.bars = bars;
        self.numbering = inside.numbering;
        self.beyond = inside.beyond;
        self.at = inside.at;
        Ok(())
    }

    /// The frame of a lookaround that a conditional group tests, with these parts before it.
    fn asserted(&self, test: Assertion, parts: Kids) -> Frame
        requires { test.here.at ≤ 65536 }
        ensures { result ≡ tested_frame self.now test parts }
    {
        Frame {
            form: Form::Asserted {
                ahead: test.ahead,
                positive: test.positive,
            },
            around: self.options,
            looking: self.looking,
            bars: Bars::First,
            numbering: Numbering::Onward,
            at: test.here.at as u32,
            outer: Level {
                branches: Kids::new(self.alloc),
                parts,
            },
        }
    }

    /// A conditional group begins, and the lookaround that it tests.
    pub(crate) fn enter_assertion(&mut self, test: Assertion) -> Result<(), Memory>
        requires shallow { length self.old.stack.items + 1 < 250 }
        requires small { IfSome test.lead (IsWithin (length self.old.text.now)) }
        requires onward { self.old.at < test.after.at }
        requires before { test.here.at < test.after.at }
        requires within { test.after.at ≤ length self.old.text.now }
        requires ready { (token : Token) × (after : ℕ) × Ready token after self.old
            × (after ≤ test.after.at) × Begins self.old token after
            (Ok (asserting_from self.old test)) }
        ensures { OnOk result (Took self.old self.new) }
    {
        let here = test.here.at as u32;
        let parts = lead_parts(self.alloc, &mut self.draft, test.lead, here)?;
        let inner = Level {
            branches: Kids::new(self.alloc),
            parts: Kids::new(self.alloc),
        };
        let outer = mem::replace(&mut self.level, inner);
        let group = Frame {
            form: Form::Asserting,
            around: self.options,
            looking: self.looking,
            bars: self.bars,
            numbering: self.numbering,
            at: self.at as u32,
            outer,
        };
        push_frame(&mut self.stack, group)?;
        let looks = self.asserted(test, parts);
        push_frame(&mut self.stack, looks)?;
        self.looking = true;
        self.bars = Bars::Free;
        self.numbering = Numbering::Onward;
        self.quoting = test.after.quoting;
        self.at = test.after.at;
        Ok(())
    }

    /// A group ends. A lookaround that is tested is an alternative, after its callout; any other
    /// group waits for a quantifier.
    pub(crate) fn close(&mut self, after: usize) -> Result<(), ReadError>
        requires { Ready Close after self.old }
        ensures ok { OnOk result (Took self.old self.new) }
        ensures bad { IfErr result (Refuses (whole_of self.old)) }
        ensures number { IfErr result IsListed }
        ensures place { IfErr result (IsInText self.old.text.now) }
    {
        let Some(
            Frame {
                form,
                around,
                looking,
                bars,
                numbering,
                at,
                outer,
            },
        ) = self.stack.pop()
        else {
            return Err(ReadError::Bad {
                number: UNOPENED_GROUP,
                at: self.at,
            });
        };
        let level = mem::replace(&mut self.level, outer);
        let tested = is_tested(&form);
        let looks = is_look(&form);
        let id = group(&mut self.draft, form, level, at)?;
        self.options = around;
        self.looking = looking;
        self.bars = bars;
        self.groups = groups_after(self.numbering, self.groups);
        self.numbering = numbering;
        self.at = after;
        if tested {
            with_test(self.alloc, &mut self.draft, &mut self.level, id, at)?;
            return Ok(());
        }
        self.waiting = Some(atom_of(looks, id, at));
        Ok(())
    }

    /// A quantifier is put on the atom before it.
    pub(crate) fn quantifier(
        &mut self,
        min: u16,
        max: Option<u16>,
        mode: QuantMode,
        after: usize,
    ) -> Result<(), ReadError>
        requires means { Means self.old }
        requires room { HasRoom 0 self.old }
        requires next { IsNext (Quantifier min max mode) after self.old }
        ensures ok { OnOk result (Took self.old self.new) }
        ensures bad { IfErr result (Refuses (whole_of self.old)) }
        ensures number { IfErr result IsListed }
        ensures place { IfErr result (IsInText self.old.text.now) }
    {
        let at = self.at;
        let Some(atom) = self.waiting else {
            return Err(ReadError::Bad {
                number: NOTHING_TO_REPEAT,
                at,
            });
        };
        let ungreedy = self.options.ungreedy;
        let id = repeated(self.alloc, &mut self.draft, min, max, mode, ungreedy, atom)?;
        self.level.parts.push(id)?;
        self.waiting = None;
        self.at = after;
        Ok(())
    }
}
