//! What begins a group, and what refers to one.
ghost use Rattle.std.specs.Prelude.{◌≡◌, ◌<◌, ◌≤◌, not, ◌&&◌, [], ◌∷◌, length, slice_range, false, IfOk, OnOk, IfErr};
ghost use Rattle.std.specs.Prelude.{None, Ok};
ghost use Rattle.token_parts.specs.declared.token.Token.{Token};
ghost use Rattle.token_parts.specs.declared.token.Token.TheVariants.{Open, CondStart, Reference};
ghost use Rattle.token_parts.specs.declared.token.OpenKind.TheVariants as opening;
ghost use Rattle.token_parts.specs.declared.token.CondText.TheVariants as tested;
ghost use Rattle.token_parts.specs.Tell.{IsTarget, IsPart, IsTest};
ghost use Rattle.pat_tree.specs.Nested.{in_call_of};
ghost use Rattle.std.specs.List.{list_any};
ghost use Rattle.pat_grammar.specs.Groups.{has_name, is_elsewhere, number_of, opened, conditional, unless_named};
ghost use Rattle.pat_grammar.specs.Groups.{called_number, IsWorded, form_in, is_beyond, beyond_after, named_by};
ghost use Rattle.pat_grammar.specs.Parts.{enters};
ghost use Rattle.pat_build.specs.Machine.{Ready, Begins, Took, TestsNone, state_of, whole_of, known_of};
ghost use Rattle.pat_grammar.specs.Places.{Refuses, IsListed, IsInText};
ghost use Rattle.pat_nodes.specs.Nodes.{form_of, test_of};

use crate::faults::{GROUPS_TOO_DEEP, NAME_IS_TAKEN, OTHER_NAME_OF_NUMBER};
use crate::machine::Machine;
use pat_grammar::alternatives::Numbering;
use pat_grammar::error::ReadError;
use pat_lex::{CondText, OpenKind, Target};
use pat_nodes::calls::named_call;
use pat_nodes::frames::{Form, Inside, Test};
use pat_nodes::names::{Name, groups_of, is_elsewhere, is_given, is_other, one_group};
use pat_nodes::nodes::plain;
use pat_tree::{GroupList, Memory, Options};
use token_parts::{GROUP_NUMBER_TOO_BIG, MALFORMED_CONDITION};

/// The most parentheses that may be open.
const DEEPEST: usize = 250;

/// The greatest number of a capturing group.
const GREATEST: u16 = 65535;

impl<'a> Machine<'a> {
    /// A group that has no number begins.
    pub(crate) fn plain_group(
        &mut self,
        form: Form,
        options: Options,
        after: usize,
    ) -> Result<(), ReadError>
        requires numberless { number_of (form_of form) ≡ None }
        requires tests_none { TestsNone (form_of form) }
        requires ready { (token : Token) × Ready token after self.old × Begins self.old token after
            (enters (opened (state_of self.old) (form_of form)
            (record (state_of self.old) { at = after; options = options }))) }
        ensures ok { OnOk result (Took self.old self.new) }
        ensures bad { IfErr result (Refuses (whole_of self.old)) }
        ensures number { IfErr result IsListed }
        ensures place { IfErr result (IsInText self.old.text.now) }
    {
        if self.stack.len() >= DEEPEST {
            return Err(self.fault(GROUPS_TOO_DEEP));
        }
        let inside = Inside {
            options,
            ..self.inside(after)
        };
        self.enter(form, None, inside)?;
        Ok(())
    }

    /// A group that has the next number begins.
    fn capturing_group(&mut self, after: usize) -> Result<(), ReadError>
        requires ready { Ready (Open opening.Capture) after self.old }
        requires captures { self.old.options.no_auto_capture ≡ false }
        ensures ok { OnOk result (Took self.old self.new) }
        ensures bad { IfErr result (Refuses (whole_of self.old)) }
        ensures number { IfErr result IsListed }
        ensures place { IfErr result (IsInText self.old.text.now) }
    {
        if self.stack.len() >= DEEPEST {
            return Err(self.fault(GROUPS_TOO_DEEP));
        }
        if self.groups >= GREATEST {
            return Err(self.fault(GROUP_NUMBER_TOO_BIG));
        }
        let number = self.groups + 1;
        let form = Form::Group {
            number: Some(number),
        };
        let inside = Inside {
            groups: number,
            ..self.inside(after)
        };
        self.enter(form, None, inside)?;
        Ok(())
    }

    /// Whether a group of another number has this name and DUPNAMES is not set.
    fn is_taken(&self, name: &[u8], group: u16) -> bool
        ensures { result
            ≡ (not self.now.options.dupnames
            && list_any (is_elsewhere name.now group) self.now.draft.names) }
    {
        !self.options.dupnames && is_elsewhere(self.draft.names(), name, group)
    }

    /// A group that has the next number and a name begins. Where a group of another number has the
    /// name, DUPNAMES is needed, and no group of this number may have another name.
    fn named_group(&mut self, from: usize, to: usize, after: usize) -> Result<(), ReadError>
        requires { Ready (Open (opening.Named from to)) after self.old }
        ensures ok { OnOk result (Took self.old self.new) }
        ensures bad { IfErr result (Refuses (whole_of self.old)) }
        ensures number { IfErr result IsListed }
        ensures place { IfErr result (IsInText self.old.text.now) }
    {
        if self.stack.len() >= DEEPEST {
            return Err(self.fault(GROUPS_TOO_DEEP));
        }
        if self.groups >= GREATEST {
            return Err(self.fault(GROUP_NUMBER_TOO_BIG));
        }
        let number = self.groups + 1;
        let called = &self.text[from..to];
        if self.is_taken(called, number) {
            return Err(self.fault(NAME_IS_TAKEN));
        }
        if is_other(self.draft.names(), called, number) {
            return Err(self.fault(OTHER_NAME_OF_NUMBER));
        }
        let name = Name {
            from,
            to,
            group: number,
        };
        let form = Form::Group {
            number: Some(number),
        };
        let inside = Inside {
            groups: number,
            ..self.inside(after)
        };
        self.enter(form, Some(name), inside)?;
        Ok(())
    }

    /// A branch reset begins.
    fn reset_group(&mut self, after: usize) -> Result<(), ReadError>
        requires { Ready (Open opening.BranchReset) after self.old }
        ensures ok { OnOk result (Took self.old self.new) }
        ensures bad { IfErr result (Refuses (whole_of self.old)) }
        ensures number { IfErr result IsListed }
        ensures place { IfErr result (IsInText self.old.text.now) }
    {
        if self.stack.len() >= DEEPEST {
            return Err(self.fault(GROUPS_TOO_DEEP));
        }
        let inside = Inside {
            numbering: Numbering::Reset {
                base: self.groups,
                greatest: self.groups,
            },
            ..self.inside(after)
        };
        self.enter(plain(), None, inside)?;
        Ok(())
    }

    /// A lookaround begins.
    fn look(
        &mut self,
        ahead: bool,
        positive: bool,
        atomic: bool,
        after: usize,
    ) -> Result<(), ReadError>
        requires { Ready (Open (opening.Look ahead positive atomic)) after self.old }
        ensures ok { OnOk result (Took self.old self.new) }
        ensures bad { IfErr result (Refuses (whole_of self.old)) }
        ensures number { IfErr result IsListed }
        ensures place { IfErr result (IsInText self.old.text.now) }
    {
        let form = Form::Look {
            ahead,
            positive,
            atomic,
        };
        self.plain_group(form, self.options, after)
    }

    /// A group begins.
    pub(crate) fn open(&mut self, kind: OpenKind, after: usize) -> Result<(), ReadError>
        requires { Ready (Open kind) after self.old }
        ensures ok { OnOk result (Took self.old self.new) }
        ensures bad { IfErr result (Refuses (whole_of self.old)) }
        ensures number { IfErr result IsListed }
        ensures place { IfErr result (IsInText self.old.text.now) }
    {
        match kind {
            OpenKind::Capture => {
                if self.options.no_auto_capture {
                    self.plain_group(plain(), self.options, after)
                } else {
                    self.capturing_group(after)
                }
            }
            OpenKind::Plain => self.plain_group(plain(), self.options, after),
            OpenKind::Atomic => self.plain_group(Form::Atomic, self.options, after),
            OpenKind::Named { from, to } => self.named_group(from, to, after),
            OpenKind::Look {
                ahead,
                positive,
                atomic,
            } => self.look(ahead, positive, atomic, after),
            OpenKind::BranchReset => self.reset_group(after),
        }
    }

    /// Whether a group of the whole pattern has the name between these places.
    fn is_named(&self, from: usize, to: usize) -> bool
        requires part { IsPart self.now.text.now from to }
        ensures { result ≡ list_any (has_name (slice_range self.now.text.now from to))
            (known_of self.now).names }
    {
        is_given(self.known, &self.text[from..to])
    }

    /// The test of a call, unless a group has the text between these places as its name.
    fn unless_named(&self, test: Test, from: usize, to: usize) -> Result<Form, Memory>
        requires part { IsPart self.now.text.now from to }
        ensures numberless { IfOk result (λ form. number_of (form_of form) ≡ None) }
        ensures tests_none { IfOk result (λ form. TestsNone (form_of form)) }
        ensures is { IfOk result
            (λ form. form_of form
            ≡ conditional
            (unless_named (known_of self.now).names (slice_range self.now.text.now from to)
            (test_of test))) }
    {
        if self.is_named(from, to) {
            let name = &self.text[from..to];
            let groups = groups_of(self.alloc, self.known, name)?;
            return Ok(Form::Condition(Test::AnySet(groups)));
        }
        Ok(Form::Condition(test))
    }

    /// What a test of a call with this number asks.
    fn call_test(&self, n: u32) -> Result<Test, Memory>
        ensures { IfOk result (λ test. test_of test ≡ in_call_of (called_number n ∷ [])) }
    {
        let groups = if n > u32::from(GREATEST) {
            one_group(self.alloc, 0)?
        } else {
            one_group(self.alloc, n as u16)?
        };
        Ok(Test::InCallOf(groups))
    }

    /// A conditional group by the text of its test, which stands between these places.
    #[tactic(auto, unfolding(pat_grammar::specs::Groups::form_in))]
    fn form(&self, cond: CondText, from: usize, to: usize) -> Result<Form, ReadError>
        requires well { IsTest self.now.text.now cond }
        requires part { IsPart self.now.text.now from to }
        requires within { self.now.at ≤ length self.now.text.now }
        ensures ok { IfOk result
            (λ form. form_in (known_of self.now).names self.now.text.now (state_of self.now) cond
            (slice_range self.now.text.now from to) ≡ Ok (form_of form)) }
        ensures numberless { IfOk result (λ form. number_of (form_of form) ≡ None) }
        ensures tests_none { IfOk result (λ form. TestsNone (form_of form)) }
        ensures bad { IfErr result
            (Refuses (form_in (known_of self.now).names self.now.text.now (state_of self.now) cond
            (slice_range self.now.text.now from to))) }
        ensures number { IfErr result IsListed }
        ensures place { IfErr result (IsInText self.now.text.now) }
    {
        match cond {
            CondText::Group(target) => {
                let groups = self.named_by(target)?;
                Ok(Form::Condition(Test::AnySet(groups)))
            }
            CondText::InCall => Ok(self.unless_named(Test::InCall, from, to)?),
            CondText::InCallOf(Target::Number(n)) => {
                let test = self.call_test(n)?;
                Ok(self.unless_named(test, from, to)?)
            }
            CondText::InCallOf(target) => {
                let groups = self.named_by(target)?;
                Ok(Form::Condition(named_call(groups)))
            }
            CondText::Define => Ok(Form::Define),
            CondText::Lookaround => Err(self.fault(MALFORMED_CONDITION)),
        }
    }

    /// Whether the test is of a call of a group whose number is too big, and no group has its text
    /// as a name.
    #[tactic(auto, unfolding(pat_grammar::specs::Groups::is_beyond))]
    fn is_beyond(&self, cond: CondText, from: usize, to: usize) -> bool
        requires part { IsPart self.now.text.now from to }
        ensures { result ≡ is_beyond (known_of self.now).names cond
            (slice_range self.now.text.now from to) }
    {
        match cond {
            CondText::InCallOf(Target::Number(n)) => n > u32::from(GREATEST)
                && !self.is_named(from, to),
            _ => false,
        }
    }

    /// The first test of a call whose number no group can have, this one included.
    fn beyond_after(&self, cond: CondText, from: usize, to: usize) -> Option<usize>
        requires part { IsPart self.now.text.now from to }
        ensures { result ≡ beyond_after (known_of self.now).names (state_of self.now) cond
            (slice_range self.now.text.now from to) }
    {
        match self.beyond {
            Some(first) => Some(first),
            None if self.is_beyond(cond, from, to) => Some(self.at),
            None => None,
        }
    }

    /// A conditional group begins that tests a lookaround.
    fn tested_condition(&mut self, from: usize, to: usize, after: usize) -> Result<(), ReadError>
        requires { Ready (CondStart tested.Lookaround from to) after self.old }
        ensures ok { OnOk result (Took self.old self.new) }
        ensures bad { IfErr result (Refuses (whole_of self.old)) }
        ensures number { IfErr result IsListed }
        ensures place { IfErr result (IsInText self.old.text.now) }
    {
        if self.stack.len() >= DEEPEST {
            return Err(self.fault(GROUPS_TOO_DEEP));
        }
        let cursor = self.cursor(after);
        let test = cursor.assertion(self.alloc, self.at, self.calling)?;
        if self.stack.len() + 1 >= DEEPEST {
            return Err(ReadError::Bad {
                number: GROUPS_TOO_DEEP,
                at: test.here.at,
            });
        }
        self.enter_assertion(test)?;
        Ok(())
    }

    /// A conditional group begins.
    pub(crate) fn condition(
        &mut self,
        cond: CondText,
        from: usize,
        to: usize,
        after: usize,
    ) -> Result<(), ReadError>
        requires { Ready (CondStart cond from to) after self.old }
        ensures ok { OnOk result (Took self.old self.new) }
        ensures bad { IfErr result (Refuses (whole_of self.old)) }
        ensures number { IfErr result IsListed }
        ensures place { IfErr result (IsInText self.old.text.now) }
    {
        match cond {
            CondText::Lookaround => self.tested_condition(from, to, after),
            CondText::Group(_) | CondText::InCall | CondText::InCallOf(_) | CondText::Define => {
                self.worded_condition(cond, from, to, after)
            }
        }
    }

    /// A conditional group begins, whose test stands between these places.
    fn worded_condition(
        &mut self,
        cond: CondText,
        from: usize,
        to: usize,
        after: usize,
    ) -> Result<(), ReadError>
        requires ready { Ready (CondStart cond from to) after self.old }
        requires worded { IsWorded cond }
        ensures ok { OnOk result (Took self.old self.new) }
        ensures bad { IfErr result (Refuses (whole_of self.old)) }
        ensures number { IfErr result IsListed }
        ensures place { IfErr result (IsInText self.old.text.now) }
    {
        if self.stack.len() >= DEEPEST {
            return Err(self.fault(GROUPS_TOO_DEEP));
        }
        let form = self.form(cond, from, to)?;
        let beyond = self.beyond_after(cond, from, to);
        let inside = Inside {
            beyond,
            ..self.inside(after)
        };
        self.enter(form, None, inside)?;
        Ok(())
    }

    /// The groups that a reference or a call names, by the names of the whole pattern.
    #[tactic(auto, unfolding(pat_grammar::specs::Groups::named_by))]
    pub(crate) fn named_by(&self, target: Target) -> Result<GroupList, ReadError>
        requires target { IsTarget self.now.text.now target }
        requires within { self.now.at ≤ length self.now.text.now }
        ensures ok { IfOk result
            (λ groups. named_by (known_of self.now).names self.now.text.now
            (state_of self.now) target ≡ Ok groups) }
        ensures some { IfOk result (λ groups. 0 < length groups) }
        ensures bad { IfErr result
            (Refuses (named_by (known_of self.now).names self.now.text.now
            (state_of self.now) target)) }
        ensures number { IfErr result IsListed }
        ensures place { IfErr result (IsInText self.now.text.now) }
    {
        let groups = u32::from(self.groups);
        match target {
            Target::Number(n) => Ok(one_group(self.alloc, n as u16)?),
            Target::Plus(n) => {
                let group = groups + n;
                if group > u32::from(GREATEST) {
                    return Err(self.fault(GROUP_NUMBER_TOO_BIG));
                }
                Ok(one_group(self.alloc, group as u16)?)
            }
            Target::Minus(n) => Ok(one_group(self.alloc, (groups + 1).saturating_sub(n) as u16)?),
            Target::Named { from, to } => {
                Ok(groups_of(self.alloc, self.known, &self.text[from..to])?)
            }
        }
    }

    /// A reference to what this target names.
    pub(crate) fn refer(&mut self, target: Target, after: usize) -> Result<(), ReadError>
        requires { Ready (Reference target) after self.old }
        ensures ok { OnOk result (Took self.old self.new) }
        ensures bad { IfErr result (Refuses (whole_of self.old)) }
        ensures number { IfErr result IsListed }
        ensures place { IfErr result (IsInText self.old.text.now) }
    {
        let groups = self.named_by(target)?;
        self.reference(groups, after)?;
        Ok(())
    }
}
