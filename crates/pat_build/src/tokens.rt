//! Which token does what.
ghost use Rattle.std.specs.Prelude.{◌≡◌, OnOk, IfErr, Some};
ghost use Rattle.token_parts.specs.declared.token.Token.TheVariants as token;
ghost use Rattle.pat_grammar.specs.State.{passed_over};
ghost use Rattle.pat_build.specs.Stack.{IsPlain};
ghost use Rattle.pat_build.specs.Machine.{Means, Ready, IsNext, IsMore, IsAssertion, IsCharacter, Took, HasRoom};
ghost use Rattle.pat_build.specs.Machine.{state_of, whole_of};
ghost use Rattle.pat_grammar.specs.Places.{Refuses, IsListed, IsInText};

use crate::machine::Machine;
use pat_grammar::brackets::read_class;
use pat_grammar::error::ReadError;
use pat_grammar::options::with_setting;
use pat_grammar::properties::property_part;
use pat_lex::{OptionMask, Token, UNKNOWN_VERB};
use pat_nodes::items::{any_or_line, boundary, class_of};
use pat_nodes::nodes::plain;
use pat_tree::{AnchorKind, Item, Memory, Part, SetName};
use token_parts::LEFT_OUT;

impl<'a> Machine<'a> {
    /// A type outside a class is a class of its own.
    fn set(&mut self, set: SetName, not: bool, after: usize) -> Result<(), Memory>
        requires { Ready (token.Set set not) after self.old }
        ensures { OnOk result (Took self.old self.new) }
    {
        let ucp = self.options.ucp;
        let part = Part::Set { set, not, ucp };
        let spec = class_of(self.alloc, part, self.options.caseless)?;
        self.class(spec, after, self.quoting)
    }

    /// A property outside a class is a class of its own.
    fn property(&mut self, from: usize, to: usize, not: bool, after: usize) -> Result<(), ReadError>
        requires { Ready (token.Property from to not) after self.old }
        ensures ok { OnOk result (Took self.old self.new) }
        ensures bad { IfErr result (Refuses (whole_of self.old)) }
        ensures number { IfErr result IsListed }
        ensures place { IfErr result (IsInText self.old.text.now) }
    {
        let name = &self.text[from..to];
        let part = property_part(name, not, self.options.ucp, self.at)?;
        let spec = class_of(self.alloc, part, self.options.caseless)?;
        self.class(spec, after, self.quoting)?;
        Ok(())
    }

    /// A class from its opening bracket on.
    fn class_start(&mut self, negated: bool, after: usize) -> Result<(), ReadError>
        requires { Ready (token.ClassStart negated) after self.old }
        ensures ok { OnOk result (Took self.old self.new) }
        ensures bad { IfErr result (Refuses (whole_of self.old)) }
        ensures number { IfErr result IsListed }
        ensures place { IfErr result (IsInText self.old.text.now) }
    {
        let cursor = self.cursor(after);
        let (spec, end) = read_class(self.alloc, &cursor, negated)?;
        self.class(spec, end.at, end.quoting)?;
        Ok(())
    }

    /// Options are set, or a group begins in which they are.
    fn option_set(
        &mut self,
        reset: bool,
        on: OptionMask,
        off: OptionMask,
        opens: bool,
        after: usize,
    ) -> Result<(), ReadError>
        requires { Ready (token.OptionSet reset on off opens) after self.old }
        ensures ok { OnOk result (Took self.old self.new) }
        ensures bad { IfErr result (Refuses (whole_of self.old)) }
        ensures number { IfErr result IsListed }
        ensures place { IfErr result (IsInText self.old.text.now) }
    {
        let options = with_setting(reset, on, off, self.options);
        if opens {
            return self.plain_group(plain(), options, after);
        }
        self.nothing(options, self.quoting, after);
        Ok(())
    }

    /// A simple assertion.
    fn assertion(&mut self, token: Token, after: usize) -> Result<(), Memory>
        requires ready { Ready token after self.old }
        requires simple { IsAssertion token }
        ensures { OnOk result (Took self.old self.new) }
    {
        let multi = self.options.multiline;
        let end_only = self.options.dollar_endonly;
        match token {
            Token::Caret => self.anchor(AnchorKind::Caret { multi }, after),
            Token::Dollar => self.anchor(AnchorKind::Dollar { multi, end_only }, after),
            Token::SubjectStart => self.anchor(AnchorKind::SubjectStart, after),
            Token::SubjectEnd => self.anchor(AnchorKind::SubjectEnd, after),
            Token::EndOrNewline => self.anchor(AnchorKind::EndOrNewline, after),
            Token::StartGiven => self.anchor(AnchorKind::StartGiven, after),
            Token::Boundary { not } => self.anchor(boundary(not, self.options.ucp), after),
            _ => unreachable!(),
        }
    }

    /// A character or a type.
    fn character(&mut self, token: Token, after: usize) -> Result<(), Memory>
        requires ready { Ready token after self.old }
        requires character { IsCharacter token }
        ensures { OnOk result (Took self.old self.new) }
    {
        let caseless = self.options.caseless;
        match token {
            Token::Literal(c) => {
                self.single(Item::Char { c, caseless }, after);
                Ok(())
            }
            Token::Dot => {
                self.single(any_or_line(self.options.dotall), after);
                Ok(())
            }
            Token::NotNewline => {
                self.single(Item::NotNewline, after);
                Ok(())
            }
            Token::LineBreak => self.line_break(after),
            Token::Set { set, not } => self.set(set, not, after),
            _ => unreachable!(),
        }
    }

    /// Takes in a token before which nothing waits.
    fn plain(&mut self, token: Token, after: usize) -> Result<(), ReadError>
        requires ready { Ready token after self.old }
        requires plain { IsPlain token }
        requires more { IsMore token }
        ensures ok { OnOk result (Took self.old self.new) }
        ensures bad { IfErr result (Refuses (whole_of self.old)) }
        ensures number { IfErr result IsListed }
        ensures place { IfErr result (IsInText self.old.text.now) }
    {
        match token {
            Token::Literal(_)
            | Token::Dot
            | Token::NotNewline
            | Token::LineBreak
            | Token::Set { .. } => Ok(self.character(token, after)?),
            Token::Property { from, to, not } => self.property(from, to, not, after),
            Token::KeepOut => self.keep_out(after),
            Token::Caret
            | Token::Dollar
            | Token::SubjectStart
            | Token::SubjectEnd
            | Token::EndOrNewline
            | Token::StartGiven
            | Token::Boundary { .. } => Ok(self.assertion(token, after)?),
            Token::ClassStart { negated } => self.class_start(negated, after),
            Token::Reference(target) => self.refer(target, after),
            Token::CallTo(target) => self.call(target, after),
            Token::Open(kind) => self.open(kind, after),
            Token::OptionSet {
                reset,
                on,
                off,
                opens,
            } => self.option_set(reset, on, off, opens, after),
            Token::VerbItem { verb, from, to } => self.verb(verb, from, to, after),
            Token::CalloutItem {
                number,
                text_from,
                text_to,
            } => self.callout(number, text_from, text_to, after),
            Token::Bar => self.bar(after),
            Token::CondStart { cond, from, to } => self.condition(cond, from, to, after),
            Token::Close => self.close(after),
            Token::Start(_) => Err(self.fault(UNKNOWN_VERB)),
            _ => Err(self.fault(LEFT_OUT)),
        }
    }

    /// Comments, ignored white space, `\Q` and `\E` stand for nothing themselves.
    fn passed(&mut self, token: Token, quoting: bool, after: usize)
        requires means { Means self.old }
        requires room { HasRoom 0 self.old }
        requires next { IsNext token after self.old }
        requires passed { passed_over token (record (state_of self.old) { at = after })
            ≡ Some (record (state_of self.old) { at = after; quoting = quoting }) }
        ensures { Took self.old self.new }
    {
        match self.waiting {
            Some(_) => self.pass(quoting, after),
            None => self.nothing(self.options, quoting, after),
        }
    }

    /// Takes in a token that isn't the end.
    pub(crate) fn take(&mut self, token: Token, after: usize) -> Result<(), ReadError>
        requires means { Means self.old }
        requires room { HasRoom 0 self.old }
        requires next { IsNext token after self.old }
        requires more { IsMore token }
        ensures ok { OnOk result (Took self.old self.new) }
        ensures bad { IfErr result (Refuses (whole_of self.old)) }
        ensures number { IfErr result IsListed }
        ensures place { IfErr result (IsInText self.old.text.now) }
    {
        match token {
            Token::Quantifier { min, max, mode } => self.quantifier(min, max, mode, after),
            Token::Passed => {
                self.passed(token, self.quoting, after);
                Ok(())
            }
            Token::QuoteOn => {
                self.passed(token, true, after);
                Ok(())
            }
            Token::QuoteOff => {
                self.passed(token, false, after);
                Ok(())
            }
            plain => {
                self.settle(plain)?;
                self.plain(plain, after)
            }
        }
    }
}
