//! Calls of groups (pcre2pattern, "Recursive patterns", "Groups as subroutines").
ghost use Rattle.std.specs.Prelude.{IfErr, OnOk, Ok};
ghost use Rattle.token_parts.specs.declared.token.Token.{Token};
ghost use Rattle.token_parts.specs.declared.token.Token.TheVariants.{CallTo};
ghost use Rattle.pat_grammar.specs.Parts.{with_call};
ghost use Rattle.pat_build.specs.Machine.{Ready, Begins, Took, state_of, whole_of};
ghost use Rattle.pat_grammar.specs.Places.{Refuses, IsListed, IsInText};

use crate::machine::Machine;
use pat_grammar::error::ReadError;
use pat_lex::Target;
use pat_nodes::calls::{is_number, number_called};
use pat_nodes::frames::Atom;
use pat_tree::{Memory, Node};

impl<'a> Machine<'a> {
    /// A call of the group of this number.
    fn call_group(&mut self, number: u16, after: usize) -> Result<(), Memory>
        requires { (token : Token) × Ready token after self.old × Begins self.old token after
            (Ok (with_call (state_of self.old)
            (record (state_of self.old) { at = after }) number)) }
        ensures { OnOk result (Took self.old self.new) }
    {
        let at = self.at as u32;
        let id = self.draft.add(Node::Call { group: number }, at)?;
        self.waiting = Some(Atom::Whole { id, at });
        self.at = after;
        Ok(())
    }

    /// A call of what this target names.
    pub(crate) fn call(&mut self, target: Target, after: usize) -> Result<(), ReadError>
        requires { Ready (CallTo target) after self.old }
        ensures ok { OnOk result (Took self.old self.new) }
        ensures bad { IfErr result (Refuses (whole_of self.old)) }
        ensures number { IfErr result IsListed }
        ensures place { IfErr result (IsInText self.old.text.now) }
    {
        let groups = self.named_by(target)?;
        match number_called(&groups, is_number(target)) {
            Some(number) => self.call_group(number, after)?,
            None => self.reference(groups, after)?,
        }
        Ok(())
    }
}
