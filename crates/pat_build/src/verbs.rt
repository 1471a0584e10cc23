//! Backtracking verbs (pcre2pattern, "Backtracking control").
ghost use Rattle.std.specs.Prelude.{ℕ, IfErr, OnOk, Ok};
ghost use Rattle.token_parts.specs.declared.token.Token.TheVariants.{VerbItem};
ghost use Rattle.pat_grammar.specs.Parts.{with_verb};
ghost use Rattle.pat_build.specs.Machine.{Ready, Begins, Took, state_of, whole_of};
ghost use Rattle.pat_grammar.specs.Places.{Refuses, IsListed, IsInText};

use crate::machine::Machine;
use pat_grammar::error::ReadError;
use pat_lex::VerbKind;
use pat_nodes::frames::Atom;
use pat_nodes::verbs::{add_verb, may_be_repeated};
use pat_tree::Memory;

impl<'a> Machine<'a> {
    /// A verb that is built, with its name.
    fn begin_verb(&mut self, kind: VerbKind, name: &[u8], after: usize) -> Result<(), Memory>
        requires ready { (from to : ℕ) × Ready (VerbItem kind from to) after self.old
            × Begins self.old (VerbItem kind from to) after
            (Ok (with_verb kind name.now (state_of self.old)
            (record (state_of self.old) { at = after }))) }
        ensures { OnOk result (Took self.old self.new) }
    {
        let at = self.at as u32;
        let id = add_verb(&mut self.draft, kind, name, at)?;
        if may_be_repeated(kind) {
            self.waiting = Some(Atom::Whole { id, at });
            self.at = after;
            return Ok(());
        }
        self.level.parts.push(id)?;
        self.at = after;
        Ok(())
    }

    /// A verb.
    pub(crate) fn verb(
        &mut self,
        kind: VerbKind,
        from: usize,
        to: usize,
        after: usize,
    ) -> Result<(), ReadError>
        requires { Ready (VerbItem kind from to) after self.old }
        ensures ok { OnOk result (Took self.old self.new) }
        ensures bad { IfErr result (Refuses (whole_of self.old)) }
        ensures number { IfErr result IsListed }
        ensures place { IfErr result (IsInText self.old.text.now) }
    {
        let text = self.text;
        self.begin_verb(kind, &text[from..to], after)?;
        Ok(())
    }
}
