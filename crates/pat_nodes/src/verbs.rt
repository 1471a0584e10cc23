//! The nodes of verbs and their names (pcre2pattern, "Backtracking control").
ghost use Rattle.std.specs.Prelude.{◌≡◌, ◌<◌, length, IfOk};
ghost use Rattle.pat_grammar.specs.Verbs.{verb_of, may_be_repeated};
ghost use Rattle.pat_nodes.specs.Nodes.{NamesVerb, AddsVerb};

use pat_lex::VerbKind;
use pat_tree::{Draft, Memory, Node, NodeId, Verb};

/// The verb of a kind, with its name's number.
fn verb_of(kind: VerbKind, name: Option<u32>) -> Verb
    ensures { result ≡ verb_of kind name }
{
    match kind {
        VerbKind::Accept => Verb::Accept { name },
        VerbKind::Fail => Verb::Fail { name },
        VerbKind::Commit => Verb::Commit { name },
        VerbKind::Prune => Verb::Prune { name },
        VerbKind::Skip => Verb::Skip { name },
        VerbKind::Then => Verb::Then { name },
        VerbKind::Mark => Verb::Mark { name },
    }
}

/// Whether a quantifier may follow a verb of this kind.
pub fn may_be_repeated(kind: VerbKind) -> bool
    ensures { result ≡ may_be_repeated kind }
{
    matches!(kind, VerbKind::Accept)
}

/// The number of a verb's name, which is a new entry. An empty name is none.
fn add_name(draft: &mut Draft, name: &[u8]) -> Result<Option<u32>, Memory>
    requires room { length draft.old.verb_names < 4294967295 }
    ensures { IfOk result (NamesVerb draft.old draft.new name.now) }
{
    if name.is_empty() {
        return Ok(None);
    }
    let id = draft.add_verb_name(name)?;
    Ok(Some(id))
}

/// A verb's name and its node.
pub fn add_verb(draft: &mut Draft, kind: VerbKind, name: &[u8], at: u32) -> Result<NodeId, Memory>
    requires room { length draft.old.nodes < 4294967295 }
    requires names { length draft.old.verb_names < 4294967295 }
    ensures { IfOk result (λ id. AddsVerb draft.old draft.new kind name.now at id) }
{
    let number = add_name(draft, name)?;
    draft.add(Node::VerbNode(verb_of(kind, number)), at)
}
