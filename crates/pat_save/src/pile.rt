//! The nodes that no other has taken.
ghost use Rattle.std.specs.Prelude.{◌≡◌, ◌++◌, ◌∷◌, [], IfOk};
ghost use Rattle.pat_save.specs.Pile.{AreTaken, free_of, ids_of, row_role, serves};
ghost use Rattle.pat_save.specs.ReadNodes.{last_of, top_of};
ghost use Rattle.pat_save.specs.Reading.{Gives};

use crate::errors::LoadError;
use pat_tree::{Kids, Memory, NodeId};
use std::alloc::Global;

/// What a node may serve as for the next one.
#[derive(Clone, Copy, Debug, PartialEq, Eq)]
pub(crate) enum Role {
    /// A lookaround.
    Look,
    /// A callout.
    Callout,
    /// A callout, and a lookaround after it.
    CalledLook,
    Other,
}

/// A node that no other has taken.
#[derive(Clone, Copy, Debug)]
pub(crate) struct Loose {
    pub(crate) id: NodeId,
    pub(crate) role: Role,
}

/// What parts one after the other serve as.
fn row_role(parts: &[Loose]) -> Role
    ensures { result ≡ row_role parts.now }
{
    match parts {
        [first, second] if first.role == Role::Callout && second.role == Role::Look =>
            Role::CalledLook,
        _ => Role::Other,
    }
}

fn ids_of(alloc: Global, parts: &[Loose]) -> Result<Kids, Memory>
    ensures { IfOk result (λ kids. kids ≡ ids_of parts.now) }
{
    let mut kids = Vec::new(alloc);
    for loose in parts {
        kids.push(loose.id)?;
    }
    Ok(Kids::from_vec(kids))
}

/// Takes so many of the nodes from the top, the lowest of them first, and says what they serve as
/// in a row.
pub(crate) fn take_kids(
    alloc: Global,
    pile: &mut Vec<Loose>,
    count: u32,
) -> Result<(Kids, Role), LoadError>
    ensures gives { Gives (λ x. x.0) result (last_of count (free_of pile.old.items)) }
    ensures taken { IfOk result (λ x. AreTaken pile.old.items pile.new.items x.0 x.1) }
{
    let count = count as usize;
    if pile.len() < count {
        return Err(LoadError::Bad);
    }
    let first = pile.len() - count;
    let parts = &pile[first..];
    let role = row_role(parts);
    let kids = ids_of(alloc, parts)?;
    pile.truncate(first);
    Ok((kids, role))
}

/// Takes the node at the top.
pub(crate) fn take_top(pile: &mut Vec<Loose>) -> Result<Loose, LoadError>
    ensures gives { Gives (λ x. ((x.id, serves x.role), free_of pile.new.items)) result
        (top_of (free_of pile.old.items)) }
    ensures taken { IfOk result (λ x. pile.old.items ≡ pile.new.items ++ x ∷ []) }
{
    match pile.pop() {
        Some(loose) => Ok(loose),
        None => Err(LoadError::Bad),
    }
}

/// Whether a node may be the test of a condition: a lookaround, or a callout and a lookaround
/// after it.
pub(crate) fn serves(role: Role) -> bool
    ensures { result ≡ serves role }
{
    match role {
        Role::Look | Role::CalledLook => true,
        Role::Callout | Role::Other => false,
    }
}
