//! Items, assertions and classes of single tokens.
ghost use Rattle.std.specs.Prelude.{◌≡◌, false, [], ◌∷◌, IfOk};
ghost use Rattle.pat_tree.specs.Nested.{one};
ghost use Rattle.pat_tree.specs.Rules.{class_in};
ghost use Rattle.pat_grammar.specs.Parts.{boundary, any_or_line};

use pat_tree::{AnchorKind, ClassSpec, Item, Memory, Part, PartList};
use std::alloc::Global;

/// `\b` or `\B`
pub fn boundary(opposite: bool, ucp: bool) -> AnchorKind
    ensures { result ≡ boundary opposite ucp }
{
    if opposite {
        AnchorKind::NotWord { ucp }
    } else {
        AnchorKind::Word { ucp }
    }
}

/// `.` (pcre2pattern, "Full stop (period, dot) and \N")
pub fn any_or_line(dotall: bool) -> Item
    ensures item { one result ≡ any_or_line dotall }
    ensures classless { class_in result ≡ [] }
{
    if dotall {
        Item::AnyAll
    } else {
        Item::NotNewline
    }
}

/// A class of one part.
pub fn class_of(alloc: Global, part: Part, caseless: bool) -> Result<ClassSpec, Memory>
    ensures { IfOk result
        (λ spec. spec ≡ record { negated = false; caseless = caseless; parts = part ∷ [] }) }
{
    let mut parts = PartList::new(alloc);
    parts.push(part)?;
    Ok(ClassSpec {
        negated: false,
        caseless,
        parts,
    })
}
