//! The callout before a lookaround that is tested (pcre2pattern, "Callouts").
ghost use Rattle.std.specs.Prelude.{◌≡◌, ◌≤◌, ◌+◌, ◌<◌, ◌++◌, length, IfOk, IfSome, OnOk, Some};
ghost use Rattle.pat_tree.specs.Growing.{Grows, Stand, loose};
ghost use Rattle.pat_grammar.specs.Leads.{lead_of, IsWithin};
ghost use Rattle.pat_nodes.specs.Nodes.{Adds};

use pat_grammar::callouts::Lead;
use pat_tree::{Draft, Kids, Memory, Node};
use std::alloc::Global;

/// The callout alone as a part.
fn called_parts(alloc: Global, draft: &mut Draft, lead: Lead, at: u32) -> Result<Kids, Memory>
    requires room { length draft.old.nodes < 4294967295 }
    requires small { IsWithin 65536 lead }
    ensures stands { IfOk result (λ parts. Stand draft.new.nodes parts (lead_of (Some lead))) }
    ensures loose { IfOk result (λ parts. loose draft.new.nodes ≡ loose draft.old.nodes ++ parts) }
    ensures grows { OnOk result (Grows draft.old.nodes draft.new.nodes) }
    ensures adds { OnOk result (Adds draft.old draft.new) }
    ensures count { OnOk result (length draft.new.nodes ≤ length draft.old.nodes + 1) }
{
    let node = Node::Callout {
        number: lead.called.number,
        text_from: lead.called.text_from,
        text_to: lead.called.text_to,
        item_at: lead.item.at as u32,
        item_len: lead.item.len as u32,
    };
    let mut parts = Kids::new(alloc);
    let id = draft.add(node, at)?;
    parts.push(id)?;
    Ok(parts)
}

/// The parts before the lookaround that a conditional group tests: its callout, if there is one.
pub fn lead_parts(
    alloc: Global,
    draft: &mut Draft,
    lead: Option<Lead>,
    at: u32,
) -> Result<Kids, Memory>
    requires room { length draft.old.nodes < 4294967295 }
    requires small { IfSome lead (IsWithin 65536) }
    ensures stands { IfOk result (λ parts. Stand draft.new.nodes parts (lead_of lead)) }
    ensures loose { IfOk result (λ parts. loose draft.new.nodes ≡ loose draft.old.nodes ++ parts) }
    ensures grows { OnOk result (Grows draft.old.nodes draft.new.nodes) }
    ensures adds { OnOk result (Adds draft.old draft.new) }
    ensures count { OnOk result (length draft.new.nodes ≤ length draft.old.nodes + 1) }
{
    match lead {
        Some(lead) => called_parts(alloc, draft, lead, at),
        None => Ok(Kids::new(alloc)),
    }
}
