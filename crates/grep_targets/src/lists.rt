//! Lists of targets.
ghost use Rattle.std.specs.Prelude.{◌≡◌, ◌<◌, ◌∷◌, ◌++◌, [], length, OnErr, OnOk, slice_get, Some};

use pcre_io::Memory;
use std::alloc::Global;
use std::marker::Model;
use tool_io::Target;

/// A list of targets.
#[derive(Debug, Drop)]
pub struct TargetList {
    items: Vec<Target>,
}

impl Model for TargetList {
    ghost use Rattle.std.specs.Prelude.{List};
    ghost use Rattle.tool_io.specs.declared.target.Target.{Target};

    ghost Value = { List Target };

    ghost view = { λ targets. targets.items.items };
}

impl TargetList {
    /// The empty list. Takes no memory.
    pub fn new(alloc: Global) -> TargetList
        ensures { result ≡ [] }
    {
        TargetList {
            items: Vec::new(alloc),
        }
    }

    /// Adds a target at the end. The list is unchanged after a refusal.
    pub fn push(&mut self, item: Target) -> Result<(), Memory>
        ensures ok { OnOk result (self.new ≡ self.old ++ item ∷ []) }
        ensures refused { OnErr result (self.new ≡ self.old) }
    {
        self.items.push(item)?;
        Ok(())
    }

    /// How many targets there are.
    pub fn len(&self) -> usize
        ensures { result ≡ length self.now }
    {
        self.items.len()
    }

    /// The target at a place counted from 0.
    pub fn get(&self, i: usize) -> &Target
        requires { i < length self.now }
        ensures { slice_get self.now i ≡ Some result.now }
    {
        &self.items[i]
    }

    /// The targets.
    pub fn as_slice(&self) -> &[Target]
        ensures { result.now ≡ self.now }
    {
        self.items.as_slice()
    }
}
