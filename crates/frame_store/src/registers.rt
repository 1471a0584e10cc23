ghost use Rattle.std.specs.Prelude.{◌≡◌, ◌+◌, ◌≤◌, [], ◌++◌, length, replicate, None, IsOk, OnOk, OnErr};
ghost use Rattle.std.specs.Prelude.{vec_capacity, min};
ghost use Rattle.frame_store.specs.Captures.{capture, with_capture, HasGroup};

use crate::store::Memory;
use std::alloc::Global;

/// A text that a group captured: the places in the subject where it begins and ends, in bytes.
#[derive(Clone, Copy, Debug, PartialEq, Eq)]
pub struct Span {
    pub from: u64,
    pub to: u64,
}

/// The text that a group has captured, if any, by the registers of a search.
pub fn captured(registers: &[Option<Span>], group: u32) -> Option<Span>
    requires { HasGroup registers.now group }
    ensures { result ≡ capture registers.now group }
{
    registers[group as usize - 1]
}

/// Writes a group's register. All others keep what they hold.
pub fn set_captured(registers: &mut [Option<Span>], group: u32, value: Option<Span>)
    requires { HasGroup registers.old group }
    ensures { registers.new ≡ with_capture registers.old group value }
{
    registers[group as usize - 1] = value;
}

/// The registers of a search: for each capturing group the text that it last captured, if it has captured one. They are
/// numbered from 1, as groups are, and are at most 65,535. A search goes over them as a slice, so that it leaves the
/// room that they have.
#[derive(Drop)]
pub struct Registers {
    pub spans: Vec<Option<Span>>,
}

impl Registers {
    /// No registers. It allocates nothing until the first are added.
    pub fn new(alloc: Global) -> Registers
        ensures { result.spans.items ≡ [] }
    {
        Registers {
            spans: Vec::new(alloc),
        }
    }

    /// Makes room for so many registers in all, so that as many can stand without memory. Want of memory alone refuses
    /// it, and changes nothing.
    pub fn reserve(&mut self, groups: u32) -> Result<(), Memory>
        ensures room { OnOk result (groups ≤ vec_capacity self.new.spans) }
        ensures no_less { vec_capacity self.old.spans ≤ vec_capacity self.new.spans }
        ensures kept { self.new.spans.items ≡ self.old.spans.items }
    {
        let more = (groups as usize).saturating_sub(self.spans.len());
        if self.spans.reserve(more).is_err() {
            return Err(Memory);
        }
        Ok(())
    }

    /// Adds that many unset registers after those that stand already. Want of memory alone refuses it, where there is
    /// no room for them, and changes nothing.
    pub fn grow(&mut self, groups: u32) -> Result<(), Memory>
        requires { length self.old.spans.items + groups ≤ 65535 }
        ensures grown { OnOk result
            (self.new.spans.items ≡ self.old.spans.items ++ replicate groups None) }
        ensures no_less { vec_capacity self.old.spans ≤ vec_capacity self.new.spans }
        ensures succeeds { length self.old.spans.items + groups ≤ vec_capacity self.old.spans
            → IsOk result }
        ensures refused { OnErr result (self.new.spans.items ≡ self.old.spans.items) }
    {
        let count = self.spans.len() + groups as usize;
        if self.spans.resize(count, None).is_err() {
            return Err(Memory);
        }
        Ok(())
    }

    /// Leaves no registers. The room that they had stays for the next.
    pub fn clear(&mut self)
        ensures cleared { self.new.spans.items ≡ [] }
        ensures room { vec_capacity self.new.spans ≡ vec_capacity self.old.spans }
    {
        self.spans.clear();
    }

    /// The number of registers.
    pub fn count(&self) -> u32
        ensures { result ≡ min (length self.now.spans.items) 4294967295 }
    {
        self.spans.len().min(4_294_967_295) as u32
    }

    /// The text that a group has captured, if any.
    pub fn get(&self, group: u32) -> Option<Span>
        requires { HasGroup self.now.spans.items group }
        ensures { result ≡ capture self.now.spans.items group }
    {
        captured(self.spans.as_slice(), group)
    }

    /// Writes a group's register. All others keep what they hold.
    pub fn set(&mut self, group: u32, value: Option<Span>)
        requires { HasGroup self.old.spans.items group }
        ensures set { self.new.spans.items ≡ with_capture self.old.spans.items group value }
        ensures room { vec_capacity self.new.spans ≡ vec_capacity self.old.spans }
    {
        set_captured(self.spans.as_mut_slice(), group, value);
    }
}
