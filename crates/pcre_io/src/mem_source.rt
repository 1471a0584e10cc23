//! A source in memory.
ghost use Rattle.std.specs.Prelude.{◌≡◌, ◌-◌, ◌≤◌, ◌++◌, length, take, drop, min, Some};

use crate::traits::{Failed, Source};

/// A source in memory: its bytes, the place at which every read fails and counts, and the greatest piece of a read.
#[derive(Drop)]
pub struct MemSource {
    bytes: Vec<u8>,
    at: usize,
    to_fault: Option<u64>,
    piece: u32,
    faults: u64,
    ghost within: { at ≤ length bytes.items },
    ghost some: { 1 ≤ piece },
}

impl MemSource {
    /// A source of these bytes. After `fail_at` of them, where it is given, every read fails; one read gives at most
    /// `piece` bytes. Takes no memory.
    pub fn new(bytes: Vec<u8>, fail_at: Option<u64>, piece: u32) -> MemSource
        requires { 1 ≤ piece }
        ensures { ⟦<MemSource as Source>⟧.tells result
            ≡ record { left = Some bytes.items; stop = Some fail_at; faults = 0 } }
    {
        MemSource {
            bytes,
            at: 0,
            to_fault: fail_at,
            piece,
            faults: 0,
        }
    }
}

// The lesser of the two.
pub(crate) fn up_to(most: usize, k: u64) -> usize
    ensures { result ≡ min most k }
{
    if (most as u64) < k { most } else { k as usize }
}

// The first n bytes of `from` become those of `to`.
fn copy_front(from: &[u8], to: &mut [u8], n: usize)
    requires from { n ≤ length from.now }
    requires to { n ≤ length to.old }
    ensures front { take n to.new ≡ take n from.now }
{
    to[..n].copy_from_slice(&from[..n]);
}

impl MemSource {
    // The most that a read into this room gives, but for a fault.
    fn most(&self, room: usize) -> usize
        ensures { result ≡ min (min (length self.now.bytes.items - self.now.at) room)
            self.now.piece }
    {
        (self.bytes.len() - self.at)
            .min(room)
            .min(self.piece as usize)
    }

    // Moves n bytes.
    fn give(&mut self, buf: &mut [u8], n: usize) -> usize
        requires here { n ≤ length self.old.bytes.items - self.old.at }
        requires room { n ≤ length buf.old }
        ensures count { result ≡ n }
        ensures bytes { drop self.old.at self.old.bytes.items ≡ take n buf.new
            ++ drop self.new.at self.new.bytes.items }
        ensures rest { length self.new.bytes.items - self.new.at
            ≡ length self.old.bytes.items - self.old.at - n }
        ensures stop { self.new.to_fault ≡ self.old.to_fault }
        ensures faults { self.new.faults ≡ self.old.faults }
    {
        copy_front(&self.bytes[self.at..], buf, n);
        self.at += n;
        n
    }
}

impl Source for MemSource {
    ghost tells = { λ s. record { left = Some (drop s.at s.bytes.items); stop = Some s.to_fault; faults = s.faults } };

    fn read(&mut self, buf: &mut [u8]) -> Result<usize, Failed> {
        let most = self.most(buf.len());
        match self.to_fault {
            None => Ok(self.give(buf, most)),
            Some(0) => {
                self.faults = self.faults.saturating_add(1);
                Err(Failed)
            }
            Some(k) => {
                let n = up_to(most, k);
                self.to_fault = Some(k - n as u64);
                Ok(self.give(buf, n))
            }
        }
    }
}
