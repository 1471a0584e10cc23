//! A sink in memory.
ghost use Rattle.std.specs.Prelude.{◌≡◌, ◌≤◌, [], ◌++◌, length, take, Some, IfOk, OnErr, IsErrOf};

use crate::mem_source::up_to;
use crate::traits::{Failed, IoError, Sink};
use std::alloc::Global;

/// A sink in memory: what it holds, the room after which every write fails and counts, and the greatest piece of a
/// write.
#[derive(Drop)]
pub struct MemSink {
    bytes: Vec<u8>,
    room: Option<u64>,
    piece: u32,
    faults: u64,
    ghost some: { 1 ≤ piece },
}

impl MemSink {
    /// An empty sink. After `room` bytes, where it is given, every write fails; one write takes at most `piece` bytes.
    pub fn new(alloc: Global, room: Option<u64>, piece: u32) -> MemSink
        requires { 1 ≤ piece }
        ensures { ⟦<MemSink as Sink>⟧.tells result
            ≡ record { held = Some []; room = Some room; piece = Some piece; faults = 0 } }
    {
        MemSink {
            bytes: Vec::new(alloc),
            room,
            piece,
            faults: 0,
        }
    }

    /// What it holds.
    pub fn bytes(&self) -> &[u8]
        ensures { (⟦<MemSink as Sink>⟧.tells self.now).held ≡ Some result.now }
    {
        self.bytes.as_slice()
    }
}

// Adds the first n bytes of a piece.
fn push_front(held: &mut Vec<u8>, bytes: &[u8], n: usize) -> Result<usize, IoError>
    requires { n ≤ length bytes.now }
    ensures ok { IfOk result
        (λ m. (m ≡ n) × (held.new.items ≡ held.old.items ++ take n bytes.now)) }
    ensures err { OnErr result (held.new.items ≡ held.old.items) }
    ensures memory { IsErrOf result IoError.Failed → ⊥ }
{
    match held.extend_from_slice(&bytes[..n]) {
        Ok(()) => Ok(n),
        Err(_) => Err(IoError::Memory),
    }
}

impl Sink for MemSink {
    ghost tells = { λ s. record {
      held = Some s.bytes.items;
      room = Some s.room;
      piece = Some s.piece;
      faults = s.faults;
    } };

    fn write(&mut self, bytes: &[u8]) -> Result<usize, IoError> {
        let most = bytes.len().min(self.piece as usize);
        match self.room {
            None => push_front(&mut self.bytes, bytes, most),
            Some(0) => {
                self.faults = self.faults.saturating_add(1);
                Err(IoError::Failed)
            }
            Some(k) => {
                let n = up_to(most, k);
                let taken = push_front(&mut self.bytes, bytes, n)?;
                self.room = Some(k - taken as u64);
                Ok(taken)
            }
        }
    }
    // Nothing is gathered.
    fn flush(&mut self) -> Result<(), Failed> {
        Ok(())
    }
}
