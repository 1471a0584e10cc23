ghost use Rattle.std.specs.Prelude.{◌≡◌, ◌+◌, ◌*◌, ◌-◌, ◌^◌, ◌≢◌, ◌∷◌, [], true, false, cond, min, nat_le, is_some};
ghost use Rattle.std.specs.Prelude.{All, MatchOption};
ghost use Rattle.std.specs.List.{Contains};
ghost use Rattle.frame_memo.specs.Worth.{fresh, asked, left};

use crate::failure::{Cost, Failure, Key};
use crate::slots::{MOST, Slot, find, make_room, store};
use crate::worth::Worth;
use std::alloc::Global;
use std::marker::Model;

/// The failures that a search remembers, over all its start places. It may forget any of them: a
/// table has a bound of 8 MiB, and where memory is wanting, it is smaller or closed. Clauses see it
/// as a list of failures.
#[derive(Drop)]
pub struct Memo {
    slots: Vec<Slot>,
    // The most slots that there may be: none where it is closed.
    most: usize,
    // The slots that were taken, and the failures that were put.
    taken: usize,
    puts: usize,
    wait: u64,
    worth: Worth,
}

impl Model for Memo {
    ghost use Rattle.std.specs.Prelude.{◌≡◌, ◌≤◌, ◌%◌, length, nat_lt};
    ghost use Rattle.frame_memo.specs.Table.{Table};
    ghost use Rattle.frame_memo.specs.Slots.{kept, AreAtHome};

    ghost Value = { Table };

    ghost view = { λ m. record {
      kept = kept m.slots.items;
      is_open = nat_lt 0 m.most;
      wait = m.wait;
      worth = m.worth;
    } };

    ghost invariant = { λ m. (length m.slots.items % 4 ≡ 0) × (m.most ≤ 262144)
        × (length m.slots.items ≤ 262144)
        × AreAtHome m.slots.items };
}

impl Memo {
    /// A closed table. It allocates nothing until the first failure is put.
    pub fn new(alloc: Global) -> Memo
        ensures { result ≡ record { kept = []; is_open = false; wait = 0; worth = fresh } }
    {
        Memo {
            slots: Vec::new(alloc),
            most: 0,
            taken: 0,
            puts: 0,
            wait: 0,
            worth: Worth::fresh(),
        }
    }

    /// Opens the table for a search of a subject of so many bytes, without a failure. The search is
    /// to ask it only after 4,096 Steps and 32 for each byte, so that it costs a short search
    /// nothing.
    pub fn open(&mut self, bytes: usize)
        ensures { self.new ≡ record {
          kept = [];
          is_open = true;
          wait = min (32 * bytes + 4096) (2 ^ 64 - 1);
          worth = fresh;
        } }
    {
        self.slots.clear();
        self.most = MOST;
        self.taken = 0;
        self.wait = (bytes as u64).saturating_mul(32).saturating_add(4096);
        self.worth = Worth::fresh();
    }

    /// Closes the table: it forgets all failures and keeps no further ones.
    pub fn close(&mut self)
        ensures { self.new ≡ record self.old { kept = []; is_open = false } }
    {
        self.slots.clear();
        self.most = 0;
        self.taken = 0;
    }

    /// Whether the table may keep failures.
    pub fn is_open(&self) -> bool
        ensures { result ≡ self.now.is_open }
    {
        self.most > 0
    }

    /// The Steps that the search is to take before it asks.
    pub fn wait(&self) -> u64
        ensures { result ≡ self.now.wait }
    {
        self.wait
    }

    /// The cost of a failure that it keeps for this key, if it keeps one. It counts the question.
    pub fn get(&mut self, key: &Key) -> Option<Cost>
        ensures answer { MatchOption result (All (λ f. f.key ≢ key.now) self.old.kept)
            (λ cost. Contains self.old.kept (record { key = key.now; cost = cost })) }
        ensures counted { self.new
            ≡ record self.old { worth = asked (is_some result) self.old.worth } }
    {
        let found = find(self.slots.as_slice(), key);
        self.worth.ask(found.is_some());
        found
    }

    /// Keeps a failure, where the table is open: it may take the place of others. Where there is no
    /// memory for a first failure, the table is closed.
    pub fn put(&mut self, failure: Failure)
        ensures stored { self.new.is_open ≡ true → Contains self.new.kept failure }
        ensures no_other { All (Contains (failure ∷ self.old.kept)) self.new.kept }
        ensures closed { self.old.is_open ≡ false → self.new ≡ self.old }
        ensures wait { self.new.wait ≡ self.old.wait }
        ensures worth { self.new.worth ≡ self.old.worth }
    {
        if self.most == 0 {
            return;
        }
        self.most = make_room(&mut self.slots, self.taken, self.most);
        if self.slots.is_empty() {
            return;
        }
        let took = store(self.slots.as_mut_slice(), failure, self.puts);
        self.taken = self.taken.saturating_add(took);
        self.puts = self.puts.wrapping_add(1);
    }

    /// Goes on to the next start place, after so many Steps at the last one. A table that answered
    /// less than one question in 16 at each of 16 start places in a row is closed.
    pub fn leave(&mut self, steps: u64)
        ensures wait { self.new.wait ≡ self.old.wait - steps }
        ensures worth { self.new.worth ≡ left self.old.worth }
        ensures kept { self.new.kept
            ≡ cond (nat_le 16 self.new.worth.poor) [] self.old.kept }
        ensures open { self.new.is_open
            ≡ cond (nat_le 16 self.new.worth.poor) false self.old.is_open }
    {
        self.wait = self.wait.saturating_sub(steps);
        self.worth.leave();
        if self.worth.is_poor() {
            self.close();
        }
    }
}
