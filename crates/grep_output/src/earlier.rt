//! The lines before a selected one.
ghost use Rattle.std.specs.Prelude.{◌≡◌, ◌<◌, ◌≤◌, ◌⊎◌, ◌==◌, ◌++◌, ◌∷◌, [], length, drop, if◌then◌else◌, OnOk, IfOk};
ghost use Rattle.std.specs.Prelude.{slice_get, option_map};
ghost use Rattle.circular_buffer.specs.Buffer.{keep_last, buffer};
ghost use Rattle.line_feed.specs.Lines.{row_of};
ghost use Rattle.grep_output.specs.Earlier.{IsShort};

use circular_buffer::HeapCircularBuffer;
use line_feed::Line;
use pcre_io::Memory;
use std::alloc::Global;
use std::marker::Model;

// The capacity that the first line makes.
const FIRST: usize = 4;

/// A copy of a line.
#[derive(Drop)]
struct KeptLine {
    bytes: Vec<u8>,
    end: Vec<u8>,
    number: u64,
    offset: u64,
}

/// The last lines, at most a number of them. Its room grows as lines come.
#[derive(Drop)]
pub struct EarlierLines {
    limit: usize,
    // No line has more bytes, without its newline. No code reads it: by it the invariant bounds how much is held.
    longest: usize,
    // so many of the last lines in the buffer count; the others lend their room
    count: usize,
    lines: HeapCircularBuffer<KeptLine>,
}

impl Model for KeptLine {
    ghost use Rattle.line_feed.specs.Rows.{Row};

    ghost Value = { Row };

    ghost view = { λ l. record {
      bytes = l.bytes.items;
      newline = l.end.items;
      number =
          l.number;
      offset = l.offset;
    } };
}

impl KeptLine {
    // Takes a line in place of this one, into the room that it has.
    fn take(&mut self, line: &Line<'_>) -> Result<(), Memory>
        ensures { OnOk result (self.new ≡ row_of line.now) }
    {
        self.bytes.clear();
        self.bytes.extend_from_slice(line.bytes)?;
        self.end.clear();
        self.end.extend_from_slice(line.end)?;
        self.number = line.number;
        self.offset = line.offset;
        Ok(())
    }

    fn of(alloc: Global, line: &Line<'_>) -> Result<KeptLine, Memory>
        ensures { IfOk result (λ kept. kept ≡ row_of line.now) }
    {
        Ok(KeptLine {
            bytes: line.bytes.to_vec(alloc)?,
            end: line.end.to_vec(alloc)?,
            number: line.number,
            offset: line.offset,
        })
    }

    // A copy of a line, in the room of an earlier one where there is one.
    fn in_place_of(
        earlier: Option<KeptLine>,
        alloc: Global,
        line: &Line<'_>,
    ) -> Result<KeptLine, Memory>
        ensures { IfOk result (λ kept. kept ≡ row_of line.now) }
    {
        match earlier {
            Some(mut kept) => {
                kept.take(line)?;
                Ok(kept)
            }
            None => KeptLine::of(alloc, line),
        }
    }

    fn line(&self) -> Line<'_>
        ensures { row_of result ≡ self.now }
    {
        Line {
            bytes: self.bytes.as_slice(),
            end: self.end.as_slice(),
            number: self.number,
            offset: self.offset,
        }
    }
}

impl Model for EarlierLines {
    ghost use Rattle.circular_buffer.specs.Buffer.{keep_last};
    ghost use Rattle.grep_output.specs.Earlier.{EarlierRows, IsKept};

    ghost Value = { EarlierRows };

    ghost view = { λ b. record {
      limit = b.limit;
      longest = b.longest;
      rows =
          keep_last b.count b.lines.items;
    } };

    ghost invariant = { λ b. IsKept b.limit b.longest b.count b.lines };
}

impl EarlierLines {
    /// No line yet. It will keep the last `limit` lines, of at most `longest` bytes each. Takes no memory.
    pub fn new(alloc: Global, limit: usize, longest: usize) -> Result<EarlierLines, Memory>
        ensures { IfOk result (λ earlier. earlier
            ≡ record { limit = limit; longest = longest; rows = [] }) }
    {
        Ok(EarlierLines {
            limit,
            longest,
            count: 0,
            lines: HeapCircularBuffer::with_capacity(alloc, 0)?,
        })
    }

    /// How many lines there are.
    pub fn len(&self) -> usize
        ensures { result ≡ length self.now.rows }
    {
        self.count
    }

    /// A line, counted from the earliest one.
    pub fn line(&self, i: usize) -> Option<Line<'_>>
        ensures { option_map row_of result ≡ slice_get self.now.rows i }
    {
        if i >= self.count {
            return None;
        }
        let kept = self.lines.get(self.lines.len() - self.count + i)?;
        Some(kept.line())
    }

    /// Forgets all lines. Their room is used again.
    pub fn clear(&mut self)
        ensures { self.new ≡ record self.old { rows = [] } }
    {
        self.count = 0;
    }

    /// Adds a line. Where there are as many as are kept, the earliest one is forgotten.
    pub fn push(&mut self, alloc: Global, line: &Line<'_>) -> Result<(), Memory>
        requires { IsShort self.old.longest (row_of line.now) }
        ensures { OnOk result (self.new ≡ record self.old
            { rows = keep_last self.old.limit (self.old.rows ++ row_of line.now ∷ []) }) }
    {
        if self.limit == 0 {
            return Ok(());
        }
        make_room(&mut self.lines, self.limit)?;
        let earliest = earliest_if_full(&mut self.lines);
        // the earliest line is gone, also where memory lacks below
        self.count = self.count.min(self.lines.len());
        let kept = KeptLine::in_place_of(earliest, alloc, line)?;
        self.lines.push_back(kept);
        self.count += 1;
        Ok(())
    }
}

// Makes room for a further line, unless there is room for as many as are kept.
fn make_room(lines: &mut HeapCircularBuffer<KeptLine>, limit: usize) -> Result<(), Memory>
    requires { lines.now.capacity ≤ limit }
    ensures items { lines.new.items ≡ lines.old.items }
    ensures within { lines.new.capacity ≤ limit }
    ensures room { OnOk result ((length lines.new.items < lines.new.capacity)
        ⊎ (lines.new.capacity ≡ limit)) }
{
    let capacity = lines.capacity();
    if lines.is_full() && capacity < limit {
        lines.resize(limit.min(FIRST.max(capacity * 2)))?;
    }
    Ok(())
}

// Takes the earliest line out where all room is taken.
fn earliest_if_full(lines: &mut HeapCircularBuffer<KeptLine>) -> Option<KeptLine>
    ensures { lines.new ≡ (if length lines.old.items == lines.old.capacity
        then buffer (drop 1 lines.old.items) lines.old.capacity else lines.old) }
{
    if lines.is_full() {
        lines.pop_front()
    } else {
        None
    }
}
