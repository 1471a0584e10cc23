//! What the inputs come to, taken together.
ghost use Rattle.std.specs.Prelude.{◌≡◌, ◌<◌, ◌+◌, ◌^◌, List};
ghost use Rattle.grep_args.specs.declared.plan.GrepPlan.{GrepPlan};
ghost use Rattle.grep_output.specs.Ends.{ended_of};
ghost use Rattle.grep_main.specs.Reports.{Report};
ghost use Rattle.grep_main.specs.ToolText.{is_failed, status_of, last_text};
ghost use Rattle.tool_io.specs.Writes.{Writes};
ghost use Rattle.grep_main.specs.Sums.{SumIs, adds_end, writes_count, total_line};

use grep_args::{GrepPlan, NameMode};
use grep_core::{Ended, FileEnd};
use itoa::Buffer;
use pcre_io::{IoError, Sink};
use tool_io::write_texts;

/// What the inputs come to, taken together.
#[derive(Clone, Copy, Debug, PartialEq, Eq)]
pub struct Sum {
    /// Whether an input is missing, or couldn't be read to its end.
    pub has_failed: bool,
    /// Of how many inputs a count was written, where counts are.
    pub counts: usize,
    /// How many lines were selected.
    pub total: u128,
}

// Whether a count is written of an input: with `-l` only one above 0.
fn writes_count(plan: &GrepPlan, selected: u64) -> bool
    ensures { result ≡ writes_count plan.now selected }
{
    plan.names != NameMode::Matching || selected > 0
}

// Whether an input couldn't be read to its end.
fn is_failed(ended: Ended) -> bool
    ensures { result ≡ is_failed (ended_of ended) }
{
    !matches!(ended, Ended::End | Ended::Early)
}

/// The sum with one more input, of which this is told where it was scanned.
pub fn added(plan: &GrepPlan, sum: Sum, end: Option<FileEnd>) -> Sum
    requires counts { sum.counts + 1 < 2 ^ 64 }
    requires total { sum.total < 2 ^ 127 }
    ensures { result ≡ adds_end plan.now sum end }
{
    match end {
        Some(end) => Sum {
            has_failed: sum.has_failed || is_failed(end.ended),
            counts: sum.counts + usize::from(writes_count(plan, end.selected)),
            total: sum.total + u128::from(end.selected),
        },
        None => Sum {
            has_failed: true,
            ..sum
        },
    }
}

// Writes the number of all selected lines.
fn write_total<O: Sink>(out: &mut O, is_named: bool, total: u128) -> Result<(), IoError>
    ensures { Writes (total_line is_named total) (O.tells out.old) (O.tells out.new) result }
{
    let mut buffer = Buffer::new();
    let number = buffer.format(total).as_bytes();
    if is_named {
        write_texts(out, &[b"TOTAL:", number, b"\n"])
    } else {
        write_texts(out, &[number, b"\n"])
    }
}

/// Writes the total of `-t`: none with `-q` and `-L`, and none after just one count.
pub fn write_last<O: Sink>(out: &mut O, plan: &GrepPlan, sum: Sum) -> Result<(), IoError>
    ensures { (rs : List Report) → SumIs plan.now rs sum
        → Writes (last_text plan.now rs) (O.tells out.old) (O.tells out.new) result }
{
    if !plan.total_count || plan.quiet || plan.names == NameMode::NotMatching {
        return Ok(());
    }
    if !plan.count {
        return write_total(out, false, sum.total);
    }
    if sum.counts == 1 {
        return Ok(());
    }
    let is_named = matches!(plan.names, NameMode::With | NameMode::Matching);
    write_total(out, is_named && sum.counts > 0, sum.total)
}

/// The status: 2 where an input has failed, else 0 where a line was selected, else 1.
pub fn status_of(sum: Sum) -> u8
    ensures { (plan : GrepPlan) (rs : List Report) → SumIs plan rs sum → result ≡ status_of rs }
{
    if sum.has_failed {
        2
    } else if sum.total > 0 {
        0
    } else {
        1
    }
}
