// The least and the greatest length of a part, as they are kept.
ghost use Rattle.std.specs.Prelude.{◌≡◌, ◌+◌, ℕ, max, true, Option};
ghost use Rattle.pat_tree.specs.Rules.{AtMost};
ghost use Rattle.pat_lengths.specs.Lengths as lengths;
ghost use Rattle.pat_lengths.specs.Lengths.{SomeLengths, both};
ghost use Rattle.pat_lengths.specs.Spans.{kept, counted_most};

use crate::counts::{product, sum};

/// The least and the greatest length of a part that has some. A length past 32 bits counts as the greatest number.
#[derive(Clone, Copy, Debug, PartialEq, Eq)]
pub struct Span {
    /// In characters, as `most` is.
    pub least: u32,
    /// None where the lengths are not limited.
    pub most: Option<u32>,
}

/// One length.
pub(crate) fn only(k: u32) -> Option<Span>
    ensures { result ≡ kept (lengths.only k) }
{
    between(k, Some(k))
}

/// Each length.
pub(crate) fn any_length() -> Option<Span>
    ensures { result ≡ kept lengths.any_length }
{
    between(0, None)
}

pub(crate) fn between(least: u32, most: Option<u32>) -> Option<Span>
    ensures { result ≡ kept (lengths.between least most) }
{
    Some(Span { least, most })
}

/// A length of one and a length of the other.
pub(crate) fn in_turn(a: Option<Span>, b: Option<Span>) -> Option<Span>
    ensures { (x y : SomeLengths) → a ≡ kept x → b ≡ kept y → result ≡ kept (lengths.in_turn x y) }
{
    let a = a?;
    let b = b?;
    Some(Span {
        least: sum(a.least, b.least),
        most: sum_if(a.most, b.most),
    })
}

fn sum_if(a: Option<u32>, b: Option<u32>) -> Option<u32>
    ensures { (x y : Option ℕ) → a ≡ counted_most x → b ≡ counted_most y
        → result ≡ counted_most (both ◌+◌ x y) }
{
    match (a, b) {
        (Some(a), Some(b)) => Some(sum(a, b)),
        _ => None,
    }
}

/// A length of one or of the other.
pub(crate) fn either(a: Option<Span>, b: Option<Span>) -> Option<Span>
    ensures { (x y : SomeLengths) → a ≡ kept x → b ≡ kept y → result ≡ kept (lengths.either x y) }
{
    match (a, b) {
        (None, b) => b,
        (a, None) => a,
        (Some(a), Some(b)) => Some(Span {
            least: a.least.min(b.least),
            most: greater_if(a.most, b.most),
        }),
    }
}

fn greater_if(a: Option<u32>, b: Option<u32>) -> Option<u32>
    ensures { (x y : Option ℕ) → a ≡ counted_most x → b ≡ counted_most y
        → result ≡ counted_most (both max x y) }
{
    match (a, b) {
        (Some(a), Some(b)) => Some(a.max(b)),
        _ => None,
    }
}

/// The sums of n lengths, for each n within the bounds.
pub(crate) fn in_turns(min: u16, max: Option<u16>, once: Option<Span>) -> Option<Span>
    requires { AtMost min max }
    ensures { (x : SomeLengths) → once ≡ kept x → result ≡ kept (lengths.in_turns min max x) }
{
    match once {
        Some(once) => Some(Span {
            least: product(min as u32, once.least),
            most: most_in_turns(max, once.most),
        }),
        None if min == 0 => only(0),
        None => None,
    }
}

/// The greatest sum of at most so many lengths, of which the greatest is given.
fn most_in_turns(max: Option<u16>, most: Option<u32>) -> Option<u32>
    ensures { (x : Option ℕ) → most ≡ counted_most x
        → result ≡ counted_most (lengths.most_in_turns max x) }
{
    match (max, most) {
        (Some(0), _) => Some(0),
        (_, Some(0)) => Some(0),
        (Some(max), Some(most)) => Some(product(max as u32, most)),
        _ => None,
    }
}

/// Whether two are one.
pub(crate) fn is_same(a: Option<Span>, b: Option<Span>) -> bool
    ensures { result ≡ true → a ≡ b }
{
    match (a, b) {
        (None, None) => true,
        (Some(a), Some(b)) => a.least == b.least && is_same_most(a.most, b.most),
        _ => false,
    }
}

fn is_same_most(a: Option<u32>, b: Option<u32>) -> bool
    ensures { result ≡ true → a ≡ b }
{
    match (a, b) {
        (None, None) => true,
        (Some(a), Some(b)) => a == b,
        _ => false,
    }
}
