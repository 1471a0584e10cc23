//! How common bytes and texts are, of which the rarest is looked for. No answer goes by it.
use crate::same::BYTES;
use crate::text::ByteText;
use byte_lanes::{ByteSet, find_in_set};

// A weight tells how many of so many bytes of a usual text are in a set: the weight of a place where any byte may
// stand.
pub(crate) const ANY: u32 = 400;

// A set that is more common than this is of no use, since most lines have one of its bytes.
pub(crate) const COMMON: u32 = 100;

// The most common bytes, by which most sets that are of no use are told.
const COMMONEST: [u8; 11] = *b" etaoinsrlh";

/// Whether the most common bytes of a set alone are more common than a set of use.
fn is_common(bytes: &ByteSet) -> bool {
    let mut weight = 0u32;
    for b in COMMONEST {
        if bytes.has(b) {
            weight = weight.saturating_add(commonness(b));
        }
    }
    weight > COMMON
}

/// How common the bytes of a set are, where they are rare enough.
pub(crate) fn weight_of(bytes: &ByteSet) -> Option<u32> {
    if is_common(bytes) {
        return None;
    }
    let weight = sum_of(bytes, COMMON);
    if weight > COMMON { None } else { Some(weight) }
}

/// The sum over the members of a set, of which those past the one that makes it greater than `most` are left out.
fn sum_of(bytes: &ByteSet, most: u32) -> u32 {
    let mut sum = 0u32;
    let mut from = 0;
    'members: while from < BYTES.len() && sum <= most {
        let at = find_in_set(&BYTES, from, bytes);
        if at < BYTES.len() {
            sum = sum.saturating_add(commonness(BYTES[at]));
        }
        from = at + 1;
    }
    sum
}

/// How common the two cases of a character are, with a byte past ASCII unless they are short.
pub(crate) fn weight_of_cases(c: u32, is_short: bool) -> u32 {
    if c >= 256 {
        return 0;
    }
    let byte = c as u8;
    let past = if is_short { 0 } else { commonness(0xFF) };
    let own = commonness(byte).saturating_add(past);
    if byte.is_ascii_alphabetic() {
        own.saturating_add(commonness(byte ^ 0x20))
    } else {
        own
    }
}

/// How common the bytes of a set are.
fn share_of(bytes: &ByteSet) -> u32 {
    sum_of(bytes, ANY).min(ANY)
}

/// How common a byte is: spaces most, then letters and digits, then signs.
pub(crate) fn commonness(byte: u8) -> u32 {
    match byte {
        b' ' => 30,
        b'e' | b't' | b'a' | b'o' | b'i' | b'n' | b's' | b'r' => 12,
        b'a'..=b'z' | b'0'..=b'9' => 6,
        b'A'..=b'Z' | b'.' | b',' | b'-' | b'_' | b':' | b'/' => 3,
        _ => 2,
    }
}

/// How common a text is: of `ANY` to the third power places it stands at about so many.
pub(crate) fn rate(weights: &[u32; 3]) -> u64 {
    let two = u64::from(weights[0]).saturating_mul(u64::from(weights[1]));
    two.saturating_mul(u64::from(weights[2]))
}

fn share_of_next(set: &Option<ByteSet>) -> u32 {
    match set {
        Some(set) => share_of(set),
        None => ANY,
    }
}

/// How common the bytes of each place are, in so many branches whose weights were added up.
pub(crate) fn weights_of(weights: &[u32; 3], text: &ByteText, branches: usize) -> [u32; 3] {
    if branches > 1 {
        least_weights(weights, text)
    } else {
        *weights
    }
}

/// How common the bytes of each place are: no more than those of the set there.
fn least_weights(weights: &[u32; 3], text: &ByteText) -> [u32; 3] {
    [
        weights[0].min(share_of(&text.first)),
        weights[1].min(share_of_next(&text.second)),
        weights[2].min(share_of_next(&text.third)),
    ]
}

/// How common the bytes of either are.
pub(crate) fn both_weights(one: &[u32; 3], other: &[u32; 3]) -> [u32; 3] {
    [
        one[0].saturating_add(other[0]).min(ANY),
        one[1].saturating_add(other[1]).min(ANY),
        one[2].saturating_add(other[2]).min(ANY),
    ]
}

pub(crate) fn repeated_weight(weight: u32, places: u16) -> [u32; 3] {
    match places {
        1 => [weight, ANY, ANY],
        2 => [weight, weight, ANY],
        _ => [weight; 3],
    }
}

/// The place of the rarest byte. Where bytes past ASCII stand at all, they stand in numbers.
pub(crate) fn rarest_place(text: &ByteText, weights: &[u32; 3]) -> usize {
    let first = if text.first.has(0xFF) {
        COMMON
    } else {
        weights[0]
    };
    let second = weight_sought(&text.second, weights[1]);
    let third = weight_sought(&text.third, weights[2]);
    if second < first && second <= third {
        1
    } else if third < first {
        2
    } else {
        0
    }
}

fn weight_sought(set: &Option<ByteSet>, weight: u32) -> u32 {
    match set {
        Some(set) if set.has(0xFF) => COMMON,
        Some(_) => weight,
        None => ANY,
    }
}
