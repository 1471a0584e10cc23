//! The fields of an image, taken from the front of its bytes.
ghost use Rattle.std.specs.Int.{w16, w32};
ghost use Rattle.std.specs.Ordering.{nat_cmp};
ghost use Rattle.std.specs.Prelude.{◌≡◌};
ghost use Rattle.pat_save.specs.Checked.{IsRising};
ghost use Rattle.pat_save.specs.Reading.{Gives, byte_at, bool_at, number_at, optional_at, bytes_at};
ghost use Rattle.pat_save.specs.Reading.{short_text_at, comes_after, group_after, groups_at};

use crate::errors::LoadError;
use pat_tree::GroupList;
use std::alloc::Global;

/// The first byte, and what follows.
pub(crate) fn take_byte(bytes: &[u8]) -> Result<(u8, &[u8]), LoadError>
    ensures { Gives (λ x. (x.0, x.1.now)) result (byte_at bytes.now) }
{
    match bytes {
        [] => Err(LoadError::Bad),
        [first, rest @ ..] => Ok((*first, rest)),
    }
}

/// A bool: 0 or 1.
#[tactic(auto, unfolding(crate::specs::Reading::bool_at))]
pub(crate) fn take_bool(bytes: &[u8]) -> Result<(bool, &[u8]), LoadError>
    ensures { Gives (λ x. (x.0, x.1.now)) result (bool_at bytes.now) }
{
    match bytes {
        [0, rest @ ..] => Ok((false, rest)),
        [1, rest @ ..] => Ok((true, rest)),
        _ => Err(LoadError::Bad),
    }
}

/// A number of two bytes.
#[tactic(auto, unfolding(crate::specs::Reading::number_at))]
pub(crate) fn take_short(bytes: &[u8]) -> Result<(u16, &[u8]), LoadError>
    ensures { Gives (λ x. (x.0, x.1.now)) result (number_at w16 bytes.now) }
{
    if bytes.len() < 2 {
        return Err(LoadError::Bad);
    }
    let (front, rest) = bytes.split_at(2);
    Ok((u16::from_le_bytes([front[0], front[1]]), rest))
}

/// A number of four bytes.
#[tactic(auto, unfolding(crate::specs::Reading::number_at))]
pub(crate) fn take_number(bytes: &[u8]) -> Result<(u32, &[u8]), LoadError>
    ensures { Gives (λ x. (x.0, x.1.now)) result (number_at w32 bytes.now) }
{
    if bytes.len() < 4 {
        return Err(LoadError::Bad);
    }
    let (front, rest) = bytes.split_at(4);
    Ok((
        u32::from_le_bytes([front[0], front[1], front[2], front[3]]),
        rest,
    ))
}

/// 0, or 1 and a number of two bytes.
pub(crate) fn take_optional_short(bytes: &[u8]) -> Result<(Option<u16>, &[u8]), LoadError>
    ensures { Gives (λ x. (x.0, x.1.now)) result (optional_at (number_at w16) bytes.now) }
{
    let (is_some, rest) = take_bool(bytes)?;
    if !is_some {
        return Ok((None, rest));
    }
    let (number, rest) = take_short(rest)?;
    Ok((Some(number), rest))
}

/// 0, or 1 and a number of four bytes.
pub(crate) fn take_optional_number(bytes: &[u8]) -> Result<(Option<u32>, &[u8]), LoadError>
    ensures { Gives (λ x. (x.0, x.1.now)) result (optional_at (number_at w32) bytes.now) }
{
    let (is_some, rest) = take_bool(bytes)?;
    if !is_some {
        return Ok((None, rest));
    }
    let (number, rest) = take_number(rest)?;
    Ok((Some(number), rest))
}

/// So many bytes.
pub(crate) fn take_bytes(bytes: &[u8], count: usize) -> Result<(&[u8], &[u8]), LoadError>
    ensures { Gives (λ x. (x.0.now, x.1.now)) result (bytes_at count bytes.now) }
{
    if bytes.len() < count {
        return Err(LoadError::Bad);
    }
    Ok(bytes.split_at(count))
}

/// A text of 1 to so many bytes, behind its length in one byte.
#[tactic(auto, unfolding(crate::specs::Reading::short_text_at))]
pub(crate) fn take_short_text(bytes: &[u8], most: u8) -> Result<(&[u8], &[u8]), LoadError>
    ensures { Gives (λ x. (x.0.now, x.1.now)) result (short_text_at most bytes.now) }
{
    let (length, rest) = take_byte(bytes)?;
    if length == 0 || length > most {
        return Err(LoadError::Bad);
    }
    take_bytes(rest, length as usize)
}

/// Whether a group stands behind all of these, which rise.
fn is_after(groups: &[u16], group: u16) -> bool
    requires { IsRising groups.now }
    ensures { result ≡ comes_after nat_cmp groups.now group }
{
    match groups.last() {
        Some(last) => *last < group,
        None => true,
    }
}

/// The number of a group behind these, which rise.
#[tactic(auto, unfolding(crate::specs::Reading::group_after))]
fn take_group<'a>(groups: &[u16], bytes: &'a [u8]) -> Result<(u16, &'a [u8]), LoadError>
    requires { IsRising groups.now }
    ensures { Gives (λ x. (x.0, x.1.now)) result (group_after groups.now bytes.now) }
{
    let (group, rest) = take_short(bytes)?;
    if !is_after(groups, group) {
        return Err(LoadError::Bad);
    }
    Ok((group, rest))
}

/// The numbers of groups, each once and the least first, behind their count.
#[tactic(auto, unfolding(crate::specs::Reading::groups_at))]
pub(crate) fn take_groups(alloc: Global, bytes: &[u8]) -> Result<(GroupList, &[u8]), LoadError>
    ensures { Gives (λ x. (x.0, x.1.now)) result (groups_at bytes.now) }
{
    let (count, mut rest) = take_number(bytes)?;
    let mut groups = Vec::new(alloc);
    for _ in 0..count {
        let (group, after) = take_group(groups.as_slice(), rest)?;
        groups.push(group)?;
        rest = after;
    }
    Ok((GroupList::from_vec(groups), rest))
}
