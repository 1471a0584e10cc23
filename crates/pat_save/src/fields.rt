//! The fields of an image: numbers with the least byte first, bools, options and short texts.
ghost use Rattle.std.specs.Prelude.{◌≡◌, ◌≤◌, ◌<◌, ◌^◌, ◌++◌, ◌∷◌, [], length, IfSome, OnOk};
ghost use Rattle.pat_tree.specs.Rules.{number_in};
ghost use Rattle.pat_save.specs.Checked.{IsRising};
ghost use Rattle.pat_save.specs.Fields.{counted, two_bytes, four_bytes, bit, number_of, optional, short_text};
ghost use Rattle.pat_save.specs.Sized.{AreShort};

use pat_tree::Memory;

/// A bool as a number.
pub(crate) fn bit(flag: bool) -> u8
    ensures { result ≡ bit flag }
{
    if flag { 1 } else { 0 }
}

/// The number with these bits, the least first.
pub(crate) fn number_of(flags: &[bool]) -> u32
    requires { length flags.now ≤ 31 }
    ensures { result ≡ number_of flags.now }
{
    let mut number: u32 = 0;
    let mut i = flags.len();
    while i > 0 {
        i -= 1;
        number = 2 * number + u32::from(bit(flags[i]));
    }
    number
}

/// The number with two bits.
pub(crate) fn two_bits(low: bool, high: bool) -> u8
    ensures { result ≡ number_of (low ∷ high ∷ []) }
{
    bit(low) + 2 * bit(high)
}

/// Adds a byte.
pub(crate) fn put_byte(out: &mut Vec<u8>, byte: u8) -> Result<(), Memory>
    ensures { OnOk result (out.new.items ≡ out.old.items ++ byte ∷ []) }
{
    out.push(byte)?;
    Ok(())
}

/// Adds a number of two bytes.
pub(crate) fn put_short(out: &mut Vec<u8>, number: u16) -> Result<(), Memory>
    ensures { OnOk result (out.new.items ≡ out.old.items ++ two_bytes number) }
{
    out.extend_from_slice(&number.to_le_bytes())?;
    Ok(())
}

/// Adds a number of four bytes.
pub(crate) fn put_number(out: &mut Vec<u8>, number: u32) -> Result<(), Memory>
    ensures { OnOk result (out.new.items ≡ out.old.items ++ four_bytes number) }
{
    out.extend_from_slice(&number.to_le_bytes())?;
    Ok(())
}

/// Adds 0, or 1 and the number.
pub(crate) fn put_optional_short(out: &mut Vec<u8>, number: Option<u16>) -> Result<(), Memory>
    ensures bytes { OnOk result (out.new.items ≡ out.old.items ++ optional two_bytes number) }
    ensures short { AreShort (number_in number) }
{
    match number {
        None => put_byte(out, 0),
        Some(number) => {
            put_byte(out, 1)?;
            put_short(out, number)
        }
    }
}

/// Adds 0, or 1 and the number.
pub(crate) fn put_optional_number(out: &mut Vec<u8>, number: Option<u32>) -> Result<(), Memory>
    ensures bytes { OnOk result (out.new.items ≡ out.old.items ++ optional four_bytes number) }
    ensures range { IfSome number (λ n. n < 2 ^ 32) }
{
    match number {
        None => put_byte(out, 0),
        Some(number) => {
            put_byte(out, 1)?;
            put_number(out, number)
        }
    }
}

/// Adds a text of at most 255 bytes, behind its length in one byte.
pub(crate) fn put_short_text(out: &mut Vec<u8>, text: &[u8]) -> Result<(), Memory>
    requires { length text.now ≤ 255 }
    ensures { OnOk result (out.new.items ≡ out.old.items ++ short_text text.now) }
{
    put_byte(out, text.len() as u8)?;
    out.extend_from_slice(text)?;
    Ok(())
}

/// Adds the numbers of groups, behind their count.
pub(crate) fn put_groups(out: &mut Vec<u8>, groups: &[u16]) -> Result<(), Memory>
    requires { IsRising groups.now }
    ensures bytes { OnOk result (out.new.items ≡ out.old.items ++ counted two_bytes groups.now) }
    ensures short { OnOk result (AreShort groups.now) }
{
    put_number(out, groups.len() as u32)?;
    for group in groups {
        put_short(out, *group)?;
    }
    Ok(())
}
