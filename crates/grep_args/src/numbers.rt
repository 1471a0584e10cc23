//! The numbers among the values.
ghost use Rattle.std.specs.Prelude.{◌≡◌, ◌*◌, ◌≤◌, length, take_while, IfSome};
ghost use Rattle.std.specs.Char.{is_ascii_digit};
ghost use Rattle.std.specs.Str.Parse.{digits_value};
ghost use Rattle.byte_lanes.specs.Digits.{within_u32};
ghost use Rattle.grep_args.specs.Numbers.{number_of, unit_of};

/// The number that a text is: decimal digits with a `K` (1,024) or an `M` (1,048,576) after them or nothing, at most
/// 4,294,967,295 (pcre2grep, "OPTIONS").
pub fn number(text: &[u8]) -> Option<u32>
    ensures { result ≡ number_of text.now }
{
    let count = digits(text);
    if count == 0 {
        return None;
    }
    match unit(&text[count..]) {
        Some(unit) => scaled(&text[..count], unit),
        None => None,
    }
}

/// How many decimal digits a text begins with.
fn digits(text: &[u8]) -> usize
    ensures { result ≡ length (take_while is_ascii_digit text.now) }
{
    text.iter().take_while(|b| b.is_ascii_digit()).count()
}

/// So many units as decimal digits say, unless they are too many.
#[tactic(auto, using(crate::proofs::Scaled::many_are_too_many, crate::proofs::Scaled::few_are_scaled))]
fn scaled(digits: &[u8], unit: u64) -> Option<u32>
    requires least { 1 ≤ unit }
    requires greatest { unit ≤ 1048576 }
    ensures { result ≡ within_u32 (digits_value 10 digits.now * unit) }
{
    let value = byte_lanes::number(digits, 10)?;
    u32::try_from(u64::from(value) * unit).ok()
}

/// What stands for a thousand or a million after the digits, or 1 where nothing does.
fn unit(text: &[u8]) -> Option<u64>
    ensures unit { result ≡ unit_of text.now }
    ensures least { IfSome result (λ u. 1 ≤ u) }
    ensures greatest { IfSome result (λ u. u ≤ 1048576) }
{
    match text {
        b"" => Some(1),
        b"K" => Some(1024),
        b"M" => Some(1_048_576),
        _ => None,
    }
}
