// The number that digits write.
ghost use Rattle.std.specs.Prelude.{◌≡◌, ◌+◌, ◌*◌, ◌≤◌};
ghost use Rattle.std.specs.Char.{digit_value};
ghost use Rattle.byte_lanes.specs.Digits.{number_of, within_u32};

/// The value of a digit or a letter in either case, 0 to 35, and 36 for any other byte.
pub fn digit_value(byte: u8) -> u32
    ensures { result ≡ digit_value byte }
{
    char::from(byte).to_digit(36).unwrap_or(36)
}

// A number with one more digit, unless it is past 4,294,967,295.
fn with_digit(number: u32, radix: u32, digit: u8) -> Option<u32>
    requires { radix ≤ 36 }
    ensures { result ≡ within_u32 (number * radix + digit_value digit) }
{
    let longer = u64::from(number) * u64::from(radix) + u64::from(digit_value(digit));
    match u32::try_from(longer) {
        Ok(number) => Some(number),
        Err(_) => None,
    }
}

/// The number that digits write in a radix of at most 36, with or without zeros before it. None exactly where it is
/// past 4,294,967,295; 0 without digits. The bytes are meant to be digits of the radix: one that isn't counts by its
/// `digit_value`.
pub fn number(digits: &[u8], radix: u32) -> Option<u32>
    requires some { 1 ≤ radix }
    requires few { radix ≤ 36 }
    ensures { result ≡ number_of radix digits.now }
{
    let mut number = 0;
    for digit in digits {
        match with_digit(number, radix, *digit) {
            Some(longer) => number = longer,
            None => return None,
        }
    }
    Some(number)
}
