//! The byte that every match begins with.
ghost use Rattle.std.specs.Prelude.{◌≡◌, ◌<◌, ℕ, IfSome, None, true};
ghost use Rattle.byte_lanes.specs.Sets.{has_byte};
ghost use Rattle.pcre2_api.specs.Leads.{IsAlone, IsFirstByte};

use crate::code::Code;
use byte_lanes::ByteSet;

/// Whether a byte is the only member.
fn is_alone(set: &ByteSet, byte: u8) -> bool
    ensures alone { result ≡ true → IsAlone (has_byte set.now) byte }
    ensures others { IsAlone (has_byte set.now) byte → result ≡ true }
{
    for other in 0..=255u8 {
        if set.has(other) != (other == byte) {
            return false;
        }
    }
    true
}

/// The only member, where there is one alone.
fn only_byte(set: &ByteSet) -> Option<u8>
    ensures byte { IfSome result (IsAlone (has_byte set.now)) }
    ensures none { result ≡ None → (b : ℕ) → b < 256 → ¬ IsAlone (has_byte set.now) b }
{
    for byte in 0..=255u8 {
        if set.has(byte) {
            return if is_alone(set, byte) {
                Some(byte)
            } else {
                None
            };
        }
    }
    None
}

impl Code {
    /// The byte that every match begins with, where it is known that there is one (pcre2api,
    /// "Information about a compiled pattern", PCRE2_INFO_FIRSTCODEUNIT). Takes no memory.
    pub fn first_byte(&self) -> Option<u8>
        ensures byte { IfSome result (IsFirstByte self.now) }
        ensures none { result ≡ None → (b : ℕ) → b < 256 → ¬ IsFirstByte self.now b }
    {
        match &self.ready().facts.lead {
            Some(set) => only_byte(set),
            None => None,
        }
    }
}
