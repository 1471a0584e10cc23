//! The texts of the faults of patterns.
ghost use Rattle.std.specs.Prelude.{◌≡◌, pos};
ghost use Rattle.pcre2_errors.specs.FaultTexts.{fault_text};

// The text of a fault that isn't below 0, or the empty one where there is none.
fn text_of(number: u32) -> &'static [u8]
    ensures { result.now ≡ fault_text (pos number) }
{
    match number {
        101 => b"backslash at end of pattern",
        102 => b"bad character after \\c",
        103 => b"unrecognized character after backslash",
        104 => b"numbers out of order in quantifier",
        105 => b"number too big in quantifier",
        106 => b"missing terminating ] for character class",
        107 => b"escape not valid in a class",
        108 => b"range out of order in character class",
        109 => b"quantifier does not follow a repeatable item",
        111 => b"unrecognized character after (? or (?-",
        112 => b"POSIX class outside a class",
        113 => b"collating element",
        114 => b"missing closing parenthesis",
        115 => b"reference to non-existent group",
        118 => b"missing ) after comment",
        119 => b"parentheses too deeply nested",
        120 => b"pattern too large",
        122 => b"unmatched closing parenthesis",
        125 => b"lookbehind length is not limited",
        126 => b"relative number zero",
        127 => b"more than two branches in a condition",
        128 => b"malformed condition",
        130 => b"unknown POSIX class name",
        134 => b"character code too large",
        135 => b"bad digits in \\x{} or \\o{}",
        138 => b"callout number greater than 255",
        139 => b"malformed callout",
        142 => b"malformed group name",
        143 => b"two groups have the same name",
        144 => b"group name empty or begins with a digit",
        146 => b"malformed property",
        147 => b"unknown property",
        148 => b"group name too long",
        150 => b"invalid range in class",
        154 => b"DEFINE with more than one branch",
        160 => b"unknown or malformed verb",
        161 => b"group number too big, or too many groups",
        165 => b"different names for one group number",
        166 => b"MARK needs a name",
        169 => b"malformed \\g or \\k",
        173 => b"surrogate code",
        176 => b"verb name too long",
        187 => b"lookbehind too long",
        195 => b"not in this profile",
        199 => b"\\K in a lookaround",
        _ => b"",
    }
}

/// What a fault of a pattern means, by its number (pcre2api, "Error codes from pcre2_compile()"). One that is unknown
/// has the empty text.
pub fn fault_text(number: i32) -> &'static [u8]
    ensures { result.now ≡ fault_text number }
{
    if number < 0 {
        return b"invalid UTF-8 in pattern";
    }
    text_of(number.unsigned_abs())
}
