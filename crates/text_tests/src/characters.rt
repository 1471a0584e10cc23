//! Characters, their properties and their foldings.
use crate::unicode::{BAD, FOLDINGS, GOOD, PROPERTIES, UNKNOWN, WRITTEN};
use std::alloc::Global;
use std::test::Fail;
use uni_text::{BadUtf, Prop, char_at, char_before, check, fold, has_prop, is_word};

/// A text, a place in it, the character that begins there, and where that ends.
type Character = (&'static str, usize, u32, usize);

// The texts are the examples of RFC 3629, section 7, and the first and last characters of each length.
const CHARACTERS: &[Character] = &[
    ("A\u{2262}\u{391}.", 0, 0x41, 1),
    ("A\u{2262}\u{391}.", 1, 0x2262, 4),
    ("A\u{2262}\u{391}.", 4, 0x391, 6),
    ("A\u{2262}\u{391}.", 6, 0x2E, 7),
    ("\u{FEFF}\u{233B4}", 0, 0xFEFF, 3),
    ("\u{FEFF}\u{233B4}", 3, 0x233B4, 7),
    ("\u{0}\u{7F}\u{80}\u{7FF}\u{800}", 0, 0, 1),
    ("\u{0}\u{7F}\u{80}\u{7FF}\u{800}", 1, 0x7F, 2),
    ("\u{0}\u{7F}\u{80}\u{7FF}\u{800}", 2, 0x80, 4),
    ("\u{0}\u{7F}\u{80}\u{7FF}\u{800}", 4, 0x7FF, 6),
    ("\u{0}\u{7F}\u{80}\u{7FF}\u{800}", 6, 0x800, 9),
    ("\u{D7FF}\u{E000}\u{FFFF}\u{10000}\u{10FFFF}", 0, 0xD7FF, 3),
    ("\u{D7FF}\u{E000}\u{FFFF}\u{10000}\u{10FFFF}", 3, 0xE000, 6),
    ("\u{D7FF}\u{E000}\u{FFFF}\u{10000}\u{10FFFF}", 6, 0xFFFF, 9),
    (
        "\u{D7FF}\u{E000}\u{FFFF}\u{10000}\u{10FFFF}",
        9,
        0x1_0000,
        13,
    ),
    (
        "\u{D7FF}\u{E000}\u{FFFF}\u{10000}\u{10FFFF}",
        13,
        0x10_FFFF,
        17,
    ),
];

#[test]
fn characters_of_each_length_are_read_from_both_ends(rt: HostRuntime) {
    for (text, at, c, next) in CHARACTERS {
        let (at, next) = (*at, *next);
        assert!(rt; at < next && next <= text.len());
        assert!(rt; text.is_char_boundary(at) && text.is_char_boundary(next));
        assert!(rt;
            char_at(text.as_bytes(), at, true) == (*c, next),
            "at {at} in {text}"
        );
        assert!(rt;
            char_before(text.as_bytes(), next, true) == (*c, at),
            "before {next} in {text}"
        );
    }
}

#[test]
fn without_utf_a_character_is_a_byte(rt: HostRuntime) {
    for byte in 0..=255u8 {
        let bytes = [0xE2, byte, 0x89];
        assert!(rt; char_at(&bytes, 1, false) == (byte as u32, 2));
        assert!(rt; char_before(&bytes, 2, false) == (byte as u32, 1));
    }
}

// Whether a number is a word character without UCP and with it, by the categories of Python's unicodedata at the
// latter.
const WORDS: &[(u32, bool, bool)] = &[
    (0x2F, false, false),
    (0x30, true, true),
    (0x40, false, false),
    (0x5F, true, true),
    (0x7A, true, true),
    (0x7B, false, false),
    (0xAA, false, true),
    (0xB2, false, true),
    (0xD7, false, false),
    (0x301, false, true),
    (0x660, false, true),
    (0x903, false, false),
    (0x203F, false, true),
    (0x20DD, false, false),
    (0x2160, false, true),
    (0x4E00, false, true),
    (0xD800, false, false),
    (0x11_0000, false, false),
    (u32::MAX, false, false),
];

const WORD_BYTES: &[u8] = b"0123456789ABCDEFGHIJKLMNOPQRSTUVWXYZ_abcdefghijklmnopqrstuvwxyz";

#[test]
fn word_characters_are_letters_digits_and_the_underscore(rt: HostRuntime) {
    for byte in 0..=255u8 {
        assert!(rt;
            is_word(byte as u32, false) == WORD_BYTES.contains(&byte),
            "at {byte}"
        );
    }
}

#[test]
fn word_characters_differ_with_ucp(rt: HostRuntime) {
    for (c, ascii, unicode) in WORDS {
        assert!(rt;
            is_word(*c, false) == *ascii && is_word(*c, true) == *unicode,
            "at {c}"
        );
    }
}

// Whether there is a property of this name, which one number has and another hasn't, and no number that is no
// character.
fn is_property(name: &str, member: u32, other: u32) -> bool {
    let Some(p) = Prop::by_name(name.as_bytes()) else {
        return false;
    };
    let is_member = has_prop(p, member) && !has_prop(p, other);
    let is_surrogate = has_prop(p, 0xD800) || has_prop(p, 0xDFFF);
    let is_beyond = has_prop(p, 0x11_0000) || has_prop(p, u32::MAX);
    is_member && !is_surrogate && !is_beyond && Prop::by_number(p.number()) == Some(p)
}

// Whether a line of `PROPERTIES` tells a property.
fn tells_property(line: &str) -> Result<bool, Fail> {
    let (name, numbers) = line.split_once(' ').ok_or("no name")?;
    let (member, other) = numbers.split_once(' ').ok_or("no number")?;
    let member = u32::from_str_radix(member, 16)?;
    Ok(is_property(name, member, u32::from_str_radix(other, 16)?))
}

#[test]
fn each_property_has_its_name_and_number(rt: HostRuntime) -> Result<(), Fail> {
    let mut count = 0u32;
    for line in PROPERTIES.lines() {
        assert!(rt; tells_property(line)?, "{line}");
        count = count.saturating_add(1);
    }
    assert!(rt; count == 219);
    Ok(())
}

#[test]
fn there_are_as_many_numbers_as_properties(rt: HostRuntime) {
    for n in 0..221 {
        assert!(rt; Prop::by_number(n).map(|p| p.number()) == Some(n));
    }
    let none = [221, 222, u16::MAX];
    assert!(rt; none.iter().all(|n| Prop::by_number(*n).is_none()));
}

#[test]
fn names_are_known_however_they_are_written(rt: HostRuntime) {
    for (written, name) in WRITTEN {
        let p = Prop::by_name(written.as_bytes());
        assert!(rt;
            p.is_some() && p == Prop::by_name(name.as_bytes()),
            "{written} is {name}"
        );
    }
    for name in UNKNOWN {
        assert!(rt; Prop::by_name(name).is_none());
    }
}

#[test]
fn letters_fold_as_unicode_says(rt: HostRuntime) {
    for (c, folded) in FOLDINGS {
        assert!(rt; fold(*c) == *folded, "at {c}");
    }
}

// Whether bytes are refused at this place of theirs after so many characters of two bytes.
fn is_refused_after(alloc: Global, bytes: &[u8], at: usize, len: u8) -> Result<bool, Fail> {
    let mut text = Vec::new(alloc);
    for _ in 0..len {
        text.extend_from_slice("\u{E9}".as_bytes())?;
    }
    text.extend_from_slice(bytes)?;
    let at = at.saturating_add(2 * usize::from(len));
    Ok(check(&text) == Err(BadUtf { at }))
}

// Some of these lengths go past the blocks that are read at once.
const LENGTHS: &[u8] = &[0, 1, 30, 63, 64, 65, 128];

#[test]
fn bad_text_is_refused_at_its_place(rt: HostRuntime) -> Result<(), Fail> {
    for (bytes, at) in BAD {
        for len in LENGTHS {
            assert!(rt;
                is_refused_after(rt.alloc(), bytes, *at, *len)?,
                "{bytes:?} after {len}"
            );
        }
    }
    Ok(())
}

#[test]
fn good_text_is_taken(rt: HostRuntime) {
    for bytes in GOOD {
        assert!(rt; check(bytes).is_ok());
    }
}
