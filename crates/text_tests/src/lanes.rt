//! Searches over bytes, at lengths round those of vectors.
use byte_lanes::{
    ByteSet, EndKind, LineEnd, count_byte, digit_value, find_in_set, find_in_three_sets,
    find_in_two_sets, find_line_end, newline_at, number,
};

// Lengths just below, at and above the ends of vectors of 32 and of 64 bytes.
const LENGTHS: [usize; 14] = [1, 2, 31, 32, 33, 47, 63, 64, 65, 95, 96, 97, 128, 129];

// Whether each of `text`, but the last byte, is in one set, and that in another, by pairs of bytes next to each other
// and with one between, and by three in a row.
fn is_found_behind(text: &[u8], round: &ByteSet, set: &ByteSet) -> bool {
    let all = text.len();
    let next = if all < 2 { all } else { all - 2 };
    let with_one_between = if all < 3 { all } else { all - 3 };
    find_in_two_sets(text, 0, round, 1, set) == next
        && find_in_two_sets(text, 0, round, 2, set) == with_one_between
        && find_in_two_sets(text, all / 2, set, 1, round) == all
        && find_in_two_sets(text, all, round, 1, set) == all
        && find_in_three_sets(text, 0, round, round, set) == with_one_between
        && find_in_three_sets(text, all / 2, round, set, round) == all
        && find_in_three_sets(text, all, round, round, set) == all
}

// The same of a set of one byte, of two, of three and of more, where the others stand nowhere in `text`.
fn is_found_by_sets(text: &[u8], b: u8) -> bool {
    let Some(last) = text.len().checked_sub(1) else {
        return false;
    };
    let mut round = ByteSet::empty();
    round.insert(b ^ 1);
    let mut set = ByteSet::empty();
    for other in [b, b ^ 2, b ^ 4, b ^ 8] {
        set.insert(other);
        if find_in_set(text, 0, &set) != last || !is_found_behind(text, &round, &set) {
            return false;
        }
    }
    true
}

// Whether `text`, which has `b` at its last place alone, gives that place from each of a few places on, and its
// end where another byte is asked for.
fn is_found_last(text: &[u8], b: u8) -> bool {
    let mut set = ByteSet::empty();
    set.insert(b);
    let mut other = ByteSet::empty();
    other.insert(b ^ 128);
    let all = text.len();
    let Some(last) = all.checked_sub(1) else {
        return false;
    };
    find_in_set(text, 0, &set) == last
        && find_in_set(text, last / 2, &set) == last
        && find_in_set(text, last, &set) == last
        && find_in_set(text, all, &set) == all
        && find_in_set(text, 0, &other) == all
        && count_byte(text, b) == 1
        && count_byte(text, b ^ 128) == 0
}

// Whether a byte is found and counted after others of a length, up to 129 with it.
fn is_found(b: u8, length: usize) -> bool {
    let mut text = [b ^ 1; 129];
    if length == 0 || length > text.len() {
        return false;
    }
    text[length - 1] = b;
    is_found_last(&text[..length], b) && is_found_by_sets(&text[..length], b)
}

#[test]
fn each_byte_is_found_and_counted_at_each_length(rt: HostRuntime) {
    for b in 0..=255u8 {
        for length in &LENGTHS {
            assert!(rt; is_found(b, *length), "{b}");
        }
    }
}

#[test]
fn sets_hold_what_was_inserted(rt: HostRuntime) {
    let mut set = ByteSet::empty();
    set.insert(b'x');
    set.insert(200);
    set.insert(b'x');
    for b in 0..=255u8 {
        assert!(rt; set.has(b) == (b == 120 || b == 200));
    }
    let text = b"abc\xc8x";
    assert!(rt; find_in_set(text, 0, &set) == 3 && find_in_set(text, 4, &set) == 4);
    assert!(rt; count_byte(b"abcabca", b'a') == 3);
}

// Whether the first newline from that place on stands at `at` and has `len` bytes.
fn ends_line(text: &[u8], from: usize, kind: EndKind, at: usize, len: usize) -> bool {
    from <= text.len() && find_line_end(text, from, kind) == LineEnd { at, len }
}

const TEXT: &[u8] = b"a\rb\r\nc\xe2\x80\xa8d\x00e\xc2\x85\x0b";

/// A convention, a place, where the first newline from there on stands, and how many bytes it has.
type End = (EndKind, usize, usize, usize);

const ENDS: &[End] = &[
    (EndKind::Cr, 0, 1, 1),
    (EndKind::Lf, 0, 4, 1),
    (EndKind::CrLf, 0, 3, 2),
    (EndKind::AnyCrLf, 0, 1, 1),
    (EndKind::AnyCrLf, 2, 3, 2),
    (EndKind::AnyCrLf, 4, 4, 1),
    (EndKind::Any, 5, 13, 1),
    (EndKind::Any, 14, 14, 1),
    (EndKind::AnyUtf, 5, 6, 3),
    (EndKind::AnyUtf, 7, 12, 2),
    (EndKind::AnyUtf, 13, 14, 1),
    (EndKind::Nul, 0, 10, 1),
    (EndKind::Lf, 5, 15, 0),
    (EndKind::CrLf, 15, 15, 0),
];

#[test]
fn line_ends_of_each_kind(rt: HostRuntime) {
    for (kind, from, at, len) in ENDS {
        assert!(rt; ends_line(TEXT, *from, *kind, *at, *len));
    }
}

/// A convention, a place, how many bytes the newline there has, and whether CRLF is one of the convention's.
type Newline = (EndKind, usize, usize, bool);

const NEWLINES: &[Newline] = &[
    (EndKind::AnyCrLf, 1, 2, true),
    (EndKind::AnyCrLf, 2, 1, true),
    (EndKind::CrLf, 2, 0, true),
    (EndKind::Any, 3, 1, true),
    (EndKind::AnyUtf, 3, 0, true),
    (EndKind::Lf, 2, 1, false),
    (EndKind::Cr, 2, 0, false),
    (EndKind::Nul, 4, 1, false),
    (EndKind::Nul, 5, 0, false),
];

#[test]
fn newlines_at_a_place(rt: HostRuntime) {
    for (kind, at, len, has_crlf) in NEWLINES {
        assert!(rt; newline_at(b"a\r\n\x85\0", *at, *kind) == *len);
        assert!(rt; kind.has_crlf() == *has_crlf);
    }
}

/// Digits, their radix, and the number that they write.
type Number = (&'static [u8], u32, Option<u32>);

const NUMBERS: &[Number] = &[
    (b"", 10, Some(0)),
    (b"0042", 10, Some(42)),
    (b"4294967295", 10, Some(u32::MAX)),
    (b"4294967296", 10, None),
    (b"99999999999999999999999", 10, None),
    (b"fF", 16, Some(255)),
    (b"37777777777", 8, Some(u32::MAX)),
    (b"40000000000", 8, None),
];

#[test]
fn digits_write_a_number(rt: HostRuntime) {
    for (digits, radix, value) in NUMBERS {
        assert!(rt; 1 <= *radix && *radix <= 36);
        assert!(rt; number(digits, *radix) == *value);
    }
    assert!(rt; digit_value(b'9') == 9 && digit_value(b'Z') == 35 && digit_value(b' ') == 36);
}

// Whether a newline of one byte is found at its place after other bytes of a length, and none after it.
fn is_line_end(kind: EndKind, newline: u8, length: usize) -> bool {
    let mut text = [226; 129];
    if length == 0 || length > text.len() {
        return false;
    }
    text[length - 1] = newline;
    let at = length - 1;
    let found = find_line_end(&text[..length], 0, kind);
    let after = find_line_end(&text[..length], length, kind);
    found == (LineEnd { at, len: 1 }) && after == (LineEnd { at: length, len: 0 })
}

const KINDS: &[(EndKind, u8)] = &[
    (EndKind::AnyCrLf, 13),
    (EndKind::Any, 133),
    (EndKind::AnyUtf, 12),
    (EndKind::Nul, 0),
];

#[test]
fn line_ends_at_each_length(rt: HostRuntime) {
    for (kind, newline) in KINDS {
        for length in &LENGTHS {
            assert!(rt; is_line_end(*kind, *newline, *length));
        }
    }
}
