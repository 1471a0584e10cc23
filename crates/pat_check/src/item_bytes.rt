// The bytes that an item or `\R` may begin with.
ghost use Rattle.std.specs.Prelude.{◌≡◌, ℕ, ◌<◌, ◌||◌, ◌&&◌, ◌==◌, ◌∷◌, [], nat_le, true, All, length};
ghost use Rattle.byte_lanes.specs.Sets.{has_byte};
ghost use Rattle.byte_lanes.specs.Newlines.{newline_len};
ghost use Rattle.byte_lanes.specs.declared.line_end.EndKind.TheVariants.{Lf};
ghost use Rattle.uni_text.specs.Folding as unicode;
ghost use Rattle.pat_tree.specs.Newlines.{end_kind};
ghost use Rattle.pat_tree.specs.Rules.{class_in};
ghost use Rattle.char_sets.specs.Table.{IsTableOf};
ghost use Rattle.pat_check.specs.Starts.{FoldsIn, item_lead_in, char_taken, char_lead, is_first, break_lead_in};

use byte_lanes::ByteSet;
use char_sets::{ClassTable, add_range, both_cases};
use pat_tree::{Bsr, Item, Newline, Tree, newline_at};
use uni_text::fold;

/// The bytes that the characters begin with that an item takes. In UTF these are all bytes past ASCII, where the item
/// isn't one caseful character.
pub(crate) fn item_bytes(tree: &Tree, classes: &ClassTable, item: &Item) -> ByteSet
    requires table { IsTableOf tree.now classes.now }
    requires class { All (λ n. n < length classes.now) (class_in item.now) }
    ensures { (fold : ℕ → ℕ) → FoldsIn tree.now.options.utf fold → (b : ℕ) → b < 256
        → has_byte result b ≡ item_lead_in tree.now fold item.now b }
{
    let options = tree.options();
    let utf = options.utf;
    match *item {
        Item::Char { c, caseless: false } => one_byte(first_byte(c, utf)),
        Item::Char { c, caseless: true } => begun(cased_bytes(c, utf), utf),
        Item::AnyAll => begun(all_bytes(), utf),
        Item::NotNewline => begun(bytes_within_lines(options.newline, utf), utf),
        Item::Class(class) => begun(classes.bytes(class).copied(), utf),
    }
}

/// The bytes that characters begin with, by those that are taken as characters.
fn begun(taken: ByteSet, utf: bool) -> ByteSet
    ensures { (b : ℕ) → b < 256 → has_byte result b ≡ (utf && nat_le 128 b || has_byte taken b) }
{
    let mut bytes = taken;
    if utf {
        add_range(&mut bytes, 128, 255);
    }
    bytes
}

fn all_bytes() -> ByteSet
    ensures { (b : ℕ) → b < 256 → has_byte result b ≡ true }
{
    let mut bytes = ByteSet::empty();
    add_range(&mut bytes, 0, 255);
    bytes
}

/// The bytes that a character takes as characters, in any case.
fn cased_bytes(c: u32, utf: bool) -> ByteSet
    ensures { (folding : ℕ → ℕ) → FoldsIn utf folding → (b : ℕ) → b < 256
        → has_byte result b ≡ char_taken utf folding c true b }
{
    if !utf {
        return both_cases(c);
    }
    let mut bytes = ByteSet::empty();
    let folded = fold(c);
    for b in 0..256u32 {
        if folds_to(folded, b) {
            bytes.insert(b as u8);
        }
    }
    bytes
}

fn folds_to(folded: u32, b: u32) -> bool
    ensures { result ≡ (folded == unicode.fold b) }
{
    folded == fold(b)
}

/// The bytes that are no newline.
fn bytes_within_lines(newline: Newline, utf: bool) -> ByteSet
    ensures { (b : ℕ) → b < 256
        → has_byte result b ≡ (newline_len (end_kind newline utf) (b ∷ []) 0 == 0) }
{
    if let Newline::Lf = newline {
        return all_but_lf();
    }
    let mut bytes = ByteSet::empty();
    for b in 0..256u32 {
        if newline_at(&[b as u8], 0, newline, utf) == 0 {
            bytes.insert(b as u8);
        }
    }
    bytes
}

/// The bytes that are no newline where LF is, as it mostly is.
fn all_but_lf() -> ByteSet
    ensures { (b : ℕ) → b < 256 → has_byte result b ≡ (newline_len Lf (b ∷ []) 0 == 0) }
{
    let mut bytes = ByteSet::empty();
    add_range(&mut bytes, 0, b'\n' - 1);
    add_range(&mut bytes, b'\n' + 1, 255);
    bytes
}

/// The set of this byte alone, where there is one.
fn one_byte(byte: Option<u8>) -> ByteSet
    ensures { (b : ℕ) → has_byte result b ≡ is_first byte b }
{
    let mut bytes = ByteSet::empty();
    if let Some(byte) = byte {
        bytes.insert(byte);
    }
    bytes
}

/// The first byte of a character's encoding, where it has one.
fn first_byte(c: u32, utf: bool) -> Option<u8>
    ensures { (b : ℕ) → is_first result b ≡ char_lead utf c b }
{
    if !utf {
        return if c < 256 { Some(c as u8) } else { None };
    }
    if c < 0x80 {
        return Some(c as u8);
    }
    if c < 0x800 {
        return Some((0xC0 + c / 64) as u8);
    }
    if c < 0xD800 {
        return Some((0xE0 + c / 4096) as u8);
    }
    // a surrogate
    if c < 0xE000 {
        return None;
    }
    if c < 0x10000 {
        return Some((0xE0 + c / 4096) as u8);
    }
    if c < 0x110000 {
        return Some((0xF0 + c / 262144) as u8);
    }
    None
}

/// The bytes that `\R` may begin with.
pub(crate) fn break_bytes(bsr: Bsr, utf: bool) -> ByteSet
    ensures { (b : ℕ) → b < 256 → has_byte result b ≡ break_lead_in bsr utf b }
{
    let mut bytes = ByteSet::empty();
    bytes.insert(b'\r');
    bytes.insert(b'\n');
    if let Bsr::Unicode = bsr {
        bytes.insert(0x0B);
        bytes.insert(0x0C);
        // U+0085, and in UTF also U+2028 and U+2029
        if utf {
            bytes.insert(0xC2);
            bytes.insert(0xE2);
        } else {
            bytes.insert(0x85);
        }
    }
    bytes
}
