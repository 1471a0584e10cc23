// The bytes that a class takes, by its runs and sets.
ghost use Rattle.std.specs.Prelude.{◌≡◌, ℕ, ◌<◌, ◌||◌, ◌==◌, true, false, not};
ghost use Rattle.std.specs.Int.{is_in_range};
ghost use Rattle.std.specs.List.{list_any};
ghost use Rattle.byte_lanes.specs.Sets.{has_byte};
ghost use Rattle.pat_tree.specs.declared.nodes.SetName.TheVariants.{Digit, Space, Word};
ghost use Rattle.uni_text.specs.Ascii.{ascii_fold};
ghost use Rattle.uni_text.specs.Properties.{has_prop, prop_by_number};
ghost use Rattle.char_sets.specs.Named.{set_in};
ghost use Rattle.char_sets.specs.Runs.{runs_have};
ghost use Rattle.char_sets.specs.Sets.{property_has, set_has};
ghost use Rattle.char_sets.specs.Table as spec;

use crate::named::{NamedSet, is_in_set};
use crate::runs::Run;
use crate::sets::is_letter;
use byte_lanes::ByteSet;
use pat_tree::SetName;
use uni_text::{Prop, has_prop};

/// The bytes that a class of these runs and sets takes.
pub(crate) fn bytes_of(runs: &[Run], sets: &[NamedSet], negated: bool) -> ByteSet
    ensures { (k : ℕ) → k < 256
        → has_byte result k ≡ spec.turned_if negated (spec.inside runs.now sets.now k) }
{
    let mut bytes = bytes_of_runs(runs);
    bytes.add(&bytes_of_sets(sets));
    turned_if(negated, bytes)
}

fn bytes_of_runs(runs: &[Run]) -> ByteSet
    ensures { (k : ℕ) → k < 256 → has_byte result k ≡ runs_have runs.now k }
{
    let mut bytes = ByteSet::empty();
    for run in runs {
        if run.from < 256 {
            add_range(&mut bytes, run.from as u8, run.to.min(255) as u8);
        }
    }
    bytes
}

fn bytes_of_sets(sets: &[NamedSet]) -> ByteSet
    ensures { (k : ℕ) → k < 256
        → has_byte result k ≡ list_any (λ set. set_in set k) sets.now }
{
    let mut bytes = ByteSet::empty();
    for set in sets {
        bytes.add(&bytes_of_set(set));
    }
    bytes
}

/// The bytes of a set. Those of the sets that most patterns name are known; of any other each byte is asked.
fn bytes_of_set(named: &NamedSet) -> ByteSet
    ensures { (k : ℕ) → k < 256 → has_byte result k ≡ set_in named.now k }
{
    if let SetName::Property(number) = named.set {
        return turned_if(named.reversed, bytes_with_number(number));
    }
    if named.ucp {
        return bytes_with_ucp(named);
    }
    match named.set {
        SetName::Digit => turned_if(named.reversed, digits()),
        SetName::Space => turned_if(named.reversed, spaces()),
        SetName::Word => turned_if(named.reversed, word_bytes()),
        _ => tested_bytes(named),
    }
}

fn digits() -> ByteSet
    ensures { (k : ℕ) → has_byte result k ≡ set_has false Digit k }
{
    let mut bytes = ByteSet::empty();
    add_range(&mut bytes, b'0', b'9');
    bytes
}

fn spaces() -> ByteSet
    ensures { (k : ℕ) → has_byte result k ≡ set_has false Space k }
{
    let mut bytes = ByteSet::empty();
    add_range(&mut bytes, b'\t', b'\r');
    bytes.insert(b' ');
    bytes
}

fn word_bytes() -> ByteSet
    ensures { (k : ℕ) → has_byte result k ≡ set_has false Word k }
{
    let mut bytes = digits();
    add_range(&mut bytes, b'A', b'Z');
    bytes.insert(b'_');
    add_range(&mut bytes, b'a', b'z');
    bytes
}

/// The bytes with the property of a number, which is looked up once.
fn bytes_with_number(number: u16) -> ByteSet
    ensures { (k : ℕ) → k < 256 → has_byte result k ≡ property_has (prop_by_number number) k }
{
    match Prop::by_number(number) {
        Some(p) => bytes_with(p),
        None => ByteSet::empty(),
    }
}

fn bytes_with(p: Prop) -> ByteSet
    ensures { (k : ℕ) → k < 256 → has_byte result k ≡ has_prop p k }
{
    let mut bytes = ByteSet::empty();
    for b in 0..256u32 {
        if has_prop(p, b) {
            bytes.insert(b as u8);
        }
    }
    bytes
}

/// The same with UCP.
fn bytes_with_ucp(named: &NamedSet) -> ByteSet
    requires { named.now.ucp ≡ true }
    ensures { (k : ℕ) → k < 256 → has_byte result k ≡ set_in named.now k }
{
    match named.set {
        SetName::Digit => turned_if(named.reversed, unicode_digits()),
        SetName::Space => turned_if(named.reversed, unicode_spaces()),
        SetName::Word => turned_if(named.reversed, unicode_words()),
        _ => tested_bytes(named),
    }
}

/// Past ASCII no byte is a decimal digit.
fn unicode_digits() -> ByteSet
    ensures { (k : ℕ) → k < 256 → has_byte result k ≡ set_has true Digit k }
{
    digits()
}

/// Past ASCII, NEL and the space without a break.
fn unicode_spaces() -> ByteSet
    ensures { (k : ℕ) → k < 256 → has_byte result k ≡ set_has true Space k }
{
    let mut bytes = spaces();
    bytes.insert(0x85);
    bytes.insert(0xA0);
    bytes
}

/// Past ASCII, the letters, and numbers that are raised or are fractions.
fn unicode_words() -> ByteSet
    ensures { (k : ℕ) → k < 256 → has_byte result k ≡ set_has true Word k }
{
    let mut bytes = word_bytes();
    bytes.insert(0xAA);
    add_range(&mut bytes, 0xB2, 0xB3);
    bytes.insert(0xB5);
    add_range(&mut bytes, 0xB9, 0xBA);
    add_range(&mut bytes, 0xBC, 0xBE);
    add_range(&mut bytes, 0xC0, 0xD6);
    add_range(&mut bytes, 0xD8, 0xF6);
    add_range(&mut bytes, 0xF8, 0xFF);
    bytes
}

/// The bytes that are found in a set one by one.
fn tested_bytes(named: &NamedSet) -> ByteSet
    ensures { (k : ℕ) → k < 256 → has_byte result k ≡ set_in named.now k }
{
    let mut bytes = ByteSet::empty();
    for b in 0..256u32 {
        if is_in_set(named, b as u64) {
            bytes.insert(b as u8);
        }
    }
    bytes
}

/// A set, or the bytes that it lacks.
fn turned_if(turned: bool, bytes: ByteSet) -> ByteSet
    ensures { (k : ℕ) → k < 256
        → has_byte result k ≡ spec.turned_if turned (has_byte bytes k) }
{
    if turned { others(&bytes) } else { bytes }
}

fn others(bytes: &ByteSet) -> ByteSet
    ensures { (k : ℕ) → k < 256 → has_byte result k ≡ not (has_byte bytes.now k) }
{
    let mut rest = ByteSet::empty();
    for b in 0..256u32 {
        if !bytes.has(b as u8) {
            rest.insert(b as u8);
        }
    }
    rest
}

/// Adds the bytes from the first to the last; none where these are turned round.
pub fn add_range(bytes: &mut ByteSet, first: u8, last: u8)
    ensures { (k : ℕ) → has_byte bytes.new k ≡ (has_byte bytes.old k || is_in_range first last k) }
{
    for b in first as u32..last as u32 + 1 {
        bytes.insert(b as u8);
    }
}

/// The bytes with the folding of a character outside UTF, where ASCII's letters alone have two cases (pcre2api,
/// "Option bits for pcre2_compile()", PCRE2_CASELESS).
pub fn both_cases(c: u32) -> ByteSet
    ensures { (b : ℕ) → b < 256 → has_byte result b ≡ (ascii_fold c == ascii_fold b) }
{
    let mut bytes = ByteSet::empty();
    if is_letter(c as u64) {
        let small = (c % 32 + 96) as u8;
        bytes.insert(small);
        bytes.insert(small - 32);
    } else if c < 256 {
        bytes.insert(c as u8);
    }
    bytes
}
