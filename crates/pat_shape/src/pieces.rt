//! Shapes of what has no children: characters, simple assertions, any text; and rounds of one.
ghost use Rattle.std.specs.Prelude.{◌≡◌, ◌≢◌, ◌<◌, ◌≤◌, ℕ, Bool, All, IfOk, IfSome, IsTrue, Some, if◌then◌else◌};
ghost use Rattle.std.specs.Prelude.{length, true};
ghost use Rattle.std.specs.Char.{IsScalar};
ghost use Rattle.pat_tree.specs.declared.nodes.Item.TheVariants.{Char};
ghost use Rattle.pat_tree.specs.Parts.{TreeParts};
ghost use Rattle.pat_tree.specs.Rules.{class_in};
ghost use Rattle.char_sets.specs.Sets.{class_has};
ghost use Rattle.char_sets.specs.Table.{IsTableOf};
ghost use Rattle.regex_class.specs.Ranges.{in_range, in_ranges};
ghost use Rattle.regex_hir.specs.Re as re;
ghost use Rattle.regex_hir.specs.Re.{empty};
ghost use Rattle.regex_hir.specs.Meaning.{meaning};
ghost use Rattle.pat_tree.specs.declared.options.Newline.TheVariants.{Lf};
ghost use Rattle.pat_shape.specs.IsShape.{AreRounds, HoldsBytes, HoldsOnly, IsAnchorShape, IsAnyText, IsItemShape};
ghost use Rattle.pat_shape.specs.IsShape.{IsUpTo, may_take};

use char_sets::{ClassTable, both_cases};
use pat_tree::{AnchorKind, Item, Memory, Newline, Tree};
use regex_class::Class;
use regex_hir::{Hir, Look};
use std::alloc::Global;
use uni_text::fold;

/// A repeat of more rounds is taken for one without a maximum, or with this minimum.
pub const MOST_ROUNDS: u16 = 200;

/// Whether the item may take the character of number `b`.
fn takes(classes: &ClassTable, utf: bool, item: &Item, b: u8) -> bool
    requires { All (λ n. n < length classes.now) (class_in item.now) }
    ensures { (tree : TreeParts) → IsTableOf tree classes.now
        → result ≡ may_take utf (class_has tree) item.now b }
{
    match item {
        Item::Char { c, caseless: false } => *c == b as u32,
        Item::Char { c, caseless: true } if utf => fold(*c) == fold(b as u32),
        Item::Char { c, caseless: true } => both_cases(*c).has(b),
        Item::Class(class) => classes.bytes(*class).has(b),
        _ => true,
    }
}

/// The same, without LF in a line.
fn is_wanted(classes: &ClassTable, utf: bool, lined: bool, item: &Item, b: u8) -> bool
    requires { All (λ n. n < length classes.now) (class_in item.now) }
    ensures only { (tree : TreeParts) → IsTableOf tree classes.now → result ≡ true
        → may_take utf (class_has tree) item.now b ≡ true }
    ensures no_lf { result ≡ true → IsTrue lined → b ≢ 10 }
    ensures all { (tree : TreeParts) → IsTableOf tree classes.now → (IsTrue lined → b ≢ 10)
        → may_take utf (class_has tree) item.now b ≡ true → result ≡ true }
{
    if lined && b == b'\n' {
        false
    } else {
        takes(classes, utf, item, b)
    }
}

/// The characters past the first 256 that the item may take in UTF.
fn past_bytes(item: &Item) -> (u32, u32)
    ensures { (has : ℕ → ℕ → Bool) → (c : ℕ) → 256 ≤ c → IsScalar c
        → may_take true has item.now c ≡ true → in_range result c ≡ true }
{
    match item {
        Item::Char { c, caseless } => past_char(*c, *caseless),
        _ => (256, 0x10_FFFF),
    }
}

/// The same of a character, in its case alone or in any.
fn past_char(c: u32, caseless: bool) -> (u32, u32)
    ensures { (has : ℕ → ℕ → Bool) → (b : ℕ) → 256 ≤ b → IsScalar b
        → may_take true has (Char c caseless) b ≡ true → in_range result b ≡ true }
{
    if !caseless {
        (c, c)
    } else if c < 128 {
        past_ascii(c)
    } else {
        (256, 0x10_FFFF)
    }
}

/// Characters past the first 256 with the folding of one of ASCII: those from the long s to the Kelvin sign.
fn past_ascii(c: u32) -> (u32, u32)
    requires { c < 128 }
    ensures { (b : ℕ) → 256 ≤ b → may_take true (λ n k. true) (Char c true) b ≡ true
        → in_range result b ≡ true }
{
    match c {
        75 | 83 | 107 | 115 => (0x17F, 0x212A),
        _ => (1, 0),
    }
}

/// From which character on, and up to before which, those below 256 lie that the item may take.
fn span_of(item: &Item) -> (u32, u32)
    ensures low { result.0 ≤ 256 }
    ensures high { result.1 ≤ 256 }
    ensures held { (utf : Bool) (has : ℕ → ℕ → Bool) (b : ℕ) → b < 256
        → may_take utf has item.now b ≡ true → (result.0 ≤ b) × (b < result.1) }
{
    match item {
        Item::Char { c, caseless: false } if *c < 256 => (*c, *c + 1),
        Item::Char {
            caseless: false,
            ..
        } => (0, 0),
        _ => (0, 256),
    }
}

/// The characters below 256 that the item may take.
fn byte_ranges(
    alloc: Global,
    tree: &Tree,
    classes: &ClassTable,
    lined: bool,
    item: &Item,
) -> Result<Vec<(u32, u32)>, Memory>
    requires table { IsTableOf tree.now classes.now }
    requires class { All (λ n. n < length classes.now) (class_in item.now) }
    ensures all { IfOk result (λ ranges. HoldsBytes tree.now lined item.now ranges.items) }
    ensures only { IfOk result (λ ranges. HoldsOnly tree.now lined item.now ranges.items) }
{
    let utf = tree.options().utf;
    let (from, to) = span_of(item);
    let mut ranges = Vec::new(alloc);
    for b in from..to {
        if is_wanted(classes, utf, lined, item, b as u8) {
            ranges.push((b, b))?;
        }
    }
    Ok(ranges)
}

/// One character of an item.
pub fn item_shape(
    alloc: Global,
    tree: &Tree,
    classes: &ClassTable,
    lined: bool,
    item: &Item,
) -> Result<Hir, Memory>
    requires table { IsTableOf tree.now classes.now }
    requires class { All (λ n. n < length classes.now) (class_in item.now) }
    ensures { IfOk result (λ hir. IsItemShape tree.now lined item.now (meaning hir)) }
{
    let mut ranges = byte_ranges(alloc, tree, classes, lined, item)?;
    if tree.options().utf {
        ranges.push(past_bytes(item))?;
        Ok(Hir::Chars(Class::new(ranges)?))
    } else {
        Ok(Hir::Bytes(Class::new(ranges)?))
    }
}

/// Any text, in a line without LF.
pub fn any_text(
    alloc: Global,
    tree: &Tree,
    classes: &ClassTable,
    lined: bool,
) -> Result<Hir, Memory>
    requires { IsTableOf tree.now classes.now }
    ensures { IfOk result (λ hir. IsAnyText tree.now lined (meaning hir)) }
{
    let bytes = byte_ranges(alloc, tree, classes, lined, &Item::AnyAll)?;
    rounds(alloc, Hir::Bytes(Class::new(bytes)?), 0, None)
}

/// A simple assertion, by the kit's where that means it.
pub fn anchor_shape(tree: &Tree, kind: AnchorKind) -> Hir
    ensures { (lined : Bool) → IsAnchorShape tree.now lined kind (meaning result) }
{
    let utf = tree.options().utf;
    let by_lf = ends_by_lf(tree);
    match kind {
        AnchorKind::SubjectStart => look_if(true, Look::StartLf),
        AnchorKind::SubjectEnd => look_if(true, Look::EndLf),
        AnchorKind::Caret { multi } => look_if(!multi || by_lf, Look::StartLf),
        AnchorKind::Dollar { .. } => look_if(by_lf, Look::EndLf),
        AnchorKind::EndOrNewline => look_if(by_lf, Look::EndLf),
        AnchorKind::Word { ucp } => look_if(!ucp && !utf, Look::WordAscii),
        AnchorKind::NotWord { ucp } => look_if(!ucp && !utf, Look::WordAsciiNegate),
        AnchorKind::StartGiven => Hir::Empty,
    }
}

/// The kit's assertion where it means it, and else the empty text.
fn look_if(means: bool, look: Look) -> Hir
    ensures { meaning result ≡ (if means then re.look look else empty) }
{
    if means { Hir::Look(look) } else { Hir::Empty }
}

fn ends_by_lf(tree: &Tree) -> bool
    ensures { result ≡ true → tree.now.options.newline ≡ Lf }
{
    tree.options().newline == Newline::Lf
}

/// A maximum that isn't too large.
fn most_rounds(max: Option<u16>) -> Option<u32>
    ensures more { (n : ℕ) → IsUpTo max n → IsUpTo result n }
    ensures same { IfSome max (λ n. n ≤ 200) → result ≡ max }
{
    match max {
        Some(max) if max <= MOST_ROUNDS => Some(max as u32),
        _ => None,
    }
}

/// As many rounds as between a minimum and a maximum, or more where these are large.
pub fn rounds(alloc: Global, sub: Hir, min: u16, max: Option<u16>) -> Result<Hir, Memory>
    ensures { IfOk result (λ hir. AreRounds min max (meaning sub) (meaning hir)) }
{
    Ok(Hir::Repetition {
        min: min.min(MOST_ROUNDS) as u32,
        max: most_rounds(max),
        greedy: true,
        sub: Box::new(alloc, sub)?,
    })
}
