// Whether a set with a name has one character. Characters are numbers of 64 bits here, so that the number after the
// greatest end of a range is one too.
ghost use Rattle.std.specs.Prelude.{◌≡◌, true, false};
ghost use Rattle.std.specs.Int.{is_in_range};
ghost use Rattle.std.specs.List.{list_any};
ghost use Rattle.uni_text.specs.Ascii as ascii;
ghost use Rattle.uni_text.specs.Properties as properties;
ghost use Rattle.uni_text.specs.Sets as named;
ghost use Rattle.char_sets.specs.Sets as spec;

use pat_tree::SetName;
use uni_text::{GeneralCategory, GeneralCategoryGroup, Prop};

pub(crate) fn is_within(from: u32, to: u32, c: u64) -> bool
    ensures { result ≡ is_in_range from to c }
{
    from as u64 <= c && c <= to as u64
}

/// The set that stands for one in a class that takes any case.
pub(crate) fn any_case(set: SetName) -> SetName
    ensures { result ≡ spec.any_case set }
{
    match set {
        SetName::Lower | SetName::Upper => SetName::Alpha,
        other => other,
    }
}

/// Whether a set has `c`, with UCP or without.
pub(crate) fn set_has(set: SetName, ucp: bool, c: u64) -> bool
    ensures { result ≡ spec.set_has ucp set c }
{
    if ucp {
        set_of_unicode_has(set, c)
    } else {
        set_of_ascii_has(set, c)
    }
}

/// A set without UCP, and those that are the same with it.
fn set_of_ascii_has(set: SetName, c: u64) -> bool
    ensures { result ≡ spec.set_has false set c }
{
    match set {
        SetName::Digit => is_digit(c),
        SetName::Space => matches!(c, 0x09..=0x0D | 0x20),
        SetName::Word => is_letter(c) || is_digit(c) || c == 0x5F,
        SetName::Alpha => is_letter(c),
        SetName::Alnum => is_letter(c) || is_digit(c),
        SetName::Lower => matches!(c, 0x61..=0x7A),
        SetName::Upper => matches!(c, 0x41..=0x5A),
        SetName::Blank => matches!(c, 0x09 | 0x20),
        SetName::Cntrl => matches!(c, 0..=0x1F | 0x7F),
        SetName::Graph => matches!(c, 0x21..=0x7E),
        SetName::Print => matches!(c, 0x20..=0x7E),
        SetName::Punct => matches!(c, 0x21..=0x7E) && !is_letter(c) && !is_digit(c),
        SetName::Ascii => c <= 0x7F,
        SetName::Xdigit => matches!(c, 0x30..=0x39 | 0x41..=0x46 | 0x61..=0x66),
        SetName::H => is_horizontal(c),
        SetName::V => is_vertical(c),
        SetName::Property(number) => match Prop::by_number(number) {
            Some(p) => has_property(p, c),
            None => false,
        },
    }
}

/// A set with UCP.
fn set_of_unicode_has(set: SetName, c: u64) -> bool
    ensures { result ≡ spec.set_has true set c }
{
    match set {
        SetName::Digit => has_property(Prop::Category(GeneralCategory::DecimalNumber), c),
        SetName::Space => has_property(Prop::Xsp, c),
        SetName::Word => has_property(Prop::Xwd, c),
        SetName::Alpha => has_property(Prop::Group(GeneralCategoryGroup::Letter), c),
        SetName::Alnum => has_property(Prop::Xan, c),
        SetName::Lower => has_property(Prop::Category(GeneralCategory::LowercaseLetter), c),
        SetName::Upper => has_property(Prop::Category(GeneralCategory::UppercaseLetter), c),
        SetName::Blank => is_horizontal(c),
        SetName::Cntrl => has_property(Prop::Category(GeneralCategory::Control), c),
        SetName::Graph => is_graph_of_unicode(c),
        SetName::Print => {
            is_graph_of_unicode(c)
                || has_property(Prop::Category(GeneralCategory::SpaceSeparator), c)
        }
        SetName::Punct => {
            has_property(Prop::Group(GeneralCategoryGroup::Punctuation), c)
                || has_property(Prop::Group(GeneralCategoryGroup::Symbol), c) && c < 256
        }
        other => set_of_ascii_has(other, c),
    }
}

/// The characters of `[:graph:]` with UCP.
fn is_graph_of_unicode(c: u64) -> bool
    ensures { result ≡ named.graph true c }
{
    has_property(Prop::Group(GeneralCategoryGroup::Letter), c)
        || has_property(Prop::Group(GeneralCategoryGroup::Mark), c)
        || has_property(Prop::Group(GeneralCategoryGroup::Number), c)
        || has_property(Prop::Group(GeneralCategoryGroup::Punctuation), c)
        || has_property(Prop::Group(GeneralCategoryGroup::Symbol), c)
        || has_property(Prop::Category(GeneralCategory::Format), c) && !is_mark_of_direction(c)
}

fn is_mark_of_direction(c: u64) -> bool
    ensures { result ≡ named.is_mark_of_direction c }
{
    matches!(c, 0x61C | 0x180E | 0x2066..=0x2069)
}

fn has_property(p: Prop, c: u64) -> bool
    ensures { result ≡ properties.has_prop p c }
{
    c <= 0x10_FFFF && uni_text::has_prop(p, c as u32)
}

fn is_digit(c: u64) -> bool
    ensures { result ≡ ascii.is_digit c }
{
    matches!(c, 0x30..=0x39)
}

pub(crate) fn is_letter(c: u64) -> bool
    ensures { result ≡ ascii.is_letter c }
{
    matches!(c, 0x41..=0x5A | 0x61..=0x7A)
}

/// The characters of `\h`.
fn is_horizontal(c: u64) -> bool
    ensures { result ≡ properties.is_horizontal c }
{
    c <= 0x3000 && uni_text::is_horizontal(c as u32)
}

/// The characters of `\v`.
fn is_vertical(c: u64) -> bool
    ensures { result ≡ properties.is_vertical c }
{
    c <= 0x2029 && uni_text::is_vertical(c as u32)
}
