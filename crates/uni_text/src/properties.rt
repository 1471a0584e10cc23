// Unicode's properties of a character.
ghost use Rattle.std.specs.Prelude.{◌≡◌, IfSome};
ghost use Rattle.uni_text.specs.Properties as spec;

use crate::names;
use ucd_category::{GeneralCategory, GeneralCategoryGroup};
use ucd_script::Script;

/// A property of a character, as `\p` names it (pcre2pattern, "Unicode character properties").
#[derive(Clone, Copy, Debug, PartialEq, Eq)]
pub enum Prop {
    /// Any character.
    Any,
    /// A letter or a number.
    Xan,
    /// White space: a separator, or what `\h` or `\v` takes.
    Xsp,
    /// The same as `Xsp`.
    Xps,
    /// A letter, a number, a nonspacing mark or a connector, as the underscore is: L, N, Mn and Pc.
    Xwd,
    /// Some categories together, as L or `L&`.
    Group(GeneralCategoryGroup),
    /// A category, as Lu.
    Category(GeneralCategory),
    /// A script, as Greek.
    Script(Script),
}

impl Prop {
    /// The property of a name: a category, `L&`, `Any`, `Xan`, `Xsp`, `Xps`, `Xwd`, or a script by the name of its
    /// variant. ASCII case, spaces, hyphens and underscores don't count. None for an unknown name.
    pub fn by_name(name: &[u8]) -> Option<Prop>
        ensures { result ≡ spec.prop_by_name name.now }
    {
        names::by_name(name)
    }

    /// The property of a number. None where there is none.
    pub fn by_number(n: u16) -> Option<Prop>
        ensures value { result ≡ spec.prop_by_number n }
        ensures inverse { IfSome result (λ p. spec.prop_number p ≡ n) }
    {
        names::by_number(n)
    }

    /// The number of the property, which no other has.
    pub fn number(self) -> u16
        ensures value { result ≡ spec.prop_number self }
        ensures inverse { spec.prop_by_number result ≡ Some self }
    {
        match self {
            Prop::Any => 0,
            Prop::Xan => 1,
            Prop::Xsp => 2,
            Prop::Xps => 3,
            Prop::Xwd => 4,
            Prop::Group(group) => 5 + group_number(group),
            Prop::Category(category) => 13 + category.number() as u16,
            Prop::Script(script) => 43 + script.number() as u16,
        }
    }
}

fn group_number(group: GeneralCategoryGroup) -> u16
    ensures { result ≡ spec.group_number group }
{
    match group {
        GeneralCategoryGroup::Other => 0,
        GeneralCategoryGroup::Letter => 1,
        GeneralCategoryGroup::CasedLetter => 2,
        GeneralCategoryGroup::Mark => 3,
        GeneralCategoryGroup::Number => 4,
        GeneralCategoryGroup::Punctuation => 5,
        GeneralCategoryGroup::Symbol => 6,
        GeneralCategoryGroup::Separator => 7,
    }
}

/// Whether the number `c` is a character that has the property. A number that is no character, as a surrogate, has
/// none.
#[inline]
pub fn has_prop(p: Prop, c: u32) -> bool
    ensures { result ≡ spec.has_prop p c }
{
    let Some(c) = char::from_u32(c) else {
        return false;
    };
    match p {
        Prop::Any => true,
        Prop::Xan => is_in(GeneralCategoryGroup::Letter, c)
            || is_in(GeneralCategoryGroup::Number, c),
        Prop::Xsp | Prop::Xps => is_space(c),
        Prop::Xwd => is_word_of_unicode(c),
        Prop::Group(group) => is_in(group, c),
        Prop::Category(category) => is_of(category, c),
        Prop::Script(script) => Script::for_char(c).number() == script.number(),
    }
}

#[inline]
fn is_in(group: GeneralCategoryGroup, c: char) -> bool
    ensures { result ≡ spec.is_in group c }
{
    group.contains(GeneralCategory::for_char(c))
}

#[inline]
fn is_of(category: GeneralCategory, c: char) -> bool
    ensures { result ≡ spec.is_of category c }
{
    // Compared by their numbers, as the definition does.
    GeneralCategory::for_char(c).number() == category.number()
}

/// `\s` with UCP.
fn is_space(c: char) -> bool
    ensures { result ≡ spec.is_space c }
{
    is_in(GeneralCategoryGroup::Separator, c) || is_horizontal(c as u32) || is_vertical(c as u32)
}

/// `\w` with UCP.
#[inline]
fn is_word_of_unicode(c: char) -> bool
    ensures { result ≡ spec.is_word_of_unicode c }
{
    is_in(GeneralCategoryGroup::Letter, c)
        || is_in(GeneralCategoryGroup::Number, c)
        || is_of(GeneralCategory::NonspacingMark, c)
        || is_of(GeneralCategory::ConnectorPunctuation, c)
}

/// Whether `\h` takes the character of number `c` (pcre2pattern, "Generic character types").
#[inline]
pub fn is_horizontal(c: u32) -> bool
    ensures { result ≡ spec.is_horizontal c }
{
    matches!(
        c,
        0x09 | 0x20 | 0xA0 | 0x1680 | 0x180E | 0x2000..=0x200A | 0x202F | 0x205F | 0x3000
    )
}

/// Whether `\v` takes the character of number `c` (pcre2pattern, "Generic character types").
#[inline]
pub fn is_vertical(c: u32) -> bool
    ensures { result ≡ spec.is_vertical c }
{
    matches!(c, 0x0A..=0x0D | 0x85 | 0x2028..=0x2029)
}
