// The names of the properties.
ghost use Rattle.std.specs.Prelude.{◌≡◌, bytes_eq, map};
ghost use Rattle.uni_text.specs.Properties.{is_passed_over, named, numbered, plain_name, prop_by_name, prop_by_number};
ghost use Rattle.uni_text.specs.Table.{row_of};

use crate::properties::Prop;
use ucd_category::{GeneralCategory, GeneralCategoryGroup};
use ucd_script::Script;

/// A name and its property.
type Row = (&'static str, Prop);

/// Each property with its name, in the order of the properties' numbers. Names are in small letters, without hyphens
/// and underscores.
static NAMES: [Row; 221] = [
    ("any", Prop::Any),
    ("xan", Prop::Xan),
    ("xsp", Prop::Xsp),
    ("xps", Prop::Xps),
    ("xwd", Prop::Xwd),
    ("c", Prop::Group(GeneralCategoryGroup::Other)),
    ("l", Prop::Group(GeneralCategoryGroup::Letter)),
    ("l&", Prop::Group(GeneralCategoryGroup::CasedLetter)),
    ("m", Prop::Group(GeneralCategoryGroup::Mark)),
    ("n", Prop::Group(GeneralCategoryGroup::Number)),
    ("p", Prop::Group(GeneralCategoryGroup::Punctuation)),
    ("s", Prop::Group(GeneralCategoryGroup::Symbol)),
    ("z", Prop::Group(GeneralCategoryGroup::Separator)),
    ("lu", Prop::Category(GeneralCategory::UppercaseLetter)),
    ("ll", Prop::Category(GeneralCategory::LowercaseLetter)),
    ("lt", Prop::Category(GeneralCategory::TitlecaseLetter)),
    ("lm", Prop::Category(GeneralCategory::ModifierLetter)),
    ("lo", Prop::Category(GeneralCategory::OtherLetter)),
    ("mn", Prop::Category(GeneralCategory::NonspacingMark)),
    ("mc", Prop::Category(GeneralCategory::SpacingMark)),
    ("me", Prop::Category(GeneralCategory::EnclosingMark)),
    ("nd", Prop::Category(GeneralCategory::DecimalNumber)),
    ("nl", Prop::Category(GeneralCategory::LetterNumber)),
    ("no", Prop::Category(GeneralCategory::OtherNumber)),
    ("pc", Prop::Category(GeneralCategory::ConnectorPunctuation)),
    ("pd", Prop::Category(GeneralCategory::DashPunctuation)),
    ("ps", Prop::Category(GeneralCategory::OpenPunctuation)),
    ("pe", Prop::Category(GeneralCategory::ClosePunctuation)),
    ("pi", Prop::Category(GeneralCategory::InitialPunctuation)),
    ("pf", Prop::Category(GeneralCategory::FinalPunctuation)),
    ("po", Prop::Category(GeneralCategory::OtherPunctuation)),
    ("sm", Prop::Category(GeneralCategory::MathSymbol)),
    ("sc", Prop::Category(GeneralCategory::CurrencySymbol)),
    ("sk", Prop::Category(GeneralCategory::ModifierSymbol)),
    ("so", Prop::Category(GeneralCategory::OtherSymbol)),
    ("zs", Prop::Category(GeneralCategory::SpaceSeparator)),
    ("zl", Prop::Category(GeneralCategory::LineSeparator)),
    ("zp", Prop::Category(GeneralCategory::ParagraphSeparator)),
    ("cc", Prop::Category(GeneralCategory::Control)),
    ("cf", Prop::Category(GeneralCategory::Format)),
    ("cs", Prop::Category(GeneralCategory::Surrogate)),
    ("co", Prop::Category(GeneralCategory::PrivateUse)),
    ("cn", Prop::Category(GeneralCategory::Unassigned)),
    ("adlam", Prop::Script(Script::Adlam)),
    ("caucasianalbanian", Prop::Script(Script::CaucasianAlbanian)),
    ("ahom", Prop::Script(Script::Ahom)),
    ("arabic", Prop::Script(Script::Arabic)),
    ("imperialaramaic", Prop::Script(Script::ImperialAramaic)),
    ("armenian", Prop::Script(Script::Armenian)),
    ("avestan", Prop::Script(Script::Avestan)),
    ("balinese", Prop::Script(Script::Balinese)),
    ("bamum", Prop::Script(Script::Bamum)),
    ("bassavah", Prop::Script(Script::BassaVah)),
    ("batak", Prop::Script(Script::Batak)),
    ("bengali", Prop::Script(Script::Bengali)),
    ("beriaerfe", Prop::Script(Script::BeriaErfe)),
    ("bhaiksuki", Prop::Script(Script::Bhaiksuki)),
    ("bopomofo", Prop::Script(Script::Bopomofo)),
    ("brahmi", Prop::Script(Script::Brahmi)),
    ("braille", Prop::Script(Script::Braille)),
    ("buginese", Prop::Script(Script::Buginese)),
    ("buhid", Prop::Script(Script::Buhid)),
    ("chakma", Prop::Script(Script::Chakma)),
    (
        "canadianaboriginal",
        Prop::Script(Script::CanadianAboriginal),
    ),
    ("carian", Prop::Script(Script::Carian)),
    ("cham", Prop::Script(Script::Cham)),
    ("cherokee", Prop::Script(Script::Cherokee)),
    ("chorasmian", Prop::Script(Script::Chorasmian)),
    ("coptic", Prop::Script(Script::Coptic)),
    ("cyprominoan", Prop::Script(Script::CyproMinoan)),
    ("cypriot", Prop::Script(Script::Cypriot)),
    ("cyrillic", Prop::Script(Script::Cyrillic)),
    ("devanagari", Prop::Script(Script::Devanagari)),
    ("divesakuru", Prop::Script(Script::DivesAkuru)),
    ("dogra", Prop::Script(Script::Dogra)),
    ("deseret", Prop::Script(Script::Deseret)),
    ("duployan", Prop::Script(Script::Duployan)),
    (
        "egyptianhieroglyphs",
        Prop::Script(Script::EgyptianHieroglyphs),
    ),
    ("elbasan", Prop::Script(Script::Elbasan)),
    ("elymaic", Prop::Script(Script::Elymaic)),
    ("ethiopic", Prop::Script(Script::Ethiopic)),
    ("garay", Prop::Script(Script::Garay)),
    ("georgian", Prop::Script(Script::Georgian)),
    ("glagolitic", Prop::Script(Script::Glagolitic)),
    ("gunjalagondi", Prop::Script(Script::GunjalaGondi)),
    ("masaramgondi", Prop::Script(Script::MasaramGondi)),
    ("gothic", Prop::Script(Script::Gothic)),
    ("grantha", Prop::Script(Script::Grantha)),
    ("greek", Prop::Script(Script::Greek)),
    ("gujarati", Prop::Script(Script::Gujarati)),
    ("gurungkhema", Prop::Script(Script::GurungKhema)),
    ("gurmukhi", Prop::Script(Script::Gurmukhi)),
    ("hangul", Prop::Script(Script::Hangul)),
    ("han", Prop::Script(Script::Han)),
    ("hanunoo", Prop::Script(Script::Hanunoo)),
    ("hatran", Prop::Script(Script::Hatran)),
    ("hebrew", Prop::Script(Script::Hebrew)),
    ("hiragana", Prop::Script(Script::Hiragana)),
    (
        "anatolianhieroglyphs",
        Prop::Script(Script::AnatolianHieroglyphs),
    ),
    ("pahawhhmong", Prop::Script(Script::PahawhHmong)),
    (
        "nyiakengpuachuehmong",
        Prop::Script(Script::NyiakengPuachueHmong),
    ),
    ("oldhungarian", Prop::Script(Script::OldHungarian)),
    ("olditalic", Prop::Script(Script::OldItalic)),
    ("javanese", Prop::Script(Script::Javanese)),
    ("jurchen", Prop::Script(Script::Jurchen)),
    ("kayahli", Prop::Script(Script::KayahLi)),
    ("katakana", Prop::Script(Script::Katakana)),
    ("kawi", Prop::Script(Script::Kawi)),
    ("kharoshthi", Prop::Script(Script::Kharoshthi)),
    ("khmer", Prop::Script(Script::Khmer)),
    ("khojki", Prop::Script(Script::Khojki)),
    ("khitansmallscript", Prop::Script(Script::KhitanSmallScript)),
    ("kannada", Prop::Script(Script::Kannada)),
    ("kiratrai", Prop::Script(Script::KiratRai)),
    ("kaithi", Prop::Script(Script::Kaithi)),
    ("taitham", Prop::Script(Script::TaiTham)),
    ("lao", Prop::Script(Script::Lao)),
    ("latin", Prop::Script(Script::Latin)),
    ("lepcha", Prop::Script(Script::Lepcha)),
    ("limbu", Prop::Script(Script::Limbu)),
    ("lineara", Prop::Script(Script::LinearA)),
    ("linearb", Prop::Script(Script::LinearB)),
    ("lisu", Prop::Script(Script::Lisu)),
    ("lycian", Prop::Script(Script::Lycian)),
    ("lydian", Prop::Script(Script::Lydian)),
    ("mahajani", Prop::Script(Script::Mahajani)),
    ("makasar", Prop::Script(Script::Makasar)),
    ("mandaic", Prop::Script(Script::Mandaic)),
    ("manichaean", Prop::Script(Script::Manichaean)),
    ("marchen", Prop::Script(Script::Marchen)),
    ("medefaidrin", Prop::Script(Script::Medefaidrin)),
    ("mendekikakui", Prop::Script(Script::MendeKikakui)),
    ("meroiticcursive", Prop::Script(Script::MeroiticCursive)),
    (
        "meroitichieroglyphs",
        Prop::Script(Script::MeroiticHieroglyphs),
    ),
    ("malayalam", Prop::Script(Script::Malayalam)),
    ("modi", Prop::Script(Script::Modi)),
    ("mongolian", Prop::Script(Script::Mongolian)),
    ("mro", Prop::Script(Script::Mro)),
    ("meeteimayek", Prop::Script(Script::MeeteiMayek)),
    ("multani", Prop::Script(Script::Multani)),
    ("myanmar", Prop::Script(Script::Myanmar)),
    ("nagmundari", Prop::Script(Script::NagMundari)),
    ("nandinagari", Prop::Script(Script::Nandinagari)),
    ("oldnortharabian", Prop::Script(Script::OldNorthArabian)),
    ("nabataean", Prop::Script(Script::Nabataean)),
    ("newa", Prop::Script(Script::Newa)),
    ("nko", Prop::Script(Script::Nko)),
    ("nushu", Prop::Script(Script::Nushu)),
    ("ogham", Prop::Script(Script::Ogham)),
    ("olchiki", Prop::Script(Script::OlChiki)),
    ("olonal", Prop::Script(Script::OlOnal)),
    ("oldturkic", Prop::Script(Script::OldTurkic)),
    ("oriya", Prop::Script(Script::Oriya)),
    ("osage", Prop::Script(Script::Osage)),
    ("osmanya", Prop::Script(Script::Osmanya)),
    ("olduyghur", Prop::Script(Script::OldUyghur)),
    ("palmyrene", Prop::Script(Script::Palmyrene)),
    ("paucinhau", Prop::Script(Script::PauCinHau)),
    ("protocuneiform", Prop::Script(Script::ProtoCuneiform)),
    ("oldpermic", Prop::Script(Script::OldPermic)),
    ("phagspa", Prop::Script(Script::PhagsPa)),
    (
        "inscriptionalpahlavi",
        Prop::Script(Script::InscriptionalPahlavi),
    ),
    ("psalterpahlavi", Prop::Script(Script::PsalterPahlavi)),
    ("phoenician", Prop::Script(Script::Phoenician)),
    ("miao", Prop::Script(Script::Miao)),
    (
        "inscriptionalparthian",
        Prop::Script(Script::InscriptionalParthian),
    ),
    ("rejang", Prop::Script(Script::Rejang)),
    ("hanifirohingya", Prop::Script(Script::HanifiRohingya)),
    ("runic", Prop::Script(Script::Runic)),
    ("samaritan", Prop::Script(Script::Samaritan)),
    ("oldsoutharabian", Prop::Script(Script::OldSouthArabian)),
    ("saurashtra", Prop::Script(Script::Saurashtra)),
    ("seal", Prop::Script(Script::Seal)),
    ("signwriting", Prop::Script(Script::SignWriting)),
    ("shavian", Prop::Script(Script::Shavian)),
    ("sharada", Prop::Script(Script::Sharada)),
    ("siddham", Prop::Script(Script::Siddham)),
    ("sidetic", Prop::Script(Script::Sidetic)),
    ("khudawadi", Prop::Script(Script::Khudawadi)),
    ("sinhala", Prop::Script(Script::Sinhala)),
    ("sogdian", Prop::Script(Script::Sogdian)),
    ("oldsogdian", Prop::Script(Script::OldSogdian)),
    ("sorasompeng", Prop::Script(Script::SoraSompeng)),
    ("soyombo", Prop::Script(Script::Soyombo)),
    ("sundanese", Prop::Script(Script::Sundanese)),
    ("sunuwar", Prop::Script(Script::Sunuwar)),
    ("sylotinagri", Prop::Script(Script::SylotiNagri)),
    ("syriac", Prop::Script(Script::Syriac)),
    ("tagbanwa", Prop::Script(Script::Tagbanwa)),
    ("takri", Prop::Script(Script::Takri)),
    ("taile", Prop::Script(Script::TaiLe)),
    ("newtailue", Prop::Script(Script::NewTaiLue)),
    ("tamil", Prop::Script(Script::Tamil)),
    ("tangut", Prop::Script(Script::Tangut)),
    ("taiviet", Prop::Script(Script::TaiViet)),
    ("taiyo", Prop::Script(Script::TaiYo)),
    ("telugu", Prop::Script(Script::Telugu)),
    ("tifinagh", Prop::Script(Script::Tifinagh)),
    ("tagalog", Prop::Script(Script::Tagalog)),
    ("thaana", Prop::Script(Script::Thaana)),
    ("thai", Prop::Script(Script::Thai)),
    ("tibetan", Prop::Script(Script::Tibetan)),
    ("tirhuta", Prop::Script(Script::Tirhuta)),
    ("tangsa", Prop::Script(Script::Tangsa)),
    ("todhri", Prop::Script(Script::Todhri)),
    ("tolongsiki", Prop::Script(Script::TolongSiki)),
    ("toto", Prop::Script(Script::Toto)),
    ("tulutigalari", Prop::Script(Script::TuluTigalari)),
    ("ugaritic", Prop::Script(Script::Ugaritic)),
    ("vai", Prop::Script(Script::Vai)),
    ("vithkuqi", Prop::Script(Script::Vithkuqi)),
    ("warangciti", Prop::Script(Script::WarangCiti)),
    ("wancho", Prop::Script(Script::Wancho)),
    ("oldpersian", Prop::Script(Script::OldPersian)),
    ("cuneiform", Prop::Script(Script::Cuneiform)),
    ("yezidi", Prop::Script(Script::Yezidi)),
    ("yi", Prop::Script(Script::Yi)),
    ("zanabazarsquare", Prop::Script(Script::ZanabazarSquare)),
    ("inherited", Prop::Script(Script::Inherited)),
    ("common", Prop::Script(Script::Common)),
    ("unknown", Prop::Script(Script::Unknown)),
];

/// The property of a name, by the table.
pub(crate) fn by_name(written: &[u8]) -> Option<Prop>
    ensures { result ≡ prop_by_name written.now }
{
    find_name(&NAMES, written)
}

/// The property of a number, by the table.
pub(crate) fn by_number(n: u16) -> Option<Prop>
    ensures { result ≡ prop_by_number n }
{
    row_at(&NAMES, n as usize)
}

fn find_name(rows: &[Row], written: &[u8]) -> Option<Prop>
    ensures { result ≡ named (map row_of rows.now) written.now }
{
    for row in rows {
        if is_name(written, row.0) {
            return Some(row.1);
        }
    }
    None
}

fn row_at(rows: &[Row], n: usize) -> Option<Prop>
    ensures { result ≡ numbered (map row_of rows.now) n }
{
    let row = rows.get(n)?;
    Some(row.1)
}

/// Whether a name as it is written is this one.
fn is_name(written: &[u8], name: &str) -> bool
    ensures { result ≡ bytes_eq (plain_name written.now) name.now }
{
    let wanted = name.as_bytes();
    let mut at = 0;
    for &b in written {
        if is_passed_over(b) {
            continue;
        }
        if at == wanted.len() || wanted[at] != b.to_ascii_lowercase() {
            return false;
        }
        at += 1;
    }
    at == wanted.len()
}

/// Whether a byte does not count in a name.
fn is_passed_over(b: u8) -> bool
    ensures { result ≡ is_passed_over b }
{
    matches!(b, b' ' | b'-' | b'_')
}
