// Tables of the tests.

// Each property by its name, with a character that has it and a number that hasn't, in hexadecimal. They are perl's
// answers, of Unicode 14.0, for Xwd the manual's, and for the scripts of later versions the first character of the
// script's block in the code charts. That of ProtoCuneiform isn't here.
pub const PROPERTIES: &str = "\
Any 0 D800
Xan 30 3A
Xsp 9 E
Xps 9 E
Xwd 301 20DD
C 0 20
L 41 5B
L& 41 5B
M 300 370
N 30 3A
P 21 24
S 24 25
Z 20 21
Lu 41 5B
Ll 61 7B
Lt 1C5 1C6
Lm 2B0 2C2
Lo AA AB
Mn 300 370
Mc 903 904
Me 488 48A
Nd 30 3A
Nl 16EE 16F1
No B2 B4
Pc 5F 60
Pd 2D 2E
Ps 28 29
Pe 29 2A
Pi AB AC
Pf BB BC
Po 21 24
Sm 2B 2C
Sc 24 25
Sk 5E 5F
So A6 A7
Zs 20 21
Zl 2028 2029
Zp 2029 202A
Cc 0 20
Cf AD AE
Co E000 F900
Cn 378 377
Adlam 1E900 41
CaucasianAlbanian 10530 41
Ahom 11700 41
Arabic 600 41
ImperialAramaic 10840 41
Armenian 531 41
Avestan 10B00 41
Balinese 1B00 41
Bamum A6A0 41
BassaVah 16AD0 41
Batak 1BC0 41
Bengali 980 41
BeriaErfe 16EA0 41
Bhaiksuki 11C00 41
Bopomofo 2EA 41
Brahmi 11000 41
Braille 2800 41
Buginese 1A00 41
Buhid 1740 41
Chakma 11100 41
CanadianAboriginal 1400 41
Carian 102A0 41
Cham AA00 41
Cherokee 13A0 41
Chorasmian 10FB0 41
Coptic 3E2 41
CyproMinoan 12F90 41
Cypriot 10800 41
Cyrillic 400 41
Devanagari 900 41
DivesAkuru 11900 41
Dogra 11800 41
Deseret 10400 41
Duployan 1BC00 41
EgyptianHieroglyphs 13000 41
Elbasan 10500 41
Elymaic 10FE0 41
Ethiopic 1200 41
Garay 10D40 41
Georgian 10A0 41
Glagolitic 2C00 41
GunjalaGondi 11D60 41
MasaramGondi 11D00 41
Gothic 10330 41
Grantha 11300 41
Greek 370 41
Gujarati A81 41
GurungKhema 16100 41
Gurmukhi A01 41
Hangul 1100 41
Han 2E80 41
Hanunoo 1720 41
Hatran 108E0 41
Hebrew 591 41
Hiragana 3041 41
AnatolianHieroglyphs 14400 41
PahawhHmong 16B00 41
NyiakengPuachueHmong 1E100 41
OldHungarian 10C80 41
OldItalic 10300 41
Javanese A980 41
Jurchen 18E00 41
KayahLi A900 41
Katakana 30A1 41
Kawi 11F00 41
Kharoshthi 10A00 41
Khmer 1780 41
Khojki 11200 41
KhitanSmallScript 16FE4 41
Kannada C80 41
KiratRai 16D40 41
Kaithi 11080 41
TaiTham 1A20 41
Lao E81 41
Latin 41 5B
Lepcha 1C00 41
Limbu 1900 41
LinearA 10600 41
LinearB 10000 41
Lisu A4D0 41
Lycian 10280 41
Lydian 10920 41
Mahajani 11150 41
Makasar 11EE0 41
Mandaic 840 41
Manichaean 10AC0 41
Marchen 11C70 41
Medefaidrin 16E40 41
MendeKikakui 1E800 41
MeroiticCursive 109A0 41
MeroiticHieroglyphs 10980 41
Malayalam D00 41
Modi 11600 41
Mongolian 1800 41
Mro 16A40 41
MeeteiMayek AAE0 41
Multani 11280 41
Myanmar 1000 41
NagMundari 1E4D0 41
Nandinagari 119A0 41
OldNorthArabian 10A80 41
Nabataean 10880 41
Newa 11400 41
Nko 7C0 41
Nushu 16FE1 41
Ogham 1680 41
OlChiki 1C50 41
OlOnal 1E5D0 41
OldTurkic 10C00 41
Oriya B01 41
Osage 104B0 41
Osmanya 10480 41
OldUyghur 10F70 41
Palmyrene 10860 41
PauCinHau 11AC0 41
OldPermic 10350 41
PhagsPa A840 41
InscriptionalPahlavi 10B60 41
PsalterPahlavi 10B80 41
Phoenician 10900 41
Miao 16F00 41
InscriptionalParthian 10B40 41
Rejang A930 41
HanifiRohingya 10D00 41
Runic 16A0 41
Samaritan 800 41
OldSouthArabian 10A60 41
Saurashtra A880 41
Seal 3D000 41
SignWriting 1D800 41
Shavian 10450 41
Sharada 11180 41
Siddham 11580 41
Sidetic 10940 41
Khudawadi 112B0 41
Sinhala D81 41
Sogdian 10F30 41
OldSogdian 10F00 41
SoraSompeng 110D0 41
Soyombo 11A50 41
Sundanese 1B80 41
Sunuwar 11BC0 41
SylotiNagri A800 41
Syriac 700 41
Tagbanwa 1760 41
Takri 11680 41
TaiLe 1950 41
NewTaiLue 1980 41
Tamil B82 41
Tangut 16FE0 41
TaiViet AA80 41
TaiYo 1E6C0 41
Telugu C00 41
Tifinagh 2D30 41
Tagalog 1700 41
Thaana 780 41
Thai E01 41
Tibetan F00 41
Tirhuta 11480 41
Tangsa 16A70 41
Todhri 105C0 41
TolongSiki 11DB0 41
Toto 1E290 41
TuluTigalari 11380 41
Ugaritic 10380 41
Vai A500 41
Vithkuqi 10570 41
WarangCiti 118A0 41
Wancho 1E2C0 41
OldPersian 103A0 41
Cuneiform 12000 41
Yezidi 10E80 41
Yi A000 41
ZanabazarSquare 11A00 41
Inherited 300 41
Common 0 41
Unknown 378 61";

// Names as they may be written, and the names that they are.
pub const WRITTEN: &[(&str, &str)] = &[
    ("lu", "Lu"),
    ("LU", "Lu"),
    (" L u ", "Lu"),
    ("l&", "L&"),
    ("L_&", "L&"),
    ("any", "Any"),
    ("XAN", "Xan"),
    ("old_persian", "OldPersian"),
    ("Old Persian", "OldPersian"),
    ("OLD-PERSIAN", "OldPersian"),
    ("phags_pa", "PhagsPa"),
    ("n-K-o", "Nko"),
];

pub const UNKNOWN: &[&[u8]] = &[
    b"",
    b" _-",
    b"Nosuch",
    b"Lx",
    b"Lul",
    b"LC",
    b"Gree",
    b"Greekk",
    b"Grek",
    b"Alphabetic",
    b"Gr\xC3\xA9ek",
    b"Greek\xC2\xA0",
    b"Lu\x00",
    b"\tLu",
];

// Lines of CaseFolding.txt with the status C or S, and numbers that it has no such line for.
pub const FOLDINGS: &[(u32, u32)] = &[
    (0x41, 0x61),
    (0x5A, 0x7A),
    (0x61, 0x61),
    (0x30, 0x30),
    (0x4B, 0x6B),
    (0x6B, 0x6B),
    (0x212A, 0x6B),
    (0x53, 0x73),
    (0x73, 0x73),
    (0x17F, 0x73),
    (0x3A3, 0x3C3),
    (0x3C3, 0x3C3),
    (0x3C2, 0x3C3),
    (0xB5, 0x3BC),
    (0xC5, 0xE5),
    (0x212B, 0xE5),
    (0xD7, 0xD7),
    (0xDF, 0xDF),
    (0x1E9E, 0xDF),
    (0x130, 0x130),
    (0x131, 0x131),
    (0x1C4, 0x1C6),
    (0x1C5, 0x1C6),
    (0x2126, 0x3C9),
    (0x13A0, 0x13A0),
    (0xAB70, 0x13A0),
    (0x10A0, 0x2D00),
    (0x10400, 0x10428),
    (0x1E921, 0x1E943),
    (0xD800, 0xD800),
    (0xDFFF, 0xDFFF),
    (0x110000, 0x110000),
    (0xFFFFFFFF, 0xFFFFFFFF),
];

pub const GOOD: &[&[u8]] = &[
    b"",
    b"a",
    b"\x00\x7F",
    b"\xC2\x80\xDF\xBF\xE0\xA0\x80\xED\x9F\xBF\xEE\x80\x80\xEF\xBF\xBE\xEF\xBF\xBF\xF0\x90\x80\x80\xF4\x8F\xBF\xBF",
    b"\xEF\xBB\xBF",
];

// Bytes that are not UTF-8, with the length of the longest part that is: continuation bytes alone, overlong forms,
// surrogates, characters past U+10FFFF, bytes of no form, forms cut off, and forms with a byte that doesn't continue
// them. The places are those that Python's decoder gives.
pub const BAD: &[(&[u8], usize)] = &[
    (b"\x80", 0),
    (b"\xBF", 0),
    (b"a\x80", 1),
    (b"\xC3\xA9\xA9", 2),
    (b"\xC0\x80", 0),
    (b"\xC1\xBF", 0),
    (b"\xE0\x80\x80", 0),
    (b"\xE0\x9F\xBF", 0),
    (b"\xF0\x80\x80\x80", 0),
    (b"\xF0\x8F\xBF\xBF", 0),
    (b"\xED\xA0\x80", 0),
    (b"a\xED\xBF\xBF", 1),
    (b"\xF4\x90\x80\x80", 0),
    (b"\xF5\x80\x80\x80", 0),
    (b"\xF8\x88\x80\x80\x80", 0),
    (b"\xFC\x84\x80\x80\x80\x80", 0),
    (b"\xFE", 0),
    (b"a\xFF", 1),
    (b"\xC3", 0),
    (b"a\xC3", 1),
    (b"\xE2\x82", 0),
    (b"\xE2", 0),
    (b"ab\xF0\x9F\x98", 2),
    (b"\xF0\x9F", 0),
    (b"\xF0", 0),
    (b"\xC3(", 0),
    (b"\xE2(\xA1", 0),
    (b"\xE2\x82(", 0),
    (b"\xF0(\x8C\xBC", 0),
    (b"\xF0\x90(\xBC", 0),
    (b"\xF0\x90\x8C(", 0),
    (b"\xC3\xA9\xC3\xA9\xE2\x82\xC3\xA9", 4),
];
