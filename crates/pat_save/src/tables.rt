//! What an image has of a pattern besides its nodes: options, names and classes.
ghost use Rattle.std.specs.Prelude.{◌≡◌, ◌≤◌, ◌<◌, ◌^◌, ◌++◌, length, All, IfSome, OnOk};
ghost use Rattle.pat_save.specs.Fields.{counted, short_text};
ghost use Rattle.pat_save.specs.Image.{flags_of, newline_place, bsr_place, options_bytes};
ghost use Rattle.pat_save.specs.Image.{set_place, set_bytes, part_bytes, class_bytes, name_bytes};
ghost use Rattle.pat_save.specs.Image.{tables_bytes};
ghost use Rattle.pat_save.specs.Sized.{IsSizedPart, IsSizedSet};

use crate::fields::{
    number_of, put_byte, put_number, put_optional_number, put_short, put_short_text, two_bits,
};
use pat_tree::{Bsr, ClassSpec, Memory, NameEntry, Newline, Options, Part, SetName, Tree};

/// The bools of the options, in the order of the fields.
fn flags_of(options: &Options) -> [bool; 21]
    ensures { result ≡ flags_of options.now }
{
    [
        options.anchored,
        options.endanchored,
        options.caseless,
        options.multiline,
        options.dotall,
        options.extended,
        options.extended_more,
        options.dollar_endonly,
        options.dupnames,
        options.firstline,
        options.literal,
        options.no_auto_capture,
        options.ungreedy,
        options.utf,
        options.ucp,
        options.allow_empty_class,
        options.match_unset_backref,
        options.no_start_optimize,
        options.auto_callout,
        options.notempty,
        options.notempty_atstart,
    ]
}

fn newline_place(newline: Newline) -> u8
    ensures { result ≡ newline_place newline }
{
    match newline {
        Newline::Cr => 0,
        Newline::Lf => 1,
        Newline::CrLf => 2,
        Newline::AnyCrLf => 3,
        Newline::Any => 4,
        Newline::Nul => 5,
    }
}

fn bsr_place(bsr: Bsr) -> u8
    ensures { result ≡ bsr_place bsr }
{
    match bsr {
        Bsr::Unicode => 0,
        Bsr::AnyCrLf => 1,
    }
}

/// Adds the options of a pattern.
pub(crate) fn put_options(out: &mut Vec<u8>, options: &Options) -> Result<(), Memory>
    ensures bytes { OnOk result (out.new.items ≡ out.old.items ++ options_bytes options.now) }
    ensures range { OnOk result (IfSome options.now.match_limit (λ n. n < 2 ^ 32)) }
{
    put_number(out, number_of(&flags_of(options)))?;
    put_byte(out, newline_place(options.newline))?;
    put_byte(out, bsr_place(options.bsr))?;
    put_optional_number(out, options.match_limit)
}

/// The place of a set in the list of sets.
fn set_place(set: SetName) -> u8
    ensures { result ≡ set_place set }
{
    match set {
        SetName::Digit => 0,
        SetName::Space => 1,
        SetName::Word => 2,
        SetName::Alpha => 3,
        SetName::Alnum => 4,
        SetName::Lower => 5,
        SetName::Upper => 6,
        SetName::Blank => 7,
        SetName::Cntrl => 8,
        SetName::Graph => 9,
        SetName::Print => 10,
        SetName::Punct => 11,
        SetName::Ascii => 12,
        SetName::Xdigit => 13,
        SetName::H => 14,
        SetName::V => 15,
        SetName::Property(_) => 16,
    }
}

fn put_set(out: &mut Vec<u8>, set: SetName) -> Result<(), Memory>
    ensures bytes { OnOk result (out.new.items ≡ out.old.items ++ set_bytes set) }
    ensures short { OnOk result (IsSizedSet set) }
{
    put_byte(out, set_place(set))?;
    match set {
        SetName::Property(number) => put_short(out, number),
        _ => Ok(()),
    }
}

fn put_part(out: &mut Vec<u8>, part: &Part) -> Result<(), Memory>
    ensures bytes { OnOk result (out.new.items ≡ out.old.items ++ part_bytes part.now) }
    ensures short { OnOk result (IsSizedPart part.now) }
{
    match *part {
        Part::Range { from, to } => {
            put_byte(out, 0)?;
            put_number(out, from)?;
            put_number(out, to)
        }
        Part::Set { set, not, ucp } => {
            put_byte(out, 1)?;
            put_byte(out, two_bits(not, ucp))?;
            put_set(out, set)
        }
    }
}

fn put_parts(out: &mut Vec<u8>, parts: &[Part]) -> Result<(), Memory>
    requires { length parts.now ≤ 4294967295 }
    ensures bytes { OnOk result (out.new.items ≡ out.old.items ++ counted part_bytes parts.now) }
    ensures short { OnOk result (All IsSizedPart parts.now) }
{
    put_number(out, parts.len() as u32)?;
    for part in parts {
        put_part(out, part)?;
    }
    Ok(())
}

fn put_class(out: &mut Vec<u8>, spec: &ClassSpec) -> Result<(), Memory>
    requires { length spec.now.parts ≤ 4294967295 }
    ensures bytes { OnOk result (out.new.items ≡ out.old.items ++ class_bytes spec.now) }
    ensures short { OnOk result (All IsSizedPart spec.now.parts) }
{
    put_byte(out, two_bits(spec.negated, spec.caseless))?;
    put_parts(out, spec.parts.as_slice())
}

fn put_classes(out: &mut Vec<u8>, tree: &Tree) -> Result<(), Memory>
    requires { All (λ spec. length spec.parts ≤ 4294967295) tree.now.classes }
    ensures bytes { OnOk result
        (out.new.items ≡ out.old.items ++ counted class_bytes tree.now.classes) }
    ensures short { OnOk result (All (λ spec. All IsSizedPart spec.parts) tree.now.classes) }
{
    let count = tree.classes();
    put_number(out, count)?;
    for id in 0..count {
        put_class(out, tree.class(id))?;
    }
    Ok(())
}

fn put_verb_names(out: &mut Vec<u8>, tree: &Tree) -> Result<(), Memory>
    requires { All (λ name. length name ≤ 255) tree.now.verb_names }
    ensures { OnOk result
        (out.new.items ≡ out.old.items ++ counted short_text tree.now.verb_names) }
{
    let count = tree.verb_names();
    put_number(out, count)?;
    for id in 0..count {
        put_short_text(out, tree.verb_name(id))?;
    }
    Ok(())
}

fn put_name(out: &mut Vec<u8>, entry: &NameEntry) -> Result<(), Memory>
    requires { length entry.now.name ≤ 255 }
    ensures bytes { OnOk result (out.new.items ≡ out.old.items ++ name_bytes entry.now) }
    ensures short { OnOk result (entry.now.group < 2 ^ 16) }
{
    put_number(out, u32::from(entry.group))?;
    put_short_text(out, entry.name.bytes())
}

fn put_names(out: &mut Vec<u8>, entries: &[NameEntry]) -> Result<(), Memory>
    requires few { length entries.now ≤ 4294967295 }
    requires short { All (λ entry. length entry.name ≤ 255) entries.now }
    ensures bytes { OnOk result (out.new.items ≡ out.old.items ++ counted name_bytes entries.now) }
    ensures short { OnOk result (All (λ entry. entry.group < 2 ^ 16) entries.now) }
{
    put_number(out, entries.len() as u32)?;
    for entry in entries {
        put_name(out, entry)?;
    }
    Ok(())
}

/// Adds the names of groups, the names of verbs and the classes of a tree.
pub(crate) fn put_tables(out: &mut Vec<u8>, tree: &Tree) -> Result<(), Memory>
    requires few { length tree.now.names ≤ 4294967295 }
    requires names { All (λ entry. length entry.name ≤ 255) tree.now.names }
    requires verb_names { All (λ name. length name ≤ 255) tree.now.verb_names }
    requires classes { All (λ spec. length spec.parts ≤ 4294967295) tree.now.classes }
    ensures bytes { OnOk result (out.new.items ≡ out.old.items ++ tables_bytes tree.now) }
    ensures names { OnOk result (All (λ entry. entry.group < 2 ^ 16) tree.now.names) }
    ensures classes { OnOk result (All (λ spec. All IsSizedPart spec.parts) tree.now.classes) }
{
    put_names(out, tree.names().entries())?;
    put_verb_names(out, tree)?;
    put_classes(out, tree)
}
