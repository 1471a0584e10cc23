//! What stands between the brackets of a class (pcre2pattern, "Square brackets and character classes").
ghost use Rattle.std.specs.Prelude.{◌≡◌, Bool, false, true, ◌<◌, ◌≤◌, [], length, suc, Ok, Err, IfOk, IfErr, IfSome};
ghost use Rattle.std.specs.Option.{option_map_or};
ghost use Rattle.token_parts.specs.Tell.{IsWell, Moves};
ghost use Rattle.pat_grammar.specs.Classes.{character, is_hyphen, is_last, is_last_item, part_then, class_parts};
ghost use Rattle.pat_grammar.specs.Classes.{class_spec};
ghost use Rattle.pat_grammar.specs.State.{item};
ghost use Rattle.pat_grammar.specs.Places.{Always, AlwaysFromStart, GivesPart, GivesFault, range_between};
ghost use Rattle.pat_grammar.specs.Places.{character_between, set_before, item_between, is_closing, Tells, IfBad};
ghost use Rattle.pat_grammar.specs.Places.{IsClassFault};

use crate::cursor::{Cursor, Place, Spot};
use crate::error::ReadError;
use crate::faults::{NO_RANGE, RANGE_OUT_OF_ORDER, UNCLOSED_CLASS};
use crate::properties::property_part;
use pat_lex::{Fault, Token};
use pat_tree::{ClassSpec, Part, PartList};
use std::alloc::Global;
use token_parts::LEFT_OUT;

/// The character that a token stands for where a range may end.
fn character(token: Token) -> Option<u32>
    ensures { result ≡ character token }
{
    match token {
        Token::Literal(c) => Some(c),
        Token::Hyphen => Some(u32::from(b'-')),
        _ => None,
    }
}

fn is_hyphen(token: Token) -> bool
    ensures { result ≡ is_hyphen token }
{
    matches!(token, Token::Hyphen)
}

/// Whether nothing of the class follows.
fn is_last(token: Token) -> bool
    ensures { result ≡ is_last token }
{
    matches!(token, Token::ClassEnd | Token::End)
}

impl<'a> Cursor<'a> {
    /// What a character at `here` and a hyphen begin, the hyphen being between two places: with a character after it a
    /// range. The hyphen is a character where it is last, and may not stand before a set.
    fn range_or_hyphen(
        &self,
        c: u32,
        here: Place,
        before: Place,
        after: Place,
    ) -> Result<(Part, Place), Fault>
        requires begins { here.at ≤ before.at }
        requires order { before.at ≤ after.at }
        requires within { after.at ≤ length self.now.text.now }
        ensures part { IfOk result
            (λ r. GivesPart self.now after (range_between c here before after) r.0 r.1) }
        ensures bad { IfErr result
            (λ f. GivesFault self.now after (range_between c here before after) f) }
        ensures past { IfOk result (λ r. before.at ≤ r.1.at) }
        ensures within { IfOk result (λ r. r.1.at ≤ length self.now.text.now) }
        ensures number { IfErr result (λ f. IsClassFault f.number) }
        ensures place { IfErr result (λ f. f.at ≤ length self.now.text.now) }
    {
        let item = self.item(after, true)?;
        match character(item.token) {
            Some(d) => {
                if d < c {
                    return Err(Fault {
                        number: RANGE_OUT_OF_ORDER,
                        at: here.at,
                    });
                }
                Ok((Part::Range { from: c, to: d }, item.after))
            }
            None => {
                if is_last(item.token) {
                    return Ok((Part::Range { from: c, to: c }, before));
                }
                Err(Fault {
                    number: NO_RANGE,
                    at: before.at,
                })
            }
        }
    }

    /// What a character at `here` begins, the place after it being given.
    fn from_character(&self, c: u32, here: Place, after: Place) -> Result<(Part, Place), Fault>
        requires begins { here.at ≤ after.at }
        requires within { after.at ≤ length self.now.text.now }
        ensures part { IfOk result
            (λ r. GivesPart self.now after (character_between c here after) r.0 r.1) }
        ensures bad { IfErr result
            (λ f. GivesFault self.now after (character_between c here after) f) }
        ensures past { IfOk result (λ r. after.at ≤ r.1.at) }
        ensures within { IfOk result (λ r. r.1.at ≤ length self.now.text.now) }
        ensures number { IfErr result (λ f. IsClassFault f.number) }
        ensures place { IfErr result (λ f. f.at ≤ length self.now.text.now) }
    {
        let hyphen = self.item(after, true)?;
        if is_hyphen(hyphen.token) {
            let range = self.range_or_hyphen(c, here, hyphen.here, hyphen.after)?;
            return Ok(range);
        }
        Ok((Part::Range { from: c, to: c }, after))
    }

    /// Whether nothing of the class follows a place. A faulty token is something.
    fn is_last_at(&self, place: Place) -> bool
        requires { place.at ≤ length self.now.text.now }
        ensures { Always self.now place
            (λ text n state. is_last_item (item text true n (state place)) ≡ result) }
    {
        match self.item(place, true) {
            Ok(item) => is_last(item.token),
            Err(_) => false,
        }
    }

    /// A set, the place after it being given: a hyphen after it must be last.
    fn from_set(&self, set: Part, after: Place) -> Result<(Part, Place), Fault>
        requires { after.at ≤ length self.now.text.now }
        ensures part { IfOk result (λ r. GivesPart self.now after (set_before set after) r.0 r.1) }
        ensures bad { IfErr result (λ f. GivesFault self.now after (set_before set after) f) }
        ensures past { IfOk result (λ r. after.at ≤ r.1.at) }
        ensures within { IfOk result (λ r. r.1.at ≤ length self.now.text.now) }
        ensures number { IfErr result (λ f. IsClassFault f.number) }
        ensures place { IfErr result (λ f. f.at ≤ length self.now.text.now) }
    {
        let hyphen = self.item(after, true)?;
        if is_hyphen(hyphen.token) && !self.is_last_at(hyphen.after) {
            return Err(Fault {
                number: NO_RANGE,
                at: hyphen.here.at,
            });
        }
        Ok((set, after))
    }

    /// Whether a token closes the class. A bracket that comes first is a character, unless a class may be empty.
    fn closes(&self, first: bool, token: Token) -> bool
        ensures { result ≡ is_closing first self.now.options.allow_empty_class token }
    {
        matches!(token, Token::ClassEnd) && !(first && !self.options.allow_empty_class)
    }

    /// The part that begins at an item of a class that doesn't close it, and the place after it.
    fn part(&self, item: Spot) -> Result<(Part, Place), Fault>
        requires begins { item.here.at ≤ item.after.at }
        requires moves { Moves self.now.text.now item.here.at item.token item.after.at }
        requires within { item.after.at ≤ length self.now.text.now }
        requires well { IsWell self.now.text.now item.token }
        ensures part { IfOk result
            (λ r. (first : Bool) → is_closing first self.now.options.allow_empty_class item.token
            ≡ false → GivesPart self.now item.after
            (item_between first item.token item.here item.after) r.0 r.1) }
        ensures bad { IfErr result
            (λ f. (first : Bool) → is_closing first self.now.options.allow_empty_class item.token
            ≡ false → GivesFault self.now item.after
            (item_between first item.token item.here item.after) f) }
        ensures past { IfOk result (λ r. item.here.at < r.1.at) }
        ensures within { IfOk result (λ r. r.1.at ≤ length self.now.text.now) }
        ensures number { IfErr result (λ f. IsClassFault f.number) }
        ensures place { IfErr result (λ f. f.at ≤ length self.now.text.now) }
    {
        let Spot { token, here, after } = item;
        match token {
            Token::End => Err(Fault {
                number: UNCLOSED_CLASS,
                at: self.text.len(),
            }),
            Token::ClassEnd => self.from_character(u32::from(b']'), here, after),
            Token::Hyphen => self.from_character(u32::from(b'-'), here, after),
            Token::Literal(c) => self.from_character(c, here, after),
            Token::Set { set, not } => {
                let ucp = self.options.ucp;
                self.from_set(Part::Set { set, not, ucp }, after)
            }
            Token::Property { from, to, not } => {
                let name = &self.text[from..to];
                let part = property_part(name, not, self.options.ucp, here.at)?;
                self.from_set(part, after)
            }
            _ => Err(Fault {
                number: LEFT_OUT,
                at: here.at,
            }),
        }
    }

    /// The part that begins at a place of a class, and the place after it; no part where the class is closed, and the
    /// place after the bracket.
    fn step(&self, first: bool, place: Place) -> Result<(Option<Part>, Place), Fault>
        requires { place.at ≤ length self.now.text.now }
        ensures step { IfOk result
            (λ r. Always self.now place
            (λ text n state. class_parts text (suc n) first (state place)
            ≡ option_map_or (λ p. part_then p (class_parts text n false (state r.1))) r.0
            (Ok ([], state r.1)))) }
        ensures bad { IfErr result
            (λ f. Always self.now place
            (λ text n state. class_parts text (suc n) first (state place) ≡ Err f)) }
        ensures past { IfOk result (λ r. place.at ≤ r.1.at) }
        ensures more { IfOk result (λ r. IfSome r.0 (λ p. place.at < r.1.at)) }
        ensures within { IfOk result (λ r. r.1.at ≤ length self.now.text.now) }
        ensures number { IfErr result (λ f. IsClassFault f.number) }
        ensures place { IfErr result (λ f. f.at ≤ length self.now.text.now) }
    {
        let item = self.item(place, true)?;
        if self.closes(first, item.token) {
            return Ok((None, item.after));
        }
        let (part, next) = self.part(item)?;
        Ok((Some(part), next))
    }

    /// The parts of a class from the place after its opening bracket on, and the place after the closing one.
    fn parts(&self, alloc: Global) -> Result<(PartList, Place), ReadError>
        requires { self.now.place.at ≤ length self.now.text.now }
        ensures parts { IfOk result
            (λ r. AlwaysFromStart self.now self.now.place
            (λ text n state. class_parts text n true (state self.now.place)
            ≡ Ok (r.0, state r.1))) }
        ensures bad { IfErr result
            (λ e. AlwaysFromStart self.now self.now.place
            (λ text n state. Tells (class_parts text n true (state self.now.place)) e)) }
        ensures past { IfOk result (λ r. self.now.place.at ≤ r.1.at) }
        ensures within { IfOk result (λ r. r.1.at ≤ length self.now.text.now) }
        ensures number { IfErr result (λ e. IfBad e (λ number at. IsClassFault number)) }
        ensures place { IfErr result (λ e. IfBad e (λ number at. at ≤ length self.now.text.now)) }
    {
        let mut parts = PartList::new(alloc);
        let mut place = self.place;
        let mut first = true;
        'items: loop {
            let (part, next) = self.step(first, place)?;
            match part {
                Some(part) => parts.push(part)?,
                None => return Ok((parts, next)),
            }
            place = next;
            first = false;
        }
    }
}

/// A class from the place after its opening bracket on, which is the cursor's, and the place after the closing one. A
/// closing bracket that comes first is a character, unless ALLOW_EMPTY_CLASS is set. Of faults the first from the left
/// is told: 106 at the text's end where the class isn't closed, 108 at the first character of a range that is out of
/// order, 147 at a property of an unknown name, 150 at a hyphen beside a set, and the faults of the tokens.
pub fn read_class(
    alloc: Global,
    cursor: &Cursor,
    negated: bool,
) -> Result<(ClassSpec, Place), ReadError>
    requires { cursor.now.place.at ≤ length cursor.now.text.now }

    // The class and the place after it, or the fault, are those of the definition: from every state of the reader at
    // the cursor, and for every bound of at least two more than the bytes that are left. The rest of the state stays as
    // it was.
    ensures class { IfOk result
        (λ r. AlwaysFromStart cursor.now cursor.now.place
        (λ text n state. class_spec text n negated (state cursor.now.place)
        ≡ Ok (r.0, state r.1))) }
    ensures bad { IfErr result
        (λ e. AlwaysFromStart cursor.now cursor.now.place
        (λ text n state. Tells (class_spec text n negated (state cursor.now.place)) e)) }
    ensures past { IfOk result (λ r. cursor.now.place.at ≤ r.1.at) }
    ensures within { IfOk result (λ r. r.1.at ≤ length cursor.now.text.now) }
    ensures number { IfErr result (λ e. IfBad e (λ number at. IsClassFault number)) }
    ensures place { IfErr result (λ e. IfBad e (λ number at. at ≤ length cursor.now.text.now)) }
{
    let (parts, end) = cursor.parts(alloc)?;
    let caseless = cursor.options.caseless;
    let spec = ClassSpec {
        negated,
        caseless,
        parts,
    };
    Ok((spec, end))
}
