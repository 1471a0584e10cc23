//! Properties by their names (pcre2pattern, "Unicode character properties").
ghost use Rattle.std.specs.Prelude.{◌≡◌};
ghost use Rattle.pat_grammar.specs.Classes.{property_part};

use crate::faults::UNKNOWN_PROPERTY;
use pat_lex::Fault;
use pat_tree::{Part, SetName};
use uni_text::Prop;

/// The property of a name as a part of a class. It stands at a place, where an unknown name is told.
pub fn property_part(name: &[u8], not: bool, ucp: bool, at: usize) -> Result<Part, Fault>
    ensures { result ≡ property_part name.now not ucp at }
{
    match Prop::by_name(name) {
        Some(property) => {
            let set = SetName::Property(property.number());
            Ok(Part::Set { set, not, ucp })
        }
        None => Err(Fault {
            number: UNKNOWN_PROPERTY,
            at,
        }),
    }
}
