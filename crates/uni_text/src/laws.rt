// Laws on the definitions, and worked rows.
ghost use Rattle.uni_text.specs.Laws.{FoldingsAreFixed, NumbersAreInverse, OthersHaveNoProperty};
ghost use Rattle.uni_text.specs.Laws.{PlacesAreBetweenCharacters, ValidPartIsLongest};
ghost use Rattle.uni_text.specs.Rows.{FoldingRows, PropertyRows, WorkedRows};

/// A character's place in a checked text is one with whole characters before it.
pub fn places_are_between_characters()
    ensures { PlacesAreBetweenCharacters }
{}

/// The length at which bytes are refused is that of the longest part from their start on that is UTF-8.
pub fn valid_part_is_longest()
    ensures { ValidPartIsLongest }
{}

/// The property of a number and the number of a property are inverse.
pub fn numbers_are_inverse()
    ensures { NumbersAreInverse }
{}

/// Folding twice is folding once, and a number that is no character folds to itself.
pub fn foldings_are_fixed()
    ensures { FoldingsAreFixed }
{}

/// A number that is no character has no property.
pub fn others_have_no_property()
    ensures { OthersHaveNoProperty }
{}

/// The definitions computed on small texts.
pub fn worked_rows()
    ensures { WorkedRows }
{}

/// Properties by their names, and what they ask of a character.
pub fn worked_properties()
    ensures { PropertyRows }
{}

/// Foldings and sets at single characters.
pub fn worked_foldings()
    ensures { FoldingRows }
{}
