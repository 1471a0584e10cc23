//! Laws on the definitions.
ghost use Rattle.pat_lengths.specs.HasLength.{LengthLaws};
ghost use Rattle.pat_lengths.specs.Lookbehinds.{FirstRefusedLaw};

/// The lengths that are told of a tree are the least and the greatest of those that it can match, or say that there is
/// no length or no greatest one. One call more inside one another than there are groups is enough for the least.
pub fn lengths_are_bounds()
    ensures { LengthLaws }
{}

/// Where the nodes of a tree stand in the order in which the parts of its pattern end, the leftmost fault of a
/// lookbehind is that of the first lookbehind that is refused, by the nested value and the places alone.
pub fn first_refused_is_leftmost()
    ensures { FirstRefusedLaw }
{}
