//! Laws on the definitions.
ghost use Rattle.dfa_paths.specs.Fragment.{FragmentLaw, PathLaw};

/// A fragment of a graph accepts from a place exactly what its tree takes there and what the state
/// that follows accepts from where that ends.
pub fn fragments_mean()
    ensures { FragmentLaw }
{}

/// The paths of the graph of a tree end exactly where the tree can end.
pub fn paths_end()
    ensures { PathLaw }
{}
