//! Laws on the definitions, and worked rows.
ghost use Rattle.match_items.specs.Laws.{PlacesStand, TablesShowClasses};
ghost use Rattle.match_items.specs.Rows.{WorkedRows};

/// Seen through a tree's table, a class holds of what the tree's class takes.
pub fn tables_show_classes()
    ensures { TablesShowClasses }
{}

/// The definitions computed: items, runs of one item, `\R`, references and simple assertions.
pub fn worked_rows()
    ensures { WorkedRows }
{}

/// In a subject that can be looked at, items, `\R` and references go from place to place, in UTF
/// too.
pub fn places_stand()
    ensures { PlacesStand }
{}
