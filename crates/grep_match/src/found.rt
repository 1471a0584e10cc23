//! The matches of a line.
ghost use Rattle.std.specs.Prelude.{◌≡◌, ◌<◌, [], ◌++◌, ◌∷◌, length, slice_get, Some, OnOk};

use pcre_io::Memory;
use pcre2_api::Span;
use std::alloc::Global;
use std::marker::Model;

/// Where a match stands in its line, in bytes.
#[derive(Clone, Copy, Debug, PartialEq, Eq)]
pub struct Place {
    pub keep: usize,
    pub to: usize,
}

/// The matches of a line, in order, each with the places of the groups that are shown. It keeps the room that it has.
#[derive(Drop)]
pub struct MatchList {
    places: Vec<Place>,
    groups: Vec<Option<Span>>,
}

impl Model for MatchList {
    ghost use Rattle.grep_match.specs.Found.{Listed};

    ghost Value = { Listed };

    ghost view = { λ list. record { places = list.places.items; groups = list.groups.items } };
}

impl MatchList {
    /// No match. Takes no memory.
    pub fn new(alloc: Global) -> MatchList
        ensures { result ≡ record { places = []; groups = [] } }
    {
        MatchList {
            places: Vec::new(alloc),
            groups: Vec::new(alloc),
        }
    }

    /// Takes all matches away.
    pub fn clear(&mut self)
        ensures { self.new ≡ record { places = []; groups = [] } }
    {
        self.places.clear();
        self.groups.clear();
    }

    /// Adds a match.
    pub fn push_place(&mut self, place: Place) -> Result<(), Memory>
        ensures { OnOk result (self.new ≡ record self.old
            { places = self.old.places ++ place ∷ [] }) }
    {
        self.places.push(place)?;
        Ok(())
    }

    /// Adds a group of the last match.
    pub fn push_group(&mut self, group: Option<Span>) -> Result<(), Memory>
        ensures { OnOk result (self.new ≡ record self.old
            { groups = self.old.groups ++ group ∷ [] }) }
    {
        self.groups.push(group)?;
        Ok(())
    }

    /// How many matches there are.
    pub fn len(&self) -> usize
        ensures { result ≡ length self.now.places }
    {
        self.places.len()
    }

    /// The place of a match.
    pub fn place(&self, i: usize) -> Place
        requires { i < length self.now.places }
        ensures { slice_get self.now.places i ≡ Some result }
    {
        self.places[i]
    }

    /// The groups of all matches, those of each after those of the one before.
    pub fn groups(&self) -> &[Option<Span>]
        ensures { result.now ≡ self.now.groups }
    {
        self.groups.as_slice()
    }
}
