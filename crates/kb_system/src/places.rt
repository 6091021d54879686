//! The lanes that are out.
ghost use Rattle.std.specs.Prelude.{◌≡◌, ◌++◌, ◌∷◌, [], OnOk, OnErr};
ghost use Rattle.kb_system.specs.Folders.{without};

use crate::place::Place;
use kb_base::NoMemory;
use std::alloc::Global;
use std::marker::Model;

/// Lanes of folders, seen as the list of them.
#[derive(Drop)]
pub struct Places {
    places: Vec<Place>,
}

impl Model for Places {
    ghost use Rattle.std.specs.Prelude.{List};
    ghost use Rattle.kb_system.specs.Folders.{PlaceValue};

    ghost Value = { List PlaceValue };

    ghost view = { λ all. all.places.items };
}

impl Places {
    /// No lane.
    pub fn new(alloc: Global) -> Places
        ensures { result ≡ [] }
    {
        Places {
            places: Vec::new(alloc),
        }
    }

    /// Adds a lane of a folder.
    pub fn add(&mut self, place: Place) -> Result<(), NoMemory>
        ensures ok { OnOk result (self.new ≡ self.old ++ place ∷ []) }
        ensures err { OnErr result (self.new ≡ self.old) }
    {
        Ok(self.places.push(place)?)
    }

    /// Strikes a lane of a folder out.
    pub fn strike(&mut self, folder: &str, lane: u32)
        ensures { self.new ≡ without self.old folder.now lane }
    {
        strike(&mut self.places, folder, lane);
    }
}

/// Strikes a lane of a folder out.
fn strike(places: &mut Vec<Place>, folder: &str, lane: u32)
    ensures { places.new.items ≡ without places.old.items folder.now lane }
{
    places.retain(|place| !place.is(folder, lane));
}
