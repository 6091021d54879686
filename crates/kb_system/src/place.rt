//! A lane of a folder.
ghost use Rattle.std.specs.Prelude.{◌≡◌, IfOk};
ghost use Rattle.kb_disk.specs.Places.{is_place};

use std::alloc::{AllocError, Global};
use std::marker::Model;

/// A lane of a folder, by the folder's name and the lane's number.
#[derive(Drop)]
pub struct Place {
    folder: String,
    lane: u32,
}

impl Model for Place {
    ghost use Rattle.std.specs.Prelude.{string_bytes};
    ghost use Rattle.kb_system.specs.Folders.{PlaceValue};

    ghost Value = { PlaceValue };

    ghost view = { λ place. record { folder = string_bytes place.folder; lane = place.lane } };
}

impl Place {
    /// This lane of this folder.
    pub fn new(alloc: Global, folder: &str, lane: u32) -> Result<Place, AllocError>
        ensures { IfOk result (λ place. place ≡ record { folder = folder.now; lane = lane }) }
    {
        let folder = folder.to_string(alloc)?;
        Ok(Place { folder, lane })
    }

    /// Whether it is this lane of this folder.
    pub fn is(&self, folder: &str, lane: u32) -> bool
        ensures { result ≡ is_place self.now.folder self.now.lane folder.now lane }
    {
        self.folder.as_str() == folder && self.lane == lane
    }
}
