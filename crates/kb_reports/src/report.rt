//! What a report says of an account.
ghost use Rattle.std.specs.Prelude.{◌≡◌, ◌++◌, OnOk};
ghost use Rattle.kb_reports.specs.Listings.{Said};

use kb_account::{Book, World};
use kb_base::NoMemory;
use kb_days::Name;
use std::alloc::Global;

/// A report, by what it says of an account.
pub trait Report {
    /// The lines of an account, by its name, the texts of its lane, and its book.
    ghost said: { Self → Said };

    /// Adds the lines of an account to a text.
    fn say(
        &self,
        alloc: Global,
        text: &mut Vec<u8>,
        account: &Name,
        world: &World,
        book: &Book,
    ) -> Result<(), NoMemory>
        ensures { OnOk result (text.new.items
            ≡ text.old.items ++ said self.now account.now world.now book.now) };
}
