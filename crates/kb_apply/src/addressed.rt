//! The lanes that a request is on.
ghost use Rattle.std.specs.Prelude.{◌≡◌, ◌≤◌, ◌<◌, ◌+◌, if◌then◌else◌, None, Some};
ghost use Rattle.kb_desk.specs.Lanes.{lane_of};
ghost use Rattle.kb_codec.specs.Senders.{is_text, account_of};
ghost use Rattle.kb_apply.specs.Addressed.{account_on, first_lane, lanes_on};

use kb_codec::Command;
use kb_days::Name;
use kb_desk::lane_of;
use kb_json::What;
use kb_lane::account_asked;

/// The first of the lanes that a request is on, numbered from 0, and how many there are, among so many.
pub fn lanes_of(what: &What, count: usize) -> (usize, usize)
    requires some { 1 ≤ count }
    requires few { count ≤ 64 }
    ensures first { result.0 ≡ first_lane count (account_on what.now) }
    ensures count { result.1 ≡ lanes_on count (account_on what.now) }
    ensures within { result.0 + result.1 ≤ count }
{
    match account_on(what) {
        Some(account) => (place_of(account, count), 1),
        None => (0, count),
    }
}

/// The place, numbered from 0, of the lane of an account among so many.
pub fn place_of(account: Name, count: usize) -> usize
    requires some { 1 ≤ count }
    requires few { count ≤ 64 }
    ensures place { result ≡ lane_of account count }
    ensures within { result < count }
{
    lane_of(account, count as u32) as usize
}

/// The account that a request is on; none if it is on all lanes.
pub fn account_on(what: &What) -> Option<Name>
    ensures { result ≡ account_on what.now }
{
    match what {
        What::Command(command) => account_of(command),
        What::Query(query) => Some(account_asked(query)),
        What::Janitor => None,
    }
}

/// The account of a command; none of a text.
pub fn account_of(command: &Command) -> Option<Name>
    ensures { result ≡ (if is_text command.now then None else Some (account_of command.now)) }
{
    match command {
        Command::Catalog(_) | Command::OverdueRules(_) => None,
        _ => kb_machine::account_of(command),
    }
}
