//! The lane of an account.
ghost use Rattle.std.specs.Prelude.{◌≡◌, ◌≤◌, ◌<◌};
ghost use Rattle.kb_gateway.specs.GatewayIds.{uuid_of};
ghost use Rattle.kb_desk.specs.Lanes.{account_text, lane_of};

use arrayvec::ArrayVec;
use kb_days::Name;
use kb_gateway::uuid_of;
use uuid::Uuid;

/// The lane of an account among so many, numbered from 0.
pub fn lane_of(account: Name, lanes: u32) -> u32
    requires some_lane { 1 ≤ lanes }
    ensures value { result ≡ lane_of account lanes }
    ensures within { result < lanes }
{
    let number = account_uuid(account).as_u128();
    (number % u128::from(lanes)) as u32
}

/// The UUID of an account.
fn account_uuid(account: Name) -> Uuid
    ensures { result ≡ uuid_of (account_text account) }
{
    let mut text = ArrayVec::<u8, 75>::new();
    text.try_extend_from_slice(b"kb:account:").unwrap();
    text.try_extend_from_slice(account.as_bytes()).unwrap();
    uuid_of(&text)
}
