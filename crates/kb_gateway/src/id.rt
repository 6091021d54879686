//! The id by which a gateway knows a payment, and the UUID of a text.
ghost use Rattle.std.specs.Prelude.{◌≡◌};
ghost use Rattle.kb_gateway.specs.GatewayIds.{uuid_of, payment_text};

use arrayvec::ArrayVec;
use kb_days::Name;
use uuid::Uuid;

/// The id of a payment: the UUID of version 5 of its account and payment key. Two payments have different
/// texts, and one has the same id whenever it is asked or looked up.
pub fn gateway_id(account: Name, key: Name) -> Uuid
    ensures { result ≡ uuid_of (payment_text account key) }
{
    let mut text = ArrayVec::<u8, 140>::new();
    text.try_extend_from_slice(b"kb:payment:").unwrap();
    text.try_extend_from_slice(account.as_bytes()).unwrap();
    text.try_extend_from_slice(b":").unwrap();
    text.try_extend_from_slice(key.as_bytes()).unwrap();
    uuid_of(&text)
}

/// The UUID of version 5 of a text, in the namespace of URLs.
#[tactic(auto, unfolding(crate::specs::GatewayIds::uuid_of))]
pub fn uuid_of(text: &[u8]) -> Uuid
    ensures { result ≡ uuid_of text.now }
{
    Uuid::new_v5(&Uuid::NAMESPACE_URL, text)
}
