//! The lines that are sent to a gateway.
ghost use Rattle.std.specs.Prelude.{◌≡◌, ◌≤◌, ◌+◌, ◌++◌, length, codes, decimal};
ghost use Rattle.kb_gateway.specs.GatewayLines.{ask_line, look_line, kind_word, id_text};

use crate::order::Order;
use arrayvec::ArrayVec;
use itoa::Buffer;
use kb_payment::Kind;
use uuid::Uuid;

/// The most bytes of a line that is sent.
const MAX_REQUEST: usize = 77;

/// A line that is sent.
pub type Request = ArrayVec<u8, MAX_REQUEST>;

/// The line that asks for an order.
pub fn ask_line(order: &Order) -> Request
    ensures { result.items ≡ ask_line order.now }
{
    let mut line = Request::new();
    line.try_extend_from_slice(b"ASK ").unwrap();
    push_id(&mut line, order.id);
    push_payment(&mut line, order);
    line.try_extend_from_slice(b"\n").unwrap();
    line
}

/// The line that asks what became of an order.
pub fn look_line(order: &Order) -> Request
    ensures { result.items ≡ look_line order.now }
{
    let mut line = Request::new();
    line.try_extend_from_slice(b"LOOK ").unwrap();
    push_id(&mut line, order.id);
    line.try_extend_from_slice(b"\n").unwrap();
    line
}

/// Adds an id.
#[tactic(auto, using(crate::proofs::IdTexts::id_text_long))]
fn push_id(line: &mut Request, id: Uuid)
    requires { length line.old.items ≤ 5 }
    ensures added { line.new.items ≡ line.old.items ++ id_text id }
    ensures long { length line.new.items ≡ length line.old.items + 36 }
{
    let mut text = [0; 36];
    let text = id.hyphenated().encode_lower(&mut text);
    line.try_extend_from_slice(text.as_bytes()).unwrap();
}

/// Adds the kind, the amount and the currency of an order, a space before each.
fn push_payment(line: &mut Request, order: &Order)
    requires { length line.old.items ≤ 40 }
    ensures added { line.new.items ≡ line.old.items ++ (codes " " ++ kind_word order.now.kind
        ++ codes " " ++ decimal order.now.amount ++ codes " " ++ order.now.currency) }
    ensures short { length line.new.items ≤ 76 }
{
    let mut digits = Buffer::new();
    line.try_extend_from_slice(b" ").unwrap();
    line.try_extend_from_slice(kind_word(order.kind)).unwrap();
    line.try_extend_from_slice(b" ").unwrap();
    line.try_extend_from_slice(digits.format(order.amount).as_bytes())
        .unwrap();
    line.try_extend_from_slice(b" ").unwrap();
    line.try_extend_from_slice(order.currency.as_bytes())
        .unwrap();
}

/// The word of a kind.
fn kind_word(kind: Kind) -> &'static [u8]
    ensures word { result.now ≡ kind_word kind }
    ensures short { length result.now ≤ 10 }
{
    match kind {
        Kind::Purchase => b"PURCHASE",
        Kind::Refund => b"REFUND",
        Kind::Chargeback => b"CHARGEBACK",
    }
}
