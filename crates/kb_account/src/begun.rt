//! A command's own edit of a book, before the book is billed.
ghost use Rattle.std.specs.Prelude.{◌≡◌, Some};
ghost use Rattle.kb_book.specs.Commands.{moved_to};

use kb_blocking::Blocks;
use kb_days::{Day, Name};
use kb_payment::Payments;
use kb_timeline::Timeline;
use std::sync::Arc;

/// What moves on an invoice: by how much what is paid on it changes, in minor units. Nothing moves by 0.
#[derive(Clone, Copy)]
pub(crate) struct Move {
    pub invoice: u32,
    pub amount: i128,
}

/// What moves on the invoice of a number.
pub(crate) fn move_on(invoice: u32, amount: i128) -> Move
    ensures { result ≡ record { invoice = invoice; amount = amount } }
{
    Move { invoice, amount }
}

/// What a command's own edit makes of a book. What isn't here stays.
#[derive(Drop)]
pub(crate) struct Begun {
    pub autopay: bool,
    pub timeline: Arc<Timeline>,
    /// Whether a subscription is new.
    pub started: bool,
    pub blocks: Arc<Blocks>,
    pub billed: Option<Day>,
    pub beside: i128,
    pub payments: Arc<Payments>,
    pub moved: Move,
    pub overdue: Option<Name>,
    pub transition: Option<Day>,
}

/// The billed date, moved up to a day, and never back.
pub(crate) fn later(billed: Option<Day>, day: Day) -> Option<Day>
    ensures { result ≡ moved_to billed (Some day) }
{
    match billed {
        None => Some(day),
        Some(billed) => Some(billed.max(day)),
    }
}
