//! An attempt as payments keep it.
ghost use Rattle.std.specs.Prelude.{◌≡◌, IfOk};
ghost use Rattle.std.specs.FinMap as map;

use crate::attempt::{Attempt, Kind, Status};
use kb_base::NoMemory;
use kb_days::{Day, Name};
use kb_sharing::SharedMap;
use std::alloc::Global;
use std::marker::Model;
use std::sync::Arc;

/// An attempt that is kept. The key of a purchase of which it gives back has a place of its own, since few
/// attempts name one.
#[derive(Drop)]
pub struct KeptAttempt {
    kind: Kind,
    invoice: u32,
    of: Option<Arc<Name>>,
    amount: u64,
    day: Day,
    status: Status,
    auto: bool,
}

impl Model for KeptAttempt {
    ghost use Rattle.kb_payment.specs.declared.attempt.Attempt.{Attempt};
    ghost use Rattle.kb_payment.specs.Private.KeptAttempts.{key_in};

    ghost Value = { Attempt };

    ghost view = { λ kept. record {
      kind = kept.kind;
      invoice = kept.invoice;
      of = key_in kept.of;
      amount = kept.amount;
      day = kept.day;
      status = kept.status;
      auto = kept.auto;
    } };
}

impl KeptAttempt {
    /// An attempt, to be kept.
    fn new(alloc: Global, attempt: Attempt) -> Result<KeptAttempt, NoMemory>
        ensures { IfOk result (λ kept. kept ≡ attempt) }
    {
        let of = match attempt.of {
            None => None,
            Some(key) => Some(Arc::new(alloc, key)?),
        };
        Ok(KeptAttempt {
            kind: attempt.kind,
            invoice: attempt.invoice,
            of,
            amount: attempt.amount,
            day: attempt.day,
            status: attempt.status,
            auto: attempt.auto,
        })
    }

    /// The attempt.
    pub fn attempt(&self) -> Attempt
        ensures { result ≡ self.now }
    {
        let of = match &self.of {
            None => None,
            Some(key) => Some(**key),
        };
        Attempt {
            kind: self.kind,
            invoice: self.invoice,
            of,
            amount: self.amount,
            day: self.day,
            status: self.status,
            auto: self.auto,
        }
    }
}

/// Attempts with one at a key, in the place of the one that was there.
pub fn with_kept(
    alloc: Global,
    attempts: &SharedMap<Name, KeptAttempt>,
    key: Name,
    attempt: Attempt,
) -> Result<SharedMap<Name, KeptAttempt>, NoMemory>
    ensures { IfOk result (λ more. more ≡ map.insert attempts.now key attempt) }
{
    let kept = KeptAttempt::new(alloc, attempt)?;
    attempts.with(alloc, key, kept)
}
