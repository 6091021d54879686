//! Answers as they are kept.
ghost use Rattle.std.specs.Prelude.{◌≡◌, IfOk};
ghost use Rattle.kb_account.specs.Private.KeptSums.{sums_in};

use kb_base::NoMemory;
use kb_book::Answer;
use std::alloc::Global;
use std::marker::Model;
use std::sync::Arc;

/// The sums of an answer, in minor units. They take less room if they have 32 bits, as nearly all have.
#[derive(Drop)]
enum KeptSums {
    Small {
        total: i32,
        credit: i32,
        unpaid: i32,
    },
    Large(Arc<Answer>),
}

/// An answer as it is kept.
#[derive(Drop)]
pub(crate) struct KeptAnswer {
    command: u64,
    invoice: Option<u32>,
    sums: KeptSums,
}

impl Model for KeptAnswer {
    ghost use Rattle.kb_book.specs.declared.answer.Answer.{Answer};
    ghost use Rattle.kb_account.specs.Private.KeptSums.{sums_in};

    ghost Value = { Answer };

    ghost view = { λ kept. record {
      command = kept.command;
      invoice = kept.invoice;
      total = (sums_in kept.sums).0;
      credit = (sums_in kept.sums).1;
      unpaid = (sums_in kept.sums).2;
    } };
}

impl KeptAnswer {
    /// An answer, to be kept.
    pub fn new(alloc: Global, answer: Answer) -> Result<KeptAnswer, NoMemory>
        ensures { IfOk result (λ kept. kept ≡ answer) }
    {
        let sums = KeptSums::of(alloc, answer)?;
        Ok(KeptAnswer {
            command: answer.command,
            invoice: answer.invoice,
            sums,
        })
    }

    /// The answer.
    pub fn answer(&self) -> Answer
        ensures { result ≡ self.now }
    {
        let (total, credit, unpaid) = self.sums.sums();
        Answer {
            command: self.command,
            invoice: self.invoice,
            total,
            credit,
            unpaid,
        }
    }
}

impl KeptSums {
    /// Those of an answer.
    fn of(alloc: Global, answer: Answer) -> Result<KeptSums, NoMemory>
        ensures { IfOk result (λ sums. sums_in sums ≡ (answer.total, answer.credit, answer.unpaid)) }
    {
        let sums = (
            i32::try_from(answer.total),
            i32::try_from(answer.credit),
            i32::try_from(answer.unpaid),
        );
        match sums {
            (Ok(total), Ok(credit), Ok(unpaid)) => Ok(KeptSums::Small {
                total,
                credit,
                unpaid,
            }),
            _ => Ok(KeptSums::Large(Arc::new(alloc, answer)?)),
        }
    }

    /// The total, the credit, and what is unpaid.
    fn sums(&self) -> (i128, i128, i128)
        ensures { result ≡ sums_in self.now }
    {
        match self {
            KeptSums::Small {
                total,
                credit,
                unpaid,
            } => ((*total).into(), (*credit).into(), (*unpaid).into()),
            KeptSums::Large(answer) => (answer.total, answer.credit, answer.unpaid),
        }
    }
}
