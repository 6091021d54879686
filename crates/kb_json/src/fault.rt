//! Why a line is no request.
ghost use Rattle.std.specs.Prelude.{◌≡◌};
ghost use Rattle.kb_json.specs.Asked.{text_fault};
ghost use Rattle.kb_json.specs.Requests.{fault_number};

use kb_base::NoMemory;
use kb_catalog_text::TextFault;
use std::alloc::AllocError;
use thiserror::Error;

/// What is wrong with a line as JSON.
#[derive(Clone, Copy, Debug, PartialEq, Eq, Error)]
pub enum JsonFault {
    /// 1: it isn't JSON.
    #[error("the line isn't JSON: correct what a JSON reader complains of")]
    NotJson,
    /// 2: it isn't an object.
    #[error("the line isn't a JSON object: put the members between braces")]
    NotAnObject,
    /// 3: there is no known word at `do`.
    #[error("the member 'do' isn't a word that can be asked for: correct it")]
    NoKind,
    /// 4: a member is missing.
    #[error("a member is missing: add it")]
    Missing,
    /// 5: a member's value is of another type, or isn't a whole number in its range.
    #[error("a member's value is of another type or out of range: correct it")]
    WrongType,
    /// 6: a member isn't one of the request.
    #[error("a member isn't known in this request: take it out, or spell it otherwise")]
    Unknown,
}

/// Why a line is no request: the first fault in the order of the format.
#[derive(Debug, Drop, Error)]
pub enum RequestFault {
    /// It isn't JSON of the form that is asked for.
    #[error("{0}")]
    Json(JsonFault),
    /// A name, key, currency or word isn't one, or a reserved key is used.
    #[error("a name, key, currency or word isn't one: correct it")]
    BadName,
    /// A day isn't one that may be named, or a cycle day is above 31.
    #[error("a day isn't one from 2000-01-01 to 2099-12-31, or a cycle day is above 31: correct it")]
    BadDate,
    /// A catalog text or an overdue text has this fault.
    #[error("{0}")]
    Text(TextFault),
    /// Memory ran out.
    #[error("out of memory")]
    NoMemory,
}

impl JsonFault {
    /// The number of the fault: 1 to 6.
    pub fn number(self) -> u32
        ensures { result ≡ fault_number self }
    {
        match self {
            JsonFault::NotJson => 1,
            JsonFault::NotAnObject => 2,
            JsonFault::NoKind => 3,
            JsonFault::Missing => 4,
            JsonFault::WrongType => 5,
            JsonFault::Unknown => 6,
        }
    }
}

impl From<TextFault> for RequestFault {
    ghost from_gives = { λ text fault. fault ≡ text_fault text };

    fn from(fault: TextFault) -> RequestFault {
        match fault {
            TextFault::Memory => RequestFault::NoMemory,
            other => RequestFault::Text(other),
        }
    }
}

impl From<NoMemory> for RequestFault {
    ghost use Rattle.kb_json.specs.declared.fault.RequestFault.TheVariants as faults;

    ghost from_gives = { λ _ fault. fault ≡ faults.NoMemory };

    fn from(_: NoMemory) -> RequestFault {
        RequestFault::NoMemory
    }
}

impl From<AllocError> for RequestFault {
    ghost use Rattle.kb_json.specs.declared.fault.RequestFault.TheVariants as faults;

    ghost from_gives = { λ _ fault. fault ≡ faults.NoMemory };

    fn from(_: AllocError) -> RequestFault {
        RequestFault::NoMemory
    }
}
