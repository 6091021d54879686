//! The words of an answer.
ghost use Rattle.std.specs.Prelude.{◌≡◌};
ghost use Rattle.kb_json.specs.Words.{line_word, kind_word, status_word, state_word, phase_word};

use kb_catalog::PhaseType;
use kb_credit::Line;
use kb_due::Entitlement;
use kb_payment::{Kind, Status};

/// The word of a kind of item.
pub(crate) fn line_word(line: &Line) -> &'static str
    ensures { result.now ≡ line_word line.now }
{
    match line {
        Line::Bill { recurring, .. } => { if *recurring { "RECURRING" } else { "FIXED" } }
        Line::Repair { .. } => "REPAIR_ADJ",
        Line::Charge { .. } => "EXTERNAL_CHARGE",
        Line::Credit { .. } => "CREDIT_ADJ",
        Line::Cba { .. } => "CBA_ADJ",
    }
}

/// The word of a kind of payment.
pub(crate) fn kind_word(kind: Kind) -> &'static str
    ensures { result.now ≡ kind_word kind }
{
    match kind {
        Kind::Purchase => "PURCHASE",
        Kind::Refund => "REFUND",
        Kind::Chargeback => "CHARGEBACK",
    }
}

/// The word of how a payment stands.
pub(crate) fn status_word(status: Status) -> &'static str
    ensures { result.now ≡ status_word status }
{
    match status {
        Status::Unknown => "UNKNOWN",
        Status::Pending => "PENDING",
        Status::Success => "SUCCESS",
        Status::PaymentFailure => "PAYMENT_FAILURE",
        Status::PluginFailure => "PLUGIN_FAILURE",
    }
}

/// The word of how a subscription stands.
pub fn state_word(state: Entitlement) -> &'static str
    ensures { result.now ≡ state_word state }
{
    match state {
        Entitlement::Pending => "PENDING",
        Entitlement::Active => "ACTIVE",
        Entitlement::Blocked => "BLOCKED",
        Entitlement::Cancelled => "CANCELLED",
    }
}

/// The word of a type of phase.
pub(crate) fn phase_word(phase: PhaseType) -> &'static str
    ensures { result.now ≡ phase_word phase }
{
    match phase {
        PhaseType::Trial => "TRIAL",
        PhaseType::Discount => "DISCOUNT",
        PhaseType::FixedTerm => "FIXEDTERM",
        PhaseType::Evergreen => "EVERGREEN",
    }
}
