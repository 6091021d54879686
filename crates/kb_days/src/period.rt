//! Billing periods.
ghost use Rattle.std.specs.Prelude.{◌≡◌};
ghost use Rattle.kb_days.specs.Periods.{period_days, period_months, period_word};

/// How long each period of billing is.
///
/// | Period | Word | Length |
/// |---|---|---|
/// | `Daily` | DAILY | 1 day |
/// | `Weekly` | WEEKLY | 7 days |
/// | `Biweekly` | BIWEEKLY | 14 days |
/// | `ThirtyDays` | THIRTY_DAYS | 30 days |
/// | `Monthly` | MONTHLY | 1 month |
/// | `Quarterly` | QUARTERLY | 3 months |
/// | `Biannual` | BIANNUAL | 6 months |
/// | `Annual` | ANNUAL | 12 months |
/// | `Biennial` | BIENNIAL | 24 months |
/// | `NoBillingPeriod` | NO_BILLING_PERIOD | none |
#[derive(Clone, Copy, Debug, PartialEq, Eq)]
pub enum Period {
    Daily,
    Weekly,
    Biweekly,
    ThirtyDays,
    Monthly,
    Quarterly,
    Biannual,
    Annual,
    Biennial,
    NoBillingPeriod,
}

impl Period {
    /// How many days the period has; none if it isn't counted in days.
    pub fn days(self) -> Option<u32>
        ensures { result ≡ period_days self }
    {
        match self {
            Period::Daily => Some(1),
            Period::Weekly => Some(7),
            Period::Biweekly => Some(14),
            Period::ThirtyDays => Some(30),
            _ => None,
        }
    }

    /// How many months the period has; none if it isn't counted in months.
    pub fn months(self) -> Option<u32>
        ensures { result ≡ period_months self }
    {
        match self {
            Period::Monthly => Some(1),
            Period::Quarterly => Some(3),
            Period::Biannual => Some(6),
            Period::Annual => Some(12),
            Period::Biennial => Some(24),
            _ => None,
        }
    }

    /// The word of the period, in capitals.
    pub fn word(self) -> &'static [u8]
        ensures { result.now ≡ period_word self }
    {
        match self {
            Period::Daily => b"DAILY",
            Period::Weekly => b"WEEKLY",
            Period::Biweekly => b"BIWEEKLY",
            Period::ThirtyDays => b"THIRTY_DAYS",
            Period::Monthly => b"MONTHLY",
            Period::Quarterly => b"QUARTERLY",
            Period::Biannual => b"BIANNUAL",
            Period::Annual => b"ANNUAL",
            Period::Biennial => b"BIENNIAL",
            Period::NoBillingPeriod => b"NO_BILLING_PERIOD",
        }
    }
}
