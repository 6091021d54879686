//! What later versions of a catalog leave as it is.
ghost use Rattle.kb_histories.specs.LaterVersions.{DuesStay, FeesStay, TotalsStay};

/// Later versions change no charge: each day has the due cell and the fee cell that it had, and an account is
/// charged in all what it was.
pub fn later_versions_change_nothing()
    ensures dues { DuesStay }
    ensures fees { FeesStay }
    ensures totals { TotalsStay }
{}
