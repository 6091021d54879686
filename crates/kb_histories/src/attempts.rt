//! What becomes of attempts.
ghost use Rattle.kb_histories.specs.Stays.{AttemptsStay, FinalAttemptsStay};
ghost use Rattle.kb_histories.specs.Settlements.{SettlementsSettle, SettlementsAreNew};
ghost use Rattle.kb_histories.specs.Settlements.{SettlementsLeaveOthers};
ghost use Rattle.kb_histories.specs.Begins.{AttemptsBegin, BegunKeysAreFree};

/// An attempt stays as it is until it is settled, and for good once it is final.
pub fn attempts_stay()
    ensures stay { AttemptsStay }
    ensures for_good { FinalAttemptsStay }
{}

/// A new settlement gives its attempt its status, and leaves every other one as it is. One of an open
/// attempt to another status is new.
pub fn settlements_settle()
    ensures settled { SettlementsSettle }
    ensures new { SettlementsAreNew }
    ensures others { SettlementsLeaveOthers }
{}

/// A new command that begins an attempt leaves it as one of which nothing is known yet, under a key that was
/// free.
pub fn attempts_begin()
    ensures begun { AttemptsBegin }
    ensures free { BegunKeysAreFree }
{}
