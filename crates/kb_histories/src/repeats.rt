//! Commands that come again.
ghost use Rattle.kb_histories.specs.Repeats.{KeysStandOnce, RepeatsActOnce};

/// A command of a caller that was accepted gets its reply again, whatever came after it, and on whatever day
/// it comes again: so it acts once.
pub fn repeats_act_once()
    ensures again { RepeatsActOnce }
{}

/// No history of accepted commands has two commands of callers with one key of one account, nor two texts of
/// one kind with one key.
pub fn keys_stand_once()
    ensures once { KeysStandOnce }
{}
