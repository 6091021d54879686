//! Kinds of report.
ghost use Rattle.std.specs.Prelude.{◌≡◌};
ghost use Rattle.kb_words.specs.Values.{kind_of, kind_word};

/// What a report lists.
#[derive(Clone, Copy, Debug, PartialEq, Eq)]
pub enum ReportKind {
    Balances,
    Arrears,
    States,
}

impl ReportKind {
    /// The word of the kind.
    pub fn word(self) -> &'static str
        ensures { result.now ≡ kind_word self }
    {
        match self {
            ReportKind::Balances => "balances",
            ReportKind::Arrears => "arrears",
            ReportKind::States => "states",
        }
    }
}

/// The kind of a word.
#[tactic(auto, unfolding(crate::specs::Values::kind_of))]
pub fn kind_of(word: &str) -> Option<ReportKind>
    ensures { result ≡ kind_of word.now }
{
    let kinds = [
        ReportKind::Balances,
        ReportKind::Arrears,
        ReportKind::States,
    ];
    kinds.iter().copied().find(|kind| kind.word() == word)
}
