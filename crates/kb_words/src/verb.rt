//! The commands.
ghost use Rattle.std.specs.Prelude.{◌≡◌, Option};
ghost use Rattle.kb_words.specs.Commands.{settings_of, verb_of, verb_word};

use crate::setting::Setting;

/// A command.
#[derive(Clone, Copy)]
pub enum Verb {
    /// Makes lanes, with a catalog and overdue rules.
    Init,
    /// Answers the lines of the input.
    Apply,
    /// Bills all accounts on a day.
    Bill,
    /// Serves HTTP connections.
    Serve,
    /// Prints a report.
    Report,
    /// Runs the generator of commands in memory.
    Make,
}

impl Verb {
    /// The word of the command.
    pub fn word(self) -> &'static str
        ensures { result.now ≡ verb_word self }
    {
        match self {
            Verb::Init => "init",
            Verb::Apply => "apply",
            Verb::Bill => "bill",
            Verb::Serve => "serve",
            Verb::Report => "report",
            Verb::Make => "make",
        }
    }

    /// The options of the command.
    pub fn settings(self) -> &'static [Setting]
        ensures { result.now ≡ settings_of self }
    {
        match self {
            Verb::Init => &[
                Setting::Dir,
                Setting::Lanes,
                Setting::Catalog,
                Setting::Overdue,
            ],
            Verb::Apply => &[Setting::Dir, Setting::Gateway],
            Verb::Bill => &[
                Setting::Dir,
                Setting::Day,
                Setting::Workers,
                Setting::Gateway,
            ],
            Verb::Serve => &[
                Setting::Dir,
                Setting::Port,
                Setting::Workers,
                Setting::Bus,
                Setting::Connections,
                Setting::Gateway,
            ],
            Verb::Report => &[Setting::Dir, Setting::Kind, Setting::Day],
            Verb::Make => &[Setting::Seed, Setting::Accounts, Setting::Months],
        }
    }
}

/// The command of a word.
#[tactic(auto, unfolding(crate::specs::Commands::verb_of))]
pub fn verb_of(word: &str) -> Option<Verb>
    ensures { result ≡ verb_of word.now }
{
    let verbs = [
        Verb::Init,
        Verb::Apply,
        Verb::Bill,
        Verb::Serve,
        Verb::Report,
        Verb::Make,
    ];
    verbs.iter().copied().find(|verb| verb.word() == word)
}
