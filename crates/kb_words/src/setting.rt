//! The options.
ghost use Rattle.std.specs.Prelude.{◌≡◌};
ghost use Rattle.kb_words.specs.Commands.{may_be_missing, same_setting, setting_name, setting_of};
ghost use Rattle.kb_words.specs.Options.{is_among};

/// An option of a command.
#[derive(Clone, Copy)]
pub enum Setting {
    /// The folder of the lanes.
    Dir,
    /// How many lanes a folder has.
    Lanes,
    /// The file of the catalog's text.
    Catalog,
    /// The file of the overdue text.
    Overdue,
    /// The gateway of payments. It alone may be missing.
    Gateway,
    /// The day that is billed to, or that a report speaks of.
    Day,
    /// How many lanes are billed, or connections served, at once.
    Workers,
    /// The port that is listened on.
    Port,
    /// How many workers drain outboxes.
    Bus,
    /// How many connections are served in all.
    Connections,
    /// What a report lists.
    Kind,
    /// What the draws of the generator begin with.
    Seed,
    /// How many accounts are made.
    Accounts,
    /// How many months are made.
    Months,
}

impl Setting {
    /// The name of the option, which words give behind `--`.
    pub fn name(self) -> &'static str
        ensures { result.now ≡ setting_name self }
    {
        match self {
            Setting::Dir => "dir",
            Setting::Lanes => "lanes",
            Setting::Catalog => "catalog",
            Setting::Overdue => "overdue",
            Setting::Gateway => "gateway",
            Setting::Day => "day",
            Setting::Workers => "workers",
            Setting::Port => "port",
            Setting::Bus => "bus",
            Setting::Connections => "connections",
            Setting::Kind => "kind",
            Setting::Seed => "seed",
            Setting::Accounts => "accounts",
            Setting::Months => "months",
        }
    }

    /// Whether a command may be without the option.
    pub fn may_be_missing(self) -> bool
        ensures { result ≡ may_be_missing self }
    {
        match self {
            Setting::Gateway => true,
            _ => false,
        }
    }

    /// Whether the two are the same option.
    pub fn is_same(self, other: Setting) -> bool
        ensures { result ≡ same_setting self other }
    {
        self.name() == other.name()
    }

    /// Whether the option is one of these.
    pub fn is_among(self, settings: &[Setting]) -> bool
        ensures { result ≡ is_among settings.now self }
    {
        settings.iter().any(|setting| self.is_same(*setting))
    }
}

/// The option of a name.
#[tactic(auto, unfolding(crate::specs::Commands::setting_of))]
pub fn setting_of(name: &str) -> Option<Setting>
    ensures { result ≡ setting_of name.now }
{
    let settings = [
        Setting::Dir,
        Setting::Lanes,
        Setting::Catalog,
        Setting::Overdue,
        Setting::Gateway,
        Setting::Day,
        Setting::Workers,
        Setting::Port,
        Setting::Bus,
        Setting::Connections,
        Setting::Kind,
        Setting::Seed,
        Setting::Accounts,
        Setting::Months,
    ];
    settings
        .iter()
        .copied()
        .find(|setting| setting.name() == name)
}
