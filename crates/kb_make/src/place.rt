//! How far the commands of a seed have come.
ghost use Rattle.std.specs.Prelude.{◌≡◌, ◌<◌, ◌^◌, ◌≤◌, true, [], IsNone, IfSome};
ghost use Rattle.kb_make.specs.SeedCommands.{is_seeded};
ghost use Rattle.kb_make.specs.Seeds.{of_accounts};
ghost use Rattle.kb_make.specs.Private.Places.{unsent, waiting_of, IsPlace, Sends};
ghost use Rattle.kb_make.specs.declared.place.Waiting.TheVariants.{Nothing};

use crate::commands::{bill, choice, creation, opening};
use crate::days::{first_of_month, start_day};
use crate::draws::Draws;
use kb_codec::Command;
use kb_days::{Day, Name};

/// How far the commands have come. An account is sent what waits, and then what its months bring; after them
/// the next account is opened.
#[derive(Drop)]
pub(crate) struct Place {
    pub(crate) draws: Draws,
    /// The number of the account that was opened last, or 0.
    pub(crate) account: u32,
    pub(crate) waiting: Waiting,
    /// The next month, counted from January 2024.
    pub(crate) month: u32,
    /// How many months are left to the account.
    pub(crate) months_left: u32,
    /// How many accounts are still to be opened.
    pub(crate) accounts_left: u32,
    /// How many months each account has.
    pub(crate) months: u32,
}

/// What waits to be sent to an account, on the day of what it was sent last.
#[derive(Drop)]
pub(crate) enum Waiting {
    Nothing,
    Creation(Day),
    Bill(Day),
}

impl Place {
    /// Before the first command.
    #[tactic(auto, unfolding(crate::specs::Seeds::in_months, crate::specs::Draws::after_draws))]
    pub(crate) fn first(seed: u32, accounts: u32, months: u32) -> Place
        requires seed { seed < 2 ^ 31 }
        requires accounts { accounts ≤ 10000 }
        requires months { months ≤ 120 }
        ensures unsent { unsent result ≡ of_accounts seed 1 accounts months }
        ensures place { IsPlace result }
    {
        Place {
            draws: Draws::of_seed(seed),
            account: 0,
            waiting: Waiting::Nothing,
            month: 1,
            months_left: 0,
            accounts_left: accounts,
            months,
        }
    }

    /// The next command with its day, under a key; none after the last.
    pub(crate) fn next(&mut self, key: Name) -> Option<(Day, Command)>
        requires place { IsPlace self.old }
        ensures sent { IfSome result (λ sent. Sends (unsent self.old) key sent (unsent self.new)) }
        ensures over { IsNone result → unsent self.old ≡ [] }
        ensures unchanged { IsNone result → self.new ≡ self.old }
        ensures kind { IfSome result (λ sent. is_seeded sent.1 ≡ true) }
        ensures place { IsPlace self.new }
    {
        match self.next_waiting(key) {
            Some(sent) => Some(sent),
            None if self.months_left > 0 => Some(self.next_month(key)),
            None if self.accounts_left > 0 => Some(self.next_account(key)),
            None => None,
        }
    }

    /// What waits, if something does.
    fn next_waiting(&mut self, key: Name) -> Option<(Day, Command)>
        requires place { IsPlace self.old }
        ensures sent { IfSome result (λ sent. Sends (unsent self.old) key sent (unsent self.new)) }
        ensures over { IsNone result → self.old.waiting ≡ Nothing }
        ensures unchanged { IsNone result → self.new ≡ self.old }
        ensures kind { IfSome result (λ sent. is_seeded sent.1 ≡ true) }
        ensures place { IsPlace self.new }
    {
        let sent = waiting_command(&self.waiting, self.account, key)?;
        self.waiting = Waiting::Nothing;
        Some(sent)
    }

    /// The first command of the account's next month.
    fn next_month(&mut self, key: Name) -> (Day, Command)
        requires place { IsPlace self.old }
        requires nothing { self.old.waiting ≡ Nothing }
        requires left { 0 < self.old.months_left }
        ensures sent { Sends (unsent self.old) key result (unsent self.new) }
        ensures kind { is_seeded result.1 ≡ true }
        ensures place { IsPlace self.new }
    {
        let day = first_of_month(self.month);
        let chosen = choice(self.draws.draw() % 8, self.account, key, day);
        self.month += 1;
        self.months_left -= 1;
        match chosen {
            None => (day, bill(self.account, key, day)),
            Some(command) => {
                self.waiting = Waiting::Bill(day);
                (day, command)
            }
        }
    }

    /// The first command of the next account.
    fn next_account(&mut self, key: Name) -> (Day, Command)
        requires place { IsPlace self.old }
        requires nothing { self.old.waiting ≡ Nothing }
        requires over { self.old.months_left ≡ 0 }
        requires left { 0 < self.old.accounts_left }
        ensures sent { Sends (unsent self.old) key result (unsent self.new) }
        ensures kind { is_seeded result.1 ≡ true }
        ensures place { IsPlace self.new }
    {
        let first = self.draws.draw();
        let start = start_day(self.draws.draw());
        self.account += 1;
        self.accounts_left -= 1;
        self.month = 1;
        self.months_left = self.months;
        self.waiting = Waiting::Creation(start);
        (start, opening(self.account, key, first))
    }
}

/// What waits to be sent to an account, under a key.
fn waiting_command(waiting: &Waiting, account: u32, key: Name) -> Option<(Day, Command)>
    ensures sent { IfSome result (λ sent. Sends (waiting_of account waiting.now) key sent []) }
    ensures over { IsNone result → waiting.now ≡ Nothing }
    ensures kind { IfSome result (λ sent. is_seeded sent.1 ≡ true) }
{
    match waiting {
        Waiting::Nothing => None,
        Waiting::Creation(day) => Some((*day, creation(account, key, *day))),
        Waiting::Bill(day) => Some((*day, bill(account, key, *day))),
    }
}
