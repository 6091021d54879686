//! What a command line says.

use crate::report_kind::ReportKind;
use crate::text::Text;
use crate::within::Within;
use kb_days::Day;

/// A command with the values of its options.
#[derive(Debug, Drop)]
pub enum Words {
    Init(Init),
    Apply(Apply),
    Bill(Bill),
    Serve(Serve),
    Report(Report),
    Make(Make),
}

/// Makes lanes, with a catalog and overdue rules.
#[derive(Debug, Drop)]
pub struct Init {
    /// The folder of the lanes.
    pub dir: Text,
    /// How many lanes.
    pub lanes: Within<1, 64>,
    /// The file of the catalog's text.
    pub catalog: Text,
    /// The file of the overdue text.
    pub overdue: Text,
}

/// Answers the lines of the input.
#[derive(Debug, Drop)]
pub struct Apply {
    /// The folder of the lanes.
    pub dir: Text,
    /// The gateway of payments, if one is named.
    pub gateway: Option<Text>,
}

/// Bills all accounts on a day.
#[derive(Debug, Drop)]
pub struct Bill {
    /// The folder of the lanes.
    pub dir: Text,
    /// The day that is billed to.
    pub day: Day,
    /// How many lanes are billed at once.
    pub workers: Within<1, 64>,
    /// The gateway of payments, if one is named.
    pub gateway: Option<Text>,
}

/// Serves HTTP connections.
#[derive(Debug, Drop)]
pub struct Serve {
    /// The folder of the lanes.
    pub dir: Text,
    /// The port that is listened on.
    pub port: Within<1, 65_535>,
    /// How many connections are served at once.
    pub workers: Within<1, 16>,
    /// How many workers drain outboxes.
    pub bus: Within<1, 16>,
    /// How many connections are served in all.
    pub connections: Within<1, 1_000_000>,
    /// The gateway of payments, if one is named.
    pub gateway: Option<Text>,
}

/// Prints a report.
#[derive(Debug, Drop)]
pub struct Report {
    /// The folder of the lanes.
    pub dir: Text,
    /// What is listed.
    pub kind: ReportKind,
    /// The day that the report speaks of.
    pub day: Day,
}

/// Runs the generator of commands in memory.
#[derive(Debug, Drop)]
pub struct Make {
    /// What the draws begin with.
    pub seed: Within<0, 2_147_483_647>,
    /// How many accounts.
    pub accounts: Within<0, 10_000>,
    /// How many months.
    pub months: Within<0, 120>,
}
