//! Words: what the words of a command line say.
//!
//! The rule kept here: the grammar is a definition of its own, and words are read exactly by it. A command is
//! the first word, and its options stand behind it in any order, its own alone, each once, as `--name VALUE`
//! or `--name=VALUE`; none that it needs is missing, and a value is a text, a number in its range, or the
//! word of a kind. What passes that test is written anew in one order and given to `clap`, whose matches give
//! the values. The layer above reads words by `read_words` and acts on the `Words`.
#![tactic(auto)]

mod given;
mod matches;
mod number;
mod options;
mod read;
mod report_kind;
mod setting;
mod text;
mod values;
mod verb;
mod within;
mod word;
mod words;
mod written;

pub use read::{WordsFault, read_words};
pub use report_kind::ReportKind;
pub use text::Text;
pub use within::Within;
pub use words::{Apply, Bill, Init, Make, Report, Serve, Words};
