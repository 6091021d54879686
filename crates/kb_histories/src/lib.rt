//! Laws of every history: what a machine replies and holds, whatever came before or between.
//!
//! The rule kept here: a command of a caller acts once, and an account depends on its own commands and the
//! texts alone. A payment attempt stays as it is until it is settled, and for good once it is final. What
//! accounts ask for by themselves on a day comes to an end. What a shop hands in later changes no charge of
//! what was chosen before. Items are only added to invoices, add up to what these total, and show what days
//! are charged by. Each law is the clause of a function that does nothing, and speaks of the definitions of
//! `kb_machine`: a lane is what its history leads to, so they hold of each lane.
#![tactic(auto)]

mod accounts;
mod attempts;
mod books;
mod drains;
mod invoices;
mod machines;
mod repeats;
mod versions;

pub use accounts::{own_commands_reply, own_commands_suffice};
pub use attempts::{attempts_begin, attempts_stay, settlements_settle};
pub use books::{books_are_named, due_commands_are_new, keys_are_apart};
pub use drains::{
    books_are_billed, due_commands_take_work, settlements_add_no_work, work_at_hand_is_bounded,
    work_is_bounded,
};
pub use invoices::{invoices_add_up, items_are_only_added, items_are_shown};
pub use machines::{
    accounts_are_billed, accounts_are_even, plans_are_held, replayed_work_is_bounded,
};
pub use repeats::{keys_stand_once, repeats_act_once};
pub use versions::later_versions_change_nothing;
