//! What each command does, up to the last output line.

mod apply;
mod init;
mod make;
mod report;

pub use apply::apply_folder;
pub use init::init_folder;
pub use make::make_accounts;
pub use report::report_folder;
