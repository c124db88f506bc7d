//! The archive's state: drivers, what they hold, and what each command and each reading answers. This crate knows no store.
#![tactic(auto)]

mod caller;
mod content;
mod driver;
mod entry;
mod fault;
mod file;
mod imported;
mod keeper;
pub mod laws;
mod limits;
mod numbers;
mod parts;
mod reports;
mod summary;

pub use caller::Caller;
pub use content::{CardContent, content_of};
pub use driver::{Column, Driver};
pub use entry::{Entered, Entry, EntryLine};
pub use fault::StoreFault;
pub use file::{FileSummary, file_summary};
pub use imported::Imported;
pub use keeper::Keeper;
pub use limits::{first_number, is_key, is_monday, is_name, is_note};
pub use numbers::{activity_of, mark_of, number_of_mark, number_of_part, part_of};
pub use parts::{inside_of, line_of, outside_of};
pub use reports::{base_of, report_of, stretches_of};
pub use summary::DriverSummary;
