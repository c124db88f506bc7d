//! Tasks at an archive: what a command line or a request can ask for, its arguments, the task that these make, and what the task answers
//! for its input, or its fault.
#![tactic(auto)]

mod all;
mod argument;
mod commands;
mod day;
mod handover;
pub mod laws;
mod period;
mod range;
mod readings;
mod release;
mod table;
mod task;
mod text;
mod want;
mod words;

pub use argument::Argument;
pub use day::ReadDay;
pub use period::Period;
pub use range::EntryRange;
pub use release::{program_line, version_text};
pub use table::{Act, Command, command_table};
pub use tacho_sheet::Fault;
pub use task::{Task, carry_out};
pub use text::Text;
pub use want::{MonthOfAll, MonthReading, Reading, Want, Wish};
pub use words::{part_of, task_of};
