//! The commands of the program `tacho`.
#![tactic(auto)]

mod asked;
mod carried;
mod commands;
mod files;
mod help;
mod job;
mod listen;
mod office;
mod release;
mod reply;
mod tally;
mod words;

pub use asked::{Asked, asked_early};
pub use carried::{carry_day, tell_carried};
pub use commands::{card, dump, holder};
pub use files::{CardFiles, import_files};
pub use help::{help_of, help_text, usage_text};
pub use job::{DeskJob, Job};
pub use listen::office_key;
pub use office::{answer_at_desk, perform, perform_at_desk, read_input};
pub use release::version;
pub use reply::tell_answer;
pub use words::{Usage, parse};
