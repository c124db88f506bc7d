//! Whether the archive's tables represent a state within its limits. If they don't, the first driver and the first table for which no such
//! state has such rows.
#![tactic(auto)]

mod cells;
pub mod checking;
pub mod current;
pub mod files;
pub mod hours;
pub mod judgement;
pub mod keeping;
pub mod laws;
pub mod numbers;
pub mod own;
pub mod parsing;
pub mod registered;
mod table;
mod text;

pub use checking::check;
pub use table::Unsound;
pub use tacho_tables::TableName;
pub use text::check_text;
