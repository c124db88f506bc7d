//! The state that the archive's tables represent, and readings of it: whose a key is, the drivers, their names, downloads and entries, what
//! they hold, and their reports and stretches.
#![tactic(auto)]

pub mod fault;
mod feeding;
pub mod finding;
pub mod laws;
pub mod near;
pub mod reading;
pub mod spans;
mod stretching;
mod within;

pub use feeding::feed_rows;
// The macros of `within` name it.
pub use tacho_tables::opening;
