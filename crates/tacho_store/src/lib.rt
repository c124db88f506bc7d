//! The archive: drivers, what their cards say, and what they hold, in tables over SQLite.
#![tactic(auto)]

mod archive;
mod entering;
mod files;
mod import;
pub mod laws;
mod news;
mod own;
mod refusals;
mod withdrawal;

pub use archive::{Archive, find_archive, open_memory};
pub use tacho_reading::feed_rows;
pub use tacho_state::{
    Caller, Column, Driver, Entered, Entry, EntryLine, Imported, Keeper, StoreFault, first_number,
    is_key, is_name,
};
