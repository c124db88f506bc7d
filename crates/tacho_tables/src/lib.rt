//! The tables of the archive: how they are made, and calls that read and change their rows. Each call is one statement
//! within a transaction.
#![tactic(auto)]

pub mod asking;
pub mod downloads;
pub mod drivers;
pub mod entries;
mod fault;
pub mod held;
pub mod making;
pub mod opening;
mod rows;
mod schema;
mod shape;
pub mod spans;
pub mod statement;
mod table;

pub use fault::TableFault;
pub use rows::{StoredDriver, StoredEntry, StoredFile, StoredSpan, next_span};
pub use spans::SpanTable;
pub use table::TableName;
