//! An archive in memory, without SQL: a list of drivers with their downloads and entries.
#![tactic(auto)]

mod hours;
mod row;
mod shelf;

pub use shelf::Shelf;
