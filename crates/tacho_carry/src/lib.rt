//! A new archive of what is needed of an archive from a day on, so that the old one can be deleted.
#![tactic(auto)]

mod archive;
mod driver;
mod entries;
mod files;
pub mod laws;

pub use archive::{Carried, carry};
