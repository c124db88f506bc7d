//! What is handed over of a driver and a period: the card files that cover it, the entries, and a list of contents, as a tar file.
#![tactic(auto)]

mod contents;
mod covering;
pub mod laws;
mod parcel;

pub use contents::{entries_text, missing_text};
pub use parcel::{Parcel, room_for};
