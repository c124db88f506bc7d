//! The stretches of a timeline. An examination ends at the first minute that isn't held, or that is held with a second driver. After it,
//! another stretch begins at a later Monday.
#![tactic(auto)]

mod end;
mod examination;
mod found;
pub mod laws;
mod pass;
mod range;
mod start;
mod stretch;

pub use found::FoundStretches;
pub use pass::StretchPass;
pub use range::range_of;
pub use stretch::{Stretch, stretches};
