//! Timelines: which minutes of a driver are held, and with which marks.
#![tactic(auto)]

mod gains;
mod gap;
mod horizon;
pub mod laws;
mod line;
mod merge;
mod search;
mod slice;

pub use gap::Gap;
pub use horizon::{Cause, Horizon};
pub use line::{Line, LineFault};
pub use slice::cut;
