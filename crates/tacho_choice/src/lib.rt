//! The week in which each weekly rest is counted (Articles 8(6), first subparagraph, and 8(9) of Regulation (EC) No 561/2006): the outcomes
//! that all choices leave of a week, computed from those of the week before.
#![tactic(auto)]

mod counted;
pub mod laws;
mod outcome;
mod week;
mod weekly_rests;

pub use counted::Counted;
pub use outcome::{ANY, Outcome};
pub use week::WeekOfRests;
pub use weekly_rests::WeeklyRests;
