//! The terms of the rules on driving and rest hours: rest runs, driving minutes, breaks, duty days, weekly rests, debts and breaches of an
//! examined line.
#![tactic(auto)]

mod breach;
mod days;
mod debt;
pub mod laws;
pub mod limits;
mod order;
mod portions;
mod run;

pub use breach::{Breach, Kind};
pub use days::DutyDay;
pub use debt::Debt;
pub use order::put_in_order;
pub use portions::has_portion;
pub use run::{FAR, Run, known_minutes};
