//! The breaches of the rules on driving and rest hours, and the debts for reduced weekly rests.
#![tactic(auto)]

mod examination;
pub mod laws;
mod report;
mod rules;
mod scan;

pub use examination::{can_be_examined, examine};
pub use report::Report;
pub use rules::Rules;
pub use scan::Scan;
pub use tacho_days::Days;
pub use tacho_driving::{Breaks, WeekSums};
pub use tacho_law::{Breach, Debt, Kind, limits};
pub use tacho_line::{Cause, Horizon};
pub use tacho_pass::{Found, Pass, Plain};
pub use tacho_rests::WeekRests;
