//! Finds rest runs, complete breaks, duty days, driving time and main rests, each by its definition.
#![tactic(auto)]

mod break_runs;
mod driving;
mod duty;
mod examined;
mod main_rests;
mod portions;
mod room;
mod runs;

pub use break_runs::complete_breaks;
pub use driving::{Excess, driving_minute, driving_minutes, excess_between};
pub use duty::{duty_days, long_rests};
pub use examined::Examined;
pub use main_rests::{is_main, kept_minutes, touching};
pub use portions::{is_reduced, is_regular};
pub use room::{has_room, left_of, minutes_paid};
pub use runs::rest_runs;
