//! The rules on duty days in one pass: daily rests, driving in a day, and the extended days of a week.
#![tactic(auto)]

mod daily_driving;
mod daily_rest;
mod days;

pub use daily_driving::DutyDriving;
pub use daily_rest::RestingDay;
pub use days::{DayRules, Days};
