//! Each rule separately, over all spans and rest runs. The scan is tested against these passes.
#![tactic(auto)]

mod break_breaches;
mod choices;
mod compensation;
mod daily_driving;
mod daily_rests;
mod day_breaches;
mod rest_breaches;
mod tally;
mod week_breaches;

pub use break_breaches::breaks;
pub use day_breaches::days;
pub use rest_breaches::rests;
pub use week_breaches::weeks;
