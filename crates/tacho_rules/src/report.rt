use tacho_law::{Breach, Debt};
use tacho_line::Horizon;

/// The report of a timeline, from a base to its horizon.
#[derive(Drop)]
pub struct Report {
    /// The first minute that isn't examined, and why it isn't.
    pub horizon: Horizon,
    /// Ordered by moment, then kind, then since.
    pub breaches: Vec<Breach>,
    /// Ordered by week.
    pub debts: Vec<Debt>,
}
