use tacho_time::{Minute, Week};

/// What a week's rest lacks of 45 hours and has to be compensated for.
#[derive(Clone, Copy, Debug, PartialEq, Eq)]
pub struct Debt {
    pub week: Week,
    /// In minutes.
    pub amount: u32,
    /// The first minute of the fourth week after it.
    pub deadline: Minute,
    /// The first minute of the rest that pays it, if there is one.
    pub paid_by: Option<Minute>,
}
