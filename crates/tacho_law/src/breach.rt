use tacho_time::Minute;

/// The rule of Regulation (EC) No 561/2006 that is broken.
#[derive(Clone, Copy, Debug, PartialEq, Eq)]
pub enum Kind {
    /// Article 7: more than four and a half hours of driving without a break.
    B1,
    /// Article 8(2): a daily rest of fewer than nine hours.
    B2,
    /// Article 8(4): a fourth reduced daily rest between two weekly rests.
    B3,
    /// Article 6(1): more than ten hours of driving in a day.
    B4,
    /// Article 6(1): more than nine hours of driving on a third day of the week.
    B5,
    /// Article 6(2): more than 56 hours of driving in a week.
    B6,
    /// Article 6(3): more than 90 hours of driving in two weeks.
    B7,
    /// Article 8(6): a weekly rest that starts later than six days after the last one.
    B8,
    /// Articles 8(6) and 8(9): a week up to which no choice of one week for each weekly rest gives each two neighbouring weeks two weekly
    /// rests, one of them regular.
    B9,
    /// Article 8(6b): a reduction of a weekly rest that isn't compensated in time.
    B10,
}

/// A breach of a rule.
#[derive(Clone, Copy, Debug, PartialEq, Eq)]
pub struct Breach {
    pub kind: Kind,
    /// The minute at which the rule is broken.
    pub moment: Minute,
    /// The first minute of the range that is judged.
    pub since: Minute,
    /// By how many minutes (for B3, rests) the limit is missed.
    pub amount: u32,
}
