use crate::driven::DrivenSpan;
use tacho_law::Run;

/// A line of the evidence for a breach. A moment is its minute, a day or a week its first minute, and a length is in minutes.
#[derive(Clone, Copy)]
pub enum EvidenceLine {
    /// A complete break.
    Break(Run),
    /// A rest run.
    Rest(Run),
    /// A driving span, with the driving up to its end.
    Drive(DrivenSpan),
    /// A duty day.
    Day {
        start: u32,
        past: u32,
    },
    /// The end of the 24 hours that begin with a duty day.
    Limit(u32),
    /// The daily rest of a duty day, of which the part up to the limit counts.
    DailyRest {
        rest: Run,
        limit: u32,
    },
    /// A weekly rest.
    Weekly(Run),
    /// A reduced daily rest, counted since a weekly rest, and the start of its duty day.
    Reduced {
        ordinal: u32,
        rest: Run,
        day: u32,
    },
    /// A week.
    Week(u32),
    /// A week, and its driving.
    WeekDrive {
        week: u32,
        drive: u32,
    },
    /// A day of the calendar, its driving, and the driving up to its end.
    Date {
        date: u32,
        drive: u32,
        total: u32,
    },
    /// An extended day of a week, counted, and its driving.
    Extended {
        ordinal: u32,
        start: u32,
        past: u32,
        drive: u32,
    },
    /// The week from which the choice of a week for each weekly rest was made anew.
    From(u32),
    /// A week that is wholly at rest.
    WeekAtRest(u32),
    /// A weekly rest, and the first and the last of the weeks that are looked at in which it has a minute.
    WeeklyIn {
        rest: Run,
        first: u32,
        last: u32,
    },
    /// A week, the rest that is owed for it, and the deadline.
    Owes {
        week: u32,
        amount: u32,
        deadline: u32,
    },
    /// The weekly rest by which a week is judged.
    Main(Run),
    /// A later rest: what of it lies before the deadline and the horizon, and what it keeps for itself and for older debts.
    Room {
        rest: Run,
        has: u32,
        keeps: u32,
    },
}
