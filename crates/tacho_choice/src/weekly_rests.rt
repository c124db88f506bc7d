ghost use Rattle.std.specs.Prelude.{◌≡◌, ◌<◌, ◌⊎◌, ◌↔◌, false, true, IsTrue};
ghost use Rattle.tacho_choice.specs.declared.counted.Counted.TheVariants.{Nothing};
ghost use Rattle.tacho_choice.specs.declared.outcome.Outcome.{Outcome as OutcomeValue};
ghost use Rattle.tacho_choice.specs.Step.{counted_of, first_place as first_place_of, may, serves, with_rest};
ghost use Rattle.tacho_choice.specs.Step.{HasOutcome, IsNext, IsLedTo};
ghost use Rattle.tacho_choice.specs.Weeks.{first_week_of, last_of, is_regular};

use crate::counted::Counted;
use crate::outcome::Outcome;
use tacho_law::Run;
use tacho_law::limits::{FIRST_WEEK, REGULAR_WEEKLY_REST};

/// The number of minutes in a week (Article 4(i)).
const MINUTES_OF_WEEK: u32 = 10_080;

/// The weekly rests that have a minute in a week, by where they are: whether the one that crosses the week's start is regular; those
/// inside; whether the one that starts in the week and crosses its end is regular; and whether the one that crosses its start also crosses
/// its end.
#[derive(Clone, Copy)]
pub struct WeeklyRests {
    pub entering: Option<bool>,
    pub inside: Counted,
    pub starting: Option<bool>,
    pub through: bool,
}

/// Returns the first week in which a rest has a minute.
fn first(rest: Run) -> u32
    ensures { result ≡ first_week_of rest }
{
    rest.start.saturating_sub(FIRST_WEEK) / MINUTES_OF_WEEK
}

/// Returns the last week in which a rest has a minute.
fn last(rest: Run) -> u32
    ensures { result ≡ last_of rest }
{
    rest.past.saturating_sub(FIRST_WEEK + 1) / MINUTES_OF_WEEK
}

/// Returns true if a weekly rest is regular (Article 4(h)).
fn regular(rest: Run) -> bool
    ensures { result ≡ is_regular rest }
{
    rest.past.saturating_sub(rest.start) >= REGULAR_WEEKLY_REST
}

/// Returns the first place of the outcomes with this `crossing`.
fn first_place(crossing: bool) -> usize
    ensures { result ≡ first_place_of crossing }
{
    if crossing { 5 } else { 0 }
}

/// Returns true if one of these outcomes, with this `crossing`, is valid together with what is counted in the next week. If nothing is
/// required (`asks` is false), any such outcome is valid.
fn lead_to(asks: bool, outcomes: [bool; 10], crossing: bool, counted: Counted) -> bool
    ensures { IsTrue result ↔ ((old : OutcomeValue) × (HasOutcome outcomes old × (old.crossing ≡ crossing)
        × (asks ≡ true → serves old.counted counted ≡ true))) }
{
    let first = first_place(crossing);
    for i in first..first + 5 {
        if outcomes[i] && (!asks || Outcome::at(i).counted.serves(counted)) {
            return true;
        }
    }
    false
}

impl WeeklyRests {
    /// Returns a week without weekly rests.
    pub fn none() -> WeeklyRests
        ensures { result ≡ record { entering = None; inside = Nothing; starting = None; through = false } }
    {
        WeeklyRests {
            entering: None,
            inside: Counted::Nothing,
            starting: None,
            through: false,
        }
    }

    /// Returns the week with one more weekly rest, if the rest has a minute in the week.
    pub fn with(self, week: u32, rest: Run) -> WeeklyRests
        ensures { result ≡ with_rest self week (first_week_of rest) (last_of rest) (is_regular rest) }
    {
        let (first, last) = (first(rest), last(rest));
        if first < week {
            if last < week {
                return self;
            }
            return WeeklyRests {
                entering: Some(regular(rest)),
                through: self.through || week < last,
                ..self
            };
        }
        if week < first {
            return self;
        }
        if week < last {
            return WeeklyRests {
                starting: Some(regular(rest)),
                ..self
            };
        }
        WeeklyRests {
            inside: self.inside.and(regular(rest)),
            ..self
        }
    }

    /// Returns what is counted in the week, given whether the rests that cross its start and its end are counted by then.
    pub fn counted(self, before: bool, after: bool) -> Counted
        ensures { result ≡ counted_of self before after }
    {
        self.inside
            .and_where(!before && (!self.through || after), self.entering)
            .and_where(after, self.starting)
    }

    /// Returns true if the rests that cross the week's start and its end can be counted like this.
    pub fn allows(self, before: bool, after: bool) -> bool
        ensures { result ≡ may self before after }
    {
        (!after || self.through || self.starting.is_some()) && (!(self.through && before) || after)
    }

    /// Adds the outcome reached from the outcomes in `old` with `crossing == before`, where the rest that crosses this week's end is
    /// counted by then iff `after`.
    fn reach(
        self,
        asks: bool,
        old: [bool; 10],
        before: bool,
        after: bool,
        outcomes: &mut [bool; 10],
    )
        ensures { (new : OutcomeValue) → HasOutcome outcomes.new new
            ↔ (HasOutcome outcomes.old new ⊎ IsLedTo self asks old before after new) }
    {
        if !self.allows(before, after) {
            return;
        }
        let counted = self.counted(before, after);
        if lead_to(asks, old, before, counted) {
            let new = Outcome {
                counted,
                crossing: after,
            };
            outcomes[new.place()] = true;
        }
    }

    /// Returns the outcomes of the week, given those of the week before.
    pub fn step(self, asks: bool, outcomes: [bool; 10]) -> [bool; 10]
        ensures { (new : OutcomeValue) → HasOutcome result new
            ↔ ((old : OutcomeValue) × (HasOutcome outcomes old × IsNext self asks old new)) }
    {
        let mut next = [false; 10];
        self.reach(asks, outcomes, false, false, &mut next);
        self.reach(asks, outcomes, false, true, &mut next);
        self.reach(asks, outcomes, true, false, &mut next);
        self.reach(asks, outcomes, true, true, &mut next);
        next
    }
}
