ghost use Rattle.std.specs.Prelude.{◌≡◌, ◌≤◌, ◌<◌, ◌⊎◌, ◌+◌, ◌++◌, ◌&&◌, ◌↔◌, ℕ, List, Some, None, true, false, not};
ghost use Rattle.std.specs.Prelude.{length, slice_index_or, IsTrue, MatchOption, OnOk, OnErr};
ghost use Rattle.tacho_law.specs.declared.breach.Breach.{Breach as BreachValue};
ghost use Rattle.tacho_law.specs.declared.run.Run.{Run as RunValue};
ghost use Rattle.tacho_law.specs.Line.{Line};
ghost use Rattle.tacho_law.specs.Limits.{first_week, latest, weekly_rest};
ghost use Rattle.tacho_law.specs.Runs.{IsRestOf};
ghost use Rattle.tacho_law.specs.Weeks.{week_start};
ghost use Rattle.tacho_law.specs.SoFar.{AreCollected};
ghost use Rattle.tacho_law.specs.Breaches.{IsLacking};
ghost use Rattle.tacho_choice.specs.Weeks.{IsInWeeks, week_none, week_with};
ghost use Rattle.tacho_pass.specs.Found.{Appends, own_of};
ghost use Rattle.tacho_pass.specs.Kinds.{is_b9};
ghost use Rattle.tacho_rests.specs.Choices.{unserved_breach, week_of_last as week_of_last_of};
ghost use Rattle.tacho_rests.specs.Choices.{IsServedStep, IsUnservedStep, IsJudged, AreChoices};

use std::alloc::AllocError;
use tacho_choice::{ANY, WeekOfRests};
use tacho_law::limits::{FIRST_WEEK, WEEKLY_REST};
use tacho_law::{Breach, FAR, Kind, Run};
use tacho_pass::{Found, Judge};
use tacho_time::{Minute, Span, Week, first_minute, week_of};

/// Choices of a week for each weekly rest, week by week: the weekly rests of the current week so far, the last of them, whether the week
/// before is entirely at rest, and the outcomes of that week. These are the outcomes of choices that are valid for all weeks since the
/// first, or since the last week up to which no choice was valid.
#[derive(Clone, Copy)]
pub struct Choices {
    week: u32,
    current: WeekOfRests,
    last: Option<Run>,
    rested: bool,
    outcomes: [bool; 10],
    ghost early: { week ≤ 6784 },
}

/// Returns the breach for a week and the one before it, if no choice is valid up to the week (Articles 8(6), first subparagraph, and 8(9)
/// of Regulation (EC) No 561/2006).
fn unserved(week: u32) -> Breach
    requires { week ≤ 6784 }
    ensures { result ≡ unserved_breach week }
{
    Breach {
        kind: Kind::B9,
        moment: first_minute(Week::new(week + 1)),
        since: first_minute(Week::new(week.saturating_sub(1))),
        amount: 0,
    }
}

/// Returns the week with only the last weekly rest.
fn week_of_last(week: u32, last: &Option<Run>) -> WeekOfRests
    requires { week ≤ 6785 }
    ensures { result ≡ week_of_last_of week last.now }
{
    match last {
        Some(rest) => WeekOfRests::none().with(week, *rest),
        None => WeekOfRests::none(),
    }
}

/// Returns true if some outcome is left.
fn is_left(outcomes: &[bool]) -> bool
    ensures { IsTrue result ↔ ((k : ℕ) × ((k < length outcomes.now) × (slice_index_or outcomes.now k false ≡ true))) }
{
    for left in outcomes {
        if *left {
            return true;
        }
    }
    false
}

/// Returns true if something is required of two weeks: neither is entirely at rest.
fn asks(before: bool, now: bool) -> bool
    ensures { result ≡ (not before && not now) }
{
    !before && !now
}

/// Returns the outcomes of one more week, if some choice is valid up to it.
fn served(week: WeekOfRests, rested: bool, outcomes: [bool; 10]) -> Option<[bool; 10]>
    ensures { MatchOption result (IsUnservedStep week rested outcomes)
        (λ next. IsServedStep week rested outcomes next) }
{
    let next = week.rests.step(asks(rested, week.whole), outcomes);
    if is_left(&next) { Some(next) } else { None }
}

impl Choices {
    /// Returns the state without rests, from a week on.
    pub fn none(week: Week) -> Choices
        requires { week ≤ 6784 }
        ensures week { result.week ≡ week }
        ensures current { result.current ≡ week_none }
        ensures last { result.last ≡ None }
        ensures rested { result.rested ≡ true }
        ensures outcomes { result.outcomes ≡ ANY }
    {
        Choices {
            week: week.number(),
            current: WeekOfRests::none(),
            last: None,
            rested: true,
            outcomes: ANY,
        }
    }

    /// Adds one more weekly rest.
    fn add(&mut self, rest: Run)
        ensures week { self.new.week ≡ self.old.week }
        ensures current { self.new.current ≡ week_with self.old.week rest self.old.current }
        ensures last { self.new.last ≡ Some rest }
        ensures rested { self.new.rested ≡ self.old.rested }
        ensures outcomes { self.new.outcomes ≡ self.old.outcomes }
    {
        self.current = self.current.with(self.week, rest);
        self.last = Some(rest);
    }

    /// Closes the current week, after all its weekly rests have been seen.
    fn close(&mut self, found: &mut Found) -> Result<(), AllocError>
        requires { self.old.week < 6784 }
        ensures next { OnOk result ((self.new.week ≡ self.old.week + 1)
            × (self.new.current ≡ week_of_last_of (self.old.week + 1) self.old.last)
            × (self.new.last ≡ self.old.last) × (self.new.rested ≡ self.old.current.whole)) }
        ensures judged { OnOk result ((more : List BreachValue)
            × (found.new.breaches.items ≡ found.old.breaches.items ++ more)
            × IsJudged self.old.week self.old.current self.old.rested self.old.outcomes self.new.outcomes more) }
        ensures debts { found.new.debts.items ≡ found.old.debts.items }
        ensures same { OnErr result (found.new.breaches.items ≡ found.old.breaches.items) }
    {
        let outcomes = match served(self.current, self.rested, self.outcomes) {
            Some(next) => next,
            None => {
                found.breaches.push(unserved(self.week))?;
                self.current.rests.step(false, ANY)
            }
        };
        *self = Choices {
            week: self.week + 1,
            current: week_of_last(self.week + 1, &self.last),
            last: self.last,
            rested: self.current.whole,
            outcomes,
        };
        Ok(())
    }

    /// Closes all weeks that have ended by a minute. All weekly rests that start before this minute have been seen.
    fn close_by(&mut self, by: Minute, found: &mut Found) -> Result<(), AllocError>
        requires in_range { by ≤ latest }
        requires from_first_week { first_week ≤ by }
        ensures kept { OnOk result ((line : Line) (horizon first start : ℕ)
            → IsInWeeks line → by ≤ horizon
            → ((x : RunValue) → IsRestOf line weekly_rest x → x.start < by → x.start < start)
            → AreChoices line horizon first start self.old.week self.old.current self.old.last self.old.rested
            self.old.outcomes (own_of is_b9 found.old.breaches.items)
            → AreChoices line horizon first start self.new.week self.new.current self.new.last self.new.rested
            self.new.outcomes (own_of is_b9 found.new.breaches.items)) }
        ensures end { OnOk result (by < week_start (self.new.week + 1)) }
        ensures appends { Appends is_b9 false found.old found.new }
    {
        let end = week_of(by).number();
        for _week in self.week..end {
            self.close(found)?;
        }
        Ok(())
    }

    /// Takes the next weekly rest, after closing the weeks that have ended by its start.
    pub fn hear(&mut self, rest: Run, found: &mut Found) -> Result<(), AllocError>
        requires { rest.start ≤ latest }
        ensures kept { OnOk result ((line : Line) (horizon first later : ℕ)
            → IsInWeeks line → rest.start ≤ horizon → IsRestOf line weekly_rest rest → rest.start < later
            → ((x : RunValue) → IsRestOf line weekly_rest x → x.start < later → (x.start < rest.start) ⊎ (x ≡ rest))
            → AreChoices line horizon first rest.start self.old.week self.old.current self.old.last self.old.rested
            self.old.outcomes (own_of is_b9 found.old.breaches.items)
            → AreChoices line horizon first later self.new.week self.new.current self.new.last self.new.rested
            self.new.outcomes (own_of is_b9 found.new.breaches.items)) }
        ensures appends { Appends is_b9 false found.old found.new }
    {
        if rest.start < FIRST_WEEK {
            self.add(rest);
            return Ok(());
        }
        self.close_by(Minute::new(rest.start), found)?;
        self.add(rest);
        Ok(())
    }

    /// Takes the last rest run, and closes all weeks that have ended by the horizon.
    pub fn end(self, last: Run, horizon: Minute, found: &mut Found) -> Result<(), AllocError>
        requires start { last.start ≤ latest }
        requires from_first_week { first_week ≤ horizon }
        requires in_range { horizon ≤ latest }
        ensures kept { OnOk result ((line : Line) (base first : ℕ)
            → IsInWeeks line → base ≡ week_start first → last.start ≤ horizon
            → IsRestOf line weekly_rest last
            → ((x : RunValue) → IsRestOf line weekly_rest x → (x.start < last.start) ⊎ (x ≡ last))
            → AreChoices line horizon first last.start self.week self.current self.last self.rested self.outcomes
            (own_of is_b9 found.old.breaches.items)
            → AreCollected (λ breach. IsLacking line base horizon breach) (own_of is_b9 found.new.breaches.items)) }
        ensures appends { Appends is_b9 false found.old found.new }
    {
        let mut choices = self;
        choices.hear(last, found)?;
        choices.close_by(horizon, found)?;
        Ok(())
    }
}

/// The rule that finds neighbouring weeks up to which no choice of a week for each weekly rest is valid (Articles 8(6), first subparagraph,
/// and 8(9) of Regulation (EC) No 561/2006).
impl Judge for Choices {
    ghost use Rattle.std.specs.Prelude.{true, false};
    ghost use Rattle.tacho_pass.specs.Kinds.{is_b9};
    ghost use Rattle.tacho_rests.specs.Lacking.{LackingStands, LackingDefined};

    ghost own = { is_b9 };

    ghost owes = { false };

    ghost fits = { λ p place. true };

    ghost stands = { LackingStands };

    ghost defined = { LackingDefined };

    fn new(base: Minute) -> Self {
        Choices::none(week_of(base))
    }

    fn feed(
        &mut self,
        _start: u32,
        run: Option<Run>,
        _span: Span,
        found: &mut Found,
    ) -> Result<(), AllocError> {
        let Some(run) = run else {
            return Ok(());
        };
        if run.past.saturating_sub(run.start) < WEEKLY_REST {
            return Ok(());
        }
        self.hear(run, found)?;
        Ok(())
    }

    fn finish(self, start: u32, horizon: Minute, found: &mut Found) -> Result<(), AllocError> {
        self.end(Run { start, past: FAR }, horizon, found)?;
        Ok(())
    }
}
