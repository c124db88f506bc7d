ghost use Rattle.std.specs.Prelude.{◌≡◌, ◌<◌, ◌≤◌, ◌+◌, ◌++◌, ◌&&◌, ⊤, ℕ, nat_le, IsTrue, false, OnOk, MatchOption};
ghost use Rattle.tacho_law.specs.Limits.{first_week, latest};
ghost use Rattle.tacho_pass.specs.Found.{Appends, as_list};
ghost use Rattle.tacho_pass.specs.Kinds.{is_b4_or_b5};
ghost use Rattle.tacho_days.specs.DutyDays.{is_long};
ghost use Rattle.tacho_days.specs.DailyDriving.{DailyDrivingStands, DailyDrivingDefined};
ghost use Rattle.tacho_days.specs.DailyDriving.{duty_none, driving_in_range, duty_with, ordinal_of, often_of, next_day};
ghost use Rattle.tacho_days.specs.DailyDriving.{duty_after, duty_found, duty_any, duty_found_at_optional_run};

use std::alloc::AllocError;
use tacho_law::limits::{DAILY_REST, DRIVING_IN_DAY, DRIVING_IN_EXTENDED_DAY, EXTENDED_DAYS};
use tacho_law::{Breach, FAR, Kind, Run};
use tacho_pass::{Count, Found, Judge, is_drive, put};
use tacho_time::{Minute, Span, week_of};

/// The driving of the open duty day, and the extended days of a week before it (Article 6(1) of Regulation (EC) No 561/2006).
#[derive(Clone, Copy)]
pub struct DutyDriving {
    /// The minute at which the day starts.
    pub from: Minute,
    /// The day's driving, with the first minute above nine hours.
    pub nine: Count,
    /// The same driving, with the first minute above ten hours.
    pub ten: Count,
    /// The week of the last extended day.
    pub week: u32,
    /// The number of extended days of that week so far.
    pub extended: u32,
}

impl DutyDriving {
    /// Returns the state before the first daily rest, with nothing driven.
    fn none(from: Minute) -> DutyDriving
        ensures { result ≡ duty_none from }
    {
        DutyDriving {
            from,
            nine: Count::none(),
            ten: Count::none(),
            week: 0,
            extended: 0,
        }
    }

    /// Adds the minutes from `from` to before `to`. Either all are driving or none is.
    fn add(&mut self, drives: bool, from: u32, to: u32)
        requires bounded { IsTrue (driving_in_range self.old from) }
        requires nonempty { from ≤ to }
        requires in_range { to ≤ latest }
        ensures with { self.new ≡ duty_with drives from to self.old }
        ensures bounded { IsTrue (driving_in_range self.new to) }
    {
        if drives {
            self.nine.add(DRIVING_IN_DAY, from, to);
            self.ten.add(DRIVING_IN_EXTENDED_DAY, from, to);
        }
    }

    /// Returns the day's number among the extended days of its week, if it is extended.
    fn ordinal(self) -> u32
        requires from_first_week { first_week ≤ self.from }
        requires extended { self.extended ≤ latest }
        ensures ordinal { result ≡ ordinal_of self }
        ensures extended { result ≤ self.extended + 1 }
    {
        let before = if self.week == week_of(self.from).number() {
            self.extended
        } else {
            0
        };
        before + 1
    }

    /// Returns the breach of a third or later extended day of the week.
    fn often(self) -> Option<Breach>
        requires from_first_week { first_week ≤ self.from }
        requires extended { self.extended ≤ latest }
        ensures { as_list result ≡ often_of self }
    {
        let DutyDriving { nine, from, .. } = self;
        if self.ordinal() > EXTENDED_DAYS {
            nine.over(Kind::B5, DRIVING_IN_DAY, from)
        } else {
            None
        }
    }

    /// Returns the state after the day, when the next one starts at `from`.
    fn next(self, from: Minute) -> DutyDriving
        requires from_first_week { first_week ≤ self.from }
        requires extended { self.extended ≤ latest }
        ensures next { result ≡ next_day from self }
        ensures extended { result.extended ≤ self.extended + 1 }
    {
        let (week, extended) = if self.nine.minutes > DRIVING_IN_DAY {
            (week_of(self.from).number(), self.ordinal())
        } else {
            (self.week, self.extended)
        };
        DutyDriving {
            from,
            nine: Count::none(),
            ten: Count::none(),
            week,
            extended,
        }
    }

    /// Appends the breaches of the day that a rest run ends.
    fn end(&self, run: Run, found: &mut Found) -> Result<(), AllocError>
        requires from_first_week { first_week ≤ self.now.from }
        requires extended { self.now.extended ≤ latest }
        ensures breaches { OnOk result (
            found.new.breaches.items ≡ found.old.breaches.items ++ duty_found run self.now) }
        ensures appends { Appends is_b4_or_b5 false found.old found.new }
    {
        if ends_day(run) {
            put(
                self.ten.over(Kind::B4, DRIVING_IN_EXTENDED_DAY, self.from),
                found,
            )?;
            put(self.often(), found)?;
        }
        Ok(())
    }

    /// Moves past a rest run, which may end the day.
    fn turn(&mut self, run: Run)
        requires from_first_week { first_week ≤ self.old.from }
        requires extended { self.old.extended ≤ latest }
        requires late { first_week ≤ run.past }
        requires in_range { run.past ≤ latest }
        ensures after { self.new ≡ duty_after run self.old }
        ensures from_first_week { first_week ≤ self.new.from }
        ensures extended { self.new.extended ≤ self.old.extended + 1 }
        ensures bounded { (place : ℕ) → IsTrue (driving_in_range self.old place) → IsTrue (driving_in_range self.new place) }
    {
        if ends_day(run) {
            *self = self.next(Minute::new(run.past));
        }
    }

    /// Takes a span, and the rest run that ends where the span starts, if there is one.
    fn hear(
        &mut self,
        run: Option<Run>,
        drives: bool,
        from: u32,
        to: u32,
        found: &mut Found,
    ) -> Result<(), AllocError>
        requires day { first_week ≤ self.old.from }
        requires bounded { IsTrue (driving_in_range self.old from) }
        requires extended { self.old.extended ≤ from }
        requires run { MatchOption run ⊤ (λ run. run.past ≡ from) }
        requires late { first_week ≤ from }
        requires nonempty { from < to }
        requires in_range { to ≤ latest }
        ensures after { OnOk result (self.new ≡ duty_with drives from to (duty_any run self.old)) }
        ensures day { first_week ≤ self.new.from }
        ensures bounded { IsTrue (driving_in_range self.new to) }
        ensures extended { self.new.extended ≤ to }
        ensures breaches { OnOk result (
            found.new.breaches.items ≡ found.old.breaches.items ++ duty_found_at_optional_run run self.old) }
        ensures appends { Appends is_b4_or_b5 false found.old found.new }
    {
        if let Some(run) = run {
            self.end(run, found)?;
            self.turn(run);
        }
        self.add(drives, from, to);
        Ok(())
    }
}

impl Judge for DutyDriving {
    ghost own = { is_b4_or_b5 };

    ghost owes = { false };

    ghost fits = { λ d place. nat_le first_week d.from
        && (driving_in_range d place && nat_le d.extended place) };

    ghost stands = { λ d start place own owed base spans. DailyDrivingStands start place d own owed base spans };

    ghost defined = { DailyDrivingDefined };

    fn new(base: Minute) -> Self {
        DutyDriving::none(base)
    }

    fn feed(
        &mut self,
        _start: u32,
        run: Option<Run>,
        span: Span,
        found: &mut Found,
    ) -> Result<(), AllocError> {
        let drives = is_drive(span.mark.activity);
        self.hear(run, drives, span.start.number(), span.past.number(), found)?;
        Ok(())
    }

    fn finish(self, start: u32, _horizon: Minute, found: &mut Found) -> Result<(), AllocError> {
        self.end(Run { start, past: FAR }, found)?;
        Ok(())
    }
}

/// Returns true if a rest run has nine hours or more, and so ends a duty day (Article 4(g)).
fn ends_day(run: Run) -> bool
    ensures { result ≡ is_long run }
{
    run.past.saturating_sub(run.start) >= DAILY_REST
}
