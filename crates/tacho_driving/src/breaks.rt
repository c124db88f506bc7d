ghost use Rattle.std.specs.Prelude.{◌≡◌, ◌≤◌, ◌++◌, ℕ, IsTrue, false, OnOk};
ghost use Rattle.tacho_law.specs.Weeks.{week_start};
ghost use Rattle.tacho_pass.specs.Found.{Appends};
ghost use Rattle.tacho_pass.specs.Kinds.{is_b1};
ghost use Rattle.tacho_driving.specs.Periods.{BreaksStand, BreaksDefined};
ghost use Rattle.tacho_driving.specs.Periods.{period_none, period_in_range, completes as completes_it, after_run, found_at, after_optional_run};
ghost use Rattle.tacho_driving.specs.Periods.{found_at_optional_run, period_with};
ghost use Rattle.tacho_time.specs.Limits.{greatest_week};

use std::alloc::AllocError;
use tacho_law::limits::{
    DRIVING_BEFORE_BREAK, FIRST_PART_OF_BREAK, LAST_PART_OF_BREAK, WHOLE_BREAK,
};
use tacho_law::{FAR, Kind, Run};
use tacho_pass::{Count, Found, Hearing, Judge, is_drive, put};
use tacho_time::{Minute, Span};

/// The driving since the last complete break.
#[derive(Clone, Copy)]
pub struct Period {
    /// True if there was a first part of a break.
    pub short: bool,
    /// The driving of the period, with the first minute above four and a half hours (Article 7).
    pub over: Count,
    /// The same driving, with the first driving minute.
    pub since: Count,
}

/// Returns true if a run with this many minutes completes a break. `short` is true after a first part (Article 7).
fn completes(minutes: u32, short: bool) -> bool
    ensures { result ≡ completes_it minutes short }
{
    WHOLE_BREAK <= minutes || (LAST_PART_OF_BREAK <= minutes && short)
}

impl Period {
    /// Returns the state with nothing driven.
    pub fn none() -> Period
        ensures { result ≡ period_none }
    {
        Period {
            short: false,
            over: Count::none(),
            since: Count::none(),
        }
    }

    /// Adds the minutes from `from` to before `to`. Either all are driving or none is.
    fn add(&mut self, drives: bool, from: u32, to: u32)
        requires bounded { IsTrue (period_in_range self.old from) }
        requires nonempty { from ≤ to }
        requires in_range { to ≤ week_start greatest_week }
        ensures with { self.new ≡ period_with drives from to self.old }
        ensures bounded { IsTrue (period_in_range self.new to) }
    {
        if drives {
            self.over.add(DRIVING_BEFORE_BREAK, from, to);
            self.since.add(0, from, to);
        }
    }

    /// Moves past a rest run, which may end the period.
    fn end(&mut self, run: Run, found: &mut Found) -> Result<(), AllocError>
        ensures after { OnOk result (self.new ≡ after_run run self.old) }
        ensures bounded { (place : ℕ) → IsTrue (period_in_range self.old place) → IsTrue (period_in_range self.new place) }
        ensures breaches { OnOk result (found.new.breaches.items ≡ found.old.breaches.items ++ found_at run self.old) }
        ensures appends { Appends is_b1 false found.old found.new }
    {
        let minutes = run.past.saturating_sub(run.start);
        if completes(minutes, self.short) {
            let breach = self
                .over
                .over(Kind::B1, DRIVING_BEFORE_BREAK, self.since.moment);
            put(breach, found)?;
            *self = Period::none();
            return Ok(());
        }
        self.short = self.short || FIRST_PART_OF_BREAK <= minutes;
        Ok(())
    }

    /// Takes a span, and the rest run that ends where the span starts, if there is one.
    fn hear(
        &mut self,
        run: Option<Run>,
        drives: bool,
        from: u32,
        to: u32,
        found: &mut Found,
    ) -> Result<(), AllocError>
        requires bounded { IsTrue (period_in_range self.old from) }
        requires nonempty { from ≤ to }
        requires in_range { to ≤ week_start greatest_week }
        ensures after { OnOk result (self.new ≡ period_with drives from to (after_optional_run run self.old)) }
        ensures bounded { IsTrue (period_in_range self.new to) }
        ensures breaches { OnOk result (found.new.breaches.items ≡ found.old.breaches.items ++ found_at_optional_run run self.old) }
        ensures appends { Appends is_b1 false found.old found.new }
    {
        if let Some(run) = run {
            self.end(run, found)?;
        }
        self.add(drives, from, to);
        Ok(())
    }
}

/// The pass that finds driving without a break (Article 7 of Regulation (EC) No 561/2006).
pub type Breaks = Hearing<Period>;

impl Judge for Period {
    ghost own = { is_b1 };

    ghost owes = { false };

    ghost fits = { period_in_range };

    ghost stands = { λ p start place own owed base spans. BreaksStand start place p own owed base spans };

    ghost defined = { BreaksDefined };

    fn new(_base: Minute) -> Self {
        Period::none()
    }

    fn feed(
        &mut self,
        _start: u32,
        run: Option<Run>,
        span: Span,
        found: &mut Found,
    ) -> Result<(), AllocError> {
        let drives = is_drive(span.mark.activity);
        self.hear(run, drives, span.start.number(), span.past.number(), found)?;
        Ok(())
    }

    fn finish(self, start: u32, _horizon: Minute, found: &mut Found) -> Result<(), AllocError> {
        let mut period = self;
        period.end(Run { start, past: FAR }, found)?;
        Ok(())
    }
}
