ghost use Rattle.std.specs.Prelude.{◌≡◌, ◌≤◌, ◌+◌, ◌++◌, ⊤, nat_le, false, OnOk, MatchOption};
ghost use Rattle.tacho_law.specs.Runs.{minutes_of};
ghost use Rattle.tacho_law.specs.Limits.{latest, daily_rest};
ghost use Rattle.tacho_pass.specs.Found.{Appends};
ghost use Rattle.tacho_pass.specs.Kinds.{is_b2_or_b3};
ghost use Rattle.tacho_days.specs.DailyRests.{DailyRestsStand, DailyRestsDefined};
ghost use Rattle.tacho_days.specs.DutyDays.{day_to};
ghost use Rattle.tacho_days.specs.RestingDays.{resting_none, regular_of, reduced_of};
ghost use Rattle.tacho_days.specs.RestingDays.{short_of, often_of, rest_found, after_rest, after_optional_rest, found_at_optional_rest};
ghost use Rattle.tacho_time.specs.Limits.{greatest_minute};

use std::alloc::AllocError;
use tacho_law::limits::{
    DAILY_REST, FIRST_PART_OF_DAILY_REST, MINUTES_OF_DAY, REDUCED_DAILY_RESTS, REGULAR_DAILY_REST,
    WEEKLY_REST,
};
use tacho_law::{Breach, DutyDay, FAR, Kind, Run, has_portion};
use tacho_pass::{Found, Judge, put};
use tacho_time::{Minute, Span};

/// The open duty day, and the reduced daily rests before it (Articles 8(2) and 8(4) of Regulation (EC) No 561/2006).
#[derive(Clone, Copy)]
pub struct RestingDay {
    /// The minute at which the day starts: the end of the last daily rest.
    pub from: Minute,
    /// True if there is a rest of three hours or more within the day. It may be the first part of a regular daily rest.
    pub part: bool,
    /// The end of the last weekly rest.
    pub weekly: Minute,
    /// The number of reduced daily rests since then.
    pub number: u32,
}

impl RestingDay {
    /// Returns the state before the first rest.
    fn none() -> RestingDay
        ensures { result ≡ resting_none }
    {
        RestingDay {
            from: Minute::new(0),
            part: false,
            weekly: Minute::new(0),
            number: 0,
        }
    }

    /// Returns the duty day that a daily rest ends.
    fn day(&self, rest: Run) -> DutyDay
        ensures day { result ≡ day_to self.now.from rest }
        ensures started { result.start ≤ greatest_minute }
    {
        DutyDay {
            start: self.from.number(),
            past: rest.start,
            rest,
        }
    }

    /// Returns the breach of a daily rest with fewer than nine hours within the 24 hours from the day's start (Article 8(2) of Regulation
    /// (EC) No 561/2006).
    fn short_rest(&self, rest: Run) -> Option<Breach>
        requires start { rest.start ≤ latest }
        requires enough { daily_rest ≤ minutes_of rest }
        ensures { result ≡ short_of (day_to self.now.from rest) }
    {
        let day = self.day(rest);
        if has_portion(day, DAILY_REST) {
            return None;
        }
        let end = rest.past.min(day.start + MINUTES_OF_DAY);
        Some(Breach {
            kind: Kind::B2,
            moment: Minute::new(day.start + (MINUTES_OF_DAY - DAILY_REST)),
            since: self.from,
            amount: DAILY_REST + rest.start - end,
        })
    }

    /// Returns true if a daily rest is regular (Article 4(g)).
    fn is_regular(&self, rest: Run) -> bool
        requires { rest.start ≤ latest }
        ensures { result ≡ regular_of self.now.part (day_to self.now.from rest) }
    {
        has_portion(self.day(rest), REGULAR_DAILY_REST)
            || (has_portion(self.day(rest), DAILY_REST) && self.part)
    }

    /// Returns true if a daily rest is reduced (Articles 4(g) and 8(4)).
    fn is_reduced(&self, rest: Run) -> bool
        requires { rest.start ≤ latest }
        ensures { result ≡ reduced_of self.now.part (day_to self.now.from rest) }
    {
        !self.is_regular(rest)
            && has_portion(self.day(rest), DAILY_REST)
            && rest.past.saturating_sub(rest.start) < WEEKLY_REST
    }

    /// Returns the breach of a fourth or later reduced daily rest since the last weekly one (Article 8(4)).
    fn often_reduced(&self, rest: Run) -> Option<Breach>
        requires start { rest.start ≤ latest }
        requires bounded { self.now.number ≤ latest }
        ensures { result ≡ often_of rest self.now }
    {
        let ordinal = self.number + 1;
        if self.is_reduced(rest) && ordinal > REDUCED_DAILY_RESTS {
            return Some(Breach {
                kind: Kind::B3,
                moment: Minute::new(rest.start),
                since: self.weekly,
                amount: ordinal - REDUCED_DAILY_RESTS,
            });
        }
        None
    }

    /// Returns the state after a rest.
    fn after(&self, rest: Run) -> RestingDay
        requires start { rest.start ≤ latest }
        requires past { rest.past ≤ latest }
        requires bounded { self.now.number ≤ latest }
        ensures after { result ≡ after_rest rest self.now }
        ensures bounded { result.number ≤ self.now.number + 1 }
    {
        let minutes = rest.past.saturating_sub(rest.start);
        if minutes >= WEEKLY_REST {
            return RestingDay {
                from: Minute::new(rest.past),
                part: false,
                weekly: Minute::new(rest.past),
                number: 0,
            };
        }
        if minutes >= DAILY_REST {
            return RestingDay {
                from: Minute::new(rest.past),
                part: false,
                weekly: self.weekly,
                number: if self.is_reduced(rest) {
                    self.number + 1
                } else {
                    self.number
                },
            };
        }
        RestingDay {
            from: self.from,
            part: self.part || minutes >= FIRST_PART_OF_DAILY_REST,
            weekly: self.weekly,
            number: self.number,
        }
    }

    /// Appends the breaches of a rest.
    fn end(&self, rest: Run, found: &mut Found) -> Result<(), AllocError>
        requires start { rest.start ≤ latest }
        requires bounded { self.now.number ≤ latest }
        ensures breaches { OnOk result (
            found.new.breaches.items ≡ found.old.breaches.items ++ rest_found rest self.now) }
        ensures appends { Appends is_b2_or_b3 false found.old found.new }
    {
        if rest.past.saturating_sub(rest.start) >= DAILY_REST {
            put(self.short_rest(rest), found)?;
            put(self.often_reduced(rest), found)?;
        }
        Ok(())
    }

    /// Takes the rest run that ends where a span starts, if there is one.
    fn hear(&mut self, rest: Option<Run>, found: &mut Found) -> Result<(), AllocError>
        requires start { MatchOption rest ⊤ (λ rest. rest.start ≤ latest) }
        requires past { MatchOption rest ⊤ (λ rest. rest.past ≤ latest) }
        requires bounded { self.old.number ≤ latest }
        ensures after { OnOk result (self.new ≡ after_optional_rest rest self.old) }
        ensures bounded { self.new.number ≤ self.old.number + 1 }
        ensures breaches { OnOk result (
            found.new.breaches.items ≡ found.old.breaches.items ++ found_at_optional_rest rest self.old) }
        ensures appends { Appends is_b2_or_b3 false found.old found.new }
    {
        if let Some(rest) = rest {
            self.end(rest, found)?;
            *self = self.after(rest);
        }
        Ok(())
    }
}

impl Judge for RestingDay {
    ghost own = { is_b2_or_b3 };

    ghost owes = { false };

    ghost fits = { λ d place. nat_le d.number place };

    ghost stands = { λ d start place own owed base spans. DailyRestsStand start place d own owed base spans };

    ghost defined = { DailyRestsDefined };

    fn new(_base: Minute) -> Self {
        RestingDay::none()
    }

    fn feed(
        &mut self,
        _start: u32,
        run: Option<Run>,
        _span: Span,
        found: &mut Found,
    ) -> Result<(), AllocError> {
        self.hear(run, found)?;
        Ok(())
    }

    fn finish(self, start: u32, _horizon: Minute, found: &mut Found) -> Result<(), AllocError> {
        self.end(Run { start, past: FAR }, found)?;
        Ok(())
    }
}
