ghost use Rattle.std.specs.Prelude.{◌≡◌, ◌≤◌, ◌+◌, ◌++◌, ◌&&◌, nat_le, IsTrue, false, OnOk};
ghost use Rattle.tacho_law.specs.Limits.{latest};
ghost use Rattle.tacho_law.specs.Weeks.{week_start};
ghost use Rattle.tacho_pass.specs.Found.{Appends};
ghost use Rattle.tacho_pass.specs.Kinds.{is_b6_or_b7};
ghost use Rattle.tacho_pass.specs.Counts.{count_none};
ghost use Rattle.tacho_driving.specs.Sums.{WeekSumsStand, WeekSumsDefined};
ghost use Rattle.tacho_driving.specs.Sums.{sums_in_range, fill_week, close_week, sum_breaches, turn_week, turn_found, through, through_found};
ghost use Rattle.tacho_time.specs.Limits.{greatest_week};

use std::alloc::AllocError;
use tacho_law::limits::{DRIVING_IN_TWO_WEEKS, DRIVING_IN_WEEK};
use tacho_law::{Kind, Run};
use tacho_pass::{Count, Found, Hearing, Judge, is_drive, put};
use tacho_time::{Minute, Span, Week, first_minute, week_of};

/// The driving minutes of the current week, which follows `week`, and of both weeks together.
#[derive(Clone, Copy)]
pub struct Sums {
    /// The week before the current one.
    pub week: u32,
    /// The driving of the current week, with the first minute above 56 hours (Article 6(2)).
    pub here: Count,
    /// The driving of `week` and the current week, with the first minute above 90 hours (Article 6(3)).
    pub two: Count,
    /// The driving of the current week, as part of the pair with the next week, with the first minute above 90 hours.
    pub ahead: Count,
}

impl Sums {
    /// Returns the state before the first minute of the week after `week`, with nothing driven before.
    pub fn none(week: u32) -> Sums
        ensures { result ≡ record { week = week; here = count_none; two = count_none; ahead = count_none } }
    {
        Sums {
            week,
            here: Count::none(),
            two: Count::none(),
            ahead: Count::none(),
        }
    }

    /// Returns how many weeks, starting with the current one, end at or before a minute. Most spans end in the current week.
    fn ends_by(&self, minute: Minute) -> u32
        requires in_later_week { week_start (self.now.week + 1) ≤ minute }
        requires in_range { minute ≤ latest }
        ensures ended { week_start (self.now.week + 1 + result) ≤ minute }
        ensures open { minute ≤ week_start (self.now.week + 2 + result) }
    {
        let end = first_minute(Week::new(self.week + 2));
        if minute.number() < end.number() {
            return 0;
        }
        week_of(minute).number() - (self.week + 1)
    }

    /// Adds the minutes from `from` to before `to`, all in the same week. Either all are driving or none is.
    fn fill(&mut self, drives: bool, from: u32, to: u32)
        requires bounded { IsTrue (sums_in_range self.old from) }
        requires nonempty { from ≤ to }
        requires in_range { to ≤ week_start greatest_week }
        ensures filled { self.new ≡ fill_week drives from to self.old }
        ensures bounded { IsTrue (sums_in_range self.new to) }
    {
        if drives {
            self.here.add(DRIVING_IN_WEEK, from, to);
            self.two.add(DRIVING_IN_TWO_WEEKS, from, to);
            self.ahead.add(DRIVING_IN_TWO_WEEKS, from, to);
        }
    }

    /// Moves past the end of the week.
    fn close(&mut self)
        requires { self.old.week ≤ 6786 }
        ensures { self.new ≡ close_week self.old }
    {
        *self = Sums {
            week: self.week + 1,
            here: Count::none(),
            two: self.ahead,
            ahead: Count::none(),
        };
    }

    /// Adds the minutes from `from` to the end of the week, and continues in the next week.
    fn turn(&mut self, drives: bool, from: u32, found: &mut Found) -> Result<(), AllocError>
        requires week { self.old.week ≤ 6786 }
        requires bounded { IsTrue (sums_in_range self.old from) }
        requires before { from ≤ week_start (self.old.week + 2) }
        ensures turned { OnOk result (self.new ≡ turn_week drives from self.old) }
        ensures bounded { OnOk result (IsTrue (sums_in_range self.new (week_start (self.old.week + 2)))) }
        ensures breaches { OnOk result
            (found.new.breaches.items ≡ found.old.breaches.items ++ turn_found drives from self.old) }
        ensures appends { Appends is_b6_or_b7 false found.old found.new }
    {
        let end = first_minute(Week::new(self.week + 2)).number();
        self.fill(drives, from, end);
        put_breaches(self, found)?;
        self.close();
        Ok(())
    }

    /// Adds the minutes from `from` to before `to`, over `ends` week ends.
    fn go_through(
        &mut self,
        drives: bool,
        from: u32,
        to: u32,
        ends: u32,
        found: &mut Found,
    ) -> Result<(), AllocError>
        requires bounded { IsTrue (sums_in_range self.old from) }
        requires before { from ≤ week_start (self.old.week + 2) }
        requires nonempty { from ≤ to }
        requires in_range { to ≤ week_start greatest_week }
        requires ends { week_start (self.old.week + 1 + ends) ≤ to }
        ensures through { OnOk result (self.new ≡ through ends drives from to self.old) }
        ensures bounded { OnOk result (IsTrue (sums_in_range self.new to)) }
        ensures week { OnOk result (self.new.week ≡ self.old.week + ends) }
        ensures breaches { OnOk result
            (found.new.breaches.items ≡ found.old.breaches.items ++ through_found ends drives from self.old) }
        ensures appends { Appends is_b6_or_b7 false found.old found.new }
    {
        let mut place = from;
        for _ in 0..ends {
            let end = first_minute(Week::new(self.week + 2)).number();
            self.turn(drives, place, found)?;
            place = end;
        }
        self.fill(drives, place, to);
        Ok(())
    }
}

/// Appends the breaches of the week and of the two weeks to what is found.
fn put_breaches(sums: &Sums, found: &mut Found) -> Result<(), AllocError>
    requires { sums.now.week ≤ 6786 }
    ensures breaches { OnOk result (found.new.breaches.items ≡ found.old.breaches.items ++ sum_breaches sums.now) }
    ensures appends { Appends is_b6_or_b7 false found.old found.new }
{
    let start = first_minute(Week::new(sums.week));
    let next = first_minute(Week::new(sums.week + 1));
    put(sums.here.over(Kind::B6, DRIVING_IN_WEEK, next), found)?;
    put(sums.two.over(Kind::B7, DRIVING_IN_TWO_WEEKS, start), found)?;
    Ok(())
}

/// The pass that finds too much driving in one week and in two (Article 6(2) and (3) of Regulation (EC) No 561/2006).
pub type WeekSums = Hearing<Sums>;

impl Judge for Sums {
    ghost own = { is_b6_or_b7 };

    ghost owes = { false };

    ghost fits = { λ s place. sums_in_range s place
        && (nat_le (week_start (s.week + 1)) place && nat_le place (week_start (s.week + 2))) };

    ghost stands = { λ s start place own owed base spans. WeekSumsStand place s own owed base spans };

    ghost defined = { WeekSumsDefined };

    fn new(base: Minute) -> Self {
        Sums::none(week_of(base).number() - 1)
    }

    fn feed(
        &mut self,
        _start: u32,
        _run: Option<Run>,
        span: Span,
        found: &mut Found,
    ) -> Result<(), AllocError> {
        let drives = is_drive(span.mark.activity);
        let from = span.start.number();
        let to = span.past.number();
        let ends = self.ends_by(span.past);
        self.go_through(drives, from, to, ends, found)?;
        Ok(())
    }

    fn finish(self, _start: u32, horizon: Minute, found: &mut Found) -> Result<(), AllocError> {
        let end = first_minute(Week::new(self.week + 3)).number();
        let mut sums = self;
        sums.go_through(false, horizon.number(), end, 2, found)?;
        Ok(())
    }
}
