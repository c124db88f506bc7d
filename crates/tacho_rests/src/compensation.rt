ghost use Rattle.std.specs.Prelude.{◌≡◌, ◌≤◌, ◌<◌, ◌+◌, ◌++◌, [], ℕ, true, IfOk, OnOk};
ghost use Rattle.tacho_law.specs.declared.run.Run.{Run as RunValue};
ghost use Rattle.tacho_law.specs.Line.{Line};
ghost use Rattle.tacho_law.specs.Limits.{first_week, latest};
ghost use Rattle.tacho_law.specs.Weeks.{week_start, IsInWeek};
ghost use Rattle.tacho_pass.specs.Found.{Appends, own_of};
ghost use Rattle.tacho_pass.specs.Kinds.{is_b10};
ghost use Rattle.tacho_pass.specs.Heard.{IsNext, IsLineTo};
ghost use Rattle.tacho_rests.specs.Few.{debts_in, rests_in};
ghost use Rattle.tacho_rests.specs.Paying.{due_of, overdue_of, close_debts, rests_with};
ghost use Rattle.tacho_rests.specs.Turns.{IsLedger, IsOpened, IsOwed};

use crate::due_debts::{due, emit, open};
use crate::few::{Debts, Rests};
use crate::payment::{main_of, owed_for, turns};
use std::alloc::AllocError;
use tacho_law::limits::{DAILY_REST, FIRST_WEEK};
use tacho_law::{FAR, Run};
use tacho_pass::{Found, Judge};
use tacho_time::{Minute, Span, Week, first_minute, week_of};

/// The debts of the weeks before a week, and the rests of nine hours or more that have started in that week.
#[derive(Clone, Copy)]
pub struct Ledger {
    week: u32,
    rests: Rests,
    debts: Debts,
    ghost early: { week ≤ 6782 },
}

/// Returns the open debts after a week. Debts that are due at its start are appended to what is found, with their breaches.
fn close(
    week: u32,
    rests: &Rests,
    debts: &Debts,
    end: u32,
    over: bool,
    found: &mut Found,
) -> Result<Debts, AllocError>
    requires { week ≤ 6782 }
    ensures left { IfOk result (λ left. debts_in left
        ≡ close_debts end over week (rests_in rests.now) (debts_in debts.now)) }
    ensures debts { OnOk result (found.new.debts.items
        ≡ found.old.debts.items ++ due_of (week_start week) (debts_in debts.now)) }
    ensures breaches { OnOk result (found.new.breaches.items
        ≡ found.old.breaches.items ++ overdue_of (week_start week) (due_of (week_start week) (debts_in debts.now))) }
    ensures appends { Appends is_b10 true found.old found.new }
{
    let start = first_minute(Week::new(week));
    let past = due(debts, start);
    emit(past.as_slice(), start, found)?;
    let left = open(debts, start);
    let main = main_of(rests.as_slice(), end);
    let owed = if over { owed_for(week, main) } else { None };
    Ok(turns(&left, rests.as_slice(), end, main, &owed))
}

impl Ledger {
    /// Returns the ledger before the first rest that starts in a week.
    pub fn none(week: Week) -> Ledger
        requires { week ≤ 6782 }
        ensures week { result.week ≡ week }
        ensures rests { rests_in result.rests ≡ [] }
        ensures debts { debts_in result.debts ≡ [] }
    {
        Ledger {
            week: week.number(),
            rests: Rests::none(),
            debts: Debts::none(),
        }
    }

    /// Adds one more rest of the week, if it has nine hours or more.
    fn add(&mut self, rest: Run)
        requires in_range { rest.start ≤ latest }
        requires nonempty { rest.start < rest.past }
        ensures week { self.new.week ≡ self.old.week }
        ensures debts { self.new.debts ≡ self.old.debts }
        ensures rests { rests_in self.new.rests ≡ rests_with (rests_in self.old.rests) rest }
    {
        if rest.past - rest.start >= DAILY_REST {
            self.rests.push(rest);
        }
    }

    /// Moves to the start of a week, with the debts of the weeks before it.
    fn begin(&mut self, week: u32, debts: Debts)
        requires { week ≤ 6782 }
        ensures week { self.new.week ≡ week }
        ensures rests { rests_in self.new.rests ≡ [] }
        ensures debts { self.new.debts ≡ debts }
    {
        self.week = week;
        self.rests = Rests::none();
        self.debts = debts;
    }

    /// Moves to the week of the next rest run. The weeks before it are over.
    fn enter(&mut self, week: u32, found: &mut Found) -> Result<(), AllocError>
        requires { week ≤ 6782 }
        ensures week { OnOk result (self.new.week ≡ week) }
        ensures opened { OnOk result ((line : Line) (horizon : ℕ) (last run : RunValue) (e : ℕ)
            → IsLineTo line horizon last → IsNext line e run → IsInWeek week run.start
            → IsLedger line horizon e self.old.week (rests_in self.old.rests) (debts_in self.old.debts)
            (own_of is_b10 found.old.breaches.items) found.old.debts.items
            → IsOpened line horizon run week (rests_in self.new.rests) (debts_in self.new.debts)
            (own_of is_b10 found.new.breaches.items) found.new.debts.items) }
        ensures appends { Appends is_b10 true found.old found.new }
    {
        if week == self.week {
            return Ok(());
        }
        match close(self.week, &self.rests, &self.debts, FAR, true, found) {
            Ok(debts) => {
                self.begin(week, debts);
                Ok(())
            }
            Err(error) => Err(error),
        }
    }

    /// Takes the next rest run of the line. The run starts in week 0 or later.
    pub fn hear(&mut self, run: Run, found: &mut Found) -> Result<(), AllocError>
        requires from_first_week { first_week ≤ run.start }
        requires in_range { run.start ≤ latest }
        requires nonempty { run.start < run.past }
        ensures kept { OnOk result ((line : Line) (horizon : ℕ) (last : RunValue) (e : ℕ)
            → IsLineTo line horizon last → IsNext line e run
            → IsLedger line horizon e self.old.week (rests_in self.old.rests) (debts_in self.old.debts)
            (own_of is_b10 found.old.breaches.items) found.old.debts.items
            → IsLedger line horizon (run.start + 1) self.new.week (rests_in self.new.rests) (debts_in self.new.debts)
            (own_of is_b10 found.new.breaches.items) found.new.debts.items) }
        ensures appends { Appends is_b10 true found.old found.new }
    {
        let week = week_of(Minute::new(run.start)).number();
        self.enter(week, found)?;
        self.add(run);
        Ok(())
    }

    /// Appends all remaining debts to what is found, with their breaches. The last rest run starts at `start`.
    pub fn end(self, start: u32, horizon: Minute, found: &mut Found) -> Result<(), AllocError>
        requires from_first_week { first_week ≤ start }
        requires in_range { start ≤ latest }
        ensures debts { OnOk result ((line : Line) (last : RunValue) (e : ℕ)
            → IsLineTo line horizon last → last.start ≡ start → IsNext line e last
            → IsLedger line horizon e self.week (rests_in self.rests) (debts_in self.debts)
            (own_of is_b10 found.old.breaches.items) found.old.debts.items
            → IsOwed line horizon (own_of is_b10 found.new.breaches.items) found.new.debts.items) }
        ensures appends { Appends is_b10 true found.old found.new }
    {
        let mut ledger = self;
        let week = week_of(Minute::new(start)).number();
        ledger.enter(week, found)?;
        ledger.add(Run { start, past: FAR });
        let end = horizon.number();
        let left = close(ledger.week, &ledger.rests, &ledger.debts, end, false, found)?;
        emit(left.as_slice(), horizon, found)?;
        Ok(())
    }
}

/// The rule that finds the debts, and the breaches of those that aren't paid in time (Article 8(6b) of Regulation (EC) No 561/2006).
impl Judge for Ledger {
    ghost use Rattle.std.specs.Prelude.{true};
    ghost use Rattle.tacho_pass.specs.Kinds.{is_b10};
    ghost use Rattle.tacho_rests.specs.Owing.{OwingStands, OwingDefined};

    ghost own = { is_b10 };

    ghost owes = { true };

    ghost fits = { λ p place. true };

    ghost stands = { OwingStands };

    ghost defined = { OwingDefined };

    fn new(base: Minute) -> Self {
        Ledger::none(week_of(base))
    }

    fn feed(
        &mut self,
        _start: u32,
        run: Option<Run>,
        _span: Span,
        found: &mut Found,
    ) -> Result<(), AllocError> {
        let Some(run) = run else {
            return Ok(());
        };
        if run.start < FIRST_WEEK {
            return Ok(());
        }
        self.hear(run, found)?;
        Ok(())
    }

    fn finish(self, start: u32, horizon: Minute, found: &mut Found) -> Result<(), AllocError> {
        if start < FIRST_WEEK {
            return Ok(());
        }
        self.end(start, horizon, found)?;
        Ok(())
    }
}
