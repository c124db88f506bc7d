ghost use Rattle.std.specs.Prelude.{◌≡◌, ◌+◌, ◌-◌, ◌*◌, ◌<◌, ◌≤◌, ◌^◌, IfOk};
ghost use Rattle.tacho_time.specs.declared.span.Activity.TheVariants.{Rest as RestOf, Available as AvailableOf, Work as WorkOf, Drive as DriveOf};
ghost use Rattle.tacho_sheet.specs.Reports.{is_single_minute, is_crew, is_lacking};
ghost use Rattle.tacho_sheet.specs.Amounts.{AreAmounts, AreFrom, all_or_none, whole};
ghost use Rattle.tacho_time.specs.Limits.{greatest_day};

use std::alloc::{AllocError, Global};
use tacho_line::Line;
use tacho_time::{Activity, Day, Mark, Minute, Span};

/// The minutes of a day.
const MINUTES_OF_DAY: u32 = 1440;

/// Counts of some minutes: those held single with each activity, those held as crew, and those not held.
#[derive(Clone, Copy)]
pub(crate) struct Amounts {
    pub(crate) rest: u32,
    pub(crate) available: u32,
    pub(crate) work: u32,
    pub(crate) drive: u32,
    pub(crate) crew: u32,
    pub(crate) lacking: u32,
}

impl Amounts {
    /// All six amounts are 0.
    pub(crate) fn zero() -> Amounts
        ensures { result ≡ record { rest = 0; available = 0; work = 0; drive = 0; crew = 0; lacking = 0 } }
    {
        Amounts {
            rest: 0,
            available: 0,
            work: 0,
            drive: 0,
            crew: 0,
            lacking: 0,
        }
    }

    /// Adds minutes that all have one mark, or that aren't held.
    fn add_run(&mut self, mark: Option<Mark>, minutes: u32)
        requires { whole self.old + minutes < 2 ^ 32 }
        ensures rest { self.new.rest ≡ self.old.rest + all_or_none (is_single_minute RestOf mark) minutes }
        ensures available { self.new.available ≡ self.old.available + all_or_none (is_single_minute AvailableOf mark) minutes }
        ensures work { self.new.work ≡ self.old.work + all_or_none (is_single_minute WorkOf mark) minutes }
        ensures drive { self.new.drive ≡ self.old.drive + all_or_none (is_single_minute DriveOf mark) minutes }
        ensures crew { self.new.crew ≡ self.old.crew + all_or_none (is_crew mark) minutes }
        ensures lacking { self.new.lacking ≡ self.old.lacking + all_or_none (is_lacking mark) minutes }
    {
        let Some(mark) = mark else {
            self.lacking += minutes;
            return;
        };
        if mark.crew {
            self.crew += minutes;
            return;
        }
        match mark.activity {
            Activity::Rest => self.rest += minutes,
            Activity::Available => self.available += minutes,
            Activity::Work => self.work += minutes,
            Activity::Drive => self.drive += minutes,
        }
    }

    /// Adds the amounts of other minutes.
    pub(crate) fn add_all(&mut self, other: &Amounts)
        requires { whole self.old + whole other.now < 2 ^ 32 }
        ensures rest { self.new.rest ≡ self.old.rest + other.now.rest }
        ensures available { self.new.available ≡ self.old.available + other.now.available }
        ensures work { self.new.work ≡ self.old.work + other.now.work }
        ensures drive { self.new.drive ≡ self.old.drive + other.now.drive }
        ensures crew { self.new.crew ≡ self.old.crew + other.now.crew }
        ensures lacking { self.new.lacking ≡ self.old.lacking + other.now.lacking }
    {
        self.rest += other.rest;
        self.available += other.available;
        self.work += other.work;
        self.drive += other.drive;
        self.crew += other.crew;
        self.lacking += other.lacking;
    }
}

/// Counts the minutes from `start` to before `past`. The spans are in order and lie within this range.
fn amounts_of(spans: &[Span], start: Minute, past: Minute) -> Amounts
    requires { AreFrom start past spans.now }
    ensures { AreAmounts spans.now start (past - start) result }
{
    let mut amounts = Amounts::zero();
    let mut from = start;
    for span in spans {
        let before = span.start.number() - from.number();
        let within = span.past.number() - span.start.number();
        amounts.add_run(None, before);
        amounts.add_run(Some(span.mark), within);
        from = span.past;
    }
    let after = past.number() - from.number();
    amounts.add_run(None, after);
    amounts
}

/// Counts the minutes of a day.
pub(crate) fn amounts_of_day(alloc: Global, line: &Line, day: Day) -> Result<Amounts, AllocError>
    requires { day < greatest_day }
    ensures { IfOk result (AreAmounts line.now (1440 * day) 1440) }
{
    let first = MINUTES_OF_DAY * day.number();
    let start = Minute::new(first);
    let past = Minute::new(first + MINUTES_OF_DAY);
    amounts_of_range(alloc, line, start, past)
}

/// Counts the minutes from `start` to before `past`.
pub(crate) fn amounts_of_range(
    alloc: Global,
    line: &Line,
    start: Minute,
    past: Minute,
) -> Result<Amounts, AllocError>
    requires { start ≤ past }
    ensures { IfOk result (AreAmounts line.now start (past - start)) }
{
    let spans = line.slice(alloc, start, past)?;
    Ok(amounts_of(&spans, start, past))
}
