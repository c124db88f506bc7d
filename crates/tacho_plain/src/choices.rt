ghost use Rattle.std.specs.Prelude.{◌≡◌, ◌+◌, ◌<◌, ◌≤◌, ◌↔◌, ◌&&◌, ℕ, IfOk, IsTrue, length, not, true};
ghost use Rattle.tacho_law.specs.Line.{Line};
ghost use Rattle.tacho_law.specs.Limits.{weekly_rest};
ghost use Rattle.tacho_law.specs.Runs.{AreRestsOf};
ghost use Rattle.tacho_law.specs.Weeks.{IsWeeklyRest};
ghost use Rattle.tacho_law.specs.Choice.{CanServe};
ghost use Rattle.tacho_choice.specs.Step.{counted_of, may, IsFirst, IsNext};
ghost use Rattle.tacho_choice.specs.Weeks.{IsInWeeks, IsWeekOfRests, CanReach};
ghost use Rattle.tacho_periods.specs.Rests.{AreInTime};
ghost use Rattle.tacho_plain.specs.Choices.{AreWeeksOf};

use std::alloc::{AllocError, Global};
use tacho_choice::{Outcome, WeekOfRests, WeeklyRests};
use tacho_law::Run;
use tacho_periods::touching;
use tacho_time::{Week, first_minute};

/// Returns a week, built from the weekly rests that touch it.
fn week_of_rests(weekly: &[Run], number: u32) -> WeekOfRests
    requires in_time { AreInTime weekly.now }
    requires in_range { number ≤ 6786 }
    ensures { (line : Line) → AreRestsOf line weekly_rest weekly.now → IsInWeeks line
        → IsWeekOfRests (IsWeeklyRest line) number result }
{
    let start = first_minute(Week::new(number)).number();
    let end = first_minute(Week::new(number + 1)).number();
    let rests = touching(weekly, start, end);
    let mut week = WeekOfRests::none();
    for rest in rests {
        week = week.with(number, *rest);
    }
    week
}

/// Returns the weeks from one number to before another, each built from the weekly rests that touch it.
pub fn weeks_of_rests(
    alloc: Global,
    weekly: &[Run],
    first: u32,
    past: u32,
) -> Result<Vec<WeekOfRests>, AllocError>
    requires in_time { AreInTime weekly.now }
    requires range { first ≤ past }
    requires in_range { past ≤ 6787 }
    ensures count { IfOk result (λ weeks. first + length weeks.items ≡ past) }
    ensures each { IfOk result (λ weeks. (line : Line) → AreRestsOf line weekly_rest weekly.now → IsInWeeks line
        → AreWeeksOf line first weeks.items) }
{
    let mut weeks = Vec::new(alloc);
    for number in first..past {
        weeks.push(week_of_rests(weekly, number))?;
    }
    Ok(weeks)
}

/// True if the week can have the outcome `left`, where `before` says whether the rest over its start is counted before.
fn is_left(week: WeeklyRests, before: bool, left: Outcome) -> bool
    ensures { IsTrue result ↔ ((may week before left.crossing ≡ true)
        × (left.counted ≡ counted_of week before left.crossing)) }
{
    let outcome = Outcome {
        counted: week.counted(before, left.crossing),
        crossing: left.crossing,
    };
    week.allows(before, left.crossing) && outcome.place() == left.place()
}

/// True if a week can have the outcome `left` after the outcome `old` of the week before.
fn is_next(week: WeeklyRests, asks: bool, old: Outcome, left: Outcome) -> bool
    ensures { IsTrue result ↔ IsNext week asks old left }
{
    is_left(week, old.crossing, left) && (!asks || old.counted.serves(left.counted))
}

/// True if the first week can have the outcome `left`. Nothing is asked of it together with the week before.
fn is_first(week: WeeklyRests, left: Outcome) -> bool
    ensures { IsTrue result ↔ IsFirst week left }
{
    is_left(week, false, left) || (week.entering.is_some() && is_left(week, true, left))
}

/// True if something is asked of a week and the next one together: neither is wholly at rest.
fn is_asked(week: WeekOfRests, next: WeekOfRests) -> bool
    ensures { result ≡ (not week.whole && not next.whole) }
{
    !week.whole && !next.whole
}

/// True if some choice serves the weeks from one place to another and leaves the last of them with the outcome `left`. It tries each
/// outcome of the week before, and so on back to the first week.
fn can_leave(weeks: &[WeekOfRests], first: usize, at: usize, left: Outcome) -> bool
    requires range { first ≤ at }
    requires within { at < length weeks.now }
    ensures { (line : Line) (start : ℕ) → IsInWeeks line → AreWeeksOf line start weeks.now
        → (IsTrue result ↔ CanReach line (start + first) (start + at) left) }
{
    let week = weeks[at];
    if at == first {
        return is_first(week.rests, left);
    }
    let asks = is_asked(weeks[at - 1], week);
    for place in 0..10 {
        let before = Outcome::at(place);
        if is_next(week.rests, asks, before, left) && can_leave(weeks, first, at - 1, before) {
            return true;
        }
    }
    false
}

/// True if some choice serves the weeks from one place to another (Articles 8(6), first subparagraph, and 8(9)).
pub fn can_serve(weeks: &[WeekOfRests], first: usize, at: usize) -> bool
    requires range { first ≤ at }
    requires within { at < length weeks.now }
    ensures { (line : Line) (start : ℕ) → IsInWeeks line → AreWeeksOf line start weeks.now
        → (IsTrue result ↔ CanServe line (start + first) (start + at)) }
{
    for place in 0..10 {
        if can_leave(weeks, first, at, Outcome::at(place)) {
            return true;
        }
    }
    false
}
