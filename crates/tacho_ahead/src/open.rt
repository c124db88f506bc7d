ghost use Rattle.std.specs.Prelude.{◌≡◌, ◌≤◌, ◌↔◌, ℕ, None, IsTrue};
ghost use Rattle.tacho_line.specs.Line.{mark_at};
ghost use Rattle.tacho_ahead.specs.Plans.{IsInTime, IsOpen};

use tacho_law::limits::LATEST;
use tacho_line::Line;
use tacho_time::Minute;

/// The minutes that there have to be from the start of a forecast to the end of 2099: no plan takes more.
const LONGEST_PLAN: u32 = 91_381;

/// True if all plans of a forecast from a minute on end by the end of 2099.
pub fn is_in_time(start: Minute) -> bool
    ensures { IsTrue result ↔ IsInTime start }
{
    start.number() <= LATEST - LONGEST_PLAN
}

/// True if nothing is held from the horizon of a line from a Monday on, and the horizon isn't later than a minute.
pub fn is_open(line: &Line, monday: Minute, start: Minute) -> bool
    ensures { IsTrue result ↔ IsOpen line.now monday start }
{
    let horizon = line.horizon(monday).minute;
    horizon <= start && ends_by(line, horizon)
}

/// True if a line holds nothing from a minute on.
fn ends_by(line: &Line, minute: Minute) -> bool
    ensures { IsTrue result ↔ ((m : ℕ) → minute ≤ m → mark_at line.now m ≡ None) }
{
    line.spans().iter().all(|span| span.past <= minute)
}
