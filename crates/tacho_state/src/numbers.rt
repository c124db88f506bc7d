//! The numbers that an archive stores for parts of card files, activities and marks.

ghost use Rattle.std.specs.Prelude.{◌≡◌, ◌≢◌, ◌↔◌, ◌<◌, ◌≤◌, ℕ, IfSome, IsNone};
ghost use Rattle.tacho_state.specs.Numbers.{activity_number, mark_number, numbered_activity, numbered_mark, part_number};

use tacho_card::Part;
use tacho_time::{Activity, Mark};

/// The number of a part: 0 both generations, 1 the first, 2 the second.
pub fn number_of_part(part: Part) -> u32
    ensures { result ≡ part_number part }
{
    match part {
        Part::Both => 0,
        Part::First => 1,
        Part::Second => 2,
    }
}

/// The part with this number, if there is one.
pub fn part_of(number: u64) -> Option<Part>
    ensures some { IfSome result (λ part. part_number part ≡ number) }
    ensures none { IsNone result → (part : Part) → part_number part ≢ number }
{
    match number {
        0 => Some(Part::Both),
        1 => Some(Part::First),
        2 => Some(Part::Second),
        _ => None,
    }
}

/// The number of an activity: 0 rest, 1 available, 2 work, 3 drive.
fn number_of_activity(activity: Activity) -> u32
    ensures value { result ≡ activity_number activity }
    ensures bound { result < 4 }
{
    match activity {
        Activity::Rest => 0,
        Activity::Available => 1,
        Activity::Work => 2,
        Activity::Drive => 3,
    }
}

/// The number of a mark: that of its activity, and 4 more for crew.
pub fn number_of_mark(mark: Mark) -> u32
    ensures { result ≡ mark_number mark }
{
    number_of_activity(mark.activity) + if mark.crew { 4 } else { 0 }
}

/// The activity with this number; every number above 2 is read as drive.
pub fn activity_of(number: u64) -> Activity
    ensures { result ≡ numbered_activity number }
{
    match number {
        0 => Activity::Rest,
        1 => Activity::Available,
        2 => Activity::Work,
        _ => Activity::Drive,
    }
}

/// The mark with this number; the numbers of marks end at 7.
pub fn mark_of(number: u64) -> Option<Mark>
    ensures some { IfSome result (λ mark. mark ≡ numbered_mark number) }
    ensures back { IfSome result (λ mark. mark_number mark ≡ number) }
    ensures none { IsNone result ↔ (8 ≤ number) }
{
    if number >= 8 {
        return None;
    }
    Some(Mark {
        activity: activity_of(number % 4),
        crew: number >= 4,
    })
}
