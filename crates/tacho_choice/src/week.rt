ghost use Rattle.std.specs.Prelude.{◌≡◌, ◌≤◌};
ghost use Rattle.tacho_choice.specs.Weeks.{week_none, week_with};

use crate::weekly_rests::WeeklyRests;
use tacho_law::Run;
use tacho_time::{Week, first_minute};

/// The weekly rests of a week, and whether one of them covers all of it.
#[derive(Clone, Copy)]
pub struct WeekOfRests {
    pub rests: WeeklyRests,
    pub whole: bool,
}

impl WeekOfRests {
    /// Returns the week without rests.
    pub fn none() -> WeekOfRests
        ensures { result ≡ week_none }
    {
        WeekOfRests {
            rests: WeeklyRests::none(),
            whole: false,
        }
    }

    /// Returns the week with one more weekly rest.
    pub fn with(self, week: u32, rest: Run) -> WeekOfRests
        requires { week ≤ 6786 }
        ensures { result ≡ week_with week rest self }
    {
        let start = first_minute(Week::new(week)).number();
        let end = first_minute(Week::new(week + 1)).number();
        WeekOfRests {
            rests: self.rests.with(week, rest),
            whole: self.whole || (rest.start <= start && end <= rest.past),
        }
    }
}
