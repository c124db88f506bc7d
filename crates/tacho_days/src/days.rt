ghost use Rattle.std.specs.Prelude.{◌&&◌, false};
ghost use Rattle.tacho_pass.specs.Kinds.{is_b2_to_b5};
ghost use Rattle.tacho_days.specs.DayRules.{DaysStand};
ghost use Rattle.tacho_days.specs.Days.{DaysDefined};

use crate::daily_driving::DutyDriving;
use crate::daily_rest::RestingDay;
use std::alloc::AllocError;
use tacho_law::Run;
use tacho_pass::{Found, Hearing, Judge};
use tacho_time::{Minute, Span};

/// Both rules on days.
#[derive(Clone, Copy)]
pub struct DayRules {
    /// B2 and B3: daily rests (Articles 8(2) and 8(4)).
    pub daily_rest: RestingDay,
    /// B4 and B5: driving in a day (Article 6(1)).
    pub daily_driving: DutyDriving,
}

/// The rules on days: daily rests, and driving in a day (Articles 6(1), 8(2) and 8(4) of Regulation (EC) No 561/2006).
pub type Days = Hearing<DayRules>;

impl Judge for DayRules {
    ghost own = { is_b2_to_b5 };

    ghost owes = { false };

    ghost fits = { λ d place. ⟦<RestingDay as Judge>⟧.fits d.daily_rest place
        && ⟦<DutyDriving as Judge>⟧.fits d.daily_driving place };

    ghost stands = { DaysStand };

    ghost defined = { DaysDefined };

    fn new(base: Minute) -> Self {
        DayRules {
            daily_rest: Judge::new(base),
            daily_driving: Judge::new(base),
        }
    }

    fn feed(
        &mut self,
        start: u32,
        run: Option<Run>,
        span: Span,
        found: &mut Found,
    ) -> Result<(), AllocError> {
        let (run, span) = (&run, &span);
        self.daily_rest.feed(start, *run, *span, found)?;
        self.daily_driving.feed(start, *run, *span, found)?;
        Ok(())
    }

    fn finish(self, start: u32, horizon: Minute, found: &mut Found) -> Result<(), AllocError> {
        self.daily_rest.finish(start, horizon, found)?;
        self.daily_driving.finish(start, horizon, found)?;
        Ok(())
    }
}
