ghost use Rattle.std.specs.Prelude.{true};
ghost use Rattle.tacho_pass.specs.Kinds.{is_b8_to_b10};
ghost use Rattle.tacho_rests.specs.RestRules.{RestsStand};
ghost use Rattle.tacho_rests.specs.WeekRests.{WeekRestsDefined};

use crate::compensation::Ledger;
use crate::late_rest::Late;
use crate::missing_rest::Choices;
use std::alloc::AllocError;
use tacho_law::Run;
use tacho_pass::{Found, Hearing, Judge};
use tacho_time::{Minute, Span};

/// The three rules on weekly rests.
#[derive(Clone, Copy)]
pub struct RestRules {
    /// B8: weekly rests that start too late (Article 8(6)).
    pub late_rest: Late,
    /// B9: weeks that lack weekly rests (Articles 8(6) and 8(9)).
    pub missing_rest: Choices,
    /// B10 and the debts: reduced rests that aren't compensated (Article 8(6b)).
    pub compensation: Ledger,
}

/// The rules on weekly rests (Articles 8(6), 8(6b) and 8(9) of Regulation (EC) No 561/2006).
pub type WeekRests = Hearing<RestRules>;

impl Judge for RestRules {
    ghost own = { is_b8_to_b10 };

    ghost owes = { true };

    ghost fits = { λ r place. true };

    ghost stands = { RestsStand };

    ghost defined = { WeekRestsDefined };

    fn new(base: Minute) -> Self {
        RestRules {
            late_rest: Judge::new(base),
            missing_rest: Judge::new(base),
            compensation: Judge::new(base),
        }
    }

    fn feed(
        &mut self,
        start: u32,
        run: Option<Run>,
        span: Span,
        found: &mut Found,
    ) -> Result<(), AllocError> {
        let (run, span) = (&run, &span);
        self.late_rest.feed(start, *run, *span, found)?;
        self.missing_rest.feed(start, *run, *span, found)?;
        self.compensation.feed(start, *run, *span, found)?;
        Ok(())
    }

    fn finish(self, start: u32, horizon: Minute, found: &mut Found) -> Result<(), AllocError> {
        self.late_rest.finish(start, horizon, found)?;
        self.missing_rest.finish(start, horizon, found)?;
        self.compensation.finish(start, horizon, found)?;
        Ok(())
    }
}
