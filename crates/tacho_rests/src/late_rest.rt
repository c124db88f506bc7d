ghost use Rattle.std.specs.Prelude.{◌≡◌, ◌≤◌, true, false};
ghost use Rattle.tacho_law.specs.Limits.{latest};
ghost use Rattle.tacho_pass.specs.Kinds.{is_b8};
ghost use Rattle.tacho_rests.specs.Lateness.{late_of, late_run, end_after as end_after_it, LateStands, LateDefined};

use std::alloc::AllocError;
use tacho_law::limits::{SIX_DAYS, WEEKLY_REST};
use tacho_law::{Breach, FAR, Kind, Run};
use tacho_pass::{Found, Judge, put};
use tacho_time::{Minute, Span};

/// The end of the last weekly rest, after which the next one may start too late (Article 8(6) of Regulation (EC) No 561/2006).
#[derive(Clone, Copy)]
pub struct Late {
    end: Option<Minute>,
}

/// Returns the breach of a weekly rest that starts too late after the end of the last one (Article 8(6)).
fn late_breach(end: &Option<Minute>, rest: Run) -> Option<Breach>
    requires { rest.start ≤ latest }
    ensures { result ≡ late_of end.now rest }
{
    let Some(since) = end else {
        return None;
    };
    let last = since.number() + SIX_DAYS;
    if last >= rest.start {
        return None;
    }
    Some(Breach {
        kind: Kind::B8,
        moment: Minute::new(last),
        since: *since,
        amount: rest.start - last,
    })
}

/// Returns the end of the last weekly rest, after a rest run.
fn end_after(end: &Option<Minute>, run: Run) -> Option<Minute>
    requires { run.past ≤ latest }
    ensures { result ≡ end_after_it end.now run }
{
    if run.past.saturating_sub(run.start) >= WEEKLY_REST {
        Some(Minute::new(run.past))
    } else {
        *end
    }
}

/// Returns the breach of a rest run, if it is a weekly rest that starts too late.
fn breach_of(end: &Option<Minute>, run: Run) -> Option<Breach>
    requires { run.start ≤ latest }
    ensures { result ≡ late_run end.now run }
{
    if run.past.saturating_sub(run.start) >= WEEKLY_REST {
        late_breach(end, run)
    } else {
        None
    }
}

/// The rule that finds weekly rests that start too late (Article 8(6) of Regulation (EC) No 561/2006).
impl Judge for Late {
    ghost own = { is_b8 };

    ghost owes = { false };

    ghost fits = { λ p place. true };

    ghost stands = { LateStands };

    ghost defined = { LateDefined };

    fn new(_base: Minute) -> Self {
        Late { end: None }
    }

    fn feed(
        &mut self,
        _start: u32,
        run: Option<Run>,
        _span: Span,
        found: &mut Found,
    ) -> Result<(), AllocError> {
        let Some(run) = run else {
            return Ok(());
        };
        put(breach_of(&self.end, run), found)?;
        self.end = end_after(&self.end, run);
        Ok(())
    }

    fn finish(self, start: u32, _horizon: Minute, found: &mut Found) -> Result<(), AllocError> {
        put(breach_of(&self.end, Run { start, past: FAR }), found)?;
        Ok(())
    }
}
