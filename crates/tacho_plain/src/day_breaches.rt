ghost use Rattle.std.specs.Prelude.{◌<◌, IfOk};
ghost use Rattle.tacho_law.specs.Line.{line_of, IsExamined};
ghost use Rattle.tacho_law.specs.Breaches.{AreDayBreaches};

use crate::daily_driving::of_driving;
use crate::daily_rests::of_rests;
use std::alloc::{AllocError, Global};
use tacho_law::{Breach, put_in_order};
use tacho_periods::{Examined, duty_days, rest_runs};
use tacho_time::{Minute, Span};

/// Returns the breaches of the rules on days (Article 6(1), Article 8(2) and (4)) from `base` to before `past`, in order of time.
pub fn days(
    alloc: Global,
    spans: &[Span],
    base: Minute,
    past: Minute,
) -> Result<Vec<Breach>, AllocError>
    requires { IsExamined spans.now base past }
    ensures { IfOk result (λ found. AreDayBreaches (line_of spans.now) found.items) }
{
    let examined = &Examined { spans, base, past };
    let runs = rest_runs(alloc, examined)?;
    let days = duty_days(alloc, &runs)?;
    let mut found = of_rests(alloc, &runs, &days)?;
    let mut more = of_driving(alloc, examined, &days)?;
    found.append(&mut more)?;
    put_in_order(&mut found);
    Ok(found)
}
