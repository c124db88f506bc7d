ghost use Rattle.std.specs.Prelude.{IfOk};
ghost use Rattle.tacho_law.specs.Line.{line_of, IsExamined};
ghost use Rattle.tacho_law.specs.Runs.{AreRestRuns};

use crate::examined::Examined;
use std::alloc::{AllocError, Global};
use tacho_law::{FAR, Run};
use tacho_pass::is_rest;

/// Returns the rest runs of the line of spans from `base` to `past`, in order of time.
pub fn rest_runs(alloc: Global, examined: &Examined<'_>) -> Result<Vec<Run>, AllocError>
    requires { IsExamined examined.now.spans.now examined.now.base examined.now.past }
    ensures { IfOk result (λ runs. AreRestRuns (line_of examined.now.spans.now) runs.items) }
{
    let mut runs = Vec::new(alloc);
    let mut start = 0;
    for span in examined.spans {
        if !is_rest(span.mark.activity) {
            let stop = span.start.number();
            if start < stop {
                runs.push(Run { start, past: stop })?;
            }
            start = span.past.number();
        }
    }
    runs.push(Run { start, past: FAR })?;
    Ok(runs)
}
