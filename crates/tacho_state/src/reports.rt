ghost use Rattle.std.specs.Prelude.{◌≡◌, ◌⊎◌, ◌*◌, ◌<◌, ◌≤◌, false, IfOk, IfErr, IfSome, IsNone, map};
ghost use Rattle.tacho_time.specs.OrMemory.{OrMemory};
ghost use Rattle.tacho_law.specs.Line.{IsBase};
ghost use Rattle.tacho_law.specs.Limits.{latest};
ghost use Rattle.tacho_rules.specs.Report.{IsReport};
ghost use Rattle.tacho_stretches.specs.Stretches.{AreStretches, judged_of};
ghost use Rattle.tacho_state.specs.Steps.{is_monday};
ghost use Rattle.tacho_state.specs.Reported.{IsNoBase, IsOutOfLimits};

use crate::fault::StoreFault;
use std::alloc::Global;
use tacho_line::Line;
use tacho_rules::{Report, can_be_examined, examine};
use tacho_stretches::{Stretch, stretches};
use tacho_time::{FIRST_DAY, LAST_DAY, Minute};

/// Returns the first minute of a day, if it is a Monday from 2000-01-03 to the end of 2099.
pub fn base_of(day: u32) -> Option<Minute>
    ensures some { IfSome result (λ base. (base ≡ 1440 * day) × IsBase base × (base ≤ latest)) }
    ensures none { IsNone result → IsNoBase day }
{
    if day < FIRST_DAY || day > LAST_DAY || (day + 3) % 7 != 0 {
        return None;
    }
    Some(Minute::new(day * 1440))
}

/// Returns the report of a line from the first minute of a day. Returns S12 if the day isn't a Monday from 2000-01-03 to the end of 2099,
/// or the line goes past that end: no archive has such a base or such a line.
pub fn report_of(alloc: Global, line: &Line, base: u32) -> Result<Report, StoreFault>
    ensures report { IfOk result (λ report. IsReport line.now (1440 * base) report.horizon report.breaches.items report.debts.items) }
    ensures fault { IfErr result (λ fault. OrMemory StoreFault.Memory fault ((fault ≡ StoreFault.Store) × IsOutOfLimits line.now base)) }
{
    let Some(first) = base_of(base) else {
        return Err(StoreFault::Store);
    };
    if !can_be_examined(line, first) {
        return Err(StoreFault::Store);
    }
    Ok(examine(alloc, line, first)?)
}

/// Returns the stretches of a line from the first minute of a day. Returns S12 as `report_of` does.
pub fn stretches_of(alloc: Global, line: &Line, base: u32) -> Result<Vec<Stretch>, StoreFault>
    ensures stretches { IfOk result (λ found. AreStretches line.now (1440 * base) (map judged_of found.items)) }
    ensures fault { IfErr result (λ fault. OrMemory StoreFault.Memory fault ((fault ≡ StoreFault.Store) × IsOutOfLimits line.now base)) }
{
    let Some(first) = base_of(base) else {
        return Err(StoreFault::Store);
    };
    if !can_be_examined(line, first) {
        return Err(StoreFault::Store);
    }
    Ok(stretches(alloc, line, first)?)
}
