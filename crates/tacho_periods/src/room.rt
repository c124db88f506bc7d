ghost use Rattle.std.specs.Prelude.{◌≡◌, ◌-◌, ◌<◌, ◌≤◌, ◌↔◌, IsTrue};
ghost use Rattle.tacho_law.specs.Runs.{IsRestRun, AreRestsOf};
ghost use Rattle.tacho_periods.specs.Rests.{AreInTime};
ghost use Rattle.tacho_law.specs.Line.{Line};
ghost use Rattle.tacho_law.specs.Debts.{share, paid_from, HasRoom};
ghost use Rattle.tacho_law.specs.Limits.{weekly_rest, latest};

use crate::main_rests::kept_minutes;
use tacho_law::{Debt, Run, known_minutes};

/// Returns how many minutes of a debt a rest pays.
fn share_of(rest: Run, debt: &Debt) -> u32
    ensures { result ≡ share rest debt.now }
{
    match debt.paid_by {
        Some(start) if start.number() == rest.start => debt.amount,
        _ => 0,
    }
}

/// Returns how many minutes of debts a rest pays. They fit into what is examined.
pub fn minutes_paid(rest: Run, debts: &[Debt]) -> u32
    requires { paid_from rest debts.now ≤ latest }
    ensures { result ≡ paid_from rest debts.now }
{
    let mut paid = 0;
    for debt in debts {
        paid += share_of(rest, debt);
    }
    paid
}

/// Returns what remains of `minutes` of a rest after the debts that it pays.
pub fn left_of(minutes: u32, rest: Run, debts: &[Debt]) -> u32
    ensures { result ≡ minutes - paid_from rest debts.now }
{
    let mut left = minutes;
    for debt in debts {
        left = left.saturating_sub(share_of(rest, debt));
    }
    left
}

/// True if a rest has room for a debt, in addition to what it keeps and what it pays of earlier debts (Article 8(6b)).
pub fn has_room(weekly: &[Run], horizon: u32, earlier: &[Debt], debt: &Debt, rest: Run) -> bool
    requires in_time { AreInTime weekly.now }
    requires in_range { rest.start ≤ latest }
    requires nonempty { 0 < debt.now.amount }
    ensures { (line : Line) → AreRestsOf line weekly_rest weekly.now → IsRestRun line rest
        → (IsTrue result ↔ HasRoom line horizon earlier.now debt.now rest) }
{
    let minutes = known_minutes(rest, horizon.min(debt.deadline.number()));
    let room = minutes.saturating_sub(kept_minutes(weekly, horizon, rest));
    if room < debt.amount {
        return false;
    }
    debt.amount <= left_of(room, rest, earlier)
}
