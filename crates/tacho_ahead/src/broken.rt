ghost use Rattle.std.specs.Prelude.{◌≡◌, ◌+◌, ◌<◌, ◌≤◌, ◌↔◌, ℕ, List, Contains, IsTrue, IfOk, OnOk, true, take};
ghost use Rattle.tacho_time.specs.declared.span.Span.{Span as SpanValue};
ghost use Rattle.tacho_law.specs.declared.breach.Breach.{Breach as BreachValue};
ghost use Rattle.tacho_law.specs.Limits.{latest};
ghost use Rattle.tacho_pass.specs.Found.{Appends};
ghost use Rattle.tacho_pass.specs.Kinds.{is_any};
ghost use Rattle.tacho_rules.specs.Scan.{IsAt};
ghost use Rattle.tacho_ahead.specs.Plans.{plan_for};
ghost use Rattle.tacho_ahead.specs.Ahead.{Breaks};
ghost use Rattle.tacho_ahead.specs.Fed.{IsReady, IsKnown, HasSame, AreReported};

use crate::plan::{drive_and_rest, drive_and_sleep};
use std::alloc::{AllocError, Global};
use tacho_law::{Breach, Kind};
use tacho_pass::Found;
use tacho_rules::Scan;

/// True if a list has the breach.
pub(crate) fn has(breaches: &[Breach], breach: &Breach) -> bool
    ensures { IsTrue result ↔ Contains breaches.now breach.now }
{
    breaches.iter().any(|other| other == breach)
}

/// True if a list has a breach of this kind that `had` doesn't have.
pub(crate) fn has_new(breaches: &[Breach], had: &[Breach], kind: Kind) -> bool
    ensures some { IsTrue result → (breach : BreachValue) × Contains breaches.now breach × (breach.kind ≡ kind) × ¬ (Contains had.now breach) }
    ensures none { (breach : BreachValue) → Contains breaches.now breach → breach.kind ≡ kind → ¬ (Contains had.now breach) → IsTrue result }
{
    for breach in breaches {
        if breach.kind == kind && !has(had, breach) {
            return true;
        }
    }
    false
}

/// Adds what is found if driving goes on to before a minute, by the plan that judges this kind.
pub(crate) fn foresee(
    scan: &Scan,
    start: u32,
    past: u32,
    kind: Kind,
    found: &mut Found,
) -> Result<(), AllocError>
    requires at { IsAt scan.now start }
    requires forward { start ≤ past }
    requires within { past + 51061 ≤ latest }
    ensures found { OnOk result ((held : List SpanValue) (base : ℕ) → IsReady scan.now found.old held base start
        → AreReported (plan_for kind held start past) base found.new.breaches.items) }
    ensures appends { Appends is_any true found.old found.new }
{
    match kind {
        Kind::B3 => drive_and_sleep(scan, start, past, found)?,
        _ => drive_and_rest(scan, start, past, found)?,
    }
    Ok(())
}

/// Removes what was added after the first breaches and debts.
pub(crate) fn forget(found: &mut Found, breaches: usize, debts: usize)
    ensures breaches { found.new.breaches.items ≡ take breaches found.old.breaches.items }
    ensures debts { found.new.debts.items ≡ take debts found.old.debts.items }
{
    found.breaches.truncate(breaches);
    found.debts.truncate(debts);
}

/// True if driving to before a minute breaks a rule. `found` is afterwards as it was.
pub(crate) fn is_broken(
    scan: &Scan,
    start: u32,
    past: u32,
    kind: Kind,
    had: &[Breach],
    found: &mut Found,
) -> Result<bool, AllocError>
    requires at { IsAt scan.now start }
    requires forward { start ≤ past }
    requires within { past + 51061 ≤ latest }
    ensures same { OnOk result (HasSame found.old found.new) }
    ensures broken { IfOk result (λ broken. (held : List SpanValue) (base : ℕ)
        → IsKnown scan.now found.old had.now held base start → (IsTrue broken ↔ Breaks held base start kind past)) }
{
    let breaches = found.breaches.as_slice().len();
    let debts = found.debts.len();
    foresee(scan, start, past, kind, found)?;
    let broken = has_new(&found.breaches[breaches..], had, kind);
    forget(found, breaches, debts);
    Ok(broken)
}

/// Returns the breaches that are reported if no minute is driven. `found` is afterwards as it was.
pub(crate) fn at_rest(
    alloc: Global,
    scan: &Scan,
    start: u32,
    found: &mut Found,
) -> Result<Vec<Breach>, AllocError>
    requires at { IsAt scan.now start }
    requires within { start + 50400 ≤ latest }
    ensures same { OnOk result (HasSame found.old found.new) }
    ensures known { IfOk result (λ had. (held : List SpanValue) (base : ℕ) → IsReady scan.now found.old held base start
        → IsKnown scan.now found.old had.items held base start) }
{
    let breaches = found.breaches.len();
    let debts = found.debts.len();
    drive_and_rest(scan, start, start, found)?;
    let had = Vec::from_slice(alloc, &found.breaches)?;
    forget(found, breaches, debts);
    Ok(had)
}
