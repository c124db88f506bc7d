ghost use Rattle.std.specs.Prelude.{◌≡◌, ◌⊎◌, ◌++◌, ◌∷◌, [], ◌<◌, ◌≤◌, ℕ, List, Contains, map, true, IsErr, IfOk, OnOk, OnErr};
ghost use Rattle.tacho_time.specs.declared.span.Span.{Span as SpanValue};
ghost use Rattle.tacho_law.specs.declared.breach.Breach.{Breach as BreachValue};
ghost use Rattle.tacho_law.specs.declared.debt.Debt.{Debt as DebtValue};
ghost use Rattle.tacho_law.specs.Line.{line_of, Joined, IsBase, IsExamined};
ghost use Rattle.tacho_law.specs.Limits.{latest};
ghost use Rattle.tacho_line.specs.Walk.{cut_to};
ghost use Rattle.tacho_pass.specs.declared.found.Found.{Found as FoundValue};
ghost use Rattle.tacho_pass.specs.Found.{Appends};
ghost use Rattle.tacho_pass.specs.Kinds.{is_any};
ghost use Rattle.tacho_rules.specs.Scan.{AreFindings, AreGathered, IsAt, CanTake, HasFailed, IsScanOf};

use crate::report::Report;
use crate::rules::Rules;
use std::alloc::AllocError;
use tacho_law::put_in_order;
use tacho_line::{Horizon, cut};
use tacho_pass::{Found, Hearing, Pass, Plain};
use tacho_time::{Minute, Span};

/// All rules on driving and rest hours (Articles 6, 7 and 8 of Regulation (EC) No 561/2006), over spans that come one at a time. A scan is
/// plain numbers and owns no memory. Its findings are added to a `Found`, which is empty at first and is passed to every call. Minutes are
/// in UTC.
#[derive(Clone, Copy)]
pub struct Scan {
    hearing: Hearing<Rules>,
}

impl Plain for Scan {}

impl Scan {
    /// Makes a scan over no spans, from a base, the first minute of a Monday.
    pub fn new(base: Minute) -> Scan
        requires monday { IsBase base }
        requires in_range { base ≤ latest }
        ensures at { IsAt result base }
        ensures none { (found : FoundValue) → found.breaches.items ≡ [] → found.debts.items ≡ []
            → IsScanOf result found base [] }
    {
        Scan {
            hearing: Hearing::new(base),
        }
    }

    /// Feeds the next span, which starts where the last one ended. If memory runs out, all later calls fail too.
    pub fn feed(&mut self, span: Span, found: &mut Found) -> Result<(), AllocError>
        requires next { IsAt self.old span.start }
        requires nonempty { span.start < span.past }
        requires within { span.past ≤ latest }
        ensures at { IsAt self.new span.past }
        ensures fed { OnOk result ((base : ℕ) (spans : List SpanValue) → IsScanOf self.old found.old base spans
            → IsScanOf self.new found.new base (spans ++ span ∷ [])) }
        ensures appends { Appends is_any true found.old found.new }
        ensures err { OnErr result (HasFailed self.new) }
        ensures stays { HasFailed self.old → IsErr result }
    {
        self.hearing.feed(span, found)
    }

    /// Feeds the parts of spans from a start to before a past, in order. Each part starts where the one before it ended.
    pub fn feed_within(
        &mut self,
        spans: &[Span],
        start: Minute,
        past: Minute,
        found: &mut Found,
    ) -> Result<(), AllocError>
        requires { CanTake self.old (map (cut_to start past) spans.now) }
        ensures at { OnOk result ((place end : ℕ) → IsAt self.old place
            → Joined (map (cut_to start past) spans.now) place end → IsAt self.new end) }
        ensures fed { OnOk result ((base : ℕ) (before : List SpanValue) → IsScanOf self.old found.old base before
            → IsScanOf self.new found.new base (before ++ map (cut_to start past) spans.now)) }
        ensures appends { Appends is_any true found.old found.new }
        ensures err { OnErr result (HasFailed self.new) }
        ensures stays { HasFailed self.old → (spans.now ≡ []) ⊎ IsErr result }
    {
        for span in spans {
            self.feed(cut(span, start, past), found)?;
        }
        Ok(())
    }

    /// Ends the line at its horizon, and adds what is found there: then `found` has every breach once, in no order, and every debt.
    pub fn end(self, horizon: Minute, found: &mut Found) -> Result<(), AllocError>
        requires { IsAt self horizon }
        ensures gathered { OnOk result ((base : ℕ) (spans : List SpanValue) → IsScanOf self found.old base spans
            → IsExamined spans base horizon
            → AreGathered (line_of spans) base horizon found.new.breaches.items found.new.debts.items) }
        ensures appends { Appends is_any true found.old found.new }
        ensures stays { HasFailed self → IsErr result }
    {
        let mut hearing = self.hearing;
        hearing.finish(horizon, found)?;
        Ok(())
    }

    /// Returns the report at the horizon, which is where the last span ended (the base if there was none): every breach once and in order,
    /// and every debt. It includes all that was found before.
    pub fn finish(self, horizon: Horizon, found: Found) -> Result<Report, AllocError>
        requires { IsAt self horizon.minute }
        ensures horizon { IfOk result (λ report. report.horizon ≡ horizon) }
        ensures report { IfOk result (λ report. (base : ℕ) (spans : List SpanValue) → IsScanOf self found base spans
            → IsExamined spans base horizon.minute
            → AreFindings (line_of spans) base horizon.minute report.breaches.items report.debts.items) }
        ensures told { IfOk result (λ report. (breach : BreachValue) → Contains found.breaches.items breach
            → Contains report.breaches.items breach) }
        ensures owed { IfOk result (λ report. (debt : DebtValue) → Contains found.debts.items debt
            → Contains report.debts.items debt) }
        ensures stays { HasFailed self → IsErr result }
    {
        let mut found = found;
        self.end(horizon.minute, &mut found)?;
        let mut breaches = found.breaches;
        put_in_order(&mut breaches);
        Ok(Report {
            horizon,
            breaches,
            debts: found.debts,
        })
    }
}
