ghost use Rattle.std.specs.Prelude.{◌≤◌};
ghost use Rattle.tacho_law.specs.Limits.{first_base, latest};
ghost use Rattle.tacho_rules.specs.Scan.{IsAt};

use std::alloc::{AllocError, Global};
use std::mem;
use tacho_line::{Cause, Horizon};
use tacho_pass::Found;
use tacho_rules::{Report, Scan};
use tacho_time::{Minute, Span};

/// An examination from a Monday, before it has reached its horizon. It owns no memory: its findings are added to a `Found`, which is empty at
/// first and is passed to every call.
#[derive(Clone, Copy)]
pub(crate) struct Examination {
    /// The first minute of the Monday.
    pub monday: Minute,
    /// The minute up to which it has examined.
    pub minute: Minute,
    scan: Scan,
    ghost at: { IsAt scan minute },
    ghost from: { first_base ≤ minute },
    ghost early: { minute ≤ latest },
}

/// An examination that has reached its horizon.
#[derive(Drop)]
pub(crate) struct Examined {
    /// The first minute of the Monday.
    pub monday: Minute,
    /// The report from there to the horizon.
    pub report: Report,
    ghost from: { first_base ≤ report.horizon.minute },
    ghost early: { report.horizon.minute ≤ latest },
}

impl Examination {
    ghost use Rattle.std.specs.Prelude.{◌≡◌, ◌≤◌, ◌<◌, ◌++◌, ◌∷◌, [], List, false, IfOk, OnOk};
    ghost use Rattle.tacho_time.specs.declared.span.Span.{Span as SpanValue};
    ghost use Rattle.tacho_line.specs.Line.{mark_at, IsCause};
    ghost use Rattle.tacho_law.specs.Line.{IsBase};
    ghost use Rattle.tacho_law.specs.Limits.{latest};
    ghost use Rattle.tacho_pass.specs.declared.found.Found.{Found as FoundValue};
    ghost use Rattle.tacho_stretches.specs.Pass.{EndsBy, IsExaminationOf, IsReportOf, examining};

    /// Makes an examination from a Monday that has examined no minute yet.
    pub(crate) fn new(monday: Minute) -> Examination
        requires monday { IsBase monday }
        requires in_range { monday ≤ latest }
        ensures monday { result.monday ≡ monday }
        ensures minute { result.minute ≡ monday }
        ensures none { (found : FoundValue) → found.breaches.items ≡ [] → found.debts.items ≡ [] → (spans : List SpanValue)
            → IsExaminationOf (examining result found) spans }
    {
        Examination {
            monday,
            minute: monday,
            scan: Scan::new(monday),
        }
    }

    /// Examines the rest of a span, from the examination's minute on. The span gives that minute, without a second driver.
    pub(crate) fn go_on(&mut self, span: &Span, found: &mut Found) -> Result<(), AllocError>
        requires rest { self.old.minute < span.now.past }
        requires within { span.now.past ≤ latest }
        ensures monday { self.new.monday ≡ self.old.monday }
        ensures minute { self.new.minute ≡ span.now.past }
        ensures taken { OnOk result ((spans : List SpanValue) → IsExaminationOf (examining self.old found.old) spans
            → EndsBy spans self.old.minute → span.now.start ≤ self.old.minute → span.now.mark.crew ≡ false
            → IsExaminationOf (examining self.new found.new) (spans ++ span.now ∷ [])) }
    {
        let rest = Span {
            start: self.minute,
            past: span.past,
            mark: span.mark,
        };
        self.minute = span.past;
        self.scan.feed(rest, found)?;
        Ok(())
    }

    /// Ends the examination at its minute, for this cause. Its findings are moved to the report, and nothing is left of them.
    pub(crate) fn end(
        self,
        alloc: Global,
        cause: Cause,
        found: &mut Found,
    ) -> Result<Examined, AllocError>
        ensures monday { IfOk result (λ examined. examined.monday ≡ self.monday) }
        ensures minute { IfOk result (λ examined. examined.report.horizon.minute ≡ self.minute) }
        ensures breaches { found.new.breaches.items ≡ [] }
        ensures debts { found.new.debts.items ≡ [] }
        ensures report { IfOk result (λ examined. (spans : List SpanValue) → IsExaminationOf (examining self found.old) spans
            → IsCause (mark_at spans self.minute) cause → IsReportOf examined spans) }
    {
        let horizon = Horizon {
            minute: self.minute,
            cause,
        };
        let found = mem::replace(found, Found::empty(alloc));
        let report = self.scan.finish(horizon, found)?;
        Ok(Examined {
            monday: self.monday,
            report,
        })
    }
}
