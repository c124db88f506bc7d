ghost use Rattle.std.specs.Prelude.{◌≡◌, ◌<◌, ◌≤◌, ◌++◌, ◌∷◌, [], ℕ, List, None, map, IfOk, OnOk, IsTrue};
ghost use Rattle.tacho_time.specs.declared.span.Span.{Span as SpanValue};
ghost use Rattle.tacho_law.specs.Line.{IsBase};
ghost use Rattle.tacho_stretches.specs.declared.found.FoundStretches.{FoundStretches as FoundValue};
ghost use Rattle.tacho_law.specs.Limits.{latest};
ghost use Rattle.tacho_stretches.specs.Start.{IsNextStart};
ghost use Rattle.tacho_stretches.specs.Stretches.{AreStretches, judged_of};
ghost use Rattle.tacho_stretches.specs.Pass.{monday_of, EndsBy, IsNext, IsReportOf, IsExaminedOf, IsStageOf, AreDone, CanTake, HasNothing, IsPassOf, examining, passing};

use crate::examination::{Examination, Examined};
use crate::found::FoundStretches;
use crate::start::start_in;
use crate::stretch::{Stretch, horizon_of, unseen_after};
use std::alloc::{AllocError, Global};
use tacho_law::limits::LATEST;
use tacho_line::Cause;
use tacho_pass::{Found, Plain};
use tacho_time::{Minute, Span};

/// Finds the stretches of spans that come one at a time, in order. A pass owns no memory. What it finds, stretches with their breaches and
/// debts, is added to a `FoundStretches`, which is empty at first and is passed to every call. Minutes are in UTC.
#[derive(Clone, Copy)]
pub struct StretchPass {
    examination: Examination,
    /// Where the last span ended.
    past: Minute,
}

impl Plain for StretchPass {}

impl StretchPass {
    /// Makes a pass over no spans, from a base, the first minute of a Monday.
    pub fn new(base: Minute) -> StretchPass
        requires monday { IsBase base }
        requires in_range { base ≤ latest }
        ensures none { (found : FoundValue) → HasNothing found → IsPassOf result found base [] }
        ensures next { (s : SpanValue) → s.start < s.past → s.past ≤ latest → CanTake result s }
    {
        StretchPass {
            examination: Examination::new(base),
            past: Minute::new(0),
        }
    }

    /// True if a span can be taken next: it isn't empty, ends by the end of 2099, and starts no earlier than the last span ended.
    pub fn can_take(&self, span: &Span) -> bool
        ensures takes { IsTrue result → CanTake self.now span.now }
        ensures all { CanTake self.now span.now → IsTrue result }
    {
        self.past <= span.start && span.start < span.past && span.past.number() <= LATEST
    }

    /// Takes the next span. Fails only if memory runs out, and can't be used after that.
    pub fn feed(&mut self, span: Span, found: &mut FoundStretches) -> Result<(), AllocError>
        requires next { CanTake self.old span }
        ensures fed { OnOk result ((base : ℕ) (spans : List SpanValue) → IsPassOf self.old found.old base spans
            → IsPassOf self.new found.new base (spans ++ span ∷ [])) }
        ensures next { OnOk result ((s : SpanValue) → span.past ≤ s.start → s.start < s.past → s.past ≤ latest
            → CanTake self.new s) }
    {
        self.past = span.past;
        let examined = found.examined.take();
        match examine(
            found.alloc,
            &mut self.examination,
            &mut found.found,
            examined,
            &span,
        )? {
            Some(examined) => self.seek(examined, &span, found),
            None => Ok(()),
        }
    }

    /// Looks for the next Monday, after a horizon, in a span. If the span has it, an examination begins there, with the rest of the span.
    fn seek(
        &mut self,
        examined: Examined,
        span: &Span,
        found: &mut FoundStretches,
    ) -> Result<(), AllocError>
        requires within { span.now.past ≤ latest }
        requires past { self.old.past ≡ span.now.past }
        requires none { found.old.examined ≡ None }
        ensures past { self.new.past ≡ span.now.past }
        ensures fed { OnOk result ((base past : ℕ) (spans : List SpanValue) → IsNext spans past span.now
            → AreDone spans past base (map judged_of found.old.done.items) examined.monday
            → IsExaminedOf examined (spans ++ span.now ∷ []) spans span.now.past
            → IsPassOf self.new found.new base (spans ++ span.now ∷ [])) }
    {
        let Some(start) = start_in(span, horizon_of(&examined.report)) else {
            found.examined = Some(examined);
            return Ok(());
        };
        found.done.push(Stretch {
            monday: examined.monday,
            report: examined.report,
            unseen: Some(start),
        })?;
        self.examination = Examination::new(start);
        found.found = Found::empty(found.alloc);
        self.examination.go_on(span, &mut found.found)?;
        Ok(())
    }

    /// Returns the stretches of all spans that were taken. Fails only if memory runs out.
    pub fn finish(self, found: FoundStretches) -> Result<Vec<Stretch>, AllocError>
        ensures stretches { IfOk result (λ stretches. (base : ℕ) (spans : List SpanValue) → IsPassOf self found base spans
            → AreStretches spans base (map judged_of stretches.items)) }
    {
        let mut last = found.found;
        let examined = end(found.alloc, self.examination, &mut last, found.examined)?;
        let unseen = unseen_after(self.past, horizon_of(&examined.report), &None);
        let mut stretches = found.done;
        stretches.push(Stretch {
            monday: examined.monday,
            report: examined.report,
            unseen,
        })?;
        Ok(stretches)
    }
}

/// Examines the next span, at most up to a horizon. After a horizon it does nothing.
fn examine(
    alloc: Global,
    examination: &mut Examination,
    found: &mut Found,
    examined: Option<Examined>,
    span: &Span,
) -> Result<Option<Examined>, AllocError>
    requires within { span.now.past ≤ latest }
    ensures monday { IfOk result (λ next. monday_of (examining examination.new found.new) next
        ≡ monday_of (examining examination.old found.old) examined) }
    ensures taken { IfOk result (λ next. (past : ℕ) (spans : List SpanValue) → IsNext spans past span.now
        → IsStageOf (examining examination.old found.old) examined spans spans past
        → IsStageOf (examining examination.new found.new) next (spans ++ span.now ∷ []) spans span.now.past) }
{
    match examined {
        Some(examined) => Ok(Some(examined)),
        None => examine_span(alloc, examination, found, span),
    }
}

/// Ends the examination when no more spans come; this minute is its horizon.
fn end(
    alloc: Global,
    examination: Examination,
    found: &mut Found,
    examined: Option<Examined>,
) -> Result<Examined, AllocError>
    ensures monday { IfOk result (λ last. last.monday ≡ monday_of (examining examination found.old) examined) }
    ensures report { IfOk result (λ last. (past : ℕ) (spans : List SpanValue)
        → IsStageOf (examining examination found.old) examined spans spans past → EndsBy spans past → IsReportOf last spans) }
    ensures last { IfOk result (λ last. (past : ℕ) (spans : List SpanValue)
        → IsStageOf (examining examination found.old) examined spans spans past → EndsBy spans past
        → IsNextStart spans last.report.horizon.minute None) }
{
    match examined {
        Some(examined) => Ok(examined),
        None => examination.end(alloc, Cause::Unknown, found),
    }
}

/// Examines the whole next span. Examines none of it if the horizon is before the span, or the span is crew.
fn examine_span(
    alloc: Global,
    examination: &mut Examination,
    found: &mut Found,
    span: &Span,
) -> Result<Option<Examined>, AllocError>
    requires within { span.now.past ≤ latest }
    ensures monday { IfOk result (λ examined. monday_of (examining examination.new found.new) examined ≡ examination.old.monday) }
    ensures taken { IfOk result (λ examined. (past : ℕ) (spans : List SpanValue) → IsNext spans past span.now
        → IsStageOf (examining examination.old found.old) None spans spans past
        → IsStageOf (examining examination.new found.new) examined (spans ++ span.now ∷ []) spans span.now.past) }
{
    if span.past <= examination.minute {
        return Ok(None);
    }
    if examination.minute < span.start {
        return Ok(Some(examination.end(alloc, Cause::Unknown, found)?));
    }
    if span.mark.crew {
        return Ok(Some(examination.end(alloc, Cause::Crew, found)?));
    }
    examination.go_on(span, found)?;
    Ok(None)
}
