//! Laws about weekly rests. A law is a function without a body: its `ensures` clause is proved, and holds for all values that it names.

ghost use Rattle.std.specs.Prelude.{ℕ, List};
ghost use Rattle.tacho_time.specs.declared.span.Span.{Span as Stretch};
ghost use Rattle.tacho_law.specs.Line.{line_of, IsExamined};
ghost use Rattle.tacho_choice.specs.Weeks.{IsInWeeks};

/// The law on choices of a week for each weekly rest (`choices_reach`) holds for every examined line, since each of its weekly rests has a
/// minute in some week.
pub fn examined_line_is_in_weeks()
    ensures { (spans : List Stretch) (base horizon : ℕ) → IsExamined spans base horizon → IsInWeeks (line_of spans) }
{}
