//! Laws about choices of a week for each weekly rest. A law is a function without a body: its `ensures` clause is proved, and holds for all
//! values that it names.

ghost use Rattle.std.specs.Prelude.{◌≡◌, ℕ};
ghost use Rattle.tacho_law.specs.Line.{Line};
ghost use Rattle.tacho_choice.specs.declared.weekly_rests.WeeklyRests.{WeeklyRests};
ghost use Rattle.tacho_choice.specs.Laws.{ChoicesReach, ChoicesStart, ChoicesServe};
ghost use Rattle.tacho_choice.specs.Weeks.{IsInWeeks, IsWeekOf};

/// One week's step on the ten outcomes is exact (Article 8(9)). The outcomes that choices leave of a week, if they are valid for all weeks
/// so far, are those to which a step leads from the outcomes of the week before. In the first week they are the outcomes of any choice.
/// Some choice is valid up to a week iff one of the ten outcomes is left of it.
pub fn choices_reach()
    ensures step { ChoicesReach }
    ensures start { ChoicesStart }
    ensures serve { ChoicesServe }
{}

/// Each week of a line has exactly one description of its weekly rests.
pub fn each_week_has_its_rests()
    ensures some { (line : Line) (week : ℕ) → IsInWeeks line → (rests : WeeklyRests) × IsWeekOf line week rests }
    ensures one { (line : Line) (week : ℕ) (rests other : WeeklyRests) → IsInWeeks line → IsWeekOf line week rests
        → IsWeekOf line week other → rests ≡ other }
{}
