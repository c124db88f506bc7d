//! Laws about texts. A law is a function that does nothing: what it ensures is proved, and holds for everything that it names. Some call
//! the laws on which they depend.

ghost use Rattle.std.specs.Prelude.{◌≡◌, ◌+◌, ◌-◌, ◌*◌, ◌<◌, ◌≤◌, ◌↔◌, ◌++◌, ◌∷◌, ℕ, List, [], None, Ok, codes, false, length, map, sum, sum_by, true};
ghost use Rattle.tacho_time.specs.declared.span.Span.{Span as SpanValue};
ghost use Rattle.tacho_line.specs.declared.gap.Gap.{Gap};
ghost use Rattle.tacho_line.specs.declared.horizon.Horizon.{Horizon as HorizonValue};
ghost use Rattle.tacho_law.specs.declared.breach.Breach.{Breach as BreachValue};
ghost use Rattle.tacho_law.specs.declared.breach.Kind.{Kind as KindValue};
ghost use Rattle.tacho_law.specs.declared.debt.Debt.{Debt as DebtValue};
ghost use Rattle.tacho_line.specs.Line.{mark_at, AgreeWithin, AreGaps, HoldsWithin, InGaps, IsWithin};
ghost use Rattle.tacho_stretches.specs.Start.{IsEndOfHeld};
ghost use Rattle.tacho_stretches.specs.Stretches.{AreAll, AreStretches, Judged};
ghost use Rattle.tacho_rules.specs.Report.{IsReport};
ghost use Rattle.tacho_sheet.specs.Stretches.{block, debt_text, stretch_text};
ghost use Rattle.tacho_sheet.specs.Reports.{breach_text, breaches_within, columns, count_from, is_lacking, kind_name, column_minutes, owed_text, paid_text, AgreeIn, IsGapText, IsMonthSheet, IsSpanCsv};
ghost use Rattle.tacho_sheet.specs.Months.{article, count_of, is_examined, kind_code, kinds, month_breaches, AreIncidentRows, IsOverviewRow};
ghost use Rattle.tacho_sheet.specs.Chart.{AreDayGroups, AreUnseen, HasDayGroup, HasMarks, IsDayGroup, IsMonthChart, ShowsMinute};
ghost use Rattle.tacho_sheet.specs.Ahead.{IsAheadText, IsTooLate};
ghost use Rattle.tacho_sheet.specs.Forecast.{IsForecastRow, SameForecast};
ghost use Rattle.tacho_sheet.specs.Standing.{IsStandingRow};
ghost use Rattle.tacho_sheet.specs.Why.{IsMonthWhy};
ghost use Rattle.tacho_ahead.specs.Outlook.{is_open_debt};
ghost use Rattle.tacho_state.specs.Summaries.{Summary};
ghost use Rattle.tacho_time.specs.Spans.{Conflicts, IsCanonicalOf};
ghost use Rattle.tacho_sheet.specs.Form.{AreRows as AreFormRows, Fills, filled_form, IsForm};
ghost use Rattle.tacho_state.specs.Batch.{Hours, batch_of};
ghost use Rattle.tacho_state.specs.Least.{least_conflict};
ghost use Rattle.tacho_state.specs.State.{Driver, Held, entered_spans, held_spans};
ghost use Rattle.tacho_state.specs.Steps.{enter_own};
ghost use Rattle.tacho_sheet.specs.Entries.{IsRead};

use tacho_line::laws::one_list_of_gaps;
use tacho_rules::laws::one_report;
use tacho_stretches::laws::first_stretch_is_the_report;
use tacho_time::laws::{civil_dates, minute_is_read_back, one_canonical_list};

/// If two lines give each minute of a month the same mark, they have the same text of its gaps.
pub fn gap_text_is_by_marks()
    ensures { (a b : List SpanValue) (month : ℕ) (text : List ℕ)
        → AgreeIn month a b → IsGapText a month text → IsGapText b month text }
{}

/// If two lines give each minute of a month the same mark, they have the same spans of it as CSV.
pub fn span_csv_is_by_marks()
    ensures { (a b : List SpanValue) (month : ℕ) (text : List ℕ)
        → AgreeIn month a b → IsSpanCsv a month text → IsSpanCsv b month text }
{}

/// If two lines give each minute of a month the same mark, they have the same sheets of it.
pub fn month_sheet_is_by_marks()
    ensures { (number : ℕ) (name : List ℕ) (a b : List SpanValue) (breaches : List BreachValue) (horizon : HorizonValue)
        (month : ℕ) (text : List ℕ) → AgreeIn month a b → IsMonthSheet number name a breaches horizon month text
        → IsMonthSheet number name b breaches horizon month text }
{}

/// A line has exactly one text of a month's gaps, and exactly one CSV of its spans.
pub fn one_text_of_a_month()
    ensures gaps { (line : List SpanValue) (month : ℕ) (a b : List ℕ) → IsGapText line month a → IsGapText line month b → a ≡ b }
    ensures spans { (line : List SpanValue) (month : ℕ) (a b : List ℕ) → IsSpanCsv line month a → IsSpanCsv line month b → a ≡ b }
{
    one_list_of_gaps();
    one_canonical_list();
}

/// A line has exactly one sheet of a month, for a number, a name, breaches and a horizon.
pub fn one_sheet_of_a_month()
    ensures { (number : ℕ) (name : List ℕ) (line : List SpanValue) (breaches : List BreachValue) (horizon : HorizonValue) (month : ℕ) (a b : List ℕ)
        → IsMonthSheet number name line breaches horizon month a → IsMonthSheet number name line breaches horizon month b → a ≡ b }
{}

/// If two lines give each minute of a month the same mark, they have the same row of its overview.
pub fn overview_is_by_marks()
    ensures { (number : ℕ) (name : List ℕ) (a b : List SpanValue) (stretches : List Judged) (month : ℕ) (text : List ℕ)
        → AgreeIn month a b → IsOverviewRow number name a stretches month text → IsOverviewRow number name b stretches month text }
{}

/// A driver has exactly one row of the overview of a month, for a number, a name, a line and stretches.
pub fn one_overview_row()
    ensures { (number : ℕ) (name : List ℕ) (line : List SpanValue) (stretches : List Judged) (month : ℕ) (a b : List ℕ)
        → IsOverviewRow number name line stretches month a → IsOverviewRow number name line stretches month b → a ≡ b }
{}

/// A driver has exactly one list of the incidents of a month, for a number, a name and stretches.
pub fn one_list_of_incidents()
    ensures { (number : ℕ) (name : List ℕ) (stretches : List Judged) (month : ℕ) (a b : List ℕ)
        → AreIncidentRows number name stretches month a → AreIncidentRows number name stretches month b → a ≡ b }
{}

/// The six columns of some minutes add up to the number of minutes: each minute counts in one column.
pub fn columns_add_up()
    ensures { (line : List SpanValue) (start n : ℕ) → sum (map (column_minutes line start n) columns) ≡ n }
{}

/// If all minutes of a range count as examined, each of them is within a stretch.
pub fn a_month_is_examined_whole()
    ensures { (stretches : List Judged) (start n : ℕ) → count_from (is_examined stretches) start n ≡ n
        → (m : ℕ) → start ≤ m → m < start + n → is_examined stretches m ≡ true }
{}

/// A rule's name in a report is its code and its Article as they are in the incidents, separated by a blank.
pub fn kind_is_code_and_article()
    ensures { (kind : KindValue) → kind_name kind ≡ kind_code kind ++ (codes " " ++ article kind) }
{}

/// If two lines give each minute from a base to an end the same mark, they have the same form for gaps.
pub fn form_is_by_marks()
    ensures { (a b : List SpanValue) (base end : ℕ) (text : List ℕ)
        → AgreeWithin base end a b → IsForm a base end text → IsForm b base end text }
{}

/// A line has exactly one form for gaps from a base to an end.
pub fn one_form()
    ensures { (line : List SpanValue) (base end : ℕ) (a b : List ℕ) → IsForm line base end a → IsForm line base end b → a ≡ b }
{
    one_list_of_gaps();
}

/// The rows of a form have exactly the minutes of its gaps.
pub fn a_form_has_each_lacking_minute()
    ensures { (gaps rows : List Gap) → AreFormRows gaps rows → (m : ℕ) → InGaps gaps m ↔ InGaps rows m }
{}

/// A form whose rows are all filled in is read as the hours with which they are filled in.
pub fn a_filled_form_is_read()
    ensures { (line : List SpanValue) (base end : ℕ) (gaps rows : List Gap) (hours : List Hours)
        → AreGaps line base end gaps → AreFormRows gaps rows → IsEndOfHeld line base end
        → 15780960 ≤ base → end ≤ 68374080 → Fills rows hours → IsRead (filled_form hours) (Ok hours) }
{
    civil_dates();
    minute_is_read_back();
}

/// A driver has exactly one chart of a month, for a number, a name, a line and stretches.
pub fn one_chart_of_a_month()
    ensures { (number : ℕ) (name : List ℕ) (line : List SpanValue) (stretches : List Judged) (month : ℕ) (a b : List ℕ)
        → IsMonthChart number name line stretches month a → IsMonthChart number name line stretches month b → a ≡ b }
{
    one_list_of_gaps();
    one_canonical_list();
}

/// If two lines give each minute of a month the same mark, they have the same charts of it.
pub fn month_chart_is_by_marks()
    ensures { (number : ℕ) (name : List ℕ) (a b : List SpanValue) (stretches : List Judged) (month : ℕ) (text : List ℕ)
        → AgreeIn month a b → IsMonthChart number name a stretches month text → IsMonthChart number name b stretches month text }
{}

/// A chart has a group for each day of the month. Over each minute of the day there is exactly one bar of its mark if the minute is held, and
/// none if it isn't; and there is a shade exactly if the minute isn't within a stretch. Its marks are those of exactly the month's breaches whose
/// moment is in the day, each at its moment.
pub fn a_chart_shows_each_minute()
    ensures days { (line : List SpanValue) (stretches : List Judged) (day y n : ℕ) (text : List ℕ) → AreDayGroups line stretches day y n text
        → (k : ℕ) → k < n → HasDayGroup line stretches day y k text }
    ensures bars { (line spans : List SpanValue) (day : ℕ) → IsCanonicalOf (HoldsWithin line (1440 * day) (1440 * (day + 1))) spans
        → (m : ℕ) → IsWithin (1440 * day) (1440 * (day + 1)) m → ShowsMinute spans m (mark_at line m) }
    ensures shades { (stretches : List Judged) (gaps : List Gap) (start past : ℕ) → AreUnseen stretches start past gaps
        → (m : ℕ) → IsWithin start past m → InGaps gaps m ↔ (is_examined stretches m ≡ false) }
    ensures marks { (line : List SpanValue) (stretches : List Judged) (start past day y : ℕ) (text : List ℕ)
        → start ≤ 1440 * day → 1440 * (day + 1) ≤ past → IsDayGroup line stretches day y text
        → HasMarks day y (breaches_within (1440 * day) (1440 * (day + 1)) (month_breaches start past stretches)) text }
{}

/// What is held has exactly one text of the evidence for a month's breaches, for its stretches.
pub fn one_why_of_a_month()
    ensures { (held : List SpanValue) (end month : ℕ) (stretches : List Judged) (a b : List ℕ) → AreAll held end stretches
        → IsMonthWhy held stretches month a → IsMonthWhy held stretches month b → a ≡ b }
{}

/// A driver's forecast has one text. There is none if it would go past 2099.
pub fn one_ahead_text()
    ensures one { (held : List SpanValue) (stretches : List Judged) (minute : ℕ) (a b : List ℕ) → IsAheadText held stretches minute a
        → IsAheadText held stretches minute b → a ≡ b }
    ensures in_time { (held : List SpanValue) (stretches : List Judged) (minute : ℕ) (text : List ℕ)
        → IsAheadText held stretches minute text → ¬ (IsTooLate stretches minute) }
{}

/// A driver has exactly one row of how they stand in a month, and exactly one row of the forecast from a minute on.
pub fn one_row_of_a_driver()
    ensures standing { (driver : Summary) (line : List SpanValue) (base : ℕ) (stretches : List Judged) (month : ℕ) (a b : List ℕ)
        → IsStandingRow driver line base stretches month a → IsStandingRow driver line base stretches month b → a ≡ b }
    ensures forecast { (driver : Summary) (held : List SpanValue) (base : ℕ) (stretches : List Judged) (minute : ℕ) (a b : List ℕ)
        → IsForecastRow driver held base stretches minute a → IsForecastRow driver held base stretches minute b → a ≡ b }
{
    one_list_of_gaps();
}

/// The numbers of breaches of each rule add up to the number of breaches. So an overview counts as many as a row of how a driver stands.
pub fn counts_of_rules_add_up()
    ensures { (breaches : List BreachValue) → sum (map (count_of breaches) kinds) ≡ length breaches }
{}

/// Gaps have as many minutes as aren't held in their range. So those that a row of how a driver stands calls unknown are those of the form.
pub fn gaps_add_up()
    ensures { (line : List SpanValue) (base end : ℕ) (gaps : List Gap) → base ≤ end → AreGaps line base end gaps
        → sum_by (λ (g : Gap). g.past - g.start) gaps ≡ column_minutes line base (end - base) is_lacking }
{}

/// A debt counts as open at a horizon exactly if the text of debts calls it open there.
pub fn open_debts_are_called_open()
    ensures { (horizon : ℕ) (debt : DebtValue)
        → (paid_text horizon debt.deadline debt.paid_by ≡ codes "open") ↔ (is_open_debt horizon debt ≡ true) }
{}

/// A driver's row of the forecast has the start, the limits and what is used from the driver's own forecast. If something is held after the
/// last stretch, its cells are empty.
pub fn rows_have_the_forecast_of_ahead()
    ensures { (driver : Summary) (held : List SpanValue) (base : ℕ) (stretches : List Judged) (minute : ℕ) (row text : List ℕ)
        → IsForecastRow driver held base stretches minute row → IsAheadText held stretches minute text
        → (front : List Judged) × (last : Judged) × (stretches ≡ front ++ last ∷ []) × SameForecast last.unseen row text }
{}

/// Once the hours that fill in each row of a form are entered, no gap remains.
pub fn a_filled_form_leaves_no_gap()
    ensures { (d after : Driver) (base end first : ℕ) (gaps rows : List Gap) (hours : List Hours)
        → AreGaps (held_spans d) base end gaps → AreFormRows gaps rows → Fills rows hours
        → enter_own (batch_of hours) d ≡ Ok (first, after) → AreGaps (held_spans after) base end [] }
{}

/// The hours that fill in the rows of a form contradict nothing that the driver holds, if no minute has two marks there. So entering them isn't
/// refused with S6.
pub fn a_filled_form_contradicts_nothing()
    ensures { (d : Driver) (base end : ℕ) (gaps rows : List Gap) (hours : List Hours) → ((m : ℕ) → ¬ (Conflicts (Held d) m))
        → AreGaps (held_spans d) base end gaps → AreFormRows gaps rows → Fills rows hours
        → least_conflict (held_spans d ++ entered_spans (batch_of hours)) ≡ None }
{}

/// The first block of the text of stretches is the Monday of the base, the text of the report's breaches, and what isn't examined after it.
/// Likewise the first block of the text of debts, with the report's debts.
pub fn the_first_block_is_the_report()
    ensures breaches { (line : List SpanValue) (base : ℕ) (horizon : HorizonValue) (breaches : List BreachValue) (debts : List DebtValue)
        (s : Judged) (stretches : List Judged) → IsReport line base horizon breaches debts → AreStretches line base (s ∷ stretches)
        → (s.monday ≡ base) × (stretch_text (s ∷ stretches) ≡ block (breach_text breaches horizon) s ++ stretch_text stretches) }
    ensures debts { (line : List SpanValue) (base : ℕ) (horizon : HorizonValue) (breaches : List BreachValue) (debts : List DebtValue)
        (s : Judged) (stretches : List Judged) → IsReport line base horizon breaches debts → AreStretches line base (s ∷ stretches)
        → debt_text (s ∷ stretches) ≡ block (owed_text debts horizon) s ++ debt_text stretches }
{
    one_report();
    first_stretch_is_the_report();
}
