//! Laws about time and spans. A law is a function without a body: its `ensures` clause is proved, and holds for all values that it names.

ghost use Rattle.std.specs.Prelude.{◌≡◌, ◌⊎◌, ℕ, ◌+◌, ◌%◌, ◌<◌, ◌≤◌, ◌↔◌, pos, List, Ok};
ghost use Rattle.jiff_core.specs.Date.{epoch_day, weekday_of};
ghost use Rattle.jiff_core.specs.Weekday.{monday_zero};
ghost use Rattle.jiff_core.specs.declared.civil.date.Date.{Date};
ghost use Rattle.jiff_core.specs.declared.civil.weekday.Weekday.{Weekday};
ghost use Rattle.tacho_time.specs.declared.span.Span.{Span};
ghost use Rattle.tacho_time.specs.Calendar.{civil, HasNumber};
ghost use Rattle.tacho_time.specs.Reading.{day_at, minute_at, month_at};
ghost use Rattle.tacho_time.specs.Spans.{Gives, IsCanonical, IsCanonicalOf, GiveSame, IsFirstConflict};
ghost use Rattle.tacho_time.specs.Text.{day_text, minute_text, month_text};
ghost use Rattle.tacho_time.specs.Limits.{first_day, greatest_day, last_day};

/// The date that is written for a day is the calendar's date with that number.
pub fn civil_dates()
    ensures { (n : ℕ) → n ≤ greatest_day → HasNumber (civil n) n }
{}

/// The weekday that `weekday` gives for a day is that of the calendar's date with this number.
pub fn weekday_of_dates()
    ensures { (date : Date) (n : ℕ) (given : Weekday) → epoch_day date ≡ pos n → monday_zero given ≡ (n + 3) % 7
        → monday_zero given ≡ weekday_of date }
{}

/// A day is read from its written form, and from no other text.
pub fn day_is_read_back()
    ensures { (text : List ℕ) (n : ℕ) → (day_at text ≡ Ok n) ↔ ((first_day ≤ n) × (n ≤ last_day) × (text ≡ day_text n)) }
{}

/// A minute of these days is read from its written form, and from no other text.
pub fn minute_is_read_back()
    ensures { (text : List ℕ) (n : ℕ) → (minute_at text ≡ Ok n) ↔ ((15780960 ≤ n) × (n ≤ 68374079) × (text ≡ minute_text n)) }
{}

/// A month of the years 2000 to 2099 is read from its written form, and from no other text.
pub fn month_is_read_back()
    ensures { (text : List ℕ) (n : ℕ) → (month_at text ≡ Ok n) ↔ ((24000 ≤ n) × (n < 25200) × (text ≡ month_text n)) }
{}

/// Canonical lists that give the same are equal. So a set of pairs has at most one canonical list.
pub fn one_canonical_list()
    ensures { (xs ys : List Span) → IsCanonical xs → IsCanonical ys → GiveSame xs ys → xs ≡ ys }
{}

/// What spans give has a canonical list, or a least minute with two marks.
pub fn list_or_conflict()
    ensures { (spans : List Span) → ((runs : List Span) × IsCanonicalOf (Gives spans) runs) ⊎ ((m : ℕ) × IsFirstConflict (Gives spans) m) }
{}
