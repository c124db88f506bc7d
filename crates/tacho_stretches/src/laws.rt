//! Laws about stretches. A law is a function without a body: what it ensures is proved for all values of its variables.

ghost use Rattle.std.specs.Prelude.{◌≡◌, ◌<◌, ◌≤◌, ℕ, List, ◌∷◌, ◌++◌, All};
ghost use Rattle.tacho_time.specs.declared.span.Span.{Span};
ghost use Rattle.tacho_line.specs.Line.{IsWithin, mark_at};
ghost use Rattle.tacho_law.specs.Limits.{latest};
ghost use Rattle.tacho_law.specs.Line.{IsBase};
ghost use Rattle.tacho_rules.specs.Report.{IsReport};
ghost use Rattle.tacho_stretches.specs.Start.{IsEndOfHeld};
ghost use Rattle.tacho_stretches.specs.Stretches.{Judged, AreStretches};
ghost use Rattle.tacho_stretches.specs.Near.{GoesOnLike};
ghost use Rattle.tacho_stretches.specs.Ranges.{parts, FollowOn, times_in};

/// A line has one list of stretches from a base.
pub fn one_list_of_stretches()
    ensures { (line : List Span) (base : ℕ) (stretches others : List Judged)
        → AreStretches line base stretches → AreStretches line base others → stretches ≡ others }
{}

/// A line has a list of stretches from each base.
pub fn each_line_has_stretches()
    ensures { (line : List Span) (base : ℕ) → All (λ span. span.past ≤ latest) line → IsBase base → base ≤ latest
        → (stretches : List Judged) × AreStretches line base stretches }
{}

/// The first stretch is the report from the base.
pub fn first_stretch_is_the_report()
    ensures { (line : List Span) (base : ℕ) (s : Judged) (stretches : List Judged)
        → AreStretches line base (s ∷ stretches)
        → (s.monday ≡ base) × IsReport line base s.horizon s.breaches s.debts }
{}

/// The ranges that are examined and those that aren't follow one another from the base to the end of what is held: no minute is left out,
/// and none is in two ranges.
pub fn no_minute_is_left_out()
    ensures { (line : List Span) (base end : ℕ) (stretches : List Judged) → AreStretches line base stretches
        → IsEndOfHeld line base end → FollowOn (parts stretches) base end }
{}

/// Each minute from the base to the end of what is held is in exactly one range, and no other minute is in any.
pub fn each_minute_is_in_one_part()
    ensures within { (line : List Span) (base end m : ℕ) (stretches : List Judged) → AreStretches line base stretches
        → IsEndOfHeld line base end → IsWithin base end m → times_in (parts stretches) m ≡ 1 }
    ensures before { (line : List Span) (base end m : ℕ) (stretches : List Judged) → AreStretches line base stretches
        → IsEndOfHeld line base end → m < base → times_in (parts stretches) m ≡ 0 }
    ensures after { (line : List Span) (base end m : ℕ) (stretches : List Judged) → AreStretches line base stretches
        → IsEndOfHeld line base end → end ≤ m → times_in (parts stretches) m ≡ 0 }
{}

/// If two lines agree from the base up to and including the horizon of a stretch, they have the same stretches up to it, and the same
/// report in it: what is held later doesn't change them.
pub fn later_rows_change_no_stretch()
    ensures { (line other : List Span) (base : ℕ) (front rest others : List Judged) (s : Judged)
        → AreStretches line base (front ++ s ∷ rest) → AreStretches other base others
        → ((m : ℕ) → base ≤ m → m ≤ s.horizon.minute → mark_at line m ≡ mark_at other m)
        → GoesOnLike front s others }
{}

/// Lines that agree from the base on have the same stretches. Minutes before the base don't matter, nor does how minutes are divided into
/// spans.
pub fn stretches_by_marks()
    ensures { (line other : List Span) (base : ℕ) (stretches : List Judged) → AreStretches line base stretches
        → ((m : ℕ) → base ≤ m → mark_at line m ≡ mark_at other m) → AreStretches other base stretches }
{}
