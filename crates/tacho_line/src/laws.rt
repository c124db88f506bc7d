//! Laws about timelines. A law is a function without a body: its `ensures` clause is proved, and holds for all values that it names.

ghost use Rattle.std.specs.Prelude.{◌≡◌, ◌++◌, ℕ, ◌↔◌, List};
ghost use Rattle.tacho_time.specs.Spans.{Gives, IsCanonical, IsCanonicalOf, IsFirstConflict};
ghost use Rattle.tacho_time.specs.declared.span.Mark.{Mark};
ghost use Rattle.tacho_time.specs.declared.span.Span.{Span};
ghost use Rattle.tacho_line.specs.declared.gap.Gap.{Gap as GapValue};
ghost use Rattle.tacho_line.specs.Line.{Holds, AreGaps, AreGains, HoldsWithin, Together};
ghost use Rattle.tacho_line.specs.Local.{AreWithin};

/// A line gives each minute at most one mark, and this is the mark that its spans give.
pub fn line_is_a_map()
    ensures { (line : List Span) (m : ℕ) (mark : Mark) → IsCanonical line → Holds line m mark ↔ Gives line m mark }
{}

/// A range of a line has one list of gaps.
pub fn one_list_of_gaps()
    ensures { (line : List Span) (start past : ℕ) (gaps others : List GapValue) → AreGaps line start past gaps → AreGaps line start past others → gaps ≡ others }
{}

/// The spans near the new ones are enough: the gains of spans, and their first contradiction, are the same against a line and against what
/// the line holds in any range that contains the spans. Removing a list from between others changes no minute that the list doesn't give.
pub fn local()
    ensures gains { (line near spans gains : List Span) (start past : ℕ) → IsCanonicalOf (HoldsWithin line start past) near → AreWithin start past spans
        → AreGains near spans gains ↔ AreGains line spans gains }
    ensures contradiction { (line near spans : List Span) (start past m : ℕ) → IsCanonicalOf (HoldsWithin line start past) near → AreWithin start past spans
        → IsFirstConflict (Together near spans) m ↔ IsFirstConflict (Together line spans) m }
    ensures outside { (before list after : List Span) (m : ℕ) (mark : Mark) → ¬ (Gives list m mark)
        → Gives (before ++ (list ++ after)) m mark ↔ Gives (before ++ after) m mark }
{}
