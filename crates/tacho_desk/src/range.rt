use std::marker::Model;

/// The numbers of the first and the last of some entries of a driver. The first isn't greater than the last.
#[derive(Clone, Copy)]
pub struct EntryRange {
    first: u32,
    last: u32,
}

impl Model for EntryRange {
    ghost use Rattle.std.specs.Prelude.{◌≤◌};
    ghost use Rattle.tacho_desk.specs.Range.{Numbers};

    ghost Value = { Numbers };

    ghost view = { λ range. record { first = range.first; last = range.last } };

    ghost invariant = { λ range. range.first ≤ range.last };

    ghost inverse = { λ n. record { first = n.first; last = n.last } };
}

impl EntryRange {
    ghost use Rattle.std.specs.Prelude.{◌≡◌, ◌<◌, ◌≤◌, MatchOption};
    ghost use Rattle.tacho_desk.specs.Range.{Numbers};

    /// Makes a range. None if the first number is greater than the last.
    pub fn new(first: u32, last: u32) -> Option<EntryRange>
        ensures { MatchOption result (last < first) (λ range. (range ≡ record { first = first; last = last }) × (first ≤ last)) }
    {
        if last < first {
            return None;
        }
        Some(EntryRange { first, last })
    }

    /// The number of the first entry.
    pub fn first(self) -> u32
        ensures { result ≡ self.first }
    {
        self.first
    }

    /// The number of the last entry.
    pub fn last(self) -> u32
        ensures value { result ≡ self.last }
        ensures order { self.first ≤ result }
    {
        self.last
    }
}
