ghost use Rattle.std.specs.Prelude.{◌≡◌, ◌↔◌, AllPairs, Contains};
ghost use Rattle.tacho_law.specs.declared.breach.Breach.{Breach as BreachValue};
ghost use Rattle.tacho_law.specs.Order.{Earlier, place_of_kind};
ghost use Rattle.tacho_law.specs.Order.{HaveOwnPlaces};

use crate::breach::{Breach, Kind};

/// Returns the place of a kind in the order of kinds, counted from 1.
fn place_of(kind: Kind) -> u8
    ensures { result ≡ place_of_kind kind }
{
    match kind {
        Kind::B1 => 1,
        Kind::B2 => 2,
        Kind::B3 => 3,
        Kind::B4 => 4,
        Kind::B5 => 5,
        Kind::B6 => 6,
        Kind::B7 => 7,
        Kind::B8 => 8,
        Kind::B9 => 9,
        Kind::B10 => 10,
    }
}

/// Puts breaches in order: by moment, then by kind, then by the first minute of the range that is judged. If no two of them have the same
/// place, each is before those after it.
pub fn put_in_order(found: &mut Vec<Breach>)
    ensures same { (breach : BreachValue) → Contains found.new.items breach ↔ Contains found.old.items breach }
    ensures order { HaveOwnPlaces found.old.items → AllPairs Earlier found.new.items }
{
    found.sort_unstable_by_key(|breach| {
        (
            breach.moment.number(),
            place_of(breach.kind),
            breach.since.number(),
        )
    });
}
