ghost use Rattle.std.specs.Prelude.{[], IfErr, IfOk};
ghost use Rattle.tacho_state.specs.Acts.{OnlyRead};
ghost use Rattle.tacho_state.specs.State.{State};
ghost use Rattle.tacho_carry.specs.Carrying.{AreCarried, HasGivenUp, IsAt, IsRead};

use crate::driver::carry_driver;
use std::alloc::Global;
use tacho_state::{Keeper, StoreFault};
use tacho_time::Day;

/// How many drivers were carried.
#[derive(Clone, Copy, Debug, PartialEq, Eq)]
pub struct Carried {
    /// The drivers of the new archive.
    pub carried: usize,
    /// The drivers of the old archive.
    pub all: usize,
}

/// Carries each driver whom it needs, from a day on, into a new archive without drivers. The old archive is only read. If this fails, what
/// the new archive has is of no use.
pub fn carry<K: Keeper, L: Keeper>(
    alloc: Global,
    old: &mut K,
    new: &mut L,
    from: Day,
) -> Result<Carried, StoreFault>
    ensures old { OnlyRead K.stands K.is_clean K.leaves K.is_same old.old old.new }
    ensures carried { K.is_clean old.new → L.is_clean new.new → (s : State) → K.stands old.old s → IsRead s
        → IsAt (L.stands new.old) (L.leaves new.old) [] → IfOk result (AreCarried from s (L.stands new.new) (L.leaves new.new)) }
    ensures failure { IfErr result HasGivenUp }
{
    match carry_each(alloc, old, new, from) {
        Ok(done) => Ok(done),
        Err(StoreFault::Memory) => Err(StoreFault::Memory),
        // No archive that commands have made is refused here.
        Err(_) => Err(StoreFault::Store),
    }
}

/// The same, with the fault as it is.
fn carry_each<K: Keeper, L: Keeper>(
    alloc: Global,
    old: &mut K,
    new: &mut L,
    from: Day,
) -> Result<Carried, StoreFault>
    ensures old { OnlyRead K.stands K.is_clean K.leaves K.is_same old.old old.new }
    ensures carried { K.is_clean old.new → L.is_clean new.new → (s : State) → K.stands old.old s → IsRead s
        → IsAt (L.stands new.old) (L.leaves new.old) [] → IfOk result (AreCarried from s (L.stands new.new) (L.leaves new.new)) }
{
    let drivers = old.drivers(alloc)?;
    let mut carried = 0;
    for driver in &drivers {
        if carry_driver(alloc, old, new, driver, from)? {
            carried += 1;
        }
    }
    Ok(Carried {
        carried,
        all: drivers.len(),
    })
}
