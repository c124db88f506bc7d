//! Look-ups of drivers, in terms of the state.

ghost use Rattle.std.specs.Prelude.{◌≡◌, MatchResult, ok_or};
ghost use Rattle.tacho_state.specs.State.{driver_of, driver_with_key, holding};
ghost use Rattle.tacho_reading.specs.Calls.{Tells};
ghost use Rattle.tacho_reading.specs.Finding.{IsDriver, IsNumberOf, IsOfDriver, IsStored};
ghost use Rattle.tacho_reading.specs.Kept.{HasGivenUp};

use crate::fault::store_fault;
use sqlite::{Alter, Transaction};
use tacho_state::StoreFault;
use tacho_tables::{StoredDriver, drivers};

/// Looks up the driver with this number.
pub fn stored_with<S: Alter>(
    tx: &mut Transaction<'_, S>,
    number: u32,
) -> Result<Option<StoredDriver>, StoreFault>
    ensures { Tells S.Store tx.old.conn tx.new.conn result
        (λ _ s. MatchResult result (IsOfDriver IsStored (driver_of number s)) HasGivenUp) }
{
    drivers::by_number(tx, number).map_err(store_fault)
}

/// Looks up the number of the driver with this key.
pub fn number_with_key<S: Alter>(
    tx: &mut Transaction<'_, S>,
    key: &[u8],
) -> Result<Option<u32>, StoreFault>
    ensures { Tells S.Store tx.old.conn tx.new.conn result
        (λ _ s. MatchResult result (IsOfDriver (λ n d. n ≡ d.number) (driver_with_key key.now s)) HasGivenUp) }
{
    drivers::number_by_secret(tx, key).map_err(store_fault)
}

/// Looks up the number of the driver whose card has this holder.
pub fn number_with_holder<S: Alter>(
    tx: &mut Transaction<'_, S>,
    holder: &[u8],
) -> Result<Option<u32>, StoreFault>
    ensures { Tells S.Store tx.old.conn tx.new.conn result
        (λ _ s. MatchResult result (IsOfDriver (IsNumberOf s) (holding holder.now s)) HasGivenUp) }
{
    drivers::number_by_holder(tx, holder).map_err(store_fault)
}

/// Returns what a look-up of a driver found: S4 if it found nobody.
pub fn known<T>(found: Option<T>) -> Result<T, StoreFault>
    ensures { result ≡ ok_or found StoreFault.UnknownDriver }
{
    found.ok_or(StoreFault::UnknownDriver)
}

/// Reads the driver with this number: S4.
pub fn driver_with<S: Alter>(
    tx: &mut Transaction<'_, S>,
    number: u32,
) -> Result<StoredDriver, StoreFault>
    ensures { Tells S.Store tx.old.conn tx.new.conn result (λ _ s. IsDriver s number result) }
{
    let found = stored_with(tx, number)?;
    known(found)
}
