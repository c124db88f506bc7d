//! The refusals of commands, by what look-ups found.

ghost use Rattle.std.specs.Prelude.{◌≡◌, ◌==◌, if◌then◌else◌, Ok, Err, MatchOption, bytes_eq, ok_or};
ghost use Rattle.tacho_state.specs.Limits.{next_number};
ghost use Rattle.tacho_state.specs.Steps.{is_monday as is_day_monday};

use tacho_state::{StoreFault, first_number, is_monday};
use tacho_tables::StoredEntry;
use tacho_time::Day;

/// Refuses a new driver if a driver has the number, the key or the holder: S1, S2, S3.
pub fn ask_taken(number: bool, key: bool, holder: bool) -> Result<(), StoreFault>
    ensures { result ≡ (if number then Err StoreFault.DriverTaken
        else (if key then Err StoreFault.KeyTaken
        else (if holder then Err StoreFault.HolderTaken else Ok tt))) }
{
    if number {
        return Err(StoreFault::DriverTaken);
    }
    if key {
        return Err(StoreFault::KeyTaken);
    }
    if holder {
        return Err(StoreFault::HolderTaken);
    }
    Ok(())
}

/// Refuses a driver a key if the number of its owner, if there is one, is another: S2.
pub fn ask_owner(owner: Option<u32>, driver: u32) -> Result<(), StoreFault>
    ensures { MatchOption owner (result ≡ Ok tt) (λ number. result ≡ (if number == driver then Ok tt else Err StoreFault.KeyTaken)) }
{
    match owner {
        Some(number) if number != driver => Err(StoreFault::KeyTaken),
        _ => Ok(()),
    }
}

/// Refuses a driver a card of another holder: S5.
pub fn ask_holder(own: &[u8], holder: &[u8]) -> Result<(), StoreFault>
    ensures { result ≡ (if bytes_eq own.now holder.now then Ok tt else Err StoreFault.NotYourCard) }
{
    if own == holder {
        return Ok(());
    }
    Err(StoreFault::NotYourCard)
}

/// Returns the entry that a look-up found, unless it is withdrawn: S7, S8.
pub fn kept_entry(found: Option<StoredEntry>) -> Result<StoredEntry, StoreFault>
    ensures { MatchOption found (result ≡ Err StoreFault.UnknownEntry)
        (λ entry. result ≡ (if entry.withdrawn == 0 then Ok entry else Err StoreFault.AlreadyWithdrawn)) }
{
    let Some(entry) = found else {
        return Err(StoreFault::UnknownEntry);
    };
    if entry.withdrawn == 0 {
        return Ok(entry);
    }
    Err(StoreFault::AlreadyWithdrawn)
}

/// Refuses a base that isn't a Monday: S9.
pub fn ask_monday(base: Day) -> Result<(), StoreFault>
    ensures { result ≡ (if is_day_monday base then Ok tt else Err StoreFault.NotMonday) }
{
    if is_monday(base) {
        return Ok(());
    }
    Err(StoreFault::NotMonday)
}

/// Returns the first of `count` new numbers after `given` numbers were given out: S14.
pub fn numbers_from(given: u32, count: usize) -> Result<u32, StoreFault>
    ensures { result ≡ ok_or (next_number given count) StoreFault.Full }
{
    let Ok(count) = u32::try_from(count) else {
        return Err(StoreFault::Full);
    };
    first_number(given, count).ok_or(StoreFault::Full)
}
