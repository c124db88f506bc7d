ghost use Rattle.std.specs.Prelude.{◌≡◌, ◌*◌, ◌&&◌, ◌++◌, ◌∷◌, [], ℕ, IfOk, None, OnOk, Some, map, max, nat_lt, not, string_bytes};
ghost use Rattle.std.specs.List.{list_any};
ghost use Rattle.tacho_state.specs.Acts.{OnlyRead};
ghost use Rattle.tacho_state.specs.Content.{AreRead};
ghost use Rattle.tacho_state.specs.Files.{listed_from, told_file};
ghost use Rattle.tacho_state.specs.State.{Driver as Kept, State, driver_of};
ghost use Rattle.tacho_state.specs.Steps.{numbered_from};
ghost use Rattle.tacho_state.specs.Summaries.{summary_of, told_summary};
ghost use Rattle.tacho_state.specs.declared.entry.Entry.{Entry as Entered};
ghost use Rattle.tacho_state.specs.declared.file.FileSummary.{FileSummary as Listed};
ghost use Rattle.tacho_carry.specs.Carried.{carried, is_left_out, monday_of};
ghost use Rattle.tacho_carry.specs.Carrying.{IsAt, registered};

use crate::entries::{enter_kept, is_needed};
use crate::files::import_needed;
use std::alloc::Global;
use tacho_state::{Driver, DriverSummary, Entry, FileSummary, Keeper, StoreFault};
use tacho_time::{Day, Minute};

/// Carries a driver, unless they are left out. Returns whether they were carried.
pub(crate) fn carry_driver<K: Keeper, L: Keeper>(
    alloc: Global,
    old: &mut K,
    new: &mut L,
    driver: &DriverSummary,
    from: Day,
) -> Result<bool, StoreFault>
    ensures old { OnlyRead K.stands K.is_clean K.leaves K.is_same old.old old.new }
    ensures live { K.is_clean old.new → K.is_live old.new → K.is_live old.old }
    ensures clean { L.is_clean new.new → L.is_clean new.old }
    ensures carried { K.is_clean old.new → L.is_clean new.new → (s t : State) (d : Kept) → K.stands old.old s
        → driver_of driver.now.number s ≡ Some d → told_summary driver.now ≡ summary_of d → AreRead d.downloads
        → IsAt (L.stands new.old) (L.leaves new.old) t
        → IfOk result (λ done. (done ≡ not (is_left_out from d))
        × IsAt (L.stands new.new) (L.leaves new.new) (t ++ carried from (d ∷ []))) }
{
    let start = Minute::new(1_440 * from.number());
    let number = driver.number;
    let files = old.files(alloc, number)?;
    let entries = old.entries(alloc, number)?;
    if is_left_out(&files, &entries, start) {
        return Ok(false);
    }
    let key = old.key(alloc, number)?;
    register_new(new, &registration(alloc, driver, key, from)?)?;
    import_needed(alloc, old, new, number, &files, start)?;
    enter_kept(alloc, new, number, entries, start)?;
    Ok(true)
}

/// Adds a driver.
fn register_new<L: Keeper>(new: &mut L, driver: &Driver) -> Result<(), StoreFault>
    ensures clean { L.is_clean new.new → L.is_clean new.old }
    ensures registered { L.is_clean new.new → (t : State) → IsAt (L.stands new.old) (L.leaves new.old) t
        → OnOk result ((driver_of driver.now.number t ≡ None)
        × IsAt (L.stands new.new) (L.leaves new.new) (t ++ registered driver.now ∷ [])) }
{
    new.register(driver)?;
    Ok(())
}

/// Whether a driver has had card files or entries and none of them is carried.
fn is_left_out(files: &[FileSummary], entries: &[Entry], start: Minute) -> bool
    ensures { (day : ℕ) (d : Kept) → start ≡ 1440 * day → map told_file files.now ≡ listed_from 1 d.downloads
        → entries.now ≡ numbered_from 1 d.entries → AreRead d.downloads → result ≡ is_left_out day d }
{
    let had_none = files.is_empty() && entries.is_empty();
    let needs_none = !is_any_file_needed(files, start) && !is_any_entry_needed(entries, start);
    !had_none && needs_none
}

/// Whether one of the card files gives a minute at or after `start`.
fn is_any_file_needed(files: &[FileSummary], start: Minute) -> bool
    ensures { result ≡ list_any (λ (f : Listed). nat_lt start f.past) files.now }
{
    files.iter().any(|file| file.past > start)
}

/// Whether one of the entries is carried.
fn is_any_entry_needed(entries: &[Entry], start: Minute) -> bool
    ensures { result ≡ list_any (λ (e : Entered). not e.withdrawn && nat_lt start e.line.past) entries.now }
{
    entries.iter().any(|entry| is_needed(entry, start))
}

/// The registration of a driver who is carried. Fails with S12 if no archive keeps such a driver.
fn registration(
    alloc: Global,
    driver: &DriverSummary,
    key: String,
    from: Day,
) -> Result<Driver, StoreFault>
    ensures { IfOk result (λ it. it ≡ record {
      number = driver.now.number;
      holder = driver.now.holder.items;
      key = string_bytes key;
      base = max driver.now.base (monday_of from);
      name = string_bytes driver.now.name;
    }) }
{
    let Ok(holder) = <[u8; 15]>::try_from(driver.holder.as_slice()) else {
        return Err(StoreFault::Store);
    };
    let name = String::from_str(alloc, &driver.name)?;
    let base = driver.base.max(monday_of(from));
    match Driver::new(driver.number, holder, key, base, name) {
        Ok(driver) => Ok(driver),
        Err(_) => Err(StoreFault::Store),
    }
}

/// The Monday of a day's week. Day 0 was a Thursday.
fn monday_of(day: Day) -> Day
    ensures { result ≡ monday_of day }
{
    let number = day.number();
    Day::new(number.saturating_sub((number + 3) % 7))
}
