ghost use Rattle.std.specs.Prelude.{◌≡◌, OnOk, Some, map};
ghost use Rattle.tacho_state.specs.Acts.{OnlyRead};
ghost use Rattle.tacho_state.specs.Content.{AreRead, FileTells};
ghost use Rattle.tacho_state.specs.Numbers.{part_number};
ghost use Rattle.tacho_state.specs.Files.{listed_from, told_file};
ghost use Rattle.tacho_state.specs.State.{Driver, State, driver_of, put, with_download};
ghost use Rattle.tacho_state.specs.Steps.{Content};
ghost use Rattle.tacho_carry.specs.Carrying.{IsAt, with_files};

use std::alloc::Global;
use tacho_card::Part;
use tacho_state::{Caller, FileSummary, Imported, Keeper, StoreFault};
use tacho_time::Minute;

/// Imports those of a driver's card files that give a minute at or after `start`, in order.
pub(crate) fn import_needed<K: Keeper, L: Keeper>(
    alloc: Global,
    old: &mut K,
    new: &mut L,
    driver: u32,
    files: &[FileSummary],
    start: Minute,
) -> Result<(), StoreFault>
    ensures old { OnlyRead K.stands K.is_clean K.leaves K.is_same old.old old.new }
    ensures live { K.is_clean old.new → K.is_live old.new → K.is_live old.old }
    ensures clean { L.is_clean new.new → L.is_clean new.old }
    ensures imported { K.is_clean old.new → L.is_clean new.new → (s t : State) (d x : Driver) → K.stands old.old s
        → driver_of driver s ≡ Some d → map told_file files.now ≡ listed_from 1 d.downloads → AreRead d.downloads
        → driver_of driver t ≡ Some x → IsAt (L.stands new.old) (L.leaves new.old) t
        → OnOk result (IsAt (L.stands new.new) (L.leaves new.new) (put (with_files start d.downloads x) t)) }
{
    for file in files {
        if file.past > start {
            let bytes = old.download(alloc, driver, file.number)?;
            import_new(alloc, new, driver, file.part, &bytes)?;
        }
    }
    Ok(())
}

/// Imports a card file that gives something new. Fails with S12 if all of it is held.
fn import_new<L: Keeper>(
    alloc: Global,
    new: &mut L,
    driver: u32,
    part: Part,
    file: &[u8],
) -> Result<(), StoreFault>
    ensures clean { L.is_clean new.new → L.is_clean new.old }
    ensures imported { L.is_clean new.new → (t : State) (x : Driver) (content : Content) → driver_of driver t ≡ Some x
        → FileTells part file.now (Ok content) → IsAt (L.stands new.old) (L.leaves new.old) t
        → OnOk result (IsAt (L.stands new.new) (L.leaves new.new) (put (with_download (part_number part) file.now content.spans x) t)) }
{
    match new.import(alloc, Caller::Driver(driver), part, file)? {
        Imported::Added { .. } => Ok(()),
        Imported::Repeated { .. } => Err(StoreFault::Store),
    }
}
