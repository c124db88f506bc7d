ghost use Rattle.std.specs.Prelude.{◌≡◌, ◌&&◌, ◌++◌, ◌∷◌, [], IsTrue, OnOk, Some, nat_lt, not};
ghost use Rattle.tacho_state.specs.Batch.{AreHoursInOrder, IsBatch, IsEntryLine, batch_of};
ghost use Rattle.tacho_state.specs.State.{Driver, State, driver_of, put, with_batch};
ghost use Rattle.tacho_state.specs.Steps.{numbered_from};
ghost use Rattle.tacho_carry.specs.Carrying.{IsAt, with_entries};

use std::alloc::Global;
use tacho_state::{Entry, EntryLine, Keeper, StoreFault};
use tacho_time::{FIRST_DAY, LAST_DAY, Minute};

/// Whether an entry is carried: it isn't withdrawn, and ends after `start`.
pub(crate) fn is_needed(entry: &Entry, start: Minute) -> bool
    ensures { result ≡ (not entry.now.withdrawn && nat_lt start entry.now.line.past) }
{
    !entry.withdrawn && entry.line.past() > start
}

/// Enters those of a driver's entries that are carried, in order: those that follow each other in time, as one batch.
pub(crate) fn enter_kept<L: Keeper>(
    alloc: Global,
    new: &mut L,
    driver: u32,
    entries: Vec<Entry>,
    start: Minute,
) -> Result<(), StoreFault>
    ensures clean { L.is_clean new.new → L.is_clean new.old }
    ensures entered { L.is_clean new.new → (t : State) (d x : Driver) → entries.items ≡ numbered_from 1 d.entries
        → driver_of driver t ≡ Some x → IsAt (L.stands new.old) (L.leaves new.old) t
        → OnOk result (IsAt (L.stands new.new) (L.leaves new.new) (put (with_entries start d.entries x) t)) }
{
    let mut batch: Vec<EntryLine> = Vec::new(alloc);
    for entry in entries {
        if !is_needed(&entry, start) {
            continue;
        }
        let line = entry.line;
        if !is_within_limits(&line) {
            return Err(StoreFault::Store);
        }
        if !follows(&batch, &line) {
            enter_batch(alloc, new, driver, &batch)?;
            batch = Vec::new(alloc);
        }
        batch.push(line)?;
    }
    enter_batch(alloc, new, driver, &batch)?;
    Ok(())
}

/// Enters a batch.
fn enter_batch<L: Keeper>(
    alloc: Global,
    new: &mut L,
    driver: u32,
    batch: &[EntryLine],
) -> Result<(), StoreFault>
    requires { IsBatch batch.now }
    ensures clean { L.is_clean new.new → L.is_clean new.old }
    ensures entered { L.is_clean new.new → (t : State) (x : Driver) → driver_of driver t ≡ Some x
        → IsAt (L.stands new.old) (L.leaves new.old) t
        → OnOk result (IsAt (L.stands new.new) (L.leaves new.new) (put (with_batch (batch_of batch.now) x) t)) }
{
    new.enter(alloc, driver, batch)?;
    Ok(())
}

/// Whether a line begins where the last of a batch ends, or later.
fn follows(batch: &[EntryLine], line: &EntryLine) -> bool
    ensures { IsTrue result → AreHoursInOrder batch.now → AreHoursInOrder (batch.now ++ line.now ∷ []) }
{
    match batch.last() {
        Some(last) => last.past() <= line.start(),
        None => true,
    }
}

/// Whether hours can be entered: they lie in the years that are read, aren't empty, and have at most 366 days.
fn is_within_limits(line: &EntryLine) -> bool
    ensures { IsTrue result → IsEntryLine line.now }
{
    let (start, past) = (line.start().number(), line.past().number());
    start >= 1_440 * FIRST_DAY
        && start < past
        && past - start <= 527_040
        && past <= 1_440 * (LAST_DAY + 1)
}
