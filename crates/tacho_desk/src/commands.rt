//! The commands, with their numbers and their input.

ghost use Rattle.std.specs.Prelude.{◌≡◌, false, true};
ghost use Rattle.tacho_desk.specs.Doing.{AsksOnly, IsOfArchive, CarriesOut};
ghost use Rattle.tacho_desk.specs.Tasks.{Enters, Imports, IsFaulty, IsSound, Rebases, Registers, Rekeys, Renames, Withdraws, WithdrawsRange, imported_told};
ghost use Rattle.tacho_desk.specs.declared.task.Task.TheVariants as task;
ghost use Rattle.tacho_desk.specs.Told.{answer_of, told_text};

use crate::day::ReadDay;
use crate::range::EntryRange;
use crate::text::Text;
use std::alloc::Global;
use tacho_card::Part;
use tacho_sheet::{
    Fault, base_line, entered_line, imported_line, key_line, name_line, read_driver, read_entries,
    read_key_line, read_name_line, registered_line, withdrawn_line, withdrawn_range_line,
};
use tacho_state::{Caller, Imported, Keeper};

/// Adds the driver described by a text of CSV.
pub(crate) fn register<K: Keeper>(
    alloc: Global,
    keeper: &mut K,
    input: &[u8],
) -> Result<Text, Fault>
    ensures serves { CarriesOut K.stands K.is_clean K.is_live K.leaves K.is_same keeper.old keeper.new true (answer_of result) (Registers input.now) }
    ensures asks { AsksOnly keeper.old keeper.new false (IsSound task.Register input.now) (IsFaulty task.Register input.now)
        (answer_of result) }
{
    let driver = read_driver(alloc, input)?;
    keeper.register(&driver)?;
    Ok(Text::Added(registered_line(driver.number())))
}

/// Imports a card file.
pub(crate) fn import<K: Keeper>(
    alloc: Global,
    keeper: &mut K,
    caller: Caller,
    part: Part,
    input: &[u8],
) -> Result<Text, Fault>
    ensures serves { CarriesOut K.stands K.is_clean K.is_live K.leaves K.is_same keeper.old keeper.new true (answer_of result)
        (Imports caller part input.now) }
    ensures asks { AsksOnly keeper.old keeper.new false (IsSound (task.Import caller part) input.now)
        (IsFaulty (task.Import caller part) input.now) (answer_of result) }
{
    let imported = keeper.import(alloc, caller, part, input)?;
    Ok(imported_text(imported))
}

/// The line of an import, by whether the file was added or was there already.
fn imported_text(imported: Imported) -> Text
    ensures { told_text result ≡ imported_told imported }
{
    let line = imported_line(imported);
    match imported {
        Imported::Added { .. } => Text::Added(line),
        Imported::Repeated { .. } => Text::Line(line),
    }
}

/// Enters the hours of a text of CSV.
pub(crate) fn enter<K: Keeper>(
    alloc: Global,
    keeper: &mut K,
    driver: u32,
    input: &[u8],
) -> Result<Text, Fault>
    ensures serves { CarriesOut K.stands K.is_clean K.is_live K.leaves K.is_same keeper.old keeper.new true (answer_of result) (Enters driver input.now) }
    ensures asks { AsksOnly keeper.old keeper.new false (IsSound (task.Enter driver) input.now) (IsFaulty (task.Enter driver) input.now)
        (answer_of result) }
{
    let lines = read_entries(alloc, input)?;
    let entered = keeper.enter(alloc, driver, &lines)?;
    let line = entered_line(entered);
    if entered.count == 0 {
        Ok(Text::Line(line))
    } else {
        Ok(Text::Added(line))
    }
}

/// Withdraws an entry.
pub(crate) fn withdraw<K: Keeper>(
    alloc: Global,
    keeper: &mut K,
    driver: u32,
    number: u32,
) -> Result<Text, Fault>
    ensures serves { CarriesOut K.stands K.is_clean K.is_live K.leaves K.is_same keeper.old keeper.new true (answer_of result) (Withdraws driver number) }
    ensures archive { IsOfArchive false (answer_of result) }
{
    keeper.withdraw(alloc, driver, number, number)?;
    Ok(Text::Line(withdrawn_line(number)))
}

/// Withdraws a range of a driver's entries, all of them or none.
pub(crate) fn withdraw_range<K: Keeper>(
    alloc: Global,
    keeper: &mut K,
    driver: u32,
    range: EntryRange,
) -> Result<Text, Fault>
    ensures serves { CarriesOut K.stands K.is_clean K.is_live K.leaves K.is_same keeper.old keeper.new true (answer_of result)
        (WithdrawsRange driver range) }
    ensures archive { IsOfArchive false (answer_of result) }
{
    let (first, last) = (range.first(), range.last());
    keeper.withdraw(alloc, driver, first, last)?;
    Ok(Text::Line(withdrawn_range_line(first, last)))
}

/// Sets a driver's base.
pub(crate) fn rebase<K: Keeper>(keeper: &mut K, driver: u32, base: ReadDay) -> Result<Text, Fault>
    ensures serves { CarriesOut K.stands K.is_clean K.is_live K.leaves K.is_same keeper.old keeper.new true (answer_of result) (Rebases driver base) }
    ensures archive { IsOfArchive false (answer_of result) }
{
    let day = base.day();
    keeper.rebase(driver, day)?;
    Ok(Text::Line(base_line(day)))
}

/// Sets a driver's key, given as a line.
pub(crate) fn rekey<K: Keeper>(keeper: &mut K, driver: u32, input: &[u8]) -> Result<Text, Fault>
    ensures serves { CarriesOut K.stands K.is_clean K.is_live K.leaves K.is_same keeper.old keeper.new true (answer_of result) (Rekeys driver input.now) }
    ensures asks { AsksOnly keeper.old keeper.new false (IsSound (task.Key driver) input.now) (IsFaulty (task.Key driver) input.now)
        (answer_of result) }
{
    let key = read_key_line(input)?;
    keeper.rekey(driver, key)?;
    Ok(Text::Line(key_line(driver)))
}

/// Sets a driver's name, given as a line.
pub(crate) fn rename<K: Keeper>(keeper: &mut K, driver: u32, input: &[u8]) -> Result<Text, Fault>
    ensures serves { CarriesOut K.stands K.is_clean K.is_live K.leaves K.is_same keeper.old keeper.new true (answer_of result) (Renames driver input.now) }
    ensures asks { AsksOnly keeper.old keeper.new false (IsSound (task.Name driver) input.now) (IsFaulty (task.Name driver) input.now)
        (answer_of result) }
{
    let name = read_name_line(input)?;
    keeper.rename(driver, name)?;
    Ok(Text::Line(name_line(driver)))
}
