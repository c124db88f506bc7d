//! Texts about a driver.

ghost use Rattle.std.specs.Prelude.{◌≡◌, false, true};
ghost use Rattle.tacho_desk.specs.Doing.{IsOfArchive, CarriesOut};
ghost use Rattle.tacho_desk.specs.Tasks.{ShowsAhead, ShowsDriver, ShowsDrivers, ShowsFile, ShowsForm, ShowsMonth, ShowsReading, ShowsVersion, cut_at};
ghost use Rattle.tacho_desk.specs.Told.{answer_of};

use crate::day::ReadDay;
use crate::release::version_text;
use crate::text::Text;
use crate::want::{MonthReading, Reading};
use std::alloc::Global;
use std::slice;
use tacho_sheet::{
    Fault, ahead_text, breach_text, debt_text, driver_text, entry_text, file_text, form_text,
    gap_text, month_chart, month_sheet, owed_text, span_csv, stretch_text, why_text,
};
use tacho_state::{Keeper, StoreFault};
use tacho_stretches::range_of;
use tacho_time::{Minute, Month, month_range};

/// Answers with a text about a driver.
pub(crate) fn show<K: Keeper>(
    alloc: Global,
    keeper: &mut K,
    driver: u32,
    reading: Reading,
) -> Result<Text, Fault>
    ensures serves { CarriesOut K.stands K.is_clean K.is_live K.leaves K.is_same keeper.old keeper.new false (answer_of result)
        (ShowsReading reading driver) }
    ensures archive { IsOfArchive false (answer_of result) }
{
    match reading {
        Reading::Breaches => Ok(Text::Long(breach_text(alloc, &keeper.report(alloc, driver)?)?)),
        Reading::Owed => Ok(Text::Long(owed_text(alloc, &keeper.report(alloc, driver)?)?)),
        Reading::Entries => Ok(Text::Long(entry_text(alloc, &keeper.entries(alloc, driver)?)?)),
        Reading::Stretches => Ok(Text::Long(stretch_text(
            alloc,
            &keeper.stretches(alloc, driver)?,
        )?)),
        Reading::Debts => Ok(Text::Long(debt_text(alloc, &keeper.stretches(alloc, driver)?)?)),
        Reading::Files => Ok(Text::Long(file_text(alloc, &keeper.files(alloc, driver)?)?)),
    }
}

/// The minute, or the first minute of a day if there is one and it is earlier.
fn cut_at(end: Minute, before: Option<ReadDay>) -> Minute
    ensures { result ≡ cut_at before end }
{
    match before {
        Some(day) => Minute::new(end.number().min(day.first_minute().number())),
        None => end,
    }
}

/// Answers with the form for the minutes that a driver doesn't hold, as far as a day if one is named.
pub(crate) fn form<K: Keeper>(
    alloc: Global,
    keeper: &mut K,
    driver: u32,
    before: Option<ReadDay>,
) -> Result<Text, Fault>
    ensures serves { CarriesOut K.stands K.is_clean K.is_live K.leaves K.is_same keeper.old keeper.new false (answer_of result)
        (ShowsForm before driver) }
    ensures archive { IsOfArchive false (answer_of result) }
{
    let stretches = keeper.stretches(alloc, driver)?;
    let (base, held) = range_of(&stretches);
    let end = cut_at(held, before);
    let line = keeper.line_within(alloc, driver, base, end)?;
    Ok(Text::Long(form_text(alloc, &line, base, end)?))
}

/// Answers with a text about a driver's month. Evidence fails with S12 if what the archive holds can't be examined.
pub(crate) fn show_month<K: Keeper>(
    alloc: Global,
    keeper: &mut K,
    driver: u32,
    month: Month,
    reading: MonthReading,
) -> Result<Text, Fault>
    ensures serves { CarriesOut K.stands K.is_clean K.is_live K.leaves K.is_same keeper.old keeper.new false (answer_of result)
        (ShowsMonth reading month driver) }
    ensures archive { IsOfArchive false (answer_of result) }
{
    let (start, past) = month_range(month);
    match reading {
        MonthReading::Spans => {
            let line = keeper.line_within(alloc, driver, start, past)?;
            Ok(Text::Long(span_csv(alloc, &line, month)?))
        }
        MonthReading::Gaps => {
            let line = keeper.line_within(alloc, driver, start, past)?;
            Ok(Text::Long(gap_text(alloc, &line, month)?))
        }
        MonthReading::Sheet => {
            let name = keeper.name(alloc, driver)?;
            let line = keeper.line_within(alloc, driver, start, past)?;
            let report = keeper.report(alloc, driver)?;
            Ok(Text::Long(month_sheet(alloc, driver, &name, &line, &report, month)?))
        }
        MonthReading::Chart => {
            let name = keeper.name(alloc, driver)?;
            let (line, stretches) = keeper.line_and_stretches(alloc, driver, start, past)?;
            Ok(Text::Long(month_chart(alloc, driver, &name, &line, &stretches, month)?))
        }
        MonthReading::Why => {
            let (line, stretches) = keeper.line_and_stretches_from_base(alloc, driver)?;
            let text = why_text(alloc, &line, &stretches, month)?.ok_or(StoreFault::Store)?;
            Ok(Text::Long(text))
        }
    }
}

/// Answers with the forecast for a driver from a minute on. Fails with Z3 if it would go past 2099, and with S12 if what the archive holds
/// can't be examined.
pub(crate) fn ahead<K: Keeper>(
    alloc: Global,
    keeper: &mut K,
    driver: u32,
    minute: Minute,
) -> Result<Text, Fault>
    ensures serves { CarriesOut K.stands K.is_clean K.is_live K.leaves K.is_same keeper.old keeper.new false (answer_of result)
        (ShowsAhead minute driver) }
    ensures archive { IsOfArchive true (answer_of result) }
{
    let (line, stretches) = keeper.line_and_stretches_from_base(alloc, driver)?;
    let text = ahead_text(alloc, &line, &stretches, minute)?.ok_or(StoreFault::Store)?;
    Ok(Text::Long(text))
}

/// Answers with a card file of the archive.
pub(crate) fn file<K: Keeper>(
    alloc: Global,
    keeper: &mut K,
    driver: u32,
    number: u32,
) -> Result<Text, Fault>
    ensures serves { CarriesOut K.stands K.is_clean K.is_live K.leaves K.is_same keeper.old keeper.new false (answer_of result)
        (ShowsFile driver number) }
    ensures archive { IsOfArchive false (answer_of result) }
{
    Ok(Text::File(keeper.download(alloc, driver, number)?))
}

/// Answers with the version of the program. A reading that is done shows that the archive can be read, so the archive is asked for a driver,
/// whom no empty key names.
pub(crate) fn version<K: Keeper>(keeper: &mut K) -> Result<Text, Fault>
    ensures serves { CarriesOut K.stands K.is_clean K.is_live K.leaves K.is_same keeper.old keeper.new false (answer_of result) ShowsVersion }
    ensures archive { IsOfArchive false (answer_of result) }
{
    keeper.who(&[])?;
    Ok(Text::Fixed(version_text()))
}

/// Writes what is listed of a driver.
pub(crate) fn driver<K: Keeper>(alloc: Global, keeper: &mut K, driver: u32) -> Result<Text, Fault>
    ensures serves { CarriesOut K.stands K.is_clean K.is_live K.leaves K.is_same keeper.old keeper.new false (answer_of result) (ShowsDriver driver) }
    ensures archive { IsOfArchive false (answer_of result) }
{
    let found = keeper.driver(alloc, driver)?;
    Ok(Text::Long(driver_text(alloc, slice::from_ref(&found))?))
}

/// Writes the list of all drivers.
pub(crate) fn drivers<K: Keeper>(alloc: Global, keeper: &mut K) -> Result<Text, Fault>
    ensures serves { CarriesOut K.stands K.is_clean K.is_live K.leaves K.is_same keeper.old keeper.new false (answer_of result) ShowsDrivers }
    ensures archive { IsOfArchive false (answer_of result) }
{
    let drivers = keeper.drivers(alloc)?;
    Ok(Text::Long(driver_text(alloc, &drivers)?))
}
