//! Texts about all drivers.

ghost use Rattle.std.specs.Prelude.{false};
ghost use Rattle.tacho_desk.specs.Doing.{IsOfArchive, CarriesOut};
ghost use Rattle.tacho_desk.specs.Tasks.{ShowsForecast, ShowsMonthOfAll};
ghost use Rattle.tacho_desk.specs.Told.{answer_of};
ghost use Rattle.tacho_desk.specs.declared.want.MonthOfAll.TheVariants as all;

use crate::text::Text;
use crate::want::MonthOfAll;
use std::alloc::Global;
use tacho_sheet::{
    Fault, forecast_head, incident_head, overview_head, push_forecast, push_incidents,
    push_overview, push_standing, standing_head,
};
use tacho_state::{Keeper, StoreFault};
use tacho_time::{Minute, Month, month_range};

/// Answers with a text about a month of all drivers.
pub(crate) fn show_month<K: Keeper>(
    alloc: Global,
    keeper: &mut K,
    month: Month,
    reading: MonthOfAll,
) -> Result<Text, Fault>
    ensures serves { CarriesOut K.stands K.is_clean K.is_live K.leaves K.is_same keeper.old keeper.new false (answer_of result)
        (ShowsMonthOfAll reading month) }
    ensures archive { IsOfArchive false (answer_of result) }
{
    match reading {
        MonthOfAll::Standing => standing(alloc, keeper, month),
        MonthOfAll::Overview => overview(alloc, keeper, month),
        MonthOfAll::Incidents => incidents(alloc, keeper, month),
    }
}

/// Writes a row for each driver: what is held and how far it is examined, the gaps, the number of breaches in a month and in the month before,
/// and the open debts.
fn standing<K: Keeper>(alloc: Global, keeper: &mut K, month: Month) -> Result<Text, Fault>
    ensures serves { CarriesOut K.stands K.is_clean K.is_live K.leaves K.is_same keeper.old keeper.new false (answer_of result)
        (ShowsMonthOfAll all.Standing month) }
    ensures archive { IsOfArchive false (answer_of result) }
{
    let drivers = keeper.drivers(alloc)?;
    let mut text = standing_head(alloc)?;
    for driver in &drivers {
        let (line, stretches) = keeper.line_and_stretches_from_base(alloc, driver.number)?;
        push_standing(alloc, &mut text, driver, &line, &stretches, month)?;
    }
    Ok(Text::Long(text))
}

/// Writes a row for each driver: the forecast from a minute on. Fails with S12 if what the archive holds can't be examined.
pub(crate) fn forecast<K: Keeper>(
    alloc: Global,
    keeper: &mut K,
    minute: Minute,
) -> Result<Text, Fault>
    ensures serves { CarriesOut K.stands K.is_clean K.is_live K.leaves K.is_same keeper.old keeper.new false (answer_of result) (ShowsForecast minute) }
    ensures archive { IsOfArchive false (answer_of result) }
{
    let drivers = keeper.drivers(alloc)?;
    let mut text = forecast_head(alloc)?;
    for driver in &drivers {
        let (line, stretches) = keeper.line_and_stretches_from_base(alloc, driver.number)?;
        let row = push_forecast(alloc, &mut text, driver, &line, &stretches, minute)?;
        row.ok_or(StoreFault::Store)?;
    }
    Ok(Text::Long(text))
}

/// Writes a row for each driver: what they hold in a month, how much of it is examined, and the number of breaches of each rule.
fn overview<K: Keeper>(alloc: Global, keeper: &mut K, month: Month) -> Result<Text, Fault>
    ensures serves { CarriesOut K.stands K.is_clean K.is_live K.leaves K.is_same keeper.old keeper.new false (answer_of result)
        (ShowsMonthOfAll all.Overview month) }
    ensures archive { IsOfArchive false (answer_of result) }
{
    let (start, past) = month_range(month);
    let drivers = keeper.drivers(alloc)?;
    let mut text = overview_head(alloc)?;
    for driver in &drivers {
        let (line, stretches) = keeper.line_and_stretches(alloc, driver.number, start, past)?;
        push_overview(
            alloc,
            &mut text,
            driver.number,
            &driver.name,
            &line,
            &stretches,
            month,
        )?;
    }
    Ok(Text::Long(text))
}

/// Writes a row for each breach of a month, driver by driver.
fn incidents<K: Keeper>(alloc: Global, keeper: &mut K, month: Month) -> Result<Text, Fault>
    ensures serves { CarriesOut K.stands K.is_clean K.is_live K.leaves K.is_same keeper.old keeper.new false (answer_of result)
        (ShowsMonthOfAll all.Incidents month) }
    ensures archive { IsOfArchive false (answer_of result) }
{
    let drivers = keeper.drivers(alloc)?;
    let mut text = incident_head(alloc)?;
    for driver in &drivers {
        let stretches = keeper.stretches(alloc, driver.number)?;
        push_incidents(&mut text, driver.number, &driver.name, &stretches, month)?;
    }
    Ok(Text::Long(text))
}
