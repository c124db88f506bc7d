//! What is handed over of a driver and a period.

ghost use Rattle.std.specs.Prelude.{false};
ghost use Rattle.tacho_desk.specs.Doing.{IsOfArchive, CarriesOut};
ghost use Rattle.tacho_desk.specs.Tasks.{ShowsHandover};
ghost use Rattle.tacho_desk.specs.Told.{answer_of};

use crate::period::Period;
use crate::release::program_line;
use crate::text::Text;
use std::alloc::Global;
use tacho_handover::{Parcel, entries_text, missing_text, room_for};
use tacho_sheet::Fault;
use tacho_state::Keeper;

/// Answers with a tar file of the card files that cover a period, of the entries that have a minute of it, and of the contents. Only one card
/// file is in memory beside it.
pub(crate) fn handover<K: Keeper>(
    alloc: Global,
    keeper: &mut K,
    driver: u32,
    period: Period,
) -> Result<Text, Fault>
    ensures serves { CarriesOut K.stands K.is_clean K.is_live K.leaves K.is_same keeper.old keeper.new false (answer_of result)
        (ShowsHandover period driver) }
    ensures archive { IsOfArchive false (answer_of result) }
{
    let (start, end) = (period.start(), period.end());
    let listed = keeper.driver(alloc, driver)?;
    let files = keeper.files(alloc, driver)?;
    let entered = keeper.entries(alloc, driver)?;
    let entries = entries_text(alloc, &entered, start, end)?;
    let line = keeper.line_within(alloc, driver, start, end)?;
    let missing = missing_text(alloc, &line, start, end)?;
    let room = room_for(&files, entries.len().saturating_add(missing.len()));
    let mut parcel = Parcel::new(alloc, start, end, room)?;
    // From the newest card file to the oldest.
    for place in (0..files.len()).rev() {
        let file = &files[place];
        let bytes = keeper.download(alloc, driver, file.number)?;
        parcel.offer(alloc, &listed.holder, file, &bytes)?;
    }
    let tar = parcel.close(
        alloc,
        program_line(),
        &listed,
        period.from(),
        period.past(),
        entries.as_bytes(),
        missing.as_bytes(),
    )?;
    Ok(Text::File(tar))
}
