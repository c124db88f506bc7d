ghost use Rattle.std.specs.Prelude.{◌≡◌, ◌+◌, ◌*◌, ◌<◌, ◌≤◌, ◌++◌, length, OnOk};
ghost use Rattle.tacho_card.specs.ActivityChangeInfo.{time_of};
ghost use Rattle.tacho_card.specs.RawSpans.{span_of_mark};
ghost use Rattle.tacho_card.specs.DailyRecord.{is_length as length_test, is_read_day as day_test, record_day, words_fault};
ghost use Rattle.tacho_time.specs.Limits.{last_day};

use crate::cyclic::{number_in, place_in};
use crate::fault::CardFault;
use crate::word::Word;
use std::alloc::AllocError;
use std::marker::Model;
use tacho_time::{Day, FIRST_DAY, LAST_DAY, Mark, Minute, Span};

/// CardActivityDailyRecord (Annex IC, Appendix 1), borrowed from the buffer: the changes of activity of a day.
#[derive(Drop)]
pub struct Record<'a> {
    buffer: &'a [u8],
    place: usize,
    count: usize,
}

impl<'a> Model for Record<'a> {
    ghost use Rattle.std.specs.Prelude.{◌≡◌, ◌+◌, ◌*◌, ◌<◌, ◌≤◌, length, None, IsTrue};
    ghost use Rattle.tacho_card.specs.DailyRecord.{DailyRecord, is_read_day, record_day, words_fault};

    ghost Value = { DailyRecord };

    ghost view = { λ r. record { buffer = r.buffer.now; place = r.place; count = r.count } };

    ghost invariant = { λ r.
        (r.place < length r.buffer.now) × (12 + 2 * r.count ≤ length r.buffer.now) × (length r.buffer.now < 65536)
        × IsTrue (is_read_day (record_day r.buffer.now r.place)) × (words_fault r.buffer.now r.place 0 0 r.count ≡ None) };
}

impl<'a> Record<'a> {
    ghost use Rattle.std.specs.Prelude.{◌≡◌, ◌<◌, ◌≤◌, ◌++◌, length, OnOk, OnErr};
    ghost use Rattle.tacho_card.specs.DailyRecord.{record_day, word_at, record_at};
    ghost use Rattle.tacho_card.specs.RawSpans.{record_spans};

    /// Returns the place at which the record begins in the buffer.
    pub fn place(&self) -> usize
        ensures { result ≡ self.now.place }
    {
        self.place
    }

    /// Returns the day of the record.
    pub fn day(&self) -> Day
        ensures { result ≡ record_day self.now.buffer self.now.place }
    {
        Day::new(day_in(self.buffer, self.place))
    }

    /// Returns the number of words in the record.
    pub fn count(&self) -> usize
        ensures { result ≡ self.now.count }
    {
        self.count
    }

    /// Returns the i-th word, counted from 0. From `count` on, these are the bytes of the buffer after the record.
    pub fn word(&self, i: usize) -> Word
        ensures { result ≡ word_at self.now.buffer self.now.place i }
    {
        let i = place_in(self.buffer, i);
        Word::of(number_in(self.buffer, self.place + 12 + 2 * i))
    }

    /// Reads the record at a place, if the records before it leave `left` bytes of the buffer, or returns its first fault.
    #[tactic(auto, unfolding(crate::specs::DailyRecord::record_at))]
    pub(crate) fn at(buffer: &'a [u8], place: usize, left: usize) -> Result<Record<'a>, CardFault>
        requires size { 12 ≤ length buffer.now }
        requires limit { length buffer.now < 65536 }
        requires place { place < length buffer.now }
        ensures { result ≡ record_at buffer.now place left }
    {
        let len = number_in(buffer, place + 2) as usize;
        if !is_length(buffer.len(), len) {
            return Err(CardFault::RecordLength(place));
        }
        if len > left {
            return Err(CardFault::Chain(place));
        }
        if !is_read_day(day_in(buffer, place)) {
            return Err(CardFault::DayRange(place));
        }
        let count = (len - 12) / 2;
        match fault_of_words(buffer, place, count) {
            Some(fault) => Err(fault),
            None => Ok(Record {
                buffer,
                place,
                count,
            }),
        }
    }

    /// Appends what each word gives: its mark from its minute to that of the next word, or to the end of the day.
    pub(crate) fn append_spans(
        &self,
        spans: &mut Vec<Span>,
        is_newest: bool,
    ) -> Result<(), AllocError>
        ensures { OnOk result (spans.new.items ≡ spans.old.items ++ record_spans is_newest self.now) }
    {
        let midnight = self.day().number() * 1440;
        let mut word = self.word(0);
        for i in 0..self.count {
            let is_last = i + 1 == self.count;
            let next = self.word(i + 1);
            let past = if is_last {
                Minute::new(midnight + 1440)
            } else {
                minute_from(midnight, next)
            };
            let mark = if is_newest && is_last {
                None
            } else {
                word.mark()
            };
            append_marked(spans, minute_from(midnight, word), past, mark)?;
            word = next;
        }
        Ok(())
    }
}

/// Returns the minute from which a word holds, on the day that begins at `midnight`.
fn minute_from(midnight: u32, word: Word) -> Minute
    requires { midnight ≤ 1440 * last_day }
    ensures { result ≡ midnight + time_of word }
{
    Minute::new(midnight + word.minute() as u32)
}

/// Appends a span with this mark, if there is a mark.
fn append_marked(
    spans: &mut Vec<Span>,
    start: Minute,
    past: Minute,
    mark: Option<Mark>,
) -> Result<(), AllocError>
    ensures { OnOk result (spans.new.items ≡ spans.old.items ++ span_of_mark start past mark) }
{
    if let Some(mark) = mark {
        spans.push(Span { start, past, mark })?;
    }
    Ok(())
}

/// Returns the day of the record at a place.
fn day_in(buffer: &[u8], place: usize) -> u32
    requires size { 12 ≤ length buffer.now }
    requires limit { length buffer.now < 65536 }
    requires place { place < length buffer.now }
    ensures { result ≡ record_day buffer.now place }
{
    let seconds = number_in(buffer, place + 4) as u32 * 65536 + number_in(buffer, place + 6) as u32;
    seconds / 86400
}

/// Returns true if a record may have this length.
fn is_length(size: usize, len: usize) -> bool
    ensures { result ≡ length_test size len }
{
    12 <= len && len % 2 == 0 && len <= size
}

/// Returns true if a day is in the range that can be read.
fn is_read_day(day: u32) -> bool
    ensures { result ≡ day_test day }
{
    FIRST_DAY <= day && day <= LAST_DAY
}

/// Returns the first fault of the words of the record at a place.
fn fault_of_words(buffer: &[u8], place: usize, count: usize) -> Option<CardFault>
    requires size { 12 ≤ length buffer.now }
    requires limit { length buffer.now < 65536 }
    requires place { place < length buffer.now }
    requires count { count < 65536 }
    ensures { result ≡ words_fault buffer.now place 0 0 count }
{
    let mut before = 0;
    for i in 0..count {
        let at = place + 12 + 2 * i;
        let minute = Word::of(number_in(buffer, at)).minute();
        if minute >= 1440 {
            return Some(CardFault::WordMinute(at % buffer.len()));
        }
        if minute < before {
            return Some(CardFault::WordOrder(at % buffer.len()));
        }
        before = minute;
    }
    None
}
