use crate::cyclic::number_in;
use crate::fault::CardFault;
use crate::record::Record;
use std::marker::Model;

/// The records of a chain from the oldest to the newest, followed by its fault if it has one.
#[derive(Drop)]
pub struct Records<'a> {
    buffer: &'a [u8],
    newest: usize,
    place: usize,
    left: usize,
    ended: bool,
}

impl<'a> Model for Records<'a> {
    ghost use Rattle.std.specs.Prelude.{◌+◌, ◌<◌, ◌≤◌, length, List, [], Result, if◌then◌else◌};
    ghost use Rattle.tacho_card.specs.DailyRecord.{DailyRecord};
    ghost use Rattle.tacho_card.specs.Chain.{chain_from};
    ghost use Rattle.tacho_card.specs.declared.fault.CardFault.{CardFault as Fault};

    ghost Value = { List (Result DailyRecord Fault) };

    ghost view = { λ r. if r.ended then [] else chain_from (r.left + 1) r.buffer.now r.newest r.place r.left };

    ghost invariant = { λ r. (12 ≤ length r.buffer.now) × (length r.buffer.now < 65536) × (r.place < length r.buffer.now) };
}

impl<'a> Records<'a> {
    ghost use Rattle.std.specs.Prelude.{◌≡◌, ◌+◌, ◌<◌, ◌≤◌, length, [], if◌then◌else◌};
    ghost use Rattle.tacho_card.specs.Chain.{chain_from};

    /// Returns the records from a place on, if `left` bytes of the buffer are left, or none if the chain has ended.
    pub(crate) fn from(
        buffer: &'a [u8],
        newest: usize,
        place: usize,
        left: usize,
        ended: bool,
    ) -> Records<'a>
        requires size { 12 ≤ length buffer.now }
        requires limit { length buffer.now < 65536 }
        requires place { place < length buffer.now }
        ensures { result ≡ (if ended then [] else chain_from (left + 1) buffer.now newest place left) }
    {
        Records {
            buffer,
            newest,
            place,
            left,
            ended,
        }
    }
}

impl<'a> Iterator for Records<'a> {
    ghost use Rattle.std.specs.Iterator.{YieldsFirst, item_count};

    type Item = Result<Record<'a>, CardFault>;

    ghost next_gives = { YieldsFirst (λ items. items) };

    ghost remaining = { item_count (λ items. items) };

    fn next(&mut self) -> Option<Result<Record<'a>, CardFault>> {
        if self.ended {
            return None;
        }
        match Record::at(self.buffer, self.place, self.left) {
            Err(fault) => {
                self.ended = true;
                Some(Err(fault))
            }
            Ok(record) => {
                let len = number_in(self.buffer, self.place + 2) as usize;
                if self.place == self.newest {
                    self.ended = true;
                } else {
                    self.place = (self.place + len) % self.buffer.len();
                    self.left -= len;
                }
                Some(Ok(record))
            }
        }
    }
}
