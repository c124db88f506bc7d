ghost use Rattle.std.specs.Prelude.{◌≡◌, ◌<◌, ◌%◌, length};
ghost use Rattle.tacho_card.specs.DriverActivity.{byte_at, number_at};

use crate::fault::CardFault;
use crate::records::Records;
use byteorder::{BigEndian, ByteOrder};
use std::marker::Model;

/// CardDriverActivity (Annex IC, Appendix 1): two pointers and a cyclic buffer of records, borrowed from the file's bytes.
#[derive(Drop)]
pub struct Cyclic<'a> {
    oldest: usize,
    newest: usize,
    buffer: &'a [u8],
}

impl<'a> Model for Cyclic<'a> {
    ghost use Rattle.std.specs.Prelude.{◌<◌, ◌≤◌, length};
    ghost use Rattle.tacho_card.specs.DriverActivity.{DriverActivity};

    ghost Value = { DriverActivity };

    ghost view = { λ c. record { oldest = c.oldest; newest = c.newest; buffer = c.buffer.now } };

    ghost invariant = { λ c. (12 ≤ length c.buffer.now) × (length c.buffer.now < 65536) × (c.oldest < length c.buffer.now) × (c.newest < length c.buffer.now) };
}

impl<'a> Cyclic<'a> {
    ghost use Rattle.std.specs.Prelude.{◌≡◌, ◌≤◌, length};
    ghost use Rattle.tacho_card.specs.DriverActivity.{driver_activity, byte_at, number_at};
    ghost use Rattle.tacho_card.specs.Chain.{chain};

    /// Reads the data of a value's bytes, or returns the first of C7 and C8.
    pub fn read(bytes: &'a [u8]) -> Result<Cyclic<'a>, CardFault>
        requires { length bytes.now ≤ 65535 }
        ensures { result ≡ driver_activity bytes.now }
    {
        if bytes.len() < 16 {
            return Err(CardFault::ShortActivity);
        }
        let oldest = BigEndian::read_u16(bytes) as usize;
        let newest = BigEndian::read_u16(&bytes[2..]) as usize;
        let size = bytes.len() - 4;
        if size <= oldest || size <= newest {
            return Err(CardFault::Pointer);
        }
        Ok(Cyclic {
            oldest,
            newest,
            buffer: &bytes[4..],
        })
    }

    /// Returns the place of the newest record.
    pub(crate) fn newest(&self) -> usize
        ensures { result ≡ self.now.newest }
    {
        self.newest
    }

    /// Returns the byte at a place, which may wrap around at the buffer's end.
    pub fn byte(&self, i: usize) -> u8
        ensures { result ≡ byte_at self.now.buffer i }
    {
        byte_in(self.buffer, i)
    }

    /// Returns the number in the two bytes from a place on, the most significant first.
    pub fn number(&self, i: usize) -> u16
        ensures { result ≡ number_at self.now.buffer i }
    {
        number_in(self.buffer, i)
    }

    /// Returns the records from the oldest to the newest, followed by the fault of the chain if it has one.
    pub fn records(&self) -> Records<'a>
        ensures { result ≡ chain self.now }
    {
        let size = self.buffer.len();
        let is_empty = self.oldest == self.newest && self.number(self.oldest + 2) == 0;
        Records::from(self.buffer, self.newest, self.oldest, size, is_empty)
    }
}

/// Returns the byte at a place, which may wrap around at the end.
pub(crate) fn byte_in(buffer: &[u8], i: usize) -> u8
    requires { 0 < length buffer.now }
    ensures { result ≡ byte_at buffer.now i }
{
    buffer[place_in(buffer, i)]
}

/// Wraps a place around at the end. Most places are before the end, and take no division.
pub(crate) fn place_in(buffer: &[u8], i: usize) -> usize
    requires { 0 < length buffer.now }
    ensures value { result ≡ i % length buffer.now }
    ensures inside { result < length buffer.now }
{
    if i < buffer.len() {
        return i;
    }
    i % buffer.len()
}

/// Returns the number in the two bytes from a place on.
pub(crate) fn number_in(buffer: &[u8], i: usize) -> u16
    requires { 0 < length buffer.now }
    ensures { result ≡ number_at buffer.now i }
{
    let place = place_in(buffer, i);
    let bytes = [byte_in(buffer, place), byte_in(buffer, place + 1)];
    BigEndian::read_u16(&bytes)
}
