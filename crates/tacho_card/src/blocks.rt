ghost use Rattle.std.specs.Prelude.{◌≡◌, ◌≤◌, false, length, drop, Some, None};
ghost use Rattle.tacho_card.specs.CardFile.{front_length as length_of_front, is_cut as cut_test, front_block as block_at_front, holder_of};
ghost use Rattle.tacho_card.specs.Singles.{single_place as place_of_single};

use crate::fault::CardFault;
use byteorder::{BigEndian, ByteOrder};
use std::marker::Model;

/// The identifier of EF Driver_Activity_Data.
pub(crate) const ACTIVITY_DATA: u16 = 0x0504;

/// The identifier of EF Identification.
pub(crate) const IDENTIFICATION: u16 = 0x0520;

/// A block of a card file, borrowed from the file's bytes.
#[derive(Drop)]
pub struct Block<'a> {
    identifier: u16,
    kind: u8,
    value: &'a [u8],
}

impl<'a> Model for Block<'a> {
    ghost use Rattle.std.specs.Prelude.{◌<◌, length};
    ghost use Rattle.tacho_card.specs.CardFile.{FileBlock};

    ghost Value = { FileBlock };

    ghost view = { λ b. record { identifier = b.identifier; kind = b.kind; value = b.value.now } };

    ghost invariant = { λ b. length b.value.now < 65536 };
}

impl<'a> Block<'a> {
    ghost use Rattle.std.specs.Prelude.{◌≡◌, ◌<◌, length};

    /// Returns the identifier of the block's elementary file.
    pub fn identifier(&self) -> u16
        ensures { result ≡ self.now.identifier }
    {
        self.identifier
    }

    /// Returns what the block contains: data (00 for the first generation, 02 for the second) or a signature (01 and 03).
    pub fn kind(&self) -> u8
        ensures { result ≡ self.now.kind }
    {
        self.kind
    }

    /// Returns the bytes of the value: fewer than 65,536.
    pub fn value(&self) -> &'a [u8]
        ensures is { result.now ≡ self.now.value }
        ensures short { length result.now < 65536 }
    {
        self.value
    }
}

/// The blocks of a card file, in order.
#[derive(Drop)]
pub struct Blocks<'a> {
    rest: &'a [u8],
}

impl<'a> Model for Blocks<'a> {
    ghost use Rattle.std.specs.Prelude.{◌≡◌, List, Ok};
    ghost use Rattle.tacho_card.specs.CardFile.{FileBlock, blocks_of, blocks_or_none};

    ghost Value = { List FileBlock };

    ghost view = { λ b. blocks_or_none (blocks_of b.rest.now) };

    ghost invariant = { λ b. blocks_of b.rest.now ≡ Ok (blocks_or_none (blocks_of b.rest.now)) };
}

impl<'a> Blocks<'a> {
    ghost use Rattle.std.specs.Prelude.{◌≡◌, ◌<◌, [], length, option_map, IfSome};
    ghost use Rattle.tacho_card.specs.CardFile.{blocks_of, first_repeat as first_repeated, value_of as first_value, file_holder};

    /// Returns the blocks of these bytes, or C1.
    pub(crate) fn read(bytes: &'a [u8]) -> Result<Blocks<'a>, CardFault>
        ensures { result ≡ blocks_of bytes.now }
    {
        let mut offset = 0;
        while offset < bytes.len() {
            let rest = &bytes[offset..];
            if is_cut(rest) {
                return Err(CardFault::Truncated(offset));
            }
            offset += front_length(rest);
        }
        Ok(Blocks { rest: bytes })
    }

    /// Returns the same blocks again.
    pub(crate) fn again(&self) -> Blocks<'a>
        ensures { result ≡ self.now }
    {
        Blocks { rest: self.rest }
    }

    /// Returns the first block that repeats an earlier one, of those that a file may have only once.
    pub(crate) fn repeated(&self) -> Option<Block<'a>>
        ensures { result ≡ first_repeated [] self.now }
    {
        let mut seen = [false; 4];
        for block in self.again() {
            if let Some(place) = single_place(&block) {
                if seen[place] {
                    return Some(block);
                }
                seen[place] = true;
            }
        }
        None
    }

    /// Returns the value of the first block with this identifier and kind.
    pub(crate) fn value_of(&self, identifier: u16, kind: u8) -> Option<&'a [u8]>
        ensures is { option_map (λ value. value.now) result ≡ first_value identifier kind self.now }
        ensures short { IfSome result (λ value. length value.now < 65536) }
    {
        for block in self.again() {
            if block.identifier == identifier && block.kind == kind {
                return Some(block.value());
            }
        }
        None
    }

    /// Returns the holder that the identifications name, or the first of C3, C4 and C5.
    pub(crate) fn holder(&self) -> Result<[u8; 15], CardFault>
        ensures { result ≡ file_holder self.now }
    {
        let first = self.value_of(IDENTIFICATION, 0);
        let second = self.value_of(IDENTIFICATION, 2);
        match (first, second) {
            (None, None) => Err(CardFault::NoIdentification),
            (Some(value), None) | (None, Some(value)) => holder_in(value),
            (Some(first), Some(second)) => same_holder(first, second),
        }
    }
}

impl<'a> Iterator for Blocks<'a> {
    ghost use Rattle.std.specs.Iterator.{YieldsFirst, item_count};

    type Item = Block<'a>;

    ghost next_gives = { YieldsFirst (λ blocks. blocks) };

    ghost remaining = { item_count (λ blocks. blocks) };

    fn next(&mut self) -> Option<Block<'a>> {
        if self.rest.is_empty() {
            return None;
        }
        let block = front_block(self.rest);
        self.rest = after_front(self.rest);
        Some(block)
    }
}

/// Returns the number of bytes of the block at the front, as its head says.
fn front_length(bytes: &[u8]) -> usize
    requires { 5 ≤ length bytes.now }
    ensures { result ≡ length_of_front bytes.now }
{
    5 + BigEndian::read_u16(&bytes[3..]) as usize
}

/// Returns true if the head or the value of the block at the front extends past the end.
fn is_cut(bytes: &[u8]) -> bool
    ensures { result ≡ cut_test bytes.now }
{
    bytes.len() < 5 || bytes.len() < front_length(bytes)
}

/// Returns the block at the front.
fn front_block<'a>(bytes: &'a [u8]) -> Block<'a>
    requires { cut_test bytes.now ≡ false }
    ensures { result ≡ block_at_front bytes.now }
{
    Block {
        identifier: BigEndian::read_u16(bytes),
        kind: bytes[2],
        value: &bytes[5..front_length(bytes)],
    }
}

/// Returns the bytes after the block at the front.
fn after_front<'a>(bytes: &'a [u8]) -> &'a [u8]
    requires { cut_test bytes.now ≡ false }
    ensures { result.now ≡ drop (length_of_front bytes.now) bytes.now }
{
    &bytes[front_length(bytes)..]
}

/// Returns the number of a block, if it is one of the four that a file may have only once.
fn single_place(block: &Block) -> Option<usize>
    ensures { result ≡ place_of_single block.now }
{
    match (block.identifier, block.kind) {
        (ACTIVITY_DATA, 0) => Some(0),
        (ACTIVITY_DATA, 2) => Some(1),
        (IDENTIFICATION, 0) => Some(2),
        (IDENTIFICATION, 2) => Some(3),
        _ => None,
    }
}

/// Returns the holder that an identification names, or C4.
fn holder_in(value: &[u8]) -> Result<[u8; 15], CardFault>
    ensures { result ≡ holder_of (Some value.now) None }
{
    if value.len() < 17 {
        return Err(CardFault::ShortIdentification);
    }
    let mut holder = [0; 15];
    holder.copy_from_slice(&value[..15]);
    Ok(holder)
}

/// Returns the holder that both identifications name, or the first of C4 and C5.
fn same_holder(first: &[u8], second: &[u8]) -> Result<[u8; 15], CardFault>
    ensures { result ≡ holder_of (Some first.now) (Some second.now) }
{
    let holder = holder_in(first)?;
    if holder != holder_in(second)? {
        return Err(CardFault::TwoCards);
    }
    Ok(holder)
}
