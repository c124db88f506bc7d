ghost use Rattle.std.specs.Prelude.{◌≡◌, ◌<◌, length, option_map, IfSome};
ghost use Rattle.tacho_card.specs.CardFile.{read_value as value_reading};

use crate::blocks::{ACTIVITY_DATA, Blocks};
use crate::cyclic::Cyclic;
use crate::fault::CardFault;
use std::marker::Model;

/// Which generation's activity data is read.
#[derive(Clone, Copy, Debug, PartialEq, Eq)]
pub enum Part {
    /// The activity data of the Tachograph application (kind 00).
    First,
    /// The activity data of Tachograph_G2 (kind 02).
    Second,
    /// Whichever of the two the file has.
    Both,
}

/// A card download file (Annex IC, Appendix 7), borrowed from its bytes: blocks laid end to end.
#[derive(Drop)]
pub struct CardFile<'a> {
    blocks: Blocks<'a>,
}

impl<'a> Model for CardFile<'a> {
    ghost use Rattle.std.specs.Prelude.{◌≡◌, List, Ok};
    ghost use Rattle.tacho_card.specs.CardFile.{FileBlock, then_single, then_held};

    ghost Value = { List FileBlock };

    ghost view = { λ f. f.blocks };

    ghost invariant = { λ f. then_held (then_single (Ok f.blocks)) ≡ Ok f.blocks };
}

impl<'a> CardFile<'a> {
    ghost use Rattle.std.specs.Prelude.{◌≡◌, Ok};
    ghost use Rattle.tacho_card.specs.CardFile.{card_file, file_holder, chosen_activity};

    /// Reads a file from these bytes, or returns the first of C1 to C5.
    pub fn read(bytes: &'a [u8]) -> Result<CardFile<'a>, CardFault>
        ensures { result ≡ card_file bytes.now }
    {
        let blocks = Blocks::read(bytes)?;
        if let Some(block) = blocks.repeated() {
            return Err(CardFault::Twice(block.identifier(), block.kind()));
        }
        blocks.holder()?;
        Ok(CardFile { blocks })
    }

    /// Returns the file's blocks.
    pub fn blocks(&self) -> Blocks<'a>
        ensures { result ≡ self.now }
    {
        self.blocks.again()
    }

    /// Returns the holder that the identifications name: cardIssuingMemberState and driverIdentification, 15 bytes.
    pub fn holder(&self) -> [u8; 15]
        ensures { file_holder self.now ≡ Ok result }
    {
        match self.blocks.holder() {
            Ok(holder) => holder,
            Err(_) => unreachable!(),
        }
    }

    /// Returns the activity data of a part, first generation before second, or the first of C6, C7 and C8.
    pub fn activity(&self, part: Part) -> Result<[Option<Cyclic<'a>>; 2], CardFault>
        ensures { result ≡ chosen_activity part self.now }
    {
        let first = match part {
            Part::First | Part::Both => self.blocks.value_of(ACTIVITY_DATA, 0),
            Part::Second => None,
        };
        let second = match part {
            Part::Second | Part::Both => self.blocks.value_of(ACTIVITY_DATA, 2),
            Part::First => None,
        };
        if first.is_none() && second.is_none() {
            return Err(CardFault::NoActivity);
        }
        Ok([read_value(first)?, read_value(second)?])
    }
}

/// Reads the data of a value, if there is a value, or returns the first of C7 and C8.
fn read_value<'a>(value: Option<&'a [u8]>) -> Result<Option<Cyclic<'a>>, CardFault>
    requires { IfSome value (λ bytes. length bytes.now < 65536) }
    ensures { result ≡ value_reading (option_map (λ bytes. bytes.now) value.entry) }
{
    match value {
        None => Ok(None),
        Some(bytes) => Ok(Some(Cyclic::read(bytes)?)),
    }
}
