ghost use Rattle.std.specs.Prelude.{◌≡◌, MatchResult, string_bytes};
ghost use Rattle.tacho_state.specs.Registration.{Registration, IsRegistration, IsFirstBad};

use crate::limits::{is_key, is_name};
use std::marker::Model;
use tacho_time::{Day, FIRST_DAY, LAST_DAY};

/// A column of a driver, or of hours that are entered by hand.
#[derive(Clone, Copy, Debug, PartialEq, Eq)]
pub enum Column {
    /// The driver's number: 1 to 999,999.
    Driver,
    /// The holder of the driver's card: fifteen bytes.
    Holder,
    /// The driver's key: 8 to 64 letters, digits and hyphens.
    Key,
    /// The day from which the driver is examined: 2000-01-03 to 2099-12-31.
    Base,
    /// The driver's name: 1 to 64 bytes, without control characters, commas and double quotes.
    Name,
    /// The author of an entry: 1 to 64 bytes, as for a name.
    Author,
    /// The note of an entry: at most 200 bytes, as for a name.
    Note,
}

/// A driver's registration: each column is within its limits.
#[derive(Debug, Drop)]
pub struct Driver {
    number: u32,
    holder: [u8; 15],
    key: String,
    base: Day,
    name: String,
}

impl Model for Driver {
    ghost use Rattle.std.specs.Prelude.{string_bytes};
    ghost use Rattle.tacho_state.specs.Registration.{Registration, IsRegistration};

    ghost Value = { Registration };

    ghost view = { λ d. record { number = d.number; holder = d.holder; key = string_bytes d.key; base = d.base; name = string_bytes d.name } };

    ghost invariant = { λ d. IsRegistration (record { number = d.number; holder = d.holder; key = string_bytes d.key; base = d.base; name = string_bytes d.name }) };
}

impl Driver {
    ghost use Rattle.std.specs.Prelude.{◌≡◌};

    /// Makes a driver from these columns, or returns the first column that is out of its limits. Allocates no memory.
    pub fn new(
        number: u32,
        holder: [u8; 15],
        key: String,
        base: Day,
        name: String,
    ) -> Result<Driver, Column>
        ensures { let columns : Registration = record { number = number; holder = holder; key = string_bytes key; base = base; name = string_bytes name } in
            MatchResult result (λ driver. (driver ≡ columns) × IsRegistration columns) (IsFirstBad columns) }
    {
        if number < 1 || number > 999_999 {
            return Err(Column::Driver);
        }
        if !is_key(&key) {
            return Err(Column::Key);
        }
        if base.number() < FIRST_DAY || base.number() > LAST_DAY {
            return Err(Column::Base);
        }
        if !is_name(&name) {
            return Err(Column::Name);
        }
        Ok(Driver {
            number,
            holder,
            key,
            base,
            name,
        })
    }

    /// Returns the driver's number.
    pub fn number(&self) -> u32
        ensures { result ≡ self.now.number }
    {
        self.number
    }

    /// Returns the holder of the driver's card.
    pub fn holder(&self) -> &[u8]
        ensures { result.now ≡ self.now.holder }
    {
        &self.holder
    }

    /// Returns the driver's key.
    pub fn key(&self) -> &str
        ensures { result.now ≡ self.now.key }
    {
        &self.key
    }

    /// Returns the day from which the driver is examined.
    pub fn base(&self) -> Day
        ensures { result ≡ self.now.base }
    {
        self.base
    }

    /// Returns the driver's name.
    pub fn name(&self) -> &str
        ensures { result.now ≡ self.now.name }
    {
        &self.name
    }
}
