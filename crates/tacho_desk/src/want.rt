/// What a command of the program, or a request, can ask for at an archive.
#[derive(Clone, Copy, Debug, PartialEq, Eq)]
pub enum Want {
    /// Add a driver, given as CSV.
    Register,
    /// Import a card file, read by a part.
    Import,
    /// Enter a driver's hours, given as CSV.
    Enter,
    /// Withdraw a driver's entry, or a range of entries.
    Withdraw,
    /// Set a driver's base.
    Base,
    /// Set a driver's key, given as a line.
    Key,
    /// Set a driver's name, given as a line.
    Name,
    /// Read a text about a driver.
    Reading(Reading),
    /// Read the form for the minutes that a driver doesn't hold, to be filled in and entered.
    Form,
    /// Read a text about a driver's month.
    MonthReading(MonthReading),
    /// Read a text about a month of all drivers.
    MonthOfAll(MonthOfAll),
    /// Read the forecast for a driver from a minute on.
    Ahead,
    /// Read the forecast for all drivers from a minute on, as CSV.
    Forecast,
    /// Read a card file of the archive.
    File,
    /// Read what is handed over of a driver and a period, as a tar file.
    Handover,
    /// List all drivers, or one of them.
    Drivers,
    /// Read the version of the program.
    Version,
}

/// A text about a driver.
#[derive(Clone, Copy, Debug, PartialEq, Eq)]
pub enum Reading {
    /// The breaches of the rules.
    Breaches,
    /// The debts: compensation owed for reduced weekly rests.
    Owed,
    /// The hours that were entered by hand.
    Entries,
    /// The breaches of each stretch, and what isn't examined.
    Stretches,
    /// The debts of each stretch, and what isn't examined.
    Debts,
    /// The card files, with the SHA-256 digest of each.
    Files,
}

/// A text about a driver's month.
#[derive(Clone, Copy, Debug, PartialEq, Eq)]
pub enum MonthReading {
    /// What the driver holds, as CSV.
    Spans,
    /// The minutes that the driver doesn't hold.
    Gaps,
    /// The sheet of the month.
    Sheet,
    /// The chart of the month, as SVG.
    Chart,
    /// The breaches of the month, each with its evidence.
    Why,
}

/// A text about a month of all drivers, as CSV.
#[derive(Clone, Copy, Debug, PartialEq, Eq)]
pub enum MonthOfAll {
    /// A row for each driver: what is held and how far it is examined, the gaps, the number of breaches in the month and in the month before,
    /// and the open debts.
    Standing,
    /// A row for each driver: what they hold, how much of it is examined, and the number of breaches of each rule.
    Overview,
    /// A row for each breach.
    Incidents,
}

impl Want {
    ghost use Rattle.std.specs.Prelude.{◌≡◌};
    ghost use Rattle.tacho_desk.specs.Wants.{is_command, takes_input as has_input};

    /// Whether the task has an input: a text of CSV, a card file, a key or a name.
    pub fn takes_input(self) -> bool
        ensures { result ≡ has_input self }
    {
        matches!(
            self,
            Want::Register | Want::Import | Want::Enter | Want::Key | Want::Name
        )
    }

    /// Whether the task changes the archive.
    pub fn changes(self) -> bool
        ensures { result ≡ is_command self }
    {
        self.takes_input() || matches!(self, Want::Withdraw | Want::Base)
    }
}

/// What is asked for at an archive, with the texts of its arguments. A text for which the task has no argument is ignored.
#[derive(Clone, Copy, Debug, PartialEq, Eq)]
pub struct Wish<'a> {
    pub want: Want,
    /// The driver's number. It is ignored if a driver asks.
    pub driver: &'a [u8],
    /// The other argument: a part of a card file, a number, a day or a month. An empty text if there is none.
    pub word: &'a [u8],
    /// The argument after `word`: the time of a minute, the last number of a range, or the past of a period. An empty text if there is none.
    pub next: &'a [u8],
}
