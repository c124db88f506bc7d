/// An argument of a command.
#[derive(Clone, Copy)]
pub enum Argument {
    /// The path of the archive's file.
    Archive,
    /// The path of a new archive's file.
    New,
    /// The part of a card file.
    Part,
    /// The number of a driver.
    Driver,
    /// The number of a driver, or nothing.
    AnyDriver,
    /// The number of an entry or of a card file.
    Number,
    /// The number of the last entry of a range, or nothing.
    AnyLast,
    /// A day.
    Date,
    /// A day, or nothing.
    AnyDate,
    /// The first day of a period.
    From,
    /// The day after the last of a period.
    Past,
    /// The day from which an archive is carried over.
    Since,
    /// A month.
    Month,
    /// The day of a minute. The next argument is its time.
    DateOfTime,
    /// The time of a minute.
    Time,
    /// The office's key.
    Key,
    /// The port of a server.
    Port,
    /// How many connections a server answers.
    Count,
}

impl Argument {
    ghost use Rattle.std.specs.Prelude.{◌≡◌};
    ghost use Rattle.tacho_desk.specs.Commands.{name_of};

    /// The name in the usage. An argument that may be left out is in brackets.
    pub fn name(self) -> &'static str
        ensures { result.now ≡ name_of self }
    {
        match self {
            Argument::Archive => "ARCHIVE",
            Argument::New => "NEW",
            Argument::Part => "PART",
            Argument::Driver => "DRIVER",
            Argument::AnyDriver => "[DRIVER]",
            Argument::Number => "NUMBER",
            Argument::AnyLast => "[LAST]",
            Argument::Date => "DATE",
            Argument::AnyDate => "[DATE]",
            Argument::From => "FROM",
            Argument::Past => "PAST",
            Argument::Since => "DATE",
            Argument::Month => "MONTH",
            Argument::DateOfTime => "DATE",
            Argument::Time => "TIME",
            Argument::Key => "KEY",
            Argument::Port => "PORT",
            Argument::Count => "COUNT",
        }
    }
}
