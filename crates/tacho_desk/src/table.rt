//! The table of commands. The command line, the requests, the man page and the lists of the checks are made from it.

ghost use Rattle.std.specs.Prelude.{◌≡◌, map};
ghost use Rattle.tacho_desk.specs.Commands.{all_commands, row_of};

use self::Act::{AtDesk, Card, Carry, Check, Dump, Holder, Init, Listen, Migrate, Serve, Version};
use crate::argument::Argument::{
    self, AnyDate, AnyDriver, AnyLast, Archive, Count, Date, DateOfTime, Driver, From, Month, New,
    Number, Part, Past, Port, Since, Time,
};
use crate::want::MonthOfAll::{Incidents, Overview, Standing};
use crate::want::MonthReading::{Chart, Gaps, Sheet, Spans, Why};
use crate::want::Reading::{Breaches, Debts, Entries, Files, Owed, Stretches};
use crate::want::Want::{
    self, Ahead, Base, Drivers, Enter, File, Forecast, Form, Handover, Import, Key, MonthOfAll,
    MonthReading, Name, Reading, Register, Withdraw,
};

/// What a command does.
#[derive(Clone, Copy)]
pub enum Act {
    /// Prints the spans of a value of EF Driver_Activity_Data.
    Dump,
    /// Prints the holder of a card file.
    Holder,
    /// Prints the spans of a card file.
    Card,
    /// Makes an archive.
    Init,
    /// Migrates an archive of schema 1.
    Migrate,
    /// Checks an archive's tables.
    Check,
    /// Makes a new archive of what is needed of an archive from a day on.
    Carry,
    /// Does a task at an archive.
    AtDesk(Want),
    /// Answers requests, with the office's key as an argument.
    Serve,
    /// Answers requests, with the office's key from the input.
    Listen,
    /// Prints the version.
    Version,
}

/// A command. A request asks for the same at its path, where a part in braces stands for the number of a driver, for the
/// other argument, or for the one after it.
/// The method is POST if the command changes the archive, and GET otherwise.
#[derive(Clone, Copy)]
pub struct Command {
    /// The name on the command line.
    pub name: &'static str,
    /// The description for the user.
    pub about: &'static str,
    /// The arguments, in order.
    pub arguments: &'static [Argument],
    pub act: Act,
    /// The paths of the requests. Those of a driver begin with `/me/`, the others are the office's.
    pub paths: &'static [&'static str],
}

/// The commands.
static COMMANDS: [Command; 37] = [
    Command {
        name: "dump",
        about: "Prints the spans in the value of an EF Driver_Activity_Data (0504), one per line",
        arguments: &[],
        act: Dump,
        paths: &[],
    },
    Command {
        name: "holder",
        about: "Prints the holder in a card file, as 30 hexadecimal digits",
        arguments: &[],
        act: Holder,
        paths: &[],
    },
    Command {
        name: "card",
        about: "Prints the spans in a card file, one per line",
        arguments: &[Part],
        act: Card,
        paths: &[],
    },
    Command {
        name: "init",
        about: "Creates an archive without drivers, in a new or empty file",
        arguments: &[Archive],
        act: Init,
        paths: &[],
    },
    Command {
        name: "migrate",
        about: "Converts an archive of an earlier schema to this program's; make a backup first",
        arguments: &[Archive],
        act: Migrate,
        paths: &[],
    },
    Command {
        name: "check",
        about: "Checks all rows of an archive: prints sound, or unsound with the first driver and table whose rows can't be right",
        arguments: &[Archive],
        act: Check,
        paths: &[],
    },
    Command {
        name: "carry",
        about: "Makes an archive in a new file of what is needed from a day on; the old archive doesn't change",
        arguments: &[Archive, New, Since],
        act: Carry,
        paths: &[],
    },
    Command {
        name: "register",
        about: "Adds a driver: CSV with the head driver,holder,key,base,name",
        arguments: &[Archive],
        act: AtDesk(Register),
        paths: &["/drivers"],
    },
    Command {
        name: "import",
        about: "Adds a driver's card file",
        arguments: &[Archive, Part],
        act: AtDesk(Import),
        paths: &["/cards/{word}", "/me/cards/{word}"],
    },
    Command {
        name: "enter",
        about: "Enters a driver's hours by hand: CSV with the head start,past,activity or start,past,activity,author,note",
        arguments: &[Archive, Driver],
        act: AtDesk(Enter),
        paths: &["/drivers/{driver}/entries"],
    },
    Command {
        name: "withdraw",
        about: "Withdraws an entry, or all from one number to another; they stay listed and give no more hours",
        arguments: &[Archive, Driver, Number, AnyLast],
        act: AtDesk(Withdraw),
        paths: &[
            "/drivers/{driver}/withdraw/{word}",
            "/drivers/{driver}/withdraw/{word}/{next}",
        ],
    },
    Command {
        name: "base",
        about: "Sets the Monday from which a driver's hours are examined",
        arguments: &[Archive, Driver, Date],
        act: AtDesk(Base),
        paths: &["/drivers/{driver}/base/{word}"],
    },
    Command {
        name: "key",
        about: "Sets a driver's key, the only line of its input",
        arguments: &[Archive, Driver],
        act: AtDesk(Key),
        paths: &["/drivers/{driver}/key"],
    },
    Command {
        name: "name",
        about: "Sets a driver's name, the only line of its input",
        arguments: &[Archive, Driver],
        act: AtDesk(Name),
        paths: &["/drivers/{driver}/name"],
    },
    Command {
        name: "spans",
        about: "Prints the spans of a driver's month as CSV",
        arguments: &[Archive, Driver, Month],
        act: AtDesk(MonthReading(Spans)),
        paths: &["/drivers/{driver}/spans/{word}", "/me/spans/{word}"],
    },
    Command {
        name: "gaps",
        about: "Prints the gaps in a driver's month, for which the archive has no hours",
        arguments: &[Archive, Driver, Month],
        act: AtDesk(MonthReading(Gaps)),
        paths: &["/drivers/{driver}/gaps/{word}", "/me/gaps/{word}"],
    },
    Command {
        name: "sheet",
        about: "Prints the sheet of a driver's month, with its totals and breaches",
        arguments: &[Archive, Driver, Month],
        act: AtDesk(MonthReading(Sheet)),
        paths: &["/drivers/{driver}/sheet/{word}", "/me/sheet/{word}"],
    },
    Command {
        name: "chart",
        about: "Draws a driver's month as SVG, with a row for each day, and the breaches",
        arguments: &[Archive, Driver, Month],
        act: AtDesk(MonthReading(Chart)),
        paths: &["/drivers/{driver}/chart/{word}", "/me/chart/{word}"],
    },
    Command {
        name: "breaches",
        about: "Prints a driver's breaches up to the end of the first examination",
        arguments: &[Archive, Driver],
        act: AtDesk(Reading(Breaches)),
        paths: &["/drivers/{driver}/breaches", "/me/breaches"],
    },
    Command {
        name: "why",
        about: "Prints the breaches of a driver's month, each with the evidence for it",
        arguments: &[Archive, Driver, Month],
        act: AtDesk(MonthReading(Why)),
        paths: &["/drivers/{driver}/why/{word}", "/me/why/{word}"],
    },
    Command {
        name: "owed",
        about: "Prints the rest that a driver owes or has paid, up to the end of the first examination",
        arguments: &[Archive, Driver],
        act: AtDesk(Reading(Owed)),
        paths: &["/drivers/{driver}/owed", "/me/owed"],
    },
    Command {
        name: "entries",
        about: "Prints a driver's entries, also those withdrawn",
        arguments: &[Archive, Driver],
        act: AtDesk(Reading(Entries)),
        paths: &["/drivers/{driver}/entries", "/me/entries"],
    },
    Command {
        name: "file",
        about: "Prints a card file as it was imported",
        arguments: &[Archive, Driver, Number],
        act: AtDesk(File),
        paths: &["/drivers/{driver}/files/{word}", "/me/files/{word}"],
    },
    Command {
        name: "files",
        about: "Prints a driver's card files, one per line: number, part, length in bytes, first minute, past, and SHA-256",
        arguments: &[Archive, Driver],
        act: AtDesk(Reading(Files)),
        paths: &["/drivers/{driver}/files", "/me/files"],
    },
    Command {
        name: "handover",
        about: "Prints a tar file for an inspection: a driver's card files that cover the days from FROM to before PAST, their entries, and a list of contents",
        arguments: &[Archive, Driver, From, Past],
        act: AtDesk(Handover),
        paths: &[
            "/drivers/{driver}/handover/{word}/{next}",
            "/me/handover/{word}/{next}",
        ],
    },
    Command {
        name: "drivers",
        about: "Prints the drivers, or one of them, one per line: number, holder, base, how many card files and entries, and name",
        arguments: &[Archive, AnyDriver],
        act: AtDesk(Drivers),
        paths: &["/drivers", "/drivers/{driver}", "/me/driver"],
    },
    Command {
        name: "stretches",
        about: "Prints a driver's breaches by all examinations, and what isn't examined",
        arguments: &[Archive, Driver],
        act: AtDesk(Reading(Stretches)),
        paths: &["/drivers/{driver}/stretches", "/me/stretches"],
    },
    Command {
        name: "debts",
        about: "Prints the rest that a driver owes or has paid, by all examinations",
        arguments: &[Archive, Driver],
        act: AtDesk(Reading(Debts)),
        paths: &["/drivers/{driver}/debts", "/me/debts"],
    },
    Command {
        name: "ahead",
        about: "Prints how much is left until the limit of each rule if a driver drives on from a minute, and what is used and owed by then",
        arguments: &[Archive, Driver, DateOfTime, Time],
        act: AtDesk(Ahead),
        paths: &[
            "/drivers/{driver}/ahead/{word}/{next}",
            "/me/ahead/{word}/{next}",
        ],
    },
    Command {
        name: "forecast",
        about: "Prints for all drivers, as CSV, the minute of the limit of each rule if they drive on from a minute, and what is used by then",
        arguments: &[Archive, DateOfTime, Time],
        act: AtDesk(Forecast),
        paths: &["/forecast/{word}/{next}"],
    },
    Command {
        name: "standing",
        about: "Prints all drivers as CSV: how far each is held and examined, gaps, the breaches of a month and of the month before, and open debts",
        arguments: &[Archive, Month],
        act: AtDesk(MonthOfAll(Standing)),
        paths: &["/standing/{word}"],
    },
    Command {
        name: "overview",
        about: "Prints a month of all drivers as CSV: what is held, how much of it is examined, and how many breaches there are of each rule",
        arguments: &[Archive, Month],
        act: AtDesk(MonthOfAll(Overview)),
        paths: &["/overview/{word}"],
    },
    Command {
        name: "incidents",
        about: "Prints the breaches of a month of all drivers as CSV",
        arguments: &[Archive, Month],
        act: AtDesk(MonthOfAll(Incidents)),
        paths: &["/incidents/{word}"],
    },
    Command {
        name: "form",
        about: "Prints a driver's gaps as CSV, to fill in and enter; with a date, those before that day",
        arguments: &[Archive, Driver, AnyDate],
        act: AtDesk(Form),
        paths: &[
            "/drivers/{driver}/form",
            "/drivers/{driver}/form/{word}",
            "/me/form",
            "/me/form/{word}",
        ],
    },
    Command {
        name: "serve",
        about: "Answers COUNT connections on PORT of 127.0.0.1, one request each: the office's with KEY, drivers' with their own keys",
        arguments: &[Archive, Argument::Key, Port, Count],
        act: Serve,
        paths: &[],
    },
    Command {
        name: "listen",
        about: "Does the same as serve, with the office's key as the only line of its input",
        arguments: &[Archive, Port, Count],
        act: Listen,
        paths: &[],
    },
    Command {
        name: "version",
        about: "Prints the version of this program, the schema of the archives that it makes, and the logic in which it is proved",
        arguments: &[],
        act: Version,
        paths: &["/version", "/me/version"],
    },
];

/// The commands, in the order in which the help lists them.
pub fn command_table() -> &'static [Command]
    ensures { map row_of result.now ≡ all_commands }
{
    COMMANDS.as_slice()
}
