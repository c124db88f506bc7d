use tacho_desk::Wish;

/// A job at an existing archive. `perform_at_desk` reads its arguments.
#[derive(Clone, Copy, Debug, PartialEq, Eq)]
pub struct DeskJob<'a> {
    /// The path of the archive's file.
    pub archive: &'a str,
    pub wish: Wish<'a>,
}

/// What a command line asks for.
#[derive(Clone, Copy, Debug, PartialEq, Eq)]
pub enum Job<'a> {
    /// Prints the spans of a value of EF Driver_Activity_Data.
    Dump,
    /// Prints the holder of a card file.
    Holder,
    /// Prints the spans of a card file, read by the part that the text names.
    Card {
        part: &'a str,
    },
    /// Makes an archive without drivers in a new file.
    Init {
        archive: &'a str,
    },
    /// Migrates an archive of schema 1 to schema 2.
    Migrate {
        archive: &'a str,
    },
    /// Checks whether an archive's tables represent a state.
    Check {
        archive: &'a str,
    },
    /// Makes an archive in the new file of what is needed of an archive from the day on that the text names.
    Carry {
        archive: &'a str,
        new: &'a str,
        date: &'a str,
    },
    /// Does a task at an existing archive.
    AtDesk(DeskJob<'a>),
    /// Answers `count` connections on a port of 127.0.0.1, with the office's key and those of drivers.
    Serve {
        archive: &'a str,
        key: &'a str,
        port: u16,
        count: u32,
    },
    /// Answers `count` connections on a port of 127.0.0.1, with the office's key from standard input and those of drivers.
    Listen {
        archive: &'a str,
        port: u16,
        count: u32,
    },
    /// Prints the version of the program, of the archives that it makes, and of the logic in which it is proved.
    Version,
}

impl<'a> Job<'a> {
    ghost use Rattle.std.specs.Prelude.{◌≡◌, option_map};
    ghost use Rattle.tacho_cli.specs.Words.{archive_of, at_desk};

    /// True if the job is done at an existing archive.
    pub fn at_desk(&self) -> bool
        ensures { result ≡ at_desk self.now }
    {
        matches!(self, Job::AtDesk(_))
    }

    /// The path of the archive's file, if the job has one.
    pub fn archive(self) -> Option<&'a str>
        ensures { option_map (λ path. path.now) result ≡ archive_of self.entry }
    {
        match self {
            Job::Dump | Job::Holder | Job::Card { .. } | Job::Version => None,
            Job::Init { archive }
            | Job::Migrate { archive }
            | Job::Check { archive }
            | Job::Carry { archive, .. }
            | Job::AtDesk(DeskJob { archive, .. })
            | Job::Serve { archive, .. }
            | Job::Listen { archive, .. } => Some(archive),
        }
    }
}
