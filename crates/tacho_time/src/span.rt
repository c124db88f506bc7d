ghost use Rattle.std.specs.Prelude.{◌≡◌};
ghost use Rattle.tacho_time.specs.Text.{activity_name, manning_name};
ghost use Rattle.tacho_time.specs.Merge.{same_mark};

use crate::minute::Minute;

/// What a driver does (Regulation (EU) 2016/799, Annex IC, Appendix 1, ActivityChangeInfo).
#[derive(Clone, Copy, Debug, PartialEq, Eq)]
pub enum Activity {
    /// Break or rest.
    Rest,
    /// Availability.
    Available,
    /// Other work.
    Work,
    /// Driving.
    Drive,
}

impl Activity {
    /// `rest`, `available`, `work` or `drive`.
    pub fn name(self) -> &'static str
        ensures { result.now ≡ activity_name self }
    {
        match self {
            Activity::Rest => "rest",
            Activity::Available => "available",
            Activity::Work => "work",
            Activity::Drive => "drive",
        }
    }
}

/// What is recorded for a minute.
#[derive(Clone, Copy, Debug, PartialEq, Eq)]
pub struct Mark {
    /// What the driver did.
    pub activity: Activity,
    /// True if there was a second driver (crew), false if the driver was alone (single).
    pub crew: bool,
}

impl Mark {
    /// `single` or `crew`.
    pub fn manning(self) -> &'static str
        ensures { result.now ≡ manning_name self.crew }
    {
        if self.crew { "crew" } else { "single" }
    }

    /// Returns true if the marks are the same.
    pub fn is_same(self, other: Mark) -> bool
        ensures { result ≡ same_mark self other }
    {
        self == other
    }
}

/// The minutes from `start` to before `past`, with one mark. A span may be empty.
#[derive(Clone, Copy, Debug, PartialEq, Eq)]
pub struct Span {
    pub start: Minute,
    pub past: Minute,
    pub mark: Mark,
}
