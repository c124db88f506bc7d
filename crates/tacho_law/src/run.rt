ghost use Rattle.std.specs.Prelude.{◌≡◌};
ghost use Rattle.tacho_law.specs.Debts.{minutes_before};

/// The end of the last rest run, which has no end: later than any minute.
pub const FAR: u32 = 4_294_967_295;

/// A maximal run of minutes at rest, from `start` to before `past`. The first one has no start, which is represented by 0, and the last one
/// has no end, which is represented by `FAR`.
#[derive(Clone, Copy, Debug, PartialEq, Eq)]
pub struct Run {
    pub start: u32,
    pub past: u32,
}

/// Returns how many minutes of a rest are before a minute.
pub fn known_minutes(rest: Run, end: u32) -> u32
    ensures { result ≡ minutes_before end rest }
{
    rest.past.min(end).saturating_sub(rest.start)
}
