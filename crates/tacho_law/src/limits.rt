//! The numbers of Regulation (EC) No 561/2006 (8(6) and 8(6b) as amended by (EU) 2020/1054), in minutes unless another unit is named.

/// A whole break (Article 7).
pub const WHOLE_BREAK: u32 = 45;

/// The first part of a break in two parts (Article 7).
pub const FIRST_PART_OF_BREAK: u32 = 15;

/// The last part of a break in two parts (Article 7).
pub const LAST_PART_OF_BREAK: u32 = 30;

/// The most driving before a break (Article 7).
pub const DRIVING_BEFORE_BREAK: u32 = 270;

/// The 24 hours within which a daily rest has to be taken (Article 8(2)).
pub const MINUTES_OF_DAY: u32 = 1440;

/// A regular daily rest (Article 4(g)).
pub const REGULAR_DAILY_REST: u32 = 660;

/// The first part of a regular daily rest that is taken in two parts (Article 4(g)).
pub const FIRST_PART_OF_DAILY_REST: u32 = 180;

/// A reduced daily rest, and the second part of a regular one that is taken in two parts (Article 4(g)).
pub const DAILY_REST: u32 = 540;

/// The most reduced daily rests between two weekly rests (Article 8(4)).
pub const REDUCED_DAILY_RESTS: u32 = 3;

/// The most driving in a day that isn't extended (Article 6(1)).
pub const DRIVING_IN_DAY: u32 = 540;

/// The most driving in an extended day (Article 6(1)).
pub const DRIVING_IN_EXTENDED_DAY: u32 = 600;

/// The most extended days in a week (Article 6(1)).
pub const EXTENDED_DAYS: u32 = 2;

/// The most driving in a week (Article 6(2)).
pub const DRIVING_IN_WEEK: u32 = 3360;

/// The most driving in two neighbouring weeks (Article 6(3)).
pub const DRIVING_IN_TWO_WEEKS: u32 = 5400;

/// A weekly rest (Article 4(h)).
pub const WEEKLY_REST: u32 = 1440;

/// A regular weekly rest (Article 4(h)).
pub const REGULAR_WEEKLY_REST: u32 = 2700;

/// The longest time from the end of a weekly rest to the start of the next: six days (Article 8(6)).
pub const SIX_DAYS: u32 = 8640;

/// How many weeks after the start of a week its debt can no longer be paid (Article 8(6b)).
pub const WEEKS_TO_PAY: u32 = 4;

/// The first minute of week 0, a Monday at 00:00 (Article 4(i)).
pub const FIRST_WEEK: u32 = 5760;

/// The first minute from which a line may be examined: Monday 2000-01-03 at 00:00. No Article prescribes this.
pub const FIRST_BASE: u32 = 15_780_960;

/// The latest end of an examined line: 2100-01-01 00:00. No Article prescribes this.
pub const LATEST: u32 = 68_374_080;
