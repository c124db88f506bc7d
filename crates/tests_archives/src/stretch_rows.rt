//! Rows of stretches: after gaps, crew and withdrawals, and read together with what is held in a range.

use crate::rows::{ANNA, DAY, FIRST, REGISTER_ANNA, REGISTER_BERT};
use crate::step::Step::{
    Adds, Enter, HasNoRange, HasNoStretches, InRange, Rebase, Stretches, Withdraw,
};
use crate::step::{Code, Step};
use tacho_card::Part;
use tacho_rules::Cause;
use tacho_state::Caller;
use tacho_time::Activity;

/// A block of Monday's first five hours alone, a week later: driving with a second driver.
const CREW_ON_MONDAY: &str = "0504000014000000000000001065ee4980000100005800012c";

/// A block of Thursday to 20:00: rest, and from 06:00 on driving and work with a second driver.
const CREW_ON_THURSDAY: &str = "0504000018000000000000001465e903800001000000005968538404b0";

/// A driver who isn't registered has no stretches (S4). If nothing is held, the one stretch ends where it begins.
pub(crate) const STRETCHES_OF_NOTHING: &[Step] = &[
    HasNoStretches(17, Code::S4),
    REGISTER_ANNA,
    Stretches(17, &[(0, 0, Cause::Unknown, None, 0)]),
    HasNoStretches(18, Code::S4),
    HasNoStretches(0, Code::S4),
    HasNoStretches(4_294_967_295, Code::S4),
    Rebase(17, 7, Ok(())),
    Stretches(17, &[(10_080, 10_080, Cause::Unknown, None, 0)]),
];

/// What is held before the base doesn't count: from another base, the 271 minutes of driving have no break.
pub(crate) const STRETCHES_ARE_FROM_THE_BASE: &[Step] = &[
    REGISTER_ANNA,
    Enter(
        17,
        "start,past,activity\n\
        2024-03-04 00:00,2024-03-04 06:00,rest\n\
        2024-03-04 06:00,2024-03-04 10:31,drive\n",
        Ok((1, 2)),
    ),
    Stretches(17, &[(0, 631, Cause::Unknown, None, 1)]),
    Rebase(17, 7, Ok(())),
    Stretches(17, &[(10_080, 10_080, Cause::Unknown, None, 0)]),
    Rebase(17, 0, Ok(())),
    Stretches(17, &[(0, 631, Cause::Unknown, None, 1)]),
];

/// After a gap, a stretch begins at the next Monday. Until such a Monday is held, all that is held after the gap is unseen.
pub(crate) const A_STRETCH_BEGINS_AFTER_A_GAP: &[Step] = &[
    REGISTER_ANNA,
    REGISTER_BERT,
    Adds(Caller::Office, Part::Both, &[ANNA, FIRST, DAY], 17, 1),
    Stretches(17, &[(0, 1020, Cause::Unknown, Some(1920), 1)]),
    Enter(
        17,
        "start,past,activity\n\
        2024-03-11 00:00,2024-03-11 07:00,rest\n\
        2024-03-11 07:00,2024-03-11 11:00,drive\n",
        Ok((1, 2)),
    ),
    Stretches(
        17,
        &[
            (0, 1020, Cause::Unknown, Some(10_080), 1),
            (10_080, 10_740, Cause::Unknown, None, 0),
        ],
    ),
    Stretches(18, &[(10_080, 10_080, Cause::Unknown, None, 0)]),
    Rebase(17, 7, Ok(())),
    Stretches(17, &[(10_080, 10_740, Cause::Unknown, None, 0)]),
];

/// A gap ends a minute before a Monday, at its first minute, and a minute after it, where no stretch begins.
pub(crate) const GAPS_END_NEAR_A_MONDAY: &[Step] = &[
    REGISTER_ANNA,
    Enter(
        17,
        "start,past,activity\n2024-03-04 00:00,2024-03-04 12:00,rest\n",
        Ok((1, 1)),
    ),
    Enter(
        17,
        "start,past,activity\n2024-03-10 23:59,2024-03-11 12:00,rest\n",
        Ok((2, 1)),
    ),
    Stretches(
        17,
        &[
            (0, 720, Cause::Unknown, Some(10_080), 0),
            (10_080, 10_800, Cause::Unknown, None, 0),
        ],
    ),
    Withdraw(17, 2, 2, Ok(())),
    Stretches(17, &[(0, 720, Cause::Unknown, None, 0)]),
    Enter(
        17,
        "start,past,activity\n2024-03-11 00:00,2024-03-11 12:00,rest\n",
        Ok((3, 1)),
    ),
    Stretches(
        17,
        &[
            (0, 720, Cause::Unknown, Some(10_080), 0),
            (10_080, 10_800, Cause::Unknown, None, 0),
        ],
    ),
    Withdraw(17, 3, 3, Ok(())),
    Enter(
        17,
        "start,past,activity\n2024-03-11 00:01,2024-03-11 12:00,rest\n",
        Ok((4, 1)),
    ),
    Stretches(17, &[(0, 720, Cause::Unknown, Some(10_800), 0)]),
    // A Monday whose first minute alone is held is a stretch.
    Enter(
        17,
        "start,past,activity\n2024-03-18 00:00,2024-03-18 00:01,work\n",
        Ok((5, 1)),
    ),
    Stretches(
        17,
        &[
            (0, 720, Cause::Unknown, Some(20_160), 0),
            (20_160, 20_161, Cause::Unknown, None, 0),
        ],
    ),
];

/// A stretch ends at a Monday whose first minute isn't held, and the next one begins a week later.
pub(crate) const A_HORIZON_IS_AT_A_MONDAY: &[Step] = &[
    REGISTER_ANNA,
    Enter(
        17,
        "start,past,activity\n\
        2024-03-04 00:00,2024-03-04 06:00,rest\n\
        2024-03-04 06:00,2024-03-04 10:31,drive\n\
        2024-03-04 10:31,2024-03-11 00:00,rest\n\
        2024-03-11 00:01,2024-03-18 06:00,rest\n\
        2024-03-18 06:00,2024-03-18 10:31,drive\n",
        Ok((1, 5)),
    ),
    Stretches(
        17,
        &[
            (0, 10_080, Cause::Unknown, Some(20_160), 1),
            (20_160, 20_791, Cause::Unknown, None, 1),
        ],
    ),
];

/// The next Monday is in the middle of a span: of 691 minutes of driving, 331 are on that day.
pub(crate) const A_MONDAY_IS_WITHIN_WORK: &[Step] = &[
    REGISTER_ANNA,
    Enter(
        17,
        "start,past,activity\n\
        2024-03-04 00:00,2024-03-04 12:00,rest\n\
        2024-03-10 18:00,2024-03-11 03:00,drive\n\
        2024-03-11 03:00,2024-03-11 04:00,work\n\
        2024-03-11 04:00,2024-03-11 06:31,drive\n\
        2024-03-11 06:31,2024-03-12 00:00,rest\n",
        Ok((1, 5)),
    ),
    Stretches(
        17,
        &[
            (0, 720, Cause::Unknown, Some(10_080), 0),
            (10_080, 11_520, Cause::Unknown, None, 1),
        ],
    ),
];

/// The base isn't held, and a later Monday is.
pub(crate) const A_BASE_IS_NOT_HELD: &[Step] = &[
    REGISTER_ANNA,
    Enter(
        17,
        "start,past,activity\n\
        2024-03-05 00:00,2024-03-12 00:00,rest\n\
        2024-03-12 06:00,2024-03-12 11:00,drive\n",
        Ok((1, 2)),
    ),
    Stretches(
        17,
        &[
            (0, 0, Cause::Unknown, Some(10_080), 0),
            (10_080, 11_520, Cause::Unknown, Some(12_180), 0),
        ],
    ),
];

/// No stretch begins at a Monday whose first minute is held as crew, and crew after the last one is unseen.
pub(crate) const A_MONDAY_IS_HELD_AS_CREW: &[Step] = &[
    REGISTER_ANNA,
    Enter(
        17,
        "start,past,activity\n2024-03-04 00:00,2024-03-05 00:00,rest\n",
        Ok((1, 1)),
    ),
    Adds(Caller::Office, Part::Both, &[ANNA, CREW_ON_MONDAY], 17, 1),
    Stretches(17, &[(0, 1440, Cause::Unknown, Some(10_380), 0)]),
    Enter(
        17,
        "start,past,activity\n\
        2024-03-18 00:00,2024-03-18 05:00,rest\n\
        2024-03-18 05:00,2024-03-18 09:31,drive\n",
        Ok((2, 2)),
    ),
    Stretches(
        17,
        &[
            (0, 1440, Cause::Unknown, Some(20_160), 0),
            (20_160, 20_731, Cause::Unknown, None, 1),
        ],
    ),
    Withdraw(17, 2, 2, Ok(())),
    Withdraw(17, 3, 3, Ok(())),
    Enter(
        17,
        "start,past,activity\n2024-03-05 00:00,2024-03-11 00:00,rest\n",
        Ok((4, 1)),
    ),
    Stretches(17, &[(0, 10_080, Cause::Crew, Some(10_380), 0)]),
    // A base that is held as crew.
    Rebase(17, 7, Ok(())),
    Stretches(17, &[(10_080, 10_080, Cause::Crew, Some(10_380), 0)]),
];

/// A second driver ends a stretch, and the next one begins at a later Monday.
pub(crate) const CREW_ENDS_A_STRETCH: &[Step] = &[
    REGISTER_ANNA,
    Enter(
        17,
        "start,past,activity\n2024-03-04 00:00,2024-03-07 00:00,rest\n",
        Ok((1, 1)),
    ),
    Adds(Caller::Office, Part::Both, &[ANNA, CREW_ON_THURSDAY], 17, 1),
    Stretches(17, &[(0, 4680, Cause::Crew, Some(5520), 0)]),
    Enter(
        17,
        "start,past,activity\n\
        2024-03-11 00:00,2024-03-11 06:00,rest\n\
        2024-03-11 06:00,2024-03-11 12:00,drive\n",
        Ok((2, 2)),
    ),
    Stretches(
        17,
        &[
            (0, 4680, Cause::Crew, Some(10_080), 0),
            (10_080, 10_800, Cause::Unknown, None, 1),
        ],
    ),
];

/// Stretches are of what is held now: a week of rest between two days is withdrawn, then the first day, then the driving.
pub(crate) const A_WITHDRAWAL_CHANGES_THE_STRETCHES: &[Step] = &[
    REGISTER_ANNA,
    Enter(
        17,
        "start,past,activity\n\
        2024-03-04 00:00,2024-03-05 00:00,rest\n\
        2024-03-05 00:00,2024-03-11 00:00,rest\n\
        2024-03-11 00:00,2024-03-11 07:00,rest\n\
        2024-03-11 07:00,2024-03-11 11:31,drive\n",
        Ok((1, 4)),
    ),
    Stretches(17, &[(0, 10_771, Cause::Unknown, None, 1)]),
    Withdraw(17, 2, 2, Ok(())),
    Stretches(
        17,
        &[
            (0, 1440, Cause::Unknown, Some(10_080), 0),
            (10_080, 10_771, Cause::Unknown, None, 1),
        ],
    ),
    Withdraw(17, 1, 1, Ok(())),
    Stretches(
        17,
        &[
            (0, 0, Cause::Unknown, Some(10_080), 0),
            (10_080, 10_771, Cause::Unknown, None, 1),
        ],
    ),
    Withdraw(17, 4, 4, Ok(())),
    Stretches(
        17,
        &[
            (0, 0, Cause::Unknown, Some(10_080), 0),
            (10_080, 10_500, Cause::Unknown, None, 0),
        ],
    ),
    Withdraw(17, 3, 3, Ok(())),
    Stretches(17, &[(0, 0, Cause::Unknown, None, 0)]),
];

/// What is held in a range is read together with the stretches: in a range after the base, around it and before it. The base may also be
/// within a row or in a gap.
pub(crate) const A_RANGE_IS_READ_WITH_THE_STRETCHES: &[Step] = &[
    HasNoRange(17, (0, 10_080), Code::S4),
    REGISTER_ANNA,
    InRange(17, (0, 10_080), &[], &[(0, 0, Cause::Unknown, None, 0)]),
    Enter(
        17,
        "start,past,activity\n\
        2024-03-04 00:00,2024-03-05 00:00,rest\n\
        2024-03-05 06:00,2024-03-05 10:31,drive\n\
        2024-03-10 00:00,2024-03-18 00:00,rest\n\
        2024-03-18 00:00,2024-03-18 04:31,drive\n",
        Ok((1, 4)),
    ),
    InRange(
        17,
        (0, 10_080),
        &[
            (0, 1440, Activity::Rest),
            (1800, 2071, Activity::Drive),
            (8640, 10_080, Activity::Rest),
        ],
        &[
            (0, 1440, Cause::Unknown, Some(10_080), 0),
            (10_080, 20_431, Cause::Unknown, None, 1),
        ],
    ),
    InRange(
        17,
        (12_000, 30_240),
        &[
            (12_000, 20_160, Activity::Rest),
            (20_160, 20_431, Activity::Drive),
        ],
        &[
            (0, 1440, Cause::Unknown, Some(10_080), 0),
            (10_080, 20_431, Cause::Unknown, None, 1),
        ],
    ),
    // A gap, and the minutes around it.
    InRange(
        17,
        (1440, 1800),
        &[],
        &[
            (0, 1440, Cause::Unknown, Some(10_080), 0),
            (10_080, 20_431, Cause::Unknown, None, 1),
        ],
    ),
    InRange(
        17,
        (1439, 1801),
        &[(1439, 1440, Activity::Rest), (1800, 1801, Activity::Drive)],
        &[
            (0, 1440, Cause::Unknown, Some(10_080), 0),
            (10_080, 20_431, Cause::Unknown, None, 1),
        ],
    ),
    HasNoRange(18, (0, 10_080), Code::S4),
    // The base is within the rest.
    Rebase(17, 7, Ok(())),
    InRange(
        17,
        (0, 5000),
        &[(0, 1440, Activity::Rest), (1800, 2071, Activity::Drive)],
        &[(10_080, 20_431, Cause::Unknown, None, 1)],
    ),
    InRange(
        17,
        (2000, 15_000),
        &[
            (2000, 2071, Activity::Drive),
            (8640, 15_000, Activity::Rest),
        ],
        &[(10_080, 20_431, Cause::Unknown, None, 1)],
    ),
    InRange(
        17,
        (20_160, 40_320),
        &[(20_160, 20_431, Activity::Drive)],
        &[(10_080, 20_431, Cause::Unknown, None, 1)],
    ),
    // The base is after what is held.
    Rebase(17, 28, Ok(())),
    InRange(
        17,
        (15_000, 20_200),
        &[
            (15_000, 20_160, Activity::Rest),
            (20_160, 20_200, Activity::Drive),
        ],
        &[(40_320, 40_320, Cause::Unknown, None, 0)],
    ),
    InRange(
        17,
        (40_320, 60_480),
        &[],
        &[(40_320, 40_320, Cause::Unknown, None, 0)],
    ),
];
