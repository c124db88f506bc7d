//! Rows: lists of steps, each with the expected answer, for an archive that has no drivers at first.

use crate::step::Standing::{Kept, Withdrawn};
use crate::step::Step::{
    Adds, Enter, Has, HasKey, HasName, HasNoEntries, HasNoKey, HasNoLine, HasNoName, HasNoReport,
    Holds, IsListed, IsNotListed, IsOf, Lacks, Lists, Rebase, Refuses, Register, Rekey, Rename,
    Repeats, Reports, Withdraw,
};
use crate::step::{Code, Listed, Pieces, Step};
use crate::stretch_rows::{
    A_BASE_IS_NOT_HELD, A_HORIZON_IS_AT_A_MONDAY, A_MONDAY_IS_HELD_AS_CREW,
    A_MONDAY_IS_WITHIN_WORK, A_RANGE_IS_READ_WITH_THE_STRETCHES, A_STRETCH_BEGINS_AFTER_A_GAP,
    A_WITHDRAWAL_CHANGES_THE_STRETCHES, CREW_ENDS_A_STRETCH, GAPS_END_NEAR_A_MONDAY,
    STRETCHES_ARE_FROM_THE_BASE, STRETCHES_OF_NOTHING,
};
use tacho_card::Part;
use tacho_rules::Kind;
use tacho_state::Caller;
use tacho_time::Activity;

/// The holder of Anna's card.
const ANNAS_HOLDER: [u8; 15] = *b"\x0dD1234567890123";

/// The holder of Bert's card.
const BERTS_HOLDER: [u8; 15] = *b"\x0dD1234567890124";

/// The identification of Anna's card.
pub(crate) const ANNA: &str = "05200000110d44313233343536373839303132333030";

/// The identification of Bert's card.
const BERT: &str = "05200000110d44313233343536373839303132343030";

/// The head of a block of activity data of the first generation, of 40 bytes.
pub(crate) const FIRST: &str = "0504000028";

/// The head of a block of activity data of the second generation, of 40 bytes.
const SECOND: &str = "0504020028";

/// Activity data from Monday 00:00 to Tuesday 08:00.
pub(crate) const DAY: &str =
    "000000140000001465e50f0000010000000011e019fe23fc0014001065e6608000020000000011e0";

/// Activity data of the same time, which differ from Monday 08:00 on, and all Tuesday.
const OTHER_DAY: &str =
    "000000140000001465e50f0000010000000011ea1a0823f20014001065e6608000020000080011e0";

/// A block of activity data of Monday's morning alone, to 08:30.
const MORNING: &str = "0504000016000000000000001265e50f0000010000000011e019fe";

/// A block of Monday's first five hours alone.
const NIGHT: &str = "0504000014000000000000001065e50f00000100000000012c";

/// A block of Tuesday's morning alone, to 08:30.
const TUESDAY: &str = "0504000016000000000000001265e6608000020000000011e019fe";

/// A block of Saturday's first ten hours alone.
const SATURDAY: &str = "0504000016000000000000001265eba68000010000600071e06258";

/// A block of activity data without records.
const EMPTY: &str = "050400001000000000000000000000000000000000";

/// What `DAY` gives.
pub(crate) const THE_DAY: Pieces = &[
    (0, 480, Activity::Rest),
    (480, 510, Activity::Work),
    (510, 1020, Activity::Drive),
    (1440, 1920, Activity::Rest),
];

/// What `OTHER_DAY` gives.
const THE_OTHER_DAY: Pieces = &[
    (0, 490, Activity::Rest),
    (490, 520, Activity::Work),
    (520, 1010, Activity::Drive),
    (1440, 1920, Activity::Available),
];

/// What `MORNING` gives.
const THE_MORNING: Pieces = &[(0, 480, Activity::Rest), (480, 510, Activity::Work)];

/// What `MORNING` and `TUESDAY` give.
const BOTH_MORNINGS: Pieces = &[
    (0, 480, Activity::Rest),
    (480, 510, Activity::Work),
    (1440, 1920, Activity::Rest),
    (1920, 1950, Activity::Work),
];

/// What `SATURDAY` gives.
const THE_SATURDAY: Pieces = &[(7200, 7680, Activity::Rest), (7680, 7800, Activity::Work)];

/// Two entries: Monday's first five hours, and the hour after them.
const NIGHT_AND_WAIT: Listed = &[
    (1, 0, 300, Activity::Rest, Kept),
    (2, 300, 360, Activity::Available, Kept),
];

/// What `DAY` and `TUESDAY` give.
const TWO_DAYS: Pieces = &[
    (0, 480, Activity::Rest),
    (480, 510, Activity::Work),
    (510, 1020, Activity::Drive),
    (1440, 1920, Activity::Rest),
    (1920, 1950, Activity::Work),
];

/// Hours without lines.
const NO_HOURS: &str = "start,past,activity\n";

/// Monday's first five hours.
pub(crate) const NIGHT_HOURS: &str =
    "start,past,activity\n2024-03-04 00:00,2024-03-04 05:00,rest\n";

/// The hours that `DAY` gives.
const DAY_HOURS: &str = "start,past,activity\n\
    2024-03-04 00:00,2024-03-04 08:00,rest\n\
    2024-03-04 08:00,2024-03-04 08:30,work\n\
    2024-03-04 08:30,2024-03-04 17:00,drive\n\
    2024-03-05 00:00,2024-03-05 08:00,rest\n";

/// Anna is registered, as driver 17.
pub(crate) const REGISTER_ANNA: Step = Register(17, ANNAS_HOLDER, "anna-key-1", 0, Ok(()));

/// Bert is registered, as driver 18.
pub(crate) const REGISTER_BERT: Step = Register(18, BERTS_HOLDER, "bert-key-1", 7, Ok(()));

/// A card's file is added, held and read again.
pub(crate) const A_DAY_IS_ADDED: &[Step] = &[
    REGISTER_ANNA,
    Holds(17, &[]),
    Adds(Caller::Office, Part::Both, &[ANNA, FIRST, DAY], 17, 1),
    Holds(17, THE_DAY),
    Has(17, 1, &[ANNA, FIRST, DAY]),
    Lacks(17, 2, Code::S10),
];

/// A file without records gives nothing, so it adds nothing.
const EMPTY_DATA_ARE_REPEATED: &[Step] = &[
    REGISTER_ANNA,
    Repeats(Caller::Office, Part::Both, &[ANNA, EMPTY], 17),
    Holds(17, &[]),
    Lacks(17, 1, Code::S10),
];

/// What was given before isn't added again; what wasn't given before is added.
const A_PART_OF_THE_DAY_IS_REPEATED: &[Step] = &[
    REGISTER_ANNA,
    Adds(Caller::Office, Part::Both, &[ANNA, MORNING], 17, 1),
    Holds(17, THE_MORNING),
    Adds(Caller::Office, Part::Both, &[ANNA, FIRST, DAY], 17, 2),
    Holds(17, THE_DAY),
    Repeats(Caller::Office, Part::Both, &[ANNA, MORNING], 17),
    Holds(17, THE_DAY),
    Has(17, 2, &[ANNA, FIRST, DAY]),
    Lacks(17, 3, Code::S10),
];

/// Spans of one activity that follow each other are one span, whichever files gave them.
const SPANS_OF_TWO_DOWNLOADS_ARE_JOINED: &[Step] = &[
    REGISTER_ANNA,
    Adds(Caller::Office, Part::Both, &[ANNA, NIGHT], 17, 1),
    Holds(17, &[(0, 300, Activity::Rest)]),
    Adds(Caller::Office, Part::Both, &[ANNA, MORNING], 17, 2),
    Holds(17, THE_MORNING),
    Repeats(Caller::Office, Part::Both, &[ANNA, NIGHT], 17),
];

/// A file adds what lies before, between and after what is held.
const A_DAY_GOES_AROUND_WHAT_IS_HELD: &[Step] = &[
    REGISTER_ANNA,
    Adds(Caller::Office, Part::Both, &[ANNA, TUESDAY], 17, 1),
    Adds(Caller::Office, Part::Both, &[ANNA, MORNING], 17, 2),
    Holds(17, BOTH_MORNINGS),
    Adds(Caller::Office, Part::Both, &[ANNA, FIRST, DAY], 17, 3),
    Holds(17, TWO_DAYS),
];

/// S6 changes nothing.
const A_CONTRADICTION_CHANGES_NOTHING: &[Step] = &[
    REGISTER_ANNA,
    Adds(Caller::Office, Part::Both, &[ANNA, FIRST, DAY], 17, 1),
    Refuses(
        Caller::Office,
        Part::Both,
        &[ANNA, FIRST, OTHER_DAY],
        Code::S6(480),
    ),
    Holds(17, THE_DAY),
    Lacks(17, 2, Code::S10),
];

/// S6 names the least of several minutes, in whatever order they came.
const THE_LEAST_CONTRADICTION_IS_NAMED: &[Step] = &[
    REGISTER_ANNA,
    Adds(Caller::Office, Part::Both, &[ANNA, TUESDAY], 17, 1),
    Refuses(
        Caller::Office,
        Part::Both,
        &[ANNA, FIRST, OTHER_DAY],
        Code::S6(1440),
    ),
    Adds(Caller::Office, Part::Both, &[ANNA, MORNING], 17, 2),
    Refuses(
        Caller::Office,
        Part::Both,
        &[ANNA, FIRST, OTHER_DAY],
        Code::S6(480),
    ),
    Refuses(
        Caller::Driver(17),
        Part::First,
        &[ANNA, FIRST, OTHER_DAY],
        Code::S6(480),
    ),
    Holds(17, BOTH_MORNINGS),
];

/// A file whose generations contradict each other is accepted if only one of them is read.
const ONE_OF_TWO_GENERATIONS_IS_ADDED: &[Step] = &[
    REGISTER_ANNA,
    Refuses(
        Caller::Office,
        Part::Both,
        &[ANNA, FIRST, DAY, SECOND, OTHER_DAY],
        Code::C14(480),
    ),
    Adds(
        Caller::Office,
        Part::First,
        &[ANNA, FIRST, DAY, SECOND, OTHER_DAY],
        17,
        1,
    ),
    Holds(17, THE_DAY),
    Refuses(
        Caller::Office,
        Part::Second,
        &[ANNA, FIRST, DAY, SECOND, OTHER_DAY],
        Code::S6(480),
    ),
    Has(17, 1, &[ANNA, FIRST, DAY, SECOND, OTHER_DAY]),
];

/// A file is read by one generation and then by the other, if that gives more.
const EACH_PART_OF_A_FILE_IS_ADDED: &[Step] = &[
    REGISTER_ANNA,
    Adds(
        Caller::Office,
        Part::First,
        &[ANNA, MORNING, SECOND, DAY],
        17,
        1,
    ),
    Holds(17, THE_MORNING),
    Repeats(
        Caller::Office,
        Part::First,
        &[ANNA, MORNING, SECOND, DAY],
        17,
    ),
    Adds(
        Caller::Driver(17),
        Part::Second,
        &[ANNA, MORNING, SECOND, DAY],
        17,
        2,
    ),
    Holds(17, THE_DAY),
    Repeats(
        Caller::Office,
        Part::Both,
        &[ANNA, MORNING, SECOND, DAY],
        17,
    ),
    Repeats(
        Caller::Driver(17),
        Part::First,
        &[ANNA, MORNING, SECOND, DAY],
        17,
    ),
    Has(17, 1, &[ANNA, MORNING, SECOND, DAY]),
    Has(17, 2, &[ANNA, MORNING, SECOND, DAY]),
    Lacks(17, 3, Code::S10),
];

/// A file that was read by both generations adds nothing if it is read by either.
const BOTH_PARTS_ARE_ADDED_AT_ONCE: &[Step] = &[
    REGISTER_ANNA,
    Adds(
        Caller::Driver(17),
        Part::Both,
        &[ANNA, TUESDAY, SECOND, DAY],
        17,
        1,
    ),
    Holds(17, TWO_DAYS),
    Repeats(
        Caller::Office,
        Part::Second,
        &[ANNA, TUESDAY, SECOND, DAY],
        17,
    ),
    Repeats(
        Caller::Office,
        Part::First,
        &[ANNA, TUESDAY, SECOND, DAY],
        17,
    ),
    Lacks(17, 2, Code::S10),
];

/// Each driver has their own files, numbers and timeline.
const FILES_OF_TWO_DRIVERS_INTERLEAVE: &[Step] = &[
    REGISTER_BERT,
    REGISTER_ANNA,
    Adds(Caller::Office, Part::Both, &[ANNA, MORNING], 17, 1),
    Adds(Caller::Office, Part::Both, &[BERT, FIRST, OTHER_DAY], 18, 1),
    Adds(Caller::Office, Part::Both, &[ANNA, FIRST, DAY], 17, 2),
    Refuses(Caller::Office, Part::Both, &[BERT, MORNING], Code::S6(480)),
    Adds(Caller::Driver(17), Part::Both, &[ANNA, TUESDAY], 17, 3),
    Repeats(
        Caller::Driver(18),
        Part::Both,
        &[BERT, FIRST, OTHER_DAY],
        18,
    ),
    Holds(17, TWO_DAYS),
    Holds(18, THE_OTHER_DAY),
    Has(17, 1, &[ANNA, MORNING]),
    Has(18, 1, &[BERT, FIRST, OTHER_DAY]),
    Has(17, 3, &[ANNA, TUESDAY]),
    Lacks(18, 2, Code::S10),
];

/// What one driver's files gave doesn't count for another driver.
const ONE_FILE_GIVES_TWO_DRIVERS_THE_SAME: &[Step] = &[
    REGISTER_ANNA,
    REGISTER_BERT,
    Adds(Caller::Office, Part::Both, &[ANNA, FIRST, DAY], 17, 1),
    Holds(18, &[]),
    Adds(Caller::Office, Part::Both, &[BERT, FIRST, DAY], 18, 1),
    Holds(17, THE_DAY),
    Holds(18, THE_DAY),
];

/// A registration is refused with its first fault: S1, S2, S3, S9.
const REGISTRATIONS_ARE_REFUSED: &[Step] = &[
    REGISTER_ANNA,
    Register(17, ANNAS_HOLDER, "anna-key-1", 1, Err(Code::S1)),
    Register(18, ANNAS_HOLDER, "anna-key-1", 1, Err(Code::S2)),
    Register(18, ANNAS_HOLDER, "bert-key-1", 1, Err(Code::S3)),
    Register(18, BERTS_HOLDER, "bert-key-1", 1, Err(Code::S9)),
    HasNoLine(18, Code::S4),
    REGISTER_BERT,
    Holds(18, &[]),
];

/// S4 comes before S9.
const DRIVERS_ARE_REBASED: &[Step] = &[
    REGISTER_ANNA,
    Rebase(17, 7, Ok(())),
    Rebase(17, 1, Err(Code::S9)),
    Rebase(18, 7, Err(Code::S4)),
    Rebase(18, 1, Err(Code::S4)),
    Register(17, ANNAS_HOLDER, "anna-key-1", 0, Err(Code::S1)),
];

/// A driver gets another key: S2, S4.
const DRIVERS_ARE_REKEYED: &[Step] = &[
    REGISTER_ANNA,
    REGISTER_BERT,
    Rekey(17, "anna-key-2", Ok(())),
    IsOf(b"anna-key-1", None),
    IsOf(b"anna-key-2", Some(17)),
    IsOf(b"bert-key-1", Some(18)),
    Rekey(17, "bert-key-1", Err(Code::S2)),
    Rekey(19, "bert-key-1", Err(Code::S2)),
    Rekey(19, "anna-key-1", Err(Code::S4)),
    Rekey(17, "anna-key-2", Ok(())),
    IsOf(b"anna-key-2", Some(17)),
    Rekey(18, "anna-key-1", Ok(())),
    Rekey(17, "bert-key-1", Ok(())),
    IsOf(b"anna-key-1", Some(18)),
    IsOf(b"bert-key-1", Some(17)),
    IsOf(b"anna-key-2", None),
    Register(19, [0; 15], "bert-key-1", 0, Err(Code::S2)),
    HasName(17, "Driver 17"),
    Adds(Caller::Driver(17), Part::Both, &[ANNA, FIRST, DAY], 17, 1),
];

/// A driver gets another name: S4. Nothing else changes.
const DRIVERS_ARE_RENAMED: &[Step] = &[
    REGISTER_ANNA,
    REGISTER_BERT,
    Enter(17, NIGHT_HOURS, Ok((1, 1))),
    HasName(17, "Driver 17"),
    Rename(17, "Anna Lind", Ok(())),
    HasName(17, "Anna Lind"),
    HasName(18, "Driver 18"),
    Rename(18, "Anna Lind", Ok(())),
    Rename(19, "Anna Lind", Err(Code::S4)),
    HasNoName(19, Code::S4),
    IsOf(b"anna-key-1", Some(17)),
    IsListed(17, 0, 0, 1),
    Holds(17, &[(0, 300, Activity::Rest)]),
    Holds(18, &[]),
];

/// A range of entries is withdrawn as a whole or not at all: S4, and S7 or S8 for the least number that can't be withdrawn.
const RANGES_ARE_WITHDRAWN: &[Step] = &[
    REGISTER_ANNA,
    Enter(17, DAY_HOURS, Ok((1, 4))),
    Withdraw(17, 3, 3, Ok(())),
    Withdraw(17, 1, 4, Err(Code::S8)),
    Withdraw(17, 4, 9, Err(Code::S7)),
    Withdraw(17, 0, 4, Err(Code::S7)),
    Withdraw(17, 2, 4_294_967_295, Err(Code::S8)),
    Withdraw(18, 1, 4, Err(Code::S4)),
    Lists(
        17,
        &[
            (1, 0, 480, Activity::Rest, Kept),
            (2, 480, 510, Activity::Work, Kept),
            (3, 510, 1020, Activity::Drive, Withdrawn),
            (4, 1440, 1920, Activity::Rest, Kept),
        ],
    ),
    Holds(
        17,
        &[
            (0, 480, Activity::Rest),
            (480, 510, Activity::Work),
            (1440, 1920, Activity::Rest),
        ],
    ),
    Withdraw(17, 1, 2, Ok(())),
    Holds(17, &[(1440, 1920, Activity::Rest)]),
    Withdraw(17, 2, 4, Err(Code::S8)),
    Withdraw(17, 4, 4, Ok(())),
    Holds(17, &[]),
    Lists(
        17,
        &[
            (1, 0, 480, Activity::Rest, Withdrawn),
            (2, 480, 510, Activity::Work, Withdrawn),
            (3, 510, 1020, Activity::Drive, Withdrawn),
            (4, 1440, 1920, Activity::Rest, Withdrawn),
        ],
    ),
];

/// An import is for the driver who owns the card: S4, S5.
const A_CARD_HAS_ITS_OWNER: &[Step] = &[
    REGISTER_ANNA,
    Refuses(Caller::Office, Part::Both, &[BERT, FIRST, DAY], Code::S4),
    Refuses(
        Caller::Driver(18),
        Part::Both,
        &[ANNA, FIRST, DAY],
        Code::S4,
    ),
    REGISTER_BERT,
    Refuses(
        Caller::Driver(18),
        Part::Both,
        &[ANNA, FIRST, DAY],
        Code::S5,
    ),
    Lacks(17, 1, Code::S10),
    Lacks(18, 1, Code::S10),
    Adds(Caller::Driver(17), Part::Both, &[ANNA, FIRST, DAY], 17, 1),
    Refuses(
        Caller::Driver(18),
        Part::Both,
        &[ANNA, FIRST, DAY],
        Code::S5,
    ),
    Holds(18, &[]),
];

/// S11 comes before S4 and S5.
const A_FILES_FAULT_COMES_FIRST: &[Step] = &[
    Refuses(Caller::Office, Part::Both, &[BERT, FIRST], Code::C1(22)),
    REGISTER_ANNA,
    Refuses(Caller::Driver(18), Part::Both, &[ANNA, FIRST], Code::C1(22)),
    Refuses(
        Caller::Driver(17),
        Part::Second,
        &[BERT, FIRST, DAY],
        Code::C6,
    ),
    Refuses(
        Caller::Driver(17),
        Part::Both,
        &[BERT, FIRST, DAY, SECOND, OTHER_DAY],
        Code::C14(480),
    ),
    Refuses(Caller::Office, Part::Both, &[FIRST, DAY], Code::C3),
    Holds(17, &[]),
    Lacks(17, 1, Code::S10),
];

/// Readings of unknown drivers and downloads: S4, S10.
const WHAT_IS_UNKNOWN_IS_NOT_READ: &[Step] = &[
    HasNoLine(17, Code::S4),
    REGISTER_ANNA,
    Adds(Caller::Office, Part::Both, &[ANNA, FIRST, DAY], 17, 1),
    Lacks(17, 0, Code::S10),
    Lacks(17, 4_294_967_295, Code::S10),
    Lacks(18, 1, Code::S4),
    Lacks(4_294_967_295, 1, Code::S4),
    HasNoLine(18, Code::S4),
    HasNoLine(0, Code::S4),
];

/// A file that contradicts hours is refused until they are withdrawn: S6, S8.
const HOURS_GIVE_WAY_TO_A_FILE: &[Step] = &[
    REGISTER_ANNA,
    Enter(
        17,
        "start,past,activity\n2024-03-09 00:00,2024-03-11 00:00,rest\n",
        Ok((1, 1)),
    ),
    Holds(17, &[(7200, 10080, Activity::Rest)]),
    Refuses(
        Caller::Office,
        Part::Both,
        &[ANNA, SATURDAY],
        Code::S6(7680),
    ),
    Withdraw(17, 1, 1, Ok(())),
    Adds(Caller::Office, Part::Both, &[ANNA, SATURDAY], 17, 1),
    Holds(17, THE_SATURDAY),
    Withdraw(17, 1, 1, Err(Code::S8)),
    Holds(17, THE_SATURDAY),
    Lists(17, &[(1, 7200, 10080, Activity::Rest, Withdrawn)]),
];

/// What two entries gave is held while one of them gives it.
const ENTRIES_OVERLAP: &[Step] = &[
    REGISTER_ANNA,
    Enter(
        17,
        "start,past,activity\n2024-03-04 00:00,2024-03-04 12:00,rest\n",
        Ok((1, 1)),
    ),
    Enter(
        17,
        "start,past,activity\n2024-03-04 06:00,2024-03-04 18:00,rest\n",
        Ok((2, 1)),
    ),
    Holds(17, &[(0, 1080, Activity::Rest)]),
    Withdraw(17, 1, 1, Ok(())),
    Holds(17, &[(360, 1080, Activity::Rest)]),
    Lists(
        17,
        &[
            (1, 0, 720, Activity::Rest, Withdrawn),
            (2, 360, 1080, Activity::Rest, Kept),
        ],
    ),
];

/// Entries don't count for whether a file is repeated, and their numbers are separate from downloads'.
const A_FILE_OF_ENTERED_HOURS_IS_ADDED: &[Step] = &[
    REGISTER_ANNA,
    Enter(17, DAY_HOURS, Ok((1, 4))),
    Holds(17, THE_DAY),
    Adds(Caller::Office, Part::Both, &[ANNA, FIRST, DAY], 17, 1),
    Holds(17, THE_DAY),
    Withdraw(17, 1, 1, Ok(())),
    Withdraw(17, 2, 2, Ok(())),
    Withdraw(17, 3, 3, Ok(())),
    Withdraw(17, 4, 4, Ok(())),
    Holds(17, THE_DAY),
    Repeats(Caller::Office, Part::Both, &[ANNA, FIRST, DAY], 17),
    Lists(
        17,
        &[
            (1, 0, 480, Activity::Rest, Withdrawn),
            (2, 480, 510, Activity::Work, Withdrawn),
            (3, 510, 1020, Activity::Drive, Withdrawn),
            (4, 1440, 1920, Activity::Rest, Withdrawn),
        ],
    ),
];

/// A batch without lines uses no number.
const NO_HOURS_ARE_ENTERED: &[Step] = &[
    REGISTER_ANNA,
    Enter(17, NO_HOURS, Ok((1, 0))),
    Lists(17, &[]),
    Enter(
        17,
        "start,past,activity\n\
        2024-03-04 00:00,2024-03-04 05:00,rest\n\
        2024-03-04 05:00,2024-03-04 06:00,available\n",
        Ok((1, 2)),
    ),
    Enter(17, NO_HOURS, Ok((3, 0))),
    Lists(17, NIGHT_AND_WAIT),
    Holds(
        17,
        &[(0, 300, Activity::Rest), (300, 360, Activity::Available)],
    ),
];

/// All of a batch is entered or none; a refused batch uses no number: S6.
const A_BATCH_THAT_CONTRADICTS_CHANGES_NOTHING: &[Step] = &[
    REGISTER_ANNA,
    Adds(Caller::Office, Part::Both, &[ANNA, FIRST, DAY], 17, 1),
    Enter(
        17,
        "start,past,activity\n\
        2024-03-04 17:00,2024-03-04 18:00,work\n\
        2024-03-05 07:00,2024-03-05 09:00,drive\n",
        Err(Code::S6(1860)),
    ),
    Holds(17, THE_DAY),
    Lists(17, &[]),
    Enter(17, NIGHT_HOURS, Ok((1, 1))),
    Enter(
        17,
        "start,past,activity\n2024-03-04 18:00,2024-03-04 20:00,available\n",
        Ok((2, 1)),
    ),
    Enter(
        17,
        "start,past,activity\n\
        2024-03-04 17:00,2024-03-04 18:00,work\n\
        2024-03-04 19:59,2024-03-04 20:01,rest\n",
        Err(Code::S6(1199)),
    ),
    Lists(
        17,
        &[
            (1, 0, 300, Activity::Rest, Kept),
            (2, 1080, 1200, Activity::Available, Kept),
        ],
    ),
    Withdraw(17, 2, 2, Ok(())),
    Holds(17, THE_DAY),
    Enter(17, NIGHT_HOURS, Ok((3, 1))),
];

/// Hours that agree with a file are joined with it; what the file gave stays when they are withdrawn.
const HOURS_AGREE_WITH_A_FILE: &[Step] = &[
    REGISTER_ANNA,
    Adds(Caller::Office, Part::Both, &[ANNA, FIRST, DAY], 17, 1),
    Enter(
        17,
        "start,past,activity\n\
        2024-03-04 06:00,2024-03-04 07:00,rest\n\
        2024-03-04 16:30,2024-03-04 18:00,drive\n\
        2024-03-04 23:00,2024-03-05 00:00,rest\n",
        Ok((1, 3)),
    ),
    Holds(
        17,
        &[
            (0, 480, Activity::Rest),
            (480, 510, Activity::Work),
            (510, 1080, Activity::Drive),
            (1380, 1920, Activity::Rest),
        ],
    ),
    Withdraw(17, 1, 1, Ok(())),
    Withdraw(17, 3, 3, Ok(())),
    Holds(
        17,
        &[
            (0, 480, Activity::Rest),
            (480, 510, Activity::Work),
            (510, 1080, Activity::Drive),
            (1440, 1920, Activity::Rest),
        ],
    ),
    Withdraw(17, 2, 2, Ok(())),
    Holds(17, THE_DAY),
];

/// Unknown entries and drivers: S4, S7.
const UNKNOWN_ENTRIES_ARE_NOT_WITHDRAWN: &[Step] = &[
    Enter(17, NO_HOURS, Err(Code::S4)),
    Withdraw(17, 1, 1, Err(Code::S4)),
    HasNoEntries(17, Code::S4),
    REGISTER_ANNA,
    Withdraw(17, 0, 0, Err(Code::S7)),
    Withdraw(17, 1, 1, Err(Code::S7)),
    Enter(17, NIGHT_HOURS, Ok((1, 1))),
    Withdraw(17, 0, 0, Err(Code::S7)),
    Withdraw(17, 2, 2, Err(Code::S7)),
    Withdraw(17, 4_294_967_295, 4_294_967_295, Err(Code::S7)),
    Enter(18, NIGHT_HOURS, Err(Code::S4)),
    Enter(0, NIGHT_HOURS, Err(Code::S4)),
    Enter(4_294_967_295, NIGHT_HOURS, Err(Code::S4)),
    Withdraw(18, 1, 1, Err(Code::S4)),
    Withdraw(4_294_967_295, 0, 0, Err(Code::S4)),
    HasNoEntries(18, Code::S4),
    Lists(17, &[(1, 0, 300, Activity::Rest, Kept)]),
];

/// Each driver has their own entries and numbers.
const ENTRIES_OF_TWO_DRIVERS_INTERLEAVE: &[Step] = &[
    REGISTER_BERT,
    REGISTER_ANNA,
    Enter(17, NIGHT_HOURS, Ok((1, 1))),
    Lists(18, &[]),
    Holds(18, &[]),
    Withdraw(18, 1, 1, Err(Code::S7)),
    Enter(
        18,
        "start,past,activity\n2024-03-04 00:00,2024-03-04 05:00,work\n",
        Ok((1, 1)),
    ),
    Enter(
        17,
        "start,past,activity\n2024-03-04 05:00,2024-03-04 06:00,available\n",
        Ok((2, 1)),
    ),
    Withdraw(18, 1, 1, Ok(())),
    Lists(17, NIGHT_AND_WAIT),
    Lists(18, &[(1, 0, 300, Activity::Work, Withdrawn)]),
    Holds(18, &[]),
    Holds(
        17,
        &[(0, 300, Activity::Rest), (300, 360, Activity::Available)],
    ),
];

/// Each driver is listed with their downloads and their entries, including withdrawn ones. A driver who isn't registered isn't listed: S4.
const DRIVERS_ARE_LISTED: &[Step] = &[
    IsNotListed(17, Code::S4),
    REGISTER_ANNA,
    REGISTER_BERT,
    IsListed(17, 0, 0, 0),
    Adds(Caller::Office, Part::Both, &[ANNA, FIRST, DAY], 17, 1),
    Enter(17, NIGHT_HOURS, Ok((1, 1))),
    Enter(17, NIGHT_HOURS, Ok((2, 1))),
    Withdraw(17, 1, 1, Ok(())),
    Rebase(17, 14, Ok(())),
    IsListed(17, 14, 1, 2),
    IsListed(18, 7, 0, 0),
    IsNotListed(19, Code::S4),
];

/// Each driver has their name. A driver who isn't registered has no name and no report: S4.
const DRIVERS_HAVE_THEIR_NAMES: &[Step] = &[
    HasNoName(17, Code::S4),
    HasNoReport(17, Code::S4),
    REGISTER_ANNA,
    HasName(17, "Driver 17"),
    HasNoName(18, Code::S4),
    HasNoReport(18, Code::S4),
    REGISTER_BERT,
    Rebase(17, 7, Ok(())),
    HasName(18, "Driver 18"),
    HasName(17, "Driver 17"),
    HasNoName(0, Code::S4),
    HasNoReport(4_294_967_295, Code::S4),
];

/// A key belongs to the driver who was registered with exactly these bytes; other bytes belong to nobody.
const KEYS_ARE_OF_THEIR_DRIVERS: &[Step] = &[
    IsOf(b"anna-key-1", None),
    HasNoKey(17, Code::S4),
    REGISTER_ANNA,
    IsOf(b"anna-key-1", Some(17)),
    IsOf(b"bert-key-1", None),
    HasKey(17, "anna-key-1"),
    HasNoKey(18, Code::S4),
    REGISTER_BERT,
    HasKey(18, "bert-key-1"),
    HasKey(17, "anna-key-1"),
    IsOf(b"bert-key-1", Some(18)),
    IsOf(b"anna-key-1", Some(17)),
    IsOf(b"anna-key-2", None),
    IsOf(b"Anna-key-1", None),
    IsOf(b"anna-key-", None),
    IsOf(b"anna-key-1\0", None),
    IsOf(b"", None),
    IsOf(b"\xff", None),
    IsOf(b"anna-key-1\xff", None),
];

/// A report begins at the driver's base: the eight and a half hours of driving in `DAY` have no break after four and a half.
const A_REPORT_IS_FROM_THE_BASE: &[Step] = &[
    REGISTER_ANNA,
    Reports(17, 0, &[]),
    Adds(Caller::Office, Part::Both, &[ANNA, FIRST, DAY], 17, 1),
    Reports(17, 1020, &[(Kind::B1, 780)]),
    Enter(
        17,
        "start,past,activity\n2024-03-11 00:00,2024-03-12 00:00,rest\n",
        Ok((1, 1)),
    ),
    Rebase(17, 7, Ok(())),
    Reports(17, 11_520, &[]),
    Rebase(17, 1, Err(Code::S9)),
    Reports(17, 11_520, &[]),
    Rebase(17, 0, Ok(())),
    Reports(17, 1020, &[(Kind::B1, 780)]),
];

/// A report is of what is held now: five hours of driving without a break are withdrawn, and work is entered in their place.
const A_WITHDRAWAL_CHANGES_THE_REPORT: &[Step] = &[
    REGISTER_ANNA,
    REGISTER_BERT,
    Enter(
        17,
        "start,past,activity\n\
        2024-03-04 00:00,2024-03-04 08:00,rest\n\
        2024-03-04 08:00,2024-03-04 13:00,drive\n\
        2024-03-04 13:00,2024-03-04 14:00,rest\n",
        Ok((1, 3)),
    ),
    Reports(17, 840, &[(Kind::B1, 750)]),
    Reports(18, 10_080, &[]),
    Withdraw(17, 2, 2, Ok(())),
    Reports(17, 480, &[]),
    Enter(
        17,
        "start,past,activity\n2024-03-04 08:00,2024-03-04 13:00,work\n",
        Ok((4, 1)),
    ),
    Reports(17, 840, &[]),
];

/// Each row, with its name.
pub(crate) const ROWS: [(&str, &[Step]); 44] = [
    ("a day is added", A_DAY_IS_ADDED),
    ("empty data are repeated", EMPTY_DATA_ARE_REPEATED),
    (
        "a part of the day is repeated",
        A_PART_OF_THE_DAY_IS_REPEATED,
    ),
    (
        "spans of two downloads are joined",
        SPANS_OF_TWO_DOWNLOADS_ARE_JOINED,
    ),
    (
        "a day goes around what is held",
        A_DAY_GOES_AROUND_WHAT_IS_HELD,
    ),
    (
        "a contradiction changes nothing",
        A_CONTRADICTION_CHANGES_NOTHING,
    ),
    (
        "the least contradiction is named",
        THE_LEAST_CONTRADICTION_IS_NAMED,
    ),
    (
        "one of two generations is added",
        ONE_OF_TWO_GENERATIONS_IS_ADDED,
    ),
    ("each part of a file is added", EACH_PART_OF_A_FILE_IS_ADDED),
    ("both parts are added at once", BOTH_PARTS_ARE_ADDED_AT_ONCE),
    (
        "files of two drivers interleave",
        FILES_OF_TWO_DRIVERS_INTERLEAVE,
    ),
    (
        "one file gives two drivers the same",
        ONE_FILE_GIVES_TWO_DRIVERS_THE_SAME,
    ),
    ("registrations are refused", REGISTRATIONS_ARE_REFUSED),
    ("drivers are rebased", DRIVERS_ARE_REBASED),
    ("drivers are rekeyed", DRIVERS_ARE_REKEYED),
    ("a card has its owner", A_CARD_HAS_ITS_OWNER),
    ("a file's fault comes first", A_FILES_FAULT_COMES_FIRST),
    ("what is unknown is not read", WHAT_IS_UNKNOWN_IS_NOT_READ),
    ("hours give way to a file", HOURS_GIVE_WAY_TO_A_FILE),
    ("entries overlap", ENTRIES_OVERLAP),
    ("ranges are withdrawn", RANGES_ARE_WITHDRAWN),
    ("drivers are renamed", DRIVERS_ARE_RENAMED),
    (
        "a file of entered hours is added",
        A_FILE_OF_ENTERED_HOURS_IS_ADDED,
    ),
    ("no hours are entered", NO_HOURS_ARE_ENTERED),
    (
        "a batch that contradicts changes nothing",
        A_BATCH_THAT_CONTRADICTS_CHANGES_NOTHING,
    ),
    ("hours agree with a file", HOURS_AGREE_WITH_A_FILE),
    (
        "unknown entries are not withdrawn",
        UNKNOWN_ENTRIES_ARE_NOT_WITHDRAWN,
    ),
    (
        "entries of two drivers interleave",
        ENTRIES_OF_TWO_DRIVERS_INTERLEAVE,
    ),
    ("drivers are listed", DRIVERS_ARE_LISTED),
    ("drivers have their names", DRIVERS_HAVE_THEIR_NAMES),
    ("keys are of their drivers", KEYS_ARE_OF_THEIR_DRIVERS),
    ("a report is from the base", A_REPORT_IS_FROM_THE_BASE),
    (
        "a withdrawal changes the report",
        A_WITHDRAWAL_CHANGES_THE_REPORT,
    ),
    ("stretches of nothing", STRETCHES_OF_NOTHING),
    ("stretches are from the base", STRETCHES_ARE_FROM_THE_BASE),
    ("a stretch begins after a gap", A_STRETCH_BEGINS_AFTER_A_GAP),
    ("gaps end near a Monday", GAPS_END_NEAR_A_MONDAY),
    ("a horizon is at a Monday", A_HORIZON_IS_AT_A_MONDAY),
    ("a Monday is within work", A_MONDAY_IS_WITHIN_WORK),
    ("a base is not held", A_BASE_IS_NOT_HELD),
    ("a Monday is held as crew", A_MONDAY_IS_HELD_AS_CREW),
    ("crew ends a stretch", CREW_ENDS_A_STRETCH),
    (
        "a withdrawal changes the stretches",
        A_WITHDRAWAL_CHANGES_THE_STRETCHES,
    ),
    (
        "a range is read with the stretches",
        A_RANGE_IS_READ_WITH_THE_STRETCHES,
    ),
];
