use crate::rows::{ANNA, DAY, FIRST, NIGHT_HOURS, REGISTER_ANNA, REGISTER_BERT, THE_DAY};
use crate::same::assert_same;
use crate::step::Standing::Kept;
use crate::step::Step::{
    self, Adds, Enter, Has, HasKey, HasName, Holds, IsListed, IsNotListed, Lacks, Lists, Register,
    Rename, Repeats, Withdraw,
};
use crate::step::{Code, day_of, take};
use std::alloc::Global;
use std::process::Abort;
use std::test::Fail;
use tacho_card::Part;
use tacho_carry::{Carried, carry};
use tacho_shelf::Shelf;
use tacho_state::{Caller, Keeper};
use tacho_store::open_memory;
use tacho_time::Activity;

/// Hours of Monday and of Wednesday; below, of the day between.
const LATER_HOURS: &str = "start,past,activity\n\
    2024-03-04 00:00,2024-03-05 00:00,rest\n\
    2024-03-06 00:00,2024-03-07 00:00,rest\n";

const TUESDAY_HOURS: &str = "start,past,activity\n2024-03-05 00:00,2024-03-06 00:00,work\n";

/// The card of a driver who has nothing.
const CARLS_HOLDER: [u8; 15] = *b"\rD1234567890125";

/// Anna has a card file of Monday and Tuesday and a night's hours; Bert has hours of three days, in two batches, of which some are withdrawn;
/// Carl has nothing.
const THREE_DRIVERS: &[Step] = &[
    REGISTER_BERT,
    REGISTER_ANNA,
    Register(19, CARLS_HOLDER, "carl-key-1", 14, Ok(())),
    Enter(17, NIGHT_HOURS, Ok((1, 1))),
    Adds(Caller::Office, Part::Both, &[ANNA, FIRST, DAY], 17, 1),
    Enter(18, LATER_HOURS, Ok((1, 2))),
    Enter(18, TUESDAY_HOURS, Ok((3, 1))),
    Enter(18, TUESDAY_HOURS, Ok((4, 1))),
    Withdraw(18, 4, 4, Ok(())),
    Rename(18, "Bert Holm", Ok(())),
];

/// From Monday on all is there but what was withdrawn.
const FROM_MONDAY: &[Step] = &[
    IsListed(17, 0, 1, 1),
    IsListed(18, 7, 0, 3),
    IsListed(19, 14, 0, 0),
    Holds(17, THE_DAY),
    HasKey(18, "bert-key-1"),
    HasName(18, "Bert Holm"),
    Lists(
        18,
        &[
            (1, 0, 1440, Activity::Rest, Kept),
            (2, 2880, 4320, Activity::Rest, Kept),
            (3, 1440, 2880, Activity::Work, Kept),
        ],
    ),
];

/// From Tuesday on Anna's hours are gone, and her card file is whole. Bert's Monday is gone.
const FROM_TUESDAY: &[Step] = &[
    IsListed(17, 0, 1, 0),
    IsListed(18, 7, 0, 2),
    IsListed(19, 14, 0, 0),
    Holds(17, THE_DAY),
    Has(17, 1, &[ANNA, FIRST, DAY]),
    Lacks(17, 2, Code::S10),
    Repeats(Caller::Office, Part::Both, &[ANNA, FIRST, DAY], 17),
    HasKey(17, "anna-key-1"),
    Lists(
        18,
        &[
            (1, 2880, 4320, Activity::Rest, Kept),
            (2, 1440, 2880, Activity::Work, Kept),
        ],
    ),
    Withdraw(18, 2, 2, Ok(())),
    Holds(18, &[(2880, 4320, Activity::Rest)]),
];

/// From Wednesday on Anna is left out, and Bert has the hours of that day alone.
const FROM_WEDNESDAY: &[Step] = &[
    IsNotListed(17, Code::S4),
    IsListed(18, 7, 0, 1),
    IsListed(19, 14, 0, 0),
    Register(17, CARLS_HOLDER, "anna-key-1", 0, Err(Code::S3)),
];

/// From the next week on Carl alone is there, who had nothing; below, with a later Monday.
const FROM_THE_NEXT_WEEK: &[Step] = &[
    IsNotListed(17, Code::S4),
    IsNotListed(18, Code::S4),
    IsListed(19, 14, 0, 0),
    HasKey(19, "carl-key-1"),
];

const AFTER_THREE_WEEKS: &[Step] = &[IsNotListed(17, Code::S4), IsListed(19, 21, 0, 0)];

/// The days on which the archive of the three drivers is carried, from Monday on, how many drivers are, and what the new archive answers.
const CARRIES: [(&str, u8, usize, &[Step]); 5] = [
    ("from Monday on", 0, 3, FROM_MONDAY),
    ("from Tuesday on", 1, 3, FROM_TUESDAY),
    ("from Wednesday on", 2, 2, FROM_WEDNESDAY),
    ("from the next week on", 7, 1, FROM_THE_NEXT_WEEK),
    ("after three weeks", 22, 1, AFTER_THREE_WEEKS),
];

/// Carries the three drivers, and asserts what the new archive answers, and that the old one is as it was.
fn carry_one<K: Keeper, L: Keeper>(
    rt: &impl Abort,
    alloc: Global,
    old: &mut K,
    new: &mut L,
    case: (&str, u8, usize, &[Step]),
) -> Result<(), Fail> {
    let (name, after, count, answers) = case;
    let done = carry(alloc, old, new, day_of(after))?;
    assert_same(
        rt,
        done,
        Carried {
            carried: count,
            all: 3,
        },
    );
    take(rt, alloc, new, name, answers)?;
    take(
        rt,
        alloc,
        old,
        name,
        &[
            IsListed(17, 0, 1, 1),
            IsListed(18, 7, 0, 4),
            Holds(17, THE_DAY),
        ],
    )
}

#[test]
fn carried_between_shelves_and_archives(rt: HostRuntime) -> Result<(), Fail> {
    let alloc = rt.alloc();
    let mut shelf = Shelf::new(alloc);
    take(&rt, alloc, &mut shelf, "on a shelf", THREE_DRIVERS)?;
    let mut archive = open_memory(alloc)?;
    take(&rt, alloc, &mut archive, "in an archive", THREE_DRIVERS)?;
    for case in CARRIES {
        carry_one(&rt, alloc, &mut shelf, &mut Shelf::new(alloc), case)?;
        carry_one(&rt, alloc, &mut shelf, &mut open_memory(alloc)?, case)?;
        carry_one(&rt, alloc, &mut archive, &mut Shelf::new(alloc), case)?;
        carry_one(&rt, alloc, &mut archive, &mut open_memory(alloc)?, case)?;
    }
    Ok(())
}

#[test]
fn nobody_is_carried(rt: HostRuntime) -> Result<(), Fail> {
    let alloc = rt.alloc();
    let done = carry(
        alloc,
        &mut open_memory(alloc)?,
        &mut Shelf::new(alloc),
        day_of(0),
    )?;
    assert_same(&rt, done, Carried { carried: 0, all: 0 });
    Ok(())
}

#[test]
fn a_new_archive_has_no_driver(rt: HostRuntime) -> Result<(), Fail> {
    let alloc = rt.alloc();
    let mut shelf = Shelf::new(alloc);
    take(&rt, alloc, &mut shelf, "old", &[REGISTER_ANNA])?;
    let mut new = Shelf::new(alloc);
    take(&rt, alloc, &mut new, "new", &[REGISTER_ANNA])?;
    let refused = carry(alloc, &mut shelf, &mut new, day_of(0));
    assert!(&rt; refused.is_err(), "the driver is there");
    Ok(())
}
