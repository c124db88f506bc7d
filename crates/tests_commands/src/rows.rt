//! Rows of command lines on an archive in memory: the input of each, what it writes, and its status.

use crate::commands::{Command, take};
use std::process::Abort;
use std::test::Fail;
use tacho_shelf::Shelf;
use tacho_store::open_memory;

/// A card file of 4 and 5 March 2024.
pub(crate) const A_DAY: &str =
    "hex:05200000110d443132333435363738393031323330300504000028000000140000001465e50f0000010064000011e019fe23fc0014001065e6608000020000000011e0";

/// A card file of the same days that contradicts it from 08:00 on the 4th.
pub(crate) const ANOTHER_DAY: &str =
    "hex:05200000110d443132333435363738393031323330300504000028000000140000001465e50f0000010064000011ea1a0823f20014001065e6608000020000080011e0";

/// What the first card said at 08:30 on the 4th.
pub(crate) const NOON: &str =
    "hex:05200000110d443132333435363738393031323330300504000016000000000000001265e50f0000010000000011e019fe";

/// Three days' rest.
const THREE_DAYS: &str =
    "start,past,activity\n2024-03-09 00:00,2024-03-10 00:00,rest\n2024-03-10 00:00,2024-03-11 00:00,rest\n2024-03-11 00:00,2024-03-12 00:00,rest\n";

/// Saturday, 9 March: rest, then work from 08:00 to 10:00.
const SATURDAY: &str =
    "hex:05200000110d443132333435363738393031323330300504000016000000000000001265eba68000010000600071e06258";

/// A file without records.
const NO_RECORDS: &str =
    "hex:05200000110d44313233343536373839303132333030050400001000000000000000000000000000000000";

/// Both days in the blocks of both generations.
pub(crate) const TWO_BLOCKS: &str =
    "hex:05200000110d443132333435363738393031323330300504000028000000140000001465e50f0000010064000011e019fe23fc0014001065e6608000020000000011e00504020028000000140000001465e50f0000010064000011ea1a0823f20014001065e6608000020000080011e0";

/// A file whose last block is truncated.
const CUT: &str =
    "hex:05200000110d443132333435363738393031323330300504000028000000140000001465e50f0000010064000011e019fe23fc0014001065e6608000020000000011e005040100";

/// The text that registers Anna.
pub(crate) const REGISTRATION: &str =
    "driver,holder,key,base,name\n17,0d4431323334353637383930313233,anna-key-1,2024-03-04,Anna Berg\n";

/// Registers Anna.
pub(crate) const ANNA: Command = ("register", REGISTRATION, "registered 17\n", 0);

/// Imports Anna's card file.
const IMPORT: Command = ("import both", A_DAY, "added driver 17 number 1\n", 0);

/// The breaches in that card file.
const BREACHES: &str = "\
B1 Art 7 at 2024-03-04 13:00 since 2024-03-04 08:30 amount 240
EXAMINED TO 2024-03-04 17:00 unknown
";

/// The same breach with its evidence: 8 hours 30 minutes between the rest before 08:00 and the rest from the horizon on.
const WHY: &str = "\
B1 Art 7 at 2024-03-04 13:00 since 2024-03-04 08:30 amount 240
  break - 2024-03-04 08:00 -
  drive 2024-03-04 08:30 2024-03-04 17:00 8:30 8:30
  break 2024-03-04 17:00 - -
";

const SPANS: &str = "\
start,past,activity,manning
2024-03-04 00:00,2024-03-04 08:00,rest,single
2024-03-04 08:00,2024-03-04 08:30,work,single
2024-03-04 08:30,2024-03-04 17:00,drive,single
2024-03-05 00:00,2024-03-05 08:00,rest,single
";

/// The card files after `NOON`, and then `A_DAY`. Another program computed the digests.
const NOON_AND_DAY: &str = "\
1 both 49 2024-03-04 00:00 2024-03-04 08:30 598e355bfc23fd5caae19d58ee36c47a6356ce57e7ea3c53237539a4bb70fb89
2 both 67 2024-03-04 00:00 2024-03-05 08:00 bab6b34b1d6c80c09cb0ca89255359ec210d319c8893efa63f9e2b4059e2afaf
";

const GAPS: &str = "\
2024-03-01 00:00 2024-03-04 00:00
2024-03-04 17:00 2024-03-05 00:00
2024-03-05 08:00 2024-04-01 00:00
";

const SHEET: &str = "\
DRIVER 17 Anna Berg
MONTH 2024-03
DATE       DAY   REST  AVAIL   WORK  DRIVE   CREW   NONE
2024-03-01 Fri   0:00   0:00   0:00   0:00   0:00  24:00
2024-03-02 Sat   0:00   0:00   0:00   0:00   0:00  24:00
2024-03-03 Sun   0:00   0:00   0:00   0:00   0:00  24:00
2024-03-04 Mon   8:00   0:00   0:30   8:30   0:00   7:00
2024-03-05 Tue   8:00   0:00   0:00   0:00   0:00  16:00
2024-03-06 Wed   0:00   0:00   0:00   0:00   0:00  24:00
2024-03-07 Thu   0:00   0:00   0:00   0:00   0:00  24:00
2024-03-08 Fri   0:00   0:00   0:00   0:00   0:00  24:00
2024-03-09 Sat   0:00   0:00   0:00   0:00   0:00  24:00
2024-03-10 Sun   0:00   0:00   0:00   0:00   0:00  24:00
2024-03-11 Mon   0:00   0:00   0:00   0:00   0:00  24:00
2024-03-12 Tue   0:00   0:00   0:00   0:00   0:00  24:00
2024-03-13 Wed   0:00   0:00   0:00   0:00   0:00  24:00
2024-03-14 Thu   0:00   0:00   0:00   0:00   0:00  24:00
2024-03-15 Fri   0:00   0:00   0:00   0:00   0:00  24:00
2024-03-16 Sat   0:00   0:00   0:00   0:00   0:00  24:00
2024-03-17 Sun   0:00   0:00   0:00   0:00   0:00  24:00
2024-03-18 Mon   0:00   0:00   0:00   0:00   0:00  24:00
2024-03-19 Tue   0:00   0:00   0:00   0:00   0:00  24:00
2024-03-20 Wed   0:00   0:00   0:00   0:00   0:00  24:00
2024-03-21 Thu   0:00   0:00   0:00   0:00   0:00  24:00
2024-03-22 Fri   0:00   0:00   0:00   0:00   0:00  24:00
2024-03-23 Sat   0:00   0:00   0:00   0:00   0:00  24:00
2024-03-24 Sun   0:00   0:00   0:00   0:00   0:00  24:00
2024-03-25 Mon   0:00   0:00   0:00   0:00   0:00  24:00
2024-03-26 Tue   0:00   0:00   0:00   0:00   0:00  24:00
2024-03-27 Wed   0:00   0:00   0:00   0:00   0:00  24:00
2024-03-28 Thu   0:00   0:00   0:00   0:00   0:00  24:00
2024-03-29 Fri   0:00   0:00   0:00   0:00   0:00  24:00
2024-03-30 Sat   0:00   0:00   0:00   0:00   0:00  24:00
2024-03-31 Sun   0:00   0:00   0:00   0:00   0:00  24:00
TOTAL           16:00   0:00   0:30   8:30   0:00 719:00
B1 Art 7 at 2024-03-04 13:00 since 2024-03-04 08:30 amount 240
EXAMINED TO 2024-03-04 17:00 unknown
";

/// Rows that begin after the driver was registered.
static ROWS: [(&str, &[Command]); 10] = [
    (
        "keys",
        &[
            ("key 17", "anna-key-2\r\n", "key 17\n", 0),
            ("key 17", "anna-key-2", "key 17\n", 0),
            ("key 17", "", "E9 bad value for key\n", 1),
            ("key 17", "anna_key_3\n", "E9 bad value for key\n", 1),
            ("key 17", "anna-key-3\n\n", "E9 bad value for key\n", 1),
            ("key 017", "", "N1 bad number\n", 1),
            ("key 18", "anna-key-2\n", "S2 key taken\n", 1),
            ("key 18", "anna-key-1\n", "S4 unknown driver\n", 1),
            ("key 17", "anna-key-1\n", "key 17\n", 0),
        ],
    ),
    (
        "a day",
        &[
            IMPORT,
            ("breaches 17", "", BREACHES, 0),
            ("why 17 2024-03", "", WHY, 0),
            ("why 17 2024-04", "", "", 0),
            ("spans 17 2024-03", "", SPANS, 0),
            ("gaps 17 2024-03", "", GAPS, 0),
            ("sheet 17 2024-03", "", SHEET, 0),
            ("owed 17", "", "EXAMINED TO 2024-03-04 17:00 unknown\n", 0),
            ("entries 17", "", "", 0),
            (
                "drivers",
                "",
                "17 0d4431323334353637383930313233 2024-03-04 1 0 Anna Berg\n",
                0,
            ),
            ("import both", A_DAY, "repeated driver 17\n", 0),
            ("file 17 1", "", A_DAY, 0),
            (
                "files 17",
                "",
                "1 both 67 2024-03-04 00:00 2024-03-05 08:00 bab6b34b1d6c80c09cb0ca89255359ec210d319c8893efa63f9e2b4059e2afaf\n",
                0,
            ),
            ("files 18", "", "S4 unknown driver\n", 1),
        ],
    ),
    (
        "words",
        &[
            IMPORT,
            ("import whole", A_DAY, "P1 bad part\n", 1),
            ("breaches 017", "", "N1 bad number\n", 1),
            ("sheet 17 2024-13", "", "Z2 no such date\n", 1),
            ("sheet 017 2024-13", "", "N1 bad number\n", 1),
            ("why 017 2024-13", "", "N1 bad number\n", 1),
            ("why 17 2024-13", "", "Z2 no such date\n", 1),
            ("why 18 2024-03", "", "S4 unknown driver\n", 1),
            ("breaches 18", "", "S4 unknown driver\n", 1),
            ("spans 17 2024-3", "", "Z1 not of the shape\n", 1),
            ("gaps 17 2100-01", "", "Z3 out of range\n", 1),
            ("withdraw 17 1000001", "", "N1 bad number\n", 1),
            ("withdraw 17 1000000", "", "S7 unknown entry\n", 1),
            ("withdraw 17 1 1000001", "", "N1 bad number\n", 1),
            ("withdraw 17 1000001 1", "", "N1 bad number\n", 1),
            ("withdraw 17 2 1", "", "N2 wrong order\n", 1),
            ("withdraw 18 2 1", "", "N2 wrong order\n", 1),
            ("withdraw 18 1 2", "", "S4 unknown driver\n", 1),
            ("name 017", "Anna Lind\n", "N1 bad number\n", 1),
            ("name 17", "Anna, Lind\n", "E9 bad value for name\n", 1),
            ("name 17", "", "E9 bad value for name\n", 1),
            ("name 18", "Anna, Lind\n", "E9 bad value for name\n", 1),
            ("name 18", "Anna Lind\n", "S4 unknown driver\n", 1),
            ("form 17 2024-3-4", "", "Z1 not of the shape\n", 1),
            ("form 18 2024-03-04", "", "S4 unknown driver\n", 1),
            ("handover 17 2024-03-01 2024-03-01", "", "Z4 period\n", 1),
            ("handover 18 2024-03-01 2025-03-03", "", "Z4 period\n", 1),
            (
                "handover 18 2024-03-01 2025-03-02",
                "",
                "S4 unknown driver\n",
                1,
            ),
            ("file 17 2", "", "S10 unknown download\n", 1),
            ("base 17 2024-03-05", "", "S9 not a Monday\n", 1),
            ("base 1000000 2024-03-04", "", "N1 bad number\n", 1),
            ("breaches 17", "", BREACHES, 0),
        ],
    ),
    (
        "files with faults",
        &[
            ("import both", CUT, "C1 truncated block at 67\n", 1),
            ("import both", "", "C3 no identification\n", 1),
            ("import both", NO_RECORDS, "repeated driver 17\n", 0),
            ("file 17 1", "", "S10 unknown download\n", 1),
            ("files 17", "", "", 0),
            (
                "import both",
                TWO_BLOCKS,
                "C14 file contradicts itself at 2024-03-04 08:00\n",
                1,
            ),
            ("import first", TWO_BLOCKS, "added driver 17 number 1\n", 0),
            (
                "files 17",
                "",
                "1 first 112 2024-03-04 00:00 2024-03-05 08:00 9b41058a39e9dd9326708592c7bfa009cf5d278c07563d022ef5087edcb779b5\n",
                0,
            ),
        ],
    ),
    (
        "noon, and the day",
        &[
            ("import both", NOON, "added driver 17 number 1\n", 0),
            ("import both", A_DAY, "added driver 17 number 2\n", 0),
            ("import both", NOON, "repeated driver 17\n", 0),
            ("files 17", "", NOON_AND_DAY, 0),
            ("spans 17 2024-03", "", SPANS, 0),
        ],
    ),
    (
        "a day that contradicts",
        &[
            IMPORT,
            (
                "import both",
                ANOTHER_DAY,
                "S6 contradiction at 2024-03-04 08:00\n",
                1,
            ),
            ("spans 17 2024-03", "", SPANS, 0),
        ],
    ),
    (
        "an entry that is withdrawn",
        &[
            (
                "enter 17",
                "start,past,activity\n2024-03-09 00:00,2024-03-11 00:00,rest\n",
                "entered 1 to 1\n",
                0,
            ),
            (
                "import both",
                SATURDAY,
                "S6 contradiction at 2024-03-09 08:00\n",
                1,
            ),
            ("withdraw 17 1", "", "withdrawn 1\n", 0),
            (
                "entries 17",
                "",
                "1 2024-03-09 00:00 2024-03-11 00:00 rest withdrawn \"office\" \"\"\n",
                0,
            ),
            ("import both", SATURDAY, "added driver 17 number 1\n", 0),
            (
                "spans 17 2024-03",
                "",
                "start,past,activity,manning\n2024-03-09 00:00,2024-03-09 08:00,rest,single\n2024-03-09 08:00,2024-03-09 10:00,work,single\n",
                0,
            ),
            ("withdraw 17 1", "", "S8 already withdrawn\n", 1),
        ],
    ),
    (
        "a range of entries that is withdrawn, and another name",
        &[
            ("enter 17", THREE_DAYS, "entered 1 to 3\n", 0),
            ("withdraw 17 2", "", "withdrawn 2\n", 0),
            ("withdraw 17 1 3", "", "S8 already withdrawn\n", 1),
            ("withdraw 17 3 4", "", "S7 unknown entry\n", 1),
            ("withdraw 17 3 3", "", "withdrawn 3 to 3\n", 0),
            (
                "spans 17 2024-03",
                "",
                "start,past,activity,manning\n2024-03-09 00:00,2024-03-10 00:00,rest,single\n",
                0,
            ),
            (
                "enter 17",
                "start,past,activity\n2024-03-10 00:00,2024-03-10 12:00,work\n",
                "entered 4 to 4\n",
                0,
            ),
            (
                "form 17 2024-03-06",
                "",
                "start,past,activity,author,note\n2024-03-04 00:00,2024-03-06 00:00,,,\n",
                0,
            ),
            ("name 17", "Anna Lind", "name 17\n", 0),
            (
                "entries 17",
                "",
                "1 2024-03-09 00:00 2024-03-10 00:00 rest kept \"office\" \"\"\n2 2024-03-10 00:00 2024-03-11 00:00 rest withdrawn \"office\" \"\"\n3 2024-03-11 00:00 2024-03-12 00:00 rest withdrawn \"office\" \"\"\n4 2024-03-10 00:00 2024-03-10 12:00 work kept \"office\" \"\"\n",
                0,
            ),
            (
                "drivers 17",
                "",
                "17 0d4431323334353637383930313233 2024-03-04 0 4 Anna Lind\n",
                0,
            ),
        ],
    ),
    (
        "batches",
        &[
            ("enter 17", "start,past,activity\n", "entered none\n", 0),
            (
                "enter 17",
                "start,past,activity\n2024-01-01 00:00,2025-01-01 00:00,rest\n",
                "entered 1 to 1\n",
                0,
            ),
            (
                "enter 17",
                "start,past,activity\n2024-01-01 00:00,2025-01-01 00:01,rest\n",
                "E7 too long in row 2\n",
                1,
            ),
            (
                "enter 17",
                "start,past,activity\n2024-01-01 00:00,2024-01-01 01:00,ferry\n",
                "E5 left out in row 2: ferry\n",
                1,
            ),
            (
                "enter 17",
                "start,past,activity\n2025-01-01 00:00,2025-01-01 01:00,work\n2025-01-02 00:00,2025-01-02 01:00,drive\n",
                "entered 2 to 3\n",
                0,
            ),
            (
                "enter 18",
                "start,past,activity\n",
                "S4 unknown driver\n",
                1,
            ),
        ],
    ),
    (
        "long days, withdrawn and examined from another day",
        &[
            (
                "enter 17",
                "start,past,activity\n2024-03-04 00:00,2024-03-04 06:00,rest\n2024-03-04 06:00,2024-03-04 10:30,drive\n2024-03-04 10:30,2024-03-04 11:15,rest\n2024-03-04 11:15,2024-03-04 15:45,drive\n2024-03-04 15:45,2024-03-04 16:30,rest\n2024-03-04 16:30,2024-03-04 16:31,drive\n2024-03-04 16:31,2024-03-05 00:00,rest\n2024-03-05 00:00,2024-03-05 06:00,rest\n2024-03-05 06:00,2024-03-05 10:30,drive\n2024-03-05 10:30,2024-03-05 11:15,rest\n2024-03-05 11:15,2024-03-05 15:45,drive\n2024-03-05 15:45,2024-03-05 16:30,rest\n2024-03-05 16:30,2024-03-05 16:31,drive\n2024-03-05 16:31,2024-03-06 00:00,rest\n2024-03-06 00:00,2024-03-06 06:00,rest\n2024-03-06 06:00,2024-03-06 10:30,drive\n2024-03-06 10:30,2024-03-06 11:15,rest\n2024-03-06 11:15,2024-03-06 15:45,drive\n2024-03-06 15:45,2024-03-06 16:30,rest\n2024-03-06 16:30,2024-03-06 17:31,drive\n2024-03-06 17:31,2024-03-07 00:00,rest\n",
                "entered 1 to 21\n",
                0,
            ),
            (
                "breaches 17",
                "",
                "B5 Art 6(1) at 2024-03-06 16:30 since 2024-03-06 06:00 amount 61\nB4 Art 6(1) at 2024-03-06 17:30 since 2024-03-06 06:00 amount 1\nEXAMINED TO 2024-03-07 00:00 unknown\n",
                0,
            ),
            // Another program computed this evidence.
            (
                "why 17 2024-03",
                "",
                "B5 Art 6(1) at 2024-03-06 16:30 since 2024-03-06 06:00 amount 61\n  week 2024-03-04\n  day 1 2024-03-04 06:00 2024-03-04 16:31 drive 9:01\n  day 2 2024-03-05 06:00 2024-03-05 16:31 drive 9:01\n  day 3 2024-03-06 06:00 2024-03-06 17:31 drive 10:01\n  drive 2024-03-06 06:00 2024-03-06 10:30 4:30 4:30\n  drive 2024-03-06 11:15 2024-03-06 15:45 4:30 9:00\n  drive 2024-03-06 16:30 2024-03-06 17:31 1:01 10:01\nB4 Art 6(1) at 2024-03-06 17:30 since 2024-03-06 06:00 amount 1\n  day 2024-03-06 06:00 2024-03-06 17:31\n  drive 2024-03-06 06:00 2024-03-06 10:30 4:30 4:30\n  drive 2024-03-06 11:15 2024-03-06 15:45 4:30 9:00\n  drive 2024-03-06 16:30 2024-03-06 17:31 1:01 10:01\n",
                0,
            ),
            ("base 17 2024-03-11", "", "base 2024-03-11\n", 0),
            (
                "breaches 17",
                "",
                "EXAMINED TO 2024-03-11 00:00 unknown\n",
                0,
            ),
            ("base 17 2024-03-04", "", "base 2024-03-04\n", 0),
            ("withdraw 17 20", "", "withdrawn 20\n", 0),
            (
                "breaches 17",
                "",
                "EXAMINED TO 2024-03-06 16:30 unknown\n",
                0,
            ),
        ],
    ),
];

#[test]
fn command_lines_at_an_archive(rt: HostRuntime) -> Result<(), Fail> {
    for (row, commands) in ROWS {
        let mut archive = open_memory(rt.alloc())?;
        take(&rt, rt.alloc(), &mut archive, row, &[ANNA])?;
        take(&rt, rt.alloc(), &mut archive, row, commands)?;
    }
    Ok(())
}

#[test]
fn command_lines_at_a_shelf(rt: HostRuntime) -> Result<(), Fail> {
    for (row, commands) in ROWS {
        let mut shelf = Shelf::new(rt.alloc());
        take(&rt, rt.alloc(), &mut shelf, row, &[ANNA])?;
        take(&rt, rt.alloc(), &mut shelf, row, commands)?;
    }
    Ok(())
}
