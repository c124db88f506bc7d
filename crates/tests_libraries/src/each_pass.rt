use crate::pieces::{BASE, Piece, at, breach, debt, drive, finds, line_of, work};
use crate::same::assert_same;
use std::alloc::{AllocError, Global};
use std::test::Fail;
use tacho_law::limits::LATEST;
use tacho_law::put_in_order;
use tacho_line::Line;
use tacho_rules::{Breach, Breaks, Days, Debt, Found, Kind, Pass, WeekRests, WeekSums};
use tacho_time::Minute;

/// Returns a week of long days from the 4th to the 9th, a morning on the 10th, and an hour on the 12th.
fn pieces(alloc: Global) -> Result<Vec<Piece>, AllocError> {
    Vec::from_slice(
        alloc,
        &[
            drive(4, 8, 360, 630),
            drive(9, 9, 361, 630),
            drive(4, 9, 675, 945),
            drive(4, 5, 990, 991),
            work(4, 5, 991, 1260),
            drive(6, 6, 990, 1051),
            work(6, 6, 1051, 1260),
            work(7, 7, 990, 1260),
            work(8, 8, 990, 1261),
            drive(10, 10, 360, 631),
            work(12, 12, 360, 420),
        ],
    )
}

/// Returns the end of the line of these pieces, 2024-03-13 00:00.
fn end() -> Minute {
    at(13, 0)
}

/// On the 10th there is driving from 06:00 to 10:31 without a break.
fn of_breaks() -> [Breach; 1] {
    [breach(Kind::B1, at(10, 630), at(10, 360), 1)]
}

/// The 6th is the third day of the week with more than 540 minutes of driving, and has 601. The rests of the 4th to the 7th
/// have 540 minutes, and that of the 8th one minute less within 24 hours.
fn of_days() -> [Breach; 4] {
    [
        breach(Kind::B5, at(6, 990), at(6, 360), 61),
        breach(Kind::B4, at(6, 1050), at(6, 360), 1),
        breach(Kind::B3, at(7, 1260), at(4, 360), 1),
        breach(Kind::B2, at(8, 1260), at(8, 360), 1),
    ]
}

/// The days from the 4th to the 10th have 541, 541, 601, 540, 540, 539 and 271 minutes of driving, 3,573 in total. Those of the first six
/// days are 3,302, so minute 3,361 is the 59th of the 10th.
fn of_sums() -> [Breach; 1] {
    [breach(Kind::B6, at(10, 418), at(4, 0), 213)]
}

/// A weekly rest ends on the 4th at 06:00. The next has to start by the 10th at 06:00, but starts at 10:31.
fn of_weekly_rests() -> [Breach; 1] {
    [breach(Kind::B8, at(10, 360), at(4, 360), 271)]
}

/// That rest lasts to the 12th at 06:00. It has 809 + 1,440 + 360 minutes, 91 fewer than 2,700. The rest from the 12th at 07:00 has 1,020
/// minutes up to the line's end. It keeps nine hours of them, and pays.
fn owed() -> Debt {
    debt(91, Some(at(12, 420)))
}

/// Returns what a pass alone finds in a line that is held without a gap from the base on.
fn found_by<P: Pass>(alloc: Global, line: &Line) -> Result<Found, Fail> {
    let base = Minute::new(BASE);
    let mut pass = P::new(base);
    let mut found = Found::empty(alloc);
    let mut place = base;
    for span in line.spans() {
        if span.start != place || span.past <= place || LATEST < span.past.number() {
            return Err(Fail::new("a line that is not held from the base on"));
        }
        pass.feed(*span, &mut found)?;
        place = span.past;
    }
    pass.finish(place, &mut found)?;
    put_in_order(&mut found.breaches);
    Ok(found)
}

#[test]
fn each_pass_finds_its_own_kinds(rt: HostRuntime) -> Result<(), Fail> {
    let alloc = rt.alloc();
    let line = line_of(alloc, &pieces(alloc)?, end())?;
    let found = found_by::<Breaks>(alloc, &line)?;
    assert_same(&rt, found.breaches.as_slice(), of_breaks().as_slice());
    assert_same(&rt, found.debts.len(), 0);
    let found = found_by::<Days>(alloc, &line)?;
    assert_same(&rt, found.breaches.as_slice(), of_days().as_slice());
    assert_same(&rt, found.debts.len(), 0);
    let found = found_by::<WeekSums>(alloc, &line)?;
    assert_same(&rt, found.breaches.as_slice(), of_sums().as_slice());
    assert_same(&rt, found.debts.len(), 0);
    let found = found_by::<WeekRests>(alloc, &line)?;
    assert_same(&rt, found.breaches.as_slice(), of_weekly_rests().as_slice());
    assert_same(&rt, found.debts.as_slice(), [owed()].as_slice());
    Ok(())
}

#[test]
fn a_report_has_what_each_of_them_finds(rt: HostRuntime) -> Result<(), Fail> {
    let alloc = rt.alloc();
    let mut found = Vec::from_slice(alloc, &of_breaks())?;
    found.extend_from_slice(&of_days())?;
    found.extend_from_slice(&of_sums())?;
    found.extend_from_slice(&of_weekly_rests())?;
    put_in_order(&mut found);
    assert!(rt; finds(alloc, &pieces(alloc)?, end(), &found, &[owed()])?);
    Ok(())
}
