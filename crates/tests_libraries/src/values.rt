ghost use Rattle.std.specs.Prelude.{◌≤◌};
ghost use Rattle.tacho_time.specs.Limits.{greatest_minute};

use crate::same::assert_same;
use std::test::Fail;
use tacho_card::{Cyclic, spans_of};
use tacho_time::{Activity, Mark, Minute, Span};

/// Two records: one of a Monday from 00:00 on with four words, and one of the next day with two.
const TWO_DAYS: [u8; 40] = [
    0x00, 0x00, 0x00, 0x14, 0x00, 0x00, 0x00, 0x14, 0x65, 0xe5, 0x0f, 0x00, 0x00, 0x01, 0x00, 0x64,
    0x00, 0x00, 0x11, 0xe0, 0x19, 0xfe, 0x23, 0xfc, 0x00, 0x14, 0x00, 0x10, 0x65, 0xe6, 0x60, 0x80,
    0x00, 0x02, 0x00, 0x00, 0x00, 0x00, 0x11, 0xe0,
];

/// Returns a span of a driver who is alone.
fn single(start: u32, past: u32, activity: Activity) -> Span
    requires start { start ≤ greatest_minute }
    requires past { past ≤ greatest_minute }
{
    Span {
        start: Minute::new(start),
        past: Minute::new(past),
        mark: Mark {
            activity,
            crew: false,
        },
    }
}

#[test]
fn two_days_give_four_spans(rt: HostRuntime) -> Result<(), Fail> {
    let bytes = TWO_DAYS;
    let Ok(block) = Cyclic::read(&bytes) else {
        panic!(rt; "not read");
    };
    let Ok(spans) = spans_of(rt.alloc(), &block) else {
        panic!(rt; "a fault");
    };
    let wanted = [
        single(28_491_840, 28_492_320, Activity::Rest),
        single(28_492_320, 28_492_350, Activity::Work),
        single(28_492_350, 28_492_860, Activity::Drive),
        single(28_493_280, 28_493_760, Activity::Rest),
    ];
    assert_same(&rt, spans.as_slice(), wanted.as_slice());
    Ok(())
}
