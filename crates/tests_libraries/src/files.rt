use crate::same::assert_same;
use std::alloc::{AllocError, Global};
use std::test::Fail;
use tacho_card::{CardFault, CardFile, Part, spans};
use tacho_time::Minute;

/// An identification of kind 00: the card's number ends in 00.
const IDENTIFIED: &[u8] = b"\x05\x20\x00\x00\x11\x0dD123456789012300";

/// Returns the holder that a file with these bytes names.
fn holder_of(bytes: &[u8]) -> Result<[u8; 15], CardFault> {
    Ok(CardFile::read(bytes)?.holder())
}

fn joined(alloc: Global, first: &[u8], second: &[u8]) -> Result<Vec<u8>, AllocError> {
    let mut bytes = Vec::from_slice(alloc, first)?;
    bytes.extend_from_slice(second)?;
    Ok(bytes)
}

#[test]
fn reads_the_holder(rt: HostRuntime) {
    assert_same(&rt, holder_of(IDENTIFIED), Ok(*b"\x0dD1234567890123"));
}

#[test]
fn goes_over_the_blocks(rt: HostRuntime) -> Result<(), Fail> {
    let file = CardFile::read(IDENTIFIED)?;
    let mut blocks = file.blocks();
    let block = blocks.next().ok_or("a block")?;
    assert_same(&rt, block.identifier(), 0x0520);
    assert_same(&rt, block.kind(), 0);
    assert_same(&rt, block.value().len(), 17);
    assert!(rt; blocks.next().is_none());
    Ok(())
}

/// Two days of activity of the first generation, and different words for them of the second.
const TWO_GENERATIONS: &[u8] = &[
    0x05, 0x04, 0x00, 0x00, 0x28, 0x00, 0x00, 0x00, 0x14, 0x00, 0x00, 0x00, 0x14, 0x65, 0xe5, 0x0f,
    0x00, 0x00, 0x01, 0x00, 0x64, 0x00, 0x00, 0x11, 0xe0, 0x19, 0xfe, 0x23, 0xfc, 0x00, 0x14, 0x00,
    0x10, 0x65, 0xe6, 0x60, 0x80, 0x00, 0x02, 0x00, 0x00, 0x00, 0x00, 0x11, 0xe0, 0x05, 0x04, 0x02,
    0x00, 0x28, 0x00, 0x00, 0x00, 0x14, 0x00, 0x00, 0x00, 0x14, 0x65, 0xe5, 0x0f, 0x00, 0x00, 0x01,
    0x00, 0x64, 0x00, 0x00, 0x11, 0xea, 0x1a, 0x08, 0x23, 0xf2, 0x00, 0x14, 0x00, 0x10, 0x65, 0xe6,
    0x60, 0x80, 0x00, 0x02, 0x00, 0x00, 0x08, 0x00, 0x11, 0xe0,
];

#[test]
fn reads_each_generation(rt: HostRuntime) -> Result<(), Fail> {
    let bytes = joined(rt.alloc(), IDENTIFIED, TWO_GENERATIONS)?;
    let file = CardFile::read(&bytes)?;
    // 4 March 2024, 08:00: from then on, the first generation has work, and the second still has rest.
    let contradiction = CardFault::SelfContradiction(Minute::new(28_492_320));
    assert_same(
        &rt,
        spans(rt.alloc(), &file, Part::Both).err(),
        Some(contradiction),
    );
    // The ends of the four spans. Both generations end at the same minute.
    for (part, pasts) in [
        (
            Part::First,
            [28_492_320, 28_492_350, 28_492_860, 28_493_760],
        ),
        (
            Part::Second,
            [28_492_330, 28_492_360, 28_492_850, 28_493_760],
        ),
    ] {
        let spans = spans(rt.alloc(), &file, part)?;
        assert_same(&rt, spans.len(), 4);
        for (span, past) in spans.iter().zip(pasts) {
            assert_same(&rt, span.past.number(), past);
        }
    }
    Ok(())
}
