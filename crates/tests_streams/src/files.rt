//! Card files imported one after the other, with writers that fail.

use crate::desk::{CASES, LIST, answer, archive_after};
use crate::faulty::Faulty;
use crate::same::assert_same;
use std::alloc::Global;
use std::test::Fail;
use tacho_cli::{CardFiles, import_files, read_input};
use tacho_desk::Fault;
use tacho_time::Device;

/// Card files in memory: the second case of `CASES`, and one with a fault. No file has another name.
#[derive(Clone, Copy)]
struct Cards;

impl CardFiles for Cards {
    ghost gives = { λ cards name read. Unit {0} };

    fn read(&self, alloc: Global, name: &str) -> Result<Vec<u8>, Fault> {
        match name {
            "anna.ddd" => read_input(alloc, &mut Device::new(CASES[1].1)),
            "b\n\x7f.ddd" => read_input(alloc, &mut Device::new(b"\x05\x20\x00".as_slice())),
            _ => Err(Fault::Device),
        }
    }
}

const NAMES: [&str; 4] = ["none.ddd", "anna.ddd", "anna.ddd", "b\n\x7f.ddd"];

const LINES: &str = "\
none.ddd: X2 device failed
anna.ddd: added driver 17 number 1
anna.ddd: repeated driver 17
b??.ddd: C1 truncated block at 0
1 added, 1 repeated, 2 refused
";

/// The line of the driver, without a card file and with one.
const WITHOUT_FILE: &str = "17 0d4431323334353637383930313233 2024-03-04 0 0 Anna Berg\n";

const WITH_FILE: &str = "17 0d4431323334353637383930313233 2024-03-04 1 0 Anna Berg\n";

#[test]
fn files_are_imported_until_the_writer_fails(rt: HostRuntime) -> Result<(), Fail> {
    let mut names = Vec::new(rt.alloc());
    for name in NAMES {
        names.push(String::from_str(rt.alloc(), name)?)?;
    }
    let mut is_whole = false;
    for calls in 0..70 {
        let mut shelf = archive_after(rt.alloc(), 1)?;
        let mut writer = Faulty::new(rt.alloc(), b"", 5, calls);
        let status = import_files(
            rt.alloc(),
            &mut shelf,
            "both",
            names.as_slice(),
            &Cards,
            &mut writer,
        );
        let written = writer.written.len();
        assert!(rt;
            LINES.as_bytes().starts_with(&writer.written),
            "of {calls} calls"
        );
        is_whole = written == LINES.len();
        assert_same(&rt, status, if is_whole { 1 } else { 3 });
        // A file was begun if the line before it was written whole.
        let (listed, _) = answer(rt.alloc(), &mut shelf, LIST, b"")?;
        let is_begun = written >= "none.ddd: X2 device failed\n".len();
        let wanted = if is_begun { WITH_FILE } else { WITHOUT_FILE };
        assert_same(&rt, listed.as_slice(), wanted.as_bytes());
    }
    assert!(rt; is_whole, "the last writer doesn't fail");
    Ok(())
}
