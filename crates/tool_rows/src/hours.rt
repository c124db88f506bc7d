use std::alloc::Global;
use tacho_sheet::{SheetFault, read_entries};
use tacho_state::EntryLine;
use tacho_time::Activity;

/// What was found in a text, summed over all times that it was read.
#[derive(Drop)]
pub(crate) struct Count {
    pub(crate) lines: u64,
    pub(crate) minutes: u64,
    pub(crate) rests: u64,
}

impl Count {
    /// Counts a line.
    fn add(&mut self, line: &EntryLine) {
        let minutes = line.past().number().wrapping_sub(line.start().number());
        self.lines = self.lines.wrapping_add(1);
        self.minutes = self.minutes.wrapping_add(u64::from(minutes));
        if line.activity() == Activity::Rest {
            self.rests = self.rests.wrapping_add(1);
        }
    }
}

/// Reads the hours in a text of CSV `times` times, and returns what was found.
pub(crate) fn entered(alloc: Global, text: &[u8], times: u32) -> Result<Count, SheetFault> {
    let mut count = Count {
        lines: 0,
        minutes: 0,
        rests: 0,
    };
    for _ in 0..times {
        for line in &read_entries(alloc, text)? {
            count.add(line);
        }
    }
    Ok(count)
}
