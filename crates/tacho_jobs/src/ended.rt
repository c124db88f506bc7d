//! How a job ends.

ghost use Rattle.std.specs.Prelude.{◌≡◌, ℕ, Ok, Err};
ghost use Rattle.tacho_desk.specs.Told.{Told, answer_of};
ghost use Rattle.tacho_sheet.specs.Fault.{fault_of_store};
ghost use Rattle.tacho_jobs.specs.Ended.{EndsWith, told_reply};

use tacho_cli::tell_answer;
use tacho_desk::{Fault, Text};
use tacho_state::StoreFault;
use tacho_time::Sink;

/// How a job has ended. Its text, or the line of its fault, was written.
#[derive(Clone, Copy)]
pub struct Ended {
    /// The program's status: 0 done, 1 refused, 3 if memory ran out, the store failed, or a device failed.
    pub status: u8,
    /// Why the job was not done, if it was not.
    pub fault: Option<Fault>,
    /// True if the job gave a driver a key that others may guess, of fewer than 20 bytes.
    pub has_short_key: bool,
}

/// Writes the text of an answer, or the line of its fault. Allocates no memory.
pub(crate) fn end<W: Sink>(writer: &mut W, answer: &Result<Text, Fault>) -> Ended
    ensures { EndsWith told_reply (W.has_failed writer.new) (W.written writer.old) (W.written writer.new) result (answer_of answer.now) }
{
    let status = tell_answer(writer, answer);
    match answer {
        Ok(_) => Ended {
            status,
            fault: None,
            has_short_key: false,
        },
        Err(fault) => Ended {
            status,
            fault: Some(*fault),
            has_short_key: false,
        },
    }
}

/// Ends a job that an archive has refused, such as one whose file can't be opened: writes the line of the fault. Allocates no memory.
pub fn refuse<W: Sink>(writer: &mut W, fault: StoreFault) -> Ended
    ensures { EndsWith told_reply (W.has_failed writer.new) (W.written writer.old) (W.written writer.new) result (Err (fault_of_store fault)) }
{
    end(writer, &Err(Fault::from(fault)))
}
