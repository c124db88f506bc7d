ghost use Rattle.std.specs.Prelude.{◌≡◌};
ghost use Rattle.tacho_desk.specs.Told.{answer_of};
ghost use Rattle.tacho_cli.specs.Command.{IsWrittenOut, failure_reply};
ghost use Rattle.tacho_cli.specs.Fault.{exit_status};
ghost use Rattle.tacho_cli.specs.Office.{reply_of_answer};

use tacho_desk::{Fault, Text};
use tacho_sheet::fault_line;
use tacho_state::StoreFault;
use tacho_time::{Sink, write_all};

/// Writes a text, and returns the status, or 3 if the writer failed.
pub(crate) fn tell<W: Sink>(writer: &mut W, text: &[u8], status: u8) -> u8
    ensures { IsWrittenOut (W.has_failed writer.new) (W.written writer.old) (W.written writer.new) (record { text = text.now; status = status }) result }
{
    match write_all(writer, text) {
        Ok(()) => status,
        Err(_) => 3,
    }
}

/// Writes the line of a fault, and returns its status, or 3 if the writer failed. Allocates no memory.
pub(crate) fn tell_fault<W: Sink>(writer: &mut W, fault: Fault) -> u8
    ensures { IsWrittenOut (W.has_failed writer.new) (W.written writer.old) (W.written writer.new) (failure_reply fault) result }
{
    tell(writer, fault_line(fault).as_bytes(), status_of(&fault))
}

/// Writes the text of an answer or the line of its fault, and returns the status, or 3 if the writer failed. Allocates no memory.
pub fn tell_answer<W: Sink>(writer: &mut W, answer: &Result<Text, Fault>) -> u8
    ensures { IsWrittenOut (W.has_failed writer.new) (W.written writer.old) (W.written writer.new) (reply_of_answer (answer_of answer.now)) result }
{
    match answer {
        Ok(text) => tell(writer, text.bytes(), 0),
        Err(fault) => tell_fault(writer, *fault),
    }
}

/// The program's status after a fault: 3 if memory ran out, the store failed or a device failed, otherwise 1.
fn status_of(fault: &Fault) -> u8
    ensures { result ≡ exit_status fault.now }
{
    match fault {
        Fault::Memory | Fault::Device | Fault::Store(StoreFault::Store) => 3,
        _ => 1,
    }
}
