//! Several card files, imported in order.

ghost use Rattle.std.specs.Prelude.{◌≡◌, ℕ, List, Result, None, Ok, Err, Some, IfErr, IfOk, OnErr, OnOk, false, is_err, map, string_bytes};
ghost use Rattle.std.specs.Prelude.{take};
ghost use Rattle.std.specs.Io.KnownBytes.{Appends};
ghost use Rattle.tacho_card.specs.declared.file.Part.{Part as PartValue};
ghost use Rattle.tacho_desk.specs.Told.{answer_of};
ghost use Rattle.tacho_desk.specs.Words.{part_of as part_named};
ghost use Rattle.tacho_cli.specs.Card.{no_part_reply};
ghost use Rattle.tacho_cli.specs.Command.{IsWrittenOut};
ghost use Rattle.tacho_sheet.specs.declared.fault.Fault.{Fault as FaultValue};
ghost use Rattle.tacho_cli.specs.Files.{ImportsFiles, IsFileRead, file_answer_line};
ghost use Rattle.tacho_cli.specs.Tally.{AnswersFile};

use crate::reply::{tell, tell_answer, tell_fault};
use crate::tally::Tally;
use std::alloc::Global;
use tacho_card::Part;
use tacho_desk::{Fault, Task, Text, carry_out, part_of};
use tacho_state::{Caller, Keeper};
use tacho_time::{Failed, Sink, write_all};

/// Where card files are found by their names.
pub trait CardFiles {
    /// A name gives these bytes, or this fault.
    ghost gives: { Self → List ℕ → Result (List ℕ) FaultValue → Type 0 };

    /// Reads a file of at most 262,144 bytes. Fails with X1 if it is larger, with X2 if it can't be opened or read, and with M1 if memory runs
    /// out.
    fn read(&self, alloc: Global, name: &str) -> Result<Vec<u8>, Fault>
        ensures ok { IfOk result (λ file. gives self.now name.now (Ok file.items) × IsFileRead (Ok file.items)) }
        ensures err { IfErr result (λ fault. gives self.now name.now (Err fault) × IsFileRead (Err fault)) };
}

/// `tacho import ARCHIVE PART FILE..`: imports card files in order, as the office, each in a transaction of its own: a refusal doesn't stop
/// the next. Each is read whole before its transaction begins. Writes a line for each, its name and the line of its import, and at the end
/// how many were added, repeated and refused. Ends after the file at which memory ran out (M1) or the store failed (S12), and if a line
/// can't be written. Returns the program's status: 0 done, 1 if a file was refused, 3 if memory ran out, the store failed or the writer failed.
pub fn import_files<K: Keeper, F: CardFiles, W: Sink>(
    alloc: Global,
    keeper: &mut K,
    part: &str,
    names: &[String],
    files: &F,
    writer: &mut W,
) -> u8
    requires { W.has_failed writer.old ≡ false }
    ensures no_part { part_named part.now ≡ None → (keeper.new ≡ keeper.old)
        × IsWrittenOut (W.has_failed writer.new) (W.written writer.old) (W.written writer.new) no_part_reply result }
    ensures imported { (p : PartValue) → part_named part.now ≡ Some p
        → ImportsFiles (F.gives files.now) K.stands K.is_clean K.leaves keeper.old keeper.new p (map string_bytes names.now)
        (W.has_failed writer.new) (W.written writer.old) (W.written writer.new) result }
{
    let Some(part) = part_of(part.as_bytes()) else {
        return tell_fault(writer, Fault::Part);
    };
    let mut tally = Tally::new();
    for name in names {
        let answer = answer_to(alloc, keeper, part, name, files);
        tally.count(&answer);
        let Ok(()) = tell_line(writer, name.as_bytes(), &answer) else {
            return 3;
        };
        if tally.ended {
            break;
        }
    }
    tell(writer, tally.line().as_bytes(), tally.status())
}

/// Reads a file and imports it, as the office. Otherwise the answer is why it was not read.
fn answer_to<K: Keeper, F: CardFiles>(
    alloc: Global,
    keeper: &mut K,
    part: Part,
    name: &str,
    files: &F,
) -> Result<Text, Fault>
    ensures { AnswersFile (F.gives files.now) K.stands K.is_clean K.is_live K.leaves K.is_same keeper.old keeper.new part name.now (answer_of result) }
{
    let caller = Caller::Office;
    match files.read(alloc, name) {
        Ok(file) => carry_out(alloc, keeper, Task::Import { caller, part }, &file),
        Err(fault) => Err(fault),
    }
}

/// Writes the line of a file: its name, and the line of the answer. In the name it writes a question mark for each control character, so
/// that the name stays in its line.
fn tell_line<W: Sink>(
    writer: &mut W,
    name: &[u8],
    answer: &Result<Text, Fault>,
) -> Result<(), Failed>
    ensures all { OnOk result (Appends (W.written writer.old) (W.written writer.new)
        (file_answer_line (record { name = name.now; answer = answer_of answer.now }))) }
    ensures beginning { OnErr result ((n : ℕ) × Appends (W.written writer.old) (W.written writer.new)
        (take n (file_answer_line (record { name = name.now; answer = answer_of answer.now })))) }
    ensures failed { W.has_failed writer.new ≡ is_err result }
{
    for &byte in name {
        let shown = if byte.is_ascii_control() { b'?' } else { byte };
        write_all(writer, &[shown])?;
    }
    write_all(writer, b": ")?;
    tell_answer(writer, answer);
    if writer.failed() { Err(Failed) } else { Ok(()) }
}
