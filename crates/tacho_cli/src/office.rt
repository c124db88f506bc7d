ghost use Rattle.std.specs.Prelude.{◌≡◌, Err, false, true, MatchResult};
ghost use Rattle.tacho_desk.specs.Words.{wish_in};
ghost use Rattle.tacho_sheet.specs.declared.fault.Fault.{Fault as FaultValue};
ghost use Rattle.tacho_desk.specs.Told.{answer_of};
ghost use Rattle.tacho_desk.specs.Wants.{takes_input as has_text};
ghost use Rattle.tacho_cli.specs.Office.{HasNotRead, HasRead, OfDesk, OfficeWants, Performed, Replied};
ghost use Rattle.tacho_cli.specs.Words.{at_desk, has_input};

use crate::job::{DeskJob, Job};
use crate::reply::tell_answer;
use std::alloc::Global;
use tacho_desk::{Fault, Text, carry_out, task_of};
use tacho_state::{Caller, Keeper};
use tacho_time::{Sink, Source, read_all};

/// The most bytes that an input can have.
const INPUT_LIMIT: usize = 262_144;

/// Does a job at an archive, as the office. Reads its arguments from left to right, then its input if it has one (at most 262,144 bytes),
/// acts, and writes its text or the line of its fault. Returns the program's status: 0 done, 1 refused, 3 if memory ran out, the store
/// failed, or a device failed.
///
/// After a refusal, or if the reader failed, the archive is as it was before. If the writer failed, the job was done, and a prefix of its
/// text is written. What a command answered with success is durable.
///
/// A job without input, or with bad arguments, does not touch the reader, so it never waits for input. If an argument or the input is bad,
/// the archive is not accessed, so a store failure (S12) is reported only after such faults. If both are valid, no fault of theirs is
/// reported except E8, even if the store fails. X2 is reported only if a device failed.
pub fn perform_at_desk<K: Keeper, R: Source, W: Sink>(
    alloc: Global,
    job: DeskJob<'_>,
    keeper: &mut K,
    reader: &mut R,
    writer: &mut W,
) -> u8
    requires reader { R.has_failed reader.old ≡ false }
    requires writer { W.has_failed writer.old ≡ false }
    ensures performed { Replied (Performed K.stands K.is_clean K.is_live K.leaves K.is_same keeper.old keeper.new
        (wish_in job.entry.wish) (R.unread reader.old) (R.has_failed reader.new))
        (W.has_failed writer.new) (W.written writer.old) (W.written writer.new) result }
    ensures alone { has_text job.entry.wish.want ≡ false → reader.new ≡ reader.old }
    ensures words { (fault : FaultValue) → OfficeWants (wish_in job.entry.wish) (Err fault) → reader.new ≡ reader.old }
{
    tell_answer(writer, &answer_at_desk(alloc, job, keeper, reader))
}

/// Does a job at an archive, as `perform_at_desk` does. The job has to be one for which `Job::at_desk` is true.
pub fn perform<K: Keeper, R: Source, W: Sink>(
    alloc: Global,
    job: Job<'_>,
    keeper: &mut K,
    reader: &mut R,
    writer: &mut W,
) -> u8
    requires desk { at_desk job ≡ true }
    requires reader { R.has_failed reader.old ≡ false }
    requires writer { W.has_failed writer.old ≡ false }
    ensures performed { OfDesk job.entry (λ wish.
        Replied (Performed K.stands K.is_clean K.is_live K.leaves K.is_same keeper.old keeper.new wish
        (R.unread reader.old) (R.has_failed reader.new))
        (W.has_failed writer.new) (W.written writer.old) (W.written writer.new) result) }
    ensures alone { has_input job.entry ≡ false → reader.new ≡ reader.old }
    ensures words { OfDesk job.entry (λ wish. (fault : FaultValue) → OfficeWants wish (Err fault) → reader.new ≡ reader.old) }
{
    let Job::AtDesk(job) = job else {
        unreachable!()
    };
    perform_at_desk(alloc, job, keeper, reader, writer)
}

/// Does a job at an archive as `perform_at_desk` does, and answers it without writing anything.
pub fn answer_at_desk<K: Keeper, R: Source>(
    alloc: Global,
    job: DeskJob<'_>,
    keeper: &mut K,
    reader: &mut R,
) -> Result<Text, Fault>
    requires reader { R.has_failed reader.old ≡ false }
    ensures performed { Performed K.stands K.is_clean K.is_live K.leaves K.is_same keeper.old keeper.new
        (wish_in job.entry.wish) (R.unread reader.old) (R.has_failed reader.new) (answer_of result) }
    ensures alone { has_text job.entry.wish.want ≡ false → reader.new ≡ reader.old }
    ensures words { (fault : FaultValue) → OfficeWants (wish_in job.entry.wish) (Err fault) → reader.new ≡ reader.old }
{
    let task = task_of(Caller::Office, job.wish)?;
    if !job.wish.want.takes_input() {
        return carry_out(alloc, keeper, task, &[]);
    }
    let input = read_input(alloc, reader)?;
    carry_out(alloc, keeper, task, &input)
}

/// Reads an input of at most 262,144 bytes: a text of CSV, a card file or a key. Fails with X1 if it is larger, with X2 if it can't be read,
/// and with M1 if memory runs out.
pub fn read_input<R: Source>(alloc: Global, reader: &mut R) -> Result<Vec<u8>, Fault>
    ensures { MatchResult result (λ input. HasRead (R.unread reader.old) (R.has_failed reader.new) input.items)
        (λ fault. HasNotRead (R.unread reader.old) (R.has_failed reader.new) fault) }
{
    Ok(read_all(alloc, reader, INPUT_LIMIT)?)
}
