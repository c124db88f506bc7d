ghost use Rattle.std.specs.Prelude.{◌≡◌, MatchResult, Ok, Err};
ghost use Rattle.tacho_time.specs.Reading.{day_at};
ghost use Rattle.tacho_time.specs.declared.fault.TimeFault.{TimeFault};
ghost use Rattle.tacho_sheet.specs.Fault.{time_fault};
ghost use Rattle.tacho_cli.specs.Carried.{carried_line};
ghost use Rattle.tacho_cli.specs.Command.{IsWrittenOut};

use crate::reply::tell;
use arrayvec::ArrayString;
use itoa::Buffer;
use tacho_carry::Carried;
use tacho_desk::Fault;
use tacho_time::{Day, Sink};

/// The line of what was carried. Allocates no memory.
type CarriedLine = ArrayString<96>;

/// The day from which an archive is carried over: Z1, Z2, Z3.
pub fn carry_day(date: &str) -> Result<Day, Fault>
    ensures { MatchResult result (λ day. day_at date.now ≡ Ok day)
        (λ fault. (e : TimeFault) × (day_at date.now ≡ Err e) × (fault ≡ time_fault e)) }
{
    match Day::read(date.as_bytes()) {
        Ok(day) => Ok(day),
        Err(fault) => Err(Fault::from(fault)),
    }
}

/// The line of how many drivers were carried: `carried 12 of 14 drivers`.
fn line_of(done: Carried) -> CarriedLine
    ensures { result.bytes ≡ carried_line done }
{
    let mut digits = Buffer::new();
    let mut line = CarriedLine::new();
    line.push_str("carried ");
    line.push_str(digits.format(done.carried));
    line.push_str(" of ");
    line.push_str(digits.format(done.all));
    line.push_str(" drivers\n");
    line
}

/// Writes how many drivers were carried, and returns the program's status: 0 done, 3 if the writer failed.
pub fn tell_carried<W: Sink>(writer: &mut W, done: Carried) -> u8
    ensures { IsWrittenOut (W.has_failed writer.new) (W.written writer.old) (W.written writer.new) (record {
      text = carried_line done;
      status = 0;
    }) result }
{
    tell(writer, line_of(done).as_bytes(), 0)
}
