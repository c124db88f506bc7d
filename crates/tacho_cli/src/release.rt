ghost use Rattle.tacho_cli.specs.Command.{IsWrittenOut};
ghost use Rattle.tacho_cli.specs.Version.{version_reply};

use crate::reply::tell;
use tacho_desk::version_text;
use tacho_time::Sink;

/// `tacho version`: writes the version of the program, the schema of the archives that it makes, and the logic in which it is proved, a line
/// each. Returns the program's status: 0 done, 3 if the writer failed.
pub fn version<W: Sink>(writer: &mut W) -> u8
    ensures { IsWrittenOut (W.has_failed writer.new) (W.written writer.old) (W.written writer.new) version_reply result }
{
    tell(writer, version_text(), 0)
}
