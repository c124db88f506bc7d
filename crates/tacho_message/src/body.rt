ghost use Rattle.std.specs.Prelude.{◌≡◌, ◌↔◌, [], Err, true, false, drop, length, IfOk, OnOk, IsErrOf};
ghost use Rattle.std.specs.Io.KnownBytes.{Consumes};
ghost use Rattle.tacho_message.specs.Body.{IsBody, IsCutShort, Lacks};

use std::alloc::{AllocError, Global};
use tacho_time::{Failed, Source};

/// Why a body was not read.
#[derive(Clone, Copy)]
pub enum BodyFault {
    /// The input ended before the end of the body.
    Ended,
    /// The reader failed.
    Read,
    /// Out of memory.
    Memory,
}

impl From<AllocError> for BodyFault {
    ghost use Rattle.tacho_message.specs.declared.body.BodyFault.{BodyFault};

    ghost from_gives = { λ _ fault. fault ≡ BodyFault.Memory };

    fn from(_: AllocError) -> BodyFault {
        BodyFault::Memory
    }
}

impl From<Failed> for BodyFault {
    ghost use Rattle.tacho_message.specs.declared.body.BodyFault.{BodyFault};

    ghost from_gives = { λ _ fault. fault ≡ BodyFault.Read };

    fn from(_: Failed) -> BodyFault {
        BodyFault::Read
    }
}

/// Reads a body of `count` bytes. Its first bytes, which came after the head, are in `after_head`. Doesn't read beyond the body.
pub fn read_body<R: Source>(
    alloc: Global,
    reader: &mut R,
    after_head: &[u8],
    count: usize,
) -> Result<Vec<u8>, BodyFault>
    requires { R.has_failed reader.old ≡ false }
    ensures body { IfOk result (λ body. IsBody after_head.now (R.unread reader.old) count body.items) }
    // No more than the body was consumed.
    ensures taken { IfOk result (λ body. Consumes (R.unread reader.old) (R.unread reader.new) (drop (length after_head.now) body.items)) }
    ensures ended { result ≡ Err BodyFault.Ended → IsCutShort after_head.now (R.unread reader.old) count }
    // If the reader failed, it had given fewer bytes than the body needed.
    ensures lacks { result ≡ Err BodyFault.Read → Lacks after_head.now (R.unread reader.old) (R.unread reader.new) count }
    ensures failed { IsErrOf result BodyFault.Read ↔ (R.has_failed reader.new ≡ true) }
{
    let known = after_head.len().min(count);
    let mut body = Vec::new(alloc);
    body.extend_from_slice(&after_head[..known])?;
    body.resize(count, 0)?;
    fill(reader, &mut body[known..])?;
    Ok(body)
}

/// Fills a buffer with the next bytes, and doesn't read beyond them.
fn fill<R: Source>(reader: &mut R, buffer: &mut [u8]) -> Result<(), BodyFault>
    requires { R.has_failed reader.old ≡ false }
    ensures read { OnOk result (Consumes (R.unread reader.old) (R.unread reader.new) buffer.new) }
    ensures ended { result ≡ Err BodyFault.Ended → IsCutShort [] (R.unread reader.old) (length buffer.old) }
    ensures lacks { result ≡ Err BodyFault.Read → Lacks [] (R.unread reader.old) (R.unread reader.new) (length buffer.old) }
    ensures failed { IsErrOf result BodyFault.Read ↔ (R.has_failed reader.new ≡ true) }
{
    let mut filled = 0;
    while filled < buffer.len() {
        let count = reader.take(&mut buffer[filled..])?;
        if count == 0 {
            return Err(BodyFault::Ended);
        }
        filled += count;
    }
    Ok(())
}
