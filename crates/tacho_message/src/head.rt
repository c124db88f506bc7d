ghost use Rattle.std.specs.Prelude.{◌≡◌, ◌≤◌, ◌↔◌, Err, true, false, length, take, IfOk, IfErr, IsErrOf};
ghost use Rattle.std.specs.Io.KnownBytes.{Consumes};
ghost use Rattle.tacho_message.specs.Head.{IsHeadAt, IsRefused, IsUnfinished};
ghost use Rattle.tacho_message.specs.Look.{IsLook};

use httparse::Status;
use httparse::spans::{HeaderSpan, RequestSpans, parse_request};
use tacho_time::{Failed, Source};

/// Why an input has no head.
#[derive(Clone, Copy)]
pub enum HeadFault {
    /// 400: the input ended before the end of a head, or no continuation is a head.
    Bad,
    /// 431: the head doesn't end within the buffer, or it has more fields than there is room for.
    TooLarge,
    /// The reader failed.
    Read,
}

impl From<Failed> for HeadFault {
    ghost use Rattle.tacho_message.specs.declared.head.HeadFault.{HeadFault};

    ghost from_gives = { λ _ fault. fault ≡ HeadFault.Read };

    fn from(_: Failed) -> HeadFault {
        HeadFault::Read
    }
}

/// What the bytes so far are.
#[derive(Clone, Copy)]
enum Look {
    /// A head, and possibly bytes after it.
    Complete(RequestSpans),
    /// Possibly the beginning of a head: more bytes are needed.
    More,
    /// No continuation is a head.
    Never,
    /// A head with more fields than there is room for.
    TooMany,
}

/// Looks for a head at the start of some bytes.
fn look_at(bytes: &[u8], fields: &mut [HeaderSpan]) -> Look
    ensures { IsLook bytes.now (length fields.old) fields.new result }
{
    match parse_request(bytes, fields) {
        Ok(Status::Complete(spans)) => Look::Complete(spans),
        Ok(Status::Partial) => Look::More,
        Err(httparse::Error::TooManyHeaders) => Look::TooMany,
        Err(_) => Look::Never,
    }
}

/// Where the parts of a request's head are in a buffer.
#[derive(Clone, Copy)]
pub struct Head {
    /// Method, target, version and fields.
    pub spans: RequestSpans,
    /// How many bytes of the buffer were read: the head, and possibly some bytes after it.
    pub filled: usize,
}

/// Reads the head of a request into one buffer, and the places of its fields into another. Doesn't ask the reader for more once the head is
/// complete. The lengths of the two buffers limit the head. Allocates no memory.
pub fn read_head<R: Source>(
    reader: &mut R,
    buffer: &mut [u8],
    fields: &mut [HeaderSpan],
) -> Result<Head, HeadFault>
    requires { R.has_failed reader.old ≡ false }
    ensures filled { IfOk result (λ head. head.filled ≤ length buffer.new) }
    ensures head { IfOk result (λ head. IsHeadAt (take head.filled buffer.new) (length fields.old) fields.new head.spans) }
    ensures read { IfOk result (λ head. Consumes (R.unread reader.old) (R.unread reader.new) (take head.filled buffer.new)) }
    ensures refused { IfErr result (IsRefused (length buffer.old) (length fields.old) (R.unread reader.old)) }
    // If the reader failed, it had not given a complete head yet.
    ensures unfinished { result ≡ Err HeadFault.Read → IsUnfinished (length buffer.old) (R.unread reader.old) (R.unread reader.new) }
    ensures failed { IsErrOf result HeadFault.Read ↔ (R.has_failed reader.new ≡ true) }
{
    let mut filled = 0;
    loop {
        match look_at(&buffer[..filled], fields) {
            Look::Complete(spans) => return Ok(Head { spans, filled }),
            Look::TooMany => return Err(HeadFault::TooLarge),
            Look::Never => return Err(HeadFault::Bad),
            Look::More => {}
        }
        if filled == buffer.len() {
            return Err(HeadFault::TooLarge);
        }
        let count = reader.take(&mut buffer[filled..])?;
        if count == 0 {
            return Err(HeadFault::Bad);
        }
        filled += count;
    }
}
