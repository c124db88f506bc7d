//! One request, one reply.

ghost use Rattle.std.specs.Prelude.{◌≡◌, ◌↔◌, Err, false, true, IfOk, IsErr, IsErrOf};
ghost use Rattle.tacho_state.specs.State.{State};
ghost use Rattle.tacho_http.specs.Answer.{IsAskedBy, Exchanged, IsUnfinished, MayAsk, is_done};
ghost use Rattle.tacho_http.specs.Pages.{AnsweredOrGiven, ExchangedOrGiven};
ghost use Rattle.tacho_http.specs.Serve.{Reacts};

use crate::checks::by_key;
use crate::pages::{file_at, page};
use crate::places::Routes;
use crate::response::{Response, fixed};
use httparse::spans::EMPTY_HEADER_SPAN;
use std::alloc::Global;
use tacho_message::{HeadFault, PageFile, Status, read_head, request_of, write_reply};
use tacho_state::Keeper;
use tacho_time::{Failed, Sink, Source};

/// The most bytes that a head can have, and the most fields.
const HEAD_LIMIT: usize = 8_192;

const FIELD_LIMIT: usize = 32;

/// Which device failed.
#[derive(Clone, Copy, Debug, PartialEq, Eq)]
pub enum IoFault {
    /// The reader failed before anything was written or changed.
    Read,
    /// The writer failed: the request was acted on, and a prefix of its reply was written.
    Write,
}

/// The reply that was written.
#[derive(Clone, Copy, Debug, PartialEq, Eq)]
pub struct Served {
    pub status: Status,
}

/// Reads a request and does what it asks for, or gives a page file.
fn respond<K: Keeper, R: Source>(
    alloc: Global,
    files: &[PageFile],
    routes: Option<&Routes>,
    keeper: &mut K,
    office_key: &[u8],
    reader: &mut R,
) -> Result<Response, Failed>
    requires { R.has_failed reader.old ≡ false }
    ensures answered { AnsweredOrGiven files.now office_key.now K.stands K.is_clean K.is_live K.leaves K.is_same keeper.old keeper.new
        (R.unread reader.old) (R.unread reader.new) result }
    ensures failed { IsErr result ↔ (R.has_failed reader.new ≡ true) }
{
    let mut buffer = [0u8; HEAD_LIMIT];
    let mut fields = [EMPTY_HEADER_SPAN; FIELD_LIMIT];
    let head = match read_head(reader, &mut buffer, &mut fields) {
        Ok(head) => head,
        Err(HeadFault::Bad) => return Ok(fixed(Status::BadRequest)),
        Err(HeadFault::TooLarge) => return Ok(fixed(Status::FieldsTooLarge)),
        Err(HeadFault::Read) => return Err(Failed),
    };
    let request = request_of(&buffer[..head.filled], &fields, &head.spans);
    if let Some(file) = file_at(files, request.path) {
        return Ok(page(file, request.method));
    }
    match request.key() {
        Some(key) => by_key(alloc, routes, keeper, office_key, key, reader, &request),
        None => Ok(fixed(Status::Forbidden)),
    }
}

/// Answers one request at an archive. Reads its head, and its body if what it asks for has one, acts, and writes one reply. A command that
/// is answered with 200 or 201 is durable.
pub fn answer<K: Keeper, R: Source, W: Sink>(
    alloc: Global,
    keeper: &mut K,
    office_key: &[u8],
    reader: &mut R,
    writer: &mut W,
) -> Result<Served, IoFault>
    requires reader { R.has_failed reader.old ≡ false }
    requires writer { W.has_failed writer.old ≡ false }
    ensures clean { K.is_clean keeper.new → K.is_clean keeper.old }
    // The reply is one that the input may get. It was written whole, or, if the writer failed, in part.
    ensures exchanged { Exchanged (Reacts office_key.now) K.stands K.is_clean K.leaves K.is_same keeper.old keeper.new (R.unread reader.old)
        (W.written writer.old) (W.written writer.new) result }
    // After a request that was done the archive is live.
    ensures live { K.is_clean keeper.new → IfOk result (λ served. is_done served.status ≡ true → K.is_live keeper.new) }
    // If the reader failed, it had not given a whole request: its head, or the body of what it asks for, was incomplete.
    ensures unfinished { result ≡ Err IoFault.Read → IsUnfinished (MayAsk office_key.now) (R.unread reader.old) (R.unread reader.new) }
    // So the body of a request isn't read if its key is nobody's.
    ensures known { K.is_clean keeper.new → (s : State) → K.stands keeper.old s → result ≡ Err IoFault.Read
        → IsUnfinished (IsAskedBy s office_key.now) (R.unread reader.old) (R.unread reader.new) }
    ensures read { IsErrOf result IoFault.Read ↔ (R.has_failed reader.new ≡ true) }
    ensures write { IsErrOf result IoFault.Write ↔ (W.has_failed writer.new ≡ true) }
{
    let routes = Routes::new(alloc).ok();
    answer_or_page(
        alloc,
        &[],
        routes.as_ref(),
        keeper,
        office_key,
        reader,
        writer,
    )
}

/// Answers one request as `answer` does, by routes that were made before. Whoever asks for the path of a page file gets the file, without a
/// key and without access to the archive. Without routes, for which memory ran out, each other request with a key of the office or of a
/// driver gets 503.
pub fn answer_or_page<K: Keeper, R: Source, W: Sink>(
    alloc: Global,
    files: &[PageFile],
    routes: Option<&Routes>,
    keeper: &mut K,
    office_key: &[u8],
    reader: &mut R,
    writer: &mut W,
) -> Result<Served, IoFault>
    requires reader { R.has_failed reader.old ≡ false }
    requires writer { W.has_failed writer.old ≡ false }
    ensures clean { K.is_clean keeper.new → K.is_clean keeper.old }
    // The reply is one that the input may get, of a page file or of the archive. It was written whole, or, if the writer failed, in part.
    // A page file is given whatever the state of the archive.
    ensures exchanged { ExchangedOrGiven files.now office_key.now K.stands K.is_clean K.is_live K.leaves K.is_same keeper.old keeper.new
        (R.unread reader.old) (W.written writer.old) (W.written writer.new) result }
    // If the reader failed, it had not given a whole request: its head, or the body of what it asks for, was incomplete.
    ensures unfinished { result ≡ Err IoFault.Read → IsUnfinished (MayAsk office_key.now) (R.unread reader.old) (R.unread reader.new) }
    // So the body of a request isn't read if its key is nobody's.
    ensures known { K.is_clean keeper.new → (s : State) → K.stands keeper.old s → result ≡ Err IoFault.Read
        → IsUnfinished (IsAskedBy s office_key.now) (R.unread reader.old) (R.unread reader.new) }
    ensures read { IsErrOf result IoFault.Read ↔ (R.has_failed reader.new ≡ true) }
    ensures write { IsErrOf result IoFault.Write ↔ (W.has_failed writer.new ≡ true) }
{
    let response = match respond(alloc, files, routes, keeper, office_key, reader) {
        Ok(response) => response,
        Err(Failed) => return Err(IoFault::Read),
    };
    let status = response.status;
    match write_reply(writer, status, response.media, response.body.bytes()) {
        Ok(()) => Ok(Served { status }),
        Err(_) => Err(IoFault::Write),
    }
}
