//! The checks of a request, in their order.

ghost use Rattle.std.specs.Prelude.{◌≡◌, ◌↔◌, ◌++◌, ℕ, All, List, Some, false, length, true, IsErr};
ghost use Rattle.httparse.specs.Grammar.{RequestHead};
ghost use Rattle.httparse.specs.Spans.{IsHeaderWithin};
ghost use Rattle.tacho_message.specs.Body.{Lacks};
ghost use Rattle.tacho_message.specs.Length.{method_of};
ghost use Rattle.tacho_message.specs.Request.{IsRequest, key_of};
ghost use Rattle.tacho_state.specs.State.{State};
ghost use Rattle.tacho_desk.specs.Wants.{is_command};
ghost use Rattle.tacho_desk.specs.Words.{wish_in};
ghost use Rattle.tacho_http.specs.Answer.{IsAskedBy, LacksMore, MayAsk, Responds};
ghost use Rattle.tacho_http.specs.Asked.{is_post};
ghost use Rattle.tacho_http.specs.Serve.{ByCaller, ByKey, IsReserved, Runs};

use crate::places::Routes;
use crate::response::{Response, fixed, refusal, reply};
use std::alloc::Global;
use tacho_desk::{Fault, Task, Wish, carry_out, task_of};
use tacho_message::{BodyFault, Method, Request, Status, body_length_of, read_body};
use tacho_sheet::read_key_line;
use tacho_state::{Caller, Keeper, StoreFault};
use tacho_time::{Failed, Source};

/// Answers a request by its key: the office's, which is checked first, or a driver's. Without routes, for which memory ran out, a caller
/// gets 503.
pub(crate) fn by_key<K: Keeper, R: Source>(
    alloc: Global,
    routes: Option<&Routes>,
    keeper: &mut K,
    office_key: &[u8],
    key: &[u8],
    reader: &mut R,
    request: &Request<'_>,
) -> Result<Response, Failed>
    requires reader { R.has_failed reader.old ≡ false }
    requires within { All (IsHeaderWithin (length request.now.buffer.now)) request.now.fields.now }
    ensures responds { (h : RequestHead) → IsRequest request.now h
        → Responds K.stands K.is_clean K.is_live K.leaves K.is_same keeper.old keeper.new (is_post (method_of h.method)) (R.unread reader.old) result
        (λ left s. ByKey office_key.now key.now h (request.now.after_head.now ++ left) s) }
    ensures lacks { (h : RequestHead) → IsRequest request.now h → key_of h ≡ Some key.now → IsErr result
        → LacksMore (MayAsk office_key.now) h request.now.after_head.now (R.unread reader.old) (R.unread reader.new) }
    ensures known { (h : RequestHead) → IsRequest request.now h → key_of h ≡ Some key.now → IsErr result
        → K.is_clean keeper.new → (s : State) → K.stands keeper.old s
        → LacksMore (IsAskedBy s office_key.now) h request.now.after_head.now (R.unread reader.old) (R.unread reader.new) }
    ensures failed { IsErr result ↔ (R.has_failed reader.new ≡ true) }
{
    let caller = if key == office_key {
        Caller::Office
    } else {
        match keeper.who(key) {
            Ok(Some(number)) => Caller::Driver(number),
            Ok(None) => return Ok(fixed(Status::Forbidden)),
            Err(_) => return Ok(fixed(Status::Unavailable)),
        }
    };
    by_caller(alloc, routes, keeper, office_key, caller, reader, request)
}

/// Answers a caller's request. Checks its path, its method, for whom the path is, and its fields.
fn by_caller<K: Keeper, R: Source>(
    alloc: Global,
    routes: Option<&Routes>,
    keeper: &mut K,
    office_key: &[u8],
    caller: Caller,
    reader: &mut R,
    request: &Request<'_>,
) -> Result<Response, Failed>
    requires reader { R.has_failed reader.old ≡ false }
    requires within { All (IsHeaderWithin (length request.now.buffer.now)) request.now.fields.now }
    ensures responds { (h : RequestHead) → IsRequest request.now h
        → Responds K.stands K.is_clean K.is_live K.leaves K.is_same keeper.old keeper.new (is_post (method_of h.method)) (R.unread reader.old) result
        (λ left s. ByCaller office_key.now caller h (request.now.after_head.now ++ left) s) }
    ensures lacks { (h : RequestHead) (key : List ℕ) → IsRequest request.now h → key_of h ≡ Some key → IsErr result
        → LacksMore (λ by c. (by ≡ key) × (c ≡ caller)) h request.now.after_head.now (R.unread reader.old) (R.unread reader.new) }
    ensures failed { IsErr result ↔ (R.has_failed reader.new ≡ true) }
{
    let Some(routes) = routes else {
        return Ok(fixed(Status::Unavailable));
    };
    let method = Method::read(request.method);
    let wish = match routes.find(caller, method, request.path) {
        Ok(wish) => wish,
        Err(status) => return Ok(fixed(status)),
    };
    let takes = wish.want.takes_input();
    match body_length_of(method, takes, request.buffer, request.fields) {
        Ok(length) => run_task(
            alloc,
            keeper,
            office_key,
            caller,
            wish,
            length,
            reader,
            request.after_head,
        ),
        Err(status) => Ok(fixed(status)),
    }
}

/// True if a task would give the office's key to a driver. A request with that key would be the office's.
fn is_reserved(office_key: &[u8], task: &Task, body: &[u8]) -> bool
    ensures yes { result ≡ true → IsReserved office_key.now task.now body.now }
    ensures no { result ≡ false → ¬ IsReserved office_key.now task.now body.now }
{
    let Task::Key { .. } = task else {
        return false;
    };
    match read_key_line(body) {
        Ok(key) => key.as_bytes() == office_key,
        Err(_) => false,
    }
}

/// Does what a caller asks for, with a body of `count` bytes. The first bytes of the body came after the head.
fn run_task<K: Keeper, R: Source>(
    alloc: Global,
    keeper: &mut K,
    office_key: &[u8],
    caller: Caller,
    wish: Wish<'_>,
    count: u64,
    reader: &mut R,
    after_head: &[u8],
) -> Result<Response, Failed>
    requires { R.has_failed reader.old ≡ false }
    ensures responds { Responds K.stands K.is_clean K.is_live K.leaves K.is_same keeper.old keeper.new (is_command wish.entry.want) (R.unread reader.old) result
        (λ left s. Runs office_key.now (wish_in wish.entry) count caller (after_head.now ++ left) s) }
    ensures lacks { IsErr result → Lacks after_head.now (R.unread reader.old) (R.unread reader.new) count }
    ensures failed { IsErr result ↔ (R.has_failed reader.new ≡ true) }
{
    let body = match read_body(alloc, reader, after_head, count as usize) {
        Ok(body) => body,
        Err(BodyFault::Ended) => return Ok(fixed(Status::BadRequest)),
        Err(BodyFault::Memory) => return Ok(fixed(Status::Unavailable)),
        Err(BodyFault::Read) => return Err(Failed),
    };
    let task = task_of(caller, wish);
    match task {
        Ok(task) => {
            if is_reserved(office_key, &task, &body) {
                return Ok(refusal(Fault::Store(StoreFault::KeyTaken)));
            }
            Ok(reply(wish.want, carry_out(alloc, keeper, task, &body)))
        }
        Err(fault) => Ok(refusal(fault)),
    }
}
