ghost use Rattle.std.specs.Prelude.{◌≡◌};
ghost use Rattle.tacho_desk.specs.Told.{answer_of};
ghost use Rattle.tacho_http.specs.Reply.{body_bytes, fault_reply, fault_status, media_of as media_of_want, reply_of_status as fixed_reply, reply_of, reply_to, store_status};

use tacho_desk::{Fault, MonthReading, Text, Want};
use tacho_message::{MediaType, Status};
use tacho_sheet::{FaultLine, fault_line};
use tacho_state::StoreFault;

/// The body of a reply.
#[derive(Drop)]
pub enum Body {
    /// A fixed text.
    Fixed(&'static [u8]),
    /// The line of a fault. Allocates no memory.
    Line(FaultLine),
    /// The text of a task that was done.
    Told(Text),
}

impl Body {
    /// The bytes of the body.
    pub(crate) fn bytes(&self) -> &[u8]
        ensures { result.now ≡ body_bytes self.now }
    {
        match self {
            Body::Fixed(text) => text,
            Body::Line(line) => line.as_bytes(),
            Body::Told(text) => text.bytes(),
        }
    }
}

/// A reply.
#[derive(Drop)]
pub struct Response {
    pub status: Status,
    pub media: MediaType,
    pub body: Body,
}

/// The reply with the fixed text of a status. Allocates no memory.
pub(crate) fn fixed(status: Status) -> Response
    ensures { reply_of result ≡ fixed_reply status }
{
    let text: &'static [u8] = match status {
        Status::BadRequest => b"bad request\n",
        Status::Forbidden => b"forbidden\n",
        Status::NotFound => b"not found\n",
        Status::MethodNotAllowed => b"method not allowed\n",
        Status::LengthRequired => b"length required\n",
        Status::PayloadTooLarge => b"too large\n",
        Status::FieldsTooLarge => b"head too large\n",
        Status::Unavailable => b"unavailable\n",
        _ => b"",
    };
    Response {
        status,
        media: MediaType::Text,
        body: Body::Fixed(text),
    }
}

/// The status of an archive's refusal.
fn status_of_store(fault: &StoreFault) -> Status
    ensures { result ≡ store_status fault.now }
{
    match fault {
        StoreFault::DriverTaken
        | StoreFault::KeyTaken
        | StoreFault::HolderTaken
        | StoreFault::Contradiction(_)
        | StoreFault::AlreadyWithdrawn
        | StoreFault::Full => Status::Conflict,
        StoreFault::UnknownDriver | StoreFault::UnknownEntry | StoreFault::UnknownDownload => {
            Status::NotFound
        }
        StoreFault::NotYourCard => Status::Forbidden,
        StoreFault::Store | StoreFault::OldSchema | StoreFault::Memory => Status::Unavailable,
        StoreFault::NotMonday | StoreFault::Card(_) => Status::UnprocessableEntity,
    }
}

/// The status of a fault.
fn status_of(fault: &Fault) -> Status
    ensures { result ≡ fault_status fault.now }
{
    match fault {
        Fault::Time(_) | Fault::Number | Fault::Order | Fault::Period | Fault::Part =>
            Status::BadRequest,
        Fault::TooLarge => Status::PayloadTooLarge,
        Fault::Store(fault) => status_of_store(fault),
        Fault::Card(_) | Fault::Sheet(_) => Status::UnprocessableEntity,
        Fault::Device | Fault::Memory => Status::Unavailable,
    }
}

/// The reply to a fault: the fault's line, unless the status is 503 (such as out of memory, or a store failure): then the fixed text.
/// Allocates no memory.
pub(crate) fn refusal(fault: Fault) -> Response
    ensures { reply_of result ≡ fault_reply fault }
{
    match status_of(&fault) {
        Status::Unavailable => fixed(Status::Unavailable),
        status => Response {
            status,
            media: MediaType::Text,
            body: Body::Line(fault_line(fault)),
        },
    }
}

/// The type of what a task answers.
fn media_of(want: Want) -> MediaType
    ensures { result ≡ media_of_want want }
{
    match want {
        Want::File => MediaType::Octets,
        Want::Handover => MediaType::Tar,
        Want::MonthReading(MonthReading::Chart) => MediaType::Svg,
        Want::Form | Want::MonthOfAll(_) | Want::Forecast => MediaType::Csv,
        _ => MediaType::Text,
    }
}

/// The reply to what a task of this kind answered: 201 if something was added. Allocates no memory.
pub(crate) fn reply(want: Want, answer: Result<Text, Fault>) -> Response
    ensures { reply_of result ≡ reply_to want (answer_of answer) }
{
    let text = match answer {
        Ok(text) => text,
        Err(fault) => return refusal(fault),
    };
    let status = match &text {
        Text::Added(_) => Status::Created,
        _ => Status::Okay,
    };
    Response {
        status,
        media: media_of(want),
        body: Body::Told(text),
    }
}
