ghost use Rattle.std.specs.Prelude.{◌≡◌, ℕ, ◌≤◌, ◌+◌, ◌++◌, length, take, OnOk, is_err};
ghost use Rattle.std.specs.Io.KnownBytes.{Appends};
ghost use Rattle.arrayvec.specs.ArrayVec.{array_vec_len};
ghost use Rattle.tacho_message.specs.Reply.{status_line, media_type, page_type, further_fields, head_bytes, reply_bytes};

use arrayvec::ArrayVec;
use itoa::Buffer;
use tacho_time::{Failed, Sink, write_all};

/// The most bytes that the head of a reply can have.
const ROOM: usize = 512;

/// The fields that the reply with a page file has beside those of all replies: what a browser may load and do for it.
const PAGE_FIELDS: &[u8] =
    b"content-security-policy: default-src 'none'; script-src 'self'; style-src 'self'; connect-src 'self'; \
    img-src data:; base-uri 'none'; form-action 'none'; frame-ancestors 'none'; require-trusted-types-for 'script'\r\n\
    x-content-type-options: nosniff\r\n\
    referrer-policy: no-referrer\r\n\
    cross-origin-opener-policy: same-origin\r\n\
    cache-control: no-cache\r\n";

/// The status of a reply.
#[derive(Clone, Copy, Debug, PartialEq, Eq)]
pub enum Status {
    Okay,
    Created,
    BadRequest,
    Forbidden,
    NotFound,
    MethodNotAllowed,
    Conflict,
    LengthRequired,
    PayloadTooLarge,
    UnprocessableEntity,
    FieldsTooLarge,
    Unavailable,
}

impl Status {
    /// The status code and its phrase.
    fn line(self) -> &'static [u8]
        ensures text { result.now ≡ status_line self }
        ensures short { length result.now ≤ 35 }
    {
        match self {
            Status::Okay => b"200 OK",
            Status::Created => b"201 Created",
            Status::BadRequest => b"400 Bad Request",
            Status::Forbidden => b"403 Forbidden",
            Status::NotFound => b"404 Not Found",
            Status::MethodNotAllowed => b"405 Method Not Allowed",
            Status::Conflict => b"409 Conflict",
            Status::LengthRequired => b"411 Length Required",
            Status::PayloadTooLarge => b"413 Payload Too Large",
            Status::UnprocessableEntity => b"422 Unprocessable Entity",
            Status::FieldsTooLarge => b"431 Request Header Fields Too Large",
            Status::Unavailable => b"503 Service Unavailable",
        }
    }
}

/// The type of a page file.
#[derive(Clone, Copy)]
pub enum PageType {
    Html,
    Css,
    JavaScript,
    /// Text in UTF-8.
    Text,
}

impl PageType {
    /// The name of the media type.
    fn name(self) -> &'static [u8]
        ensures text { result.now ≡ page_type self }
        ensures short { length result.now ≤ 30 }
    {
        match self {
            PageType::Html => b"text/html; charset=utf-8",
            PageType::Css => b"text/css; charset=utf-8",
            PageType::JavaScript => b"text/javascript; charset=utf-8",
            PageType::Text => b"text/plain; charset=utf-8",
        }
    }
}

/// A file that makes up the pages in a browser.
#[derive(Clone, Copy)]
pub struct PageFile {
    /// The path by which it is asked for.
    pub path: &'static str,
    pub kind: PageType,
    pub text: &'static str,
}

/// The type of a body.
#[derive(Clone, Copy)]
pub enum MediaType {
    /// Text in UTF-8.
    Text,
    /// CSV in UTF-8.
    Csv,
    /// A drawing in SVG.
    Svg,
    /// The bytes of a file.
    Octets,
    /// A tar file.
    Tar,
    /// A page file.
    Page(PageType),
}

impl MediaType {
    /// The name of the media type.
    fn name(self) -> &'static [u8]
        ensures text { result.now ≡ media_type self }
        ensures short { length result.now ≤ 30 }
    {
        match self {
            MediaType::Text => b"text/plain; charset=utf-8",
            MediaType::Csv => b"text/csv; charset=utf-8",
            MediaType::Svg => b"image/svg+xml",
            MediaType::Octets => b"application/octet-stream",
            MediaType::Tar => b"application/x-tar",
            MediaType::Page(kind) => kind.name(),
        }
    }

    /// The fields of the head that only replies of this type have.
    fn fields(self) -> &'static [u8]
        ensures text { result.now ≡ further_fields self }
        ensures short { length result.now ≤ 345 }
    {
        match self {
            MediaType::Page(_) => PAGE_FIELDS,
            _ => b"",
        }
    }
}

/// Appends bytes, for which there is room.
fn put(head: &mut ArrayVec<u8, ROOM>, bytes: &[u8])
    requires { array_vec_len head.old + length bytes.now ≤ ROOM }
    ensures items { head.new.items ≡ head.old.items ++ bytes.now }
    ensures len { array_vec_len head.new ≡ array_vec_len head.old + length bytes.now }
{
    if head.try_extend_from_slice(bytes).is_err() {
        unreachable!()
    }
}

/// The head of a reply.
fn head_of(status: Status, media: MediaType, length: usize) -> ArrayVec<u8, ROOM>
    ensures { result.items ≡ head_bytes status media length }
{
    let mut digits = Buffer::new();
    let mut head = ArrayVec::new();
    put(&mut head, b"HTTP/1.1 ");
    put(&mut head, status.line());
    put(&mut head, b"\r\ncontent-type: ");
    put(&mut head, media.name());
    put(&mut head, b"\r\ncontent-length: ");
    put(&mut head, digits.format(length).as_bytes());
    put(&mut head, b"\r\nconnection: close\r\n");
    put(&mut head, media.fields());
    put(&mut head, b"\r\n");
    head
}

/// Writes a reply. Allocates no memory. If the writer fails, it was given a prefix of the reply.
pub fn write_reply<W: Sink>(
    writer: &mut W,
    status: Status,
    media: MediaType,
    body: &[u8],
) -> Result<(), Failed>
    ensures all { OnOk result (Appends (W.written writer.old) (W.written writer.new) (reply_bytes status media body.now)) }
    ensures beginning { (n : ℕ) × (n ≤ length (reply_bytes status media body.now))
        × Appends (W.written writer.old) (W.written writer.new) (take n (reply_bytes status media body.now)) }
    ensures failed { W.has_failed writer.new ≡ is_err result }
{
    let head = head_of(status, media, body.len());
    write_all(writer, head.as_slice())?;
    write_all(writer, body)
}
