ghost use Rattle.std.specs.Prelude.{◌≡◌, All, codes, drop, length, map, option_map};
ghost use Rattle.httparse.specs.Grammar.{RequestHead};
ghost use Rattle.httparse.specs.Spans.{IsHeaderWithin, IsRequestAt, header_bytes};
ghost use Rattle.tacho_message.specs.Fields.{values_under};
ghost use Rattle.tacho_message.specs.Head.{IsHeadAt};
ghost use Rattle.tacho_message.specs.Request.{IsRequest, only_of};

use crate::fields::{Values, values_of};
use httparse::spans::{HeaderSpan, RequestSpans};

/// The parts of a request's head, and the bytes that came after it.
#[derive(Clone, Copy)]
pub struct Request<'b> {
    pub method: &'b [u8],
    /// The target as it was sent: nothing in it is decoded.
    pub path: &'b str,
    /// The bytes that came, which contain the fields.
    pub buffer: &'b [u8],
    pub fields: &'b [HeaderSpan],
    /// The bytes that came after the head: the beginning of the body, if there is one.
    pub after_head: &'b [u8],
}

/// Makes a request of a head that was read into a buffer.
pub fn request_of<'b>(
    buffer: &'b [u8],
    fields: &'b [HeaderSpan],
    spans: &RequestSpans,
) -> Request<'b>
    requires { IsHeadAt buffer.now (length fields.now) fields.now spans.now }
    ensures request { (h : RequestHead) → IsRequestAt buffer.now fields.now spans.now h → IsRequest result h }
    ensures after_head { result.after_head.now ≡ drop spans.now.len buffer.now }
{
    Request {
        method: spans.method.of(buffer),
        path: str::from_utf8(spans.path.of(buffer)).unwrap_or(""),
        buffer,
        fields: &fields[..spans.headers],
        after_head: &buffer[spans.len..],
    }
}

impl<'b> Request<'b> {
    /// The value of the field `x-key`, if there is exactly one.
    pub fn key(&self) -> Option<&'b [u8]>
        requires { All (IsHeaderWithin (length self.now.buffer.now)) self.now.fields.now }
        ensures { option_map (λ key. key.now) result ≡ only_of (values_under (codes "x-key") (map (header_bytes self.now.buffer.now) self.now.fields.now)) }
    {
        match values_of(self.buffer, self.fields, b"x-key") {
            Values::One(key) => Some(key),
            Values::None | Values::Many => None,
        }
    }
}
