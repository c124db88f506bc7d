ghost use Rattle.std.specs.Prelude.{◌≡◌, All, length, map};
ghost use Rattle.httparse.specs.Spans.{header_bytes, IsHeaderWithin};
ghost use Rattle.tacho_message.specs.Length.{body_length, body_within, post_length};
ghost use Rattle.tacho_message.specs.Fields.{length_told};

use crate::fields::{Values, length_of, values_of};
use crate::method::Method;
use crate::reply::Status;
use httparse::spans::HeaderSpan;

/// The most bytes that a body can have.
const BODY_LIMIT: u64 = 262_144;

/// The length of a body by the only value of `content-length`: 400 if it gives none, 413 above 262,144, and 400 if it isn't 0 although no
/// body is taken.
fn length_within(takes_body: bool, value: &[u8]) -> Result<u64, Status>
    ensures { result ≡ body_within takes_body (length_told value.now) }
{
    let Some(length) = length_of(value) else {
        return Err(Status::BadRequest);
    };
    if length > BODY_LIMIT {
        return Err(Status::PayloadTooLarge);
    }
    if takes_body || length == 0 {
        Ok(length)
    } else {
        Err(Status::BadRequest)
    }
}

/// The length of a posted body, by the fields of its request.
fn posted_length(takes_body: bool, buffer: &[u8], fields: &[HeaderSpan]) -> Result<u64, Status>
    requires { All (IsHeaderWithin (length buffer.now)) fields.now }
    ensures { result ≡ post_length takes_body (map (header_bytes buffer.now) fields.now) }
{
    if !matches!(
        values_of(buffer, fields, b"transfer-encoding"),
        Values::None
    ) {
        return Err(Status::BadRequest);
    }
    match values_of(buffer, fields, b"content-length") {
        Values::None => {
            if takes_body {
                Err(Status::LengthRequired)
            } else {
                Ok(0)
            }
        }
        Values::One(value) => length_within(takes_body, value),
        Values::Many => Err(Status::BadRequest),
    }
}

/// How many bytes of a body to read, at most 262,144. `takes_body` says whether the request may have a body. Fails with 400, 411 or 413 if
/// the fields don't give a valid length. For a GET it is 0, whatever its fields say.
pub fn body_length_of(
    method: Option<Method>,
    takes_body: bool,
    buffer: &[u8],
    fields: &[HeaderSpan],
) -> Result<u64, Status>
    requires { All (IsHeaderWithin (length buffer.now)) fields.now }
    ensures { result ≡ body_length method takes_body (map (header_bytes buffer.now) fields.now) }
{
    match method {
        Some(Method::Post) => posted_length(takes_body, buffer, fields),
        _ => Ok(0),
    }
}
