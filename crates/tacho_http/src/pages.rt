//! Page files, which are given without a key.

ghost use Rattle.std.specs.Prelude.{◌≡◌};
ghost use Rattle.tacho_http.specs.Pages.{file_at as file_with, page_reply};
ghost use Rattle.tacho_http.specs.Reply.{reply_of};
ghost use Rattle.tacho_message.specs.Length.{method_of};

use crate::response::{Body, Response, fixed};
use tacho_message::{MediaType, Method, PageFile, Status};

/// The first file with a path.
pub(crate) fn file_at(files: &[PageFile], path: &str) -> Option<PageFile>
    ensures { result ≡ file_with files.now path.now }
{
    for file in files {
        if path == file.path {
            return Some(*file);
        }
    }
    None
}

/// The reply with a file, or 405 if the method isn't GET. Allocates no memory.
pub(crate) fn page(file: PageFile, method: &[u8]) -> Response
    ensures { reply_of result ≡ page_reply (method_of method.now) file }
{
    match Method::read(method) {
        Some(Method::Get) => Response {
            status: Status::Okay,
            media: MediaType::Page(file.kind),
            body: Body::Fixed(file.text.as_bytes()),
        },
        _ => fixed(Status::MethodNotAllowed),
    }
}
