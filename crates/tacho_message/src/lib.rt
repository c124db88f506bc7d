//! HTTP/1.1, one request per connection, as bytes: the head of a request, its fields, its body, and the reply.
#![tactic(auto)]

mod body;
mod fields;
mod head;
mod length;
mod method;
mod reply;
mod request;

pub use body::{BodyFault, read_body};
pub use fields::{Values, length_of, values_of};
pub use head::{Head, HeadFault, read_head};
pub use length::body_length_of;
pub use method::Method;
pub use reply::{MediaType, PageFile, PageType, Status, write_reply};
pub use request::{Request, request_of};
