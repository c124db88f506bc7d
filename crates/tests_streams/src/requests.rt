//! Requests over HTTP, and the replies to them.

use crate::faulty::Faulty;
use std::alloc::{AllocError, Global};
use std::process::Abort;
use std::test::Fail;
use tacho_http::{IoFault, answer};
use tacho_shelf::Shelf;
use tacho_time::Device;

/// The office's key.
pub(crate) const OFFICE: &[u8] = b"office-key-1";

/// A request, and the reply to it.
type Exchange = (&'static [u8], &'static [u8]);

/// Requests to one archive, in sequence.
static CONVERSATION: [Exchange; 39] = [
    // A driver is registered.
    (
        b"POST /drivers HTTP/1.1\r\nx-key: office-key-1\r\ncontent-length: 94\r\n\r\ndriver,holder,key,base,name\n17,0d4431323334353637383930313233,anna-key-1,2024-03-04,Anna Berg\n",
        b"HTTP/1.1 201 Created\r\ncontent-type: text/plain; charset=utf-8\r\ncontent-length: 14\r\nconnection: close\r\n\r\nregistered 17\n",
    ),
    (
        b"POST /drivers HTTP/1.1\r\nx-key: office-key-1\r\ncontent-length: 94\r\n\r\ndriver,holder,key,base,name\n17,0d4431323334353637383930313233,anna-key-1,2024-03-04,Anna Berg\n",
        b"HTTP/1.1 409 Conflict\r\ncontent-type: text/plain; charset=utf-8\r\ncontent-length: 16\r\nconnection: close\r\n\r\nS1 driver taken\n",
    ),
    (
        b"POST /drivers HTTP/1.1\r\nx-key: office-key-1\r\ncontent-length: 94\r\n\r\ndriver,holder,key,base,name\n18,0d4431323334353637383930313233,anna-key-1,2024-03-04,Anna Berg\n",
        b"HTTP/1.1 409 Conflict\r\ncontent-type: text/plain; charset=utf-8\r\ncontent-length: 13\r\nconnection: close\r\n\r\nS2 key taken\n",
    ),
    (
        b"POST /drivers HTTP/1.1\r\nx-key: office-key-1\r\ncontent-length: 94\r\n\r\ndriver,holder,key,base,name\n18,0d4431323334353637383930313233,bert-key-1,2024-03-04,Anna Berg\n",
        b"HTTP/1.1 409 Conflict\r\ncontent-type: text/plain; charset=utf-8\r\ncontent-length: 16\r\nconnection: close\r\n\r\nS3 holder taken\n",
    ),
    // A text without lines.
    (
        b"GET /me/entries HTTP/1.1\r\nx-key: anna-key-1\r\n\r\n",
        b"HTTP/1.1 200 OK\r\ncontent-type: text/plain; charset=utf-8\r\ncontent-length: 0\r\nconnection: close\r\n\r\n",
    ),
    // Card files: the driver's own (twice), a different card's sent by the driver, one that belongs to nobody, and no card file.
    (
        b"POST /cards/both HTTP/1.1\r\nx-key: office-key-1\r\ncontent-length: 67\r\n\r\n\x05\x20\x00\x00\x11\x0dD123456789012300\x05\x04\x00\x00\x28\x00\x00\x00\x14\x00\x00\x00\x14\x65\xe5\x0f\x00\x00\x01\x00\x64\x00\x00\x11\xe0\x19\xfe\x23\xfc\x00\x14\x00\x10\x65\xe6\x60\x80\x00\x02\x00\x00\x00\x00\x11\xe0",
        b"HTTP/1.1 201 Created\r\ncontent-type: text/plain; charset=utf-8\r\ncontent-length: 25\r\nconnection: close\r\n\r\nadded driver 17 number 1\n",
    ),
    (
        b"POST /cards/both HTTP/1.1\r\nx-key: office-key-1\r\ncontent-length: 67\r\n\r\n\x05\x20\x00\x00\x11\x0dD123456789012300\x05\x04\x00\x00\x28\x00\x00\x00\x14\x00\x00\x00\x14\x65\xe5\x0f\x00\x00\x01\x00\x64\x00\x00\x11\xe0\x19\xfe\x23\xfc\x00\x14\x00\x10\x65\xe6\x60\x80\x00\x02\x00\x00\x00\x00\x11\xe0",
        b"HTTP/1.1 200 OK\r\ncontent-type: text/plain; charset=utf-8\r\ncontent-length: 19\r\nconnection: close\r\n\r\nrepeated driver 17\n",
    ),
    (
        b"POST /me/cards/both HTTP/1.1\r\nx-key: anna-key-1\r\ncontent-length: 43\r\n\r\n\x05\x20\x00\x00\x11\x0dD123456789012400\x05\x04\x00\x00\x10\x00\x00\x00\x00\x00\x00\x00\x00\x00\x00\x00\x00\x00\x00\x00\x00",
        b"HTTP/1.1 403 Forbidden\r\ncontent-type: text/plain; charset=utf-8\r\ncontent-length: 17\r\nconnection: close\r\n\r\nS5 not your card\n",
    ),
    (
        b"POST /cards/both HTTP/1.1\r\nx-key: office-key-1\r\ncontent-length: 43\r\n\r\n\x05\x20\x00\x00\x11\x0dD123456789012400\x05\x04\x00\x00\x10\x00\x00\x00\x00\x00\x00\x00\x00\x00\x00\x00\x00\x00\x00\x00\x00",
        b"HTTP/1.1 404 Not Found\r\ncontent-type: text/plain; charset=utf-8\r\ncontent-length: 18\r\nconnection: close\r\n\r\nS4 unknown driver\n",
    ),
    (
        b"POST /cards/both HTTP/1.1\r\nx-key: office-key-1\r\ncontent-length: 0\r\n\r\n",
        b"HTTP/1.1 422 Unprocessable Entity\r\ncontent-type: text/plain; charset=utf-8\r\ncontent-length: 21\r\nconnection: close\r\n\r\nC3 no identification\n",
    ),
    // Requests that aren't supported.
    (
        b"GET /nothing HTTP/1.1\r\nx-key: office-key-1\r\n\r\n",
        b"HTTP/1.1 404 Not Found\r\ncontent-type: text/plain; charset=utf-8\r\ncontent-length: 10\r\nconnection: close\r\n\r\nnot found\n",
    ),
    (
        b"DELETE /drivers HTTP/1.1\r\nx-key: office-key-1\r\n\r\n",
        b"HTTP/1.1 405 Method Not Allowed\r\ncontent-type: text/plain; charset=utf-8\r\ncontent-length: 19\r\nconnection: close\r\n\r\nmethod not allowed\n",
    ),
    (
        b"GET /me/breaches HTTP/1.1\r\nx-key: office-key-1\r\n\r\n",
        b"HTTP/1.1 403 Forbidden\r\ncontent-type: text/plain; charset=utf-8\r\ncontent-length: 10\r\nconnection: close\r\n\r\nforbidden\n",
    ),
    (
        b"POST /drivers HTTP/1.1\r\nx-key: office-key-1\r\n\r\n",
        b"HTTP/1.1 411 Length Required\r\ncontent-type: text/plain; charset=utf-8\r\ncontent-length: 16\r\nconnection: close\r\n\r\nlength required\n",
    ),
    (
        b"POST /drivers HTTP/1.1\r\nx-key: office-key-1\r\ncontent-length: 262145\r\n\r\n",
        b"HTTP/1.1 413 Payload Too Large\r\ncontent-type: text/plain; charset=utf-8\r\ncontent-length: 10\r\nconnection: close\r\n\r\ntoo large\n",
    ),
    (
        b"GET /drivers/017/breaches HTTP/1.1\r\nx-key: office-key-1\r\n\r\n",
        b"HTTP/1.1 400 Bad Request\r\ncontent-type: text/plain; charset=utf-8\r\ncontent-length: 14\r\nconnection: close\r\n\r\nN1 bad number\n",
    ),
    (
        b"GET /me/breaches HTTP/1.1\r\n\r\n",
        b"HTTP/1.1 403 Forbidden\r\ncontent-type: text/plain; charset=utf-8\r\ncontent-length: 10\r\nconnection: close\r\n\r\nforbidden\n",
    ),
    // The driver's breaches, for the driver and for the office, and for nobody else.
    (
        b"GET /me/breaches HTTP/1.1\r\nx-key: anna-key-1\r\n\r\n",
        b"HTTP/1.1 200 OK\r\ncontent-type: text/plain; charset=utf-8\r\ncontent-length: 100\r\nconnection: close\r\n\r\nB1 Art 7 at 2024-03-04 13:00 since 2024-03-04 08:30 amount 240\nEXAMINED TO 2024-03-04 17:00 unknown\n",
    ),
    (
        b"GET /drivers/17/breaches HTTP/1.1\r\nx-key: office-key-1\r\n\r\n",
        b"HTTP/1.1 200 OK\r\ncontent-type: text/plain; charset=utf-8\r\ncontent-length: 100\r\nconnection: close\r\n\r\nB1 Art 7 at 2024-03-04 13:00 since 2024-03-04 08:30 amount 240\nEXAMINED TO 2024-03-04 17:00 unknown\n",
    ),
    (
        b"GET /drivers/17/breaches HTTP/1.1\r\nx-key: anna-key-1\r\n\r\n",
        b"HTTP/1.1 403 Forbidden\r\ncontent-type: text/plain; charset=utf-8\r\ncontent-length: 10\r\nconnection: close\r\n\r\nforbidden\n",
    ),
    (
        b"GET /drivers/17/breaches HTTP/1.1\r\nx-key: bert-key-1\r\n\r\n",
        b"HTTP/1.1 403 Forbidden\r\ncontent-type: text/plain; charset=utf-8\r\ncontent-length: 10\r\nconnection: close\r\n\r\nforbidden\n",
    ),
    // Other readings about the driver.
    (
        b"GET /me/files/1 HTTP/1.1\r\nx-key: anna-key-1\r\n\r\n",
        b"HTTP/1.1 200 OK\r\ncontent-type: application/octet-stream\r\ncontent-length: 67\r\nconnection: close\r\n\r\n\x05\x20\x00\x00\x11\x0dD123456789012300\x05\x04\x00\x00\x28\x00\x00\x00\x14\x00\x00\x00\x14\x65\xe5\x0f\x00\x00\x01\x00\x64\x00\x00\x11\xe0\x19\xfe\x23\xfc\x00\x14\x00\x10\x65\xe6\x60\x80\x00\x02\x00\x00\x00\x00\x11\xe0",
    ),
    (
        b"GET /me/files/2 HTTP/1.1\r\nx-key: anna-key-1\r\n\r\n",
        b"HTTP/1.1 404 Not Found\r\ncontent-type: text/plain; charset=utf-8\r\ncontent-length: 21\r\nconnection: close\r\n\r\nS10 unknown download\n",
    ),
    (
        b"GET /drivers/17/gaps/2024-03 HTTP/1.1\r\nx-key: office-key-1\r\n\r\n",
        b"HTTP/1.1 200 OK\r\ncontent-type: text/plain; charset=utf-8\r\ncontent-length: 102\r\nconnection: close\r\n\r\n2024-03-01 00:00 2024-03-04 00:00\n2024-03-04 17:00 2024-03-05 00:00\n2024-03-05 08:00 2024-04-01 00:00\n",
    ),
    (
        b"GET /me/spans/2024-03 HTTP/1.1\r\nx-key: anna-key-1\r\n\r\n",
        b"HTTP/1.1 200 OK\r\ncontent-type: text/plain; charset=utf-8\r\ncontent-length: 213\r\nconnection: close\r\n\r\nstart,past,activity,manning\n2024-03-04 00:00,2024-03-04 08:00,rest,single\n2024-03-04 08:00,2024-03-04 08:30,work,single\n2024-03-04 08:30,2024-03-04 17:00,drive,single\n2024-03-05 00:00,2024-03-05 08:00,rest,single\n",
    ),
    (
        b"GET /me/owed HTTP/1.1\r\nx-key: anna-key-1\r\n\r\n",
        b"HTTP/1.1 200 OK\r\ncontent-type: text/plain; charset=utf-8\r\ncontent-length: 37\r\nconnection: close\r\n\r\nEXAMINED TO 2024-03-04 17:00 unknown\n",
    ),
    // Hours are entered and withdrawn.
    (
        b"POST /drivers/17/entries HTTP/1.1\r\nx-key: office-key-1\r\ncontent-length: 59\r\n\r\nstart,past,activity\n2024-03-06 00:00,2024-03-06 08:00,rest\n",
        b"HTTP/1.1 201 Created\r\ncontent-type: text/plain; charset=utf-8\r\ncontent-length: 15\r\nconnection: close\r\n\r\nentered 1 to 1\n",
    ),
    (
        b"POST /drivers/17/entries HTTP/1.1\r\nx-key: office-key-1\r\ncontent-length: 20\r\n\r\nstart,past,activity\n",
        b"HTTP/1.1 200 OK\r\ncontent-type: text/plain; charset=utf-8\r\ncontent-length: 13\r\nconnection: close\r\n\r\nentered none\n",
    ),
    (
        b"POST /drivers/17/entries HTTP/1.1\r\nx-key: office-key-1\r\ncontent-length: 59\r\n\r\nstart,past,activity\n2024-03-04 08:00,2024-03-04 09:00,rest\n",
        b"HTTP/1.1 409 Conflict\r\ncontent-type: text/plain; charset=utf-8\r\ncontent-length: 37\r\nconnection: close\r\n\r\nS6 contradiction at 2024-03-04 08:00\n",
    ),
    (
        b"POST /drivers/17/entries HTTP/1.1\r\nx-key: office-key-1\r\ncontent-length: 60\r\n\r\nstart,past,activity\n2024-03-06 08:00,2024-03-06 09:00,ferry\n",
        b"HTTP/1.1 422 Unprocessable Entity\r\ncontent-type: text/plain; charset=utf-8\r\ncontent-length: 28\r\nconnection: close\r\n\r\nE5 left out in row 2: ferry\n",
    ),
    (
        b"POST /drivers/17/entries HTTP/1.1\r\nx-key: office-key-1\r\ncontent-length: 73\r\n\r\nstart,past,activity,author,note\n2024-03-06 08:00,2024-03-06 09:00,rest,,\n",
        b"HTTP/1.1 422 Unprocessable Entity\r\ncontent-type: text/plain; charset=utf-8\r\ncontent-length: 24\r\nconnection: close\r\n\r\nE10 bad author in row 2\n",
    ),
    (
        b"GET /me/entries HTTP/1.1\r\nx-key: anna-key-1\r\n\r\n",
        b"HTTP/1.1 200 OK\r\ncontent-type: text/plain; charset=utf-8\r\ncontent-length: 58\r\nconnection: close\r\n\r\n1 2024-03-06 00:00 2024-03-06 08:00 rest kept \"office\" \"\"\n",
    ),
    (
        b"POST /drivers/17/withdraw/1 HTTP/1.1\r\nx-key: office-key-1\r\n\r\n",
        b"HTTP/1.1 200 OK\r\ncontent-type: text/plain; charset=utf-8\r\ncontent-length: 12\r\nconnection: close\r\n\r\nwithdrawn 1\n",
    ),
    (
        b"POST /drivers/17/withdraw/1 HTTP/1.1\r\nx-key: office-key-1\r\ncontent-length: 0\r\n\r\n",
        b"HTTP/1.1 409 Conflict\r\ncontent-type: text/plain; charset=utf-8\r\ncontent-length: 21\r\nconnection: close\r\n\r\nS8 already withdrawn\n",
    ),
    (
        b"POST /drivers/17/withdraw/2 HTTP/1.1\r\nx-key: office-key-1\r\n\r\n",
        b"HTTP/1.1 404 Not Found\r\ncontent-type: text/plain; charset=utf-8\r\ncontent-length: 17\r\nconnection: close\r\n\r\nS7 unknown entry\n",
    ),
    (
        b"GET /me/entries HTTP/1.1\r\nx-key: anna-key-1\r\n\r\n",
        b"HTTP/1.1 200 OK\r\ncontent-type: text/plain; charset=utf-8\r\ncontent-length: 63\r\nconnection: close\r\n\r\n1 2024-03-06 00:00 2024-03-06 08:00 rest withdrawn \"office\" \"\"\n",
    ),
    // The driver's base is set.
    (
        b"POST /drivers/17/base/2024-03-05 HTTP/1.1\r\nx-key: office-key-1\r\n\r\n",
        b"HTTP/1.1 422 Unprocessable Entity\r\ncontent-type: text/plain; charset=utf-8\r\ncontent-length: 16\r\nconnection: close\r\n\r\nS9 not a Monday\n",
    ),
    (
        b"POST /drivers/17/base/2024-03-11 HTTP/1.1\r\nx-key: office-key-1\r\n\r\n",
        b"HTTP/1.1 200 OK\r\ncontent-type: text/plain; charset=utf-8\r\ncontent-length: 16\r\nconnection: close\r\n\r\nbase 2024-03-11\n",
    ),
    (
        b"GET /me/breaches HTTP/1.1\r\nx-key: anna-key-1\r\n\r\n",
        b"HTTP/1.1 200 OK\r\ncontent-type: text/plain; charset=utf-8\r\ncontent-length: 37\r\nconnection: close\r\n\r\nEXAMINED TO 2024-03-11 00:00 unknown\n",
    ),
];

/// A request, the reply to it, and the reply when it is made again.
pub(crate) type Case = (&'static [u8], &'static [u8], &'static [u8]);

/// Requests to one archive, in sequence, whose reader or writer fails.
pub(crate) static CASES: [Case; 6] = [
    (
        b"POST /drivers HTTP/1.1\r\nx-key: office-key-1\r\ncontent-length: 94\r\n\r\ndriver,holder,key,base,name\n17,0d4431323334353637383930313233,anna-key-1,2024-03-04,Anna Berg\n",
        b"HTTP/1.1 201 Created\r\ncontent-type: text/plain; charset=utf-8\r\ncontent-length: 14\r\nconnection: close\r\n\r\nregistered 17\n",
        b"HTTP/1.1 409 Conflict\r\ncontent-type: text/plain; charset=utf-8\r\ncontent-length: 16\r\nconnection: close\r\n\r\nS1 driver taken\n",
    ),
    (
        b"POST /cards/both HTTP/1.1\r\nx-key: office-key-1\r\ncontent-length: 67\r\n\r\n\x05\x20\x00\x00\x11\x0dD123456789012300\x05\x04\x00\x00\x28\x00\x00\x00\x14\x00\x00\x00\x14\x65\xe5\x0f\x00\x00\x01\x00\x64\x00\x00\x11\xe0\x19\xfe\x23\xfc\x00\x14\x00\x10\x65\xe6\x60\x80\x00\x02\x00\x00\x00\x00\x11\xe0",
        b"HTTP/1.1 201 Created\r\ncontent-type: text/plain; charset=utf-8\r\ncontent-length: 25\r\nconnection: close\r\n\r\nadded driver 17 number 1\n",
        b"HTTP/1.1 200 OK\r\ncontent-type: text/plain; charset=utf-8\r\ncontent-length: 19\r\nconnection: close\r\n\r\nrepeated driver 17\n",
    ),
    (
        b"POST /drivers/17/entries HTTP/1.1\r\nx-key: office-key-1\r\ncontent-length: 59\r\n\r\nstart,past,activity\n2024-03-06 00:00,2024-03-06 08:00,rest\n",
        b"HTTP/1.1 201 Created\r\ncontent-type: text/plain; charset=utf-8\r\ncontent-length: 15\r\nconnection: close\r\n\r\nentered 1 to 1\n",
        b"HTTP/1.1 201 Created\r\ncontent-type: text/plain; charset=utf-8\r\ncontent-length: 15\r\nconnection: close\r\n\r\nentered 2 to 2\n",
    ),
    (
        b"GET /me/breaches HTTP/1.1\r\nx-key: anna-key-1\r\n\r\n",
        b"HTTP/1.1 200 OK\r\ncontent-type: text/plain; charset=utf-8\r\ncontent-length: 100\r\nconnection: close\r\n\r\nB1 Art 7 at 2024-03-04 13:00 since 2024-03-04 08:30 amount 240\nEXAMINED TO 2024-03-04 17:00 unknown\n",
        b"HTTP/1.1 200 OK\r\ncontent-type: text/plain; charset=utf-8\r\ncontent-length: 100\r\nconnection: close\r\n\r\nB1 Art 7 at 2024-03-04 13:00 since 2024-03-04 08:30 amount 240\nEXAMINED TO 2024-03-04 17:00 unknown\n",
    ),
    (
        b"POST /drivers/17/withdraw/1 HTTP/1.1\r\nx-key: office-key-1\r\n\r\n",
        b"HTTP/1.1 200 OK\r\ncontent-type: text/plain; charset=utf-8\r\ncontent-length: 12\r\nconnection: close\r\n\r\nwithdrawn 1\n",
        b"HTTP/1.1 409 Conflict\r\ncontent-type: text/plain; charset=utf-8\r\ncontent-length: 21\r\nconnection: close\r\n\r\nS8 already withdrawn\n",
    ),
    // Nothing of the body is read.
    (
        b"POST /cards/both HTTP/1.1\r\nx-key: bert-key-1\r\ncontent-length: 67\r\n\r\n",
        b"HTTP/1.1 403 Forbidden\r\ncontent-type: text/plain; charset=utf-8\r\ncontent-length: 10\r\nconnection: close\r\n\r\nforbidden\n",
        b"HTTP/1.1 403 Forbidden\r\ncontent-type: text/plain; charset=utf-8\r\ncontent-length: 10\r\nconnection: close\r\n\r\nforbidden\n",
    ),
];

/// How many of the cases make the archive that the other tests use.
const BEGUN: usize = 3;

/// A request of the office: its method and path, its fields other than the key, and what comes after its head; then the status of the
/// reply, and its text.
type Asked = (
    &'static str,
    &'static str,
    &'static str,
    &'static str,
    &'static str,
);

/// Requests in which more than one thing may be wrong, each to a new archive.
static ORDER: [Asked; 54] = [
    // The path and the method are checked before the fields.
    (
        "POST /nothing",
        "transfer-encoding: chunked\r\n",
        "",
        "404 Not Found",
        "not found\n",
    ),
    (
        "PUT /drivers/17/entries",
        "transfer-encoding: chunked\r\n",
        "",
        "405 Method Not Allowed",
        "method not allowed\n",
    ),
    (
        "post /drivers/17/entries",
        "content-length: 19\r\n",
        "start,past,activity",
        "405 Method Not Allowed",
        "method not allowed\n",
    ),
    (
        "POST /me/cards/both",
        "content-length: 262145\r\n",
        "",
        "403 Forbidden",
        "forbidden\n",
    ),
    // The fields and the body are checked before the arguments in the path.
    (
        "POST /drivers/017/entries",
        "",
        "",
        "411 Length Required",
        "length required\n",
    ),
    (
        "POST /cards/whole",
        "",
        "",
        "411 Length Required",
        "length required\n",
    ),
    (
        "POST /cards/whole",
        "content-length: 262145\r\n",
        "",
        "413 Payload Too Large",
        "too large\n",
    ),
    (
        "POST /drivers/017/entries",
        "content-length: 20\r\n",
        "start,past,activity",
        "400 Bad Request",
        "bad request\n",
    ),
    (
        "POST /drivers/0/withdraw/0",
        "content-length: 1\r\n",
        "x",
        "400 Bad Request",
        "bad request\n",
    ),
    // The arguments in the path are checked from left to right, and before the text of the body.
    (
        "POST /drivers/017/entries",
        "content-length: 5\r\n",
        "lunch",
        "400 Bad Request",
        "N1 bad number\n",
    ),
    (
        "POST /cards/whole",
        "content-length: 5\r\n",
        "lunch",
        "400 Bad Request",
        "P1 bad part\n",
    ),
    (
        "POST /drivers/17/withdraw/01",
        "",
        "",
        "400 Bad Request",
        "N1 bad number\n",
    ),
    (
        "POST /drivers/17/withdraw/1000001",
        "",
        "",
        "400 Bad Request",
        "N1 bad number\n",
    ),
    (
        "POST /drivers/1000000/base/2024-13-01",
        "",
        "",
        "400 Bad Request",
        "N1 bad number\n",
    ),
    (
        "POST /drivers/18/base/2024-13-01",
        "",
        "",
        "400 Bad Request",
        "Z2 no such date\n",
    ),
    (
        "POST /drivers/18/base/2024-3-04",
        "",
        "",
        "400 Bad Request",
        "Z1 not of the shape\n",
    ),
    (
        "POST /drivers/18/base/2000-01-02",
        "",
        "",
        "400 Bad Request",
        "Z3 out of range\n",
    ),
    (
        "GET /drivers/1%37/owed",
        "",
        "",
        "400 Bad Request",
        "N1 bad number\n",
    ),
    // The text of the body is checked before the archive is accessed.
    (
        "POST /drivers/18/entries",
        "content-length: 5\r\n",
        "lunch",
        "422 Unprocessable Entity",
        "E1 wrong head\n",
    ),
    (
        "POST /drivers/18/entries",
        "content-length: 19\r\n",
        "start,past,activity",
        "404 Not Found",
        "S4 unknown driver\n",
    ),
    (
        "GET /drivers/18/files/9",
        "",
        "",
        "404 Not Found",
        "S4 unknown driver\n",
    ),
    // A body that is sent in chunks, of any length.
    (
        "POST /drivers/17/entries",
        "transfer-encoding: chunked\r\n",
        "",
        "400 Bad Request",
        "bad request\n",
    ),
    (
        "POST /drivers/17/entries",
        "Transfer-Encoding: identity\r\ncontent-length: 262145\r\n",
        "",
        "400 Bad Request",
        "bad request\n",
    ),
    (
        "POST /drivers/17/entries",
        "content-length: 19\r\ntransfer-encoding: identity\r\n",
        "start,past,activity",
        "400 Bad Request",
        "bad request\n",
    ),
    (
        "POST /drivers/17/withdraw/1",
        "TRANSFER-ENCODING:\r\n",
        "",
        "400 Bad Request",
        "bad request\n",
    ),
    // The length of the body: given once, in 1 to 12 digits.
    (
        "POST /drivers/17/entries",
        "content-length: 19\r\nContent-Length: 19\r\n",
        "start,past,activity",
        "400 Bad Request",
        "bad request\n",
    ),
    (
        "POST /drivers/17/entries",
        "content-length: 19\r\ncontent-length: 262145\r\n",
        "start,past,activity",
        "400 Bad Request",
        "bad request\n",
    ),
    (
        "POST /drivers/17/entries",
        "content-length: 000000000019\r\n",
        "start,past,activity",
        "200 OK",
        "entered none\n",
    ),
    (
        "POST /drivers/17/entries",
        "content-length: 0000000000019\r\n",
        "start,past,activity",
        "400 Bad Request",
        "bad request\n",
    ),
    (
        "POST /drivers/17/entries",
        "content-length: 999999999999\r\n",
        "start,past,activity",
        "413 Payload Too Large",
        "too large\n",
    ),
    (
        "POST /drivers/17/entries",
        "content-length: 1000000000000\r\n",
        "start,past,activity",
        "400 Bad Request",
        "bad request\n",
    ),
    (
        "POST /drivers/17/entries",
        "content-length: +19\r\n",
        "start,past,activity",
        "400 Bad Request",
        "bad request\n",
    ),
    (
        "POST /drivers/17/entries",
        "content-length: -19\r\n",
        "start,past,activity",
        "400 Bad Request",
        "bad request\n",
    ),
    (
        "POST /drivers/17/entries",
        "content-length: 1 9\r\n",
        "start,past,activity",
        "400 Bad Request",
        "bad request\n",
    ),
    (
        "POST /drivers/17/entries",
        "content-length: 19, 19\r\n",
        "start,past,activity",
        "400 Bad Request",
        "bad request\n",
    ),
    (
        "POST /drivers/17/entries",
        "content-length: 0x13\r\n",
        "start,past,activity",
        "400 Bad Request",
        "bad request\n",
    ),
    (
        "POST /drivers/17/entries",
        "content-length:\r\n",
        "start,past,activity",
        "400 Bad Request",
        "bad request\n",
    ),
    (
        "POST /drivers/17/entries",
        "content-length: \r\n",
        "start,past,activity",
        "400 Bad Request",
        "bad request\n",
    ),
    (
        "POST /drivers/17/entries",
        "CONTENT-LENGTH:19\r\n",
        "start,past,activity",
        "200 OK",
        "entered none\n",
    ),
    (
        "POST /drivers/17/entries",
        "content-length: 262144\r\n",
        "start,past,activity",
        "400 Bad Request",
        "bad request\n",
    ),
    (
        "POST /drivers/17/entries",
        "content-length: 0\r\n",
        "start,past,activity",
        "422 Unprocessable Entity",
        "E1 wrong head\n",
    ),
    // A body that must be empty.
    (
        "POST /drivers/17/withdraw/1",
        "",
        "",
        "200 OK",
        "withdrawn 1\n",
    ),
    (
        "POST /drivers/17/withdraw/1",
        "content-length: 0\r\n",
        "",
        "200 OK",
        "withdrawn 1\n",
    ),
    (
        "POST /drivers/17/withdraw/1",
        "Content-length: 000000000000\r\n",
        "",
        "200 OK",
        "withdrawn 1\n",
    ),
    (
        "POST /drivers/17/withdraw/1",
        "content-length: 1\r\n",
        "x",
        "400 Bad Request",
        "bad request\n",
    ),
    (
        "POST /drivers/17/withdraw/1",
        "content-length: 1\r\n",
        "",
        "400 Bad Request",
        "bad request\n",
    ),
    (
        "POST /drivers/17/withdraw/1",
        "content-length: 262144\r\n",
        "",
        "400 Bad Request",
        "bad request\n",
    ),
    (
        "POST /drivers/17/withdraw/1",
        "content-length: 262145\r\n",
        "",
        "413 Payload Too Large",
        "too large\n",
    ),
    // Bytes after the body.
    (
        "POST /drivers/17/entries",
        "content-length: 19\r\n",
        "start,past,activity\nlunch",
        "200 OK",
        "entered none\n",
    ),
    (
        "POST /drivers/17/withdraw/1",
        "",
        "lunch",
        "200 OK",
        "withdrawn 1\n",
    ),
    (
        "GET /drivers/17/entries",
        "",
        "POST /drivers HTTP/1.1\r\n\r\n",
        "200 OK",
        "1 2024-03-06 00:00 2024-03-06 08:00 rest kept \"office\" \"\"\n",
    ),
    // The body of a GET is ignored.
    (
        "GET /drivers/17/entries",
        "content-length: lunch\r\n",
        "",
        "200 OK",
        "1 2024-03-06 00:00 2024-03-06 08:00 rest kept \"office\" \"\"\n",
    ),
    (
        "GET /drivers/17/entries",
        "content-length: 999999\r\n",
        "",
        "200 OK",
        "1 2024-03-06 00:00 2024-03-06 08:00 rest kept \"office\" \"\"\n",
    ),
    (
        "GET /drivers/17/entries",
        "content-length: 1\r\ncontent-length: 2\r\ntransfer-encoding: chunked\r\n",
        "",
        "200 OK",
        "1 2024-03-06 00:00 2024-03-06 08:00 rest kept \"office\" \"\"\n",
    ),
];

/// Fails the test if a row's reply isn't the expected one.
pub(crate) fn same(rt: &impl Abort, row: &str, place: usize, reply: &[u8], wanted: &[u8]) {
    let text = str::from_utf8(reply).unwrap_or("bytes");
    assert!(rt; reply == wanted, "of {row} {place}: {text}");
}

/// Fails the test if something isn't true of a row.
pub(crate) fn holds(rt: &impl Abort, row: &str, place: usize, is_so: bool) {
    assert!(rt; is_so, "of {row} {place}");
}

/// The reply to a request, with this key of the office, if no device fails.
fn ask_by(
    alloc: Global,
    shelf: &mut Shelf,
    office_key: &[u8],
    request: &[u8],
) -> Result<Vec<u8>, IoFault> {
    let mut writer = Device::new(Vec::new(alloc));
    answer(
        alloc,
        shelf,
        office_key,
        &mut Device::new(request),
        &mut writer,
    )?;
    Ok(writer.into_inner())
}

/// The reply to a request, if no device fails.
pub(crate) fn ask(alloc: Global, shelf: &mut Shelf, request: &[u8]) -> Result<Vec<u8>, IoFault> {
    ask_by(alloc, shelf, OFFICE, request)
}

/// A reply with a text.
pub(crate) fn reply_with(alloc: Global, status: &str, text: &str) -> Result<String, AllocError> {
    let length = text.len();
    format!(in alloc;
        "HTTP/1.1 {status}\r\ncontent-type: text/plain; charset=utf-8\r\ncontent-length: {length}\r\nconnection: close\r\n\r\n{text}"
    )
}

/// An archive to which the first `count` cases were sent.
pub(crate) fn archive_after(alloc: Global, count: usize) -> Result<Shelf, IoFault> {
    let mut shelf = Shelf::new(alloc);
    for (request, _, _) in CASES.iter().take(count) {
        ask(alloc, &mut shelf, request)?;
    }
    Ok(shelf)
}

/// An archive with driver 17, a card file of that driver, and an entry.
pub(crate) fn archive(alloc: Global) -> Result<Shelf, IoFault> {
    archive_after(alloc, BEGUN)
}

#[test]
fn a_conversation_is_answered(rt: HostRuntime) -> Result<(), Fail> {
    let alloc = rt.alloc();
    let mut shelf = Shelf::new(alloc);
    let mut slow = Shelf::new(alloc);
    for (place, (request, wanted)) in CONVERSATION.iter().enumerate() {
        let reply = ask(alloc, &mut shelf, request)?;
        same(&rt, "request", place, &reply, wanted);
        // One byte per call, and no more calls than there are bytes.
        let mut reader = Faulty::new(alloc, *request, 1, request.len());
        let mut writer = Device::new(Vec::new(alloc));
        answer(alloc, &mut slow, OFFICE, &mut reader, &mut writer)?;
        let reply = writer.into_inner();
        same(&rt, "request by bytes", place, &reply, wanted);
    }
    Ok(())
}

#[test]
fn the_first_check_that_fails_answers(rt: HostRuntime) -> Result<(), Fail> {
    let alloc = rt.alloc();
    for (place, (line, fields, behind, status, text)) in ORDER.iter().enumerate() {
        let request = format!(in alloc;
            "{line} HTTP/1.1\r\nx-key: office-key-1\r\n{fields}\r\n{behind}"
        )?;
        let reply = ask(alloc, &mut archive(alloc)?, request.as_bytes())?;
        let wanted = reply_with(alloc, status, text)?;
        same(&rt, line, place, &reply, wanted.as_bytes());
    }
    Ok(())
}

#[test]
fn the_key_of_the_office_comes_first(rt: HostRuntime) -> Result<(), Fail> {
    let alloc = rt.alloc();
    let mut shelf = archive(alloc)?;
    // A driver has the same key.
    for (path, status, text) in [
        (
            "/drivers/17/owed",
            "200 OK",
            "EXAMINED TO 2024-03-04 17:00 unknown\n",
        ),
        ("/me/owed", "403 Forbidden", "forbidden\n"),
    ] {
        let request = format!(in alloc; "GET {path} HTTP/1.1\r\nx-key: anna-key-1\r\n\r\n")?;
        let reply = ask_by(alloc, &mut shelf, b"anna-key-1", request.as_bytes())?;
        let wanted = reply_with(alloc, status, text)?;
        same(&rt, path, 0, &reply, wanted.as_bytes());
    }
    Ok(())
}
