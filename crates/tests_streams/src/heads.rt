//! Heads of requests, and the limits of heads and bodies.

use crate::requests::{archive, ask, reply_with, same};
use std::alloc::{AllocError, Global};
use std::test::Fail;

/// A head that nothing follows, the status of the reply, and its text.
type Headed = (&'static [u8], &'static str, &'static str);

/// Heads, and bytes that are no head.
static HEADS: [Headed; 20] = [
    // Fields with other names, a key without a blank before it, and both versions.
    (
        b"GET /drivers/17/owed HTTP/1.1\r\nhost: tacho\r\nx-key:office-key-1\r\nx-keys: anna-key-1\r\n\r\n",
        "200 OK",
        "EXAMINED TO 2024-03-04 17:00 unknown\n",
    ),
    (
        b"GET /drivers/17/owed HTTP/1.0\r\nX-KEY: office-key-1\r\n\r\n",
        "200 OK",
        "EXAMINED TO 2024-03-04 17:00 unknown\n",
    ),
    (
        b"GET /drivers/17/owed HTTP/2.0\r\nx-key: office-key-1\r\n\r\n",
        "400 Bad Request",
        "bad request\n",
    ),
    // Keys: exactly one, and compared as a whole.
    (
        b"GET /drivers/17/owed HTTP/1.1\r\nX-Key: office-key-1\r\nx-key: office-key-1\r\n\r\n",
        "403 Forbidden",
        "forbidden\n",
    ),
    (
        b"GET /drivers/17/owed HTTP/1.1\r\nx-key: office-key-1\r\nx-key: anna-key-1\r\n\r\n",
        "403 Forbidden",
        "forbidden\n",
    ),
    (
        b"GET /drivers/17/owed HTTP/1.1\r\nx-key: office-key-\r\n\r\n",
        "403 Forbidden",
        "forbidden\n",
    ),
    (
        b"GET /drivers/17/owed HTTP/1.1\r\nx-key: office-key-11\r\n\r\n",
        "403 Forbidden",
        "forbidden\n",
    ),
    (
        b"GET /drivers/17/owed HTTP/1.1\r\nx-key: Office-key-1\r\n\r\n",
        "403 Forbidden",
        "forbidden\n",
    ),
    (
        b"GET /drivers/17/owed HTTP/1.1\r\nx-key:\r\n\r\n",
        "403 Forbidden",
        "forbidden\n",
    ),
    (
        b"GET /drivers/17/owed HTTP/1.1\r\nkey: office-key-1\r\n\r\n",
        "403 Forbidden",
        "forbidden\n",
    ),
    // The key is checked before the path, and the head before the key.
    (
        b"GET /nothing HTTP/1.1\r\nx-key: bert-key-1\r\n\r\n",
        "403 Forbidden",
        "forbidden\n",
    ),
    (
        b"GET /nothing HTTP/1.1\r\n\r\n",
        "403 Forbidden",
        "forbidden\n",
    ),
    (
        b"GET  /nothing HTTP/1.1\r\n\r\n",
        "400 Bad Request",
        "bad request\n",
    ),
    (
        b"GET /nothing HTTP/1.1\r\nx-key : office-key-1\r\n\r\n",
        "400 Bad Request",
        "bad request\n",
    ),
    (
        b"GET /nothing HTTP/1.1\r\nx-key: office-key-1\r\n folded\r\n\r\n",
        "400 Bad Request",
        "bad request\n",
    ),
    (
        b"GET /nothing HTTP/1.1\r\nx-key: office\x01key-1\r\n\r\n",
        "400 Bad Request",
        "bad request\n",
    ),
    // Targets that are UTF-8, and targets that aren't.
    (
        b"GET /\xc3\xa9 HTTP/1.1\r\nx-key: office-key-1\r\n\r\n",
        "404 Not Found",
        "not found\n",
    ),
    (
        b"GET /drivers/\xc3\xa9/owed HTTP/1.1\r\nx-key: office-key-1\r\n\r\n",
        "400 Bad Request",
        "N1 bad number\n",
    ),
    (
        b"GET /drivers/\xc3/owed HTTP/1.1\r\nx-key: office-key-1\r\n\r\n",
        "400 Bad Request",
        "bad request\n",
    ),
    (
        b"GET /\xff HTTP/1.1\r\n\r\n",
        "400 Bad Request",
        "bad request\n",
    ),
];

/// The length of a head, what follows the field that fills it up, the status of the reply, and its text.
static FILLED: [(usize, &str, &str, &str); 6] = [
    (
        8_192,
        "\r\n\r\n",
        "200 OK",
        "EXAMINED TO 2024-03-04 17:00 unknown\n",
    ),
    (
        8_193,
        "\r\n\r\n",
        "431 Request Header Fields Too Large",
        "head too large\n",
    ),
    (8_191, "", "400 Bad Request", "bad request\n"),
    (
        8_192,
        "",
        "431 Request Header Fields Too Large",
        "head too large\n",
    ),
    (
        8_193,
        "",
        "431 Request Header Fields Too Large",
        "head too large\n",
    ),
    (
        20_000,
        "",
        "431 Request Header Fields Too Large",
        "head too large\n",
    ),
];

/// A head with one field that is filled with letters until the head, including `after_fill` after the letters, has `length` bytes.
fn filled(alloc: Global, length: usize, after_fill: &str) -> Result<String, AllocError> {
    let mut head = String::from_str(
        alloc,
        "GET /me/owed HTTP/1.1\r\nx-key: anna-key-1\r\nletters: ",
    )?;
    let letters = length
        .saturating_sub(head.len())
        .saturating_sub(after_fill.len());
    for _ in 0..letters {
        head.push('a')?;
    }
    head.push_str(after_fill)?;
    Ok(head)
}

/// A head with `count` fields in addition to the key.
fn with_fields(alloc: Global, count: usize) -> Result<String, AllocError> {
    let mut head = String::from_str(alloc, "GET /me/owed HTTP/1.1\r\nx-key: anna-key-1\r\n")?;
    for _ in 0..count {
        head.push_str("letters: a\r\n")?;
    }
    head.push_str("\r\n")?;
    Ok(head)
}

#[test]
fn heads_have_limits(rt: HostRuntime) -> Result<(), Fail> {
    let alloc = rt.alloc();
    let mut shelf = archive(alloc)?;
    for (place, (head, status, text)) in HEADS.iter().enumerate() {
        let wanted = reply_with(alloc, status, text)?;
        let reply = ask(alloc, &mut shelf, head)?;
        same(&rt, "head", place, &reply, wanted.as_bytes());
    }
    // A head that is cut after any of its bytes is no head.
    let head = b"GET /me/breaches HTTP/1.1\r\nx-key: anna-key-1\r\n\r\n".as_slice();
    let wanted = reply_with(alloc, "400 Bad Request", "bad request\n")?;
    for length in 0..head.len() {
        let reply = ask(alloc, &mut shelf, &head[..length])?;
        same(&rt, "head cut at", length, &reply, wanted.as_bytes());
    }
    for (length, after_fill, status, text) in FILLED.iter() {
        let wanted = reply_with(alloc, status, text)?;
        let head = filled(alloc, *length, after_fill)?;
        let reply = ask(alloc, &mut shelf, head.as_bytes())?;
        same(&rt, "head of bytes", *length, &reply, wanted.as_bytes());
    }
    for (count, status, text) in [
        (31, "200 OK", "EXAMINED TO 2024-03-04 17:00 unknown\n"),
        (
            32,
            "431 Request Header Fields Too Large",
            "head too large\n",
        ),
        (
            100,
            "431 Request Header Fields Too Large",
            "head too large\n",
        ),
    ] {
        let wanted = reply_with(alloc, status, text)?;
        let head = with_fields(alloc, count)?;
        let reply = ask(alloc, &mut shelf, head.as_bytes())?;
        same(
            &rt,
            "fields beside the key",
            count,
            &reply,
            wanted.as_bytes(),
        );
    }
    Ok(())
}

#[test]
fn bodies_have_a_limit(rt: HostRuntime) -> Result<(), Fail> {
    let alloc = rt.alloc();
    // The first block of a card file, followed by empty blocks of five bytes each.
    for (length, sent, status, text) in [
        (
            262_144,
            262_144,
            "422 Unprocessable Entity",
            "C1 truncated block at 262142\n",
        ),
        (
            262_144,
            262_145,
            "422 Unprocessable Entity",
            "C1 truncated block at 262142\n",
        ),
        (262_144, 262_143, "400 Bad Request", "bad request\n"),
        (262_145, 262_145, "413 Payload Too Large", "too large\n"),
    ] {
        let head = format!(in alloc;
            "POST /cards/both HTTP/1.1\r\nx-key: office-key-1\r\ncontent-length: {length}\r\n\r\n"
        )?;
        let mut body = Vec::from_slice(alloc, b"\x05\x20\x00\x00\x11\x0dD123456789012300")?;
        body.resize(sent, 0)?;
        let mut request = Vec::from_slice(alloc, head.as_bytes())?;
        request.extend_from_slice(&body)?;
        let reply = ask(alloc, &mut archive(alloc)?, &request)?;
        let wanted = reply_with(alloc, status, text)?;
        same(&rt, "body", sent, &reply, wanted.as_bytes());
    }
    Ok(())
}
