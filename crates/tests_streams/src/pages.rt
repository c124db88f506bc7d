//! Page files beside the requests to an archive.

use crate::faulty::Faulty;
use crate::requests::{CASES, OFFICE, archive, archive_after, ask, holds, reply_with, same};
use std::alloc::{AllocError, Global};
use std::test::Fail;
use tacho_http::{IoFault, PageFile, Routes, answer_all_or_pages, answer_or_page};
use tacho_message::PageType;
use tacho_shelf::Shelf;
use tacho_time::Device;

/// Files of each type. The last one is never found: the first with its path is.
static FILES: [PageFile; 5] = [
    PageFile {
        path: "/office/",
        kind: PageType::Html,
        text: "<p>Büro</p>\n",
    },
    PageFile {
        path: "/shared/page.css",
        kind: PageType::Css,
        text: "p {}\n",
    },
    PageFile {
        path: "/shared/words.js",
        kind: PageType::JavaScript,
        text: "",
    },
    PageFile {
        path: "/driver/uploads",
        kind: PageType::Text,
        text: "open\n",
    },
    PageFile {
        path: "/office/",
        kind: PageType::Text,
        text: "second\n",
    },
];

/// Requests for page files, each with the type and the text of the file.
static GIVEN: [(&[u8], &str, &str); 7] = [
    (
        b"GET /office/ HTTP/1.1\r\n\r\n",
        "text/html",
        "<p>Büro</p>\n",
    ),
    (
        b"GET /office/ HTTP/1.1\r\nx-key: office-key-1\r\n\r\n",
        "text/html",
        "<p>Büro</p>\n",
    ),
    (
        b"GET /office/ HTTP/1.1\r\nx-key: nobody-has-this\r\n\r\n",
        "text/html",
        "<p>Büro</p>\n",
    ),
    (
        b"GET /office/ HTTP/1.0\r\ncontent-length: lunch\r\n\r\n",
        "text/html",
        "<p>Büro</p>\n",
    ),
    (
        b"GET /shared/page.css HTTP/1.1\r\n\r\n",
        "text/css",
        "p {}\n",
    ),
    (
        b"GET /shared/words.js HTTP/1.1\r\n\r\n",
        "text/javascript",
        "",
    ),
    (
        b"GET /driver/uploads HTTP/1.1\r\n\r\n",
        "text/plain",
        "open\n",
    ),
];

/// Other requests, each with the status and the text of its reply.
static OTHERS: [(&[u8], &str, &str); 8] = [
    (
        b"POST /office/ HTTP/1.1\r\ncontent-length: 3\r\n\r\nabc",
        "405 Method Not Allowed",
        "method not allowed\n",
    ),
    (
        b"HEAD /office/ HTTP/1.1\r\n\r\n",
        "405 Method Not Allowed",
        "method not allowed\n",
    ),
    (
        b"get /office/ HTTP/1.1\r\n\r\n",
        "405 Method Not Allowed",
        "method not allowed\n",
    ),
    (
        b"GET /office HTTP/1.1\r\n\r\n",
        "403 Forbidden",
        "forbidden\n",
    ),
    (
        b"GET /office HTTP/1.1\r\nx-key: office-key-1\r\n\r\n",
        "404 Not Found",
        "not found\n",
    ),
    (
        b"GET /Office/ HTTP/1.1\r\n\r\n",
        "403 Forbidden",
        "forbidden\n",
    ),
    (
        b"GET /office/?a HTTP/1.1\r\n\r\n",
        "403 Forbidden",
        "forbidden\n",
    ),
    (
        b"GET /office/ HTTP/1.1\r\n",
        "400 Bad Request",
        "bad request\n",
    ),
];

/// The reply with a page file.
fn page_with(alloc: Global, kind: &str, text: &str) -> Result<String, AllocError> {
    let length = text.len();
    format!(in alloc;
        "HTTP/1.1 200 OK\r\ncontent-type: {kind}; charset=utf-8\r\ncontent-length: {length}\r\nconnection: close\r\ncontent-security-policy: default-src 'none'; script-src 'self'; style-src 'self'; connect-src 'self'; img-src data:; base-uri 'none'; form-action 'none'; frame-ancestors 'none'; require-trusted-types-for 'script'\r\nx-content-type-options: nosniff\r\nreferrer-policy: no-referrer\r\ncross-origin-opener-policy: same-origin\r\ncache-control: no-cache\r\n\r\n{text}"
    )
}

/// The reply to a request where there are page files, if no device fails.
fn ask_with_pages(alloc: Global, shelf: &mut Shelf, request: &[u8]) -> Result<Vec<u8>, IoFault> {
    let routes = Routes::new(alloc).ok();
    let mut writer = Device::new(Vec::new(alloc));
    answer_or_page(
        alloc,
        FILES.as_slice(),
        routes.as_ref(),
        shelf,
        OFFICE,
        &mut Device::new(request),
        &mut writer,
    )?;
    Ok(writer.into_inner())
}

#[test]
fn page_files_need_no_key(rt: HostRuntime) -> Result<(), Fail> {
    let alloc = rt.alloc();
    let mut shelf = archive(alloc)?;
    for (place, (request, kind, text)) in GIVEN.iter().enumerate() {
        let reply = ask_with_pages(alloc, &mut shelf, request)?;
        same(
            &rt,
            "page",
            place,
            &reply,
            page_with(alloc, kind, text)?.as_bytes(),
        );
    }
    Ok(())
}

#[test]
fn other_requests_are_the_archives(rt: HostRuntime) -> Result<(), Fail> {
    let alloc = rt.alloc();
    let mut shelf = archive(alloc)?;
    for (place, (request, status, text)) in OTHERS.iter().enumerate() {
        let reply = ask_with_pages(alloc, &mut shelf, request)?;
        same(
            &rt,
            "other",
            place,
            &reply,
            reply_with(alloc, status, text)?.as_bytes(),
        );
    }
    Ok(())
}

#[test]
fn without_page_files_their_paths_need_a_key(rt: HostRuntime) -> Result<(), Fail> {
    let alloc = rt.alloc();
    let reply = ask(alloc, &mut archive(alloc)?, GIVEN[0].0)?;
    same(
        &rt,
        "alone",
        0,
        &reply,
        reply_with(alloc, "403 Forbidden", "forbidden\n")?.as_bytes(),
    );
    Ok(())
}

#[test]
fn pages_and_requests_are_answered_in_order(rt: HostRuntime) -> Result<(), Fail> {
    let alloc = rt.alloc();
    let (request, added, repeated) = CASES[1];
    let (asks, kind, text) = GIVEN[0];
    let mut connections = [
        (
            Faulty::new(alloc, request, 512, 1),
            Faulty::new(alloc, b"", 512, 9),
        ),
        (
            Faulty::new(alloc, asks, 512, 1),
            Faulty::new(alloc, b"", 512, 9),
        ),
        // The writer fails during the head of the reply.
        (
            Faulty::new(alloc, asks, 512, 1),
            Faulty::new(alloc, b"", 17, 1),
        ),
        (
            Faulty::new(alloc, request, 512, 1),
            Faulty::new(alloc, b"", 512, 9),
        ),
    ];
    let mut shelf = archive_after(alloc, 1)?;
    let count = answer_all_or_pages(
        alloc,
        FILES.as_slice(),
        &mut shelf,
        OFFICE,
        &mut connections,
    );
    holds(&rt, "count", count, count == 3);
    let page = page_with(alloc, kind, text)?;
    same(&rt, "connection", 0, &connections[0].1.written, added);
    same(
        &rt,
        "connection",
        1,
        &connections[1].1.written,
        page.as_bytes(),
    );
    same(
        &rt,
        "connection",
        2,
        &connections[2].1.written,
        b"HTTP/1.1 200 OK\r\n",
    );
    same(&rt, "connection", 3, &connections[3].1.written, repeated);
    Ok(())
}
