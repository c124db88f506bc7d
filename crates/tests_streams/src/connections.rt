//! Connections to an archive: several in one run, and one over the loopback interface.

use crate::faulty::Faulty;
use crate::requests::{CASES, OFFICE, archive, archive_after, holds, same};
use std::io::{Read, Write};
use std::net::{Ipv4Addr, TcpListener, TcpStream};
use std::test::Fail;
use std::time::Duration;
use tacho_http::{answer, answer_all};
use tacho_time::Device;

/// The most seconds that a test waits for the other end of its connection.
const PATIENCE: u64 = 10;

#[test]
fn connections_are_answered_in_order(rt: HostRuntime) -> Result<(), Fail> {
    let alloc = rt.alloc();
    let (request, added, repeated) = CASES[1];
    let mut connections = [
        (
            Faulty::new(alloc, request, 512, 1),
            Faulty::new(alloc, b"", 512, 9),
        ),
        (
            Faulty::new(alloc, request, 512, 1),
            Faulty::new(alloc, b"", 512, 9),
        ),
    ];
    let mut shelf = archive_after(alloc, 1)?;
    let count = answer_all(alloc, &mut shelf, OFFICE, &mut connections);
    holds(&rt, "count", count, count == 2);
    same(&rt, "connection", 1, &connections[0].1.written, added);
    same(&rt, "connection", 2, &connections[1].1.written, repeated);
    Ok(())
}

#[test]
fn a_fault_ends_its_connection_alone(rt: HostRuntime) -> Result<(), Fail> {
    let alloc = rt.alloc();
    let (request, added, repeated) = CASES[1];
    let mut connections = [
        // The reader fails in the middle of the request.
        (
            Faulty::new(alloc, request, 60, 1),
            Faulty::new(alloc, b"", 512, 9),
        ),
        (
            Faulty::new(alloc, request, 512, 1),
            Faulty::new(alloc, b"", 512, 9),
        ),
        // The writer fails. The request was acted on.
        (
            Faulty::new(alloc, request, 512, 1),
            Faulty::new(alloc, b"", 512, 0),
        ),
        (
            Faulty::new(alloc, request, 512, 1),
            Faulty::new(alloc, b"", 512, 9),
        ),
    ];
    let mut shelf = archive_after(alloc, 1)?;
    let count = answer_all(alloc, &mut shelf, OFFICE, &mut connections);
    holds(&rt, "count", count, count == 2);
    let replies: [&[u8]; 4] = [b"", added, b"", repeated];
    for (place, (connection, reply)) in connections.iter().zip(replies).enumerate() {
        same(&rt, "connection", place, &connection.1.written, reply);
    }
    Ok(())
}

#[test]
fn a_client_that_stays_has_its_reply(rt: HostRuntime) -> Result<(), Fail> {
    let alloc = rt.alloc();
    let (request, wanted, _) = CASES[3];
    let mut shelf = archive(alloc)?;
    let listener = TcpListener::bind(&rt, (Ipv4Addr::LOCALHOST, 0))?;
    let mut client = TcpStream::connect(&rt, listener.local_addr()?)?;
    client.write_all(request)?;
    let (stream, _) = listener.accept()?;
    // A server that reads beyond a complete request would wait forever.
    let patience = Duration::from_secs(PATIENCE);
    stream.set_read_timeout(Some(patience))?;
    let mut reader = Device::new(&stream);
    let mut writer = Device::new(&stream);
    answer(alloc, &mut shelf, OFFICE, &mut reader, &mut writer)?;
    drop(stream);
    client.set_read_timeout(Some(patience))?;
    let mut reply = Vec::new(alloc);
    client.read_to_end(&mut reply)?;
    same(&rt, "loopback", 0, &reply, wanted);
    Ok(())
}
