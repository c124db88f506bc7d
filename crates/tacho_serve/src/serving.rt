//! A port, and its connections, which are answered one after the other.

ghost use Rattle.std.specs.Prelude.{List};
ghost use Rattle.tacho_state.specs.State.{State};
ghost use Rattle.tacho_serve.specs.Served.{ChangesByRequests};

use crate::key::OfficeKey;
use crate::timed::Timed;
use crate::waiting::Waiting;
use std::net::{Ipv4Addr, Shutdown, TcpListener, TcpStream};
use std::time::Duration;
use std::{io, thread};
use tacho_http::{PageFile, Routes, answer_or_page};
use tacho_state::{Keeper, StoreFault};
use tacho_time::Device;
use thiserror::Error;

/// The most seconds that a connection may take, from when its turn comes to the last byte of its reply. Other connections wait for it.
const PATIENCE: u64 = 30;

/// The most seconds for which the server still reads what follows a request that it has answered.
const LINGER: u64 = 2;

/// How often the server probes an archive whose store has failed before it ends, and the pause after each probe in milliseconds: a second
/// in all.
const QUESTIONS: u32 = 10;

const PAUSE: u64 = 100;

/// Why a server ended before it had answered all of its connections.
#[derive(Clone, Copy, Debug, PartialEq, Eq, Error)]
pub enum ServeFault {
    /// The port is not available, or no more connections can be accepted.
    #[error("the port failed")]
    Device,
    /// The archive's store has failed and was shut, or somebody else has changed, replaced or moved its files. Nothing can be answered
    /// until it is opened again.
    #[error("the archive's store failed")]
    Store,
    /// Memory ran out before the first connection.
    #[error("out of memory")]
    Memory,
}

/// Where an archive is kept, beside the connection that keeps it open.
pub trait Place {
    /// Notes the archive's files as they are now.
    fn note(&mut self, rt: &HostRuntime);

    /// Reports that a driver has the office's key, before the port is bound.
    fn warn(&mut self, rt: &HostRuntime);

    /// Reports that the port is bound, before the first connection.
    fn begin(&mut self, rt: &HostRuntime);

    /// True if nobody has changed, replaced or moved them since they were noted. Otherwise what is written to them now may be lost.
    fn is_unchanged(&mut self, rt: &HostRuntime) -> bool;
}

/// Listens on a port of 127.0.0.1.
fn listen(rt: &HostRuntime, port: u16) -> Result<TcpListener, ServeFault> {
    TcpListener::bind(rt, (Ipv4Addr::LOCALHOST, port)).map_err(|_| ServeFault::Device)
}

/// Binds a port of 127.0.0.1, accepts `count` connections there, and answers them one after the other, each within 30 seconds: requests for
/// these page files, and those to the archive. A connection that sends nothing is closed, and delays no other. A fault of a connection ends
/// only that connection.
/// The place was noted before, and is noted after each answer: once it isn't as it was noted, no further connection is answered. A change
/// during an answer isn't noticed. The archive changes by requests alone, under this key of the office.
pub fn serve<K: Keeper, P: Place>(
    rt: &HostRuntime,
    keeper: &mut K,
    place: &mut P,
    key: &OfficeKey<'_>,
    files: &[PageFile],
    port: u16,
    count: u32,
) -> Result<(), ServeFault>
    ensures { ChangesByRequests files.now key.now K.stands K.is_clean K.leaves keeper.old keeper.new }
{
    let Ok(routes) = Routes::new(rt.alloc()) else {
        return Err(ServeFault::Memory);
    };
    let listener = listen(rt, port)?;
    let Ok(mut waiting) = Waiting::new(rt, &listener, count) else {
        return Err(ServeFault::Memory);
    };
    place.begin(rt);
    for _ in 0..count {
        let stream = match waiting.next() {
            Ok(Some(stream)) => stream,
            Ok(None) => return Ok(()),
            Err(_) => return Err(ServeFault::Device),
        };
        if !place.is_unchanged(rt) {
            return Err(ServeFault::Store);
        }
        let _ = answer_one(rt, &routes, keeper, key, files, &stream);
        if has_failed(rt, keeper, key) {
            return Err(ServeFault::Store);
        }
        place.note(rt);
    }
    Ok(())
}

/// True if ten probes in a row report a store failure, as they do once the store is shut. A store that was only short of memory for a
/// moment answers a later probe.
fn has_failed<K: Keeper>(rt: &HostRuntime, keeper: &mut K, key: &OfficeKey<'_>) -> bool
    ensures clean { K.is_clean keeper.new → K.is_clean keeper.old }
    ensures stays { K.is_clean keeper.new → (s : State) → K.stands keeper.old s → K.stands keeper.new s }
    ensures crash { K.is_clean keeper.new → (past : List State) → K.leaves keeper.old past → K.leaves keeper.new past }
{
    for _ in 0..QUESTIONS {
        if !matches!(keeper.who(key.text().as_bytes()), Err(StoreFault::Store)) {
            return false;
        }
        thread::sleep(rt, Duration::from_millis(PAUSE));
    }
    true
}

/// Answers one connection within its time limit.
fn answer_one<K: Keeper>(
    rt: &HostRuntime,
    routes: &Routes,
    keeper: &mut K,
    key: &OfficeKey<'_>,
    files: &[PageFile],
    stream: &TcpStream,
) -> io::Result<()>
    ensures { ChangesByRequests files.now key.now K.stands K.is_clean K.leaves keeper.old keeper.new }
{
    stream.set_nodelay(true)?;
    let timed = Timed::new(rt, stream, Duration::from_secs(PATIENCE))?;
    let served = answer_or_page(
        rt.alloc(),
        files,
        Some(routes),
        keeper,
        key.text().as_bytes(),
        &mut Device::new(timed),
        &mut Device::new(timed),
    );
    if served.is_ok() {
        end(rt, stream)?;
    }
    Ok(())
}

/// Ends a connection so that the client gets the reply. If a connection is closed while bytes of the request are unread, such as those of a
/// body that was too large, the system resets it, and the reply may be lost. So these bytes are read until the client closes its end, or
/// for a while.
fn end(rt: &HostRuntime, stream: &TcpStream) -> io::Result<()> {
    stream.shutdown(Shutdown::Write)?;
    let mut rest = Timed::new(rt, stream, Duration::from_secs(LINGER))?;
    io::copy(&mut rest, &mut io::sink())?;
    Ok(())
}
