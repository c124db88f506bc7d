//! Accepting connections, and the errors that may pass.

use std::io::{self, ErrorKind};
use std::net::{TcpListener, TcpStream};
use std::thread;
use std::time::Duration;

/// How often in a row the server tries to accept a connection after an error that may pass, and the pause after each try in milliseconds:
/// half a minute in all.
const TRIES: u32 = 300;

const PAUSE: u64 = 100;

/// The system's error numbers for causes that may pass. Memory or open files are short.
const ENOMEM: i32 = 12;

const ENFILE: i32 = 23;

const EMFILE: i32 = 24;

const ENOSR: i32 = 63;

const ENOBUFS: i32 = 105;

/// The client has left, or a firewall has refused it, or there is none yet.
const EPERM: i32 = 1;

const EAGAIN: i32 = 11;

const ECONNABORTED: i32 = 103;

/// The network had an error before the connection was accepted: accept(2) says to try again.
const ENONET: i32 = 64;

const EPROTO: i32 = 71;

const ENOPROTOOPT: i32 = 92;

const EOPNOTSUPP: i32 = 95;

const ENETDOWN: i32 = 100;

const ENETUNREACH: i32 = 101;

const ETIMEDOUT: i32 = 110;

const EHOSTDOWN: i32 = 112;

const EHOSTUNREACH: i32 = 113;

/// Waits for the next connection and accepts it. After an error that may pass, waits and tries again, and fails after the last try.
pub(crate) fn accept(rt: &HostRuntime, listener: &TcpListener) -> io::Result<TcpStream> {
    listener.set_nonblocking(false)?;
    for _ in 0..TRIES {
        match listener.accept() {
            Ok((stream, _)) => return Ok(stream),
            Err(error) if may_pass(&error) => thread::sleep(rt, Duration::from_millis(PAUSE)),
            Err(error) => return Err(error),
        }
    }
    Err(io::Error::from(ErrorKind::TimedOut))
}

/// Accepts the next connection if it is there already. Returns nothing after an error that may pass.
pub(crate) fn accept_now(listener: &TcpListener) -> io::Result<Option<TcpStream>> {
    listener.set_nonblocking(true)?;
    match listener.accept() {
        Ok((stream, _)) => Ok(Some(stream)),
        Err(error) if may_pass(&error) => Ok(None),
        Err(error) => Err(error),
    }
}

/// True if accepting a connection may succeed later, after this error.
fn may_pass(error: &io::Error) -> bool {
    matches!(
        error.raw_os_error(),
        Some(
            ENOMEM
                | ENFILE
                | EMFILE
                | ENOSR
                | ENOBUFS
                | EPERM
                | EAGAIN
                | ECONNABORTED
                | ENONET
                | EPROTO
                | ENOPROTOOPT
                | EOPNOTSUPP
                | ENETDOWN
                | ENETUNREACH
                | ETIMEDOUT
                | EHOSTDOWN
                | EHOSTUNREACH
        )
    )
}
