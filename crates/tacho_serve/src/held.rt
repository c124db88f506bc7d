//! One connection that waits for its answer.

use std::io::{self, ErrorKind};
use std::net::TcpStream;
use std::time::{Duration, Instant};

/// A connection that was accepted, and is not answered yet. Its stream is blocking.
#[derive(Drop)]
pub(crate) struct Held {
    stream: TcpStream,
    since: Instant,
}

impl Held {
    /// Holds a connection from now on. Fails if the clock can't be read.
    pub(crate) fn new(rt: &HostRuntime, stream: TcpStream) -> io::Result<Held> {
        let since = Instant::now(rt)?;
        Ok(Held { stream, since })
    }

    /// The connection's stream.
    pub(crate) fn into_stream(self) -> TcpStream {
        self.stream
    }

    /// True if the connection was held for this long, or if the clock can't be read.
    pub(crate) fn is_older(&self, rt: &HostRuntime, limit: Duration) -> bool {
        match self.since.elapsed(rt) {
            Ok(age) => age >= limit,
            Err(_) => true,
        }
    }

    /// True if the client has sent something or has closed its end, or if the connection has failed.
    pub(crate) fn has_sent(&self) -> bool {
        match self.peek_now() {
            Ok(_) => true,
            Err(error) => !matches!(error.kind(), ErrorKind::WouldBlock | ErrorKind::Interrupted),
        }
    }

    /// Looks for bytes that have arrived, without reading or waiting.
    fn peek_now(&self) -> io::Result<usize> {
        self.stream.set_nonblocking(true)?;
        let found = self.stream.peek(&mut [0; 1]);
        self.stream.set_nonblocking(false)?;
        found
    }

    /// Waits until something arrives, and at most for this long. Reads nothing.
    pub(crate) fn wait(&self, limit: Duration) -> io::Result<()> {
        self.stream.set_read_timeout(Some(limit))?;
        self.stream.peek(&mut [0; 1])?;
        Ok(())
    }
}
