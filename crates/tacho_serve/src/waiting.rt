//! The connections of a port that wait for their answer.

use crate::accepting::{accept, accept_now};
use crate::held::Held;
use std::alloc::AllocError;
use std::io::{self, ErrorKind};
use std::net::{TcpListener, TcpStream};
use std::time::Duration;

/// The most connections that are held at a time.
const MOST: usize = 32;

/// How long a connection is held that sends nothing, in seconds.
const SILENCE: u64 = 5;

/// How long it is held if no more connections can be held and another one arrives, in milliseconds.
const SHORT_SILENCE: u64 = 250;

/// The time between two looks at the connections, in milliseconds.
const PAUSE: u64 = 5;

/// The connections that were accepted and are not answered yet, in the order of their arrival. A client that sends nothing is held here,
/// where it delays nobody: browsers open connections that they may never use.
#[derive(Drop)]
pub(crate) struct Waiting<'a> {
    rt: &'a HostRuntime,
    listener: &'a TcpListener,
    /// How many connections may still be accepted.
    left: u32,
    held: Vec<Held>,
}

impl<'a> Waiting<'a> {
    /// Begins without a connection. `count` of them may be accepted. This allocates all the memory that is needed.
    pub(crate) fn new(
        rt: &'a HostRuntime,
        listener: &'a TcpListener,
        count: u32,
    ) -> Result<Waiting<'a>, AllocError> {
        Ok(Waiting {
            rt,
            listener,
            left: count,
            held: Vec::with_capacity(rt.alloc(), MOST)?,
        })
    }

    /// Waits for the next connection to answer: the first one that has sent something. There is none once all that may be accepted were
    /// answered or closed. Fails if no more connections can be accepted.
    pub(crate) fn next(&mut self) -> io::Result<Option<TcpStream>> {
        for _ in 0..u64::MAX {
            if self.held.is_empty() {
                if self.left == 0 {
                    return Ok(None);
                }
                let first = accept(self.rt, self.listener)?;
                self.hold(first);
            }
            self.fill()?;
            if let Some(stream) = self.take_first() {
                return Ok(Some(stream));
            }
            self.close_silent();
            if !self.replace_oldest()? {
                self.pause();
            }
        }
        Err(io::Error::from(ErrorKind::TimedOut))
    }

    /// Holds a connection that was accepted. Closes it if the clock can't be read.
    fn hold(&mut self, stream: TcpStream) {
        self.left = self.left.saturating_sub(1);
        if let Ok(held) = Held::new(self.rt, stream) {
            let _ = self.held.push(held);
        }
    }

    /// Accepts the connections that are there, as many as may be held.
    fn fill(&mut self) -> io::Result<()> {
        for _ in self.held.len()..MOST {
            match self.accept_now()? {
                Some(stream) => self.hold(stream),
                None => break,
            }
        }
        Ok(())
    }

    /// Accepts the next connection if one is there and may be accepted.
    fn accept_now(&self) -> io::Result<Option<TcpStream>> {
        if self.left == 0 {
            return Ok(None);
        }
        accept_now(self.listener)
    }

    /// Takes the first connection that has sent something.
    fn take_first(&mut self) -> Option<TcpStream> {
        let index = self.held.iter().position(|held| held.has_sent())?;
        Some(self.held.remove(index).into_stream())
    }

    /// Closes the connections that were silent for too long. It is called when all are silent.
    fn close_silent(&mut self) {
        let rt = self.rt;
        let limit = Duration::from_secs(SILENCE);
        self.held.retain(|held| !held.is_older(rt, limit));
    }

    /// Closes the oldest connection for another one that is there, if no more can be held and if it was silent for a while. True if it did.
    fn replace_oldest(&mut self) -> io::Result<bool> {
        let limit = Duration::from_millis(SHORT_SILENCE);
        if self.held.len() < MOST || !self.held[0].is_older(self.rt, limit) {
            return Ok(false);
        }
        let Some(stream) = self.accept_now()? else {
            return Ok(false);
        };
        drop(self.held.remove(0));
        self.hold(stream);
        Ok(true)
    }

    /// Waits for a moment, or until the newest connection sends something. Mostly its request is already under way.
    fn pause(&self) {
        if let Some(newest) = self.held.last() {
            let _ = newest.wait(Duration::from_millis(PAUSE));
        }
    }
}
