//! Readers and writers in memory that fail: as a source and a sink, and as streams of std.

use std::alloc::Global;
use std::io::{self, ErrorKind, Read, Write};
use tacho_time::{Failed, Sink, Source};

/// A reader and writer in memory that moves at most `bytes_a_call` bytes per call, and fails once its calls are used up.
#[derive(Drop)]
pub(crate) struct Faulty<'a> {
    input: &'a [u8],
    pub(crate) written: Vec<u8>,
    bytes_a_call: usize,
    calls: usize,
    has_failed: bool,
}

impl<'a> Faulty<'a> {
    ghost use Rattle.std.specs.Prelude.{◌≡◌, false};

    pub(crate) fn new(
        alloc: Global,
        input: &'a [u8],
        bytes_a_call: usize,
        calls: usize,
    ) -> Faulty<'a>
        ensures { result.has_failed ≡ false }
    {
        Faulty {
            input,
            written: Vec::new(alloc),
            bytes_a_call,
            calls,
            has_failed: false,
        }
    }
}

impl<'a> Source for Faulty<'a> {
    ghost use Rattle.std.specs.Prelude.{None};

    ghost unread = { λ _. None };

    ghost has_failed = { λ faulty. faulty.has_failed };

    fn take(&mut self, buffer: &mut [u8]) -> Result<usize, Failed> {
        if self.has_failed || self.calls == 0 {
            self.has_failed = true;
            return Err(Failed);
        }
        self.calls -= 1;
        let count = self.input.len().min(buffer.len()).min(self.bytes_a_call);
        let (front, rest) = self.input.split_at(count);
        buffer[..count].copy_from_slice(front);
        self.input = rest;
        Ok(count)
    }

    fn failed(&self) -> bool {
        self.has_failed
    }
}

impl<'a> Sink for Faulty<'a> {
    ghost use Rattle.std.specs.Prelude.{None};

    ghost written = { λ _. None };

    ghost has_failed = { λ faulty. faulty.has_failed };

    fn give(&mut self, buffer: &[u8]) -> Result<usize, Failed> {
        let count = buffer.len().min(self.bytes_a_call.max(1));
        if self.has_failed
            || self.calls == 0
            || self.written.extend_from_slice(&buffer[..count]).is_err()
        {
            self.has_failed = true;
            return Err(Failed);
        }
        self.calls -= 1;
        Ok(count)
    }

    fn failed(&self) -> bool {
        self.has_failed
    }
}

/// What one call of a stream does instead of moving its bytes.
#[derive(Clone, Copy, Debug)]
pub(crate) enum Quirk {
    /// The call fails.
    Fails,
    /// The call moves one byte.
    MovesOne,
    /// The call moves no bytes.
    MovesNone,
}

/// A reader and writer of std in memory that moves at most `bytes_a_call` bytes per call, except for one call, counted from 0. Later calls
/// move their bytes again.
#[derive(Drop)]
pub(crate) struct Stream<'a> {
    input: &'a [u8],
    pub(crate) written: Vec<u8>,
    bytes_a_call: usize,
    quirk: Quirk,
    call: usize,
    pub(crate) calls: usize,
}

impl<'a> Stream<'a> {
    pub(crate) fn new(
        alloc: Global,
        input: &'a [u8],
        bytes_a_call: usize,
        quirk: Quirk,
        call: usize,
    ) -> Stream<'a> {
        Stream {
            input,
            written: Vec::new(alloc),
            bytes_a_call,
            quirk,
            call,
            calls: 0,
        }
    }

    /// Counts a call, and returns how many of `bytes` it moves.
    fn count(&mut self, bytes: usize) -> io::Result<usize> {
        let call = self.calls;
        self.calls = call.saturating_add(1);
        let usual = bytes.min(self.bytes_a_call);
        if call != self.call {
            return Ok(usual);
        }
        match self.quirk {
            Quirk::Fails => Err(io::Error::from(ErrorKind::Interrupted)),
            Quirk::MovesOne => Ok(usual.min(1)),
            Quirk::MovesNone => Ok(0),
        }
    }
}

impl Read for Stream<'_> {
    fn read(&mut self, buffer: &mut [u8]) -> io::Result<usize> {
        let count = self.count(self.input.len().min(buffer.len()))?;
        let count = count.min(self.input.len()).min(buffer.len());
        let (front, rest) = self.input.split_at(count);
        buffer[..count].copy_from_slice(front);
        self.input = rest;
        Ok(count)
    }
}

impl Write for Stream<'_> {
    fn write(&mut self, buffer: &[u8]) -> io::Result<usize> {
        let count = self.count(buffer.len())?.min(buffer.len());
        match self.written.extend_from_slice(&buffer[..count]) {
            Ok(()) => Ok(count),
            Err(_) => Err(io::Error::from(ErrorKind::OutOfMemory)),
        }
    }

    fn flush(&mut self) -> io::Result<()> {
        Ok(())
    }
}
