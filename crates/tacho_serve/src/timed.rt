//! A stream whose calls share one deadline.

ghost use Rattle.std.specs.Io.{ReadsAtMost, WritesAtMost};

use std::io::{self, ErrorKind, Read, Write};
use std::net::TcpStream;
use std::time::{Duration, Instant};

/// A stream whose reads and writes together take at most a time limit. Each waits at most for the rest of the limit, and fails once nothing
/// of it remains. A call that a signal interrupts is repeated.
#[derive(Clone, Copy)]
pub struct Timed<'a> {
    rt: &'a HostRuntime,
    stream: &'a TcpStream,
    start: Instant,
    limit: Duration,
}

impl<'a> Timed<'a> {
    /// Makes a stream whose limit starts now. Fails if the clock can't be read.
    pub fn new(
        rt: &'a HostRuntime,
        stream: &'a TcpStream,
        limit: Duration,
    ) -> io::Result<Timed<'a>> {
        Ok(Timed {
            rt,
            stream,
            start: Instant::now(rt)?,
            limit,
        })
    }

    /// The rest of the limit. Fails if nothing remains, or if the clock can't be read.
    fn left(&self) -> io::Result<Duration> {
        let left = self.limit.saturating_sub(self.start.elapsed(self.rt)?);
        if left.is_zero() {
            return Err(io::Error::from(ErrorKind::TimedOut));
        }
        Ok(left)
    }

    /// Reads once, within the rest of the limit.
    fn read_once(&self, buffer: &mut [u8]) -> io::Result<usize>
        ensures { ReadsAtMost result buffer.new }
    {
        self.stream.set_read_timeout(Some(self.left()?))?;
        let mut stream = self.stream;
        stream.read(buffer)
    }

    /// Writes once, within the rest of the limit.
    fn write_once(&self, buffer: &[u8]) -> io::Result<usize>
        ensures { WritesAtMost result buffer.now }
    {
        self.stream.set_write_timeout(Some(self.left()?))?;
        let mut stream = self.stream;
        stream.write(buffer)
    }
}

impl Read for Timed<'_> {
    fn read(&mut self, buffer: &mut [u8]) -> io::Result<usize> {
        for _ in 0..u64::MAX {
            match self.read_once(buffer) {
                Err(error) if error.kind() == ErrorKind::Interrupted => {}
                answer => return answer,
            }
        }
        Err(io::Error::from(ErrorKind::TimedOut))
    }
}

impl Write for Timed<'_> {
    fn write(&mut self, buffer: &[u8]) -> io::Result<usize> {
        for _ in 0..u64::MAX {
            match self.write_once(buffer) {
                Err(error) if error.kind() == ErrorKind::Interrupted => {}
                answer => return answer,
            }
        }
        Err(io::Error::from(ErrorKind::TimedOut))
    }

    fn flush(&mut self) -> io::Result<()> {
        Ok(())
    }
}
