ghost use Rattle.std.specs.Prelude.{◌≡◌, ℕ, ◌<◌, ◌≤◌, Bool, true, false, Option, List, length, IfOk, IsErr, is_err};
ghost use Rattle.std.specs.Io.KnownBytes.{ReadConsumes, WriteAppends};

use std::io::{Read, Write};

/// A reader or writer has failed.
#[derive(Clone, Copy, Debug, PartialEq, Eq)]
pub struct Failed;

/// Where bytes come from.
pub trait Source {
    /// The unread bytes, if they are known.
    ghost unread: { Self → Option (List ℕ) };

    /// True if a call has failed.
    ghost has_failed: { Self → Bool };

    /// Reads some bytes into the front of the buffer and returns their number. For a buffer that isn't empty, 0 means the end of the input.
    fn take(&mut self, buffer: &mut [u8]) -> Result<usize, Failed>
        ensures bound { IfOk result (λ n. n ≤ length buffer.new) }
        ensures bytes { ReadConsumes (unread self.old) (unread self.new) result buffer.new }
        ensures failed { has_failed self.new ≡ is_err result }
        ensures stays { has_failed self.old ≡ true → IsErr result };

    /// Returns true if a call has failed. Every later call then fails too.
    fn failed(&self) -> bool
        ensures { result ≡ has_failed self.now };
}

/// Where bytes go.
pub trait Sink {
    /// The bytes given so far, if they are known.
    ghost written: { Self → Option (List ℕ) };

    /// True if a call has failed.
    ghost has_failed: { Self → Bool };

    /// Writes some bytes from the front of the buffer and returns their number: at least one, unless the buffer is empty.
    fn give(&mut self, buffer: &[u8]) -> Result<usize, Failed>
        ensures bound { IfOk result (λ n. n ≤ length buffer.now) }
        ensures some { IfOk result (λ n. 0 < length buffer.now → 0 < n) }
        ensures bytes { WriteAppends (written self.old) (written self.new) result buffer.now }
        ensures failed { has_failed self.new ≡ is_err result }
        ensures stays { has_failed self.old ≡ true → IsErr result };

    /// Returns true if a call has failed. Every later call then fails too.
    fn failed(&self) -> bool
        ensures { result ≡ has_failed self.now };
}

/// A source or sink over a reader or writer of std. Each call makes one call of std. An interrupted call counts as failed, and so does a
/// write that takes none of the bytes.
#[derive(Drop)]
pub struct Device<T> {
    inner: T,
    has_failed: bool,
}

impl<T> Device<T> {
    ghost use Rattle.std.specs.Prelude.{◌≡◌, false};
    ghost use Rattle.tacho_time.specs.Device.{device_inner, device_failed};

    /// Returns a device that has not failed.
    pub fn new(inner: T) -> Device<T>
        ensures inner { device_inner result ≡ inner }
        ensures fresh { device_failed result ≡ false }
    {
        Device {
            inner,
            has_failed: false,
        }
    }

    /// Returns the reader or writer.
    pub fn into_inner(self) -> T
        ensures { result ≡ device_inner self }
    {
        let Device {
            inner,
            has_failed: _,
        } = self;
        inner
    }
}

impl<T: Read> Source for Device<T> {
    ghost unread = { λ device. T.remaining device.inner };

    ghost has_failed = { λ device. device.has_failed };

    fn take(&mut self, buffer: &mut [u8]) -> Result<usize, Failed> {
        if self.has_failed {
            return Err(Failed);
        }
        match self.inner.read(buffer) {
            Ok(count) => Ok(count),
            Err(_) => {
                self.has_failed = true;
                Err(Failed)
            }
        }
    }

    fn failed(&self) -> bool {
        self.has_failed
    }
}

impl<T: Write> Sink for Device<T> {
    ghost written = { λ device. T.contents device.inner };

    ghost has_failed = { λ device. device.has_failed };

    fn give(&mut self, buffer: &[u8]) -> Result<usize, Failed> {
        if self.has_failed {
            return Err(Failed);
        }
        match self.inner.write(buffer) {
            Ok(count) if count > 0 || buffer.is_empty() => Ok(count),
            _ => {
                self.has_failed = true;
                Err(Failed)
            }
        }
    }

    fn failed(&self) -> bool {
        self.has_failed
    }
}
