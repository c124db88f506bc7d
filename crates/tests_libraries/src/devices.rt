use crate::same::assert_same;
use std::io::{self, ErrorKind, Read, Write};
use std::test::Fail;
use tacho_time::{Device, Failed, Sink, Source};

/// A reader and writer whose first call fails. From the second call on, it reads zeros and accepts what is written.
#[derive(Drop)]
struct FailsOnce {
    calls: u32,
}

impl FailsOnce {
    /// Counts a call with this many bytes.
    fn count(&mut self, bytes: usize) -> io::Result<usize> {
        self.calls = self.calls.saturating_add(1);
        if self.calls == 1 {
            return Err(io::Error::from(ErrorKind::Interrupted));
        }
        Ok(bytes)
    }
}

impl Read for FailsOnce {
    fn read(&mut self, buffer: &mut [u8]) -> io::Result<usize> {
        let count = self.count(buffer.len())?.min(buffer.len());
        buffer[..count].fill(0);
        Ok(count)
    }
}

impl Write for FailsOnce {
    fn write(&mut self, buffer: &[u8]) -> io::Result<usize> {
        Ok(self.count(buffer.len())?.min(buffer.len()))
    }

    fn flush(&mut self) -> io::Result<()> {
        Ok(())
    }
}

#[test]
fn a_failed_reader_is_asked_no_more(rt: HostRuntime) {
    let mut device = Device::new(FailsOnce { calls: 0 });
    let mut buffer = [1u8; 4];
    for _ in 0..3 {
        assert_same(&rt, device.take(&mut buffer), Err(Failed));
        assert_same(&rt, buffer, [1; 4]);
    }
    assert_same(&rt, device.into_inner().calls, 1);
}

#[test]
fn a_failed_writer_is_asked_no_more(rt: HostRuntime) {
    let mut device = Device::new(FailsOnce { calls: 0 });
    for _ in 0..3 {
        assert_same(&rt, device.give(b"text"), Err(Failed));
    }
    assert_same(&rt, device.into_inner().calls, 1);
}

#[test]
fn empty_buffers_are_passed_on(rt: HostRuntime) {
    let mut reader = Device::new(FailsOnce { calls: 0 });
    assert_same(&rt, reader.take(&mut []), Err(Failed));
    let mut writer = Device::new(FailsOnce { calls: 0 });
    assert_same(&rt, writer.give(&[]), Err(Failed));
}

#[test]
fn each_call_is_one_of_the_inner_one(rt: HostRuntime) -> Result<(), Fail> {
    let mut device = Device::new(FailsOnce { calls: 1 });
    let mut buffer = [1u8; 4];
    assert_same(&rt, device.take(&mut buffer), Ok(4));
    assert_same(&rt, buffer, [0; 4]);
    assert_same(&rt, device.take(&mut []), Ok(0));
    assert_same(&rt, device.give(b"text"), Ok(4));
    assert_same(&rt, device.give(&[]), Ok(0));
    assert_same(&rt, device.into_inner().calls, 5);
    Ok(())
}
