ghost use Rattle.std.specs.Prelude.{◌≡◌, ℕ, ◌+◌, ◌<◌, ◌≤◌, ◌↔◌, List, true, length, take, IfOk, IfSome, OnOk, IsErrOf, is_err};
ghost use Rattle.std.specs.Io.KnownBytes.{Appends, Consumes};
ghost use Rattle.tacho_time.specs.declared.whole.ReadFault.{ReadFault};

use crate::device::{Failed, Sink, Source};
use std::alloc::{AllocError, Global};

/// How many bytes one call asks for.
const CHUNK: usize = 4096;

/// Why an input couldn't be read.
#[derive(Clone, Copy)]
pub enum ReadFault {
    /// The input has more bytes than the limit.
    TooLarge,
    /// The source has failed.
    Failed,
    /// Out of memory.
    Memory,
}

/// Reads all unread bytes, if there are at most `limit` of them.
pub fn read_all<R: Source>(
    alloc: Global,
    reader: &mut R,
    limit: usize,
) -> Result<Vec<u8>, ReadFault>
    // The bytes that are read are all that were unread.
    ensures whole { IfOk result (λ bytes. IfSome (R.unread reader.old) (λ input. bytes.items ≡ input)) }
    ensures within { IfOk result (λ bytes. length bytes.items ≤ limit) }
    ensures large { IsErrOf result ReadFault.TooLarge → IfSome (R.unread reader.old) (λ input. limit < length input) }
    // Of a larger input, one byte more than the limit is taken.
    ensures over { IsErrOf result ReadFault.TooLarge → (taken : List ℕ) × (length taken ≡ limit + 1) × Consumes (R.unread reader.old) (R.unread reader.new) taken }
    ensures failed { IsErrOf result ReadFault.Failed ↔ (R.has_failed reader.new ≡ true) }
{
    if reader.failed() {
        return Err(ReadFault::Failed);
    }
    let mut bytes = Vec::new(alloc);
    let mut chunk = [0u8; CHUNK];
    while bytes.len() <= limit {
        let room = (limit - bytes.len()).min(CHUNK - 1) + 1;
        match reader.take(&mut chunk[..room]) {
            Ok(0) => return Ok(bytes),
            Ok(count) => {
                if bytes.extend_from_slice(&chunk[..count]).is_err() {
                    return Err(ReadFault::Memory);
                }
            }
            Err(Failed) => return Err(ReadFault::Failed),
        }
    }
    Err(ReadFault::TooLarge)
}

/// Writes all the bytes. If the sink fails, it has been given some first part of them.
pub fn write_all<W: Sink>(writer: &mut W, bytes: &[u8]) -> Result<(), Failed>
    ensures all { OnOk result (Appends (W.written writer.old) (W.written writer.new) bytes.now) }
    ensures beginning { (n : ℕ) × (n ≤ length bytes.now) × Appends (W.written writer.old) (W.written writer.new) (take n bytes.now) }
    ensures failed { W.has_failed writer.new ≡ is_err result }
{
    if writer.failed() {
        return Err(Failed);
    }
    let mut at = 0;
    while at < bytes.len() {
        at += writer.give(&bytes[at..])?;
    }
    Ok(())
}
