ghost use Rattle.std.specs.Prelude.{◌≡◌, ◌≢◌, ◌+◌, ◌<◌, ◌≤◌, length, Err, IfOk, OnOk};
ghost use Rattle.std.specs.Option.{ForSome};
ghost use Rattle.std.specs.Io.KnownBytes.{Appends};
ghost use Rattle.es_files.specs.Streams.{TakesAtMost};
ghost use Rattle.es_files.specs.declared.streams.TheConstants.{CHUNK};

use crate::outside::ReadFault;
use std::alloc::Global;
use std::io;
use std::io::{ErrorKind, Read, Write};

/// How many bytes one read asks for.
const CHUNK: usize = 8192;

/// How many bytes the next read asks for, where `count` bytes of at most `limit` were read: one
/// more than may follow, so that a longer text shows, and no more than `CHUNK`.
fn next_size(limit: u64, count: usize) -> usize
    requires { count ≤ limit }
    ensures some { 0 < result }
    ensures within { count + result ≤ limit + 1 }
    ensures chunk { result ≤ CHUNK }
{
    let left = limit - count as u64;
    if left < CHUNK as u64 {
        left as usize + 1
    } else {
        CHUNK
    }
}

/// All that the reader has left, where it is at most `limit` bytes. It takes at most one byte more.
pub fn read_within<R: Read>(alloc: Global, reader: &mut R, limit: u64) -> Result<Vec<u8>, ReadFault>
    ensures all { IfOk result (λ bytes.
        ForSome (R.remaining reader.old) (λ left. bytes.items ≡ left)) }
    ensures within { IfOk result (λ bytes. length bytes.items ≤ limit) }
    ensures long { result ≡ Err ReadFault.TooLong →
        ForSome (R.remaining reader.old) (λ left. limit < length left) }
    ensures there { result ≢ Err ReadFault.Missing }
    ensures taken { TakesAtMost (limit + 1) (R.remaining reader.old) (R.remaining reader.new) }
{
    let mut bytes = Vec::new(alloc);
    let mut chunk = [0u8; CHUNK];
    for _ in 0..u64::MAX {
        let size = next_size(limit, bytes.len());
        match reader.read(&mut chunk[..size]) {
            Ok(0) => return Ok(bytes),
            Ok(count) => {
                if bytes.extend_from_slice(&chunk[..count]).is_err() {
                    return Err(ReadFault::NoMemory);
                }
                if bytes.len() as u64 > limit {
                    return Err(ReadFault::TooLong);
                }
            }
            Err(error) => {
                if error.kind() != ErrorKind::Interrupted {
                    return Err(ReadFault::Failed);
                }
            }
        }
    }
    Err(ReadFault::Failed)
}

/// Writes all bytes and flushes. A writer that takes none of them has failed.
pub fn write_whole<W: Write>(writer: &mut W, bytes: &[u8]) -> io::Result<()>
    ensures { OnOk result (Appends (W.contents writer.old) (W.contents writer.new) bytes.now) }
{
    let mut rest = bytes;
    for _ in 0..u64::MAX {
        if rest.is_empty() {
            return writer.flush();
        }
        match writer.write(rest) {
            Ok(0) => return Err(io::Error::from(ErrorKind::WriteZero)),
            Ok(count) => rest = &rest[count..],
            Err(error) => {
                if error.kind() != ErrorKind::Interrupted {
                    return Err(error);
                }
            }
        }
    }
    Err(io::Error::from(ErrorKind::WriteZero))
}
