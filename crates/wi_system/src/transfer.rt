//! std's own loops over reads and writes say little of what stands after a failure, so these are ours, and each turn takes
//! a byte at least, or ends. A file is too big as soon as more bytes than its limit have come, so one without an end is, too. A
//! read takes a piece of 65,536 bytes beside what was read.
ghost use Rattle.std.specs.Prelude.{◌≤◌, ◌<◌, ◌≡◌, IfOk, IfSome, IsErrOf, OnOk, length, vec_len};
ghost use Rattle.std.specs.Io.KnownBytes.{Appends};

use std::alloc::Global;
use std::fs::OpenFile;
use std::io::{self, ErrorKind, Read, Seek, SeekFrom, Write};
use wi_base::FetchRefused;

// How many bytes one read asks for.
const PIECE: usize = 65_536;

/// All that a reader gives, `limit` bytes at most. It is too big as soon as more have come, so a reader
/// without an end is too. A read of nothing is the end.
pub(crate) fn read_within<R: Read>(
    alloc: Global,
    from: &mut R,
    limit: u64,
) -> Result<Vec<u8>, FetchRefused>
    ensures short { IfOk result (λ bytes. vec_len bytes ≤ limit) }
    ensures whole { IfOk result (λ bytes. IfSome (R.remaining from.old) (λ given. bytes.items ≡ given)) }
    ensures too_big { IsErrOf result FetchRefused.TooBig → IfSome (R.remaining from.old) (λ given. limit < length given) }
{
    let mut bytes = Vec::new(alloc);
    let mut piece = [0; PIECE];
    loop {
        let Ok(taken) = from.read(&mut piece) else {
            return Err(FetchRefused::Failed);
        };
        if taken == 0 {
            // A list that grew may have room for twice what it holds.
            bytes.shrink_to_fit();
            return Ok(bytes);
        }
        if bytes.extend_from_slice(&piece[..taken]).is_err() {
            return Err(FetchRefused::Memory);
        }
        if bytes.len() as u64 > limit {
            return Err(FetchRefused::TooBig);
        }
    }
}

/// What one read gives from a place on, `most` bytes at most. A read of nothing is the end. What has no places, as a pipe,
/// fails.
pub(crate) fn read_part<R: Read + Seek>(
    alloc: Global,
    from: &mut R,
    at: u64,
    most: u32,
) -> Result<Vec<u8>, FetchRefused>
    ensures short { IfOk result (λ bytes. vec_len bytes ≤ most) }
    ensures too_big { IsErrOf result FetchRefused.TooBig → ⊥ }
{
    if from.seek(SeekFrom::Start(at)).is_err() {
        return Err(FetchRefused::Failed);
    }
    let Ok(mut bytes) = vec![in alloc; 0; most as usize] else {
        return Err(FetchRefused::Memory);
    };
    let Ok(taken) = from.read(&mut bytes) else {
        return Err(FetchRefused::Failed);
    };
    bytes.truncate(taken);
    Ok(bytes)
}

/// Writes a piece whole. A write that takes nothing of what is left has failed, so each turn takes a byte at least.
pub(crate) fn write_whole<W: Write>(to: &mut W, piece: &[u8]) -> io::Result<()>
    ensures { OnOk result (Appends (W.contents to.old) (W.contents to.new) piece.now) }
{
    let mut rest = piece;
    while !rest.is_empty() {
        let written = to.write(rest)?;
        if written == 0 {
            return Err(io::Error::from(ErrorKind::WriteZero));
        }
        rest = &rest[written..];
    }
    Ok(())
}

/// Writes a piece whole, and waits until it is on the disk.
pub(crate) fn write_synced<W: Write + OpenFile>(to: &mut W, piece: &[u8]) -> io::Result<()>
    ensures { OnOk result (Appends (W.contents to.old) (W.contents to.new) piece.now) }
{
    write_whole(to, piece)?;
    to.sync_all()
}
