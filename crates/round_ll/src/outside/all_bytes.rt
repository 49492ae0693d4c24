//! Reading a source to its end, and writing a whole text.
ghost use Rattle.std.specs.Prelude.{◌≡◌, ◌<◌, ◌≤◌, ◌+◌, ◌^◌, [], length, IfOk, OnErr, OnOk, IsErrOf};
ghost use Rattle.std.specs.Io.KnownBytes.{append_known};
ghost use Rattle.round_ll.specs.Outside.AllBytes.{GaveAll, GaveAtMost, GaveTooMany, PieceCame, TookFront};
ghost use Rattle.round_ll.specs.Outside.Causes.{HasCause, Rose};
ghost use Rattle.round_ll.specs.Outside.Told.{EndsExactlyAt};
ghost use Rattle.round_ll.specs.declared.outside.all_bytes.ReadAllError.TheVariants.{NoMemory, ReadFault};

use super::failed::Failed;
use super::sink::Sink;
use super::source::Source;
use std::alloc::{AllocError, Global};
use thiserror::Error;

/// The most bytes that an input may have.
pub const MAX_INPUT: usize = 1 << 24;

// The most bytes that one read asks for.
const PIECE: usize = 1 << 16;

/// Why a source was not read to its end.
#[derive(Clone, Copy, Debug, PartialEq, Eq, Error)]
pub enum ReadAllError {
    #[error("a read failed")]
    ReadFault,
    #[error("the input is too long")]
    TooLong,
    #[error("out of memory")]
    NoMemory,
}

impl From<Failed> for ReadAllError {
    ghost from_gives = { λ _ e. e ≡ ReadFault };

    fn from(_: Failed) -> Self {
        ReadAllError::ReadFault
    }
}

impl From<AllocError> for ReadAllError {
    ghost from_gives = { λ _ e. e ≡ NoMemory };

    fn from(_: AllocError) -> Self {
        ReadAllError::NoMemory
    }
}

/// Reads a source to its end, a piece at a time.
pub fn read_all<S: Source>(alloc: Global, source: &mut S) -> Result<Vec<u8>, ReadAllError>
    ensures within { IfOk result (λ v. length v.items ≤ 2 ^ 24) }
    ensures bytes { IfOk result (λ v. GaveAll (S.left source.old) (S.left source.new) v.items) }

    // A fault only where the source counted one, and too long only where the input is.
    ensures read_fault { IsErrOf result ReadAllError.ReadFault
        → Rose (S.faults source.old) (S.faults source.new) }
    ensures too_long { IsErrOf result ReadAllError.TooLong
        → GaveTooMany (2 ^ 24) (S.left source.old) (S.left source.new) }

    // Whatever the answer.
    ensures front { GaveAtMost (2 ^ 24 + 1) (S.left source.old) (S.left source.new) }
    ensures later { S.faults source.old ≤ S.faults source.new }
{
    let mut buf = piece_buffer(alloc)?;
    read_within(alloc, MAX_INPUT, &mut buf, source)
}

// Room for the bytes of one read.
fn piece_buffer(alloc: Global) -> Result<Vec<u8>, AllocError>
    ensures { IfOk result (λ buf. length buf.items ≡ PIECE) }
{
    vec![in alloc; 0u8; PIECE]
}

// Reads a source of at most `most` bytes to its end.
fn read_within<S: Source>(
    alloc: Global,
    most: usize,
    buf: &mut [u8],
    source: &mut S,
) -> Result<Vec<u8>, ReadAllError>
    requires room { 0 < length buf.old }
    requires fits { most < 2 ^ 63 }
    ensures within { IfOk result (λ v. length v.items ≤ most) }
    ensures bytes { IfOk result (λ v. GaveAll (S.left source.old) (S.left source.new) v.items) }
    ensures read_fault { IsErrOf result ReadAllError.ReadFault
        → Rose (S.faults source.old) (S.faults source.new) }
    ensures too_long { IsErrOf result ReadAllError.TooLong
        → GaveTooMany most (S.left source.old) (S.left source.new) }
    ensures front { GaveAtMost (most + 1) (S.left source.old) (S.left source.new) }
    ensures later { S.faults source.old ≤ S.faults source.new }
{
    let mut bytes = Vec::new(alloc);
    while bytes.len() <= most {
        let room = buf.len().min(most + 1 - bytes.len());
        if read_piece(source, &mut buf[..room], &mut bytes)? == 0 {
            return Ok(bytes);
        }
    }
    Err(ReadAllError::TooLong)
}

// Reads once, keeps the bytes that came behind those before, and answers how many.
fn read_piece<S: Source>(
    source: &mut S,
    buf: &mut [u8],
    bytes: &mut Vec<u8>,
) -> Result<usize, ReadAllError>
    ensures bound { IfOk result (λ n. n ≤ length buf.new) }
    ensures piece { IfOk result (PieceCame (S.left source.old) (S.left source.new)
        bytes.old.items bytes.new.items) }
    ensures end { IfOk result (λ n. 0 < length buf.new → EndsExactlyAt (S.left source.old) n) }
    ensures read_fault { IsErrOf result ReadAllError.ReadFault
        → Rose (S.faults source.old) (S.faults source.new) }
    ensures too_long { ¬ IsErrOf result ReadAllError.TooLong }
    ensures front { GaveAtMost (length buf.new) (S.left source.old) (S.left source.new) }
    ensures later { S.faults source.old ≤ S.faults source.new }
{
    let count = source.read(buf)?;
    bytes.extend_from_slice(&buf[..count])?;
    Ok(count)
}

/// Writes all of these bytes to a sink, a piece at a time.
pub fn write_all<K: Sink>(sink: &mut K, bytes: &[u8]) -> Result<(), Failed>
    ensures taken { OnOk result (K.taken sink.new ≡ append_known (K.taken sink.old) bytes.now) }
    ensures front { OnErr result (TookFront (K.taken sink.old) (K.taken sink.new) bytes.now) }
    ensures cause { HasCause (K.faults sink.old) (K.faults sink.new) result }

    // No call is made for no bytes.
    ensures untouched { bytes.now ≡ [] → sink.new ≡ sink.old }
{
    let mut at = 0;
    while at < bytes.len() {
        at += sink.write(&bytes[at..])?;
    }
    Ok(())
}
