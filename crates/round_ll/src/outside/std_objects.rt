//! The adapters over std's readers and writers. Nothing is known of what the outside does, so they
//! tell no bytes; each counts its faults.
ghost use Rattle.std.specs.Prelude.{◌≡◌, ◌<◌, length, take, None, IfOk, OnErr, OnOk};
ghost use Rattle.std.specs.Io.{ReadsAtMost, WritesAtMost};
ghost use Rattle.std.specs.Io.KnownBytes.{Appends, ReadConsumes};
ghost use Rattle.round_ll.specs.Outside.Causes.{HasCause, counted};
ghost use Rattle.round_ll.specs.Outside.StdObjects.{AppendsFront};
ghost use Rattle.round_ll.specs.Outside.Told.{EndsExactlyAt, Gives, Takes};

use super::failed::Failed;
use super::sink::Sink;
use super::source::Source;
use std::io::{Read, Write};
use std::marker::Model;

/// A reader of std as a source. An error of the reader is a fault.
#[derive(Drop)]
pub struct StdSource<R> {
    inner: R,
    faults: u64,
}

impl<R> Model for StdSource<R> {
    ghost use Rattle.round_ll.specs.Outside.StdObjects.{Counted};

    ghost Value = { Counted R };

    ghost view = { λ s. record { object = s.inner; faults = s.faults } };
}

impl<R: Read> StdSource<R> {
    /// A source over this reader, with no fault so far.
    pub fn new(inner: R) -> Self
        ensures { result ≡ record { object = inner; faults = 0 } }
    {
        StdSource { inner, faults: 0 }
    }
}

impl<R: Read> Source for StdSource<R> {
    ghost left = { λ _. None };

    ghost faults = { λ s. s.faults };

    fn read(&mut self, buf: &mut [u8]) -> Result<usize, Failed>
        ensures bound { ReadsAtMost result buf.new }
        ensures bytes { Gives None None result buf.new }
        ensures end { IfOk result (λ n. 0 < length buf.new → EndsExactlyAt None n) }
        ensures cause { HasCause self.old.faults self.new.faults result }

        // The count rises by one at each error, and at nothing else.
        ensures ok { OnOk result (self.new.faults ≡ self.old.faults) }
        ensures err { OnErr result (self.new.faults ≡ counted self.old.faults) }

        // What the reader has left, where that is known, goes down by the bytes given.
        ensures reader { ReadConsumes (R.remaining self.old.object) (R.remaining self.new.object)
            result buf.new }
    {
        let read = self.inner.read(buf).map_err(|_| Failed);
        if read.is_err() {
            self.faults = self.faults.saturating_add(1);
        }
        read
    }
}

/// A writer of std as a sink, flushed after each write. An error of the writer is a fault, and so
/// is a write that takes nothing of a piece.
#[derive(Drop)]
pub struct StdSink<W> {
    inner: W,
    faults: u64,
}

impl<W> Model for StdSink<W> {
    ghost use Rattle.round_ll.specs.Outside.StdObjects.{Counted};

    ghost Value = { Counted W };

    ghost view = { λ s. record { object = s.inner; faults = s.faults } };
}

impl<W: Write> StdSink<W> {
    /// A sink over this writer, with no fault so far.
    pub fn new(inner: W) -> Self
        ensures { result ≡ record { object = inner; faults = 0 } }
    {
        StdSink { inner, faults: 0 }
    }
}

impl<W: Write> Sink for StdSink<W> {
    ghost taken = { λ _. None };

    ghost faults = { λ s. s.faults };

    fn write(&mut self, bytes: &[u8]) -> Result<usize, Failed>
        ensures bound { WritesAtMost result bytes.now }
        ensures goes_on { IfOk result (λ n. 0 < length bytes.now → 0 < n) }
        ensures bytes { Takes None None result bytes.now }
        ensures cause { HasCause self.old.faults self.new.faults result }

        // The count rises by one at each error, and at nothing else.
        ensures ok { OnOk result (self.new.faults ≡ self.old.faults) }
        ensures err { OnErr result (self.new.faults ≡ counted self.old.faults) }

        // What the writer holds, where that is known, grows by the bytes taken.
        ensures writer { IfOk result (λ n. Appends (W.contents self.old.object) (W.contents self.new.object)
            (take n bytes.now)) }

        // A write whose flush failed may have left its bytes there.
        ensures writer_err { OnErr result (AppendsFront (W.contents self.old.object)
            (W.contents self.new.object) bytes.now) }
    {
        let written = write_and_flush(&mut self.inner, bytes);
        if written.is_err() {
            self.faults = self.faults.saturating_add(1);
        }
        written
    }
}

// Writes once, and flushes.
fn write_and_flush<W: Write>(writer: &mut W, bytes: &[u8]) -> Result<usize, Failed>
    ensures bound { WritesAtMost result bytes.now }
    ensures goes_on { IfOk result (λ n. 0 < length bytes.now → 0 < n) }
    ensures bytes { IfOk result (λ n. Appends (W.contents writer.old) (W.contents writer.new)
        (take n bytes.now)) }
    ensures err { OnErr result (AppendsFront (W.contents writer.old) (W.contents writer.new) bytes.now) }
{
    let count = writer.write(bytes).map_err(|_| Failed)?;
    writer.flush().map_err(|_| Failed)?;
    if count == 0 && !bytes.is_empty() {
        return Err(Failed);
    }
    Ok(count)
}
