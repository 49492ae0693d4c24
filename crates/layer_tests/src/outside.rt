//! Sources and sinks: each object and call once, and reads and writes that fail in mid-stream.

use round_ll::outside::{
    MAX_INPUT, MemorySink, MemorySource, ReadAllError, Sink, Source, StdSink, StdSource,
    SureSource, read_all, write_all,
};
use std::alloc::Global;

const TEXT: &[u8] = b"define void @f() { ret void }";

// ---- sources

/// Whether a source has just these bytes left.
fn has_left<S: Source>(alloc: Global, source: &mut S, bytes: &[u8]) -> bool {
    match read_all(alloc, source) {
        Ok(read) => read.as_slice() == bytes,
        Err(_) => false,
    }
}

/// Whether a read of all of a source ends in a read fault.
fn is_read_fault<S: Source>(alloc: Global, source: &mut S) -> bool {
    read_all(alloc, source).err() == Some(ReadAllError::ReadFault)
}

/// Whether a source in memory is read to its end.
fn memory_is_read(alloc: Global) -> bool {
    match MemorySource::new(alloc, TEXT, 3, &[]) {
        Ok(mut source) => has_left(alloc, &mut source, TEXT),
        Err(_) => false,
    }
}

/// Whether a source that cannot fail is read to its end.
fn sure_is_read(alloc: Global) -> bool {
    has_left(alloc, &mut SureSource::new(TEXT), TEXT)
}

/// Whether a source over a reader is read to its end.
fn std_is_read(alloc: Global) -> bool {
    has_left(alloc, &mut StdSource::new(TEXT), TEXT)
}

#[test]
fn sources_are_read_to_their_end(rt: HostRuntime) {
    assert!(rt; memory_is_read(rt.alloc()));
    assert!(rt; sure_is_read(rt.alloc()));
    assert!(rt; std_is_read(rt.alloc()));
}

/// Whether the second read of a source fails, and then all behind the first piece is read.
fn is_read_on(alloc: Global) -> bool {
    match MemorySource::new(alloc, TEXT, 3, &[1]) {
        Ok(mut source) => {
            is_read_fault(alloc, &mut source) && has_left(alloc, &mut source, &TEXT[3..])
        }
        Err(_) => false,
    }
}

#[test]
fn a_second_read_fails_and_the_rest_can_still_be_read(rt: HostRuntime) {
    assert!(rt; is_read_on(rt.alloc()));
}

/// Whether so many zeros are read, all of them.
fn are_read(alloc: Global, zeros: &[u8]) -> bool {
    match read_all(alloc, &mut SureSource::new(zeros)) {
        Ok(read) => read.len() == zeros.len(),
        Err(_) => false,
    }
}

/// Whether an input is refused for its length.
fn is_refused(alloc: Global, zeros: &[u8]) -> bool {
    read_all(alloc, &mut SureSource::new(zeros)).err() == Some(ReadAllError::TooLong)
}

/// Whether the longest input is read.
fn is_longest_read(alloc: Global) -> bool {
    match vec![in alloc; 0u8; MAX_INPUT] {
        Ok(zeros) => are_read(alloc, zeros.as_slice()),
        Err(_) => false,
    }
}

/// Whether an input of one byte more is refused for its length.
fn is_longer_refused(alloc: Global) -> bool {
    match vec![in alloc; 0u8; MAX_INPUT + 1] {
        Ok(zeros) => is_refused(alloc, zeros.as_slice()),
        Err(_) => false,
    }
}

#[test]
fn the_longest_input_is_read_and_one_byte_more_is_not(rt: HostRuntime) {
    assert!(rt; is_longest_read(rt.alloc()));
    assert!(rt; is_longer_refused(rt.alloc()));
}

// ---- sinks

/// Whether a write of bytes is done or fails, as it should, and then the sink has taken these bytes.
fn has_taken(sink: &mut MemorySink, bytes: &[u8], done: bool, taken: &[u8]) -> bool {
    let is_done = write_all(sink, bytes).is_ok();
    is_done == done && sink.bytes() == taken
}

/// Whether the third write to a sink fails, the two pieces before it are kept, and then the rest is taken.
fn is_written_on(alloc: Global) -> bool {
    match MemorySink::new(alloc, 100, 10, &[2]) {
        Ok(mut sink) => {
            has_taken(&mut sink, TEXT, false, &TEXT[..20])
                && has_taken(&mut sink, &TEXT[20..], true, TEXT)
        }
        Err(_) => false,
    }
}

#[test]
fn a_third_write_fails_and_two_pieces_are_kept(rt: HostRuntime) {
    assert!(rt; is_written_on(rt.alloc()));
}

/// Whether a sink takes what it has room for, and then an empty piece.
fn is_filled(alloc: Global) -> bool {
    match MemorySink::new(alloc, 12, 10, &[]) {
        Ok(mut sink) => {
            has_taken(&mut sink, TEXT, false, &TEXT[..12]) && sink.write(&[]) == Ok(0)
        }
        Err(_) => false,
    }
}

#[test]
fn a_full_sink_refuses_all_but_an_empty_piece(rt: HostRuntime) {
    assert!(rt; is_filled(rt.alloc()));
}

/// Whether a writer takes all bytes.
fn is_written(alloc: Global) -> bool {
    let mut written = Vec::new(alloc);
    let is_done = write_all(&mut StdSink::new(&mut written), TEXT).is_ok();
    is_done && written.as_slice() == TEXT
}

#[test]
fn a_writer_takes_all_bytes(rt: HostRuntime) {
    assert!(rt; is_written(rt.alloc()));
}
