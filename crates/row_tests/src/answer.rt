//! What `round` answers to a text in memory.

use round_ll::outside::{MemorySink, MemorySource};
use round_ll::run::run;
use std::alloc::{AllocError, Global};

/// What a run answered: its status, and what it wrote to the output and to the standard error.
#[derive(Drop)]
pub struct Answer {
    pub status: u8,
    pub out: Vec<u8>,
    pub err: Vec<u8>,
}

/// The bytes that there is room for on the output.
const ROOM: usize = 1 << 20;

/// Runs `round` over a text.
pub fn answer_to(alloc: Global, text: &[u8]) -> Result<Answer, AllocError> {
    let word = String::from_str(alloc, "round")?;
    let words = [word];
    let mut source = MemorySource::new(alloc, text, ROOM, &[])?;
    let mut out = MemorySink::new(alloc, ROOM, ROOM, &[])?;
    let mut err = MemorySink::new(alloc, 1 << 10, 1 << 10, &[])?;
    let ended = run(alloc, &words, &mut source, &mut out, &mut err);
    Ok(Answer {
        status: ended.status(),
        out: Vec::from_slice(alloc, out.bytes())?,
        err: Vec::from_slice(alloc, err.bytes())?,
    })
}
