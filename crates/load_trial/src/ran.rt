//! Runs of the top call over no file and a sink in memory.
use gob_outside::{MemFiles, MemSink};
use gob_tree::Text;
use gobpie_main::run_batch;
use std::alloc::Global;
use std::test::Fail;

/// How a run ended, what it wrote, and how many files it asked for.
#[derive(Drop)]
pub struct Ran {
    pub status: u8,
    pub written: Vec<u8>,
    pub asked: u64,
}

/// A run of these words over a sink with so much room that takes 7 bytes a call, of which one fails,
/// counted from 1; 0 for none.
pub fn run_with(alloc: Global, all: &[&str], room: usize, failing: u64) -> Result<Ran, Fail> {
    let mut words = Vec::new(alloc);
    for word in all {
        words.push(Text::of(alloc, word.as_bytes())?)?;
    }
    let mut fails = Vec::new(alloc);
    if failing > 0 {
        fails.push(failing)?;
    }
    let mut files = MemFiles::new(alloc, Vec::new(alloc), Vec::new(alloc))?;
    let mut out = MemSink::new(alloc, room, 7, fails)?;
    let status = run_batch(alloc, words.as_slice(), &mut files, &mut out);
    let written = Vec::from_slice(alloc, out.written())?;
    Ok(Ran {
        status: status.number(),
        written,
        asked: files.asked().len() as u64,
    })
}

/// The same with ample room and no failing call.
pub fn run_of(alloc: Global, all: &[&str]) -> Result<Ran, Fail> {
    run_with(alloc, all, 1000, 0)
}
