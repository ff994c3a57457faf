//! Runs of the top call over one file in memory.
use gob_outside::{MemFiles, MemSink};
use gob_tree::Text;
use gobpie_main::{Status, run_batch};
use std::alloc::Global;
use std::test::Fail;

/// The name of the one file.
pub const NAME: &str = "one.c";

/// Room for the longest table of the tests, in bytes.
const ROOM: usize = 2_000_000;

/// How a run ended, and what it wrote.
#[derive(Drop)]
pub struct Ran {
    pub status: Status,
    pub written: Vec<u8>,
}

/// The failing calls of the files and of the sink, counted from 1; 0 for none.
#[derive(Clone, Copy)]
pub struct Faults {
    pub load: u64,
    pub write: u64,
}

pub const NO_FAULTS: Faults = Faults { load: 0, write: 0 };

fn words(alloc: Global, all: &[&str]) -> Result<Vec<Text>, Fail> {
    let mut words = Vec::new(alloc);
    for word in all {
        words.push(Text::of(alloc, word.as_bytes())?)?;
    }
    Ok(words)
}

fn one(alloc: Global, number: u64) -> Result<Vec<u64>, Fail> {
    let mut list = Vec::new(alloc);
    if number > 0 {
        list.push(number)?;
    }
    Ok(list)
}

/// A run of these words over the one file and a sink that takes 7 bytes a call.
pub fn run_with(alloc: Global, all: &[&str], text: &[u8], faults: Faults) -> Result<Ran, Fail> {
    let mut held = Vec::new(alloc);
    let name = Text::of(alloc, NAME.as_bytes())?;
    held.push((name, Vec::from_slice(alloc, text)?))?;
    let mut files = MemFiles::new(alloc, held, one(alloc, faults.load)?)?;
    let mut out = MemSink::new(alloc, ROOM, 7, one(alloc, faults.write)?)?;
    let words = words(alloc, all)?;
    let status = run_batch(alloc, words.as_slice(), &mut files, &mut out);
    let written = Vec::from_slice(alloc, out.written())?;
    Ok(Ran { status, written })
}

/// `analyse` of the text.
pub fn analysed(alloc: Global, text: &[u8]) -> Result<Ran, Fail> {
    run_with(alloc, &["analyse", NAME], text, NO_FAULTS)
}
