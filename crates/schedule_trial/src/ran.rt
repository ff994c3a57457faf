//! Runs of the top call over a file and a schedule in memory.
use gob_outside::{MemFiles, MemSink};
use gob_tree::Text;
use gobpie_main::run_batch;
use std::alloc::Global;
use std::test::Fail;

/// Room for the lines of the longest run of the tests, in bytes.
const ROOM: usize = 1000;

/// How a run ended, what it wrote, and which files it asked for.
#[derive(Drop)]
pub struct Ran {
    pub status: u8,
    pub written: Vec<u8>,
    pub asked: u64,
}

/// The failing calls of the files and of the sink, counted from 1; 0 for none.
#[derive(Clone, Copy)]
pub struct Faults {
    pub load: u64,
    pub write: u64,
}

pub const NO_FAULTS: Faults = Faults { load: 0, write: 0 };

fn words(alloc: Global, file: &str, schedule: &str) -> Result<Vec<Text>, Fail> {
    let mut words = Vec::new(alloc);
    words.push(Text::of(alloc, b"run")?)?;
    words.push(Text::of(alloc, file.as_bytes())?)?;
    words.push(Text::of(alloc, schedule.as_bytes())?)?;
    Ok(words)
}

fn one(alloc: Global, number: u64) -> Result<Vec<u64>, Fail> {
    let mut list = Vec::new(alloc);
    if number > 0 {
        list.push(number)?;
    }
    Ok(list)
}

fn held(alloc: Global, text: &[u8], schedule: &[u8]) -> Result<Vec<(Text, Vec<u8>)>, Fail> {
    let mut held = Vec::new(alloc);
    held.push((Text::of(alloc, b"one.c")?, Vec::from_slice(alloc, text)?))?;
    held.push((
        Text::of(alloc, b"schedule")?,
        Vec::from_slice(alloc, schedule)?,
    ))?;
    Ok(held)
}

/// `run` of these two names over a file `one.c` with the text, a file `schedule`, and a sink that
/// takes 7 bytes a call.
pub fn run_of(
    alloc: Global,
    names: (&str, &str),
    text: &[u8],
    schedule: &[u8],
    faults: Faults,
) -> Result<Ran, Fail> {
    let held = held(alloc, text, schedule)?;
    let mut files = MemFiles::new(alloc, held, one(alloc, faults.load)?)?;
    let mut out = MemSink::new(alloc, ROOM, 7, one(alloc, faults.write)?)?;
    let words = words(alloc, names.0, names.1)?;
    let status = run_batch(alloc, words.as_slice(), &mut files, &mut out);
    let written = Vec::from_slice(alloc, out.written())?;
    Ok(Ran {
        status: status.number(),
        written,
        asked: files.asked().len() as u64,
    })
}

/// `run` of a text by a schedule.
pub fn run_by(alloc: Global, text: &[u8], schedule: &[u8]) -> Result<Ran, Fail> {
    run_of(alloc, ("one.c", "schedule"), text, schedule, NO_FAULTS)
}
