ghost use Rattle.std.specs.Prelude.{◌≡◌, ◌≢◌, ℕ, ◌≤◌, ◌<◌, List, length, take, vec_len, None, IfOk, IfSome};
ghost use Rattle.std.specs.Io.KnownBytes.{Consumes, IsAtEnd};
ghost use Rattle.gob_outside.specs.Faults.{count_of};
ghost use Rattle.gob_outside.specs.declared.files.FileFail.{FileFail};

use crate::faults::{FaultCounts, failure};
use crate::files::{FileFail, Files};
use crate::streams::read_some;
use std::alloc::Global;
use std::collections::BTreeMap;
use std::io::{ErrorKind, Read};
use std::rt::Files as FileAccess;
use std::{fs, io};

/// The files of the system. It counts the loads of each name that failed, and tells nothing of
/// what a file has.
#[derive(Drop)]
pub struct StdFiles<'a, R> {
    rt: &'a R,
    faults: FaultCounts,
}

impl<'a, R: FileAccess> StdFiles<'a, R> {
    /// The system's files, of which no load was made yet.
    pub fn new(alloc: Global, rt: &'a R) -> StdFiles<'a, R>
        ensures { (name : List ℕ) → count_of result.faults name ≡ 0 }
    {
        StdFiles {
            rt,
            faults: BTreeMap::new(alloc),
        }
    }
}

impl<'a, R: FileAccess> Files for StdFiles<'a, R> {
    ghost seen = { λ files. record { contents = None; faults = count_of files.faults; asked = None } };

    /// A name that isn't there, that is a directory's or that may not be read is `Failed`. At most
    /// `limit + 1` bytes are read. `Memory` comes also where a failure couldn't be counted.
    fn load(&mut self, alloc: Global, name: &str, limit: usize) -> Result<Vec<u8>, FileFail> {
        match read_named(self.rt, alloc, name, limit) {
            Err(FileFail::Failed) => Err(failure(&mut self.faults, alloc, name)),
            outcome => outcome,
        }
    }
}

// The bytes of a file, of which no failure is counted yet.
fn read_named<R: FileAccess>(
    rt: &R,
    alloc: Global,
    name: &str,
    limit: usize,
) -> Result<Vec<u8>, FileFail>
    ensures within { IfOk result (λ bytes. vec_len bytes ≤ limit) }
    ensures limit { (most : ℕ) → result ≡ Err (FileFail.TooLong most) → most ≡ limit }
{
    match fs::open(rt, name) {
        Ok(file) => read_up_to(file, alloc, limit),
        Err(error) => Err(cause_of(&error)),
    }
}

// How many bytes one read of a file asks for at most.
const CHUNK: usize = 8192;

// All that a reader has left, where that is at most `limit` bytes. It takes no more than one byte
// beyond them. A read that the system interrupts is made again, within a budget.
fn read_up_to<F: Read + Drop>(mut from: F, alloc: Global, limit: usize) -> Result<Vec<u8>, FileFail>
    ensures within { IfOk result (λ bytes. vec_len bytes ≤ limit) }
    ensures limit { (most : ℕ) → result ≡ Err (FileFail.TooLong most) → most ≡ limit }
    ensures all { IfOk result (λ bytes. IfSome (F.remaining from) (λ left. bytes.items ≡ left)) }
    ensures too_long { (most : ℕ) → result ≡ Err (FileFail.TooLong most)
        → IfSome (F.remaining from) (λ left. limit < length left) }
{
    let mut bytes = Vec::new(alloc);
    let mut chunk = [0; CHUNK];
    while bytes.len() <= limit {
        let most = (limit - bytes.len()).saturating_add(1).min(CHUNK);
        match read_front(&mut from, &mut chunk, most) {
            Ok(0) => return Ok(bytes),
            Ok(count) => {
                if bytes.extend_from_slice(&chunk[..count]).is_err() {
                    return Err(FileFail::Memory);
                }
            }
            Err(error) => return Err(cause_of(&error)),
        }
    }
    Err(FileFail::TooLong { limit })
}

// Reads at most this many bytes to the front of the room.
fn read_front<F: Read>(from: &mut F, room: &mut [u8], most: usize) -> io::Result<usize>
    requires { (0 < most) × (most ≤ length room.old) }
    ensures within { IfOk result (λ n. n ≤ most) }
    ensures room { length room.new ≡ length room.old }
    ensures read { IfOk result (λ n. Consumes (F.remaining from.old) (F.remaining from.new) (take n room.new)) }
    ensures end { IfOk result (λ n. n ≡ 0 → IsAtEnd (F.remaining from.new)) }
{
    read_some(from, &mut room[..most])
}

// Want of memory, or a failure to be counted.
fn cause_of(error: &io::Error) -> FileFail
    ensures { (most : ℕ) → result ≢ FileFail.TooLong most }
{
    if error.kind() == ErrorKind::OutOfMemory {
        FileFail::Memory
    } else {
        FileFail::Failed
    }
}

#[cfg(test)]
mod tests {
    use super::*;
    use crate::faults::count_so_far;

    #[test]
    fn loads_files_of_the_system(rt: HostRuntime) {
        let mut files = StdFiles::new(rt.alloc(), &rt);
        let empty = files.load(rt.alloc(), "/dev/null", 0);
        assert!(rt; empty.is_ok_and(|bytes| bytes.is_empty()));
        let endless = files.load(rt.alloc(), "/dev/zero", 65536);
        assert!(rt; endless.is_err_and(|fail| fail == FileFail::TooLong { limit: 65536 }));
        for name in ["/dev", "no such file"] {
            let failed = files.load(rt.alloc(), name, 9);
            assert!(rt; failed.is_err_and(|fail| fail == FileFail::Failed));
            assert_eq!(rt; count_so_far(&files.faults, name), 1);
        }
        assert_eq!(rt; count_so_far(&files.faults, "/dev/zero"), 0);
    }

    #[test]
    fn a_name_keeps_its_blanks(rt: HostRuntime) {
        let mut files = StdFiles::new(rt.alloc(), &rt);
        for name in [" /dev/null", "/dev/null ", "/dev/null\n"] {
            assert!(rt; files.load(rt.alloc(), name, 9).is_err());
            assert_eq!(rt; count_so_far(&files.faults, name), 1);
        }
        assert_eq!(rt; count_so_far(&files.faults, "/dev/null"), 0);
    }

    // A reader that is always interrupted.
    #[derive(Drop)]
    struct Interrupted;

    impl Read for Interrupted {
        fn read(&mut self, _into: &mut [u8]) -> io::Result<usize> {
            Err(io::Error::from(ErrorKind::Interrupted))
        }
    }

    #[test]
    fn an_interrupted_read_ends(rt: HostRuntime) {
        let loaded = read_up_to(Interrupted, rt.alloc(), 9);
        assert!(rt; loaded.is_err_and(|fail| fail == FileFail::Failed));
    }
}
