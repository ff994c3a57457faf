ghost use Rattle.std.specs.Prelude.{◌≡◌, ◌≢◌, ℕ, ◌≤◌, ◌<◌, ◌++◌, List, [], ◌∷◌, length, Option, Some, None, Ok, IsOk, IfOk, OnOk, OnErr, MatchOption, option_map};
ghost use Rattle.gob_outside.specs.declared.files.FileFail.{FileFail};
ghost use Rattle.gob_outside.specs.Count.{Rose, one_more, fails_next};
ghost use Rattle.gob_outside.specs.Faults.{Asks, count_of, noted};
ghost use Rattle.gob_outside.specs.MemFiles.{content_of, load_answer};

use crate::faults::{FaultCounts, failure};
use crate::files::{FileFail, Files};
use gob_tree::{Memory, Text};
use std::alloc::Global;
use std::collections::BTreeMap;

/// Files in memory, by name; of two files of one name the first counts.
#[derive(Drop)]
pub struct MemFiles {
    files: Vec<(Text, Vec<u8>)>,
    failing: Vec<u64>,
    calls: u64,
    asked: Vec<Text>,
    faults: FaultCounts,
}

impl MemFiles {
    /// These files, of which no load was made yet. `failing` lists the loads that are to fail,
    /// counted from 1. It takes no memory.
    pub fn new(
        alloc: Global,
        files: Vec<(Text, Vec<u8>)>,
        failing: Vec<u64>,
    ) -> Result<MemFiles, Memory>
        ensures made { IsOk result }
        ensures files { IfOk result (λ held. held.files ≡ files) }
        ensures failing { IfOk result (λ held. held.failing ≡ failing) }
        ensures calls { IfOk result (λ held. held.calls ≡ 0) }
        ensures asked { IfOk result (λ held. held.asked.items ≡ []) }
        ensures faults { (name : List ℕ) → IfOk result (λ held. count_of held.faults name ≡ 0) }
    {
        Ok(MemFiles {
            files,
            failing,
            calls: 0,
            asked: Vec::new(alloc),
            faults: BTreeMap::new(alloc),
        })
    }

    /// The names that were asked for so far, in order.
    pub fn asked(&self) -> &[Text]
        ensures { result.now ≡ self.now.asked.items }
    {
        self.asked.as_slice()
    }
}

// Adds a name; after want of memory there are the same.
fn note_asked(asked: &mut Vec<Text>, alloc: Global, name: &str) -> Result<(), Memory>
    ensures ok { OnOk result (asked.new.items ≡ asked.old.items ++ name.now ∷ []) }
    ensures err { OnErr result (asked.new.items ≡ asked.old.items) }
{
    let text = Text::of(alloc, name.as_bytes())?;
    asked.push(text)?;
    Ok(())
}

// The bytes of the first file of a name.
fn content<'a>(files: &'a [(Text, Vec<u8>)], name: &str) -> Option<&'a [u8]>
    ensures { MatchOption result (content_of files.now name.now ≡ None)
        (λ bytes. content_of files.now name.now ≡ Some bytes.now) }
{
    for file in files {
        if file.0.as_bytes() == name.as_bytes() {
            return Some(file.1.as_slice());
        }
    }
    None
}

impl Files for MemFiles {
    ghost seen = { λ held. record {
      contents = Some (content_of held.files.items);
      faults = count_of held.faults;
      asked = Some held.asked.items;
    } };

    /// Fails where this is a call that is to fail, or where there is no file of this name; that
    /// is counted for the name. `Memory` comes also where a name or a failure couldn't be noted, and
    /// no count changes then.
    fn load(&mut self, alloc: Global, name: &str, limit: usize) -> Result<Vec<u8>, FileFail>
        ensures ok { IfOk result (λ bytes. load_answer (fails_next self.old.failing.items self.old.calls)
            (content_of self.old.files.items name.now) limit ≡ Ok bytes.items) }
        ensures err { (fail : FileFail) → result ≡ Err fail → fail ≢ FileFail.Memory
            → load_answer (fails_next self.old.failing.items self.old.calls)
            (content_of self.old.files.items name.now) limit ≡ Err fail }
        ensures held { self.new ≡ record self.old {
          calls = one_more self.old.calls;
          asked = self.new.asked;
          faults = self.new.faults;
        } }
        ensures counted { (other : List ℕ) → result ≡ Err FileFail.Failed
            → count_of self.new.faults other ≡ noted (count_of self.old.faults) name.now other }
        ensures not_counted { (other : List ℕ) → result ≢ Err FileFail.Failed
            → count_of self.new.faults other ≡ count_of self.old.faults other }
        ensures rose { result ≡ Err FileFail.Failed
            → Rose (count_of self.old.faults name.now) (count_of self.new.faults name.now) }
        ensures never_falls { (other : List ℕ)
            → count_of self.old.faults other ≤ count_of self.new.faults other }
        ensures others { (other : List ℕ) → other ≢ name.now
            → count_of self.new.faults other ≡ count_of self.old.faults other }
        ensures asks { Asks (Some self.old.asked.items) name.now (Some self.new.asked.items) }
    {
        self.calls = self.calls.saturating_add(1);
        if note_asked(&mut self.asked, alloc, name).is_err() {
            return Err(FileFail::Memory);
        }
        let fails = self.failing.contains(&self.calls);
        match content(self.files.as_slice(), name) {
            Some(bytes) if !fails => copied(alloc, bytes, limit),
            _ => Err(failure(&mut self.faults, alloc, name)),
        }
    }
}

// A copy of the bytes, where they are at most `limit`.
fn copied(alloc: Global, bytes: &[u8], limit: usize) -> Result<Vec<u8>, FileFail>
    ensures ok { IfOk result (λ copy. (copy.items ≡ bytes.now) × (length bytes.now ≤ limit)) }
    ensures too_long { (most : ℕ) → result ≡ Err (FileFail.TooLong most) → (most ≡ limit) × (limit < length bytes.now) }
    ensures not_failed { result ≢ Err FileFail.Failed }
{
    if bytes.len() > limit {
        return Err(FileFail::TooLong { limit });
    }
    Vec::from_slice(alloc, bytes).map_err(|_| FileFail::Memory)
}

#[cfg(test)]
mod tests {
    use super::*;
    use crate::faults::count_so_far;

    fn three_files(alloc: Global) -> Result<Vec<(Text, Vec<u8>)>, Memory> {
        let mut files = Vec::new(alloc);
        files.push((Text::of(alloc, b"a.c")?, Vec::from_slice(alloc, b"one")?))?;
        files.push((Text::of(alloc, b"a.c")?, Vec::from_slice(alloc, b"two")?))?;
        files.push((Text::of(alloc, b"b.c")?, Vec::from_slice(alloc, b"three")?))?;
        Ok(files)
    }

    #[test]
    fn loads_by_name(rt: HostRuntime) -> Result<(), Memory> {
        let failing = vec![in rt.alloc(); 3]?;
        let mut files = MemFiles::new(rt.alloc(), three_files(rt.alloc())?, failing)?;
        let first = files.load(rt.alloc(), "a.c", 3);
        assert!(rt; first.is_ok_and(|bytes| bytes.as_slice() == b"one".as_slice()));
        let long = files.load(rt.alloc(), "b.c", 4);
        assert!(rt; long.is_err_and(|fail| fail == FileFail::TooLong { limit: 4 }));
        for name in ["b.c", "c.c"] {
            let failed = files.load(rt.alloc(), name, 9);
            assert!(rt; failed.is_err_and(|fail| fail == FileFail::Failed));
            assert_eq!(rt; count_so_far(&files.faults, name), 1);
        }
        assert_eq!(rt; count_so_far(&files.faults, "a.c"), 0);
        for (place, name) in ["a.c", "b.c", "b.c", "c.c"].iter().enumerate() {
            let asked = files.asked().get(place);
            assert!(rt; asked.is_some_and(|text| text.as_bytes() == name.as_bytes()));
        }
        assert_eq!(rt; files.asked().len(), 4);
        Ok(())
    }
}
