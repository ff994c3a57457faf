ghost use Rattle.std.specs.Prelude.{◌≡◌, ◌≢◌, ℕ, ◌≤◌, List, OnOk, OnErr};
ghost use Rattle.gob_outside.specs.declared.files.FileFail.{FileFail};
ghost use Rattle.gob_outside.specs.Count.{Rose};
ghost use Rattle.gob_outside.specs.Faults.{count_of, noted};

use crate::files::FileFail;
use gob_tree::Memory;
use std::alloc::Global;
use std::collections::BTreeMap;

// How many loads of each name failed; a name that isn't in it has 0.
pub(crate) type FaultCounts = BTreeMap<String, u64>;

// Counts one more fault of a name, and gives why its load failed: `Memory` where there was none to
// count it in.
pub(crate) fn failure(counts: &mut FaultCounts, alloc: Global, name: &str) -> FileFail
    ensures failed { (other : List ℕ) → result ≡ FileFail.Failed → count_of counts.new other
        ≡ noted (count_of counts.old) name.now other }
    ensures others { (other : List ℕ) → other ≢ name.now → count_of counts.new other ≡ count_of counts.old other }
    ensures rose { result ≡ FileFail.Failed
        → Rose (count_of counts.old name.now) (count_of counts.new name.now) }
    ensures never_falls { (other : List ℕ) → count_of counts.old other ≤ count_of counts.new other }
    ensures kept { (other : List ℕ) → result ≡ FileFail.Memory
        → count_of counts.new other ≡ count_of counts.old other }
    ensures not_too_long { (limit : ℕ) → result ≢ FileFail.TooLong limit }
{
    match note(counts, alloc, name) {
        Ok(()) => FileFail::Failed,
        Err(Memory) => FileFail::Memory,
    }
}

// Counts one more fault of a name.
fn note(counts: &mut FaultCounts, alloc: Global, name: &str) -> Result<(), Memory>
    ensures ok { (other : List ℕ) → OnOk result (count_of counts.new other
        ≡ noted (count_of counts.old) name.now other) }
    ensures others { (other : List ℕ) → other ≢ name.now → count_of counts.new other ≡ count_of counts.old other }
    ensures rose { OnOk result (Rose (count_of counts.old name.now) (count_of counts.new name.now)) }
    ensures never_falls { (other : List ℕ) → count_of counts.old other ≤ count_of counts.new other }
    ensures err { (other : List ℕ) → OnErr result (count_of counts.new other ≡ count_of counts.old other) }
{
    let count = count_so_far(counts, name).saturating_add(1);
    let key = String::from_str(alloc, name)?;
    counts.insert(key, count)?;
    Ok(())
}

// How many loads of a name failed so far.
pub(crate) fn count_so_far(counts: &FaultCounts, name: &str) -> u64
    ensures { result ≡ count_of counts.now name.now }
{
    counts.get(name).copied().unwrap_or(0)
}
