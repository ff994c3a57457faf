ghost use Rattle.std.specs.Prelude.{◌≡◌, ◌≢◌, ℕ, ◌≤◌, List, vec_len, IfOk};
ghost use Rattle.gob_outside.specs.Count.{Rose};
ghost use Rattle.gob_outside.specs.Faults.{Asks};
ghost use Rattle.gob_outside.specs.Files.{FilesNow, IsLongerThan, IsTextOf};

use std::alloc::Global;

/// Why a file wasn't loaded.
#[derive(Clone, Copy, Debug, PartialEq, Eq)]
pub enum FileFail {
    /// There is no such file or it couldn't be read; counted for its name.
    Failed,
    /// The file has more than `limit` bytes.
    TooLong { limit: usize },
    /// Want of memory.
    Memory,
}

/// What files are loaded from, by name.
pub trait Files {
    // What the object tells: the bytes of each name's file, how many loads of each name failed, and
    // which names were asked for so far.
    ghost seen: { Self → FilesNow };

    /// All bytes of a file of at most `limit` bytes. `Failed` comes only where the count of this
    /// very name rose. Of a load that isn't `Failed` `TooLong` comes exactly where the file has
    /// more than `limit` bytes, and `Memory` is want of memory. No count of another name changes,
    /// and no other name is asked for.
    fn load(&mut self, alloc: Global, name: &str, limit: usize) -> Result<Vec<u8>, FileFail>
        ensures within { IfOk result (λ bytes. vec_len bytes ≤ limit) }
        ensures loaded { IfOk result (λ bytes. IsTextOf (seen self.old) name.now bytes.items) }
        ensures limit { (most : ℕ) → result ≡ Err (FileFail.TooLong most) → most ≡ limit }
        ensures too_long { (most : ℕ) → result ≡ Err (FileFail.TooLong most)
            → IsLongerThan (seen self.old) name.now limit }
        ensures failed { result ≡ Err FileFail.Failed
            → Rose ((seen self.old).faults name.now) ((seen self.new).faults name.now) }
        ensures never_falls { (other : List ℕ)
            → (seen self.old).faults other ≤ (seen self.new).faults other }
        ensures others { (other : List ℕ) → other ≢ name.now
            → (seen self.new).faults other ≡ (seen self.old).faults other }
        ensures asks { Asks (seen self.old).asked name.now (seen self.new).asked }
        ensures kept { (seen self.new).contents ≡ (seen self.old).contents };
}
