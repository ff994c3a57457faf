ghost use Rattle.std.specs.Prelude.{◌≡◌};

use c_check::FrontFault;
use c_source::Source;
use constraint_sys::Table;
use gob_tree::Memory;
use std::sync::Arc;

/// A generated text and its edits, each of them solved.
#[derive(Drop)]
pub struct Loaded {
    /// How many tables were solved.
    pub tables: u32,
    /// In how many of these the check found a breach.
    pub breaches: u32,
    /// The source of the last text.
    pub source: Arc<Source>,
    /// Its table.
    pub table: Table,
}

/// Why one of the texts isn't solved: its budget was spent, or it was refused for its first fault, or
/// memory was wanting.
#[derive(Clone, Copy, Debug, PartialEq, Eq)]
pub enum LoadStop {
    Spent,
    Refused(FrontFault),
    Memory,
}

impl From<Memory> for LoadStop {
    ghost use Rattle.load_tables.specs.declared.loaded.LoadStop.TheVariants.{Memory as WantOfMemory};

    ghost from_gives = { λ _ stop. stop ≡ WantOfMemory };

    fn from(_want: Memory) -> LoadStop {
        LoadStop::Memory
    }
}
