ghost use Rattle.std.specs.Prelude.{◌≡◌};
ghost use Rattle.dap_wire.specs.declared.unread.Unread.TheVariants as unread;

use crate::field::Field;
use gob_tree::Memory;

/// Why arguments were not read.
#[derive(Clone, Copy)]
pub(crate) enum Unread {
    /// This one is missing or of the wrong kind, and none before it.
    Wrong(Field),
    Memory,
}

impl From<Field> for Unread {
    ghost from_gives = { λ field e. e ≡ unread.Wrong field };

    fn from(field: Field) -> Unread {
        Unread::Wrong(field)
    }
}

impl From<Memory> for Unread {
    ghost from_gives = { λ _ e. e ≡ unread.Memory };

    fn from(_error: Memory) -> Unread {
        Unread::Memory
    }
}
