ghost use Rattle.std.specs.Prelude.{◌≡◌, ◌≢◌, List};
ghost use Rattle.gob_tree.specs.declared.place.Place.{Place};
ghost use Rattle.c_parse.specs.declared.fault.ParseFault.{ParseFault};
ghost use Rattle.c_parse.specs.declared.fault.ParseFault.TheVariants.{Memory};
ghost use Rattle.c_parse.specs.declared.raw.unit.RawItem.{RawItem};
ghost use Rattle.c_parse.specs.declared.terminal.Terminal.{Terminal};
ghost use Rattle.c_parse.specs.Fault.{IsFault};
ghost use Rattle.c_parse.specs.Grammar.{IsUnit, Nesting, Spells};

/// Tokens spell the items of one unit at most, however deeply they are nested.
pub fn one_unit()
    ensures { (tokens : List Terminal) (a b : List RawItem) (m n : Nesting) → Spells tokens a m → Spells tokens b n → a ≡ b }
{}

/// Tokens have one fault at most, and those of a unit have none; want of memory tells nothing of
/// them.
pub fn one_fault()
    ensures once { (tokens : List Terminal) (end : Place) (a b : ParseFault) → a ≢ Memory → b ≢ Memory → IsFault tokens end a → IsFault tokens end b → a ≡ b }
    ensures none { (tokens : List Terminal) (items : List RawItem) (end : Place) (a : ParseFault) → IsUnit tokens items → IsFault tokens end a → a ≡ Memory }
{}
