ghost use Rattle.piece_law.specs.Pieces.{NothingLeavesExits, PiecesAreMade, UnrolledFrontsStay};

/// Each statement that is met while the body of a well-made function is lowered may stand there; only
/// a `return` ends at the exit, and `break` and `continue` don't lead there. No edge leaves an exit.
pub fn pieces_are_made()
    ensures made { PiecesAreMade }
    ensures exits { NothingLeavesExits }
{}

/// A `do`, a `for` or a block that isn't empty never comes next once a list to do has been unrolled.
pub fn unrolled_fronts_stay()
    ensures { UnrolledFrontsStay }
{}
