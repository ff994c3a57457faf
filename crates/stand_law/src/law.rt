ghost use Rattle.stand_law.specs.Laws.{InputsKeepStanding, MissingIsAwaited, ValuesAreThere};

/// A front that stands keeps standing over one input: the tree has it behind its inputs, and the
/// graph took it by the edge that leaves its node, and did silent edges while one could be done.
pub fn inputs_keep_standing()
    ensures { InputsKeepStanding }
{}

/// Where a front's expression has a value, its graph stands at the end of the hoisting with this
/// value; where it lacks an input, its graph waits for it.
pub fn demands_are_met()
    ensures values { ValuesAreThere }
    ensures missing { MissingIsAwaited }
{}
