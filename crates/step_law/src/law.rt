ghost use Rattle.step_law.specs.Laws.{ChoicesKeepTogether, FirstTogether, TogetherStands};

/// The invariant of a run: what is to do lies in the graph from some node on, and by the inputs that
/// came and the silent edges one comes from there to the graph's own node and slots. Where it holds,
/// the graphs stand for the trees.
pub fn together_stands()
    ensures { TogetherStands }
{}

/// The invariant holds before the first choice of a well-made unit's run; and where a choice moves
/// the trees, the graphs make the same choice, and it holds again.
pub fn choices_keep_together()
    ensures first { FirstTogether }
    ensures choices { ChoicesKeepTogether }
{}
