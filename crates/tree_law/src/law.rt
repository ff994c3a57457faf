ghost use Rattle.tree_law.specs.Laws.{TreesAreShown};

/// For every run of a well-made unit, whatever the schedule and the inputs, every shaped
/// post-solution of the unit's program shows the trees where the run ends, and so after each of its
/// choices: each global is in its interval; each thread's walk follows offered steps to its stack; and
/// each parameter and declared local of each frame is in the interval at the frame's node.
pub fn trees_are_shown()
    ensures { TreesAreShown }
{}
