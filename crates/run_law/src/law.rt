ghost use Rattle.run_law.specs.Laws.{
  FirstIsKnown,
  FramesAreDescribed,
  RunsAreKnown,
  SolvedTablesAreTrue,
  StepsKeepKnown,
};

/// Every post-solution of a formed program knows the moment at which the program starts.
pub fn first_is_known()
    ensures { FirstIsKnown }
{}

/// Where a shaped post-solution knows a moment, it knows the moment after whatever a thread takes:
/// an edge that is done, a call that is entered, a return.
pub fn steps_keep_known()
    ensures { StepsKeepKnown }
{}

/// Every shaped post-solution knows every moment of every run of the graphs: each global is in its
/// interval, and each frame of each thread stands at a point whose state describes its slots, the
/// topmost one's also mutexes that the thread owns. So does the table with which a solver ends that
/// takes turns from the initial table until nothing is dirty.
pub fn runs_are_known()
    ensures known { RunsAreKnown }
    ensures frames { FramesAreDescribed }
    ensures solved { SolvedTablesAreTrue }
{}
