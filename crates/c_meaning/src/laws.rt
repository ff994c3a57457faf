ghost use Rattle.c_meaning.specs.Laws.{FinalStays, MissingTakesAll, SilentEdgesEnd, SilentEdgesRunOut, SilentEdgesStayInside, StepsChangeLittle, OnlyMovesChange, PrefixesAreRuns};

/// Where an expression has a value or faults, it does the same with more inputs behind.
pub fn final_answers_stay()
    ensures { FinalStays }
{}

/// Where an expression lacks an input, it has taken all inputs that were there.
pub fn missing_takes_all()
    ensures { MissingTakesAll }
{}

/// A step that moves changes its own thread and at most one of these: one global, the owner of
/// one mutex, the list of threads by one new thread at its end.
pub fn steps_change_little()
    ensures { StepsChangeLittle }
{}

/// A step that doesn't move changes nothing.
pub fn only_moves_change()
    ensures { OnlyMovesChange }
{}

/// A prefix of a run is a run.
pub fn prefixes_are_runs()
    ensures { PrefixesAreRuns }
{}

/// The silent edges of a function form no circle, so a thread does finitely many one after
/// another.
pub fn silent_edges_end()
    ensures { SilentEdgesEnd }
{}

/// A thread that does silent edges while one can be done comes to where none can.
pub fn silent_edges_run_out()
    ensures { SilentEdgesRunOut }
{}

/// No silent edge leads to the exit, so a thread never ends and never leaves a frame by one.
pub fn silent_edges_stay_inside()
    ensures { SilentEdgesStayInside }
{}
