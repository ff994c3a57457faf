ghost use Rattle.graph_law.specs.Entering.{NewFramesStand};
ghost use Rattle.graph_law.specs.Fitting.{GlobalsFit};
ghost use Rattle.graph_law.specs.Forming.{ProgramsAreFormed, WidthsAreDeclared, EdgesAreFew};
ghost use Rattle.graph_law.specs.Laying.{
  StatementsAreLaid,
  BranchesLie,
  WhilesLie,
  TestsLie,
  LastPartsLie,
  ThingsBegin,
};
ghost use Rattle.graph_law.specs.Leaving.{OneGuardAtMost, OneWayOut};
ghost use Rattle.graph_law.specs.Lying.{BodiesLie, UnrollingLies};
ghost use Rattle.graph_law.specs.Quiet.{SilentEdgesAreQuiet, SettlingKeepsNamed};
ghost use Rattle.graph_law.specs.Running.{MovesAreRuns};
ghost use Rattle.graph_law.specs.Starting.{FirstStands};
ghost use Rattle.graph_law.specs.Settling.{SilentEdgesAreMoves};

/// The edges that leave a node of a function's graph are one, or the two opposite guards of one
/// expression, both silent or neither.
pub fn one_way_out()
    ensures { OneWayOut }
{}

/// Of two opposite guards one at most can be done on the same values.
pub fn one_guard_at_most()
    ensures { OneGuardAtMost }
{}

/// The moves that go with a run of a unit's trees are a run of its graphs: they lead from the first
/// configuration to one other, and so does each of their prefixes.
pub fn moves_are_runs()
    ensures { MovesAreRuns }
{}

/// The silent edges that a thread does while one can be done are moves of it, which change nothing
/// but the node and the slots of its topmost frame; so this part of a walk never fails.
pub fn silent_edges_are_moves()
    ensures { SilentEdgesAreMoves }
{}

/// What unrolls in front lies in the graph from the node where it lay before.
pub fn unrolling_lies()
    ensures { UnrollingLies }
{}

/// A function's body, unrolled, lies in its graph from the body's start on.
pub fn bodies_lie()
    ensures { BodiesLie }
{}

/// A statement that comes next has its edges in the graph, along a route from the node where it
/// lies; what comes after it, after `break` and after `continue` lies where the route leads.
pub fn statements_are_laid()
    ensures { StatementsAreLaid }
{}

/// The branches of an `if`, the body of a `while`, and the body of a loop that has begun lie behind
/// the guards of their condition, which is hoisted from where the statement or the test lies; what
/// comes after them lies behind the other guard.
pub fn branches_lie()
    ensures branches { BranchesLie }
    ensures whiles { WhilesLie }
    ensures tests { TestsLie }
    ensures last_parts { LastPartsLie }
{}

/// What comes next begins, as standing says it, at the node where it lies or where a silent skip
/// leads from there.
pub fn things_begin()
    ensures { ThingsBegin }
{}

/// At the end of each run of a well-made unit, so after each of its choices, the globals fit their
/// declared widths.
pub fn globals_fit()
    ensures { GlobalsFit }
{}

/// A silent edge is a skip, a guard, or an assignment to a temporary. So a frame keeps its named
/// slots over the silent edges that it does while one can be done.
pub fn silent_edges_are_quiet()
    ensures edges { SilentEdgesAreQuiet }
    ensures named { SettlingKeepsNamed }
{}

/// A new frame stands: the tree's list to do and the graph's entry, moved on by the silent edges,
/// are the same moment, with the same named slots. It is so for `main`, a call and a new thread.
pub fn new_frames_stand()
    ensures { NewFramesStand }
{}

/// Before the first choice of a run of a well-made unit its walk is there, and the graphs stand for
/// the trees.
pub fn first_stands()
    ensures { FirstStands }
{}

/// The program of a well-made unit whose sizes are within the limits is formed: its numbers are in
/// range, no edge leads to an entry, calls have the arguments that are wanted, and expressions on
/// edges have no inputs. A slot that gets a global's value or a call's result has its declared width;
/// and a graph has at most two edges a node.
pub fn programs_are_formed()
    ensures formed { ProgramsAreFormed }
    ensures widths { WidthsAreDeclared }
    ensures edges { EdgesAreFew }
{}
