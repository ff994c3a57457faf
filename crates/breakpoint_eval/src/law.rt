//! What watched intervals and stops keep of the moments of a run.
ghost use Rattle.breakpoint_eval.specs.Laws.{StopsDropNothing, WatchesDescribe};
ghost use Rattle.breakpoint_eval.specs.Parting.{LinesHaveOneNode, StopsComeOneByOne};

/// Where a state and a table describe a moment of a run and a watched expression has a value there, the
/// value is in its interval.
pub fn watches_describe()
    ensures { WatchesDescribe }
{}

/// A vertex that describes a moment at which a break's condition holds is in the break's stop.
pub fn stops_drop_nothing()
    ensures { StopsDropNothing }
{}

/// The stops of a list of breaks are those of its members, each asked for by itself, one after another.
pub fn stops_come_one_by_one()
    ensures { StopsComeOneByOne }
{}

/// Two least nodes on a line are one.
pub fn lines_have_one_node()
    ensures { LinesHaveOneNode }
{}
