ghost use Rattle.condition_law.specs.Laws.{NumbersFit, StopsDropNothing, WatchesDescribe};

/// Each number of an expression that a text is fits its width.
pub fn numbers_fit()
    ensures { NumbersFit }
{}

/// Where a state and a table describe a moment of a run and an expression that a text is has a value
/// there, the value is in its interval.
pub fn watches_describe()
    ensures { WatchesDescribe }
{}

/// A vertex that describes a moment at which a break has no condition, or one that a text is and that
/// holds, is in the break's stop.
pub fn stops_drop_nothing()
    ensures { StopsDropNothing }
{}
