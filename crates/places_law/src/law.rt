ghost use Rattle.places_law.specs.Laws.{FaultsAscend, FirstIsLeast};

/// The faults of names and kinds are listed in the order of their places in the text, and those at
/// one place in the order `BadLiteral`, `Undeclared`, `Redeclared`, `WrongKind`, `WrongArity`. So the
/// fault that the front tells, where there is one of these, is the least.
pub fn faults_ascend()
    ensures ascend { FaultsAscend }
    ensures least { FirstIsLeast }
{}
