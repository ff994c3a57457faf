//! Laws of the operations on states.
ghost use Rattle.state_dom.specs.Laws.{EvaluationDescribes, GuardKeeps, GuardNarrows, AssignmentDescribes, OrderDescribes, OrderIsTransitive, JoinBounds, RaiseBounds, RaiseRests};

/// The value of an expression is in the interval that `eval` gives, and where it gives none the
/// expression has no value.
pub fn evaluation_describes()
    ensures { EvaluationDescribes }
{}

/// `guard` keeps each state of a run at which the expression has the wanted truth.
pub fn guard_keeps()
    ensures { GuardKeeps }
{}

/// `guard` narrows intervals and leaves the locks alone.
pub fn guard_narrows()
    ensures { GuardNarrows }
{}

/// `assign` of a converted interval describes the slots after the store.
pub fn assignment_describes()
    ensures { AssignmentDescribes }
{}

/// A state describes all that a state below it describes, and the order is transitive.
pub fn order_describes()
    ensures described { OrderDescribes }
    ensures transitive { OrderIsTransitive }
{}

/// A join and a raise bound both states, so that they describe what either described; an end that
/// a raise moves comes to rest on a threshold, where the ends of the slots' widths are thresholds.
pub fn joins_and_raises_bound()
    ensures join { JoinBounds }
    ensures raise { RaiseBounds }
    ensures rests { RaiseRests }
{}
