ghost use Rattle.hoist_law.specs.Laws.{
  HoistingKeepsWidth,
  HoistingMeetsDemand,
  HoistingMeetsDemands,
  InputsAreTaken,
  PiecesAreWithin,
  SilentEdgesAreDone,
  WaysLeadOn,
};

/// A silent edge that can be done is the one that is done at its node; where an edge takes an input,
/// no silent edge can be done, and the input goes by this edge.
pub fn edges_are_taken()
    ensures silent { SilentEdgesAreDone }
    ensures inputs { InputsAreTaken }
{}

/// Over silent edges and by some of the inputs, one comes to where the moment along all inputs goes on
/// with the others.
pub fn ways_lead_on()
    ensures { WaysLeadOn }
{}

/// The hoisting of an expression meets its demand: over the inputs that the demand takes, the graph
/// comes to where the hoisted expression has the demand's value at the demand's width, or to a node
/// whose edge gets the input that the demand lacks; else the demand is a fault. So it is of the
/// arguments of a call that stands alone.
pub fn hoisting_meets_demand()
    ensures one { HoistingMeetsDemand }
    ensures all { HoistingMeetsDemands }
    ensures width { HoistingKeepsWidth }
{}

/// What a statement is lowered to, wherever it is met in the body of a function, comes first in the
/// graph of the function, and its temporaries among those of the function.
pub fn pieces_are_within()
    ensures { PiecesAreWithin }
{}
