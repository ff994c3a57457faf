ghost use Rattle.action_law.specs.Laws.{
  CallsEnter,
  EdgesHaveEffects,
  EdgesKeepGlobals,
  EdgesLeadToStates,
  OthersKeepFrames,
  OthersStayDescribed,
  ReturnsLeadToStates,
};

/// An edge that isn't a call: where a state describes a frame and each global is in its interval,
/// what the edge's transfer gives describes the frame after the action, and its effects what the
/// action does beside, a global's new value or a new thread's first frame. Where the table bounds
/// these effects, each global is in its interval afterwards.
pub fn edges_lead_to_described()
    ensures state { EdgesLeadToStates }
    ensures effects { EdgesHaveEffects }
    ensures globals { EdgesKeepGlobals }
{}

/// The start of a call: where a state describes the caller and the arguments have values, the one
/// effect of the call's transfer is on the callee's start in the context of the call, and describes
/// the new frame.
pub fn calls_enter_described()
    ensures { CallsEnter }
{}

/// The return: where a state describes the caller's slots, and the callee's exit in the context of
/// the call describes the frame that returns, the call's transfer describes the caller afterwards.
pub fn returns_lead_to_described()
    ensures { ReturnsLeadToStates }
{}

/// What a thread takes changes nothing that another thread's state speaks of: neither its frames nor
/// the mutexes that it owns.
pub fn others_stay_described()
    ensures frames { OthersKeepFrames }
    ensures described { OthersStayDescribed }
{}
