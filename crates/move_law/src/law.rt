ghost use Rattle.move_law.specs.Choosing.{
  CallsAreEntered,
  EdgesAreDone,
  ReturnsAreMade,
  ThreadsAreStarted,
};

/// Where an edge that isn't silent leaves the node of a thread's topmost frame and can be taken, a
/// choice of this thread takes it: it does the edge, and silent edges as long as one can be done; a
/// call puts a frame on top, which does its own silent edges; an edge to the exit leads back to the
/// caller; and a new thread has done its silent edges too.
pub fn choices_are_made()
    ensures edges { EdgesAreDone }
    ensures calls { CallsAreEntered }
    ensures returns { ReturnsAreMade }
    ensures threads { ThreadsAreStarted }
{}
