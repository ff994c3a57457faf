ghost use Rattle.walk_law.specs.Laws.{WalksAreOffered};

/// At every moment of every run of the graphs, each thread's labels follow steps that every shaped
/// post-solution offers, from the start of `main` or of the thread's function, to the stack of the
/// thread's frames; and the states of that stack describe the frames.
pub fn walks_are_offered()
    ensures { WalksAreOffered }
{}
