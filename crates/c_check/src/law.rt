ghost use Rattle.c_check.specs.Laws.{AcceptedIsWellMade, NotBoth, OneFirst, OneSource, SourcesAreAnalysable, UnitsAreSpelled};

/// A tree that the grammar gives of a text's tokens is spelled so, and where it has no fault it
/// becomes a well-made unit: its numbers are in range, its calls fit what they call, its names
/// differ, its bodies end in a `return`, and `main` is there.
pub fn accepted_is_well_made()
    ensures spelled { UnitsAreSpelled }
    ensures made { AcceptedIsWellMade }
{}

/// The source of a text is one that an analysis takes: its unit is well made and within the sizes, its
/// program is the unit's own and formed, and each name of it is a word.
pub fn sources_are_analysable()
    ensures { SourcesAreAnalysable }
{}

/// A text has one source or one first fault, and never both. Want of memory is no fault of the
/// text, and may be told of any.
pub fn one_outcome()
    ensures source { OneSource }
    ensures fault { OneFirst }
    ensures either { NotBoth }
{}
