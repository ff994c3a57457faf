ghost use Rattle.c_meaning.specs.Rows.{WidthRows, DemandRows, UnrollRows, HoistRows, LowerRows};

/// The width and the value of each form of expression, in terms of its operands (C17, 6.5).
pub fn expression_rows()
    ensures widths { WidthRows }
    ensures values { DemandRows }
{}

/// What each form of statement unrolls into where it stands in front (C17, 6.8).
pub fn unrolling_rows()
    ensures { UnrollRows }
{}

/// How each form of expression and of statement becomes edges of a graph.
pub fn graph_rows()
    ensures expressions { HoistRows }
    ensures statements { LowerRows }
{}
