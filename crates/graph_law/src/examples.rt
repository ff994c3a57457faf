ghost use Rattle.std.specs.Prelude.{[], Some, None};
ghost use Rattle.gob_tree.specs.declared.graph.Action.TheVariants.{Read, Write, Call};
ghost use Rattle.c_meaning.specs.Samples.{int};
ghost use Rattle.graph_law.specs.Forming.{IsWithinSizes, HasWidths};
ghost use Rattle.graph_law.specs.FormingExamples.{
  full_unit,
  too_many_functions,
  too_many_globals,
  too_many_mutexes,
  too_many_params,
  too_many_slots,
  too_many_nodes,
  int_function,
  two_widths,
};

/// Sizes worked out by hand: a unit that has just as many functions, globals, mutexes, parameters,
/// slots and nodes as a program may have, and for each of them a unit with one more.
pub fn sizes_by_hand()
    ensures within { IsWithinSizes full_unit }
    ensures functions { ¬ IsWithinSizes too_many_functions }
    ensures globals { ¬ IsWithinSizes too_many_globals }
    ensures mutexes { ¬ IsWithinSizes too_many_mutexes }
    ensures params { ¬ IsWithinSizes too_many_params }
    ensures slots { ¬ IsWithinSizes too_many_slots }
    ensures nodes { ¬ IsWithinSizes too_many_nodes }
{}

/// Widths worked out by hand: a slot that gets a global or a result of its own width, and ones that
/// get one of another width, or the result of a function that isn't there; a call without a
/// destination and a write ask nothing of slots.
pub fn widths_by_hand()
    ensures int_read { HasWidths two_widths int_function (Read 0 0) }
    ensures long_read { HasWidths two_widths int_function (Read 1 1) }
    ensures long_read_into_int { ¬ HasWidths two_widths int_function (Read 0 1) }
    ensures int_read_into_long { ¬ HasWidths two_widths int_function (Read 1 0) }
    ensures int_result { HasWidths two_widths int_function (Call (Some 0) 0 []) }
    ensures long_result { HasWidths two_widths int_function (Call (Some 1) 1 []) }
    ensures long_result_into_int { ¬ HasWidths two_widths int_function (Call (Some 0) 1 []) }
    ensures no_function { ¬ HasWidths two_widths int_function (Call (Some 0) 2 []) }
    ensures no_destination { HasWidths two_widths int_function (Call None 2 []) }
    ensures write { HasWidths two_widths int_function (Write 1 (int 0)) }
{}
