ghost use Rattle.std.specs.Prelude.{◌≡◌, pos, negsuc, [], ◌∷◌, Ok, Err, Some, None};
ghost use Rattle.c_meaning.specs.Demand.{demand_of, value_of, with_slot};
ghost use Rattle.c_meaning.specs.Config.{first_values};
ghost use Rattle.c_meaning.specs.Graph.{flow_of};
ghost use Rattle.c_meaning.specs.GraphStep.{Do, Enter, first_graph};
ghost use Rattle.c_meaning.specs.Walk.{after_move, after_moves, walk_of, Stands};
ghost use Rattle.c_meaning.specs.Samples.{answers, left, slots_of};
ghost use Rattle.c_meaning.specs.StepExamples.{
  zero_division,
  top_sum,
  least_quotient,
  long_sum,
  long_sum_behind,
  long_slots,
  long_values,
  int_slots,
  two_inputs,
  early_fault,
  early_stop,
  early_or,
  late_or,
  one_input,
  first_choice,
  two_choices,
  late_choices,
  one_fault,
  relocking,
  relocking_answers,
  returning,
  returning_answers,
  dividing,
  dividing_answers,
  adding,
  adding_choices,
  adding_slots,
  widening,
  widening_choices,
  widening_slots,
  racing,
  racing_choices,
  racing_answers,
  racing_slots,
  calling,
  calling_choices,
  inside_slots,
  calling_slots,
  unlocking,
  joining_none,
  waiting,
  waiting_choices,
  waiting_answers,
  turning,
  turning_choices,
  turning_threads,
  holding,
  holding_main,
  ending_choices,
  joined_choices,
  narrowing_choices,
  narrowing_slots,
  held,
  two_parameters,
  two_arguments,
  calling_main,
  called,
};
ghost use Rattle.c_meaning.specs.GraphExamples.{
  counting,
  counting_flow,
  doubling,
  doubling_flow,
  joining,
  joining_flow,
  joining_unit,
  looping,
  looping_flow,
  splitting,
  splitting_flow,
  stepping,
  stepping_flow,
  sharing,
  sharing_flow,
  acting,
  acting_flow,
};
ghost use Rattle.c_meaning.specs.WalkExamples.{
  by,
  called_flow,
  calling_flow,
  calling_walk,
  racing_walk,
  racing_thread_walk,
  joining_choices,
  joining_walk,
  joining_tree,
  joining_moment,
  joining_moment_with,
  calling_tree,
  calling_moment,
  calling_moment_at,
  ended_tree,
  ended_moment,
};
ghost use Rattle.c_meaning.specs.GraphStepExamples.{
  holding_flow,
  holding_program,
  starting_moves,
  started,
  ended,
  joined,
  entered,
};

use crate::demand::Demand;
use gob_tree::Width;

/// Expressions worked out by hand: what faults, what wraps and at which width, in which order
/// inputs are asked for, and what stops early (C17, 6.5).
pub fn expressions_by_hand()
    ensures division_by_zero { value_of zero_division [] [] ≡ Err Demand.Fault }
    ensures sum_wraps { value_of top_sum [] [] ≡ Ok (negsuc 2147483647) }
    ensures least_by_minus_one { value_of least_quotient [] [] ≡ Ok (negsuc 2147483647) }
    ensures long_and_int { value_of long_sum long_slots long_values ≡ Ok (pos 2147483648) }
    ensures int_and_long { value_of long_sum_behind long_slots long_values ≡ Ok (pos 2147483648) }
    ensures long_into_int { with_slot int_slots 1 (pos 2147483648) (pos 0 ∷ pos 0 ∷ []) ≡ pos 0 ∷ negsuc 2147483647 ∷ [] }
    ensures second_missing { demand_of two_inputs [] [] (pos 5 ∷ []) ≡ (Err (Demand.Nondet Width.W32), []) }
    ensures both_given { demand_of two_inputs [] [] (pos 5 ∷ pos 6 ∷ pos 7 ∷ []) ≡ (Ok (pos 11), pos 7 ∷ []) }
    ensures fault_before_input { value_of early_fault [] [] ≡ Err Demand.Fault }
    ensures stops_early { value_of early_stop [] [] ≡ Ok (pos 0) }
    ensures or_stops_early { demand_of early_or [] [] one_input ≡ (Ok (pos 1), one_input) }
    ensures or_goes_on { demand_of late_or [] [] one_input ≡ (Ok (pos 1), []) }
{}

/// Runs worked out by hand: a second lock of one's own mutex blocks; a thread that isn't there is
/// no such thread, also where thread 1 has ended; what faults; how a call, a join and a loop go;
/// the values that the slots get.
pub fn runs_by_hand()
    ensures second_lock { answers relocking two_choices ≡ relocking_answers }
    ensures no_thread_before_ended { answers returning late_choices ≡ returning_answers }
    ensures division { answers dividing two_choices ≡ dividing_answers }
    ensures unlock_of_free { answers unlocking first_choice ≡ one_fault }
    ensures join_of_none { answers joining_none two_choices ≡ dividing_answers }
    ensures join_waits { answers waiting waiting_choices ≡ waiting_answers }
    ensures sum_above_greatest { slots_of (left adding adding_choices) ≡ adding_slots }
    ensures long_and_int { slots_of (left widening widening_choices) ≡ widening_slots }
    ensures two_threads { answers racing racing_choices ≡ racing_answers }
    ensures two_reads { slots_of (left racing racing_choices) ≡ racing_slots }
    ensures inside_call { slots_of (left calling first_choice) ≡ inside_slots }
    ensures after_call { slots_of (left calling calling_choices) ≡ calling_slots }
    ensures loop_turns { (left turning turning_choices).threads ≡ turning_threads }
{}

/// Graphs worked out by hand: the temporaries, the places of the nodes, and the edges in order
/// with the silent ones among them.
pub fn graphs_by_hand()
    ensures counting { flow_of counting ≡ counting_flow }
    ensures two_reads { flow_of doubling ≡ doubling_flow }
    ensures and_with_input { flow_of joining ≡ joining_flow }
    ensures or_with_input { flow_of splitting ≡ splitting_flow }
    ensures whole_for { flow_of stepping ≡ stepping_flow }
    ensures two_widths { flow_of sharing ≡ sharing_flow }
    ensures actions { flow_of acting ≡ acting_flow }
    ensures bare_for_and_do { flow_of looping ≡ looping_flow }
    ensures call_in_expression { flow_of calling_main ≡ calling_flow }
{}

/// What a call and a join do, on trees and on graphs: the parameter of a call is the argument,
/// converted to the parameter's width (C17, 6.5.2.2); a new thread owns no mutex; a join waits for the
/// end of its thread and leaves every mutex with its owner (POSIX, `pthread_join`).
pub fn calls_and_joins_by_hand()
    ensures parameters { first_values two_parameters two_arguments ≡ pos 0 ∷ negsuc 2147483647 ∷ pos 2147483648 ∷ pos 0 ∷ [] }
    ensures argument { slots_of (left holding narrowing_choices) ≡ narrowing_slots }
    ensures before_join { (left holding ending_choices).owners ≡ held }
    ensures after_join { (left holding joined_choices).owners ≡ held }
    ensures graph { flow_of holding_main ≡ holding_flow }
    ensures graph_starts { after_moves holding_program starting_moves (first_graph holding_program) ≡ Some started }
    ensures graph_waits { after_move holding_program started (by 1 (Do 3)) ≡ None }
    ensures graph_ends { after_moves holding_program (by 2 (Do 0) ∷ by 2 (Do 1) ∷ []) started ≡ Some ended }
    ensures graph_joins { after_move holding_program ended (by 1 (Do 3)) ≡ Some joined }
    ensures graph_enters { after_move holding_program joined (by 1 (Enter 4)) ≡ Some entered }
{}

/// Walks worked out by hand: those of two threads, one over the silent edges of an `&&`, and one
/// through a call; a list of choices that is no run has none.
pub fn walks_by_hand()
    ensures main { walk_of racing racing_choices 1 ≡ Some racing_walk }
    ensures thread { walk_of racing racing_choices 2 ≡ Some racing_thread_walk }
    ensures over_silent_edges { walk_of joining_unit joining_choices 1 ≡ Some joining_walk }
    ensures no_run { walk_of relocking two_choices 1 ≡ None }
    ensures through_a_call { walk_of calling calling_choices 1 ≡ Some calling_walk }
{}

/// A tree and a graph at the same moment: after the read of `g` in `int x = 1 && g;` the graph
/// stands at the node where the two ways of the `&&` join; inside a call; and after the end.
pub fn moments_by_hand()
    ensures tree { left joining_unit first_choice ≡ joining_tree }
    ensures over_silent_edges { Stands joining_unit joining_tree joining_moment }
    ensures called_tree { left calling first_choice ≡ calling_tree }
    ensures with_a_caller { Stands calling calling_tree calling_moment }
    ensures ended_tree { left returning first_choice ≡ ended_tree }
    ensures ended { Stands returning ended_tree (ended_moment 1) }
{}

/// What is no such moment: other globals, another value of a local, a caller that waits at no call,
/// a caller that waits at an edge that is no call, and an ended thread that isn't at the exit.
pub fn no_moments_by_hand()
    ensures other_globals { ¬ Stands joining_unit joining_tree (joining_moment_with (pos 6) (pos 0)) }
    ensures other_local { ¬ Stands joining_unit joining_tree (joining_moment_with (pos 5) (pos 3)) }
    ensures caller_goes_on { ¬ Stands calling calling_tree (calling_moment_at None) }
    ensures caller_at_no_call { ¬ Stands calling calling_tree (calling_moment_at (Some 2)) }
    ensures ended_elsewhere { ¬ Stands returning ended_tree (ended_moment 2) }
{}
