//! Guards, evaluations, thresholds, and what states are to each other, worked out by hand.
ghost use Rattle.std.specs.Prelude.{◌≡◌, [], ◌∷◌, None, Some, true, false, pos, negsuc};
ghost use Rattle.gob_tree.specs.declared.expr.BinOp.TheVariants.{And as Both, Or as Either};
ghost use Rattle.gob_tree.specs.declared.expr.Expr.{Local as Slot, Unary as Prefix, Binary as Infix};
ghost use Rattle.gob_tree.specs.declared.expr.UnOp.TheVariants.{Not as Negated};
ghost use Rattle.interval_dom.specs.Bounds.{between};
ghost use Rattle.state_dom.specs.Evaluation.{interval_of, guarded_by};
ghost use Rattle.state_dom.specs.Examples.{two_ints, two_longs, both, to_ten, five_to_eight, just, less, less_than_itself, equal, either_side, inside, no_value, one_more, small_program, wide_program, int_program};
ghost use Rattle.c_meaning.specs.Demand.{with_slot};
ghost use Rattle.gob_tree.specs.declared.expr.Width.TheVariants.{W32 as Int, W64 as Long};
ghost use Rattle.state_dom.specs.Operators.{converted_to, full_of};
ghost use Rattle.state_dom.specs.StateExamples.{one, an_int, a_long, one_to_ten, to_nine, above_int, to_above_int, second_mutex, third_mutex, two_mutexes, three_and_five, owners, known};
ghost use Rattle.state_dom.specs.StateValue.{Bottom, Reached, raised_by, join_of, CoversState, DescribesState, HasShape, Narrows};
ghost use Rattle.state_dom.specs.ThresholdValues.{thresholds_of};

/// What guards leave: both operands of a comparison, the right one by the left one's new interval;
/// the opposite where it is unwanted, also under `!`; the two sides of `||` and `&&`, joined; Bottom
/// without a value.
pub fn guards_by_hand()
    ensures less { guarded_by two_ints less true (both to_ten five_to_eight) ≡ both (between (pos 0) (pos 7)) five_to_eight }
    ensures not_less { guarded_by two_ints (Prefix Negated less) true (both to_ten five_to_eight) ≡ both (between (pos 5) (pos 10)) five_to_eight }
    ensures itself { guarded_by two_ints less_than_itself true (both to_ten to_ten) ≡ both (between (pos 1) (pos 9)) to_ten }
    ensures equal { guarded_by two_ints equal true (both (between (pos 0) (pos 6)) five_to_eight) ≡ both (between (pos 5) (pos 6)) (between (pos 5) (pos 6)) }
    ensures either { guarded_by two_ints either_side true (both (between (pos 0) (pos 5)) to_ten) ≡ both (between (pos 0) (pos 2)) to_ten }
    ensures not_inside { guarded_by two_ints inside false (both (between (pos 0) (pos 2)) to_ten) ≡ both (just (pos 0)) to_ten }
    ensures local { guarded_by two_ints (Slot 0) true (both to_ten to_ten) ≡ both (between (pos 1) (pos 10)) to_ten }
    ensures no_value { guarded_by two_ints no_value true (both to_ten to_ten) ≡ Bottom 2 }
{}

/// What evaluations give: at the operator's width, and for `&&` and `||` beside an operand without
/// a value.
pub fn evaluations_by_hand()
    ensures long_sum { interval_of two_longs (just (pos 2147483647) ∷ to_ten ∷ []) one_more ≡ Some (just (pos 2147483648)) }
    ensures int_sum { interval_of two_ints (just (pos 2147483647) ∷ to_ten ∷ []) one_more ≡ Some (between (negsuc 2147483647) (pos 2147483647)) }
    ensures and_maybe { interval_of two_ints (to_ten ∷ to_ten ∷ []) (Infix Both (Slot 0) no_value) ≡ Some (just (pos 0)) }
    ensures and_never { interval_of two_ints (five_to_eight ∷ to_ten ∷ []) (Infix Both (Slot 0) no_value) ≡ None }
    ensures or_maybe { interval_of two_ints (to_ten ∷ to_ten ∷ []) (Infix Either (Slot 0) no_value) ≡ Some (just (pos 1)) }
    ensures or_never { interval_of two_ints (just (pos 0) ∷ to_ten ∷ []) (Infix Either (Slot 0) no_value) ≡ None }
{}

/// The thresholds of programs: each number of a guard, an assertion, a call's argument and a
/// global's initial value with its neighbours, where they fit; and the ends of the types that are
/// there.
pub fn thresholds_by_hand()
    ensures small { thresholds_of small_program ≡ pos 9 ∷ pos 10 ∷ pos 11 ∷ pos 2 ∷ pos 3 ∷ pos 4 ∷ pos 6 ∷ pos 7 ∷ pos 8 ∷ pos 19 ∷ pos 20 ∷ pos 21 ∷ negsuc 2147483647 ∷ pos 2147483647 ∷ [] }
    ensures int { thresholds_of int_program ≡ pos 2147483646 ∷ pos 2147483647 ∷ negsuc 2147483647 ∷ pos 2147483647 ∷ [] }
    ensures wide { thresholds_of wide_program ≡ pos 2147483646 ∷ pos 2147483647 ∷ pos 2147483648 ∷ pos 2147483646 ∷ pos 2147483647 ∷ pos 2147483648 ∷ negsuc 2147483647 ∷ pos 2147483647 ∷ negsuc 9223372036854775807 ∷ pos 9223372036854775807 ∷ [] }
{}

/// Raises over the thresholds -5, 0, 9 and 20: an end that moves goes on to the next threshold, an
/// end that doesn't move stays where it is, the mutexes are those that both hold, and Bottom
/// becomes the other.
pub fn raises_by_hand()
    ensures high { raised_by (negsuc 4 ∷ pos 0 ∷ pos 9 ∷ pos 20 ∷ []) (Reached (between (pos 1) (pos 2) ∷ []) 6) (Reached (between (pos 2) (pos 3) ∷ []) 3) ≡ Reached (between (pos 1) (pos 9) ∷ []) 2 }
    ensures low { raised_by (negsuc 4 ∷ pos 0 ∷ pos 9 ∷ pos 20 ∷ []) (Reached (between (pos 1) (pos 2) ∷ []) 0) (Reached (between (negsuc 0) (pos 2) ∷ []) 0) ≡ Reached (between (negsuc 4) (pos 2) ∷ []) 0 }
    ensures on_threshold { raised_by (negsuc 4 ∷ pos 0 ∷ pos 9 ∷ pos 20 ∷ []) (Reached (between (pos 1) (pos 2) ∷ []) 0) (Reached (between (pos 0) (pos 20) ∷ []) 0) ≡ Reached (between (pos 0) (pos 20) ∷ []) 0 }
    ensures stays { raised_by (negsuc 4 ∷ pos 0 ∷ pos 9 ∷ pos 20 ∷ []) (Reached (between (pos 1) (pos 5) ∷ []) 1) (Reached (between (pos 2) (pos 3) ∷ []) 1) ≡ Reached (between (pos 1) (pos 5) ∷ []) 1 }
    ensures from_bottom { raised_by (negsuc 4 ∷ pos 0 ∷ pos 9 ∷ pos 20 ∷ []) (Bottom 1) (Reached (between (pos 2) (pos 3) ∷ []) 1) ≡ Reached (between (pos 2) (pos 3) ∷ []) 1 }
{}

/// The order of states: the outer one has intervals at least as wide, and no mutex that the inner
/// one lacks; all bound Bottom, and Bottom nothing else.
pub fn order_by_hand()
    ensures wider { CoversState (one to_ten 0) (one five_to_eight 0) }
    ensures fewer_mutexes { CoversState (one to_ten second_mutex) (one to_ten two_mutexes) }
    ensures over_bottom { CoversState (one to_ten 0) (Bottom 1) }
    ensures low_end { ¬ CoversState (one one_to_ten 0) (one to_ten 0) }
    ensures high_end { ¬ CoversState (one to_nine 0) (one to_ten 0) }
    ensures more_mutexes { ¬ CoversState (one to_ten two_mutexes) (one to_ten second_mutex) }
    ensures from_bottom { ¬ CoversState (Bottom 1) (one to_ten 0) }
    ensures other_room { ¬ CoversState (Reached (to_ten ∷ to_ten ∷ []) 0) (one to_ten 0) }
    ensures join { join_of (one to_nine two_mutexes) (one one_to_ten third_mutex) ≡ one to_ten third_mutex }
    ensures join_bottom { join_of (Bottom 1) (one to_ten two_mutexes) ≡ one to_ten two_mutexes }
{}

/// What a state describes: numbers in its intervals and of the slots' widths, and mutexes that the
/// thread owns; Bottom describes nothing.
pub fn descriptions_by_hand()
    ensures described { DescribesState two_ints known three_and_five owners 7 }
    ensures below { ¬ DescribesState two_ints known (negsuc 0 ∷ pos 5 ∷ []) owners 7 }
    ensures above { ¬ DescribesState two_ints known (pos 3 ∷ pos 9 ∷ []) owners 7 }
    ensures not_of_the_width { ¬ DescribesState an_int (one to_above_int 0) (above_int ∷ []) [] 7 }
    ensures of_the_width { DescribesState a_long (one to_above_int 0) (above_int ∷ []) [] 7 }
    ensures owned_by_another { ¬ DescribesState two_ints known three_and_five owners 1 }
    ensures owned_by_nobody { ¬ DescribesState two_ints known three_and_five (None ∷ None ∷ []) 7 }
    ensures a_value_less { ¬ DescribesState two_ints known (pos 3 ∷ []) owners 7 }
    ensures bottom { ¬ DescribesState two_ints (Bottom 2) three_and_five owners 7 }
{}

/// Shapes and narrowing: an interval for each slot, in its width; the same room and mutexes with
/// narrower intervals, or Bottom.
pub fn shapes_by_hand()
    ensures in_width { HasShape an_int (one to_ten 0) }
    ensures in_wide_width { HasShape a_long (one to_above_int 0) }
    ensures bottom_has_room { HasShape an_int (Bottom 1) }
    ensures out_of_width { ¬ HasShape an_int (one to_above_int 0) }
    ensures slot_too_many { ¬ HasShape an_int (Reached (to_ten ∷ to_ten ∷ []) 0) }
    ensures other_room { ¬ HasShape an_int (Bottom 2) }
    ensures narrower { Narrows (one to_ten 1) (one to_nine 1) }
    ensures to_bottom { Narrows (one to_ten 1) (Bottom 1) }
    ensures not_wider { ¬ Narrows (one to_nine 1) (one to_ten 1) }
    ensures not_other_mutexes { ¬ Narrows (one to_ten 1) (one to_ten 0) }
    ensures not_from_bottom { ¬ Narrows (Bottom 1) (one to_ten 0) }
{}

/// Arbitrary numbers and stores: all numbers of each width; a sum of an arbitrary long wraps at 64
/// bits; a long that goes into an int slot is any int unless it fits; and the state after such a store
/// describes the converted number, where the unconverted interval doesn't.
pub fn stores_by_hand()
    ensures any_int { full_of Int ≡ between (negsuc 2147483647) (pos 2147483647) }
    ensures any_long { full_of Long ≡ between (negsuc 9223372036854775807) (pos 9223372036854775807) }
    ensures any_long_sum { interval_of two_longs (full_of Long ∷ to_ten ∷ []) one_more ≡ Some (full_of Long) }
    ensures fitting { converted_to Int to_ten ≡ to_ten }
    ensures long_into_int { converted_to Int (just above_int) ≡ full_of Int }
    ensures long_into_long { converted_to Long (just above_int) ≡ just above_int }
    ensures stored { DescribesState an_int (one (converted_to Int (just above_int)) 0) (with_slot an_int 0 above_int (pos 3 ∷ [])) [] 7 }
    ensures stored_as_it_is { ¬ DescribesState an_int (one (just above_int) 0) (with_slot an_int 0 above_int (pos 3 ∷ [])) [] 7 }
{}
