//! What is stored, and how globals begin, on values written out. The function below is its contract
//! alone and does nothing.
ghost use Rattle.std.specs.Prelude.{◌≡◌, pos, negsuc, [], ◌∷◌, Some, None};
ghost use Rattle.gob_tree.specs.declared.expr.Width.TheVariants.{W32, W64};
ghost use Rattle.interval_dom.specs.Bounds.{between};
ghost use Rattle.state_dom.specs.StateValue.{Bottom, Reached};
ghost use Rattle.constraint_sys.specs.declared.unknown.Unknown.TheVariants.{Global};
ghost use Rattle.constraint_sys.specs.declared.value.Value.TheVariants.{Number};
ghost use Rattle.constraint_sys.specs.PostSolution.{initial_value};
ghost use Rattle.constraint_sys.specs.Transfer.{any_at, assigned, with_effect, with_slot, written};
ghost use Rattle.system_trial.specs.Examples.{number, two_slots, zeros, global_of, two_globals};

/// A store has the width of where it goes, an arbitrary number is any of its slot's width, what has no
/// value is neither stored nor written, and a global begins with its number.
pub fn stores_by_hand()
    ensures into_int { with_slot two_slots zeros 0 (number 4294967296) ≡ between (negsuc 2147483647) (pos 2147483647) ∷ number 0 ∷ [] }
    ensures into_long { with_slot two_slots zeros 1 (number 4294967296) ≡ number 0 ∷ number 4294967296 ∷ [] }
    ensures nothing_stored { assigned two_slots zeros 5 0 None ≡ Bottom 2 }
    ensures any_int { any_at two_slots 0 ≡ between (negsuc 2147483647) (pos 2147483647) }
    ensures any_long { any_at two_slots 1 ≡ between (negsuc 9223372036854775807) (pos 9223372036854775807) }
    ensures begins { initial_value (global_of W64) ≡ Number (number 3) }
    ensures written_int { written two_globals zeros 5 0 (Some (number 4294967296)) ≡ with_effect (Reached zeros 5) (Global 0) (Number (between (negsuc 2147483647) (pos 2147483647))) }
    ensures written_long { written two_globals zeros 5 1 (Some (number 4294967296)) ≡ with_effect (Reached zeros 5) (Global 1) (Number (number 4294967296)) }
{}
