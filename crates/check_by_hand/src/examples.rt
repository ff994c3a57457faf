ghost use Rattle.std.specs.Prelude.{◌≡◌, map};
ghost use Rattle.c_check.specs.Examples.{body_rows, good_body, good_unit, item_rows, unit_with};
ghost use Rattle.c_check.specs.Units.{unit_faults, unit_of};

/// Bodies of `main` and lists of items with their faults, a good and a bad one for each rule, and
/// the unit that a good one becomes.
pub fn checks_by_hand()
    ensures bodies { map (λ row. unit_faults (unit_with row.0)) body_rows ≡ map (λ row. row.1) body_rows }
    ensures items { map (λ row. unit_faults (record { items = row.0 })) item_rows ≡ map (λ row. row.1) item_rows }
    ensures becomes { unit_of (unit_with good_body) ≡ good_unit }
{}
