ghost use Rattle.places_law.specs.Examples.{in_order, late_line, late_column, late_kind};
ghost use Rattle.places_law.specs.Order.{Ascend};

/// Faults that ascend, and faults that don't.
pub fn order_by_hand()
    ensures holds { Ascend in_order }
    ensures no_line { ¬ (Ascend late_line) }
    ensures no_column { ¬ (Ascend late_column) }
    ensures no_kind { ¬ (Ascend late_kind) }
{}
