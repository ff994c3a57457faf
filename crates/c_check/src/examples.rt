ghost use Rattle.std.specs.Prelude.{◌≡◌, map};
ghost use Rattle.c_check.specs.Examples.{limit_rows};
ghost use Rattle.c_check.specs.Units.{limit_faults};

/// Lists of items at each limit and one beyond it, with their faults.
pub fn limits_by_hand()
    ensures { map (λ row. limit_faults row.0) limit_rows ≡ map (λ row. row.1) limit_rows }
{}
