//! A law of breaches. The function below is its contract alone and does nothing.
ghost use Rattle.std.specs.Prelude.{◌≡◌};
ghost use Rattle.gob_tree.specs.declared.graph.Program.{Program};
ghost use Rattle.constraint_sys.specs.Breach.{IsFirstBreach};
ghost use Rattle.constraint_sys.specs.Table.{TableValue};
ghost use Rattle.constraint_sys.specs.declared.unknown.Unknown.{Unknown};

/// A table has at most one first breach.
pub fn first_breach_is_one()
    ensures unknown { (p : Program) (t : TableValue) (u v w x : Unknown) → IsFirstBreach p t u v → IsFirstBreach p t w x → u ≡ w }
    ensures target { (p : Program) (t : TableValue) (u v w x : Unknown) → IsFirstBreach p t u v → IsFirstBreach p t w x → v ≡ x }
{}
