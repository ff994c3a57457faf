//! The law of what is carried over. Each function below is its contract alone and does nothing.
ghost use Rattle.gob_tree.specs.Formed.{IsFormed};
ghost use Rattle.gob_tree.specs.declared.graph.Program.{Program};
ghost use Rattle.constraint_sys.specs.Carry.{Carries};
ghost use Rattle.constraint_sys.specs.PostSolution.{IsPostSolution};
ghost use Rattle.constraint_sys.specs.Sound.{IsShaped, IsSound};
ghost use Rattle.constraint_sys.specs.Table.{TableValue};
ghost use Rattle.constraint_sys.specs.Turn.{Solving};

/// What a post-solution of the old program leaves for the new one is sound: the roots are there, each
/// dirty point can be turned, and each other point is satisfied. So turns can go on from there, and
/// once nothing is dirty the table is a post-solution of the new program.
pub fn carried_is_sound()
    ensures { (old new : Program) (t : TableValue) (s : Solving) → IsFormed old → IsFormed new → IsShaped old t → IsPostSolution old t → Carries old new t s → IsSound new s }
{}
