//! What moves are as functions of a position.
ghost use Rattle.abs_stepper.specs.Laws.{MovesAreOne};

/// Two positions to which a move of a thread leads are one.
pub fn moves_are_one()
    ensures { MovesAreOne }
{}
