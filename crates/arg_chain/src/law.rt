//! What least chains are as a choice.
ghost use Rattle.arg_chain.specs.Laws.{LeastChainsAreOne};

/// Two least chains of a vertex are one.
pub fn least_chains_are_one()
    ensures { LeastChainsAreOne }
{}
