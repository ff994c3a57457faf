ghost use Rattle.readings_law.specs.Expressions.{ExpressionsSpell, ExpressionsDontSpell};
ghost use Rattle.readings_law.specs.Faults.{FaultsAreTold, NoOtherFaults};
ghost use Rattle.readings_law.specs.Statements.{StatementsSpell, StatementsDontSpell};
ghost use Rattle.readings_law.specs.Units.{UnitsSpell, UnitsDontSpell};

/// Expressions: the order of the operators, grouping to the left, prefixes, parentheses and calls.
pub fn expressions_by_hand()
    ensures spelled { ExpressionsSpell }
    ensures refused { ExpressionsDontSpell }
{}

/// Statements and declarations of a function's outer block.
pub fn statements_by_hand()
    ensures spelled { StatementsSpell }
    ensures refused { StatementsDontSpell }
{}

/// Units: globals, mutexes, prototypes and functions.
pub fn units_by_hand()
    ensures spelled { UnitsSpell }
    ensures refused { UnitsDontSpell }
{}

/// The first fault of tokens that are no unit within the limits.
pub fn faults_by_hand()
    ensures told { FaultsAreTold }
    ensures others { NoOtherFaults }
{}
