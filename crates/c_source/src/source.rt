ghost use Rattle.std.specs.Prelude.{◌≡◌};
ghost use Rattle.c_source.specs.Sources.{IsAnalysable};

use gob_tree::{Program, Text, Unit};
use std::marker::Model;

/// A text with its unit and the unit's program.
///
/// The unit is well made and within the sizes (at most 128 functions with 8 parameters and 128 slots
/// each, 64 globals, 8 mutexes and 4,096 nodes), the program is the unit's own and formed, and its
/// names are words. That the unit was read from this very text is said where texts are read.
#[derive(Drop)]
pub struct Source {
    text: Text,
    unit: Unit,
    program: Program,
}

impl Model for Source {
    ghost use Rattle.std.specs.Coded.{codes};
    ghost use Rattle.gob_tree.specs.contracts.expr.Expr as expr;
    ghost use Rattle.gob_tree.specs.contracts.stmt.Placed as placed;
    ghost use Rattle.gob_tree.specs.contracts.stmt.Stmt as stmt;
    ghost use Rattle.c_source.specs.Sources.{Parts, IsAnalysable};

    ghost Value = { Parts };

    ghost coded = { Prim.hlevel (codes, expr.the_row.coded, stmt.the_row.coded, placed.the_row.coded) };

    ghost view = { λ s. record { text = s.text; unit = s.unit; program = s.program } };

    ghost invariant = { λ s. IsAnalysable (record { text = s.text; unit = s.unit; program = s.program }) };
}

impl Source {
    /// A source of these parts.
    pub fn of(text: Text, unit: Unit, program: Program) -> Source
        requires { IsAnalysable (record { text = text; unit = unit; program = program }) }
        ensures { result ≡ record { text = text; unit = unit; program = program } }
    {
        Source {
            text,
            unit,
            program,
        }
    }

    /// The bytes of the text.
    pub fn text(&self) -> &[u8]
        ensures { result.now ≡ self.now.text }
    {
        self.text.as_bytes()
    }

    /// The unit.
    pub fn unit(&self) -> &Unit
        ensures { result.now ≡ self.now.unit }
    {
        &self.unit
    }

    /// The program.
    pub fn program(&self) -> &Program
        ensures { result.now ≡ self.now.program }
    {
        &self.program
    }

    /// Every source is one that an analysis takes.
    pub fn is_analysable(&self)
        ensures { IsAnalysable self.now }
    {
        let _text = &self.text;
    }
}
