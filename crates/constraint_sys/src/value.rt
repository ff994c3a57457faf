ghost use Rattle.std.specs.Prelude.{◌≡◌, ◌↔◌, IfOk, IsTrue, Some};
ghost use Rattle.constraint_sys.specs.Arising.{AreAlike};
ghost use Rattle.constraint_sys.specs.PostSolution.{CoversValue};
ghost use Rattle.constraint_sys.specs.Turn.{raised_value};

use crate::unknown::Unknown;
use gob_tree::{Memory, Seq};
use interval_dom::Interval;
use state_dom::{State, Thresholds};
use std::alloc::Global;

/// The value of an unknown: a state of a point, or the interval of a global.
#[derive(Drop)]
pub enum Value {
    State(State),
    Number(Interval),
}

impl Value {
    /// An equal value; `Memory` is want of memory.
    pub fn copy(&self, alloc: Global) -> Result<Value, Memory>
        ensures { IfOk result (λ v. v ≡ self.now) }
    {
        match self {
            Value::State(s) => Ok(Value::State(s.copy(alloc)?)),
            Value::Number(n) => Ok(Value::Number(*n)),
        }
    }

    /// Whether the other value, which is of the same kind and room, bounds this one.
    pub(crate) fn le(&self, other: &Value) -> bool
        requires { AreAlike other.now self.now }
        ensures { IsTrue result ↔ CoversValue (Some other.now) self.now }
    {
        match (self, other) {
            (Value::State(inner), Value::State(outer)) => inner.le(outer),
            (Value::Number(inner), Value::Number(outer)) => inner.le(*outer),
            _ => false,
        }
    }

    /// Raises this value by another of the same kind and room; takes no memory.
    pub(crate) fn raise(&mut self, new: &Value, marks: &Thresholds)
        requires { AreAlike self.old new.now }
        ensures { self.new ≡ raised_value marks.now self.old new.now }
    {
        match (self, new) {
            (Value::State(old), Value::State(new)) => {
                old.up(new, marks);
            }
            (Value::Number(old), Value::Number(new)) => {
                *old = old.widen(*new, marks.as_slice());
            }
            _ => {}
        }
    }
}

/// What an edge contributes to another unknown than its end.
#[derive(Drop)]
pub struct Effect {
    pub target: Unknown,
    pub value: Value,
}

/// What one edge gives from a point where it begins: the state at its end, which is Bottom where the
/// action can't be done there, what it contributes to other unknowns, and the unknowns that it reads
/// beside the point.
#[derive(Drop)]
pub struct Outcome {
    pub value: State,
    pub effects: Seq<Effect>,
    pub reads: Seq<Unknown>,
}

/// What a point gets from the edges that end there: the join of their states, their effects and
/// the unknowns that they read, both in edge order.
#[derive(Drop)]
pub struct Contribution {
    pub value: State,
    pub effects: Seq<Effect>,
    pub reads: Seq<Unknown>,
}
