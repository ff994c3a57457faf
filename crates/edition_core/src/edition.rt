ghost use Rattle.std.specs.Prelude.{◌≡◌, ◌<◌, IfOk, Some, length};
ghost use Rattle.std.specs.Arc.{arc_value};
ghost use Rattle.std.specs.Option.{option_copied};
ghost use Rattle.gob_tree.specs.Formed.{IsFormed};
ghost use Rattle.constraint_sys.specs.PostSolution.{IsPostSolution};
ghost use Rattle.constraint_sys.specs.Sound.{IsShaped};
ghost use Rattle.constraint_sys.specs.Table.{IsThere, value_at};
ghost use Rattle.constraint_sys.specs.declared.unknown.Unknown.TheVariants.{Point, Global as GlobalUnknown};
ghost use Rattle.constraint_sys.specs.declared.value.Value.TheVariants.{State as StateOf, Number};
ghost use Rattle.arg_graph.specs.Graphs.{IsGraphOf};
ghost use Rattle.edition_core.specs.Editions.{IsNumber, IsState};

use arg_graph::{Graph, Vertex};
use c_source::Source;
use constraint_sys::{Table, Unknown, Value};
use gob_tree::{Memory, Seq};
use interval_dom::Interval;
use state_dom::State;
use std::alloc::Global;
use std::marker::Model;
use std::sync::Arc;

/// The turns that solved a table, in order.
pub type Trace = Seq<Unknown>;

/// A source with its solved table, the table's graph, and the turns that solved it. `number` is that
/// of the edit that the source came with, and `base` that of the edition from which the solution was
/// carried, 0 for none.
///
/// The table is a post-solution of the source's program, and the graph is that of the table.
#[derive(Drop)]
pub struct Edition {
    number: u32,
    base: u32,
    source: Arc<Source>,
    table: Table,
    graph: Graph,
    trace: Arc<Trace>,
}

impl Model for Edition {
    ghost use Rattle.std.specs.Arc.{arc_value};
    ghost use Rattle.std.specs.Coded.{codes};
    ghost use Rattle.gob_tree.specs.contracts.expr.Expr as expr;
    ghost use Rattle.gob_tree.specs.contracts.stmt.Placed as placed;
    ghost use Rattle.gob_tree.specs.contracts.stmt.Stmt as stmt;
    ghost use Rattle.edition_core.specs.Editions.{Made};

    ghost Value = { Made };

    ghost coded = { Prim.hlevel (codes, expr.the_row.coded, stmt.the_row.coded, placed.the_row.coded) };

    ghost use Rattle.gob_tree.specs.Formed.{IsFormed};
    ghost use Rattle.constraint_sys.specs.PostSolution.{IsPostSolution};
    ghost use Rattle.constraint_sys.specs.Sound.{IsShaped};
    ghost use Rattle.arg_graph.specs.Graphs.{IsGraphOf};

    ghost view = { λ e. record { number = e.number; base = e.base; source = arc_value e.source; table = e.table; trace = arc_value e.trace } };

    ghost invariant = { λ e. IsFormed (arc_value e.source).program × IsShaped (arc_value e.source).program e.table
        × IsPostSolution (arc_value e.source).program e.table × IsGraphOf (arc_value e.source).program e.table e.graph };
}

impl Edition {
    /// An edition of these parts, with the graph of the table. `Memory` is want of memory.
    pub fn make(
        alloc: Global,
        number: u32,
        base: u32,
        source: Arc<Source>,
        table: Table,
        trace: Trace,
    ) -> Result<Edition, Memory>
        requires formed { IsFormed (arc_value source).program }
        requires shaped { IsShaped (arc_value source).program table }
        requires solved { IsPostSolution (arc_value source).program table }
        ensures { IfOk result (λ e. e ≡ record { number = number; base = base; source = arc_value source; table = table; trace = trace }) }
    {
        let graph = Graph::of(alloc, source.program(), &table)?;
        let trace = Arc::new(alloc, trace)?;
        Ok(Edition {
            number,
            base,
            source,
            table,
            graph,
            trace,
        })
    }

    /// The number of the edit that the source came with.
    pub fn number(&self) -> u32
        ensures { result ≡ self.now.number }
    {
        self.number
    }

    /// The number of the edition from which the solution was carried, 0 for none.
    pub fn base(&self) -> u32
        ensures { result ≡ self.now.base }
    {
        self.base
    }

    /// The source, which others may hold too.
    pub fn source(&self) -> &Arc<Source>
        ensures value { arc_value result.now ≡ self.now.source }
        ensures formed { IsFormed self.now.source.program }
    {
        &self.source
    }

    /// The table, a post-solution of the source's program.
    pub fn table(&self) -> &Table
        ensures value { result.now ≡ self.now.table }
        ensures shaped { IsShaped self.now.source.program self.now.table }
        ensures solved { IsPostSolution self.now.source.program self.now.table }
    {
        &self.table
    }

    /// The graph of the table.
    pub fn graph(&self) -> &Graph
        ensures { IsGraphOf self.now.source.program self.now.table result.now }
    {
        &self.graph
    }

    /// The turns that solved the table, which others may hold too.
    pub fn trace(&self) -> &Arc<Trace>
        ensures { arc_value result.now ≡ self.now.trace }
    {
        &self.trace
    }

    /// The state at a point of the table.
    pub fn value_at(&self, v: Vertex) -> &State
        requires { IsThere self.now.table (Point v.func v.key v.node) }
        ensures { value_at self.now.table (Point v.func v.key v.node) ≡ Some (StateOf result.now) }
    {
        let point = Unknown::Point {
            func: v.func,
            key: v.key,
            node: v.node,
        };
        state_of(self.table.get(&point))
    }

    /// The interval of a global.
    pub fn global(&self, g: u16) -> Interval
        requires { g < length self.now.source.program.globals }
        ensures { value_at self.now.table (GlobalUnknown g) ≡ Some (Number result) }
    {
        number_of(self.table.get(&Unknown::Global(g)))
    }
}

/// The state that a value is.
fn state_of(value: Option<&Value>) -> &State
    requires { IsState (option_copied value) }
    ensures { option_copied value.entry ≡ Some (StateOf result.now) }
{
    match value {
        Some(Value::State(state)) => state,
        Some(Value::Number(_)) => unreachable!(),
        None => unreachable!(),
    }
}

/// The interval that a value is.
fn number_of(value: Option<&Value>) -> Interval
    requires { IsNumber (option_copied value) }
    ensures { option_copied value.entry ≡ Some (Number result) }
{
    match value {
        Some(Value::Number(interval)) => *interval,
        Some(Value::State(_)) => unreachable!(),
        None => unreachable!(),
    }
}
