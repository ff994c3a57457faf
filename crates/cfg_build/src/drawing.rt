ghost use Rattle.std.specs.Prelude.{◌≡◌, ◌++◌, map, IfOk, IfErr};
ghost use Rattle.c_meaning.specs.Graph.{first_flow, flow_of, graph_of, temporary};
ghost use Rattle.cfg_build.specs.Growing.{Faults, IsWithinLimits, IsOverLimits, marked_edge};

use crate::builder::{Builder, SLOT_LIMIT};
use crate::fault::BuildFault;
use crate::lower::first_start;
use crate::marked::Marked;
use crate::route::Route;
use gob_tree::{Action, Edge, FuncGraph, Function, Memory, Place, Seq, Slot, Text, Width};
use std::alloc::Global;

/// The entry's, the exit's and the body's place.
fn first_nodes(alloc: Global, function: &Function) -> Result<Seq<Place>, Memory>
    ensures { IfOk result (λ nodes. nodes ≡ (first_flow function.now).nodes) }
{
    let start = first_start(function.body.as_slice(), function.end);
    let mut nodes = Seq::new(alloc);
    nodes.push(function.place)?;
    nodes.push(function.end)?;
    nodes.push(start)?;
    Ok(nodes)
}

/// All that is drawn of a function.
fn draw(alloc: Global, function: &Function) -> Result<Builder, BuildFault>
    ensures ok { IfOk result (λ b. b.flow ≡ flow_of function.now) }
    ensures limit { IfErr result (λ fault. Faults fault (flow_of function.now)) }
{
    let named = function.slots.len();
    if named > SLOT_LIMIT {
        return Err(BuildFault::Limit);
    }
    let nodes = first_nodes(alloc, function)?;
    let mut builder = Builder::new(alloc, named as u16, nodes);
    builder.add_silent(0, Action::Skip, 2)?;
    let route = Route {
        from: 2,
        to: 1,
        on_break: 1,
        on_continue: 1,
    };
    builder.sequence(function.body.as_slice(), route)?;
    Ok(builder)
}

/// The named slots, and a slot without a name for each temporary.
fn slots_of(alloc: Global, named: &[Slot], temps: &[Width]) -> Result<Seq<Slot>, Memory>
    ensures { IfOk result (λ slots. slots ≡ named.now ++ map temporary temps.now) }
{
    let mut slots = copy_slots(alloc, named)?;
    for width in temps {
        let name = Text::of(alloc, b"")?;
        slots.push(Slot {
            name,
            width: *width,
        })?;
    }
    Ok(slots)
}

fn copy_slots(alloc: Global, slots: &[Slot]) -> Result<Seq<Slot>, Memory>
    ensures { IfOk result (λ copy. copy ≡ slots.now) }
{
    let mut list = Seq::new(alloc);
    for slot in slots {
        let name = slot.name.copy(alloc)?;
        list.push(Slot {
            name,
            width: slot.width,
        })?;
    }
    Ok(list)
}

fn copy_texts(alloc: Global, texts: &[Text]) -> Result<Seq<Text>, Memory>
    ensures { IfOk result (λ copy. copy ≡ texts.now) }
{
    let mut list = Seq::new(alloc);
    for text in texts {
        let item = text.copy(alloc)?;
        list.push(item)?;
    }
    Ok(list)
}

fn edges_of(alloc: Global, marked: Seq<Marked>) -> Result<Seq<Edge>, Memory>
    ensures { IfOk result (λ edges. edges ≡ map (λ m. m.edge) (map marked_edge marked)) }
{
    let edges = without_marks(alloc, marked)?;
    Ok(edges)
}

fn without_marks(alloc: Global, marked: Seq<Marked>) -> Result<Seq<Edge>, Memory>
    ensures { IfOk result (λ edges. edges ≡ map (λ m. m.edge) marked) }
{
    let mut edges = Seq::new(alloc);
    for one in marked.into_vec() {
        let Marked { edge, silent: _ } = one;
        edges.push(edge)?;
    }
    Ok(edges)
}

fn marks_of(alloc: Global, edges: &[Marked]) -> Result<Seq<bool>, Memory>
    ensures { IfOk result (λ marks. marks ≡ map (λ m. m.silent) (map marked_edge edges.now)) }
{
    let mut marks = Seq::new(alloc);
    for edge in edges {
        marks.push(edge.silent)?;
    }
    Ok(marks)
}

/// The graph of a function: node 0 is the entry, node 1 the exit, node 2 the start of the body;
/// behind the named slots come the temporaries, into which the inputs of an expression are got
/// before it is used. `Limit` comes exactly where it would have more than 4,096 nodes or more than
/// 128 slots, and is told without building more than that; `Memory` is want of memory.
///
/// It takes time linear in the size of the function, but for the search for a temporary among at
/// most 128, and for one look at the operands below each `&&` and `||`.
pub fn build(alloc: Global, function: &Function) -> Result<FuncGraph, BuildFault>
    ensures graph { IfOk result (λ g. g ≡ graph_of function.now) }
    ensures within { IfOk result IsWithinLimits }
    ensures limit { IfErr result (λ fault. fault ≡ BuildFault.Limit → IsOverLimits (graph_of function.now)) }
{
    let parts = draw(alloc, function)?.into_parts();
    let slots = slots_of(alloc, function.slots.as_slice(), parts.temps.as_slice())?;
    let name = function.name.copy(alloc)?;
    let threads = copy_texts(alloc, function.threads.as_slice())?;
    let edges = edges_of(alloc, parts.edges)?;
    Ok(FuncGraph {
        name,
        kind: function.kind,
        params: function.params,
        slots,
        threads,
        nodes: parts.nodes,
        edges,
    })
}

/// For each edge of a function's graph, in their order, whether it is silent: no step of the
/// function's tree belongs to it. The faults are those of `build`.
pub fn silent_edges(alloc: Global, function: &Function) -> Result<Seq<bool>, BuildFault>
    ensures marks { IfOk result (λ marks. marks ≡ map (λ m. m.silent) (flow_of function.now).edges) }
    ensures limit { IfErr result (λ fault. fault ≡ BuildFault.Limit → IsOverLimits (graph_of function.now)) }
{
    let parts = draw(alloc, function)?.into_parts();
    let marks = marks_of(alloc, parts.edges.as_slice())?;
    Ok(marks)
}
