ghost use Rattle.std.specs.Prelude.{◌≡◌, ◌<◌, ◌≤◌, IfOk, IfErr, IfSome, OnOk, length, map, reverse, nat_eq, [], None, true, false};
ghost use Rattle.std.specs.List.{list_any};
ghost use Rattle.c_meaning.specs.Graph.{next_node, with_node, with_edge, with_silent, with_guards, begun_at, free_from, taking, temp_slot, with_temp};
ghost use Rattle.cfg_build.specs.Growing.{Faults, slot_count, marked_edge};

use crate::fault::BuildFault;
use crate::marked::Marked;
use gob_tree::{Action, Edge, Expr, Memory, Place, Seq, Width};
use std::alloc::Global;
use std::marker::Model;

/// A function's graph has at most so many nodes.
pub(crate) const NODE_LIMIT: usize = 4096;

/// A function's graph has at most so many slots.
pub(crate) const SLOT_LIMIT: usize = 128;

/// The graph of a function while it grows, which contracts see as the graph so far, the
/// temporaries that the statement has taken, and the node that its hoisting has reached. It is
/// never over a limit.
#[derive(Drop)]
pub(crate) struct Builder {
    alloc: Global,
    named: u16,
    temps: Seq<Width>,
    nodes: Seq<Place>,
    edges: Seq<Marked>,
    taken: Seq<u16>,
    at: u16,
}

/// What is drawn of a function.
#[derive(Drop)]
pub(crate) struct Parts {
    pub temps: Seq<Width>,
    pub nodes: Seq<Place>,
    pub edges: Seq<Marked>,
}

impl Model for Builder {
    ghost use Rattle.std.specs.Prelude.{◌≤◌, ◌+◌, length};
    ghost use Rattle.c_meaning.specs.Graph.{HoistState};
    ghost use Rattle.cfg_build.specs.Growing.{shown};
    ghost use Rattle.gob_tree.specs.contracts.expr.Expr as expr;
    ghost use Rattle.std.specs.Coded.{codes};

    ghost Value = { HoistState };

    ghost coded = { Prim.hlevel (codes, expr.the_row.coded) };

    ghost view = { λ b. shown b.named b.temps b.nodes b.edges b.taken b.at };

    ghost invariant = { λ b. (length b.nodes ≤ 4096) × (b.named + length b.temps ≤ 128) };
}

/// Whether the k-th temporary is taken.
fn is_taken(taken: &[u16], k: usize) -> bool
    ensures { result ≡ list_any (nat_eq k) (reverse taken.now) }
{
    for number in taken {
        if *number as usize == k {
            return true;
        }
    }
    false
}

/// The least temporary of a width that isn't taken.
fn free_temp(temps: &[Width], taken: &[u16], width: Width) -> Option<usize>
    ensures least { result ≡ free_from 0 temps.now width (reverse taken.now) }
    ensures within { IfSome result (λ k. k < length temps.now) }
{
    for (k, w) in temps.iter().enumerate() {
        if *w == width && !is_taken(taken, k) {
            return Some(k);
        }
    }
    None
}

impl Builder {
    /// The builder of a graph with so many named slots and these first nodes, without an edge.
    pub(crate) fn new(alloc: Global, named: u16, nodes: Seq<Place>) -> Builder
        requires slots { named ≤ 128 }
        requires nodes { length nodes ≤ 4096 }
        ensures { result.flow ≡ record { named = named; temps = []; nodes = nodes; edges = [] } }
    {
        Builder {
            alloc,
            named,
            temps: Seq::new(alloc),
            nodes,
            edges: Seq::new(alloc),
            taken: Seq::new(alloc),
            at: 0,
        }
    }

    /// The allocator.
    pub(crate) fn alloc(&self) -> Global {
        self.alloc
    }

    /// The node that the hoisting has reached.
    pub(crate) fn at(&self) -> u16
        ensures { result ≡ self.now.at }
    {
        self.at
    }

    /// The number that the next node takes.
    pub(crate) fn next_node(&self) -> u16
        ensures number { result ≡ next_node self.now.flow }
        ensures small { result ≤ 4096 }
    {
        self.nodes.len() as u16
    }

    /// A new node; its number is below 4,096.
    pub(crate) fn add_node(&mut self, place: Place) -> Result<u16, BuildFault>
        ensures number { IfOk result (λ n. (n ≡ next_node self.old.flow) × (n < 4096)) }
        ensures state { OnOk result (self.new ≡ record self.old { flow = with_node place self.old.flow }) }
        ensures limit { IfErr result (λ fault. Faults fault (with_node place self.old.flow)) }
    {
        let node = self.nodes.len();
        if node >= NODE_LIMIT {
            return Err(BuildFault::Limit);
        }
        self.nodes.push(place)?;
        Ok(node as u16)
    }

    /// A new edge.
    pub(crate) fn add_edge(&mut self, from: u16, act: Action, to: u16) -> Result<(), Memory>
        ensures { OnOk result (self.new ≡ record self.old { flow = with_edge from act to self.old.flow }) }
    {
        let edge = Edge { from, act, to };
        self.edges.push(Marked {
            edge,
            silent: false,
        })?;
        Ok(())
    }

    /// A new silent edge.
    pub(crate) fn add_silent(&mut self, from: u16, act: Action, to: u16) -> Result<(), Memory>
        ensures { OnOk result (self.new ≡ record self.old { flow = with_silent from act to self.old.flow }) }
    {
        let edge = Edge { from, act, to };
        self.edges.push(Marked { edge, silent: true })?;
        Ok(())
    }

    /// Both ways out of a test, the true one first.
    pub(crate) fn add_guards(
        &mut self,
        from: u16,
        test: Expr,
        yes_to: u16,
        no_to: u16,
    ) -> Result<(), Memory>
        ensures { OnOk result (self.new ≡ record self.old { flow = with_guards from test yes_to no_to self.old.flow }) }
    {
        let same = test.copy(self.alloc)?;
        self.add_edge(from, Action::Guard(same, true), yes_to)?;
        self.add_edge(from, Action::Guard(test, false), no_to)
    }

    /// Both ways out of an operand of `&&` or `||`, the true one first; they are silent.
    pub(crate) fn add_silent_guards(
        &mut self,
        from: u16,
        test: Expr,
        yes_to: u16,
        no_to: u16,
    ) -> Result<(), Memory>
        ensures { OnOk result (self.new ≡ record self.old { flow = with_silent from (Action.Guard test false) no_to (with_silent from (Action.Guard test true) yes_to self.old.flow) }) }
    {
        let same = test.copy(self.alloc)?;
        self.add_silent(from, Action::Guard(same, true), yes_to)?;
        self.add_silent(from, Action::Guard(test, false), no_to)
    }

    /// Begins the hoisting of a statement's expressions at a node, with no temporary taken.
    pub(crate) fn begin(&mut self, node: u16)
        ensures { self.new ≡ begun_at node self.old.flow }
    {
        self.taken = Seq::new(self.alloc);
        self.at = node;
    }

    /// Goes on with the hoisting at a node.
    pub(crate) fn move_to(&mut self, node: u16)
        ensures { self.new ≡ record self.old { at = node } }
    {
        self.at = node;
    }

    /// The slot of the next temporary of a width, which is taken.
    pub(crate) fn take_temp(&mut self, width: Width) -> Result<u16, BuildFault>
        ensures slot { IfOk result (λ t. t ≡ temp_slot width self.old) }
        ensures state { OnOk result (self.new ≡ with_temp width self.old) }
        ensures limit { IfErr result (λ fault. Faults fault (with_temp width self.old).flow) }
    {
        match free_temp(self.temps.as_slice(), self.taken.as_slice(), width) {
            Some(k) => {
                self.taken.push(k as u16)?;
                Ok(self.named + k as u16)
            }
            None => self.new_temp(width),
        }
    }

    /// The slot of a new temporary, behind all others.
    fn new_temp(&mut self, width: Width) -> Result<u16, BuildFault>
        ensures slot { IfOk result (λ t. t ≡ slot_count self.old.flow) }
        ensures state { OnOk result (self.new ≡ taking width None self.old) }
        ensures limit { IfErr result (λ fault. Faults fault (taking width None self.old).flow) }
    {
        let number = self.temps.len();
        if self.named as usize + number >= SLOT_LIMIT {
            return Err(BuildFault::Limit);
        }
        self.taken.push(number as u16)?;
        self.temps.push(width)?;
        Ok(self.named + number as u16)
    }

    /// The temporaries, the nodes and the edges.
    pub(crate) fn into_parts(self) -> Parts
        ensures temps { result.temps ≡ self.flow.temps }
        ensures nodes { result.nodes ≡ self.flow.nodes }
        ensures edges { map marked_edge result.edges ≡ self.flow.edges }
        ensures within { (next_node self.flow ≤ 4096) × (slot_count self.flow ≤ 128) }
    {
        let Builder {
            alloc: _,
            named: _,
            temps,
            nodes,
            edges,
            taken: _,
            at: _,
        } = self;
        Parts {
            temps,
            nodes,
            edges,
        }
    }
}
