//! Where the nodes of a function stand in its loops, as far as a walk over its graph tells.
use gob_tree::{Edge, Memory};
use std::alloc::Global;

/// Where a node stands. Its rank is the number in which a walk from the entry left it, 0 where the walk
/// never came there. An edge that leads to a node which was left later leads back, and its end is the
/// head of a loop; the loop repeats the nodes from the least rank of such an edge's beginning up to its
/// head, which itself is counted outside.
#[derive(Clone, Copy)]
pub(crate) struct Spot {
    pub(crate) rank: u16,
    /// The rank of the head of the outermost loop that repeats the node; its own where none does.
    pub(crate) outermost: u16,
    /// How many loops repeat the node.
    pub(crate) depth: u16,
    /// The head of the loop around the innermost of these.
    pub(crate) around: Option<u16>,
    /// How often a point of the node was taken so far.
    pub(crate) taken: u16,
}

/// A loop: its head, the head's rank, the least rank in it, and how many loops repeat what it repeats.
#[derive(Clone, Copy)]
struct Loop {
    head: u16,
    rank: u16,
    least: u16,
    depth: u16,
}

/// The spots of a function's nodes, by their ranks. It takes a look at each edge and at each node.
pub(crate) fn spots_of(alloc: Global, edges: &[Edge], ranks: &[u16]) -> Result<Vec<Spot>, Memory> {
    let least = least_ranks(alloc, edges, ranks)?;
    let nodes = nodes_by_rank(alloc, ranks)?;
    let mut spots = Vec::new(alloc);
    for rank in ranks {
        spots.push(spot_in(&[], *rank))?;
    }
    let mut around = Vec::new(alloc);
    for node in nodes.as_slice().iter().rev() {
        let rank = number_at(ranks, *node);
        leave_loops(&mut around, rank);
        let spot = spot_in(around.as_slice(), rank);
        put_spot(&mut spots, *node, spot);
        let least = number_at(least.as_slice(), *node);
        if least > 0 {
            around.push(Loop {
                head: *node,
                rank,
                least,
                depth: spot.depth.saturating_add(1),
            })?;
        }
    }
    Ok(spots)
}

/// The number at a place of a list; 0 behind its end.
pub(crate) fn number_at(numbers: &[u16], i: u16) -> u16 {
    match numbers.get(i as usize) {
        Some(n) => *n,
        None => 0,
    }
}

/// For each node the least rank from which an edge leads back to it; 0 where none does.
fn least_ranks(alloc: Global, edges: &[Edge], ranks: &[u16]) -> Result<Vec<u16>, Memory> {
    let mut least = zeros(alloc, ranks.len())?;
    for edge in edges {
        let from = number_at(ranks, edge.from);
        if from > 0 && from <= number_at(ranks, edge.to) {
            if let Some(so_far) = least.get_mut(edge.to as usize) {
                if *so_far == 0 || from < *so_far {
                    *so_far = from;
                }
            }
        }
    }
    Ok(least)
}

/// The nodes in the order of their ranks, from rank 1 on; the entry stands in for a rank that none has.
fn nodes_by_rank(alloc: Global, ranks: &[u16]) -> Result<Vec<u16>, Memory> {
    let mut nodes = zeros(alloc, ranks.len())?;
    let mut node = 0_u16;
    for rank in ranks {
        if let Some(i) = rank.checked_sub(1) {
            put(&mut nodes, i, node);
        }
        node = node.saturating_add(1);
    }
    Ok(nodes)
}

fn put(numbers: &mut Vec<u16>, i: u16, n: u16) {
    if let Some(at) = numbers.get_mut(i as usize) {
        *at = n;
    }
}

fn zeros(alloc: Global, count: usize) -> Result<Vec<u16>, Memory> {
    let mut numbers = Vec::new(alloc);
    for _i in 0..count {
        numbers.push(0_u16)?;
    }
    Ok(numbers)
}

/// Leaves the loops, the innermost first, in which a rank is none.
fn leave_loops(around: &mut Vec<Loop>, rank: u16) {
    for _i in 0..around.len() {
        match around.pop() {
            Some(innermost) if innermost.least <= rank => {
                let _back = around.push(innermost);
                return;
            }
            _ => {}
        }
    }
}

/// The spot of a rank inside these loops, of which the innermost is the last.
fn spot_in(around: &[Loop], rank: u16) -> Spot {
    Spot {
        rank,
        outermost: match around.first() {
            Some(outermost) => outermost.rank,
            None => rank,
        },
        depth: match around.last() {
            Some(innermost) => innermost.depth,
            None => 0,
        },
        around: match around.len().checked_sub(2) {
            Some(i) => head_at(around, i),
            None => None,
        },
        taken: 0,
    }
}

fn head_at(loops: &[Loop], i: usize) -> Option<u16> {
    match loops.get(i) {
        Some(it) => Some(it.head),
        None => None,
    }
}

fn put_spot(spots: &mut Vec<Spot>, node: u16, spot: Spot) {
    if let Some(at) = spots.get_mut(node as usize) {
        *at = spot;
    }
}
