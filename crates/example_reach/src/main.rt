//! Reads the edges of a graph, two nodes a line, and prints each node that a path from node 0 leads
//! to, in ascending order.
//!
//! Run it by `rt try <stdin` in this folder, or by `rt run <stdin`, which proves it first.
#![tactic(auto)]

ghost use Rattle.std.specs.Prelude.{[], ◌++◌, ◌∷◌, ℕ, IfOk, OnOk};
ghost use Rattle.example_reach.specs.Reached.{IsReached, IsReaching};

use anyhow::{Result, bail};
use intmap::IntMap;
use intmap_set::IntSet;
use std::alloc::Global;

/// The nodes that edges lead to, by the node that they leave.
type Edges = IntMap<u64, Vec<u64>>;

/// The nodes to which a path from the start leads, with the start itself.
///
/// It fails if there is no memory, or if so many edges would take more than 2^64 - 1 steps.
fn reachable(alloc: Global, edges: &Edges, start: u64) -> Result<IntSet<u64>>
    ensures { IfOk result (λ visited. IsReached edges.now.walk start visited.walk) }
{
    let mut visited: IntSet<u64> = IntSet::new(alloc)?;
    let mut waiting = Vec::new(alloc);
    waiting.push(start)?;
    for _ in 0..u64::MAX {
        let Some(node) = waiting.pop() else {
            return Ok(visited);
        };
        visit(edges, &mut visited, &mut waiting, node)?;
    }
    bail!("too many edges")
}

/// Visits a node that was waiting. If it is new, the nodes that its edges lead to wait then.
///
/// It fails if there is no memory.
fn visit(edges: &Edges, visited: &mut IntSet<u64>, waiting: &mut Vec<u64>, node: u64) -> Result<()>
    ensures { OnOk result ((start : ℕ) → IsReaching edges.now.walk start visited.old.walk
        (waiting.old.items ++ node ∷ [])
        → IsReaching edges.now.walk start visited.new.walk waiting.new.items) }
{
    if !visited.insert(node)? {
        return Ok(());
    }
    let Some(targets) = edges.get(node) else {
        return Ok(());
    };
    waiting.extend_from_slice(targets)?;
    Ok(())
}

/// The two nodes of a line such as `5 3`.
fn edge_of(line: &str) -> Option<(u64, u64)> {
    let (from, to) = line.split_once(' ')?;
    Some((from.parse().ok()?, to.parse().ok()?))
}

fn main(rt: HostRuntime) -> Result<()> {
    let mut edges: Edges = IntMap::new(rt.alloc())?;
    for (i, line) in rt.lines(rt.alloc()).enumerate() {
        let Some((from, to)) = edge_of(line?.as_str()) else {
            bail!("line {}: not two nodes", i + 1);
        };
        edges.entry(from).or_default()?.push(to)?;
    }
    let reached = reachable(rt.alloc(), &edges, 0)?;
    let mut nodes = reached.iter().copied().collect::<Vec<u64>>(rt.alloc())?;
    nodes.sort()?;
    for node in &nodes {
        println!(rt; "{node}")?;
    }
    Ok(())
}
