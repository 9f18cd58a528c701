//! Nodes that are visited, and parents of nodes.
ghost use Rattle.std.specs.Prelude.{◌≡◌, ◌≢◌, ◌<◌, ◌≤◌, ℕ, ◌∷◌, [], ◌++◌, ◌⊎◌, None, Some, OnOk, OnErr, is_none, is_some, cond, true};
ghost use Rattle.intmap.specs.Bindings.{Updates, value_of};

use intmap::{Cause, IntMap};
use std::alloc::Allocator;

/// Marks a node, and puts it into the queue if it is new.
///
/// It fails if there is no memory for the queue, or if the insertion of a new node fails. Every
/// mark then stays. The queue stays too, or the node stands at its end, unmarked.
pub fn visit<A: Allocator + Copy>(
    visited: &mut IntMap<u64, (), A>,
    queue: &mut Vec<u64, A>,
    node: u64,
) -> Result<(), Cause>
    ensures marked { OnOk result (is_some (value_of (λ k. k) visited.new.walk node) ≡ true) }
    ensures others { (q : ℕ) → q ≢ node
        → value_of (λ k. k) visited.new.walk q ≡ value_of (λ k. k) visited.old.walk q }
    ensures queued { OnOk result (queue.new.items
        ≡ cond (is_none (value_of (λ k. k) visited.old.walk node))
        (queue.old.items ++ node ∷ []) queue.old.items) }
    ensures marks_stay { OnErr result (visited.new.walk ≡ visited.old.walk) }
    ensures queue_left { OnErr result ((queue.new.items ≡ queue.old.items)
        ⊎ ((queue.new.items ≡ queue.old.items ++ node ∷ [])
        × (value_of (λ k. k) visited.new.walk node ≡ None))) }
{
    if visited.contains_key(node) {
        return Ok(());
    }
    if queue.push(node).is_err() {
        return Err(Cause::Memory);
    }
    visited.insert(node, ())?;
    Ok(())
}

/// The same by `insert_checked`.
///
/// It fails if the insertion of a new node fails, or if there is no memory for the queue. The queue
/// then stays. Every mark stays too, or the node is marked, so that another call doesn't put it
/// into the queue.
pub fn visit_once<A: Allocator + Copy>(
    visited: &mut IntMap<u64, (), A>,
    queue: &mut Vec<u64, A>,
    node: u64,
) -> Result<(), Cause>
    ensures marked { OnOk result (is_some (value_of (λ k. k) visited.new.walk node) ≡ true) }
    ensures others { (q : ℕ) → q ≢ node
        → value_of (λ k. k) visited.new.walk q ≡ value_of (λ k. k) visited.old.walk q }
    ensures queued { OnOk result (queue.new.items
        ≡ cond (is_none (value_of (λ k. k) visited.old.walk node))
        (queue.old.items ++ node ∷ []) queue.old.items) }
    ensures queue_stays { OnErr result (queue.new.items ≡ queue.old.items) }
    ensures marks_left { OnErr result ((visited.new.walk ≡ visited.old.walk)
        ⊎ (is_some (value_of (λ k. k) visited.new.walk node) ≡ true)) }
{
    if visited.insert_checked(node, ())? && queue.push(node).is_err() {
        return Err(Cause::Memory);
    }
    Ok(())
}

/// The root of a node, to which the parents lead. Each parent is smaller than its child, so this
/// ends. What every node shares with its parent, the node shares with its root.
pub fn root<A: Allocator + Copy>(parents: &IntMap<u64, u64, A>, node: u64) -> u64
    requires { (q p : ℕ) → value_of (λ k. k) parents.now.walk q ≡ Some p → p < q }
    ensures root { value_of (λ k. k) parents.now.walk result ≡ None }
    ensures least { result ≤ node }
    ensures shared { (f : ℕ → ℕ)
        → ((q p : ℕ) → value_of (λ k. k) parents.now.walk q ≡ Some p → f q ≡ f p)
        → f node ≡ f result }
{
    match parents.get(node) {
        Some(parent) => root(parents, *parent),
        None => node,
    }
}

/// Joins the trees of two nodes, if they are two. Every parent stays, and at most one node gets a
/// parent. What every node shares with its parent then, the two nodes share.
///
/// It fails if the insertion of a parent fails. No node then gets a parent.
pub fn join<A: Allocator + Copy>(
    parents: &mut IntMap<u64, u64, A>,
    a: u64,
    b: u64,
) -> Result<(), Cause>
    requires { (q p : ℕ) → value_of (λ k. k) parents.old.walk q ≡ Some p → p < q }
    ensures smaller { (q p : ℕ) → value_of (λ k. k) parents.new.walk q ≡ Some p → p < q }
    ensures kept { (q p : ℕ) → value_of (λ k. k) parents.old.walk q ≡ Some p
        → value_of (λ k. k) parents.new.walk q ≡ Some p }
    ensures one { OnOk result ((parents.new.walk ≡ parents.old.walk)
        ⊎ ((q : ℕ) × (p : ℕ) × (value_of (λ k. k) parents.old.walk q ≡ None)
        × Updates (λ k. k) parents.old.walk parents.new.walk q (Some p))) }
    ensures shared { OnOk result ((f : ℕ → ℕ)
        → ((q p : ℕ) → value_of (λ k. k) parents.new.walk q ≡ Some p → f q ≡ f p)
        → f a ≡ f b) }
    ensures err { OnErr result (parents.new.walk ≡ parents.old.walk) }
{
    let first = root(parents, a);
    let second = root(parents, b);
    if first < second {
        parents.insert(second, first)?;
    } else if second < first {
        parents.insert(first, second)?;
    }
    Ok(())
}
