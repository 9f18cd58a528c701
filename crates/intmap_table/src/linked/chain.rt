//! Chains of nodes: the pairs of a slot behind its first one, in the order of the links.
ghost use Rattle.std.specs.Prelude.{◌≡◌, ◌+◌, ◌^◌, ◌<◌, ◌≤◌, ℕ, [], ◌∷◌, ◌++◌, drop, length, position, swap_remove, slice_index_or, None, Some, IfOk, IfErr, IfNone, IfSome, OnErr};
ghost use Rattle.intmap_table.specs.Classes.{same_key};
ghost use Rattle.intmap_table.specs.Reach.{through_first};
ghost use Rattle.intmap_table.specs.Tables.Behind.{IsBehind};
ghost use Rattle.intmap_table.specs.Tables.Nodes.{chain_of, node_limit, nowhere, IsChain, IsChainSet, IsCut, IsNodeAt};

use crate::key::IntKey;
use crate::linked::node::{NODE_LIMIT, NOWHERE};
use crate::linked::pool::Pool;
use crate::steps::Steps;
use crate::table::stored::{Sought, Stored};
use std::alloc::Allocator;

/// Where a pair is in a chain: its node, its place, and the node before. At the front there is no
/// node before.
#[derive(Clone, Copy)]
pub(crate) struct Spot {
    pub before: usize,
    pub at: usize,
    pub place: usize,
}

/// Where the key's pair is among those that a link leads through, or the last node if none of them
/// has the key (no node if there is no pair). The keys are compared in turn, up to the one sought.
#[inline(always)]
pub(crate) fn search<K: IntKey, X, A: Allocator>(
    pool: &Pool<(Stored<K>, X), A>,
    from: usize,
    key: &Sought<K>,
    steps: &mut Steps,
) -> Result<Spot, usize>
    requires { IsChain pool.now.nodes from }
    ensures found { IfOk result
        (λ spot. IsBehind pool.now.nodes from spot.place spot.before spot.at) }
    ensures place { IfOk result (λ spot. position (λ p. same_key K.number_of key.now p.0)
        (chain_of pool.now.nodes from) ≡ Some spot.place) }
    ensures missing { OnErr result
        (position (λ p. same_key K.number_of key.now p.0) (chain_of pool.now.nodes from) ≡ None) }
    ensures last { IfErr result (λ last. IsBehind pool.now.nodes from
        (length (chain_of pool.now.nodes from)) last nowhere) }
    ensures counted { steps.new ≡ steps.old + length
        (through_first (λ p. same_key K.number_of key.now p.0) (chain_of pool.now.nodes from)) }
{
    let mut before = NOWHERE;
    let mut at = from;
    let mut place = 0;
    while let Some((next, pair)) = pool.get(at) {
        if pair.0.matches(key, steps) {
            return Ok(Spot { before, at, place });
        }
        before = at;
        at = next;
        place += 1;
    }
    Err(before)
}

/// The last node of a chain, behind the node before it. Node `at` of this chain is given, and the
/// node before that one.
#[inline(always)]
pub(crate) fn last_from<P, A: Allocator>(
    pool: &Pool<P, A>,
    before: usize,
    at: usize,
) -> (usize, usize)
    requires leads { IsChain pool.now.nodes at }
    requires some { 0 < length (chain_of pool.now.nodes at) }
    ensures { (from i : ℕ) → IsBehind pool.now.nodes from i before at
        → (j : ℕ) × (i ≤ j) × (length (chain_of pool.now.nodes from) ≡ j + 1)
        × IsBehind pool.now.nodes from j result.0 result.1 }
{
    let mut before = before;
    let mut last = at;
    let mut next = pool.link(last);
    while next < NODE_LIMIT {
        before = last;
        last = next;
        next = pool.link(last);
    }
    (before, last)
}

/// The last node of a chain (no node if there is no pair), and the number of pairs.
#[inline(always)]
pub(crate) fn last_in<P, A: Allocator>(pool: &Pool<P, A>, from: usize) -> (usize, usize)
    requires { IsChain pool.now.nodes from }
    ensures last { IsBehind pool.now.nodes from
        (length (chain_of pool.now.nodes from)) result.0 nowhere }
    ensures len { result.1 ≡ length (chain_of pool.now.nodes from) }
    ensures limit { result.1 ≤ node_limit }
{
    let mut last = NOWHERE;
    let mut next = from;
    let mut count = 0;
    while next < NODE_LIMIT {
        last = next;
        next = pool.link(last);
        count += 1;
    }
    (last, count)
}

/// The node at a place of a chain.
#[inline(always)]
pub(crate) fn seek<P, A: Allocator>(pool: &Pool<P, A>, from: usize, place: usize) -> usize
    requires leads { IsChain pool.now.nodes from }
    requires within { place ≤ length (chain_of pool.now.nodes from) }
    ensures { IsNodeAt pool.now.nodes from place result }
{
    let mut link = from;
    for passed in 0..place {
        link = pool.link(link);
    }
    link
}

/// The link to the pair at a place of a chain, or one that leads nowhere if the chain has no such
/// pair.
#[inline(always)]
pub(crate) fn skip<P, A: Allocator>(pool: &Pool<P, A>, from: usize, place: usize) -> usize
    requires { IsChain pool.now.nodes from }
    ensures chain { IsChain pool.now.nodes result }
    ensures pairs { chain_of pool.now.nodes result ≡ drop place (chain_of pool.now.nodes from) }
{
    let mut link = from;
    let mut left = place;
    while left > 0 && link < NODE_LIMIT {
        link = pool.link(link);
        left -= 1;
    }
    link
}

/// The node before the pair at a place of a chain, and the node of this pair, if the chain has it.
/// At the front of the chain there is no node before.
#[inline(always)]
pub(crate) fn find_behind<P, A: Allocator>(
    pool: &Pool<P, A>,
    from: usize,
    place: usize,
) -> Option<(usize, usize)>
    requires { IsChain pool.now.nodes from }
    ensures some { IfSome result (λ r. place < length (chain_of pool.now.nodes from)
        × IsBehind pool.now.nodes from place r.0 r.1) }
    ensures none { IfNone result (length (chain_of pool.now.nodes from) ≤ place) }
{
    let mut before = NOWHERE;
    let mut at = from;
    let mut passed = 0;
    while let Some((next, _)) = pool.get(at) {
        if passed == place {
            return Some((before, at));
        }
        before = at;
        at = next;
        passed += 1;
    }
    None
}

/// The node before a place of a chain, and the node at this place. The first of them is none at the
/// front of the chain, and the second is none behind its last pair.
#[inline(always)]
pub(crate) fn seek_behind<P, A: Allocator>(
    pool: &Pool<P, A>,
    from: usize,
    place: usize,
) -> (usize, usize)
    requires leads { IsChain pool.now.nodes from }
    requires within { place ≤ length (chain_of pool.now.nodes from) }
    ensures { IsBehind pool.now.nodes from place result.0 result.1 }
{
    if place == 0 {
        return (NOWHERE, from);
    }
    let before = seek(pool, from, place - 1);
    (before, pool.link(before))
}

/// Removes the first of the pairs that a link leads through.
#[inline(always)]
pub(crate) fn pop_front<P, A: Allocator>(link: &mut usize, pool: &mut Pool<P, A>) -> P
    requires leads { IsChain pool.old.nodes link.old }
    requires some { 0 < length (chain_of pool.old.nodes link.old) }
    ensures cut { IsCut pool.old link.old 0 result pool.new link.new }
    ensures fits { link.new < 2 ^ 48 }
{
    let at = *link;
    *link = pool.link(at);
    pool.release(at)
}

/// Removes the pair of a node. The last pair of the chain takes its place, and a new one is put
/// last. It returns the pair that was removed.
#[inline(always)]
pub(crate) fn replace_from<P, A: Allocator>(pool: &mut Pool<P, A>, at: usize, new: P) -> P
    requires leads { IsChain pool.old.nodes at }
    requires some { 0 < length (chain_of pool.old.nodes at) }
    ensures value { (from place : ℕ) → IsNodeAt pool.old.nodes from place at
        → result ≡ slice_index_or (chain_of pool.old.nodes from) place result }
    ensures chain { (from place : ℕ) → IsNodeAt pool.old.nodes from place at
        → IsChainSet pool.old from
        (swap_remove (chain_of pool.old.nodes from) place result ++ new ∷ []) pool.new from }
    ensures total { pool.new.total ≡ pool.old.total }
{
    let (last, _) = last_in(pool, at);
    let pair = pool.replace(last, new);
    if last == at {
        return pair;
    }
    pool.replace(at, pair)
}
