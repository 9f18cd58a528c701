//! The row of one slot: its first pair, and those that its link leads through. This file has the
//! calls that only read.

pub(crate) mod growth;
pub(crate) mod insertion;
pub(crate) mod removal;

ghost use Rattle.std.specs.Prelude.{◌≡◌, ◌+◌, ◌<◌, ◌≤◌, length, position, take, slice_index_or, None, Some, MatchBool, IfSome};
ghost use Rattle.std.specs.Option.{option_map};
ghost use Rattle.intmap_table.specs.Bindings.{value_of};
ghost use Rattle.intmap_table.specs.Classes.{same_key};
ghost use Rattle.intmap_table.specs.Reach.{through_first};
ghost use Rattle.intmap_table.specs.Tables.Nodes.{node_limit, row_in, IsSlot};

use crate::key::IntKey;
use crate::linked::chain::{last_in, search, seek};
use crate::linked::node::Node;
use crate::linked::pool::Pool;
use crate::steps::Steps;
use crate::table::stored::{Sought, Stored};
use std::alloc::Allocator;

/// The place of the key's pair. The keys are compared from the front, up to the one sought.
#[inline(always)]
pub(crate) fn find<K: IntKey, X, A: Allocator>(
    slot: &Node<(Stored<K>, X)>,
    pool: &Pool<(Stored<K>, X), A>,
    key: &Sought<K>,
    steps: &mut Steps,
) -> Option<usize>
    requires { IsSlot pool.now.nodes slot.now }
    ensures place { result
        ≡ position (λ p. same_key K.number_of key.now p.0) (row_in pool.now.nodes slot.now) }
    ensures counted { steps.new ≡ steps.old + length
        (through_first (λ p. same_key K.number_of key.now p.0) (row_in pool.now.nodes slot.now)) }
{
    let Some((link, first)) = slot.get() else {
        return None;
    };
    if first.0.matches(key, steps) {
        return Some(0);
    }
    let Ok(spot) = search(pool, link, key, steps) else {
        return None;
    };
    Some(spot.place + 1)
}

/// The key's pair. The keys are compared from the front, up to the one sought.
#[inline(always)]
pub(crate) fn pair_of<'a, K: IntKey, X, A: Allocator>(
    slot: &'a Node<(Stored<K>, X)>,
    pool: &'a Pool<(Stored<K>, X), A>,
    key: &Sought<K>,
    steps: &mut Steps,
) -> Option<&'a (Stored<K>, X)>
    requires { IsSlot pool.now.nodes slot.now }
    ensures key { IfSome result (λ pair. K.number_of pair.now.0 ≡ K.number_of key.now) }
    ensures value { option_map (λ pair. pair.now.1) result
        ≡ value_of K.number_of (row_in pool.now.nodes slot.now) key.now }
    ensures counted { steps.new ≡ steps.old + length
        (through_first (λ p. same_key K.number_of key.now p.0) (row_in pool.now.nodes slot.now)) }
{
    let Some((link, first)) = slot.get() else {
        return None;
    };
    if first.0.matches(key, steps) {
        return Some(first);
    }
    let Ok(spot) = search(pool, link, key, steps) else {
        return None;
    };
    Some(pool.pair(spot.at))
}

/// Whether the first pair has the key. If there is a first pair, its key is compared.
#[inline(always)]
pub(crate) fn first_is<K: IntKey, X, A: Allocator>(
    slot: &Node<(Stored<K>, X)>,
    _pool: &Pool<(Stored<K>, X), A>,
    key: &Sought<K>,
    steps: &mut Steps,
) -> bool
    ensures value { MatchBool result
        (position (λ p. same_key K.number_of key.now p.0) (row_in _pool.now.nodes slot.now)
        ≡ Some 0)
        (value_of K.number_of (take 1 (row_in _pool.now.nodes slot.now)) key.now ≡ None) }
    ensures counted { steps.new ≡ steps.old + length (take 1 (row_in _pool.now.nodes slot.now)) }
{
    match slot.get() {
        Some((_, first)) => first.0.matches(key, steps),
        None => false,
    }
}

/// The number of pairs.
pub(crate) fn len<P, A: Allocator>(slot: &Node<P>, pool: &Pool<P, A>) -> usize
    requires { IsSlot pool.now.nodes slot.now }
    ensures len { result ≡ length (row_in pool.now.nodes slot.now) }
    ensures limit { result ≤ node_limit + 1 }
{
    match slot.get() {
        Some((link, _)) => last_in(pool, link).1 + 1,
        None => 0,
    }
}

/// The pair at a place.
#[inline(always)]
pub(crate) fn pair_at<'a, P, A: Allocator>(
    slot: &'a Node<P>,
    pool: &'a Pool<P, A>,
    place: usize,
) -> &'a P
    requires leads { IsSlot pool.now.nodes slot.now }
    requires within { place < length (row_in pool.now.nodes slot.now) }
    ensures { result.now ≡ slice_index_or (row_in pool.now.nodes slot.now) place result.now }
{
    let Some((link, first)) = slot.get() else {
        unreachable!();
    };
    if place == 0 {
        return first;
    }
    pool.pair(seek(pool, link, place - 1))
}
