//! Slots are cloned: the same keys in the same slots, with clones of their values.
ghost use Rattle.std.specs.Prelude.{◌≡◌, ◌+◌, ◌^◌, ◌<◌, ◌≤◌, ℕ, [], ◌++◌, length, replicate, vec_capacity, IfOk, OnOk};
ghost use Rattle.std.specs.List.{AllZip};
ghost use Rattle.intmap_table.specs.Classes.{slot_number};
ghost use Rattle.intmap_table.specs.Cloning.{IsPairClone};
ghost use Rattle.intmap_table.specs.Tables.Nodes.{node_limit, nowhere, empty, chain_of, row_in, rows_in, AreLinked, IsChain, IsSlot};
ghost use Rattle.intmap_table.specs.Tables.Rows.{AreRows, IsChainClone, IsRowClone};

use crate::bits::{BITS, Bits};
use crate::key::IntKey;
use crate::linked::node::{NODE_LIMIT, NOWHERE, Node};
use crate::linked::pool::Pool;
use crate::table::slots::{Slots, add_empty};
use crate::table::stored::Stored;
use std::alloc::{AllocError, Allocator};

/// The same key with a clone of the value. It fails if the clone does. No key is compared.
#[inline(always)]
fn clone_pair<K: IntKey, X: Clone>(pair: &(Stored<K>, X)) -> Result<(Stored<K>, X), AllocError>
    ensures { IfOk result (IsPairClone X.is_clone pair.now) }
{
    let value = pair.1.clone()?;
    Ok((pair.0.copied(), value))
}

/// The link of the copy of a pair whose own link is `link`, if `held` new nodes are before it. It
/// leads to the new node that comes next, or nowhere if `link` leads nowhere.
#[inline(always)]
fn link_behind(link: usize, held: usize) -> usize
    requires { held ≤ node_limit }
    ensures on { link < node_limit → result ≡ held + 1 }
    ensures ends { node_limit ≤ link → result ≡ nowhere }
    ensures fits { result < 2 ^ 48 }
{
    if link < NODE_LIMIT { held + 1 } else { NOWHERE }
}

/// Puts clones of the pairs that a link leads through, of which there is at least one, into new
/// nodes of `made`, in their order, and returns the link to them.
#[inline(never)]
fn clone_chain<K: IntKey, X: Clone, A: Allocator>(
    pool: &Pool<(Stored<K>, X), A>,
    from: usize,
    made: &mut Pool<(Stored<K>, X), A>,
) -> Result<usize, AllocError>
    requires leads { IsChain pool.now.nodes from }
    requires some { from < node_limit }
    requires none { made.old.held ≡ length made.old.nodes }
    ensures fits { IfOk result (λ link. link < 2 ^ 48) }
    ensures none { OnOk result (made.new.held ≡ length made.new.nodes) }
    ensures chain { IfOk result (λ link.
        IsChainClone X.is_clone (chain_of pool.now.nodes from) made.old made.new link) }
{
    let first = made.held();
    let mut link = from;
    while let Some((next, pair)) = pool.get(link) {
        let copy = clone_pair(pair)?;
        match made.add_new(link_behind(next, made.held()), copy) {
            Ok(_) => {}
            Err(_) => return Err(AllocError),
        }
        link = next;
    }
    Ok(first)
}

/// A slot with clones of the pairs of another, which holds some. Those behind the first one are put
/// into new nodes of `made`.
#[inline(always)]
fn clone_slot<K: IntKey, X: Clone, A: Allocator>(
    slot: &Node<(Stored<K>, X)>,
    pool: &Pool<(Stored<K>, X), A>,
    made: &mut Pool<(Stored<K>, X), A>,
) -> Result<Node<(Stored<K>, X)>, AllocError>
    requires leads { IsSlot pool.now.nodes slot.now }
    requires some { 0 < length (row_in pool.now.nodes slot.now) }
    requires none { made.old.held ≡ length made.old.nodes }
    ensures none { OnOk result (made.new.held ≡ length made.new.nodes) }
    ensures row { IfOk result (λ copy.
        IsRowClone X.is_clone (row_in pool.now.nodes slot.now) made.old made.new copy) }
{
    let Some((link, pair)) = slot.get() else {
        unreachable!();
    };
    let copy = clone_pair(pair)?;
    if link >= NODE_LIMIT {
        return Ok(Node::held(NOWHERE, copy));
    }
    let link = clone_chain(pool, link, made)?;
    Ok(Node::held(link, copy))
}

/// Adds slots without a pair, 64 of them unless that is too many, if none has this index yet. There
/// may be `count` slots, for which there is room.
#[inline(always)]
fn add_up_to<P: Drop, A: Allocator>(slots: &mut Vec<Node<P>, A>, index: usize, count: usize)
    requires within { index < count }
    requires limit { count ≤ 2 ^ 63 }
    requires few { length slots.old.items ≤ count }
    requires room { count ≤ vec_capacity slots.old }
    ensures items { (n : ℕ) × (slots.new.items ≡ slots.old.items ++ replicate n empty) }
    ensures within { index < length slots.new.items }
    ensures few { length slots.new.items ≤ count }
    ensures capacity { vec_capacity slots.old ≤ vec_capacity slots.new }
{
    if index >= slots.len() {
        add_empty(slots, count.min(index + BITS));
    }
}

/// Adds clones of all slots, for which there is room. The bits mark those that hold a pair.
fn clone_rows<K: IntKey, X: Clone, A: Allocator>(
    bits: &Bits<A>,
    slots: &[Node<(Stored<K>, X)>],
    pool: &Pool<(Stored<K>, X), A>,
    made: &mut Vec<Node<(Stored<K>, X)>, A>,
    nodes: &mut Pool<(Stored<K>, X), A>,
) -> Result<(), AllocError>
    requires rows { (mask : ℕ) × AreRows K.number_of slots.now pool.now bits.now mask }
    requires none { made.old.items ≡ [] }
    requires room { length slots.now ≤ vec_capacity made.old }
    requires unused { nodes.old.nodes ≡ [] }
    requires held { nodes.old.held ≡ 0 }
    ensures linked { OnOk result (AreLinked
        (λ p. slot_number K.number_of p.0 (length slots.now)) made.new.items nodes.new) }
    ensures rows { OnOk result (AllZip
        (λ row copy. AllZip (IsPairClone X.is_clone) row copy)
        (rows_in slots.now pool.now.nodes) (rows_in made.new.items nodes.new.nodes)) }
{
    let mut from = 0;
    let mut left = bits.marks_from(0);
    while let Some(index) = bits.next_in(&mut left, from) {
        add_up_to(made, index, slots.len());
        made[index] = clone_slot(&slots[index], pool, nodes)?;
        from = index + 1;
    }
    add_empty(made, slots.len());
    Ok(())
}

impl<K: IntKey, X: Clone, A: Allocator + Copy> Slots<K, X, A> {
    /// The same keys in the same slots, with clones of their values. The slots, their bits and the
    /// nodes are allocated before the first value is cloned. The values are cloned slot after slot,
    /// and those of a slot from the front.
    pub(crate) fn clone(&self) -> Result<Slots<K, X, A>, AllocError>
        ensures { IfOk result (λ made. AllZip
            (λ row copy. AllZip (IsPairClone X.is_clone) row copy) self.now.rows made.rows) }
    {
        let alloc = *self.slots.allocator();
        let mut slots = Vec::with_capacity(alloc, self.slots.len())?;
        let bits = self.bits.clone()?;
        let mut pool = Pool::with_room(alloc, self.pool.held())?;
        clone_rows(&self.bits, &self.slots, &self.pool, &mut slots, &mut pool)?;
        Ok(Slots {
            mask: self.mask,
            bits,
            slots,
            pool,
        })
    }
}
