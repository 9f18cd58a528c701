//! Pairs are put into a slot that holds some, or replaced there.
ghost use Rattle.std.specs.Prelude.{◌≡◌, ◌+◌, ◌<◌, ◌≤◌, ℕ, true, false, [], ◌∷◌, ◌++◌, drop, is_none, length, swap_remove, take, slice_index_or, None, IfOk, IfErr, IsOk, OnErr, OnOk};
ghost use Rattle.intmap_table.specs.Bindings.{value_of};
ghost use Rattle.intmap_table.specs.Classes.{same_key};
ghost use Rattle.intmap_table.specs.Reach.{through_first};
ghost use Rattle.intmap_table.specs.Tables.Behind.{IsBehind};
ghost use Rattle.intmap_table.specs.Tables.Nodes.{nowhere, Held, chain_of, row_in, IsChain, IsSlot, IsSlotSet};
ghost use Rattle.intmap_table.specs.Tables.Putting.{put_last};

use crate::key::IntKey;
use crate::linked::chain::{last_in, replace_from, search};
use crate::linked::node::{NODE_LIMIT, NOWHERE, Node};
use crate::linked::pool::Pool;
use crate::steps::Steps;
use crate::table::stored::{Sought, Stored};
use std::alloc::Allocator;

/// Puts a pair last, and returns its place. If an allocation fails, it returns the pair. The slot
/// holds a pair.
#[inline(never)]
pub(crate) fn push_further<P, A: Allocator>(
    slot: &mut Node<P>,
    pool: &mut Pool<P, A>,
    pair: P,
) -> Result<usize, P>
    requires leads { IsSlot pool.old.nodes slot.old }
    requires some { 0 < length (row_in pool.old.nodes slot.old) }
    ensures place { IfOk result (λ place. place ≡ length (row_in pool.old.nodes slot.old)) }
    ensures ok { OnOk result (IsSlotSet pool.old slot.old
        (row_in pool.old.nodes slot.old ++ pair ∷ []) pool.new slot.new) }
    ensures err { OnErr result (pool.new ≡ pool.old) }
    ensures slot { OnErr result (slot.new ≡ slot.old) }
    ensures pair_returned { IfErr result (λ returned. returned ≡ pair) }
    ensures total { pool.old.total ≤ pool.new.total }
    ensures succeeds { pool.old.held < pool.old.total → IsOk result }
{
    let Some((link, _)) = slot.get() else {
        unreachable!();
    };
    let (last, count) = last_in(pool, link);
    push_behind(slot, pool, last, pair)?;
    Ok(count + 1)
}

/// Puts the pair of a key and a value last in a slot whose first pair, if there is one, has another
/// key. If the key is present, the last pair takes the place of its pair, and the old value is
/// returned. An absent key is added only if `adds` is true. If it isn't added, or if an allocation
/// fails, the value is returned. The keys are compared from the second on, up to the one sought.
#[inline(always)]
pub(crate) fn put<K: IntKey, X, A: Allocator>(
    slot: &mut Node<(Stored<K>, X)>,
    pool: &mut Pool<(Stored<K>, X), A>,
    key: Sought<K>,
    value: X,
    adds: bool,
    steps: &mut Steps,
) -> Result<Option<X>, X>
    requires leads { IsSlot pool.old.nodes slot.old }
    requires some { adds ≡ true → 0 < length (row_in pool.old.nodes slot.old) }
    requires other { value_of K.number_of (take 1 (row_in pool.old.nodes slot.old)) key ≡ None }
    ensures value { IfOk result
        (λ old. old ≡ value_of K.number_of (row_in pool.old.nodes slot.old) key) }
    ensures row { OnOk result (IsSlotSet pool.old slot.old
        (put_last K.number_of (row_in pool.old.nodes slot.old) key value) pool.new slot.new) }
    ensures known { OnOk result (K.is_valid key) }
    ensures some { OnOk result (0 < length (row_in pool.old.nodes slot.old)) }
    ensures adds { IfOk result (λ old. old ≡ None → adds ≡ true) }
    ensures missing { OnErr result
        (value_of K.number_of (row_in pool.old.nodes slot.old) key ≡ None) }
    ensures err { OnErr result (pool.new ≡ pool.old) }
    ensures slot { OnErr result (slot.new ≡ slot.old) }
    ensures value_returned { IfErr result (λ returned. returned ≡ value) }
    ensures total { pool.old.total ≤ pool.new.total }
    ensures succeeds { adds ≡ true → pool.old.held < pool.old.total → IsOk result }
    ensures counted { steps.new ≡ steps.old + length (through_first
        (λ p. same_key K.number_of key p.0) (drop 1 (row_in pool.old.nodes slot.old))) }
{
    let Some((link, _)) = slot.get() else {
        return Err(value);
    };
    match search(pool, link, &key, steps) {
        Ok(spot) => {
            let (_, old) = replace_from(pool, spot.at, (Stored::new(key), value));
            Ok(Some(old))
        }
        Err(last) => match add_behind(slot, pool, last, key, value, adds) {
            Ok(()) => Ok(None),
            Err(value) => Err(value),
        },
    }
}

/// Puts the pair of a key and a value last in a slot whose first pair, if there is one, has another
/// key. If the key is present, nothing changes, and the value is dropped. An absent key is added
/// only if `adds` is true. It returns whether the key was added. If it is absent and isn't added, or
/// if an allocation fails, the value is returned. The keys are compared from the second on, up to
/// the one sought.
#[inline(always)]
pub(crate) fn add_checked<K: IntKey, X: Drop, A: Allocator>(
    slot: &mut Node<(Stored<K>, X)>,
    pool: &mut Pool<(Stored<K>, X), A>,
    key: Sought<K>,
    value: X,
    adds: bool,
    steps: &mut Steps,
) -> Result<bool, X>
    requires leads { IsSlot pool.old.nodes slot.old }
    requires some { adds ≡ true → 0 < length (row_in pool.old.nodes slot.old) }
    requires other { value_of K.number_of (take 1 (row_in pool.old.nodes slot.old)) key ≡ None }
    ensures new { IfOk result
        (λ new. new ≡ is_none (value_of K.number_of (row_in pool.old.nodes slot.old) key)) }
    ensures row { IfOk result (λ new. new ≡ true → IsSlotSet pool.old slot.old
        (put_last K.number_of (row_in pool.old.nodes slot.old) key value) pool.new slot.new) }
    ensures present { IfOk result
        (λ new. new ≡ false → (pool.new ≡ pool.old) × (slot.new ≡ slot.old)) }
    ensures known { IfOk result (λ new. new ≡ true → K.is_valid key) }
    ensures some { OnOk result (0 < length (row_in pool.old.nodes slot.old)) }
    ensures adds { IfOk result (λ new. new ≡ true → adds ≡ true) }
    ensures missing { OnErr result
        (value_of K.number_of (row_in pool.old.nodes slot.old) key ≡ None) }
    ensures err { OnErr result (pool.new ≡ pool.old) }
    ensures slot { OnErr result (slot.new ≡ slot.old) }
    ensures value_returned { IfErr result (λ returned. returned ≡ value) }
    ensures total { pool.old.total ≤ pool.new.total }
    ensures succeeds { adds ≡ true → pool.old.held < pool.old.total → IsOk result }
    ensures counted { steps.new ≡ steps.old + length (through_first
        (λ p. same_key K.number_of key p.0) (drop 1 (row_in pool.old.nodes slot.old))) }
{
    let Some((link, _)) = slot.get() else {
        return Err(value);
    };
    match search(pool, link, &key, steps) {
        Ok(_) => Ok(false),
        Err(last) => match add_behind(slot, pool, last, key, value, adds) {
            Ok(()) => Ok(true),
            Err(value) => Err(value),
        },
    }
}

/// Puts the pair of a key and a value behind the last node of a slot, or behind its first pair if it
/// has no node. If `adds` is false, or if an allocation fails, it returns the value.
#[inline(always)]
fn add_behind<K: IntKey, X, A: Allocator>(
    slot: &mut Node<(Stored<K>, X)>,
    pool: &mut Pool<(Stored<K>, X), A>,
    last: usize,
    key: Sought<K>,
    value: X,
    adds: bool,
) -> Result<(), X>
    requires { (l i : ℕ) × (p : K × X) × (slot.old ≡ Held l p)
        × IsBehind pool.old.nodes l i last nowhere }
    ensures ok { OnOk result (IsSlotSet pool.old slot.old
        (row_in pool.old.nodes slot.old ++ (key, value) ∷ []) pool.new slot.new) }
    ensures known { OnOk result (K.is_valid key) }
    ensures adds { OnOk result (adds ≡ true) }
    ensures err { OnErr result (pool.new ≡ pool.old) }
    ensures slot { OnErr result (slot.new ≡ slot.old) }
    ensures value_returned { IfErr result (λ returned. returned ≡ value) }
    ensures total { pool.old.total ≤ pool.new.total }
    ensures succeeds { adds ≡ true → pool.old.held < pool.old.total → IsOk result }
{
    if !adds {
        return Err(value);
    }
    match push_behind(slot, pool, last, (Stored::new(key), value)) {
        Ok(()) => Ok(()),
        Err((_, value)) => Err(value),
    }
}

/// Puts a pair behind the last node of a slot, or behind its first pair if it has no node. If an
/// allocation fails, it returns the pair.
#[inline(always)]
fn push_behind<P, A: Allocator>(
    slot: &mut Node<P>,
    pool: &mut Pool<P, A>,
    last: usize,
    pair: P,
) -> Result<(), P>
    requires { (l i : ℕ) × (p : P) × (slot.old ≡ Held l p)
        × IsBehind pool.old.nodes l i last nowhere }
    ensures ok { OnOk result (IsSlotSet pool.old slot.old
        (row_in pool.old.nodes slot.old ++ pair ∷ []) pool.new slot.new) }
    ensures err { OnErr result (pool.new ≡ pool.old) }
    ensures slot { OnErr result (slot.new ≡ slot.old) }
    ensures pair_returned { IfErr result (λ returned. returned ≡ pair) }
    ensures total { pool.old.total ≤ pool.new.total }
    ensures succeeds { pool.old.held < pool.old.total → IsOk result }
{
    let at = pool.add(NOWHERE, pair)?;
    if last >= NODE_LIMIT {
        slot.set_link(at);
        return Ok(());
    }
    pool.set_link(last, at);
    Ok(())
}

/// Removes the first pair. The last one takes its place, and a new one is put last. It allocates
/// nothing.
#[inline(always)]
pub(crate) fn replace_first<P, A: Allocator>(slot: &mut Node<P>, pool: &mut Pool<P, A>, new: P) -> P
    requires leads { IsSlot pool.old.nodes slot.old }
    requires some { 0 < length (row_in pool.old.nodes slot.old) }
    ensures value { result ≡ slice_index_or (row_in pool.old.nodes slot.old) 0 result }
    ensures row { IsSlotSet pool.old slot.old
        (swap_remove (row_in pool.old.nodes slot.old) 0 result ++ new ∷ []) pool.new slot.new }
    ensures total { pool.new.total ≡ pool.old.total }
{
    let Some((link, _)) = slot.get() else {
        unreachable!();
    };
    if link >= NODE_LIMIT {
        return slot.replace(new);
    }
    replace_first_of_several(slot, link, pool, new)
}

/// Removes the first pair of a slot with this link that holds others. The last one takes its place,
/// and a new one is put last.
#[cold]
#[inline(never)]
fn replace_first_of_several<P, A: Allocator>(
    slot: &mut Node<P>,
    link: usize,
    pool: &mut Pool<P, A>,
    new: P,
) -> P
    requires filled { (p : P) × (slot.old ≡ Held link p) }
    requires leads { IsChain pool.old.nodes link }
    requires several { 0 < length (chain_of pool.old.nodes link) }
    ensures value { slot.old ≡ Held link result }
    ensures row { IsSlotSet pool.old (Held link result)
        (swap_remove (result ∷ chain_of pool.old.nodes link) 0 result ++ new ∷ [])
        pool.new slot.new }
    ensures total { pool.new.total ≡ pool.old.total }
{
    let (last, _) = last_in(pool, link);
    let pair = pool.replace(last, new);
    slot.replace(pair)
}
