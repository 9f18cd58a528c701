//! Growth in one jump, in place: new slots follow the old ones in the same vector, and pairs that
//! share a slot move from the old nodes to new ones. A pair of an old slot goes to that slot or to a
//! new one, so it never meets pairs of an old slot that haven't moved. All memory is allocated
//! before the first pair moves.
ghost use Rattle.std.specs.Prelude.{◌≡◌, ◌==◌, ◌+◌, ◌*◌, ◌/◌, ◌%◌, ◌^◌, ◌<◌, ◌≤◌, ℕ, cond, nat_lt, [], ◌∷◌, ◌++◌, false, List, length, replicate, set, slice_index_or, take, IfErr, IfOk, OnErr, OnOk};
ghost use Rattle.intmap_table.specs.Classes.{IsCapacity, slot_number};
ghost use Rattle.intmap_table.specs.Walk.{slot_of};
ghost use Rattle.intmap_table.specs.declared.linked.row.growth.Order.TheVariants.{First, Second};
ghost use Rattle.intmap_table.specs.Tables.Nodes.{node_limit, empty, chain_of, further, row_in, rows_in, AreHome, AreLinked, IsChain, IsSlot, Spares};
ghost use Rattle.intmap_table.specs.Tables.Growing.{blank};
ghost use Rattle.intmap_table.specs.Tables.Rows.{row_at, AreRows, IsGrown, HasMoved};
ghost use Rattle.intmap_table.specs.Tables.Slots.{joined, AreMarked};

use crate::bits::Bits;
use crate::key::IntKey;
use crate::linked::chain::pop_front;
use crate::linked::node::{NODE_LIMIT, NOWHERE, Node};
use crate::linked::pool::Pool;
use crate::linked::row::growth::Order;
use crate::linked::turn::turn;
use crate::steps::Steps;
use crate::table::masked_index_of;
use crate::table::slots::refill::put_at;
use crate::table::slots::{Slots, add_empty};
use crate::table::stored::Stored;
use std::alloc::{AllocError, Allocator};

/// Whether one of the pairs that a link leads through goes to slot `target` among `mask + 1`.
fn any_goes_to<K: IntKey, X, A: Allocator>(
    pool: &Pool<(Stored<K>, X), A>,
    from: usize,
    mask: usize,
    target: usize,
) -> bool
    requires leads { IsChain pool.now.nodes from }
    requires capacity { IsCapacity (mask + 1) }
    ensures { result ≡ nat_lt 0
        (length (slot_of K.number_of (chain_of pool.now.nodes from) (mask + 1) target)) }
{
    let mut link = from;
    while let Some((next, pair)) = pool.get(link) {
        if masked_index_of(&pair.0, mask) == target {
            return true;
        }
        link = next;
    }
    false
}

/// Whether one of the pairs of a slot goes to slot `target` among `mask + 1`.
fn goes_to<K: IntKey, X, A: Allocator>(
    slot: &Node<(Stored<K>, X)>,
    pool: &Pool<(Stored<K>, X), A>,
    mask: usize,
    target: usize,
) -> bool
    requires leads { IsSlot pool.now.nodes slot.now }
    requires capacity { IsCapacity (mask + 1) }
    ensures { result ≡ nat_lt 0
        (length (slot_of K.number_of (row_in pool.now.nodes slot.now) (mask + 1) target)) }
{
    let Some((link, first)) = slot.get() else {
        return false;
    };
    if masked_index_of(&first.0, mask) == target {
        return true;
    }
    any_goes_to(pool, link, mask, target)
}

/// The slot of a key of old slot `index` in a table of `mask + 1` slots, a multiple of the old
/// number. It is the old slot, or one behind the old ones.
#[inline(always)]
fn moved_index_of<K: IntKey>(key: &Stored<K>, mask: usize, index: usize, old_mask: usize) -> usize
    requires grown { IsGrown (old_mask + 1) (mask + 1) }
    requires own { slot_number K.number_of key.now (old_mask + 1) ≡ index }
    ensures slot { slot_number K.number_of key.now (mask + 1) ≡ result }
    ensures part { result % (old_mask + 1) ≡ index }
    ensures within { result ≤ mask }
{
    // no other old slot, even if a key of Rust gives another number at each call
    let target = masked_index_of(key, mask);
    let above = target - (target & old_mask);
    above + index
}

/// Where in its slot a pair goes that was behind the first one of its old slot, if those that were
/// behind it have moved: behind the first one too if that one has the same slot, or else first.
#[inline(always)]
fn further_order(first_target: usize, target: usize) -> Order
    ensures { result ≡ cond (first_target == target) Second First }
{
    if first_target == target {
        return Order::Second;
    }
    Order::First
}

/// Moves the pairs of an old slot that holds some to their new slots. The first of them goes to a
/// slot without a pair. Those behind it move from the last one on, each before those that are in
/// its slot, but behind the first one: so each slot has its pairs in order. From when the first one
/// moves on, `from` is the slot behind the old one, and `rest` leads through the pairs of the old
/// one that haven't moved.
#[inline(always)]
fn move_row<K: IntKey, X, A: Allocator>(
    slots: &mut Vec<Node<(Stored<K>, X)>, A>,
    bits: &mut Bits<A>,
    pool: &mut Pool<(Stored<K>, X), A>,
    old_pool: &mut Pool<(Stored<K>, X), A>,
    index: usize,
    from: &mut usize,
    rest: &mut usize,
    old_mask: usize,
    mask: usize,
    placed: &mut Steps,
)
    requires grown { IsGrown (old_mask + 1) (mask + 1) }
    requires old { index ≤ old_mask }
    requires within { index < length slots.old.items }
    requires leads { IsSlot old_pool.old.nodes (slice_index_or slots.old.items index empty) }
    requires some { 0
        < length (row_in old_pool.old.nodes (slice_index_or slots.old.items index empty)) }
    requires own { AreHome (λ p. slot_number K.number_of p.0 (old_mask + 1)) index
        (row_in old_pool.old.nodes (slice_index_or slots.old.items index empty)) }
    requires are { AreRows K.number_of (blank index (old_mask + 1) slots.old.items) pool.old
        bits.old mask }
    requires free { (j : ℕ) → j % (old_mask + 1) ≡ index → slice_index_or
        (rows_in (blank index (old_mask + 1) slots.old.items) pool.old.nodes) j [] ≡ [] }
    requires room { pool.old.held + length
        (row_in old_pool.old.nodes (slice_index_or slots.old.items index empty))
        ≤ pool.old.total + 1 }
    ensures are { AreRows K.number_of (blank (index + 1) (old_mask + 1) slots.new.items) pool.new
        bits.new mask }
    ensures placed { (L : List (K × X)) → HasMoved K.number_of L (mask + 1)
        (rows_in (blank index (old_mask + 1) slots.old.items) pool.old.nodes)
        → HasMoved K.number_of
        (L ++ row_in old_pool.old.nodes (slice_index_or slots.old.items index empty)) (mask + 1)
        (rows_in (blank (index + 1) (old_mask + 1) slots.new.items) pool.new.nodes) }
    ensures from { from.new ≡ index + 1 }
    ensures len { length slots.new.items ≡ length slots.old.items }
    ensures left { (j : ℕ) → index < j → j ≤ old_mask
        → slice_index_or slots.new.items j empty ≡ slice_index_or slots.old.items j empty }
    ensures spares { Spares old_pool.old.nodes old_pool.new.nodes
        (row_in old_pool.old.nodes (slice_index_or slots.old.items index empty)) }
    ensures held { pool.new.held + 1 ≤ pool.old.held
        + length (row_in old_pool.old.nodes (slice_index_or slots.old.items index empty)) }
    ensures total { pool.old.total ≤ pool.new.total }
    ensures counted { placed.new ≡ placed.old
        + length (row_in old_pool.old.nodes (slice_index_or slots.old.items index empty)) }
{
    let Some((link, first)) = slots[index].get() else {
        unreachable!();
    };
    let first_target = moved_index_of(&first.0, mask, index, old_mask);
    let (_, first) = slots[index].take();
    *from = index + 1;
    put_at(slots, bits, pool, first_target, Order::First, first, placed);
    *rest = turn(old_pool, link);
    while *rest < NODE_LIMIT {
        let next = old_pool.pair(*rest);
        let target = moved_index_of(&next.0, mask, index, old_mask);
        let order = further_order(first_target, target);
        let pair = pop_front(rest, old_pool);
        put_at(slots, bits, pool, target, order, pair, placed);
    }
}

/// Moves the pairs of all old slots, slot after slot, to their new slots. No pair goes to an old
/// slot whose pairs haven't moved yet. The old bits mark the old slots that hold a pair, and stay.
/// The old slots from `from` on haven't moved, and `rest` leads through what is left of the one
/// before. The crate for Rust reads both if a key's `number` panics, and moves the pairs back.
fn move_rows<K: IntKey, X, A: Allocator>(
    slots: &mut Vec<Node<(Stored<K>, X)>, A>,
    bits: &mut Bits<A>,
    pool: &mut Pool<(Stored<K>, X), A>,
    old_bits: &Bits<A>,
    old_pool: &mut Pool<(Stored<K>, X), A>,
    from: &mut usize,
    rest: &mut usize,
    old_mask: usize,
    mask: usize,
    placed: &mut Steps,
)
    requires grown { IsGrown (old_mask + 1) (mask + 1) }
    requires len { length slots.old.items ≡ mask + 1 }
    requires marks { AreMarked (rows_in (take (old_mask + 1) slots.old.items) old_pool.old.nodes)
        old_bits.now }
    requires linked { AreLinked (λ p. slot_number K.number_of p.0 (old_mask + 1))
        (take (old_mask + 1) slots.old.items) old_pool.old }
    requires are { AreRows K.number_of (blank 0 (old_mask + 1) slots.old.items) pool.old
        bits.old mask }
    requires none { (j : ℕ) → slice_index_or
        (rows_in (blank 0 (old_mask + 1) slots.old.items) pool.old.nodes) j [] ≡ [] }
    requires room { pool.old.held
        + further (rows_in (take (old_mask + 1) slots.old.items) old_pool.old.nodes)
        ≤ pool.old.total }
    ensures are { AreRows K.number_of slots.new.items pool.new bits.new mask }
    ensures placed { HasMoved K.number_of
        (joined (rows_in (take (old_mask + 1) slots.old.items) old_pool.old.nodes)) (mask + 1)
        (rows_in slots.new.items pool.new.nodes) }
    ensures held { pool.new.held ≤ pool.old.held
        + further (rows_in (take (old_mask + 1) slots.old.items) old_pool.old.nodes) }
    ensures total { pool.old.total ≤ pool.new.total }
    ensures counted { placed.new ≡ placed.old + length
        (joined (rows_in (take (old_mask + 1) slots.old.items) old_pool.old.nodes)) }
{
    *from = 0;
    let mut left = old_bits.marks_from(*from);
    while let Some(index) = old_bits.next_in(&mut left, *from) {
        move_row(
            slots, bits, pool, old_pool, index, from, rest, old_mask, mask, placed,
        );
    }
}

impl<K: IntKey, X, A: Allocator> Slots<K, X, A> {
    /// How many pairs are behind the first ones of their slots.
    pub(crate) fn further(&self) -> usize
        ensures further { result ≡ further self.now.rows }
        ensures limit { result ≤ node_limit }
    {
        self.pool.held()
    }

    /// Puts a pair last in its slot, counts it, and returns its place. If the slot holds a pair
    /// there is room for one more.
    fn put_last(&mut self, index: usize, pair: (Stored<K>, X), placed: &mut Steps) -> usize
        requires within { index < length self.old.rows }
        requires own { slot_number K.number_of pair.0 (length self.old.rows) ≡ index }
        requires ready { 0 < length (row_at self.old index)
            → further self.old.rows < self.old.total }
        ensures rows { self.new.rows
            ≡ set self.old.rows index (row_at self.old index ++ pair ∷ []) }
        ensures place { result ≡ length (row_at self.old index) }
        ensures counted { placed.new ≡ placed.old + 1 }
    {
        put_at(
            &mut self.slots,
            &mut self.bits,
            &mut self.pool,
            index,
            Order::Last,
            pair,
            placed,
        )
    }

    /// Room that suffices for the pairs behind the first ones of their slots, if all pairs move to
    /// `capacity` slots and one more comes to slot `target` of them. Pairs go there from slot
    /// `index` alone.
    fn needed(&self, index: usize, capacity: usize, target: usize) -> usize
        requires grown { IsGrown (length self.now.rows) capacity }
        requires part { target % length self.now.rows ≡ index }
        ensures { result ≡ further self.now.rows + cond (nat_lt 0
            (length (slot_of K.number_of (joined self.now.rows) capacity target))) 1 0 }
    {
        let further = self.further();
        if goes_to(&self.slots[index], &self.pool, capacity - 1, target) {
            return further + 1;
        }
        further
    }
}

/// Bits for `capacity` slots, and a pool with room for `room` pairs.
fn bits_and_room<P: Drop, A: Allocator + Copy>(
    alloc: A,
    capacity: usize,
    room: usize,
) -> Result<(Bits<A>, Pool<P, A>), AllocError>
    requires { capacity ≤ 2 ^ 63 }
    ensures bits { IfOk result (λ r. r.0 ≡ replicate (64 * ((capacity + 63) / 64)) false) }
    ensures held { IfOk result (λ r. r.1.held ≡ 0) }
    ensures total { IfOk result (λ r. r.1.total ≡ room) }
{
    let bits = Bits::new(alloc, capacity)?;
    let pool = Pool::with_room(alloc, room)?;
    Ok((bits, pool))
}

impl<K: IntKey, X: Drop, A: Allocator + Copy> Slots<K, X, A> {
    /// Makes room for `additional` more pairs that share a slot. If an allocation fails, nothing
    /// changes.
    pub(crate) fn reserve(&mut self, additional: usize) -> Result<(), AllocError>
        ensures rows { self.new.rows ≡ self.old.rows }
        ensures room { OnOk result (further self.new.rows + additional ≤ self.new.total) }
        ensures some { OnErr result (0 < additional) }
        ensures none { OnErr result (self.old.total < further self.old.rows + additional) }
        ensures total { self.old.total ≤ self.new.total }
        ensures err { OnErr result (self.new ≡ self.old) }
    {
        self.pool.reserve(additional)
    }

    /// Adds slots, so that there are `capacity`, and moves all pairs, in the order of the walk, to
    /// their slots among these. The nodes have room for `room` pairs in all. If an allocation
    /// fails, no pair moves.
    fn enlarge(
        &mut self,
        capacity: usize,
        room: usize,
        placed: &mut Steps,
    ) -> Result<(), AllocError>
        requires grown { IsGrown (length self.old.rows) capacity }
        requires room { further self.old.rows ≤ room }
        ensures placed { OnOk result
            (HasMoved K.number_of (joined self.old.rows) capacity self.new.rows) }
        ensures further { OnOk result (further self.new.rows ≤ further self.old.rows) }
        ensures total { OnOk result (room ≤ self.new.total) }
        ensures counted { OnOk result (placed.new ≡ placed.old + length (joined self.old.rows)) }
        ensures err { OnErr result (self.new ≡ self.old) }
        ensures none_placed { OnErr result (placed.new ≡ placed.old) }
    {
        self.slots.reserve_exact(capacity - self.slots.len())?;
        let Ok(made) = bits_and_room(*self.slots.allocator(), capacity, room) else {
            self.slots.shrink_to_fit();
            return Err(AllocError);
        };
        add_empty(&mut self.slots, capacity);
        let (mut bits, mut pool) = made;
        let (mut from, mut rest) = (0, NOWHERE);
        move_rows(
            &mut self.slots,
            &mut bits,
            &mut pool,
            &self.bits,
            &mut self.pool,
            &mut from,
            &mut rest,
            self.mask,
            capacity - 1,
            placed,
        );
        self.mask = capacity - 1;
        self.bits = bits;
        self.pool = pool;
        Ok(())
    }

    /// Moves all pairs, in the order of the walk, to their slots among `capacity` slots, and makes
    /// room for `additional` more pairs that share a slot. If an allocation fails, no pair moves.
    pub(crate) fn grow(
        &mut self,
        capacity: usize,
        additional: usize,
        placed: &mut Steps,
    ) -> Result<(), AllocError>
        requires grown { IsGrown (length self.old.rows) capacity }
        ensures len { OnOk result (length self.new.rows ≡ capacity) }
        ensures rows { OnOk result ((j : ℕ) → j < capacity
            → row_at self.new j ≡ slot_of K.number_of (joined self.old.rows) capacity j) }
        ensures room { OnOk result (further self.new.rows + additional ≤ self.new.total) }
        ensures counted { OnOk result (placed.new ≡ placed.old + length (joined self.old.rows)) }
        ensures err { OnErr result (self.new ≡ self.old) }
        ensures none_placed { OnErr result (placed.new ≡ placed.old) }
    {
        let Some(room) = self.further().checked_add(additional) else {
            return Err(AllocError);
        };
        self.enlarge(capacity, room, placed)
    }

    /// Puts a new pair behind the pairs of its slot, and moves all pairs, in the order of the walk,
    /// to their slots among `capacity` slots. It returns the place that the new pair has there. If
    /// an allocation fails, the pair is returned, and no pair moves.
    pub(crate) fn grow_and_push(
        &mut self,
        capacity: usize,
        slot: usize,
        target: usize,
        pair: (Stored<K>, X),
        placed: &mut Steps,
    ) -> Result<usize, (Stored<K>, X)>
        requires grown { IsGrown (length self.old.rows) capacity }
        requires slot { slot ≡ slot_number K.number_of pair.0 (length self.old.rows) }
        requires target { target ≡ slot_number K.number_of pair.0 capacity }
        ensures len { OnOk result (length self.new.rows ≡ capacity) }
        ensures rows { OnOk result ((j : ℕ) → j < capacity → row_at self.new j
            ≡ slot_of K.number_of (joined self.old.rows ++ pair ∷ []) capacity j) }
        ensures place { IfOk result (λ place. place + 1 ≡ length (row_at self.new target)) }
        ensures counted { OnOk result
            (placed.new ≡ placed.old + (length (joined self.old.rows) + 1)) }
        ensures err { OnErr result (self.new ≡ self.old) }
        ensures none_placed { OnErr result (placed.new ≡ placed.old) }
        ensures pair_returned { IfErr result (λ returned. returned ≡ pair) }
    {
        let room = self.needed(slot, capacity, target);
        let Ok(_) = self.enlarge(capacity, room, placed) else {
            return Err(pair);
        };
        Ok(self.put_last(target, pair, placed))
    }
}
