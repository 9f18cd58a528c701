//! Pairs of one slot are kept or removed, as the bits of a word say.
ghost use Rattle.std.specs.Prelude.{◌≡◌, ◌<◌, ◌≤◌, ◌++◌, List, [], cond, false, length};
ghost use Rattle.intmap_table.specs.Tables.Keeping.{IsNextBit, Keeps};
ghost use Rattle.intmap_table.specs.Tables.Nodes.{row_in, IsSlot, IsSlotSet};

use crate::linked::chain::find_behind;
use crate::linked::node::Node;
use crate::linked::pool::Pool;
use crate::linked::row::removal;
use std::alloc::Allocator;

/// Bits for the next pairs, as many as are left: those of the word, from its lowest one up. A pair
/// stays if its bit is set.
#[derive(Drop)]
pub(crate) struct KeepBits {
    pub word: u64,
    pub left: usize,
}

impl KeepBits {
    /// Whether the next pair stays. The bits behind its own are left.
    #[inline(always)]
    fn next(&mut self) -> bool
        requires { 0 < self.old.left }
        ensures { IsNextBit self.old result self.new }
    {
        let stays = self.word % 2 == 1;
        self.word /= 2;
        self.left -= 1;
        stays
    }
}

/// Removes pairs from the front of a slot, up to the first one whose bit is set. Returns whether
/// there is one. The bits behind its own are left.
#[inline(always)]
fn drop_front<P: Drop, A: Allocator>(
    slot: &mut Node<P>,
    pool: &mut Pool<P, A>,
    bits: &mut KeepBits,
) -> bool
    requires { IsSlot pool.old.nodes slot.old }
    ensures front { (gone : List P)
        × (row_in pool.old.nodes slot.old ≡ gone ++ row_in pool.new.nodes slot.new) }
    ensures slot { IsSlotSet pool.old slot.old (row_in pool.new.nodes slot.new) pool.new slot.new }
    ensures pairs { Keeps bits.old (row_in pool.old.nodes slot.old) 0 bits.new
        (row_in pool.new.nodes slot.new) (cond result 1 0) }
    ensures ends { result ≡ false → 0 < bits.new.left → row_in pool.new.nodes slot.new ≡ [] }
    ensures total { pool.new.total ≡ pool.old.total }
{
    while bits.left > 0 {
        let Some((link, _)) = slot.get() else {
            return false;
        };
        if bits.next() {
            return true;
        }
        removal::pop_front(slot, link, pool);
    }
    false
}

/// Keeps or removes pairs behind the first one of a slot, from the place on, each as its bit says.
/// The place moves behind those that stay. It goes on until no bit or no pair is left.
#[inline(never)]
fn keep_behind<P: Drop, A: Allocator>(
    slot: &mut Node<P>,
    pool: &mut Pool<P, A>,
    place: &mut usize,
    bits: &mut KeepBits,
)
    requires leads { IsSlot pool.old.nodes slot.old }
    requires behind { 0 < place.old }
    ensures slot { IsSlotSet pool.old slot.old (row_in pool.new.nodes slot.new) pool.new slot.new }
    ensures pairs { Keeps bits.old (row_in pool.old.nodes slot.old) place.old bits.new
        (row_in pool.new.nodes slot.new) place.new }
    ensures ends { 0 < bits.new.left → length (row_in pool.new.nodes slot.new) ≤ place.new }
    ensures total { pool.new.total ≡ pool.old.total }
{
    let Some((link, _)) = slot.get() else {
        return;
    };
    let Some((mut before, mut at)) = find_behind(pool, link, *place - 1) else {
        return;
    };
    while bits.left > 0 {
        let Some((next, _)) = pool.get(at) else {
            return;
        };
        if bits.next() {
            before = at;
            *place += 1;
        } else {
            removal::unlink(slot, pool, before, at);
        }
        at = next;
    }
}

/// Keeps or removes pairs of a slot, from the place on, each as its bit says, in their order. The
/// place moves behind those that stay. It goes on until no bit or no pair is left.
#[inline(always)]
pub(crate) fn keep<P: Drop, A: Allocator>(
    slot: &mut Node<P>,
    pool: &mut Pool<P, A>,
    place: &mut usize,
    bits: &mut KeepBits,
)
    requires { IsSlot pool.old.nodes slot.old }
    ensures slot { IsSlotSet pool.old slot.old (row_in pool.new.nodes slot.new) pool.new slot.new }
    ensures pairs { Keeps bits.old (row_in pool.old.nodes slot.old) place.old bits.new
        (row_in pool.new.nodes slot.new) place.new }
    ensures ends { 0 < bits.new.left → length (row_in pool.new.nodes slot.new) ≤ place.new }
    ensures total { pool.new.total ≡ pool.old.total }
{
    if *place > 0 {
        keep_behind(slot, pool, place, bits);
        return;
    }
    if drop_front(slot, pool, bits) {
        *place = 1;
        keep_behind(slot, pool, place, bits);
    }
}
