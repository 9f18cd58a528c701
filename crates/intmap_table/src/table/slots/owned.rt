//! The pairs of slots by value, slot after slot.
ghost use Rattle.std.specs.Prelude.{◌≡◌};
ghost use Rattle.std.specs.Iterator.{YieldsFirst};
ghost use Rattle.intmap_table.specs.Tables.Slots.{joined};

use crate::bits::{Bits, MarksLeft};
use crate::key::IntKey;
use crate::linked::chain::pop_front;
use crate::linked::node::{NODE_LIMIT, NOWHERE, Node};
use crate::linked::pool::Pool;
use crate::table::slots::Slots;
use crate::table::stored::Stored;
use std::alloc::Allocator;
use std::marker::Model;

/// The pairs left: those that `link` leads through, then those of the slots from `from` on.
/// The bits still mark slots that were passed, and `left` has the marks of one word behind them.
#[derive(Drop)]
pub(crate) struct IntoRows<K: IntKey, X, A: Allocator> {
    link: usize,
    from: usize,
    left: MarksLeft,
    bits: Bits<A>,
    slots: Vec<Node<(Stored<K>, X)>, A>,
    pool: Pool<(Stored<K>, X), A>,
}

// Invariant: the links lead through pairs. No slot before `from` holds one, and from there on the
// bits mark those that do.
impl<K: IntKey, X, A: Allocator> Model for IntoRows<K, X, A> {
    ghost use Rattle.std.specs.Prelude.{List};
    ghost use Rattle.intmap_table.specs.Tables.Owned.{pairs_left, AreLeft};

    ghost Value = { List (K × X) };

    ghost view = { λ it. pairs_left it.slots.items it.pool.nodes it.link };

    ghost invariant = { λ it. AreLeft it.slots.items it.pool.nodes it.bits it.link it.from
        it.left.at it.left.word };
}

impl<K: IntKey, X, A: Allocator> Slots<K, X, A> {
    /// The pairs by value, slot after slot.
    pub(crate) fn into_rows(self) -> IntoRows<K, X, A>
        ensures { result ≡ joined self.rows }
    {
        let Slots {
            mask: _,
            bits,
            slots,
            pool,
        } = self;
        let left = bits.marks_from(0);
        IntoRows {
            link: NOWHERE,
            from: 0,
            left,
            bits,
            slots,
            pool,
        }
    }
}

impl<K: IntKey, X, A: Allocator> IntoRows<K, X, A> {
    /// The next stored pair.
    #[inline(always)]
    pub(crate) fn next(&mut self) -> Option<(Stored<K>, X)>
        ensures { YieldsFirst (λ rest. rest) self.old result self.new }
    {
        if self.link < NODE_LIMIT {
            return Some(pop_front(&mut self.link, &mut self.pool));
        }
        let index = self.bits.next_in(&mut self.left, self.from)?;
        let (link, pair) = self.slots[index].take();
        self.link = link;
        self.from = index + 1;
        Some(pair)
    }
}
