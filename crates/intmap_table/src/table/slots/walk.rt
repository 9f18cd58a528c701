//! The pairs of the slots by reference, slot after slot.
ghost use Rattle.std.specs.Prelude.{◌≡◌, ⊤};
ghost use Rattle.std.specs.Iterator.{YieldsFirstBy, item_count};

use crate::bits::Indices;
use crate::key::IntKey;
use crate::linked::node::Node;
use crate::linked::pool::Pool;
use crate::table::stored::Stored;
use std::alloc::{AllocError, Allocator};
use std::marker::Model;

/// The pairs that are left: those that `link` leads through, then those of the slots whose numbers
/// `filled` has left. Each of these slots holds a pair.
#[derive(Drop)]
pub struct Pairs<'a, K: IntKey, X, A: Allocator> {
    pub(super) link: usize,
    pub(super) filled: Indices<'a>,
    pub(super) slots: &'a [Node<(Stored<K>, X)>],
    pub(super) pool: &'a Pool<(Stored<K>, X), A>,
}

// Invariant: the links lead through pairs, and each number that is left is that of a slot with a
// pair.
impl<'a, K: IntKey, X, A: Allocator> Model for Pairs<'a, K, X, A> {
    ghost use Rattle.std.specs.Prelude.{List, ◌++◌};
    ghost use Rattle.intmap_table.specs.Tables.Nodes.{chain_of, rows_in, IsWalk};
    ghost use Rattle.intmap_table.specs.Tables.Slots.{pairs_at};

    ghost Value = { List (K × X) };

    ghost view = { λ it. chain_of it.pool.now.nodes it.link
        ++ pairs_at (rows_in it.slots.now it.pool.now.nodes) it.filled };

    ghost invariant = { λ it. IsWalk it.slots.now it.pool.now.nodes it.link it.filled };
}

impl<'a, K: IntKey, X, A: Allocator> Clone for Pairs<'a, K, X, A> {
    ghost is_clone = { λ it made. made ≡ it };

    ghost is_infallible = { λ _. ⊤ };

    fn clone(&self) -> Result<Pairs<'a, K, X, A>, AllocError> {
        Ok(Pairs {
            link: self.link,
            filled: self.filled.clone()?,
            slots: self.slots,
            pool: self.pool,
        })
    }
}

impl<'a, K: IntKey, X, A: Allocator> Pairs<'a, K, X, A> {
    /// The next stored pair.
    #[inline(always)]
    fn next_pair(&mut self) -> Option<&'a (Stored<K>, X)>
        ensures { YieldsFirstBy (λ pair. pair.now) (λ rest. rest) self.old result self.new }
    {
        if let Some((next, pair)) = self.pool.get(self.link) {
            self.link = next;
            return Some(pair);
        }
        let Some(index) = self.filled.next() else {
            return None;
        };
        let Some((next, first)) = self.slots[index].get() else {
            unreachable!();
        };
        self.link = next;
        Some(first)
    }
}

impl<'a, K: IntKey, X, A: Allocator> Iterator for Pairs<'a, K, X, A> {
    type Item = (&'a K, &'a X);

    ghost next_gives = { YieldsFirstBy (λ item. (item.0.now, item.1.now)) (λ rest. rest) };

    ghost remaining = { item_count (λ rest. rest) };

    #[inline]
    fn next(&mut self) -> Option<(&'a K, &'a X)> {
        let pair = self.next_pair()?;
        Some((pair.0.key(), &pair.1))
    }
}
