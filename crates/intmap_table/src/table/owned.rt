//! The pairs of a table by value.
ghost use Rattle.std.specs.Prelude.{◌≡◌};
ghost use Rattle.std.specs.Iterator.{YieldsFirst, item_count};

use crate::key::IntKey;
use crate::table::Table;
use crate::table::slots::owned::IntoRows;
use std::alloc::Allocator;
use std::marker::Model;

/// The pairs of a table by value, in the order of the walk: those that are left. A step takes the
/// same time however many pairs share a slot.
#[derive(Drop)]
pub struct IntoPairs<K: IntKey, X, A: Allocator> {
    rows: IntoRows<K, X, A>,
}

impl<K: IntKey, X, A: Allocator> Model for IntoPairs<K, X, A> {
    ghost use Rattle.std.specs.Prelude.{List};

    ghost Value = { List (K × X) };

    ghost view = { λ it. it.rows };
}

impl<K: IntKey, X: Drop, A: Allocator> Table<K, X, A> {
    /// The pairs by value, in the order of the walk. It allocates nothing.
    pub fn into_pairs(self) -> IntoPairs<K, X, A>
        ensures { result ≡ self.walk }
    {
        IntoPairs {
            rows: self.slots.into_rows(),
        }
    }
}

impl<K: IntKey, X: Drop, A: Allocator> Iterator for IntoPairs<K, X, A> {
    type Item = (K, X);

    ghost next_gives = { YieldsFirst (λ rest. rest) };

    ghost remaining = { item_count (λ rest. rest) };

    #[inline]
    fn next(&mut self) -> Option<(K, X)> {
        let (key, value) = self.rows.next()?;
        Some((*key.key(), value))
    }
}
