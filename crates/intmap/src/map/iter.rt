//! The iterators of a map. Each goes through the slots in turn, and through each slot from front to
//! back. The one of `disjoint` goes through keys that a caller names.
ghost use Rattle.std.specs.Iterator.{YieldsFirstBy, item_count};
ghost use Rattle.std.specs.Prelude.{◌≡◌, length};
ghost use Rattle.std.specs.Map.{keys_of, values_of};
ghost use Rattle.intmap.specs.Iterating.{ShowsEach, shown, shown_pair};
ghost use Rattle.intmap.specs.Map.{IsMap};

mod cursor;
mod disjoint;
mod drain;
mod extract;
mod keep;
mod owned;
mod traits;
mod writing;
mod written;

use crate::map::IntMap;
pub use cursor::Cursor;
pub use disjoint::{DisjointMut, are_distinct};
pub use drain::Drain;
pub use extract::ExtractIf;
use intmap_table::IntKey;
use intmap_table::kept::Kept;
use intmap_table::table::Pairs;
pub use owned::{IntoIter, IntoKeys, IntoValues};
use std::alloc::{Allocator, Global};
use std::marker::Model;
pub use writing::ValuesMut;
pub use written::IterMut;

/// The pairs of a map by reference, made by [`IntMap::iter`](crate::IntMap::iter). Contracts see
/// it as the list of the pairs that are left.
#[derive(Drop)]
pub struct Iter<'a, K: IntKey, V, A: Allocator + Copy = Global> {
    pub(crate) pairs: Pairs<'a, K, Kept<V>, A>,
}

impl<'a, K: IntKey, V, A: Allocator + Copy> Model for Iter<'a, K, V, A> {
    ghost use Rattle.std.specs.Prelude.{List};

    ghost Value = { List (K × V) };

    ghost view = { λ it. it.pairs };
}

impl<'a, K: IntKey, V, A: Allocator + Copy> Iterator for Iter<'a, K, V, A> {
    type Item = (&'a K, &'a V);

    ghost next_gives = { YieldsFirstBy (λ item. (item.0.now, item.1.now)) (λ rest. rest) };

    ghost remaining = { item_count (λ rest. rest) };

    #[inline]
    fn next(&mut self) -> Option<(&'a K, &'a V)> {
        let (key, kept) = self.pairs.next()?;
        Some((key, kept.get()))
    }
}

/// The keys of a map by reference, made by [`IntMap::keys`](crate::IntMap::keys). Contracts see it
/// as the list of the keys that are left.
#[derive(Drop)]
pub struct Keys<'a, K: IntKey, V, A: Allocator + Copy = Global> {
    pub(crate) pairs: Iter<'a, K, V, A>,
}

impl<'a, K: IntKey, V, A: Allocator + Copy> Model for Keys<'a, K, V, A> {
    ghost use Rattle.std.specs.Prelude.{List};
    ghost use Rattle.std.specs.Map.{keys_of};

    ghost Value = { List K };

    ghost view = { λ it. keys_of it.pairs };
}

impl<'a, K: IntKey, V, A: Allocator + Copy> Iterator for Keys<'a, K, V, A> {
    type Item = &'a K;

    ghost next_gives = { YieldsFirstBy (λ key. key.now) (λ rest. rest) };

    ghost remaining = { item_count (λ rest. rest) };

    #[inline]
    fn next(&mut self) -> Option<&'a K> {
        let (key, _) = self.pairs.next()?;
        Some(key)
    }

    fn size_hint(&self) -> (usize, Option<usize>) {
        self.pairs.size_hint()
    }
}

/// The values of a map by reference, made by [`IntMap::values`](crate::IntMap::values). Contracts
/// see it as the list of the values that are left.
#[derive(Drop)]
pub struct Values<'a, K: IntKey, V, A: Allocator + Copy = Global> {
    pub(crate) pairs: Iter<'a, K, V, A>,
}

impl<'a, K: IntKey, V, A: Allocator + Copy> Model for Values<'a, K, V, A> {
    ghost use Rattle.std.specs.Prelude.{List};
    ghost use Rattle.std.specs.Map.{values_of};

    ghost Value = { List V };

    ghost view = { λ it. values_of it.pairs };
}

impl<'a, K: IntKey, V, A: Allocator + Copy> Iterator for Values<'a, K, V, A> {
    type Item = &'a V;

    ghost next_gives = { YieldsFirstBy (λ value. value.now) (λ rest. rest) };

    ghost remaining = { item_count (λ rest. rest) };

    #[inline]
    fn next(&mut self) -> Option<&'a V> {
        let (_, value) = self.pairs.next()?;
        Some(value)
    }

    fn size_hint(&self) -> (usize, Option<usize>) {
        self.pairs.size_hint()
    }
}

impl<K: IntKey, V, A: Allocator + Copy> IntMap<K, V, A> {
    /// An iterator over the pairs by reference, in iteration order. Neither this call nor a step of
    /// the iterator fails.
    ///
    /// ```text
    /// let map = IntMap::from_array(alloc, [(0, 10), (1, 11), (4, 14)])?;
    /// map.iter()      // [(0, 10), (4, 14), (1, 11)]
    /// map.keys()      // [0, 4, 1]
    /// map.values()    // [10, 14, 11]
    /// ```
    pub fn iter(&self) -> Iter<'_, K, V, A>
        ensures walk { result ≡ self.now.walk }
        ensures runs { ShowsEach (shown_pair {K = K} {V = V}) }
        ensures valid { IsMap K.number_of K.is_valid self.now }
    {
        Iter {
            pairs: self.table.pairs(),
        }
    }

    /// An iterator over the keys by reference, in iteration order. Neither this call nor a step of
    /// the iterator fails.
    pub fn keys(&self) -> Keys<'_, K, V, A>
        ensures walk { result ≡ keys_of self.now.walk }
        ensures len { length result ≡ length self.now.walk }
        ensures runs { ShowsEach (shown {X = K}) }
        ensures valid { IsMap K.number_of K.is_valid self.now }
    {
        Keys { pairs: self.iter() }
    }

    /// An iterator over the values by reference, in iteration order. Neither this call nor a step
    /// of the iterator fails.
    pub fn values(&self) -> Values<'_, K, V, A>
        ensures walk { result ≡ values_of self.now.walk }
        ensures len { length result ≡ length self.now.walk }
        ensures runs { ShowsEach (shown {X = V}) }
        ensures valid { IsMap K.number_of K.is_valid self.now }
    {
        Values { pairs: self.iter() }
    }
}

impl<'a, K: IntKey, V, A: Allocator + Copy> IntoIterator for &'a IntMap<K, V, A> {
    type Item = (&'a K, &'a V);

    type IntoIter = Iter<'a, K, V, A>;

    ghost into_iter_gives = { λ map it. it ≡ map.now.walk };

    /// The pairs by reference, as by [`iter`](IntMap::iter).
    fn into_iter(self) -> Iter<'a, K, V, A>
        ensures into_iter_gives { result ≡ self.now.walk }
        ensures valid { IsMap K.number_of K.is_valid self.now }
    {
        self.iter()
    }
}
