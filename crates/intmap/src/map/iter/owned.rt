//! The iterators that own a map: they remove its pairs by value, from the front of the walk.
ghost use Rattle.std.specs.Iterator.{YieldsFirst, item_count};
ghost use Rattle.std.specs.Prelude.{◌≡◌, length};
ghost use Rattle.std.specs.Map.{keys_of, values_of};
ghost use Rattle.intmap.specs.Iterating.{GivesEach};
ghost use Rattle.intmap.specs.Map.{IsMap};

use crate::map::IntMap;
use intmap_table::IntKey;
use intmap_table::kept::Kept;
use intmap_table::table::owned::IntoPairs;
use std::alloc::{Allocator, Global};
use std::marker::Model;

/// The pairs of a map by value, made by [`IntMap::into_iter`](crate::IntMap::into_iter). Contracts
/// see it as the list of the pairs that are left.
#[derive(Drop)]
pub struct IntoIter<K: IntKey, V, A: Allocator + Copy = Global> {
    pairs: IntoPairs<K, Kept<V>, A>,
}

impl<K: IntKey, V, A: Allocator + Copy> Model for IntoIter<K, V, A> {
    ghost use Rattle.std.specs.Prelude.{List};

    ghost Value = { List (K × V) };

    ghost view = { λ it. it.pairs };
}

impl<K: IntKey, V: Drop, A: Allocator + Copy> Iterator for IntoIter<K, V, A> {
    type Item = (K, V);

    ghost next_gives = { YieldsFirst (λ rest. rest) };

    ghost remaining = { item_count (λ rest. rest) };

    #[inline]
    fn next(&mut self) -> Option<(K, V)> {
        let (key, kept) = self.pairs.next()?;
        Some((key, kept.into_value()))
    }
}

/// The keys of a map by value, made by [`IntMap::into_keys`](crate::IntMap::into_keys). Contracts
/// see it as the list of the keys that are left.
#[derive(Drop)]
pub struct IntoKeys<K: IntKey, V, A: Allocator + Copy = Global> {
    pairs: IntoIter<K, V, A>,
}

impl<K: IntKey, V, A: Allocator + Copy> Model for IntoKeys<K, V, A> {
    ghost use Rattle.std.specs.Prelude.{List};
    ghost use Rattle.std.specs.Map.{keys_of};

    ghost Value = { List K };

    ghost view = { λ it. keys_of it.pairs };
}

impl<K: IntKey, V: Drop, A: Allocator + Copy> Iterator for IntoKeys<K, V, A> {
    type Item = K;

    ghost next_gives = { YieldsFirst (λ rest. rest) };

    ghost remaining = { item_count (λ rest. rest) };

    #[inline]
    fn next(&mut self) -> Option<K> {
        let (key, _) = self.pairs.next()?;
        Some(key)
    }
}

/// The values of a map by value, made by [`IntMap::into_values`](crate::IntMap::into_values).
/// Contracts see it as the list of the values that are left.
#[derive(Drop)]
pub struct IntoValues<K: IntKey, V, A: Allocator + Copy = Global> {
    pairs: IntoIter<K, V, A>,
}

impl<K: IntKey, V, A: Allocator + Copy> Model for IntoValues<K, V, A> {
    ghost use Rattle.std.specs.Prelude.{List};
    ghost use Rattle.std.specs.Map.{values_of};

    ghost Value = { List V };

    ghost view = { λ it. values_of it.pairs };
}

impl<K: IntKey, V: Drop, A: Allocator + Copy> Iterator for IntoValues<K, V, A> {
    type Item = V;

    ghost next_gives = { YieldsFirst (λ rest. rest) };

    ghost remaining = { item_count (λ rest. rest) };

    #[inline]
    fn next(&mut self) -> Option<V> {
        let (_, value) = self.pairs.next()?;
        Some(value)
    }
}

impl<K: IntKey, V: Drop, A: Allocator + Copy> IntoIterator for IntMap<K, V, A> {
    type Item = (K, V);

    type IntoIter = IntoIter<K, V, A>;

    ghost into_iter_gives = { λ map it. it ≡ map.walk };

    /// An iterator over the pairs by value, in iteration order. Neither this call nor a step of the
    /// iterator fails. The time of a step doesn't depend on how many pairs share a slot. Dropping
    /// the iterator drops the pairs that are left.
    fn into_iter(self) -> IntoIter<K, V, A>
        ensures into_iter_gives { result ≡ self.walk }
        ensures runs { GivesEach (K × V) }
    {
        IntoIter {
            pairs: self.table.into_pairs(),
        }
    }
}

impl<K: IntKey, V: Drop, A: Allocator + Copy> IntMap<K, V, A> {
    /// An iterator over the keys by value, in iteration order, which consumes the map. Each step
    /// drops the value of the key that it returns. Dropping the iterator drops the values that are
    /// left. Neither this call nor a step of the iterator fails.
    ///
    /// ```text
    /// let map = IntMap::from_array(alloc, [(0, 'a'), (1, 'b'), (4, 'c')])?;
    /// map.into_keys().collect::<Vec<u64>>(alloc)?    // [0, 4, 1]
    /// ```
    pub fn into_keys(self) -> IntoKeys<K, V, A>
        ensures walk { result ≡ keys_of self.walk }
        ensures len { length result ≡ length self.walk }
        ensures runs { GivesEach K }
        ensures valid { IsMap K.number_of K.is_valid self }
    {
        self.known();
        IntoKeys {
            pairs: self.into_iter(),
        }
    }

    /// An iterator over the values by value, in iteration order, which consumes the map. Dropping
    /// the iterator drops the values that are left. Neither this call nor a step of the iterator
    /// fails.
    ///
    /// ```text
    /// let map = IntMap::from_array(alloc, [(0, 'a'), (1, 'b'), (4, 'c')])?;
    /// map.into_values().collect::<Vec<char>>(alloc)?    // ['a', 'c', 'b']
    /// ```
    pub fn into_values(self) -> IntoValues<K, V, A>
        ensures walk { result ≡ values_of self.walk }
        ensures len { length result ≡ length self.walk }
        ensures runs { GivesEach V }
        ensures valid { IsMap K.number_of K.is_valid self }
    {
        self.known();
        IntoValues {
            pairs: self.into_iter(),
        }
    }
}
