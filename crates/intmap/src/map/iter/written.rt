//! The pairs as an iterator with a mutable reference to each value, and the loan of all values on
//! which it stands.
ghost use Rattle.std.specs.Iterator.{YieldsFirstBy, item_count};
ghost use Rattle.std.specs.Prelude.{◌≡◌, List, length};
ghost use Rattle.std.specs.Borrow.{sem};
ghost use Rattle.std.specs.Map.{keys_of, values_of};
ghost use Rattle.intmap.specs.Lending.{map_lends_values};
ghost use Rattle.intmap.specs.Map.{IsMap, map_with_values};
ghost use Rattle.intmap_table.specs.Values.{lent_pairs, with_values};

use crate::map::IntMap;
use intmap_table::IntKey;
use intmap_table::lent::{Hole, Lent};
use intmap_table::table::{Pairs, Table};
use std::alloc::{Allocator, Global};
use std::marker::{Model, PhantomData};

/// The pairs of a map, each with a mutable reference to its value, made by
/// [`IntMap::iter_mut`](crate::IntMap::iter_mut). Contracts see it as the list of the pairs that
/// are left, with the name of the loan of all values.
#[derive(Drop)]
pub struct IterMut<'a, K: IntKey, V, A: Allocator + Copy = Global> {
    pub(crate) pairs: Pairs<'a, K, Hole<V>, A>,
    pub(crate) lent: Lent<'a, V>,
}

// Invariant: what is lent are the values of the pairs, in their order.
impl<'a, K: IntKey, V, A: Allocator + Copy> Model for IterMut<'a, K, V, A> {
    ghost use base.Fml.{GName};
    ghost use Rattle.std.specs.Prelude.{◌≡◌, List};
    ghost use Rattle.std.specs.Map.{values_of};
    ghost use Rattle.intmap_table.specs.Values.{lent_pairs};

    ghost Value = { List (K × V) × GName };

    ghost view = { λ it. (lent_pairs it.pairs, it.lent.behind) };

    ghost invariant = { λ it. it.lent.cells ≡ values_of it.pairs };
}

impl<'a, K: IntKey, V, A: Allocator + Copy> Iterator for IterMut<'a, K, V, A> {
    type Item = (&'a K, &'a mut V);

    ghost next_gives = { YieldsFirstBy (λ item. (item.0.now, item.1.now)) (λ it. it.0) };

    ghost remaining = { item_count (λ it. it.0) };

    fn next(&mut self) -> Option<(&'a K, &'a mut V)> {
        let (key, hole) = self.pairs.next()?;
        Some((key, self.lent.next_mut(hole)))
    }

    fn size_hint(&self) -> (usize, Option<usize>) {
        self.pairs.size_hint()
    }
}

impl<K: IntKey, V, A: Allocator + Copy> IntMap<K, V, A> {
    /// Lends the values, and shares the keys and where the values lie.
    fn lend<'a>(&'a mut self) -> (&'a Table<K, Hole<V>, A>, Lent<'a, V>)
        ensures* writes_back { sem 𝓛 (map_lends_values K.row V.row A.row K.IntKey.own K.PartialEq
            A.Allocator self.entry result.1.behind) }
        ensures holes { (lent_pairs result.0.now.walk ≡ self.old.walk)
            × (result.1.cells ≡ values_of result.0.now.walk)
            × IsMap K.number_of K.is_valid self.old }
    {
        let table = &raw mut self.table as *const Table<K, Hole<V>, A>;
        (unsafe { &*table }, Lent { mark: PhantomData })
    }

    /// An iterator over the pairs in iteration order, each with a mutable reference to its value.
    /// It allocates nothing. Neither this call nor a step of the iterator fails.
    ///
    /// However far the iterator gets, and even if it is forgotten, the keys, their order, the
    /// length, the capacity, the load factor and both counts are what they were. No clause says
    /// which values the map has then.
    ///
    /// ```text
    /// let mut map = IntMap::from_array(alloc, [(0, 10), (4, 14)])?;
    /// for (key, value) in map.iter_mut() {
    ///     *value = *key;
    /// }
    /// map    // {0: 0, 4: 4}
    /// ```
    pub fn iter_mut(&mut self) -> IterMut<'_, K, V, A>
        ensures* writes_back { sem 𝓛 (map_lends_values K.row V.row A.row K.IntKey.own K.PartialEq
            A.Allocator self.entry result.1) }
        ensures walk { result.0 ≡ self.old.walk }
        ensures keys { (vs : List V)
            → keys_of (with_values self.old.walk vs) ≡ keys_of self.old.walk }
        ensures len { (vs : List V) → length (with_values self.old.walk vs) ≡ length self.old.walk }
        ensures valid { IsMap K.number_of K.is_valid self.old }
        ensures valid_after { (vs : List V)
            → IsMap K.number_of K.is_valid (map_with_values self.old vs) }
    {
        let (table, lent) = self.lend();
        IterMut {
            pairs: table.pairs(),
            lent,
        }
    }
}
