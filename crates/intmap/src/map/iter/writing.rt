//! Writes to the values one after another: by an iterator over them, by a `for` loop over a `&mut`
//! to the map, and by a closure.
ghost use Rattle.std.specs.Iterator.{YieldsFirstBy, item_count};
ghost use Rattle.std.specs.Prelude.{◌≡◌, List, Some, length, map, ◌↔◌};
ghost use Rattle.std.specs.Borrow.{sem};
ghost use Rattle.std.specs.Map.{keys_of, values_of};
ghost use Rattle.intmap.specs.Lending.{map_lends_values};
ghost use Rattle.intmap.specs.Map.{IsMap, map_with_values};
ghost use Rattle.intmap_table.specs.Values.{with_values};
ghost use Rattle.intmap_table.specs.Bindings.{IsPresent, value_of};
ghost use Rattle.intmap_table.specs.Taking.{TakesEach};
ghost use Rattle.intmap_table.specs.Writes.{Writes, WritesAt, TakesPairMut};
ghost use Rattle.intmap.specs.Answering.{MakesPairs, MakesValue};

use crate::map::IntMap;
use crate::map::iter::IterMut;
use intmap_table::IntKey;
use std::alloc::{Allocator, Global};
use std::marker::Model;

/// The values of a map by mutable reference, made by
/// [`IntMap::values_mut`](crate::IntMap::values_mut). Contracts see it as the list of the values
/// that are left, with the name of the loan of all values.
#[derive(Drop)]
pub struct ValuesMut<'a, K: IntKey, V, A: Allocator + Copy = Global> {
    pub(crate) pairs: IterMut<'a, K, V, A>,
}

impl<'a, K: IntKey, V, A: Allocator + Copy> Model for ValuesMut<'a, K, V, A> {
    ghost use base.Fml.{GName};
    ghost use Rattle.std.specs.Prelude.{List};
    ghost use Rattle.std.specs.Map.{values_of};

    ghost Value = { List V × GName };

    ghost view = { λ it. (values_of it.pairs.0, it.pairs.1) };
}

impl<'a, K: IntKey, V, A: Allocator + Copy> Iterator for ValuesMut<'a, K, V, A> {
    type Item = &'a mut V;

    ghost next_gives = { YieldsFirstBy (λ value. value.now) (λ it. it.0) };

    ghost remaining = { item_count (λ it. it.0) };

    #[inline]
    fn next(&mut self) -> Option<&'a mut V> {
        let (_, value) = self.pairs.next()?;
        Some(value)
    }

    fn size_hint(&self) -> (usize, Option<usize>) {
        self.pairs.size_hint()
    }
}

impl<K: IntKey, V, A: Allocator + Copy> IntMap<K, V, A> {
    /// An iterator over the values in iteration order, by mutable reference. It allocates nothing.
    /// Neither this call nor a step of the iterator fails. It leaves the map as
    /// [`iter_mut`](IntMap::iter_mut) does.
    ///
    /// ```text
    /// let mut map = IntMap::from_array(alloc, [(0, 10), (4, 14)])?;
    /// for value in map.values_mut() {
    ///     *value += 1;
    /// }
    /// map    // {0: 11, 4: 15}
    /// ```
    pub fn values_mut(&mut self) -> ValuesMut<'_, K, V, A>
        ensures* writes_back { sem 𝓛 (map_lends_values K.row V.row A.row K.IntKey.own K.PartialEq
            A.Allocator self.entry result.1) }
        ensures walk { result.0 ≡ values_of self.old.walk }
        ensures keys { (vs : List V)
            → keys_of (with_values self.old.walk vs) ≡ keys_of self.old.walk }
        ensures len { (vs : List V) → length (with_values self.old.walk vs) ≡ length self.old.walk }
        ensures valid { IsMap K.number_of K.is_valid self.old }
        ensures valid_after { (vs : List V)
            → IsMap K.number_of K.is_valid (map_with_values self.old vs) }
    {
        ValuesMut {
            pairs: self.iter_mut(),
        }
    }
}

impl<'a, K: IntKey, V, A: Allocator + Copy> IntoIterator for &'a mut IntMap<K, V, A> {
    type Item = (&'a K, &'a mut V);

    type IntoIter = IterMut<'a, K, V, A>;

    ghost into_iter_gives = { λ map it. it.0 ≡ map.now.walk };

    /// The pairs, each with a mutable reference to its value, as by [`iter_mut`](IntMap::iter_mut).
    fn into_iter(self) -> IterMut<'a, K, V, A>
        ensures* writes_back { sem 𝓛 (map_lends_values K.row V.row A.row K.IntKey.own K.PartialEq
            A.Allocator self.entry result.1) }
        ensures into_iter_gives { result.0 ≡ self.old.walk }
        ensures keys { (vs : List V)
            → keys_of (with_values self.old.walk vs) ≡ keys_of self.old.walk }
        ensures len { (vs : List V) → length (with_values self.old.walk vs) ≡ length self.old.walk }
        ensures valid { IsMap K.number_of K.is_valid self.old }
        ensures valid_after { (vs : List V)
            → IsMap K.number_of K.is_valid (map_with_values self.old vs) }
    {
        self.iter_mut()
    }
}

impl<K: IntKey, V, A: Allocator + Copy> IntMap<K, V, A> {
    /// Calls the closure once for each pair, in iteration order, with the key and a mutable
    /// reference to the value. The next call sees what this one changed of the closure's state.
    ///
    /// The closure must be callable at these pairs in this order, each time in the state that the
    /// call before left. Nothing is required of other keys, values and calls.
    ///
    /// The keys, their order and their number stay, and so do the capacity, the load factor and
    /// both counts. No key is compared. It never fails and allocates nothing. Apart from the calls
    /// of the closure, its time grows with the number of pairs and, by one bit for each, the number
    /// of slots.
    ///
    /// ```text
    /// let mut map: IntMap<u64, u64> = IntMap::from_array(alloc, [(0, 10), (1, 11), (4, 14)])?;
    /// map.for_each_mut(|key, value| *value += key);
    /// map    // {0: 10, 4: 18, 1: 12}
    /// ```
    pub fn for_each_mut<F: FnMut(K, &mut V)>(&mut self, f: F)
        requires { TakesEach (WritesAt F.FnMut) (TakesPairMut F.FnMut) f self.old.walk }
        ensures mapped { (made : K × V → K × V) → MakesPairs F.FnMut f made
            → self.new.walk ≡ map made self.old.walk }
        ensures by_pair { (q : K) (v w : V) → MakesValue F.FnMut f K.number_of q v w
            → value_of K.number_of self.old.walk q ≡ Some v
            → value_of K.number_of self.new.walk q ≡ Some w }
        ensures values { (last : F) × Writes (WritesAt F.FnMut) f self.old.walk self.new.walk last }
        ensures state { self.new ≡ record self.old { walk = self.new.walk } }
        ensures keys { keys_of self.new.walk ≡ keys_of self.old.walk }
        ensures updates { (q : K)
            → IsPresent K.number_of self.new.walk q ↔ IsPresent K.number_of self.old.walk q }
        ensures len { length self.new.walk ≡ length self.old.walk }
        ensures valid { IsMap K.number_of K.is_valid self.old }
        ensures valid_after { IsMap K.number_of K.is_valid self.new }
    {
        let mut f = f;
        self.table.write_each(&mut f);
    }
}
