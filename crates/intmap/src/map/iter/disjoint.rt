//! The values of several keys at once, by mutable reference, and the loan of these values on which
//! that stands.
ghost use Rattle.std.specs.Iterator.{YieldsFirstBy, item_count};
ghost use Rattle.std.specs.Prelude.{◌≡◌, ◌+◌, ◌↔◌, IsTrue, List, length, map, take, drop};
ghost use Rattle.std.specs.Borrow.{sem};
ghost use Rattle.std.specs.List.{sum_by};
ghost use Rattle.std.specs.Map.{keys_of};
ghost use Rattle.std.specs.Option.{option_copied_mut};
ghost use Rattle.intmap.specs.Disjoint.{AreDistinct, IsNoneOf, left_values, present_values, write_each, written_each};
ghost use Rattle.intmap.specs.Lending.{map_lends_each};
ghost use Rattle.intmap.specs.Map.{IsMap};
ghost use Rattle.intmap_table.specs.Bindings.{value_of};
ghost use Rattle.intmap_table.specs.Reach.{reach};
ghost use Rattle.intmap_table.specs.Values.{lent_pairs};

use crate::map::IntMap;
use intmap_table::IntKey;
use intmap_table::lent::{Hole, Lent};
use intmap_table::steps::Steps;
use intmap_table::table::Table;
use std::alloc::{Allocator, Global};
use std::iter::FusedIterator;
use std::marker::{Model, PhantomData};

/// The values of several keys by mutable reference, made by
/// [`IntMap::get_disjoint_mut`](crate::IntMap::get_disjoint_mut). Contracts see it as a
/// [`DisjointState`](../specs/Disjoint.antt): the walk and the capacity of the map, the keys that
/// are left, and the name of the loan of all these values.
#[derive(Drop)]
pub struct DisjointMut<'a, K: IntKey, V, A: Allocator + Copy = Global> {
    table: &'a Table<K, Hole<V>, A>,
    keys: &'a [K],
    lent: Lent<'a, V>,
}

// Invariant: what is lent are the values of those of the keys that are present, in the order of the
// keys.
impl<'a, K: IntKey, V, A: Allocator + Copy> Model for DisjointMut<'a, K, V, A> {
    ghost use Rattle.std.specs.Prelude.{◌≡◌};
    ghost use Rattle.intmap.specs.Disjoint.{DisjointState, present_values};
    ghost use Rattle.intmap_table.specs.Values.{lent_pairs};

    ghost Value = { DisjointState K V };

    ghost view = { λ it. record {
      walk = lent_pairs it.table.now.walk;
      capacity = it.table.now.capacity;
      keys = it.keys.now;
      loan = it.lent.behind;
    } };

    ghost invariant = { λ it. it.lent.cells
        ≡ present_values K.number_of it.table.now.walk it.keys.now };
}

impl<'a, K: IntKey, V, A: Allocator + Copy> DisjointMut<'a, K, V, A> {
    /// The same as `next`, but each comparison of a stored key with the sought one is counted in
    /// `steps`, as by [`IntMap::get_counted`](crate::IntMap::get_counted). It never fails.
    ///
    /// ```text
    /// let mut map = IntMap::from_array(alloc, [(0, 10), (4, 14), (8, 18)])?;
    /// let mut steps = Steps::new();
    /// let mut values = map.get_disjoint_mut(&[4, 12]);
    /// // 2 steps: 0 and 4 are compared
    /// values.next_counted(&mut steps)    // Some(Some(14))
    /// // 3 steps: 12 would share their slot
    /// values.next_counted(&mut steps)    // Some(None)
    /// ```
    pub fn next_counted(&mut self, steps: &mut Steps) -> Option<Option<&'a mut V>>
        ensures value { YieldsFirstBy option_copied_mut (left_values K.number_of) self.old result
            self.new }
        ensures walk { self.new.walk ≡ self.old.walk }
        ensures capacity { self.new.capacity ≡ self.old.capacity }
        ensures left { self.new.keys ≡ drop 1 self.old.keys }
        ensures counted { steps.new ≡ steps.old
            + sum_by (reach K.number_of self.old.walk self.old.capacity) (take 1 self.old.keys) }
    {
        let (key, rest) = self.keys.split_first()?;
        self.keys = rest;
        match self.table.pair_of(*key, steps) {
            Some((_, hole)) => Some(Some(self.lent.next_mut(hole))),
            None => Some(None),
        }
    }
}

impl<'a, K: IntKey, V, A: Allocator + Copy> Iterator for DisjointMut<'a, K, V, A> {
    type Item = Option<&'a mut V>;

    ghost next_gives = { YieldsFirstBy option_copied_mut (left_values K.number_of) };

    ghost remaining = { item_count (left_values K.number_of) };

    fn next(&mut self) -> Option<Option<&'a mut V>> {
        let mut steps = Steps::new();
        self.next_counted(&mut steps)
    }

    fn size_hint(&self) -> (usize, Option<usize>) {
        (self.keys.len(), Some(self.keys.len()))
    }
}

impl<'a, K: IntKey, V, A: Allocator + Copy> FusedIterator for DisjointMut<'a, K, V, A> {}

impl<K: IntKey, V, A: Allocator + Copy> IntMap<K, V, A> {
    /// Lends the values of these keys, in the order of the keys, and shares the keys of the map and
    /// where the values lie.
    fn lend_each<'a>(&'a mut self, keys: &'a [K]) -> (&'a Table<K, Hole<V>, A>, Lent<'a, V>)
        requires { AreDistinct K.number_of keys.now }
        ensures* writes_back { sem 𝓛 (map_lends_each K.row V.row A.row K.IntKey.own K.PartialEq
            A.Allocator self.entry keys.now result.1.behind) }
        ensures holes { (lent_pairs result.0.now.walk ≡ self.old.walk)
            × (result.0.now.capacity ≡ self.old.capacity)
            × (result.1.cells ≡ present_values K.number_of result.0.now.walk keys.now)
            × IsMap K.number_of K.is_valid self.old }
    {
        let table = &raw mut self.table as *const Table<K, Hole<V>, A>;
        (unsafe { &*table }, Lent { mark: PhantomData })
    }

    /// The values of several keys at once, by mutable reference: an iterator that gives one for
    /// each key, in the order of the keys, or `None` if the key is absent. No two of the keys may
    /// have the same number.
    ///
    /// It allocates nothing. Neither this call nor a step of the iterator fails. This call compares
    /// no key. A step looks its key up as [`get`](IntMap::get) does, and
    /// [`DisjointMut::next_counted`](crate::iter::DisjointMut::next_counted) counts the
    /// comparisons.
    ///
    /// However far the iterator gets, and even if it is forgotten, each other key keeps its value,
    /// and the keys, their order, the length, the capacity, the load factor and both counts are
    /// what they were. No clause says which values these keys have then.
    ///
    /// ```text
    /// let mut map = IntMap::from_array(alloc, [(21, 5), (22, 6)])?;
    /// let mut values = map.get_disjoint_mut(&[22, 21, 23]);
    /// if let (Some(Some(one)), Some(Some(other))) = (values.next(), values.next()) {
    ///     swap(one, other);
    /// }
    /// values.next()    // Some(None)
    /// drop(values);
    /// map              // {22: 5, 21: 6}
    /// ```
    pub fn get_disjoint_mut<'a>(&'a mut self, keys: &'a [K]) -> DisjointMut<'a, K, V, A>
        requires { AreDistinct K.number_of keys.now }
        ensures* writes_back { sem 𝓛 (map_lends_each K.row V.row A.row K.IntKey.own K.PartialEq
            A.Allocator self.entry keys.now result.loan) }
        ensures walk { result.walk ≡ self.old.walk }
        ensures capacity { result.capacity ≡ self.old.capacity }
        ensures left { result.keys ≡ keys.now }
        ensures value { left_values K.number_of result
            ≡ map (value_of K.number_of self.old.walk) keys.now }
        ensures updates { (vs : List V) (q : K) → IsNoneOf K.number_of keys.now q
            → value_of K.number_of (write_each K.number_of self.old.walk keys.now vs) q
            ≡ value_of K.number_of self.old.walk q }
        ensures keys { (vs : List V) → keys_of (write_each K.number_of self.old.walk keys.now vs)
            ≡ keys_of self.old.walk }
        ensures len { (vs : List V)
            → length (write_each K.number_of self.old.walk keys.now vs) ≡ length self.old.walk }
        ensures valid { IsMap K.number_of K.is_valid self.old }
        ensures valid_after { (vs : List V) → IsMap K.number_of K.is_valid
            (written_each K.number_of self.old keys.now vs) }
    {
        let (table, lent) = self.lend_each(keys);
        DisjointMut { table, keys, lent }
    }
}

/// Whether no two of the keys have the same number. Such keys may be passed to
/// [`IntMap::get_disjoint_mut`](crate::IntMap::get_disjoint_mut). `are_distinct` compares each key
/// with those behind it. It allocates nothing and never fails.
///
/// ```text
/// are_distinct(&[22, 21, 23])    // true
/// are_distinct(&[22, 21, 22])    // false
/// ```
pub fn are_distinct<K: IntKey>(keys: &[K]) -> bool
    ensures value { IsTrue result ↔ AreDistinct K.number_of keys.now }
{
    let mut left = keys;
    while let Some((key, behind)) = left.split_first() {
        let number = key.number();
        if behind.iter().any(|other| other.number() == number) {
            return false;
        }
        left = behind;
    }
    true
}
