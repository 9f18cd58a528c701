//! Look-ups.
ghost use Rattle.std.specs.Prelude.{◌≡◌, ◌+◌, Contains, Some, IfSome, is_some, length, option_copied};
ghost use Rattle.std.specs.List.{IsAmong, slice_get};
ghost use Rattle.std.specs.Map.{values_of};
ghost use Rattle.std.specs.Option.{option_map};
ghost use Rattle.intmap_table.specs.Bindings.{value_of, write_value, IsPresent, Updates};
ghost use Rattle.intmap_table.specs.Reach.{reach};
ghost use Rattle.intmap.specs.Map.{IsMap, after_search, written};

use crate::map::IntMap;
use intmap_table::IntKey;
use intmap_table::steps::Steps;
use std::alloc::Allocator;
use std::ops::Index;

impl<K: IntKey, V, A: Allocator + Copy> IntMap<K, V, A> {
    ghost use Rattle.std.specs.Borrow.{sem};
    ghost use Rattle.std.specs.Option.{option_copied_mut};
    ghost use Rattle.intmap.specs.Lending.{map_lends_present};

    /// The value of the key, or `None` if the key is absent. It never fails.
    ///
    /// ```text
    /// let map = IntMap::from_array(alloc, [(0, 10), (4, 14)])?;
    /// map.get(4)    // Some(14)
    /// map.get(8)    // None
    /// ```
    #[inline]
    pub fn get(&self, key: K) -> Option<&V>
        ensures value { option_copied result ≡ value_of K.number_of self.now.walk key }
        ensures member { IfSome result (λ value. IsAmong (values_of self.now.walk) value.now) }
        ensures valid { IsMap K.number_of K.is_valid self.now }
    {
        let mut steps = Steps::new();
        self.get_counted(key, &mut steps)
    }

    /// The first pair of the walk, or `None` if the map is empty. It never fails.
    ///
    /// ```text
    /// let map = IntMap::from_array(alloc, [(4, 14), (0, 10), (1, 11)])?;
    /// map.first_key_value()    // Some((4, 14))
    /// ```
    pub fn first_key_value(&self) -> Option<(&K, &V)>
        ensures value { option_map (λ pair. (pair.0.now, pair.1.now)) result
            ≡ slice_get self.now.walk 0 }
        ensures valid { IsMap K.number_of K.is_valid self.now }
    {
        self.iter().next()
    }

    /// The same as [`get`](IntMap::get), but each comparison of a stored key with the sought one is
    /// counted in `steps`. The keys that agree with the sought one modulo the capacity are compared
    /// in iteration order, up to the key itself. It never fails.
    ///
    /// ```text
    /// let map = IntMap::from_array(alloc, [(0, 10), (4, 14), (8, 18)])?;
    /// let mut steps = Steps::new();
    /// // 2 steps: 0 and 4 are compared
    /// map.get_counted(4, &mut steps)     // Some(14)
    /// // 3 steps: 12 would share their slot
    /// map.get_counted(12, &mut steps)    // None
    /// // no step
    /// map.get_counted(1, &mut steps)     // None
    /// ```
    #[inline(always)]
    pub fn get_counted(&self, key: K, steps: &mut Steps) -> Option<&V>
        ensures value { option_copied result ≡ value_of K.number_of self.now.walk key }
        ensures counted { steps.new
            ≡ steps.old + reach K.number_of self.now.walk self.now.capacity key }
        ensures valid { IsMap K.number_of K.is_valid self.now }
    {
        let Some((_, kept)) = self.table.pair_of(key, steps) else {
            return None;
        };
        Some(kept.get())
    }

    /// A mutable reference to the value of the key, or `None` if the key is absent. Only the count
    /// of compared keys changes besides that value. It never fails.
    ///
    /// ```text
    /// let mut map = IntMap::from_array(alloc, [(21, 5)])?;
    /// if let Some(value) = map.get_mut(21) {
    ///     *value += 1;
    /// }
    /// map    // {21: 6}
    /// ```
    #[inline]
    pub fn get_mut(&mut self, key: K) -> Option<&mut V>
        ensures* writes_back { sem 𝓛 (map_lends_present K.row V.row A.row K.IntKey.own K.PartialEq
            A.Allocator self.entry key result) }
        ensures value { option_copied_mut result ≡ value_of K.number_of self.old.walk key }
        ensures updates { IsPresent K.number_of self.old.walk key → (v : V)
            → Updates K.number_of self.old.walk (write_value K.number_of self.old.walk key v) key
            (Some v) }
        ensures len { (v : V)
            → length (write_value K.number_of self.old.walk key v) ≡ length self.old.walk }
        ensures valid { IsMap K.number_of K.is_valid self.old }
        ensures valid_after { (v : V) → IsMap K.number_of K.is_valid
            (written K.number_of (after_search K.number_of self.old key) key v) }
    {
        self.table.value_mut_of(key, &mut self.compared)
    }

    /// The key as the map holds it, with its value, or `None` if the key is absent. It never fails.
    ///
    /// ```text
    /// let map = IntMap::from_array(alloc, [(21, 'a')])?;
    /// map.get_key_value(21)    // Some((21, 'a'))
    /// ```
    pub fn get_key_value(&self, key: K) -> Option<(&K, &V)>
        ensures key { IfSome result (λ pair. pair.0.now ≡ key) }
        ensures value { option_map (λ pair. pair.1.now) result
            ≡ value_of K.number_of self.now.walk key }
        ensures by_pair { IfSome result
            (λ pair. Contains self.now.walk (pair.0.now, pair.1.now)) }
        ensures valid { IsMap K.number_of K.is_valid self.now }
    {
        let mut steps = Steps::new();
        let Some((found, kept)) = self.table.pair_of(key, &mut steps) else {
            return None;
        };
        Some((found, kept.get()))
    }

    /// Whether the key is present. It never fails.
    ///
    /// ```text
    /// let map = IntMap::from_array(alloc, [(21, 'a')])?;
    /// map.contains_key(21)    // true
    /// map.contains_key(22)    // false
    /// ```
    #[inline]
    pub fn contains_key(&self, key: K) -> bool
        ensures value { result ≡ is_some (value_of K.number_of self.now.walk key) }
        ensures valid { IsMap K.number_of K.is_valid self.now }
    {
        let mut steps = Steps::new();
        self.get_counted(key, &mut steps).is_some()
    }
}

impl<K: IntKey, V, A: Allocator + Copy> Index<K> for IntMap<K, V, A> {
    type Output = V;

    ghost can_index = { λ map key. IsPresent K.number_of map.walk key };

    ghost index_gives = { λ map key value. value_of K.number_of map.walk key ≡ Some value };

    /// The value of the key. The caller must know that the key is present: no program is built in
    /// which it may be absent.
    ///
    /// ```text
    /// let map = IntMap::from_array(alloc, [(21, 'a')])?;
    /// map[21]    // 'a'
    /// ```
    fn index(&self, key: K) -> &V {
        self.get(key).unwrap()
    }
}
