//! Removals.
ghost use Rattle.std.specs.Prelude.{◌≡◌, ◌+◌, Bool, None, Some, IfNone, IfSome, MatchOption, cond, filter, is_some, length, ◌⊎◌, ◌≤◌};
ghost use Rattle.std.specs.Option.{option_map};
ghost use Rattle.std.specs.Iterator.{YieldsFirst};
ghost use Rattle.intmap_table.specs.Bindings.{value_of, Updates};
ghost use Rattle.intmap_table.specs.Classes.{slot_number};
ghost use Rattle.intmap.specs.Map.{IsMap, after_remove, emptied, with_walk};
ghost use Rattle.intmap_table.specs.Walk.{ArePassed};
ghost use Rattle.intmap_table.specs.Fronts.{IsFront};
ghost use Rattle.intmap_table.specs.Retaining.{KeepsAt, Retains, TakesPair};
ghost use Rattle.intmap_table.specs.Taking.{TakesEach};
ghost use Rattle.intmap.specs.Answering.{AnswersKey, AnswersPair, TestsPairs};

use crate::map::IntMap;
use intmap_table::IntKey;
use intmap_table::table::front::Front;
use std::alloc::Allocator;

impl<K: IntKey, V, A: Allocator + Copy> IntMap<K, V, A> {
    /// Removes the pair of the key and returns its value, or `None` if the key is absent. The last
    /// pair of the slot takes the place of the removed one. It never fails.
    ///
    /// ```text
    /// let mut map = IntMap::from_array(alloc, [(0, 10), (4, 14), (8, 18)])?;
    /// map.remove(0)    // Some(10)
    /// map              // {8: 18, 4: 14}
    /// map.remove(0)    // None
    /// ```
    #[inline(always)]
    pub fn remove(&mut self, key: K) -> Option<V>
        ensures value { result ≡ value_of K.number_of self.old.walk key }
        ensures state { self.new ≡ after_remove K.number_of self.old key }
        ensures absent { result ≡ None → self.new.walk ≡ self.old.walk }
        ensures updates { Updates K.number_of self.old.walk self.new.walk key None }
        ensures len { length self.new.walk + cond (is_some result) 1 0 ≡ length self.old.walk }
        ensures valid { IsMap K.number_of K.is_valid self.old }
        ensures valid_after { IsMap K.number_of K.is_valid self.new }
    {
        let Some(kept) = self.table.remove(key, &mut self.compared) else {
            return None;
        };
        self.len -= 1;
        Some(kept.into_value())
    }

    /// The same as [`remove`](IntMap::remove), but it returns the key beside its value. It never
    /// fails.
    ///
    /// ```text
    /// let mut map = IntMap::from_array(alloc, [(0, 10), (4, 14), (8, 18)])?;
    /// map.remove_entry(0)    // Some((0, 10))
    /// map                    // {8: 18, 4: 14}
    /// map.remove_entry(0)    // None
    /// ```
    pub fn remove_entry(&mut self, key: K) -> Option<(K, V)>
        ensures key { IfSome result (λ pair. pair.0 ≡ key) }
        ensures value { option_map (λ pair. pair.1) result
            ≡ value_of K.number_of self.old.walk key }
        ensures state { self.new ≡ after_remove K.number_of self.old key }
        ensures absent { result ≡ None → self.new.walk ≡ self.old.walk }
        ensures updates { Updates K.number_of self.old.walk self.new.walk key None }
        ensures len { length self.new.walk + cond (is_some result) 1 0 ≡ length self.old.walk }
        ensures valid { IsMap K.number_of K.is_valid self.old }
        ensures valid_after { IsMap K.number_of K.is_valid self.new }
    {
        let value = self.remove(key)?;
        Some((key, value))
    }

    /// Removes the first pair of the walk and returns it, or `None` if there is none. It serves a
    /// type that holds a map and has an iterator of its own; [`drain`](IntMap::drain) is the
    /// map's own.
    ///
    /// The search begins at the slot number `from`. No slot before it may hold a pair, so begin
    /// with 0. The call sets `from` to the number of the slot that held the pair, so the next call
    /// goes on from there. If there is no pair, `from` stays.
    ///
    /// The other pairs of the slot move up by one place. It allocates nothing and never fails. Its
    /// time doesn't depend on how many pairs share the slot.
    ///
    /// ```text
    /// let mut map = IntMap::from_array(alloc, [(0, 10), (4, 14), (2, 12)])?;
    /// let mut from = 0;
    /// map.take_front(&mut from)    // Some((0, 10))
    /// map.take_front(&mut from)    // Some((4, 14))
    /// from                         // 0
    /// map.take_front(&mut from)    // Some((2, 12))
    /// from                         // 2
    /// ```
    #[inline(always)]
    pub fn take_front(&mut self, from: &mut usize) -> Option<(K, V)>
        requires { ArePassed K.number_of self.old.walk self.old.capacity from.old }
        ensures first { YieldsFirst (λ m. m.walk) self.old result self.new }
        ensures state { self.new ≡ with_walk self.old self.new.walk }
        ensures updates { MatchOption result (self.new.walk ≡ self.old.walk)
            (λ pair. Updates K.number_of self.old.walk self.new.walk pair.0 None) }
        ensures len { length self.new.walk + cond (is_some result) 1 0 ≡ length self.old.walk }
        ensures passed { ArePassed K.number_of self.new.walk self.new.capacity from.new }
        ensures slot { IfSome result
            (λ pair. from.new ≡ slot_number K.number_of pair.0 self.old.capacity) }
        ensures stays { IfNone result (from.new ≡ from.old) }
        ensures valid { IsMap K.number_of K.is_valid self.old }
        ensures valid_after { IsMap K.number_of K.is_valid self.new }
    {
        let Some((key, kept)) = self.table.take_front(from) else {
            return None;
        };
        self.len -= 1;
        Some((key, kept.into_value()))
    }

    /// Removes the first pair of the walk and returns it. All pairs before the front were taken.
    #[inline(always)]
    pub(crate) fn take_next(&mut self, front: &mut Front) -> Option<(K, V)>
        requires { IsFront K.number_of self.old.walk self.old.capacity front.old }
        ensures first { YieldsFirst (λ m. m.walk) self.old result self.new }
        ensures state { self.new ≡ with_walk self.old self.new.walk }
        ensures passed { IsFront K.number_of self.new.walk self.new.capacity front.new }
    {
        let Some((key, kept)) = self.table.take_next(front) else {
            return None;
        };
        self.len -= 1;
        Some((key, kept.into_value()))
    }
}

impl<K: IntKey, V: Drop, A: Allocator + Copy> IntMap<K, V, A> {
    /// Drops all pairs, in iteration order. The capacity, the load factor and both counts stay, and
    /// the map keeps its memory for later pairs. It goes through the slots that hold a pair, and
    /// never fails.
    ///
    /// ```text
    /// let mut map = IntMap::with_capacity(alloc, 128)?;
    /// map.insert(21, 'a')?;
    /// map.clear();
    /// map               // {}
    /// map.capacity()    // 128
    /// ```
    pub fn clear(&mut self)
        ensures state { self.new ≡ emptied self.old }
        ensures updates { (q : K) → value_of K.number_of self.new.walk q ≡ None }
        ensures len { length self.new.walk ≡ 0 }
        ensures valid { IsMap K.number_of K.is_valid self.old }
        ensures valid_after { IsMap K.number_of K.is_valid self.new }
    {
        self.table.clear();
        self.len = 0;
    }
}

impl<K: IntKey, V: Drop, A: Allocator + Copy> IntMap<K, V, A> {
    /// Keeps the pairs for which the closure returns true, and drops the others. The closure is
    /// called once for each pair, in iteration order, with the key and a reference to the value.
    /// The next call sees what this one changed of the closure's state.
    ///
    /// The closure must be callable at these pairs in this order, each time in the state that the
    /// call before left. Nothing is required of other keys, values and calls.
    ///
    /// The pairs that stay keep their order. The capacity, the load factor and both counts stay,
    /// and the map keeps its memory for later pairs. It never fails and allocates nothing. Apart
    /// from the calls of the closure, its time grows with the numbers of pairs and slots, however
    /// many pairs share a slot.
    ///
    /// ```text
    /// let mut map = IntMap::from_array(alloc, [(0, 10), (1, 11), (4, 14)])?;
    /// map.retain(|key, _| key != 0);
    /// map    // {4: 14, 1: 11}
    /// map.retain(|_, value| *value > 11);
    /// map    // {4: 14}
    /// ```
    pub fn retain<F: FnMut(K, &V) -> bool>(&mut self, f: F)
        requires { TakesEach (KeepsAt F.FnMut) (TakesPair F.FnMut) f self.old.walk }
        // what stays if the closure answers alike in each call; the search reads these in this
        // order
        ensures by_pair { (q : K) (v : V) (b : Bool) → AnswersPair F.FnMut f K.number_of q v b
            → value_of K.number_of self.old.walk q ≡ Some v
            → value_of K.number_of self.new.walk q ≡ cond b (Some v) None }
        ensures by_key { (q : K) (b : Bool) → AnswersKey {V = V} F.FnMut f K.number_of q b
            → value_of K.number_of self.new.walk q
            ≡ cond b (value_of K.number_of self.old.walk q) None }
        ensures filtered { (test : K × V → Bool) → TestsPairs F.FnMut f test
            → self.new.walk ≡ filter test self.old.walk }

        // what stays of any closure
        ensures pairs { (last : F) × Retains (KeepsAt F.FnMut) f self.old.walk self.new.walk last }
        ensures state { self.new ≡ record self.old { walk = self.new.walk } }
        ensures updates { (q : K)
            → (value_of K.number_of self.new.walk q ≡ value_of K.number_of self.old.walk q)
            ⊎ (value_of K.number_of self.new.walk q ≡ None) }
        ensures len { length self.new.walk ≤ length self.old.walk }

        ensures valid { IsMap K.number_of K.is_valid self.old }
        ensures valid_after { IsMap K.number_of K.is_valid self.new }
    {
        let mut f = f;
        self.len = self.table.retain(&mut f);
    }
}
