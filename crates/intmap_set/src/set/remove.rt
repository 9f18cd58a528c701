//! Removals.
ghost use Rattle.std.specs.Prelude.{◌≡◌, ◌+◌, ◌⊎◌, ◌≤◌, ◌&&◌, Bool, false, cond, filter, [], length};
ghost use Rattle.intmap.specs.Retaining.{Retains};
ghost use Rattle.intmap.specs.Taking.{TakesEach};
ghost use Rattle.std.specs.Iterator.{YieldsFirst};
ghost use Rattle.intmap.specs.Map.{after_remove};
ghost use Rattle.intmap.specs.Walk.{ArePassed};
ghost use Rattle.intmap_set.specs.Sets.{IsSet, Updates, as_map, holds, paired, set_of};
ghost use Rattle.intmap_set.specs.Retaining.{AnswersMember, KeepsKey, TakesKey, TestsKeys};

use crate::set::IntSet;
use intmap::IntKey;
use std::alloc::Allocator;

impl<K: IntKey, A: Allocator + Copy> IntSet<K, A> {
    /// Removes the key, and returns whether it was a member. The last member of the slot takes its
    /// place. Its search is counted, whether the key was a member or not. It never fails.
    ///
    /// ```text
    /// let mut set = IntSet::from_iter(alloc, [0, 4, 8].into_iter())?;
    /// set.remove(0)    // true
    /// set              // {8, 4}
    /// set.remove(0)    // false
    /// ```
    pub fn remove(&mut self, key: K) -> bool
        ensures value { result ≡ holds K.number_of self.old.walk key }
        ensures state { self.new ≡ set_of (after_remove K.number_of (as_map self.old) key) }
        ensures absent { result ≡ false → self.new.walk ≡ self.old.walk }
        ensures updates { Updates K.number_of self.old.walk self.new.walk key false }
        ensures len { length self.new.walk + cond result 1 0 ≡ length self.old.walk }
        ensures valid { IsSet K.number_of K.is_valid self.old }
        ensures valid_after { IsSet K.number_of K.is_valid self.new }
    {
        self.map.remove(key).is_some()
    }

    /// Removes the first member of the walk and returns it. No slot before `from` holds a member;
    /// `from` moves on to the slot that held the removed one.
    pub(crate) fn take_front(&mut self, from: &mut usize) -> Option<K>
        requires { ArePassed K.number_of (paired self.old.walk) self.old.capacity from.old }
        ensures first { YieldsFirst (λ s. s.walk) self.old result self.new }
        ensures state { self.new ≡ record self.old { walk = self.new.walk } }
        ensures passed { ArePassed K.number_of (paired self.new.walk) self.new.capacity from.new }
        ensures valid { IsSet K.number_of K.is_valid self.old }
        ensures valid_after { IsSet K.number_of K.is_valid self.new }
    {
        let (key, ()) = self.map.take_front(from)?;
        Some(key)
    }

    /// Removes all members. The capacity, the load factor and both counts stay, and the set keeps
    /// its memory for later members. It goes through the slots that hold a member, and never fails.
    pub fn clear(&mut self)
        ensures state { self.new ≡ record self.old { walk = [] } }
        ensures updates { (q : K) → holds K.number_of self.new.walk q ≡ false }
        ensures len { length self.new.walk ≡ 0 }
        ensures valid { IsSet K.number_of K.is_valid self.old }
        ensures valid_after { IsSet K.number_of K.is_valid self.new }
    {
        self.map.clear();
    }

    /// Keeps the members for which the closure returns true, and removes the others. The closure is
    /// called once for each member, in iteration order. The next call sees what this one changed of
    /// the closure's state.
    ///
    /// The closure must be callable at these members in this order, each time in the state that the
    /// call before left. Nothing is required of other keys and calls.
    ///
    /// The members that stay keep their order. The capacity, the load factor and both counts stay,
    /// and the set keeps its memory for later members. It never fails and allocates nothing.
    ///
    /// ```text
    /// let mut set = IntSet::from_iter(alloc, [0, 1, 4].into_iter())?;
    /// set.retain(|key| key != 0);
    /// set    // {4, 1}
    /// ```
    pub fn retain<F: FnMut(K) -> bool>(&mut self, f: F)
        requires { TakesEach (KeepsKey F.FnMut) (TakesKey F.FnMut) f self.old.walk }
        // what stays if the closure answers alike in each call
        ensures by_key { (q : K) (b : Bool) → AnswersMember F.FnMut f K.number_of q b
            → holds K.number_of self.new.walk q ≡ (b && holds K.number_of self.old.walk q) }
        ensures filtered { (test : K → Bool) → TestsKeys F.FnMut f test
            → self.new.walk ≡ filter test self.old.walk }

        // what stays of any closure
        ensures keys { (last : F) × Retains (KeepsKey F.FnMut) f self.old.walk self.new.walk last }
        ensures state { self.new ≡ record self.old { walk = self.new.walk } }
        ensures updates { (q : K)
            → (holds K.number_of self.new.walk q ≡ holds K.number_of self.old.walk q)
            ⊎ (holds K.number_of self.new.walk q ≡ false) }
        ensures len { length self.new.walk ≤ length self.old.walk }

        ensures valid { IsSet K.number_of K.is_valid self.old }
        ensures valid_after { IsSet K.number_of K.is_valid self.new }
    {
        let mut f = f;
        self.map.retain(
            move |key, _|
                requires { F.pre f key }
                ensures { F.step f.entry key result f.exit }
            { f(key) },
        );
    }
}
