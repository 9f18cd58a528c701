//! The figures of a map's table: how full it is, and how its pairs lie in it.
ghost use Rattle.std.specs.Prelude.{◌≡◌, ℕ, ◌-◌, ◌^◌, ◌<◌, true, Some, List, [], ◌∷◌, ◌++◌, IfOk, IfErr, OnOk, length};
ghost use Rattle.intmap_table.specs.Bindings.{value_of};
ghost use Rattle.intmap.specs.Extending.{IsMadeOf, IsTally};
ghost use Rattle.intmap_table.specs.Figures.{load_of, rate_of, collisions_of};
ghost use Rattle.intmap.specs.Map.{IsMap, IsOutOfRange};

use crate::map::IntMap;
use crate::refusal::Cause;
use intmap_table::IntKey;
use std::alloc::Allocator;

impl<K: IntKey, V, A: Allocator + Copy> IntMap<K, V, A> {
    /// The number of slots that hold a pair, which is the number of different residues of the keys
    /// modulo the capacity. It counts bits, one for each slot, in words of 64. It never fails.
    ///
    /// ```text
    /// let map = IntMap::from_array(alloc, [(0, 10), (4, 14), (1, 11)])?;
    /// // 0 and 4 share one of the 4 slots
    /// map.load()    // 2
    /// ```
    pub fn load(&self) -> u64
        ensures value { result ≡ load_of K.number_of self.now.walk self.now.capacity }
        ensures valid { IsMap K.number_of K.is_valid self.now }
    {
        self.table.load() as u64
    }

    /// The number of pairs for each slot, in thousandths, rounded down. It never fails.
    ///
    /// ```text
    /// let mut map = IntMap::with_capacity(alloc, 128)?;
    /// map.extend((0..12).map(|key| (key, ())))?;
    /// map.load_rate()    // 93
    /// ```
    pub fn load_rate(&self) -> u128
        ensures value { result ≡ rate_of self.now.walk self.now.capacity }
        ensures valid { IsMap K.number_of K.is_valid self.now }
    {
        self.len as u128 * 1000 / self.table.capacity() as u128
    }

    /// Whether `len` is the number of pairs that the slots hold, which is always true. It goes
    /// through all pairs to count them, and never fails.
    pub fn assert_count(&self) -> bool
        ensures value { result ≡ true }
        ensures valid { IsMap K.number_of K.is_valid self.now }
    {
        self.iter().count() == self.len()
    }
}

impl<K: IntKey, V: Drop, A: Allocator + Copy> IntMap<K, V, A> {
    /// How many slots hold two pairs, how many three, and so on: a map from each number of pairs
    /// above 1 that a slot holds to the number of slots that hold exactly that many. These sizes
    /// are inserted into a new map as they are first met, slot after slot. This order determines
    /// its walk and its capacity.
    ///
    /// It fails only with [`Cause::Memory`], if an allocation for that map fails. It compares no
    /// key of this map, and its time grows with the numbers of slots and pairs.
    ///
    /// ```text
    /// let mut map = IntMap::new(alloc)?;
    /// map.set_load_factor(2000)?;
    /// map.extend([0, 4, 8, 1, 2, 6].into_iter().map(|key| (key, ())))?;
    /// map.capacity()      // 4
    /// map.load_rate()     // 1500
    /// map.collisions()    // Ok({2: 1, 3: 1})
    /// ```
    pub fn collisions(&self) -> Result<IntMap<u64, u64, A>, Cause>
        ensures sizes { IfOk result (IsMadeOf (λ size. size) (λ size. size < 2 ^ 64)
            (collisions_of K.number_of self.now.walk self.now.capacity)) }
        ensures bindings { IfOk result (λ made. (size : ℕ) → value_of (λ n. n) made.walk size
            ≡ value_of (λ n. n) (collisions_of K.number_of self.now.walk self.now.capacity) size) }
        ensures len { IfOk result (λ made. length made.walk
            ≡ length (collisions_of K.number_of self.now.walk self.now.capacity)) }
        ensures memory { IfErr result (λ cause. cause ≡ Cause.Memory) }
        ensures valid { IsMap K.number_of K.is_valid self.now }
        ensures valid_after { IfOk result (IsMap (λ size. size) (λ size. size < 2 ^ 64)) }
    {
        let mut sizes = IntMap::new(self.table.allocator())?;
        for slot in 0..self.table.capacity() {
            let size = self.table.slot_len(slot);
            if size > 1 {
                count_once_more(&mut sizes, size as u64)?;
            }
        }
        Ok(sizes)
    }
}

/// Adds one to the count of a number. The count of an absent number is 0.
fn count_once_more<A: Allocator + Copy>(
    counts: &mut IntMap<u64, u64, A>,
    number: u64,
) -> Result<(), Cause>
    requires below { (count : ℕ)
        → value_of (λ n. n) counts.old.walk number ≡ Some count → count < 2 ^ 64 - 1 }
    ensures counted { OnOk result
        ((ns : List ℕ) → IsTally ns counts.old → IsTally (ns ++ number ∷ []) counts.new) }
    ensures too_large { IfErr result (λ cause. cause ≡ Cause.TooLarge → IsOutOfRange (λ n. n)
        counts.old.walk counts.old.capacity counts.old.factor number) }
    ensures valid_after { IsMap (λ n. n) (λ n. n < 2 ^ 64) counts.new }
{
    if let Some(count) = counts.get_mut(number) {
        *count += 1;
        return Ok(());
    }
    counts.insert(number, 1)?;
    Ok(())
}
