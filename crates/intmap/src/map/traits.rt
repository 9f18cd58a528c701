//! Equality of maps, their text, and clones.
ghost use Rattle.intmap.specs.Equality.{maps_equal};
ghost use Rattle.intmap.specs.Laws.EqualityLaws.{IsPartialEquivalence-maps_equal, IsEquivalence-maps_equal};
ghost use Rattle.std.specs.Prelude.{◌≡◌, length, IfOk, IfErr};
ghost use Rattle.std.specs.Map.{keys_of};
ghost use Rattle.intmap.specs.Cloning.{IsClone};
ghost use Rattle.intmap_table.specs.Cloning.{BindsClones};
ghost use Rattle.intmap.specs.Map.{IsMap};

use crate::map::IntMap;
use crate::refusal::Cause;
use intmap_table::IntKey;
use intmap_table::steps::Steps;
use std::alloc::{AllocError, Allocator};
use std::fmt;

impl<K: IntKey, V: PartialEq, A: Allocator + Copy> PartialEq for IntMap<K, V, A> {
    ghost eq = { maps_equal K.number_of V.eq };

    ghost laws = { IsPartialEquivalence-maps_equal K.number_of V.eq V.laws };

    /// Whether both maps have the same keys, each with equal values. The order of the pairs, the
    /// capacities, the load factors and the counts don't matter.
    ///
    /// The lengths are compared first. If they are equal, each key of this map is looked up in the
    /// other, in iteration order, up to the first that is absent there or has an unequal value. It
    /// never fails, and its comparisons of keys aren't counted.
    ///
    /// ```text
    /// let map = IntMap::from_array(alloc, [(0, 10), (4, 14)])?;
    /// map == IntMap::from_array(alloc, [(4, 14), (0, 10)])?             // true
    /// map == IntMap::from_array(alloc, [(4, 15), (0, 10)])?             // false
    /// map == IntMap::from_array(alloc, [(4, 14), (0, 10), (1, 11)])?    // false
    /// ```
    fn eq(&self, other: &IntMap<K, V, A>) -> bool {
        if self.len() != other.len() {
            return false;
        }
        for (key, value) in self {
            match other.get(*key) {
                Some(theirs) => {
                    if value != theirs {
                        return false;
                    }
                }
                None => return false,
            }
        }
        true
    }
}

impl<K: IntKey, V: Eq, A: Allocator + Copy> Eq for IntMap<K, V, A> {
    ghost laws = { IsEquivalence-maps_equal K.number_of V.eq V.Eq.laws };
}

impl<K: IntKey + fmt::Debug, V: fmt::Debug, A: Allocator + Copy> fmt::Debug for IntMap<K, V, A> {
    /// Writes the pairs in iteration order, as `{21: 'a', 3: 'b'}`, or `{}` if there is none. It
    /// ignores the flags of the format. It fails only if writing fails.
    fn fmt<W: fmt::Write>(&self, f: &mut fmt::Formatter<W>) -> fmt::Result {
        f.write_str("{")?;
        let mut first = true;
        for (key, value) in self {
            if !first {
                f.write_str(", ")?;
            }
            first = false;
            write!(f, "{key:?}: {value:?}")?;
        }
        f.write_str("}")
    }
}

impl<K: IntKey, V: Clone, A: Allocator + Copy> IntMap<K, V, A> {
    /// A map with the same keys in the same order, each with a clone of its value, and with the
    /// same capacity and load factor. Its own counts begin at zero. This map stays as it is. No key
    /// is compared. Time and memory grow with the number of slots and of pairs.
    ///
    /// It first allocates the slots, their bits and, if pairs share slots, room for exactly the
    /// pairs behind the first ones of their slots. Then it clones the values, in iteration order.
    ///
    /// It fails only with [`Cause::Memory`], if one of these allocations or the clone of a value
    /// fails. What was made until then is dropped.
    ///
    /// ```text
    /// let map = IntMap::from_array(alloc, [(0, 10), (1, 11), (4, 14)])?;
    /// map.clone()    // Ok({0: 10, 4: 14, 1: 11})
    /// ```
    pub fn clone(&self) -> Result<IntMap<K, V, A>, Cause>
        ensures clone { IfOk result (IsClone V.is_clone self.now) }
        ensures keys { IfOk result (λ made. keys_of made.walk ≡ keys_of self.now.walk) }
        ensures values { IfOk result
            (λ made. BindsClones K.number_of V.is_clone self.now.walk made.walk) }
        ensures len { IfOk result (λ made. length made.walk ≡ length self.now.walk) }
        ensures memory { IfErr result (λ cause. cause ≡ Cause.Memory) }
        ensures valid { IsMap K.number_of K.is_valid self.now }
        ensures valid_after { IfOk result (IsMap K.number_of K.is_valid) }
    {
        let Ok(table) = self.table.clone() else {
            return Err(Cause::Memory);
        };
        Ok(IntMap {
            table,
            len: self.len,
            threshold: self.threshold,
            factor: self.factor,
            placed: Steps::new(),
            compared: Steps::new(),
            reserved: Steps::new(),
        })
    }
}

impl<K: IntKey, V: Clone, A: Allocator + Copy> Clone for IntMap<K, V, A> {
    ghost is_clone = { λ map made. IsClone V.is_clone map made };

    /// The map that the call [`clone`](IntMap::clone) makes, for code that is generic over `Clone`,
    /// and for `derive(Clone)`. It fails if that call does.
    fn clone(&self) -> Result<IntMap<K, V, A>, AllocError> {
        match IntMap::clone(self) {
            Ok(made) => Ok(made),
            Err(_) => Err(AllocError),
        }
    }
}
