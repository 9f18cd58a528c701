//! Equality of sets, their text, and clones.
ghost use Rattle.std.specs.Prelude.{◌≡◌, length, IfOk, IfErr};
ghost use Rattle.std.specs.Cmp.{partial_equiv_from_equiv};
ghost use Rattle.intmap_set.specs.Sets.{IsSet};
ghost use Rattle.intmap_set.specs.Combined.{sets_equal};
ghost use Rattle.intmap_set.specs.EqualityLaws.{IsEquivalence-sets_equal};

use crate::set::IntSet;
use intmap::{Cause, IntKey};
use std::alloc::{AllocError, Allocator};
use std::fmt;

impl<K: IntKey, A: Allocator + Copy> PartialEq for IntSet<K, A> {
    ghost eq = { sets_equal K.number_of };

    ghost laws = { partial_equiv_from_equiv (IsEquivalence-sets_equal K.number_of) };

    /// Whether both sets have the same members. The order of the walks, the capacities and the
    /// counts don't matter. It never fails, and its comparisons of keys aren't counted.
    fn eq(&self, other: &IntSet<K, A>) -> bool {
        self.map == other.map
    }
}

impl<K: IntKey, A: Allocator + Copy> Eq for IntSet<K, A> {
    ghost laws = { IsEquivalence-sets_equal K.number_of };
}

impl<K: IntKey + fmt::Debug, A: Allocator + Copy> fmt::Debug for IntSet<K, A> {
    /// Writes the members in iteration order, as `{21, 3}`, or `{}` if there is none. It ignores
    /// the flags of the format. It fails only if writing fails.
    fn fmt<W: fmt::Write>(&self, f: &mut fmt::Formatter<W>) -> fmt::Result {
        f.write_str("{")?;
        let mut first = true;
        for key in self {
            if !first {
                f.write_str(", ")?;
            }
            first = false;
            write!(f, "{key:?}")?;
        }
        f.write_str("}")
    }
}

impl<K: IntKey, A: Allocator + Copy> IntSet<K, A> {
    /// A set with the same members in the same order, and with the same capacity and load factor.
    /// Its own counts begin at zero. This set stays as it is. No key is compared. Time and memory
    /// grow with the number of slots and of members. It fails only with [`Cause::Memory`], if an
    /// allocation fails.
    pub fn clone(&self) -> Result<IntSet<K, A>, Cause>
        ensures clone { IfOk result (λ made. made ≡ record self.now
            { placed = 0; compared = 0; reserved = 0 }) }
        ensures len { IfOk result (λ made. length made.walk ≡ length self.now.walk) }
        ensures memory { IfErr result (λ cause. cause ≡ Cause.Memory) }
        ensures valid { IsSet K.number_of K.is_valid self.now }
        ensures valid_after { IfOk result (IsSet K.number_of K.is_valid) }
    {
        Ok(IntSet {
            map: self.map.clone()?,
        })
    }
}

impl<K: IntKey, A: Allocator + Copy> Clone for IntSet<K, A> {
    ghost is_clone = { λ set made. made ≡ record set
        { placed = 0; compared = 0; reserved = 0 } };

    /// The set that the call [`clone`](IntSet::clone) makes, for code that is generic over `Clone`,
    /// and for `derive(Clone)`. It fails if that call does.
    fn clone(&self) -> Result<IntSet<K, A>, AllocError> {
        match IntSet::clone(self) {
            Ok(made) => Ok(made),
            Err(_) => Err(AllocError),
        }
    }
}
