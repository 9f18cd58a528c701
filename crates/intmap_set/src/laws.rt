//! Laws for callers: what follows about sets from the contracts of their calls. Each is the
//! contract of a function that does nothing.
//!
//! A call such as `laws::union_holds::<u64>();` adds its law to the proof of the function that
//! contains the call.
ghost use Rattle.std.specs.Prelude.{◌≡◌, ◌+◌, ◌*◌, ◌<◌, ◌≤◌, ◌↔◌, ℕ, List, IsTrue, false, is_some, length};
ghost use Rattle.intmap.specs.Bindings.{HasDistinctKeys, value_of};
ghost use Rattle.intmap.specs.Classes.{IsCapacity};
ghost use Rattle.intmap.specs.Growth.{MeetsLoad};
ghost use Rattle.intmap.specs.Map.{IsCapacityAfter, NeedsNoMemory, after_remove};
ghost use Rattle.intmap.specs.PlainLists.{RefusalIsDue, list_of};
ghost use Rattle.intmap.specs.Reach.{reach};
ghost use Rattle.intmap.specs.Room.{HasRoom};
ghost use Rattle.intmap.specs.declared.refusal.Cause.{Cause};
ghost use Rattle.intmap_set.specs.Sets.{SetState, AreBelow, IsAlone, IsSet, as_map, holds, load_factor, paired, set_of};
ghost use Rattle.intmap_set.specs.Combined.{IsSubset, IsDisjoint, HaveSameMembers, IsDifference, IsIntersection, IsUnion, IsSymmetricDifference, sets_equal, difference_of, intersection_of, union_of, symmetric_difference_of};
ghost use Rattle.intmap.specs.Extending.{new_keys};
ghost use Rattle.intmap_set.specs.Extending.{Inserts};

use intmap::IntKey;

/// A key is a member if and only if the pairs of the members with `()` have it. The clauses of
/// insertions speak of these pairs.
pub fn members_are_keys<K: IntKey>()
    ensures { (W : List K) (k : K)
        → holds K.number_of W k ≡ is_some (value_of K.number_of (paired W) k) }
{}

/// The difference has the members of the first set that are absent from the second.
pub fn difference_holds<K: IntKey>()
    ensures { (V W : List K) → IsDifference K.number_of V W (difference_of K.number_of V W) }
{}

/// The intersection has the members that both sets have.
pub fn intersection_holds<K: IntKey>()
    ensures { (V W : List K) → IsIntersection K.number_of V W (intersection_of K.number_of V W) }
{}

/// The union has the members of either set.
pub fn union_holds<K: IntKey>()
    ensures { (V W : List K) → IsUnion K.number_of V W (union_of K.number_of V W) }
{}

/// The symmetric difference has the members that exactly one of the sets has.
pub fn symmetric_difference_holds<K: IntKey>()
    ensures { (V W : List K) → IsSymmetricDifference K.number_of V W
        (symmetric_difference_of K.number_of V W) }
{}

/// Two sets are equal if and only if each is a subset of the other.
pub fn equal_sets_are_mutual_subsets<K: IntKey>()
    ensures { (s t : SetState K) → IsTrue (sets_equal K.number_of s t)
        ↔ (IsSubset K.number_of s.walk t.walk × IsSubset K.number_of t.walk s.walk) }
{}

/// Two sets are equal if and only if they have the same members.
pub fn equal_sets_have_the_same_members<K: IntKey>()
    ensures { (s t : SetState K) → IsTrue (sets_equal K.number_of s t)
        ↔ HaveSameMembers K.number_of s.walk t.walk }
{}

/// The union and the intersection of two sets together have as many members as the two sets. The
/// clause `valid` of a set's calls says that its keys are distinct.
pub fn union_and_intersection_count_both<K: IntKey>()
    ensures { (V W : List K) → HasDistinctKeys K.number_of (paired V)
        → HasDistinctKeys K.number_of (paired W)
        → length (union_of K.number_of V W) + length (intersection_of K.number_of V W)
        ≡ length V + length W }
{}

/// Equal sets have the same number of members. As in the next three laws, the clause `valid` of a
/// set's calls says that its keys are distinct.
pub fn equal_sets_are_as_long<K: IntKey>()
    ensures { (s t : SetState K) → HasDistinctKeys K.number_of (paired s.walk)
        → HasDistinctKeys K.number_of (paired t.walk)
        → IsTrue (sets_equal K.number_of s t) → length s.walk ≡ length t.walk }
{}

/// A subset has no more members than the set.
pub fn subsets_are_no_longer<K: IntKey>()
    ensures { (V W : List K) → HasDistinctKeys K.number_of (paired V)
        → HasDistinctKeys K.number_of (paired W)
        → IsSubset K.number_of V W → length V ≤ length W }
{}

/// The difference and the intersection together have as many members as the first set.
pub fn difference_and_intersection_count_first<K: IntKey>()
    ensures { (V W : List K) → HasDistinctKeys K.number_of (paired V)
        → HasDistinctKeys K.number_of (paired W)
        → length (difference_of K.number_of V W) + length (intersection_of K.number_of V W)
        ≡ length V }
{}

/// The symmetric difference and twice the intersection together have as many members as the two
/// sets.
pub fn symmetric_difference_counts_apart<K: IntKey>()
    ensures { (V W : List K) → HasDistinctKeys K.number_of (paired V)
        → HasDistinctKeys K.number_of (paired W)
        → length (symmetric_difference_of K.number_of V W)
        + 2 * length (intersection_of K.number_of V W) ≡ length V + length W }
{}

/// The difference, the intersection, the union and the symmetric difference of two sets have each
/// key once, since each of the sets has.
pub fn combined_keys_are_distinct<K: IntKey>()
    ensures difference { (V W : List K) → HasDistinctKeys K.number_of (paired V)
        → HasDistinctKeys K.number_of (paired W)
        → HasDistinctKeys K.number_of (paired (difference_of K.number_of V W)) }
    ensures intersection { (V W : List K) → HasDistinctKeys K.number_of (paired V)
        → HasDistinctKeys K.number_of (paired W)
        → HasDistinctKeys K.number_of (paired (intersection_of K.number_of V W)) }
    ensures union { (V W : List K) → HasDistinctKeys K.number_of (paired V)
        → HasDistinctKeys K.number_of (paired W)
        → HasDistinctKeys K.number_of (paired (union_of K.number_of V W)) }
    ensures symmetric_difference { (V W : List K) → HasDistinctKeys K.number_of (paired V)
        → HasDistinctKeys K.number_of (paired W)
        → HasDistinctKeys K.number_of (paired (symmetric_difference_of K.number_of V W)) }
{}

/// If keys are distinct and none of them is a member, each of them is new. So a set that
/// [`IntSet::from_iter`](crate::IntSet::from_iter) makes of a union has exactly as many members as
/// the list of the union. The same holds for the other lists of two sets.
pub fn distinct_keys_are_new<K: IntKey>()
    ensures { (W ks : List K) → IsDisjoint K.number_of ks W
        → HasDistinctKeys K.number_of (paired ks) → new_keys K.number_of (paired W) (paired ks) ≡ ks }
{}

/// If `n` members meet the load of a set, the insertion of a key that shares its slot with none
/// needs no memory at each length below `n`, so it never fails.
pub fn met_loads_leave_room<K: IntKey>()
    ensures { (W : List K) (C n : ℕ) (k : K) → IsCapacity C → MeetsLoad C n load_factor
        → length W < n → IsAlone K.number_of W C k
        → NeedsNoMemory K.number_of (paired W) C load_factor k }
{}

/// If `n` members meet the load of a set, an insertion at a length below `n` leaves its capacity.
pub fn met_loads_keep_capacity<K: IntKey>()
    ensures { (W : List K) (C n : ℕ) (k : K) (D : ℕ) → IsCapacity C → MeetsLoad C n load_factor
        → length W < n → IsCapacityAfter K.number_of (paired W) C load_factor k D → D ≡ C }
{}

/// An insertion that needs no memory never fails. A caller of
/// [`IntSet::extend`](crate::IntSet::extend) needs this; the contract of
/// [`IntSet::insert`](crate::IntSet::insert) says it by `succeeds`.
pub fn keys_that_need_no_memory_are_never_refused<K: IntKey>()
    ensures { (s : SetState K) (k : K) (cause : Cause) → IsCapacity s.capacity
        → NeedsNoMemory K.number_of (paired s.walk) s.capacity load_factor k
        → RefusalIsDue K.number_of (list_of (as_map s)) k cause → ⊥ }
{}

/// An insertion into a set that has room for `n + 1` members of any keys leaves room for `n`. Room
/// for some members is room for fewer. A removal leaves the room.
pub fn insertions_leave_room<K: IntKey>()
    ensures inserted { (s t : SetState K) (k : K) (n : ℕ) → IsSet K.number_of K.is_valid s
        → HasRoom K.number_of (as_map s) (n + 1) → Inserts K.number_of K.is_valid s k t
        → HasRoom K.number_of (as_map t) n }
    ensures fewer { (s : SetState K) (n fewer : ℕ) → IsSet K.number_of K.is_valid s
        → HasRoom K.number_of (as_map s) n → fewer ≤ n → HasRoom K.number_of (as_map s) fewer }
    ensures removed { (s : SetState K) (k : K) (n : ℕ) → IsSet K.number_of K.is_valid s
        → HasRoom K.number_of (as_map s) n
        → HasRoom K.number_of (as_map (set_of (after_remove K.number_of (as_map s) k))) n }
{}

/// If all members have numbers below the capacity, a new key with such a number shares its slot
/// with none.
pub fn small_new_keys_are_alone<K: IntKey>()
    ensures { (W : List K) (C : ℕ) (k : K) → AreBelow K.number_of W C → K.number_of k < C
        → holds K.number_of W k ≡ false → IsAlone K.number_of W C k }
{}

/// If all members and the key have numbers below the capacity, and one member more meets the load,
/// the insertion of the key never fails.
pub fn small_keys_are_never_refused<K: IntKey>()
    ensures { (s : SetState K) (k : K) (cause : Cause) → IsCapacity s.capacity
        → AreBelow K.number_of s.walk s.capacity → K.number_of k < s.capacity
        → MeetsLoad s.capacity (length s.walk + 1) load_factor
        → RefusalIsDue K.number_of (list_of (as_map s)) k cause → ⊥ }
{}

/// If all members have numbers below the capacity, a search compares at most one of them. The
/// clause `valid` of a set's calls says that its keys are distinct.
pub fn small_members_are_found_at_once<K: IntKey>()
    ensures { (W : List K) (C : ℕ) (k : K) → HasDistinctKeys K.number_of (paired W)
        → AreBelow K.number_of W C → reach K.number_of (paired W) C k ≤ 1 }
{}
