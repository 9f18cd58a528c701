//! Facts of sets that a caller draws from their clauses and laws: when the next member grows the
//! table, when there is room for it and for others, how many members two sets have together, in
//! common and apart, which members a set made of two has, and how many of some numbers are
//! distinct.
ghost use Rattle.std.specs.Prelude.{[], ◌+◌, ◌<◌, ◌∷◌, ◌||◌, ◌↔◌, ◌≡◌, ◌≤◌, IfErr, IfOk, IfSome, IsErrOf, IsSome, IsTrue, OnErr, OnOk, false, length, not, true};
ghost use Rattle.intmap.specs.Bindings.{HasDistinctKeys};
ghost use Rattle.intmap.specs.Classes.{same_key};
ghost use Rattle.intmap.specs.Growth.{IsNext, MeetsLoad};
ghost use Rattle.intmap.specs.Map.{IsCapacityAfter, IsOutOfRange};
ghost use Rattle.intmap.specs.Reach.{class_size};
ghost use Rattle.intmap.specs.Room.{HasRoom};
ghost use Rattle.intmap_set.specs.Combined.{HaveSameMembers, IsDifference, IsIntersection, IsSubset, IsUnion, difference_of, sets_equal, symmetric_difference_of};
ghost use Rattle.intmap_set.specs.Sets.{AreBelow, IsAlone, Updates, as_map, holds, load_factor, paired};

use intmap::{Cause, IntKey};
use intmap_set::{IntSet, laws};
use std::alloc::Allocator;

/// Makes a key a member, and returns the number of slots afterwards. The set may come from
/// anywhere: its load factor is 909 thousandths, as that of every set. Every other key is a member
/// if and only if it was one.
///
/// It fails if the insertion of a new key fails.
pub fn slots_with<K: IntKey, A: Allocator + Copy>(
    set: &mut IntSet<K, A>,
    key: K,
) -> Result<usize, Cause>
    ensures here { OnOk result (IsTrue (holds K.number_of set.new.walk key)) }
    ensures others { (q : K) → same_key K.number_of key q ≡ false
        → holds K.number_of set.new.walk q ≡ holds K.number_of set.old.walk q }
    ensures slots { IfOk result (λ slots. IsCapacityAfter K.number_of (paired set.old.walk)
        set.old.capacity load_factor key slots) }
    ensures too_large { IsErrOf result Cause.TooLarge
        ↔ IsOutOfRange K.number_of (paired set.old.walk) set.old.capacity load_factor key }
    ensures new { OnErr result (holds K.number_of set.old.walk key ≡ false) }
    ensures memory { IsErrOf result Cause.Memory
        → IsNext set.old.capacity (length set.old.walk + 1) load_factor set.old.capacity
        → 0 < class_size K.number_of (paired set.old.walk) set.old.capacity key }
{
    laws::members_are_keys::<K>();
    set.insert(key)?;
    Ok(set.capacity())
}

/// Makes a key a member, and returns whether it is new. The numbers of the members and of the key
/// are below the number of slots, and one member more meets the load. So a new key has a slot to
/// itself, and the insertion never fails. It compares at most one key. Every other key is a member
/// if and only if it was one.
pub fn note<K: IntKey, A: Allocator + Copy>(set: &mut IntSet<K, A>, key: K) -> bool
    requires members { AreBelow K.number_of set.old.walk set.old.capacity }
    requires small { K.number_of key < set.old.capacity }
    requires room { MeetsLoad set.old.capacity (length set.old.walk + 1) load_factor }
    ensures new { result ≡ not (holds K.number_of set.old.walk key) }
    ensures here { IsTrue (holds K.number_of set.new.walk key) }
    ensures others { (q : K) → same_key K.number_of key q ≡ false
        → holds K.number_of set.new.walk q ≡ holds K.number_of set.old.walk q }
    ensures compared { set.new.compared ≤ set.old.compared + 1 }
{
    laws::small_keys_are_never_refused::<K>();
    laws::small_members_are_found_at_once::<K>();
    match set.insert(key) {
        Ok(new) => new,
        Err(_) => unreachable!(),
    }
}

/// Makes a new key a member, where no member shares its slot, and one member more meets the load.
/// It never fails, and the capacity stays.
pub fn note_alone<K: IntKey, A: Allocator + Copy>(set: &mut IntSet<K, A>, key: K)
    requires alone { IsAlone K.number_of set.old.walk set.old.capacity key }
    requires room { MeetsLoad set.old.capacity (length set.old.walk + 1) load_factor }
    ensures updates { Updates K.number_of set.old.walk set.new.walk key true }
    ensures capacity { set.new.capacity ≡ set.old.capacity }
{
    laws::met_loads_leave_room::<K>();
    laws::met_loads_keep_capacity::<K>();
    match set.insert(key) {
        Ok(_new) => (),
        Err(_) => unreachable!(),
    }
}

/// Whether two sets are equal. If they are, they have the same number of members.
pub fn are_equal<K: IntKey, A: Allocator + Copy>(
    first: &IntSet<K, A>,
    second: &IntSet<K, A>,
) -> bool
    ensures value { result ≡ sets_equal K.number_of first.now second.now }
    ensures len { IsTrue result → length first.now.walk ≡ length second.now.walk }
{
    laws::equal_sets_are_as_long::<K>();
    let (_first, _second) = (first.len(), second.len());
    *first == *second
}

/// How many members of the group are missing from a part of it, or `None` if `part` isn't a subset
/// of the group.
pub fn count_missing<K: IntKey, A: Allocator + Copy>(
    part: &IntSet<K, A>,
    group: &IntSet<K, A>,
) -> Option<usize>
    ensures missing { IfSome result
        (λ missing. missing + length part.now.walk ≡ length group.now.walk) }
    ensures part { IsSome result ↔ IsSubset K.number_of part.now.walk group.now.walk }
{
    laws::subsets_are_no_longer::<K>();
    let (some, all) = (part.len(), group.len());
    if !part.is_subset(group) {
        return None;
    }
    Some(all - some)
}

/// How many members of the first set are absent from the second, computed from how many both have.
pub fn count_apart<K: IntKey, A: Allocator + Copy>(
    first: &IntSet<K, A>,
    second: &IntSet<K, A>,
) -> usize
    ensures { result ≡ length (difference_of K.number_of first.now.walk second.now.walk) }
{
    laws::difference_and_intersection_count_first::<K>();
    let (all, _second) = (first.len(), second.len());
    all - first.intersection(second).count()
}

/// How many keys exactly one of two sets has, computed from how many both have.
pub fn count_unshared<K: IntKey, A: Allocator + Copy>(
    first: &IntSet<K, A>,
    second: &IntSet<K, A>,
) -> u128
    ensures { result
        ≡ length (symmetric_difference_of K.number_of first.now.walk second.now.walk) }
{
    laws::symmetric_difference_counts_apart::<K>();
    let all = first.len() as u128 + second.len() as u128;
    all - 2 * first.intersection(second).count() as u128
}

/// A new set of the members of either set, and how many members both have.
///
/// It fails if one of the two sets that it makes can't be made.
pub fn merged<K: IntKey, A: Allocator + Copy>(
    alloc: A,
    first: &IntSet<K, A>,
    second: &IntSet<K, A>,
) -> Result<(IntSet<K, A>, usize), Cause>
    ensures members { IfOk result (λ made.
        IsUnion K.number_of first.now.walk second.now.walk made.0.walk) }
    ensures count { IfOk result (λ made.
        length made.0.walk + made.1 ≡ length first.now.walk + length second.now.walk) }
{
    laws::union_and_intersection_count_both::<K>();
    let either = first.to_union(alloc, second)?;
    let both = first.to_intersection(alloc, second)?;
    Ok((either, both.len()))
}

/// How many members each of two sets has alone, by two new sets.
///
/// It fails only if an allocation fails.
pub fn count_each_alone<K: IntKey, A: Allocator + Copy>(
    alloc: A,
    first: &IntSet<K, A>,
    second: &IntSet<K, A>,
) -> Result<(usize, usize), Cause>
    ensures first { IfOk result (λ alone. alone.0
        ≡ length (difference_of K.number_of first.now.walk second.now.walk)) }
    ensures second { IfOk result (λ alone. alone.1
        ≡ length (difference_of K.number_of second.now.walk first.now.walk)) }
    ensures memory { IfErr result (λ cause. cause ≡ Cause.Memory) }
{
    let left = first.to_difference(alloc, second)?;
    let right = second.to_difference(alloc, first)?;
    Ok((left.len(), right.len()))
}

/// Inserts the members of another set. Each key is a member afterwards if and only if it was one of
/// either, and there are no fewer slots.
///
/// It fails if an insertion fails. Every member then stays, and every new one is of the other set.
pub fn take_in<K: IntKey, A: Allocator + Copy>(
    set: &mut IntSet<K, A>,
    other: &IntSet<K, A>,
) -> Result<(), Cause>
    ensures members { OnOk result ((q : K) → holds K.number_of set.new.walk q
        ≡ (holds K.number_of set.old.walk q || holds K.number_of other.now.walk q)) }
    ensures len { OnOk result (length set.new.walk ≤ length set.old.walk + length other.now.walk) }
    ensures capacity { OnOk result (set.old.capacity ≤ set.new.capacity) }
    ensures stay { OnErr result (IsSubset K.number_of set.old.walk set.new.walk) }
    ensures new { OnErr result ((q : K) → IsTrue (holds K.number_of set.new.walk q)
        → IsTrue (holds K.number_of set.old.walk q || holds K.number_of other.now.walk q)) }
{
    laws::union_and_intersection_count_both::<K>();
    match set.extend_from_set(other) {
        Ok(()) => Ok(()),
        Err(refused) => Err(refused.cause),
    }
}

/// Takes in the one member of another set, which is new here. The numbers of all members are below
/// the number of slots, and one member more meets the load. So the insertion never fails.
pub fn take_in_one<K: IntKey, A: Allocator + Copy>(
    set: &mut IntSet<K, A>,
    other: &IntSet<K, A>,
    key: K,
)
    requires one { other.now.walk ≡ key ∷ [] }
    requires members { AreBelow K.number_of set.old.walk set.old.capacity }
    requires small { K.number_of key < set.old.capacity }
    requires new { holds K.number_of set.old.walk key ≡ false }
    requires room { MeetsLoad set.old.capacity (length set.old.walk + 1) load_factor }
    ensures { IsUnion K.number_of set.old.walk other.now.walk set.new.walk }
{
    laws::small_new_keys_are_alone::<K>();
    laws::met_loads_leave_room::<K>();
    laws::keys_that_need_no_memory_are_never_refused::<K>();
    match set.extend_from_set(other) {
        Ok(()) => (),
        Err(_refused) => unreachable!(),
    }
}

// Insertions behind a reservation. None of them fails, whatever the keys are.

/// Makes each of the keys a member. Each other key is a member afterwards if and only if it was
/// one.
///
/// It fails only if the room for the keys can't be made. The set then stays as it was.
pub fn take_in_listed<K: IntKey, A: Allocator + Copy>(
    set: &mut IntSet<K, A>,
    keys: Vec<K, A>,
) -> Result<(), Cause>
    ensures members { OnOk result ((q : K) → holds K.number_of set.new.walk q
        ≡ (holds K.number_of set.old.walk q || holds K.number_of keys.items q)) }
    ensures err { OnErr result (set.new ≡ set.old) }
{
    set.reserve_insertions(keys.len())?;
    take_in_reserved(set, keys);
    Ok(())
}

/// Makes each of the keys a member of a set that has room for them. It never fails.
fn take_in_reserved<K: IntKey, A: Allocator + Copy>(set: &mut IntSet<K, A>, keys: Vec<K, A>)
    requires { HasRoom K.number_of (as_map set.old) (length keys.items) }
    ensures { (q : K) → holds K.number_of set.new.walk q
        ≡ (holds K.number_of set.old.walk q || holds K.number_of keys.items q) }
{
    match set.extend(keys.into_iter()) {
        Ok(()) => (),
        Err(_refused) => unreachable!(),
    }
}

/// Makes a key a member of a set that has room for it and `left` more. It never fails, and leaves
/// room for these.
pub fn note_reserved<K: IntKey, A: Allocator + Copy>(set: &mut IntSet<K, A>, key: K, left: usize)
    requires { HasRoom K.number_of (as_map set.old) (left + 1) }
    ensures updates { Updates K.number_of set.old.walk set.new.walk key true }
    ensures room { HasRoom K.number_of (as_map set.new) left }
{
    laws::insertions_leave_room::<K>();
    match set.insert(key) {
        Ok(_new) => (),
        Err(_cause) => unreachable!(),
    }
}

// Groups of ids as sets: which members of one group are in another, and groups made of two.

/// The members of one group that are in the other as well.
///
/// It fails only if an allocation fails.
pub fn members_of_both<K: IntKey, A: Allocator + Copy>(
    alloc: A,
    group: &IntSet<K, A>,
    other: &IntSet<K, A>,
) -> Result<IntSet<K, A>, Cause>
    ensures members { IfOk result (λ both. IsIntersection K.number_of group.now.walk other.now.walk
        both.walk) }
    ensures memory { IfErr result (λ cause. cause ≡ Cause.Memory) }
{
    group.to_intersection(alloc, other)
}

/// Whether every member of one group is in the other.
pub fn are_all_in<K: IntKey, A: Allocator + Copy>(
    group: &IntSet<K, A>,
    other: &IntSet<K, A>,
) -> bool
    ensures { IsTrue result ↔ ((q : K) → IsTrue (holds K.number_of group.now.walk q)
        → IsTrue (holds K.number_of other.now.walk q)) }
{
    group.is_subset(other)
}

/// Removes from a group the members that are in the other.
pub fn leave_together<K: IntKey, A: Allocator + Copy>(
    group: &mut IntSet<K, A>,
    other: &IntSet<K, A>,
)
    ensures { IsDifference K.number_of group.old.walk other.now.walk group.new.walk }
{
    group.retain(|key| !other.contains(key));
    laws::difference_holds::<K>();
}

// The distinct ones of some numbers.

/// The set of the numbers, and how many of them are distinct.
///
/// It fails if the set can't be made or an insertion fails.
pub fn distinct<A: Allocator + Copy>(
    alloc: A,
    numbers: &[u64],
) -> Result<(IntSet<u64, A>, usize), Cause>
    ensures members { IfOk result (λ made. HaveSameMembers (λ k. k) made.0.walk numbers.now) }
    ensures once { IfOk result (λ made. HasDistinctKeys (λ k. k) (paired made.0.walk)) }
    ensures count { IfOk result (λ made. made.1 ≡ length made.0.walk) }
    ensures few { IfOk result (λ made. made.1 ≤ length numbers.now) }
{
    let set: IntSet<u64, A> = IntSet::from_iter(alloc, numbers.iter().copied())?;
    let count = set.len();
    Ok((set, count))
}

/// A new set with one member, and whether its insertion succeeded, which it does.
///
/// It fails if the set can't be made.
pub fn made_of_one_member<A: Allocator + Copy>(
    alloc: A,
    key: u64,
) -> Result<(IntSet<u64, A>, bool), Cause>
    ensures inserted { IfOk result (λ made. made.1 ≡ true) }
    ensures here { IfOk result (λ made. IsTrue (holds (λ k. k) made.0.walk key)) }
    ensures len { IfOk result (λ made. length made.0.walk ≡ 1) }
{
    let mut set = IntSet::new(alloc)?;
    let is_in = set.insert(key).is_ok();
    Ok((set, is_in))
}
