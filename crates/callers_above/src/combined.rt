//! Two sets: lists of the members of both, whether the sets are the same, and sets made of two.
ghost use Rattle.std.specs.Prelude.{◌≡◌, ◌↔◌, IfOk, IsTrue, length};
ghost use Rattle.intmap.specs.Bindings.{HasDistinctKeys};
ghost use Rattle.intmap_set.specs.Combined.{HaveSameMembers, IsUnion, intersection_of, sets_equal, symmetric_difference_of, union_of};
ghost use Rattle.intmap_set.specs.Sets.{holds, paired};

use intmap::{Cause, IntKey};
use intmap_set::{IntSet, laws};
use std::alloc::{AllocError, Allocator};

// A list that was collected from two sets. Whether it has a key is then asked of the sets.

/// The members of either set, each once.
///
/// It fails if there is no memory for them.
pub fn list_either<K: IntKey, A: Allocator + Copy>(
    alloc: A,
    first: &IntSet<K, A>,
    second: &IntSet<K, A>,
) -> Result<Vec<K, A>, AllocError>
    ensures walk { IfOk result (λ list.
        list.items ≡ union_of K.number_of first.now.walk second.now.walk) }
    ensures once { IfOk result (λ list. HasDistinctKeys K.number_of (paired list.items)) }
{
    laws::combined_keys_are_distinct::<K>();
    first.union(second).copied().collect(alloc)
}

/// Whether the key is in a list of the members of either set.
pub fn is_in_either<K: IntKey, A: Allocator + Copy>(
    listed: &[K],
    first: &IntSet<K, A>,
    second: &IntSet<K, A>,
    key: K,
) -> bool
    requires { listed.now ≡ union_of K.number_of first.now.walk second.now.walk }
    ensures { result ≡ holds K.number_of listed.now key }
{
    laws::union_holds::<K>();
    first.contains(key) || second.contains(key)
}

/// Whether the key is in a list of the members that both sets have.
pub fn is_in_both<K: IntKey, A: Allocator + Copy>(
    listed: &[K],
    first: &IntSet<K, A>,
    second: &IntSet<K, A>,
    key: K,
) -> bool
    requires { listed.now ≡ intersection_of K.number_of first.now.walk second.now.walk }
    ensures { result ≡ holds K.number_of listed.now key }
{
    laws::intersection_holds::<K>();
    first.contains(key) && second.contains(key)
}

/// Whether the key is in a list of the members that exactly one of the sets has.
pub fn is_in_one<K: IntKey, A: Allocator + Copy>(
    listed: &[K],
    first: &IntSet<K, A>,
    second: &IntSet<K, A>,
    key: K,
) -> bool
    requires { listed.now ≡ symmetric_difference_of K.number_of first.now.walk second.now.walk }
    ensures { result ≡ holds K.number_of listed.now key }
{
    laws::symmetric_difference_holds::<K>();
    first.contains(key) != second.contains(key)
}

// Two sets that may be the same, and a set of the members of both.

/// Whether two sets are equal, asked by whether each is a subset of the other.
pub fn are_mutual_subsets<K: IntKey, A: Allocator + Copy>(
    first: &IntSet<K, A>,
    second: &IntSet<K, A>,
) -> bool
    ensures { IsTrue result ↔ IsTrue (sets_equal K.number_of first.now second.now) }
{
    laws::equal_sets_are_mutual_subsets::<K>();
    first.is_subset(second) && second.is_subset(first)
}

/// Whether two sets have the same members.
pub fn have_same_members<K: IntKey, A: Allocator + Copy>(
    first: &IntSet<K, A>,
    second: &IntSet<K, A>,
) -> bool
    ensures { IsTrue result ↔ HaveSameMembers K.number_of first.now.walk second.now.walk }
{
    laws::equal_sets_have_the_same_members::<K>();
    *first == *second
}

/// A set of the members of either set, made by `from_iter`. It has as many members as the list of
/// them.
///
/// It fails if the set can't be made or an insertion fails.
pub fn collect_either<K: IntKey, A: Allocator + Copy>(
    alloc: A,
    first: &IntSet<K, A>,
    second: &IntSet<K, A>,
) -> Result<IntSet<K, A>, Cause>
    ensures members { IfOk result (λ made.
        IsUnion K.number_of first.now.walk second.now.walk made.walk) }
    ensures len { IfOk result (λ made. length made.walk
        ≡ length (union_of K.number_of first.now.walk second.now.walk)) }
{
    laws::combined_keys_are_distinct::<K>();
    laws::distinct_keys_are_new::<K>();
    IntSet::from_iter(alloc, first.union(second).copied())
}
