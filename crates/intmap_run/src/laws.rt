//! Laws of the definitions that describe a run, each as the contract of a function that does
//! nothing. A call of one adds its law to the proof of the function that contains the call.
ghost use Rattle.std.specs.Prelude.{◌≡◌, ◌↔◌, ◌≤◌, ◌++◌, ℕ, List, length};
ghost use Rattle.intmap.specs.Classes.{IsCapacity, residue, slot_number};
ghost use Rattle.intmap.specs.Bindings.{value_of, take_key, put_pair, write_value, strike_keys};
ghost use Rattle.intmap.specs.Walk.{walk_of};
ghost use Rattle.intmap.specs.Reach.{class_size, reach};
ghost use Rattle.intmap.specs.Figures.{load_of, rate_of, collisions_of};
ghost use Rattle.intmap.specs.Map.{MapState, empty_map};
ghost use Rattle.intmap.specs.PlainLists.{PlainList, Stands, empty_list};
ghost use Rattle.intmap_run.specs.Laws.{StandForOne};
ghost use Rattle.intmap_run.specs.Removals.{Takes};
ghost use Rattle.intmap_run.specs.Runs.{Runs, RunsFrom};
ghost use Rattle.intmap_run.specs.Bounds.{RunPlacesFew, RunLeavesFewSlots};
ghost use Rattle.intmap_run.specs.declared.command.Command.{Command};
ghost use Rattle.intmap_run.specs.declared.answer.Answer.{Answer};

use crate::judge::Judge;
use intmap::IntKey;
use std::alloc::Allocator;

/// The empty list stands for a new map.
pub fn no_pairs_stand_for_a_new_map<K: IntKey, V>()
    ensures { (C : ℕ) → IsCapacity C
        → Stands {V = V} K.number_of (empty_list C) (empty_map C) }
{}

/// A run, followed by another from the map that it left, is one run of the commands of both.
pub fn runs_join<K: IntKey, V, J: Judge<K, V>, A: Allocator>()
    ensures { (judge : J) (m n o : MapState K V) (cs ds : List (Command K V A))
        (as' bs : List (Answer K V J.Seen A))
        → RunsFrom K.number_of (J.sees judge) (J.keeps judge) m cs as' n
        → RunsFrom K.number_of (J.sees judge) (J.keeps judge) n ds bs o
        → RunsFrom K.number_of (J.sees judge) (J.keeps judge) m (cs ++ ds) (as' ++ bs) o }
{}

/// A run that sets g load factors places at most `3 * (g + 1)` times its greatest length.
pub fn runs_place_few<K: IntKey, V, J: Judge<K, V>, A: Allocator>()
    ensures { (judge : J) (s t : PlainList K V) (cs : List (Command K V A))
        (as' : List (Answer K V J.Seen A))
        (run : Runs K.number_of (J.sees judge) (J.keeps judge) s cs as' t)
        → RunPlacesFew K.number_of (J.sees judge) (J.keeps judge) s cs as' t run }
{}

/// The capacity at the end of a run is the one at the start, or one that a successful `Reserve` or
/// `SetLoadFactor` left, or a C with `(F + 1) * C <= 2000 * length`. Here F is the load factor at
/// the end, and length the greatest length of the run.
pub fn runs_leave_few_slots<K: IntKey, V, J: Judge<K, V>, A: Allocator>()
    ensures { (judge : J) (s t : PlainList K V) (cs : List (Command K V A))
        (as' : List (Answer K V J.Seen A))
        (run : Runs K.number_of (J.sees judge) (J.keeps judge) s cs as' t)
        → RunLeavesFewSlots K.number_of (J.sees judge) (J.keeps judge) s cs as' t run }
{}

/// Two keys have the same slot if and only if they agree modulo the number of slots.
pub fn keys_share_slots_by_residue<K: IntKey>()
    ensures { (C : ℕ) (a b : K) → IsCapacity C
        → (slot_number K.number_of a C ≡ slot_number K.number_of b C)
        ↔ (residue K.number_of a C ≡ residue K.number_of b C) }
{}

/// A removal takes the first pair of the key out of a list, and the last pair behind it whose key
/// agrees with that key fills the hole. `Takes` says this without a recursion, and holds only of
/// the list that `take_key` gives.
pub fn removals_fill_the_hole<K: IntKey, V>()
    ensures { (C : ℕ) (L M : List (K × V)) (k : K) → Takes K.number_of L C k M
        ↔ (M ≡ take_key K.number_of L C k) }
{}

/// If two lists stand for one map, they still do once a key is removed from both.
pub fn removal_keeps_standing<K: IntKey, V>()
    ensures { (C : ℕ) (L M : List (K × V)) (k : K) → StandForOne K.number_of C L M
        → StandForOne K.number_of C (take_key K.number_of L C k) (take_key K.number_of M C k) }
{}

/// If two lists stand for one map, they still do once a pair is inserted into both.
pub fn insertion_keeps_standing<K: IntKey, V>()
    ensures { (C : ℕ) (L M : List (K × V)) (k : K) (v : V) → StandForOne K.number_of C L M
        → StandForOne K.number_of C (put_pair K.number_of L C k v)
        (put_pair K.number_of M C k v) }
{}

/// If two lists stand for one map, they still do once a value is written in both.
pub fn writing_keeps_standing<K: IntKey, V>()
    ensures { (C : ℕ) (L M : List (K × V)) (k : K) (v : V) → StandForOne K.number_of C L M
        → StandForOne K.number_of C (write_value K.number_of L k v)
        (write_value K.number_of M k v) }
{}

/// If two lists stand for one map, they still do once the same keys are removed from both.
pub fn striking_keeps_standing<K: IntKey, V>()
    ensures { (C : ℕ) (L M : List (K × V)) (ks : List K) → StandForOne K.number_of C L M
        → StandForOne K.number_of C (strike_keys K.number_of L ks)
        (strike_keys K.number_of M ks) }
{}

/// If two lists stand for one map, they still do after any growth.
pub fn growth_keeps_standing<K: IntKey, V>()
    ensures { (C D : ℕ) (L M : List (K × V)) → StandForOne K.number_of C L M
        → IsCapacity D → C ≤ D → StandForOne K.number_of D L M }
{}

/// The walk of a walk, in at least the same number of slots, is the walk of the list.
pub fn walks_grow_as_lists<K: IntKey, V>()
    ensures { (C D : ℕ) (L : List (K × V)) → IsCapacity C → IsCapacity D → C ≤ D
        → walk_of K.number_of (walk_of K.number_of L C) D ≡ walk_of K.number_of L D }
{}

/// Lists that stand for one map have the same value for each key, or none of them has a value for
/// it.
pub fn values_are_the_same<K: IntKey, V>()
    ensures { (C : ℕ) (L M : List (K × V)) (k : K) → StandForOne K.number_of C L M
        → value_of K.number_of L k ≡ value_of K.number_of M k }
{}

/// Lists that stand for one map fill the same number of slots.
pub fn loads_are_the_same<K: IntKey, V>()
    ensures { (C : ℕ) (L M : List (K × V)) → StandForOne K.number_of C L M
        → load_of K.number_of L C ≡ load_of K.number_of M C }
{}

/// Lists that stand for one map have the same average number of pairs for each slot.
pub fn rates_are_the_same<K: IntKey, V>()
    ensures { (C : ℕ) (L M : List (K × V)) → StandForOne K.number_of C L M
        → rate_of L C ≡ rate_of M C }
{}

/// Lists that stand for one map have the same slot sizes above 1, equally often and in the same
/// order.
pub fn collisions_are_the_same<K: IntKey, V>()
    ensures { (C : ℕ) (L M : List (K × V)) → StandForOne K.number_of C L M
        → collisions_of K.number_of L C ≡ collisions_of K.number_of M C }
{}

/// Lists that stand for one map have the same number of pairs.
pub fn lengths_are_the_same<K: IntKey, V>()
    ensures { (C : ℕ) (L M : List (K × V)) → StandForOne K.number_of C L M → length L ≡ length M }
{}

/// Lists that stand for one map have, for each key, the same number of keys in its slot.
pub fn class_sizes_are_the_same<K: IntKey, V>()
    ensures { (C : ℕ) (L M : List (K × V)) (k : K) → StandForOne K.number_of C L M
        → class_size K.number_of L C k ≡ class_size K.number_of M C k }
{}

/// Lists that stand for one map need the same number of comparisons to look up a key.
pub fn reaches_are_the_same<K: IntKey, V>()
    ensures { (C : ℕ) (L M : List (K × V)) (k : K) → StandForOne K.number_of C L M
        → reach K.number_of L C k ≡ reach K.number_of M C k }
{}
