//! Pairs that move: to another key, to another map, and back; and maps that cross threads.
ghost use Rattle.std.specs.Prelude.{◌&&◌, ◌+◌, ◌^◌, ◌≡◌, ◌≢◌, ◌≤◌, IfErr, IfOk, IfSome, None, OnErr, OnOk, Some, ℕ, false, is_some, length, option_copied, true};
ghost use Rattle.std.specs.List.{sum};
ghost use Rattle.std.specs.Map.{values_of};
ghost use Rattle.intmap.specs.Bindings.{Updates, value_of};
ghost use Rattle.intmap.specs.Reach.{class_size};

use crate::sums::total;
use intmap::entry::Entry;
use intmap::{Cause, IntKey, IntMap, Refused, laws};
use std::alloc::Allocator;
use std::marker::{Send, Sync};
use std::mem;

/// Sets the value of a present key, and returns whether it is present.
fn set<A: Allocator + Copy>(map: &mut IntMap<u64, u64, A>, key: u64, value: u64) -> bool
    ensures there { result ≡ is_some (value_of (λ k. k) map.old.walk key) }
    ensures updates { result ≡ true
        → Updates (λ k. k) map.old.walk map.new.walk key (Some value) }
    ensures refused { result ≡ false → map.new.walk ≡ map.old.walk }
{
    match map.get_mut(key) {
        Some(place) => {
            *place = value;
            true
        }
        None => false,
    }
}

/// Swaps the values of two keys, if both are present, and returns whether they are. If not, the map
/// stays. Every other key keeps its value.
pub fn swap_values<A: Allocator + Copy>(map: &mut IntMap<u64, u64, A>, a: u64, b: u64) -> bool
    ensures answer { result ≡ (is_some (value_of (λ k. k) map.old.walk a)
        && is_some (value_of (λ k. k) map.old.walk b)) }
    ensures first { result ≡ true
        → value_of (λ k. k) map.new.walk a ≡ value_of (λ k. k) map.old.walk b }
    ensures second { result ≡ true
        → value_of (λ k. k) map.new.walk b ≡ value_of (λ k. k) map.old.walk a }
    ensures others { (q : ℕ) → q ≢ a → q ≢ b
        → value_of (λ k. k) map.new.walk q ≡ value_of (λ k. k) map.old.walk q }
    ensures refused { result ≡ false → map.new ≡ map.old }
{
    let Some(first) = map.get(a).copied() else {
        return false;
    };
    let Some(second) = map.get(b).copied() else {
        return false;
    };
    set(map, a, second);
    set(map, b, first);
    true
}

/// Swaps the values of two different keys where they lie, if both are present. Every other key
/// keeps its value. No clause says which values the two keys have then.
pub fn swap_owned<V, A: Allocator + Copy>(map: &mut IntMap<u64, V, A>, a: u64, b: u64)
    requires { a ≢ b }
    ensures others { (q : ℕ) → q ≢ a → q ≢ b
        → value_of (λ k. k) map.new.walk q ≡ value_of (λ k. k) map.old.walk q }
    ensures len { length map.new.walk ≡ length map.old.walk }
{
    let keys = [a, b];
    let mut values = map.get_disjoint_mut(&keys);
    if let (Some(Some(first)), Some(Some(second))) = (values.next(), values.next()) {
        mem::swap(first, second);
    }
}

/// Removes two keys.
pub fn forget_both<V: Drop, A: Allocator + Copy>(map: &mut IntMap<u64, V, A>, a: u64, b: u64)
    ensures first { value_of (λ k. k) map.new.walk a ≡ None }
    ensures second { value_of (λ k. k) map.new.walk b ≡ None }
    ensures others { (q : ℕ) → q ≢ a → q ≢ b
        → value_of (λ k. k) map.new.walk q ≡ value_of (λ k. k) map.old.walk q }
{
    map.remove(a);
    map.remove(b);
}

/// Removes the key `from`, gives its value to the key `to`, and returns whether `from` was present.
/// If it was, a value that `to` had is dropped. If not, the map's pairs stay. Every other key keeps
/// its value.
///
/// It fails if the insertion of a new key `to` fails, and returns the value. Both keys are then
/// absent.
pub fn rename<V: Drop, A: Allocator + Copy>(
    map: &mut IntMap<u64, V, A>,
    from: u64,
    to: u64,
) -> Result<bool, Refused<V>>
    requires { from ≢ to }
    ensures moved { IfOk result
        (λ moved. moved ≡ is_some (value_of (λ k. k) map.old.walk from)) }
    ensures gone { value_of (λ k. k) map.new.walk from ≡ None }
    ensures there { IfOk result (λ moved. moved ≡ true
        → value_of (λ k. k) map.new.walk to ≡ value_of (λ k. k) map.old.walk from) }
    ensures others { (q : ℕ) → q ≢ from → q ≢ to
        → value_of (λ k. k) map.new.walk q ≡ value_of (λ k. k) map.old.walk q }
    ensures stays { IfOk result (λ moved. moved ≡ false → map.new.walk ≡ map.old.walk) }
    ensures err { IfErr result
        (λ refused. value_of (λ k. k) map.old.walk from ≡ Some refused.value) }
    ensures missing { OnErr result (value_of (λ k. k) map.new.walk to ≡ None) }
{
    let Some(value) = map.remove(from) else {
        return Ok(false);
    };
    map.insert(to, value)?;
    Ok(true)
}

/// Moves a number to another map: it is inserted there before it is removed here. It returns
/// whether the key was present. If not, the pairs of both maps stay. Every other key keeps its
/// value in both.
///
/// It fails if the insertion fails. Both maps then stay.
pub fn move_number<A: Allocator + Copy>(
    from: &mut IntMap<u64, u64, A>,
    to: &mut IntMap<u64, u64, A>,
    key: u64,
) -> Result<bool, Cause>
    ensures moved { IfOk result
        (λ moved. moved ≡ is_some (value_of (λ k. k) from.old.walk key)) }
    ensures gone { OnOk result (Updates (λ k. k) from.old.walk from.new.walk key None) }
    ensures there { IfOk result (λ moved. moved ≡ true
        → Updates (λ k. k) to.old.walk to.new.walk key (value_of (λ k. k) from.old.walk key)) }
    ensures stays { IfOk result (λ moved. moved ≡ false → to.new.walk ≡ to.old.walk) }
    ensures from_stays { OnErr result (from.new.walk ≡ from.old.walk) }
    ensures to_stays { OnErr result (to.new.walk ≡ to.old.walk) }
{
    let Some(value) = from.get(key).copied() else {
        return Ok(false);
    };
    to.insert(key, value)?;
    from.remove(key);
    Ok(true)
}

/// Moves an owned value to another map, and returns whether the key was present. Every other key
/// keeps its value in both maps. The key's slot must hold exactly one pair: then the value can go
/// back if the other map doesn't take it, and nothing is lost.
///
/// It fails if the insertion fails. Each key then has the value that it had.
pub fn move_owned<V: Drop, A: Allocator + Copy>(
    from: &mut IntMap<u64, V, A>,
    to: &mut IntMap<u64, V, A>,
    key: u64,
) -> Result<bool, Cause>
    requires { class_size (λ k. k) from.old.walk from.old.capacity key ≡ 1 }
    ensures moved { IfOk result
        (λ moved. moved ≡ is_some (value_of (λ k. k) from.old.walk key)) }
    ensures gone { OnOk result (Updates (λ k. k) from.old.walk from.new.walk key None) }
    ensures there { IfOk result (λ moved. moved ≡ true
        → Updates (λ k. k) to.old.walk to.new.walk key (value_of (λ k. k) from.old.walk key)) }
    ensures stays { IfOk result (λ moved. moved ≡ false → to.new.walk ≡ to.old.walk) }
    ensures from_stays { OnErr result ((q : ℕ)
        → value_of (λ k. k) from.new.walk q ≡ value_of (λ k. k) from.old.walk q) }
    ensures to_stays { OnErr result (to.new.walk ≡ to.old.walk) }
{
    laws::put_backs_are_never_refused::<u64, V>();
    let Some(value) = from.remove(key) else {
        return Ok(false);
    };
    let Err(refused) = to.insert(key, value) else {
        return Ok(true);
    };
    if from.insert(key, refused.value).is_err() {
        unreachable!();
    }
    Err(refused.cause)
}

/// Moves an owned value to another map, and returns whether it did. If it can't be inserted there,
/// it stays here, and no value is lost. Nothing is said of the other map then, since the closure
/// returns it with a success alone.
pub fn hand_over_owned<V: Drop, A: Allocator + Copy>(
    from: &mut IntMap<u64, V, A>,
    to: &mut IntMap<u64, V, A>,
    key: u64,
) -> bool
    ensures gone { result ≡ true → Updates (λ k. k) from.old.walk from.new.walk key None }
    ensures there { result ≡ true → Updates (λ k. k) to.old.walk to.new.walk key
        (value_of (λ k. k) from.old.walk key) }
    ensures from_stays { result ≡ false → (q : ℕ)
        → value_of (λ k. k) from.new.walk q ≡ value_of (λ k. k) from.old.walk q }
{
    let Entry::Occupied(entry) = from.entry(key) else {
        return false;
    };
    let handed = entry.hand_over(
        move |value: V|
            ensures same_reference { IfOk result (λ left. left.ghost_name ≡ to.entry.ghost_name) }
            ensures there { IfOk result
                (λ left. Updates (λ k. k) to.entry.now.walk left.now.walk key (Some value)) }
            ensures back { IfErr result (λ back. back ≡ value) }
        {
            match to.insert(key, value) {
                Ok(_) => Ok(to),
                Err(refused) => Err(refused.value),
            }
        },
    );
    match handed {
        Some(_left) => true,
        None => false,
    }
}

// Maps that cross threads. No thread starts here: `run_apart` requires of a job and of its result
// what `std::thread::join` requires of them, and calls the job itself.

/// The result of a job that another thread could run.
pub fn run_apart<T: Send, J: FnOnce() -> T + Send>(job: J) -> T
    requires { J.pre job }
    ensures { J.post job result }
{
    job()
}

/// The sum of all values, by a job that the map moves into. It is `None` if and only if the sum is
/// above 2^64 - 1.
pub fn total_apart(map: IntMap<u64, u64>) -> Option<u64>
    ensures some { IfSome result (λ total. total ≡ sum (values_of map.walk)) }
    ensures none { result ≡ None → 2 ^ 64 ≤ sum (values_of map.walk) }
{
    run_apart(move || total(&map))
}

/// The map, which moves into a job and is returned by it. Keys, values and allocator are of any
/// types that cross threads.
pub fn there_and_back<K: IntKey + Send, V: Send + Drop, A: Allocator + Copy + Send>(
    map: IntMap<K, V, A>,
) -> IntMap<K, V, A>
    ensures { result ≡ map }
{
    run_apart(move || map)
}

/// The value of a key, by a job that shares the map.
pub fn look_apart<K: IntKey + Send + Sync, V: Sync + Drop, A: Allocator + Copy + Sync>(
    map: &IntMap<K, V, A>,
    key: K,
) -> Option<&V>
    ensures { option_copied result ≡ value_of K.number_of map.now.walk key }
{
    run_apart(|| map.get(key))
}
