//! Pairs that stay and pairs that go: by a test, by the scope of a name, and from a queue's front.
ghost use Rattle.std.specs.Prelude.{[], ◌%◌, ◌++◌, ◌+◌, ◌==◌, ◌≡◌, ◌≤◌, All, IfSome, IsSome, List, None, OnErr, OnOk, Some, ℕ, cond, count_by, drop, false, filter, is_some, length, nat_le, nat_lt, not, slice_index_or, take};
ghost use Rattle.std.specs.List.{slice_get};
ghost use Rattle.std.specs.List.Retain.{ExtractsNext};
ghost use Rattle.std.specs.Option.{option_map};
ghost use Rattle.intmap.specs.Bindings.{Updates, value_of};
ghost use Rattle.intmap.specs.Picking.{PicksAt};
ghost use Rattle.intmap.specs.Retaining.{KeepsAt, Retains};
ghost use Rattle.intmap.specs.Unsigned.{value_at};
ghost use Rattle.callers.specs.declared.retained.Symbol.{Symbol};

use intmap::{Cause, IntKey, IntMap};
use std::alloc::{AllocError, Allocator};

/// Drops the pairs whose key is odd. The others keep their order and their slots.
pub fn drop_odd<V: Drop, A: Allocator + Copy>(map: &mut IntMap<u64, V, A>)
    ensures walk { map.new.walk ≡ filter (λ pair. pair.0 % 2 == 0) map.old.walk }
    ensures capacity { map.new.capacity ≡ map.old.capacity }
{
    map.retain(|key, _| key % 2 == 0);
}

/// Drops the pairs that have this value, whatever their keys.
pub fn drop_value<A: Allocator + Copy>(map: &mut IntMap<u64, u64, A>, value: u64)
    ensures walk { map.new.walk ≡ filter (λ pair. not (pair.1 == value)) map.old.walk }
    ensures capacity { map.new.capacity ≡ map.old.capacity }
{
    map.retain(|_, stored| *stored != value);
}

/// Keeps the pairs for whose keys the table has true, and drops the others.
pub fn keep_listed<V: Drop, A: Allocator + Copy>(map: &mut IntMap<u64, V, A>, keeps: &[bool])
    ensures walk { map.new.walk
        ≡ filter (λ pair. slice_index_or keeps.now pair.0 false) map.old.walk }
    ensures capacity { map.new.capacity ≡ map.old.capacity }
{
    map.retain(|key, _| keeps.get(key as usize).copied().unwrap_or(false));
}

/// Keeps the first `count` pairs of the walk, or all if there are fewer. The closure counts down
/// the pairs that are still to be kept.
pub fn keep_first<K: IntKey, V: Drop, A: Allocator + Copy>(map: &mut IntMap<K, V, A>, count: usize)
    ensures walk { map.new.walk ≡ take count map.old.walk }
    ensures capacity { map.new.capacity ≡ map.old.capacity }
{
    let mut left = count;
    map.retain(move |_, _| {
        let keeps = 0 < left;
        left = left.saturating_sub(1);
        keeps
    });
}

/// Keeps the pairs for which the caller's closure returns true, and returns how many were removed.
#[tactic(auto, using(intmap::proofs::Callers::keeps_each_callable))]
pub fn retain_counted<K: IntKey, V: Drop, A: Allocator + Copy, F: FnMut(K, &V) -> bool>(
    map: &mut IntMap<K, V, A>,
    keeps: F,
) -> usize
    requires { F.IsAlwaysCallable keeps }
    ensures pairs { (last : F) × Retains (KeepsAt F.FnMut) keeps map.old.walk map.new.walk last }
    ensures count { length map.new.walk + result ≡ length map.old.walk }
    ensures capacity { map.new.capacity ≡ map.old.capacity }
{
    let before = map.len();
    map.retain(keeps);
    before - map.len()
}

// Pairs that stay, and what becomes of the value of each key.

/// Removes the keys below a bound. Each other key keeps its value.
pub fn prune<V: Drop, A: Allocator + Copy>(map: &mut IntMap<u64, V, A>, bound: u64)
    ensures left { (q : ℕ) → value_at map.new.walk q
        ≡ cond (nat_le bound q) (value_at map.old.walk q) None }
    ensures fewer { length map.new.walk ≤ length map.old.walk }
{
    map.retain(|key, _| key >= bound);
}

/// Keeps the pairs whose value is above their key.
pub fn keep_rising<A: Allocator + Copy>(map: &mut IntMap<u64, u64, A>)
    ensures walk { map.new.walk ≡ filter (λ pair. nat_lt pair.0 pair.1) map.old.walk }
    ensures here { (q v : ℕ) → value_at map.old.walk q ≡ Some v
        → value_at map.new.walk q ≡ cond (nat_lt q v) (Some v) None }
{
    map.retain(|key, value| key < *value);
}

/// Keeps the pairs whose value is at least `least`, and drops the others. An absent key stays
/// absent.
pub fn keep_some<K: IntKey, A: Allocator + Copy>(map: &mut IntMap<K, u64, A>, least: u64)
    ensures walk { map.new.walk ≡ filter (λ pair. nat_le least pair.1) map.old.walk }
    ensures none_comes { (q : K) → value_of K.number_of map.old.walk q ≡ None
        → value_of K.number_of map.new.walk q ≡ None }
{
    map.retain(|_, value| *value >= least);
}

// A table of symbols with scopes: names are numbers, each declared at the depth of its scope.

/// What a name stands for, and the depth of the scope that declared it.
#[derive(Clone, Copy)]
pub struct Symbol {
    /// The depth of the scope that declared the name.
    pub depth: u64,
    /// What the name stands for.
    pub value: u64,
}

/// Removes the first declared name of this depth, if there is one, and returns it. No other name is
/// removed.
pub fn forget_one(names: &mut IntMap<u64, Symbol>, depth: u64) -> Option<(u64, Symbol)>
    ensures first { result ≡ slice_get (filter (λ name. name.1.depth == depth) names.old.walk) 0 }
    ensures declared { IfSome result (λ name. IsSome (value_at names.old.walk name.0)) }
    ensures same_depth { filter (λ name. name.1.depth == depth) names.new.walk
        ≡ drop 1 (filter (λ name. name.1.depth == depth) names.old.walk) }
    ensures others { filter (λ name. not (name.1.depth == depth)) names.new.walk
        ≡ filter (λ name. not (name.1.depth == depth)) names.old.walk }
    ensures count { length names.new.walk + cond (is_some result) 1 0 ≡ length names.old.walk }
    ensures capacity { names.new.capacity ≡ names.old.capacity }
{
    let mut left = names.extract_if(move |_, symbol| symbol.depth == depth);
    left.next()
}

/// Leaves the scopes of this depth: removes the names that they declared, and returns how many
/// there were. The other names stand for what they stood for, and keep their order.
pub fn leave_scope(names: &mut IntMap<u64, Symbol>, depth: u64) -> usize
    ensures names { (name : ℕ) (symbol : Symbol) → value_at names.old.walk name ≡ Some symbol
        → value_at names.new.walk name ≡ cond (not (symbol.depth == depth)) (Some symbol) None }
    ensures none_comes { (name : ℕ) → value_at names.old.walk name ≡ None
        → value_at names.new.walk name ≡ None }
    ensures walk { names.new.walk ≡ filter (λ name. not (name.1.depth == depth)) names.old.walk }
    ensures count { result ≡ count_by (λ name. name.1.depth == depth) names.old.walk }
    ensures capacity { names.new.capacity ≡ names.old.capacity }
{
    let count = names
        .iter()
        .filter(|(_, symbol)| symbol.depth == depth)
        .count();
    names.retain(|_, symbol| symbol.depth != depth);
    count
}

/// Removes the names of this depth one by one, by `extract_if`. The others keep their order.
pub fn forget_all(names: &mut IntMap<u64, Symbol>, depth: u64)
    ensures walk { names.new.walk ≡ filter (λ name. not (name.1.depth == depth)) names.old.walk }
    ensures capacity { names.new.capacity ≡ names.old.capacity }
{
    let mut left = names.extract_if(move |_, symbol| symbol.depth == depth);
    while let Some(_name) = left.next() {}
}

// Work by number: a queue whose jobs are removed from the front of the walk.

/// The number of the job at the front of the queue, if there is one.
pub fn next_job<V, A: Allocator + Copy>(queue: &IntMap<u64, V, A>) -> Option<u64>
    ensures { result ≡ option_map (λ job. job.0) (slice_get queue.now.walk 0) }
{
    let (number, _) = queue.first_key_value()?;
    Some(*number)
}

/// Removes the job at the front of the queue and returns it. No other job is lost, and the others
/// keep their order.
pub fn pop<V: Drop, A: Allocator + Copy>(queue: &mut IntMap<u64, V, A>) -> Option<(u64, V)>
    ensures first { result ≡ slice_get queue.old.walk 0 }
    ensures walk { queue.new.walk ≡ drop 1 queue.old.walk }
    ensures updates { IfSome result (λ job. Updates (λ key. key) queue.old.walk queue.new.walk
        job.0 None) }
    ensures len { length queue.new.walk + cond (is_some result) 1 0 ≡ length queue.old.walk }
{
    queue.take_front(&mut 0)
}

/// Removes one job after another from the queue, and puts it behind those that are done. No job is
/// lost: the jobs that are done, followed by those in the queue, are the same as before, in the
/// same order.
///
/// It fails if there is no memory for one more job. The jobs that aren't done then stay in the
/// queue.
pub fn work_off<V: Drop, A: Allocator + Copy>(
    queue: &mut IntMap<u64, V, A>,
    done: &mut Vec<(u64, V), A>,
) -> Result<(), AllocError>
    ensures jobs { done.new.items ++ queue.new.walk ≡ done.old.items ++ queue.old.walk }
    ensures none { OnOk result (queue.new.walk ≡ []) }
    ensures capacity { queue.new.capacity ≡ queue.old.capacity }
{
    let mut left = queue.len();
    let mut jobs = queue.drain();
    while left > 0 {
        done.reserve(1)?;
        let Some(job) = jobs.next() else {
            unreachable!();
        };
        done.push_reserved(job);
        left -= 1;
    }
    Ok(())
}

// Calls that want a lemma: what holds of all pairs, and a closure of any type.

/// Forgets one student, and notes the grade of another. The grades of the others stay, and no grade
/// is above `most`.
///
/// It fails if the insertion of a new student fails. The one student is then forgotten all the
/// same.
pub fn replace_student<A: Allocator + Copy>(
    grades: &mut IntMap<u64, u64, A>,
    former: u64,
    student: u64,
    grade: u64,
    most: u64,
) -> Result<(), Cause>
    requires fits { grade ≤ most }
    requires fit { All (λ pair. pair.1 ≤ most) grades.old.walk }
    ensures fit_after { All (λ pair. pair.1 ≤ most) grades.new.walk }
    ensures grades { OnOk result ((q : ℕ) → value_at grades.new.walk q
        ≡ cond (student == q) (Some grade)
        (cond (former == q) None (value_at grades.old.walk q))) }
    ensures forgotten { OnErr result ((q : ℕ) → value_at grades.new.walk q
        ≡ cond (former == q) None (value_at grades.old.walk q)) }
{
    grades.remove(former);
    grades.insert(student, grade)?;
    Ok(())
}

/// Removes the first pair for which the caller's closure returns true, and returns it. The pairs
/// before it stay as the closure left them, and those behind it as they were.
#[tactic(auto, using(intmap::proofs::Callers::extracts_each_callable))]
pub fn extract_first<K: IntKey, V: Drop, A: Allocator + Copy, F: FnMut(K, &mut V) -> bool>(
    map: &mut IntMap<K, V, A>,
    picks: F,
) -> Option<(K, V)>
    requires { F.IsAlwaysCallable picks }
    ensures step { (last : F) × (kept rest : List (K × V))
        × ExtractsNext (PicksAt F.FnMut) picks map.old.walk result last kept rest
        × (map.new.walk ≡ kept ++ rest) }
    ensures capacity { map.new.capacity ≡ map.old.capacity }
{
    map.extract_if(picks).next()
}
