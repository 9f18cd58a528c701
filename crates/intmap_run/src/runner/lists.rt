//! Commands whose answer is a list. The list's memory is allocated before the map changes.
ghost use Rattle.std.specs.Prelude.{◌≡◌, ℕ, ◌^◌, ◌<◌, take, drop, None, IfOk, OnErr};
ghost use Rattle.std.specs.List.{AllZip};
ghost use Rattle.std.specs.Map.{keys_of, values_of};
ghost use Rattle.intmap.specs.Extending.{IsMadeOf};
ghost use Rattle.intmap.specs.Figures.{collisions_of};
ghost use Rattle.intmap.specs.Map.{MapState, IsMap, with_walk};
ghost use Rattle.intmap.specs.declared.refusal.Cause.TheVariants.{Memory};
ghost use Rattle.intmap_run.specs.declared.command.Command.TheVariants as command;
ghost use Rattle.intmap_run.specs.Runs.{SeesPair};
ghost use Rattle.intmap_run.specs.Room.{IsNoFailedInsertion};
ghost use Rattle.intmap_run.specs.Steps.{StepKeepsRoom, StepsFrom};

use crate::answer::Answer;
use crate::judge::Judge;
use intmap::{Cause, IntKey, IntMap};
use std::alloc::{AllocError, Allocator};

/// The answer if there is no memory for a list.
fn no_room<K, V, S, A: Allocator>() -> Answer<K, V, S, A>
    ensures { result ≡ Answer.Refused Memory None }
{
    Answer::Refused {
        cause: Cause::Memory,
        value: None,
    }
}

/// The answer of a walk.
pub(crate) fn walk<K: IntKey, V: Drop, J: Judge<K, V>, A: Allocator + Copy>(
    alloc: A,
    map: &IntMap<K, V, A>,
    judge: &J,
) -> Answer<K, V, J::Seen, A>
    ensures step { StepsFrom K.number_of (J.sees judge.now) (J.keeps judge.now)
        map.now command.Walk result map.now }
    ensures answer { IsNoFailedInsertion result }
    ensures valid { IsMap K.number_of K.is_valid map.now }
{
    match look_all(alloc, map, judge) {
        Ok(pairs) => Answer::Walk(pairs),
        Err(_) => no_room(),
    }
}

/// The answer of a walk of the keys, whatever the judge is.
pub(crate) fn keys<K: IntKey, V: Drop, J: Judge<K, V>, A: Allocator + Copy>(
    alloc: A,
    map: &IntMap<K, V, A>,
) -> Answer<K, V, J::Seen, A>
    ensures step { (judge : J) → StepsFrom K.number_of (J.sees judge) (J.keeps judge)
        map.now command.Keys result map.now }
    ensures answer { IsNoFailedInsertion result }
    ensures valid { IsMap K.number_of K.is_valid map.now }
{
    match all_keys(alloc, map) {
        Ok(keys) => Answer::Keys(keys),
        Err(_) => no_room(),
    }
}

/// The answer of a walk of the values.
pub(crate) fn values<K: IntKey, V: Drop, J: Judge<K, V>, A: Allocator + Copy>(
    alloc: A,
    map: &IntMap<K, V, A>,
    judge: &J,
) -> Answer<K, V, J::Seen, A>
    ensures step { StepsFrom K.number_of (J.sees judge.now) (J.keeps judge.now)
        map.now command.Values result map.now }
    ensures answer { IsNoFailedInsertion result }
    ensures valid { IsMap K.number_of K.is_valid map.now }
{
    match look_at_values(alloc, map, judge) {
        Ok(seen) => Answer::Values(seen),
        Err(_) => no_room(),
    }
}

/// The answer of a drain of the given number of pairs, whatever the judge is.
pub(crate) fn drain<K: IntKey, V: Drop, J: Judge<K, V>, A: Allocator + Copy>(
    alloc: A,
    map: &mut IntMap<K, V, A>,
    count: usize,
) -> Answer<K, V, J::Seen, A>
    ensures step { (judge : J) → StepsFrom K.number_of (J.sees judge) (J.keeps judge)
        map.old (command.Drain count) result map.new }
    ensures room { StepKeepsRoom K.number_of map.old (command.Drain count) result map.new }
    ensures valid_after { IsMap K.number_of K.is_valid map.new }
{
    match take_front(alloc, map, count) {
        Ok(pairs) => Answer::Pairs(pairs),
        Err(_) => no_room(),
    }
}

/// The answer with the sizes of slots, whatever the judge is.
pub(crate) fn collisions<K: IntKey, V: Drop, J: Judge<K, V>, A: Allocator + Copy>(
    alloc: A,
    map: &IntMap<K, V, A>,
) -> Answer<K, V, J::Seen, A>
    ensures step { (judge : J) → StepsFrom K.number_of (J.sees judge) (J.keeps judge)
        map.now command.Collisions result map.now }
    ensures answer { IsNoFailedInsertion result }
    ensures valid { IsMap K.number_of K.is_valid map.now }
{
    match all_sizes(alloc, map) {
        Ok(sizes) => Answer::Sizes(sizes),
        Err(_) => no_room(),
    }
}

/// Each key of the walk, with what the judge sees of its value. It fails if there is no memory for
/// the list.
fn look_all<K: IntKey, V: Drop, J: Judge<K, V>, A: Allocator + Copy>(
    alloc: A,
    map: &IntMap<K, V, A>,
    judge: &J,
) -> Result<Vec<(K, J::Seen), A>, AllocError>
    ensures ok { IfOk result
        (λ seen. AllZip (SeesPair (J.sees judge.now)) map.now.walk seen.items) }
    ensures valid { IsMap K.number_of K.is_valid map.now }
{
    let mut seen = Vec::with_capacity(alloc, map.len())?;
    for (key, value) in map.iter() {
        seen.push_reserved((*key, judge.look(value)));
    }
    Ok(seen)
}

/// Each key of the walk. It fails if there is no memory for the list.
fn all_keys<K: IntKey, V: Drop, A: Allocator + Copy>(
    alloc: A,
    map: &IntMap<K, V, A>,
) -> Result<Vec<K, A>, AllocError>
    ensures ok { IfOk result (λ keys. keys.items ≡ keys_of map.now.walk) }
    ensures valid { IsMap K.number_of K.is_valid map.now }
{
    let mut keys = Vec::with_capacity(alloc, map.len())?;
    for key in map.keys() {
        keys.push_reserved(*key);
    }
    Ok(keys)
}

/// What the judge sees of each value of the walk. It fails if there is no memory for the list.
fn look_at_values<K: IntKey, V: Drop, J: Judge<K, V>, A: Allocator + Copy>(
    alloc: A,
    map: &IntMap<K, V, A>,
    judge: &J,
) -> Result<Vec<J::Seen, A>, AllocError>
    ensures ok { IfOk result
        (λ seen. AllZip (J.sees judge.now) (values_of map.now.walk) seen.items) }
    ensures valid { IsMap K.number_of K.is_valid map.now }
{
    let mut seen = Vec::with_capacity(alloc, map.len())?;
    for value in map.values() {
        seen.push_reserved(judge.look(value));
    }
    Ok(seen)
}

/// Removes the given number of pairs from the front of the walk, or all if there are fewer, and
/// returns them. It fails if there is no memory for the list, and the map is then as it was.
fn take_front<K: IntKey, V: Drop, A: Allocator + Copy>(
    alloc: A,
    map: &mut IntMap<K, V, A>,
    count: usize,
) -> Result<Vec<(K, V), A>, AllocError>
    ensures pairs { IfOk result (λ pairs. pairs.items ≡ take count map.old.walk) }
    ensures state { IfOk result (λ pairs. map.new ≡ with_walk map.old (drop count map.old.walk)) }
    ensures err { OnErr result (map.new ≡ map.old) }
    ensures valid { IsMap K.number_of K.is_valid map.old }
    ensures valid_after { IsMap K.number_of K.is_valid map.new }
{
    let taken = count.min(map.len());
    let mut pairs = Vec::with_capacity(alloc, taken)?;
    let mut drain = map.drain();
    for _ in 0..taken {
        let Some(pair) = drain.next() else {
            unreachable!();
        };
        pairs.push_reserved(pair);
    }
    Ok(pairs)
}

/// The pairs of the map that `collisions` makes, in the order of its walk. It fails if there is no
/// memory for that map or for the list.
fn all_sizes<K: IntKey, V: Drop, A: Allocator + Copy>(
    alloc: A,
    map: &IntMap<K, V, A>,
) -> Result<Vec<(u64, u64), A>, Cause>
    ensures ok { IfOk result (λ sizes. (made : MapState ℕ ℕ)
        × IsMadeOf (λ n. n) (λ n. n < 2 ^ 64)
        (collisions_of K.number_of map.now.walk map.now.capacity)
        made
        × (sizes.items ≡ made.walk)) }
    ensures valid { IsMap K.number_of K.is_valid map.now }
{
    let mut sizes = map.collisions()?;
    let count = sizes.len();
    match take_front(alloc, &mut sizes, count) {
        Ok(pairs) => Ok(pairs),
        Err(_) => Err(Cause::Memory),
    }
}
