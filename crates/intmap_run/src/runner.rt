//! Runs lists of commands over a map.
ghost use Rattle.std.specs.Prelude.{◌≡◌, Some, IfOk, IfErr, OnErr, MatchResult, Bool};
ghost use Rattle.intmap.specs.Map.{IsMap};
ghost use Rattle.intmap_run.specs.Runs.{RunsFrom};
ghost use Rattle.intmap_run.specs.Bounds.{PlacesFew, LeavesFewSlots};
ghost use Rattle.intmap_run.specs.Room.{KeepsRoom};
ghost use Rattle.intmap_run.specs.Steps.{StepKeepsRoom, StepsFrom};
ghost use Rattle.intmap_run.specs.declared.command.Command.TheVariants as command;
ghost use Rattle.intmap.specs.Bindings.{keep_pairs};

mod lists;

use crate::answer::Answer;
use crate::command::Command;
use crate::judge::Judge;
use crate::runner::lists::{collisions, drain, keys, values, walk};
use intmap::entry::Entry;
use intmap::{Cause, IntKey, IntMap, Refused};
use std::alloc::Allocator;
use std::mem;

/// A list with room for at most twice this number of commands gives no memory back.
const FEW: usize = 1024;

/// Runs the commands in order, and returns one answer per command, in the same order.
///
/// From every plain list of pairs that stands for the map, the commands and answers lead to one
/// that stands for the map at the end. A failed command says so in its answer, and doesn't end the
/// run. It leaves the walk, the capacity and the load factor. Only an `Extend` that stops keeps the
/// pairs that it inserted before.
///
/// The map's `compared` rises by the keys that `Insert`, `InsertChecked`, `GetMut`, `Remove`,
/// `EntryInsert`, `EntryRemove` and the pairs of `Extend` compare, failed ones too. The other
/// commands leave it. Its `placed` rises by the length after each `Insert`, `InsertChecked`,
/// `EntryInsert` or pair of `Extend` that changed the capacity, and by nothing else. If the run
/// sets g load factors, `placed` rises by at most `3 * (g + 1)` times the greatest length of the
/// run. At the end the capacity is the same as at the start, or one that a successful `Reserve` or
/// `SetLoadFactor` left, or a capacity C with `(F + 1) * C <= 2000 * length`. Here F is the load
/// factor at the end, in thousandths, and length the greatest length.
///
/// No insertion of the run fails if the map has room for all keys that the commands insert
/// (`HasRoom`), as [`IntMap::reserve_insertions`](intmap::IntMap::reserve_insertions) makes it, and
/// no command is a `Reserve` or a `SetLoadFactor`. The map at the end then has room for as many
/// keys as there was room for beyond these. A command that answers a list may still lack memory
/// for it.
///
/// It fails if there is no memory for the answers. It then returns the commands, and the map is as
/// it was.
///
/// ```text
/// #[derive(Clone, Copy)]
/// struct Plain;
///
/// impl Judge<u64, u64> for Plain {
///     type Seen = u64;
///
///     ghost sees = { λ _ value seen. seen ≡ value };
///
///     ghost keeps = { λ _ key value. true };
///
///     fn look(&self, value: &u64) -> u64 {
///         *value
///     }
///
///     fn keep(&self, _key: u64, _value: &u64) -> bool {
///         true
///     }
/// }
///
/// let mut map = IntMap::new(alloc)?;
/// let commands = vec![in alloc; Command::Insert(21, 7), Command::Get(21), Command::Len]?;
/// if let Ok(told) = run(alloc, &mut map, commands, &Plain) {
///     matches!(told[0], Answer::Old(None))        // true
///     matches!(told[1], Answer::Seen(Some(7)))    // true
///     matches!(told[2], Answer::Number(1))        // true
/// }
/// map    // {21: 7}
/// ```
pub fn run<K: IntKey, V: Drop, J: Judge<K, V>, A: Allocator + Copy>(
    alloc: A,
    map: &mut IntMap<K, V, A>,
    commands: Vec<Command<K, V, A>, A>,
    judge: &J,
) -> Result<Vec<Answer<K, V, J::Seen, A>, A>, Vec<Command<K, V, A>, A>>
    ensures ok { IfOk result (λ answers. RunsFrom K.number_of (J.sees judge.now) (J.keeps judge.now)
        map.old commands.items answers.items map.new) }
    ensures few_placements { IfOk result (λ answers. PlacesFew K.number_of (J.sees judge.now)
        (J.keeps judge.now) map.old commands.items answers.items map.new) }
    ensures last_capacity { IfOk result (λ answers. LeavesFewSlots K.number_of (J.sees judge.now)
        (J.keeps judge.now) map.old commands.items answers.items map.new) }
    ensures keeps_room { IfOk result (λ answers.
        KeepsRoom K.number_of map.old commands.items answers.items map.new) }
    ensures commands_returned { IfErr result (λ returned. returned ≡ commands) }
    ensures err { OnErr result (map.new ≡ map.old) }
    ensures valid { IsMap K.number_of K.is_valid map.old }
    ensures valid_after { IsMap K.number_of K.is_valid map.new }
{
    // any call on the map gives the proof what holds of every map, even if there is no command
    let _len = map.len();
    let Ok(mut answers) = Vec::with_capacity(alloc, commands.len()) else {
        return Err(commands);
    };
    // The next command is the last of the reversed list, which gives back memory behind its end.
    let mut left = commands;
    left.reverse();
    while let Some(command) = left.pop() {
        let answer = apply(alloc, map, command, judge);
        let Ok(()) = answers.push(answer) else {
            unreachable!();
        };
        if left.len() < (left.capacity() / 2).saturating_sub(FEW) {
            left.shrink_to_fit();
        }
    }
    Ok(answers)
}

/// Runs one command on the map, and returns its answer.
fn apply<K: IntKey, V: Drop, J: Judge<K, V>, A: Allocator + Copy>(
    alloc: A,
    map: &mut IntMap<K, V, A>,
    command: Command<K, V, A>,
    judge: &J,
) -> Answer<K, V, J::Seen, A>
    ensures step { StepsFrom K.number_of (J.sees judge.now) (J.keeps judge.now)
        map.old command result map.new }
    ensures room { StepKeepsRoom K.number_of map.old command result map.new }
    ensures valid_after { IsMap K.number_of K.is_valid map.new }
{
    match command {
        Command::Insert(key, value) => match map.insert(key, value) {
            Ok(old) => Answer::Old(old),
            Err(refused) => handed_back(refused),
        },
        Command::InsertChecked(key, value) => match map.insert_checked(key, value) {
            Ok(new) => Answer::Flag(new),
            Err(refused) => handed_back(refused),
        },
        Command::Get(key) => match map.get(key) {
            Some(value) => Answer::Seen(Some(judge.look(value))),
            None => Answer::Seen(None),
        },
        Command::GetMut(key, value) => match map.get_mut(key) {
            Some(place) => Answer::Old(Some(mem::replace(place, value))),
            None => Answer::Back(value),
        },
        Command::ContainsKey(key) => Answer::Flag(map.contains_key(key)),
        Command::Remove(key) => Answer::Old(map.remove(key)),
        Command::Clear => {
            map.clear();
            Answer::Done
        }
        Command::Retain => {
            keep_all(map, judge);
            Answer::Done
        }
        Command::Reserve(additional) => done(map.reserve(additional)),
        Command::SetLoadFactor(thousandths) => done(map.set_load_factor(thousandths)),
        Command::GetLoadFactor => Answer::Number(map.get_load_factor() as u128),
        Command::EntryInsert(key, value) => entry_insert::<K, V, J, A>(map, key, value),
        Command::EntryRemove(key) => entry_remove::<K, V, J, A>(map, key),
        Command::Extend(pairs) => extend::<K, V, J, A>(map, pairs),
        Command::Drain(count) => drain::<K, V, J, A>(alloc, map, count),
        Command::Len => Answer::Number(map.len() as u128),
        Command::IsEmpty => Answer::Flag(map.is_empty()),
        Command::Capacity => Answer::Number(map.capacity() as u128),
        Command::Load => Answer::Number(map.load() as u128),
        Command::LoadRate => Answer::Number(map.load_rate()),
        Command::AssertCount => Answer::Flag(map.assert_count()),
        Command::Walk => walk(alloc, map, judge),
        Command::Keys => keys::<K, V, J, A>(alloc, map),
        Command::Values => values(alloc, map, judge),
        Command::Collisions => collisions::<K, V, J, A>(alloc, map),
    }
}

/// The answer of an insertion by an entry, whatever the judge is.
fn entry_insert<K: IntKey, V: Drop, J: Judge<K, V>, A: Allocator + Copy>(
    map: &mut IntMap<K, V, A>,
    key: K,
    value: V,
) -> Answer<K, V, J::Seen, A>
    ensures step { (judge : J) → StepsFrom K.number_of (J.sees judge) (J.keeps judge)
        map.old (command.EntryInsert key value) result map.new }
    ensures room { StepKeepsRoom K.number_of map.old (command.EntryInsert key value) result
        map.new }
    ensures valid_after { IsMap K.number_of K.is_valid map.new }
{
    match map.entry(key) {
        Entry::Occupied(mut entry) => {
            let old = entry.insert(value);
            entry.leave();
            Answer::Old(Some(old))
        }
        Entry::Vacant(entry) => match entry.insert(value) {
            Ok(_value) => Answer::Fresh,
            Err(refused) => handed_back(refused),
        },
    }
}

/// The answer of a removal by an entry, whatever the judge is.
fn entry_remove<K: IntKey, V: Drop, J: Judge<K, V>, A: Allocator + Copy>(
    map: &mut IntMap<K, V, A>,
    key: K,
) -> Answer<K, V, J::Seen, A>
    ensures step { (judge : J) → StepsFrom K.number_of (J.sees judge) (J.keeps judge)
        map.old (command.EntryRemove key) result map.new }
    ensures room { StepKeepsRoom K.number_of map.old (command.EntryRemove key) result map.new }
    ensures valid_after { IsMap K.number_of K.is_valid map.new }
{
    match map.entry(key) {
        Entry::Occupied(entry) => Answer::Old(Some(entry.remove())),
        Entry::Vacant(_entry) => Answer::Old(None),
    }
}

/// The answer of an insertion of several pairs, whatever the judge is.
fn extend<K: IntKey, V: Drop, J: Judge<K, V>, A: Allocator + Copy>(
    map: &mut IntMap<K, V, A>,
    pairs: Vec<(K, V), A>,
) -> Answer<K, V, J::Seen, A>
    ensures step { (judge : J) → StepsFrom K.number_of (J.sees judge) (J.keeps judge)
        map.old (command.Extend pairs) result map.new }
    ensures room { StepKeepsRoom K.number_of map.old (command.Extend pairs) result map.new }
    ensures valid_after { IsMap K.number_of K.is_valid map.new }
{
    match map.extend(pairs.into_iter()) {
        Ok(()) => Answer::Done,
        Err(refused) => Answer::Stopped(refused),
    }
}

/// Says which pairs stay, as a judge does.
// a closure that holds a judge gets no proof, since `Judge` has an associated type
trait Keeps<K, V> {
    /// What `stays` returns for a key and its value.
    ghost stays_at: { Self → K → V → Bool };

    /// Whether the pair stays.
    fn stays(&self, key: K, value: &V) -> bool
        ensures { result ≡ stays_at self.now key value.now };
}

impl<K, V, J: Judge<K, V>> Keeps<K, V> for J {
    ghost stays_at = { J.keeps };

    fn stays(&self, key: K, value: &V) -> bool {
        self.keep(key, value)
    }
}

/// Keeps the pairs that stay by the keeper, and drops the others.
fn keep_all<K: IntKey, V: Drop, S: Keeps<K, V>, A: Allocator + Copy>(
    map: &mut IntMap<K, V, A>,
    keeper: &S,
)
    ensures walk { map.new.walk ≡ keep_pairs (S.stays_at keeper.now) map.old.walk }
    ensures state { map.new ≡ record map.old { walk = map.new.walk } }
    ensures valid { IsMap K.number_of K.is_valid map.old }
    ensures valid_after { IsMap K.number_of K.is_valid map.new }
{
    map.retain(|key, value| keeper.stays(key, value));
}

/// The answer of a failed insertion, which returns the value.
fn handed_back<K, V: Drop, S, A: Allocator>(refused: Refused<V>) -> Answer<K, V, S, A>
    ensures { result ≡ Answer.Refused refused.cause (Some refused.value) }
{
    Answer::Refused {
        cause: refused.cause,
        value: Some(refused.value),
    }
}

/// The answer of a call that returns no value.
fn done<K, V, S, A: Allocator>(called: Result<(), Cause>) -> Answer<K, V, S, A>
    ensures { MatchResult called (λ _. result ≡ Answer.Done)
        (λ cause. result ≡ Answer.Refused cause None) }
{
    match called {
        Ok(()) => Answer::Done,
        Err(cause) => Answer::Refused { cause, value: None },
    }
}
