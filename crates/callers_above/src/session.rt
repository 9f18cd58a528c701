//! Runs of commands, described by one plain list of pairs.
ghost use Rattle.std.specs.Prelude.{◌≡◌, ◌≤◌, ◌++◌, ◌∷◌, [], All, IfOk, IfErr, Some, None};
ghost use Rattle.intmap.specs.PlainLists.{PlainList, Stands, empty_list};
ghost use Rattle.intmap_run.specs.Bounds.{LeavesFewSlots, PlacesFew};
ghost use Rattle.intmap_run.specs.Room.{IsNoFailedInsertion, LeavesSlots, most_inserted};
ghost use Rattle.intmap_run.specs.Runs.{Runs, RunsFrom};
ghost use Rattle.callers_above.specs.Sessions.{RunsTwice, Stops};

use intmap::{Cause, IntKey, IntMap, laws};
use intmap_run::{Answer, Command, Judge, laws as run_laws, run};
use std::alloc::{Allocator, Global};

/// Sees each number as itself, and keeps all.
#[derive(Clone, Copy)]
pub struct Plain;

impl Judge<u64, u64> for Plain {
    type Seen = u64;

    ghost use Rattle.std.specs.Prelude.{◌≡◌, true};

    ghost sees = { λ _ value seen. seen ≡ value };

    ghost keeps = { λ _ key value. true };

    fn look(&self, value: &u64) -> u64 {
        *value
    }

    fn keep(&self, _key: u64, _value: &u64) -> bool {
        true
    }
}

/// The point at which two runs stopped for want of memory.
#[derive(Drop)]
pub enum Stopped<K, V, S, A: Allocator = Global> {
    /// Before the first run. It has the commands of both.
    First(Vec<Command<K, V, A>, A>, Vec<Command<K, V, A>, A>),
    /// Before the second run. It has the answers of the first, and the commands of the second.
    Second(Vec<Answer<K, V, S, A>, A>, Vec<Command<K, V, A>, A>),
}

/// Runs two lists of commands on a map, one after the other. The first commands and answers lead
/// from every plain list of pairs that stands for the map to another list. The second ones lead
/// from that list to one that stands for the map at the end. Both are one run of all commands,
/// which places as few pairs and leaves as few slots as every run does.
///
/// It fails if there is no memory for the answers of a run. Before the first run, the map is then
/// as it was. Before the second, it is as the first left it.
pub fn run_twice<K: IntKey, V: Drop, J: Judge<K, V>, A: Allocator + Copy>(
    alloc: A,
    map: &mut IntMap<K, V, A>,
    first: Vec<Command<K, V, A>, A>,
    second: Vec<Command<K, V, A>, A>,
    judge: &J,
) -> Result<
    (
        Vec<Answer<K, V, J::Seen, A>, A>,
        Vec<Answer<K, V, J::Seen, A>, A>,
    ),
    Stopped<K, V, J::Seen, A>,
>
    ensures ok { IfOk result (λ answers. RunsTwice K.number_of (J.sees judge.now)
        (J.keeps judge.now) map.old first.items answers.0.items second.items answers.1.items
        map.new) }
    ensures joined { IfOk result (λ answers. RunsFrom K.number_of (J.sees judge.now)
        (J.keeps judge.now) map.old (first.items ++ second.items)
        (answers.0.items ++ answers.1.items) map.new) }
    ensures few_placements { IfOk result (λ answers. PlacesFew K.number_of (J.sees judge.now)
        (J.keeps judge.now) map.old (first.items ++ second.items)
        (answers.0.items ++ answers.1.items) map.new) }
    ensures last_capacity { IfOk result (λ answers. LeavesFewSlots K.number_of (J.sees judge.now)
        (J.keeps judge.now) map.old (first.items ++ second.items)
        (answers.0.items ++ answers.1.items) map.new) }
    ensures err { IfErr result (Stops K.number_of (J.sees judge.now) (J.keeps judge.now)
        map.old first second map.new) }
{
    run_laws::runs_join::<K, V, J, A>();
    run_laws::runs_place_few::<K, V, J, A>();
    run_laws::runs_leave_few_slots::<K, V, J, A>();
    let early = match run(alloc, map, first, judge) {
        Ok(early) => early,
        Err(first) => return Err(Stopped::First(first, second)),
    };
    match run(alloc, map, second, judge) {
        Ok(late) => Ok((early, late)),
        Err(second) => Err(Stopped::Second(early, second)),
    }
}

/// Makes room for `count` keys, and runs commands that insert at most as many. No insertion fails.
///
/// It fails if the room can't be made, or if there is no memory for the answers. It then returns
/// the commands.
pub fn run_in_room<K: IntKey, V: Drop, J: Judge<K, V>, A: Allocator + Copy>(
    alloc: A,
    map: &mut IntMap<K, V, A>,
    count: usize,
    commands: Vec<Command<K, V, A>, A>,
    judge: &J,
) -> Result<Vec<Answer<K, V, J::Seen, A>, A>, Vec<Command<K, V, A>, A>>
    requires few { most_inserted commands.items ≤ count }
    requires slots { All LeavesSlots commands.items }
    ensures inserted { IfOk result (λ answers. All IsNoFailedInsertion answers.items) }
    ensures err { IfErr result (λ returned. returned ≡ commands) }
{
    match map.reserve_insertions(count) {
        Ok(()) => run(alloc, map, commands, judge),
        Err(_cause) => Err(commands),
    }
}

/// Runs the commands on a new map, and returns the map with the answers. The commands and answers
/// lead from no pairs in 4 slots to a list that stands for the map.
///
/// It fails if there is no memory.
pub fn run_anew<K: IntKey, V: Drop, J: Judge<K, V>, A: Allocator + Copy>(
    alloc: A,
    commands: Vec<Command<K, V, A>, A>,
    judge: &J,
) -> Result<(IntMap<K, V, A>, Vec<Answer<K, V, J::Seen, A>, A>), Cause>
    ensures ok { IfOk result (λ made. (t : PlainList K V)
        × Runs K.number_of (J.sees judge.now) (J.keeps judge.now) (empty_list 4) commands.items
        made.1.items t × Stands K.number_of t made.0) }
    ensures err { IfErr result (λ cause. cause ≡ Cause.Memory) }
{
    run_laws::no_pairs_stand_for_a_new_map::<K, V>();
    let mut map = IntMap::new(alloc)?;
    match run(alloc, &mut map, commands, judge) {
        Ok(answers) => Ok((map, answers)),
        Err(_commands) => Err(Cause::Memory),
    }
}

/// On a new map, inserts 7 with 1 and then with 2, looks up 7, removes it, and reads the length. No
/// command fails once there is a map and memory for the answers.
///
/// It fails if there is no memory.
pub fn five_answers(alloc: Global) -> Result<Vec<Answer<u64, u64, u64>>, Cause>
    ensures ok { IfOk result (λ answers. answers.items ≡ Answer.Old None ∷ Answer.Old (Some 1)
        ∷ Answer.Seen (Some 2) ∷ Answer.Old (Some 2) ∷ Answer.Number 0 ∷ []) }
    ensures err { IfErr result (λ cause. cause ≡ Cause.Memory) }
{
    laws::pairs_that_need_no_memory_are_never_refused::<u64, u64>();
    let mut map: IntMap<u64, u64> = IntMap::new(alloc)?;
    let Ok(commands) = vec![in alloc;
        Command::Insert(7, 1),
        Command::Insert(7, 2),
        Command::Get(7),
        Command::Remove(7),
        Command::Len,
    ] else {
        return Err(Cause::Memory);
    };
    match run(alloc, &mut map, commands, &Plain) {
        Ok(answers) => Ok(answers),
        Err(_) => Err(Cause::Memory),
    }
}
