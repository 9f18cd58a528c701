//! Ways to go through a map: by reference, by value, page by page, and to write each value.
ghost use Rattle.std.specs.Prelude.{◌+◌, ◌<◌, ◌^◌, ◌≡◌, All, IfNone, IfOk, IfSome, None, cond, is_some, length};
ghost use Rattle.std.specs.Iterator.{YieldsFirst, item_count};
ghost use Rattle.std.specs.List.{slice_get};
ghost use Rattle.std.specs.Map.{keys_of, values_of};
ghost use Rattle.intmap.specs.Bindings.{HasDistinctKeys, Updates};
ghost use Rattle.intmap.specs.Map.{IsMap};
ghost use Rattle.intmap.specs.Writes.{Writes, WritesAt};
ghost use Rattle.callers.specs.Bindings.{more_by_keys, one_more};

use intmap::iter::Cursor;
use intmap::{IntKey, IntMap};
use std::alloc::{AllocError, Allocator, Global};
use std::marker::Model;
use std::mem;

/// What each way to go through a map gave, in order.
#[derive(Drop)]
pub struct Walks<K, V, A: Allocator = Global> {
    /// What `iter` gave.
    pub pairs: Vec<(K, V), A>,
    /// What `keys` gave.
    pub keys: Vec<K, A>,
    /// What `values` gave.
    pub values: Vec<V, A>,
    /// What `into_iter` gave.
    pub handed_out: Vec<(K, V), A>,
}

/// Goes through the map in each way to the end. All give the same walk, in which no key occurs
/// twice.
///
/// It fails if there is no memory for what they give.
pub fn walk_each_way<K: IntKey, V: Copy, A: Allocator + Copy>(
    alloc: A,
    map: IntMap<K, V, A>,
) -> Result<Walks<K, V, A>, AllocError>
    ensures pairs { IfOk result (λ walks. walks.pairs.items ≡ map.walk) }
    ensures keys { IfOk result (λ walks. walks.keys.items ≡ keys_of walks.pairs.items) }
    ensures values { IfOk result (λ walks. walks.values.items ≡ values_of walks.pairs.items) }
    ensures handed_out { IfOk result (λ walks. walks.handed_out.items ≡ walks.pairs.items) }
    ensures once { HasDistinctKeys K.number_of map.walk }
{
    Ok(Walks {
        pairs: list_pairs(alloc, &map)?,
        keys: list_keys(alloc, &map)?,
        values: list_values(alloc, &map)?,
        handed_out: hand_out(alloc, map)?,
    })
}

/// The pairs of the map. It fails if there is no memory for them.
fn list_pairs<K: IntKey, V: Copy, A: Allocator + Copy>(
    alloc: A,
    map: &IntMap<K, V, A>,
) -> Result<Vec<(K, V), A>, AllocError>
    ensures walk { IfOk result (λ pairs. pairs.items ≡ map.now.walk) }
    ensures distinct { HasDistinctKeys K.number_of map.now.walk }
{
    map.iter().map(|(key, value)| (*key, *value)).collect(alloc)
}

/// The keys of the map. It fails if there is no memory for them.
fn list_keys<K: IntKey, V: Copy, A: Allocator + Copy>(
    alloc: A,
    map: &IntMap<K, V, A>,
) -> Result<Vec<K, A>, AllocError>
    ensures { IfOk result (λ keys. keys.items ≡ keys_of map.now.walk) }
{
    map.keys().copied().collect(alloc)
}

/// The values of the map. It fails if there is no memory for them.
fn list_values<K: IntKey, V: Copy, A: Allocator + Copy>(
    alloc: A,
    map: &IntMap<K, V, A>,
) -> Result<Vec<V, A>, AllocError>
    ensures { IfOk result (λ values. values.items ≡ values_of map.now.walk) }
{
    map.values().copied().collect(alloc)
}

/// The pairs of the map by value. It fails if there is no memory for them.
fn hand_out<K: IntKey, V: Copy, A: Allocator + Copy>(
    alloc: A,
    map: IntMap<K, V, A>,
) -> Result<Vec<(K, V), A>, AllocError>
    ensures { IfOk result (λ pairs. pairs.items ≡ map.walk) }
{
    map.into_iter().collect(alloc)
}

// A map that is shown page by page: a cursor says where the next page begins.

/// The pairs that are left to be shown. Contracts see them as a list.
#[derive(Drop)]
pub struct Page<'a, A: Allocator + Copy> {
    map: &'a IntMap<u64, u64, A>,
    at: Cursor,
}

impl<'a, A: Allocator + Copy> Model for Page<'a, A> {
    ghost use Rattle.std.specs.Prelude.{ℕ, List, drop};
    ghost use Rattle.intmap.specs.Map.{passed};

    ghost Value = { List (ℕ × ℕ) };

    ghost view = { λ page. drop (passed (λ key. key) page.map.now page.at) page.map.now.walk };
}

impl<A: Allocator + Copy> Iterator for Page<'_, A> {
    type Item = (u64, u64);

    ghost next_gives = { YieldsFirst (λ rest. rest) };

    ghost remaining = { item_count (λ rest. rest) };

    fn next(&mut self) -> Option<(u64, u64)> {
        let (key, value) = self.map.step(&mut self.at)?;
        Some((*key, *value))
    }
}

/// The first page.
pub fn first_page<A: Allocator + Copy>(map: &IntMap<u64, u64, A>) -> Page<'_, A>
    ensures { result ≡ map.now.walk }
{
    Page {
        map,
        at: Cursor::start(),
    }
}

/// The second pair of the walk.
pub fn second<A: Allocator + Copy>(map: &IntMap<u64, u64, A>) -> Option<(u64, u64)>
    ensures { result ≡ slice_get map.now.walk 1 }
{
    let mut at = Cursor::start();
    map.step(&mut at)?;
    let (key, value) = map.step(&mut at)?;
    Some((*key, *value))
}

/// Removes the second pair of the walk and returns it. All other keys keep their values. If there
/// is no such pair, the walk stays.
pub fn cut_second<A: Allocator + Copy>(map: &mut IntMap<u64, u64, A>) -> Option<(u64, u64)>
    ensures pair { result ≡ slice_get map.old.walk 1 }
    ensures updates { IfSome result (λ pair. Updates (λ key. key) map.old.walk map.new.walk
        pair.0 None) }
    ensures none { IfNone result (map.new.walk ≡ map.old.walk) }
    ensures len { length map.new.walk + cond (is_some result) 1 0 ≡ length map.old.walk }
{
    let mut at = Cursor::start();
    map.step(&mut at)?;
    map.cut(&mut at)
}

// All values written in one pass, each by itself.

/// Adds one to each value; 2^64 - 1 becomes 0. The keys stay, and so does their order.
pub fn add_one_to_all<K: IntKey, A: Allocator + Copy>(map: &mut IntMap<K, u64, A>)
    ensures walk { map.new.walk ≡ one_more map.old.walk }
    ensures keys { keys_of map.new.walk ≡ keys_of map.old.walk }
    ensures capacity { map.new.capacity ≡ map.old.capacity }
{
    map.for_each_mut(|_, value| *value = value.wrapping_add(1));
}

/// Adds its key to each value. No sum is too large, since each value is added to its own key alone.
pub fn add_keys<A: Allocator + Copy>(map: &mut IntMap<u64, u64, A>)
    requires { All (λ pair. pair.0 + pair.1 < 2 ^ 64) map.old.walk }
    ensures walk { map.new.walk ≡ more_by_keys map.old.walk }
    ensures keys { keys_of map.new.walk ≡ keys_of map.old.walk }
    ensures capacity { map.new.capacity ≡ map.old.capacity }
{
    map.for_each_mut(|key, value| *value += key);
}

/// Lets the caller's closure write each value, and returns how many values it wrote.
#[tactic(auto, using(intmap::proofs::Callers::writes_each_callable))]
pub fn write_counted<K: IntKey, V, A: Allocator + Copy, F: FnMut(K, &mut V)>(
    map: &mut IntMap<K, V, A>,
    write: F,
) -> usize
    requires { F.IsAlwaysCallable write }
    ensures values { (last : F) × Writes (WritesAt F.FnMut) write map.old.walk map.new.walk last }
    ensures count { result ≡ length map.old.walk }
    ensures keys { keys_of map.new.walk ≡ keys_of map.old.walk }
    ensures capacity { map.new.capacity ≡ map.old.capacity }
{
    map.for_each_mut(write);
    map.len()
}

// Values that are written in one walk over a map, while its keys stay.

/// Sets the first `count` values of the walk to zero, or all if there are fewer. The keys keep
/// their order, and the map its slots.
pub fn clear_first<K: IntKey, A: Allocator + Copy>(map: &mut IntMap<K, u64, A>, count: usize)
    ensures keys { keys_of map.new.walk ≡ keys_of map.old.walk }
    ensures len { length map.new.walk ≡ length map.old.walk }
    ensures capacity { map.new.capacity ≡ map.old.capacity }
    ensures factor { map.new.factor ≡ map.old.factor }
    ensures valid_after { IsMap K.number_of K.is_valid map.new }
{
    let mut left = count;
    for (_, value) in map.iter_mut() {
        if left == 0 {
            return;
        }
        *value = 0;
        left -= 1;
    }
}

/// Adds to each value, modulo 2^64. The keys keep their order, no key is compared, and no pair is
/// moved.
pub fn add_to_all<K: IntKey, A: Allocator + Copy>(map: &mut IntMap<K, u64, A>, more: u64)
    ensures keys { keys_of map.new.walk ≡ keys_of map.old.walk }
    ensures capacity { map.new.capacity ≡ map.old.capacity }
    ensures placed { map.new.placed ≡ map.old.placed }
    ensures compared { map.new.compared ≡ map.old.compared }
    ensures valid_after { IsMap K.number_of K.is_valid map.new }
{
    for value in map.values_mut() {
        *value = value.wrapping_add(more);
    }
}

/// Sets each value to its key. The keys keep their order, and the map its slots.
pub fn bind_to_themselves<A: Allocator + Copy>(map: &mut IntMap<u64, u64, A>)
    ensures keys { keys_of map.new.walk ≡ keys_of map.old.walk }
    ensures len { length map.new.walk ≡ length map.old.walk }
    ensures capacity { map.new.capacity ≡ map.old.capacity }
    ensures factor { map.new.factor ≡ map.old.factor }
    ensures valid_after { IsMap (λ key. key) (λ key. key < 2 ^ 64) map.new }
{
    for (key, value) in &mut *map {
        *value = *key;
    }
}

/// Sets the first value of the walk to zero, if there is one, and forgets the iterator. The keys
/// keep their order, and the map its slots.
pub fn clear_one<K: IntKey, A: Allocator + Copy>(map: &mut IntMap<K, u64, A>)
    ensures keys { keys_of map.new.walk ≡ keys_of map.old.walk }
    ensures len { length map.new.walk ≡ length map.old.walk }
    ensures capacity { map.new.capacity ≡ map.old.capacity }
    ensures valid_after { IsMap K.number_of K.is_valid map.new }
{
    let mut values = map.values_mut();
    if let Some(value) = values.next() {
        *value = 0;
    }
    mem::forget(values);
}
