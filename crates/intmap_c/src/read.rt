//! Calls that only read. Any number of them may run at once while a map is lent.
//!
//! C lends the map of a word, as [`is_lent`] says, and has the loan back from each call. It ends
//! the loan before it next passes the word to a call that may write.
ghost use Rattle.std.specs.Prelude.{◌≡◌, is_some, length};
ghost use Rattle.std.specs.Borrow.{sem};
ghost use Rattle.intmap_c.specs.Answers.{value_found};
ghost use Rattle.intmap_c.specs.Calls.{AreEqual, Clones, bound_to, filled_slots_of, map_of};
ghost use Rattle.intmap_c.specs.Loans.{Loan, is_lent};
ghost use Rattle.intmap_c.specs.Walks.{CopiesPairs, TakesStep};

use crate::answer::{FoundPair, FoundValue, OK, Pair};
use crate::handle::{Handle, take};
use crate::lent::{LentMap, Word};
use crate::make::keep;
use intmap::iter::Cursor;
use intmap::laws;
use std::alloc::Global;
use std::marker::PhantomData;

/// The number of slots of a new map, which a word without a map stands for.
const FIRST_CAPACITY: usize = 4;

/// The load factor of a new map, in thousandths.
const FIRST_LOAD_FACTOR: usize = 909;

/// Returns what [`intmap_len`] returns.
fn len(lent: LentMap<'_>) -> usize
    ensures { result ≡ length (map_of lent.entry.value).walk }
{
    match lent.map() {
        None => 0,
        Some(map) => map.len(),
    }
}

/// The number of pairs.
#[unsafe(no_mangle)]
pub unsafe extern "C" fn intmap_len(word: &Word) -> usize
    ghost loan: { Loan }
    requires* { sem 𝓛 (is_lent loan word.now.at) }
    ensures* kept { sem 𝓛 (is_lent loan word.now.at) }
    ensures value { result ≡ length (map_of loan.value).walk }
{
    let lent = LentMap {
        at: word.at,
        life: PhantomData,
    };
    len(lent)
}

/// Returns what [`intmap_capacity`] returns.
fn capacity(lent: LentMap<'_>) -> usize
    ensures { result ≡ (map_of lent.entry.value).capacity }
{
    match lent.map() {
        None => FIRST_CAPACITY,
        Some(map) => map.capacity(),
    }
}

/// The number of slots, which is 4 if there is no map yet.
#[unsafe(no_mangle)]
pub unsafe extern "C" fn intmap_capacity(word: &Word) -> usize
    ghost loan: { Loan }
    requires* { sem 𝓛 (is_lent loan word.now.at) }
    ensures* kept { sem 𝓛 (is_lent loan word.now.at) }
    ensures value { result ≡ (map_of loan.value).capacity }
{
    let lent = LentMap {
        at: word.at,
        life: PhantomData,
    };
    capacity(lent)
}

/// Returns what [`intmap_load_factor`] returns.
fn load_factor(lent: LentMap<'_>) -> usize
    ensures { result ≡ (map_of lent.entry.value).factor }
{
    match lent.map() {
        None => FIRST_LOAD_FACTOR,
        Some(map) => map.get_load_factor(),
    }
}

/// The load factor in thousandths, which is 909 if there is no map yet.
#[unsafe(no_mangle)]
pub unsafe extern "C" fn intmap_load_factor(word: &Word) -> usize
    ghost loan: { Loan }
    requires* { sem 𝓛 (is_lent loan word.now.at) }
    ensures* kept { sem 𝓛 (is_lent loan word.now.at) }
    ensures value { result ≡ (map_of loan.value).factor }
{
    let lent = LentMap {
        at: word.at,
        life: PhantomData,
    };
    load_factor(lent)
}

/// Returns what [`intmap_filled_slots`] returns.
fn filled_slots(lent: LentMap<'_>) -> usize
    ensures { result ≡ filled_slots_of (map_of lent.entry.value) }
{
    match lent.map() {
        None => 0,
        Some(map) => map.load() as usize,
    }
}

/// The number of slots that hold a pair.
#[unsafe(no_mangle)]
pub unsafe extern "C" fn intmap_filled_slots(word: &Word) -> usize
    ghost loan: { Loan }
    requires* { sem 𝓛 (is_lent loan word.now.at) }
    ensures* kept { sem 𝓛 (is_lent loan word.now.at) }
    ensures value { result ≡ filled_slots_of (map_of loan.value) }
{
    let lent = LentMap {
        at: word.at,
        life: PhantomData,
    };
    filled_slots(lent)
}

/// Returns what [`intmap_get`] returns.
fn get(lent: LentMap<'_>, key: u64) -> FoundValue
    ensures { result ≡ value_found (bound_to (map_of lent.entry.value) key) }
{
    match lent.map() {
        None => FoundValue::of(None),
        Some(map) => FoundValue::of(map.get(key).copied()),
    }
}

/// The value of the key.
#[unsafe(no_mangle)]
pub unsafe extern "C" fn intmap_get(word: &Word, key: u64) -> FoundValue
    ghost loan: { Loan }
    requires* { sem 𝓛 (is_lent loan word.now.at) }
    ensures* kept { sem 𝓛 (is_lent loan word.now.at) }
    ensures value { result ≡ value_found (bound_to (map_of loan.value) key) }
{
    let lent = LentMap {
        at: word.at,
        life: PhantomData,
    };
    get(lent, key)
}

/// Returns what [`intmap_contains_key`] returns.
fn contains_key(lent: LentMap<'_>, key: u64) -> bool
    ensures { result ≡ is_some (bound_to (map_of lent.entry.value) key) }
{
    match lent.map() {
        None => false,
        Some(map) => map.contains_key(key),
    }
}

/// Whether the key is present.
#[unsafe(no_mangle)]
pub unsafe extern "C" fn intmap_contains_key(word: &Word, key: u64) -> bool
    ghost loan: { Loan }
    requires* { sem 𝓛 (is_lent loan word.now.at) }
    ensures* kept { sem 𝓛 (is_lent loan word.now.at) }
    ensures value { result ≡ is_some (bound_to (map_of loan.value) key) }
{
    let lent = LentMap {
        at: word.at,
        life: PhantomData,
    };
    contains_key(lent, key)
}

/// Returns what [`intmap_step`] returns.
fn step(lent: LentMap<'_>, at: &mut Cursor) -> FoundPair
    ensures { TakesStep (map_of lent.entry.value) at.old at.new result }
{
    match lent.map() {
        None => FoundPair::of(None),
        Some(map) => match map.step(at) {
            Some((key, value)) => FoundPair::of(Some((*key, *value))),
            None => FoundPair::of(None),
        },
    }
}

/// The first pair of the walk from the cursor on, behind which the cursor moves. A walk begins with
/// a cursor of zeros, and goes on with what the last call left. Where no pair is left, the cursor
/// stays.
#[unsafe(no_mangle)]
pub unsafe extern "C" fn intmap_step(word: &Word, at: &mut Cursor) -> FoundPair
    ghost loan: { Loan }
    requires* lent { sem 𝓛 (is_lent loan word.now.at) }
    ensures* kept { sem 𝓛 (is_lent loan word.now.at) }
    ensures step { TakesStep (map_of loan.value) at.old at.new result }
{
    let lent = LentMap {
        at: word.at,
        life: PhantomData,
    };
    step(lent, at)
}

/// Copies pairs, and returns what [`intmap_copy_pairs`] returns.
fn copy_pairs(lent: LentMap<'_>, at: &mut Cursor, pairs: &mut [Pair]) -> usize
    ensures { CopiesPairs (map_of lent.entry.value) at.old at.new pairs.old pairs.new result }
{
    match lent.map() {
        None => 0,
        Some(map) => map.copy_pairs(at, pairs),
    }
}

/// Copies the pairs of the walk from the cursor on to the front of an array, and moves the cursor
/// behind them. It returns how many it copied: as many as the array has elements, or all that are
/// left if they are fewer. The other elements stay.
#[unsafe(no_mangle)]
pub unsafe extern "C" fn intmap_copy_pairs(
    word: &Word,
    at: &mut Cursor,
    pairs: &mut [Pair],
) -> usize
    ghost loan: { Loan }
    requires* lent { sem 𝓛 (is_lent loan word.now.at) }
    ensures* kept { sem 𝓛 (is_lent loan word.now.at) }
    ensures copies { CopiesPairs (map_of loan.value) at.old at.new pairs.old pairs.new result }
{
    let lent = LentMap {
        at: word.at,
        life: PhantomData,
    };
    copy_pairs(lent, at, pairs)
}

/// Returns what [`intmap_equal`] returns.
fn equal(lent: LentMap<'_>, other: LentMap<'_>) -> bool
    ensures { AreEqual (map_of lent.entry.value) (map_of other.entry.value) result }
{
    laws::equal_maps_bind_the_same::<u64, u64>();
    match (lent.map(), other.map()) {
        (Some(map), Some(other)) => map == other,
        (Some(map), None) => map.is_empty(),
        (None, Some(other)) => other.is_empty(),
        (None, None) => true,
    }
}

/// Whether the same keys have the same values in both maps.
#[unsafe(no_mangle)]
pub unsafe extern "C" fn intmap_equal(word: &Word, other: &Word) -> bool
    ghost loans: { Loan × Loan }
    requires* first { sem 𝓛 (is_lent loans.0 word.now.at) }
    requires* second { sem 𝓛 (is_lent loans.1 other.now.at) }
    ensures* first { sem 𝓛 (is_lent loans.0 word.now.at) }
    ensures* second { sem 𝓛 (is_lent loans.1 other.now.at) }
    ensures value { AreEqual (map_of loans.0.value) (map_of loans.1.value) result }
{
    let lent = LentMap {
        at: word.at,
        life: PhantomData,
    };
    let other = LentMap {
        at: other.at,
        life: PhantomData,
    };
    equal(lent, other)
}

/// Makes a map, and returns what [`intmap_clone`] returns.
fn clone(alloc: Global, lent: LentMap<'_>, to: &mut Handle) -> i32
    ensures { Clones lent.entry.value to.old.value to.new.value result }
{
    match lent.map() {
        None => {
            drop(take(to, alloc));
            OK
        }
        Some(map) => keep(alloc, to, map.clone()),
    }
}

/// Makes a map in `to` with the same pairs in the same order, as many slots and the same load
/// factor, and returns `OK`. If there is no map, `to` has none then. If `to` had a map, that map is
/// freed. It fails only with `NO_MEMORY`, if an allocation fails, and then leaves `to`.
#[unsafe(no_mangle)]
pub unsafe extern "C" fn intmap_clone(alloc: Global, word: &Word, to: &mut Handle) -> i32
    ghost loan: { Loan }
    requires* { sem 𝓛 (is_lent loan word.now.at) }
    ensures* kept { sem 𝓛 (is_lent loan word.now.at) }
    ensures outcome { Clones loan.value to.old.value to.new.value result }
{
    let lent = LentMap {
        at: word.at,
        life: PhantomData,
    };
    clone(alloc, lent, to)
}
