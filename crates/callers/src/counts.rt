//! How often each key occurs.
ghost use Rattle.std.specs.Prelude.{◌+◌, ◌-◌, ◌<◌, ◌==◌, ◌^◌, ◌↔◌, ◌≡◌, IfOk, IsErrOf, OnErr, OnOk, Some, ℕ, cond, count_by, false, length, unwrap_or};
ghost use Rattle.std.specs.List.{sum};
ghost use Rattle.std.specs.Map.{values_of};
ghost use Rattle.intmap.specs.Bindings.{Updates};
ghost use Rattle.intmap.specs.Classes.{same_key};
ghost use Rattle.intmap.specs.Unsigned.{count_at};
ghost use Rattle.callers.specs.Bindings.{count_of};
ghost use Rattle.callers.specs.declared.counts.Uncounted.TheVariants.{TooOften};

use intmap::{Cause, IntKey, IntMap, Refused, laws};
use std::alloc::{Allocator, Global};
use std::marker::Model;

/// Counts one occurrence of the number, by its entry.
///
/// It fails if the insertion of a new number fails. All counts then stay.
pub fn count_by_entry<A: Allocator + Copy>(
    tally: &mut IntMap<u64, u64, A>,
    number: u64,
) -> Result<(), Cause>
    requires { count_at tally.old.walk number < 2 ^ 64 - 1 }
    ensures counts { OnOk result (Updates (λ key. key) tally.old.walk tally.new.walk number
        (Some (count_at tally.old.walk number + 1))) }
    ensures err { OnErr result (tally.new.walk ≡ tally.old.walk) }
{
    *tally.entry(number).or_insert(0)? += 1;
    Ok(())
}

/// Counts one occurrence of the number: a closure changes its count, or the count begins with 1.
///
/// It fails if the insertion of a new number fails. All counts then stay.
pub fn count_by_closure<A: Allocator + Copy>(
    tally: &mut IntMap<u64, u64, A>,
    number: u64,
) -> Result<(), Cause>
    requires { count_at tally.old.walk number < 2 ^ 64 - 1 }
    ensures counts { OnOk result (Updates (λ key. key) tally.old.walk tally.new.walk number
        (Some (count_at tally.old.walk number + 1))) }
    ensures err { OnErr result (tally.new.walk ≡ tally.old.walk) }
{
    let entry = tally.entry(number).and_modify(
        |count: &mut u64|
            requires { count.old < 2 ^ 64 - 1 }
            ensures { count.new ≡ count.old + 1 }
        {
            *count += 1;
        },
    );
    entry.or_insert(1)?;
    Ok(())
}

/// Counts one occurrence of the number, by a reference to its count.
///
/// It fails if the insertion of a new number fails. All counts then stay.
pub fn count_by_get_mut<A: Allocator + Copy>(
    tally: &mut IntMap<u64, u64, A>,
    number: u64,
) -> Result<(), Cause>
    requires { count_at tally.old.walk number < 2 ^ 64 - 1 }
    ensures counts { OnOk result (Updates (λ key. key) tally.old.walk tally.new.walk number
        (Some (count_at tally.old.walk number + 1))) }
    ensures err { OnErr result (tally.new.walk ≡ tally.old.walk) }
{
    if let Some(count) = tally.get_mut(number) {
        *count += 1;
    } else {
        tally.insert(number, 1)?;
    }
    Ok(())
}

/// Counts one occurrence of the number. The sum of all counts rises by one too. No count is above
/// that sum, so the new count fits.
///
/// It fails if the insertion of a new number fails.
pub fn count_within_sum<A: Allocator + Copy>(
    tally: &mut IntMap<u64, u64, A>,
    number: u64,
) -> Result<(), Cause>
    requires { sum (values_of tally.old.walk) < 2 ^ 64 - 1 }
    ensures counts { OnOk result ((q : ℕ) → count_at tally.new.walk q
        ≡ count_at tally.old.walk q + cond (number == q) 1 0) }
    ensures total { OnOk result
        (sum (values_of tally.new.walk) ≡ sum (values_of tally.old.walk) + 1) }
{
    laws::values_are_within_sum::<u64>();
    laws::entries_change_sum::<u64, A>();
    *tally.entry(number).or_insert(0)? += 1;
    Ok(())
}

/// Each number of the slice, with how often it occurs there. The counts add up to how many numbers
/// there are.
///
/// It fails if the map can't be made or the insertion of a new number fails.
pub fn tally_by_entry<A: Allocator + Copy>(
    alloc: A,
    numbers: &[u64],
) -> Result<IntMap<u64, u64, A>, Cause>
    ensures counts { IfOk result (λ tally. (q : ℕ)
        → count_at tally.walk q ≡ count_by (λ number. number == q) numbers.now) }
    ensures total { IfOk result (λ tally. sum (values_of tally.walk) ≡ length numbers.now) }
{
    let mut tally = IntMap::new(alloc)?;
    for number in numbers {
        count_within_sum(&mut tally, *number)?;
    }
    Ok(tally)
}

// Counts of keys in a struct around a map.

/// Counts of keys. Contracts see them as a list of pairs and read that list by `count_of`, which is
/// 0 at a key that was never counted.
#[derive(Drop)]
pub struct Counter<K: IntKey, A: Allocator + Copy = Global> {
    counts: IntMap<K, u64, A>,
}

impl<K: IntKey, A: Allocator + Copy> Model for Counter<K, A> {
    ghost use Rattle.std.specs.Prelude.{ℕ, List};
    ghost use Rattle.callers.specs.Bindings.{HasNoZeros};

    ghost Value = { List (K × ℕ) };

    ghost view = { λ counter. counter.counts.walk };

    ghost invariant = { λ counter. HasNoZeros K.number_of counter.counts.walk };
}

/// Why an occurrence was not counted.
#[derive(Clone, Copy, PartialEq, Eq, Debug)]
pub enum Uncounted {
    /// The count is 2^64 - 1.
    TooOften,
    /// The count of a new key could not be inserted.
    Refused(Cause),
}

impl From<Refused<u64>> for Uncounted {
    ghost use Rattle.std.specs.Prelude.{◌≡◌};
    ghost use Rattle.callers.specs.declared.counts.Uncounted.TheVariants as uncounted;

    ghost from_gives = { λ refused why. why ≡ uncounted.Refused refused.cause };

    fn from(refused: Refused<u64>) -> Uncounted {
        Uncounted::Refused(refused.cause)
    }
}

impl<K: IntKey, A: Allocator + Copy> Counter<K, A> {
    /// A counter of no keys. It fails if an allocation fails.
    pub fn new(alloc: A) -> Result<Counter<K, A>, Cause>
        ensures none { IfOk result (λ counter. (q : K) → count_of K.number_of counter q ≡ 0) }
        ensures len { IfOk result (λ counter. length counter ≡ 0) }
    {
        Ok(Counter {
            counts: IntMap::new(alloc)?,
        })
    }

    /// How often the key was counted.
    pub fn count_of(&self, key: K) -> u64
        ensures { result ≡ count_of K.number_of self.now key }
    {
        self.counts.get(key).copied().unwrap_or(0)
    }

    /// How many keys were counted.
    pub fn len(&self) -> usize
        ensures { result ≡ length self.now }
    {
        self.counts.len()
    }

    /// Counts one occurrence of the key, and returns its new count.
    ///
    /// It fails with `TooOften` if and only if the count is 2^64 - 1, and with `Refused` if the
    /// insertion of a new key fails. All counts then stay.
    pub fn count(&mut self, key: K) -> Result<u64, Uncounted>
        ensures count { IfOk result (λ count. count ≡ count_of K.number_of self.new key) }
        ensures here { OnOk result
            (count_of K.number_of self.new key ≡ count_of K.number_of self.old key + 1) }
        ensures others { (q : K) → same_key K.number_of key q ≡ false
            → count_of K.number_of self.new q ≡ count_of K.number_of self.old q }
        ensures len { OnOk result (length self.new
            ≡ length self.old + cond (count_of K.number_of self.old key == 0) 1 0) }
        ensures too_often { IsErrOf result TooOften
            ↔ (count_of K.number_of self.old key ≡ 2 ^ 64 - 1) }
        ensures err { OnErr result ((q : K)
            → count_of K.number_of self.new q ≡ count_of K.number_of self.old q) }
    {
        let before = self.count_of(key);
        let Some(count) = before.checked_add(1) else {
            return Err(Uncounted::TooOften);
        };
        self.counts.insert(key, count)?;
        Ok(count)
    }
}
