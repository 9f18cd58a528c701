//! Sums of all values: what a count, an insertion and a merge add to them.
ghost use Rattle.std.specs.Prelude.{[], ◌+◌, ◌-◌, ◌<◌, ◌^◌, ◌↔◌, ◌≡◌, ◌≢◌, ◌≤◌, ◌⊎◌, All, Contains, IfErr, IfOk, IfSome, IsTrue, MatchOption, None, OnErr, OnOk, Some, ℕ, cond, false, is_none, length, option_map, true, unwrap_or};
ghost use Rattle.std.specs.List.{sum};
ghost use Rattle.std.specs.Map.{values_of};
ghost use Rattle.intmap.specs.Bindings.{Updates, value_of};
ghost use Rattle.intmap.specs.Classes.{same_key};
ghost use Rattle.intmap.specs.PlainLists.{RefusalIsDue, list_of};

use intmap::{Cause, IntKey, IntMap, laws};
use std::alloc::Allocator;

/// Counts one more hit of a bin, and of no other. The sum of all counts rises by one.
///
/// It fails with `Cause::TooLarge` if the count would be above 2^64 - 1, and with the insertion's
/// cause if the insertion of a new bin fails. All counts then stay.
pub fn hit<A: Allocator + Copy>(histogram: &mut IntMap<u64, u64, A>, bin: u64) -> Result<(), Cause>
    ensures counts { OnOk result (Updates (λ k. k) histogram.old.walk histogram.new.walk bin
        (Some (unwrap_or (value_of (λ k. k) histogram.old.walk bin) 0 + 1))) }
    ensures total { OnOk result
        (sum (values_of histogram.new.walk) ≡ sum (values_of histogram.old.walk) + 1) }
    ensures err { OnErr result (histogram.new.walk ≡ histogram.old.walk) }
{
    laws::insertions_change_sum::<u64>();
    let before = histogram.get(bin).copied().unwrap_or(0);
    let Some(after) = before.checked_add(1) else {
        return Err(Cause::TooLarge);
    };
    histogram.insert(bin, after)?;
    Ok(())
}

/// Sets the value of a key. The sum of all values rises by the new value, and falls by the old one.
///
/// It fails if the insertion of a new key fails. All pairs then stay.
pub fn put<A: Allocator + Copy>(
    map: &mut IntMap<u64, u64, A>,
    key: u64,
    value: u64,
) -> Result<(), Cause>
    ensures updates { OnOk result
        (Updates (λ k. k) map.old.walk map.new.walk key (Some value)) }
    ensures total { OnOk result (sum (values_of map.new.walk)
        + unwrap_or (value_of (λ k. k) map.old.walk key) 0
        ≡ sum (values_of map.old.walk) + value) }
    ensures err { OnErr result (map.new.walk ≡ map.old.walk) }
{
    laws::insertions_change_sum::<u64>();
    map.insert(key, value)?;
    Ok(())
}

/// Adds to the value of a key, which is 0 if the key is absent. Every other key keeps its value.
///
/// It fails with `Cause::TooLarge` if the sum would be above 2^64 - 1, and with the insertion's
/// cause if the insertion of a new key fails. All values then stay.
pub fn add_in<A: Allocator + Copy>(
    sums: &mut IntMap<u64, u64, A>,
    key: u64,
    more: u64,
) -> Result<(), Cause>
    ensures here { OnOk result (unwrap_or (value_of (λ k. k) sums.new.walk key) 0
        ≡ unwrap_or (value_of (λ k. k) sums.old.walk key) 0 + more) }
    ensures others { (q : ℕ) → q ≢ key
        → value_of (λ k. k) sums.new.walk q ≡ value_of (λ k. k) sums.old.walk q }
    ensures total { OnOk result
        (sum (values_of sums.new.walk) ≡ sum (values_of sums.old.walk) + more) }
    ensures err { OnErr result (sums.new.walk ≡ sums.old.walk) }
{
    laws::insertions_change_sum::<u64>();
    let before = sums.get(key).copied().unwrap_or(0);
    let Some(after) = before.checked_add(more) else {
        return Err(Cause::TooLarge);
    };
    sums.insert(key, after)?;
    Ok(())
}

/// Adds the values of another map, key by key. The sum of all values rises by theirs.
///
/// It fails if a sum doesn't fit, or if the insertion of a new key fails. Each value is then what
/// it was, or the sum that it would have become.
pub fn merge<A: Allocator + Copy>(
    sums: &mut IntMap<u64, u64, A>,
    more: &IntMap<u64, u64, A>,
) -> Result<(), Cause>
    ensures values { OnOk result ((q : ℕ) → unwrap_or (value_of (λ k. k) sums.new.walk q) 0
        ≡ unwrap_or (value_of (λ k. k) sums.old.walk q) 0
        + unwrap_or (value_of (λ k. k) more.now.walk q) 0) }
    ensures total { OnOk result (sum (values_of sums.new.walk)
        ≡ sum (values_of sums.old.walk) + sum (values_of more.now.walk)) }
    ensures err { OnErr result ((q : ℕ) → (unwrap_or (value_of (λ k. k) sums.new.walk q) 0
        ≡ unwrap_or (value_of (λ k. k) sums.old.walk q) 0)
        ⊎ (unwrap_or (value_of (λ k. k) sums.new.walk q) 0
        ≡ unwrap_or (value_of (λ k. k) sums.old.walk q) 0
        + unwrap_or (value_of (λ k. k) more.now.walk q) 0)) }
{
    for (key, value) in more.iter() {
        add_in(sums, *key, *value)?;
    }
    Ok(())
}

// The sum of all values, and the greatest.

/// The sum of all values. It is `None` if and only if the sum is above 2^64 - 1.
pub fn total<K: IntKey, A: Allocator + Copy>(map: &IntMap<K, u64, A>) -> Option<u64>
    ensures some { IfSome result (λ total. total ≡ sum (values_of map.now.walk)) }
    ensures none { result ≡ None → 2 ^ 64 ≤ sum (values_of map.now.walk) }
{
    let mut total = 0u64;
    for value in map.values() {
        total = total.checked_add(*value)?;
    }
    Some(total)
}

/// A pair with the greatest value. It is `None` if and only if the map is empty.
pub fn greatest<A: Allocator + Copy>(map: &IntMap<u64, u64, A>) -> Option<(u64, u64)>
    ensures present { IfSome result (λ pair. Contains map.now.walk pair) }
    ensures greatest { IfSome result (λ greatest. All (λ pair. pair.1 ≤ greatest.1) map.now.walk) }
    ensures values { IfSome result (λ greatest. (q v : ℕ) → q < 2 ^ 64
        → value_of (λ k. k) map.now.walk q ≡ Some v → v ≤ greatest.1) }
    ensures none { result ≡ None → map.now.walk ≡ [] }
{
    laws::pairs_are_values::<u64, u64>();
    let (key, value) = map.iter().max_by_key(|(_, value)| **value)?;
    Some((*key, *value))
}

// Balances of accounts: what calls change of them, and of their sum.

/// Moves the amount from one account to another, and returns whether it did. It does if and only if
/// they are two accounts, the first has the amount, and the second's new balance is below 2^64.
/// Else no balance changes. No other account's balance ever changes, nor the sum of all balances.
/// It never fails.
pub fn transfer<K: IntKey, A: Allocator + Copy>(
    accounts: &mut IntMap<K, u64, A>,
    from: K,
    to: K,
    amount: u64,
) -> bool
    ensures answer { IsTrue result ↔ (same_key K.number_of from to ≡ false
        × MatchOption (value_of K.number_of accounts.old.walk from) ⊥ (λ a. amount ≤ a)
        × MatchOption (value_of K.number_of accounts.old.walk to) ⊥ (λ b. b + amount < 2 ^ 64)) }
    ensures from { result ≡ true → value_of K.number_of accounts.new.walk from
        ≡ option_map (λ a. a - amount) (value_of K.number_of accounts.old.walk from) }
    ensures to { result ≡ true → value_of K.number_of accounts.new.walk to
        ≡ option_map (λ b. b + amount) (value_of K.number_of accounts.old.walk to) }
    ensures others { (q : K) → same_key K.number_of from q ≡ false
        → same_key K.number_of to q ≡ false
        → value_of K.number_of accounts.new.walk q ≡ value_of K.number_of accounts.old.walk q }
    ensures refused { result ≡ false → accounts.new ≡ accounts.old }
    ensures total { sum (values_of accounts.new.walk) ≡ sum (values_of accounts.old.walk) }
    ensures len { length accounts.new.walk ≡ length accounts.old.walk }
{
    // two keys are one if and only if their numbers are equal
    if from.number() == to.number() {
        return false;
    }
    let Some(source) = accounts.get(from) else {
        return false;
    };
    let Some(left) = source.checked_sub(amount) else {
        return false;
    };
    let Some(target) = accounts.get(to) else {
        return false;
    };
    let Some(grown) = target.checked_add(amount) else {
        return false;
    };
    *accounts.get_mut(from).unwrap() = left;
    *accounts.get_mut(to).unwrap() = grown;
    laws::writing_changes_sum::<K>();
    true
}

/// Opens an account with this balance, and returns whether it is new. An account that is there
/// keeps its balance. The sum of all balances rises by that of a new account.
///
/// It fails if the insertion of a new account fails. Every balance then stays.
pub fn open_account<K: IntKey, A: Allocator + Copy>(
    accounts: &mut IntMap<K, u64, A>,
    account: K,
    balance: u64,
) -> Result<bool, Cause>
    ensures new { IfOk result (λ new.
        new ≡ is_none (value_of K.number_of accounts.old.walk account)) }
    ensures updates { OnOk result (Updates K.number_of accounts.old.walk accounts.new.walk account
        (Some (unwrap_or (value_of K.number_of accounts.old.walk account) balance))) }
    ensures total { IfOk result (λ new. sum (values_of accounts.new.walk)
        ≡ sum (values_of accounts.old.walk) + cond new balance 0) }
    ensures refused { IfErr result (RefusalIsDue K.number_of (list_of accounts.old) account) }
    ensures err { OnErr result (accounts.new.walk ≡ accounts.old.walk) }
{
    laws::checked_insertions_change_sum::<K>();
    Ok(accounts.insert_checked(account, balance)?)
}

/// Opens an account that isn't there yet. Every other account keeps its balance. The sum of all
/// balances rises by that of the new one.
///
/// It fails if the insertion fails. Every balance then stays.
pub fn add_account<K: IntKey, A: Allocator + Copy>(
    accounts: &mut IntMap<K, u64, A>,
    account: K,
    balance: u64,
) -> Result<(), Cause>
    requires { value_of K.number_of accounts.old.walk account ≡ None }
    ensures updates { OnOk result (Updates K.number_of accounts.old.walk accounts.new.walk account
        (Some balance)) }
    ensures total { OnOk result
        (sum (values_of accounts.new.walk) ≡ sum (values_of accounts.old.walk) + balance) }
    ensures err { OnErr result (accounts.new.walk ≡ accounts.old.walk) }
{
    laws::new_keys_raise_sum::<K>();
    accounts.insert(account, balance)?;
    Ok(())
}

/// Closes an account, and returns its balance, or `None` if there was none. Every other account
/// keeps its balance. The sum of all balances falls by what it returns. It never fails.
pub fn close_account<K: IntKey, A: Allocator + Copy>(
    accounts: &mut IntMap<K, u64, A>,
    account: K,
) -> Option<u64>
    ensures value { result ≡ value_of K.number_of accounts.old.walk account }
    ensures updates { Updates K.number_of accounts.old.walk accounts.new.walk account None }
    ensures total { sum (values_of accounts.new.walk) + unwrap_or result 0
        ≡ sum (values_of accounts.old.walk) }
{
    laws::updates_change_sum::<K>();
    accounts.remove(account)
}
