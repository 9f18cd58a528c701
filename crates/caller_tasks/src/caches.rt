//! Tables of results, in which each number has its square or no value yet; and a cache.
ghost use Rattle.std.specs.Prelude.{◌%◌, ◌*◌, ◌+◌, ◌<◌, ◌^◌, ◌≡◌, ◌≢◌, ◌≤◌, IfOk, OnErr, OnOk, Some, ℕ, drop, length, unwrap_or};
ghost use Rattle.intmap.specs.Bindings.{Updates, value_of};

use intmap::{Cause, IntMap};
use std::alloc::Allocator;

/// The square of a number, modulo 2^64.
fn squared(x: u64) -> u64
    ensures { result ≡ (x * x) % 2 ^ 64 }
{
    x.wrapping_mul(x)
}

/// The square of a number, from the table or computed and then kept there. Every other number keeps
/// its value.
///
/// It fails if the insertion of a new number fails. Every number then keeps its value.
pub fn square_by_get<A: Allocator + Copy>(
    table: &mut IntMap<u64, u64, A>,
    x: u64,
) -> Result<u64, Cause>
    requires { (q v : ℕ) → value_of (λ key. key) table.old.walk q ≡ Some v → v ≡ (q * q) % 2 ^ 64 }
    ensures answer { IfOk result (λ r. r ≡ (x * x) % 2 ^ 64) }
    ensures kept { IfOk result (λ r. value_of (λ key. key) table.new.walk x ≡ Some r) }
    ensures others { (q : ℕ) → q ≢ x
        → value_of (λ key. key) table.new.walk q ≡ value_of (λ key. key) table.old.walk q }
    ensures right { (q v : ℕ) → value_of (λ key. key) table.new.walk q ≡ Some v
        → v ≡ (q * q) % 2 ^ 64 }
    ensures err { OnErr result (table.new.walk ≡ table.old.walk) }
{
    if let Some(known) = table.get(x) {
        return Ok(*known);
    }
    let made = squared(x);
    table.insert(x, made)?;
    Ok(made)
}

/// The value that the table has for a number. If it has none, the number's square becomes its
/// value first.
///
/// It fails if the insertion of a new number fails. All values then stay.
fn known_or_squared<A: Allocator + Copy>(
    table: &mut IntMap<u64, u64, A>,
    x: u64,
) -> Result<u64, Cause>
    ensures value { IfOk result (λ r. r
        ≡ unwrap_or (value_of (λ key. key) table.old.walk x) ((x * x) % 2 ^ 64)) }
    ensures updates { IfOk result (λ r.
        Updates (λ key. key) table.old.walk table.new.walk x (Some r)) }
    ensures err { OnErr result (table.new.walk ≡ table.old.walk) }
{
    let found = table.entry(x).or_insert_with_key(|key| squared(key))?;
    Ok(*found)
}

/// The square of a number, by an entry, which is then kept in the table. The function before says
/// what it changes of the table, and this one what that means. Every other number keeps its value.
///
/// It fails if the insertion of a new number fails. Every number then keeps its value.
pub fn square_by_entry<A: Allocator + Copy>(
    table: &mut IntMap<u64, u64, A>,
    x: u64,
) -> Result<u64, Cause>
    requires { (q v : ℕ) → value_of (λ key. key) table.old.walk q ≡ Some v → v ≡ (q * q) % 2 ^ 64 }
    ensures answer { IfOk result (λ r. r ≡ (x * x) % 2 ^ 64) }
    ensures kept { IfOk result (λ r. value_of (λ key. key) table.new.walk x ≡ Some r) }
    ensures others { (q : ℕ) → q ≢ x
        → value_of (λ key. key) table.new.walk q ≡ value_of (λ key. key) table.old.walk q }
    ensures right { (q v : ℕ) → value_of (λ key. key) table.new.walk q ≡ Some v
        → v ≡ (q * q) % 2 ^ 64 }
    ensures err { OnErr result (table.new.walk ≡ table.old.walk) }
{
    known_or_squared(table, x)
}

// A cache of limited size: if it is full, an insertion first removes the first pair.

/// Gives a key its value. If there are as many pairs as the limit, the first pair is removed first,
/// even if the key is present. No other pair is removed.
///
/// It fails if the insertion fails. The removed pair is then gone all the same, and every other
/// pair stays.
pub fn keep<A: Allocator + Copy>(
    cache: &mut IntMap<u64, u64, A>,
    limit: usize,
    key: u64,
    value: u64,
) -> Result<(), Cause>
    requires some { 0 < limit }
    requires full { length cache.old.walk ≤ limit }
    ensures here { OnOk result (value_of (λ k. k) cache.new.walk key ≡ Some value) }
    ensures few { length cache.new.walk ≤ limit }
    ensures others { length cache.old.walk < limit → (q : ℕ) → q ≢ key
        → value_of (λ k. k) cache.new.walk q ≡ value_of (λ k. k) cache.old.walk q }
    ensures evicts { length cache.old.walk ≡ limit → (q : ℕ) → q ≢ key
        → value_of (λ k. k) cache.new.walk q ≡ value_of (λ k. k) (drop 1 cache.old.walk) q }
    ensures stays { OnErr result (length cache.old.walk < limit
        → cache.new.walk ≡ cache.old.walk) }
    ensures lost { OnErr result (length cache.old.walk ≡ limit
        → cache.new.walk ≡ drop 1 cache.old.walk) }
    ensures one { length cache.old.walk ≤ length cache.new.walk + 1 }
{
    if cache.len() >= limit {
        cache.take_front(&mut 0);
    }
    cache.insert(key, value)?;
    Ok(())
}
