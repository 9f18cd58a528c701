//! Keeps a value whose insertion failed.
ghost use Rattle.std.specs.Prelude.{◌≡◌, ℕ, IfErr, OnErr, OnOk, Some};
ghost use Rattle.intmap.specs.Bindings.{value_of};

use intmap::{IntMap, Refused};
use std::alloc::Allocator;

/// Gives the key the value.
///
/// It fails if the insertion fails, and returns the value. Each key then keeps its value.
pub fn insert_or_return<V: Drop, A: Allocator + Copy>(
    map: &mut IntMap<u64, V, A>,
    key: u64,
    value: V,
) -> Result<(), V>
    ensures here { OnOk result (value_of (λ key. key) map.new.walk key ≡ Some value) }
    ensures value_returned { IfErr result (λ returned. returned ≡ value) }
    ensures err { OnErr result ((q : ℕ)
        → value_of (λ key. key) map.new.walk q ≡ value_of (λ key. key) map.old.walk q) }
{
    match map.insert(key, value) {
        Ok(_old) => Ok(()),
        Err(Refused { value, cause: _ }) => Err(value),
    }
}
