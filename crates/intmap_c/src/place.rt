//! The call that gives the address of a value.
//!
//! The C program gives up the map of a word. It gets the address of a value, and the right to
//! exchange that value for the map, as [`lends_place`] says. It must make the exchange before it
//! next passes the word to a call.
ghost use Rattle.std.specs.Prelude.{◌≡◌};
ghost use Rattle.std.specs.Borrow.{sem};
ghost use Rattle.std.specs.Option.{option_copied_mut};
ghost use Rattle.intmap_c.specs.Calls.{bound_to, map_of};
ghost use Rattle.intmap_c.specs.Handles.{MaybeMap, owns_map};
ghost use Rattle.intmap_c.specs.Places.{Leaves, lends_place, lends_value};

use crate::lent::Word;
use intmap::IntMap;
use std::ptr::null_mut;

/// The value of the key in its place, if the key is present.
fn find(map: &mut IntMap<u64, u64>, key: u64) -> Option<&mut u64>
    ensures* writes_back { sem 𝓛 (lends_value map.entry key result) }
    ensures value { option_copied_mut result ≡ bound_to map.old key }
    ensures leaves { Leaves map.old key }
{
    map.get_mut(key)
}

/// Writes the address of the value of the key, or null if the key is absent. The value may be read
/// and written there until the next call with the map. It allocates nothing.
#[unsafe(no_mangle)]
pub unsafe extern "C" fn intmap_place(word: &mut Word, key: u64, at: &mut *mut u64)
    ghost value: { MaybeMap.Denot }
    requires* { sem 𝓛 (owns_map word.old.at value) }
    ensures* lent { lends_place 𝓛 word.new.at value key at.new }
    ensures leaves { Leaves (map_of value) key }
{
    *at = null_mut();
    let map = word.at;
    if map.is_null() {
        return;
    }
    let map = map as *mut IntMap<u64, u64>;
    if let Some(value) = find(unsafe { &mut *map }, key) {
        *at = value as *mut u64;
    }
}
