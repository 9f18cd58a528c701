//! Calls that remove pairs along the walk.
ghost use Rattle.std.specs.Prelude.{◌≡◌, ⊤};
ghost use Rattle.intmap.specs.Map.{emptied};
ghost use Rattle.intmap_c.specs.Answers.{no_pair};
ghost use Rattle.intmap_c.specs.Calls.{OnMap};
ghost use Rattle.intmap_c.specs.Walks.{Cuts};
ghost use Rattle.intmap_c.specs.Statuses.{absent_status};

use crate::answer::FoundPair;
use crate::handle::{Handle, put, take};
use intmap::IntMap;
use intmap::iter::Cursor;
use std::alloc::Global;

/// Removes a pair, and returns what [`intmap_cut`] returns.
fn cut(map: &mut IntMap<u64, u64>, at: &mut Cursor) -> FoundPair
    ensures { Cuts map.old map.new at.old at.new result }
{
    FoundPair::of(map.cut(at))
}

/// Removes the first pair of the walk from the cursor on and returns it. The other pairs keep their
/// order, and the cursor is then before those that were behind it. Where no pair is left, the
/// cursor stays. It allocates nothing.
#[unsafe(no_mangle)]
pub extern "C" fn intmap_cut(alloc: Global, handle: &mut Handle, at: &mut Cursor) -> FoundPair
    ensures { OnMap handle.old.value handle.new.value
        ((result ≡ no_pair absent_status) × (at.new ≡ at.old))
        (λ m n. Cuts m n at.old at.new result) }
{
    match take(handle, alloc) {
        None => FoundPair::of(None),
        Some(mut map) => {
            let found = cut(&mut map, at);
            put(handle, map);
            found
        }
    }
}

/// Removes all pairs. The slots, the load factor and the map's memory stay.
#[unsafe(no_mangle)]
pub extern "C" fn intmap_clear(alloc: Global, handle: &mut Handle)
    ensures { OnMap handle.old.value handle.new.value ⊤ (λ m n. n ≡ emptied m) }
{
    if let Some(mut map) = take(handle, alloc) {
        map.clear();
        put(handle, map);
    }
}
