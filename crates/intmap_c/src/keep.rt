//! A call that keeps or removes pairs along the walk, 64 at a time.
ghost use Rattle.std.specs.Prelude.{◌≡◌};
ghost use Rattle.intmap_c.specs.Calls.{OnMap};
ghost use Rattle.intmap_c.specs.Walks.{Keeps};

use crate::handle::{Handle, put, take};
use intmap::IntMap;
use intmap::iter::Cursor;
use std::alloc::Global;

/// Removes pairs, and returns what [`intmap_keep_marked`] returns.
fn keep_marked(map: &mut IntMap<u64, u64>, at: &mut Cursor, marks: u64) -> usize
    ensures { Keeps map.old map.new at.old at.new marks result }
{
    map.keep_marked(at, marks)
}

/// Keeps the pairs whose bit is set among the next 64 of the walk from the cursor on, removes the
/// others, and returns how many these are. The lowest bit is that of the first pair. The pairs that
/// stay keep their order, and the cursor is then behind them. Where no pair is left, the cursor
/// stays. It allocates nothing.
#[unsafe(no_mangle)]
pub extern "C" fn intmap_keep_marked(
    alloc: Global,
    handle: &mut Handle,
    at: &mut Cursor,
    marks: u64,
) -> usize
    ensures { OnMap handle.old.value handle.new.value ((result ≡ 0) × (at.new ≡ at.old))
        (λ m n. Keeps m n at.old at.new marks result) }
{
    match take(handle, alloc) {
        None => 0,
        Some(mut map) => {
            let removed = keep_marked(&mut map, at, marks);
            put(handle, map);
            removed
        }
    }
}
