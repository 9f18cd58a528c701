//! Copies: of a struct with a map in it, and of a map with other values. And maps in a map.
ghost use Rattle.std.specs.Prelude.{◌+◌, ◌-◌, ◌^◌, ◌≡◌, ◌≢◌, IfOk, OnOk, Some, ℕ, map, min, option_map};
ghost use Rattle.intmap.specs.Bindings.{HasDistinctKeys};
ghost use Rattle.intmap.specs.Unsigned.{value_at};
ghost use Rattle.callers.specs.Bindings.{cell_at};

use crate::insertions::table_of;
use intmap::{Cause, IntMap, laws};
use std::alloc::{AllocError, Allocator, Global};

/// Prices by article number, for one year.
#[derive(Clone, Drop)]
pub struct PriceList {
    pub year: u32,
    pub prices: IntMap<u64, u64, Global>,
}

/// A copy of the list, for another year. Each article has its price. The list itself stays.
///
/// It fails if there is no memory for the copy.
pub fn for_year(list: &PriceList, year: u32) -> Result<PriceList, AllocError>
    ensures year { IfOk result (λ copy. copy.year ≡ year) }
    ensures prices { IfOk result (λ copy. (article : ℕ)
        → value_at copy.prices.walk article ≡ value_at list.now.prices.walk article) }
{
    laws::clones_bind_clones::<u64, u64>();
    let mut copy = list.clone()?;
    copy.year = year;
    Ok(copy)
}

/// A map of the same articles, each with twice its price, or with 2^64 - 1 if that is less.
///
/// It fails if the map can't be made or an insertion fails.
pub fn doubled<A: Allocator + Copy>(
    alloc: A,
    prices: &IntMap<u64, u64, A>,
) -> Result<IntMap<u64, u64, A>, Cause>
    ensures { IfOk result (λ made. (article : ℕ) → value_at made.walk article
        ≡ option_map (λ price. min (price + price) (2 ^ 64 - 1))
        (value_at prices.now.walk article)) }
{
    laws::mapped_walks_bind_mapped_values::<u64, u64, u64>();
    laws::reversed_lists_bind_the_same::<u64, u64>();
    let pairs = list_doubled(alloc, prices)?;
    table_of(alloc, pairs)
}

/// The articles, each with twice its price, or with 2^64 - 1 if that is less.
///
/// It fails if there is no memory for them.
fn list_doubled<A: Allocator + Copy>(
    alloc: A,
    prices: &IntMap<u64, u64, A>,
) -> Result<Vec<(u64, u64), A>, AllocError>
    ensures pairs { IfOk result (λ pairs. pairs.items
        ≡ map (λ pair. (pair.0, min (pair.1 + pair.1) (2 ^ 64 - 1))) prices.now.walk) }
    ensures distinct { HasDistinctKeys (λ key. key) prices.now.walk }
{
    prices
        .iter()
        .map(|(article, price)| (*article, price.saturating_add(*price)))
        .collect(alloc)
}

/// Sets the value in a column of a row. A row without a map gets one first. Every other row keeps
/// its values.
///
/// It fails if an insertion or a new map fails.
pub fn set_cell<A: Allocator + Copy>(
    rows: &mut IntMap<u32, IntMap<u32, u64, A>, A>,
    alloc: A,
    row: u32,
    column: u32,
    value: u64,
) -> Result<(), Cause>
    ensures here { OnOk result (cell_at rows.new.walk row column ≡ Some value) }
    ensures other_rows { OnOk result ((r c : ℕ) → r ≢ row
        → cell_at rows.new.walk r c ≡ cell_at rows.old.walk r c) }
{
    let columns = rows.entry(row).or_try_insert_with(|| IntMap::new(alloc))?;
    columns.insert(column, value)?;
    Ok(())
}
