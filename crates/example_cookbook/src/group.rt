//! Groups values into lists.

use anyhow::Result;
use intmap::IntMap;
use std::alloc::Global;

/// The orders of each customer, in the order in which they came.
pub fn orders_by_customer(alloc: Global, orders: &[(u64, u64)]) -> Result<IntMap<u64, Vec<u64>>> {
    let mut lists: IntMap<u64, Vec<u64>> = IntMap::new(alloc)?;
    for (customer, order) in orders {
        lists.entry(*customer).or_default()?.push(*order)?;
    }
    Ok(lists)
}
