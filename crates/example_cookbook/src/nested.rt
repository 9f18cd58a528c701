//! Maps in a map.

use anyhow::Result;
use intmap::IntMap;
use std::alloc::Global;

/// How many units of each article each customer ordered, by customer and then by article.
pub type Units = IntMap<u64, IntMap<u64, u64>>;

/// Adds units to what a customer ordered of an article, up to 2^64 - 1.
pub fn order(
    alloc: Global,
    units: &mut Units,
    customer: u64,
    article: u64,
    more: u64,
) -> Result<()> {
    let entry = units.entry(customer);
    let articles = entry.or_try_insert_with(|| IntMap::new(alloc))?;
    let count = articles.entry(article).or_insert(0)?;
    *count = count.saturating_add(more);
    Ok(())
}
