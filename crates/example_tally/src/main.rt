//! Counts how often each number stands on standard input, one a line.
#![tactic(auto)]

use anyhow::{Result, bail};
use intmap::IntMap;

fn main(rt: HostRuntime) -> Result<()> {
    let mut tally: IntMap<u64, u64> = IntMap::new(rt.alloc())?;
    for (i, line) in rt.lines(rt.alloc()).enumerate() {
        let Ok(number) = line?.as_str().trim().parse::<u64>() else {
            bail!("line {}: not a number from 0 to 2^64 - 1", i + 1);
        };
        let count = tally.entry(number).or_insert(0)?;
        *count = count.saturating_add(1);
    }
    for (number, count) in &tally {
        println!(rt; "{number}: {count}")?;
    }
    Ok(())
}
