//! Prints the three most frequent numbers of a text with one number a line, each with its count. Of
//! two numbers with equal counts, the smaller is first.
//!
//! Run it by `rt try <stdin` in this folder, or by `rt run <stdin`, which proves it first.
#![tactic(auto)]

ghost use Rattle.std.specs.Prelude.{◌≡◌, ◌+◌, ◌-◌, ◌^◌, ◌<◌, ◌==◌, ℕ, Some, IfOk, OnOk, count_by};
ghost use Rattle.intmap.specs.Bindings.{Updates};
ghost use Rattle.example_counter.specs.Counts.{count_of};

use anyhow::{Result, bail};
use intmap::{Cause, IntMap};
use std::alloc::{AllocError, Global};
use std::cmp::Reverse;

/// Counts one occurrence of the number.
fn count_one(counts: &mut IntMap<u64, u64>, number: u64) -> Result<(), Cause>
    requires { count_of counts.old.walk number < 2 ^ 64 - 1 }
    ensures { OnOk result (Updates (λ key. key) counts.old.walk counts.new.walk number
        (Some (count_of counts.old.walk number + 1))) }
{
    *counts.entry(number).or_insert(0)? += 1;
    Ok(())
}

/// Counts the numbers.
///
/// Proved: the count of a number is how many elements of the slice are equal to it.
fn count(alloc: Global, numbers: &[u64]) -> Result<IntMap<u64, u64>, Cause>
    ensures { IfOk result (λ counts. (number : ℕ)
        → count_of counts.walk number ≡ count_by (λ element. element == number) numbers.now) }
{
    let mut counts = IntMap::new(alloc)?;
    for number in numbers {
        count_one(&mut counts, *number)?;
    }
    Ok(counts)
}

/// The numbers with their counts, the greatest count first.
fn most_frequent(alloc: Global, counts: &IntMap<u64, u64>) -> Result<Vec<(u64, u64)>, AllocError> {
    let mut pairs = Vec::new(alloc);
    for (number, count) in counts {
        pairs.push((*number, *count))?;
    }
    pairs.sort_by_key(|(number, count)| (Reverse(*count), *number))?;
    Ok(pairs)
}

fn main(rt: HostRuntime) -> Result<()> {
    let mut numbers = Vec::new(rt.alloc());
    for (i, line) in rt.lines(rt.alloc()).enumerate() {
        let Ok(number) = line?.as_str().trim().parse::<u64>() else {
            bail!("line {}: not a number from 0 to 2^64 - 1", i + 1);
        };
        numbers.push(number)?;
    }
    let counts = count(rt.alloc(), numbers.as_slice())?;
    for (number, count) in most_frequent(rt.alloc(), &counts)?.iter().take(3) {
        println!(rt; "{number}: {count}")?;
    }
    Ok(())
}
