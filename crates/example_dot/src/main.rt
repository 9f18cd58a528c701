//! Prints the dot product of two vectors. Each is a list of lines with a place and its value. A
//! blank line separates the two.
//!
//! Run it by `rt try <stdin` in this folder, or by `rt run <stdin`, which proves it first.
#![tactic(auto)]

ghost use Rattle.std.specs.Prelude.{◌≡◌, ℕ, IfOk, IfSome};
ghost use Rattle.intmap_sparse.specs.Vectors.{value_at};
ghost use Rattle.example_dot.specs.Lists.{last_value, dot};

use anyhow::{Context, Result, bail, ensure};
use intmap::Cause;
use intmap_sparse::SparseVec;
use std::alloc::Global;

/// The vector that has at each place the list's last value of it, and 0 at any other place.
fn vector_of(alloc: Global, list: &[(u64, i64)]) -> Result<SparseVec, Cause>
    ensures { IfOk result (λ vector. (place : ℕ)
        → value_at vector.walk place ≡ last_value list.now place) }
{
    let mut vector = SparseVec::new(alloc)?;
    for (place, value) in list {
        vector.set(*place, *value)?;
    }
    Ok(vector)
}

/// The dot product of the vectors of both lists, or `None` if a sum on the way is too large.
///
/// Proved: it is the sum, over all 2^64 places, of the products of the lists' last values there.
fn dot_product(
    alloc: Global,
    left: &[(u64, i64)],
    right: &[(u64, i64)],
) -> Result<Option<i128>, Cause>
    ensures { IfOk result (λ product. IfSome product (λ sum. sum ≡ dot left.now right.now)) }
{
    let left = vector_of(alloc, left)?;
    let right = vector_of(alloc, right)?;
    Ok(left.dot(&right))
}

/// The place and the value of a line such as `5 -3`.
fn pair_of(line: &str) -> Option<(u64, i64)> {
    let (place, value) = line.split_once(' ')?;
    Some((place.parse().ok()?, value.parse().ok()?))
}

fn main(rt: HostRuntime) -> Result<()> {
    let mut left = Vec::new(rt.alloc());
    let mut right = Vec::new(rt.alloc());
    let mut is_left = true;
    for (i, line) in rt.lines(rt.alloc()).enumerate() {
        let line = line?;
        if is_left && line.is_empty() {
            is_left = false;
            continue;
        }
        let Some(pair) = pair_of(line.as_str()) else {
            bail!("line {}: not a place and a value", i + 1);
        };
        if is_left {
            left.push(pair)?;
        } else {
            right.push(pair)?;
        }
    }
    ensure!(!is_left, "no blank line separates two vectors");
    let product = dot_product(rt.alloc(), left.as_slice(), right.as_slice())?;
    let product = product.context("a sum of the products needs more than 128 bits")?;
    println!(rt; "{product}")?;
    Ok(())
}
