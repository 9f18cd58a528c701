//! Small tasks with maps. Each is a function of a module, or of the crate `cells`. This file prints
//! what they give.
//!
//! Run it by `rt try` in this folder, or by `rt run`, which proves it first. It reads nothing.
#![tactic(auto)]

use crate::fixed::FixedMap;
use anyhow::Result;
use cells::Cell;
use failing_alloc::FailingAlloc;
use intmap::IntMap;
use std::alloc::Global;

mod fixed;
mod group;
mod keep;
mod nested;

fn main(rt: HostRuntime) -> Result<()> {
    group_into_lists(&rt)?;
    order_units(&rt)?;
    use_cells_as_keys(&rt)?;
    keep_what_fails(&rt, &FailingAlloc::new(rt.alloc(), 0))?;
    fill_a_fixed_map(&rt)
}

/// Prints the orders of each customer.
fn group_into_lists(rt: &HostRuntime) -> Result<()> {
    let orders = [(3, 501), (8, 502), (3, 503)];
    for (customer, orders) in &group::orders_by_customer(rt.alloc(), &orders)? {
        println!(rt; "customer {customer}: {orders:?}")?;
    }
    Ok(())
}

/// Prints how many units of each article each customer ordered.
fn order_units(rt: &HostRuntime) -> Result<()> {
    let mut units = IntMap::new(rt.alloc())?;
    for (customer, article, more) in [(3, 70, 2), (8, 70, 1), (3, 70, 4)] {
        nested::order(rt.alloc(), &mut units, customer, article, more)?;
    }
    println!(rt; "{units:?}")?;
    Ok(())
}

/// Writes into cells of a sheet, and prints the sheet.
fn use_cells_as_keys(rt: &HostRuntime) -> Result<()> {
    let mut sheet: IntMap<Cell, u64> = IntMap::new(rt.alloc())?;
    for (row, column) in [(0, 0), (1, 0), (0, 26)] {
        match Cell::new(row, column) {
            Some(cell) => drop(cells::write(&mut sheet, cell, 5)?),
            None => println!(rt; "there is no column {column}")?,
        }
    }
    println!(rt; "{sheet:?}")?;
    Ok(())
}

/// Inserts two pairs into a map, of which the second needs memory that it doesn't get.
fn keep_what_fails(rt: &HostRuntime, memory: &FailingAlloc<Global>) -> Result<()> {
    let mut jobs: IntMap<u64, u64, &FailingAlloc<Global>> = IntMap::new(memory)?;
    memory.arm(1);
    for (number, job) in [(4, 40), (8, 80)] {
        match keep::insert_or_return(&mut jobs, number, job) {
            Ok(()) => println!(rt; "job {job} was inserted")?,
            Err(job) => println!(rt; "job {job} was returned")?,
        }
    }
    Ok(())
}

/// Inserts into a map of 8 slots until it is full, and then more.
fn fill_a_fixed_map(rt: &HostRuntime) -> Result<()> {
    let mut fixed = FixedMap::with_capacity(rt.alloc(), 8)?;
    for (key, value) in [
        (0, 9),
        (1, 8),
        (2, 7),
        (3, 6),
        (4, 5),
        (5, 4),
        (6, 3),
        (7, 2),
        (0, 1),
    ] {
        if let Err(value) = fixed.insert(key, value) {
            println!(rt; "{value} was returned")?;
        }
    }
    println!(rt; "{} slots", fixed.capacity())?;
    Ok(())
}
