//! Makes the calls of rows on JSON, and reports each result that differs.
//!
//! Each argument is the name of a file of rows. `rows/README.md` says what a row may be.
#![tactic(auto)]

mod json;

use crate::json::report;
use std::alloc::AllocError;
use std::{env, fs, io};

/// Prints the name of each file, a line for each row that differs, and how many rows there are.
fn main(rt: HostRuntime) -> io::Result<()> {
    for file in env::args(&rt)?.skip(1) {
        let rows = fs::read_to_string(&rt, file.as_str())?;
        let report = report(rt.alloc(), rows.as_str()).map_err(|_| AllocError)?;
        print!(rt; "{file}:\n{report}")?;
    }
    Ok(())
}
