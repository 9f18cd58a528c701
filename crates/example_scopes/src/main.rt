//! A symbol table with scopes, whose symbols and values are numbers. It reads the lines `enter`,
//! `leave`, `let SYMBOL VALUE` and `SYMBOL`. For the last it prints the value of the symbol, or
//! `undefined`.
//!
//! Run it by `rt try <stdin` in this folder, or by `rt run <stdin`, which proves it first.
#![tactic(auto)]

ghost use Rattle.std.specs.Prelude.{◌≡◌, ◌==◌, ℕ, Some, OnOk, cond};
ghost use Rattle.example_scopes.specs.Scopes.{value_in, outer_scopes};

use anyhow::{Result, bail, ensure};
use intmap::IntMap;
use std::alloc::Global;

/// The values of the symbols that one scope defines. Open scopes are a list, the innermost last.
type Scope = IntMap<u64, i64>;

/// Enters a scope that defines no symbol yet.
fn enter(alloc: Global, scopes: &mut Vec<Scope>) -> Result<()>
    ensures values { OnOk result ((q : ℕ)
        → value_in scopes.new.items q ≡ value_in scopes.old.items q) }
    ensures outer { OnOk result (outer_scopes scopes.new.items ≡ scopes.old.items) }
{
    scopes.push(IntMap::new(alloc)?)?;
    Ok(())
}

/// Leaves the innermost scope. Every symbol then has the value that it had before that scope.
fn leave(scopes: &mut Vec<Scope>)
    ensures { scopes.new.items ≡ outer_scopes scopes.old.items }
{
    scopes.pop();
}

/// Gives the symbol a value in the innermost scope. The scopes around it stay as they were.
fn define(scopes: &mut Vec<Scope>, symbol: u64, value: i64) -> Result<()>
    ensures values { OnOk result ((q : ℕ) → value_in scopes.new.items q
        ≡ cond (q == symbol) (Some value) (value_in scopes.old.items q)) }
    ensures outer { outer_scopes scopes.new.items ≡ outer_scopes scopes.old.items }
{
    let Some(scope) = scopes.last_mut() else {
        bail!("no scope is open");
    };
    scope.insert(symbol, value)?;
    Ok(())
}

/// The value of the symbol in the innermost scope that defines it.
fn value_of(scopes: &[Scope], symbol: u64) -> Option<i64>
    ensures { result ≡ value_in scopes.now symbol }
{
    for scope in scopes.iter().rev() {
        if let Some(value) = scope.get(symbol) {
            return Some(*value);
        }
    }
    None
}

/// The symbol and the value of a line such as `let 5 -3`.
fn definition_of(line: &str) -> Option<(u64, i64)> {
    let (symbol, value) = line.strip_prefix("let ")?.split_once(' ')?;
    Some((symbol.parse().ok()?, value.parse().ok()?))
}

fn main(rt: HostRuntime) -> Result<()> {
    let mut scopes = Vec::new(rt.alloc());
    enter(rt.alloc(), &mut scopes)?;
    for (i, line) in rt.lines(rt.alloc()).enumerate() {
        let line = line?;
        let line = line.as_str().trim();
        if line == "enter" {
            enter(rt.alloc(), &mut scopes)?;
        } else if line == "leave" {
            ensure!(scopes.len() > 1, "line {}: no scope was entered", i + 1);
            leave(&mut scopes);
        } else if line.starts_with("let ") {
            let Some((symbol, value)) = definition_of(line) else {
                bail!("line {}: not `let SYMBOL VALUE`", i + 1);
            };
            define(&mut scopes, symbol, value)?;
        } else {
            let Ok(symbol) = line.parse::<u64>() else {
                bail!("line {}: neither a command nor a symbol", i + 1);
            };
            match value_of(&scopes, symbol) {
                Some(value) => println!(rt; "{value}")?,
                None => println!(rt; "undefined")?,
            }
        }
    }
    Ok(())
}
