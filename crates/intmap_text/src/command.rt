//! Commands from words.
ghost use Rattle.std.specs.Prelude.{◌≡◌, ◌≢◌, ◌≤◌, ℕ, List, ◌∷◌, length, IfOk, IfSome, IfNone, OnErr, codes};
ghost use Rattle.std.specs.List.{AllZip};
ghost use Rattle.intmap_run.specs.declared.command.Command.{Command};
ghost use Rattle.intmap_text.specs.Words.{keys_and_values};
ghost use Rattle.intmap_text.specs.Commands.{IsNumeral, Says};
ghost use Rattle.intmap_text.specs.Reading.{numbers_in};

use crate::number::number;
use crate::split::Words;
use crate::word::{bare, is_extend, with_number, with_pair};
use intmap_run::Command;
use std::alloc::{AllocError, Allocator};

/// The numbers behind the name of a command.
#[derive(Clone, Copy)]
pub enum Numbers {
    /// No number.
    Empty,
    /// One number.
    One(u64),
    /// Two numbers.
    Two(u64, u64),
}

/// The command that a line says by its name and the words behind it, or `None` if it says none. It
/// fails if there is no memory for the pairs of an `extend`. No other command allocates.
pub fn command<A: Allocator>(
    alloc: A,
    name: &[u8],
    words: Words<'_>,
) -> Result<Option<Command<u64, u64, A>>, AllocError>
    ensures some { IfOk result (λ found. IfSome found (Says (name.now ∷ words.entry))) }
    ensures none { IfOk result (λ found. IfNone found
        ((c : Command ℕ ℕ A) → ¬ Says (name.now ∷ words.entry) c)) }
    ensures memory { OnErr result (name.now ≡ codes "extend") }
{
    if is_extend(name) {
        Ok(read_pairs(alloc, words)?.map(|pairs| Command::Extend(pairs)))
    } else {
        Ok(short_command(name, words))
    }
}

/// The command that a line says by its name and at most two words behind it, except `extend`.
fn short_command<A: Allocator>(name: &[u8], words: Words<'_>) -> Option<Command<u64, u64, A>>
    ensures some { IfSome result (Says (name.now ∷ words.entry)) }
    ensures none { IfNone result (name.now ≢ codes "extend"
        → (c : Command ℕ ℕ A) → ¬ Says (name.now ∷ words.entry) c) }
{
    match read_numbers(words)? {
        Numbers::Empty => bare(name),
        Numbers::One(number) => with_number(name, number),
        Numbers::Two(key, value) => with_pair(name, key, value),
    }
}

/// The numbers that the words write, or `None` if there are more than two words or some word writes
/// no number.
fn read_numbers(mut words: Words<'_>) -> Option<Numbers>
    ensures some { IfSome result (λ found. AllZip IsNumeral words.entry (numbers_in found)) }
    ensures none { IfNone result ((ns : List ℕ) → length ns ≤ 2
        → ¬ AllZip IsNumeral words.entry ns) }
{
    let Some(first) = words.next() else {
        return Some(Numbers::Empty);
    };
    let first = number(first)?;
    let Some(second) = words.next() else {
        return Some(Numbers::One(first));
    };
    let second = number(second)?;
    match words.next() {
        None => Some(Numbers::Two(first, second)),
        Some(_) => None,
    }
}

/// The pairs that the words write, each key before its value, or `None` if the number of words is
/// odd or some word writes no number.
///
/// It fails if there is no memory for the pairs.
fn read_pairs<A: Allocator>(
    alloc: A,
    mut words: Words<'_>,
) -> Result<Option<Vec<(u64, u64), A>>, AllocError>
    ensures some { IfOk result (λ found. IfSome found
        (λ pairs. AllZip IsNumeral words.entry (keys_and_values pairs.items))) }
    ensures none { IfOk result (λ found. IfNone found
        ((pairs : List (ℕ × ℕ)) → ¬ AllZip IsNumeral words.entry (keys_and_values pairs))) }
{
    let mut pairs = Vec::new(alloc);
    while let Some(key) = words.next() {
        let Some(value) = words.next() else {
            return Ok(None);
        };
        let Some(pair) = read_pair(key, value) else {
            return Ok(None);
        };
        pairs.push(pair)?;
    }
    Ok(Some(pairs))
}

/// The pair of the numbers that two words write.
fn read_pair(key: &[u8], value: &[u8]) -> Option<(u64, u64)>
    ensures some { IfSome result (λ pair. IsNumeral key.now pair.0 × IsNumeral value.now pair.1) }
    ensures none { IfNone result ((k v : ℕ) → IsNumeral key.now k → ¬ IsNumeral value.now v) }
{
    Some((number(key)?, number(value)?))
}
