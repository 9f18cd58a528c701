//! Names of commands, grouped by how many numbers follow.
ghost use Rattle.std.specs.Prelude.{◌≡◌, ◌≢◌, ◌↔◌, ℕ, [], ◌∷◌, IfSome, IfNone, IsTrue, codes};
ghost use Rattle.intmap_run.specs.declared.command.Command.{Command};
ghost use Rattle.intmap_text.specs.Words.{IsSpelled};

use intmap_run::Command;
use std::alloc::Allocator;

/// Whether the name is `extend`, the command that any number of pairs follows.
pub fn is_extend(name: &[u8]) -> bool
    ensures { IsTrue result ↔ (name.now ≡ codes "extend") }
{
    is(name, b"extend")
}

/// The command of this name without a number, except `extend`.
pub fn bare<A: Allocator>(name: &[u8]) -> Option<Command<u64, u64, A>>
    ensures some { IfSome result (IsSpelled name.now []) }
    ensures none { IfNone result (name.now ≢ codes "extend"
        → (c : Command ℕ ℕ A) → ¬ IsSpelled name.now [] c) }
{
    if is(name, b"get_load_factor") {
        Some(Command::GetLoadFactor)
    } else if is(name, b"len") {
        Some(Command::Len)
    } else if is(name, b"is_empty") {
        Some(Command::IsEmpty)
    } else if is(name, b"clear") {
        Some(Command::Clear)
    } else if is(name, b"retain") {
        Some(Command::Retain)
    } else if is(name, b"capacity") {
        Some(Command::Capacity)
    } else if is(name, b"load") {
        Some(Command::Load)
    } else if is(name, b"load_rate") {
        Some(Command::LoadRate)
    } else if is(name, b"assert_count") {
        Some(Command::AssertCount)
    } else if is(name, b"walk") {
        Some(Command::Walk)
    } else if is(name, b"keys") {
        Some(Command::Keys)
    } else if is(name, b"values") {
        Some(Command::Values)
    } else if is(name, b"collisions") {
        Some(Command::Collisions)
    } else {
        None
    }
}

/// The command of this name with one number.
pub fn with_number<A: Allocator>(name: &[u8], number: u64) -> Option<Command<u64, u64, A>>
    ensures some { IfSome result (IsSpelled name.now (number ∷ [])) }
    ensures none { IfNone result (name.now ≢ codes "extend"
        → (c : Command ℕ ℕ A) → ¬ IsSpelled name.now (number ∷ []) c) }
{
    if is(name, b"get") {
        Some(Command::Get(number))
    } else if is(name, b"contains_key") {
        Some(Command::ContainsKey(number))
    } else if is(name, b"remove") {
        Some(Command::Remove(number))
    } else if is(name, b"reserve") {
        Some(Command::Reserve(number as usize))
    } else if is(name, b"set_load_factor") {
        Some(Command::SetLoadFactor(number as usize))
    } else if is(name, b"entry_remove") {
        Some(Command::EntryRemove(number))
    } else if is(name, b"drain") {
        Some(Command::Drain(number as usize))
    } else {
        None
    }
}

/// The command of this name with a key and a value, except `extend`.
pub fn with_pair<A: Allocator>(name: &[u8], key: u64, value: u64) -> Option<Command<u64, u64, A>>
    ensures some { IfSome result (IsSpelled name.now (key ∷ value ∷ [])) }
    ensures none { IfNone result (name.now ≢ codes "extend"
        → (c : Command ℕ ℕ A) → ¬ IsSpelled name.now (key ∷ value ∷ []) c) }
{
    if is(name, b"insert") {
        Some(Command::Insert(key, value))
    } else if is(name, b"insert_checked") {
        Some(Command::InsertChecked(key, value))
    } else if is(name, b"get_mut") {
        Some(Command::GetMut(key, value))
    } else if is(name, b"entry_insert") {
        Some(Command::EntryInsert(key, value))
    } else {
        None
    }
}

/// Whether the name is this word.
fn is(name: &[u8], word: &[u8]) -> bool
    ensures { IsTrue result ↔ (name.now ≡ word.now) }
{
    name == word
}
