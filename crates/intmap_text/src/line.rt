//! A command from a line.
ghost use Rattle.std.specs.Prelude.{◌≡◌, ℕ, List, ◌∷◌, IfOk, OnErr, codes};
ghost use Rattle.intmap_text.specs.Lines.{words_of};
ghost use Rattle.intmap_text.specs.Reading.{Reads};

use crate::command::command;
use crate::split::Words;
use intmap_run::Command;
use std::alloc::{AllocError, Allocator};

/// What one line is. The vector of a command is made over the allocator `A`.
#[derive(Drop)]
pub enum Line<A: Allocator> {
    /// It has no word.
    Blank,
    /// It says a command.
    Command(Command<u64, u64, A>),
    /// It has words, but they say no command.
    Unknown,
}

/// What the bytes of one line are, without the byte 10 that ends it.
///
/// It fails only if the first word is `extend` and there is no memory for the pairs behind it.
pub fn read_line<A: Allocator>(alloc: A, line: &[u8]) -> Result<Line<A>, AllocError>
    ensures read { IfOk result (Reads (words_of line.now)) }
    ensures memory { OnErr result ((rest : List (List ℕ))
        × (words_of line.now ≡ codes "extend" ∷ rest)) }
{
    let mut words = Words::new(line);
    let Some(name) = words.next() else {
        return Ok(Line::Blank);
    };
    Ok(match command(alloc, name, words)? {
        Some(command) => Line::Command(command),
        None => Line::Unknown,
    })
}
