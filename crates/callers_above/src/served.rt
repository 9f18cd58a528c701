//! Sessions over bytes that a program has in memory.
ghost use Rattle.std.specs.Prelude.{◌≡◌, ◌⊎◌, IfOk, IfErr};
ghost use Rattle.intmap_text.specs.Commands.{SpellsNone};
ghost use Rattle.intmap_text.specs.Serving.{IsAnswered};

use intmap_text::serve;
use std::alloc::Allocator;

/// Runs the commands that a text spells, and returns the lines of their answers.
///
/// It fails with the status of [`serve`]. If that is 2, the text spells no list of commands.
pub fn answer_lines<A: Allocator + Copy>(alloc: A, text: &[u8]) -> Result<Vec<u8, A>, u8>
    ensures ok { IfOk result (λ lines. IsAnswered A text.now lines.items) }
    ensures status { IfErr result (λ status. (status ≡ 2) ⊎ (status ≡ 3) ⊎ (status ≡ 4)) }
    ensures not_a_command { IfErr result (λ status. status ≡ 2 → SpellsNone A text.now) }
{
    let mut input = text;
    let mut lines = Vec::new(alloc);
    let mut faults = Vec::new(alloc);
    match serve(alloc, &mut input, &mut lines, &mut faults) {
        0 => Ok(lines),
        status => Err(status),
    }
}
