//! A session: bytes in, bytes out, and an exit status.
ghost use Rattle.std.specs.Prelude.{◌≡◌, ◌≢◌, ◌⊎◌, IfOk, IfErr, IfSome, OnOk, string_bytes};
ghost use Rattle.std.specs.Io.KnownBytes.{Appends, Keeps};
ghost use Rattle.intmap_text.specs.Commands.{Spells, SpellsNone};
ghost use Rattle.intmap_text.specs.Faults.{IsRefused};
ghost use Rattle.intmap_text.specs.Serving.{IsAnswered, Serves};

use crate::fault::Fault;
use crate::judge::OddJudge;
use crate::line::{Line, read_line};
use crate::print::print_answers;
use crate::split::Lines;
use intmap::IntMap;
use intmap_run::{Command, run};
use std::alloc::Allocator;
use std::io::{self, ErrorKind, Read, Write};

/// The status of a session whose answers are all written.
const DONE: u8 = 0;

/// Reads the input to its end, runs the commands in its lines on an empty map, and writes one line
/// for each answer. All its memory is allocated from `alloc`. It returns the exit status:
///
/// - 0: every line was a command or blank, and the answers are written;
/// - 2: some line is not a command; no command was run, and nothing was written;
/// - 3: an allocation failed outside a command; nothing was written;
/// - 4: the input or the output failed; if it was the output, a part of the answers may be written.
///
/// At every status except 0, it writes a line on `faults` that says what happened. Whether that
/// line could be written changes nothing. At 0 it writes nothing there.
pub fn serve<A: Allocator + Copy, R: Read, W: Write, E: Write>(
    alloc: A,
    input: &mut R,
    output: &mut W,
    faults: &mut E,
) -> u8
    ensures status { (result ≡ 0) ⊎ (result ≡ 2) ⊎ (result ≡ 3) ⊎ (result ≡ 4) }
    ensures done { result ≡ 0 → IfSome (R.remaining input.old)
        (λ text. Serves A text (W.contents output.old) (W.contents output.new)) }
    ensures not_a_command { result ≡ 2 → IfSome (R.remaining input.old) (SpellsNone A) }
    ensures silent { (result ≡ 2) ⊎ (result ≡ 3)
        → Keeps (W.contents output.old) (W.contents output.new) }
    ensures quiet { result ≡ 0 → Keeps (E.contents faults.old) (E.contents faults.new) }
{
    match exchange(alloc, input, output) {
        Ok(()) => DONE,
        Err(fault) => {
            let _ = fault.report(faults);
            fault.status()
        }
    }
}

/// Reads the whole input, and then writes the lines of its answers.
fn exchange<A: Allocator + Copy, R: Read, W: Write>(
    alloc: A,
    input: &mut R,
    output: &mut W,
) -> Result<(), Fault>
    ensures done { OnOk result (IfSome (R.remaining input.old)
        (λ text. Serves A text (W.contents output.old) (W.contents output.new))) }
    ensures err { IfErr result (λ fault. (fault ≡ Fault.Input) ⊎ (fault ≡ Fault.Output)
        ⊎ IfSome (R.remaining input.old) (λ text. IsRefused A text fault)) }
    ensures silent { IfErr result (λ fault. fault ≢ Fault.Output
        → Keeps (W.contents output.old) (W.contents output.new)) }
{
    let text = read_text(alloc, input)?;
    let lines = answer(alloc, text)?;
    send(output, lines.as_bytes()).map_err(|_error| Fault::Output)
}

/// The whole input, up to its end. An interrupted read is tried again.
fn read_text<A: Allocator, R: Read>(alloc: A, input: &mut R) -> Result<Vec<u8, A>, Fault>
    ensures ok { IfOk result (λ text. IfSome (R.remaining input.old) (λ all. text.items ≡ all)) }
    ensures err { IfErr result (λ fault. (fault ≡ Fault.Memory) ⊎ (fault ≡ Fault.Input)) }
{
    let mut text = Vec::new(alloc);
    match input.read_to_end(&mut text) {
        Ok(_) => Ok(text),
        Err(error) if error.kind() == ErrorKind::OutOfMemory => Err(Fault::Memory),
        Err(_) => Err(Fault::Input),
    }
}

/// The lines of the answers to a text. It runs no command before it knows that every line is a
/// command or blank. The text's memory is free again before the first answer is made, and the map's
/// before the first is printed.
fn answer<A: Allocator + Copy>(alloc: A, text: Vec<u8, A>) -> Result<String<A>, Fault>
    ensures ok { IfOk result (λ lines. IsAnswered A text.items (string_bytes lines)) }
    ensures err { IfErr result (IsRefused A text.items) }
{
    let commands = read_commands(alloc, text.as_slice())?;
    drop(text);
    let mut map = IntMap::new(alloc)?;
    let Ok(answers) = run(alloc, &mut map, commands, &OddJudge) else {
        return Err(Fault::Memory);
    };
    drop(map);
    Ok(print_answers(alloc, answers)?)
}

/// The commands that a text spells. Blank lines spell none, but count as lines.
///
/// It fails with the number of the first line that is not a command, or if there is no memory.
fn read_commands<A: Allocator + Copy>(
    alloc: A,
    text: &[u8],
) -> Result<Vec<Command<u64, u64, A>, A>, Fault>
    ensures some { IfOk result (λ found. Spells text.now found.items) }
    ensures err { IfErr result (IsRefused A text.now) }
{
    let mut found = Vec::new(alloc);
    let mut number = 0u128;
    for line in Lines::new(text) {
        number += 1;
        match read_line(alloc, line)? {
            Line::Blank => {}
            Line::Command(command) => found.push(command)?,
            Line::Unknown => return Err(Fault::NotACommand(number)),
        }
    }
    Ok(found)
}

/// Writes all the bytes and flushes.
fn send<W: Write>(output: &mut W, bytes: &[u8]) -> io::Result<()>
    ensures { OnOk result (Appends (W.contents output.old) (W.contents output.new) bytes.now) }
{
    output.write_all(bytes)?;
    output.flush()
}
