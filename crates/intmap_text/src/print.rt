//! The lines of answers.
ghost use Rattle.std.specs.Prelude.{◌≡◌, ◌++◌, IfOk, OnOk, string_bytes};
ghost use Rattle.intmap_text.specs.Printing.{cause_text, refusal_text, stopped_text, pairs_text, numbers_text, answer_text, lines_of};

use intmap::{Cause, RefusedPair};
use intmap_run::Answer;
use std::alloc::{AllocError, Allocator};

/// One line for each answer, each ended by a byte 10. It fails if there is no memory for them. Each
/// answer is dropped once it is printed.
pub fn print_answers<A: Allocator>(
    alloc: A,
    answers: Vec<Answer<u64, u64, u64, A>, A>,
) -> Result<String<A>, AllocError>
    ensures { IfOk result (λ text. string_bytes text ≡ lines_of answers.items) }
{
    let mut out = String::new(alloc);
    for answer in answers {
        print_answer(&mut out, &answer)?;
        out.push_str("\n")?;
    }
    Ok(out)
}

/// Appends an answer to `out`, without the end of its line.
///
/// It fails if there is no memory for the answer. A part of the answer may then be written.
pub fn print_answer<A: Allocator, B: Allocator>(
    out: &mut String<A>,
    answer: &Answer<u64, u64, u64, B>,
) -> Result<(), AllocError>
    ensures { OnOk result (string_bytes out.new ≡ string_bytes out.old ++ answer_text answer.now) }
{
    match answer {
        Answer::Old(None) | Answer::Seen(None) => out.push_str("none"),
        Answer::Old(Some(value)) | Answer::Seen(Some(value)) => write!(out, "some {value}"),
        Answer::Back(value) => write!(out, "back {value}"),
        Answer::Fresh => out.push_str("fresh"),
        Answer::Done => out.push_str("done"),
        Answer::Flag(true) => out.push_str("true"),
        Answer::Flag(false) => out.push_str("false"),
        Answer::Number(number) => write!(out, "{number}"),
        Answer::Walk(pairs) | Answer::Pairs(pairs) | Answer::Sizes(pairs) => {
            print_pairs(out, pairs.as_slice())
        }
        Answer::Keys(numbers) | Answer::Values(numbers) => print_numbers(out, numbers.as_slice()),
        Answer::Stopped(refused) => print_stopped(out, refused),
        Answer::Refused { cause, value } => print_refusal(out, *cause, *value),
    }
}

/// Writes why a command failed, after the value that it returns.
fn print_refusal<A: Allocator>(
    out: &mut String<A>,
    cause: Cause,
    value: Option<u64>,
) -> Result<(), AllocError>
    ensures { OnOk result
        (string_bytes out.new ≡ string_bytes out.old ++ refusal_text cause value) }
{
    let cause = cause_name(cause);
    match value {
        None => write!(out, "refused: {cause}"),
        Some(value) => write!(out, "refused {value}: {cause}"),
    }
}

/// Writes the first of several pairs that failed, the number of pairs inserted before it, and why
/// it failed.
fn print_stopped<A: Allocator>(
    out: &mut String<A>,
    refused: &RefusedPair<u64, u64>,
) -> Result<(), AllocError>
    ensures { OnOk result
        (string_bytes out.new ≡ string_bytes out.old ++ stopped_text refused.now) }
{
    let RefusedPair {
        key,
        value,
        applied,
        cause,
    } = refused;
    let cause = cause_name(*cause);
    write!(out, "stopped at {key} {value} after {applied}: {cause}")
}

/// Writes pairs in braces, in their order.
fn print_pairs<A: Allocator>(out: &mut String<A>, pairs: &[(u64, u64)]) -> Result<(), AllocError>
    ensures { OnOk result (string_bytes out.new ≡ string_bytes out.old ++ pairs_text pairs.now) }
{
    let [(key, value), rest @ ..] = pairs else {
        return out.push_str("{}");
    };
    write!(out, "{{{key}: {value}")?;
    for (key, value) in rest {
        write!(out, ", {key}: {value}")?;
    }
    out.push_str("}")
}

/// Writes numbers in brackets, in their order.
fn print_numbers<A: Allocator>(out: &mut String<A>, numbers: &[u64]) -> Result<(), AllocError>
    ensures { OnOk result
        (string_bytes out.new ≡ string_bytes out.old ++ numbers_text numbers.now) }
{
    let [number, rest @ ..] = numbers else {
        return out.push_str("[]");
    };
    write!(out, "[{number}")?;
    for number in rest {
        write!(out, ", {number}")?;
    }
    out.push_str("]")
}

/// The words for the cause of a failed command.
fn cause_name(cause: Cause) -> &'static str
    ensures { result.now ≡ cause_text cause }
{
    match cause {
        Cause::Memory => "memory",
        Cause::TooLarge => "too large",
    }
}
