//! Numbers in canonical decimal.
ghost use Rattle.std.specs.Prelude.{◌≡◌, ◌≤◌, ◌<◌, ◌^◌, ◌↔◌, ℕ, length, slice_index, IsTrue, IfSome, IfNone};
ghost use Rattle.intmap_text.specs.Commands.{IsNumeral};

use core::dec2flt::read_digits;

/// The number that a word writes, at most 2^64 - 1, or `None` if it writes none. A word writes a
/// number by its decimal digits, with no sign and no leading zero.
pub fn number(word: &[u8]) -> Option<u64>
    ensures some { IfSome result (IsNumeral word.now) }
    ensures none { IfNone result ((n : ℕ) → ¬ IsNumeral word.now n) }
{
    let (end, value) = read_digits(word, 0, 0);
    if end < word.len() {
        return None;
    }
    if is_canonical(word, value) {
        Some(value)
    } else {
        None
    }
}

/// Whether digits have no leading zero and write a number below 2^64. `value` is their number
/// modulo 2^64.
///
/// Up to 19 digits always write a number below 2^64. Twenty digits do so only if they begin with a
/// 1, so that their number is below 2 * 10^19. If that number reaches 2^64, `value` has fewer than
/// 20 digits.
fn is_canonical(digits: &[u8], value: u64) -> bool
    ensures { IsTrue result ↔ (0 < length digits.now)
        × (slice_index digits.now 0 ≡ 48 → length digits.now ≡ 1) × (length digits.now ≤ 20)
        × (length digits.now ≡ 20 → (slice_index digits.now 0 ≡ 49) × (10 ^ 19 ≤ value)) }
{
    match digits {
        [] => false,
        [_] => true,
        [first, ..] => match digits.len() {
            0..20 => *first != b'0',
            20 => *first == b'1' && 10_000_000_000_000_000_000 <= value,
            _ => false,
        },
    }
}
